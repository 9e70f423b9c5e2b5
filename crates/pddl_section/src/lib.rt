// Actions, domains, problems and members of a text of PDDL: their form, and the offsets at which
// their parts stand.

#![tactic(auto)]

ghost use Rattle.pddl_form.specs.Inner.Place.{From};
ghost use Rattle.pddl_section.specs.Inner.Section.{Acts, Masked, ActionsEnd};
ghost use Rattle.pddl_section.specs.Inner.Section.{Domains, Problems, Members};

use mask::Mask;
use pddl_formula::Names;

// An action: its name, the offsets of its precondition and its effect, the facts that it needs,
// adds and deletes, whether all that it names are known (beside the masks as in `Literals`), the
// offset behind it.
#[derive(Clone, Copy)]
pub struct Act {
    pub first: usize,
    pub end: usize,
    pub precondition: usize,
    pub effect: usize,
    pub needs: Mask,
    pub adds: Mask,
    pub dels: Mask,
    pub known: bool,
    pub next: usize,
}

// A domain: its name, the offsets of its predicates and of its actions, the offset behind it.
#[derive(Clone, Copy, Default)]
pub struct Domain {
    pub first: usize,
    pub end: usize,
    pub predicates: usize,
    pub actions: usize,
    pub next: usize,
}

// A problem: the name of its domain, the offsets of its initial facts and of its goal, the offset
// behind it.
#[derive(Clone, Copy, Default)]
pub struct Problem {
    pub first: usize,
    pub end: usize,
    pub initially: usize,
    pub goal: usize,
    pub next: usize,
}

// A member: its domain, its problem.
#[derive(Clone, Copy, Default)]
pub struct Member {
    pub domain: Domain,
    pub problem: Problem,
}

// An action from a place on. Its facts are looked for among the names.
pub fn action_at(names: &Names, at: Option<usize>) -> Option<Act>
    ensures acts { From (Acts names.now.text.now) at result }
    ensures masked { Masked names.now.text.now names.now.spans.now names.now.more result }
{
    let text = names.text;
    let first = at?;
    let a = pddl_form::expect(text, Some(first), b"(:action")?;
    let name = pddl_form::name_at(text, Some(a))?;
    let precondition = pddl_form::expect(text, Some(name.next), b":parameters():precondition")?;
    let needed = pddl_formula::formula_at(names, Some(precondition), false)?;
    let effect = pddl_form::expect(text, Some(needed.next), b":effect")?;
    let changed = pddl_formula::formula_at(names, Some(effect), true)?;
    let next = pddl_form::close_at(text, Some(changed.next))?;
    Some(Act {
        first: name.first,
        end: name.end,
        precondition,
        effect,
        needs: needed.adds,
        adds: changed.adds,
        dels: changed.dels,
        known: needed.known & changed.known,
        next,
    })
}

// An action from an offset on, without a look at its facts.
pub fn plain_action_at(text: &[u8], at: usize) -> Option<Act>
    ensures { Acts text.now at result }
{
    let none = Names {
        text,
        spans: &[],
        more: text.len(),
    };
    action_at(&none, Some(at))
}

// Behind as many actions as there are. The like of `pddl_form::atoms_at`: with the reader as a
// closure one function for both would be no plainer.
fn actions_end(text: &[u8], at: usize) -> usize
    ensures { ActionsEnd text.now at result }
{
    let mut i = at;
    while let Some(a) = plain_action_at(text, i) {
        i = a.next;
    }
    i
}

// A domain.
fn domain_at(text: &[u8], at: usize) -> Option<Domain>
    ensures { Domains text.now at result }
{
    let a = pddl_form::expect(text, Some(at), b"(define(domain")?;
    let name = pddl_form::name_at(text, Some(a))?;
    let predicates = pddl_form::expect(text, Some(name.next), b")(:predicates")?;
    let c = pddl_form::atoms_at(text, Some(predicates))?;
    let actions = pddl_form::close_at(text, Some(c))?;
    let e = actions_end(text, actions);
    let next = pddl_form::close_at(text, Some(e))?;
    Some(Domain {
        first: name.first,
        end: name.end,
        predicates,
        actions,
        next,
    })
}

// A problem.
fn problem_at(text: &[u8], at: usize) -> Option<Problem>
    ensures { Problems text.now at result }
{
    let none = Names {
        text,
        spans: &[],
        more: text.len(),
    };
    let a = pddl_form::expect(text, Some(at), b"(define(problem")?;
    let name = pddl_form::name_at(text, Some(a))?;
    let b = pddl_form::expect(text, Some(name.next), b")(:domain")?;
    let of = pddl_form::name_at(text, Some(b))?;
    let c = pddl_form::expect(text, Some(of.next), b")(:init")?;
    let d = pddl_form::atoms_at(text, Some(c))?;
    let goal = pddl_form::expect(text, Some(d), b")(:goal")?;
    let f = pddl_formula::formula_at(&none, Some(goal), false)?;
    let g = pddl_form::close_at(text, Some(f.next))?;
    let next = pddl_form::close_at(text, Some(g))?;
    Some(Problem {
        first: of.first,
        end: of.end,
        initially: c,
        goal,
        next,
    })
}

// A member from an offset on: its domain, then its problem.
pub fn member_at(text: &[u8], at: usize) -> Option<Member>
    ensures { Members text.now at result }
{
    let domain = domain_at(text, at)?;
    let problem = problem_at(text, domain.next)?;
    Some(Member { domain, problem })
}

// The names of a law in PDDL, of which the form is known: whether all are known, none stands twice
// where it may not, and the members agree. In the same pass their rows are made.

#![tactic(auto)]

ghost use Rattle.std.specs.Prelude.{◌≡◌, ◌+◌, ◌*◌, ◌≤◌, length, ◌&&◌};
ghost use Rattle.semantics.specs.Base.{all_of};
ghost use Rattle.semantics.specs.Words.{states_in};
ghost use Rattle.semantics.specs.Task.{row_width};
ghost use Rattle.semantics.specs.Pddl.{is_in, same_set};
ghost use Rattle.pddl_form.specs.Inner.Place.{atoms_from};
ghost use Rattle.pddl_section.specs.Inner.Section.{actions_from};
ghost use Rattle.pddl_members.specs.Inner.Kept.{Kept};
ghost use Rattle.pddl_named.specs.Inner.Common.{FactsOf, GoalOf, CommonIn};
ghost use Rattle.pddl_named.specs.Inner.Rows.{GoalIn, MemberIn, MembersIn};

use mask::Mask;
use pddl_acts::Own;
use pddl_formula::Names;
use pddl_members::{Entry, Places};
use pddl_name::Span;
use pddl_section::Member;

const MOST_MEMBERS: usize = 8;

// What all members share: the offsets of the first one's predicates and initial facts, how many
// predicates there are, the offset of those that are not in the table, the initial facts as a mask.
#[derive(Clone, Copy)]
pub struct Common {
    pub predicates: usize,
    pub initially: usize,
    pub facts: usize,
    pub more: usize,
    pub mask: Mask,
}

// A text, the tables of its first predicates and of its first members, and what the members share.
#[derive(Clone, Copy)]
pub struct Whole<'a> {
    pub text: &'a [u8],
    pub spans: &'a [Span],
    pub table: &'a [Entry],
    pub common: Common,
    pub ghost holds: { CommonIn text.now spans.now common },
    pub ghost kept: { Kept text.now table.now },
}

// A list of facts: their mask over the table, and whether all are known; as `pddl_formula::Fact`.
#[derive(Clone, Copy)]
pub struct Facts {
    pub mask: Mask,
    pub known: bool,
}

// The atoms from an offset on as facts.
pub fn facts_from(names: &Names, at: usize) -> Facts
    ensures { FactsOf names.now.text.now names.now.spans.now names.now.more at result }
{
    let mut mask = mask::none();
    let mut known = true;
    let mut i = at;
    while let Some(a) = pddl_form::atom_at(names.text, Some(i)) {
        let f = pddl_formula::fact_of(names, a.first, a.end);
        mask = pddl_words::union(mask, f.bit);
        known = known & f.known;
        i = a.next;
    }
    Facts { mask, known }
}

// Are the member's initial facts known, and those of the first member? By masks where the table has
// all predicates. The first member's own are known.
fn same_facts(shared: &Whole, at: usize) -> bool
    ensures { result ≡ (all_of (is_in (atoms_from shared.now.text.now shared.now.common.predicates))
        (atoms_from shared.now.text.now at)
        && same_set (atoms_from shared.now.text.now at)
        (atoms_from shared.now.text.now shared.now.common.initially)) }
{
    let text = shared.text;
    let c = shared.common;
    if at == c.initially {
        return true;
    }
    let names = Names {
        text,
        spans: shared.spans,
        more: c.more,
    };
    let f = facts_from(&names, at);
    if !f.known {
        return false;
    }
    if c.facts <= pddl_words::MOST_FACTS {
        f.mask == c.mask
    } else {
        pddl_list::covered(text, at, c.initially) & pddl_list::covered(text, c.initially, at)
    }
}

// The facts of the goal at an offset; none where no formula stands there.
fn goal_facts(names: &Names, goal: usize) -> Facts
    ensures { GoalOf names.now.text.now names.now.spans.now names.now.more goal result }
{
    match pddl_formula::formula_at(names, Some(goal), false) {
        Some(g) => Facts {
            mask: g.adds,
            known: g.known,
        },
        None => Facts {
            mask: mask::none(),
            known: true,
        },
    }
}

// Are all facts of a goal known? Its row goes to its place in the table, if there is room for it.
fn goal_named(names: &Names, goal: usize, goals: &mut [u64], owner: usize) -> bool
    requires { row_width * 8 ≤ length goals.old }
    ensures { GoalIn names.now.text.now names.now.spans.now names.now.more goal
        goals.old owner goals.new result }
{
    let g = goal_facts(names, goal);
    if owner < MOST_MEMBERS {
        let at = pddl_words::ROW * owner;
        let none = mask::none();
        pddl_words::put_row(goals, at, owner as u64, g.mask, none, none, none);
    }
    g.known
}

// Is a member well named? The rows of its actions go into the table, its goal row into that of
// `goals`. `owner` is its number, `first` that of its first action.
fn well_named(
    shared: &Whole,
    m: Member,
    waits: &[u64],
    table: &mut [u64],
    goals: &mut [u64],
    owner: usize,
    first: usize,
) -> Own
    requires end_in_bounds { (m.domain.end ≤ length shared.now.text.now)
        × (m.problem.end ≤ length shared.now.text.now) }
    requires row_width_in_bounds { (row_width * 256 ≤ length table.old)
        × (256 ≤ states_in (length waits.now)) }
    requires row_width_in_bounds_2 { row_width * 8 ≤ length goals.old }
    requires actions_in_bounds { first
        + length (actions_from shared.now.text.now m.domain.actions)
        ≤ length shared.now.text.now }
    ensures { MemberIn shared.now.text.now shared.now.spans.now shared.now.common m waits.now
        table.old goals.old owner first table.new
        goals.new result }
{
    let text = shared.text;
    let c = shared.common;
    let names = Names {
        text,
        spans: shared.spans,
        more: c.more,
    };
    let d = m.domain;
    let p = m.problem;
    let number = owner as u64;
    let own = pddl_acts::own_actions(&names, waits, table, d.actions, number, first);
    let alike = pddl_list::alike(text, d.predicates, c.predicates);
    let named = pddl_name::same(text, p.first, p.end, text, d.first, d.end);
    let start = same_facts(shared, p.initially);
    let known = goal_named(&names, p.goal, goals, owner);
    Own {
        count: own.count,
        named: alike & own.named & named & start & known,
    }
}

// How many actions the members have, none where one of them is not well named. The actions' rows go
// into the table, the goal rows into that of `goals`.
pub fn all_named(
    shared: &Whole,
    waits: &[u64],
    table: &mut [u64],
    goals: &mut [u64],
) -> Option<usize>
    requires row_width_in_bounds { (row_width * 256 ≤ length table.old)
        × (256 ≤ states_in (length waits.now)) }
    requires row_width_in_bounds_2 { row_width * 8 ≤ length goals.old }
    ensures { MembersIn shared.now.text.now shared.now.spans.now shared.now.common waits.now
        table.old goals.old table.new goals.new result }
{
    let places = Places {
        text: shared.text,
        table: shared.table,
    };
    let mut owner = 0;
    let mut count = 0;
    let mut i = 0;
    while let Some(m) = pddl_members::member_in(&places, i) {
        let own = well_named(shared, m, waits, table, goals, owner, count);
        if !own.named {
            return None;
        }
        count += own.count;
        owner += 1;
        i = m.problem.next;
    }
    Some(count)
}

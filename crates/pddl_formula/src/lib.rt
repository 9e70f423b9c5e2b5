// Conditions and effects of PDDL: the facts that a formula names, as masks over a table of names. A
// formula is an atom, in an effect perhaps negated, or an `and` of formulas.

#![tactic(auto)]

ghost use Rattle.std.specs.Prelude.{◌≤◌, length};
ghost use Rattle.pddl_form.specs.Inner.Place.{From};
ghost use Rattle.pddl_formula.specs.Inner.Formula.{Ready, FactOf};
ghost use Rattle.pddl_formula.specs.Inner.Formula.{LiteralAt, NegationAt};
ghost use Rattle.pddl_formula.specs.Inner.Formula.{FormulaAt, ListAt, Goes};

use mask::Mask;
use pddl_name::Span;
use pddl_token::Token;

// The names of a text's facts: the first stand in the table, the others as atoms from the offset
// `more` on.
#[derive(Clone, Copy)]
pub struct Names<'a> {
    pub text: &'a [u8],
    pub spans: &'a [Span],
    pub more: usize,
    pub ghost ready: { Ready text.now spans.now },
}

// The facts that a formula adds and those that it deletes, whether all its names are known,
// and the offset behind it. No Option for `known`: the form is looked at to the end, and the facts
// that are known are told, where a name is not.
#[derive(Clone, Copy)]
pub struct Literals {
    pub adds: Mask,
    pub dels: Mask,
    pub known: bool,
    pub next: usize,
}

// The mask of a fact alone, empty for a name that is not in the table; whether the name is known,
// which a name that the table has no room for can be too. So no Option of the mask.
#[derive(Clone, Copy)]
pub struct Fact {
    pub bit: Mask,
    pub known: bool,
}

// The word s..e as a fact.
pub fn fact_of(names: &Names, s: usize, e: usize) -> Fact
    requires { e ≤ length names.now.text.now }
    ensures { FactOf names.now.text.now names.now.spans.now names.now.more s e result }
{
    match pddl_name::lookup(names.text, names.spans, s, e) {
        Some(k) => Fact {
            bit: pddl_words::fact(k),
            known: true,
        },
        None => Fact {
            bit: mask::none(),
            known: pddl_form::stands(names.text, names.more, s, e),
        },
    }
}

// The word s..e behind an opening parenthesis, as an atom: a name and the closing parenthesis.
fn literal(names: &Names, s: usize, e: usize) -> Option<Literals>
    requires { e ≤ length names.now.text.now }
    ensures { LiteralAt names.now.text.now names.now.spans.now names.now.more s e result }
{
    if !pddl_name::is_name(names.text, s, e) {
        return None;
    }
    let next = pddl_form::close_at(names.text, Some(e))?;
    let fact = fact_of(names, s, e);
    Some(Literals {
        adds: fact.bit,
        dels: mask::none(),
        known: fact.known,
        next,
    })
}

// What stands behind `(not`: an atom and the closing parenthesis.
fn negation(names: &Names, at: usize) -> Option<Literals>
    ensures { NegationAt names.now.text.now names.now.spans.now names.now.more at result }
{
    let a = pddl_form::atom_at(names.text, Some(at))?;
    let next = pddl_form::close_at(names.text, Some(a.next))?;
    let fact = fact_of(names, a.first, a.end);
    Some(Literals {
        adds: mask::none(),
        dels: fact.bit,
        known: fact.known,
        next,
    })
}

// A formula from behind its opening parenthesis, in which `and` may stand `allowed` deep, with
// negations or without.
#[cycle(formula_formulas)]
fn formula(names: &Names, at: usize, negations: bool, allowed: usize) -> Option<Literals>
    ensures { FormulaAt names.now.text.now names.now.spans.now names.now.more negations
        allowed at result }
{
    let Token::Word(s, e) = pddl_token::next_token(names.text, at) else {
        return None;
    };
    if pddl_name::same(names.text, s, e, b"and", 0, 3) {
        if allowed == 0 {
            return None;
        }
        return formulas(names, e, negations, allowed - 1);
    }
    if pddl_name::same(names.text, s, e, b"not", 0, 3) {
        if !negations {
            return None;
        }
        return negation(names, e);
    }
    literal(names, s, e)
}

// Formulas, up to the closing parenthesis.
#[cycle(formula_formulas)]
fn formulas(names: &Names, at: usize, negations: bool, allowed: usize) -> Option<Literals>
    ensures { ListAt names.now.text.now names.now.spans.now names.now.more negations
        allowed at result }
{
    let mut adds = mask::none();
    let mut dels = mask::none();
    let mut known = true;
    let mut i = at;
    loop {
        match pddl_token::next_token(names.text, i) {
            Token::Open(n) => {
                let f = formula(names, n, negations, allowed)?;
                adds = pddl_words::union(adds, f.adds);
                dels = pddl_words::union(dels, f.dels);
                known = known & f.known;
                i = f.next;
            }
            Token::Close(next) => {
                return Some(Literals {
                    adds,
                    dels,
                    known,
                    next,
                });
            }
            _ => return None,
        }
    }
}

// A formula from a place on, with 16 `and`s allowed: a condition, or with negations an effect.
pub fn formula_at(names: &Names, at: Option<usize>, negations: bool) -> Option<Literals>
    ensures { From (Goes names.now.text.now names.now.spans.now names.now.more negations) at
        result }
{
    let first = at?;
    let inside = pddl_form::open_at(names.text, Some(first))?;
    formula(names, inside, negations, 16)
}

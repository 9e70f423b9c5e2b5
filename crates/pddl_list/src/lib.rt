// Lists of atoms of a text of PDDL, each from an offset on: how many, whether two are alike,
// whether a name stands twice, whether one list has all names of another, and a table of the first
// names.

#![tactic(auto)]

ghost use Rattle.std.specs.Prelude.{◌≡◌, ◌≤◌, length};
ghost use Rattle.semantics.specs.Base.{all_of};
ghost use Rattle.semantics.specs.Pddl.{is_in, same_names, none_twice};
ghost use Rattle.pddl_theory.specs.Inner.Limits.{most_facts};
ghost use Rattle.pddl_name.specs.Inner.Table.{names_in, Spans};
ghost use Rattle.pddl_form.specs.Inner.Place.{atoms_from};
ghost use Rattle.pddl_list.specs.Inner.Table.{Tabled};

use pddl_name::Span;

// How many names stand in the table, and the offset from which the others stand.
#[derive(Clone, Copy)]
pub struct Table {
    pub count: usize,
    pub more: usize,
}

// The number of atoms from an offset on.
pub fn count(text: &[u8], at: usize) -> usize
    ensures { result ≡ length (atoms_from text.now at) }
{
    let mut n = 0;
    let mut i = at;
    while let Some(a) = pddl_form::atom_at(text, Some(i)) {
        n += 1;
        i = a.next;
    }
    n
}

// Are the atoms from one offset on the same, in order, as those from another on?
pub fn alike(text: &[u8], a: usize, b: usize) -> bool
    ensures { result ≡ same_names (atoms_from text.now a)
        (atoms_from text.now b) }
{
    let mut i = a;
    let mut j = b;
    loop {
        match (
            pddl_form::atom_at(text, Some(i)),
            pddl_form::atom_at(text, Some(j)),
        ) {
            (Some(x), Some(y)) => {
                if !pddl_name::same(text, x.first, x.end, text, y.first, y.end) {
                    return false;
                }
                i = x.next;
                j = y.next;
            }
            (Some(_), None) => return false,
            (None, Some(_)) => return false, // the second has more
            (None, None) => return true,
        }
    }
}

// Is none of the atoms from an offset on named twice?
pub fn distinct(text: &[u8], at: usize) -> bool
    ensures { result ≡ none_twice (atoms_from text.now at) }
{
    let mut i = at;
    while let Some(a) = pddl_form::atom_at(text, Some(i)) {
        if pddl_form::stands(text, a.next, a.first, a.end) {
            return false;
        }
        i = a.next;
    }
    true
}

// Is none of the names of a table there twice?
pub fn distinct_in(text: &[u8], spans: &[Span]) -> bool
    requires { Spans (length text.now) spans.now }
    ensures { result ≡ none_twice (names_in text.now spans.now) }
{
    for (k, part) in spans.iter().enumerate() {
        let again = pddl_name::lookup(text, &spans[k + 1..], part.first, part.end);
        if again.is_some() {
            return false;
        }
    }
    true
}

// Does each atom from one offset on stand among those from another on?
pub fn covered(text: &[u8], a: usize, b: usize) -> bool
    ensures { result ≡ all_of (is_in (atoms_from text.now b))
        (atoms_from text.now a) }
{
    let mut i = a;
    while let Some(x) = pddl_form::atom_at(text, Some(i)) {
        if !pddl_form::stands(text, b, x.first, x.end) {
            return false;
        }
        i = x.next;
    }
    true
}

// The first atoms from an offset on, at most 128, go into the table.
pub fn fill(text: &[u8], at: usize, spans: &mut [Span]) -> Table
    requires { most_facts ≤ length spans.old }
    ensures { Tabled text.now at spans.new result }
{
    let mut i = at;
    for n in 0..pddl_words::MOST_FACTS {
        let Some(a) = pddl_form::atom_at(text, Some(i)) else {
            return Table { count: n, more: i };
        };
        spans[n] = Span {
            first: a.first,
            end: a.end,
        };
        i = a.next;
    }
    Table {
        count: pddl_words::MOST_FACTS,
        more: i,
    }
}

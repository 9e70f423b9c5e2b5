// Words of a text of PDDL: whether two are the same, letter case apart, whether one is a name, and
// where one stands in a table of words.

#![tactic(auto)]

ghost use Rattle.std.specs.Prelude.{◌≡◌, not, ◌≤◌, length, eqb};
ghost use Rattle.semantics.specs.Base.{all_of};
ghost use Rattle.semantics.specs.Pddl as Pddl;
ghost use Rattle.semantics.specs.Pddl.{is_letter, is_name, small};
ghost use Rattle.pddl_theory.specs.Inner.Place.{span};
ghost use Rattle.pddl_name.specs.Inner.Table.{names_in, Spans, Looked};

// A word of a text: its first offset and the one behind it.
#[derive(Clone, Copy, Default)]
pub struct Span {
    pub first: usize,
    pub end: usize,
}

// A capital letter as a small one, any other byte as it is.
pub fn to_small(b: u8) -> u8
    ensures { result ≡ small b }
{
    b.to_ascii_lowercase()
}

// Is the part s..e of a text the same word as the part t..u of another? Parts of other lengths or
// with other last bytes are told apart before the loop.
pub fn same(text: &[u8], s: usize, e: usize, other: &[u8], t: usize, u: usize) -> bool
    requires { (e ≤ length text.now) × (u ≤ length other.now) }
    ensures { result ≡ Pddl.same (span text.now s e)
        (span other.now t u) }
{
    if e <= s {
        return u <= t;
    }
    if u <= t {
        return false;
    }
    if e - s != u - t {
        return false;
    }
    if to_small(text[e - 1]) != to_small(other[u - 1]) {
        return false;
    }
    for i in 0..e - s {
        if to_small(text[s + i]) != to_small(other[t + i]) {
            return false;
        }
    }
    true
}

fn letter(b: u8) -> bool
    ensures { result ≡ is_letter b }
{
    b.is_ascii_alphabetic()
}

// Has the part no colon?
fn no_colon(text: &[u8], s: usize, e: usize) -> bool
    requires { e ≤ length text.now }
    ensures { result ≡ all_of (λ c. not (eqb c 58)) (span text.now s e) }
{
    for i in s..e {
        if to_small(text[i]) == b':' {
            return false;
        }
    }
    true
}

// Is the part s..e of a text a name?
pub fn is_name(text: &[u8], s: usize, e: usize) -> bool
    requires { e ≤ length text.now }
    ensures { result ≡ is_name (span text.now s e) }
{
    if e <= s {
        return false;
    }
    letter(to_small(text[s]))
        & no_colon(text, s + 1, e)
        & !same(text, s, e, b"and", 0, 3)
        & !same(text, s, e, b"not", 0, 3)
}

// The first place of the part s..e of a text in a table of parts.
pub fn lookup(text: &[u8], spans: &[Span], s: usize, e: usize) -> Option<usize>
    requires { Spans (length text.now) spans.now × (e ≤ length text.now) }
    ensures { Looked (names_in text.now spans.now) (span text.now s e) result }
{
    for (k, part) in spans.iter().enumerate() {
        if same(text, s, e, text, part.first, part.end) {
            return Some(k);
        }
    }
    None
}

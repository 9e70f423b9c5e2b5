// What stands at a place of a text of PDDL: fixed tokens, names, atoms, lists of atoms. A place is
// an offset, or none outside the subset. The functions go on from a place to the one behind what
// they read; outside the subset they stay outside. `stands` looks a word up in a list of atoms.

#![tactic(auto)]

ghost use Rattle.std.specs.Prelude.{◌≡◌, ◌≤◌, length};
ghost use Rattle.semantics.specs.Pddl.{is_in};
ghost use Rattle.pddl_theory.specs.Inner.Place.{span};
ghost use Rattle.pddl_form.specs.Inner.Place.{behind_of, agreed, offset_of, atoms_from};
ghost use Rattle.pddl_form.specs.Inner.Place.{From, Opens, Closes, Expects, Names};
ghost use Rattle.pddl_form.specs.Inner.Place.{Atoms, AtomsEnd};

use pddl_token::Token;

// A word from its first offset up to the one behind it, and the offset behind what has it.
#[derive(Clone, Copy)]
pub struct Word {
    pub first: usize,
    pub end: usize,
    pub next: usize,
}

// Behind an opening parenthesis; like `close_at` but for the variant, which no parameter can name.
pub fn open_at(text: &[u8], at: Option<usize>) -> Option<usize>
    ensures { From (Opens text.now) at result }
{
    match pddl_token::next_token(text, at?) {
        Token::Open(n) => Some(n),
        _ => None,
    }
}

// Behind a closing parenthesis.
pub fn close_at(text: &[u8], at: Option<usize>) -> Option<usize>
    ensures { From (Closes text.now) at result }
{
    match pddl_token::next_token(text, at?) {
        Token::Close(n) => Some(n),
        _ => None,
    }
}

// A name.
pub fn name_at(text: &[u8], at: Option<usize>) -> Option<Word>
    ensures { From (Names text.now) at result }
{
    let Token::Word(first, end) = pddl_token::next_token(text, at?) else {
        return None;
    };
    if !pddl_name::is_name(text, first, end) {
        return None;
    }
    Some(Word {
        first,
        end,
        next: end,
    })
}

// An atom, a name in parentheses.
pub fn atom_at(text: &[u8], at: Option<usize>) -> Option<Word>
    ensures { From (Atoms text.now) at result }
{
    let first = at?;
    let inside = open_at(text, Some(first))?;
    let name = name_at(text, Some(inside))?;
    let next = close_at(text, Some(name.next))?;
    Some(Word {
        first: name.first,
        end: name.end,
        next,
    })
}

// Does a token of a text agree with one of a pattern?
fn agrees(text: &[u8], t: Token, pattern: &[u8], w: Token) -> bool
    requires { (offset_of (behind_of t) ≤ length text.now)
        × (offset_of (behind_of w) ≤ length pattern.now) }
    ensures { result ≡ agreed text.now t pattern.now w }
{
    match (w, t) {
        (Token::Open(_), Token::Open(_)) => true,
        (Token::Close(_), Token::Close(_)) => true,
        (Token::Word(a, b), Token::Word(s, e)) => pddl_name::same(pattern, a, b, text, s, e),
        _ => false,
    }
}

// The offset behind a token.
fn behind(t: Token) -> Option<usize>
    ensures { result ≡ behind_of t }
{
    match t {
        Token::Open(n) | Token::Close(n) | Token::Word(_, n) => Some(n),
        Token::End | Token::Stray => None,
    }
}

// Behind the tokens of a pattern.
pub fn expect(text: &[u8], at: Option<usize>, pattern: &[u8]) -> Option<usize>
    ensures { From (λ first behind. Expects text.now first pattern.now behind) at result }
{
    let mut i = at?;
    let mut j = 0;
    loop {
        let w = pddl_token::next_token(pattern, j);
        if let Token::End = w {
            return Some(i);
        }
        let t = pddl_token::next_token(text, i);
        if !agrees(text, t, pattern, w) {
            return None;
        }
        i = behind(t).unwrap_or(0);
        j = behind(w).unwrap_or(0);
    }
}

// Behind as many atoms as there are.
pub fn atoms_at(text: &[u8], at: Option<usize>) -> Option<usize>
    ensures { From (AtomsEnd text.now) at result }
{
    let mut i = at?;
    while let Some(a) = atom_at(text, Some(i)) {
        i = a.next;
    }
    Some(i)
}

// Does the word s..e stand among the atoms from an offset on?
pub fn stands(text: &[u8], at: usize, s: usize, e: usize) -> bool
    requires { e ≤ length text.now }
    ensures { result ≡ is_in (atoms_from text.now at) (span text.now s e) }
{
    let mut i = at;
    while let Some(a) = atom_at(text, Some(i)) {
        if pddl_name::same(text, s, e, text, a.first, a.end) {
            return true;
        }
        i = a.next;
    }
    false
}

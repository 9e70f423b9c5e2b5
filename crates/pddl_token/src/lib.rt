// The next token of a text of PDDL, from an offset on.

#![tactic(auto)]

ghost use Rattle.std.specs.Prelude.{◌≡◌, ◌≤◌, length};
ghost use Rattle.semantics.specs.Pddl.{in_word, is_blank};
ghost use Rattle.pddl_token.specs.Inner.Next.{LineEnd, Skipped, WordEnd, Next};

// A token: a parenthesis with the offset behind it; a word with its first offset and the one behind
// it; the text's end; a byte that no token has.
#[derive(Clone, Copy)]
pub enum Token {
    Open(usize),
    Close(usize),
    Word(usize, usize),
    End,
    Stray,
}

fn in_word(b: u8) -> bool
    ensures { result ≡ in_word b }
{
    b.is_ascii_alphanumeric() | (b == b'-') | (b == b':') | (b == b'_')
}

fn blank(b: u8) -> bool
    ensures { result ≡ is_blank b }
{
    (b == b' ') | (b == b'\t') | (b == b'\r') | (b == b'\n')
}

// The offset of the next LF from `at` on, or the text's end.
fn line_end(text: &[u8], at: usize) -> usize
    requires { at ≤ length text.now }
    ensures { LineEnd text.now at result }
{
    for i in at..text.len() {
        if text[i] == b'\n' {
            return i;
        }
    }
    text.len()
}

// The first offset from `at` on that is in no blank and no comment, or the text's end.
fn skip(text: &[u8], at: usize) -> usize
    requires { at ≤ length text.now }
    ensures { Skipped text.now at result }
{
    // A `while`: a comment is skipped as a whole, so the offset does not go up by one.
    let mut i = at;
    while i < text.len() {
        let b = text[i];
        if b == b';' {
            i = line_end(text, i + 1);
        } else if blank(b) {
            i += 1;
        } else {
            return i;
        }
    }
    i
}

// The first offset from `at` on whose byte is in no word, or the text's end.
fn word_end(text: &[u8], start: usize, at: usize) -> usize
    requires { (start ≤ at) × (at ≤ length text.now) }
    ensures { WordEnd text.now start at result }
{
    for i in at..text.len() {
        if !in_word(text[i]) {
            return i;
        }
    }
    text.len()
}

// The next token from `at` on.
pub fn next_token(text: &[u8], at: usize) -> Token
    ensures { Next text.now at result }
{
    if text.len() <= at {
        return Token::End;
    }
    let first = skip(text, at);
    if text.len() <= first {
        return Token::End;
    }
    let b = text[first];
    if b == b'(' {
        return Token::Open(first + 1);
    }
    if b == b')' {
        return Token::Close(first + 1);
    }
    if in_word(b) {
        Token::Word(first, word_end(text, first, first + 1))
    } else {
        Token::Stray
    }
}

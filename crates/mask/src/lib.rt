// Masks of facts, and the two kinds of copies made of them. No crate above takes a mask apart, and
// only here and where a task's words are read is it known how many words a mask takes.

#![tactic(auto)]

ghost use Rattle.std.specs.Prelude.{◌≡◌, ◌<◌, length, slice_index, eqb};
ghost use Rattle.std.proofs.Common.{rules};
ghost use Rattle.std.specs.Cmp.Rules.{comparing};
ghost use Rattle.semantics.specs.Mask.{has, within, without, after, below};
ghost use Rattle.semantics.specs.Words.{of_words, words_of, states_in};
ghost use Rattle.mask.specs.Number.{number};
ghost use Rattle.mask.specs.Inner.Stored.{mask_at, with_mask};

// How many words a mask takes.
pub const WORDS: usize = 2;

// The words of one.
pub type Words = [u64; WORDS];

// A set of facts: the low word, then the high word. Bit f stands for fact f, and for fact 64 + f in
// the high word.
#[derive(Clone, Copy)]
pub struct Mask(pub u64, pub u64);

// A member's local copy.
#[derive(Clone, Copy)]
pub struct Local(pub Mask);

// The shared copy.
#[derive(Clone, Copy)]
pub struct Shared(pub Mask);

// No fact.
pub fn none() -> Mask
    ensures { number result ≡ 0 }
{
    Mask(0, 0)
}

// The mask that two words hold, the low one first.
impl From<Words> for Mask {
    ghost from_gives = { λ w m. number m ≡ of_words (slice_index w 0) (slice_index w 1) };

    fn from(w: Words) -> Mask {
        Mask(w[0], w[1])
    }
}

// The words that hold a mask.
impl From<Mask> for Words {
    ghost from_gives = { λ m w. w ≡ words_of (number m) };

    fn from(m: Mask) -> Words {
        [m.0, m.1]
    }
}

// How many masks have room in so many words.
pub fn room(words: usize) -> usize
    ensures { result ≡ states_in words }
{
    words / WORDS
}

// Mask k of those that stand in the words, one after the other.
pub fn load(words: &[u64], k: usize) -> Mask
    requires { k < states_in (length words.now) }
    ensures { number result ≡ mask_at words.now k }
{
    let at = k * WORDS;
    Mask(words[at], words[at + 1])
}

// m as mask k.
pub fn store(words: &mut [u64], k: usize, m: Mask)
    requires { k < states_in (length words.old) }
    ensures { words.new ≡ with_mask words.old k (number m) }
{
    let at = k * WORDS;
    words[at] = m.0;
    words[at + 1] = m.1;
}

// The same facts. By hand, since a derive would say that the words are the same, and clauses speak
// of the numbers that masks stand for.
impl PartialEq for Mask {
    ghost eq = { λ a b. eqb (number a) (number b) };

    ghost laws = { Prim.search (comparing, rules) };

    fn eq(&self, other: &Mask) -> bool {
        self.0 == other.0 && self.1 == other.1
    }
}

impl Eq for Mask {
    ghost laws = { Prim.search (comparing, rules) };
}

// ---- what a step needs and does, word by word

// The facts of the word a that do not stand in b.
fn word_without(a: u64, b: u64) -> u64
    ensures { result ≡ without a b }
{
    a - (a & b)
}

// The word s without del, then with add.
fn word_after(s: u64, add: u64, del: u64) -> u64
    ensures { result ≡ after s add del }
{
    let rest = word_without(s, del);
    rest | add
}

// Fact f of the word stands.
fn word_has(x: u64, f: u64) -> bool
    requires { f < 64 }
    ensures { result ≡ has f x }
{
    (x >> f) % 2 == 1
}

// No bit of the word x at or above facts.
fn word_below(facts: u64, x: u64) -> bool
    ensures { result ≡ below facts x }
{
    if facts < 64 { x >> facts == 0 } else { true }
}

// Each fact of a stands in b: both words at once, which takes less time than one after the other.
pub fn within(a: Mask, b: Mask) -> bool
    ensures { result ≡ within (number a) (number b) }
{
    without(a, b) == none()
}

// The facts of a that do not stand in b.
pub fn without(a: Mask, b: Mask) -> Mask
    ensures { number result ≡ without (number a) (number b) }
{
    Mask(word_without(a.0, b.0), word_without(a.1, b.1))
}

// The state s without del, then with add.
pub fn after(s: Mask, add: Mask, del: Mask) -> Mask
    ensures { number result ≡ after (number s) (number add) (number del) }
{
    Mask(word_after(s.0, add.0, del.0), word_after(s.1, add.1, del.1))
}

// No bit of x at or above facts.
pub fn below(facts: u64, x: Mask) -> bool
    ensures { result ≡ below facts (number x) }
{
    if 64 <= facts {
        return word_below(facts - 64, x.1);
    }
    if x.1 != 0 {
        return false;
    }
    word_below(facts, x.0)
}

// Fact f, below 128, stands in m.
pub fn has(m: Mask, f: u64) -> bool
    requires { f < 128 }
    ensures { result ≡ has f (number m) }
{
    if f < 64 {
        return word_has(m.0, f);
    }
    word_has(m.1, f - 64)
}

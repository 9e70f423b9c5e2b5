// The masks and the rows of a law that is read, and the tables they go into.

#![tactic(auto)]

ghost use Rattle.std.specs.Prelude.{◌≡◌, ◌++◌, ◌+◌, ◌^◌, ◌≤◌, ◌<◌, length};
ghost use Rattle.std.specs.Int.Bits.{bit_or};
ghost use Rattle.semantics.specs.Words.{words_of, row_words};
ghost use Rattle.semantics.specs.Task.{row_width};
ghost use Rattle.mask.specs.Number.{number};
ghost use Rattle.pddl_theory.specs.Inner.Limits.{most_facts};
ghost use Rattle.pddl_theory.specs.Inner.Appended.{Appended};
ghost use Rattle.pddl_words.specs.Inner.Built.{head_words};

use mask::Mask;

pub const MOST_FACTS: usize = 128;

// Words in a row: a number, then four masks.
pub const ROW: usize = 9;

// The facts of a word.
const WORD_FACTS: usize = 64;

// Fact k alone.
pub fn fact(k: usize) -> Mask
    requires { k < most_facts }
    ensures { number result ≡ 2 ^ k }
{
    if k < WORD_FACTS {
        return Mask::from([1 << k, 0]);
    }
    Mask::from([0, 1 << (k - WORD_FACTS)])
}

// The facts of either mask.
pub fn union(a: Mask, b: Mask) -> Mask
    ensures { number result ≡ bit_or (number a) (number b) }
{
    mask::after(a, b, mask::none())
}

// A mask, from a word on.
fn put_mask(table: &mut [u64], at: usize, m: Mask)
    requires { at + 2 ≤ length table.old }
    ensures { Appended table.old at (words_of (number m)) table.new }
{
    let words = mask::Words::from(m);
    table[at] = words[0];
    table[at + 1] = words[1];
}

// Two masks, from a word on.
fn put_masks(table: &mut [u64], at: usize, a: Mask, b: Mask)
    requires { at + 4 ≤ length table.old }
    ensures { Appended table.old at (words_of (number a) ++ words_of (number b))
        table.new }
{
    put_mask(table, at, a);
    put_mask(table, at + 2, b);
}

// A row, from a word on: a number, then four masks.
pub fn put_row(table: &mut [u64], at: usize, first: u64, a: Mask, b: Mask, c: Mask, d: Mask)
    requires { at + row_width ≤ length table.old }
    ensures { Appended table.old at
        (row_words first (number a) (number b) (number c) (number d)) table.new }
{
    table[at] = first;
    put_masks(table, at + 1, a, b);
    put_masks(table, at + 5, c, d);
}

// Row 0, at the front: its second and third word stand where other rows have a mask.
pub fn put_head(table: &mut [u64], facts: u64, members: u64, actions: u64, initial: Mask)
    requires { row_width ≤ length table.old }
    ensures { Appended table.old 0
        (head_words facts members actions (number initial)) table.new }
{
    put_row(
        table,
        0,
        facts,
        Mask::from([members, actions]),
        initial,
        mask::none(),
        mask::none(),
    );
}

// The members of a text of PDDL: how many there are, and a table of the first ones.

#![tactic(auto)]

ghost use Rattle.std.specs.Prelude.{◌≤◌, length};
ghost use Rattle.pddl_section.specs.Inner.Section.{Members};
ghost use Rattle.pddl_members.specs.Inner.Kept.{Kept, Keeps, CountedIn};

use pddl_section::Member;
use pddl_token::Token;

// A member, and the offset at which it stands.
#[derive(Clone, Copy, Default)]
pub struct Entry {
    pub at: usize,
    pub member: Member,
}

// A text and a table of some of its members.
#[derive(Clone, Copy)]
pub struct Places<'a> {
    pub text: &'a [u8],
    pub table: &'a [Entry],
    pub ghost kept: { Kept text.now table.now },
}

// How many members the text has, none outside the subset; how many stand in the table.
#[derive(Clone, Copy)]
pub struct Counts {
    pub members: usize,
    pub kept: usize,
}

// The most entries.
pub const MOST: usize = 8;

// The member at an offset goes into the table, if there is room. The answer is the number of those
// in it.
fn keep(table: &mut [Entry], kept: usize, at: usize, member: Member) -> usize
    requires kept_bound { kept ≤ 8 }
    requires in_bounds { 8 ≤ length table.old }
    ensures { Keeps table.old kept at member table.new result }
{
    if kept < MOST {
        table[kept] = Entry { at, member };
        kept + 1
    } else {
        kept
    }
}

// The number of members of a text, the first of which go into the table.
pub fn count(text: &[u8], table: &mut [Entry]) -> Counts
    requires { 8 ≤ length table.old }
    ensures { CountedIn text.now result table.new }
{
    let mut n = 0;
    let mut kept = 0;
    let mut i = 0;
    while let Some(m) = pddl_reader::member_at(text, i) {
        kept = keep(table, kept, i, m);
        n += 1;
        i = m.problem.next;
    }
    match pddl_token::next_token(text, i) {
        Token::End => Counts { members: n, kept },
        _ => Counts { members: 0, kept },
    }
}

// The member from an offset on: from the table if it stands there, else it is read.
pub fn member_in(places: &Places, at: usize) -> Option<Member>
    ensures { Members places.now.text.now at result }
{
    for e in places.table {
        if e.at == at {
            return Some(e.member);
        }
    }
    pddl_reader::member_at(places.text, at)
}

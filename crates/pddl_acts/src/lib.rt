// The actions of a domain, from an offset on: how many, whether a name stands twice, whether all
// facts that they name are known, and their rows. Within the limits each is read once.

#![tactic(auto)]

ghost use Rattle.std.specs.Prelude.{◌≡◌, ◌+◌, ◌*◌, ◌≤◌, length};
ghost use Rattle.semantics.specs.Words.{states_in};
ghost use Rattle.semantics.specs.Task.{row_width};
ghost use Rattle.semantics.specs.Pddl.{is_in, none_twice};
ghost use Rattle.pddl_theory.specs.Inner.Place.{span};
ghost use Rattle.pddl_section.specs.Inner.Section.{actions_from};
ghost use Rattle.pddl_acts.specs.Inner.Names.{called_from, Noted, NamesIn};
ghost use Rattle.pddl_acts.specs.Inner.Own.{Placed, Tallied, OwnIn};

use pddl_formula::Names;
use pddl_name::Span;
use pddl_section::Act;

// How many actions there are, and whether all facts that they name are known: both are told, as the
// refusal for names stands before that for the count.
#[derive(Clone, Copy)]
pub struct Tally {
    pub count: usize,
    pub known: bool,
}

// How many actions there are, and whether all their names are as they should be. No twin of
// `Tally`: here the actions' own names count too.
#[derive(Clone, Copy)]
pub struct Own {
    pub count: usize,
    pub named: bool,
}

const MOST_ACTIONS: usize = 256;

// Is the word s..e the name of one of the actions from an offset on?
fn called(text: &[u8], at: usize, s: usize, e: usize) -> bool
    requires { e ≤ length text.now }
    ensures { result ≡ is_in (called_from text.now at) (span text.now s e) }
{
    let mut i = at;
    while let Some(a) = pddl_section::plain_action_at(text, i) {
        if pddl_name::same(text, s, e, text, a.first, a.end) {
            return true;
        }
        i = a.next;
    }
    false
}

// Is none of the actions from an offset on named twice? Each is looked for among those behind it.
fn distinct_from(text: &[u8], at: usize) -> bool
    ensures { result ≡ none_twice (called_from text.now at) }
{
    let mut i = at;
    while let Some(a) = pddl_section::plain_action_at(text, i) {
        if called(text, a.next, a.first, a.end) {
            return false;
        }
        i = a.next;
    }
    true
}

// Name n goes into the table, if there is room for it.
fn note(names: &mut [Span], n: usize, name: Span)
    requires { 256 ≤ length names.old }
    ensures { Noted names.old n name names.new }
{
    if n < MOST_ACTIONS {
        names[n] = name;
    }
}

// An action's row goes to its place in the table, if there is room for it.
fn place(table: &mut [u64], waits: &[u64], number: usize, owner: u64, a: Act)
    requires { (row_width * 256 ≤ length table.old)
        × (256 ≤ states_in (length waits.now)) }
    ensures { Placed waits.now table.old number owner a
        table.new }
{
    if number < MOST_ACTIONS {
        let at = pddl_words::ROW * number;
        let wait = mask::load(waits, number);
        pddl_words::put_row(table, at, owner, a.needs, wait, a.adds, a.dels);
    }
}

// The actions from the offset `start` on, in one pass: their names and their rows go into the
// tables. `owner` is the member's number, `first` that of its first action.
fn gather(
    facts: &Names,
    waits: &[u64],
    table: &mut [u64],
    names: &mut [Span],
    start: usize,
    owner: u64,
    first: usize,
) -> Tally
    requires row_width_in_bounds { (row_width * 256 ≤ length table.old)
        × (256 ≤ states_in (length waits.now)) }
    requires in_bounds { 256 ≤ length names.old }
    requires start_in_bounds { first + length (actions_from facts.now.text.now start)
        ≤ length facts.now.text.now }
    ensures { Tallied facts.now.text.now facts.now.spans.now facts.now.more
        waits.now table.old start owner first table.new
        names.new result }
{
    let mut count = 0;
    let mut known = true;
    let mut i = start;
    while let Some(a) = pddl_section::action_at(facts, Some(i)) {
        let name = Span {
            first: a.first,
            end: a.end,
        };
        note(names, count, name);
        place(table, waits, first + count, owner, a);
        known = known & a.known;
        count += 1;
        i = a.next;
    }
    Tally { count, known }
}

// Is none of the actions from an offset on named twice? By the table where it has all their names.
fn distinct(text: &[u8], names: &[Span], count: usize, at: usize) -> bool
    requires in_bounds { 256 ≤ length names.now }
    requires names_in { NamesIn text.now at names.now count }
    ensures { result ≡ none_twice (called_from text.now at) }
{
    if count <= MOST_ACTIONS {
        pddl_list::distinct_in(text, &names[..count])
    } else {
        distinct_from(text, at)
    }
}

// The same as `gather`, and whether a name stands twice.
pub fn own_actions(
    facts: &Names,
    waits: &[u64],
    table: &mut [u64],
    start: usize,
    owner: u64,
    first: usize,
) -> Own
    requires row_width_in_bounds { (row_width * 256 ≤ length table.old)
        × (256 ≤ states_in (length waits.now)) }
    requires start_in_bounds { first + length (actions_from facts.now.text.now start)
        ≤ length facts.now.text.now }
    ensures { OwnIn facts.now.text.now facts.now.spans.now facts.now.more
        waits.now table.old start owner first table.new result }
{
    let mut names = [Span::default(); MOST_ACTIONS];
    let t = gather(facts, waits, table, &mut names, start, owner, first);
    let distinct = distinct(facts.text, &names, t.count, start);
    Own {
        count: t.count,
        named: distinct & t.known,
    }
}

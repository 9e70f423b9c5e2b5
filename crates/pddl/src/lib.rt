// The reader of laws in PDDL: a text with a domain and a problem for each member, and a text of
// waits, in; the words of the task out.

#![tactic(auto)]

ghost use Rattle.std.specs.Prelude.{◌≡◌, ◌*◌, ◌≤◌, length};
ghost use Rattle.semantics.specs.Words.{states_in};
ghost use Rattle.semantics.specs.Task.{row_width};
ghost use Rattle.semantics.specs.Pddl.{none_twice, read_pddl};
ghost use Rattle.text.specs.Post.{reading};
ghost use Rattle.pddl_theory.specs.Inner.Limits.{most_facts};
ghost use Rattle.pddl_form.specs.Inner.Place.{atoms_from};
ghost use Rattle.pddl.specs.Inner.Law.{most_words, Begun, Naming, NamedIn};
ghost use Rattle.pddl.specs.Inner.Law.{BuiltOf, LawIn, LawFor};

use pddl_formula::Names;
use pddl_members::{Entry, Places};
use pddl_name::Span;
use pddl_named::{Common, Whole};
use pddl_section::Member;
use pddl_waits::Greatest;
use refusal::Refusal;

const MOST_MEMBERS: usize = 8;

const MOST_ACTIONS: usize = 256;

// The words of the most goal rows.
const GOALS: usize = pddl_words::ROW * MOST_MEMBERS;

// The words of the most rows of actions.
const ACTS: usize = pddl_words::ROW * MOST_ACTIONS;

// The words of the longest task.
const TASK: usize = pddl_words::ROW + GOALS + ACTS;

// The words of a mask for each action.
const MASKS: usize = mask::WORDS * MOST_ACTIONS;

// Is no predicate there twice? By the table where it has them all.
fn predicates_once(shared: &Whole) -> bool
    ensures { result ≡ none_twice (atoms_from shared.now.text.now shared.now.common.predicates) }
{
    if shared.common.facts <= pddl_words::MOST_FACTS {
        pddl_list::distinct_in(shared.text, shared.spans)
    } else {
        pddl_list::distinct(shared.text, shared.common.predicates)
    }
}

// How many actions there are, none where a name of the text is not as it should be. The actions'
// rows go into the table `acts`, the goal rows into `goals`.
fn names_hold(
    names: &Names,
    table: &[Entry],
    common: Common,
    known: bool,
    masks: &[u64],
    acts: &mut [u64],
    goals: &mut [u64],
) -> Option<usize>
    requires naming { Naming names.now.text.now names.now.spans.now table.now common known }
    requires row_width_in_bounds { (row_width * 256 ≤ length acts.old)
        × (256 ≤ states_in (length masks.now)) }
    requires row_width_in_bounds_2 { row_width * 8 ≤ length goals.old }
    ensures { NamedIn names.now.text.now names.now.spans.now masks.now
        acts.old goals.old acts.new goals.new result }
{
    if !known {
        return None;
    }
    let shared = Whole {
        text: names.text,
        spans: names.spans,
        table,
        common,
    };
    let actions = pddl_named::all_named(&shared, masks, acts, goals)?;
    if predicates_once(&shared) {
        Some(actions)
    } else {
        None
    }
}

// The task's rows go to the front of the table, those of goals and actions from tables of their
// own; the answer is the task check's.
fn build(
    c: Common,
    members: usize,
    actions: usize,
    goals: &[u64],
    acts: &[u64],
    table: &mut [u64],
) -> Result<(), Refusal>
    requires members_bound { (members ≤ 8) × (actions ≤ 256) × (c.facts ≤ most_facts) }
    requires row_width_in_bounds { (row_width * 8 ≤ length goals.now)
        × (row_width * 256 ≤ length acts.now) × (most_words ≤ length table.old) }
    ensures { BuiltOf c members actions goals.now acts.now
        table.new result }
{
    pddl_words::put_head(
        table,
        c.facts as u64,
        members as u64,
        actions as u64,
        c.mask,
    );
    let first = pddl_words::ROW * members;
    rows::store(table, first, pddl_words::ROW, goals);
    let from = pddl_words::ROW + first;
    let words = pddl_words::ROW * actions;
    rows::store(table, words, from, acts);
    let end = from + words;
    task::check(&table[..end])?;
    Ok(())
}

// The law of a text that has the form and of waits that were read, with the names of its first
// predicates and the table of its first members; `m` is the first member. The answer is the number
// of the task's rows.
fn named_law(
    names: &Names,
    entries: &[Entry],
    most: Option<Greatest>,
    masks: &[u64],
    m: Member,
    members: usize,
    table: &mut [u64],
) -> Result<usize, Refusal>
    requires begun { Begun names.now.text.now names.now.spans.now names.now.more entries.now
        m members }
    requires masks_value { (states_in (length masks.now) ≡ 256) × (most_words ≤ length table.old) }
    ensures { LawFor names.now.text.now most masks.now table.new result }
{
    let predicates = m.domain.predicates;
    let initially = m.problem.initially;
    let facts = pddl_list::count(names.text, predicates);
    let start = pddl_named::facts_from(names, initially);
    let c = Common {
        predicates,
        initially,
        facts,
        more: names.more,
        mask: start.mask,
    };
    let mut acts = [0; ACTS];
    let mut goals = [0; GOALS];
    let own = names_hold(names, entries, c, start.known, masks, &mut acts, &mut goals);
    let Some(actions) = own else {
        return Err(Refusal::Name);
    };
    if !pddl_waits::within(most, actions, facts) {
        return Err(Refusal::Name);
    }
    let few = (facts <= pddl_words::MOST_FACTS)
        & (members <= MOST_MEMBERS)
        & (actions <= MOST_ACTIONS);
    if !few {
        return Err(Refusal::Many);
    }
    build(c, members, actions, &goals, &acts, table)?;
    Ok(1 + members + actions)
}

// The law of a text, its rows at the front of the table; the answer is their number.
fn law_in(text: &[u8], waits: &[u8], table: &mut [u64]) -> Result<usize, Refusal>
    requires { most_words ≤ length table.old }
    ensures { LawIn text.now waits.now table.new result }
{
    let mut masks = [0; MASKS];
    let most = pddl_waits::read(waits, &mut masks)?;
    let mut entries = [Entry::default(); MOST_MEMBERS];
    let k = pddl_members::count(text, &mut entries);
    if k.members == 0 {
        return Err(Refusal::Pddl);
    }
    let places = Places {
        text,
        table: &entries[..k.kept],
    };
    let Some(m) = pddl_members::member_in(&places, 0) else {
        return Err(Refusal::Pddl);
    };
    let mut spans = [Span::default(); pddl_words::MOST_FACTS];
    let t = pddl_list::fill(text, m.domain.predicates, &mut spans);
    let names = Names {
        text,
        spans: &spans[..t.count],
        more: t.more,
    };
    named_law(&names, places.table, most, &masks, m, k.members, table)
}

// The reader: the task's words go to the front of the slice, zeros after them, and the answer is
// the number of records; or a refusal.
pub fn read(text: &[u8], waits: &[u8], words: &mut [u64]) -> Result<usize, Refusal>
    ensures { reading result words.new
        ≡ read_pddl text.now waits.now words.old }
{
    let mut table = [0; TASK];
    match law_in(text, waits, &mut table) {
        Ok(records) => {
            let end = pddl_words::ROW * records;
            if words.len() < end {
                return Err(Refusal::Short);
            }
            rows::store(words, end, 0, &table);
            rows::fill_from(words, end, 0);
            Ok(records)
        }
        Err(e) => {
            rows::fill_from(words, 0, 0);
            Err(e)
        }
    }
}

// The waits of a law in PDDL: records of an action's number and a fact's, any number of them, read
// one after the other.

#![tactic(auto)]

ghost use Rattle.std.specs.Prelude.{◌≡◌, ◌≤◌, length};
ghost use Rattle.semantics.specs.Base.{zeroed};
ghost use Rattle.pddl_waits.specs.Inner.Wait.{WaitMeans};
ghost use Rattle.pddl_waits.specs.Inner.Waits.{AddedIn, WaitsIn, within_of, grown_of};

use refusal::Refusal;
use text::{Last, Turn};

// Words in a record.
const FIELDS: usize = 2;

// A record: its action, its fact and the offset behind it.
#[derive(Clone, Copy)]
struct Wait {
    action: u64,
    fact: u64,
    next: usize,
}

// The greatest number of an action and of a fact in waits.
#[derive(Clone, Copy)]
pub struct Greatest {
    pub action: u64,
    pub fact: u64,
}

// The record at an offset where one begins; none at the text's end.
fn next_wait(waits: &[u8], from: usize) -> Result<Option<Wait>, Refusal>
    requires { from ≤ length waits.now }
    ensures { WaitMeans waits.now from result }
{
    let most = waits.len();
    let mut place = text::start();
    let mut action = 0;
    let mut fact = 0;
    for i in from..most {
        let Some(turn) = text::step(place, text::sort(waits[i]), FIELDS, most) else {
            return Err(Refusal::Text);
        };
        match turn {
            Turn::On(p) => {
                if p.records != 0 {
                    return Ok(Some(Wait {
                        action,
                        fact,
                        next: i + 1,
                    }));
                }
                place = p;
            }
            Turn::Word(v, p) => {
                action = fact;
                fact = v;
                place = p;
            }
        }
    }
    match text::at_end(place, FIELDS) {
        Some(Last::Records(_)) => Ok(None),
        Some(Last::Word(v, _)) => Ok(Some(Wait {
            action: fact,
            fact: v,
            next: most,
        })),
        None => Err(Refusal::Text),
    }
}

// One fact more for which an action waits, if the table has the action and the fact is below 128.
fn add(table: &mut [u64], action: u64, fact: u64)
    ensures { AddedIn table.old action fact table.new }
{
    if action < mask::room(table.len()) as u64 {
        if fact < pddl_words::MOST_FACTS as u64 {
            let k = action as usize;
            let one = pddl_words::fact(fact as usize);
            let facts = pddl_words::union(mask::load(table, k), one);
            mask::store(table, k, facts);
        }
    }
}

// The greatest numbers with one wait more.
fn grown(most: Option<Greatest>, w: Wait) -> Greatest
    ensures { result ≡ grown_of most w.action w.fact }
{
    match most {
        Some(m) => Greatest {
            action: m.action.max(w.action),
            fact: m.fact.max(w.fact),
        },
        None => Greatest {
            action: w.action,
            fact: w.fact,
        },
    }
}

// All waits in one pass: the greatest numbers in them, if there is a wait; refused where they are
// no records. The facts for which each of the first actions waits go into the table, a mask for
// each, all zeros before; what a wait beyond the table, or for a fact from 128 on, leaves in it is
// not told.
pub fn read(waits: &[u8], table: &mut [u64]) -> Result<Option<Greatest>, Refusal>
    requires { table.old ≡ zeroed table.old }
    ensures { WaitsIn waits.now table.new result }
{
    let mut most = None;
    let mut i = 0;
    while let Some(w) = next_wait(waits, i)? {
        add(table, w.action, w.fact);
        most = Some(grown(most, w));
        i = w.next;
    }
    Ok(most)
}

// Is each action's number below `actions`, each fact's below `facts`?
pub fn within(most: Option<Greatest>, actions: usize, facts: usize) -> bool
    ensures { result ≡ within_of most actions facts }
{
    match most {
        Some(m) => (m.action < actions as u64) & (m.fact < facts as u64),
        None => true,
    }
}

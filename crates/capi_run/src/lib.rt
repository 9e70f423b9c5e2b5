// A run of the C interface: its words, and what a pick, a commit and an ask on it answer.

#![tactic(auto)]

ghost use Rattle.std.specs.Prelude.{◌≡◌, false, ◌≤◌, length};
ghost use Rattle.refusal.specs.Number.{numbered};
ghost use Rattle.run_pick.specs.Value.{closed_of, run_of, reply_of, reply_with};
ghost use Rattle.run_ticket.specs.Value.{numbered_of, ask_of};
ghost use Rattle.capi_numbers.specs.Call.{call, told};
ghost use Rattle.capi_numbers.specs.Numbers as numbers;
ghost use Rattle.capi_run.specs.Runs.{run_words, no_run, closed_in, closed_word, open_in, run_in};
ghost use Rattle.capi_run.specs.Runs.{words_of_run, after};

use fault::Fault;
use mask::{Mask, Shared, Words};
use run_pick::{Reply, Run};
use run_ticket::{Asked, Numbered};

// ---- the words

// What the first word of a run says.
fn closed_in(word: u64) -> Option<Fault>
    ensures { closed_of result ≡ closed_in word }
{
    if word == 0 {
        None
    } else {
        Some(Fault::Collision)
    }
}

fn closed_word(closed: Option<Fault>) -> u64
    ensures { result ≡ closed_word (closed_of closed) }
{
    match closed {
        None => 0,
        Some(_) => 1,
    }
}

// Words of a run.
pub const RUN_WORDS: usize = 12;

// The greatest change number of 32 bits.
const LAST_CHANGE: u64 = 4294967295;

// The words hold no run: they are too few, or the change number is of more than 32 bits.
pub fn no_run(words: &[u64]) -> bool
    ensures { result ≡ no_run words.now }
{
    words.len() < RUN_WORDS || LAST_CHANGE < words[11]
}

// The run that the words hold, without its change number.
fn open_of(words: &[u64]) -> Run
    requires { run_words ≤ length words.now }
    ensures { run_of result ≡ open_in words.now }
{
    Run {
        shared: Shared(Mask::from([words[9], words[10]])),
        places: [
            words[1], words[2], words[3], words[4], words[5], words[6], words[7], words[8],
        ],
        closed: closed_in(words[0]),
    }
}

// The run that the words hold.
pub fn run_of(words: &[u64]) -> Numbered
    requires { no_run words.now ≡ false }
    ensures { numbered_of result ≡ run_in words.now }
{
    Numbered {
        run: open_of(words),
        change: words[11] as u32,
    }
}

// The words of a run.
pub fn words_of(d: Numbered) -> [u64; RUN_WORDS]
    ensures { result ≡ words_of_run (numbered_of d) }
{
    let c = closed_word(d.run.closed);
    let p = d.run.places;
    let [low, high] = Words::from(d.run.shared.0);
    let n = d.change as u64;
    [
        c, p[0], p[1], p[2], p[3], p[4], p[5], p[6], p[7], low, high, n,
    ]
}

// ---- what is told

fn reply_numbers(r: Reply) -> [u64; 3]
    ensures { result ≡ numbers.reply (reply_of r) }
{
    match r {
        Reply::Go => [0, 0, 0],
        Reply::Collision(missing) => {
            let [low, high] = Words::from(missing);
            [1, low, high]
        }
    }
}

// What a pick or a commit answers, and the run after it.
pub fn tell_dispatched(
    words: &mut [u64],
    answer: Result<Reply, u64>,
    run: Numbered,
    out: &mut [u64],
) -> u64
    requires run_words_in_bounds { run_words ≤ length words.old }
    requires in_bounds { 3 ≤ length out.old }
    ensures out_after { call result out.new
        ≡ told numbers.picked out.old (numbered (reply_with (numbered_of run)) answer) }
    ensures words_after { words.new
        ≡ after words.old (numbered (reply_with (numbered_of run)) answer) }
{
    if answer.is_ok() {
        capi_numbers::put(words, &words_of(run));
    }
    capi_numbers::tell(answer.map(reply_numbers), out)
}

// As those of a step's decision, then the ticket's.
fn asked_numbers(a: Asked) -> [u64; 7]
    ensures { result ≡ numbers.asked (ask_of a) }
{
    let [kind, low, high, lacks, more] = capi_numbers::decision_numbers(a.decision);
    let member = a.ticket.member as u64;
    let change = a.ticket.change as u64;
    [kind, low, high, lacks, more, member, change]
}

// What an ask answers.
pub fn tell_asked(answer: Result<Asked, u64>, out: &mut [u64]) -> u64
    requires { 7 ≤ length out.old }
    ensures { call result out.new
        ≡ told numbers.asked out.old (numbered ask_of answer) }
{
    capi_numbers::tell(answer.map(asked_numbers), out)
}

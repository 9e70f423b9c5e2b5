// A list of picks on a run; the task, plans and run are looked at once. The answer of each pick
// goes into a lent slice.

#![tactic(auto)]

ghost use Rattle.std.specs.Prelude.{◌≡◌, set};
ghost use Rattle.semantics.specs.Run.{run_refusal};
ghost use Rattle.run_plans.specs.Value.{of_plans};
ghost use Rattle.run_pick.specs.Value.{run_of, answer_of};
ghost use Rattle.run_ticket.specs.Value.{numbered_of};
ghost use Rattle.run_play.specs.Value.{number_in, play_refusal, PlayMeans};
ghost use Rattle.run_play.specs.Inner.Play.{AllMean};

use refusal::Refusal;
use run_pick::{Answer, Reply};
use run_plans::Plans;
use run_ticket::Numbered;

// Whether the picks are refused, and the run after them: as it was where they are, which the
// contract says, so it stands beside the `Result`.
#[derive(Clone, Copy)]
pub struct Played {
    pub answer: Result<(), Refusal>,
    pub run: Numbered,
}

// A pick's answer as a number: 0 go, 1 collision, else the refusal. The lent slice of answers holds
// numbers, as at the C interface.
fn number(a: Answer) -> u64
    ensures { result ≡ number_in (answer_of a) }
{
    match a {
        Ok(Reply::Go) => 0,
        Ok(Reply::Collision(_)) => 1,
        Err(e) => u64::from(e),
    }
}

// The answer of pick k, where the slice holds so many. By an index: the contract of `get_mut` does
// not say what the slice holds after the write.
fn put(answers: &mut [u64], k: usize, v: u64)
    ensures { answers.new ≡ set answers.old k v }
{
    if k < answers.len() {
        answers[k] = v;
    }
}

// The picks in turn, each meeting the run as the last one left it; impossible ones are passed over.
fn play_all(p: &Plans, run: Numbered, picks: &[u8], answers: &mut [u64]) -> Numbered
    ensures { of_plans AllMean p.now (numbered_of run) picks.now
        answers.old result answers.new }
{
    let mut current = run;
    for (k, j) in picks.iter().enumerate() {
        let d = run_ticket::pick_checked(p, current, *j as usize);
        put(answers, k, number(d.answer));
        current = d.run;
    }
    current
}

// The picks on any run, for every input: refused as a pick on the run up to 11. As many answers are
// told as the slice holds.
pub fn play_into(
    t: &[u64],
    plans: &[u16],
    ends: &[u64],
    run: Numbered,
    picks: &[u8],
    answers: &mut [u64],
) -> Played
    ensures { PlayMeans t.now plans.now ends.now
        (run_refusal t.now plans.now ends.now (run_of run.run))
        (numbered_of run) picks.now answers.old result answers.new }
{
    match run_replay::check(t, plans, ends, run.run) {
        Err(e) => Played {
            answer: Err(e),
            run,
        },
        Ok(p) => Played {
            answer: Ok(()),
            run: play_all(&p, run, picks, answers),
        },
    }
}

// The operation with the answer of each pick, for every input: first 14, where there are fewer
// answers than picks.
pub fn play(
    t: &[u64],
    plans: &[u16],
    ends: &[u64],
    run: Numbered,
    picks: &[u8],
    answers: &mut [u64],
) -> Played
    ensures { PlayMeans t.now plans.now ends.now
        (play_refusal t.now plans.now ends.now (numbered_of run)
        picks.now answers.old)
        (numbered_of run) picks.now answers.old result answers.new }
{
    if answers.len() < picks.len() {
        return Played {
            answer: Err(Refusal::Short),
            run,
        };
    }
    play_into(t, plans, ends, run, picks, answers)
}

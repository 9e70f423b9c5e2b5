// Of an accepted task with checked plans: what a run has come to, and a list of picks from the
// start.

#![tactic(auto)]

ghost use Rattle.std.specs.Prelude.{◌≡◌, ◌+◌, ◌^◌, ◌<◌};
ghost use Rattle.semantics.specs.Base.{up_to};
ghost use Rattle.semantics.specs.Task.{members};
ghost use Rattle.semantics.specs.System.{system};
ghost use Rattle.semantics.specs.Run.{given, counted, lacked_by, missed_in};
ghost use Rattle.mask.specs.Number.{number, shared_number};
ghost use Rattle.run_plans.specs.Value.{of_plans};
ghost use Rattle.run_pick.specs.Inner.Meaning.{pick_in};
ghost use Rattle.run_pick.specs.Value.{run_of, reply_of};
ghost use Rattle.run_outcome.specs.Value.{outcome_of, replayed_of};
ghost use Rattle.run_outcome.specs.Inner.Meaning.{pickable_in, steps_left_in, outcome_in};
ghost use Rattle.run_outcome.specs.Inner.Meaning.{replay_in};

use fault::Fault;
use mask::{Mask, Shared};
use refusal::Refusal;
use run_pick::{Reply, Run};
use run_plans::Plans;
use task::Task;

// What a run has come to.
#[derive(Clone, Copy)]
pub enum Outcome {
    Success,
    Failure(Fault),
    Open,
}

// What a list of picks comes to: the outcome, the shared copy, the picks done, a collision pick not
// counted, and the preconditions that this one lacks.
#[derive(Clone, Copy)]
pub struct Replay {
    pub outcome: Outcome,
    pub shared: Shared,
    pub picked: usize,
    pub missing: Mask,
}

// ---- a run's outcome

// Member j can be picked.
fn possible(p: &Plans, run: Run, j: usize) -> bool
    ensures { result ≡ given (of_plans pick_in p.now (run_of run) j) }
{
    run_pick::pick(p, run, j).answer.is_ok()
}

// Some member can be picked.
fn pickable(p: &Plans, run: Run) -> bool
    ensures { result ≡ of_plans pickable_in p.now (run_of run) }
{
    for j in 0..p.task.members() {
        if possible(p, run, j) {
            return true;
        }
    }
    false
}

// Some member has steps left.
fn steps_left(p: &Plans, run: Run) -> bool
    ensures { result ≡ of_plans steps_left_in p.now (run_of run) }
{
    for j in 0..p.task.members() {
        if run_pick::place(&p.task, run, j) < p.steps(j) {
            return true;
        }
    }
    false
}

// The lowest member whose goal is not within the shared copy, or success.
fn missed(t: &Task, g: Shared) -> Outcome
    ensures { outcome_of result
        ≡ missed_in (system t.now.words.now) (shared_number g)
        (up_to (members t.now.words.now)) }
{
    for j in 0..t.members() {
        if !mask::within(t.goal(j), g.0) {
            return Outcome::Failure(Fault::Missed(j));
        }
    }
    Outcome::Success
}

// What the run has come to.
pub fn outcome_of(p: &Plans, run: Run) -> Outcome
    ensures { outcome_of result ≡ of_plans outcome_in p.now (run_of run) }
{
    if let Some(f) = run.closed {
        return Outcome::Failure(f);
    }
    if pickable(p, run) {
        return Outcome::Open;
    }
    if steps_left(p, run) {
        return Outcome::Failure(Fault::Deadlock);
    }
    missed(&p.task, run.shared)
}

// ---- a list of picks

// The picks done, after one more that replied so: a collision is not counted.
fn count(done: usize, r: Reply) -> usize
    requires { done + 1 < 2 ^ 64 }
    ensures { result ≡ counted done (reply_of r) }
{
    match r {
        Reply::Go => done + 1,
        Reply::Collision(_) => done,
    }
}

// The preconditions that a pick lacks, none unless it collides.
fn lacked(r: Reply) -> Mask
    ensures { number result ≡ lacked_by (reply_of r) }
{
    match r {
        Reply::Go => mask::none(),
        Reply::Collision(missing) => missing,
    }
}

// The picks from the start, each meeting the run as the last one left it; the first bad pick is
// refused.
pub fn replay_all(p: &Plans, picks: &[u8]) -> Result<Replay, Refusal>
    ensures { replayed_of result ≡ of_plans replay_in p.now picks.now }
{
    let mut run = run_pick::start(&p.task);
    let mut done: usize = 0;
    let mut missing = mask::none();
    for j in picks {
        let picked = run_pick::pick(p, run, *j as usize);
        let reply = picked.answer?;
        done = count(done, reply);
        missing = lacked(reply);
        run = picked.run;
    }
    Ok(Replay {
        outcome: outcome_of(p, run),
        shared: run.shared,
        picked: done,
        missing,
    })
}

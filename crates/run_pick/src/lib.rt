// Runs of an accepted task with checked plans: a member's next step, a single pick, the start, and
// whether a run that is handed in stands within its plans.

#![tactic(auto)]

ghost use Rattle.std.specs.Prelude.{◌≡◌, ◌+◌, ◌^◌, ◌<◌, get_or};
ghost use Rattle.semantics.specs.Base.{refused};
ghost use Rattle.semantics.specs.Task.{members};
ghost use Rattle.semantics.specs.System.{system};
ghost use Rattle.semantics.specs.Run.{advance, start, past_end};
ghost use Rattle.refusal.specs.Number.{number, answered};
ghost use Rattle.step.specs.Value.{decision_of};
ghost use Rattle.run_plans.specs.Value.{of_plans};
ghost use Rattle.run_pick.specs.Value.{run_of, PickMeans};
ghost use Rattle.run_pick.specs.Inner.Meaning.{next_in, Ready, pick_in};

use fault::Fault;
use mask::{Mask, Shared};
use refusal::Refusal;
use run_plans::Plans;
use step::Decision;
use task::Task;

// A run, beside its plans: the shared copy, each member's place in its plan, and what has closed
// it, if something has. A task has at most eight members.
#[derive(Clone, Copy)]
pub struct Run {
    pub shared: Shared,
    pub places: [u64; 8],
    pub closed: Option<Fault>,
}

// What a pick that is not refused replies; a collision with the preconditions that are missing. No
// Option: go is a reply like the other, in the paper's words.
#[derive(Clone, Copy)]
pub enum Reply {
    Go,
    Collision(Mask),
}

// What a pick answers.
pub type Answer = Result<Reply, Refusal>;

// A pick's answer with the run after it. The contract speaks of the run where the pick is refused
// too, so it stands beside the `Result`.
#[derive(Clone, Copy)]
pub struct Picked {
    pub answer: Answer,
    pub run: Run,
}

// ---- a single pick

// Member j's place in its plan.
pub fn place(t: &Task, run: Run, j: usize) -> u64
    requires { j < members t.now.words.now }
    ensures { result ≡ get_or run.places j 0 }
{
    run.places[j]
}

// A pick that is refused; it changes nothing.
fn refuse(run: Run, e: Refusal) -> Picked
    ensures { PickMeans (refused (number e)) run result }
{
    Picked {
        answer: Err(e),
        run,
    }
}

// What the routine's decision makes of the run; where it goes, member j moves on by one step.
fn advance(run: Run, j: usize, d: Decision) -> Picked
    requires j_bound { j < 8 }
    requires fits { get_or run.places j 0 + 1 < 2 ^ 64 }
    ensures { PickMeans (advance (run_of run) j (decision_of d)) run result }
{
    match d {
        Decision::Go(g) => {
            let mut places = run.places;
            places[j] += 1;
            Picked {
                answer: Ok(Reply::Go),
                run: Run {
                    shared: g,
                    places,
                    closed: None,
                },
            }
        }
        Decision::Wait => refuse(run, Refusal::Pick),
        Decision::Collision(missing) => Picked {
            answer: Ok(Reply::Collision(missing)),
            run: Run {
                closed: Some(Fault::Collision),
                ..run
            },
        },
    }
}

// What member j's next step answers: the routine that step has decides it. Inlined, since a call of
// its own copies the run and the answer: joint replay would take a quarter longer.
#[inline(always)]
pub fn next_step(p: &Plans, run: Run, j: usize) -> Result<Decision, Refusal>
    ensures result_value { answered decision_of result
        ≡ of_plans next_in p.now (run_of run) j }
    ensures ready { Ready p.now.task.words.now run j result }
{
    if p.task.members() <= j {
        return Err(Refusal::Member);
    }
    if run.closed.is_some() {
        return Err(Refusal::Pick);
    }
    let k = place(&p.task, run, j);
    let m = p.steps(j);
    if m <= k {
        return Err(Refusal::Pick);
    }
    let a = p.action(j, k);
    Ok(step::decide(&p.task, a, run.shared))
}

// A pick of member j.
pub fn pick(p: &Plans, run: Run, j: usize) -> Picked
    ensures { PickMeans (of_plans pick_in p.now (run_of run) j) run result }
{
    match next_step(p, run, j) {
        Ok(d) => advance(run, j, d),
        Err(e) => refuse(run, e),
    }
}

// ---- the start, and any run

// The run at the start.
pub fn start(t: &Task) -> Run
    ensures { run_of result ≡ start (system t.now.words.now) }
{
    Run {
        shared: Shared(t.initial()),
        places: [0; 8],
        closed: None,
    }
}

// A member's place is past its plan's end.
pub fn past_end(p: &Plans, run: Run) -> bool
    ensures { result ≡ of_plans past_end p.now (run_of run) }
{
    for j in 0..p.task.members() {
        if p.steps(j) < place(&p.task, run, j) {
            return true;
        }
    }
    false
}

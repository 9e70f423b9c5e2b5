// Step: the one routine that says go, wait or collision, and the operation over it.

#![tactic(auto)]

ghost use Rattle.std.specs.Prelude.{◌≡◌, ◌<◌};
ghost use Rattle.semantics.specs.Task.{actions};
ghost use Rattle.semantics.specs.System.{result_of, system, waits};
ghost use Rattle.semantics.specs.Step.{routine, step};
ghost use Rattle.mask.specs.Number.{number, local_number, shared_number};
ghost use Rattle.refusal.specs.Number.{answered};
ghost use Rattle.step.specs.Value.{attempt_of, decision_of};

use mask::{Local, Mask, Shared};
use refusal::Refusal;
use task::Task;

// What a pending action answers at a shared copy: go with the new one, wait, or collision with the
// preconditions that are missing.
#[derive(Clone, Copy)]
pub enum Decision {
    Go(Shared),
    Wait,
    Collision(Mask),
}

// ---- actions of an accepted task on a mask

// Some fact that action a waits for does not stand in m.
fn waits(t: &Task, a: usize, m: Mask) -> bool
    requires { a < actions t.now.words.now }
    ensures { result ≡ waits t.now.words.now a (number m) }
{
    !mask::within(t.wait(a), m)
}

// What action a makes of m: a new mask, or the preconditions that m lacks.
fn act(t: &Task, a: usize, m: Mask) -> Result<Mask, Mask>
    requires { a < actions t.now.words.now }
    ensures { attempt_of number result ≡ (system t.now.words.now).act a (number m) }
{
    let pre = t.pre(a);
    if !mask::within(pre, m) {
        return Err(mask::without(pre, m));
    }
    Ok(mask::after(m, t.add(a), t.del(a)))
}

// ---- on a member's local copy

// What action a makes of the local copy s: a new one, or the preconditions that s lacks.
pub fn local_act(t: &Task, a: usize, s: Local) -> Result<Local, Mask>
    requires { a < actions t.now.words.now }
    ensures { attempt_of local_number result
        ≡ (system t.now.words.now).act a (local_number s) }
{
    Ok(Local(act(t, a, s.0)?))
}

// The local copy after action a; s itself where it lacks preconditions.
pub fn local_result(t: &Task, a: usize, s: Local) -> Local
    requires { a < actions t.now.words.now }
    ensures { local_number result
        ≡ result_of (system t.now.words.now) a (local_number s) }
{
    local_act(t, a, s).unwrap_or(s)
}

// ---- on the shared copy

// Action a of an accepted task at the shared copy g. No other routine decides this.
pub fn decide(t: &Task, a: usize, g: Shared) -> Decision
    requires { a < actions t.now.words.now }
    ensures { decision_of result
        ≡ routine (system t.now.words.now) (waits t.now.words.now) a (shared_number g) }
{
    if waits(t, a, g.0) {
        return Decision::Wait;
    }
    match act(t, a, g.0) {
        Ok(m) => Decision::Go(Shared(m)),
        Err(missing) => Decision::Collision(missing),
    }
}

// The operation, for every input.
pub fn step(words: &[u64], action: u16, g: Shared) -> Result<Decision, Refusal>
    ensures { answered decision_of result
        ≡ step words.now action (shared_number g) }
{
    let t = task::check(words)?;
    let a = action as usize;
    if t.actions() <= a {
        return Err(Refusal::Action);
    }
    if !mask::below(t.facts(), g.0) {
        return Err(Refusal::Fact);
    }
    Ok(decide(&t, a, g))
}

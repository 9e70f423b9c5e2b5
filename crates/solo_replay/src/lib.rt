// Solo replay: a member's plan on its local copy.

#![tactic(auto)]

ghost use Rattle.std.specs.Prelude.{◌≡◌, ◌<◌};
ghost use Rattle.semantics.specs.Base.{first_refusal};
ghost use Rattle.semantics.specs.Task.{members, initial};
ghost use Rattle.semantics.specs.System.{system};
ghost use Rattle.semantics.specs.Solo.{entry, solo_from, solo_replay};
ghost use Rattle.mask.specs.Number.{local_number};
ghost use Rattle.refusal.specs.Number.{code, answered};
ghost use Rattle.solo_replay.specs.Value.{solo_of};

use mask::Local;
use refusal::Refusal;
use task::Task;

// What a plan comes to: it solves; its step at an index lacks a precondition; or all steps are done
// and the goal is missing.
#[derive(Clone, Copy)]
pub enum Solo {
    Solves,
    Breaks(usize),
    Short,
}

// An entry of a plan of member i: no action, or another member's, is refused.
fn entry(t: &Task, i: usize, action: u16) -> Result<(), Refusal>
    ensures { code result ≡ entry t.now.words.now i action }
{
    let a = action as usize;
    if t.actions() <= a {
        return Err(Refusal::Action);
    }
    if t.owner(a) != i {
        return Err(Refusal::Others);
    }
    Ok(())
}

// The first refusal of an entry of a plan of member i.
pub fn plan_refusal(t: &Task, i: usize, plan: &[u16]) -> Result<(), Refusal>
    ensures { code result ≡ first_refusal (entry t.now.words.now i) plan.now }
{
    for action in plan {
        entry(t, i, *action)?;
    }
    Ok(())
}

// ---- a member's steps on its local copy

// The local copy that every member starts with.
pub fn start(t: &Task) -> Local
    ensures { local_number result ≡ (system t.now.words.now).init }
{
    Local(t.initial())
}

// Member i's goal holds in s.
pub fn done(t: &Task, i: usize, s: Local) -> bool
    requires { i < members t.now.words.now }
    ensures { result ≡ (system t.now.words.now).goal i (local_number s) }
{
    mask::within(t.goal(i), s.0)
}

// A plan of member i that is not refused, from I.
pub fn replay(t: &Task, i: usize, plan: &[u16]) -> Solo
    requires i_bound { i < members t.now.words.now }
    requires plan_value { first_refusal (entry t.now.words.now i) plan.now ≡ 0 }
    ensures { solo_of result
        ≡ solo_from (system t.now.words.now) i 0 (initial t.now.words.now)
        plan.now }
{
    let mut s = start(t);
    for (k, action) in plan.iter().enumerate() {
        match step::local_act(t, *action as usize, s) {
            Ok(x) => s = x,
            Err(_) => return Solo::Breaks(k),
        }
    }
    if !done(t, i, s) {
        return Solo::Short;
    }
    Solo::Solves
}

// The operation, for every input.
pub fn solo_replay(words: &[u64], member: u8, plan: &[u16]) -> Result<Solo, Refusal>
    ensures { answered solo_of result ≡ solo_replay words.now member plan.now }
{
    let t = task::check(words)?;
    let i = member as usize;
    if t.members() <= i {
        return Err(Refusal::Member);
    }
    plan_refusal(&t, i, plan)?;
    Ok(replay(&t, i, plan))
}

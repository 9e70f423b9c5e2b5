// Joint replay, and the check of a run that is handed in.

#![tactic(auto)]

ghost use Rattle.std.specs.Prelude.{◌≡◌, IfOk};
ghost use Rattle.semantics.specs.Run.{joint_replay, run_refusal};
ghost use Rattle.refusal.specs.Number.{code};
ghost use Rattle.run_plans.specs.Value.{Holds};
ghost use Rattle.run_pick.specs.Value.{run_of};
ghost use Rattle.run_outcome.specs.Value.{replayed_of};

use refusal::Refusal;
use run_outcome::Replay;
use run_pick::Run;
use run_plans::Plans;

// Joint replay, for every input.
pub fn joint_replay(t: &[u64], plans: &[u16], ends: &[u64], picks: &[u8]) -> Result<Replay, Refusal>
    ensures { replayed_of result
        ≡ joint_replay t.now plans.now ends.now
        picks.now }
{
    let p = run_plans::check(t, plans, ends)?;
    run_outcome::replay_all(&p, picks)
}

// The check of a run that is handed in, for every input; it starts with the plans' check.
pub fn check<'a>(
    t: &'a [u64],
    plans: &'a [u16],
    ends: &'a [u64],
    run: Run,
) -> Result<Plans<'a>, Refusal>
    ensures refusal { code result
        ≡ run_refusal t.now plans.now ends.now (run_of run) }
    ensures holds { IfOk result (λ p. Holds t.now plans.now ends.now p) }
{
    let p = run_plans::check(t, plans, ends)?;
    if !mask::below(p.task.facts(), run.shared.0) {
        return Err(Refusal::Fact);
    }
    if run_pick::past_end(&p, run) {
        return Err(Refusal::Ends);
    }
    Ok(p)
}

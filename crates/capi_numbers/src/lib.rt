// The C interface's numbers: what each answer is as numbers, and numbers put to the front of a
// slice.

#![tactic(auto)]

ghost use Rattle.std.specs.Prelude.{◌≡◌, ◌≤◌, length};
ghost use Rattle.semantics.specs.Base.{front};
ghost use Rattle.refusal.specs.Number.{numbered};
ghost use Rattle.mask.specs.Number.{number};
ghost use Rattle.step.specs.Value.{decision_of};
ghost use Rattle.solo_replay.specs.Value.{solo_of};
ghost use Rattle.run_outcome.specs.Value.{replay_of};
ghost use Rattle.fault.specs.Value.{fault_of, verdict_of};
ghost use Rattle.capi_numbers.specs.Call.{call, told};
ghost use Rattle.capi_numbers.specs.Numbers as numbers;

use fault::{Failing, Fault, Verdict};
use mask::Words;
use run_outcome::{Outcome, Replay};
use solo_replay::Solo;
use step::Decision;

// The numbers at the front of the slice, the rest as it was.
pub fn put(slice: &mut [u64], numbers: &[u64])
    requires { length numbers.now ≤ length slice.old }
    ensures { slice.new ≡ front numbers.now slice.old }
{
    slice[..numbers.len()].copy_from_slice(numbers);
}

pub fn decision_numbers(d: Decision) -> [u64; 5]
    ensures { result ≡ numbers.decision (decision_of d) }
{
    match d {
        Decision::Go(g) => {
            let [low, high] = Words::from(g.0);
            [0, low, high, 0, 0]
        }
        Decision::Wait => [1, 0, 0, 0, 0],
        Decision::Collision(missing) => {
            let [low, high] = Words::from(missing);
            [2, 0, 0, low, high]
        }
    }
}

pub fn solo_numbers(s: Solo) -> [u64; 2]
    ensures { result ≡ numbers.solo (solo_of s) }
{
    match s {
        Solo::Solves => [0, 0],
        Solo::Breaks(k) => [1, k as u64],
        Solo::Short => [2, 0],
    }
}

pub fn replay_numbers(r: Replay) -> [u64; 7]
    ensures { result ≡ numbers.replay (replay_of r) }
{
    let k = r.picked as u64;
    let [low, high] = Words::from(r.shared.0);
    let [lacks, more] = Words::from(r.missing);
    match r.outcome {
        Outcome::Success => [0, 0, k, low, high, lacks, more],
        Outcome::Failure(Fault::Collision) => [1, 0, k, low, high, lacks, more],
        Outcome::Failure(Fault::Deadlock) => [2, 0, k, low, high, lacks, more],
        Outcome::Failure(Fault::Missed(j)) => [3, j as u64, k, low, high, lacks, more],
        Outcome::Open => [4, 0, k, low, high, lacks, more],
    }
}

// The numbers of a fault, so many picks being done before it.
fn failing_numbers(f: Failing) -> [u64; 5]
    ensures { result ≡ numbers.failing (fault_of f.fault) f.picked (number f.missing) }
{
    let k = f.picked as u64;
    let [low, high] = Words::from(f.missing);
    match f.fault {
        Fault::Collision => [2, 0, k, low, high],
        Fault::Deadlock => [3, 0, k, low, high],
        Fault::Missed(i) => [4, i as u64, k, low, high],
    }
}

pub fn verdict_numbers(v: Verdict) -> [u64; 5]
    ensures { result ≡ numbers.verdict (verdict_of v) }
{
    match v {
        Verdict::Unsolvable(i) => [1, i as u64, 0, 0, 0],
        Verdict::NotRobust(f) => failing_numbers(f),
        Verdict::Robust(c) => [0, 0, c as u64, 0, 0],
    }
}

// What a call returns, and `out` after it: a refusal's number, and `out` as it was; or 0, and the
// answer's numbers at the front of `out`.
pub fn tell<const N: usize>(answer: Result<[u64; N], u64>, out: &mut [u64]) -> u64
    requires { N ≤ length out.old }
    ensures { call result out.new
        ≡ told (λ ns. ns) out.old (numbered (λ ns. ns) answer.entry) }
{
    match answer {
        Ok(numbers) => {
            put(out, &numbers);
            0
        }
        Err(k) => k,
    }
}

// The plans' check: one solving plan for each member in one slice, with the ends of the plans in
// it; and checked plans.

#![tactic(auto)]

ghost use Rattle.std.specs.Prelude.{◌≡◌, true, ◌≤◌, ◌<◌, length, get_or, IfOk};
ghost use Rattle.semantics.specs.Base.{up_to, first_refusal};
ghost use Rattle.semantics.specs.Task.{members, actions};
ghost use Rattle.semantics.specs.Run.{beginning, plan_of, ends_fit, plan_refusal, plans_refusal};
ghost use Rattle.refusal.specs.Number.{code};
ghost use Rattle.run_plans.specs.Inner.Parts.{member_refusal};

use refusal::Refusal;
use solo_replay::Solo;
use task::Task;

// Where member j's plan begins.
pub fn beginning(ends: &[u64], j: usize) -> u64
    requires { j ≤ length ends.now }
    ensures { result ≡ beginning ends.now j }
{
    if j == 0 {
        return 0;
    }
    ends[j - 1]
}

// n ends, none before the one before it, the last at the plan slice's end.
fn ends_fit(n: usize, plans: &[u16], ends: &[u64]) -> bool
    ensures { result ≡ ends_fit n plans.now ends.now }
{
    if ends.len() != n {
        return false;
    }
    for (j, end) in ends.iter().enumerate() {
        if *end < beginning(ends, j) {
            return false;
        }
    }
    beginning(ends, n) == plans.len() as u64
}

// Member j's plan: refused at its first bad entry, or where it does not solve.
fn plan_refusal(t: &Task, j: usize, plan: &[u16]) -> Result<(), Refusal>
    requires { j < members t.now.words.now }
    ensures { code result ≡ plan_refusal t.now.words.now j plan.now }
{
    solo_replay::plan_refusal(t, j, plan)?;
    match solo_replay::replay(t, j, plan) {
        Solo::Solves => Ok(()),
        Solo::Breaks(_) => Err(Refusal::NoSolution),
        Solo::Short => Err(Refusal::NoSolution),
    }
}

// The same of the part of the plan slice that is member j's.
fn member_refusal(t: &Task, plans: &[u16], ends: &[u64], j: usize) -> Result<(), Refusal>
    requires ends_value { ends_fit (members t.now.words.now) plans.now ends.now ≡ true }
    requires j_bound { j < members t.now.words.now }
    ensures { code result ≡ member_refusal t.now.words.now plans.now ends.now j }
{
    let from = beginning(ends, j) as usize;
    let to = ends[j] as usize;
    plan_refusal(t, j, &plans[from..to])
}

// The first refusal of a member's plan.
fn members_refusal(t: &Task, plans: &[u16], ends: &[u64]) -> Result<(), Refusal>
    requires { ends_fit (members t.now.words.now) plans.now ends.now ≡ true }
    ensures { code result
        ≡ first_refusal (member_refusal t.now.words.now plans.now ends.now)
        (up_to (members t.now.words.now)) }
{
    for j in 0..t.members() {
        member_refusal(t, plans, ends, j)?;
    }
    Ok(())
}

// An accepted task with checked plans: a solving plan for each member, in one slice, and where they
// end in it.
#[derive(Clone, Copy)]
pub struct Plans<'a> {
    pub task: Task<'a>,
    pub plans: &'a [u16],
    pub ends: &'a [u64],
    pub ghost accepted: { plans_refusal task.words.now plans.now ends.now ≡ 0 },
}

// The plans' check, for every input; it starts with the task check.
pub fn check<'a>(t: &'a [u64], plans: &'a [u16], ends: &'a [u64]) -> Result<Plans<'a>, Refusal>
    ensures refusal { code result ≡ plans_refusal t.now plans.now ends.now }
    ensures holds { IfOk result
        (λ p. (p.task.words.now ≡ t.now) × (p.plans.now ≡ plans.now) × (p.ends.now ≡ ends.now)) }
{
    let task = task::check(t)?;
    if !ends_fit(task.members(), plans, ends) {
        return Err(Refusal::Ends);
    }
    members_refusal(&task, plans, ends)?;
    Ok(Plans { task, plans, ends })
}

impl<'a> Plans<'a> {
    // The number of steps in member j's plan.
    pub fn steps(&self, j: usize) -> u64
        requires { j < members self.now.task.words.now }
        ensures { result ≡ length (plan_of self.now.plans.now self.now.ends.now j) }
    {
        self.ends[j] - beginning(self.ends, j)
    }

    // Step k of member j's plan: an action.
    pub fn action(&self, j: usize, k: u64) -> usize
        requires j_bound { j < members self.now.task.words.now }
        requires k_in_bounds { k < length (plan_of self.now.plans.now self.now.ends.now j) }
        ensures value { result ≡ get_or (plan_of self.now.plans.now self.now.ends.now j) k 0 }
        ensures upper_bound { result < actions self.now.task.words.now }
    {
        let at = (beginning(self.ends, j) + k) as usize;
        self.plans[at] as usize
    }
}

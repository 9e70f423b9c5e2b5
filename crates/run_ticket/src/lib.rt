// A run with its change number, which goes in by value: a pick on it, ask and commit.

#![tactic(auto)]

ghost use Rattle.std.specs.Prelude.{◌≡◌, not, eqb};
ghost use Rattle.semantics.specs.Base.{refused, unless, ◌if◌};
ghost use Rattle.semantics.specs.Dispatch.{counts, pick_numbered, ask_on, commit_on};
ghost use Rattle.refusal.specs.Number.{number};
ghost use Rattle.run_plans.specs.Value.{of_plans};
ghost use Rattle.run_pick.specs.Inner.Meaning.{pick_in};
ghost use Rattle.run_pick.specs.Value.{run_of};
ghost use Rattle.run_ticket.specs.Value.{numbered_of, ticket_of, asked_of, picked_of};
ghost use Rattle.run_ticket.specs.Value.{DispatchMeans};

use refusal::Refusal;
use run_pick::{Answer, Picked, Run};
use run_plans::Plans;
use step::Decision;

// A run with its change number: how many picks were done on it, a colliding one too.
#[derive(Clone, Copy)]
pub struct Numbered {
    pub run: Run,
    pub change: u32,
}

// The asked pick: the member, and the change number of the run at which it was asked.
#[derive(Clone, Copy)]
pub struct Ticket {
    pub member: u8,
    pub change: u32,
}

// What an ask that is not refused answers: what the pick would meet, and a ticket for it.
#[derive(Clone, Copy)]
pub struct Asked {
    pub decision: Decision,
    pub ticket: Ticket,
}

// What a pick or a commit answers, with the run after it, where it is refused too.
#[derive(Clone, Copy)]
pub struct Dispatched {
    pub answer: Answer,
    pub run: Numbered,
}

// The change number at which no pick is done.
const LAST_CHANGE: u32 = u32::MAX;

// ---- what a pick makes of the change number

// A pick or a commit that is refused; it changes nothing.
fn refuse(at: Numbered, e: Refusal) -> Dispatched
    ensures { DispatchMeans (refused (number e)) at result }
{
    Dispatched {
        answer: Err(e),
        run: at,
    }
}

// What a pick's answer makes of the run: 20 at the last change number, else one more pick is done,
// a colliding one too.
fn count(at: Numbered, p: Picked) -> Dispatched
    ensures { DispatchMeans (counts (numbered_of at) (picked_of p)) at result }
{
    match p.answer {
        Err(impossible) => refuse(at, impossible),
        Ok(r) => {
            if at.change == LAST_CHANGE {
                return refuse(at, Refusal::Changes);
            }
            Dispatched {
                answer: Ok(r),
                run: Numbered {
                    run: p.run,
                    change: at.change + 1,
                },
            }
        }
    }
}

// A pick of member j, where the plans are checked.
pub fn pick_checked(p: &Plans, at: Numbered, j: usize) -> Dispatched
    ensures { DispatchMeans
        (counts (numbered_of at) (of_plans pick_in p.now (run_of at.run) j)) at result }
{
    count(at, run_pick::pick(p, at.run, j))
}

// ---- the operations, for every input; any run may be handed in. They take the slices that the C
// interface lends.

// A pick of a member.
pub fn pick(t: &[u64], plans: &[u16], ends: &[u64], at: Numbered, member: u8) -> Dispatched
    ensures { DispatchMeans
        (pick_numbered t.now plans.now ends.now
        (numbered_of at) member) at result }
{
    match run_replay::check(t, plans, ends, at.run) {
        Err(e) => refuse(at, e),
        Ok(p) => pick_checked(&p, at, member as usize),
    }
}

// What a pick of the member would meet, and a ticket for it. The run is not lent to be changed.
pub fn ask(
    t: &[u64],
    plans: &[u16],
    ends: &[u64],
    at: Numbered,
    member: u8,
) -> Result<Asked, Refusal>
    ensures { asked_of result
        ≡ ask_on t.now plans.now ends.now
        (numbered_of at) member }
{
    let p = run_replay::check(t, plans, ends, at.run)?;
    let decision = run_pick::next_step(&p, at.run, member as usize)?;
    Ok(Asked {
        decision,
        ticket: Ticket {
            member,
            change: at.change,
        },
    })
}

// The ticket's pick p: where the ticket is stale, that comes before what p is refused for.
fn settle(at: Numbered, ticket: Ticket, p: Picked) -> Dispatched
    ensures { DispatchMeans
        (unless (19 if not (eqb ticket.change at.change))
        (counts (numbered_of at) (picked_of p))) at result }
{
    if ticket.change != at.change {
        return refuse(at, Refusal::Stale);
    }
    count(at, p)
}

// The ticket's pick.
pub fn commit(t: &[u64], plans: &[u16], ends: &[u64], at: Numbered, ticket: Ticket) -> Dispatched
    ensures { DispatchMeans
        (commit_on t.now plans.now ends.now
        (numbered_of at) (ticket_of ticket)) at result }
{
    let p = match run_replay::check(t, plans, ends, at.run) {
        Ok(p) => p,
        Err(e) => return refuse(at, e),
    };
    let j = ticket.member as usize;
    if p.task.members() <= j {
        return refuse(at, Refusal::Member);
    }
    settle(at, ticket, run_pick::pick(&p, at.run, j))
}

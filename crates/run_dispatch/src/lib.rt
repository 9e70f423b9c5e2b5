// The dispatcher: a run with its change number, which is lent by &mut to each pick and each commit;
// its start, and a list of picks on it.

#![tactic(auto)]

ghost use Rattle.semantics.specs.Dispatch.{start_of, pick_numbered, play_on, commit_on};
ghost use Rattle.refusal.specs.Number.{code};
ghost use Rattle.run_ticket.specs.Value.{numbered_of, ticket_of, DispatchMeans};
ghost use Rattle.run_dispatch.specs.Value.{empty_run, LentMeans, RunMeans};

use mask::Shared;
use refusal::Refusal;
use run_pick::{Answer, Run};
use run_play::Played;
use run_ticket::{Dispatched, Numbered, Ticket};

// Whether the task is refused, and the run at the start, of which the contract speaks in either
// case.
#[derive(Clone, Copy)]
pub struct Started {
    pub answer: Result<(), Refusal>,
    pub run: Numbered,
}

// The run at the start, for every input; at the empty copy where the task is refused.
pub fn start(t: &[u64]) -> Started
    ensures { RunMeans (start_of t.now) empty_run (code result.answer) result.run }
{
    match task::check(t) {
        Err(e) => Started {
            answer: Err(e),
            run: Numbered {
                run: Run {
                    shared: Shared(mask::none()),
                    places: [0; 8],
                    closed: None,
                },
                change: 0,
            },
        },
        Ok(task) => Started {
            answer: Ok(()),
            run: Numbered {
                run: run_pick::start(&task),
                change: 0,
            },
        },
    }
}

// A pick that updates the run, for every input. Like `commit` but for what it calls and means: a
// generic one would take the call and its meaning, and say no more.
pub fn pick(t: &[u64], plans: &[u16], ends: &[u64], run: &mut Numbered, member: u8) -> Answer
    ensures { LentMeans
        (pick_numbered t.now plans.now ends.now
        (numbered_of run.old) member)
        run.old result run.new }
{
    let p = run_ticket::pick(t, plans, ends, *run, member);
    *run = p.run;
    p.answer
}

// A commit that updates the run, for every input.
pub fn commit(t: &[u64], plans: &[u16], ends: &[u64], run: &mut Numbered, ticket: Ticket) -> Answer
    ensures { LentMeans
        (commit_on t.now plans.now ends.now
        (numbered_of run.old) (ticket_of ticket))
        run.old result run.new }
{
    let p = run_ticket::commit(t, plans, ends, *run, ticket);
    *run = p.run;
    p.answer
}

// A run that is lent for one pick; like `commit_once`, as above.
pub fn once(t: &[u64], plans: &[u16], ends: &[u64], run: Numbered, member: u8) -> Dispatched
    ensures { DispatchMeans
        (pick_numbered t.now plans.now ends.now
        (numbered_of run) member) run result }
{
    let mut lent = run;
    let answer = pick(t, plans, ends, &mut lent, member);
    Dispatched { answer, run: lent }
}

// A run that is lent for one commit.
pub fn commit_once(
    t: &[u64],
    plans: &[u16],
    ends: &[u64],
    run: Numbered,
    ticket: Ticket,
) -> Dispatched
    ensures { DispatchMeans
        (commit_on t.now plans.now ends.now
        (numbered_of run) (ticket_of ticket)) run result }
{
    let mut lent = run;
    let answer = commit(t, plans, ends, &mut lent, ticket);
    Dispatched { answer, run: lent }
}

// A list of picks on a run, for every input; the task, plans and run are looked at once. Any run
// may be handed in, and it comes back as it was where there is a refusal.
pub fn play(t: &[u64], plans: &[u16], ends: &[u64], run: Numbered, picks: &[u8]) -> Played
    ensures { RunMeans
        (play_on t.now plans.now ends.now (numbered_of run)
        picks.now)
        (numbered_of run) (code result.answer) result.run }
{
    let mut none: [u64; 1] = [0];
    run_play::play_into(t, plans, ends, run, picks, &mut none)
}

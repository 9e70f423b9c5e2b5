// What the operations answer on a law, one line an answer, on standard output.

#![tactic(auto)]

use fault::{Failing, Fault, Verdict};
use mask::{Mask, Shared, Words};
use refusal::Refusal;
use run_outcome::Outcome;
use run_pick::{Answer, Reply, Run};
use run_ticket::{Asked, Numbered, Ticket};
use solo_replay::Solo;
use solo_search::Found;
use std::fmt::Display;
use std::{fmt, io};
use step::Decision;

// A law by its number and its words, with a plan for each member.
#[derive(Clone, Copy)]
pub struct Planned<'a> {
    pub number: u64,
    pub t: &'a [u64],
    pub plans: &'a [u16],
    pub ends: &'a [u64],
}

// ---- numbers, a space before each

// The low word of a mask, and the high word where it has a fact.
#[derive(Clone, Copy)]
struct Facts(Mask);

impl Display for Facts {
    fn fmt<W: fmt::Write>(&self, f: &mut fmt::Formatter<W>) -> fmt::Result {
        let [low, high] = Words::from(self.0);
        write!(f, " {low}")?;
        if high != 0 {
            write!(f, " {high}")?;
        }
        Ok(())
    }
}

// The numbers of a slice.
#[derive(Drop)]
struct Numbers<'a, T>(&'a [T]);

impl<'a, T: Display> Display for Numbers<'a, T> {
    fn fmt<W: fmt::Write>(&self, f: &mut fmt::Formatter<W>) -> fmt::Result {
        for number in self.0 {
            write!(f, " {number}")?;
        }
        Ok(())
    }
}

// ---- lines

// What cannot be written is let go, and what comes after it is written all the same.
fn put(written: io::Result<()>) {
    let _written = written;
}

// The law's name, and what is asked of it.
pub fn asked(rt: &impl Print, law: u64, text: &[u8]) {
    put(print!(rt; "L{law}"));
    put(rt.write_all(text));
}

// ---- the operations

fn refused(rt: &impl Print, e: Refusal) {
    put(println!(rt; " refused {}", u64::from(e)))
}

pub fn show_check(rt: &impl Print, law: u64, t: &[u64]) {
    let number = match task::check(t) {
        Ok(_) => 0,
        Err(e) => u64::from(e),
    };
    put(println!(rt; "L{law} task check: {number}"))
}

fn show_decision(rt: &impl Print, d: Decision) {
    match d {
        Decision::Go(next) => put(println!(rt; " go{}", Facts(next.0))),
        Decision::Wait => put(println!(rt; " wait")),
        Decision::Collision(missing) => put(println!(rt; " collision, missing{}", Facts(missing))),
    }
}

// A step at the shared copy of these two words.
pub fn show_step(rt: &impl Print, law: u64, t: &[u64], action: u16, low: u64, high: u64) {
    let g = Mask::from([low, high]);
    put(print!(rt; "L{law} step {action} at{}:", Facts(g)));
    match step::step(t, action, Shared(g)) {
        Ok(d) => show_decision(rt, d),
        Err(e) => refused(rt, e),
    }
}

pub fn show_solo(rt: &impl Print, law: u64, t: &[u64], member: u8, plan: &[u16]) {
    put(print!(rt; "L{law} solo replay of member {member}:"));
    match solo_replay::solo_replay(t, member, plan) {
        Ok(Solo::Solves) => put(println!(rt; " solves")),
        Ok(Solo::Breaks(k)) => put(println!(rt; " breaks at {k}")),
        Ok(Solo::Short) => put(println!(rt; " short")),
        Err(e) => refused(rt, e),
    }
}

pub fn show_search(
    rt: &impl Print,
    law: u64,
    t: &[u64],
    member: u8,
    table: &mut [u64],
    marks: &mut [u8],
) {
    put(print!(rt; "L{law} solo search of member {member}:"));
    match solo_search::solo_search(t, member, table, marks) {
        Err(e) => refused(rt, e),
        Ok(
            Found {
                count,
                live,
                marked,
            },
        ) => {
            let word = if live { "live" } else { "dead" };
            put(print!(rt; " {count} {word}, {marked} marked;"));
            put(println!(rt; "{} marks{}", Numbers(table), Numbers(marks)))
        }
    }
}

fn show_outcome(rt: &impl Print, outcome: Outcome) {
    match outcome {
        Outcome::Success => put(print!(rt; " success")),
        Outcome::Failure(Fault::Collision) => put(print!(rt; " collision")),
        Outcome::Failure(Fault::Deadlock) => put(print!(rt; " deadlock")),
        Outcome::Failure(Fault::Missed(j)) => put(print!(rt; " missed {j}")),
        Outcome::Open => put(print!(rt; " open")),
    }
}

fn show_replay(rt: &impl Print, law: &Planned, picks: &[u8]) {
    put(print!(rt; "L{} joint replay:", law.number));
    match run_replay::joint_replay(law.t, law.plans, law.ends, picks) {
        Err(e) => refused(rt, e),
        Ok(r) => {
            show_outcome(rt, r.outcome);
            put(print!(rt; ", shared{}, picks {}", Facts(r.shared.0), r.picked));
            put(println!(rt; ", missing{}", Facts(r.missing)))
        }
    }
}

fn show_reply(rt: &impl Print, a: Answer) {
    match a {
        Ok(Reply::Go) => put(print!(rt; " go")),
        Ok(Reply::Collision(missing)) => put(print!(rt; " collision, missing{}", Facts(missing))),
        Err(e) => put(print!(rt; " refused {}", u64::from(e))),
    }
}

// Of the places, those of two members.
fn show_run(rt: &impl Print, at: Numbered) {
    let run = at.run;
    let p = run.places;
    put(print!(rt; " shared{}, places {} {}", Facts(run.shared.0), p[0], p[1]));
    if run.closed.is_some() {
        put(print!(rt; ", collided"));
    }
    put(println!(rt; ", changes {}", at.change))
}

// The dispatcher from the start, pick by pick, each on the run as the last one left it.
fn show_picks(rt: &impl Print, law: &Planned, picks: &[u8]) {
    put(print!(rt; "L{} dispatcher:", law.number));
    let mut run = run_dispatch::start(law.t).run;
    for pick in picks {
        let p = run_dispatch::once(law.t, law.plans, law.ends, run, *pick);
        show_reply(rt, p.answer);
        run = p.run;
    }
    put(print!(rt; ";"));
    show_run(rt, run)
}

// The dispatcher from the start, the list of picks at once.
fn show_list(rt: &impl Print, law: &Planned, picks: &[u8]) {
    put(print!(rt; "L{} dispatcher, the list:", law.number));
    let p = run_dispatch::play(
        law.t,
        law.plans,
        law.ends,
        run_dispatch::start(law.t).run,
        picks,
    );
    match p.answer {
        Ok(()) => show_run(rt, p.run),
        Err(e) => refused(rt, e),
    }
}

// A commit with the ticket, and the run after it.
fn show_commit(rt: &impl Print, law: &Planned, run: Numbered, ticket: Ticket) -> Numbered {
    let p = run_dispatch::commit_once(law.t, law.plans, law.ends, run, ticket);
    show_reply(rt, p.answer);
    put(print!(rt; ";"));
    p.run
}

// An ask of the member, and the commit that it gives a ticket for.
fn show_ask(rt: &impl Print, law: &Planned, run: Numbered, member: u8) -> Numbered {
    match run_ticket::ask(law.t, law.plans, law.ends, run, member) {
        Err(e) => {
            put(print!(rt; " ask refused {};", u64::from(e)));
            run
        }
        Ok(Asked { decision, ticket }) => {
            match decision {
                Decision::Go(_) => put(print!(rt; " ask go")),
                Decision::Wait => put(print!(rt; " ask wait")),
                Decision::Collision(missing) => {
                    put(print!(rt; " ask collision, missing{}", Facts(missing)))
                }
            }
            put(print!(rt; ", commit"));
            show_commit(rt, law, run, ticket)
        }
    }
}

// The dispatcher from the start, each pick asked for and then committed; at the end member 0's
// ticket of the start, which is stale as soon as a pick was done.
fn show_asked(rt: &impl Print, law: &Planned, picks: &[u8]) {
    put(print!(rt; "L{} dispatcher, asked:", law.number));
    let mut run = run_dispatch::start(law.t).run;
    for pick in picks {
        run = show_ask(rt, law, run, *pick);
    }
    put(print!(rt; " first ticket, commit"));
    let ticket = Ticket {
        member: 0,
        change: 0,
    };
    let after = show_commit(rt, law, run, ticket);
    show_run(rt, after)
}

// The same picks by joint replay and by the dispatcher.
pub fn show_runs(rt: &impl Print, law: &Planned, picks: &[u8]) {
    show_replay(rt, law, picks);
    show_picks(rt, law, picks);
    show_list(rt, law, picks);
    show_asked(rt, law, picks)
}

// Member 0's first step asked for and committed, where fact 0 holds, at a change number.
pub fn show_change(rt: &impl Print, law: &Planned, change: u32) {
    put(print!(rt; "L{} at change number {change}:", law.number));
    let run = Run {
        shared: Shared(Mask::from([1, 0])),
        places: [0; 8],
        closed: None,
    };
    let after = show_ask(rt, law, Numbered { run, change }, 0);
    show_run(rt, after)
}

// A pick at the start.
pub fn show_pick(rt: &impl Print, law: &Planned, member: u8) {
    put(print!(rt; "L{} pick of member {member} at the start:", law.number));
    let p = run_ticket::pick(
        law.t,
        law.plans,
        law.ends,
        run_dispatch::start(law.t).run,
        member,
    );
    match p.answer {
        Ok(Reply::Go) => put(println!(rt; " go{}", Facts(p.run.run.shared.0))),
        other => {
            show_reply(rt, other);
            put(println!(rt;))
        }
    }
}

// The kind of a fault, its member, the picks done before it, what a collision lacks.
fn show_failing(rt: &impl Print, f: Failing) {
    let done = f.picked;
    match f.fault {
        Fault::Collision => put(print!(rt; " collision {done}, missing{}", Facts(f.missing))),
        Fault::Deadlock => put(print!(rt; " deadlock {done}")),
        Fault::Missed(i) => put(print!(rt; " missed {i} after {done}")),
    }
}

// The kind and number of a verdict.
fn show_answer(rt: &impl Print, answer: Result<Verdict, Refusal>) {
    match answer {
        Ok(Verdict::Unsolvable(i)) => put(print!(rt; " unsolvable {i}")),
        Ok(Verdict::NotRobust(f)) => show_failing(rt, f),
        Ok(Verdict::Robust(count)) => put(print!(rt; " robust {count}")),
        Err(e) => put(print!(rt; " refused {}", u64::from(e))),
    }
}

// The verdict with these two tables, and the first entries of the conflict slices.
pub fn show_verdict(rt: &impl Print, t: &[u64], local: &mut [u64], confs: &mut [u64]) {
    let mut marks = [7; 48];
    let mut trail = [7; 96];
    let mut plans = [7u16; 96];
    let mut ends = [7; 8];
    let mut picks = [7; 48];
    put(print!(rt; " verdict:"));
    let v = verdict::verdict(
        t, local, &mut marks, confs, &mut trail, &mut plans, &mut ends, &mut picks,
    );
    show_answer(rt, v);
    put(print!(rt;
        "; plans{} ends{}",
        Numbers(&plans[0..6]),
        Numbers(&ends[0..2])
    ));
    put(println!(rt; " picks{}", Numbers(&picks[0..4])))
}

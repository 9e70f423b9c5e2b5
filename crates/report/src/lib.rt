// The verdict file: the lines of an answer, put into a lent slice of bytes. Each function lays its
// bytes into the slice from the place `at` on, leaves the rest as it was, and answers the place
// after them.

#![tactic(auto)]

ghost use Rattle.std.specs.Prelude.{◌≡◌, ℕ, [], ◌∷◌, ◌++◌, ◌+◌, ◌≤◌, ◌<◌, length, map};
ghost use Rattle.std.proofs.Math.Seq.{slice};
ghost use Rattle.theory.proofs.Laid.{Laid};
ghost use Rattle.semantics.specs.Text.{digits};
ghost use Rattle.semantics.specs.Base.{gives};
ghost use Rattle.semantics.specs.Verdict.{not_robust, conflict_picks};
ghost use Rattle.mask.specs.Number.{number};
ghost use Rattle.fault.specs.Value.{fault_of, failing_of, verdict_of};
ghost use Rattle.report.specs.File.{word, header, line, lines, plan_lines, plans_lines};
ghost use Rattle.report.specs.File.{conflict_lines, fault_line, missing_lines, body, file};
ghost use Rattle.refusal.specs.Number.{numbered};
ghost use Rattle.report.specs.Inner.Put.{most_line, most_file, most_facts, Room, Inside};
ghost use Rattle.report.specs.Inner.Put.{Holds, missing_line};
ghost use Rattle.report.specs.Inner.Slices.{HeldIn, conflict_in, body_in};

use fault::{Failing, Fault, Verdict};
use mask::Mask;

// The plans of a task's members: the actions of all, and where those of each end.
#[derive(Clone, Copy)]
struct Plans<'a> {
    members: usize,
    actions: &'a [u16],
    ends: &'a [u64],
    ghost inside: { Inside members actions.now ends.now },
}

// The slices that hold a conflict, if the answer comes with one.
#[derive(Clone, Copy)]
struct Slices<'a> {
    members: usize,
    plans: &'a [u16],
    ends: &'a [u64],
    picks: &'a [u8],
}

// The most facts of a mask.
const MOST_FACTS: u64 = 128;

fn put_byte(out: &mut [u8], at: usize, byte: u8) -> usize
    requires { Room out.old at (byte ∷ []) }
    ensures { Laid (byte ∷ []) out.old at out.new result }
{
    out[at] = byte;
    at + 1
}

fn put(out: &mut [u8], at: usize, bytes: &[u8]) -> usize
    requires { Room out.old at bytes.now }
    ensures { Laid bytes.now out.old at out.new result }
{
    let end = at + bytes.len();
    out[at..end].copy_from_slice(bytes);
    end
}

// In base ten.
fn put_number(out: &mut [u8], at: usize, v: u64) -> usize
    requires { Room out.old at (digits v) }
    ensures { Laid (digits v) out.old at out.new result }
{
    if v < 10 {
        return put_byte(out, at, b'0' + v as u8);
    }
    let next = put_number(out, at, v / 10);
    put_byte(out, next, b'0' + (v % 10) as u8)
}

fn put_line(out: &mut [u8], at: usize, word: &[u8], v: u64) -> usize
    requires { Room out.old at (line word.now v) }
    ensures { Laid (line word.now v) out.old at out.new result }
{
    let comma = put(out, at, word);
    let number = put_byte(out, comma, b',');
    let cr = put_number(out, number, v);
    let lf = put_byte(out, cr, b'\r');
    put_byte(out, lf, b'\n')
}

// What a list of lines tells: a number that a word holds.
trait Number: Copy {
    ghost value: { Self → ℕ };

    fn word(self) -> u64
        ensures { result ≡ value self };
}

impl Number for u8 {
    ghost value = { λ x. x };

    fn word(self) -> u64 {
        u64::from(self)
    }
}

impl Number for u16 {
    ghost value = { λ x. x };

    fn word(self) -> u64 {
        u64::from(self)
    }
}

// A line for each of the numbers.
fn put_lines<T: Number>(out: &mut [u8], at: usize, word: &[u8], numbers: &[T]) -> usize
    requires { Room out.old at (lines word.now (map T.value numbers.now)) }
    ensures { Laid (lines word.now (map T.value numbers.now)) out.old at
        out.new result }
{
    let mut next = at;
    for number in numbers {
        next = put_line(out, next, word, number.word());
    }
    next
}

// A line for each action of a part of the plan slice.
fn put_part(out: &mut [u8], at: usize, plans: &[u16], from: usize, to: usize) -> usize
    requires from_le_to { from ≤ to }
    requires to_in_bounds { to ≤ length plans.now }
    requires room { Room out.old at (lines (word "action") (slice from to plans.now)) }
    ensures { Laid (lines (word "action") (slice from to plans.now))
        out.old at out.new result }
{
    put_lines(out, at, b"action", &plans[from..to])
}

fn put_plan(out: &mut [u8], at: usize, p: &Plans, i: usize) -> usize
    requires i_lt_n { i < p.now.members }
    requires room { Room out.old at (plan_lines p.now.actions.now p.now.ends.now i) }
    ensures { Laid (plan_lines p.now.actions.now p.now.ends.now i)
        out.old at out.new result }
{
    let next = put_line(out, at, b"plan", i as u64);
    let from = run_plans::beginning(p.ends, i) as usize;
    put_part(out, next, p.actions, from, p.ends[i] as usize)
}

fn put_plans(out: &mut [u8], at: usize, p: &Plans) -> usize
    requires { Room out.old at (plans_lines p.now.members p.now.actions.now p.now.ends.now) }
    ensures { Laid (plans_lines p.now.members p.now.actions.now p.now.ends.now)
        out.old at out.new result }
{
    let mut next = at;
    for i in 0..p.members {
        next = put_plan(out, next, p, i);
    }
    next
}

fn put_conflict(out: &mut [u8], at: usize, p: &Plans, picks: &[u8]) -> usize
    requires { Room out.old at
        (conflict_lines p.now.members p.now.actions.now p.now.ends.now picks.now) }
    ensures { Laid
        (conflict_lines p.now.members p.now.actions.now p.now.ends.now picks.now)
        out.old at out.new result }
{
    let next = put_plans(out, at, p);
    put_lines(out, next, b"pick", picks)
}

// The line of column names.
fn put_header(out: &mut [u8]) -> usize
    requires { Room out.old 0 header }
    ensures { Laid header out.old 0 out.new result }
{
    put(out, 0, b"verdict,number\r\n")
}

// The line of a verdict's word: of ten letters at most.
fn put_short(out: &mut [u8], at: usize, word: &[u8], number: u64) -> usize
    requires letters { length word.now ≤ 10 }
    requires room { at + most_line ≤ length out.old }
    ensures laid { Laid (line word.now number) out.old at out.new result }
    ensures upper_bound { result ≤ at + most_line }
{
    put_line(out, at, word, number)
}

// A fault's line.
fn put_fault(out: &mut [u8], at: usize, f: Failing) -> usize
    requires { at + most_line ≤ length out.old }
    ensures laid { Laid (fault_line (fault_of f.fault) f.picked) out.old at
        out.new result }
    ensures upper_bound { result ≤ at + most_line }
{
    let done = f.picked as u64;
    match f.fault {
        Fault::Collision => put_short(out, at, b"collision", done),
        Fault::Deadlock => put_short(out, at, b"deadlock", done),
        Fault::Missed(member) => put_short(out, at, b"missed", member as u64),
    }
}

// The line of fact f, if it stands in the mask.
fn put_fact(out: &mut [u8], at: usize, m: Mask, f: u64) -> usize
    requires f_lt_most_facts { f < most_facts }
    requires room { Room out.old at (missing_line (number m) f) }
    ensures { Laid (missing_line (number m) f) out.old at out.new result }
{
    if mask::has(m, f) {
        return put_line(out, at, b"missing", f);
    }
    at
}

// A line for each fact of the mask, the lowest first.
fn put_missing(out: &mut [u8], at: usize, m: Mask) -> usize
    requires { Room out.old at (missing_lines (number m)) }
    ensures { Laid (missing_lines (number m)) out.old at out.new result }
{
    let mut next = at;
    for f in 0..MOST_FACTS {
        next = put_fact(out, next, m, f);
    }
    next
}

// The picks of its conflict, which the slice holds.
fn pick_count(picks: &[u8], f: Failing) -> usize
    requires { conflict_picks (fault_of f.fault) f.picked ≤ length picks.now }
    ensures { result ≡ conflict_picks (fault_of f.fault) f.picked }
{
    match f.fault {
        Fault::Collision => f.picked + 1,
        Fault::Deadlock | Fault::Missed(_) => f.picked,
    }
}

// A fault's line, then the lines of what is missing, then its conflict.
fn put_failing(out: &mut [u8], at: usize, f: Failing, s: &Slices) -> usize
    requires holds { HeldIn (gives (not_robust (failing_of f))) s.now }
    requires room { Room out.old (at + most_line)
        (conflict_in (gives (not_robust (failing_of f))) s.now) }
    ensures { Laid (body_in (gives (not_robust (failing_of f))) s.now)
        out.old at out.new result }
{
    let missing = put_fault(out, at, f);
    let next = put_missing(out, missing, f.missing);
    let count = pick_count(s.picks, f);
    let plans = Plans {
        members: s.members,
        actions: s.plans,
        ends: s.ends,
    };
    put_conflict(out, next, &plans, &s.picks[..count])
}

// The lines of a verdict.
fn put_verdict(out: &mut [u8], at: usize, v: Verdict, s: &Slices) -> usize
    requires holds { HeldIn (gives (verdict_of v)) s.now }
    requires room { Room out.old (at + most_line)
        (conflict_in (gives (verdict_of v)) s.now) }
    ensures { Laid (body_in (gives (verdict_of v)) s.now)
        out.old at out.new result }
{
    match v {
        Verdict::Unsolvable(i) => put_short(out, at, b"unsolvable", i as u64),
        Verdict::NotRobust(f) => put_failing(out, at, f, s),
        Verdict::Robust(count) => put_short(out, at, b"robust", count as u64),
    }
}

// The lines after the first. Here and below a refusal is its number, whatever it is.
fn put_body(out: &mut [u8], at: usize, answer: Result<Verdict, u64>, s: &Slices) -> usize
    requires holds { HeldIn (numbered verdict_of answer) s.now }
    requires room { Room out.old (at + most_line)
        (conflict_in (numbered verdict_of answer) s.now) }
    ensures { Laid (body_in (numbered verdict_of answer) s.now)
        out.old at out.new result }
{
    match answer {
        Err(k) => put_short(out, at, b"refused", k),
        Ok(v) => put_verdict(out, at, v, s),
    }
}

// The file of a refusal, at the slice's front; the rest is as it was.
pub fn put_refusal(out: &mut [u8], refusal: u64) -> usize
    requires { most_file 1 ≤ length out.old }
    ensures { Laid (header ++ line (word "refused") refusal) out.old 0
        out.new result }
{
    let at = put_header(out);
    put_short(out, at, b"refused", refusal)
}

// The file of a verdict's answer on a task of n members, at the slice's front; the rest is as it
// was.
pub fn put_file(
    out: &mut [u8],
    answer: Result<Verdict, u64>,
    n: usize,
    plans: &[u16],
    ends: &[u64],
    picks: &[u8],
) -> usize
    requires holds { Holds (numbered verdict_of answer) n plans.now ends.now picks.now }
    requires picks_in_bounds { most_file (1 + most_facts + n + length plans.now + length picks.now)
        ≤ length out.old }
    ensures { Laid
        (file (numbered verdict_of answer) n plans.now ends.now picks.now)
        out.old 0 out.new result }
{
    let next = put_header(out);
    let slices = Slices {
        members: n,
        plans,
        ends,
        picks,
    };
    put_body(out, next, answer, &slices)
}

// The C interface: every operation, thin over the proved ones; include/lawcheck.h documents it.
// Each function returns the refusal, or 0 for an answer, whose numbers go to the front of `out`; a
// slice shorter than stated, or a change number of more than 32 bits, is refused with 14 before
// anything else.

#![tactic(auto)]

ghost use Rattle.std.specs.Prelude.{◌≡◌, not, ◌||◌, length, eqb, ltb};
ghost use Rattle.semantics.specs.Verdict.{lent_of};
ghost use Rattle.semantics.specs.Task.{check};
ghost use Rattle.semantics.specs.Words.{state_width, state_at};
ghost use Rattle.semantics.specs.Step.{step};
ghost use Rattle.semantics.specs.Solo.{solo_replay, solo_search};
ghost use Rattle.semantics.specs.Run.{joint_replay};
ghost use Rattle.semantics.specs.Dispatch.{pick_numbered, ask_on, commit_on};
ghost use Rattle.semantics.specs.Pddl.{read_pddl};
ghost use Rattle.semantics.specs.PddlWrite.{write_pddl};
ghost use Rattle.semantics.specs.Text.{read_text};
ghost use Rattle.capi_numbers.specs.Call.{call, unless_short, called, VerdictCall};
ghost use Rattle.capi_numbers.specs.Numbers as numbers;
ghost use Rattle.solo_search.specs.Value.{found_of};
ghost use Rattle.pddl_write.specs.Post.{lengths_of};
ghost use Rattle.capi_run.specs.Runs.{no_run, run_in};
ghost use Rattle.capi.specs.Play.{RunCall, StartCall, PlayCall};

use capi_numbers::tell;
use mask::Shared;
use pddl_write::Lengths;
use refusal::{Refusal, numbered};
use run_ticket::Ticket;
use solo_search::Found;

// What is returned where a slice is shorter than stated.
fn short() -> u64
    ensures { result ≡ 14 }
{
    u64::from(Refusal::Short)
}

// ---- task check

#[unsafe(no_mangle)]
pub extern "C" fn lawcheck_task(t: &[u64]) -> u64
    ensures { result ≡ check t.now }
{
    match task::check(t) {
        Ok(_) => 0,
        Err(e) => u64::from(e),
    }
}

// ---- step

#[unsafe(no_mangle)]
pub extern "C" fn lawcheck_step(t: &[u64], action: u16, shared: &[u64], out: &mut [u64]) -> u64
    ensures { call result out.new
        ≡ called (not (eqb (length shared.now) state_width) || ltb
        (length out.old) 5) numbers.decision out.old
        (step t.now action (state_at shared.now 0)) }
{
    if shared.len() != mask::WORDS || out.len() < 5 {
        return short();
    }
    let answer = step::step(t, action, Shared(mask::load(shared, 0)));
    tell(numbered(answer.map(capi_numbers::decision_numbers)), out)
}

// ---- solo replay

#[unsafe(no_mangle)]
pub extern "C" fn lawcheck_solo_replay(t: &[u64], member: u8, plan: &[u16], out: &mut [u64]) -> u64
    ensures { call result out.new
        ≡ called (ltb (length out.old) 2) numbers.solo out.old
        (solo_replay t.now member plan.now) }
{
    if out.len() < 2 {
        return short();
    }
    let answer = solo_replay::solo_replay(t, member, plan);
    tell(numbered(answer.map(capi_numbers::solo_numbers)), out)
}

// ---- solo search

fn found_numbers(f: Found) -> [u64; 3]
    ensures { result ≡ numbers.searched (found_of f) }
{
    [f.count as u64, f.live as u64, f.marked as u64]
}

#[unsafe(no_mangle)]
pub extern "C" fn lawcheck_solo_search(
    t: &[u64],
    member: u8,
    table: &mut [u64],
    marks: &mut [u8],
    out: &mut [u64],
) -> u64
    ensures out_after { call result out.new
        ≡ called (ltb (length out.old) 3) numbers.searched out.old
        (solo_search t.now member table.old
        marks.old).answer }
    ensures table_after { table.new
        ≡ unless_short (ltb (length out.old) 3) table.old
        (solo_search t.now member table.old
        marks.old).table }
    ensures marks_after { marks.new
        ≡ unless_short (ltb (length out.old) 3) marks.old
        (solo_search t.now member table.old
        marks.old).marks }
{
    if out.len() < 3 {
        return short();
    }
    let answer = solo_search::solo_search(t, member, table, marks);
    tell(numbered(answer.map(found_numbers)), out)
}

// ---- joint replay

#[unsafe(no_mangle)]
pub extern "C" fn lawcheck_joint_replay(
    t: &[u64],
    plans: &[u16],
    ends: &[u64],
    picks: &[u8],
    out: &mut [u64],
) -> u64
    ensures { call result out.new
        ≡ called (ltb (length out.old) 7) numbers.replay out.old
        (joint_replay t.now plans.now ends.now
        picks.now) }
{
    if out.len() < 7 {
        return short();
    }
    let answer = run_replay::joint_replay(t, plans, ends, picks);
    tell(numbered(answer.map(capi_numbers::replay_numbers)), out)
}

// ---- a pick, an ask and a commit on a run: the dispatcher is lent the run that the words hold

#[unsafe(no_mangle)]
pub extern "C" fn lawcheck_pick(
    t: &[u64],
    plans: &[u16],
    ends: &[u64],
    run: &mut [u64],
    member: u8,
    out: &mut [u64],
) -> u64
    ensures { RunCall
        (pick_numbered t.now plans.now ends.now
        (run_in run.old) member)
        run.old out.old (call result out.new) run.new }
{
    if capi_run::no_run(run) || out.len() < 3 {
        return short();
    }
    let p = run_dispatch::once(t, plans, ends, capi_run::run_of(run), member);
    capi_run::tell_dispatched(run, numbered(p.answer), p.run, out)
}

#[unsafe(no_mangle)]
pub extern "C" fn lawcheck_ask(
    t: &[u64],
    plans: &[u16],
    ends: &[u64],
    run: &[u64],
    member: u8,
    out: &mut [u64],
) -> u64
    ensures { call result out.new
        ≡ called (no_run run.now || ltb (length out.old) 7)
        numbers.asked out.old
        (ask_on t.now plans.now ends.now
        (run_in run.now) member) }
{
    if capi_run::no_run(run) || out.len() < 7 {
        return short();
    }
    let a = run_ticket::ask(t, plans, ends, capi_run::run_of(run), member);
    capi_run::tell_asked(numbered(a), out)
}

#[unsafe(no_mangle)]
pub extern "C" fn lawcheck_commit(
    t: &[u64],
    plans: &[u16],
    ends: &[u64],
    run: &mut [u64],
    member: u8,
    change: u32,
    out: &mut [u64],
) -> u64
    ensures { RunCall
        (commit_on t.now plans.now ends.now
        (run_in run.old) (record { member = member; change = change }))
        run.old out.old (call result out.new) run.new }
{
    if capi_run::no_run(run) || out.len() < 3 {
        return short();
    }
    let ticket = Ticket { member, change };
    let p = run_dispatch::commit_once(t, plans, ends, capi_run::run_of(run), ticket);
    capi_run::tell_dispatched(run, numbered(p.answer), p.run, out)
}

// ---- the start of a run, and a list of picks on it

#[unsafe(no_mangle)]
pub extern "C" fn lawcheck_start(t: &[u64], run: &mut [u64]) -> u64
    ensures { StartCall t.now run.old result run.new }
{
    if run.len() < capi_run::RUN_WORDS {
        return short();
    }
    let s = run_dispatch::start(t);
    match s.answer {
        Ok(()) => {
            capi_numbers::put(run, &capi_run::words_of(s.run));
            0
        }
        Err(e) => u64::from(e),
    }
}

#[unsafe(no_mangle)]
pub extern "C" fn lawcheck_play(
    t: &[u64],
    plans: &[u16],
    ends: &[u64],
    run: &mut [u64],
    picks: &[u8],
    answers: &mut [u64],
) -> u64
    ensures { PlayCall t.now plans.now ends.now
        run.old
        picks.now answers.old result run.new answers.new }
{
    if capi_run::no_run(run) {
        return short();
    }
    let p = run_play::play(t, plans, ends, capi_run::run_of(run), picks, answers);
    match p.answer {
        Ok(()) => {
            capi_numbers::put(run, &capi_run::words_of(p.run));
            0
        }
        Err(e) => u64::from(e),
    }
}

// ---- the verdict

#[unsafe(no_mangle)]
pub extern "C" fn lawcheck_verdict(
    t: &[u64],
    local: &mut [u64],
    marks: &mut [u8],
    confs: &mut [u64],
    trail: &mut [u64],
    plans: &mut [u16],
    ends: &mut [u64],
    picks: &mut [u8],
    out: &mut [u64],
) -> u64
    ensures { VerdictCall (ltb (length out.old) 5) t.now
        (lent_of local.old marks.old confs.old
        trail.old plans.old ends.old picks.old)
        (lent_of local.new marks.new confs.new trail.new
        plans.new ends.new picks.new) numbers.verdict
        out.old (call result out.new) }
{
    if out.len() < 5 {
        return short();
    }
    let answer = verdict::verdict(t, local, marks, confs, trail, plans, ends, picks);
    tell(numbered(answer.map(capi_numbers::verdict_numbers)), out)
}

// ---- the text reader

fn record_numbers(n: usize) -> [u64; 1]
    ensures { result ≡ numbers.records n }
{
    [n as u64]
}

#[unsafe(no_mangle)]
pub extern "C" fn lawcheck_read(text: &[u8], words: &mut [u64], out: &mut [u64]) -> u64
    ensures out_after { call result out.new
        ≡ called (ltb (length out.old) 1) numbers.records out.old
        (read_text text.now words.old).answer }
    ensures words_after { words.new
        ≡ unless_short (ltb (length out.old) 1) words.old
        (read_text text.now words.old).words }
{
    if out.len() < 1 {
        return short();
    }
    tell(numbered(text::read(text, words).map(record_numbers)), out)
}

// ---- the reader and the writer of PDDL

#[unsafe(no_mangle)]
pub extern "C" fn lawcheck_pddl_read(
    text: &[u8],
    waits: &[u8],
    words: &mut [u64],
    out: &mut [u64],
) -> u64
    ensures out_after { call result out.new
        ≡ called (ltb (length out.old) 1) numbers.records out.old
        (read_pddl text.now waits.now words.old).answer }
    ensures words_after { words.new
        ≡ unless_short (ltb (length out.old) 1) words.old
        (read_pddl text.now waits.now words.old).words }
{
    if out.len() < 1 {
        return short();
    }
    tell(
        numbered(pddl::read(text, waits, words).map(record_numbers)),
        out,
    )
}

fn length_numbers(l: Lengths) -> [u64; 2]
    ensures { result ≡ numbers.lengths (lengths_of l) }
{
    [l.of_text as u64, l.of_waits as u64]
}

#[unsafe(no_mangle)]
pub extern "C" fn lawcheck_pddl_write(
    t: &[u64],
    text: &mut [u8],
    waits: &mut [u8],
    out: &mut [u64],
) -> u64
    ensures out_after { call result out.new
        ≡ called (ltb (length out.old) 2) numbers.lengths out.old
        (write_pddl t.now text.old waits.old).answer }
    ensures text_after { text.new
        ≡ unless_short (ltb (length out.old) 2) text.old
        (write_pddl t.now text.old waits.old).text }
    ensures waits_after { waits.new
        ≡ unless_short (ltb (length out.old) 2) waits.old
        (write_pddl t.now text.old waits.old).waits }
{
    if out.len() < 2 {
        return short();
    }
    tell(
        numbered(pddl_write::write(t, text, waits).map(length_numbers)),
        out,
    )
}

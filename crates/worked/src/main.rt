// Runs the paper's worked laws through the operations and prints what they answer, one line an
// answer; then L13, which is L1 with each fact higher by 61, so that facts 0 to 2 stand in the low
// words and 3 and 4 in the high ones.

#![tactic(auto)]

use std::ops::Range;
use worked_show::Planned;

// The words of a table with room enough for each of these laws.
const PLENTY: usize = 96;

// ---- the laws

// The text of the law with this number: L2 to L4, L11 and L12 are L1 changed; L9 and L10 are L1
// with tables of their own.
fn law(number: u64) -> &'static [u8] {
    match number {
        2 => b"5,2,4,1,0,0,0,0,0\r\n0,5,0,0,0,0,0,0,0\r\n1,17,0,0,0,0,0,0,0\r\n\
              0,1,0,0,0,2,0,1,0\r\n0,2,0,0,0,5,0,2,0\r\n1,1,0,0,0,8,0,1,0\r\n\
              1,8,0,0,0,17,0,8,0\r\n",
        3 => b"5,2,4,1,0,0,0,0,0\r\n0,4,0,0,0,0,0,0,0\r\n1,16,0,0,0,0,0,0,0\r\n\
              0,1,0,1,0,2,0,1,0\r\n0,2,0,0,0,5,0,2,0\r\n1,1,0,1,0,8,0,1,0\r\n\
              1,8,0,0,0,17,0,8,0\r\n",
        4 => b"5,2,4,1,0,0,0,0,0\r\n0,5,0,0,0,0,0,0,0\r\n1,2,0,0,0,0,0,0,0\r\n\
              0,1,0,1,0,2,0,1,0\r\n0,2,0,0,0,5,0,2,0\r\n1,1,0,1,0,8,0,1,0\r\n\
              1,8,0,0,0,17,0,8,0\r\n",
        5 => b"1,1,0,1,0,0,0,0,0\r\n0,1,0,0,0,0,0,0,0\r\n",
        6 => b"1,1,0,0,0,0,0,0,0\r\n0,1,0,0,0,0,0,0,0\r\n",
        7 => b"2,2,2,0,0,0,0,0,0\r\n0,1,0,0,0,0,0,0,0\r\n1,2,0,0,0,0,0,0,0\r\n\
              0,0,0,0,0,1,0,0,0\r\n1,0,0,0,0,2,0,1,0\r\n",
        8 => b"2,2,2,1,0,0,0,0,0\r\n0,1,0,0,0,0,0,0,0\r\n1,1,0,0,0,0,0,0,0\r\n\
              0,0,0,0,0,2,0,1,0\r\n1,1,0,0,0,1,0,0,0\r\n",
        11 => b"5,2,4,1,0,0,0,0,0\r\n0,32,0,0,0,0,0,0,0\r\n1,17,0,0,0,0,0,0,0\r\n\
              0,1,0,1,0,2,0,1,0\r\n0,2,0,0,0,5,0,2,0\r\n1,1,0,1,0,8,0,1,0\r\n\
              1,8,0,0,0,17,0,8,0\r\n",
        12 => b"5,2,4,1,0,0,0,0,0\r\n0,5,0,0,0,0,0,0,0\r\n1,17,0,0,0,0,0,0,0\r\n\
              0,1,0,1,0,2,0,1,0\r\n0,2,0,0,0,5,0,2,0\r\n1,1,0,1,0,8,0,1,0\r\n\
              0,1,0,2,0,0,0,0,0\r\n",
        13 => b"66,2,4,2305843009213693952,0,0,0,0,0\r\n\
              0,11529215046068469760,0,0,0,0,0,0,0\r\n\
              1,2305843009213693952,2,0,0,0,0,0,0\r\n\
              0,2305843009213693952,0,2305843009213693952,0,\
              4611686018427387904,0,2305843009213693952,0\r\n\
              0,4611686018427387904,0,0,0,11529215046068469760,0,4611686018427387904,0\r\n\
              1,2305843009213693952,0,2305843009213693952,0,0,1,2305843009213693952,0\r\n\
              1,0,1,0,0,2305843009213693952,2,0,1\r\n",
        _ => b"5,2,4,1,0,0,0,0,0\r\n0,5,0,0,0,0,0,0,0\r\n1,17,0,0,0,0,0,0,0\r\n\
              0,1,0,1,0,2,0,1,0\r\n0,2,0,0,0,5,0,2,0\r\n1,1,0,1,0,8,0,1,0\r\n\
              1,8,0,0,0,17,0,8,0\r\n",
    }
}

// ---- the laws through the operations

fn steps_of_l1(rt: &impl Print, t: &[u64]) {
    worked_show::show_check(rt, 1, t);
    worked_show::show_step(rt, 1, t, 0, 1, 0);
    worked_show::show_step(rt, 1, t, 0, 0, 0);
    worked_show::show_step(rt, 1, t, 1, 1, 0);
    worked_show::show_step(rt, 1, t, 4, 1, 0);
    worked_show::show_step(rt, 1, t, 0, 32, 0)
}

fn plans_of_l1(rt: &impl Print, t: &[u64]) {
    worked_show::show_solo(rt, 1, t, 0, &[0, 1]);
    worked_show::show_solo(rt, 1, t, 0, &[0, 0]);
    worked_show::show_solo(rt, 1, t, 0, &[0]);
    worked_show::show_solo(rt, 1, t, 0, &[2]);
    worked_show::show_solo(rt, 1, t, 2, &[0])
}

fn copies_of_l1(rt: &impl Print, t: &[u64]) {
    let mut table = [7; 8];
    let mut marks = [7; 5];
    worked_show::show_search(rt, 1, t, 0, &mut table, &mut marks);
    let mut short = [7; 7];
    worked_show::show_search(rt, 1, t, 0, &mut short, &mut marks)
}

// L1 with these plans.
fn planned_l1(t: &[u64]) -> Planned<'_> {
    Planned {
        number: 1,
        t,
        plans: &[0, 1, 2, 3],
        ends: &[2, 4],
    }
}

fn runs_of_l1(rt: &impl Print, t: &[u64]) {
    let law = planned_l1(t);
    worked_show::show_pick(rt, &law, 0);
    worked_show::show_pick(rt, &law, 2);
    worked_show::show_runs(rt, &law, &[0, 0, 1, 1]);
    worked_show::show_runs(rt, &law, &[0]);
    worked_show::show_runs(rt, &law, &[0, 1])
}

// The last two change numbers of 32 bits.
fn changes_of_l1(rt: &impl Print, t: &[u64]) {
    let law = planned_l1(t);
    worked_show::show_change(rt, &law, 4294967294);
    worked_show::show_change(rt, &law, 4294967295)
}

fn on_l1(rt: &impl Print, t: &[u64]) {
    steps_of_l1(rt, t);
    plans_of_l1(rt, t);
    copies_of_l1(rt, t);
    runs_of_l1(rt, t);
    changes_of_l1(rt, t)
}

fn on_l2(rt: &impl Print, t: &[u64]) {
    worked_show::show_check(rt, 2, t);
    let long = Planned {
        number: 2,
        t,
        plans: &[0, 1, 2, 3],
        ends: &[2, 4],
    };
    worked_show::show_runs(rt, &long, &[0, 1]);
    let short = Planned {
        number: 2,
        t,
        plans: &[0, 2, 3],
        ends: &[1, 3],
    };
    worked_show::show_runs(rt, &short, &[0, 1])
}

fn on_l3(rt: &impl Print, t: &[u64]) {
    let law = Planned {
        number: 3,
        t,
        plans: &[0, 1, 0, 2, 3],
        ends: &[3, 5],
    };
    worked_show::show_runs(rt, &law, &[0, 0, 0])
}

fn on_l5(rt: &impl Print, t: &[u64]) {
    worked_show::show_check(rt, 5, t);
    worked_show::show_solo(rt, 5, t, 0, &[])
}

fn on_l7(rt: &impl Print, t: &[u64]) {
    let law = Planned {
        number: 7,
        t,
        plans: &[0, 1],
        ends: &[1, 2],
    };
    worked_show::show_runs(rt, &law, &[0, 1]);
    worked_show::show_runs(rt, &law, &[1, 0])
}

fn copies_of(rt: &impl Print, law: u64, t: &[u64], member: u8) {
    let mut table = [7; 8];
    let mut marks = [7; 4];
    worked_show::show_search(rt, law, t, member, &mut table, &mut marks)
}

// Facts 61 to 65 are those that L1 calls 0 to 4.
fn on_l13(rt: &impl Print, t: &[u64]) {
    worked_show::show_check(rt, 13, t);
    worked_show::show_step(rt, 13, t, 2, 2305843009213693952, 0);
    worked_show::show_step(rt, 13, t, 3, 0, 1);
    worked_show::show_step(rt, 13, t, 3, 1, 0);
    worked_show::show_step(rt, 13, t, 3, 0, 4);
    copies_of(rt, 13, t, 1);
    let law = Planned {
        number: 13,
        t,
        plans: &[0, 1, 2, 3],
        ends: &[2, 4],
    };
    worked_show::show_pick(rt, &law, 1);
    worked_show::show_runs(rt, &law, &[0, 0, 1, 1])
}

// What is asked of a law below the verdict.
fn show_operations(rt: &impl Print, law: u64, t: &[u64]) {
    match law {
        1 => on_l1(rt, t),
        2 => on_l2(rt, t),
        3 => on_l3(rt, t),
        4 => copies_of(rt, 4, t, 1),
        5 => on_l5(rt, t),
        6 => worked_show::show_solo(rt, 6, t, 0, &[]),
        7 => on_l7(rt, t),
        8 => copies_of(rt, 8, t, 0),
        13 => on_l13(rt, t),
        _ => worked_show::show_check(rt, law, t),
    }
}

// L1 at the edge of its configuration table.
fn on_l9(rt: &impl Print, t: &[u64]) {
    let mut local = [7; PLENTY];
    let mut short = [7; 71];
    let mut enough = [7; 72];
    worked_show::asked(rt, 9, b", 71 words,");
    worked_show::show_verdict(rt, t, &mut local, &mut short);
    worked_show::asked(rt, 9, b", 72 words,");
    worked_show::show_verdict(rt, t, &mut local, &mut enough)
}

// L1 at the edge of its local table.
fn on_l10(rt: &impl Print, t: &[u64]) {
    let mut confs = [7; PLENTY];
    let mut short = [7; 15];
    let mut enough = [7; 16];
    worked_show::asked(rt, 10, b", 15 words,");
    worked_show::show_verdict(rt, t, &mut short, &mut confs);
    worked_show::asked(rt, 10, b", 16 words,");
    worked_show::show_verdict(rt, t, &mut enough, &mut confs)
}

fn verdict_of(rt: &impl Print, law: u64, t: &[u64]) {
    let mut local = [7; PLENTY];
    let mut confs = [7; PLENTY];
    worked_show::asked(rt, law, b"");
    worked_show::show_verdict(rt, t, &mut local, &mut confs)
}

fn show_verdicts(rt: &impl Print, law: u64, t: &[u64]) {
    match law {
        9 => on_l9(rt, t),
        10 => on_l10(rt, t),
        _ => verdict_of(rt, law, t),
    }
}

// What is asked of a law.
#[derive(Clone, Copy)]
enum Asked {
    Operations,
    Verdict,
}

fn show_words(rt: &impl Print, law: u64, t: &[u64], asked: Asked) {
    match asked {
        Asked::Operations => show_operations(rt, law, t),
        Asked::Verdict => show_verdicts(rt, law, t),
    }
}

// A law, from its text. A text that is none has no words.
fn show(rt: &impl Print, number: u64, asked: Asked) {
    let mut words = [0; text::MOST_WORDS];
    match text::scan_text(law(number), &mut words, text::ROW, text::MOST_RECORDS) {
        Some(n) => show_words(rt, number, &words[..text::ROW * n], asked),
        None => show_words(rt, number, &[], asked),
    }
}

fn show_laws(rt: &impl Print, numbers: Range<u64>, asked: Asked) {
    for number in numbers {
        show(rt, number, asked);
    }
}

fn show_all(rt: &impl Print) {
    show_laws(rt, 1..5, Asked::Operations);
    show_laws(rt, 11..13, Asked::Operations);
    show_laws(rt, 5..9, Asked::Operations);
    show_laws(rt, 1..11, Asked::Verdict);
    show(rt, 13, Asked::Operations);
    show(rt, 13, Asked::Verdict)
}

fn main(rt: HostRuntime) {
    show_all(&rt);
}

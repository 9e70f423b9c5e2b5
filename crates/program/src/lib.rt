// The verdict program on slices: the text of a task in, the verdict file out.

#![tactic(auto)]

ghost use Rattle.std.specs.Prelude.{◌≡◌, ◌≤◌, length, replicate};
ghost use Rattle.semantics.specs.Verdict.{lent_of};
ghost use Rattle.text.specs.Post.{most_words};
ghost use Rattle.program.specs.Program.{lent_for, reported, printed, AtFront};
ghost use Rattle.program.specs.Inner.Most.{most_bytes};

use task::Task;

const LOCAL_WORDS: usize = 4096;

const CONFIGURATION_WORDS: usize = 8192;

// The words of a copy.
const COPY_WORDS: usize = 2;

// How many copies each table holds.
const LOCAL_COPIES: usize = LOCAL_WORDS / COPY_WORDS;

const CONFIGURATION_COPIES: usize = CONFIGURATION_WORDS / COPY_WORDS;

// The most configurations, those of a task of one member.
const MOST_CONFIGURATIONS: usize = CONFIGURATION_COPIES / 2;

// The bytes of the longest text: of each record, fields of 20 digits, a comma after each but the
// last, and CR LF.
pub const MOST_TEXT: usize = text::MOST_RECORDS * (text::ROW * 20 + text::ROW - 1 + 2);

// The bytes of the longest file: the line of column names, then lines of at most 33 bytes, one for
// the verdict, 128 for missing facts, eight for plans, and as many for actions and picks as the
// slices hold.
pub const MOST_BYTES: usize = 16
    + 33 * (1 + 128 + 8 + (MOST_CONFIGURATIONS + LOCAL_COPIES) + MOST_CONFIGURATIONS);

// The file of the verdict on an accepted task, with zero slices of the program's lengths.
fn judge(
    t: &Task,
    local: &mut [u64],
    marks: &mut [u8],
    confs: &mut [u64],
    trail: &mut [u64],
    plans: &mut [u16],
    ends: &mut [u64],
    picks: &mut [u8],
    out: &mut [u8],
) -> usize
    requires picks_value { lent_of local.old marks.old confs.old trail.old plans.old ends.old
        picks.old ≡ lent_for t.now.words.now }
    requires most_bytes_in_bounds { most_bytes ≤ length out.old }
    ensures { AtFront (reported t.now.words.now) out.old out.new result }
{
    let n = t.members();
    let answer = verdict::verdict(t.words, local, marks, confs, trail, plans, ends, picks);
    report::put_file(out, refusal::numbered(answer), n, plans, ends, picks)
}

// The same, with slices of its own.
fn of_task(t: &Task, out: &mut [u8]) -> usize
    requires { most_bytes ≤ length out.old }
    ensures { AtFront (reported t.now.words.now) out.old out.new result }
{
    let n = t.members();
    let rows = n * (LOCAL_COPIES / n);
    let most = CONFIGURATION_COPIES / (n + 1);
    let mut local = [0u64; LOCAL_WORDS];
    let mut marks = [0u8; LOCAL_COPIES];
    let mut confs = [0u64; CONFIGURATION_WORDS];
    let mut trail = [0u64; 2 * MOST_CONFIGURATIONS];
    let mut plans = [0u16; MOST_CONFIGURATIONS + LOCAL_COPIES];
    let mut ends = [0u64; 8];
    let mut picks = [0u8; MOST_CONFIGURATIONS];
    judge(
        t,
        &mut local,
        &mut marks[..rows],
        &mut confs,
        &mut trail[..2 * most],
        &mut plans[..most + rows],
        &mut ends[..n],
        &mut picks[..most],
        out,
    )
}

// The file for a text, whose words go to the slice.
fn of_text(text: &[u8], words: &mut [u64], out: &mut [u8]) -> usize
    requires words_value { words.old ≡ replicate most_words 0 }
    requires most_bytes_in_bounds { most_bytes ≤ length out.old }
    ensures { AtFront (printed text.now) out.old
        out.new result }
{
    match text::read(text, words) {
        Ok(n) => {
            let t = Task {
                words: &words[..text::ROW * n],
            };
            of_task(&t, out)
        }
        Err(e) => report::put_refusal(out, u64::from(e)),
    }
}

// The program, for every text: the file stands in the first bytes, the answer is their number, and
// the bytes after them are as they were.
pub fn verdict_file(text: &[u8], out: &mut [u8; MOST_BYTES]) -> usize
    ensures { AtFront (printed text.now) out.old
        out.new result }
{
    let mut words = [0u64; text::MOST_WORDS];
    of_text(text, &mut words, out)
}

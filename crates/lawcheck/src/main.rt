// The verdict program: reads the text of a task on standard input and prints its verdict file.

#![tactic(auto)]

ghost use Rattle.std.specs.Prelude.{◌≤◌, ◌≡◌, IfOk, length};
ghost use Rattle.std.specs.Io.{ReadsAtMost, WritesAtMost};

use std::io;
use std::io::{ErrorKind, Read, Write};

// A read or write that a signal interrupts before it moves a byte is made again, so often in a
// row; then it counts as one that failed. Without a bound the program would not provably end;
// a thousand signals a second reach this one in a quarter of an hour.
const TRIES: usize = 1000000;

// One byte more than the longest text has: what fills the buffer is no text, and neither is what it
// is the front of.
const TEXT_ROOM: usize = program::MOST_TEXT + 1;

// The `ensures` gives only the length, which lending the array as a slice needs.
fn text_room() -> [u8; TEXT_ROOM]
    ensures { 50351 ≡ length result }
{
    [0; TEXT_ROOM]
}

// Room for the longest file.
fn file_room() -> [u8; program::MOST_BYTES]
    ensures { 207289 ≡ length result }
{
    [0; program::MOST_BYTES]
}

// Whether a call that answered so was interrupted before it moved a byte.
fn interrupted(answer: &io::Result<usize>) -> bool {
    match answer {
        Ok(_) => false,
        Err(e) => e.kind() == ErrorKind::Interrupted,
    }
}

// One read, made again where it is interrupted: the bytes read, 0 at the end of the input.
fn read_some(input: &mut impl Read, buf: &mut [u8]) -> io::Result<usize>
    ensures { ReadsAtMost result buf.new }
{
    for _ in 1..TRIES {
        let got = input.read(buf);
        if !interrupted(&got) {
            return got;
        }
        let _ = got;
    }
    input.read(buf)
}

// One write, made again where it is interrupted: the bytes taken.
fn write_some(output: &mut impl Write, buf: &[u8]) -> io::Result<usize>
    ensures { WritesAtMost result buf.now }
{
    for _ in 1..TRIES {
        let put = output.write(buf);
        if !interrupted(&put) {
            return put;
        }
        let _ = put;
    }
    output.write(buf)
}

// Reads until the input ends or the buffer is full: the bytes read.
fn read_all(input: &mut impl Read, buf: &mut [u8]) -> io::Result<usize>
    ensures { IfOk result (λ n. n ≤ length buf.new) }
{
    let mut done = 0;
    // A `while`: only the read tells how far it came.
    while done < buf.len() {
        let n = read_some(input, &mut buf[done..])?;
        if n == 0 {
            break;
        }
        done += n;
    }
    Ok(done)
}

// On standard error: which stream failed, and the system's words for the error.
fn fail(rt: &(impl Eprint + AllocGlobal), stream: &str, error: &io::Error) {
    let told = match format!(in rt.alloc(); "{error}") {
        Ok(text) => match text.as_str().split_once(" (os error") {
            Some((words, _)) => eprintln!(rt; "lawcheck: {stream}: {words}"),
            None => eprintln!(rt; "lawcheck: {stream}: {error}"),
        },
        Err(_) => eprintln!(rt; "lawcheck: {stream}: {error}"),
    };
    let _ = told;
}

// Writes all bytes, or stops at a write that fails or takes nothing, and says so on standard error.
fn print(rt: &(impl Eprint + AllocGlobal), output: &mut impl Write, buf: &[u8]) {
    let mut done = 0;
    // A `while`: only the write tells how far it came.
    while done < buf.len() {
        match write_some(output, &buf[done..]) {
            Ok(0) => {
                let told = eprintln!(rt; "lawcheck: standard output takes no more bytes");
                let _ = told;
                return;
            }
            Ok(n) => done += n,
            Err(e) => {
                fail(rt, "standard output", &e);
                return;
            }
        }
    }
}

fn main(rt: HostRuntime) {
    let mut text = text_room();
    match read_all(&mut rt.stdin(), &mut text) {
        Ok(n) => {
            let mut out = file_room();
            let r = program::verdict_file(&text[..n], &mut out);
            print(&rt, &mut rt.stdout(), &out[..r]);
        }
        Err(e) => fail(&rt, "standard input", &e),
    }
}

// The text reader: bytes in, words out. The reader of records goes by the fields of a record,
// `width`, and the most records; the text reader is its instance for a task's rows.

#![tactic(auto)]

ghost use Rattle.std.specs.Prelude.{◌≡◌, ◌-◌, ◌*◌, ◌^◌, ◌≤◌, ◌<◌, length, Err};
ghost use Rattle.text.specs.Inner.Byte.{ByteMeans};
ghost use Rattle.text.specs.Inner.Place.{at, InReach, step_of, last_of};
ghost use Rattle.text.specs.Post.{ScanMeans, reading};
ghost use Rattle.semantics.specs.Base.{zeroed};
ghost use Rattle.semantics.specs.Text.{read_text};

use refusal::Refusal;

// Words in a row.
pub const ROW: usize = 9;

pub const MOST_RECORDS: usize = 265;

pub const MOST_WORDS: usize = ROW * MOST_RECORDS;

// 2^64 - 1.
const LARGEST: u64 = 18446744073709551615;

// What a byte is to the reader; of a digit, its value.
#[derive(Clone, Copy)]
pub enum Byte {
    Digit(u64),
    Comma,
    Cr,
    Lf,
    Other,
}

// What was read of the present field: nothing, or digits that write a number; or the record's
// fields are all read, and CR.
#[derive(Clone, Copy)]
pub enum Field {
    Empty,
    Number(u64),
    Ended,
}

// Where the reader stands: the records before, the fields of this record before, and the field.
#[derive(Clone, Copy)]
pub struct Place {
    pub records: usize,
    pub fields: usize,
    pub field: Field,
}

// What a byte of a text leads to: a place; or a word that is read, and a place. An enum is plainer
// than an Option of the word beside the place, as the readers have an arm for each.
#[derive(Clone, Copy)]
pub enum Turn {
    On(Place),
    Word(u64, Place),
}

// What the end of a text leads to: the number of records, with or without a word that is read
// there; an enum as `Turn` is.
#[derive(Clone, Copy)]
pub enum Last {
    Records(usize),
    Word(u64, usize),
}

// The byte reader.
pub fn sort(b: u8) -> Byte
    ensures { ByteMeans b result }
{
    match b {
        b'0'..=b'9' => Byte::Digit(u64::from(b - b'0')),
        b',' => Byte::Comma,
        b'\r' => Byte::Cr,
        b'\n' => Byte::Lf,
        _ => Byte::Other,
    }
}

// The record reader: what the byte b leads to from the place p; None if no text
// goes on so.
pub fn step(p: Place, b: Byte, width: usize, most: usize) -> Option<Turn>
    requires { InReach width most p }
    ensures { result ≡ step_of width most p b }
{
    match p.field {
        Field::Empty => match b {
            Byte::Digit(d) if p.records < most => Some(Turn::On(Place {
                field: Field::Number(d),
                ..p
            })),
            _ => None,
        },
        Field::Number(v) => match b {
            Byte::Digit(d) if v != 0 && v <= (LARGEST - d) / 10 => Some(Turn::On(Place {
                field: Field::Number(10 * v + d),
                ..p
            })),
            Byte::Comma if p.fields + 1 < width => Some(Turn::Word(
                v,
                Place {
                    fields: p.fields + 1,
                    field: Field::Empty,
                    ..p
                },
            )),
            Byte::Cr if p.fields + 1 == width => Some(Turn::Word(
                v,
                Place {
                    fields: p.fields + 1,
                    field: Field::Ended,
                    ..p
                },
            )),
            _ => None,
        },
        Field::Ended => match b {
            Byte::Lf => Some(Turn::On(Place {
                records: p.records + 1,
                fields: 0,
                field: Field::Empty,
            })),
            _ => None,
        },
    }
}

// What the end of the text leads to from the place p; None if no text ends so.
pub fn at_end(p: Place, width: usize) -> Option<Last>
    requires { InReach width (2 ^ 64 - 1) p }
    ensures { result ≡ last_of width p }
{
    match p.field {
        Field::Empty if p.fields == 0 => Some(Last::Records(p.records)),
        Field::Number(v) if p.fields + 1 == width => Some(Last::Word(v, p.records + 1)),
        _ => None,
    }
}

// The place before the first byte.
pub fn start() -> Place
    ensures { result ≡ at 0 0 Field.Empty }
{
    Place {
        records: 0,
        fields: 0,
        field: Field::Empty,
    }
}

// The reader of records: the words of the text go to the front of the slice, which is as long as
// the most records ask. The answer is the number of records; None if the text is none.
pub fn scan_text(text: &[u8], words: &mut [u64], width: usize, most: usize) -> Option<usize>
    requires width_nonzero { 0 < width }
    requires most_in_bounds { width * most ≤ length words.old }
    ensures { ScanMeans width most text.now words.new result }
{
    let mut place = start();
    let mut count = 0;
    for b in text {
        match step(place, sort(*b), width, most)? {
            Turn::On(p) => {
                place = p;
            }
            Turn::Word(v, p) => {
                words[count] = v;
                count += 1;
                place = p;
            }
        }
    }
    match at_end(place, width)? {
        Last::Records(n) => Some(n),
        Last::Word(v, n) => {
            words[count] = v;
            Some(n)
        }
    }
}

// A refusal after which the slice is all zeros.
fn refuse(words: &mut [u64], refusal: Refusal) -> Result<usize, Refusal>
    ensures answer { result ≡ Err refusal }
    ensures zeros { words.new ≡ zeroed words.old }
{
    words.fill(0);
    Err(refusal)
}

// The text reader: the text's words go to the front of the slice, zeros after them, and the answer
// is the number of records; or a refusal.
pub fn read(text: &[u8], words: &mut [u64]) -> Result<usize, Refusal>
    ensures { reading result words.new
        ≡ read_text text.now words.old }
{
    if words.len() < MOST_WORDS {
        return Err(Refusal::Short);
    }
    match scan_text(text, words, ROW, MOST_RECORDS) {
        Some(n) => {
            let end = ROW * n;
            match task::check(&words[..end]) {
                Ok(_) => {
                    rows::fill_from(words, end, 0);
                    Ok(n)
                }
                Err(e) => refuse(words, e),
            }
        }
        None => refuse(words, Refusal::Text),
    }
}

//! Runs the stored sheets of data/sheets through `refusals::check` and compares what it answers.
//!
//! An entry is 12 bytes, integers little-endian, and then the sheet: byte 0 the refusal number, 0 for an accepted one,
//! bytes 2-3 n and 4-5 m of an accepted one, bytes 8-11 the sheet's length. vectors/README.md says how they were made.
//! A file that cannot be opened, or a write that fails, ends the program with its error. One that cannot be read to
//! its end is told of in a line behind the counts.
#![tactic(auto)]

ghost use Rattle.std.specs.Prelude.{◌≡◌};

use anyhow::Context;
use harness::reading::read_full;
use harness::tally::Tally;
use sheet::record::{quad_at, word_at};
use sheet::{Refusal, Sizes};
use std::fs::File;
use std::io::Read;
use std::{fmt, io};

// A refusal number, or 0 with the n and m of an accepted sheet, as an entry has them. All three are compared.
#[derive(Clone, Copy, PartialEq)]
struct Verdict {
    number: u8,
    n: usize,
    m: usize,
}

impl From<Result<Sizes, Refusal>> for Verdict {
    fn from(answer: Result<Sizes, Refusal>) -> Verdict {
        match answer {
            Ok(Sizes { n, m }) => Verdict { number: 0, n, m },
            Err(r) => Verdict {
                number: u8::from(r),
                n: 0,
                m: 0,
            },
        }
    }
}

impl fmt::Display for Verdict {
    fn fmt<W: fmt::Write>(&self, f: &mut fmt::Formatter<W>) -> fmt::Result {
        write!(f, "{} with n {} and m {}", self.number, self.n, self.m)
    }
}

// The file is not read to its end: a read fails, an entry is cut off, its sheet does not fit the space, or there are
// more than are stored by far.
#[derive(Clone, Copy)]
struct CutShort;

impl From<io::Error> for CutShort {
    fn from(_e: io::Error) -> CutShort {
        CutShort
    }
}

// A sheet that was answered otherwise than expected.
#[derive(Clone, Copy)]
struct Wrong {
    wanted: Verdict,
    given: Verdict,
}

impl fmt::Display for Wrong {
    fn fmt<W: fmt::Write>(&self, f: &mut fmt::Formatter<W>) -> fmt::Result {
        write!(f, "expected {}, given {}", self.wanted, self.given)
    }
}

// What the next entry expects, and how long its sheet is. None at the end of the file.
fn next_entry<R: Read>(stored: &mut R) -> Result<Option<(Verdict, usize)>, CutShort> {
    let mut head = [0u8; 12];
    let got = read_full(stored, &mut head)?;
    if got == 0 {
        return Ok(None);
    }
    if got < 12 {
        return Err(CutShort);
    }
    let wanted = Verdict {
        number: head[0],
        n: word_at(&head, 2),
        m: word_at(&head, 4),
    };
    Ok(Some((wanted, quad_at(&head, 8))))
}

// What the next sheet should answer and what it does. None at the end of the file. The space holds more than the
// longest sheet that can be accepted, which has 32,768 bytes.
fn next_turn<R: Read>(stored: &mut R) -> Result<Option<(Verdict, Verdict)>, CutShort> {
    let Some((wanted, length)) = next_entry(stored)? else {
        return Ok(None);
    };
    let mut space = [0u8; 40000];
    if space.len() < length {
        return Err(CutShort);
    }
    let place = &mut space[..length];
    if read_full(stored, place)? < length {
        return Err(CutShort);
    }
    Ok(Some((wanted, Verdict::from(refusals::check(place)))))
}

// Runs the sheets and counts them.
fn run<R: Read>(stored: &mut R, tally: &mut Tally<Wrong>) -> Result<(), CutShort>
    requires { tally.old.runs ≡ 0 }
{
    for _ in 0..100000u64 {
        let Some((wanted, given)) = next_turn(stored)? else {
            return Ok(());
        };
        tally.count((given != wanted).then_some(Wrong { wanted, given }));
    }
    Err(CutShort)
}

fn summary(rt: &impl Print, tally: &Tally<Wrong>) -> io::Result<()> {
    println!(rt; "{tally}")?;
    if let Some((at, wrong)) = tally.first {
        println!(rt; "first at {at}: {wrong}")?;
    }
    Ok(())
}

fn main(rt: HostRuntime) -> anyhow::Result<()> {
    let mut file = File::open(&rt, "sheets").context("sheets")?;
    let mut tally = Tally::new("sheets");
    let read = run(&mut file, &mut tally);
    summary(&rt, &tally)?;
    if read.is_err() {
        println!(rt; "the file of sheets was not read to its end")?;
    }
    Ok(())
}

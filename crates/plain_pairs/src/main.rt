//! Asks the three calls about every ordered pair of the plain types of data/plain, each pair spelled as a sheet and
//! with every mask bit from 1 to 38 set, and compares the answers with the stored ones.
//!
//! The file: the number of types, in two bytes; the types; and for each left and each right the answers to list, union
//! and compare. A type or an answer is four bytes, and four zeros are none. oracle/README.md says how they were made
//! (`plain`). A file that cannot be opened, or a write that fails, ends the program with its error. One that cannot be
//! read, or is not in that form, is told of in a line behind the counts.
#![tactic(auto)]

pub mod typed;

ghost use Rattle.std.specs.Prelude.{◌≡◌, ◌+◌, ◌^◌, ◌<◌, ◌≤◌, length, IfOk};

use crate::typed::{Plain, ROOM, spelled};
use anyhow::Context;
use coercion::Question;
use harness::reading::read_full;
use harness::tally::Tally;
use std::fs::File;
use std::io::Read;
use std::{fmt, io};

// Null may become every kind, 1 to 38.
const FULL: u64 = (1 << 39) - 2;

// What a call answers: a type, none, or a refusal by its number.
type Given = Result<Option<Plain>, u8>;

fn ask(question: Question, left: Plain, right: Plain) -> Given {
    let (sheet, length) = spelled(left, right);
    let sheet = &sheet[..length];
    let mut output = [0; ROOM];
    let mut work = [0; 2 * ROOM];
    let answer = match question {
        Question::List => answers::type_union_resolution(sheet, FULL, &mut output, &mut work),
        Question::Union => answers::type_union_coercion(sheet, FULL, &mut output, &mut work),
        Question::Compare => answers::comparison_coercion(sheet, FULL, &mut output, &mut work),
    };
    let length = answer.map_err(u8::from)?;
    Ok(length.map(|n| Plain::read(&output[..n.min(ROOM)])))
}

// An answer that is not the stored one.
#[derive(Clone, Copy)]
struct Difference {
    left: Plain,
    right: Plain,
    question: Question,
    wanted: Option<Plain>,
    given: Given,
}

impl Difference {
    // None where the answer is the stored one.
    fn of(
        left: Plain,
        right: Plain,
        question: Question,
        wanted: Option<Plain>,
    ) -> Option<Difference> {
        let given = ask(question, left, right);
        (given != Ok(wanted)).then_some(Difference {
            left,
            right,
            question,
            wanted,
            given,
        })
    }
}

impl fmt::Display for Difference {
    fn fmt<W: fmt::Write>(&self, f: &mut fmt::Formatter<W>) -> fmt::Result {
        let wanted = self.wanted.unwrap_or_default();
        write!(
            f,
            "{} of {} and {}: expected {wanted}, ",
            self.question, self.left, self.right
        )?;
        match self.given {
            Ok(given) => write!(f, "given {}", given.unwrap_or_default()),
            Err(number) => write!(f, "refused {number}"),
        }
    }
}

// The file cannot be read, or has no type, more than there is room for, too few bytes or too many.
#[derive(Clone, Copy)]
struct Broken;

impl From<io::Error> for Broken {
    fn from(_e: io::Error) -> Broken {
        Broken
    }
}

fn answer_of(bytes: [u8; 4]) -> Option<Plain> {
    let p = Plain::from(bytes);
    (p != Plain::default()).then_some(p)
}

// The answers to the three questions stand one after the other.
fn run_pair<R: Read>(
    stored: &mut R,
    l: Plain,
    r: Plain,
    tally: &mut Tally<Difference>,
) -> Result<(), Broken>
    requires { tally.old.runs < 2 ^ 31 }
    ensures { tally.new.runs ≤ tally.old.runs + 3 }
{
    let mut wanted = [0u8; 12];
    if read_full(stored, &mut wanted)? < 12 {
        return Err(Broken);
    }
    let (wanted, _) = wanted.as_chunks::<4>();
    tally.count(Difference::of(l, r, Question::List, answer_of(wanted[0])));
    tally.count(Difference::of(l, r, Question::Union, answer_of(wanted[1])));
    tally.count(Difference::of(l, r, Question::Compare, answer_of(wanted[2])));
    Ok(())
}

fn run_types<R: Read>(
    stored: &mut R,
    types: &[u8],
    tally: &mut Tally<Difference>,
) -> Result<(), Broken>
    requires types_bound { length types.now ≤ 1024 }
    requires tally_bound { tally.old.runs < 2 ^ 30 }
{
    let (types, _) = types.as_chunks::<4>();
    for l in types {
        for r in types {
            run_pair(stored, Plain::from(*l), Plain::from(*r), tally)?;
        }
    }
    Ok(())
}

fn read_types<'a, R: Read>(stored: &mut R, space: &'a mut [u8]) -> Result<&'a [u8], Broken>
    requires { length space.old ≡ 1024 }
    ensures { IfOk result (λ types. length types.now ≤ 1024) }
{
    let mut head = [0u8; 2];
    read_full(stored, &mut head)?;
    let count = usize::from(u16::from_le_bytes(head));
    if count == 0 || count > 256 {
        return Err(Broken);
    }
    let types = &mut space[..count * 4];
    if read_full(stored, types)? < types.len() {
        return Err(Broken);
    }
    Ok(types)
}

fn at_end<R: Read>(stored: &mut R) -> io::Result<bool> {
    let mut one = [0u8; 1];
    Ok(read_full(stored, &mut one)? == 0)
}

// There is room for 256 types.
fn run<R: Read>(stored: &mut R, tally: &mut Tally<Difference>) -> Result<(), Broken>
    requires { tally.old.runs ≡ 0 }
{
    let mut space = [0u8; 1024];
    let types = read_types(stored, &mut space)?;
    run_types(stored, types, tally)?;
    if at_end(stored)? { Ok(()) } else { Err(Broken) }
}

fn summary(rt: &impl Print, tally: &Tally<Difference>) -> io::Result<()> {
    println!(rt; "{tally}")?;
    if let Some((_, first)) = tally.first {
        println!(rt; "{first}")?;
    }
    Ok(())
}

fn main(rt: HostRuntime) -> anyhow::Result<()> {
    let mut file = File::open(&rt, "plain").context("plain")?;
    let mut tally = Tally::new("answers");
    let read = run(&mut file, &mut tally);
    summary(&rt, &tally)?;
    if read.is_err() {
        println!(rt; "the file has too few bytes or too many")?;
    }
    Ok(())
}

//! Runs the stored calls of data/calls.bin and compares what they answer, and what they leave in the output and the
//! work space, with what is stored.
//!
//! oracle/vectors/README.md has the form of the file and says how it was made. A file that cannot be opened, or a
//! write that fails, ends the program with its error. One that cannot be read to its end, or is not in that form, is
//! told of in a line behind the counts.
#![tactic(auto)]

pub mod spaces;
pub mod stored;

ghost use Rattle.std.specs.Prelude.{◌≡◌, ◌≤◌, length};

use crate::stored::{Broken, Question, Reply, Vector};
use answers::Answer;
use anyhow::Context;
use harness::reading::read_full;
use harness::tally::Tally;
use std::fs::File;
use std::io::Read;
use std::{fmt, io};

// Room for a stored sheet, for its answer and for an output; a work space has twice as much.
const ROOM: usize = 20000;

// Bytes that lie behind the lent ones in an output and a work space, and that a call must leave alone.
const GUARD: usize = 64;

// More vectors than are stored.
const MOST: u64 = 100000;

// What a call answered, and whether it left the output and the work space as it should.
#[derive(Clone, Copy)]
struct Given {
    reply: Reply,
    output: bool,
    work: bool,
}

impl fmt::Display for Given {
    fn fmt<W: fmt::Write>(&self, f: &mut fmt::Formatter<W>) -> fmt::Result {
        write!(f, "{}", self.reply)?;
        if !self.output {
            write!(f, ", output not as it should be")?;
        }
        if !self.work {
            write!(f, ", work space not as it should be")?;
        }
        Ok(())
    }
}

// A call that went wrong.
#[derive(Clone, Copy)]
struct Wrong {
    vector: Vector,
    given: Given,
}

impl fmt::Display for Wrong {
    fn fmt<W: fmt::Write>(&self, f: &mut fmt::Formatter<W>) -> fmt::Result {
        let Vector {
            question,
            expected,
            ..
        } = self.vector;
        write!(f, "{question}: expected {expected}, given {}", self.given)
    }
}

fn ask(v: Vector, sheet: &[u8], output: &mut [u8], work: &mut [u8]) -> Answer {
    match v.question {
        Question::List => answers::type_union_resolution(sheet, v.mask, output, work),
        Question::Union => answers::type_union_coercion(sheet, v.mask, output, work),
        Question::Compare => answers::comparison_coercion(sheet, v.mask, output, work),
    }
}

// Lends exactly the lengths that the vector says, out of spaces that have some bytes more and are filled.
fn given_in(v: Vector, sheet: &[u8], answer: &[u8], output: &mut [u8], work: &mut [u8]) -> Given
    requires { (length sheet.now ≤ 20000) × ((v.output ≤ length output.old) × (v.work ≤ length work.old)) }
{
    spaces::fill(output);
    spaces::fill(work);
    let told = ask(v, sheet, &mut output[..v.output], &mut work[..v.work]);
    Given {
        reply: Reply(told.map_err(u8::from)),
        output: spaces::is_answered(output, answer),
        work: spaces::is_cleared(work, spaces::cleared(v.expected, sheet.len())),
    }
}

// Fills `place`, if there are bytes enough.
fn read<R: Read>(calls: &mut R, place: &mut [u8]) -> Result<(), Broken> {
    if read_full(calls, place)? == place.len() {
        Ok(())
    } else {
        Err(Broken)
    }
}

// Reads the sheet and the answer of a vector and runs it. The spaces have the lent bytes and those that guard them.
fn run_vector<R: Read>(calls: &mut R, v: Vector) -> Result<Given, Broken> {
    if v.sheet > ROOM || v.answer > ROOM || v.output > ROOM - GUARD || v.work > 2 * ROOM - GUARD {
        return Err(Broken);
    }
    let mut sheet = [0u8; ROOM];
    let mut answer = [0u8; ROOM];
    let sheet = &mut sheet[..v.sheet];
    let answer = &mut answer[..v.answer];
    read(calls, sheet)?;
    read(calls, answer)?;
    let mut output = [0u8; ROOM];
    let mut work = [0u8; 2 * ROOM];
    let output = &mut output[..v.output + GUARD];
    let work = &mut work[..v.work + GUARD];
    Ok(given_in(v, sheet, answer, output, work))
}

// The next vector and what it gave, none at the end of the file.
fn turn<R: Read>(calls: &mut R) -> Result<Option<(Vector, Given)>, Broken> {
    let mut head = [0u8; 32];
    let got = read_full(calls, &mut head)?;
    match stored::entry_of(&head, got)? {
        Some(v) => Ok(Some((v, run_vector(calls, v)?))),
        None => Ok(None),
    }
}

// Whether a call gave all that its vector has, the length of the answer also where no type is expected.
fn agree(v: Vector, g: Given) -> bool {
    g.reply == v.expected && g.reply.length() == v.answer && g.output && g.work
}

// Runs the vectors and counts them.
fn run<R: Read>(calls: &mut R, tally: &mut Tally<Wrong>) -> Result<(), Broken>
    requires { tally.old.runs ≡ 0 }
{
    for _ in 0..MOST {
        let Some((vector, given)) = turn(calls)? else {
            return Ok(());
        };
        tally.count((!agree(vector, given)).then_some(Wrong { vector, given }));
    }
    Err(Broken)
}

fn summary(rt: &impl Print, tally: &Tally<Wrong>) -> io::Result<()> {
    println!(rt; "{tally}")?;
    if let Some((at, wrong)) = tally.first {
        println!(rt; "first at {at} {wrong}")?;
    }
    Ok(())
}

fn main(rt: HostRuntime) -> anyhow::Result<()> {
    let mut file = File::open(&rt, "calls.bin").context("calls.bin")?;
    let mut tally = Tally::new("vectors");
    let read = run(&mut file, &mut tally);
    summary(&rt, &tally)?;
    if read.is_err() {
        println!(rt; "the file of vectors was not read to its end")?;
    }
    Ok(())
}

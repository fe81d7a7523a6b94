//! Reads a sheet from standard input and prints what each of the three calls answers to it, with every mask bit from 1
//! to 38 set.
//!
//! A line is the question and then the kind, byte 2, signed scale and number of records of the answer, its header left
//! out; or `none`; or `refused` and the number. A read or a write that fails ends the program with one line on
//! standard error and status 1.
#![tactic(auto)]

use answers::Answer;
use anyhow::anyhow;
use harness::reading::read_full;
use sheet::Head;
use sheet::limits::LONGEST_SHEET;
use sheet::reader::{Reader, records_of};
use std::io;

const MASK: u64 = (1 << 39) - 2;

// Prints the type of a one-type sheet.
fn print_type(rt: &impl Print, question: &str, sheet: &[u8]) -> io::Result<()> {
    let Head {
        kind,
        figure,
        scale,
        ..
    } = Reader::new(sheet).head();
    let scale = scale.cast_signed();
    let records = records_of(sheet).saturating_sub(1);
    println!(rt; "{question} {kind} {figure} {scale} {records}")
}

// Prints what a call answers to a sheet.
fn print_answer<F: Fn(&[u8], u64, &mut [u8], &mut [u8]) -> Answer>(
    rt: &impl Print,
    question: &str,
    call: F,
    sheet: &[u8],
) -> io::Result<()>
    requires { F.IsAlwaysCallable call }
{
    let mut output = [0u8; LONGEST_SHEET];
    let mut work = [0u8; 2 * LONGEST_SHEET];
    match call(sheet, MASK, &mut output, &mut work) {
        Err(r) => println!(rt; "{question} refused {}", u8::from(r)),
        Ok(None) => println!(rt; "{question} none"),
        Ok(Some(length)) => print_type(rt, question, &output[..length.min(LONGEST_SHEET)]),
    }
}

// An input that has one byte more than the longest sheet is refused as torn, and not read further.
fn main(rt: HostRuntime) -> anyhow::Result<()> {
    let mut space = [0u8; LONGEST_SHEET + 1];
    let length = read_full(&mut rt.reader(), &mut space).map_err(|e| anyhow!(
        "standard input cannot be read: {e}"
    ))?;
    let sheet = &space[..length];
    print_answer(&rt, "list", answers::type_union_resolution, sheet)?;
    print_answer(&rt, "union", answers::type_union_coercion, sheet)?;
    print_answer(&rt, "compare", answers::comparison_coercion, sheet)?;
    Ok(())
}

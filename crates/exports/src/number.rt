//! The number of a call. A torn sheet is refused with no frame: what else there is to do is not inlined, nor are the
//! calls into the exports, where pointers become slices.

ghost use Rattle.std.specs.Prelude.{◌≡◌, false};
ghost use Rattle.sheet.specs.Refusals.{torn};
ghost use Rattle.coercion.specs.declared.Question.{Question};
ghost use Rattle.answers.specs.Call.{outcome};
ghost use Rattle.answers.specs.Code.{reply_of, call_of};
ghost use Rattle.exports.specs.Number.{number_of, exported};

use answers::{Answer, Refusal, ask_framed};
use coercion::{Question, Rules};
use refusals::header::Framed;

// The number of an answer: 0 for none, 1 to 31 for a refusal, from 32 on the byte length of the one-type sheet.
fn number_of(answer: Answer) -> usize
    ensures { result ≡ number_of (reply_of answer) }
{
    match answer {
        Ok(Some(length)) => length,
        Ok(None) => 0,
        Err(r) => usize::from(u8::from(r)),
    }
}

// The number of a call on a sheet that is not torn. It takes the bytes alone, and the question comes last, so that the
// rest stays in the registers that it came in.
#[inline(never)]
fn number_framed(
    sheet: &[u8],
    mask: u64,
    output: &mut [u8],
    work: &mut [u8],
    question: Question,
) -> usize
    requires { torn sheet.now ≡ false }
    ensures { record { number = result; output = output.new; work = work.new } ≡ exported (outcome (call_of (record { question = question; mask = mask }) sheet.now output.old work.old)) }
{
    let rules = Rules { question, mask };
    number_of(ask_framed(rules, Framed::read(sheet), output, work))
}

// The number of a call, whatever it asks.
fn number(question: Question, sheet: &[u8], mask: u64, output: &mut [u8], work: &mut [u8]) -> usize
    ensures { record { number = result; output = output.new; work = work.new } ≡ exported (outcome (call_of (record { question = question; mask = mask }) sheet.now output.old work.old)) }
{
    let Some(framed) = Framed::of(sheet) else {
        return number_of(Err(Refusal::Sheet(sheet::Refusal::Torn)));
    };
    number_framed(framed.sheet, mask, output, work, question)
}

/// The number of a list call.
#[inline(never)]
pub(crate) fn of_list(sheet: &[u8], mask: u64, output: &mut [u8], work: &mut [u8]) -> usize
    ensures { record { number = result; output = output.new; work = work.new } ≡ exported (outcome (call_of (record { question = Question.List; mask = mask }) sheet.now output.old work.old)) }
{
    number(Question::List, sheet, mask, output, work)
}

/// The number of a call for a union.
#[inline(never)]
pub(crate) fn of_union(sheet: &[u8], mask: u64, output: &mut [u8], work: &mut [u8]) -> usize
    ensures { record { number = result; output = output.new; work = work.new } ≡ exported (outcome (call_of (record { question = Question.Union; mask = mask }) sheet.now output.old work.old)) }
{
    number(Question::Union, sheet, mask, output, work)
}

/// The number of a call for a comparison.
#[inline(never)]
pub(crate) fn of_compare(sheet: &[u8], mask: u64, output: &mut [u8], work: &mut [u8]) -> usize
    ensures { record { number = result; output = output.new; work = work.new } ≡ exported (outcome (call_of (record { question = Question.Compare; mask = mask }) sheet.now output.old work.old)) }
{
    number(Question::Compare, sheet, mask, output, work)
}

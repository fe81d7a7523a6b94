//! The static library: the three calls for programs in other languages, which link it. A slice is a pointer and a
//! length, an answer is one number.
#![tactic(auto)]

pub mod laws;
mod number;

ghost use Rattle.std.specs.Prelude.{◌≡◌};
ghost use Rattle.coercion.specs.declared.Question.{Question};
ghost use Rattle.answers.specs.Call.{outcome};
ghost use Rattle.exports.specs.Number.{exported};

/// The common type of any number of listed types, as one number: 0 for none, 1 to 8 for a refusal, from 32 on the
/// byte length of the one-type sheet at the front of the output.
///
/// The output has at least as many bytes as the sheet and the work space twice as many. What a caller in another
/// language owes is not checked: each pointer leads to as many bytes as the length behind it says, neither buffer
/// overlaps the other or the sheet, and nothing else writes to them during the call.
#[unsafe(no_mangle)]
pub extern "C" fn pemzhulaq_type_union_resolution(
    sheet: &[u8],
    mask: u64,
    output: &mut [u8],
    work: &mut [u8],
) -> usize
    ensures { record { number = result; output = output.new; work = work.new } ≡ exported (outcome (record { question = Question.List; sheet = sheet.now; mask = mask; output = output.old; work = work.old })) }
{
    number::of_list(sheet, mask, output, work)
}

/// The common type of two listed types in a union, as one number. The caller owes the same.
#[unsafe(no_mangle)]
pub extern "C" fn pemzhulaq_type_union_coercion(
    sheet: &[u8],
    mask: u64,
    output: &mut [u8],
    work: &mut [u8],
) -> usize
    ensures { record { number = result; output = output.new; work = work.new } ≡ exported (outcome (record { question = Question.Union; sheet = sheet.now; mask = mask; output = output.old; work = work.old })) }
{
    number::of_union(sheet, mask, output, work)
}

/// The type that two listed types are compared as, as one number. The caller owes the same.
#[unsafe(no_mangle)]
pub extern "C" fn pemzhulaq_comparison_coercion(
    sheet: &[u8],
    mask: u64,
    output: &mut [u8],
    work: &mut [u8],
) -> usize
    ensures { record { number = result; output = output.new; work = work.new } ≡ exported (outcome (record { question = Question.Compare; sheet = sheet.now; mask = mask; output = output.old; work = work.old })) }
{
    number::of_compare(sheet, mask, output, work)
}

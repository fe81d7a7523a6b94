//! The three answers over sheets and lent buffers. No public function has a condition of its own: the three calls take
//! any bytes and any mask.
#![tactic(auto)]

mod call;
mod emit;
pub mod laws;
mod rules;

ghost use Rattle.std.specs.Prelude.{◌≡◌};
ghost use Rattle.answers.specs.Call.{outcome};
ghost use Rattle.answers.specs.declared.Refusal.TheVariants.{Sheet};
ghost use Rattle.answers.specs.Code.{number_of, reply_of, call_of, seen};
ghost use Rattle.coercion.specs.declared.Question.{Question};

use coercion::{Question, Rules};
use refusals::header::Framed;

/// Why a call is refused: for what is wrong with the sheet; for a mask with a bit outside 1 to 38; for a sheet that
/// does not list two types where a question wants two; or for too little space. `u8::from` gives the refusal number,
/// 1 to 8.
#[derive(Clone, Copy)]
pub enum Refusal {
    Sheet(sheet::Refusal),
    Mask,
    Pair,
    Space,
}

impl From<sheet::Refusal> for Refusal {
    ghost from_gives = { λ r e. e ≡ Sheet r };

    fn from(r: sheet::Refusal) -> Refusal {
        Refusal::Sheet(r)
    }
}

impl From<Refusal> for u8 {
    ghost from_gives = { λ r n. n ≡ number_of r };

    /// The refusal number.
    fn from(r: Refusal) -> u8 {
        match r {
            Refusal::Sheet(r) => u8::from(r),
            Refusal::Mask => 6,
            Refusal::Pair => 7,
            Refusal::Space => 8,
        }
    }
}

/// What a call reports: why it is refused; no type; or the byte length of the one-type sheet at the front of the
/// output.
pub type Answer = Result<Option<usize>, Refusal>;

/// The common type of any number of listed types, the source's `type_union_resolution`.
///
/// `mask` has bit k set where Null may become kind k. `output` has at least as many bytes as the sheet, `work` twice
/// as many; what stands in them does not matter. Where the call is not refused, the first bytes of `work`, twice as
/// many as the sheet has, are zero after it.
pub fn type_union_resolution(sheet: &[u8], mask: u64, output: &mut [u8], work: &mut [u8]) -> Answer
    ensures { record { reply = reply_of result; output = output.new; work = work.new } ≡ outcome (record { question = Question.List; sheet = sheet.now; mask = mask; output = output.old; work = work.old }) }
{
    let question = Question::List;
    ask(Rules { question, mask }, sheet, output, work)
}

/// The common type of two listed types in a union, the source's `type_union_coercion`. The buffers are those of
/// `type_union_resolution`.
pub fn type_union_coercion(sheet: &[u8], mask: u64, output: &mut [u8], work: &mut [u8]) -> Answer
    ensures { record { reply = reply_of result; output = output.new; work = work.new } ≡ outcome (record { question = Question.Union; sheet = sheet.now; mask = mask; output = output.old; work = work.old }) }
{
    let question = Question::Union;
    ask(Rules { question, mask }, sheet, output, work)
}

/// The type that two listed types are compared as, the source's `comparison_coercion`. The buffers are those of
/// `type_union_resolution`.
pub fn comparison_coercion(sheet: &[u8], mask: u64, output: &mut [u8], work: &mut [u8]) -> Answer
    ensures { record { reply = reply_of result; output = output.new; work = work.new } ≡ outcome (record { question = Question.Compare; sheet = sheet.now; mask = mask; output = output.old; work = work.old }) }
{
    let question = Question::Compare;
    ask(Rules { question, mask }, sheet, output, work)
}

// A call for a common type, whatever the question.
#[tactic(auto, using(crate::proofs::Calling::rules_outcome))]
fn ask(rules: Rules, sheet: &[u8], output: &mut [u8], work: &mut [u8]) -> Answer
    ensures { seen result output.new work.new ≡ outcome (call_of rules sheet.now output.old work.old) }
{
    call::ask(&rules, sheet, output, work)
}

/// A call for a common type, whatever the question, on a sheet that is not torn.
#[tactic(auto, using(crate::proofs::Calling::rules_outcome))]
pub fn ask_framed(rules: Rules, framed: Framed<'_>, output: &mut [u8], work: &mut [u8]) -> Answer
    ensures { seen result output.new work.new ≡ outcome (call_of rules framed.entry.sheet.now output.old work.old) }
{
    call::ask_framed(&rules, framed, output, work)
}

//! A call, whatever it asks: the check of the sheet, the refusals behind the sheet's own, the writing of the answer and
//! the clearing.

ghost use Rattle.std.specs.Prelude.{◌≡◌, [], ◌∷◌, IfOk};
ghost use Rattle.sheet.specs.Read.{start};
ghost use Rattle.buffers.specs.Region.{Room};
ghost use Rattle.resolution.specs.Reached.{Reached};
ghost use Rattle.answers.specs.Call.{bad_mask, bad_space};
ghost use Rattle.answers.specs.Code.{Measured, Spared, seen};
ghost use Rattle.answers.specs.Terms.{Terms, first_refusal, later_causes, outcome_under, NoLarger};

use crate::emit::write_type;
use crate::{Answer, Refusal};
use buffers::{Space, Written};
use refusals::check_framed;
use refusals::header::Framed;

/// What a call asks of a sheet that is accepted. A further call is an `impl` of it and a function over `ask`.
pub(crate) trait Query {
    ghost terms: { Self → Terms };

    /// The null mask, which refusal 6 is about.
    fn mask(&self) -> u64
        ensures { result ≡ (terms self.now).mask };

    /// The refusals that the call has of its own, which are tried behind 6 and before 8.
    fn check(&self, sheet: &[u8], space: Space) -> Result<(), Refusal>
        requires { Measured sheet.now space }
        ensures { result ≡ first_refusal ((terms self.now).causes sheet.now) };

    /// The answer to the listed types, at the front of the second half of the work space.
    fn answer(&self, sheet: &[u8], work: &mut [u8], space: Space) -> Written
        requires measured { Measured sheet.now space }
        requires room { Room work.old space }
        ensures { Reached (terms self.now).answer space sheet.now work.old work.new 0 (start space.n) result };

    ghost no_larger: { (query : Self) → NoLarger (terms query).answer };
}

/// A refusal, where its condition is met.
pub(crate) fn refuse_if(met: bool, refusal: Refusal) -> Result<(), Refusal>
    ensures { result ≡ first_refusal (record { refusal = refusal; met = met } ∷ []) }
{
    if met {
        return Err(refusal);
    }
    Ok(())
}

// Whether a mask has a bit outside 1 to 38.
#[tactic(auto, unfolding(crate::specs::Call::bad_mask))]
fn is_bad_mask(mask: u64) -> bool
    ensures { result ≡ bad_mask mask }
{
    !(mask % 2 == 0 && mask < 1 << 39)
}

// Whether an output or a work space is too short for a sheet.
#[tactic(auto, unfolding(crate::specs::Call::bad_space))]
fn is_bad_space(sheet: &[u8], output: &[u8], work: &[u8]) -> bool
    ensures { result ≡ bad_space sheet.now output.now work.now }
{
    output.len() < sheet.len() || work.len() < 2 * sheet.len()
}

// The first refusal, of 6 to 8, that an accepted sheet meets.
#[tactic(auto, unfolding(crate::specs::Call::bad_space))]
fn check<Q: Query>(
    query: &Q,
    sheet: &[u8],
    space: Space,
    output: &[u8],
    work: &[u8],
) -> Result<(), Refusal>
    requires { Measured sheet.now space }
    ensures causes { result ≡ first_refusal (later_causes (Q.terms query.now) sheet.now output.now work.now) }
    ensures spared { IfOk result (λ u. Spared space output.now work.now) }
{
    refuse_if(is_bad_mask(query.mask()), Refusal::Mask)?;
    query.check(sheet, space)?;
    refuse_if(is_bad_space(sheet, output, work), Refusal::Space)
}

/// A call.
pub(crate) fn ask<Q: Query>(query: &Q, sheet: &[u8], output: &mut [u8], work: &mut [u8]) -> Answer
    ensures { seen result output.new work.new ≡ outcome_under (Q.terms query.now) sheet.now output.old work.old }
{
    let Some(framed) = Framed::of(sheet) else {
        return Err(Refusal::Sheet(sheet::Refusal::Torn));
    };
    ask_framed(query, framed, output, work)
}

/// A call on a sheet that is not torn.
pub(crate) fn ask_framed<Q: Query>(
    query: &Q,
    framed: Framed<'_>,
    output: &mut [u8],
    work: &mut [u8],
) -> Answer
    ensures { seen result output.new work.new ≡ outcome_under (Q.terms query.now) framed.entry.sheet.now output.old work.old }
{
    check_framed(framed)?;
    let Framed { sheet, n, m } = framed;
    let half = sheet.len();
    let space = Space { n, m, half };
    check(query, sheet, space, &*output, &*work)?;
    let answer = match query.answer(sheet, work, space) {
        Ok(end) => Some(write_type(&*work, space, end, output)),
        Err(_) => None,
    };
    work[..2 * half].fill(0);
    Ok(answer)
}

//! What the three calls ask: refusal 7 of their own, and the common type.

ghost use Rattle.std.specs.Prelude.{◌≡◌, eqb};
ghost use Rattle.sheet.specs.Types.{arity};
ghost use Rattle.sheet.specs.Read.{read};
ghost use Rattle.coercion.proofs.Shorter.{answer_smaller, answer_shorter};
ghost use Rattle.answers.specs.Call.{bad_pair};
ghost use Rattle.answers.specs.Code.{Measured};
ghost use Rattle.answers.specs.Terms.{terms_of};

use crate::Refusal;
use crate::call::{Query, refuse_if};
use buffers::{Space, Written};
use coercion::Rules;
use sheet::reader::Reader;

// Whether an accepted sheet lists exactly two types.
fn is_pair(sheet: &[u8], space: Space) -> bool
    requires { Measured sheet.now space }
    ensures { result ≡ eqb (arity (read sheet.now)) 2 }
{
    let second = Reader::listed(sheet, space.n).next();
    second.at != 0 && second.next().at == 0
}

// Whether a question wants two types and the sheet does not list two.
fn is_bad_pair(rules: Rules, sheet: &[u8], space: Space) -> bool
    requires { Measured sheet.now space }
    ensures { result ≡ bad_pair rules.question sheet.now }
{
    !rules.is_list_question() && !is_pair(sheet, space)
}

impl Query for Rules {
    ghost terms = { terms_of };

    ghost no_larger = { λ rules. record { records = answer_smaller rules.question rules; letters = answer_shorter rules.question rules } };

    fn mask(&self) -> u64 {
        self.mask
    }

    fn check(&self, sheet: &[u8], space: Space) -> Result<(), Refusal> {
        refuse_if(is_bad_pair(*self, sheet, space), Refusal::Pair)
    }

    fn answer(&self, sheet: &[u8], work: &mut [u8], space: Space) -> Written {
        resolution::answer(sheet, work, space, *self)
    }
}

//! The answer for the listed types of a sheet, in work space: the fold of a list, and the one
//! pair of a union or a comparison.

#![tactic(auto)]

mod category;
mod down;
mod fold;
mod front;
mod keep;
mod list;
mod resolver;
mod wrapped;

ghost use Rattle.sheet.specs.Read.{start};
ghost use Rattle.coercion.specs.Answers.{answer_of};
ghost use Rattle.buffers.specs.Region.{Room};
ghost use Rattle.resolution.specs.Reached.{Reached};

use buffers::{Failure, Space, Written};
use coercion::Rules;
use resolver::Resolver;

/// The answer to a question on the listed types of a sheet: `type_union_resolution` in a list, else
/// the common type of the two types. It is written at the front of the second half of the work
/// space, its first record at number 1; `NoType` where there is none. What else stands in the two
/// halves afterwards is left free.
pub fn answer(sheet: &[u8], work: &mut [u8], space: Space, rules: Rules) -> Written
    requires { Room work.old space }
    ensures { Reached (answer_of rules.question rules) space sheet.now work.old work.new 0 (start space.n) result }
{
    if space.n <= 1 {
        return Err(Failure::NoType);
    }
    let resolver = Resolver {
        sheet,
        space,
        rules,
    };
    if rules.is_list_question() {
        return resolver.type_union_resolution(work, 1);
    }
    resolver.pair(work, 1)
}

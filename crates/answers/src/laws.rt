//! The laws of the calls. Each function does nothing: its contract is what has been proved of the definitions in
//! specs/.

ghost use Rattle.answers.specs.LeastType.{LeastTypeTheorem, TwoFamilies};
ghost use Rattle.answers.specs.Premises.{EveryListAsked, EveryCutAsked, IntegersRun, DecimalsRun};
ghost use Rattle.answers.specs.Marked.{MarkedCases, MarkedSpelled};
ghost use Rattle.answers.specs.Laws.{AnswerNoLonger, LowestGiven, MetRefused, RefusedUnchanged};

/// The least-type theorem: the answer to a list of one family and Nulls is its least type, or for decimals that outgrow
/// their width that of the cap, in every order and however the list is cut.
#[tactic(auto, using(crate::proofs::LeastType::least_type))]
pub fn least_type()
    ensures { LeastTypeTheorem }
{}

/// A list that is of two families, as Decimal128(20, 0) with Nulls is, has one answer, the common type in both.
#[tactic(auto, using(crate::proofs::LeastType::two_families))]
pub fn two_families()
    ensures { TwoFamilies }
{}

/// What the least-type theorem asks for can be had: every list of at most 1,023 types of a family can be asked, and
/// so can each stretch of each cutting of it, and the list of their answers. Two lists have their calls computed.
#[tactic(auto, using(crate::proofs::Asking::asked, crate::proofs::Asking::every_cut, crate::proofs::Instance::integers_run, crate::proofs::Instance::decimals_run))]
pub fn premises()
    ensures list { EveryListAsked }
    ensures cutting { EveryCutAsked }
    ensures integers { IntegersRun }
    ensures decimals { DecimalsRun }
{}

/// The marked cases, on bytes, in whatever output and work space are long enough; and the same table in types.
#[tactic(auto, using(crate::proofs::Marked::marked, crate::proofs::Marked::spelled))]
pub fn marked()
    ensures cases { MarkedCases }
    ensures spelled { MarkedSpelled }
{}

/// An answer never has more bytes than the sheet that was asked about.
#[tactic(auto, using(crate::proofs::Replies::no_longer))]
pub fn no_longer()
    ensures { AnswerNoLonger }
{}

/// A call that meets a condition is refused with the lowest number that applies, and changes no byte of what was lent
/// to it.
#[tactic(auto, using(crate::proofs::Replies::refused_unchanged))]
pub fn refusals()
    ensures lowest { LowestGiven }
    ensures met { MetRefused }
    ensures unchanged { RefusedUnchanged }
{}

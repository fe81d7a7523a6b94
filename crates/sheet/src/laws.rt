//! The laws of sheets, proved of the definitions in specs/. A function here does nothing: its contract is a law.
ghost use Rattle.sheet.specs.Laws.{AcceptedEncode, CarriedRead, CarriedAccepted, AcceptedCarried, AcceptedSame, Lowest};
ghost use Rattle.sheet.specs.Standing.{StandsNew, StandsEnd, StandsKind, StandsName, StandsFirst, StandsNext};

/// Each list of types that a sheet may carry has one spelling, and writing and reading undo each other.
///
/// Encoding what is read from accepted bytes gives them back, and reading the encoding of types that may be carried
/// gives these back. Such an encoding is accepted, and the types of an accepted sheet may be carried. Two accepted
/// sheets that list the same types are the same bytes.
#[tactic(auto, using(crate::proofs::Accepted::accepted_encode, crate::proofs::Carrying::carried_read, crate::proofs::Carrying::carried_accepted, crate::proofs::Accepted::accepted_same))]
pub fn one_spelling()
    ensures accepted_encode { AcceptedEncode }
    ensures carried_read { CarriedRead }
    ensures carried_accepted { CarriedAccepted }
    ensures accepted_carried { AcceptedCarried }
    ensures accepted_same { AcceptedSame }
{}

/// The refusal number of a sheet is the lowest of the conditions that are met.
#[tactic(auto, using(crate::proofs::Lowest::lowest))]
pub fn lowest_refusal()
    ensures { Lowest }
{}

/// A reader reads the types of an accepted sheet. A new one stands at the listed types; at a type it gives that type's
/// kind and name, its first part stands at the type's parts, and its next at the types behind it; at the end of a chain
/// it stands at record 0.
#[tactic(auto, using(crate::proofs::Stands::stands_new, crate::proofs::Stands::stands_end, crate::proofs::Stands::stands_first, crate::proofs::Stands::stands_next))]
pub fn standing()
    ensures new { StandsNew }
    ensures end { StandsEnd }
    ensures kind { StandsKind }
    ensures name { StandsName }
    ensures first { StandsFirst }
    ensures next { StandsNext }
{}

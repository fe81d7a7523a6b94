//! The laws of the numbers of the exports. The function does nothing: its contract is what has been proved of the
//! definitions in specs/.

ghost use Rattle.exports.specs.Laws.{NumbersRanged, NumbersDecode};

/// The number of a refusal is 1 to 8, and that of a type at least 32, so that the number of a call says what it
/// replied.
#[tactic(auto, using(crate::proofs::Decoding::ranged))]
pub fn numbers()
    ensures ranged { NumbersRanged }
    ensures decode { NumbersDecode }
{}

//! Laws of the definitions of this crate.

ghost use Rattle.buffers.specs.Laws.{DifferNowhere};

/// Two types differ at no record just where they are the same, with the names of fields or without.
#[tactic(auto, using(crate::proofs::Differing::type_same))]
pub fn differ_nowhere()
    ensures { DifferNowhere }
{}

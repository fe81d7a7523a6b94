//! The laws of the two rules for wrappers, as a promise of a function that does nothing.
ghost use Rattle.wrappers.specs.Laws.{OneWay, DictionaryFirst};

/// Where a Dictionary meets run ends in a union or a comparison, one of the two rules has the answer of both.
#[tactic(auto, using(crate::proofs::Ruling::one_way_listed, crate::proofs::Ruling::dictionary_answers))]
pub fn one_rule_asked()
    ensures way { OneWay }
    ensures dictionary { DictionaryFirst }
{}

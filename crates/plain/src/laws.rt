//! Laws of the rules for types without parts.

ghost use Rattle.plain.specs.Laws.{PickedRule, PlainAnswer};

/// Of the rules for types without parts the one that two kinds pick has the answer of all of them,
/// tried in turn.
#[tactic(auto, using(crate::proofs::Picking::picked_answers))]
pub fn picked_rule()
    ensures { PickedRule }
{}

/// The common type of two types without parts, for each of the three questions.
#[tactic(auto, using(crate::proofs::Plain::plain_answer))]
pub fn plain_answer()
    ensures { PlainAnswer }
{}

//! The law of the order of the rules, as a promise of a function that does nothing.
ghost use Rattle.rule_order.specs.Laws.{SameAnswers, SameMaps};

/// The order in which the merge tries the rules gives the source's answers.
#[tactic(auto, using(crate::proofs::Orders::ask_turns, crate::proofs::Orders::map_turns))]
pub fn order_of_rules()
    ensures answers { SameAnswers }
    ensures maps { SameMaps }
{}

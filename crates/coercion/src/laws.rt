//! The laws of the rules: what holds of the definitions, as promises of functions that do nothing.
ghost use Rattle.coercion.specs.Laws.{SameQuestion, AlikeLeft, EqualLeft, AllEqual, EqualSame, SameEqual, AlikeNameless, NamelessAlike};
ghost use Rattle.coercion.specs.Laws.{PairedByName, EachMatchedOnce, PairedByPlace, SameSets, EachFeedsOne, StructAnswer, StructUnequal};
ghost use Rattle.coercion.specs.Laws.{LayoutsAlike, LayoutsUnequal, LayoutsJoined, LayoutsNone, LayoutsSome, LayoutsFed};
ghost use Rattle.coercion.specs.Laws.{ListStructAnswer, ListedJoined, ListedMissing, StructsUnequal, ListAnswer, MapAnswer, MapKept, LaterZone};
ghost use Rattle.coercion.specs.Laws.{DecimalRule, DecimalAnswer, AnswerCarried, AnswerSmaller, AnswerShorter, AnswerLength};

/// The common type of two types by the rules, without a bound on the depth: parts are asked the same question.
#[tactic(auto, using(crate::proofs::Fuel::coercion_asks))]
pub fn parts_asked()
    ensures { SameQuestion }
{}

/// Equal types are the same type, alike types are the same but for the names of their fields, and what two such types
/// answer.
pub fn alike_and_equal()
    ensures alike { AlikeLeft }
    ensures equal { EqualLeft }
    ensures all { AllEqual }
    ensures same { EqualSame }
    ensures itself { SameEqual }
    ensures nameless { AlikeNameless }
    ensures named { NamelessAlike }
{}

/// Which field of the right feeds which of the left.
pub fn fields_paired()
    ensures by_name { PairedByName }
    ensures matched { EachMatchedOnce }
    ensures by_place { PairedByPlace }
    ensures sets { SameSets }
    ensures fed { EachFeedsOne }
{}

/// Two Structs in a union or a comparison: our layout on the left and the till's on the right.
pub fn two_layouts()
    ensures rule { StructAnswer }
    ensures rule_unequal { StructUnequal }
    ensures alike { LayoutsAlike }
    ensures unequal { LayoutsUnequal }
    ensures joined { LayoutsJoined }
    ensures none { LayoutsNone }
    ensures some { LayoutsSome }
    ensures fed { LayoutsFed }
{}

/// Two Structs in a list: types by name, nullability by place.
pub fn listed_structs()
    ensures rule { ListStructAnswer }
    ensures joined { ListedJoined }
    ensures missing { ListedMissing }
    ensures unequal { StructsUnequal }
{}

/// The items of two lists and the entries of two Maps.
pub fn items_and_entries()
    ensures list { ListAnswer }
    ensures map { MapAnswer }
    ensures kept { MapKept }
{}

/// In a list of Timestamps in seconds with the zones A and B the later zone wins.
#[tactic(auto, using(crate::proofs::Turns::later_zone_lem))]
pub fn later_zone()
    ensures { LaterZone }
{}

/// Two decimals of one width, over the cap too: the rule, and that it answers all three questions.
#[tactic(auto, using(crate::proofs::DecimalRule::wider, crate::proofs::DecimalRule::decimals_answer))]
pub fn decimal_rule()
    ensures wider { DecimalRule }
    ensures answer { DecimalAnswer }
{}

/// An answer may be carried by a sheet, and its one-type sheet is no longer than the sheet that was asked about.
pub fn answer_fits()
    ensures carried { AnswerCarried }
    ensures records { AnswerSmaller }
    ensures labels { AnswerShorter }
    ensures bytes { AnswerLength }
{}

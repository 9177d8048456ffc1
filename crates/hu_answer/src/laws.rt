//! What holds of every answer. These calls do nothing: their contracts are the laws.

ghost use Rattle.hu_answer.specs.Laws.{IsItemAnswer, IsClosedAnswer, IsSequenceAnswer};
ghost use Rattle.hu_answer.specs.Laws.{AnswerAscends, StandsOnce};
ghost use Rattle.hu_answer.specs.Laws.{IsFirstOfAnswer, OutsideComesAfter, GreaterTopKeepsFront};
ghost use Rattle.hu_answer.specs.Laws.{HigherMinimumKeepsFront, UtilitiesAdd, SupportsAdd};
ghost use Rattle.hu_answer.specs.Laws.{ItemsInAnyOrder, ClosedInAnyOrder, SequencesInAnyOrder};
ghost use Rattle.hu_answer.specs.Laws.{HasBestWhereItOccurs, BestIsReached, NoneEarnsMore};

/// An entry stands in the answer over itemsets exactly where it is that of a set that is found.
pub fn law_of_itemsets()
    ensures { IsItemAnswer }
{}

/// An entry stands in the answer over closed itemsets exactly where it is that of a set that is found and closed.
pub fn law_of_closed_itemsets()
    ensures { IsClosedAnswer }
{}

/// An entry stands in the answer over sequences exactly where it is that of a sequence that is found.
pub fn law_of_sequences()
    ensures { IsSequenceAnswer }
{}

/// Each entry of an answer comes before those after it in the one order, so it stands once.
pub fn law_of_order()
    ensures ascends { AnswerAscends }
    ensures once { StandsOnce }
{}

/// The answer cut after k is the first k of the whole: what is left out comes after all that is kept, and a greater k
/// keeps the answer of a smaller one as its front.
#[tactic(auto, using(crate::proofs::lemmas::Fronts::greater_top_keeps_front))]
pub fn law_of_the_first()
    ensures first { IsFirstOfAnswer }
    ensures outside { OutsideComesAfter }
    ensures front { GreaterTopKeepsFront }
{}

/// A higher minimum keeps a front of the answer.
#[tactic(auto, using(crate::proofs::lemmas::Fronts::higher_minimum_keeps_front))]
pub fn law_of_higher_minimums()
    ensures { HigherMinimumKeepsFront }
{}

/// Over two lists of records a set earns, and is held by, what it is in each together.
#[tactic(auto, using(crate::proofs::lemmas::Sums::utilities_add, crate::proofs::lemmas::Sums::supports_add))]
pub fn law_of_sums()
    ensures utility { UtilitiesAdd }
    ensures support { SupportsAdd }
{}

/// The order of the records doesn't matter to an answer.
pub fn law_of_any_order()
    ensures items { ItemsInAnyOrder }
    ensures closed { ClosedInAnyOrder }
    ensures sequences { SequencesInAnyOrder }
{}

/// What a sequence earns at best in a record is the greatest sum over its occurrences, and there is one exactly where
/// it occurs.
pub fn law_of_occurrences()
    ensures occurs { HasBestWhereItOccurs }
    ensures reached { BestIsReached }
    ensures greatest { NoneEarnsMore }
{}

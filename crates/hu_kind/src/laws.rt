//! What holds of the patterns of any database. These calls do nothing: their contracts are the laws.

ghost use Rattle.hu_kind.specs.Laws.{ItemsEarnWithin, SequencesEarnWithin};

/// What an itemset earns is within the absolute sums of the records.
#[tactic(auto, using(crate::proofs::lemmas::Earned::items_earn_within))]
pub fn law_of_item_sums()
    ensures { ItemsEarnWithin }
{}

/// What a sequence earns is within the absolute sums of the records.
#[tactic(auto, using(crate::proofs::lemmas::Earned::sequences_earn_within))]
pub fn law_of_sequence_sums()
    ensures { SequencesEarnWithin }
{}

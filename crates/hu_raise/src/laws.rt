//! The law of pairs, for callers to bring into their proofs by a call. It does nothing.

ghost use Rattle.hu_raise.specs.Laws.{BoundsSets};

/// An ascending set earns no more than the records that hold two of its ranks gain.
#[tactic(auto, using(crate::proofs::GainLemmas::bounds_sets))]
pub fn law_of_pairs()
    ensures { BoundsSets }
{}

//! What stores come to over many runs. The call does nothing: its contract is the law.

ghost use Rattle.hu_run.specs.ShelfLaws.{StoresGrow};

/// After runs that added files to a store, one after the other, it has the records of all of them after those that it had,
/// where the keeper holds its texts between the runs.
#[tactic(auto, using(crate::proofs::GrownLemmas::stores_grow))]
pub fn law_of_grown_stores()
    ensures { StoresGrow }
{}

//! Itemsets of a least and a greatest length.
//!
//! [`LengthsOnly`] stands around a collector of hu_collect and lets keys of some lengths alone into it; [`mine_sized`] searches
//! for it, [`mine`] for any collector up to a greatest length. [`bound`] is the most that a set of ranks can earn with so many
//! later ones. The answer under lengths stands in `specs/Lengths.antt`, what holds of it in `specs/Laws.antt`
//! ([`law_of_sized_answers`]), what the collector makes of entries in `specs/LengthsOnly.antt`, the bound in `specs/Bound.antt`. The
//! crate stands on hu_kind, hu_totals, hu_collect, hu_search and hu_list, its proofs on hu_answer too. After FHM+ (Fournier-Viger, Lin, Duong and Dam, 2016).
#![tactic(auto)]

mod bounds;
mod laws;
mod lengths_only;
mod search;

pub use bounds::bound;
pub use laws::law_of_sized_answers;
pub use lengths_only::LengthsOnly;
pub use search::{mine, mine_sized};

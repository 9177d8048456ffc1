//! What a search may leave out from the start: pairs of ranks that can't be part of a set that reaches its floor, and,
//! where it wants the first k itemsets, all that is below the utility that k single items reach.
//!
//! [`PairTwu`] is the gate of pairs, [`start_floor`] the floor to start with. Which pairs may join is said in
//! `specs/Partners.antt`, what their records gain bounds in `specs/Laws.antt` and by [`law_of_pairs`], and which floor
//! it is in `specs/StartFloor.antt`. The crate stands on hu_totals and hu_collect.
#![tactic(auto)]

mod laws;
mod pairs;
mod partners;
mod rests;
mod start;
mod sums;

pub use laws::law_of_pairs;
pub use pairs::PairTwu;
pub use start::start_floor;

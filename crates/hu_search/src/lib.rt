//! Searches of itemsets over the ranks of their items.
//!
//! A search offers all sets with one rank more than a set, its children ([`Child`], [`offer_children`]), puts those that may
//! lead on in the order of their falling bounds ([`best_first`]), asks the collector before it enters one ([`opens`]), and stops at
//! the first whose bound is below the floor. That this leaves out nothing that counts stands in `specs/Children.antt` and
//! `proofs/lemmas/Children.antt`; what grows a set in `specs/Growth.antt`. [`key_of`] is the key of a set of ranks.
//! [`Slots`] keeps some of the ranks, each at a place that is found in constant time, `specs/Slots.antt`. The engines over ranks
//! stand on it; it stands on hu_kind, hu_totals and hu_collect.
#![tactic(auto)]

mod child;
mod key;
mod offer;
mod slots;

pub use child::{Child, best_first, ranks_of};
pub use key::key_of;
pub use offer::{offer_children, opens};
pub use slots::Slots;

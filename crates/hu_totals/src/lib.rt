//! Totals of single items, and records over ranks.
//!
//! [`Totals`] says of each item what it earns, in how many records it stands and what these gain. [`Ranked`] leaves out the
//! items that can't be part of a set that reaches a floor, and numbers the others: it is what the engines over lists and
//! rows search; [`empty_lists`] makes a list for each of the ranks. The definitions stand in `specs/Totals.antt` and
//! `specs/Ranked.antt`, what ranked records keep of their base in `specs/Laws.antt`. The crate stands on hu_kind and hu_base.
#![tactic(auto)]

mod lists;
mod ranked;
mod totals;
mod weights;

pub use lists::empty_lists;
pub use ranked::{Dense, Ranked, ranked_cells};
pub use totals::{ItemTotal, Totals};
pub use weights::{RankOrder, items_by_weight};

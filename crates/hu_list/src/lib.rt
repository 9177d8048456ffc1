//! Utility lists, and the passes over ranked records by which a search finds the sets that grow a set.
//!
//! A [`UtilityList`] says of a set of ranks which ranked records hold it, what it earns in each, and what stands after it there.
//! Two lists join into that of a greater set, and a list bounds what all sets that grow its own can earn. The lists stand in
//! `specs/Nodes.antt`, their bounds in `specs/Bounds.antt` and their joins in `specs/Joins.antt`. A search keeps the same in a
//! form that costs no join: the tails of a set, `specs/Tails.antt`, from which it walks on in the records. The crate stands on
//! hu_kind, hu_collect, hu_totals and hu_search.
#![tactic(auto)]

mod gains;
mod grow;
mod level;
mod list;
mod merge;
mod search;
mod single;
mod sums;
mod tail;

pub use list::{Node, UtilityList};
pub use search::{mine, mine_upto};

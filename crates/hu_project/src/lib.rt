//! The engine for itemsets that searches over projected rows.
//!
//! [`mine`] searches by the rows that a set of ranks leaves of the ranked records, each set with an arena of its own, and
//! leaves out the sets that can't reach a collector's floor. What a level of the search keeps stands in `specs/Level.antt`. The
//! crate stands on hu_search, hu_rows, hu_collect and hu_totals, and on bumpalo for the arenas.
#![tactic(auto)]

mod children;
mod level;
mod search;

pub use search::mine;

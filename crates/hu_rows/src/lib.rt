//! Projected rows in arenas, and two bounds over them.
//!
//! A [`Row`] is a record over ranks, or several with the same ranks, from which a prefix of the search was taken away;
//! [`Rows`] are what a search over projections keeps for each prefix. [`project`] takes a rank to the prefix, [`Bins`]
//! bound what sets of kept ranks can earn. The definitions stand in `specs/Rows.antt` and `specs/Bounds.antt`. The
//! crate stands on hu_totals, and on bumpalo for the arenas.
#![tactic(auto)]

mod bins;
mod merge;
mod narrowing;
mod places;
mod projection;
mod rows;
mod setting;
mod tally;

pub use bins::Bins;
pub use narrowing::narrow;
pub use places::{Place, Places, rows_at};
pub use projection::project;
pub use rows::{Row, Rows};
pub use tally::{Tallies, Tally};

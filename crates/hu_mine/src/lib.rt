//! The choice of an engine: batches of records in, their answer out.
//!
//! [`item_entries`], [`sized_entries`], [`average_entries`], [`closed_entries`] and [`sequence_entries`] mine what is [`Wanted`], by
//! the engine that it names. All engines of a task give the same answer, so that an engine stands in no clause of theirs but that a
//! task has to offer it. [`joined`] makes one base of batches. The crate stands on the engines, on the totals, ranks, gates and start
//! floors that they begin with, and on the collectors.
#![tactic(auto)]

mod average;
mod batches;
mod engine;
mod kept;
mod mine;
mod search;
mod sized;

pub use average::average_entries;
pub use batches::joined;
pub use engine::{Engine, Wanted};
pub use mine::{closed_entries, item_entries, sequence_entries};
pub use sized::sized_entries;

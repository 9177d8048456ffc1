//! Generated bases, and a line on an answer.
//!
//! From a seed, [`make`] and [`make_sequences`] generate bases of any size: `specs/Drilled.antt` says which. [`Summary`]
//! says of an answer how many entries it has and what they earn, and [`write_summary`] writes that as a line. The crate
//! stands on hu_kind, hu_io, hu_base and hu_report.
#![tactic(auto)]

mod draws;
mod records;
mod sequences;
mod summary;

pub use records::make;
pub use sequences::make_sequences;
pub use summary::{Summary, write_summary};

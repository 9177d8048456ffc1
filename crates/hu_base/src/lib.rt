//! A list of records under one sum: [`Base`] holds the records of a run in order, and its sum of absolute utilities
//! never passes 2^127 - 1, so that no sum over its records can overflow. It stands on hu_kind alone.
#![tactic(auto)]

mod base;

pub use base::{AddFault, Base};

//! Small bases for tests, written as pairs of an item and what it earned, and entries told as lines.
//!
//! Tests of the crates above build their bases here: `base_of(alloc, &BASE_A)?.expect(rt, "a base")`, mine them and
//! compare what [`told`] says. The crate promises that a base holds just the pairs that were written; no program uses it.
//! It stands on hu_kind and hu_base.
#![tactic(auto)]

mod itemsets;
mod sequences;
mod text;

pub use itemsets::{BASE_A, SIGNED, base_of, record_of};
pub use sequences::{FOUR_PLACES, FOUR_RECORDS, LATER_IS_GREATEST, sequence_of, sequences_of};
pub use text::told;

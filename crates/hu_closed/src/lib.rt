//! Closed itemsets: which records hold which items, and a collector that lets closed patterns alone into another one.
//!
//! [`RecordSets`] keeps for each item the records that hold it, and says of a key in how many records it stands, whether one
//! holds it and whether it is closed. It keeps the records of an item by their places, in [`Places`]. [`ClosedOnly`] stands
//! around a collector of hu_collect. What a key's support and its closedness are stands in `specs/Keys.antt`, what the
//! collector makes of entries in `specs/ClosedOnly.antt`. The crate stands on hu_kind, hu_base, hu_collect, hu_totals and
//! indexmap.
#![tactic(auto)]

mod candidates;
mod closed_only;
mod found;
mod holders;
mod keys;
mod places;
mod sets;

pub use closed_only::ClosedOnly;
pub use places::Places;
pub use sets::RecordSets;

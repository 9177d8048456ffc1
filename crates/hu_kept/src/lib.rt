//! The answer of records to which batches are appended: an append searches the patterns that the batch holds, and keeps
//! what it knows of the others.
//!
//! The first append is a mining from scratch with its start floor. A later one ranks the items of its batch alone, and looks
//! at the records alone that hold one of them, so that its search costs what the batch touches; besides, it copies the entries
//! that the batch doesn't touch.
//!
//! [`Kept`] is the kept answer. What it is seen as and its answer stand in `specs/Kept.antt`, what an append tells in
//! `specs/Changes.antt`, and what a batch leaves as it was in `specs/Laws.antt`, told by the functions whose names begin
//! with `law`. What an append looks at stands in `specs/Shared.antt` and `specs/Holders.antt`. The crate stands on hu_list,
//! hu_closed and hu_raise.
#![tactic(auto)]

mod aim;
mod batch;
mod changes;
mod gates;
mod held;
mod holders;
mod kept;
mod laws;
mod renewal;
mod search;
mod shared;
mod start;
mod touched;

pub use changes::Changes;
pub use kept::{AppendFault, Kept};
pub use laws::{
    law_of_closed_sets, law_of_gains, law_of_outside_patterns, law_of_untouched_closedness,
    law_of_untouched_sets,
};

#[cfg(test)]
mod tests;

//! Certificates: a text from which anybody can check that an answer over itemsets is whole.
//!
//! What makes a text accepted stands in `specs/Check.antt`, the form of its lines in `specs/Text.antt`, and what an accepted
//! text proves in [`laws`]. The crate stands on hu_kind, hu_base and hu_collect. Its proofs cite hu_answer.
#![tactic(auto)]

mod certificate;
mod children;
mod fault;
pub mod laws;
mod line;
mod order;
mod place;
mod said;
mod slots;
mod token;
mod walk;
mod words;

pub use certificate::{MOST_BYTES, check};
pub use fault::CheckFault;

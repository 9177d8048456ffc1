//! Sequence lines: [`read_sequence`] gives the sequence of a line, or the first fault in the order of [`SeqFault`], and
//! [`write_sequence`] gives the one line in which a sequence is written. Both stand on the types, tokens and numbers of
//! `hu_kind`.
//!
//! What the tokens of a line are is defined in `specs/Token.antt`, and what a line says in `specs/Reading.antt`.
#![tactic(auto)]

mod checks;
mod fault;
mod itemset;
mod order;
mod read;
mod token;
mod write;

pub use fault::SeqFault;
pub use read::read_sequence;
pub use write::write_sequence;

//! Certificates that a base itself makes: a text from which anybody can check that an answer over itemsets is whole.
//!
//! The text stands in `specs/Text.antt`, and that hu_proof accepts it in [`laws`]. The crate stands on hu_kind, hu_base,
//! hu_totals, indexmap and itoa; its definitions cite those of hu_proof, and its proofs lemmas of hu_seq.
#![tactic(auto)]

mod certificate;
mod fault;
pub mod laws;
mod lists;
mod place;
mod records;
mod slots;
mod table;
mod text;

pub use certificate::certify;
pub use fault::CertFault;

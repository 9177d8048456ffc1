//! What an answer is, in the words of its reader.
//!
//! The definitions of hu_kind make an answer: all itemsets, or sequences, of the records as entries, those that reach a
//! minimum put in order, and the first k of them. The laws of this crate say what that comes to without a list of all
//! sets and without a ranking: which entries stand in an answer ([`law_of_itemsets`], [`law_of_closed_itemsets`],
//! [`law_of_sequences`]), in which order ([`law_of_order`]), what a k and a higher minimum leave of it
//! ([`law_of_the_first`], [`law_of_higher_minimums`]), that records add up, in any order ([`law_of_sums`],
//! [`law_of_any_order`]), and what a sequence earns at best ([`law_of_occurrences`]).
//!
//! The laws stand in `specs/Laws.antt`, and the words in which they speak in `specs/Entries.antt`,
//! `specs/Supersets.antt` and `specs/Occurrences.antt`. A caller brings a law into a proof by one call of its function,
//! which does nothing. The crate has no data, and stands on hu_kind alone.
#![tactic(auto)]

mod laws;

pub use laws::{
    law_of_any_order, law_of_closed_itemsets, law_of_higher_minimums, law_of_itemsets,
    law_of_occurrences, law_of_order, law_of_sequences, law_of_sums, law_of_the_first,
};

//! What the texts of this program say, in the words of their reader.
//!
//! The laws of this crate go from a text back to what it was written from. The text of an answer tells its entries, so
//! that answers which differ in what is printed have different texts ([`law_of_answer_texts`]). That asks that the
//! numbers of the entries are small enough to be read again, as those of every answer are
//! ([`law_of_readable_answers`]). And records that are written line by line, by `write_record` of hu_trans or
//! `write_sequence` of hu_seq, are the input of a run over these texts ([`law_of_record_texts`],
//! [`law_of_sequence_texts`]).
//!
//! The laws stand in `specs/Laws.antt` and `specs/RecordLaws.antt`, how a text of an answer is read in
//! `specs/Told.antt`, and the texts of records in `specs/Texts.antt`. A caller brings a law into a proof by one call of
//! its function, which does nothing. The crate has no data.
#![tactic(auto)]

mod laws;

pub use laws::{
    law_of_answer_texts, law_of_readable_answers, law_of_record_texts, law_of_sequence_texts,
};

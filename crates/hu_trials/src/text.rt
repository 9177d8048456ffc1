//! The laws, each called once, and one brought into a proof.

ghost use Rattle.hu_text.specs.Laws.{OneTextOneKeys};

use hu_text::{
    law_of_answer_texts, law_of_readable_answers, law_of_record_texts, law_of_sequence_texts,
};
use std::rt::HostRuntime;

/// A call of a law is all that its caller's proof needs.
fn keys_are_told()
    ensures { OneTextOneKeys }
{
    law_of_answer_texts();
}

#[test]
fn laws(_rt: HostRuntime) {
    keys_are_told();
    law_of_readable_answers();
    law_of_record_texts();
    law_of_sequence_texts();
}

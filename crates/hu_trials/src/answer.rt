//! The laws, each called once, and one brought into a proof.

ghost use Rattle.hu_answer.specs.Laws.{HigherMinimumKeepsFront};

use hu_answer::{
    law_of_any_order, law_of_closed_itemsets, law_of_higher_minimums, law_of_itemsets,
    law_of_occurrences, law_of_order, law_of_sequences, law_of_sums, law_of_the_first,
};
use std::rt::HostRuntime;

/// A call of a law is all that its caller's proof needs.
fn keeps_fronts()
    ensures { HigherMinimumKeepsFront }
{
    law_of_higher_minimums();
}

#[test]
fn laws(_rt: HostRuntime) {
    law_of_itemsets();
    law_of_closed_itemsets();
    law_of_sequences();
    law_of_order();
    law_of_the_first();
    keeps_fronts();
    law_of_sums();
    law_of_any_order();
    law_of_occurrences();
}

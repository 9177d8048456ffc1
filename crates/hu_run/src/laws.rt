//! What a run of mining wrote, and when the status of a run is that of what its job comes to. These calls do nothing: their
//! contracts are the laws.

ghost use Rattle.hu_run.specs.Laws.{IsSurelyDone, IsDoneInMemory};
ghost use Rattle.hu_run.specs.Summary.{RunsWriteFound, ChecksWriteFound, SameRecordsWriteSame};
ghost use Rattle.hu_run.specs.Summary.{by_items, by_closed, by_sequences, by_lengths, by_average};
ghost use Rattle.hu_run.specs.Summary.{IsFoundItemset, IsFoundClosed, IsFoundOfLength, IsFoundByAverage, IsFoundPattern};
ghost use Rattle.std.specs.Prelude.{ℕ};

use hu_answer::{
    law_of_any_order, law_of_closed_itemsets, law_of_itemsets, law_of_order, law_of_sequences,
};
use hu_average::law_of_average_answers;
use hu_io::{named_files_never_fail, roomy_sinks_never_fail};
use hu_lengths::law_of_sized_answers;

/// Over files and a sink that never fail, a run of a job ends as its contents say, or for want of memory.
#[tactic(auto, using(crate::proofs::SureLemmas::surely_done))]
pub fn law_of_sure_streams()
    ensures { IsSurelyDone }
{}

/// Over files and a sink in memory, a run of a job ends as its contents say, or for want of memory: where no call is to
/// fail, every named file is there and the text has room.
pub fn law_of_memory_streams()
    ensures as_told { IsDoneInMemory }
{
    named_files_never_fail();
    roomy_sinks_never_fail();
}

/// Where its contents are told, a run of mining that ends with status 0 wrote the list of all patterns of its task that earn its
/// minimum in the records of its files: each once and in the task's order, and the first k of them where a k is asked for. A run
/// that checks a certificate wrote the list of all itemsets.
pub fn law_of_written_answers()
    ensures items { RunsWriteFound by_items IsFoundItemset }
    ensures closed { RunsWriteFound by_closed IsFoundClosed }
    ensures sequences { RunsWriteFound by_sequences IsFoundPattern }
    ensures lengths { (short long : ℕ)
        → RunsWriteFound (by_lengths short long) (IsFoundOfLength short long) }
    ensures averages { RunsWriteFound by_average IsFoundByAverage }
    ensures checked { ChecksWriteFound }
{
    law_of_itemsets();
    law_of_closed_itemsets();
    law_of_sequences();
    law_of_order();
    law_of_sized_answers();
    law_of_average_answers();
}

/// Two runs of mining of one task, minimum and k that ended with status 0 and whose files hold the same records appended the
/// same text: in whatever order the records stand, however they are cut into files and named, and whatever the engines.
pub fn law_of_same_records()
    ensures items { SameRecordsWriteSame by_items }
    ensures closed { SameRecordsWriteSame by_closed }
    ensures sequences { SameRecordsWriteSame by_sequences }
    ensures lengths { (short long : ℕ) → SameRecordsWriteSame (by_lengths short long) }
    ensures averages { SameRecordsWriteSame by_average }
{
    law_of_any_order();
    law_of_sized_answers();
    law_of_average_answers();
}

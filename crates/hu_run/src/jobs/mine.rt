//! Mining the records of files.

ghost use Rattle.std.specs.Prelude.{◌≡◌, ◌≤◌, pos, ◌≤ℤ◌, true, IfSome};
ghost use Rattle.hu_mine.specs.Engine.{offers};
ghost use Rattle.hu_input.specs.Names.{texts_of};
ghost use Rattle.hu_run.specs.Job.{mining};
ghost use Rattle.hu_run.specs.Attempt.{Answers};

use crate::answer::Answer;
use crate::stop::Stop;
use hu_input::{Sequences, Transactions, read_files};
use hu_io::Files;
use hu_kind::Task;
use hu_mine::{Wanted, closed_entries, item_entries, sequence_entries};
use std::alloc::Global;

/// The patterns of a task that are wanted, in all records of the named files.
pub(crate) fn answer<'a, F: Files>(
    alloc: Global,
    files: &mut F,
    task: Task,
    wanted: Wanted,
    names: &'a [String],
) -> Result<Answer, Stop<'a>>
    requires offered { offers task wanted.engine ≡ true }
    requires least { pos 1 ≤ℤ wanted.least }
    requires some { IfSome wanted.top (λ k. 1 ≤ k) }
    ensures { Answers (mining task wanted.engine wanted.least wanted.top)
        (F.state files.old) (F.state files.new) (texts_of names.now) result }
{
    let entries = match task {
        Task::Items => {
            let batches = read_files::<Transactions, F>(alloc, files, names, 0)?;
            item_entries(alloc, batches, wanted)?
        }
        Task::Closed => {
            let batches = read_files::<Transactions, F>(alloc, files, names, 0)?;
            closed_entries(alloc, batches, wanted)?
        }
        Task::Sequences => {
            let batches = read_files::<Sequences, F>(alloc, files, names, 0)?;
            sequence_entries(alloc, batches, wanted)?
        }
    };
    Ok(Answer::Entries { task, entries })
}

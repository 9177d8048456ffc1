//! Mining the itemsets of high average utility.

ghost use Rattle.std.specs.Prelude.{◌≡◌, ◌≤◌, pos, ◌≤ℤ◌, true, IfSome};
ghost use Rattle.hu_mine.specs.Engine.{offers_further};
ghost use Rattle.hu_input.specs.Names.{texts_of};
ghost use Rattle.hu_run.specs.Job.{averaging};
ghost use Rattle.hu_run.specs.Attempt.{Answers};

use crate::answer::Answer;
use crate::stop::Stop;
use hu_input::{Transactions, read_files};
use hu_io::Files;
use hu_mine::{Wanted, average_entries};
use std::alloc::Global;

/// The itemsets that are wanted for what they earn for each of their items, in all records of the named files.
pub(crate) fn answer<'a, F: Files>(
    alloc: Global,
    files: &mut F,
    wanted: Wanted,
    names: &'a [String],
) -> Result<Answer, Stop<'a>>
    requires offered { offers_further wanted.engine ≡ true }
    requires least { pos 1 ≤ℤ wanted.least }
    requires some { IfSome wanted.top (λ k. 1 ≤ k) }
    ensures { Answers (averaging wanted.engine wanted.least wanted.top)
        (F.state files.old) (F.state files.new) (texts_of names.now) result }
{
    let batches = read_files::<Transactions, F>(alloc, files, names, 0)?;
    let entries = average_entries(alloc, batches, wanted)?;
    Ok(Answer::Averages(entries))
}

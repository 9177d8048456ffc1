//! Mining the itemsets of some lengths.

ghost use Rattle.std.specs.Prelude.{◌≡◌, ◌≤◌, pos, ◌≤ℤ◌, true, IfSome};
ghost use Rattle.hu_mine.specs.Engine.{offers_further};
ghost use Rattle.hu_input.specs.Names.{texts_of};
ghost use Rattle.hu_run.specs.Job.{sizing, AreLengths};
ghost use Rattle.hu_run.specs.Attempt.{Answers};

use crate::answer::Answer;
use crate::stop::Stop;
use hu_input::{Transactions, read_files};
use hu_io::Files;
use hu_kind::Task;
use hu_mine::{Wanted, sized_entries};
use std::alloc::Global;

/// The itemsets of `short` to `long` items that are wanted, in all records of the named files.
pub(crate) fn answer<'a, F: Files>(
    alloc: Global,
    files: &mut F,
    wanted: Wanted,
    short: u32,
    long: u32,
    names: &'a [String],
) -> Result<Answer, Stop<'a>>
    requires offered { offers_further wanted.engine ≡ true }
    requires least { pos 1 ≤ℤ wanted.least }
    requires some { IfSome wanted.top (λ k. 1 ≤ k) }
    requires lengths { AreLengths short long }
    ensures { Answers (sizing wanted.engine wanted.least wanted.top short long)
        (F.state files.old) (F.state files.new) (texts_of names.now) result }
{
    let batches = read_files::<Transactions, F>(alloc, files, names, 0)?;
    let entries = sized_entries(alloc, batches, wanted, short, long)?;
    let task = Task::Items;
    Ok(Answer::Entries { task, entries })
}

//! Making a certificate.

ghost use Rattle.std.specs.Prelude.{pos, ◌≤ℤ◌};
ghost use Rattle.hu_input.specs.Names.{texts_of};
ghost use Rattle.hu_run.specs.Job.{certify};
ghost use Rattle.hu_run.specs.Attempt.{Answers};

use crate::answer::Answer;
use crate::stop::Stop;
use hu_certify::certify;
use hu_input::{Transactions, read_files};
use hu_io::Files;
use hu_mine::joined;
use std::alloc::Global;

/// A certificate of all itemsets that earn at least `least` in all records of the named files.
pub(crate) fn answer<'a, F: Files>(
    alloc: Global,
    files: &mut F,
    least: i128,
    names: &'a [String],
) -> Result<Answer, Stop<'a>>
    requires least { pos 1 ≤ℤ least }
    ensures { Answers (certify least)
        (F.state files.old) (F.state files.new) (texts_of names.now) result }
{
    let batches = read_files::<Transactions, F>(alloc, files, names, 0)?;
    let base = joined(alloc, batches)?;
    let text = certify(alloc, &base, least)?;
    Ok(Answer::Text(text))
}

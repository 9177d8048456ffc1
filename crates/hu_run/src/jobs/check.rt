//! Checking a certificate.

ghost use Rattle.std.specs.Prelude.{pos, ◌≤ℤ◌};
ghost use Rattle.hu_input.specs.Names.{texts_of};
ghost use Rattle.hu_run.specs.Job.{check};
ghost use Rattle.hu_base.specs.Base.{records_of};
ghost use Rattle.hu_run.specs.Attempt.{Answers, Judges};

use crate::answer::Answer;
use crate::stop::Stop;
use hu_base::Base;
use hu_input::{Transactions, read_content, read_files};
use hu_io::Files;
use hu_kind::{Record, Task};
use hu_mine::joined;
use hu_proof::{CheckFault, check};
use std::alloc::Global;

/// One byte more than a certificate may have.
const MOST: usize = 268_435_457;

/// All itemsets that earn at least `least` in all records of the named files, where the certificate `cert` shows them. It is
/// read after the files.
pub(crate) fn answer<'a, F: Files>(
    alloc: Global,
    files: &mut F,
    least: i128,
    cert: &'a str,
    names: &'a [String],
) -> Result<Answer, Stop<'a>>
    requires least { pos 1 ≤ℤ least }
    ensures { Answers (check least cert.now)
        (F.state files.old) (F.state files.new) (texts_of names.now) result }
{
    let batches = read_files::<Transactions, F>(alloc, files, names, 0)?;
    let base = joined(alloc, batches)?;
    let text = read_content(alloc, files, cert, MOST)?;
    judge(alloc, &base, least, cert, text.as_slice())
}

/// The same over records and the front of the certificate.
fn judge<'a>(
    alloc: Global,
    base: &Base<Record>,
    least: i128,
    cert: &'a str,
    text: &[u8],
) -> Result<Answer, Stop<'a>>
    requires least { pos 1 ≤ℤ least }
    ensures { Judges least cert.now (records_of base.now) text.now result }
{
    match check(alloc, base, least, text) {
        Ok(entries) => {
            let task = Task::Items;
            Ok(Answer::Entries { task, entries })
        }
        Err(CheckFault::NoMemory) => Err(Stop::NoMemory),
        Err(fault) => Err(Stop::Denied { cert, fault }),
    }
}

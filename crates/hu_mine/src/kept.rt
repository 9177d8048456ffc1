//! The kept engine: batches are appended one after another.

ghost use Rattle.std.specs.Prelude.{◌≡◌, ◌+◌, ◌<◌, ◌≤◌, ◌^◌, ◌++◌, pos, ◌≤ℤ◌, IfOk, IfSome, OnOk};
ghost use Rattle.std.specs.List.{sum_by};
ghost use Rattle.hu_kind.specs.Record.{absolute_of};
ghost use Rattle.hu_base.specs.Base.{records_of, records_in};
ghost use Rattle.hu_kept.specs.Kept.{Keeping, answer_of, with_batch};

use crate::engine::Wanted;
use hu_base::Base;
use hu_kept::{AppendFault, Kept};
use hu_kind::{Entry, NoMemory, Record};
use std::alloc::Global;

/// The answer of all records of the batches, of all itemsets or of the closed ones.
pub(crate) fn kept_entries(
    alloc: Global,
    batches: Vec<Base<Record>>,
    wanted: Wanted,
    closed: bool,
) -> Result<Vec<Entry>, NoMemory>
    requires fit { sum_by absolute_of (records_in batches.items) < 2 ^ 127 }
    requires least { pos 1 ≤ℤ wanted.least }
    requires some { IfSome wanted.top (λ k. 1 ≤ k) }
    ensures { IfOk result (λ entries. entries.items ≡ answer_of
        (record {
          records = records_in batches.items;
          least = wanted.least;
          top = wanted.top;
          closed =
              closed;
        })) }
{
    let mut kept = Kept::new(alloc, wanted.least, wanted.top, closed);
    append_all(&mut kept, batches)?;
    kept.entries(alloc)
}

/// Appends batches that fit together, one after another.
fn append_all(kept: &mut Kept, batches: Vec<Base<Record>>) -> Result<(), NoMemory>
    requires { sum_by absolute_of ((kept.old).records ++ records_in batches.items) < 2 ^ 127 }
    ensures { OnOk result (kept.new ≡ with_batch kept.old (records_in batches.items)) }
{
    for batch in batches {
        append(kept, batch)?;
    }
    Ok(())
}

/// Appends a batch that fits.
fn append(kept: &mut Kept, batch: Base<Record>) -> Result<(), NoMemory>
    requires { sum_by absolute_of (kept.old).records + sum_by absolute_of (records_of batch)
        < 2 ^ 127 }
    ensures { OnOk result (kept.new ≡ with_batch kept.old (records_of batch)) }
{
    match kept.append(batch) {
        Ok(_changes) => Ok(()),
        Err(AppendFault::NoMemory) => Err(NoMemory),
        Err(AppendFault::SumTooLarge { .. }) => unreachable!(),
    }
}

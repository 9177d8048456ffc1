//! Records as lines of a store.

ghost use Rattle.std.specs.Prelude.{◌≡◌, ◌<◌, ◌≤◌, ◌^◌, [], ◌++◌, length, IfOk, IfSome, IfNone, OnOk};
ghost use Rattle.std.specs.List.{All};
ghost use Rattle.std.specs.Option.{option_to_list};
ghost use Rattle.hu_shelf.specs.Shelf.{Adds, absolute_sum};
ghost use Rattle.hu_shelf.specs.Store.{IsWritten, record_in, record_text, records_in, records_text};

use crate::cut::cut;
use hu_base::{AddFault, Base};
use hu_kind::{NoMemory, Record};
use hu_trans::{Fault, read_record, write_record};
use std::alloc::Global;

/// The greatest number of bytes of a line.
const LONGEST_LINE: usize = 1_048_576;

/// The records that the lines of a text tell, where their absolute sums are at most 2^127 - 1 together. Lines that tell
/// none are left out.
pub(crate) fn read_records(alloc: Global, text: &[u8]) -> Result<Option<Base<Record>>, NoMemory>
    ensures records { IfOk result (λ found.
        IfSome found (λ base. base ≡ (0, records_in text.now))) }
    ensures large { IfOk result (λ found.
        IfNone found (2 ^ 127 ≤ absolute_sum (records_in text.now))) }
{
    let mut base = Base::after(alloc, 0);
    let mut rest = text;
    'lines: while !rest.is_empty() {
        let (line, more) = cut(rest, b'\n');
        if !add_line(alloc, line, &mut base)? {
            return Ok(None);
        }
        rest = more;
    }
    Ok(Some(base))
}

/// Adds the record that a line tells, if it tells one. Answers whether its absolute sum had room.
fn add_line(alloc: Global, line: &[u8], base: &mut Base<Record>) -> Result<bool, NoMemory>
    ensures { IfOk result (λ room.
        Adds room base.old base.new (option_to_list (record_in line.now))) }
{
    let Some(one) = record_in(alloc, line)? else {
        return Ok(true);
    };
    match base.add(one) {
        Ok(()) => Ok(true),
        Err(AddFault::SumTooLarge { .. }) => Ok(false),
        Err(AddFault::NoMemory) => Err(NoMemory),
    }
}

/// The record that a line tells, if it tells one.
fn record_in(alloc: Global, line: &[u8]) -> Result<Option<Record>, NoMemory>
    ensures { IfOk result (λ found. found ≡ record_in line.now) }
{
    if line.len() > LONGEST_LINE {
        return Ok(None);
    }
    match read_record(alloc, line) {
        Ok(record) => Ok(Some(record)),
        Err(Fault::NoMemory) => Err(NoMemory),
        Err(_) => Ok(None),
    }
}

/// Writes the lines of records, in order.
pub(crate) fn push_records(
    alloc: Global,
    text: &mut Vec<u8>,
    records: &[Record],
) -> Result<(), NoMemory>
    ensures text { OnOk result (text.new.items ≡ text.old.items ++ records_text records.now) }
    ensures written { OnOk result (All IsWritten records.now) }
{
    for one in records {
        push_record(alloc, text, one)?;
    }
    Ok(())
}

/// Writes the line of a record.
fn push_record(alloc: Global, text: &mut Vec<u8>, one: &Record) -> Result<(), NoMemory>
    ensures text { OnOk result (text.new.items ≡ text.old.items ++ record_text one.now) }
    ensures written { OnOk result (IsWritten one.now) }
{
    let line = write_record(alloc, one)?;
    text.extend_from_slice(&line)?;
    text.push(b'\n')?;
    Ok(())
}

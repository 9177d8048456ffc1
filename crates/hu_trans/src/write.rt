//! Writing a record as a line.

ghost use Rattle.std.specs.Prelude.{◌≡◌, ◌<◌, ◌^◌, ◌++◌, map, decimal, IfOk, Ok, OnOk};
ghost use Rattle.std.specs.Fmt.{signed_decimal};
ghost use Rattle.std.specs.List.{join_with_byte};
ghost use Rattle.hu_kind.specs.Cell.{pairs_of};
ghost use Rattle.hu_kind.specs.Record.{absolute_of, total};
ghost use Rattle.hu_trans.specs.Canonical.{canonical_line, gap, IsPlainLine};
ghost use Rattle.hu_trans.specs.Reading.{reading};

use crate::sums::Sums;
use hu_kind::{Cell, NoMemory, Record};
use itoa::Buffer;
use std::alloc::Global;

/// The canonical line of a record, without a line feed: items ascending, one space between numbers, and the plain sum as
/// total. Reading it gives the record again.
pub fn write_record(alloc: Global, one: &Record) -> Result<Vec<u8>, NoMemory>
    ensures value { IfOk result (λ line. line.items ≡ canonical_line one.now) }
    ensures plain { IfOk result (λ line. IsPlainLine line.items) }
    ensures again { IfOk result (λ line. reading line.items ≡ Ok one.now) }
{
    let cells = one.cells();
    let mut line = Vec::new(alloc);
    push_items(&mut line, cells)?;
    line.push(b':')?;
    push_number(&mut line, plain_sum(cells))?;
    line.push(b':')?;
    push_values(&mut line, cells)?;
    Ok(line)
}

/// The plain sum of the values.
fn plain_sum(cells: &[Cell]) -> i128
    requires { absolute_of (pairs_of cells.now) < 2 ^ 127 }
    ensures { result ≡ total (pairs_of cells.now) }
{
    match Sums::of(cells) {
        Some(sums) => sums.plain,
        None => unreachable!(),
    }
}

/// The items with a space between.
fn push_items(line: &mut Vec<u8>, cells: &[Cell]) -> Result<(), NoMemory>
    ensures { OnOk result (line.new.items
        ≡ line.old.items ++ join_with_byte 32 (map (λ cell. decimal cell.0) (pairs_of cells.now))) }
{
    for (at, cell) in cells.iter().enumerate() {
        push_next(line, at, i128::from(cell.item.0))?;
    }
    Ok(())
}

/// The values with a space between.
fn push_values(line: &mut Vec<u8>, cells: &[Cell]) -> Result<(), NoMemory>
    ensures { OnOk result (line.new.items
        ≡ line.old.items ++ join_with_byte 32 (map (λ cell. signed_decimal cell.1) (pairs_of cells.now))) }
{
    for (at, cell) in cells.iter().enumerate() {
        push_next(line, at, cell.value)?;
    }
    Ok(())
}

/// The number at a place of a list, with a space in front unless it is the first.
fn push_next(line: &mut Vec<u8>, at: usize, number: i128) -> Result<(), NoMemory>
    ensures { OnOk result (line.new.items ≡ line.old.items ++ (gap at ++ signed_decimal number)) }
{
    if at > 0 {
        line.push(b' ')?;
    }
    push_number(line, number)
}

/// A number.
fn push_number(line: &mut Vec<u8>, number: i128) -> Result<(), NoMemory>
    ensures { OnOk result (line.new.items ≡ line.old.items ++ signed_decimal number) }
{
    let mut buffer = Buffer::new();
    line.extend_from_slice(buffer.format(number).as_bytes())?;
    Ok(())
}

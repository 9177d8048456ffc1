//! Writing a sequence as a line.

ghost use Rattle.std.specs.Prelude.{◌≡◌, ◌++◌, codes, IfOk, Ok, OnOk};
ghost use Rattle.std.specs.Fmt.{signed_decimal};
ghost use Rattle.hu_kind.specs.Cell.{pair_of};
ghost use Rattle.hu_seq.specs.Canonical.{canonical_line, cell_text, itemset_text, IsPlainLine};
ghost use Rattle.hu_seq.specs.Reading.{reading};

use hu_kind::{Absolute, Cell, Element, NoMemory, SeqRecord};
use itoa::Buffer;
use std::alloc::Global;

/// The canonical line of a sequence, without a line feed: the items of each itemset ascending, one space between tokens,
/// and the sum of all utilities as total. Reading it gives the sequence again.
pub fn write_sequence(alloc: Global, one: &SeqRecord) -> Result<Vec<u8>, NoMemory>
    ensures value { IfOk result (λ line. line.items ≡ canonical_line one.now) }
    ensures plain { IfOk result (λ line. IsPlainLine line.items) }
    ensures again { IfOk result (λ line. reading line.items ≡ Ok one.now) }
{
    let mut line = Vec::new(alloc);
    for element in one.elements() {
        push_element(&mut line, element)?;
    }
    line.extend_from_slice(b"-2 SUtility:")?;
    push_number(&mut line, one.absolute())?;
    Ok(line)
}

/// An itemset, with a space behind it.
fn push_element(line: &mut Vec<u8>, element: &Element) -> Result<(), NoMemory>
    ensures { OnOk result (line.new.items ≡ line.old.items ++ itemset_text element.now) }
{
    for cell in element.cells() {
        push_cell(line, cell)?;
    }
    line.extend_from_slice(b"-1 ")?;
    Ok(())
}

/// A cell, with a space behind it.
fn push_cell(line: &mut Vec<u8>, cell: &Cell) -> Result<(), NoMemory>
    ensures { OnOk result (line.new.items ≡ line.old.items ++ (cell_text (pair_of cell.now) ++ codes " ")) }
{
    push_number(line, i128::from(cell.item.0))?;
    line.push(b'[')?;
    push_number(line, cell.value)?;
    line.extend_from_slice(b"] ")?;
    Ok(())
}

/// A number.
fn push_number(line: &mut Vec<u8>, number: i128) -> Result<(), NoMemory>
    ensures { OnOk result (line.new.items ≡ line.old.items ++ signed_decimal number) }
{
    let mut buffer = Buffer::new();
    line.extend_from_slice(buffer.format(number).as_bytes())?;
    Ok(())
}

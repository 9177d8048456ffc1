//! Texts that are numbers or none, keys, the order at a tie, and lists of cells that are records or none.

use hu_kind::{
    Absolute, Cell, Element, Entry, Item, Key, NoMemory, NumberFault, Record, SeqRecord,
    read_number, read_signed,
};
use std::alloc::Global;
use std::cmp::Ordering;
use std::test::Fail;

const MAX: &[u8] = b"170141183460469231731687303715884105727";

const ABOVE: &[u8] = b"170141183460469231731687303715884105728";

const FORTY: &[u8] = b"0000000000000000000000000000000000000001";

const THIRTY_NINE: &[u8] = b"000000000000000000000000000000000000001";

#[test]
fn numbers(rt: HostRuntime) {
    for (text, want) in [
        (b"".as_slice(), Err(NumberFault::Empty)),
        (b"x", Err(NumberFault::NotDigit(0))),
        (b"-", Err(NumberFault::NotDigit(0))),
        (b"1x2", Err(NumberFault::NotDigit(1))),
        (b"007", Ok(7)),
        (THIRTY_NINE, Ok(1)),
        (FORTY, Err(NumberFault::TooLarge)),
        (MAX, Ok(i128::MAX)),
        (ABOVE, Err(NumberFault::TooLarge)),
    ] {
        assert_eq!(rt; read_number(text), want);
    }
}

#[test]
fn signed_numbers(rt: HostRuntime) {
    for (text, want) in [
        (b"".as_slice(), Err(NumberFault::Empty)),
        (b"-", Err(NumberFault::Empty)),
        (b"--1", Err(NumberFault::NotDigit(1))),
        (b"-1x", Err(NumberFault::NotDigit(2))),
        (b"1x2", Err(NumberFault::NotDigit(1))),
        (b"-0", Ok(0)),
        (b"-12", Ok(-12)),
        (MAX, Ok(i128::MAX)),
    ] {
        assert_eq!(rt; read_signed(text), want);
    }
}

/// The key of these numbers.
fn key_of(alloc: Global, numbers: &[i64]) -> Result<Key, NoMemory> {
    let mut key = Key::new(alloc);
    for number in numbers {
        key.push(*number)?;
    }
    Ok(key)
}

#[test]
fn keys(rt: HostRuntime) -> Result<(), Fail> {
    let mut key = key_of(rt.alloc(), &[1, 2])?;
    let copy = key.copy_in(rt.alloc())?;
    assert_eq!(rt; copy.numbers(), [1, 2].as_slice());
    assert!(rt; key == copy);
    assert_eq!(rt; key.pop(), Some(2));
    assert!(rt; key != copy);
    assert_eq!(rt; key.pop(), Some(1));
    assert_eq!(rt; key.pop(), None);
    Ok(())
}

/// The entry of these numbers.
fn entry_of(
    alloc: Global,
    numbers: &[i64],
    utility: i128,
    support: u64,
) -> Result<Entry, NoMemory> {
    Ok(Entry {
        key: key_of(alloc, numbers)?,
        utility,
        support,
    })
}

#[test]
fn the_order_of_entries(rt: HostRuntime) -> Result<(), Fail> {
    let entry = entry_of(rt.alloc(), &[1, 2], 5, 3)?;
    let copy = entry.copy_in(rt.alloc())?;
    assert_eq!(rt; copy.key.numbers(), [1, 2].as_slice());
    assert_eq!(rt; (copy.utility, copy.support), (5, 3));
    assert_eq!(rt; entry.cmp(&copy), Ordering::Equal);
    let others: [(&[i64], i128, u64); 5] = [
        (&[0], 4, 1),
        (&[1, 3], 5, 1),
        (&[1, 2, 0], 5, 1),
        (&[2], 5, 1),
        (&[1, 2], 5, 4),
    ];
    for (numbers, utility, support) in &others {
        let other = entry_of(rt.alloc(), numbers, *utility, *support)?;
        assert_eq!(rt; entry.cmp(&other), Ordering::Less);
        assert_eq!(rt; other.cmp(&entry), Ordering::Greater);
    }
    Ok(())
}

/// Cells of these items and values.
fn cells_of(alloc: Global, pairs: &[(u32, i128)]) -> Result<Vec<Cell>, NoMemory> {
    let mut cells = Vec::new(alloc);
    for (item, value) in pairs {
        cells.push(Cell {
            item: Item(*item),
            value: *value,
        })?;
    }
    Ok(cells)
}

/// Cells of value 0 with the items from 0 up.
fn cells_up_to(alloc: Global, count: u32) -> Result<Vec<Cell>, NoMemory> {
    let mut cells = Vec::new(alloc);
    for item in 0..count {
        cells.push(Cell {
            item: Item(item),
            value: 0,
        })?;
    }
    Ok(cells)
}

#[test]
fn records(rt: HostRuntime) -> Result<(), Fail> {
    let refused: [&[(u32, i128)]; 5] = [
        &[],
        &[(2, 1), (1, 1)],
        &[(1, 1), (1, 1)],
        &[(2_147_483_648, 1)],
        &[(1, i128::MAX), (2, -1)],
    ];
    for pairs in &refused {
        assert!(rt; Record::new(cells_of(rt.alloc(), pairs)?).is_none());
    }
    let accepted: [(&[(u32, i128)], i128, bool); 3] = [
        (&[(1, 0)], 0, false),
        (&[(1, 3), (2_147_483_647, -2)], 5, true),
        (&[(1, i128::MAX)], i128::MAX, false),
    ];
    for (pairs, absolute, negative) in &accepted {
        let record = Record::new(cells_of(rt.alloc(), pairs)?).ok_or("no record")?;
        assert_eq!(rt; record.cells(), cells_of(rt.alloc(), pairs)?.as_slice());
        assert_eq!(rt; record.absolute(), *absolute);
        assert_eq!(rt; record.has_negative(), *negative);
    }
    assert!(rt; Record::new(cells_up_to(rt.alloc(), 4096)?).is_some());
    assert!(rt; Record::new(cells_up_to(rt.alloc(), 4097)?).is_none());
    Ok(())
}

/// The sequence of one element for each list, or nothing where one breaks a rule.
fn sequence_of(alloc: Global, lists: &[&[(u32, i128)]]) -> Result<Option<SeqRecord>, NoMemory> {
    let mut elements = Vec::new(alloc);
    for pairs in lists {
        let Some(element) = Element::new(cells_of(alloc, pairs)?) else {
            return Ok(None);
        };
        elements.push(element)?;
    }
    Ok(SeqRecord::new(elements))
}

#[test]
fn sequences(rt: HostRuntime) -> Result<(), Fail> {
    let alloc = rt.alloc();
    assert!(rt; sequence_of(alloc, &[])?.is_none());
    assert!(rt; sequence_of(alloc, &[&[(1, 1)], &[]])?.is_none());
    assert!(rt; sequence_of(alloc, &[&[(1, 1)], &[(2, -1)]])?.is_none());
    assert!(rt; sequence_of(alloc, &[&[(1, i128::MAX)], &[(1, 1)]])?.is_none());
    let lists: [&[(u32, i128)]; 2] = [&[(2, 0)], &[(1, 3), (2, 4)]];
    let sequence = sequence_of(alloc, &lists)?.ok_or("no sequence")?;
    assert_eq!(rt; sequence.absolute(), 7);
    assert_eq!(rt; sequence.elements().len(), 2);
    for (element, pairs) in sequence.elements().iter().zip(&lists) {
        assert_eq!(rt; element.cells(), cells_of(alloc, pairs)?.as_slice());
    }
    Ok(())
}

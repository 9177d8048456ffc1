//! Generated bases, and lines on answers.

ghost use Rattle.std.specs.Prelude.{◌≡◌, IfOk};

use hu_drill::{Summary, make, make_sequences, write_summary};
use hu_io::MemorySink;
use hu_kind::{Cell, Entry, Item, Key, NoMemory};
use std::alloc::Global;
use std::process::Abort;
use std::test::Fail;

fn expect_cells(rt: &impl Abort, cells: &[Cell], expected: &[(u32, i128)]) {
    assert_eq!(rt; cells.len(), expected.len());
    for (cell, (item, value)) in cells.iter().zip(expected) {
        let expected = Cell {
            item: Item(*item),
            value: *value,
        };
        assert_eq!(rt; *cell, expected);
    }
}

fn entry_of(alloc: Global, item: i64, utility: i128) -> Result<Entry, NoMemory>
    ensures { IfOk result (λ entry. entry.utility ≡ utility) }
{
    let mut key = Key::new(alloc);
    key.push(item)?;
    Ok(Entry {
        key,
        utility,
        support: 1,
    })
}

#[test]
fn records(rt: HostRuntime) -> Result<(), Fail> {
    let base = make(rt.alloc(), 1, 2, 2)?;
    let expected: [&[(u32, i128)]; 2] = [&[(7, 95), (13, 38)], &[(2, 84), (8, 6)]];
    assert_eq!(rt; base.records().len(), 2);
    for (record, cells) in base.records().iter().zip(expected) {
        expect_cells(&rt, record.cells(), cells);
    }
    assert_eq!(rt; base.sum(), 223);
    assert_eq!(rt; make(rt.alloc(), 1, 0, 2)?.records().len(), 0);
    Ok(())
}

#[test]
fn sequences(rt: HostRuntime) -> Result<(), Fail> {
    let base = make_sequences(rt.alloc(), 1, 1, 2)?;
    let expected: [&[(u32, i128)]; 2] = [&[(22, 95), (37, 38)], &[(17, 84), (37, 6)]];
    assert_eq!(rt; base.records().len(), 1);
    for record in base.records() {
        assert_eq!(rt; record.elements().len(), 2);
        for (element, cells) in record.elements().iter().zip(expected) {
            expect_cells(&rt, element.cells(), cells);
        }
    }
    Ok(())
}

#[test]
fn lines(rt: HostRuntime) -> Result<(), Fail> {
    let entries = [entry_of(rt.alloc(), 2, 30)?, entry_of(rt.alloc(), 5, 31)?];
    let none = Summary {
        count: 0,
        greatest: 0,
        total: 0,
    };
    assert_eq!(rt; Summary::of(&[]), none);
    let mut sink = MemorySink::new(rt.alloc(), 100)?;
    write_summary("seq chain", &none, &mut sink)?;
    write_summary("items lists", &Summary::of(&entries), &mut sink)?;
    assert_eq!(rt;
        sink.bytes(),
        b"seq chain 0 0 0\nitems lists 2 31 61\n".as_slice()
    );
    Ok(())
}

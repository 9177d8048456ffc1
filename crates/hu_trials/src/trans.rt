//! Lines with what they say, and the line of a record.

ghost use Rattle.std.specs.Prelude.{◌≤◌, length};

use hu_kind::{Cell, Item};
use hu_trans::{Fault, read_record, write_record};
use std::alloc::{AllocError, Global};
use std::test::Fail;

/// The fault of a line.
fn fault(alloc: Global, line: &str) -> Option<Fault>
    requires { length line.now ≤ 1048576 }
{
    read_record(alloc, line.as_bytes()).err()
}

/// Whether a line says the record of these items and values.
fn says(alloc: Global, line: &str, pairs: &[(u32, i128)]) -> Result<bool, Fault>
    requires { length line.now ≤ 1048576 }
{
    let one = read_record(alloc, line.as_bytes())?;
    let cells = one.cells();
    Ok(
        cells.len() == pairs.len()
            && cells
                .iter()
                .zip(pairs)
                .all(|(cell, pair)| is_pair(cell, *pair)),
    )
}

/// Whether a cell has this item and this value.
fn is_pair(cell: &Cell, pair: (u32, i128)) -> bool {
    *cell
        == Cell {
            item: Item(pair.0),
            value: pair.1,
        }
}

#[test]
fn transaction_lines(rt: HostRuntime) -> Result<(), Fail> {
    let alloc = rt.alloc();
    assert!(rt;
        says(
            alloc,
            "3 5 2 4:20:3 3 8 6",
            &[(2, 8), (3, 3), (4, 6), (5, 3)]
        )?
    );
    assert!(rt; says(alloc, "  7 :  04 : 4", &[(7, 4)])?);
    assert_eq!(rt; fault(alloc, "1 2"), Some(Fault::NotThreeParts));
    assert_eq!(rt; fault(alloc, "1:1:1:5"), Some(Fault::NotThreeParts));
    assert_eq!(rt;
        fault(alloc, "1 x:3:1 y"),
        Some(Fault::BadNumber { part: 1, at: 2 })
    );
    assert_eq!(rt;
        fault(alloc, "1::1"),
        Some(Fault::BadNumber { part: 2, at: 1 })
    );
    assert_eq!(rt;
        fault(alloc, "1:1 2:1"),
        Some(Fault::BadNumber { part: 2, at: 2 })
    );
    assert_eq!(rt;
        fault(alloc, "-1:1:1"),
        Some(Fault::BadNumber { part: 1, at: 1 })
    );
    assert_eq!(rt; fault(alloc, ":0:"), Some(Fault::NoItems));
    assert_eq!(rt;
        fault(alloc, "1 2:3:3"),
        Some(Fault::CountsDiffer {
            items: 2,
            utilities: 1
        })
    );
    assert_eq!(rt;
        fault(alloc, "1 2147483648:3:1 2"),
        Some(Fault::ItemOutOfRange { at: 2 })
    );
    assert!(rt; says(alloc, "2147483647:0:0", &[(2_147_483_647, 0)])?);
    assert_eq!(rt;
        fault(alloc, "1 1:9:2 2"),
        Some(Fault::DuplicateItem { item: Item(1) })
    );
    assert!(rt; says(alloc, "1 2:1:4 -3", &[(1, 4), (2, -3)])?);
    assert_eq!(rt;
        fault(alloc, "1:5:4"),
        Some(Fault::TotalDisagrees {
            stated: 5,
            summed: 4
        })
    );
    Ok(())
}

#[test]
fn the_greatest_number(rt: HostRuntime) -> Result<(), Fail> {
    let alloc = rt.alloc();
    let most = 170_141_183_460_469_231_731_687_303_715_884_105_727;
    let line = "1:170141183460469231731687303715884105727:170141183460469231731687303715884105727";
    assert!(rt; says(alloc, line, &[(1, most)])?);
    let line = "1 2:0:170141183460469231731687303715884105727 1";
    assert_eq!(rt; fault(alloc, line), Some(Fault::SumTooLarge));
    let line = "1:0:170141183460469231731687303715884105728";
    assert_eq!(rt;
        fault(alloc, line),
        Some(Fault::BadNumber { part: 3, at: 1 })
    );
    Ok(())
}

#[test]
fn two_lawful_totals(rt: HostRuntime) -> Result<(), Fail> {
    let alloc = rt.alloc();
    assert!(rt; says(alloc, "1 2:5:8 -3", &[(1, 8), (2, -3)])?);
    assert!(rt; says(alloc, "1 2:8:8 -3", &[(1, 8), (2, -3)])?);
    assert_eq!(rt;
        fault(alloc, "1 2:6:8 -3"),
        Some(Fault::TotalDisagrees {
            stated: 6,
            summed: 5
        })
    );
    Ok(())
}

#[test]
fn four_malformed_lines(rt: HostRuntime) {
    let alloc = rt.alloc();
    assert_eq!(rt;
        fault(alloc, "1 1:4:2 2"),
        Some(Fault::DuplicateItem { item: Item(1) })
    );
    assert_eq!(rt;
        fault(alloc, "1 2:3:3"),
        Some(Fault::CountsDiffer {
            items: 2,
            utilities: 1
        })
    );
    assert_eq!(rt; fault(alloc, "1:2"), Some(Fault::NotThreeParts));
    assert_eq!(rt; fault(alloc, ":0:"), Some(Fault::NoItems));
}

#[test]
fn a_canonical_line(rt: HostRuntime) -> Result<(), Fail> {
    let one = read_record(rt.alloc(), b"3 5 2 4:20:3 3 8 6")?;
    let line = write_record(rt.alloc(), &one)?;
    assert_eq!(rt; line.as_slice(), b"2 3 4 5:20:8 3 6 3".as_slice());
    Ok(())
}

/// The line of the items from 1 to a count, each of value 1.
fn ones(alloc: Global, count: u32) -> Result<String, AllocError> {
    let mut line = String::new(alloc);
    for item in 1..=count {
        line.push_str(format!(in alloc; "{item} ")?.as_str())?;
    }
    line.push_str(format!(in alloc; ":{count}:")?.as_str())?;
    for _ in 0..count {
        line.push_str("1 ")?;
    }
    Ok(line)
}

#[test]
fn too_many_items(rt: HostRuntime) -> Result<(), Fail> {
    let alloc = rt.alloc();
    let most = ones(alloc, 4096)?;
    assert!(rt; most.len() <= 1_048_576);
    assert_eq!(rt; fault(alloc, most.as_str()), None);
    let more = ones(alloc, 4097)?;
    assert!(rt; more.len() <= 1_048_576);
    assert_eq!(rt;
        fault(alloc, more.as_str()),
        Some(Fault::TooManyItems { count: 4097 })
    );
    Ok(())
}

//! Answers written out, in pieces of one size.

use hu_io::{Failed, MemorySink};
use hu_kind::{Entry, Key, NoMemory, Task};
use hu_report::write_entries;
use std::alloc::Global;
use std::test::Fail;

/// The key, the utility and the support of an entry.
type Row<'a> = (&'a [i64], i128, u64);

const ITEMS_AT_30: &str =
    "2 3 4 5 #UTIL: 40\n2 3 5 #UTIL: 37\n2 4 5 #UTIL: 36\n2 3 4 #UTIL: 34\n1 3 5 #UTIL: 31\n2 5 #UTIL: 31\n1 2 3 4 5 6 #UTIL: 30\n2 4 #UTIL: 30\n";

fn entry_of(alloc: Global, row: &Row<'_>) -> Result<Entry, NoMemory> {
    let (numbers, utility, support) = *row;
    let mut key = Key::new(alloc);
    for number in numbers {
        key.push(*number)?;
    }
    Ok(Entry {
        key,
        utility,
        support,
    })
}

fn entries_of(alloc: Global, rows: &[Row<'_>]) -> Result<Vec<Entry>, NoMemory> {
    let mut entries = Vec::new(alloc);
    for row in rows {
        entries.push(entry_of(alloc, row)?)?;
    }
    Ok(entries)
}

fn base_a_at_30(alloc: Global) -> Result<Vec<Entry>, NoMemory> {
    entries_of(
        alloc,
        &[
            (&[2, 3, 4, 5], 40, 2),
            (&[2, 3, 5], 37, 3),
            (&[2, 4, 5], 36, 2),
            (&[2, 3, 4], 34, 2),
            (&[1, 3, 5], 31, 2),
            (&[2, 5], 31, 3),
            (&[1, 2, 3, 4, 5, 6], 30, 1),
            (&[2, 4], 30, 2),
        ],
    )
}

#[test]
fn base_a_in_small_rooms(rt: HostRuntime) -> Result<(), Fail> {
    let entries = base_a_at_30(rt.alloc())?;
    let cases = [
        (132, Ok(())),
        (131, Err(Failed)),
        (10, Err(Failed)),
        (0, Err(Failed)),
    ];
    for (room, answer) in cases {
        let mut sink = MemorySink::new(rt.alloc(), room)?;
        assert_eq!(rt;
            write_entries(&entries, Task::Items, &mut sink),
            answer,
            "room {room}"
        );
        let front = ITEMS_AT_30.get(..room).ok_or("short")?;
        assert_eq!(rt; sink.bytes(), front.as_bytes(), "room {room}");
    }
    Ok(())
}

#[test]
fn lines(rt: HostRuntime) -> Result<(), Fail> {
    let cases: [(Task, Row<'_>, &str); 4] = [
        (
            Task::Closed,
            (&[2, 3, 5], 37, 3),
            "2 3 5 #SUP: 3 #UTIL: 37\n",
        ),
        (
            Task::Sequences,
            (&[1, -1, 2, -1], 8, 1),
            "1 -1 2 -1 #UTIL: 8\n",
        ),
        (
            Task::Items,
            (&[4294967295], i128::MAX, 1),
            "4294967295 #UTIL: 170141183460469231731687303715884105727\n",
        ),
        (
            Task::Closed,
            (&[7], -9, u64::MAX),
            "7 #SUP: 18446744073709551615 #UTIL: -9\n",
        ),
    ];
    for (task, row, text) in &cases {
        let entry = entry_of(rt.alloc(), row)?;
        let mut sink = MemorySink::new(rt.alloc(), 100)?;
        assert_eq!(rt; write_entries(&[entry], *task, &mut sink), Ok(()), "{text}");
        assert_eq!(rt; sink.bytes(), text.as_bytes());
    }
    Ok(())
}

/// The second put of a text of 6,009 bytes fails.
#[test]
fn pieces(rt: HostRuntime) -> Result<(), Fail> {
    let entries = entries_of(rt.alloc(), &[(&[1; 3000], 1, 1)])?;
    let mut sink = MemorySink::new(rt.alloc(), 10_000)?;
    sink.fail_at(2)?;
    assert_eq!(rt;
        write_entries(&entries, Task::Items, &mut sink),
        Err(Failed)
    );
    assert_eq!(rt; sink.bytes().len(), 4096);
    Ok(())
}

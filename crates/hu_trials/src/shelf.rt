//! A store that grows, stores that are refused, and a text on disk.

use hu_base::Base;
use hu_kept::Changes;
use hu_kind::Record;
use hu_shelf::{DiskKeeper, KeepFault, Keeper, MemoryKeeper, Shelf, ShelfFault};
use hu_trans::read_record;
use std::alloc::Global;
use std::test::Fail;
use std::{env, fs, process};

/// The first three records of base A, and the other two.
const FIRST: [&str; 3] = [
    "3 5 1 2 4 6:30:1 3 5 10 6 5",
    "3 5 2 4:20:3 3 8 6",
    "3 1 4:8:1 5 2",
];

const SECOND: [&str; 2] = ["3 5 1 7:27:6 6 10 5", "3 5 2 7:11:2 3 4 2"];

/// The text of a store with the first three.
const TEXT: &str = "hupm shelf 1
items 30 all
1 2 3 4 5 6:30:5 10 1 6 3 5
2 3 4 5:20:8 3 6 3
1 3 4:8:5 1 2
";

/// The records of lines.
fn batch(alloc: Global, lines: &[&str]) -> Result<Base<Record>, Fail> {
    let mut base = Base::after(alloc, 0);
    for line in lines {
        if line.len() <= 1_048_576 {
            base.add(read_record(alloc, line.as_bytes())?)?;
        }
    }
    Ok(base)
}

/// Adds a batch to the store of a name.
fn add<K: Keeper>(
    alloc: Global,
    keeper: &mut K,
    name: &str,
    batch: Base<Record>,
) -> Result<Changes, ShelfFault> {
    let shelf = Shelf::find(alloc, keeper, name)?;
    let (_, changes) = shelf.add(keeper, name, batch)?;
    Ok(changes)
}

/// What is wrong with a text as a store's.
fn fault(alloc: Global, text: &str) -> Option<ShelfFault> {
    let mut keeper = MemoryKeeper::new(alloc);
    if keeper.replace("d", text.as_bytes()).is_err() {
        return Some(ShelfFault::KeeperFailed);
    }
    Shelf::find(alloc, &mut keeper, "d").err()
}

#[test]
fn a_store_grows(rt: HostRuntime) -> Result<(), Fail> {
    let alloc = rt.alloc();
    let mut keeper = MemoryKeeper::new(alloc);
    Shelf::create(alloc, &mut keeper, "s", 30, None, false)?;
    assert_eq!(rt;
        keeper.content("s"),
        b"hupm shelf 1\nitems 30 all\n".as_slice()
    );
    let first = add(alloc, &mut keeper, "s", batch(alloc, &FIRST)?)?;
    assert_eq!(rt; (first.added, first.changed, first.dropped), (5, 0, 0));
    assert_eq!(rt; keeper.content("s"), TEXT.as_bytes());
    let second = add(alloc, &mut keeper, "s", batch(alloc, &SECOND)?)?;
    assert_eq!(rt; (second.added, second.changed, second.dropped), (3, 0, 0));
    let shelf = Shelf::find(alloc, &mut keeper, "s")?;
    assert_eq!(rt; shelf.entries(alloc)?.len(), 8);
    assert_eq!(rt; shelf.sum(), 96);
    assert!(rt; !shelf.closed());
    assert_eq!(rt; keeper.faults(), 0);
    Ok(())
}

#[test]
fn a_store_refuses(rt: HostRuntime) -> Result<(), Fail> {
    let alloc = rt.alloc();
    let mut keeper = MemoryKeeper::new(alloc);
    Shelf::create(alloc, &mut keeper, "s", 30, Some(20), true)?;
    assert_eq!(rt;
        Shelf::find(alloc, &mut keeper, "t").err(),
        Some(ShelfFault::Absent)
    );
    let again = Shelf::create(alloc, &mut keeper, "s", 30, None, false);
    assert_eq!(rt; again, Err(ShelfFault::Present));
    assert_eq!(rt;
        keeper.content("s"),
        b"hupm shelf 1\nclosed 30 20\n".as_slice()
    );
    assert_eq!(rt; fault(alloc, TEXT), None);
    assert_eq!(rt;
        fault(alloc, "hupm shelf 1\nitems 30 al\n"),
        Some(ShelfFault::Damaged)
    );
    assert_eq!(rt;
        fault(alloc, "hupm shelf 1\nitems 30 all"),
        Some(ShelfFault::Damaged)
    );
    Ok(())
}

#[test]
fn a_keeper_fails(rt: HostRuntime) -> Result<(), Fail> {
    let alloc = rt.alloc();
    let mut keeper = MemoryKeeper::new(alloc);
    // The text is put by one call and read by two.
    keeper.fail_at(4)?;
    assert_eq!(rt; keeper.replace("s", TEXT.as_bytes()), Ok(()));
    let added = add(alloc, &mut keeper, "s", batch(alloc, &SECOND)?);
    assert_eq!(rt; added.err(), Some(ShelfFault::KeeperFailed));
    assert_eq!(rt; keeper.content("s"), TEXT.as_bytes());
    assert_eq!(rt; keeper.faults(), 1);
    Ok(())
}

#[test]
fn disk_texts(rt: HostRuntime) -> Result<(), Fail> {
    let alloc = rt.alloc();
    let folder = env::temp_dir(&rt)?;
    let own = process::id(rt.process());
    let path = format!(in alloc; "{}/hu_shelf-{own}", folder.display())?;
    let beside = format!(in alloc; "{path}.new")?;
    let mut keeper = DiskKeeper::new(alloc, rt);
    assert_eq!(rt; keeper.load(path.as_str(), 0, &mut [0; 4]), Ok(0));
    Shelf::create(alloc, &mut keeper, path.as_str(), 30, None, false)?;
    let changes = add(alloc, &mut keeper, path.as_str(), batch(alloc, &FIRST)?)?;
    assert_eq!(rt; changes.added, 5);
    assert_eq!(rt; fs::read_to_string(&rt, path.as_str())?.as_str(), TEXT);
    assert!(rt; fs::open(&rt, beside.as_str()).is_err());
    assert_eq!(rt; keeper.faults(), 0);
    fs::remove_file(&rt, path.as_str())?;
    // A folder doesn't give its name to a file.
    fs::create_dir(&rt, path.as_str())?;
    let answer = keeper.replace(path.as_str(), b"x");
    assert_eq!(rt; answer, Err(KeepFault::Failed));
    assert_eq!(rt; keeper.faults(), 1);
    assert!(rt; fs::open(&rt, beside.as_str()).is_err());
    fs::remove_dir(&rt, path.as_str())?;
    Ok(())
}

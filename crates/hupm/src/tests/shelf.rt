//! Stores over runs: one that grows, words and stores that are refused, and calls that fail.

use super::{BASE_A_AT_30, files, words_of};
use hu_io::MemorySink;
use hu_run::run_all;
use hu_shelf::{Keeper, MemoryKeeper};
use std::alloc::Global;
use std::process::Abort;
use std::test::Fail;

/// The text of a store with the first three records of base A.
const THREE: &str = "hupm shelf 1
items 30 all
1 2 3 4 5 6:30:5 10 1 6 3 5
2 3 4 5:20:8 3 6 3
1 3 4:8:5 1 2
";

/// Their answer at 30.
const THREE_AT_30: &str =
    "2 3 4 5 #UTIL: 40\n2 4 5 #UTIL: 36\n2 3 4 #UTIL: 34\n1 2 3 4 5 6 #UTIL: 30\n2 4 #UTIL: 30\n";

/// The words after `shelf`, and how their run ends, one after the other over one keeper.
const GROWING: [(&str, u8, &str, &str); 12] = [
    ("list s", 7, "", "hupm: s: no store\n"),
    ("new s items 30 all", 0, "", ""),
    ("list s", 0, "", ""),
    ("add s front", 0, "added 5 changed 0 dropped 0\n", ""),
    ("new s closed 1 20", 7, "", "hupm: s: store is there\n"),
    ("add s missing", 3, "", "hupm: read failed: missing\n"),
    ("add s wrong", 1, "", "hupm: wrong:2: total 21 but sum 20\n"),
    ("add s greatest", 1, "", "hupm: greatest:1: sum too large\n"),
    ("add t missing", 7, "", "hupm: t: no store\n"),
    ("add s empty", 0, "added 0 changed 0 dropped 0\n", ""),
    ("add s back", 0, "added 3 changed 0 dropped 0\n", ""),
    ("list s", 0, BASE_A_AT_30, ""),
];

/// Words after `shelf` that ask for nothing.
const REFUSED: [(&str, &str); 10] = [
    ("", "hupm: too few words\n"),
    ("new", "hupm: too few words\n"),
    ("make s", "hupm: unknown task\n"),
    ("new s items 30", "hupm: too few words\n"),
    ("new s items 30 all a", "hupm: too many words\n"),
    ("new s seq 0 x", "hupm: unknown task\n"),
    ("new s items 0 x", "hupm: bad minimum\n"),
    ("new s items 1 1000001", "hupm: bad top\n"),
    ("add s", "hupm: too few words\n"),
    ("list s t", "hupm: too many words\n"),
];

/// Asserts that a run of these words after `shelf` ends with this status and with these texts.
fn ends<K: Keeper>(
    rt: &impl Abort,
    alloc: Global,
    rest: &str,
    keeper: &mut K,
    ending: (u8, &str, &str),
) -> Result<(), Fail> {
    ends_in(rt, alloc, ("shelf", rest), 1000, keeper, ending)
}

/// Asserts that a run of these words whose answer has so much room ends with this status and with these texts.
fn ends_in<K: Keeper>(
    rt: &impl Abort,
    alloc: Global,
    (job, rest): (&str, &str),
    room: usize,
    keeper: &mut K,
    (status, written, told): (u8, &str, &str),
) -> Result<(), Fail> {
    let words = words_of(alloc, job, rest)?;
    let mut files = files(alloc)?;
    let mut out = MemorySink::new(alloc, room)?;
    let mut err = MemorySink::new(alloc, 1000)?;
    let answer = run_all(alloc, &words, &mut files, &mut out, &mut err, keeper);
    let wanted = (status, written.as_bytes(), told.as_bytes());
    assert_eq!(rt; (answer, out.bytes(), err.bytes()), wanted, "{job} {rest}");
    Ok(())
}

/// A keeper with a text under the name `s`.
fn keeper_with(alloc: Global, text: &str) -> Result<MemoryKeeper, Fail> {
    let mut keeper = MemoryKeeper::new(alloc);
    if keeper.replace("s", text.as_bytes()).is_err() {
        return Err("no keeper".into());
    }
    Ok(keeper)
}

#[test]
fn a_store_grows(rt: HostRuntime) -> Result<(), Fail> {
    let mut keeper = MemoryKeeper::new(rt.alloc());
    for (rest, status, written, told) in &GROWING {
        ends(
            &rt,
            rt.alloc(),
            *rest,
            &mut keeper,
            (*status, *written, *told),
        )?;
    }
    for (rest, told) in &REFUSED {
        ends(&rt, rt.alloc(), *rest, &mut keeper, (2, "", *told))?;
    }
    assert_eq!(rt; keeper.content("t"), b"".as_slice());
    Ok(())
}

#[test]
fn a_store_refuses(rt: HostRuntime) -> Result<(), Fail> {
    let cut = THREE.get(..THREE.len() - 1).ok_or("short")?;
    for text in [cut, "hupm shelf 1\nitems 30 al\n", "x"] {
        let mut keeper = keeper_with(rt.alloc(), text)?;
        for rest in ["list s", "add s missing"] {
            ends(
                &rt,
                rt.alloc(),
                rest,
                &mut keeper,
                (7, "", "hupm: s: damaged store\n"),
            )?;
        }
        assert_eq!(rt; keeper.content("s"), text.as_bytes());
    }
    Ok(())
}

// Each call of the keeper fails in turn: two read the store, one puts it.
#[test]
fn each_call_fails(rt: HostRuntime) -> Result<(), Fail> {
    let failed = "hupm: store failed: s\n";
    for (call, rest) in [
        (2, "add s back"),
        (3, "add s back"),
        (4, "add s back"),
        (2, "list s"),
        (3, "list s"),
    ] {
        let mut keeper = keeper_with(rt.alloc(), THREE)?;
        keeper.fail_at(call)?;
        ends(&rt, rt.alloc(), rest, &mut keeper, (8, "", failed))?;
        assert_eq!(rt; keeper.content("s"), THREE.as_bytes());
        assert_eq!(rt; keeper.faults(), 1);
    }
    for call in [1, 2] {
        let mut keeper = MemoryKeeper::new(rt.alloc());
        keeper.fail_at(call)?;
        ends(
            &rt,
            rt.alloc(),
            "new s items 30 all",
            &mut keeper,
            (8, "", failed),
        )?;
        assert_eq!(rt; keeper.content("s"), b"".as_slice());
    }
    Ok(())
}

// A write that fails leaves the new text under the name.
#[test]
fn a_write_fails(rt: HostRuntime) -> Result<(), Fail> {
    let alloc = rt.alloc();
    let mut keeper = MemoryKeeper::new(alloc);
    ends(&rt, alloc, "new s items 30 all", &mut keeper, (0, "", ""))?;
    let cut = (4, "added 5 ch", "hupm: write failed\n");
    ends_in(&rt, alloc, ("shelf", "add s front"), 10, &mut keeper, cut)?;
    assert_eq!(rt; keeper.content("s"), THREE.as_bytes());
    let other = ("items lists 30 all", "front");
    ends_in(&rt, alloc, other, 1000, &mut keeper, (0, THREE_AT_30, ""))?;
    assert_eq!(rt; keeper.faults(), 0);
    Ok(())
}

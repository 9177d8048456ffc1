//! Itemsets and bounds of small bases by average.

ghost use Rattle.std.specs.Prelude.{◌≡◌, ◌≤◌, ◌≤ℤ◌, pos, IfSome};

use crate::builders::key_of;
use hu_average::{bound, cmp_average, mine, mine_plain, reaches, write_averages};
use hu_base::Base;
use hu_io::{Failed, MemorySink};
use hu_kind::{Entry, NoMemory, Record};
use hu_list::UtilityList;
use hu_sample::{BASE_A, SIGNED, base_of};
use hu_totals::{Ranked, Totals};
use std::alloc::Global;
use std::cmp::Ordering;
use std::process::Abort;
use std::test::Fail;

const AVERAGES_AT_14: &str =
    "2 #UTIL: 22 #LEN: 1\n1 #UTIL: 20 #LEN: 1\n2 5 #UTIL: 31 #LEN: 2\n2 4 #UTIL: 30 #LEN: 2\n5 #UTIL: 15 #LEN: 1\n1 3 #UTIL: 28 #LEN: 2\n2 3 #UTIL: 28 #LEN: 2\n4 #UTIL: 14 #LEN: 1\n";

const FIRST_FOUR: &str =
    "2 #UTIL: 22 #LEN: 1\n1 #UTIL: 20 #LEN: 1\n2 5 #UTIL: 31 #LEN: 2\n2 4 #UTIL: 30 #LEN: 2\n";

const SIGNED_AT_5: &str =
    "3 #UTIL: 9 #LEN: 1\n2 #UTIL: 6 #LEN: 1\n2 3 #UTIL: 12 #LEN: 2\n1 3 #UTIL: 10 #LEN: 2\n";

/// Two entries, each as its numbers and its utility, and their order.
const ORDERS: [((&[i64], i128), (&[i64], i128), Ordering); 4] = [
    ((&[2, 5], 31), (&[2, 4], 30), Ordering::Less),
    ((&[2, 4], 30), (&[5], 15), Ordering::Less),
    ((&[5], 15), (&[2, 5], 31), Ordering::Greater),
    ((&[1, 2], i128::MAX), (&[1, 2], i128::MAX), Ordering::Equal),
];

/// A base over the ranks of the items that reach a floor.
fn ranked_at(alloc: Global, base: &Base<Record>, floor: i128) -> Result<Ranked, NoMemory>
    requires { pos 1 ≤ℤ floor }
{
    let totals = Totals::of(alloc, base)?;
    Ranked::of(alloc, base, &totals, floor)
}

/// What the engine over ranks finds.
fn mined(
    alloc: Global,
    base: &Base<Record>,
    least: i128,
    top: Option<u32>,
) -> Result<Vec<Entry>, NoMemory>
    requires least { pos 1 ≤ℤ least }
    requires some { IfSome top (λ k. 1 ≤ k) }
{
    let ranked = ranked_at(alloc, base, least)?;
    mine(alloc, &ranked, least, top)
}

/// Writes entries, and compares what went out.
fn expect_text(rt: &impl Abort, alloc: Global, entries: &[Entry], text: &str) -> Result<(), Fail> {
    let mut sink = MemorySink::new(alloc, 1000)?;
    assert_eq!(rt; write_averages(entries, &mut sink), Ok(()));
    assert_eq!(rt; sink.bytes(), text.as_bytes());
    Ok(())
}

/// Mines by both engines, and compares the texts.
fn expect_mined(
    rt: &impl Abort,
    alloc: Global,
    records: &[&[(u32, i128)]],
    least: i128,
    top: Option<u32>,
    text: &str,
) -> Result<(), Fail>
    requires least { pos 1 ≤ℤ least }
    requires some { IfSome top (λ k. 1 ≤ k) }
{
    let base = base_of(alloc, records)?.expect(rt, "a base");
    expect_text(rt, alloc, &mine_plain(alloc, &base, least, top)?, text)?;
    expect_text(rt, alloc, &mined(alloc, &base, least, top)?, text)
}

#[test]
fn averages_of_base_a(rt: HostRuntime) -> Result<(), Fail> {
    expect_mined(&rt, rt.alloc(), &BASE_A, 14, None, AVERAGES_AT_14)?;
    expect_mined(&rt, rt.alloc(), &BASE_A, 1, Some(4), FIRST_FOUR)?;
    expect_mined(&rt, rt.alloc(), &BASE_A, 14, Some(4), FIRST_FOUR)?;
    expect_mined(&rt, rt.alloc(), &BASE_A, 23, None, "")
}

#[test]
fn averages_of_signed_records(rt: HostRuntime) -> Result<(), Fail> {
    expect_mined(&rt, rt.alloc(), &SIGNED, 5, None, SIGNED_AT_5)?;
    expect_mined(&rt, rt.alloc(), &SIGNED, 1, Some(1), "3 #UTIL: 9 #LEN: 1\n")
}

/// The bound of the list of a rank.
fn bound_of(rt: &impl Abort, alloc: Global, ranked: &Ranked, rank: u32) -> Result<i128, NoMemory> {
    assert!(rt; rank < ranked.len());
    let list = UtilityList::build(alloc, ranked, rank)?;
    Ok(bound(ranked, &list))
}

#[test]
fn bounds_of_items(rt: HostRuntime) -> Result<(), Fail> {
    let base = base_of(rt.alloc(), &BASE_A)?.expect(&rt, "a base");
    let ranked = ranked_at(rt.alloc(), &base, 30)?;
    // The ranks 0, 2 and 6 are those of the items 6, 4 and 3.
    for (rank, expected) in [(0, 10), (2, 23), (6, 37)] {
        assert_eq!(rt; bound_of(&rt, rt.alloc(), &ranked, rank)?, expected);
    }
    Ok(())
}

#[test]
fn minimum_for_each_item(rt: HostRuntime) -> Result<(), Fail> {
    assert!(rt; reaches(28, 2, 14));
    assert!(rt; !reaches(27, 2, 14));
    assert!(rt; !reaches(-28, 2, 1));
    assert!(rt; reaches(i128::MAX, 4096, i128::MAX / 4096));
    assert!(rt; !reaches(i128::MAX, 4096, i128::MAX / 4096 + 1));
    Ok(())
}

/// The entry of these numbers.
fn entry_of(alloc: Global, numbers: &[i64], utility: i128) -> Result<Entry, NoMemory> {
    Ok(Entry {
        key: key_of(alloc, numbers)?,
        utility,
        support: 1,
    })
}

/// Compares the order of two entries, each told by its numbers and its utility.
fn expect_order(
    rt: &impl Abort,
    alloc: Global,
    first: (&[i64], i128),
    second: (&[i64], i128),
    order: Ordering,
) -> Result<(), Fail> {
    let a = entry_of(alloc, first.0, first.1)?;
    let b = entry_of(alloc, second.0, second.1)?;
    assert!(rt; a.utility >= 1 && b.utility >= 1);
    assert!(rt; !a.key.numbers().is_empty() && !b.key.numbers().is_empty());
    assert_eq!(rt; cmp_average(&a, &b), order);
    Ok(())
}

#[test]
fn order_by_fractions(rt: HostRuntime) -> Result<(), Fail> {
    for (first, second, order) in ORDERS {
        expect_order(&rt, rt.alloc(), first, second, order)?;
    }
    Ok(())
}

/// Writes entries to a sink with so much room, which has no room for all, and compares what went out.
fn expect_front(
    rt: &impl Abort,
    alloc: Global,
    entries: &[Entry],
    room: usize,
    text: &str,
) -> Result<(), Fail> {
    let mut sink = MemorySink::new(alloc, room)?;
    assert_eq!(rt; write_averages(entries, &mut sink), Err(Failed));
    assert_eq!(rt; sink.bytes(), text.as_bytes());
    Ok(())
}

#[test]
fn failed_writes(rt: HostRuntime) -> Result<(), Fail> {
    let alloc = rt.alloc();
    let entries = [entry_of(alloc, &[2], 22)?, entry_of(alloc, &[2, 5], 31)?];
    let lines = "2 #UTIL: 22 #LEN: 1\n2 5 #UTIL: 31 #LEN: 2";
    expect_front(&rt, alloc, &entries, 41, lines)?;
    expect_front(&rt, alloc, &entries, 20, "2 #UTIL: 22 #LEN: 1\n")?;
    expect_front(&rt, alloc, &entries, 0, "")
}

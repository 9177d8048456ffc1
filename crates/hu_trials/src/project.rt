//! The itemsets of small bases, written out, and a record of as many items as a record may have.

ghost use Rattle.std.specs.Prelude.{◌≡◌, ◌≤◌, ◌≤ℤ◌, pos, IfOk};

use crate::builders::ranked_at;
use hu_collect::{All, Top};
use hu_kind::{Entry, NoMemory};
use hu_project::mine;
use hu_sample::{BASE_A, SIGNED, told};
use hu_totals::Ranked;
use std::alloc::Global;
use std::process::Abort;
use std::test::Fail;

/// The itemsets that reach the floor of the ranks.
fn mined(alloc: Global, ranked: &Ranked) -> Result<Vec<Entry>, NoMemory>
    requires { pos 1 ≤ℤ ranked.now.floor }
{
    let mut collect = All::new(alloc, ranked.floor());
    mine(alloc, ranked, &mut collect)?;
    collect.into_entries()
}

/// The first k itemsets.
fn mined_top(alloc: Global, ranked: &Ranked, k: u32) -> Result<Vec<Entry>, NoMemory>
    requires floor { ranked.now.floor ≡ pos 1 }
    requires some { 1 ≤ k }
{
    let mut collect = Top::new(alloc, k, 1);
    mine(alloc, ranked, &mut collect)?;
    collect.into_entries()
}

/// Compares the lines of entries.
fn expect_lines(
    rt: &impl Abort,
    alloc: Global,
    entries: &[Entry],
    lines: &str,
) -> Result<(), Fail> {
    assert_eq!(rt; told(alloc, entries)?.as_str(), lines);
    Ok(())
}

/// Compares the lines of the itemsets that earn at least a floor.
fn expect_mined(
    rt: &impl Abort,
    alloc: Global,
    records: &[&[(u32, i128)]],
    floor: i128,
    lines: &str,
) -> Result<(), Fail>
    requires { pos 1 ≤ℤ floor }
{
    let ranked = ranked_at(rt, alloc, records, floor)?;
    expect_lines(rt, alloc, &mined(alloc, &ranked)?, lines)
}

const BASE_A_AT_30: &str =
    "2 3 4 5 #UTIL: 40 #SUP: 2\n2 3 5 #UTIL: 37 #SUP: 3\n2 4 5 #UTIL: 36 #SUP: 2\n2 3 4 #UTIL: 34 #SUP: 2\n1 3 5 #UTIL: 31 #SUP: 2\n2 5 #UTIL: 31 #SUP: 3\n1 2 3 4 5 6 #UTIL: 30 #SUP: 1\n2 4 #UTIL: 30 #SUP: 2\n";

#[test]
fn base_a_at_30(rt: HostRuntime) -> Result<(), Fail> {
    expect_mined(&rt, rt.alloc(), &BASE_A, 30, BASE_A_AT_30)
}

/// Two sets earn 31, and the one with the smaller key stays.
const FIRST_FIVE: &str =
    "2 3 4 5 #UTIL: 40 #SUP: 2\n2 3 5 #UTIL: 37 #SUP: 3\n2 4 5 #UTIL: 36 #SUP: 2\n2 3 4 #UTIL: 34 #SUP: 2\n1 3 5 #UTIL: 31 #SUP: 2\n";

#[test]
fn the_first_five_of_base_a(rt: HostRuntime) -> Result<(), Fail> {
    let ranked = ranked_at(&rt, rt.alloc(), &BASE_A, 1)?;
    let entries = mined_top(rt.alloc(), &ranked, 5)?;
    expect_lines(&rt, rt.alloc(), &entries, FIRST_FIVE)
}

const SIGNED_AT_10: &str =
    "2 3 #UTIL: 12 #SUP: 2\n1 2 3 #UTIL: 11 #SUP: 1\n1 3 #UTIL: 10 #SUP: 1\n";

#[test]
fn values_below_0_and_no_records(rt: HostRuntime) -> Result<(), Fail> {
    expect_mined(&rt, rt.alloc(), &SIGNED, 10, SIGNED_AT_10)?;
    expect_mined(&rt, rt.alloc(), &[], 1, "")
}

/// As many items as a record may have, each of which earns 1.
fn whole_record(alloc: Global) -> Result<Vec<(u32, i128)>, NoMemory> {
    let mut pairs = Vec::new(alloc);
    for item in 1..4097 {
        pairs.push((item, 1))?;
    }
    Ok(pairs)
}

#[test]
fn a_record_of_4_096_items(rt: HostRuntime) -> Result<(), Fail> {
    // Only the whole record reaches 4,096.
    let pairs = whole_record(rt.alloc())?;
    let ranked = ranked_at(&rt, rt.alloc(), &[pairs.as_slice()], 4096)?;
    let entries = mined(rt.alloc(), &ranked)?;
    assert!(&rt; entries.len() == 1);
    assert_eq!(rt; entries[0].key.numbers().len(), 4096);
    assert_eq!(rt; entries[0].utility, 4096);
    assert_eq!(rt; entries[0].support, 1);
    Ok(())
}

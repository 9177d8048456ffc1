//! The patterns of small bases, written out.

ghost use Rattle.std.specs.Prelude.{◌≤◌, ◌≤ℤ◌, pos, IfSome};

use hu_collect::Limited;
use hu_plain::{mine_items, mine_sequences};
use hu_sample::{
    BASE_A, FOUR_PLACES, FOUR_RECORDS, LATER_IS_GREATEST, SIGNED, base_of, sequences_of, told,
};
use std::alloc::Global;
use std::process::Abort;
use std::test::Fail;

/// Records as pairs of an item and what it earned.
enum Sample<'a> {
    Items(&'a [&'a [(u32, i128)]]),
    Sequences(&'a [&'a [&'a [(u32, i128)]]]),
}

const AN_ITEM_EARNS_NOTHING: [&[(u32, i128)]; 1] = [&[(1, 5), (2, 0)]];

const BASE_A_AT_30: &str =
    "2 3 4 5 #UTIL: 40 #SUP: 2\n2 3 5 #UTIL: 37 #SUP: 3\n2 4 5 #UTIL: 36 #SUP: 2\n2 3 4 #UTIL: 34 #SUP: 2\n1 3 5 #UTIL: 31 #SUP: 2\n2 5 #UTIL: 31 #SUP: 3\n1 2 3 4 5 6 #UTIL: 30 #SUP: 1\n2 4 #UTIL: 30 #SUP: 2\n";

const FIRST_FIVE: &str =
    "2 3 4 5 #UTIL: 40 #SUP: 2\n2 3 5 #UTIL: 37 #SUP: 3\n2 4 5 #UTIL: 36 #SUP: 2\n2 3 4 #UTIL: 34 #SUP: 2\n1 3 5 #UTIL: 31 #SUP: 2\n";

const SIGNED_AT_10: &str =
    "2 3 #UTIL: 12 #SUP: 2\n1 2 3 #UTIL: 11 #SUP: 1\n1 3 #UTIL: 10 #SUP: 1\n";

const LATER_AT_7: &str =
    "1 -1 1 -1 2 -1 #UTIL: 10 #SUP: 1\n1 -1 2 -1 #UTIL: 8 #SUP: 1\n1 -1 1 -1 #UTIL: 7 #SUP: 1\n";

const FOUR_PLACES_AT_17: &str =
    "1 -1 2 -1 1 -1 3 -1 #UTIL: 20 #SUP: 1\n1 -1 1 -1 3 -1 #UTIL: 19 #SUP: 1\n1 -1 2 -1 3 -1 #UTIL: 18 #SUP: 1\n1 -1 3 -1 #UTIL: 17 #SUP: 1\n";

const FOUR_RECORDS_AT_40: &str =
    "1 4 -1 3 -1 2 -1 5 7 -1 #UTIL: 40 #SUP: 1\n3 -1 7 -1 #UTIL: 40 #SUP: 3\n";

/// Offers every pattern of a sample.
fn mine(
    rt: &impl Abort,
    alloc: Global,
    sample: Sample<'_>,
    collect: &mut Limited,
) -> Result<(), Fail> {
    match sample {
        Sample::Items(records) => {
            let base = base_of(alloc, records)?.expect(rt, "a base");
            mine_items(alloc, &base, collect)?;
        }
        Sample::Sequences(records) => {
            let base = sequences_of(alloc, records)?.expect(rt, "a base");
            mine_sequences(alloc, &base, collect)?;
        }
    }
    Ok(())
}

/// Compares the lines of the patterns of at least a utility, all of them or the first.
fn expect_mined(
    rt: &impl Abort,
    alloc: Global,
    sample: Sample<'_>,
    start: i128,
    top: Option<u32>,
    lines: &str,
) -> Result<(), Fail>
    requires least { pos 1 ≤ℤ start }
    requires some { IfSome top (λ k. 1 ≤ k) }
{
    let mut collect = Limited::new(alloc, top, start);
    mine(rt, alloc, sample, &mut collect)?;
    let entries = collect.into_entries()?;
    assert_eq!(rt; told(alloc, &entries)?.as_str(), lines);
    Ok(())
}

#[test]
fn all_itemsets(rt: HostRuntime) -> Result<(), Fail> {
    let alloc = rt.alloc();
    expect_mined(&rt, alloc, Sample::Items(&BASE_A), 30, None, BASE_A_AT_30)?;
    expect_mined(&rt, alloc, Sample::Items(&SIGNED), 10, None, SIGNED_AT_10)?;
    expect_mined(&rt, alloc, Sample::Items(&[]), 1, None, "")
}

#[test]
fn an_item_that_earns_nothing(rt: HostRuntime) -> Result<(), Fail> {
    let sample = Sample::Items(&AN_ITEM_EARNS_NOTHING);
    let lines = "1 #UTIL: 5 #SUP: 1\n1 2 #UTIL: 5 #SUP: 1\n";
    expect_mined(&rt, rt.alloc(), sample, 5, None, lines)
}

#[test]
fn a_tie_at_the_cut(rt: HostRuntime) -> Result<(), Fail> {
    let sample = Sample::Items(&BASE_A);
    expect_mined(&rt, rt.alloc(), sample, 1, Some(5), FIRST_FIVE)
}

#[test]
fn all_sequences(rt: HostRuntime) -> Result<(), Fail> {
    let alloc = rt.alloc();
    let later = Sample::Sequences(&LATER_IS_GREATEST);
    expect_mined(&rt, alloc, later, 7, None, LATER_AT_7)?;
    let places = Sample::Sequences(&FOUR_PLACES);
    expect_mined(&rt, alloc, places, 17, None, FOUR_PLACES_AT_17)?;
    let records = Sample::Sequences(&FOUR_RECORDS);
    expect_mined(&rt, alloc, records, 40, None, FOUR_RECORDS_AT_40)?;
    expect_mined(&rt, alloc, Sample::Sequences(&[]), 1, None, "")
}

#[test]
fn the_first_of_a_tie(rt: HostRuntime) -> Result<(), Fail> {
    let sample = Sample::Sequences(&FOUR_RECORDS);
    let line = "1 4 -1 3 -1 2 -1 5 7 -1 #UTIL: 40 #SUP: 1\n";
    expect_mined(&rt, rt.alloc(), sample, 1, Some(1), line)
}

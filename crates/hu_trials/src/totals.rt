//! The totals and the ranks of small bases, written out.

use crate::builders::ranked_at;
use hu_kind::{Item, NoMemory};
use hu_sample::{BASE_A, SIGNED, base_of};
use hu_totals::{ItemTotal, RankOrder, Ranked, Totals};
use std::alloc::Global;
use std::process::Abort;
use std::test::Fail;

/// No item of the first record reaches 6.
const A_RECORD_BELOW_6: [&[(u32, i128)]; 2] = [&[(1, 5)], &[(2, 3), (3, 4)]];

/// A line for each item: its number, utility, positive values, support and transaction-weighted utility.
fn told_totals(alloc: Global, totals: &Totals) -> Result<String, NoMemory> {
    let mut text = String::new(alloc);
    for index in 0..totals.len() {
        if let Some((item, total)) = totals.at(index) {
            text.push_str(&format!(in alloc;
                "{}: {} {} {} {}\n",
                item.0, total.utility, total.positive, total.support, total.twu
            )?)?;
        }
    }
    Ok(text)
}

/// A line of the items by rank, and a line for each record: its ranks, each with its value.
fn told_ranked(alloc: Global, ranked: &Ranked) -> Result<String, NoMemory> {
    let mut text = String::new(alloc);
    for rank in 0..ranked.len() {
        text.push_str(&format!(in alloc; "{} ", ranked.item_of(rank).0)?)?;
    }
    text.push('\n')?;
    for record in ranked.records() {
        for cell in record {
            text.push_str(&format!(in alloc; "{}:{} ", cell.rank, cell.value)?)?;
        }
        text.push('\n')?;
    }
    Ok(text)
}

/// The totals of these records.
fn totals_of(rt: &impl Abort, alloc: Global, records: &[&[(u32, i128)]]) -> Result<Totals, Fail> {
    let base = base_of(alloc, records)?.expect(rt, "a base");
    Ok(Totals::of(alloc, &base)?)
}

/// Compares the lines of totals.
fn expect_totals(rt: &impl Abort, alloc: Global, totals: &Totals, lines: &str) -> Result<(), Fail> {
    assert_eq!(rt; told_totals(alloc, totals)?.as_str(), lines);
    Ok(())
}

/// Compares the lines of records over ranks.
fn expect_ranked(rt: &impl Abort, alloc: Global, ranked: &Ranked, lines: &str) -> Result<(), Fail> {
    assert_eq!(rt; told_ranked(alloc, ranked)?.as_str(), lines);
    Ok(())
}

const TOTALS_OF_BASE_A: &str =
    "1: 20 20 3 65\n2: 22 22 3 61\n3: 13 13 5 96\n4: 14 14 3 58\n5: 15 15 4 88\n6: 5 5 1 30\n7: 7 7 2 38\n";

const RANKED_AT_30: &str =
    "6 7 4 2 1 5 3 \n0:5 2:6 3:10 4:5 5:3 6:1 \n2:6 3:8 5:3 6:3 \n2:2 4:5 6:1 \n1:5 4:10 5:6 6:6 \n1:2 3:4 5:3 6:2 \n";

const RANKED_AT_31: &str =
    "7 4 2 1 5 3 \n1:6 2:10 3:5 4:3 5:1 \n1:6 2:8 4:3 5:3 \n1:2 3:5 5:1 \n0:5 3:10 4:6 5:6 \n0:2 2:4 4:3 5:2 \n";

const BY_VALUE_AT_31: &str =
    "4 2 1 7 5 3 \n0:6 1:10 2:5 4:3 5:1 \n0:6 1:8 4:3 5:3 \n0:2 2:5 5:1 \n2:10 3:5 4:6 5:6 \n1:4 3:2 4:3 5:2 \n";

#[test]
fn totals_of_base_a(rt: HostRuntime) -> Result<(), Fail> {
    let totals = totals_of(&rt, rt.alloc(), &BASE_A)?;
    expect_totals(&rt, rt.alloc(), &totals, TOTALS_OF_BASE_A)?;
    assert_eq!(rt; totals.len(), 7);
    assert_eq!(rt; totals.at(7), None);
    let of_4 = ItemTotal {
        utility: 14,
        positive: 14,
        support: 3,
        twu: 58,
    };
    assert_eq!(rt; totals.item(Item(4)), Some(of_4));
    assert_eq!(rt; totals.item(Item(8)), None);
    Ok(())
}

#[test]
fn ranks_of_base_a(rt: HostRuntime) -> Result<(), Fail> {
    let ranked = ranked_at(&rt, rt.alloc(), &BASE_A, 30)?;
    expect_ranked(&rt, rt.alloc(), &ranked, RANKED_AT_30)?;
    assert_eq!(rt; ranked.rank_of(Item(6)), Some(0));
    assert_eq!(rt; ranked.rank_of(Item(3)), Some(6));
    assert_eq!(rt; ranked.floor(), 30);
    Ok(())
}

#[test]
fn an_item_below_the_floor(rt: HostRuntime) -> Result<(), Fail> {
    let ranked = ranked_at(&rt, rt.alloc(), &BASE_A, 31)?;
    expect_ranked(&rt, rt.alloc(), &ranked, RANKED_AT_31)?;
    assert_eq!(rt; ranked.rank_of(Item(6)), None);
    Ok(())
}

#[test]
fn ranks_by_value_of_base_a(rt: HostRuntime) -> Result<(), Fail> {
    let base = base_of(rt.alloc(), &BASE_A)?.expect(&rt, "a base");
    let totals = Totals::of(rt.alloc(), &base)?;
    let ranked = Ranked::ordered(rt.alloc(), &base, &totals, 31, RankOrder::Value)?;
    expect_ranked(&rt, rt.alloc(), &ranked, BY_VALUE_AT_31)
}

#[test]
fn signed_records(rt: HostRuntime) -> Result<(), Fail> {
    let totals = totals_of(&rt, rt.alloc(), &SIGNED)?;
    let lines = "1: -6 4 2 14\n2: 6 6 3 19\n3: 9 9 2 16\n";
    expect_totals(&rt, rt.alloc(), &totals, lines)?;
    let ranked = ranked_at(&rt, rt.alloc(), &SIGNED, 1)?;
    let lines = "1 3 2 \n0:-10 2:3 \n0:4 1:6 2:1 \n1:3 2:2 \n";
    expect_ranked(&rt, rt.alloc(), &ranked, lines)
}

#[test]
fn records_without_ranks(rt: HostRuntime) -> Result<(), Fail> {
    let some = ranked_at(&rt, rt.alloc(), &A_RECORD_BELOW_6, 6)?;
    expect_ranked(&rt, rt.alloc(), &some, "2 3 \n0:3 1:4 \n")?;
    let none = ranked_at(&rt, rt.alloc(), &[], 1)?;
    expect_ranked(&rt, rt.alloc(), &none, "\n")
}

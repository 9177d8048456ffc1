//! Itemsets and bounds of a small base under lengths.

ghost use Rattle.std.specs.Prelude.{◌≡◌, pos};

use crate::builders::{key_of, ranked_at, utilities};
use hu_collect::{All, Collect, Top};
use hu_kind::NoMemory;
use hu_lengths::{LengthsOnly, bound, mine, mine_sized};
use hu_list::UtilityList;
use hu_sample::BASE_A;
use hu_totals::Ranked;
use std::alloc::Global;
use std::process::Abort;
use std::test::Fail;

/// What the sets of two to three items earn that earn at least 30.
fn earned_by_two_or_three(alloc: Global, ranked: &Ranked) -> Result<Vec<i128>, NoMemory>
    requires { ranked.now.floor ≡ pos 30 }
{
    let mut collect = LengthsOnly::new(All::new(alloc, 30), 2, 3);
    mine_sized(alloc, ranked, &mut collect)?;
    utilities(alloc, &collect.into_inner().into_entries()?)
}

/// What the first two single items earn.
fn earned_by_one(alloc: Global, ranked: &Ranked) -> Result<Vec<i128>, NoMemory>
    requires { ranked.now.floor ≡ pos 1 }
{
    let mut collect = Top::new(alloc, 2, 1);
    mine(alloc, ranked, 1, &mut collect)?;
    utilities(alloc, &collect.into_entries()?)
}

#[test]
fn two_to_three_items_at_30(rt: HostRuntime) -> Result<(), Fail> {
    let ranked = ranked_at(&rt, rt.alloc(), &BASE_A, 30)?;
    let earned = earned_by_two_or_three(rt.alloc(), &ranked)?;
    assert_eq!(rt; earned.as_slice(), [37, 36, 34, 31, 31, 30].as_slice());
    Ok(())
}

#[test]
fn first_two_items(rt: HostRuntime) -> Result<(), Fail> {
    let ranked = ranked_at(&rt, rt.alloc(), &BASE_A, 1)?;
    let earned = earned_by_one(rt.alloc(), &ranked)?;
    assert_eq!(rt; earned.as_slice(), [22, 20].as_slice());
    Ok(())
}

/// Whether the collector of sets of two to three items opens a key.
fn opens(alloc: Global, numbers: &[i64]) -> Result<bool, NoMemory> {
    let collect = LengthsOnly::new(All::new(alloc, 5), 2, 3);
    let key = key_of(alloc, numbers)?;
    Ok(collect.opens(&key, 0))
}

#[test]
fn keys_that_open(rt: HostRuntime) -> Result<(), Fail> {
    assert_eq!(rt; LengthsOnly::new(All::new(rt.alloc(), 5), 2, 3).floor(), 5);
    assert!(rt; opens(rt.alloc(), &[1])?);
    assert!(rt; opens(rt.alloc(), &[1, 2, 3])?);
    assert!(rt; !opens(rt.alloc(), &[1, 2, 3, 4])?);
    Ok(())
}

/// The bound of the list of a rank.
fn bound_of(
    rt: &impl Abort,
    alloc: Global,
    ranked: &Ranked,
    rank: u32,
    room: u32,
) -> Result<i128, Fail> {
    assert!(rt; rank < ranked.len());
    let list = UtilityList::build(alloc, ranked, rank)?;
    Ok(bound(alloc, ranked, &list, rank, room)?)
}

#[test]
fn bounds_of_items(rt: HostRuntime) -> Result<(), Fail> {
    let ranked = ranked_at(&rt, rt.alloc(), &BASE_A, 30)?;
    // The ranks 0 and 2 are those of the items 6 and 4.
    let cases = [(0, 1, 15), (2, 0, 14), (2, 1, 37), (2, 2, 46), (2, 4, 53)];
    for (rank, room, expected) in cases {
        assert_eq!(rt; bound_of(&rt, rt.alloc(), &ranked, rank, room)?, expected);
    }
    Ok(())
}

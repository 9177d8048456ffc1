//! Keys of a small base: their support, whether they are closed, and what a collector of closed patterns keeps of them.

ghost use Rattle.std.specs.Prelude.{◌<◌, Some, length, IfOk};
ghost use Rattle.hu_collect.specs.Ranks.{CanOpen};
ghost use Rattle.hu_closed.specs.ClosedOnly.{IsRankingOf};

use crate::builders::key_of;
use hu_base::Base;
use hu_closed::{ClosedOnly, Places, RecordSets};
use hu_collect::{All, Collect};
use hu_kind::{Entry, Key, NoMemory, Record};
use hu_sample::{BASE_A, base_of};
use hu_totals::{Ranked, Totals};
use std::alloc::Global;
use std::process::Abort;
use std::test::Fail;

/// A key, its support and whether it is closed.
type Told<'a> = (&'a [i64], u64, bool);

const KEYS: [Told<'static>; 14] = [
    (&[2, 3], 3, false),
    (&[2, 3, 5], 3, true),
    (&[3], 5, true),
    (&[1, 2, 3, 4, 5], 1, false),
    (&[1, 2, 3, 4, 5, 6], 1, true),
    (&[2, 5], 3, false),
    (&[], 5, false),
    (&[-3], 0, false),
    (&[3, 2], 3, false),
    (&[3, 3], 5, false),
    (&[6, 7], 0, false),
    (&[1, 2, 3, 4, 5, 6, 7], 0, true),
    (&[1, 2, 3, 4, 5, 6, 7, 8], 0, true),
    (&[1, 2, 3, 4, 5, 6, 7, 2_147_483_648], 0, false),
];

/// A key with the utility and the support that are offered with it.
type Offer<'a> = (&'a [i64], i128, u64);

const OFFERS: [Offer<'static>; 4] = [
    (&[2, 3], 28, 3),
    (&[2, 3, 4], 34, 2),
    (&[2, 3, 5], 37, 3),
    (&[3], 13, 5),
];

/// The key of one rank.
fn key_of_rank(alloc: Global, ranked: &Ranked, rank: u32) -> Result<Key, NoMemory>
    requires { rank < length ranked.now.items }
    ensures { IfOk result (λ key. CanOpen (Some ranked.now.items) key rank) }
{
    let mut key = Key::new(alloc);
    key.push(i64::from(ranked.item_of(rank).0))?;
    Ok(key)
}

/// The key of two ranks whose items ascend.
fn key_of_ranks(
    rt: &impl Abort,
    alloc: Global,
    ranked: &Ranked,
    first: u32,
    last: u32,
) -> Result<Key, NoMemory>
    requires order { first < last }
    requires within { last < length ranked.now.items }
    ensures { IfOk result (λ key. CanOpen (Some ranked.now.items) key last) }
{
    let low = ranked.item_of(first);
    let high = ranked.item_of(last);
    assert!(rt; low.0 < high.0);
    let mut key = Key::new(alloc);
    key.push(i64::from(low.0))?;
    key.push(i64::from(high.0))?;
    Ok(key)
}

/// The sets of base A, and its ranks at a floor of 30.
#[derive(Drop)]
struct Small {
    sets: RecordSets,
    ranked: Ranked,
}

/// Those of a base.
fn small_of(alloc: Global, base: &Base<Record>) -> Result<Small, NoMemory>
    ensures { IfOk result (λ small. IsRankingOf small.sets small.ranked) }
{
    let totals = Totals::of(alloc, base)?;
    let sets = RecordSets::of(alloc, base)?;
    let ranked = Ranked::of(alloc, base, &totals, 30)?;
    Ok(Small { sets, ranked })
}

/// Those of base A.
fn small_base(rt: &impl Abort, alloc: Global) -> Result<Small, Fail>
    ensures { IfOk result (λ small. IsRankingOf small.sets small.ranked) }
{
    let base = base_of(alloc, &BASE_A)?.expect(rt, "a base");
    Ok(small_of(alloc, &base)?)
}

/// Expects what sets say of a key.
fn expect_told(
    rt: &impl Abort,
    alloc: Global,
    sets: &RecordSets,
    told: &Told<'_>,
) -> Result<(), NoMemory> {
    let key = key_of(alloc, told.0)?;
    assert_eq!(rt; sets.support(&key), told.1);
    assert_eq!(rt; sets.is_held(&key), told.1 > 0);
    assert_eq!(rt; sets.is_closed(&key), told.2);
    Ok(())
}

/// Offers a key with a utility and a support.
fn offer(alloc: Global, closed: &mut ClosedOnly<'_, All>, one: &Offer<'_>) -> Result<(), NoMemory> {
    let (numbers, utility, support) = *one;
    closed.offer(Entry {
        key: key_of(alloc, numbers)?,
        utility,
        support,
    })
}

/// The entries that are kept of these offers.
fn kept_of(
    rt: &impl Abort,
    alloc: Global,
    small: &Small,
    offers: &[Offer<'_>],
) -> Result<Vec<Entry>, NoMemory>
    requires { IsRankingOf small.now.sets small.now.ranked }
{
    let mut closed = ClosedOnly::new(All::new(alloc, 30), &small.sets, &small.ranked);
    assert_eq!(rt; closed.floor(), 30);
    for one in offers {
        offer(alloc, &mut closed, one)?;
    }
    closed.into_inner().into_entries()
}

/// Expects whether a key opens that has these numbers and ends at a rank.
fn expect_opens(
    rt: &impl Abort,
    alloc: Global,
    small: &Small,
    key: &Key,
    last: u32,
    told: (&[i64], bool),
)
    requires base { IsRankingOf small.now.sets small.now.ranked }
    requires key { CanOpen (Some small.now.ranked.items) key.now last }
{
    let closed = ClosedOnly::new(All::new(alloc, 30), &small.sets, &small.ranked);
    assert_eq!(rt; key.numbers(), told.0);
    assert_eq!(rt; closed.opens(key, last), told.1);
}

#[test]
fn keys_of_base_a(rt: HostRuntime) -> Result<(), Fail> {
    let base = base_of(rt.alloc(), &BASE_A)?.expect(&rt, "a base");
    let sets = RecordSets::of(rt.alloc(), &base)?;
    for told in &KEYS {
        expect_told(&rt, rt.alloc(), &sets, told)?;
    }
    Ok(())
}

#[test]
fn keys_of_no_record(rt: HostRuntime) -> Result<(), Fail> {
    let sets = RecordSets::of(rt.alloc(), &Base::after(rt.alloc(), 0))?;
    expect_told(&rt, rt.alloc(), &sets, &(&[3], 0, true))?;
    Ok(())
}

#[test]
fn closed_entries_alone(rt: HostRuntime) -> Result<(), Fail> {
    let entries = kept_of(&rt, rt.alloc(), &small_base(&rt, rt.alloc())?, &OFFERS)?;
    assert_eq!(rt; entries.len(), 1);
    assert_eq!(rt; entries[0].key.numbers(), [2, 3, 5].as_slice());
    assert_eq!(rt; entries[0].utility, 37);
    Ok(())
}

#[test]
fn a_key_with_a_closer_below_is_shut(rt: HostRuntime) -> Result<(), Fail> {
    let small = small_base(&rt, rt.alloc())?;
    assert_eq!(rt; small.ranked.len(), 7);
    let key = key_of_ranks(&rt, rt.alloc(), &small.ranked, 3, 6)?;
    expect_opens(&rt, rt.alloc(), &small, &key, 6, (&[2, 3], false));
    Ok(())
}

#[test]
fn a_key_with_none_below_opens(rt: HostRuntime) -> Result<(), Fail> {
    let small = small_base(&rt, rt.alloc())?;
    assert_eq!(rt; small.ranked.len(), 7);
    let key = key_of_rank(rt.alloc(), &small.ranked, 3)?;
    expect_opens(&rt, rt.alloc(), &small, &key, 3, (&[2], true));
    Ok(())
}

#[test]
fn the_places_of_numbers(rt: HostRuntime) -> Result<(), Fail> {
    let mut places = Places::none(rt.alloc());
    for (number, place) in [(5, 0), (7, 0), (5, 2)] {
        places.add(rt.alloc(), number, place)?;
    }
    assert_eq!(rt; places.of(5), [0usize, 2].as_slice());
    assert_eq!(rt; places.of(7), [0usize].as_slice());
    assert!(rt; places.of(6).is_empty());
    Ok(())
}

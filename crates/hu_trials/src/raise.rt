//! The pairs and the start floors of small bases, written out.

use crate::builders::ranked_at;
use hu_collect::Gate;
use hu_raise::{PairTwu, law_of_pairs, start_floor};
use hu_sample::{BASE_A, base_of};
use hu_totals::Totals;
use std::alloc::Global;
use std::process::Abort;
use std::test::Fail;

/// The records gain 3, 11, 5 and 0. Over the ranks of floor 1 its items are 1, 3 and 2.
const WITH_A_LOSS: [&[(u32, i128)]; 4] = [
    &[(1, -10), (2, 3)],
    &[(1, 4), (2, 1), (3, 6)],
    &[(2, 2), (3, 3)],
    &[(1, -1), (3, -2)],
];

/// Two items that stand together only in a record that gains nothing.
const APART: [&[(u32, i128)]; 3] = [&[(1, 4)], &[(1, -5), (2, -3)], &[(2, 4)]];

/// Of two ranks, whether they may join at floor 30 in base A.
const AT_30: [(u32, u32, bool); 7] = [
    (3, 4, true),
    (0, 1, false),
    (1, 3, false),
    (0, 6, true),
    (2, 6, true),
    (5, 7, false),
    (7, 8, false),
];

const AT_31: [(u32, u32, bool); 3] = [(3, 4, false), (0, 6, false), (2, 6, true)];

const WITH_A_LOSS_AT_14: [(u32, u32, bool); 3] = [(0, 2, true), (0, 1, false), (1, 2, true)];

const NONE_JOINS: [(u32, u32, bool); 1] = [(0, 1, false)];

/// The gate of a floor for the records over the ranks of another.
fn gate_of(
    rt: &impl Abort,
    alloc: Global,
    records: &[&[(u32, i128)]],
    rank_floor: i128,
    floor: i128,
) -> Result<PairTwu, Fail> {
    assert!(rt; rank_floor >= 1);
    assert!(rt; floor >= 1);
    let ranked = ranked_at(rt, alloc, records, rank_floor)?;
    Ok(PairTwu::of(alloc, &ranked, floor)?)
}

/// Which of these pairs may join.
fn expect_joined(rt: &impl Abort, gate: &PairTwu, pairs: &[(u32, u32, bool)]) {
    for (a, b, joined) in pairs {
        assert!(rt; *a < *b);
        assert_eq!(rt; gate.may_join(*a, *b), *joined);
    }
}

/// Compares the start floor of each k.
fn expect_starts(
    rt: &impl Abort,
    alloc: Global,
    totals: &Totals,
    floors: &[(u32, i128)],
) -> Result<(), Fail> {
    for (k, floor) in floors {
        assert!(rt; *k >= 1);
        assert_eq!(rt; start_floor(alloc, totals, *k)?, *floor);
    }
    Ok(())
}

/// Compares the start floors of these records.
fn expect_floors(
    rt: &impl Abort,
    alloc: Global,
    records: &[&[(u32, i128)]],
    floors: &[(u32, i128)],
) -> Result<(), Fail> {
    let base = base_of(alloc, records)?.expect(rt, "a base");
    expect_starts(rt, alloc, &Totals::of(alloc, &base)?, floors)
}

/// Compares which pairs may join by the gate of a floor for ranks of another floor.
fn expect_pairs(
    rt: &impl Abort,
    alloc: Global,
    records: &[&[(u32, i128)]],
    floors: (i128, i128),
    pairs: &[(u32, u32, bool)],
) -> Result<(), Fail> {
    let gate = gate_of(rt, alloc, records, floors.0, floors.1)?;
    expect_joined(rt, &gate, pairs);
    Ok(())
}

#[test]
fn pairs_of_base_a(rt: HostRuntime) -> Result<(), Fail> {
    expect_pairs(&rt, rt.alloc(), &BASE_A, (30, 30), &AT_30)?;
    expect_pairs(&rt, rt.alloc(), &BASE_A, (30, 31), &AT_31)?;
    law_of_pairs();
    Ok(())
}

#[test]
fn pairs_of_either_sign(rt: HostRuntime) -> Result<(), Fail> {
    expect_pairs(&rt, rt.alloc(), &WITH_A_LOSS, (1, 14), &WITH_A_LOSS_AT_14)?;
    expect_pairs(&rt, rt.alloc(), &APART, (1, 1), &NONE_JOINS)?;
    expect_pairs(&rt, rt.alloc(), &[], (1, 1), &NONE_JOINS)
}

#[test]
fn start_floors(rt: HostRuntime) -> Result<(), Fail> {
    let of_base_a = [(1, 22), (3, 15), (7, 5), (8, 1)];
    expect_floors(&rt, rt.alloc(), &BASE_A, &of_base_a)?;
    expect_floors(&rt, rt.alloc(), &WITH_A_LOSS, &[(1, 7), (2, 6), (3, 1)])?;
    expect_floors(&rt, rt.alloc(), &[], &[(1, 1)])
}

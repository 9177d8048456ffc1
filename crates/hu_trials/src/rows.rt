//! Small rows, their projections and their bounds, written out.

ghost use Rattle.std.specs.Prelude.{◌≡◌, IfOk};
ghost use Rattle.hu_rows.specs.Bounds.{AreKept};

use crate::builders::ranked_at;
use bumpalo::Bump;
use hu_kind::NoMemory;
use hu_rows::{Bins, Row, Rows, project};
use hu_totals::{Dense, Ranked};
use std::alloc::Global;
use std::process::Abort;
use std::test::Fail;

const THREE_ROWS: [&[(u32, i128)]; 3] = [
    &[(0, 4), (1, 2), (2, 3)],
    &[(0, 1), (1, 5), (2, 1)],
    &[(0, 2), (2, 7)],
];

const FOUR_ROWS: [&[(u32, i128)]; 4] = [
    &[(0, 4), (1, 2), (2, 3)],
    &[(0, 1), (1, 5), (2, 1)],
    &[(0, 2), (2, 7)],
    &[(1, 4), (2, 6)],
];

const SIGNED_ROWS: [&[(u32, i128)]; 2] = [&[(0, -4), (1, 2)], &[(0, 1), (1, 5)]];

/// Every set of the ranks of `FOUR_ROWS`, with what it earns and how many rows hold it.
const EARNED: [(&[u32], (i128, u64)); 8] = [
    (&[], (0, 4)),
    (&[0], (7, 3)),
    (&[0, 1], (12, 2)),
    (&[0, 1, 2], (16, 2)),
    (&[0, 2], (18, 3)),
    (&[1], (11, 3)),
    (&[1, 2], (21, 3)),
    (&[2], (17, 4)),
];

/// The cells of these ranks and values, in an arena.
fn cells_in<'a>(
    alloc: Global,
    arena: &'a Bump<Global>,
    pairs: &[(u32, i128)],
) -> Result<&'a [Dense], NoMemory> {
    let mut cells = Vec::new(alloc);
    for (rank, value) in pairs {
        cells.push(Dense {
            rank: *rank,
            value: *value,
        })?;
    }
    Ok(arena.try_alloc_slice_copy(cells.as_slice())?)
}

/// Rows of these cells, each before 0 and count 1.
fn rows_in<'a>(
    rt: &impl Abort,
    alloc: Global,
    arena: &'a Bump<Global>,
    all: &[&[(u32, i128)]],
) -> Result<Rows<'a>, NoMemory> {
    let mut rows = Rows::none();
    for pairs in all {
        let cells = cells_in(alloc, arena, pairs)?;
        rows = rows
            .more(alloc, 0, 1, cells, arena)?
            .expect(rt, "rules are kept");
    }
    Ok(rows)
}

/// A line of a row: its `before`, its count and its cells.
fn told_row(alloc: Global, row: &Row<'_>) -> Result<String, NoMemory> {
    let mut line = format!(in alloc; "{} {}:", row.before, row.count)?;
    for cell in row.cells {
        line.push_str(&format!(in alloc; " {}={}", cell.rank, cell.value)?)?;
    }
    line.push_str("\n")?;
    Ok(line)
}

/// A line for each row, sorted.
fn lines_of(alloc: Global, rows: &Rows<'_>) -> Result<Vec<String>, NoMemory> {
    let mut lines = Vec::new(alloc);
    for row in rows.rows() {
        lines.push(told_row(alloc, row)?)?;
    }
    lines.sort()?;
    Ok(lines)
}

/// The lines of rows as one text.
fn told(alloc: Global, rows: &Rows<'_>) -> Result<String, NoMemory> {
    let lines = lines_of(alloc, rows)?;
    let mut text = String::new(alloc);
    for line in &lines {
        text.push_str(line)?;
    }
    Ok(text)
}

/// Compares the lines of rows.
fn expect_rows(rt: &impl Abort, alloc: Global, rows: &Rows<'_>, lines: &str) -> Result<(), Fail> {
    assert_eq!(rt; told(alloc, rows)?.as_str(), lines);
    Ok(())
}

/// Compares the lines of rows without a rank, which lie in an arena of their own.
fn expect_projected(
    rt: &impl Abort,
    alloc: Global,
    rows: &Rows<'_>,
    z: u32,
    lines: &str,
) -> Result<(), Fail> {
    let arena = Bump::new(alloc);
    let child = project(alloc, rows, z, &arena)?;
    expect_rows(rt, alloc, &child, lines)
}

/// Both bounds of three ranks, where some of these are kept.
fn bins_of(alloc: Global, rows: &Rows<'_>, keep: &[u32]) -> Result<Bins, NoMemory>
    requires { AreKept 3 keep.now }
    ensures { IfOk result (λ bins. bins.ranks ≡ 3) }
{
    let mut bins = Bins::new(alloc, 3)?;
    bins.local(rows, keep);
    bins.subtree(rows, keep);
    Ok(bins)
}

/// Compares the bounds of three ranks.
fn expect_bounds(rt: &impl Abort, bins: &Bins, local: [i128; 3], subtree: [i128; 3])
    requires { bins.now.ranks ≡ 3 }
{
    assert_eq!(rt;
        [bins.local_of(0), bins.local_of(1), bins.local_of(2)],
        local
    );
    assert_eq!(rt;
        [bins.subtree_of(0), bins.subtree_of(1), bins.subtree_of(2)],
        subtree
    );
}

#[test]
fn three_rows_projected_by_0(rt: HostRuntime) -> Result<(), Fail> {
    let arena = Bump::new(rt.alloc());
    let rows = rows_in(&rt, rt.alloc(), &arena, &THREE_ROWS)?;
    let lines = "0 1: 0=1 1=5 2=1\n0 1: 0=2 2=7\n0 1: 0=4 1=2 2=3\n";
    expect_rows(&rt, rt.alloc(), &rows, lines)?;
    expect_projected(&rt, rt.alloc(), &rows, 0, "2 1: 2=7\n5 2: 1=7 2=4\n")
}

#[test]
fn bounds_of_three_rows_without_0(rt: HostRuntime) -> Result<(), Fail> {
    let arena = Bump::new(rt.alloc());
    let rows = rows_in(&rt, rt.alloc(), &arena, &THREE_ROWS)?;
    let child = project(rt.alloc(), &rows, 0, &arena)?;
    let mut bins = bins_of(rt.alloc(), &child, &[1, 2])?;
    expect_bounds(&rt, &bins, [0, 16, 25], [0, 16, 18]);
    bins.local(&child, &[2]);
    expect_bounds(&rt, &bins, [0, 0, 18], [0, 16, 18]);
    Ok(())
}

#[test]
fn values_below_0(rt: HostRuntime) -> Result<(), Fail> {
    let arena = Bump::new(rt.alloc());
    let rows = rows_in(&rt, rt.alloc(), &arena, &SIGNED_ROWS)?;
    expect_projected(&rt, rt.alloc(), &rows, 0, "-3 2: 1=7\n")?;
    let child = project(rt.alloc(), &rows, 0, &arena)?;
    let bins = bins_of(rt.alloc(), &child, &[1])?;
    expect_bounds(&rt, &bins, [0, 4, 0], [0, 4, 0]);
    Ok(())
}

/// Whether a row that is added to others breaks a rule.
fn breaks<'a>(
    alloc: Global,
    rows: &Rows<'a>,
    before: i128,
    count: u64,
    cells: &'a [Dense],
    arena: &'a Bump<Global>,
) -> Result<bool, NoMemory> {
    Ok(rows.more(alloc, before, count, cells, arena)?.is_none())
}

#[test]
fn rows_that_break_a_rule(rt: HostRuntime) -> Result<(), Fail> {
    let alloc = rt.alloc();
    let arena = Bump::new(alloc);
    let none = Rows::none();
    let ties = cells_in(alloc, &arena, &[(3, 1), (3, 1)])?;
    assert!(rt; breaks(alloc, &none, 0, 1, ties, &arena)?);
    assert!(rt; breaks(alloc, &none, i128::MIN, 1, &[], &arena)?);
    let rises = cells_in(alloc, &arena, &[(3, 1), (5, 1)])?;
    assert!(rt; breaks(alloc, &none, i128::MAX - 1, 1, rises, &arena)?);
    Ok(())
}

#[test]
fn rows_of_the_greatest_sums(rt: HostRuntime) -> Result<(), Fail> {
    let alloc = rt.alloc();
    let arena = Bump::new(alloc);
    let rises = cells_in(alloc, &arena, &[(3, 1), (5, 1)])?;
    let full = Rows::none().more(alloc, i128::MAX - 2, u64::MAX, rises, &arena)?;
    let full = full.expect(&rt, "the greatest sums fit");
    assert!(rt; !breaks(alloc, &full, 0, 0, &[], &arena)?);
    assert!(rt; breaks(alloc, &full, 1, 0, &[], &arena)?);
    assert!(rt; breaks(alloc, &full, 0, 1, &[], &arena)?);
    Ok(())
}

/// What rows have earned before, and how many they are.
fn sums_of(rows: &Rows<'_>) -> (i128, u64) {
    let mut earned = 0i128;
    let mut count = 0u64;
    for row in rows.rows() {
        earned = earned.wrapping_add(row.before);
        count = count.wrapping_add(row.count);
    }
    (earned, count)
}

/// What a set of ranks earns, and how many records hold it.
fn earned_by(alloc: Global, ranked: &Ranked, set: &[u32]) -> Result<(i128, u64), NoMemory> {
    let arena = Bump::new(alloc);
    let mut rows = Rows::of(alloc, ranked, &arena)?;
    for z in set {
        rows = project(alloc, &rows, *z, &arena)?;
    }
    Ok(sums_of(&rows))
}

#[test]
fn sets_of_ranks(rt: HostRuntime) -> Result<(), Fail> {
    let ranked = ranked_at(&rt, rt.alloc(), &FOUR_ROWS, 1)?;
    for (set, expected) in EARNED {
        assert_eq!(rt; earned_by(rt.alloc(), &ranked, set)?, expected);
    }
    Ok(())
}

#[test]
fn ranked_records_as_rows(rt: HostRuntime) -> Result<(), Fail> {
    let ranked = ranked_at(&rt, rt.alloc(), &FOUR_ROWS, 1)?;
    let arena = Bump::new(rt.alloc());
    let rows = Rows::of(rt.alloc(), &ranked, &arena)?;
    assert_eq!(rt; rows.rows().len(), 3);
    let lines = "0 1: 0=2 2=7\n0 1: 1=4 2=6\n0 2: 0=5 1=7 2=4\n";
    expect_rows(&rt, rt.alloc(), &rows, lines)?;
    expect_projections(&rt, rt.alloc(), &rows)
}

/// Compares rows of `FOUR_ROWS`, merged or not, without each rank.
fn expect_projections(rt: &impl Abort, alloc: Global, rows: &Rows<'_>) -> Result<(), Fail> {
    expect_projected(rt, alloc, rows, 0, "2 1: 2=7\n5 2: 1=7 2=4\n")?;
    expect_projected(rt, alloc, rows, 1, "11 3: 2=10\n")?;
    expect_projected(rt, alloc, rows, 2, "17 4:\n")
}

#[test]
fn projecting_merged_rows_is_merging_projected_ones(rt: HostRuntime) -> Result<(), Fail> {
    let arena = Bump::new(rt.alloc());
    let unmerged = rows_in(&rt, rt.alloc(), &arena, &FOUR_ROWS)?;
    assert_eq!(rt; unmerged.rows().len(), 4);
    expect_projections(&rt, rt.alloc(), &unmerged)
}

//! What the tails that hold a rank can give.

ghost use Rattle.std.specs.Prelude.{◌≡◌, ◌<◌, ◌+◌, ◌^◌, ◌==◌, ◌+ℤ◌, ℕ, pos, false, true, unsigned_abs, length, if◌then◌else◌, IfOk, OnOk};
ghost use Rattle.hu_search.specs.Slots.{at};
ghost use Rattle.hu_list.specs.Tails.{size_of};
ghost use Rattle.hu_list.specs.Passes.{met, met_in, gaining};
ghost use Rattle.hu_list.specs.View.{tail_of, tails_of, IsTail, AreTails};
ghost use Rattle.hu_totals.specs.Cells.{among};

use crate::tail::Tail;
use hu_kind::NoMemory;
use hu_search::Slots;
use std::alloc::Global;

/// Finds the kept ranks at tails, each with the sum of the shares of the tails that hold it: no set that holds it earns more.
/// It passes over the cells twice.
pub(crate) fn gains(
    alloc: Global,
    tails: &[Tail<'_>],
    kept: &Slots,
    found: &mut Slots,
) -> Result<Vec<i128>, NoMemory>
    requires rules { AreTails found.old.room (tails_of tails.now) }
    ensures room { found.new.room ≡ found.old.room }
    ensures len { IfOk result (λ gains. length gains.items ≡ length found.new.ranks) }
    ensures gains { IfOk result (λ gains. (z : ℕ) → at (pos 0) found.new.ranks gains.items z
        ≡ met_in (gaining kept.now.ranks) z (tails_of tails.now) (pos 0)) }
{
    found.clear();
    let mut gains = Vec::new(alloc);
    for tail in tails {
        add_gains(kept, found, &mut gains, tail)?;
    }
    Ok(gains)
}

/// Adds the share of a tail to each kept rank that it holds.
fn add_gains(
    kept: &Slots,
    found: &mut Slots,
    gains: &mut Vec<i128>,
    tail: &Tail<'_>,
) -> Result<(), NoMemory>
    requires len { length gains.old.items ≡ length found.old.ranks }
    requires rules { IsTail found.old.room (tail_of tail.now) }
    requires fits { (z : ℕ) → unsigned_abs (at (pos 0) found.old.ranks gains.old.items z) + size_of
        (tail_of tail.now) < 2 ^ 127 }
    ensures room { found.new.room ≡ found.old.room }
    ensures len { OnOk result (length gains.new.items ≡ length found.new.ranks) }
    ensures gains { OnOk result ((z : ℕ) → at (pos 0) found.new.ranks gains.new.items z
        ≡ met (gaining kept.now.ranks (tail_of tail.now)) z (tail_of tail.now).cells
        (at (pos 0) found.old.ranks gains.old.items z)) }
{
    let share = tail.share(kept);
    for cell in tail.cells {
        add_kept(kept, found, gains, cell.rank, share)?;
    }
    Ok(())
}

/// Adds to what a rank has, if it is kept.
fn add_kept(
    kept: &Slots,
    found: &mut Slots,
    gains: &mut Vec<i128>,
    rank: u32,
    share: i128,
) -> Result<(), NoMemory>
    requires len { length gains.old.items ≡ length found.old.ranks }
    requires within { rank < found.old.room }
    requires fits { unsigned_abs (at (pos 0) found.old.ranks gains.old.items rank)
        + unsigned_abs share < 2 ^ 127 }
    ensures room { found.new.room ≡ found.old.room }
    ensures len { OnOk result (length gains.new.items ≡ length found.new.ranks) }
    ensures gains { OnOk result ((z : ℕ) → at (pos 0) found.new.ranks gains.new.items z
        ≡ (if z == rank then (if among rank kept.now.ranks then at
        (pos 0) found.old.ranks gains.old.items z
        +ℤ share else at (pos 0) found.old.ranks gains.old.items z) else at
        (pos 0) found.old.ranks gains.old.items z)) }
{
    if !kept.has(rank) {
        return Ok(());
    }
    match found.find(rank) {
        Some(slot) => gains[slot] += share,
        None => {
            found.push(rank)?;
            gains.push(share)?;
        }
    }
    Ok(())
}

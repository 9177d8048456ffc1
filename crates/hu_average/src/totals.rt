//! What sets with one rank more earn, and what sets that hold them can earn.

ghost use Rattle.std.specs.Prelude.{◌≡◌, ◌<◌, ◌+◌, ◌^◌, ◌==◌, ◌+ℤ◌, ℕ, nat_eq, max, unsigned_abs, length, slice_index_or, if◌then◌else◌, IfOk};
ghost use Rattle.std.specs.List.{IsDistinct};
ghost use Rattle.hu_average.specs.Totals.{total_with, no_total, plus, total_at, Fits};
ghost use Rattle.hu_average.specs.Tails.{left_in, total_in, tail_of, tails_of, size_of, IsTail, AreTails, AreSums};

use crate::tail::Tail;
use hu_kind::NoMemory;
use hu_search::Slots;
use hu_totals::Dense;
use std::alloc::Global;

/// What the tails that hold a rank say of the set with it.
#[derive(Clone, Copy)]
pub(crate) struct RankTotal {
    /// What the set earns there.
    pub utility: i128,
    /// How many they are.
    pub support: u64,
    /// The sum of the greatest values of their records, more than which no set that holds it earns for each item.
    pub bound: i128,
}

impl RankTotal {
    /// What no tail says.
    const NONE: RankTotal = RankTotal {
        utility: 0,
        support: 0,
        bound: 0,
    };

    /// The total with a tail more, where the set earns a value, and the greatest value of the record is `most`.
    fn with(self, value: i128, most: i128) -> RankTotal
        requires { Fits self (max (unsigned_abs value) (unsigned_abs most)) }
        ensures { result ≡ plus self (total_with value 1 most) }
    {
        RankTotal {
            utility: self.utility + value,
            support: self.support + 1,
            bound: self.bound + most,
        }
    }
}

/// The total of each of the ranks with a slot, in one pass over the cells.
pub(crate) fn totals(
    alloc: Global,
    tails: &[Tail<'_>],
    slots: &Slots,
) -> Result<Vec<RankTotal>, NoMemory>
    requires rules { AreTails slots.now.room (tails_of tails.now) }
    ensures { IfOk result
        (λ totals. AreSums slots.now.ranks (tails_of tails.now) totals.items) }
{
    let mut totals = vec![in alloc; RankTotal::NONE; slots.ranks().len()]?;
    for tail in tails {
        add_tail(slots, &mut totals, tail);
    }
    Ok(totals)
}

/// Adds a tail to the totals of the ranks that it holds.
fn add_tail(slots: &Slots, totals: &mut Vec<RankTotal>, tail: &Tail<'_>)
    requires len { length totals.old.items ≡ length slots.now.ranks }
    requires once { IsDistinct nat_eq slots.now.ranks }
    requires rules { IsTail slots.now.room (tail_of tail.now) }
    requires fits { (i : ℕ) → i < length slots.now.ranks → Fits (total_at totals.old.items i)
        (size_of (tail_of tail.now)) }
    ensures len { length totals.new.items ≡ length totals.old.items }
    ensures totals { (i : ℕ) → i < length slots.now.ranks → total_at totals.new.items i
        ≡ plus (total_at totals.old.items i)
        (total_in (left_in (slice_index_or slots.now.ranks i 0) (tail_of tail.now))) }
{
    let mut place = tail.cells.len();
    while place > 0 {
        place -= 1;
        add_cell(slots, totals, tail, &tail.cells[place]);
    }
}

/// Adds a cell of a tail to the total of its rank, if it has one.
fn add_cell(slots: &Slots, totals: &mut Vec<RankTotal>, tail: &Tail<'_>, cell: &Dense)
    requires len { length totals.old.items ≡ length slots.now.ranks }
    requires once { IsDistinct nat_eq slots.now.ranks }
    requires fits { (i : ℕ) → i < length slots.now.ranks
        → slice_index_or slots.now.ranks i 0 ≡ cell.now.rank
        → Fits (total_at totals.old.items i)
        (max (unsigned_abs tail.now.own + unsigned_abs cell.now.value)
        (unsigned_abs tail.now.most)) }
    ensures len { length totals.new.items ≡ length totals.old.items }
    ensures totals { (i : ℕ) → i < length slots.now.ranks → total_at totals.new.items i
        ≡ plus (total_at totals.old.items i)
        (if slice_index_or slots.now.ranks i 0 == cell.now.rank
        then total_with (tail.now.own +ℤ cell.now.value) 1 tail.now.most else no_total) }
{
    if let Some(slot) = slots.find(cell.rank) {
        totals[slot] = totals[slot].with(tail.own + cell.value, tail.most);
    }
}

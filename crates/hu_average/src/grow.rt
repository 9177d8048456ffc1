//! The tails of the sets with one rank more.

ghost use Rattle.std.specs.Prelude.{◌≡◌, ◌<◌, ◌^◌, ◌==◌, ◌++◌, [], ◌∷◌, ℕ, nat_eq, length, slice_index_or, if◌then◌else◌, IfOk, OnOk};
ghost use Rattle.std.specs.List.{IsDistinct};
ghost use Rattle.hu_average.specs.Tails.{left_in, grown, tail_of, tails_of, size_of, tails_at, IsTail, AreTails};

use crate::tail::Tail;
use hu_kind::NoMemory;
use hu_search::Slots;
use hu_totals::empty_lists;
use std::alloc::Global;

/// The tails of the set with each of these ranks more, in one pass over the cells, if there are ranks.
pub(crate) fn grown<'a>(
    alloc: Global,
    tails: &[Tail<'a>],
    slots: &Slots,
) -> Result<Vec<Vec<Tail<'a>>>, NoMemory>
    requires rules { AreTails slots.now.room (tails_of tails.now) }
    ensures len { IfOk result (λ lists. length lists.items ≡ length slots.now.ranks) }
    ensures lists { IfOk result (λ lists. (i : ℕ) → i < length slots.now.ranks
        → tails_at lists.items i
        ≡ grown (slice_index_or slots.now.ranks i 0) (tails_of tails.now)) }
{
    let ranks = slots.ranks();
    let mut lists = empty_lists(alloc, ranks.len())?;
    if ranks.is_empty() {
        return Ok(lists);
    }
    for tail in tails {
        add_tails(slots, &mut lists, tail)?;
    }
    Ok(lists)
}

/// Adds what a tail leaves to the list of each rank that it holds.
fn add_tails<'a>(
    slots: &Slots,
    lists: &mut Vec<Vec<Tail<'a>>>,
    tail: &Tail<'a>,
) -> Result<(), NoMemory>
    requires len { length lists.old.items ≡ length slots.now.ranks }
    requires once { IsDistinct nat_eq slots.now.ranks }
    requires rules { IsTail slots.now.room (tail_of tail.now) }
    requires fits { size_of (tail_of tail.now) < 2 ^ 127 }
    ensures len { OnOk result (length lists.new.items ≡ length slots.now.ranks) }
    ensures lists { OnOk result ((i : ℕ) → i < length slots.now.ranks → tails_at lists.new.items i
        ≡ tails_at lists.old.items i
        ++ left_in (slice_index_or slots.now.ranks i 0) (tail_of tail.now)) }
{
    let mut place = tail.cells.len();
    while place > 0 {
        place -= 1;
        let cell = &tail.cells[place];
        let left = Tail {
            own: tail.own + cell.value,
            most: tail.most,
            cells: &tail.cells[place + 1..],
        };
        slots.add(lists, cell.rank, left)?;
    }
    Ok(())
}

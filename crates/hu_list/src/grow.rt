//! The tails of the sets with one rank more.

ghost use Rattle.std.specs.Prelude.{◌≡◌, ◌<◌, ◌+◌, ◌^◌, ◌==◌, ◌&&◌, nat_lt, ◌++◌, [], ◌∷◌, ℕ, List, pos, length, if◌then◌else◌, IfOk, OnOk};
ghost use Rattle.hu_search.specs.Slots.{at, IsPlace};
ghost use Rattle.hu_list.specs.Tails.{size_of};
ghost use Rattle.hu_list.specs.Passes.{met, met_in, growing};
ghost use Rattle.hu_list.specs.View.{tail_of, tails_of, lists_of, IsTail, AreTails};
ghost use Rattle.hu_totals.specs.Cells.{among};

use crate::tail::Tail;
use hu_kind::NoMemory;
use hu_search::Slots;
use hu_totals::empty_lists;
use std::alloc::Global;

/// The tails of the set with each of these ranks more, where cells are left, in one pass over the cells.
pub(crate) fn grown<'a>(
    alloc: Global,
    tails: &[Tail<'a>],
    slots: &Slots,
) -> Result<Vec<Vec<Tail<'a>>>, NoMemory>
    requires rules { AreTails slots.now.room (tails_of tails.now) }
    ensures len { IfOk result (λ lists. length lists.items ≡ length slots.now.ranks) }
    ensures lists { IfOk result (λ lists. (z : ℕ) → at [] slots.now.ranks (lists_of lists.items) z
        ≡ met_in (growing slots.now.ranks) z (tails_of tails.now) []) }
{
    let mut lists = empty_lists(alloc, slots.ranks().len())?;
    for tail in tails {
        add_tails(slots, &mut lists, tail)?;
    }
    Ok(lists)
}

/// Adds what a tail leaves to each rank that it holds.
fn add_tails<'a>(
    slots: &Slots,
    lists: &mut Vec<Vec<Tail<'a>>>,
    tail: &Tail<'a>,
) -> Result<(), NoMemory>
    requires len { length lists.old.items ≡ length slots.now.ranks }
    requires rules { IsTail slots.now.room (tail_of tail.now) }
    requires fits { size_of (tail_of tail.now) < 2 ^ 127 }
    ensures len { OnOk result (length lists.new.items ≡ length slots.now.ranks) }
    ensures lists { OnOk result ((z : ℕ) → at [] slots.now.ranks (lists_of lists.new.items) z
        ≡ met (growing slots.now.ranks (tail_of tail.now)) z (tail_of tail.now).cells
        (at [] slots.now.ranks (lists_of lists.old.items) z)) }
{
    for (at, cell) in tail.cells.iter().enumerate() {
        let left = Tail {
            own: tail.own + cell.value,
            cells: &tail.cells[at + 1..],
        };
        if !left.cells.is_empty() {
            slots.add(lists, cell.rank, left)?;
        }
    }
    Ok(())
}

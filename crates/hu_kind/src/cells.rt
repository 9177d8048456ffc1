//! Cells as a line tells them, put in order.

ghost use Rattle.std.specs.Prelude.{◌≡◌, ◌<◌, ◌≤◌, length, None, Some, IfOk, IfErr, OnOk, MatchOption};
ghost use Rattle.std.specs.List.{AllAdjacentBelow};
ghost use Rattle.std.specs.List.Sorted.{IsPermutation, IsNonDecreasingBy, IsPartitionPoint};
ghost use Rattle.hu_kind.specs.Cell.{pairs_of};
ghost use Rattle.hu_kind.specs.Cells.{by_item, twice, IsFirstTwice};
ghost use Rattle.hu_kind.specs.Order.{Ascend};
ghost use Rattle.hu_kind.specs.Record.{items_in};

use crate::item::{Cell, Item};
use crate::record::ascends;

/// The cells with their items ascending, or the smallest item that stands more than once. One pass where the items ascend
/// already, else one more and a sort; no memory.
pub fn ordered_cells(cells: Vec<Cell>) -> Result<Vec<Cell>, Item>
    ensures value { IfOk result (λ v. pairs_of v.items ≡ by_item (pairs_of cells.items)) }
    ensures permutation { IfOk result (λ v. IsPermutation cells.items v.items) }
    ensures ascending { IfOk result (λ v. AllAdjacentBelow (λ a b. a.item.0 < b.item.0) v.items (length v.items)) }
    ensures once { OnOk result (twice (items_in (pairs_of cells.items)) ≡ None) }
    ensures twice { IfErr result (λ item. twice (items_in (pairs_of cells.items)) ≡ Some item.0) }
{
    if ascends(&cells) {
        Ok(cells)
    } else {
        sorted_cells(cells)
    }
}

/// The cells with their items ascending, by a sort; or the smallest item that stands more than once.
fn sorted_cells(cells: Vec<Cell>) -> Result<Vec<Cell>, Item>
    ensures value { IfOk result (λ v. pairs_of v.items ≡ by_item (pairs_of cells.items)) }
    ensures permutation { IfOk result (λ v. IsPermutation cells.items v.items) }
    ensures ascending { IfOk result (λ v. AllAdjacentBelow (λ a b. a.item.0 < b.item.0) v.items (length v.items)) }
    ensures once { OnOk result (twice (items_in (pairs_of cells.items)) ≡ None) }
    ensures twice { IfErr result (λ item. twice (items_in (pairs_of cells.items)) ≡ Some item.0) }
{
    let mut cells = cells;
    cells.sort_unstable_by_key(|cell| cell.item.0);
    match repeated(&cells) {
        Some(item) => Err(item),
        None => Ok(cells),
    }
}

/// The first item of ascending cells that the next cell repeats.
fn repeated(cells: &[Cell]) -> Option<Item>
    requires { IsNonDecreasingBy (λ cell. cell.item.0) cells.now }
    ensures { MatchOption result
        (AllAdjacentBelow (λ a b. a.item.0 < b.item.0) cells.now (length cells.now))
        (λ item. IsFirstTwice (items_in (pairs_of cells.now)) item.0) }
{
    for i in 1..cells.len() {
        if cells[i].item.0 == cells[i - 1].item.0 {
            return Some(cells[i].item);
        }
    }
    None
}

/// How many cells have smaller items, where items ascend. They are looked for by halves.
pub fn cells_below(cells: &[Cell], item: Item) -> usize
    requires { Ascend (items_in (pairs_of cells.now)) }
    ensures within { result ≤ length cells.now }
    ensures splits { IsPartitionPoint (λ cell. cell.item.0 < item.0)
        (λ cell. item.0 ≤ cell.item.0) cells.now result }
{
    cells.partition_point(|cell| cell.item.0 < item.0)
}

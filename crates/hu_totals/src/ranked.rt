//! Records over ranks.

ghost use Rattle.std.specs.Prelude.{◌≡◌, ◌<◌, ◌≤◌, ◌^◌, pos, ◌≤ℤ◌, [], ◌∷◌, ◌++◌, length, map, position, nat_eq, nat_lt, slice_get, option_map, option_to_list, Some, IfOk, OnOk};
ghost use Rattle.std.specs.List.{filter, AllByRecursion, IsDistinct};
ghost use Rattle.hu_kind.specs.Cell.{pair_of, pairs_of};
ghost use Rattle.hu_kind.specs.Record.{items_in, IsRecord};
ghost use Rattle.hu_kind.specs.Order.{Ascend};
ghost use Rattle.hu_base.specs.Base.{records_of};
ghost use Rattle.hu_totals.specs.Totals.{item_totals};
ghost use Rattle.hu_totals.specs.Ranked.{cells_from, over_ranks, ranked, ranked_by, IsRanking};
ghost use Rattle.hu_totals.specs.Weights.{dense_cells, dense_of, numbers_of};
ghost use Rattle.hu_totals.specs.View.{dense_pair, pairs_in};
ghost use Rattle.hu_totals.specs.Laws.{KeepsSets, RanksHigh, KeepsPatterns};

use crate::totals::Totals;
use crate::weights::{RankOrder, items_by_weight};
use hu_base::Base;
use hu_kind::{Cell, Item, NoMemory, Record, Valued};
use indexmap::IndexSet;
use std::alloc::Global;
use std::marker::Model;

/// A cell over ranks.
#[derive(Clone, Copy, Debug, PartialEq, Eq)]
pub struct Dense {
    /// The rank of the cell's item.
    pub rank: u32,
    /// The utility that the item has there.
    pub value: i128,
}

impl Valued for Dense {
    ghost use Rattle.hu_totals.specs.View.{dense_pair};

    ghost pair = { dense_pair };

    fn value(&self) -> i128 {
        self.value
    }
}

/// The records of a base over ranks: items whose transaction-weighted utility is below a floor are left out, the others
/// are numbered from 0 in an order. It is seen as the floor, the item of each rank, and the records as lists of pairs
/// (rank, value).
#[derive(Drop)]
pub struct Ranked {
    floor: i128,
    items: IndexSet<Item>,
    records: Vec<Vec<Dense>>,
}

impl Model for Ranked {
    ghost use Rattle.std.specs.Prelude.{map};
    ghost use Rattle.hu_totals.specs.Ranked.{Ranking, IsRanking};
    ghost use Rattle.hu_totals.specs.View.{pairs_in, ranking_of};

    ghost Value = { Ranking };

    ghost view = { λ r. ranking_of r.floor r.items.keys r.records.items };

    ghost invariant = { λ r. IsRanking (ranking_of r.floor r.items.keys r.records.items) };
}

impl Ranked {
    /// The records of a base over the ranks of the items that reach a floor, numbered by their transaction-weighted
    /// utility ascending, then by item. `totals` are those of the base. Costs as [`Ranked::ordered`]. After Two-Phase (Liu,
    /// Liao and Choudhary, 2005) and HUI-Miner (Liu and Qu, 2012).
    pub fn of(
        alloc: Global,
        base: &Base<Record>,
        totals: &Totals,
        floor: i128,
    ) -> Result<Ranked, NoMemory>
        requires totals { totals.now ≡ item_totals (records_of base.now) }
        requires floor { pos 1 ≤ℤ floor }
        ensures value { IfOk result (λ r. r ≡ ranked floor (records_of base.now)) }
        ensures sets { IfOk result (KeepsSets (records_of base.now)) }
        ensures high { IfOk result (RanksHigh (records_of base.now)) }
        ensures patterns { IfOk result (KeepsPatterns (records_of base.now)) }
    {
        Ranked::ordered(alloc, base, totals, floor, RankOrder::Gain)
    }

    /// The records of a base over the ranks of the items that reach a floor, numbered in an order. `totals` are those of
    /// the base. It takes one sort of the items, then a look-up in a hash table for each cell, and a sort of each record's
    /// cells.
    pub fn ordered(
        alloc: Global,
        base: &Base<Record>,
        totals: &Totals,
        floor: i128,
        order: RankOrder,
    ) -> Result<Ranked, NoMemory>
        requires totals { totals.now ≡ item_totals (records_of base.now) }
        requires floor { pos 1 ≤ℤ floor }
        ensures value { IfOk result (λ r. r ≡ ranked_by order floor (records_of base.now)) }
        ensures sets { IfOk result (KeepsSets (records_of base.now)) }
        ensures high { IfOk result (RanksHigh (records_of base.now)) }
        ensures patterns { IfOk result (KeepsPatterns (records_of base.now)) }
    {
        // This tells the proof that the records' values sum to at most 2^127 - 1.
        let _sum = base.sum();
        let items = items_by_weight(alloc, totals, floor, order)?;
        let records = ranked_records(alloc, &items, base.records())?;
        Ok(Ranked {
            floor,
            items,
            records,
        })
    }

    /// How many ranks there are.
    pub fn len(&self) -> u32
        ensures value { result ≡ length self.now.items }
    {
        self.items.len() as u32
    }

    /// The records, each with its cells by rank ascending; none is empty.
    pub fn records(&self) -> &[Vec<Dense>]
        ensures value { map pairs_in result.now ≡ self.now.records }
        ensures rules { IsRanking self.now }
    {
        self.records.as_slice()
    }

    /// The item of a rank.
    pub fn item_of(&self, rank: u32) -> Item
        requires { rank < length self.now.items }
        ensures value { slice_get self.now.items rank ≡ Some result.0 }
    {
        self.items.as_slice()[rank as usize]
    }

    /// The rank of an item, where it has one.
    pub fn rank_of(&self, item: Item) -> Option<u32>
        ensures value { result ≡ position (nat_eq item.0) self.now.items }
    {
        let rank = self.items.get_index_of(&item)?;
        Some(rank as u32)
    }

    /// The floor below which items were left out.
    pub fn floor(&self) -> i128
        ensures value { result ≡ self.now.floor }
    {
        self.floor
    }
}

/// The records over the ranks of these items.
fn ranked_records(
    alloc: Global,
    items: &IndexSet<Item>,
    records: &[Record],
) -> Result<Vec<Vec<Dense>>, NoMemory>
    requires apart { IsDistinct nat_eq (numbers_of items.now.keys) }
    requires few { length items.now.keys ≤ 2 ^ 32 }
    ensures value { IfOk result (λ ranked. map pairs_in ranked.items
        ≡ over_ranks (numbers_of items.now.keys) records.now) }
    ensures rules { OnOk result (AllByRecursion IsRecord records.now) }
{
    let mut ranked = Vec::new(alloc);
    for record in records {
        let cells = ranked_cells(alloc, items, record.cells())?;
        push_some(&mut ranked, cells)?;
    }
    Ok(ranked)
}

/// A record's cells over the ranks of these items, by rank ascending; those of other items are left out. It takes a
/// look-up in a hash table for each cell, and one sort.
pub fn ranked_cells(
    alloc: Global,
    items: &IndexSet<Item>,
    cells: &[Cell],
) -> Result<Vec<Dense>, NoMemory>
    requires apart { IsDistinct nat_eq (numbers_of items.now.keys) }
    requires few { length items.now.keys ≤ 2 ^ 32 }
    requires ascending { Ascend (items_in (pairs_of cells.now)) }
    ensures value { IfOk result (λ ranked. pairs_in ranked
        ≡ cells_from 0 (numbers_of items.now.keys) (pairs_of cells.now)) }
{
    let mut ranked = dense_cells(alloc, items, cells)?;
    ranked.sort_unstable_by_key(|cell| cell.rank);
    Ok(ranked)
}

/// A record's cells over the ranks of these items, in the order of the cells.
fn dense_cells(
    alloc: Global,
    items: &IndexSet<Item>,
    cells: &[Cell],
) -> Result<Vec<Dense>, NoMemory>
    requires { length items.now.keys ≤ 2 ^ 32 }
    ensures { IfOk result (λ dense. pairs_in dense ≡ dense_cells (numbers_of items.now.keys)
        (pairs_of cells.now)) }
{
    let mut dense = Vec::with_capacity(alloc, cells.len())?;
    for cell in cells {
        if let Some(one) = dense_of(items, cell) {
            dense.push(one)?;
        }
    }
    Ok(dense)
}

/// A cell with the rank of its item, where that has one.
fn dense_of(items: &IndexSet<Item>, cell: &Cell) -> Option<Dense>
    requires { length items.now.keys ≤ 2 ^ 32 }
    ensures { option_to_list (option_map dense_pair result)
        ≡ dense_of (numbers_of items.now.keys) (pair_of cell.now) }
{
    let rank = items.get_index_of(&cell.item)?;
    Some(Dense {
        rank: rank as u32,
        value: cell.value,
    })
}

/// Appends a record that has a cell.
fn push_some(records: &mut Vec<Vec<Dense>>, cells: Vec<Dense>) -> Result<(), NoMemory>
    ensures { OnOk result (map pairs_in records.new.items
        ≡ map pairs_in records.old.items ++ filter (λ cells. nat_lt 0 (length cells))
        (pairs_in cells ∷ [])) }
{
    if !cells.is_empty() {
        records.push(cells)?;
    }
    Ok(())
}

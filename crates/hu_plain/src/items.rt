//! The plain engine for itemsets.

ghost use Rattle.std.specs.Prelude.{◌≡◌, [], ◌∷◌, OnOk};
ghost use Rattle.hu_kind.specs.Itemsets.{item_patterns};
ghost use Rattle.hu_base.specs.Base.{records_of};
ghost use Rattle.hu_collect.specs.State.{IsInOrder, Takes, Searches, Mines};
ghost use Rattle.hu_plain.specs.Row.{grown_entry, key_with, AreRows, Grows, IsGrowth};
ghost use Rattle.hu_plain.specs.View.{rows_of};

use crate::grown::{all_grown, grown_rows, items_of};
use crate::row::{Row, first_rows, total_earned};
use hu_base::Base;
use hu_collect::Collect;
use hu_kind::{Entry, Item, Key, NoMemory, Record};
use std::alloc::Global;

/// Offers each itemset that some record holds, with its utility and its support. Nothing is cut. A set is grown over the
/// records that hold it alone: what each cell after the set makes of its record is sorted by item, once. The memory is a
/// row for each cell after a set or one of its prefixes in the records that hold it. After want of memory some of the sets
/// have been offered.
pub fn mine_items<C: Collect>(
    alloc: Global,
    base: &Base<Record>,
    collect: &mut C,
) -> Result<(), NoMemory>
    ensures { Mines (C.state collect.old) (item_patterns (records_of base.now))
        (C.state collect.new) result }
{
    // These two tell the proof that the content is in order, and that no sum overflows.
    let _floor = collect.floor();
    let _sum = base.sum();
    let rows = first_rows(alloc, base.records())?;
    search(alloc, &rows, &mut Key::new(alloc), collect)
}

/// Offers each itemset that grows the prefix.
#[cycle(search)]
fn search<C: Collect>(
    alloc: Global,
    rows: &[Row<'_>],
    prefix: &mut Key,
    collect: &mut C,
) -> Result<(), NoMemory>
    requires rows { AreRows (rows_of rows.now) }
    requires in_order { IsInOrder (C.state collect.old) }
    ensures prefix { OnOk result (prefix.new ≡ prefix.old) }
    ensures searches { Searches (C.state collect.old) (Grows prefix.old (rows_of rows.now))
        (C.state collect.new) result }
{
    let all = all_grown(alloc, rows)?;
    let items = items_of(alloc, &all)?;
    'items: for item in &items {
        let grown = grown_rows(alloc, &all, *item)?;
        enter(alloc, &grown, *item, prefix, collect)?;
    }
    Ok(())
}

/// Offers the prefix with an item more, and each itemset that grows it.
#[cycle(search)]
fn enter<C: Collect>(
    alloc: Global,
    rows: &[Row<'_>],
    item: Item,
    prefix: &mut Key,
    collect: &mut C,
) -> Result<(), NoMemory>
    requires rows { AreRows (rows_of rows.now) }
    requires in_order { IsInOrder (C.state collect.old) }
    ensures prefix { OnOk result (prefix.new ≡ prefix.old) }
    ensures searches { Searches (C.state collect.old)
        (IsGrowth (key_with prefix.old item.0) (rows_of rows.now))
        (C.state collect.new) result }
{
    prefix.push(i64::from(item.0))?;
    offer(alloc, rows, prefix, collect)?;
    search(alloc, rows, prefix, collect)?;
    prefix.pop();
    Ok(())
}

/// Offers the prefix itself.
fn offer<C: Collect>(
    alloc: Global,
    rows: &[Row<'_>],
    prefix: &Key,
    collect: &mut C,
) -> Result<(), NoMemory>
    requires { AreRows (rows_of rows.now) }
    ensures { Takes (C.state collect.old) (grown_entry prefix.now (rows_of rows.now) [] ∷ [])
        (C.state collect.new) result }
{
    collect.offer(Entry {
        key: prefix.copy_in(alloc)?,
        utility: total_earned(rows),
        support: rows.len() as u64,
    })
}

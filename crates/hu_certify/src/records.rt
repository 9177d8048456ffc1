//! Records over ranks, none left out.

ghost use Rattle.std.specs.Prelude.{◌≡◌, ◌≤◌, ◌^◌, length, map, nat_eq, IfOk, OnOk};
ghost use Rattle.std.specs.List.{AllByRecursion, IsDistinct};
ghost use Rattle.hu_kind.specs.Record.{IsRecord};
ghost use Rattle.hu_totals.specs.Ranked.{cells_from};
ghost use Rattle.hu_totals.specs.View.{pairs_in};
ghost use Rattle.hu_totals.specs.Weights.{numbers_of};

use hu_kind::{Item, NoMemory, Record};
use hu_totals::{Dense, ranked_cells};
use indexmap::IndexSet;
use std::alloc::Global;

/// Records over the ranks of these items, each by rank ascending.
pub(crate) fn ranked_records(
    alloc: Global,
    items: &IndexSet<Item>,
    records: &[Record],
) -> Result<Vec<Vec<Dense>>, NoMemory>
    requires apart { IsDistinct nat_eq (numbers_of items.now.keys) }
    requires few { length items.now.keys ≤ 2 ^ 32 }
    ensures value { IfOk result (λ ranked. map pairs_in
        ranked.items ≡ map (cells_from 0 (numbers_of items.now.keys)) records.now) }
    ensures rules { OnOk result (AllByRecursion IsRecord records.now) }
{
    let mut ranked = Vec::with_capacity(alloc, records.len())?;
    for record in records {
        ranked.push(ranked_cells(alloc, items, record.cells())?)?;
    }
    Ok(ranked)
}

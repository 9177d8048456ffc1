//! Generated records.

ghost use Rattle.std.specs.Prelude.{◌≡◌, ◌≤◌, ◌*◌, IfOk, OnOk};
ghost use Rattle.std.specs.List.{sum_by};
ghost use Rattle.hu_kind.specs.Cell.{pairs_of};
ghost use Rattle.hu_kind.specs.Record.{absolute_of};
ghost use Rattle.hu_base.specs.Base.{records_of};
ghost use Rattle.hu_drill.specs.Draws.{after_draws};
ghost use Rattle.hu_drill.specs.Drilled.{cells_of, drilled};

use crate::draws::Draws;
use hu_base::Base;
use hu_kind::{Cell, NoMemory, Record};
use std::alloc::Global;

/// A base of generated records with so many items each, which a seed tells. Two draws for each item. A record earns at
/// most 100 for each of its items, so no sum over the base comes near 2^127.
pub fn make(alloc: Global, seed: u32, records: u32, items: u32) -> Result<Base<Record>, NoMemory>
    requires seed { 1 ≤ seed }
    requires seed_range { seed ≤ 2147483646 }
    requires records { records ≤ 1000000 }
    requires some { 1 ≤ items }
    requires items { items ≤ 4096 }
    ensures value { IfOk result (λ base. base ≡ (0, drilled seed records items)) }
    ensures sum { IfOk result (λ base. sum_by absolute_of (records_of base) ≤ 409600 * records) }
{
    let mut draws = Draws { state: seed };
    let mut base = Base::after(alloc, 0);
    for _ in 0..records {
        base.add_fitting(next_record(alloc, &mut draws, items)?)?;
    }
    Ok(base)
}

/// The next record.
fn next_record(alloc: Global, draws: &mut Draws, items: u32) -> Result<Record, NoMemory>
    requires some { 1 ≤ items }
    requires items { items ≤ 4096 }
    ensures state { OnOk result (draws.new.state ≡ after_draws (2 * items) draws.old.state) }
    ensures value { IfOk result (λ made. made ≡ cells_of items draws.old.state) }
{
    let cells = next_cells(alloc, draws, items)?;
    match Record::new(cells) {
        Some(record) => Ok(record),
        None => unreachable!(),
    }
}

/// The cells of the next record.
fn next_cells(alloc: Global, draws: &mut Draws, items: u32) -> Result<Vec<Cell>, NoMemory>
    requires { items ≤ 4096 }
    ensures state { OnOk result (draws.new.state ≡ after_draws (2 * items) draws.old.state) }
    ensures value { IfOk result (λ cells. pairs_of cells.items ≡ cells_of items draws.old.state) }
{
    let mut cells = Vec::new(alloc);
    for place in 0..items {
        cells.push(draws.cell(7 * place + 1, 7))?;
    }
    Ok(cells)
}

//! What a set of ranks leaves of the records that hold it.

ghost use Rattle.std.specs.Prelude.{◌≡◌, [], IfOk};
ghost use Rattle.hu_totals.specs.Ranked.{IsRanking};
ghost use Rattle.hu_average.specs.Tails.{IsLeft, tails_of};

use crate::bounds::greatest;
use hu_kind::NoMemory;
use hu_totals::{Dense, Ranked};
use std::alloc::Global;

/// What a set earns in a record that holds it, the record's greatest value, where it is above 0, and the record's cells after the
/// set's last rank.
#[derive(Clone, Copy)]
pub(crate) struct Tail<'a> {
    pub own: i128,
    pub most: i128,
    pub cells: &'a [Dense],
}

/// The records as tails of the empty set.
pub(crate) fn record_tails<'a>(alloc: Global, ranked: &'a Ranked) -> Result<Vec<Tail<'a>>, NoMemory>
    ensures rules { IsRanking ranked.now }
    ensures left { IfOk result (λ tails. IsLeft ranked.now [] (tails_of tails.items)) }
{
    let records = ranked.records();
    let mut tails = Vec::with_capacity(alloc, records.len())?;
    for cells in records {
        tails.push(Tail {
            own: 0,
            most: greatest(cells),
            cells: cells.as_slice(),
        })?;
    }
    Ok(tails)
}

//! The later ranks that each rank may join.

ghost use Rattle.std.specs.Prelude.{◌≡◌, pos, ◌≤ℤ◌, map, IfOk};
ghost use Rattle.std.specs.List.{flat_map};
ghost use Rattle.hu_kind.specs.Record.{items_in};
ghost use Rattle.hu_totals.specs.View.{pairs_in, lists_in};
ghost use Rattle.hu_raise.specs.Partners.{pair_table};
ghost use Rattle.hu_raise.specs.OverRanks.{AreOverRanks};

use crate::rests::{hand_on, ranks_of, take, waiting_of};
use crate::sums::Sums;
use hu_kind::NoMemory;
use hu_totals::Dense;
use std::alloc::Global;

/// For each rank the later ranks that it may join by a floor. Meanwhile it holds the ranks of all cells and a rest for
/// each record.
pub(crate) fn partners_of_each(
    alloc: Global,
    records: &[Vec<Dense>],
    ranks: u32,
    floor: i128,
) -> Result<Vec<Vec<u32>>, NoMemory>
    requires rules { AreOverRanks ranks (map pairs_in records.now) }
    requires floor { pos 1 ≤ℤ floor }
    ensures { IfOk result (λ table. lists_in table.items
        ≡ (pair_table (map pairs_in records.now) floor ranks).partners) }
{
    let all = ranks_of(alloc, records)?;
    partners_over(alloc, records, &all, ranks, floor)
}

/// The same, where `all` are the ranks of all cells, record by record.
fn partners_over(
    alloc: Global,
    records: &[Vec<Dense>],
    all: &[u32],
    ranks: u32,
    floor: i128,
) -> Result<Vec<Vec<u32>>, NoMemory>
    requires rules { AreOverRanks ranks (map pairs_in records.now) }
    requires all { all.now ≡ flat_map items_in (map pairs_in records.now) }
    requires floor { pos 1 ≤ℤ floor }
    ensures { IfOk result (λ table. lists_in table.items
        ≡ (pair_table (map pairs_in records.now) floor ranks).partners) }
{
    let mut waiting = waiting_of(alloc, records, all, ranks)?;
    let mut sums = Sums::new(alloc, ranks)?;
    let mut table = Vec::with_capacity(alloc, ranks as usize)?;
    for rank in 0..ranks {
        sums.clear();
        let rests = take(alloc, &mut waiting, rank);
        hand_on(&mut sums, &mut waiting, &rests)?;
        table.push(sums.reaching(alloc, floor)?)?;
    }
    Ok(table)
}

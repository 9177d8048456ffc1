//! The plain engine by average.

ghost use Rattle.std.specs.Prelude.{◌≡◌, ◌≤◌, ◌≤ℤ◌, pos, IfOk, IfSome};
ghost use Rattle.hu_base.specs.Base.{records_of};
ghost use Rattle.hu_average.specs.Answer.{average_answer};

use crate::best::Best;
use hu_base::Base;
use hu_collect::All;
use hu_kind::{Entry, NoMemory, Record};
use hu_plain::mine_items;
use std::alloc::Global;

/// The itemsets that earn at least `least` for each of their items, by average, and the first k of them where there is a `top`.
/// Every itemset that occurs is tried, which serves short records only; those that earn `least` are held for a time. After
/// Hong, Lee and Wang (2009).
pub fn mine_plain(
    alloc: Global,
    base: &Base<Record>,
    least: i128,
    top: Option<u32>,
) -> Result<Vec<Entry>, NoMemory>
    requires least { pos 1 ≤ℤ least }
    requires some { IfSome top (λ k. 1 ≤ k) }
    ensures { IfOk result
        (λ entries. entries.items ≡ average_answer (records_of base.now) least top) }
{
    let mut all = All::new(alloc, least);
    mine_items(alloc, base, &mut all)?;
    let mut best = Best::new(alloc, least, top);
    best.offer_all(all.into_entries()?)?;
    best.into_entries()
}

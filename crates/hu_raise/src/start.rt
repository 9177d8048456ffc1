//! The floor to start with.

ghost use Rattle.std.specs.Prelude.{◌≡◌, ◌≤◌, pos, ◌≤ℤ◌, slice_get, option_to_list, IfOk};
ghost use Rattle.hu_raise.specs.StartFloor.{earned, start_of, KeepsAnswers};

use hu_kind::NoMemory;
use hu_totals::Totals;
use std::alloc::Global;

/// The floor with which a search for the first k itemsets may start: the k-th greatest utility of a single item where
/// at least k items have a utility of at least 1, else 1. The first k itemsets are the same with it as with any lower
/// floor. It doesn't serve closed itemsets, since a single item may not be closed. It takes one pass over the totals
/// and one sort of the utilities. After TKU (Wu, Shie, Tseng and Yu, 2012).
pub fn start_floor(alloc: Global, totals: &Totals, k: u32) -> Result<i128, NoMemory>
    requires { 1 ≤ k }
    ensures value { IfOk result (λ floor. floor ≡ start_of k totals.now) }
    ensures least { IfOk result (λ floor. pos 1 ≤ℤ floor) }
    ensures alike { IfOk result (KeepsAnswers k totals.now) }
{
    let mut utilities = earned(alloc, totals)?;
    utilities.sort_unstable_by(|a, b| b.cmp(a));
    Ok(utilities.get(k as usize - 1).copied().unwrap_or(1))
}

/// The item utilities of at least 1, in first-seen order.
fn earned(alloc: Global, totals: &Totals) -> Result<Vec<i128>, NoMemory>
    ensures { IfOk result (λ utilities. utilities.items ≡ earned totals.now) }
{
    let mut utilities = Vec::new(alloc);
    for index in 0..totals.len() {
        if let Some(utility) = earned_at(totals, index) {
            utilities.push(utility)?;
        }
    }
    Ok(utilities)
}

/// The utility of the item at a place, where it is at least 1.
fn earned_at(totals: &Totals, index: usize) -> Option<i128>
    ensures { option_to_list result ≡ earned (option_to_list (slice_get totals.now index)) }
{
    let (_, total) = totals.at(index)?;
    if total.utility < 1 {
        return None;
    }
    Some(total.utility)
}

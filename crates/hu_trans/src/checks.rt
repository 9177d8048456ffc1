//! What may be wrong with the numbers of a line.

ghost use Rattle.std.specs.Prelude.{◌≡◌, ◌≤◌, [], ◌∷◌, length, nat_lt, pos, position, IfOk};
ghost use Rattle.std.specs.Result.{result_err};
ghost use Rattle.hu_kind.specs.Cell.{pairs_of};
ghost use Rattle.hu_kind.specs.Record.{absolute_of};
ghost use Rattle.hu_kind.specs.First.{first_some};
ghost use Rattle.hu_trans.specs.Reading.{no_items, too_many_items, counts_differ, item_out_of_range, sum_too_large, total_disagrees};

use crate::fault::Fault;
use crate::sums::Sums;
use hu_kind::{Cell, Item, Record};

/// The first thing that is wrong with the items, but for one that stands twice.
pub(crate) fn item_fault(items: &[u128], utilities: &[i128]) -> Option<Fault>
    requires few_items { length items.now ≤ 1048576 }
    requires few_utilities { length utilities.now ≤ 1048576 }
    ensures { result ≡ first_some (
        no_items items.now
        ∷ too_many_items items.now
        ∷ counts_differ items.now utilities.now
        ∷ item_out_of_range items.now
        ∷ []) }
{
    if items.is_empty() {
        return Some(Fault::NoItems);
    }
    if items.len() > Record::MOST_CELLS {
        return Some(Fault::TooManyItems {
            count: items.len() as u32,
        });
    }
    if items.len() != utilities.len() {
        return Some(Fault::CountsDiffer {
            items: items.len() as u32,
            utilities: utilities.len() as u32,
        });
    }
    let place = great_item_place(items)?;
    Some(Fault::ItemOutOfRange {
        at: place as u32 + 1,
    })
}

/// Where the first item above [`Item::GREATEST`] stands.
fn great_item_place(items: &[u128]) -> Option<usize>
    ensures { result ≡ position (λ item. nat_lt 2147483647 item) items.now }
{
    items
        .iter()
        .position(|item| *item > u128::from(Item::GREATEST))
}

/// The absolute sum of the cells, or what is wrong with their sums or with a total that is stated for them.
pub(crate) fn checked_sum(stated: i128, cells: &[Cell]) -> Result<i128, Fault>
    ensures value { IfOk result (λ sum. sum ≡ pos (absolute_of (pairs_of cells.now))) }
    ensures fault { result_err result ≡ first_some (
        sum_too_large (pairs_of cells.now)
        ∷ total_disagrees stated (pairs_of cells.now)
        ∷ []) }
{
    let Some(sums) = Sums::of(cells) else {
        return Err(Fault::SumTooLarge);
    };
    if stated != sums.plain && stated != sums.positive {
        return Err(Fault::TotalDisagrees {
            stated,
            summed: sums.plain,
        });
    }
    Ok(sums.absolute)
}

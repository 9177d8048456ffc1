//! Numbers of keys among items, and items among the numbers of keys.

ghost use Rattle.std.specs.Prelude.{◌≡◌, true, pos, ◌<ℤ◌, ◌≤ℤ◌};
ghost use Rattle.std.specs.List.Sorted.{IsPartitionPoint};
ghost use Rattle.hu_kind.specs.Order.{Ascend};
ghost use Rattle.hu_totals.specs.Weights.{numbers_of};
ghost use Rattle.hu_closed.specs.Keys.{are_among, is_among, is_outside, is_set_key};

use hu_kind::Item;

/// Whether a number is one of these items, by halves.
pub(crate) fn is_among(items: &[Item], number: i64) -> bool
    requires { Ascend (numbers_of items.now) }
    ensures { result ≡ is_among (numbers_of items.now) number }
{
    match items.get(place_of(items, number)) {
        Some(item) => i64::from(item.0) == number,
        None => false,
    }
}

/// How many of these items are below a number.
fn place_of(items: &[Item], number: i64) -> usize
    requires { Ascend (numbers_of items.now) }
    ensures { IsPartitionPoint (λ item. pos item.0 <ℤ number)
        (λ item. number ≤ℤ pos item.0) items.now result }
{
    items.partition_point(|item| i64::from(item.0) < number)
}

/// Whether every number of a key is one of these items.
pub(crate) fn are_among(items: &[Item], key: &[i64]) -> bool
    requires { Ascend (numbers_of items.now) }
    ensures { result ≡ are_among (numbers_of items.now) key.now }
{
    for number in key {
        if !is_among(items, *number) {
            return false;
        }
    }
    true
}

/// Whether a key is that of a non-empty itemset.
pub(crate) fn is_set_key(key: &[i64]) -> bool
    ensures { result ≡ is_set_key key.now }
{
    let mut below = -1;
    for number in key {
        if *number <= below || *number > i64::from(Item::GREATEST) {
            return false;
        }
        below = *number;
    }
    !key.is_empty()
}

/// Whether an item is outside a key whose numbers ascend, by halves.
pub(crate) fn is_outside(key: &[i64], item: Item) -> bool
    requires { is_set_key key.now ≡ true }
    ensures { result ≡ is_outside key.now item.0 }
{
    key.binary_search(&i64::from(item.0)).is_err()
}

//! The records at some places, and which of them hold a key.

ghost use Rattle.std.specs.Prelude.{◌≡◌, ◌<◌, ◌≤◌, ◌||◌, pos, not, true, length, drop, slice_index_or, [], is_some, IfSome, IfNone};
ghost use Rattle.std.specs.List.{count_by, list_all};
ghost use Rattle.hu_kind.specs.Order.{Ascend};
ghost use Rattle.hu_totals.specs.Weights.{numbers_of};
ghost use Rattle.hu_closed.specs.Keys.{are_among, is_among};
ghost use Rattle.hu_closed.specs.Holders.{found_at, lists_of, ArePlaced};
ghost use Rattle.hu_closed.specs.Found.{stands_in, IsHeld, IsHolding};

use crate::keys::{are_among, is_among};
use hu_kind::Item;
use std::marker::Model;

/// The records at some places, seen as the lists of their items.
#[derive(Drop)]
pub(crate) struct Found<'a> {
    lists: &'a [Vec<Item>],
    places: &'a [usize],
}

/// Records from the first that holds a key on, and the items of that one.
#[derive(Drop)]
pub(crate) struct Held<'a> {
    pub rest: Found<'a>,
    pub items: &'a [Item],
}

impl<'a> Model for Found<'a> {
    ghost use Rattle.std.specs.Prelude.{List, ℕ};
    ghost use Rattle.hu_closed.specs.Holders.{found_at, lists_of, ArePlaced};

    ghost Value = { List (List ℕ) };

    ghost view = { λ f. found_at (lists_of f.lists.now) f.places.now };

    ghost invariant = { λ f. ArePlaced (lists_of f.lists.now) f.places.now };
}

impl<'a> Found<'a> {
    /// The records at these places.
    pub(crate) fn at_places(lists: &'a [Vec<Item>], places: &'a [usize]) -> Found<'a>
        requires { ArePlaced (lists_of lists.now) places.now }
        ensures { result ≡ found_at (lists_of lists.now) places.now }
    {
        Found { lists, places }
    }

    /// How many of these records hold a key.
    pub(crate) fn count(&self, key: &[i64]) -> u64
        ensures { result ≡ count_by (λ items. are_among items key.now) self.now }
    {
        let mut count = 0;
        for index in 0..self.len() {
            if are_among(self.items_at(index), key) {
                count += 1;
            }
        }
        count
    }

    /// These records from the first that holds a key on.
    pub(crate) fn held(&self, key: &[i64]) -> Option<Held<'a>>
        ensures some { IfSome result (λ held. IsHeld self.now key.now held.rest (numbers_of held.items.now)) }
        ensures none { IfNone result (list_all (λ items. not (are_among items key.now)) self.now ≡ true) }
    {
        for index in 0..self.len() {
            let items = self.items_at(index);
            if are_among(items, key) {
                let rest = self.from(index);
                return Some(Held { rest, items });
            }
        }
        None
    }

    /// The first of these records that holds a key and lacks an item; none where the item stands in each that holds the
    /// key.
    pub(crate) fn refuter(&self, key: &[i64], item: Item) -> Option<&'a [Item]>
        ensures holding { IfSome result (λ items. IsHolding self.now key.now (numbers_of items.now)) }
        ensures value { is_some result ≡ not (stands_in self.now key.now item.0) }
    {
        for index in 0..self.len() {
            let items = self.items_at(index);
            if lacks(items, key, item) {
                return Some(items);
            }
        }
        None
    }

    /// How many records there are.
    fn len(&self) -> usize
        ensures { result ≡ length self.now }
    {
        self.places.len()
    }

    /// The items of a record.
    fn items_at(&self, index: usize) -> &'a [Item]
        requires { index < length self.now }
        ensures value { numbers_of result.now ≡ slice_index_or self.now index [] }
        ensures ascending { Ascend (numbers_of result.now) }
    {
        let places = self.places;
        self.lists[places[index]].as_slice()
    }

    /// The records from one on.
    fn from(&self, index: usize) -> Found<'a>
        requires { index ≤ length self.now }
        ensures { result ≡ drop index self.now }
    {
        let places = self.places;
        Found::at_places(self.lists, &places[index..])
    }
}

/// Whether a record holds a key and not an item.
fn lacks(items: &[Item], key: &[i64], item: Item) -> bool
    requires { Ascend (numbers_of items.now) }
    ensures { not result
        ≡ (not (are_among (numbers_of items.now) key.now)
        || is_among (numbers_of items.now) (pos item.0)) }
{
    !is_among(items, i64::from(item.0)) && are_among(items, key)
}

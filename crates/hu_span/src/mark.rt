//! Marks: the cells at which a pattern ends with an item more. Those of an item are the places of its chains.

use hu_chain::Place;
use hu_kind::Item;

/// A cell of an item at which a pattern ends, in a record by its number.
#[derive(Clone, Copy, Debug, PartialEq, Eq)]
pub(crate) struct Mark {
    pub item: Item,
    pub row: usize,
    pub place: Place,
}

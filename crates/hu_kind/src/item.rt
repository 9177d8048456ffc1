//! Items and what they earned.

/// An item, by its number from 0 to [`Item::GREATEST`].
#[derive(Clone, Copy, Debug, PartialEq, Eq, PartialOrd, Ord, Hash)]
pub struct Item(pub u32);

impl Item {
    /// The greatest item that a record may hold.
    pub const GREATEST: u32 = 2_147_483_647;
}

/// An item of a record with the utility that it has there.
#[derive(Clone, Copy, Debug, PartialEq, Eq)]
pub struct Cell {
    pub item: Item,
    pub value: i128,
}

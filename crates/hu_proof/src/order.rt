//! The order of the items, as line 2 states it.

ghost use Rattle.std.specs.Prelude.{◌≡◌, nat_eq, position, slice_get, length, ◌++◌, map, IfOk, OnOk};
ghost use Rattle.std.specs.List.{slice_split, flat_map};
ghost use Rattle.std.specs.Option.{option_map};
ghost use Rattle.std.specs.Ordering.{nat_cmp};
ghost use Rattle.std.specs.Str.{bytes_eq};
ghost use Rattle.hu_kind.specs.Cell.{pairs_of};
ghost use Rattle.hu_kind.specs.Order.{ranking};
ghost use Rattle.hu_kind.specs.Record.{items_in};
ghost use Rattle.hu_kind.specs.Token.{is_space};
ghost use Rattle.hu_proof.specs.Check.{is_order};
ghost use Rattle.hu_proof.specs.Text.{each, order_of, plain_item, spaced_items};
ghost use Rattle.hu_proof.specs.Words.{numbers_of};
ghost use Rattle.hu_proof.specs.Places.{Apart};

use crate::token::plain_item;
use crate::words::next_word;
use hu_kind::{Cell, Item, NoMemory, Record};
use indexmap::IndexSet;
use std::alloc::Global;
use std::marker::Model;

/// The items that line 2 states, where it is of its form.
pub(crate) fn stated_order(alloc: Global, line: &[u8]) -> Result<Option<Vec<Item>>, NoMemory>
    ensures { IfOk result (λ stated. option_map (λ items. numbers_of items.items) stated
        ≡ order_of line.now) }
{
    match line.strip_prefix(b"order") {
        Some(rest) => spaced_items(alloc, rest),
        None => Ok(None),
    }
}

/// Items that each have a space in front.
fn spaced_items(alloc: Global, text: &[u8]) -> Result<Option<Vec<Item>>, NoMemory>
    ensures { IfOk result (λ stated. option_map (λ items. numbers_of items.items) stated
        ≡ spaced_items text.now) }
{
    match text.split_first() {
        None => Ok(Some(Vec::new(alloc))),
        Some((b' ', rest)) => items_of(alloc, rest),
        Some(_) => Ok(None),
    }
}

/// Items with one space between.
fn items_of(alloc: Global, text: &[u8]) -> Result<Option<Vec<Item>>, NoMemory>
    ensures { IfOk result (λ stated. option_map (λ items. numbers_of items.items) stated
        ≡ each plain_item (slice_split is_space text.now)) }
{
    let mut items = Vec::new(alloc);
    let mut left = Some(text);
    'words: while let Some((word, more)) = next_word(left) {
        let Some(item) = plain_item(word) else {
            return Ok(None);
        };
        items.push(item)?;
        left = more;
    }
    Ok(Some(items))
}

/// Whether these are just the items that occur, each once. Two sorts.
pub(crate) fn is_order(alloc: Global, records: &[Record], items: &[Item]) -> Result<bool, NoMemory>
    ensures { IfOk result (λ yes. yes ≡ is_order records.now (numbers_of items.now)) }
{
    let mut stated = Vec::new(alloc);
    push_items(&mut stated, items)?;
    rank(&mut stated);
    let mut occurring = occurring_items(alloc, records)?;
    rank(&mut occurring);
    Ok(stated.as_slice() == occurring.as_slice() && items.len() == occurring.len())
}

/// The numbers of items.
pub(crate) fn push_items(numbers: &mut Vec<u32>, items: &[Item]) -> Result<(), NoMemory>
    ensures { OnOk result (numbers.new.items ≡ numbers.old.items ++ numbers_of items.now) }
{
    for item in items {
        numbers.push(item.0)?;
    }
    Ok(())
}

/// The numbers of the items of all cells.
fn occurring_items(alloc: Global, records: &[Record]) -> Result<Vec<u32>, NoMemory>
    ensures { IfOk result (λ numbers. numbers.items ≡ flat_map items_in records.now) }
{
    let mut numbers = Vec::new(alloc);
    for record in records {
        push_cells(&mut numbers, record.cells())?;
    }
    Ok(numbers)
}

/// The numbers of the items of cells.
fn push_cells(numbers: &mut Vec<u32>, cells: &[Cell]) -> Result<(), NoMemory>
    ensures { OnOk result (numbers.new.items ≡ numbers.old.items ++ items_in (pairs_of cells.now)) }
{
    for cell in cells {
        numbers.push(cell.item.0)?;
    }
    Ok(())
}

/// Puts numbers in order, each once.
pub(crate) fn rank(numbers: &mut Vec<u32>)
    ensures { numbers.new.items ≡ ranking nat_cmp numbers.old.items }
{
    numbers.sort_unstable();
    numbers.dedup();
}

/// Items in the order of a text, each found by a hash. It is seen as the list of their numbers.
#[derive(Drop)]
pub(crate) struct Order {
    items: IndexSet<Item>,
}

impl Model for Order {
    ghost use Rattle.std.specs.Prelude.{List, ℕ};
    ghost use Rattle.hu_proof.specs.Words.{numbers_of};

    ghost Value = { List ℕ };

    ghost view = { λ o. numbers_of o.items.keys };
}

impl Order {
    /// The order of these items, of which none stands twice.
    pub fn of(alloc: Global, items: &[Item]) -> Result<Order, NoMemory>
        requires { Apart (numbers_of items.now) }
        ensures { IfOk result (λ order. order ≡ numbers_of items.now) }
    {
        Ok(Order {
            items: set_of(alloc, items)?,
        })
    }

    /// How many items stand before an item.
    pub fn rank_of(&self, item: Item) -> Option<usize>
        ensures { result ≡ position (nat_eq item.0) self.now }
    {
        self.items.get_index_of(&item)
    }

    /// The item before which so many stand.
    pub fn item_at(&self, rank: usize) -> Option<Item>
        ensures { option_map (λ item. item.0) result ≡ slice_get self.now rank }
    {
        self.items.as_slice().get(rank).copied()
    }

    /// How many items there are.
    pub fn len(&self) -> usize
        ensures { result ≡ length self.now }
    {
        self.items.len()
    }
}

/// The set of these items, of which none stands twice, in their order.
fn set_of(alloc: Global, items: &[Item]) -> Result<IndexSet<Item>, NoMemory>
    requires { Apart (numbers_of items.now) }
    ensures { IfOk result (λ set. set.keys ≡ items.now) }
{
    let mut set = IndexSet::new(alloc);
    for item in items {
        set.insert(*item)?;
    }
    Ok(set)
}

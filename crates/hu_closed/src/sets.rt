//! Which records hold which items.

ghost use Rattle.std.specs.Prelude.{◌≡◌, ◌<◌, ◌==◌, List, ℕ, ℤ, map, pos, true, false, not, length, Some, IfOk, OnOk};
ghost use Rattle.std.specs.List.{AllByRecursion, list_any};
ghost use Rattle.hu_base.specs.Base.{records_of};
ghost use Rattle.hu_kind.specs.Cell.{pairs_of};
ghost use Rattle.hu_kind.specs.Database.{support};
ghost use Rattle.hu_kind.specs.Itemsets.{is_closed};
ghost use Rattle.hu_kind.specs.Record.{items_in, IsRecord};
ghost use Rattle.hu_collect.specs.Ranks.{CanOpen, IsGrown};
ghost use Rattle.hu_totals.specs.Weights.{numbers_of};
ghost use Rattle.hu_closed.specs.Keys.{key_support, is_closed_key, is_set_key, closes_below, IsSet};
ghost use Rattle.hu_closed.specs.Holders.{lists_of};
ghost use Rattle.hu_closed.specs.Found.{Finds};
ghost use Rattle.hu_closed.specs.ClosedOnly.{IsRankingOf};

use crate::candidates::{Tried, any_closes, any_outside, any_outside_below};
use crate::found::Found;
use crate::holders::{all_holders, rarest};
use crate::keys::is_set_key;
use crate::places::Places;
use hu_base::Base;
use hu_kind::{Cell, Item, Key, NoMemory, Record};
use hu_totals::Ranked;
use std::alloc::Global;
use std::marker::Model;
use std::snapshot::Snapshot;

/// For each item the records of a base that hold it, and for each record its items. It is seen as the records; of their
/// values it keeps none.
#[derive(Drop)]
pub struct RecordSets {
    lists: Vec<Vec<Item>>,
    holders: Places,
    seen: Snapshot<Base<Record>>,
}

impl Model for RecordSets {
    ghost use Rattle.std.specs.Prelude.{List, ℕ, ℤ};
    ghost use Rattle.hu_base.specs.Base.{records_of};
    ghost use Rattle.hu_closed.specs.Holders.{AreSets};

    ghost Value = { List (List (ℕ × ℤ)) };

    ghost view = { λ s. records_of s.seen.value };

    ghost invariant = { λ s. AreSets (records_of s.seen.value) s.lists.items s.holders };
}

impl RecordSets {
    /// The sets of a base's records. It takes a copy of the items of each cell, and a look-up in a hash table for each.
    pub fn of(alloc: Global, base: &Base<Record>) -> Result<RecordSets, NoMemory>
        ensures { IfOk result (λ sets. sets ≡ records_of base.now) }
    {
        let lists = item_lists(alloc, base.records())?;
        let holders = all_holders(alloc, &lists)?;
        Ok(RecordSets {
            lists,
            holders,
            seen: Snapshot::of(base),
        })
    }

    /// How many records hold every number of a key as an item: all of them for the empty key, none where a number is no
    /// item. It goes through the records that hold the key's rarest item, each looked through by halves for the others.
    /// It takes no memory.
    pub fn support(&self, key: &Key) -> u64
        ensures value { result ≡ key_support self.now key.now }
        ensures itemset { (items : List ℕ) → key.now ≡ map pos items → result ≡ support self.now items }
    {
        self.count_holding(key.numbers())
    }

    /// Whether some record holds every number of a key as an item: for the empty key, whether there is a record. It goes
    /// through the records that hold the key's rarest item up to the first that holds the key, and takes no memory.
    pub fn is_held(&self, key: &Key) -> bool
        ensures value { result ≡ not (key_support self.now key.now == 0) }
    {
        self.any_holding(key.numbers())
    }

    /// Whether a key is that of a closed itemset: its numbers are items ascending, at least one, and no occurring item
    /// outside it stands in every record that holds it. Only the items of the first record that holds the key are
    /// tried, each until a record has the key without it. It takes no memory. After CHARM (Zaki and Hsiao, 2002).
    pub fn is_closed(&self, key: &Key) -> bool
        ensures value { result ≡ is_closed_key self.now key.now }
        ensures itemset { (items : List ℕ) → IsSet items → key.now ≡ map pos items → result
            ≡ is_closed self.now items }
    {
        self.is_closed_at(key.numbers())
    }

    /// Whether an item of a rank below `last`, outside a key, stands in every record that holds the key.
    pub(crate) fn closes_below(&self, ranked: &Ranked, key: &Key, last: u32) -> bool
        requires base { IsRankingOf self.now ranked.now }
        requires key { CanOpen (Some ranked.now.items) key.now last }
        ensures value { result ≡ closes_below self.now ranked.now.items key.now last }
        ensures shuts { result ≡ true → (grown : List ℤ) → IsGrown (Some ranked.now.items) key.now last grown
            → is_closed_key self.now grown ≡ false }
    {
        self.tell_rules();
        let numbers = key.numbers();
        match self.found(numbers).held(numbers) {
            Some(held) => any_closes(
                &held.rest,
                numbers,
                held.items,
                &Tried::Below { ranked, last },
            ),
            None => any_outside_below(ranked, numbers, last),
        }
    }

    /// Tells a proof that these are records.
    pub(crate) fn tell_rules(&self)
        ensures { AllByRecursion IsRecord self.now }
    {
        let _lists = &self.lists;
    }

    /// How many records hold these numbers.
    fn count_holding(&self, numbers: &[i64]) -> u64
        ensures { result ≡ key_support self.now numbers.now }
    {
        if numbers.is_empty() {
            let lists = self.lists.as_slice();
            return lists.len() as u64;
        }
        self.found(numbers).count(numbers)
    }

    /// Whether some record holds these numbers.
    fn any_holding(&self, numbers: &[i64]) -> bool
        ensures { result ≡ not (key_support self.now numbers.now == 0) }
    {
        if numbers.is_empty() {
            return !self.lists.is_empty();
        }
        match self.found(numbers).held(numbers) {
            Some(_) => true,
            None => false,
        }
    }

    /// Whether these numbers are a closed itemset.
    fn is_closed_at(&self, numbers: &[i64]) -> bool
        ensures { result ≡ is_closed_key self.now numbers.now }
    {
        if !is_set_key(numbers) {
            return false;
        }
        match self.found(numbers).held(numbers) {
            Some(held) => !any_closes(&held.rest, numbers, held.items, &Tried::All),
            None => !any_outside(&self.lists, numbers),
        }
    }

    /// The records that hold that number of a key which the fewest hold.
    fn found(&self, numbers: &[i64]) -> Found<'_>
        requires { 0 < length numbers.now }
        ensures { Finds self.now numbers.now result }
    {
        Found::at_places(&self.lists, rarest(&self.holders, numbers))
    }
}

/// The items of each record.
fn item_lists(alloc: Global, records: &[Record]) -> Result<Vec<Vec<Item>>, NoMemory>
    ensures value { IfOk result (λ lists. lists_of lists.items ≡ map items_in records.now) }
    ensures rules { OnOk result (AllByRecursion IsRecord records.now) }
{
    let mut lists = Vec::with_capacity(alloc, records.len())?;
    for record in records {
        lists.push(items_of(alloc, record.cells())?)?;
    }
    Ok(lists)
}

/// The items of cells.
fn items_of(alloc: Global, cells: &[Cell]) -> Result<Vec<Item>, NoMemory>
    ensures { IfOk result (λ items. numbers_of items.items ≡ items_in (pairs_of cells.now)) }
{
    let mut items = Vec::with_capacity(alloc, cells.len())?;
    for cell in cells {
        items.push(cell.item)?;
    }
    Ok(items)
}

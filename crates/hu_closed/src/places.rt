//! Which records hold which numbers, by the places of the records.

ghost use Rattle.std.specs.Prelude.{◌≡◌, [], OnErr, OnOk};
ghost use Rattle.hu_closed.specs.Places.{places_at, with_place};

use hu_kind::NoMemory;
use indexmap::IndexMap;
use std::alloc::Global;
use std::marker::Model;

/// For each number the places that were added for it, in their order. It is seen as the numbers that have places, each with
/// them.
#[derive(Drop)]
pub struct Places {
    lists: IndexMap<i64, Vec<usize>>,
}

impl Model for Places {
    ghost use Rattle.std.specs.Prelude.{List, ℕ, ℤ};
    ghost use Rattle.hu_closed.specs.Places.{lists_in};

    ghost Value = { List (ℤ × List ℕ) };

    ghost view = { λ p. lists_in p.lists.entries };
}

impl Places {
    /// No places of any number. It takes no memory.
    pub fn none(alloc: Global) -> Places
        ensures { result ≡ [] }
    {
        Places {
            lists: IndexMap::new(alloc),
        }
    }

    /// Adds a place after those of a number. It takes a look-up in a hash table. After want of memory each number has the
    /// places that it had.
    pub fn add(&mut self, alloc: Global, number: i64, place: usize) -> Result<(), NoMemory>
        ensures ok { OnOk result (self.new ≡ with_place self.old number place) }
        ensures err { OnErr result (self.new ≡ self.old) }
    {
        if let Some(list) = self.lists.get_mut(&number) {
            list.push(place)?;
            return Ok(());
        }
        self.lists.insert(number, vec![in alloc; place]?)?;
        Ok(())
    }

    /// The places of a number, none where none was added. It takes a look-up in a hash table.
    pub fn of(&self, number: i64) -> &[usize]
        ensures { result.now ≡ places_at self.now number }
    {
        match self.lists.get(&number) {
            Some(list) => list.as_slice(),
            None => &[],
        }
    }
}

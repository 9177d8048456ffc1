//! Ranks with a slot each.

ghost use Rattle.std.specs.Prelude.{◌≡◌, ◌<◌, ◌==◌, ◌&&◌, ℕ, [], ◌∷◌, ◌++◌, false, nat_eq, length, take, if◌then◌else◌, IfOk, OnOk, OnErr, MatchOption};
ghost use Rattle.std.specs.List.{AllByRecursion, IsDistinct};
ghost use Rattle.hu_totals.specs.Cells.{among};
ghost use Rattle.hu_totals.specs.View.{lists_in};
ghost use Rattle.hu_search.specs.Slots.{at, IsPlace};

use hu_kind::NoMemory;
use std::alloc::Global;
use std::marker::Model;

/// Some of the ranks of a table, each once, in an order. The slot of a rank, its place in the order, is found in constant time,
/// and all ranks are forgotten at once. After the sparse sets of Briggs and Torczon (1993).
#[derive(Drop)]
pub struct Slots {
    places: Vec<usize>,
    ranks: Vec<u32>,
}

impl Model for Slots {
    ghost use Rattle.std.specs.Prelude.{length};
    ghost use Rattle.hu_search.specs.Slots.{SlotsOf, AreSlots};

    ghost Value = { SlotsOf };

    ghost view = { λ s. record { room = length s.places.items; ranks = s.ranks.items } };

    ghost invariant = { λ s. AreSlots s.places.items s.ranks.items };
}

impl Slots {
    /// None of so many ranks. It takes a word for each, and as many steps.
    pub fn new(alloc: Global, room: u32) -> Result<Slots, NoMemory>
        ensures room { IfOk result (λ slots. slots.room ≡ room) }
        ensures none { IfOk result (λ slots. slots.ranks ≡ []) }
    {
        Ok(Slots {
            places: vec![in alloc; 0usize; room as usize]?,
            ranks: Vec::new(alloc),
        })
    }

    /// The ranks in their order, lent in constant time.
    pub fn ranks(&self) -> &[u32]
        ensures ranks { result.now ≡ self.now.ranks }
        ensures once { IsDistinct nat_eq self.now.ranks }
        ensures within { AllByRecursion (λ rank. rank < self.now.room) self.now.ranks }
    {
        self.ranks.as_slice()
    }

    /// The slot of a rank, if it has one, in constant time.
    pub fn find(&self, rank: u32) -> Option<usize>
        ensures { MatchOption result (among rank self.now.ranks ≡ false)
            (IsPlace self.now.ranks rank) }
    {
        let place = *self.places.get(rank as usize)?;
        match self.ranks.get(place) {
            Some(found) if *found == rank => Some(place),
            _ => None,
        }
    }

    /// Whether a rank has a slot, in constant time.
    pub fn has(&self, rank: u32) -> bool
        ensures { result ≡ among rank self.now.ranks }
    {
        self.find(rank).is_some()
    }

    /// Gives a rank the next slot, in constant time but for the growth of the order.
    pub fn push(&mut self, rank: u32) -> Result<(), NoMemory>
        requires within { rank < self.old.room }
        requires fresh { among rank self.old.ranks ≡ false }
        ensures room { self.new.room ≡ self.old.room }
        ensures ranks { OnOk result (self.new.ranks ≡ self.old.ranks ++ rank ∷ []) }
        ensures kept { OnErr result (self.new.ranks ≡ self.old.ranks) }
    {
        self.ranks.push(rank)?;
        self.places[rank as usize] = self.ranks.len() - 1;
        Ok(())
    }

    /// Adds a value at the end of the list that goes along with a rank, where it has a slot, in constant time but for the growth
    /// of that list.
    pub fn add<T: Drop>(&self, lists: &mut Vec<Vec<T>>, rank: u32, value: T) -> Result<(), NoMemory>
        requires len { length lists.old.items ≡ length self.now.ranks }
        ensures len { length lists.new.items ≡ length self.now.ranks }
        ensures added { OnOk result ((z : ℕ) → at [] self.now.ranks (lists_in lists.new.items) z
            ≡ (if z == rank && among rank self.now.ranks
            then at [] self.now.ranks (lists_in lists.old.items) z ++ value ∷ []
            else at [] self.now.ranks (lists_in lists.old.items) z)) }
        ensures kept { OnErr result (lists_in lists.new.items ≡ lists_in lists.old.items) }
    {
        if let Some(slot) = self.find(rank) {
            lists[slot].push(value)?;
        }
        Ok(())
    }

    /// Forgets all ranks, in constant time.
    pub fn clear(&mut self)
        ensures room { self.new.room ≡ self.old.room }
        ensures none { self.new.ranks ≡ [] }
    {
        self.ranks.clear();
    }

    /// Has these ranks in place of all others, in a step for each of them. After want of memory it has the first of them.
    pub fn fill(&mut self, ranks: &[u32]) -> Result<(), NoMemory>
        requires within { AllByRecursion (λ rank. rank < self.old.room) ranks.now }
        requires once { IsDistinct nat_eq ranks.now }
        ensures room { self.new.room ≡ self.old.room }
        ensures ranks { OnOk result (self.new.ranks ≡ ranks.now) }
        ensures first { self.new.ranks ≡ take (length self.new.ranks) ranks.now }
    {
        self.clear();
        for rank in ranks {
            self.push(*rank)?;
        }
        Ok(())
    }
}

//! What the sets with one rank more earn.

ghost use Rattle.std.specs.Prelude.{◌≡◌, ◌<◌, ◌+◌, ◌^◌, ◌==◌, ◌+ℤ◌, ℕ, pos, unsigned_abs, length, if◌then◌else◌, IfOk};
ghost use Rattle.hu_kind.specs.Record.{positive_part};
ghost use Rattle.hu_totals.specs.View.{dense_pair};
ghost use Rattle.hu_totals.specs.Cells.{among};
ghost use Rattle.hu_search.specs.Slots.{at, IsPlace};
ghost use Rattle.hu_list.specs.Tails.{size_of};
ghost use Rattle.hu_list.specs.Passes.{met, met_in, summing, sum_with, no_sum, SumsFit};
ghost use Rattle.hu_list.specs.Level.{sum_of};
ghost use Rattle.hu_list.specs.View.{tail_of, tails_of, IsTail, AreTails};

use crate::tail::Tail;
use hu_kind::{NoMemory, positive_part};
use hu_search::{Child, Slots};
use hu_totals::Dense;
use std::alloc::Global;

/// How many tails hold a rank, what the set with it earns there, and the sum of what it can earn with later ranks.
#[derive(Clone, Copy, Debug, PartialEq, Eq)]
pub(crate) struct Sum {
    pub support: u64,
    pub utility: i128,
    pub bound: i128,
}

impl Sum {
    /// The sums over no tail.
    const NONE: Sum = Sum {
        support: 0,
        utility: 0,
        bound: 0,
    };

    /// The sums with a tail more, where the set earns so much and later ranks gain so much.
    fn with(&self, own: i128, rest: i128) -> Sum
        requires { SumsFit self.now (unsigned_abs own + unsigned_abs rest) }
        ensures { result ≡ sum_with self.now own rest }
    {
        Sum {
            support: self.support + 1,
            utility: self.utility + own,
            bound: self.bound + positive_part(own + rest),
        }
    }

    /// The child with a rank that has these sums.
    pub(crate) fn child(&self, rank: u32) -> Child
        ensures rank { result.rank ≡ rank }
        ensures sum { sum_of result ≡ self.now }
    {
        Child {
            rank,
            utility: self.utility,
            support: self.support,
            bound: self.bound,
        }
    }
}

/// The sums of ranks over tails, in one pass backward over the cells of each.
pub(crate) fn sums(alloc: Global, tails: &[Tail<'_>], slots: &Slots) -> Result<Vec<Sum>, NoMemory>
    requires rules { AreTails slots.now.room (tails_of tails.now) }
    ensures len { IfOk result (λ sums. length sums.items ≡ length slots.now.ranks) }
    ensures sums { IfOk result (λ sums. (z : ℕ) → at no_sum slots.now.ranks sums.items z
        ≡ met_in (summing slots.now.ranks) z (tails_of tails.now) no_sum) }
{
    let mut sums = vec![in alloc; Sum::NONE; slots.ranks().len()]?;
    for tail in tails {
        add_sums(slots, &mut sums, tail);
    }
    Ok(sums)
}

/// Adds a tail to the sums of each rank that it holds.
fn add_sums(slots: &Slots, sums: &mut Vec<Sum>, tail: &Tail<'_>)
    requires len { length sums.old.items ≡ length slots.now.ranks }
    requires rules { IsTail slots.now.room (tail_of tail.now) }
    requires fits { (z : ℕ)
        → SumsFit (at no_sum slots.now.ranks sums.old.items z) (size_of (tail_of tail.now)) }
    ensures len { length sums.new.items ≡ length slots.now.ranks }
    ensures sums { (z : ℕ) → at no_sum slots.now.ranks sums.new.items z
        ≡ met (summing slots.now.ranks (tail_of tail.now)) z (tail_of tail.now).cells
        (at no_sum slots.now.ranks sums.old.items z) }
{
    let mut rest = 0;
    for back in 0..tail.cells.len() {
        let cell = &tail.cells[tail.cells.len() - 1 - back];
        rest += add_cell(slots, sums, tail.own, cell, rest);
    }
}

/// Adds to the sums of a cell's rank, and gives its value where it has a slot and it is above 0, else 0.
fn add_cell(slots: &Slots, sums: &mut Vec<Sum>, own: i128, cell: &Dense, rest: i128) -> i128
    requires len { length sums.old.items ≡ length slots.now.ranks }
    requires fits { SumsFit (at no_sum slots.now.ranks sums.old.items cell.now.rank)
        (unsigned_abs own + unsigned_abs cell.now.value + unsigned_abs rest) }
    ensures len { length sums.new.items ≡ length slots.now.ranks }
    ensures part { result
        ≡ (if among cell.now.rank slots.now.ranks then positive_part cell.now.value
        else pos 0) }
    ensures sums { (z : ℕ) → at no_sum slots.now.ranks sums.new.items z
        ≡ (if z == cell.now.rank then (if among cell.now.rank slots.now.ranks then sum_with
        (at no_sum slots.now.ranks sums.old.items z)
        (own +ℤ cell.now.value) rest else at no_sum slots.now.ranks sums.old.items z) else at
        no_sum slots.now.ranks sums.old.items z) }
{
    match slots.find(cell.rank) {
        Some(slot) => {
            sums[slot] = sums[slot].with(own + cell.value, rest);
            positive_part(cell.value)
        }
        None => 0,
    }
}

//! Sums by rank of which few aren't 0.

ghost use Rattle.std.specs.Prelude.{◌≡◌, ℕ, ◌<◌, ◌^◌, nat_eq, pos, int_le, ◌+ℤ◌, ◌≤ℤ◌, ◌<ℤ◌, ◌++◌, length, replicate, slice_set, if◌then◌else◌, IfOk, OnOk, OnErr};
ghost use Rattle.std.specs.List.{All, filter, list_any};
ghost use Rattle.hu_raise.specs.Sums.{first_rank, ranks_reaching, sum_at};

use hu_kind::NoMemory;
use std::alloc::Global;
use std::marker::Model;

/// Sums by rank, none below 0. It lists the ranks whose sum isn't 0, so that reading and clearing these takes no pass
/// over all ranks. It is seen as the list of the sums.
#[derive(Drop)]
pub(crate) struct Sums {
    sums: Vec<i128>,
    touched: Vec<u32>,
}

impl Model for Sums {
    ghost use Rattle.std.specs.Prelude.{List, ℤ};
    ghost use Rattle.hu_raise.specs.Sums.{AreSums};

    ghost Value = { List ℤ };

    ghost view = { λ s. s.sums.items };

    ghost invariant = { λ s. AreSums s.sums.items s.touched.items };
}

impl Sums {
    /// A sum of 0 for each rank below a number, with room to list them all.
    pub(crate) fn new(alloc: Global, ranks: u32) -> Result<Sums, NoMemory>
        ensures { IfOk result (λ sums. sums ≡ replicate ranks (pos 0)) }
    {
        let sums = vec![in alloc; 0i128; ranks as usize]?;
        let touched = Vec::with_capacity(alloc, ranks as usize)?;
        Ok(Sums { sums, touched })
    }

    /// Adds a gain to the sum of a rank.
    pub(crate) fn add(&mut self, rank: u32, gain: i128) -> Result<(), NoMemory>
        requires within { rank < length self.old }
        requires least { pos 0 ≤ℤ gain }
        requires fits { (sum_at self.old rank +ℤ gain) <ℤ pos (2 ^ 127) }
        ensures { OnOk result (self.new ≡ slice_set self.old rank (sum_at self.old rank +ℤ gain)) }
    {
        let sum = self.sums[rank as usize];
        list_first(&mut self.touched, rank, sum, gain)?;
        self.sums[rank as usize] = sum + gain;
        Ok(())
    }

    /// Sets all sums to 0, in a step for each that isn't.
    pub(crate) fn clear(&mut self)
        ensures { self.new ≡ replicate (length self.old) (pos 0) }
    {
        set_to_0(&mut self.sums, &self.touched);
        self.touched.clear();
    }

    /// The ranks whose sum reaches a floor, ascending, by a sort of these.
    pub(crate) fn reaching(&self, alloc: Global, floor: i128) -> Result<Vec<u32>, NoMemory>
        requires { pos 1 ≤ℤ floor }
        ensures { IfOk result (λ ranks. ranks.items ≡ ranks_reaching floor self.now) }
    {
        let mut ranks = reaching_among(alloc, &self.sums, &self.touched, floor)?;
        ranks.sort_unstable();
        Ok(ranks)
    }
}

/// Lists a rank, where a gain is the first above 0 to its sum.
fn list_first(touched: &mut Vec<u32>, rank: u32, sum: i128, gain: i128) -> Result<(), NoMemory>
    ensures ok { OnOk result (touched.new.items ≡ touched.old.items ++ first_rank rank sum gain) }
    ensures err { OnErr result (touched.new.items ≡ touched.old.items) }
{
    if sum == 0 && gain > 0 {
        touched.push(rank)?;
    }
    Ok(())
}

/// Sets the sums of these ranks to 0.
fn set_to_0(sums: &mut [i128], ranks: &[u32])
    requires { All (λ rank. rank < length sums.old) ranks.now }
    ensures { (rank : ℕ) → sum_at sums.new rank
        ≡ (if list_any (nat_eq rank) ranks.now then pos 0 else sum_at sums.old rank) }
{
    for rank in ranks {
        sums[*rank as usize] = 0;
    }
}

/// Those of some ranks whose sum reaches a floor.
fn reaching_among(
    alloc: Global,
    sums: &[i128],
    ranks: &[u32],
    floor: i128,
) -> Result<Vec<u32>, NoMemory>
    requires { All (λ rank. rank < length sums.now) ranks.now }
    ensures { IfOk result (λ reaching. reaching.items ≡ filter
        (λ rank. int_le floor (sum_at sums.now rank)) ranks.now) }
{
    let mut reaching = Vec::new(alloc);
    for rank in ranks {
        if sums[*rank as usize] >= floor {
            reaching.push(*rank)?;
        }
    }
    Ok(reaching)
}

//! Bounds on what sets of kept ranks earn over rows.

ghost use Rattle.std.specs.Prelude.{◌≡◌, ◌<◌, ℕ, pos, IfOk};
ghost use Rattle.hu_rows.specs.Bounds.{local_bound, subtree_bound, set_to, value_at, AreKept, BoundsEach, BoundsLeast};

use crate::rows::Rows;
use crate::setting::Setting;
use hu_kind::NoMemory;
use std::alloc::Global;
use std::marker::Model;

/// For each rank two bounds on what sets of kept ranks earn over rows, as they were set last: a local one for the sets
/// that hold the rank, a subtree one for those of which it is the least. They are seen as how many ranks there are, and
/// a number for each rank and either bound. After EFIM (Zida and others, 2015).
#[derive(Drop)]
pub struct Bins {
    local: Setting,
    subtree: Setting,
}

impl Model for Bins {
    ghost use Rattle.std.specs.Prelude.{◌≡◌, length};
    ghost use Rattle.hu_rows.specs.Bounds.{BinsOf};
    ghost use Rattle.hu_rows.specs.Setting.{bins_of};

    ghost Value = { BinsOf };

    ghost view = { λ b. bins_of b.local b.subtree };

    ghost invariant = { λ b. length b.local.values ≡ length b.subtree.values };
}

impl Bins {
    /// Bins for so many ranks, each 0. No other call takes memory.
    pub fn new(alloc: Global, ranks: u32) -> Result<Bins, NoMemory>
        ensures ranks { IfOk result (λ bins. bins.ranks ≡ ranks) }
        ensures local { IfOk result (λ bins. (rank : ℕ) → value_at bins.local rank ≡ pos 0) }
        ensures subtree { IfOk result (λ bins. (rank : ℕ) → value_at bins.subtree rank ≡ pos 0) }
    {
        Ok(Bins {
            local: Setting::new(alloc, ranks)?,
            subtree: Setting::new(alloc, ranks)?,
        })
    }

    /// Sets the local bound of each kept rank, the sum over the rows that hold it of `max(0, before + kept values above
    /// 0)`; that of other ranks becomes 0. No set of kept ranks earns more than the bound of any of its ranks. It reads
    /// the cells of each row twice, and takes time for each rank that is kept or was before.
    pub fn local(&mut self, rows: &Rows<'_>, keep: &[u32])
        requires kept { AreKept self.old.ranks keep.now }
        ensures value { (rank : ℕ) → value_at self.new.local rank
            ≡ set_to (local_bound rows.now keep.now) keep.now rank }
        ensures bounds { BoundsEach rows.now keep.now (value_at self.new.local) }
        ensures ranks { self.new.ranks ≡ self.old.ranks }
        ensures subtree { self.new.subtree ≡ self.old.subtree }
    {
        self.local.fill_local(rows.rows(), keep);
    }

    /// Sets the subtree bound of each kept rank, the sum over the rows that hold it of `max(0, before + the rank's
    /// value + kept values above 0 after it)`; that of other ranks becomes 0. No set of kept ranks earns more than the
    /// bound of its least rank. It costs what `local` costs.
    pub fn subtree(&mut self, rows: &Rows<'_>, keep: &[u32])
        requires kept { AreKept self.old.ranks keep.now }
        ensures value { (rank : ℕ) → value_at self.new.subtree rank
            ≡ set_to (subtree_bound rows.now keep.now) keep.now rank }
        ensures bounds { BoundsLeast rows.now keep.now (value_at self.new.subtree) }
        ensures ranks { self.new.ranks ≡ self.old.ranks }
        ensures local { self.new.local ≡ self.old.local }
    {
        self.subtree.fill_subtree(rows.rows(), keep);
    }

    /// The local bound that a rank was set to last, 0 before the first setting.
    pub fn local_of(&self, rank: u32) -> i128
        requires { rank < self.now.ranks }
        ensures value { result ≡ value_at self.now.local rank }
    {
        self.local.value(rank)
    }

    /// The subtree bound that a rank was set to last, 0 before the first setting.
    pub fn subtree_of(&self, rank: u32) -> i128
        requires { rank < self.now.ranks }
        ensures value { result ≡ value_at self.now.subtree rank }
    {
        self.subtree.value(rank)
    }
}

//! One setting of bins.

ghost use Rattle.std.specs.Prelude.{◌≡◌, ◌<◌, ◌≤◌, ◌+◌, ◌^◌, ◌||◌, ◌&&◌, ◌==◌, false, ℕ, pos, ◌+ℤ◌, unsigned_abs, [], length, replicate, slice_index_or, if◌then◌else◌, IfOk};
ghost use Rattle.std.specs.List.{AllByRecursion};
ghost use Rattle.hu_kind.specs.Order.{Ascend};
ghost use Rattle.hu_kind.specs.Record.{absolute_of, positive_part};
ghost use Rattle.hu_totals.specs.View.{dense_pair, cells_of};
ghost use Rattle.hu_totals.specs.Cells.{among, kept_gain};
ghost use Rattle.hu_rows.specs.Rows.{AreRows, ranks_of, size_of};
ghost use Rattle.hu_rows.specs.Bounds.{local_bound, subtree_bound, set_to, value_at, AreKept};
ghost use Rattle.hu_rows.specs.Setting.{kept_part, local_part, subtree_part};
ghost use Rattle.hu_rows.specs.View.{row_of, rows_of};

use crate::rows::Row;
use hu_kind::{NoMemory, positive_part};
use hu_totals::Dense;
use std::alloc::Global;
use std::marker::Model;

/// A value for each rank, 0 but for the kept ranks.
#[derive(Drop)]
pub(crate) struct Setting {
    values: Vec<i128>,
    marks: Vec<bool>,
    kept: Vec<u32>,
}

impl Model for Setting {
    ghost use Rattle.std.specs.Prelude.{◌≤◌, length};
    ghost use Rattle.std.specs.Vec.{vec_capacity};
    ghost use Rattle.hu_rows.specs.Setting.{SettingOf, IsSetting};

    ghost Value = { SettingOf };

    ghost view = { λ s. record { kept = s.kept.items; values = s.values.items } };

    ghost invariant = { λ s. IsSetting s.kept.items s.values.items s.marks.items × (length s.values.items ≤ vec_capacity s.kept) };
}

impl Setting {
    /// The value of a rank.
    pub(crate) fn value(&self, rank: u32) -> i128
        requires { rank < length self.now.values }
        ensures value { result ≡ value_at self.now.values rank }
    {
        self.values[rank as usize]
    }

    /// Whether a rank is kept.
    pub(crate) fn is_kept(&self, rank: u32) -> bool
        ensures { result ≡ among rank self.now.kept }
    {
        match self.marks.get(rank as usize) {
            Some(mark) => *mark,
            None => false,
        }
    }

    /// Forgets what was kept and keeps these ranks, each with 0, in time for each rank of either. It takes no memory.
    fn restart(&mut self, keep: &[u32])
        requires kept { AreKept (length self.old.values) keep.now }
        ensures kept { self.new.kept ≡ keep.now }
        ensures zero { (rank : ℕ) → value_at self.new.values rank ≡ pos 0 }
        ensures len { length self.new.values ≡ length self.old.values }
    {
        unset(&mut self.values, &mut self.marks, self.kept.as_slice());
        self.kept.clear();
        match self.kept.extend_from_slice(keep) {
            Ok(()) => mark(&mut self.marks, keep),
            Err(_) => unreachable!(),
        }
    }

    /// The kept values above 0 of some cells.
    fn gain(&self, cells: &[Dense]) -> i128
        requires { absolute_of (cells_of cells.now) < 2 ^ 127 }
        ensures value { result ≡ kept_gain self.now.kept (cells_of cells.now) }
    {
        let mut gain = 0i128;
        for cell in cells {
            gain += self.kept_part(cell);
        }
        gain
    }

    /// The value of a cell where it is kept and above 0, else 0.
    fn kept_part(&self, cell: &Dense) -> i128
        ensures value { result ≡ kept_part self.now.kept (dense_pair cell.now) }
    {
        if self.is_kept(cell.rank) {
            positive_part(cell.value)
        } else {
            0
        }
    }

    /// Adds to the value of a rank, where it is kept.
    fn add(&mut self, rank: u32, share: i128)
        requires { unsigned_abs (value_at self.old.values rank) + unsigned_abs share < 2 ^ 127 }
        ensures kept { self.new.kept ≡ self.old.kept }
        ensures len { length self.new.values ≡ length self.old.values }
        ensures value { (other : ℕ) → value_at self.new.values other
            ≡ value_at self.old.values other +ℤ (if among other self.old.kept
            && (other == rank) then share else pos 0) }
    {
        if self.is_kept(rank) {
            self.values[rank as usize] += share;
        }
    }

    /// Adds to the value of each kept rank what a row gives the sets that hold it.
    fn add_local(&mut self, row: &Row<'_>)
        requires ascending { Ascend (ranks_of (row_of row.now)) }
        requires fits { (rank : ℕ) → unsigned_abs (value_at self.old.values rank) + size_of
            (row_of row.now) < 2 ^ 127 }
        ensures kept { self.new.kept ≡ self.old.kept }
        ensures len { length self.new.values ≡ length self.old.values }
        ensures value { (rank : ℕ) → value_at self.new.values rank
            ≡ value_at self.old.values rank +ℤ local_part self.old.kept (row_of row.now) rank }
    {
        let share = positive_part(row.before + self.gain(row.cells));
        for cell in row.cells {
            self.add(cell.rank, share);
        }
    }

    /// Adds to the value of each kept rank what a row gives the sets of which it is the least.
    fn add_subtree(&mut self, row: &Row<'_>)
        requires ascending { Ascend (ranks_of (row_of row.now)) }
        requires fits { (rank : ℕ) → unsigned_abs (value_at self.old.values rank) + size_of
            (row_of row.now) < 2 ^ 127 }
        ensures kept { self.new.kept ≡ self.old.kept }
        ensures len { length self.new.values ≡ length self.old.values }
        ensures value { (rank : ℕ) → value_at self.new.values rank
            ≡ value_at self.old.values rank +ℤ subtree_part self.old.kept (row_of row.now) rank }
    {
        let mut rest = self.gain(row.cells);
        for cell in row.cells {
            rest -= self.kept_part(cell);
            self.add(cell.rank, share_of(row.before, cell.value, rest));
        }
    }

    /// Sets the local bounds of the kept ranks.
    pub(crate) fn fill_local(&mut self, rows: &[Row<'_>], keep: &[u32])
        requires kept { AreKept (length self.old.values) keep.now }
        requires rules { AreRows (rows_of rows.now) }
        ensures len { length self.new.values ≡ length self.old.values }
        ensures value { (rank : ℕ) → value_at self.new.values rank
            ≡ set_to (local_bound (rows_of rows.now) keep.now) keep.now rank }
    {
        self.restart(keep);
        for row in rows {
            self.add_local(row);
        }
    }

    /// Sets the subtree bounds of the kept ranks.
    pub(crate) fn fill_subtree(&mut self, rows: &[Row<'_>], keep: &[u32])
        requires kept { AreKept (length self.old.values) keep.now }
        requires rules { AreRows (rows_of rows.now) }
        ensures len { length self.new.values ≡ length self.old.values }
        ensures value { (rank : ℕ) → value_at self.new.values rank
            ≡ set_to (subtree_bound (rows_of rows.now) keep.now) keep.now rank }
    {
        self.restart(keep);
        for row in rows {
            self.add_subtree(row);
        }
    }

    /// A setting of 0 for so many ranks.
    pub(crate) fn new(alloc: Global, ranks: u32) -> Result<Setting, NoMemory>
        ensures value { IfOk result (λ s. s.values ≡ replicate ranks (pos 0)) }
        ensures kept { IfOk result (λ s. s.kept ≡ []) }
    {
        Ok(Setting {
            values: vec![in alloc; 0i128; ranks as usize]?,
            marks: vec![in alloc; false; ranks as usize]?,
            kept: Vec::with_capacity(alloc, ranks as usize)?,
        })
    }
}

/// The sum of three values where it is above 0, else 0.
fn share_of(before: i128, value: i128, rest: i128) -> i128
    requires { unsigned_abs before + unsigned_abs value + unsigned_abs rest < 2 ^ 127 }
    ensures { result ≡ positive_part (before +ℤ value +ℤ rest) }
{
    positive_part(before + value + rest)
}

/// Takes the marks and the values of some ranks away.
fn unset(values: &mut Vec<i128>, marks: &mut Vec<bool>, kept: &[u32])
    requires below { AllByRecursion (λ rank. rank < length values.old.items) kept.now }
    requires marked { length marks.old.items ≡ length values.old.items }
    ensures len { length values.new.items ≡ length values.old.items }
    ensures marked { length marks.new.items ≡ length marks.old.items }
    ensures values { (rank : ℕ) → value_at values.new.items rank
        ≡ (if among rank kept.now then pos 0 else value_at values.old.items rank) }
    ensures marks { (rank : ℕ) → slice_index_or marks.new.items rank false
        ≡ (if among rank kept.now then false else slice_index_or marks.old.items rank false) }
{
    for rank in kept {
        values[*rank as usize] = 0;
        marks[*rank as usize] = false;
    }
}

/// Marks some ranks.
fn mark(marks: &mut Vec<bool>, keep: &[u32])
    requires { AllByRecursion (λ rank. rank < length marks.old.items) keep.now }
    ensures len { length marks.new.items ≡ length marks.old.items }
    ensures marks { (rank : ℕ) → slice_index_or marks.new.items rank false
        ≡ among rank keep.now || slice_index_or marks.old.items rank false }
{
    for rank in keep {
        marks[*rank as usize] = true;
    }
}

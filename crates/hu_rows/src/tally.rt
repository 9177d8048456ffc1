//! What rows say of each rank that they hold.

ghost use Rattle.std.specs.Prelude.{◌≡◌, ◌<◌, ◌^◌, ◌==◌, ◌+◌, ◌+ℤ◌, unsigned_abs, ℕ, pos, length, if◌then◌else◌, IfOk, OnOk};
ghost use Rattle.std.specs.List.{AllByRecursion, Contains};
ghost use Rattle.hu_kind.specs.Order.{Ascend};
ghost use Rattle.hu_kind.specs.Record.{has, gain, positive_part};
ghost use Rattle.hu_totals.specs.View.{cells_of};
ghost use Rattle.hu_rows.specs.Rows.{AreRows, ranks_of, size_of};
ghost use Rattle.hu_rows.specs.Tally.{no_tally, plus, tally_at, share_if, row_share, most, most_with, tail_share, tally_with, told, tail_told, IsClear, Adds, Fits, HasRoom, AreNoted, AreBelow};
ghost use Rattle.hu_rows.specs.Handed.{reaches};
ghost use Rattle.hu_rows.specs.View.{row_of, rows_of};

use crate::rows::{Row, Rows};
use hu_kind::{NoMemory, positive_part};
use hu_totals::Dense;
use std::alloc::Global;
use std::marker::Model;

/// What rows say of a rank.
#[derive(Clone, Copy, Debug, PartialEq, Eq)]
pub struct Tally {
    /// What the rank earns over the rows that hold it.
    pub utility: i128,
    /// How many records these stand for.
    pub count: u64,
    /// What sets with the rank earn at most.
    pub bound: i128,
}

/// A tally for each rank. They are seen as the list of the tallies.
#[derive(Drop)]
pub struct Tallies {
    of_ranks: Vec<Tally>,
}

impl Model for Tallies {
    ghost use Rattle.std.specs.Prelude.{List};
    ghost use Rattle.hu_rows.specs.declared.tally.Tally.{Tally};

    ghost Value = { List Tally };

    ghost view = { λ t. t.of_ranks.items };
}

impl Tallies {
    /// Tallies for so many ranks, of which nothing was told.
    pub fn new(alloc: Global, ranks: u32) -> Result<Tallies, NoMemory>
        ensures ranks { IfOk result (λ tallies. length tallies ≡ ranks) }
        ensures clear { IfOk result IsClear }
    {
        Ok(Tallies {
            of_ranks: vec![in alloc; NONE; ranks as usize]?,
        })
    }

    /// Tells what the rows say of each rank that they hold: what it earns, how many records hold it, and the sum over the
    /// rows that hold it of `max(0, before + values above 0)`, more than which no set with the rank earns. It answers the
    /// ranks that were met. It reads each row's cells twice, and takes no time for other ranks.
    pub fn tell(&mut self, alloc: Global, rows: &Rows<'_>) -> Result<Vec<u32>, NoMemory>
        requires clear { IsClear self.old }
        requires below { AreBelow (length self.old) rows.now }
        ensures len { length self.new ≡ length self.old }
        ensures value { OnOk result ((rank : ℕ) → tally_at self.new rank ≡ told rows.now rank) }
        ensures met { IfOk result (λ met. AreNoted self.new met.items) }
    {
        let mut met = Vec::new(alloc);
        tell_rows(&mut self.of_ranks, &mut met, rows.rows())?;
        Ok(met)
    }

    /// Tells for each rank the sum, over the rows that hold it and a later rank, of `max(0, before + the rank's value +
    /// values above 0 after it)`: no set earns more of which the rank is the least and not the only one. It reads each
    /// row's cells once, from the last backwards.
    pub fn tell_tails(&mut self, rows: &Rows<'_>)
        requires clear { IsClear self.old }
        requires below { AreBelow (length self.old) rows.now }
        ensures len { length self.new ≡ length self.old }
        ensures value { (rank : ℕ) → tally_at self.new rank ≡ tail_told rows.now rank }
    {
        tell_row_tails(&mut self.of_ranks, rows.rows());
    }

    /// The tally of a rank.
    pub fn of(&self, rank: u32) -> Tally
        requires { rank < length self.now }
        ensures value { result ≡ tally_at self.now rank }
    {
        self.of_ranks[rank as usize]
    }

    /// Whether the bound of a rank reaches a floor.
    pub fn reaches(&self, rank: u32, floor: i128) -> bool
        requires { rank < length self.now }
        ensures value { result ≡ reaches self.now floor rank }
    {
        self.of(rank).bound >= floor
    }

    /// Takes the tally of a rank, and leaves it as if nothing was told.
    pub fn take(&mut self, rank: u32) -> Tally
        requires { rank < length self.old }
        ensures value { result ≡ tally_at self.old rank }
        ensures len { length self.new ≡ length self.old }
        ensures left { (other : ℕ) → tally_at self.new other
            ≡ (if other == rank then no_tally else tally_at self.old other) }
    {
        let tally = self.of_ranks[rank as usize];
        self.of_ranks[rank as usize] = NONE;
        tally
    }
}

/// The tally of a rank of which nothing was told.
const NONE: Tally = Tally {
    utility: 0,
    count: 0,
    bound: 0,
};

/// Tells what each row says, and notes the ranks that are met for the first time.
fn tell_rows(tallies: &mut Vec<Tally>, met: &mut Vec<u32>, rows: &[Row<'_>]) -> Result<(), NoMemory>
    requires clear { IsClear tallies.old.items }
    requires noted { AreNoted tallies.old.items met.old.items }
    requires rules { AreRows (rows_of rows.now) }
    requires below { AreBelow (length tallies.old.items) (rows_of rows.now) }
    ensures len { length tallies.new.items ≡ length tallies.old.items }
    ensures value { OnOk result
        ((rank : ℕ) → tally_at tallies.new.items rank ≡ told (rows_of rows.now) rank) }
    ensures noted { OnOk result (AreNoted tallies.new.items met.new.items) }
{
    for row in rows {
        tell_row(tallies, met, row)?;
    }
    Ok(())
}

/// Tells what a row says.
fn tell_row(tallies: &mut Vec<Tally>, met: &mut Vec<u32>, row: &Row<'_>) -> Result<(), NoMemory>
    requires ascending { Ascend (ranks_of (row_of row.now)) }
    requires below { AllByRecursion (λ rank. rank < length tallies.old.items)
        (ranks_of (row_of row.now)) }
    requires room { (rank : ℕ) → HasRoom (tally_at tallies.old.items rank) (row_of row.now) }
    requires noted { AreNoted tallies.old.items met.old.items }
    ensures len { length tallies.new.items ≡ length tallies.old.items }
    ensures value { OnOk result
        (Adds (λ rank. share_if (has rank (row_of row.now).cells)
        (row_share (row_of row.now) rank)) tallies.old.items tallies.new.items) }
    ensures noted { OnOk result (AreNoted tallies.new.items met.new.items) }
{
    let bound = most(row);
    let mut place = row.cells.len();
    while place > 0 {
        place -= 1;
        let cell = row.cells[place];
        note(met, tallies, cell.rank)?;
        add(tallies, cell.rank, share_of(row, cell.value, bound));
    }
    Ok(())
}

/// Tells what each row says of what grows its ranks.
fn tell_row_tails(tallies: &mut Vec<Tally>, rows: &[Row<'_>])
    requires clear { IsClear tallies.old.items }
    requires rules { AreRows (rows_of rows.now) }
    requires below { AreBelow (length tallies.old.items) (rows_of rows.now) }
    ensures len { length tallies.new.items ≡ length tallies.old.items }
    ensures value { (rank : ℕ)
        → tally_at tallies.new.items rank ≡ tail_told (rows_of rows.now) rank }
{
    for row in rows {
        tell_tails(tallies, row);
    }
}

/// Tells what a row says of what grows its ranks.
fn tell_tails(tallies: &mut Vec<Tally>, row: &Row<'_>)
    requires ascending { Ascend (ranks_of (row_of row.now)) }
    requires below { AllByRecursion (λ rank. rank < length tallies.old.items)
        (ranks_of (row_of row.now)) }
    requires room { (rank : ℕ) → HasRoom (tally_at tallies.old.items rank) (row_of row.now) }
    ensures len { length tallies.new.items ≡ length tallies.old.items }
    ensures value { Adds
        (λ rank. share_if (has rank (row_of row.now).cells) (tail_share (row_of row.now) rank))
        tallies.old.items tallies.new.items }
{
    let mut rest = 0;
    let mut place = row.cells.len();
    while place > 0 {
        place -= 1;
        let cell = row.cells[place];
        let earned = earned_with(row.before, cell.value);
        add(
            tallies,
            cell.rank,
            tail_share(earned, rest, &row.cells[place + 1..]),
        );
        rest = with_gain(rest, cell.value);
    }
}

/// What a row tells of a cell's rank.
fn share_of(row: &Row<'_>, value: i128, bound: i128) -> Tally
    requires { unsigned_abs row.now.before + unsigned_abs value < 2 ^ 127 }
    ensures { result ≡ tally_with (row.now.before +ℤ value) row.now.count bound }
{
    Tally {
        utility: earned_with(row.before, value),
        count: row.count,
        bound,
    }
}

/// What a row tells of what grows a rank, with which its prefix earned so much, and after which these cells stand, whose
/// values above 0 sum to `rest`.
fn tail_share(earned: i128, rest: i128, tail: &[Dense]) -> Tally
    requires rest { rest ≡ gain (cells_of tail.now) }
    requires fits { unsigned_abs earned + unsigned_abs rest < 2 ^ 127 }
    ensures { result ≡ tally_with (pos 0) 0 (most_with earned (cells_of tail.now)) }
{
    if tail.is_empty() {
        return NONE;
    }
    Tally {
        utility: 0,
        count: 0,
        bound: positive_part(earned + rest),
    }
}

/// What a prefix earns with a rank more.
fn earned_with(before: i128, value: i128) -> i128
    requires { unsigned_abs before + unsigned_abs value < 2 ^ 127 }
    ensures { result ≡ before +ℤ value }
{
    before + value
}

/// The most that a row gives a set of its ranks.
fn most(row: &Row<'_>) -> i128
    requires { size_of (row_of row.now) < 2 ^ 127 }
    ensures { result ≡ most (row_of row.now) }
{
    let mut sum = 0;
    let mut place = row.cells.len();
    while place > 0 {
        place -= 1;
        sum = with_gain(sum, row.cells[place].value);
    }
    positive_part(row.before + sum)
}

/// A sum of values above 0 with one value more.
fn with_gain(sum: i128, value: i128) -> i128
    requires { unsigned_abs sum + unsigned_abs value < 2 ^ 127 }
    ensures { result ≡ positive_part value +ℤ sum }
{
    positive_part(value) + sum
}

/// Notes a rank of which nothing was told yet.
fn note(met: &mut Vec<u32>, tallies: &[Tally], rank: u32) -> Result<(), NoMemory>
    requires within { rank < length tallies.now }
    requires noted { AreNoted tallies.now met.old.items }
    ensures noted { OnOk result (AreNoted tallies.now met.new.items) }
    ensures here { OnOk result (Contains met.new.items rank) }
{
    if tallies[rank as usize].count == 0 {
        met.push(rank)?;
    }
    Ok(())
}

/// Adds a share to the tally of a rank.
fn add(tallies: &mut Vec<Tally>, rank: u32, share: Tally)
    requires within { rank < length tallies.old.items }
    requires fits { Fits (tally_at tallies.old.items rank) share }
    ensures len { length tallies.new.items ≡ length tallies.old.items }
    ensures value { Adds
        (λ other. share_if (other == rank) share) tallies.old.items tallies.new.items }
{
    tallies[rank as usize] = sum_of(tallies[rank as usize], share);
}

/// The sums of two tallies.
fn sum_of(a: Tally, b: Tally) -> Tally
    requires { Fits a b }
    ensures { result ≡ plus a b }
{
    Tally {
        utility: a.utility + b.utility,
        count: a.count + b.count,
        bound: a.bound + b.bound,
    }
}

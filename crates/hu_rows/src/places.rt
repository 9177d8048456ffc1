//! Where the ranks of rows stand, and the rows that a rank is handed.

ghost use Rattle.std.specs.Prelude.{◌≡◌, ◌==◌, ◌<◌, ◌++◌, ◌^◌, ◌&&◌, ℕ, [], ◌∷◌, map, length, if◌then◌else◌, IfOk, OnOk};
ghost use Rattle.std.specs.List.{AllByRecursion};
ghost use Rattle.hu_kind.specs.Record.{items_in};
ghost use Rattle.hu_totals.specs.View.{cells_of, lists_in};
ghost use Rattle.hu_rows.specs.Rows.{AreRows, size_of};
ghost use Rattle.hu_rows.specs.Tally.{AreBelow};
ghost use Rattle.hu_rows.specs.Handed.{reaches, handed_if, row_after, row_at, places_at, IsWithin, ArePlaces, AreEmpty};
ghost use Rattle.hu_rows.specs.Places.{places_in};
ghost use Rattle.hu_rows.specs.View.{row_of, rows_of};

use crate::rows::{Row, Rows};
use crate::tally::Tallies;
use bumpalo::Bump;
use hu_kind::NoMemory;
use hu_totals::{Dense, empty_lists};
use std::alloc::Global;
use std::marker::Model;

/// Where a rank stands: in which row, and at which of its cells.
#[derive(Clone, Copy, Debug, PartialEq, Eq)]
pub struct Place {
    /// The place of the row.
    pub row: usize,
    /// The place of the cell.
    pub cell: usize,
}

/// A list of places for each rank. They are seen as these lists.
#[derive(Drop)]
pub struct Places {
    of_ranks: Vec<Vec<Place>>,
}

impl Model for Places {
    ghost use Rattle.std.specs.Prelude.{List};
    ghost use Rattle.hu_rows.specs.declared.places.Place.{Place};
    ghost use Rattle.hu_totals.specs.View.{lists_in};

    ghost Value = { List (List Place) };

    ghost view = { λ p. lists_in p.of_ranks.items };
}

impl Places {
    /// Lists for so many ranks, without places.
    pub fn new(alloc: Global, ranks: u32) -> Result<Places, NoMemory>
        ensures ranks { IfOk result (λ places. length places ≡ ranks) }
        ensures empty { IfOk result AreEmpty }
    {
        Ok(Places {
            of_ranks: empty_lists(alloc, ranks as usize)?,
        })
    }

    /// Hands each row to the ranks in it that a cell follows and whose bound reaches a floor: their places give the rows
    /// that hold them, projected by them, but for those that no cell is left of. It reads each cell once.
    pub fn hand_out(
        &mut self,
        rows: &Rows<'_>,
        tallies: &Tallies,
        floor: i128,
    ) -> Result<(), NoMemory>
        requires empty { AreEmpty self.old }
        requires below { AreBelow (length self.old) rows.now }
        requires told { length tallies.now ≡ length self.old }
        ensures len { length self.new ≡ length self.old }
        ensures value { OnOk result ((rank : ℕ) → ArePlaces rows.now
            (handed_if (reaches tallies.now floor rank) rank rows.now)
            (places_at self.new rank)) }
    {
        hand_rows(&mut self.of_ranks, rows.rows(), tallies, floor)
    }

    /// The places of a rank.
    pub fn of(&self, alloc: Global, rank: u32) -> Result<Vec<Place>, NoMemory>
        requires { rank < length self.now }
        ensures value { IfOk result (λ list. list.items ≡ places_at self.now rank) }
    {
        Ok(Vec::from_slice(alloc, self.of_ranks[rank as usize].as_slice())?)
    }

    /// Takes the places of a rank, and leaves it without.
    pub fn take(&mut self, alloc: Global, rank: u32) -> Vec<Place>
        requires { rank < length self.old }
        ensures value { result.items ≡ places_at self.old rank }
        ensures len { length self.new ≡ length self.old }
        ensures left { (other : ℕ) → places_at self.new other
            ≡ (if other == rank then [] else places_at self.old other) }
    {
        std::mem::replace(&mut self.of_ranks[rank as usize], Vec::new(alloc))
    }
}

/// The rows that places of rows give: each has the cells after its place, and `before` grown by the value there. They
/// borrow their cells; it takes time for each place.
pub fn rows_at<'a, 'b: 'a>(
    alloc: Global,
    rows: &Rows<'b>,
    places: &[Place],
    arena: &'a Bump<Global>,
) -> Result<Rows<'a>, NoMemory>
    requires within { AllByRecursion (IsWithin rows.now) places.now }
    requires rules { AreRows (map (row_at rows.now) places.now) }
    ensures { IfOk result (λ answer. answer ≡ map (row_at rows.now) places.now) }
{
    let mut answer = Vec::with_capacity(alloc, places.len())?;
    let all = rows.rows();
    for place in places {
        answer.push(row_after(&all[place.row], place.cell))?;
    }
    Ok(Rows::over(arena.try_alloc_slice_copy(answer.as_slice())?))
}

/// A row projected by the rank at a place.
fn row_after<'a, 'b: 'a>(row: &Row<'b>, cell: usize) -> Row<'a>
    requires within { cell < length row.now.cells.now }
    requires size { size_of (row_of row.now) < 2 ^ 127 }
    ensures { row_of result ≡ row_after (row_of row.now) cell }
{
    Row {
        before: row.before + row.cells[cell].value,
        count: row.count,
        cells: &row.cells[cell + 1..],
    }
}

/// Hands each row to the ranks in it that a cell follows and whose bound reaches a floor.
fn hand_rows(
    lists: &mut Vec<Vec<Place>>,
    rows: &[Row<'_>],
    tallies: &Tallies,
    floor: i128,
) -> Result<(), NoMemory>
    requires empty { AreEmpty (lists_in lists.old.items) }
    requires rules { AreRows (rows_of rows.now) }
    requires below { AreBelow (length (lists_in lists.old.items)) (rows_of rows.now) }
    requires told { length tallies.now ≡ length (lists_in lists.old.items) }
    ensures len { length (lists_in lists.new.items) ≡ length (lists_in lists.old.items) }
    ensures value { OnOk result ((rank : ℕ) → ArePlaces (rows_of rows.now)
        (handed_if (reaches tallies.now floor rank) rank (rows_of rows.now))
        (places_at (lists_in lists.new.items) rank)) }
{
    for row in 0..rows.len() {
        hand_row(lists, row, rows[row].cells, tallies, floor)?;
    }
    Ok(())
}

/// Puts the places of a row's cells but the last to the lists of their ranks, where the ranks' bounds reach a floor.
fn hand_row(
    lists: &mut Vec<Vec<Place>>,
    row: usize,
    cells: &[Dense],
    tallies: &Tallies,
    floor: i128,
) -> Result<(), NoMemory>
    requires below { AllByRecursion (λ rank. rank < length (lists_in lists.old.items))
        (items_in (cells_of cells.now)) }
    requires told { length tallies.now ≡ length (lists_in lists.old.items) }
    ensures len { length (lists_in lists.new.items) ≡ length (lists_in lists.old.items) }
    ensures value { OnOk result ((rank : ℕ) → places_at (lists_in lists.new.items) rank
        ≡ places_at (lists_in lists.old.items) rank
        ++ places_in (reaches tallies.now floor) row (cells_of cells.now) rank) }
{
    for next in 1..cells.len() {
        let cell = next - 1;
        let rank = cells[cell].rank;
        push_place(
            lists,
            rank,
            Place { row, cell },
            tallies.reaches(rank, floor),
        )?;
    }
    Ok(())
}

/// Puts a place to the list of a rank, where that is open.
fn push_place(
    lists: &mut Vec<Vec<Place>>,
    rank: u32,
    place: Place,
    is_open: bool,
) -> Result<(), NoMemory>
    requires { rank < length (lists_in lists.old.items) }
    ensures len { length (lists_in lists.new.items) ≡ length (lists_in lists.old.items) }
    ensures value { OnOk result ((other : ℕ) → places_at (lists_in lists.new.items) other
        ≡ places_at (lists_in lists.old.items) other
        ++ (if is_open && (other == rank) then place ∷ [] else [])) }
{
    if is_open {
        lists[rank as usize].push(place)?;
    }
    Ok(())
}

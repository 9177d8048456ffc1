//! A level of the search.

ghost use Rattle.std.specs.Prelude.{◌≡◌, ◌<◌, ℕ, ◌⊎◌, pos, ◌≤ℤ◌, [], ◌∷◌, map, length, IfOk, OnOk, OnErr};
ghost use Rattle.std.specs.List.{AllByRecursion, Contains};
ghost use Rattle.hu_totals.specs.Ranked.{IsRanking};
ghost use Rattle.hu_collect.specs.State.{IsInOrder, ReachedSome};
ghost use Rattle.hu_rows.specs.Rows.{AreCounted, count_over};
ghost use Rattle.hu_rows.specs.Tally.{AreBelow};
ghost use Rattle.hu_rows.specs.Handed.{AreEmpty, places_at};
ghost use Rattle.hu_totals.specs.View.{lists_in};
ghost use Rattle.hu_search.specs.Growth.{Grows};
ghost use Rattle.hu_search.specs.Children.{ranks_of};
ghost use Rattle.hu_project.specs.Level.{IsLevel, IsBoard, IsPrepared, IsChoice};

use crate::children::{children_of, forget, kept_of, open_of};
use bumpalo::Bump;
use hu_collect::Collect;
use hu_kind::NoMemory;
use hu_rows::{Place, Places, Rows, Tallies, narrow};
use hu_search::{Child, best_first, offer_children};
use hu_totals::Ranked;
use std::alloc::Global;

/// What stays the same through a search: the allocator, and the records by the ranks of their items.
#[derive(Drop)]
pub(crate) struct Walk<'a> {
    pub alloc: Global,
    pub ranked: &'a Ranked,
}

/// What the levels of a search share: room for what rows say of each rank, and for where each rank stands.
#[derive(Drop)]
pub(crate) struct Board {
    pub tallies: Tallies,
    pub places: Places,
}

impl Board {
    /// Room for so many ranks.
    pub(crate) fn new(alloc: Global, ranks: u32) -> Result<Board, NoMemory>
        ensures { IfOk result (IsBoard ranks) }
    {
        Ok(Board {
            tallies: Tallies::new(alloc, ranks)?,
            places: Places::new(alloc, ranks)?,
        })
    }
}

/// What is open of a set: its rows with the ranks that may lead to something, the children to be entered, best bound
/// first, and where each of these stands in the rows.
#[derive(Drop)]
pub(crate) struct Open<'a> {
    pub rows: Rows<'a>,
    pub children: Vec<Child>,
    pub places: Vec<Vec<Place>>,
}

impl<'a> Open<'a> {
    /// Nothing is open.
    fn none(alloc: Global) -> Open<'a>
        ensures rows { result.rows ≡ [] }
        ensures children { result.children.items ≡ [] }
        ensures places { result.places.items ≡ [] }
    {
        Open {
            rows: Rows::none(),
            children: Vec::new(alloc),
            places: Vec::new(alloc),
        }
    }
}

/// Offers the children of a set, and says what is open of it.
pub(crate) fn open_children<'a, C: Collect>(
    walk: &Walk<'_>,
    rows: &Rows<'a>,
    arena: &'a Bump<Global>,
    ranks: &[u32],
    board: &mut Board,
    collect: &mut C,
) -> Result<Open<'a>, NoMemory>
    requires rules { IsRanking walk.now.ranked.now }
    requires ordered { IsInOrder (C.state collect.old) }
    requires level { IsLevel (C.state collect.old) walk.now.ranked.now ranks.now rows.now }
    requires board { IsBoard (length walk.now.ranked.now.items) board.old }
    ensures board { OnOk result (IsBoard (length walk.now.ranked.now.items) board.new) }
    ensures ok { IfOk result
        (IsPrepared (C.state collect.old) (C.state collect.new) walk.now.ranked.now ranks.now) }
    ensures err { OnErr result (ReachedSome (C.state collect.old)
        (Grows walk.now.ranked.now ranks.now) (C.state collect.new)) }
{
    let Walk { alloc, ranked } = *walk;
    let met = board.tallies.tell(alloc, rows)?;
    let children = children_of(alloc, &met, &board.tallies)?;
    offer_children(alloc, ranked, ranks, &children, collect)?;
    let floor = collect.floor();
    let kept = kept_of(alloc, &children, floor)?;
    if kept.len() < 2 {
        forget(&mut board.tallies, &met);
        return Ok(Open::none(alloc));
    }
    let rows = narrow(alloc, rows, &board.tallies, floor, arena)?;
    forget(&mut board.tallies, &met);
    choose(alloc, rows, &met, &kept, floor, board)
}

/// Of the kept children those to be entered.
fn choose<'a>(
    alloc: Global,
    rows: Rows<'a>,
    met: &[u32],
    kept: &[Child],
    floor: i128,
    board: &mut Board,
) -> Result<Open<'a>, NoMemory>
    requires board { IsBoard (length board.old.tallies) board.old }
    requires below { AreBelow (length board.old.tallies) rows }
    requires counted { AreCounted rows }
    requires met { AllByRecursion (λ rank. rank < length board.old.tallies) met.now }
    requires noted { (rank : ℕ) → 0 < count_over rows (rank ∷ []) → Contains met.now rank }
    requires kept { AllByRecursion (λ child. child.rank < length board.old.tallies) kept.now }
    requires held { (rank : ℕ) → 0 < count_over rows (rank ∷ [])
        → Contains (ranks_of kept.now) rank }
    requires least { pos 1 ≤ℤ floor }
    ensures board { OnOk result (IsBoard (length board.old.tallies) board.new) }
    ensures ok { IfOk result (IsChoice rows.entry kept.now floor) }
{
    board.tallies.tell_tails(&rows);
    board.places.hand_out(&rows, &board.tallies, floor)?;
    let mut children = open_of(alloc, kept, &board.tallies, floor)?;
    forget(&mut board.tallies, met);
    best_first(&mut children);
    let places = places_of(alloc, &children, &board.places)?;
    clear(alloc, &mut board.places, &children);
    Ok(Open {
        rows,
        children,
        places,
    })
}

/// The places of each child.
fn places_of(
    alloc: Global,
    children: &[Child],
    places: &Places,
) -> Result<Vec<Vec<Place>>, NoMemory>
    requires below { AllByRecursion (λ child. child.rank < length places.now) children.now }
    ensures { IfOk result (λ lists. lists_in lists.items
        ≡ map (λ child. places_at places.now child.rank) children.now) }
{
    let mut lists = Vec::with_capacity(alloc, children.len())?;
    for child in children {
        lists.push(places.of(alloc, child.rank)?)?;
    }
    Ok(lists)
}

/// Takes the places of these children away.
fn clear(alloc: Global, places: &mut Places, children: &[Child])
    requires below { AllByRecursion (λ child. child.rank < length places.old) children.now }
    requires each { (rank : ℕ)
        → Contains (ranks_of children.now) rank ⊎ (places_at places.old rank ≡ []) }
    ensures len { length places.new ≡ length places.old }
    ensures empty { AreEmpty places.new }
{
    for child in children {
        places.take(alloc, child.rank);
    }
}

//! The engine over projected rows.

ghost use Rattle.std.specs.Prelude.{◌≡◌, ◌≤ℤ◌, ◌<◌, [], ◌∷◌, ◌++◌, map, length, OnOk};
ghost use Rattle.std.specs.List.{AllByRecursion, Contains};
ghost use Rattle.hu_kind.specs.Itemsets.{item_patterns};
ghost use Rattle.hu_kind.specs.Order.{Ascend};
ghost use Rattle.hu_totals.specs.Ranked.{unranked, IsRanking};
ghost use Rattle.hu_collect.specs.Ranks.{RestsOn};
ghost use Rattle.hu_collect.specs.State.{floor_in, IsInOrder, Searches, Mines};
ghost use Rattle.hu_rows.specs.Rows.{AreRows};
ghost use Rattle.hu_rows.specs.Handed.{ArePlaces, handed};
ghost use Rattle.hu_search.specs.Growth.{Grows, InTable};
ghost use Rattle.hu_project.specs.Level.{IsLevel, IsBoard, IsLater};

use crate::level::{Board, Walk, open_children};
use bumpalo::Bump;
use hu_collect::Collect;
use hu_kind::NoMemory;
use hu_rows::{Place, Rows, rows_at};
use hu_search::opens;
use hu_totals::Ranked;
use std::alloc::Global;

/// Offers the itemsets of the ranked records that can change what the collector holds, with their utility and support, so
/// that it holds what all itemsets would make. All sets with one rank more than a set are offered before any of these is
/// entered; then they are entered best bound first, up to the first whose bound is below the floor of the moment. A step reads
/// the cells of a set's rows some five times, and takes no time for ranks that they don't hold. Each open set has an arena of
/// its own, which goes when the set is left; a level of the search takes a few hundred bytes of the stack. After want of memory
/// some of the itemsets have been offered. After EFIM (Zida, Fournier-Viger, Lin, Wu and Tseng, 2015).
pub fn mine<C: Collect>(alloc: Global, ranked: &Ranked, collect: &mut C) -> Result<(), NoMemory>
    requires floor { ranked.now.floor ≤ℤ floor_in (C.state collect.old) }
    requires rests { RestsOn (C.state collect.old).rule.table ranked.now.items }
    ensures { Mines (C.state collect.old) (item_patterns (unranked ranked.now))
        (C.state collect.new) result }
{
    // These tell the proof the rules of ranked records, and that the collector is in order.
    let _records = ranked.records();
    let _floor = collect.floor();
    let mut board = Board::new(alloc, ranked.len())?;
    let boxed = Box::new(alloc, Level::new(alloc))?;
    let level = &*boxed;
    let rows = Rows::of(alloc, ranked, &level.arena)?;
    search(
        &Walk { alloc, ranked },
        &rows,
        &level.arena,
        &mut Vec::new(alloc),
        &mut board,
        collect,
    )
}

/// What a level of the search keeps: the arena of its rows.
#[derive(Drop)]
struct Level {
    arena: Bump<Global>,
}

impl Level {
    /// A level without rows.
    fn new(alloc: Global) -> Level {
        Level {
            arena: Bump::new(alloc),
        }
    }
}

/// Offers the sets that grow a set by later ranks.
#[cycle(search)]
fn search<'a, C: Collect>(
    walk: &Walk<'_>,
    rows: &Rows<'a>,
    arena: &'a Bump<Global>,
    ranks: &mut Vec<u32>,
    board: &mut Board,
    collect: &mut C,
) -> Result<(), NoMemory>
    requires rules { IsRanking walk.now.ranked.now }
    requires ordered { IsInOrder (C.state collect.old) }
    requires level { IsLevel (C.state collect.old) walk.now.ranked.now ranks.old.items rows.now }
    requires board { IsBoard (length walk.now.ranked.now.items) board.old }
    requires rests { RestsOn (C.state collect.old).rule.table walk.now.ranked.now.items }
    ensures ranks { OnOk result (ranks.new.items ≡ ranks.old.items) }
    ensures board { OnOk result (IsBoard (length walk.now.ranked.now.items) board.new) }
    ensures made { Searches (C.state collect.old) (Grows walk.now.ranked.now ranks.old.items)
        (C.state collect.new) result }
{
    let open = open_children(walk, rows, arena, ranks, board, collect)?;
    'children: for at in 0..open.children.len() {
        let child = open.children[at];
        if child.bound < collect.floor() {
            return Ok(());
        }
        let places = open.places[at].as_slice();
        enter(walk, &open.rows, places, child.rank, ranks, board, collect)?;
    }
    Ok(())
}

/// Offers the sets that grow a set with one rank more, which is handed rows by places.
#[cycle(search)]
fn enter<C: Collect>(
    walk: &Walk<'_>,
    rows: &Rows<'_>,
    places: &[Place],
    rank: u32,
    ranks: &mut Vec<u32>,
    board: &mut Board,
    collect: &mut C,
) -> Result<(), NoMemory>
    requires rules { IsRanking walk.now.ranked.now }
    requires ordered { IsInOrder (C.state collect.old) }
    requires later { IsLater walk.now.ranked.now ranks.old.items rank }
    requires places { ArePlaces rows.now (handed rank rows.now) places.now }
    requires level { IsLevel (C.state collect.old) walk.now.ranked.now
        (ranks.old.items ++ rank ∷ []) (handed rank rows.now) }
    requires board { IsBoard (length walk.now.ranked.now.items) board.old }
    requires rests { RestsOn (C.state collect.old).rule.table walk.now.ranked.now.items }
    ensures ranks { OnOk result (ranks.new.items ≡ ranks.old.items) }
    ensures board { OnOk result (IsBoard (length walk.now.ranked.now.items) board.new) }
    ensures made { Searches (C.state collect.old)
        (Grows walk.now.ranked.now (ranks.old.items ++ rank ∷ [])) (C.state collect.new) result }
{
    let Walk { alloc, ranked } = *walk;
    if !opens(alloc, ranked, ranks, rank, collect)? {
        return Ok(());
    }
    let boxed = Box::new(alloc, Level::new(alloc))?;
    let level = &*boxed;
    let rows = rows_at(alloc, rows, places, &level.arena)?;
    ranks.push(rank)?;
    search(walk, &rows, &level.arena, ranks, board, collect)?;
    ranks.pop();
    Ok(())
}

//! The most that a set with so many later ranks can earn.

ghost use Rattle.std.specs.Prelude.{◌≡◌, ◌≤◌, ◌<◌, ◌^◌, ◌≤ℤ◌, pos, int_lt, map, take, length, unsigned_abs, if◌then◌else◌, IfOk, OnOk};
ghost use Rattle.std.specs.List.{AllByRecursion, position, position_or_len};
ghost use Rattle.hu_kind.specs.Order.{Ascend};
ghost use Rattle.hu_kind.specs.Record.{items_in, positive_part};
ghost use Rattle.hu_totals.specs.View.{dense_pair, pairs_in};
ghost use Rattle.hu_list.specs.Nodes.{weight_of};
ghost use Rattle.hu_lengths.specs.Bound.{values_after, put, falling, sum_of, most_at, most_of, IsNodeAt, IsList, IsSizedBound, BoundsSized};

use hu_kind::{NoMemory, positive_part};
use hu_list::{Node, UtilityList};
use hu_totals::{Dense, Ranked};
use std::alloc::Global;

/// The most that the set of a list can earn with at most `room` later ranks: in each record that holds the set, what it earns and
/// the greatest values above 0 after its last rank, `room` of them at most, where that is above 0. `last` is the set's last rank.
/// It takes one pass over what stands after it in the records, and keeps `room` values. After FHM+ (Fournier-Viger, Lin, Duong
/// and Dam, 2016).
pub fn bound(
    alloc: Global,
    ranked: &Ranked,
    list: &UtilityList,
    last: u32,
    room: u32,
) -> Result<i128, NoMemory>
    requires list { IsList ranked.now list.now last }
    ensures value { IfOk result (IsSizedBound ranked.now list.now last room) }
    ensures law { IfOk result (BoundsSized ranked.now list.now last room) }
{
    let records = ranked.records();
    let mut sum = 0;
    for node in list.nodes() {
        sum += most_at(alloc, records, node, last, room)?;
    }
    Ok(sum)
}

/// What a set and the greatest values after its last rank come to at a node, `room` of them at most, where that is above 0.
fn most_at(
    alloc: Global,
    records: &[Vec<Dense>],
    node: &Node,
    last: u32,
    room: u32,
) -> Result<i128, NoMemory>
    requires node { IsNodeAt (map pairs_in records.now) last node.now }
    requires fits { weight_of node.now < 2 ^ 127 }
    ensures { IfOk result (λ most. most ≡ most_at (map pairs_in records.now) last room node.now) }
{
    let best = greatest(alloc, &records[node.place as usize], last, room)?;
    Ok(positive_part(node.own + total(&best)))
}

/// The sum of values of which none is below 0.
fn total(values: &[i128]) -> i128
    requires least { AllByRecursion (λ value. pos 0 ≤ℤ value) values.now }
    requires fits { unsigned_abs (sum_of values.now) < 2 ^ 127 }
    ensures { result ≡ sum_of values.now }
{
    let mut sum = 0;
    for value in values {
        sum += *value;
    }
    sum
}

/// The values above 0 after a rank, the greatest first, `room` of them at most.
fn greatest(alloc: Global, cells: &[Dense], last: u32, room: u32) -> Result<Vec<i128>, NoMemory>
    requires ascending { Ascend (items_in (map dense_pair cells.now)) }
    ensures { IfOk result (λ best. best.items ≡ take room
        (falling (values_after last (map dense_pair cells.now)))) }
{
    let mut best = Vec::new(alloc);
    for back in 0..cells.len() {
        let cell = &cells[cells.len() - 1 - back];
        if cell.rank <= last {
            break;
        }
        keep_above_none(&mut best, cell.value, room)?;
    }
    Ok(best)
}

/// Puts a value above 0 into falling ones, of which the first `room` stay.
fn keep_above_none(best: &mut Vec<i128>, value: i128, room: u32) -> Result<(), NoMemory>
    ensures { OnOk result
        (best.new.items
        ≡ (if int_lt (pos 0) value then take room
        (put value best.old.items) else best.old.items)) }
{
    if value > 0 {
        let place = place_of(best, value);
        best.insert(place, value)?;
        best.truncate(room as usize);
    }
    Ok(())
}

/// How many values stand before the first one that is less than a value.
fn place_of(values: &[i128], value: i128) -> usize
    ensures value { result ≡ position_or_len (λ other. int_lt other value) values.now }
    ensures within { result ≤ length values.now }
{
    first_below(values, value).unwrap_or(values.len())
}

/// The index of the first value that is less than a value.
fn first_below(values: &[i128], value: i128) -> Option<usize>
    ensures { result ≡ position (λ other. int_lt other value) values.now }
{
    values.iter().position(|other| *other < value)
}

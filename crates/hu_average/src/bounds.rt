//! The most that a set with further items can earn for each of its items.

ghost use Rattle.std.specs.Prelude.{◌≡◌, ◌<◌, [], map, length, slice_index_or};
ghost use Rattle.hu_totals.specs.View.{dense_pair, pairs_in};
ghost use Rattle.hu_average.specs.Bound.{greatest, IsSomeList, IsAverageBound, BoundsList};

use hu_list::{Node, UtilityList};
use hu_totals::{Dense, Ranked};

/// The most that a set can earn for each of its items which holds all ranks of the list's set: the sum of the greatest values of
/// the records that hold these, where they are above 0. It takes no memory, and one pass over the records of the list. After Hong,
/// Lee and Wang (2009).
pub fn bound(ranked: &Ranked, list: &UtilityList) -> i128
    requires list { IsSomeList ranked.now list.now }
    ensures value { IsAverageBound ranked.now list.now result }
    ensures law { BoundsList ranked.now list.now result }
{
    let records = ranked.records();
    let mut sum = 0;
    for node in list.nodes() {
        sum += greatest_at(records, node);
    }
    sum
}

/// The greatest value of the record of a node, where it is above 0.
fn greatest_at(records: &[Vec<Dense>], node: &Node) -> i128
    requires { node.now.place < length records.now }
    ensures { result ≡ greatest (slice_index_or (map pairs_in records.now) node.now.place []) }
{
    greatest(&records[node.place as usize])
}

/// The greatest of the values, or 0 where none is above it.
pub(crate) fn greatest(cells: &[Dense]) -> i128
    ensures { result ≡ greatest (map dense_pair cells.now) }
{
    let mut most = 0;
    for cell in cells {
        most = cell.value.max(most);
    }
    most
}

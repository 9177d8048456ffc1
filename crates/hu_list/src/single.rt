//! The lists of single ranks.

ghost use Rattle.std.specs.Prelude.{◌≡◌, ◌+◌, ◌++◌, ◌<◌, ◌^◌, nat_eq, [], ◌∷◌, map, position, IfOk, option_to_list};
ghost use Rattle.hu_kind.specs.Record.{absolute_of};
ghost use Rattle.hu_totals.specs.View.{dense_pair, pairs_in};
ghost use Rattle.hu_list.specs.Nodes.{list_of, nodes_from, node_in, AreRanked};

use crate::list::Node;
use crate::merge::push_some;
use hu_kind::{NoMemory, gain_of};
use hu_totals::Dense;
use std::alloc::Global;

/// The nodes of one rank in all records.
pub(crate) fn nodes_with(
    alloc: Global,
    records: &[Vec<Dense>],
    rank: u32,
) -> Result<Vec<Node>, NoMemory>
    requires { AreRanked (map pairs_in records.now) }
    ensures { IfOk result (λ nodes. nodes.items ≡ list_of (map pairs_in records.now) (rank ∷ [])) }
{
    let mut nodes = Vec::new(alloc);
    for (place, cells) in records.iter().enumerate() {
        push_some(&mut nodes, node_in(place as u64, cells, rank))?;
    }
    Ok(nodes)
}

/// The node of a rank in a record, where it stands there.
fn node_in(place: u64, cells: &[Dense], rank: u32) -> Option<Node>
    requires { absolute_of (map dense_pair cells.now) < 2 ^ 127 }
    ensures { option_to_list result ≡ node_in place rank (map dense_pair cells.now) }
{
    let at = place_of(cells, rank)?;
    Some(Node {
        place,
        own: cells[at].value,
        rest: gain_of(&cells[at + 1..]),
    })
}

/// The index of the cell of a rank, where it stands there.
fn place_of(cells: &[Dense], rank: u32) -> Option<usize>
    ensures { result ≡ position (λ cell. nat_eq cell.rank rank) cells.now }
{
    cells.iter().position(|cell| cell.rank == rank)
}

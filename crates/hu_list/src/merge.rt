//! The merge of a prefix's list and two lists that grow it.

ghost use Rattle.std.specs.Prelude.{◌≡◌, ◌≤◌, nat_le, ◌++◌, length, IfOk, OnOk, option_to_list};
ghost use Rattle.std.specs.List.{position, position_or_len};
ghost use Rattle.hu_list.specs.Joins.{from_place, first_own, joined_node, merged, Fits, AllFit};

use crate::list::Node;
use hu_kind::NoMemory;
use std::alloc::Global;

/// The nodes at the places of all three lists. Each list is gone through once.
pub(crate) fn merged(
    alloc: Global,
    prefix: &[Node],
    x: &[Node],
    y: &[Node],
) -> Result<Vec<Node>, NoMemory>
    requires { AllFit prefix.now x.now y.now }
    ensures { IfOk result (λ nodes. nodes.items ≡ merged prefix.now x.now y.now) }
{
    let mut nodes = Vec::new(alloc);
    let mut before = prefix;
    let mut others = x;
    'nodes: for node in y {
        before = from_place(before, node.place);
        others = from_place(others, node.place);
        push_some(&mut nodes, joined_node(before, others, node))?;
    }
    Ok(nodes)
}

/// The nodes from the first on whose place isn't below the given one.
fn from_place(nodes: &[Node], place: u64) -> &[Node]
    ensures { result.now ≡ from_place place nodes.now }
{
    let at = first_from(nodes, place);
    &nodes[at..]
}

/// How many nodes stand before the first one whose place isn't below the given one.
fn first_from(nodes: &[Node], place: u64) -> usize
    ensures value { result ≡ position_or_len (λ node. nat_le place node.place) nodes.now }
    ensures within { result ≤ length nodes.now }
{
    place_of(nodes, place).unwrap_or(nodes.len())
}

/// The index of the first node whose place isn't below the given one.
fn place_of(nodes: &[Node], place: u64) -> Option<usize>
    ensures { result ≡ position (λ node. nat_le place node.place) nodes.now }
{
    nodes.iter().position(|node| node.place >= place)
}

/// The node of the joined set at the place of a node of the second list, where the first list goes on at that place. What the
/// prefix earns there is in both, and is taken off once.
fn joined_node(before: &[Node], others: &[Node], node: &Node) -> Option<Node>
    requires { Fits before.now others.now node.now }
    ensures { result ≡ joined_node before.now others.now node.now }
{
    let other = others.first()?;
    if other.place != node.place {
        return None;
    }
    Some(Node {
        place: node.place,
        own: other.own - first_own(before) + node.own,
        rest: node.rest,
    })
}

/// What the set of a list earns at its first node, 0 where there is none.
fn first_own(nodes: &[Node]) -> i128
    ensures { result ≡ first_own nodes.now }
{
    match nodes.first() {
        Some(node) => node.own,
        None => 0,
    }
}

/// Appends a node, if there is one.
pub(crate) fn push_some(nodes: &mut Vec<Node>, node: Option<Node>) -> Result<(), NoMemory>
    ensures { OnOk result (nodes.new.items ≡ nodes.old.items ++ option_to_list node) }
{
    if let Some(node) = node {
        nodes.push(node)?;
    }
    Ok(())
}

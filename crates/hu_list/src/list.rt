//! Utility lists.

ghost use Rattle.std.specs.Prelude.{◌≡◌, ◌<◌, ◌^◌, ℕ, ℤ, List, [], ◌∷◌, ◌++◌, length, option_copied, IfOk};
ghost use Rattle.std.specs.List.{sum_by};
ghost use Rattle.hu_kind.specs.Database.{utility};
ghost use Rattle.hu_list.specs.Nodes.{list_of, weight_of};
ghost use Rattle.hu_list.specs.Bounds.{own_sum, most_at, bound_of, list_bound, BoundsGrown};
ghost use Rattle.hu_list.specs.Joins.{nodes_before, CanJoin, Joins};

use crate::merge::merged;
use crate::single::nodes_with;
use hu_kind::NoMemory;
use hu_totals::Ranked;
use std::alloc::Global;
use std::marker::Model;

/// What a set of ranks earns in a record that holds it.
#[derive(Clone, Copy, Debug, PartialEq, Eq)]
pub struct Node {
    /// The place of the record among the ranked records, from 0.
    pub place: u64,
    /// The utility of the set there.
    pub own: i128,
    /// The sum of the values above 0 at ranks after the set's last.
    pub rest: i128,
}

impl Node {
    /// The most that the set with later ranks can earn in the record.
    fn most(&self) -> i128
        requires { weight_of self.now < 2 ^ 127 }
        ensures { result ≡ most_at self.now }
    {
        (self.own + self.rest).max(0)
    }
}

/// The utility list of a set of ranks: a node for each record that holds the set, by place ascending. It is seen as the list
/// of its nodes, whose absolute values sum to at most 2^127 - 1. After HUI-Miner (Liu and Qu, 2012).
#[derive(Drop)]
pub struct UtilityList {
    nodes: Vec<Node>,
}

impl Model for UtilityList {
    ghost use Rattle.std.specs.Prelude.{List, ◌<◌, ◌^◌};
    ghost use Rattle.std.specs.List.{sum_by};
    ghost use Rattle.hu_list.specs.declared.list.Node.{Node};
    ghost use Rattle.hu_list.specs.Nodes.{weight_of};

    ghost Value = { List Node };

    ghost view = { λ l. l.nodes.items };

    ghost invariant = { λ l. sum_by weight_of l.nodes.items < 2 ^ 127 };
}

impl UtilityList {
    /// The list of one rank. It takes one pass over the ranked records.
    pub fn build(alloc: Global, ranked: &Ranked, rank: u32) -> Result<UtilityList, NoMemory>
        requires { rank < length ranked.now.items }
        ensures { IfOk result (λ list. list ≡ list_of ranked.now.records (rank ∷ [])) }
    {
        let nodes = nodes_with(alloc, ranked.records(), rank)?;
        Ok(UtilityList { nodes })
    }

    /// The list of a set with two later ranks. `x` and `y` are the lists of the set with one of them each, the lesser rank's
    /// first, and `prefix` is that of the set itself, none where it is empty. It is one merge of the three lists by places.
    pub fn join(
        alloc: Global,
        prefix: Option<&UtilityList>,
        x: &UtilityList,
        y: &UtilityList,
    ) -> Result<UtilityList, NoMemory>
        requires { CanJoin (option_copied prefix) x.now y.now }
        ensures { (records : List (List (ℕ × ℤ))) → (ranks : List ℕ) → (a : ℕ) → (b : ℕ)
            → Joins (option_copied prefix.entry) x.now y.now records ranks a b
            → IfOk result (λ list. list ≡ list_of records (ranks ++ a ∷ b ∷ [])) }
    {
        let nodes = merged(alloc, nodes_before(prefix), x.nodes(), y.nodes())?;
        Ok(UtilityList { nodes })
    }

    /// The list of these nodes.
    pub(crate) fn of(nodes: Vec<Node>) -> UtilityList
        requires { sum_by weight_of nodes.items < 2 ^ 127 }
        ensures { result ≡ nodes.items }
    {
        UtilityList { nodes }
    }

    /// What the set earns in all records, in one pass over the nodes.
    pub fn sum(&self) -> i128
        ensures value { result ≡ own_sum self.now }
        ensures utility { (records : List (List (ℕ × ℤ))) → (ranks : List ℕ)
            → self.now ≡ list_of records ranks
            → result ≡ utility records ranks }
    {
        own_sum(self.nodes())
    }

    /// The most that a set which grows this one by later ranks can earn: of each node what the set and the values above 0 after
    /// it come to there, where that is above 0. The set itself earns no more either. It takes one pass over the nodes.
    pub fn bound(&self) -> i128
        ensures value { result ≡ bound_of self.now }
        ensures records { (records : List (List (ℕ × ℤ))) → (ranks : List ℕ)
            → self.now ≡ list_of records ranks
            → result ≡ list_bound records ranks }
        ensures grown { BoundsGrown self.now result }
    {
        bound_of(self.nodes())
    }

    /// The nodes, by place ascending.
    pub fn nodes(&self) -> &[Node]
        ensures value { result.now ≡ self.now }
        ensures fits { sum_by weight_of self.now < 2 ^ 127 }
    {
        self.nodes.as_slice()
    }
}

/// The nodes of a prefix, none where there is no prefix.
fn nodes_before(prefix: Option<&UtilityList>) -> &[Node]
    ensures { result.now ≡ nodes_before (option_copied prefix.entry) }
{
    match prefix {
        Some(list) => list.nodes(),
        None => &[],
    }
}

/// What a set earns at its nodes.
fn own_sum(nodes: &[Node]) -> i128
    requires { sum_by weight_of nodes.now < 2 ^ 127 }
    ensures { result ≡ own_sum nodes.now }
{
    let mut sum = 0;
    for node in nodes {
        sum += node.own;
    }
    sum
}

/// The most that the set with later ranks can earn at the nodes.
fn bound_of(nodes: &[Node]) -> i128
    requires { sum_by weight_of nodes.now < 2 ^ 127 }
    ensures { result ≡ bound_of nodes.now }
{
    let mut bound = 0;
    for node in nodes {
        bound += node.most();
    }
    bound
}

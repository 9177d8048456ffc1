//! The gate of pairs.

ghost use Rattle.std.specs.Prelude.{◌≡◌, pos, ◌≤ℤ◌, length, IfOk};
ghost use Rattle.hu_raise.specs.Partners.{joins, pair_table, RefusesJustLow};

use crate::partners::partners_of_each;
use hu_collect::Gate;
use hu_kind::NoMemory;
use hu_totals::Ranked;
use std::alloc::Global;
use std::marker::Model;

/// The gate that refuses the pairs of ranks whose records gain less than a floor: no set that holds such a pair earns
/// the floor. It keeps for each rank just the later ranks that it may join, and is seen as the floor and these ranks.
/// After FHM (Fournier-Viger, Wu, Zida and Tseng, 2014).
#[derive(Drop)]
pub struct PairTwu {
    floor: i128,
    partners: Vec<Vec<u32>>,
}

impl Model for PairTwu {
    ghost use Rattle.hu_raise.specs.Partners.{PairTable};
    ghost use Rattle.hu_raise.specs.View.{table_of, IsTable};

    ghost Value = { PairTable };

    ghost view = { λ p. table_of p.floor p.partners.items };

    ghost invariant = { λ p. IsTable (table_of p.floor p.partners.items) };
}

impl PairTwu {
    /// The gate of a floor for ranked records, whose own floor may be another. It takes a pass over all cells, then
    /// for each rank one over the later cells of the records that hold it, and a sort of the ranks that it may join.
    pub fn of(alloc: Global, ranked: &Ranked, floor: i128) -> Result<PairTwu, NoMemory>
        requires { pos 1 ≤ℤ floor }
        ensures value { IfOk result (λ p. p ≡ pair_table ranked.now.records floor (length ranked.now.items)) }
        ensures floor { IfOk result (λ p. ⟦<PairTwu as Gate>⟧.floor p ≡ floor) }
        ensures right { IfOk result (λ p. ⟦<PairTwu as Gate>⟧.IsRightFor p ranked.now.records) }
        ensures exact { IfOk result (RefusesJustLow ranked.now.records) }
    {
        let partners = partners_of_each(alloc, ranked.records(), ranked.len(), floor)?;
        Ok(PairTwu { floor, partners })
    }
}

impl Gate for PairTwu {
    ghost use Rattle.hu_raise.specs.Partners.{RefusesLow};

    ghost floor = { λ p. p.floor };

    ghost IsRightFor = { RefusesLow };

    /// A binary search among the ranks that `a` may join. It takes no memory.
    fn may_join(&self, a: u32, b: u32) -> bool
        ensures exact { result ≡ joins self.now a b }
    {
        match self.partners.get(a as usize) {
            Some(partners) => partners.binary_search(&b).is_ok(),
            None => false,
        }
    }
}

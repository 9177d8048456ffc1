//! The key of a set of ranks.

ghost use Rattle.std.specs.Prelude.{◌≡◌, ◌<◌, pos, [], ◌∷◌, ◌++◌, map, length, slice_index, IfOk};
ghost use Rattle.std.specs.List.{AllByRecursion};
ghost use Rattle.hu_kind.specs.Order.{Ascend};
ghost use Rattle.hu_totals.specs.Ranked.{IsRanking};
ghost use Rattle.hu_collect.specs.Ranks.{key_of};
ghost use Rattle.hu_search.specs.Growth.{InTable};

use hu_kind::{Item, Key, NoMemory};
use hu_totals::Ranked;
use std::alloc::Global;

/// The key of a set of ranks and one rank more: their items, ascending.
pub fn key_of(alloc: Global, ranked: &Ranked, ranks: &[u32], last: u32) -> Result<Key, NoMemory>
    requires rules { IsRanking ranked.now }
    requires table { InTable ranked.now (ranks.now ++ last ∷ []) }
    requires ascending { Ascend (ranks.now ++ last ∷ []) }
    ensures { IfOk result (λ key. key ≡ key_of ranked.now.items (ranks.now ++ last ∷ [])) }
{
    let mut items = items_of(alloc, ranked, ranks)?;
    items.push(ranked.item_of(last))?;
    items.sort_unstable();
    key_with(alloc, &items)
}

/// The items of ranks.
fn items_of(alloc: Global, ranked: &Ranked, ranks: &[u32]) -> Result<Vec<Item>, NoMemory>
    requires { InTable ranked.now ranks.now }
    ensures { IfOk result (λ items. map (λ item. item.0) items.items
        ≡ map (λ rank. slice_index ranked.now.items rank) ranks.now) }
{
    let mut items = Vec::new(alloc);
    for rank in ranks {
        items.push(ranked.item_of(*rank))?;
    }
    Ok(items)
}

/// The key with these items, in their order.
fn key_with(alloc: Global, items: &[Item]) -> Result<Key, NoMemory>
    ensures { IfOk result (λ key. key ≡ map (λ item. pos item.0) items.now) }
{
    let mut key = Key::new(alloc);
    for item in items {
        key.push(i64::from(item.0))?;
    }
    Ok(key)
}

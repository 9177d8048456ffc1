//! The answer after an append.

ghost use Rattle.std.specs.Prelude.{◌≡◌, ◌≤ℤ◌, [], ◌∷◌, ◌++◌, if◌then◌else◌, IfOk, IfSome, OnOk, None, option_copied};
ghost use Rattle.hu_kind.specs.Itemsets.{closed_patterns};
ghost use Rattle.hu_base.specs.Base.{records_of};
ghost use Rattle.hu_collect.specs.Rule.{made, rule_of, floor_of};
ghost use Rattle.hu_kept.specs.Limited.{rule_in, content_in};
ghost use Rattle.hu_closed.specs.ClosedOnly.{IsRankingOf};
ghost use Rattle.hu_totals.specs.Laws.{KeepsPatterns};
ghost use Rattle.hu_totals.specs.Totals.{item_totals};
ghost use Rattle.hu_kept.specs.Kept.{answer_of, patterns_of};
ghost use Rattle.hu_kept.specs.Touched.{is_touched, untouched, within};
ghost use Rattle.hu_kept.specs.Entries.{entries_from, entry_from, keeping, Continues, IsAim};

use crate::aim::Aim;
use crate::batch::Batch;
use crate::gates::Gates;
use crate::held::{Held, by_key};
use crate::holders::Holders;
use crate::search::searched;
use crate::shared::shared;
use crate::start::start_of;
use hu_base::Base;
use hu_closed::{ClosedOnly, RecordSets};
use hu_collect::{Collect, Limited};
use hu_kind::{Entry, Key, NoMemory, Record};
use hu_totals::{RankOrder, Ranked, Totals};
use indexmap::IndexMap;
use std::alloc::Global;

/// The entries of all records by their keys. `touched` is a batch that continues the old entries, after the records that the
/// holders have noted; where there is none, the entries are searched anew.
pub(crate) fn renewed<G: Gates>(
    alloc: Global,
    base: &Base<Record>,
    aim: Aim,
    old: &IndexMap<Key, Held>,
    touched: Option<&Batch>,
    holders: &Holders,
    gates: &G,
) -> Result<IndexMap<Key, Held>, NoMemory>
    requires aim { IsAim aim }
    requires continues { IfSome touched (λ batch. Continues aim (records_of base.now)
        (entries_from old.now.entries) batch.now) }
    requires noted { IfSome touched (λ batch. holders.now ++ batch.now ≡ records_of base.now) }
    ensures { IfOk result (λ held. entries_from held.entries
        ≡ answer_of (keeping aim (records_of base.now))) }
{
    let entries = new_entries(alloc, base, aim, old, touched, holders, gates)?;
    by_key(alloc, entries)
}

/// The entries of all records: those that a batch touches and the old ones that it doesn't, or all searched anew.
fn new_entries<G: Gates>(
    alloc: Global,
    base: &Base<Record>,
    aim: Aim,
    old: &IndexMap<Key, Held>,
    touched: Option<&Batch>,
    holders: &Holders,
    gates: &G,
) -> Result<Vec<Entry>, NoMemory>
    requires aim { IsAim aim }
    requires continues { IfSome touched (λ batch. Continues aim (records_of base.now)
        (entries_from old.now.entries) batch.now) }
    requires noted { IfSome touched (λ batch. holders.now ++ batch.now ≡ records_of base.now) }
    ensures { IfOk result (λ entries. entries.items ≡ answer_of (keeping aim (records_of base.now))) }
{
    match touched {
        Some(batch) => continued(alloc, base, aim, old, batch, holders, gates),
        None => anew(alloc, base, aim, gates),
    }
}

/// The entries of all records, searched from a start that serves them all.
fn anew<G: Gates>(
    alloc: Global,
    base: &Base<Record>,
    aim: Aim,
    gates: &G,
) -> Result<Vec<Entry>, NoMemory>
    requires { IsAim aim }
    ensures { IfOk result (λ entries. entries.items ≡ answer_of (keeping aim (records_of base.now))) }
{
    let totals = Totals::of(alloc, base)?;
    let start = start_of(alloc, &totals, aim)?;
    let collect = Limited::new(alloc, aim.top, start);
    entries_of(alloc, base, &totals, aim.closed, gates, collect, None)
}

/// The entries of all records, of which only those are searched that a batch touches, in what the records share with it.
/// Items that the batch doesn't hold take no ranks.
fn continued<G: Gates>(
    alloc: Global,
    base: &Base<Record>,
    aim: Aim,
    old: &IndexMap<Key, Held>,
    batch: &Batch,
    holders: &Holders,
    gates: &G,
) -> Result<Vec<Entry>, NoMemory>
    requires aim { IsAim aim }
    requires continues { Continues aim (records_of base.now) (entries_from old.now.entries) batch.now }
    requires noted { holders.now ++ batch.now ≡ records_of base.now }
    ensures { IfOk result (λ entries. entries.items ≡ answer_of (keeping aim (records_of base.now))) }
{
    let places = holders.places(alloc, batch, base.records().len())?;
    let narrow = shared(alloc, base, &places, batch)?;
    let totals = Totals::of(alloc, &narrow)?;
    let sets = batch.sets();
    let collect = with_untouched(alloc, aim, old, sets)?;
    entries_of(
        alloc,
        &narrow,
        &totals,
        aim.closed,
        gates,
        collect,
        Some(sets),
    )
}

/// A collector with the old entries that a batch doesn't touch.
fn with_untouched(
    alloc: Global,
    aim: Aim,
    old: &IndexMap<Key, Held>,
    batch: &RecordSets,
) -> Result<Limited, NoMemory>
    requires { IsAim aim }
    ensures rule { IfOk result (λ collect. rule_in collect ≡ rule_of aim.least aim.top) }
    ensures content { IfOk result (λ collect. content_in collect
        ≡ made (rule_of aim.least aim.top) [] (untouched batch.now
        (entries_from old.now.entries))) }
{
    let mut collect = Limited::new(alloc, aim.top, aim.least);
    for (key, held) in old.iter() {
        offer_untouched(alloc, &mut collect, key, held, batch)?;
    }
    Ok(collect)
}

/// Offers a copy of an entry, if a batch doesn't touch it.
fn offer_untouched(
    alloc: Global,
    collect: &mut Limited,
    key: &Key,
    held: &Held,
    batch: &RecordSets,
) -> Result<(), NoMemory>
    ensures rule { rule_in collect.new ≡ rule_in collect.old }
    ensures ok { OnOk result (content_in collect.new ≡ (if is_touched batch.now key.now then content_in collect.old
        else made (rule_in collect.old) (content_in collect.old) (entry_from (key.now, held.now) ∷ []))) }
{
    if batch.is_held(key) {
        return Ok(());
    }
    collect.offer(held.entry(alloc, key)?)
}

/// The entries that a collector keeps with the patterns of a base put in: with a batch those that it touches.
fn entries_of<G: Gates>(
    alloc: Global,
    base: &Base<Record>,
    totals: &Totals,
    closed: bool,
    gates: &G,
    collect: Limited,
    batch: Option<&RecordSets>,
) -> Result<Vec<Entry>, NoMemory>
    requires { totals.now ≡ item_totals (records_of base.now) }
    ensures { IfOk result (λ entries. entries.items ≡ made
        (within (option_copied batch.entry) (rule_in collect)) (content_in collect)
        (patterns_of closed (records_of base.now))) }
{
    let ranked = Ranked::ordered(alloc, base, totals, collect.floor(), RankOrder::Value)?;
    if closed {
        closed_entries(alloc, base, &ranked, gates, collect, batch)
    } else {
        searched(alloc, &ranked, gates, collect, batch)?.into_entries()
    }
}

/// The entries that a collector keeps with the closed patterns put in.
fn closed_entries<G: Gates>(
    alloc: Global,
    base: &Base<Record>,
    ranked: &Ranked,
    gates: &G,
    collect: Limited,
    batch: Option<&RecordSets>,
) -> Result<Vec<Entry>, NoMemory>
    requires ranks { IsRankingOf (records_of base.now) ranked.now }
    requires patterns { KeepsPatterns (records_of base.now) ranked.now }
    requires floor { ranked.now.floor ≤ℤ floor_of (rule_in collect) (content_in collect) }
    requires rests { (rule_in collect).table ≡ None }
    ensures { IfOk result (λ entries. entries.items ≡ made
        (within (option_copied batch.entry) (rule_in collect)) (content_in collect)
        (closed_patterns (records_of base.now))) }
{
    let sets = RecordSets::of(alloc, base)?;
    let collect = ClosedOnly::new(collect, &sets, ranked);
    let found = searched(alloc, ranked, gates, collect, batch)?;
    found.into_inner().into_entries()
}

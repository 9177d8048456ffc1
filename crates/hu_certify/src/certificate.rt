//! The text of a certificate.

ghost use Rattle.std.specs.Prelude.{◌≡◌, ℕ, ℤ, ◌<◌, ◌≤◌, drop, length, IfOk, List, OnOk};
ghost use Rattle.hu_base.specs.Base.{records_of};
ghost use Rattle.hu_totals.specs.Weights.{numbers_of};
ghost use Rattle.hu_certify.specs.Spots.{lines_from, spots_of, AreAscending, AreRanks, HasRoom, IsNode};
ghost use Rattle.hu_certify.specs.Table.{IsAtRest};
ghost use Rattle.hu_certify.specs.Text.{certificate_text, lines_text};
ghost use Rattle.hu_certify.specs.Written.{Writes};

use crate::fault::CertFault;
use crate::place::{Place, earned, first_places};
use crate::records::ranked_records;
use crate::table::{Table, below_of, table_of};
use crate::text::{push_minimum, push_order, push_spaced, put_line};
use hu_base::Base;
use hu_kind::{Item, Record};
use hu_totals::{RankOrder, Totals, items_by_weight};
use std::alloc::Global;

/// What every line is written by: the items by rank, and the minimum.
#[derive(Clone, Copy)]
struct Terms<'a> {
    items: &'a [Item],
    least: i128,
}

/// The text so far, and the prefix whose lines are to come, with a space in front of each item.
#[derive(Drop)]
struct Draft {
    text: Vec<u8>,
    prefix: Vec<u8>,
}

/// The certificate of a base at a minimum: a text from which hu_proof's check finds that the answer of the task `items` over
/// the base is whole. It is refused where it has more than 268,435,456 bytes.
///
/// It is written depth first. Each line takes two passes over the cells that stand after its prefix in the records that hold
/// it, and a sort of the items that it meets there. The memory is that of the records over ranks, of the text, of a slot and a
/// list for each item, and of the places of the children that are opened, on the way from the empty prefix to the line that is
/// written. A prefix of so many items is so many calls deep; no record has more than 4,096.
pub fn certify(alloc: Global, base: &Base<Record>, least: i128) -> Result<Vec<u8>, CertFault>
    ensures text { IfOk result (λ text. text.items ≡ certificate_text
        (records_of base.now) least) }
    ensures short { IfOk result (λ text. length text.items ≤ 268435456) }
    ensures long { result ≡ Err CertFault.TooLong
        → 268435456 < length (certificate_text (records_of base.now) least) }
{
    // This tells the proof that no sum overflows.
    let _sum = base.sum();
    let totals = Totals::of(alloc, base)?;
    let items = items_by_weight(alloc, &totals, 0, RankOrder::Gain)?;
    let records = ranked_records(alloc, &items, base.records())?;
    let places = first_places(alloc, &records)?;
    let mut text = Vec::new(alloc);
    push_minimum(&mut text, least)?;
    push_order(&mut text, items.as_slice())?;
    let mut draft = Draft {
        text,
        prefix: Vec::new(alloc),
    };
    let mut table = table_of(alloc, items.len())?;
    let terms = Terms {
        items: items.as_slice(),
        least,
    };
    put_prefix(alloc, terms, &mut draft, &mut table, &places)?;
    Ok(draft.text)
}

/// Writes the line of the draft's prefix and all lines below it.
fn put_prefix<'a>(
    alloc: Global,
    terms: Terms<'_>,
    draft: &mut Draft,
    table: &mut Table<'a>,
    places: &[Place<'a>],
) -> Result<(), CertFault>
    requires room { HasRoom (spots_of places.now) }
    requires ranks { AreRanks (length terms.items.now) (spots_of places.now) }
    requires ascending { AreAscending (spots_of places.now) }
    requires rest { IsAtRest (length terms.items.now) table.old }
    ensures rest { OnOk result (IsAtRest (length terms.entry.items.now) table.new) }
    ensures prefix { OnOk result (draft.new.prefix.items ≡ draft.old.prefix.items) }
    ensures short { OnOk result (length draft.new.text.items ≤ 268435456) }
    ensures text { (records : List (List (ℕ × ℤ))) (from : ℕ) (path : List ℕ)
        → IsNode records (numbers_of terms.entry.items.now) from path draft.old.prefix.items
        (spots_of places.now)
        → Writes draft.old.text.items draft.new.text.items
        (lines_text (lines_from records terms.entry.least path
        (drop from (numbers_of terms.entry.items.now)))) result }
{
    let Terms { items, least } = terms;
    let below = below_of(alloc, table, places, least)?;
    put_line(
        &mut draft.text,
        &draft.prefix,
        earned(places),
        items,
        &below.children,
        least,
    )?;
    let length = draft.prefix.len();
    'children: for (at, child) in below.children.iter().enumerate() {
        if child.bound >= least {
            push_spaced(&mut draft.prefix, items[child.rank as usize])?;
            put_prefix(alloc, terms, draft, table, &below.places[at])?;
            draft.prefix.truncate(length);
        }
    }
    Ok(())
}

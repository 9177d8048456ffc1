//! Records of itemsets in order, and bases of them.

ghost use Rattle.std.specs.Prelude.{◌≡◌, IfOk, IfSome, map};

use crate::itemsets::cells_of;
use hu_base::{AddFault, Base};
use hu_kind::{Element, NoMemory, SeqRecord};
use std::alloc::Global;

/// The later of two occurrences earns more.
pub const LATER_IS_GREATEST: [&[&[(u32, i128)]]; 1] = [&[&[(1, 2)], &[(1, 5)], &[(2, 3)]]];

/// The first occurrence of an item earns most, and another item comes after both.
pub const FOUR_PLACES: [&[&[(u32, i128)]]; 1] = [&[&[(1, 9)], &[(2, 1)], &[(1, 2)], &[(3, 8)]]];

/// Four records over seven items.
pub const FOUR_RECORDS: [&[&[(u32, i128)]]; 4] = [
    &[
        &[(1, 1), (2, 4)],
        &[(3, 10)],
        &[(6, 9)],
        &[(7, 2)],
        &[(5, 1)],
    ],
    &[&[(1, 1), (4, 12)], &[(3, 20)], &[(2, 4)], &[(5, 1), (7, 2)]],
    &[&[(1, 1)], &[(2, 4)], &[(6, 9)], &[(5, 1)]],
    &[&[(1, 3), (2, 4), (3, 5)], &[(6, 3), (7, 1)]],
];

/// The itemsets of these items with their values, or nothing where one breaks a rule of itemsets.
fn elements_of(alloc: Global, itemsets: &[&[(u32, i128)]]) -> Result<Option<Vec<Element>>, NoMemory>
    ensures { IfOk result (λ made. IfSome made (λ elements. elements.items
        ≡ map (λ pairs. pairs.now) itemsets.now)) }
{
    let mut elements = Vec::new(alloc);
    'itemsets: for pairs in itemsets {
        match Element::new(cells_of(alloc, pairs)?) {
            Some(element) => elements.push(element)?,
            None => return Ok(None),
        }
    }
    Ok(Some(elements))
}

/// The record of these itemsets, or nothing where they break a rule of sequences. Linear time.
pub fn sequence_of(
    alloc: Global,
    itemsets: &[&[(u32, i128)]],
) -> Result<Option<SeqRecord>, NoMemory>
    ensures { IfOk result (λ made. IfSome made (λ one. one
        ≡ map (λ pairs. pairs.now) itemsets.now)) }
{
    match elements_of(alloc, itemsets)? {
        Some(elements) => Ok(SeqRecord::new(elements)),
        None => Ok(None),
    }
}

/// The base of these records, or nothing where some of them break a rule of sequences. Linear time.
pub fn sequences_of(
    alloc: Global,
    records: &[&[&[(u32, i128)]]],
) -> Result<Option<Base<SeqRecord>>, AddFault>
    ensures { IfOk result (λ made. IfSome made (λ base. base
        ≡ (0, map (λ itemsets. map (λ pairs. pairs.now) itemsets.now) records.now))) }
{
    let mut base = Base::after(alloc, 0);
    'records: for itemsets in records {
        match sequence_of(alloc, itemsets)? {
            Some(record) => base.add(record)?,
            None => return Ok(None),
        }
    }
    Ok(Some(base))
}

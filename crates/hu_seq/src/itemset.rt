//! The itemsets of a line.

ghost use Rattle.std.specs.Prelude.{◌≡◌, ◌≤◌, ◌⊎◌, [], ◌∷◌, false, Some, IfOk, IfErr};
ghost use Rattle.std.specs.List.{All, AllZip, slice_split};
ghost use Rattle.hu_kind.specs.Cell.{pairs_of};
ghost use Rattle.hu_seq.specs.Token.{is_itemset_end, is_out_of_range};
ghost use Rattle.hu_seq.specs.Reading.{cells, itemsets, duplicate_item};
ghost use Rattle.hu_seq.specs.Itemset.{IsSound, IsOrdered};

use crate::fault::SeqFault;
use crate::token::Token;
use hu_kind::{Cell, Element, ordered_cells};
use std::alloc::{AllocError, Global};

/// The itemsets of a body, each with its items ascending; or the smallest item that stands more than once in the first
/// itemset where one does.
pub(crate) fn elements(alloc: Global, body: &[Token]) -> Result<Vec<Element>, SeqFault>
    requires { All IsSound (slice_split is_itemset_end body.now) }
    ensures ok { IfOk result (λ elements. AllZip IsOrdered (itemsets body.now) elements.items) }
    ensures err { IfErr result (λ fault. (fault ≡ SeqFault.NoMemory) ⊎
        (duplicate_item (itemsets body.now) ≡ Some fault)) }
{
    let mut elements = Vec::new(alloc);
    for itemset in body.split(|token| token.is_itemset_end()) {
        elements.push(element(alloc, itemset)?)?;
    }
    Ok(elements)
}

/// One itemset with its items ascending, or the smallest item that stands more than once in it.
fn element(alloc: Global, itemset: &[Token]) -> Result<Element, SeqFault>
    requires { IsSound itemset.now }
    ensures ok { IfOk result (λ element. IsOrdered (cells itemset.now) element) }
    ensures err { IfErr result (λ fault. (fault ≡ SeqFault.NoMemory) ⊎
        (duplicate_item (cells itemset.now ∷ []) ≡ Some fault)) }
{
    let cells = read_cells(alloc, itemset)?;
    match ordered_cells(cells) {
        Ok(cells) => Ok(Element::of(cells)),
        Err(item) => Err(SeqFault::DuplicateItem { item }),
    }
}

/// The cells of an itemset, as they stand in the line.
fn read_cells(alloc: Global, itemset: &[Token]) -> Result<Vec<Cell>, AllocError>
    requires { All (λ token. is_out_of_range token ≡ false) itemset.now }
    ensures value { IfOk result (λ v. pairs_of v.items ≡ cells itemset.now) }
    ensures in_range { IfOk result (λ v. All (λ cell. cell.item.0 ≤ 2147483647) v.items) }
{
    let mut cells = Vec::new(alloc);
    for token in itemset {
        if let Some(cell) = token.cell() {
            cells.push(cell)?;
        }
    }
    Ok(cells)
}

//! The numbers of a line's parts.

ghost use Rattle.std.specs.Prelude.{◌≡◌, ◌≤◌, ◌⊎◌, [], ◌∷◌, length, map, unsigned_abs, None, Some, IfOk, IfErr, OnOk};
ghost use Rattle.std.specs.Option.{option_map};
ghost use Rattle.hu_kind.specs.Number.{number, signed_number};
ghost use Rattle.hu_kind.specs.Token.{tokens};
ghost use Rattle.hu_trans.specs.declared.fault.Fault.TheVariants.{BadNumber};
ghost use Rattle.hu_trans.specs.Line.{numbers, bad_token, bad_total};

use crate::fault::Fault;
use hu_kind::{first_number, first_signed};
use smallvec::SmallVec;

/// Puts the items of part 1 in an empty list, or says its first token that is no number.
pub(crate) fn read_items(part: &[u8], items: &mut SmallVec<u128, 16>) -> Result<(), Fault>
    requires short { length part.now ≤ 1048576 }
    requires empty { items.old.items ≡ [] }
    ensures value { OnOk result (items.new.items ≡ map unsigned_abs (numbers number (tokens part.now))) }
    ensures few { OnOk result (length items.new.items ≤ 1048576) }
    ensures good { OnOk result (bad_token number (tokens part.now) ≡ None) }
    ensures bad { IfErr result (λ fault. (fault ≡ Fault.NoMemory)
        ⊎ (option_map (BadNumber 1) (bad_token number (tokens part.now)) ≡ Some fault)) }
{
    let mut at = 0;
    let mut rest = part;
    while let Some((said, left)) = first_number(rest) {
        at += 1;
        match said {
            Ok(item) => items.push(item.unsigned_abs())?,
            Err(_) => return Err(Fault::BadNumber { part: 1, at }),
        }
        rest = left;
    }
    Ok(())
}

/// The one number of part 2.
pub(crate) fn read_total(part: &[u8]) -> Result<i128, Fault>
    ensures value { IfOk result (λ total. numbers signed_number (tokens part.now) ≡ total ∷ []) }
    ensures good { OnOk result (bad_total (tokens part.now) ≡ None) }
    ensures bad { IfErr result (λ fault. option_map (BadNumber 2) (bad_total (tokens part.now)) ≡ Some fault) }
{
    let Some((Ok(total), rest)) = first_signed(part) else {
        return Err(Fault::BadNumber { part: 2, at: 1 });
    };
    match first_signed(rest) {
        Some(_) => Err(Fault::BadNumber { part: 2, at: 2 }),
        None => Ok(total),
    }
}

/// Puts the utilities of part 3 in an empty list, or says its first token that is no number.
pub(crate) fn read_utilities(part: &[u8], utilities: &mut SmallVec<i128, 16>) -> Result<(), Fault>
    requires short { length part.now ≤ 1048576 }
    requires empty { utilities.old.items ≡ [] }
    ensures value { OnOk result (utilities.new.items ≡ numbers signed_number (tokens part.now)) }
    ensures few { OnOk result (length utilities.new.items ≤ 1048576) }
    ensures good { OnOk result (bad_token signed_number (tokens part.now) ≡ None) }
    ensures bad { IfErr result (λ fault. (fault ≡ Fault.NoMemory)
        ⊎ (option_map (BadNumber 3) (bad_token signed_number (tokens part.now)) ≡ Some fault)) }
{
    let mut at = 0;
    let mut rest = part;
    while let Some((said, left)) = first_signed(rest) {
        at += 1;
        match said {
            Ok(value) => utilities.push(value)?,
            Err(_) => return Err(Fault::BadNumber { part: 3, at }),
        }
        rest = left;
    }
    Ok(())
}

//! Reading a transaction line.

ghost use Rattle.std.specs.Prelude.{◌≡◌, ◌≢◌, ◌≤◌, ◌⊎◌, length, IfOk, IfErr};
ghost use Rattle.hu_trans.specs.Reading.{reading};

use crate::fault::Fault;
use crate::judge::judge;
use crate::numbers::{read_items, read_total, read_utilities};
use crate::parts::Parts;
use hu_kind::Record;
use smallvec::SmallVec;
use std::alloc::Global;

/// The record of a line, or its first fault. A line of c tokens takes c log c steps; no token is copied. Of at most
/// sixteen items and utilities it allocates the cells alone.
pub fn read_record(alloc: Global, line: &[u8]) -> Result<Record, Fault>
    requires { length line.now ≤ 1048576 }
    ensures ok { IfOk result (λ one. reading line.now ≡ Ok one) }
    ensures err { IfErr result (λ fault. (fault ≡ Fault.NoMemory) ⊎ (reading line.now ≡ Err fault)) }
    ensures never_memory { reading line.now ≢ Err Fault.NoMemory }
{
    let Some(parts) = Parts::of(line) else {
        return Err(Fault::NotThreeParts);
    };
    let mut items = SmallVec::new(alloc);
    read_items(parts.items, &mut items)?;
    let stated = read_total(parts.total)?;
    let mut utilities = SmallVec::new(alloc);
    utilities.reserve(items.len())?;
    read_utilities(parts.utilities, &mut utilities)?;
    judge(alloc, items.as_slice(), stated, utilities.as_slice())
}

//! Why a line is no record.

ghost use Rattle.std.specs.Prelude.{◌≡◌};

use hu_kind::{Item, NoMemory};
use std::alloc::{AllocError, AllocFailed};

/// The first thing that is wrong with a transaction line, in the order in which they stand here. Parts and tokens are
/// counted from 1, tokens within their part.
#[derive(Clone, Copy, Debug, PartialEq, Eq)]
pub enum Fault {
    /// The line hasn't exactly two `:`.
    NotThreeParts,
    /// A token isn't a number of its part, or part 2 isn't one number alone.
    BadNumber { part: u8, at: u32 },
    /// There is no item.
    NoItems,
    /// There are more than 4,096 items.
    TooManyItems { count: u32 },
    /// There are not as many utilities as items.
    CountsDiffer { items: u32, utilities: u32 },
    /// An item is above [`Item::GREATEST`].
    ItemOutOfRange { at: u32 },
    /// The smallest item that stands more than once.
    DuplicateItem { item: Item },
    /// The absolute values sum to more than 2^127 - 1.
    SumTooLarge,
    /// The total is neither the plain sum, which is `summed`, nor the sum of the utilities above 0.
    TotalDisagrees { stated: i128, summed: i128 },
    /// Memory was asked for and not given. No line has this fault.
    NoMemory,
}

impl From<NoMemory> for Fault {
    ghost use Rattle.hu_trans.specs.declared.fault.Fault.{Fault};

    ghost from_gives = { λ _ fault. fault ≡ Fault.NoMemory };

    fn from(_error: NoMemory) -> Fault {
        Fault::NoMemory
    }
}

impl From<AllocError> for Fault {
    ghost use Rattle.hu_trans.specs.declared.fault.Fault.{Fault};

    ghost from_gives = { λ _ fault. fault ≡ Fault.NoMemory };

    fn from(_error: AllocError) -> Fault {
        Fault::NoMemory
    }
}

impl<T: Drop> From<AllocFailed<T>> for Fault {
    ghost use Rattle.hu_trans.specs.declared.fault.Fault.{Fault};

    ghost from_gives = { λ _ fault. fault ≡ Fault.NoMemory };

    fn from(_failed: AllocFailed<T>) -> Fault {
        Fault::NoMemory
    }
}

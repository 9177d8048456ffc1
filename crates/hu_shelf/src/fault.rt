//! Why a call on a store is refused.

ghost use Rattle.std.specs.Prelude.{◌≡◌};

use crate::keeper::KeepFault;
use hu_io::Failed;
use hu_kind::NoMemory;

/// Why a call on a store is refused.
#[derive(Clone, Copy, Debug, PartialEq, Eq)]
pub enum ShelfFault {
    /// There is no text under the name.
    Absent,
    /// There is a text under the name.
    Present,
    /// The text under the name is no store's.
    Damaged,
    /// The absolute sums of the store's records and of the batch's would pass 2^127 - 1 together.
    SumTooLarge { before: i128, added: i128 },
    /// The text with the batch would pass 268,435,456 bytes.
    TooLarge,
    /// The keeper failed, and its count of faults of the name rose.
    KeeperFailed,
    /// There is no memory for it.
    NoMemory,
}

impl From<NoMemory> for ShelfFault {
    ghost use Rattle.hu_shelf.specs.declared.fault.ShelfFault.TheVariants.{NoMemory};

    ghost from_gives = { λ _ e. e ≡ NoMemory };

    fn from(_fault: NoMemory) -> ShelfFault {
        ShelfFault::NoMemory
    }
}

impl From<Failed> for ShelfFault {
    ghost use Rattle.hu_shelf.specs.declared.fault.ShelfFault.TheVariants.{KeeperFailed};

    ghost from_gives = { λ _ e. e ≡ KeeperFailed };

    fn from(_fault: Failed) -> ShelfFault {
        ShelfFault::KeeperFailed
    }
}

impl From<KeepFault> for ShelfFault {
    ghost use Rattle.hu_shelf.specs.Shelf.{fault_of};

    ghost from_gives = { λ fault e. e ≡ fault_of fault };

    fn from(fault: KeepFault) -> ShelfFault {
        match fault {
            KeepFault::Failed => ShelfFault::KeeperFailed,
            KeepFault::NoMemory => ShelfFault::NoMemory,
        }
    }
}

//! Why a certificate isn't given.

ghost use Rattle.std.specs.Prelude.{◌≡◌};

use hu_kind::NoMemory;
use std::alloc::{AllocError, AllocFailed};

/// Why a certificate isn't given.
#[derive(Clone, Copy, Debug, PartialEq, Eq)]
pub enum CertFault {
    /// It has more than 268,435,456 bytes.
    TooLong,
    /// Memory was asked for and not given.
    NoMemory,
}

impl From<NoMemory> for CertFault {
    ghost use Rattle.hu_certify.specs.declared.fault.CertFault.{CertFault};

    ghost from_gives = { λ _ fault. fault ≡ CertFault.NoMemory };

    fn from(_error: NoMemory) -> CertFault {
        CertFault::NoMemory
    }
}

impl From<AllocError> for CertFault {
    ghost use Rattle.hu_certify.specs.declared.fault.CertFault.{CertFault};

    ghost from_gives = { λ _ fault. fault ≡ CertFault.NoMemory };

    fn from(_error: AllocError) -> CertFault {
        CertFault::NoMemory
    }
}

impl<T: Drop> From<AllocFailed<T>> for CertFault {
    ghost use Rattle.hu_certify.specs.declared.fault.CertFault.{CertFault};

    ghost from_gives = { λ _ fault. fault ≡ CertFault.NoMemory };

    fn from(_failed: AllocFailed<T>) -> CertFault {
        CertFault::NoMemory
    }
}

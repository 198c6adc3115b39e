//! Why a certificate isn't read.

ghost use Rattle.std.specs.Prelude.{◌≡◌};
ghost use Rattle.ore_parts.specs.declared.fault.CertFault.TheVariants.{Memory};

use ore_monomial::NoMemory;
use std::alloc::{AllocError, AllocFailed};

/// Why a certificate, or a part of one, isn't read.
#[derive(Clone, Copy, Debug, PartialEq, Eq, Drop)]
pub enum CertFault {
    /// The text is that of none: this is the first line that no certificate, or no part of this kind, with the same
    /// lines before it has there. Lines count from 1.
    Malformed { line: u64 },
    /// There was no memory. Of the text nothing is said.
    Memory,
}

impl From<NoMemory> for CertFault {
    ghost from_gives = { λ _ e. e ≡ Memory };

    fn from(_e: NoMemory) -> CertFault {
        CertFault::Memory
    }
}

impl From<AllocError> for CertFault {
    ghost from_gives = { λ _ e. e ≡ Memory };

    fn from(_e: AllocError) -> CertFault {
        CertFault::Memory
    }
}

impl<T: Drop> From<AllocFailed<T>> for CertFault {
    ghost from_gives = { λ _ e. e ≡ Memory };

    fn from(_e: AllocFailed<T>) -> CertFault {
        CertFault::Memory
    }
}

//! Why an operation stops without a value.

ghost use Rattle.std.specs.Prelude.{◌≡◌};
ghost use Rattle.ore_monomial.specs.declared.stop.RingStop.TheVariants.{Degree, Memory};

use std::alloc::{AllocError, AllocFailed};

/// A degree is greater than 32,767.
#[derive(Clone, Copy, Debug, PartialEq, Eq, Drop)]
pub struct DegreePassed;

/// There is no memory for the result.
#[derive(Clone, Copy, Debug, PartialEq, Eq, Drop)]
pub struct NoMemory;

/// Why an operation on operators stops.
#[derive(Clone, Copy, Debug, PartialEq, Eq, Drop)]
pub enum RingStop {
    /// A number that it forms is out of the range of fractions.
    Overflow,
    /// A monomial that it forms has a degree greater than 32,767.
    Degree,
    /// There is no memory for the result.
    Memory,
}

impl From<AllocError> for NoMemory {
    fn from(_e: AllocError) -> NoMemory {
        NoMemory
    }
}

impl<T: Drop> From<AllocFailed<T>> for NoMemory {
    fn from(_e: AllocFailed<T>) -> NoMemory {
        NoMemory
    }
}

impl From<AllocError> for RingStop {
    ghost from_gives = { λ _ e. e ≡ Memory };

    fn from(_e: AllocError) -> RingStop {
        RingStop::Memory
    }
}

impl<T: Drop> From<AllocFailed<T>> for RingStop {
    ghost from_gives = { λ _ e. e ≡ Memory };

    fn from(_e: AllocFailed<T>) -> RingStop {
        RingStop::Memory
    }
}

impl From<DegreePassed> for RingStop {
    ghost from_gives = { λ _ e. e ≡ Degree };

    fn from(_e: DegreePassed) -> RingStop {
        RingStop::Degree
    }
}

impl From<NoMemory> for RingStop {
    ghost from_gives = { λ _ e. e ≡ Memory };

    fn from(_e: NoMemory) -> RingStop {
        RingStop::Memory
    }
}

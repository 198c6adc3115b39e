//! Why a place of a certificate isn't right.

ghost use Rattle.std.specs.Prelude.{◌≡◌, IsTrue, IfOk};
ghost use Rattle.ore_blocks.specs.Conditions.{required};
ghost use Rattle.ore_blocks.specs.Judging.{Judges, at_place, stopped};
ghost use Rattle.ore_blocks.specs.declared.refusal.Refusal.TheVariants.{Memory};

use crate::place::Place;
use crate::reason::Reason;
use ore_monomial::{NoMemory, RingStop};
use std::alloc::{AllocError, AllocFailed};

/// The first place that isn't right, and why.
#[derive(Clone, Copy, Debug, PartialEq, Eq, Drop)]
pub enum Refusal {
    /// Its condition fails.
    Fails { place: Place, reason: Reason },
    /// An operation of it leaves the range of fractions.
    Overflow { place: Place },
    /// An operation of it passes the greatest degree.
    Degree { place: Place },
    /// There was no memory.
    Memory,
}

impl From<NoMemory> for Refusal {
    ghost from_gives = { λ _ e. e ≡ Memory };

    fn from(_e: NoMemory) -> Refusal {
        Refusal::Memory
    }
}

impl From<AllocError> for Refusal {
    ghost from_gives = { λ _ e. e ≡ Memory };

    fn from(_e: AllocError) -> Refusal {
        Refusal::Memory
    }
}

impl<T: Drop> From<AllocFailed<T>> for Refusal {
    ghost from_gives = { λ _ e. e ≡ Memory };

    fn from(_e: AllocFailed<T>) -> Refusal {
        Refusal::Memory
    }
}

/// What an operation answered, with the place of its stop.
///
/// # Errors
/// The stop, at the place.
pub fn at_place<T>(place: Place, answer: Result<T, RingStop>) -> Result<T, Refusal>
    ensures { result ≡ at_place place answer }
{
    match answer {
        Ok(value) => Ok(value),
        Err(stop) => Err(stopped(place, stop)),
    }
}

// The refusal of an operation that stops at a place.
fn stopped(place: Place, stop: RingStop) -> Refusal
    ensures { result ≡ stopped place stop }
{
    match stop {
        RingStop::Overflow => Refusal::Overflow { place },
        RingStop::Degree => Refusal::Degree { place },
        RingStop::Memory => Refusal::Memory,
    }
}

/// The test should pass at a place, else that is the reason.
///
/// # Errors
/// The place and the reason, where the test doesn't pass.
pub fn required(place: Place, reason: Reason, test: bool) -> Result<(), Refusal>
    ensures judges { Judges (λ u. u) result (required place reason test) }
    ensures passes { IfOk result (λ _. IsTrue test) }
{
    if test {
        Ok(())
    } else {
        Err(Refusal::Fails { place, reason })
    }
}

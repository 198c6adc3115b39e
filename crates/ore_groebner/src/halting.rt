//! Why a run halts where an operation stops.

ghost use Rattle.std.specs.Prelude.{◌≡◌};
ghost use Rattle.ore_groebner.specs.Halting.{halt_of};
ghost use Rattle.ore_groebner.specs.declared.outcome.Halt.TheVariants.{Memory};
ghost use Rattle.ore_groebner.specs.declared.outcome.StopAt.TheVariants.{Forced};

use crate::outcome::{Halt, StopAt};
use ore_monomial::{NoMemory, RingStop};

/// A stop of an operation, as the halt of a run.
pub fn halt_at(stop: RingStop, at: StopAt) -> Halt
    ensures { result ≡ halt_of stop at }
{
    match stop {
        RingStop::Overflow => Halt::Overflow(at),
        RingStop::Degree => Halt::Degree(at),
        RingStop::Memory => Halt::Memory,
    }
}

/// Outside of the treatment of a pair, what stops is forced work.
impl From<RingStop> for Halt {
    ghost from_gives = { λ stop e. e ≡ halt_of stop Forced };

    fn from(stop: RingStop) -> Halt {
        halt_at(stop, StopAt::Forced)
    }
}

impl From<NoMemory> for Halt {
    ghost from_gives = { λ _ e. e ≡ Memory };

    fn from(_e: NoMemory) -> Halt {
        Halt::Memory
    }
}

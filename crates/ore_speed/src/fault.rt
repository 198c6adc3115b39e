//! Why the program ends early.

use ore_monomial::{RingStop, SignatureFault};
use std::io;

/// Why the program ends before all is printed.
#[derive(Clone, Copy, Debug, PartialEq, Eq, Drop)]
pub enum Fault {
    /// The words of the command line aren't known.
    Words,
    /// An algebra isn't accepted.
    Algebra,
    /// An operation on operators stopped.
    Ring(RingStop),
    /// The clock, the output or the words of the command line can't be had.
    System,
}

impl Fault {
    /// The text that is printed for it.
    pub fn text(self) -> &'static str {
        match self {
            Fault::Words => "the only word that is known is 'all'",
            Fault::Algebra => "an algebra isn't accepted",
            Fault::Ring(RingStop::Overflow) => "a number is too great",
            Fault::Ring(RingStop::Degree) => "a degree is too great",
            Fault::Ring(RingStop::Memory) => "memory ran out",
            Fault::System => "the system refused the words, the clock or the output",
        }
    }
}

impl From<SignatureFault> for Fault {
    fn from(_fault: SignatureFault) -> Fault {
        Fault::Algebra
    }
}

impl From<RingStop> for Fault {
    fn from(stop: RingStop) -> Fault {
        Fault::Ring(stop)
    }
}

impl From<io::Error> for Fault {
    fn from(_error: io::Error) -> Fault {
        Fault::System
    }
}

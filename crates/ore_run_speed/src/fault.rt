//! Why the program ends early.

use ore_monomial::RingStop;
use ore_problem::ProblemFault;
use std::io;

/// Why the program ends before all is printed.
#[derive(Clone, Copy, Debug, PartialEq, Eq, Drop)]
pub enum Fault {
    /// The input isn't a problem, an operation in an entry of it stops, or there is no memory to read it.
    Problem,
    /// An operation on operators stopped.
    Ring(RingStop),
    /// The input or the output can't be had.
    System,
}

impl Fault {
    /// The text that is printed for it.
    pub fn text(self) -> &'static str {
        match self {
            Fault::Problem => "the input isn't a problem",
            Fault::Ring(RingStop::Overflow) => "a number is too great",
            Fault::Ring(RingStop::Degree) => "a degree is too great",
            Fault::Ring(RingStop::Memory) => "memory ran out",
            Fault::System => "the system refused the input or the output",
        }
    }
}

// Each fault of the problem is one, want of memory too.
impl From<ProblemFault> for Fault {
    fn from(_fault: ProblemFault) -> Fault {
        Fault::Problem
    }
}

impl From<RingStop> for Fault {
    fn from(stop: RingStop) -> Fault {
        Fault::Ring(stop)
    }
}

impl From<io::Error> for Fault {
    fn from(_error: io::Error) -> Fault {
        Fault::System
    }
}

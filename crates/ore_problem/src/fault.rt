//! What is wrong with a problem text.

ghost use Rattle.std.specs.Prelude.{◌≡◌};
ghost use Rattle.ore_problem.specs.declared.fault.ProblemReason.TheVariants.{Memory};
ghost use Rattle.ore_problem.specs.FaultWords.{fault_word};

use ore_expr::TextFault;
use ore_monomial::{NoMemory, SignatureFault};
use std::alloc::{AllocError, AllocFailed};
use thiserror::Error;

/// The first faulty line of a problem text, from 1, and what is wrong there. Want of memory has line 0.
#[derive(Clone, Copy, Debug, PartialEq, Eq, Drop, Error)]
#[error("line {line}")]
pub struct ProblemFault {
    /// The number of the line, where the first line has number 1; 0 for want of memory.
    pub line: usize,
    /// What is wrong there.
    pub reason: ProblemReason,
}

/// What is wrong with a line.
#[derive(Clone, Copy, Debug, PartialEq, Eq, Drop)]
pub enum ProblemReason {
    /// The first line isn't `ore 1`, or the second names no order.
    Header,
    /// The words are no declaration.
    BadDeclaration,
    /// The name is declared before.
    NameTwice,
    /// The variable has this fault.
    Signature(SignatureFault),
    /// The words after `matrix` aren't two numbers.
    BadMatrix,
    /// There are more than 64 rows.
    TooManyRows,
    /// There are more than 64 columns.
    TooManyColumns,
    /// The line doesn't begin with `row`.
    BadRow,
    /// The row has another number of entries than the matrix has columns.
    WrongLength,
    /// An entry has this fault.
    Text(TextFault),
    /// Something else stands where `end` is due, or the text ends before it.
    NoEnd,
    /// Something follows the line `end`.
    AfterEnd,
    /// There was no memory.
    Memory,
}

impl ProblemReason {
    /// Its word in a reply. A stop of an entry has none, since its cause is answered, and neither has want of memory.
    pub fn word(self) -> &'static [u8]
        ensures { result.now ≡ fault_word self }
    {
        match self {
            ProblemReason::Header => b"header",
            ProblemReason::BadDeclaration => b"bad-declaration",
            ProblemReason::NameTwice => b"name-twice",
            ProblemReason::Signature(fault) => fault.word(),
            ProblemReason::BadMatrix => b"bad-matrix",
            ProblemReason::TooManyRows => b"too-many-rows",
            ProblemReason::TooManyColumns => b"too-many-columns",
            ProblemReason::BadRow => b"bad-row",
            ProblemReason::WrongLength => b"wrong-length",
            ProblemReason::Text(fault) => fault.word(),
            ProblemReason::NoEnd => b"no-end",
            ProblemReason::AfterEnd => b"after-end",
            ProblemReason::Memory => b"",
        }
    }
}

impl ProblemFault {
    /// A fault of the line with this number, from 1.
    pub(crate) fn at(line: usize, reason: ProblemReason) -> ProblemFault
        ensures { result ≡ record { line = line; reason = reason } }
    {
        ProblemFault { line, reason }
    }

    /// Want of memory, which has line 0.
    pub(crate) fn memory() -> ProblemFault
        ensures { result ≡ record { line = 0; reason = Memory } }
    {
        ProblemFault::at(0, ProblemReason::Memory)
    }
}

impl From<NoMemory> for ProblemFault {
    ghost from_gives = { λ _ f. f ≡ record { line = 0; reason = Memory } };

    fn from(_e: NoMemory) -> ProblemFault {
        ProblemFault::memory()
    }
}

impl From<AllocError> for ProblemFault {
    ghost from_gives = { λ _ f. f ≡ record { line = 0; reason = Memory } };

    fn from(_e: AllocError) -> ProblemFault {
        ProblemFault::memory()
    }
}

impl<T: Drop> From<AllocFailed<T>> for ProblemFault {
    ghost from_gives = { λ _ f. f ≡ record { line = 0; reason = Memory } };

    fn from(_e: AllocFailed<T>) -> ProblemFault {
        ProblemFault::memory()
    }
}

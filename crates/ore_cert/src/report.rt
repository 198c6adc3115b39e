//! Reports of stopped computations.

use ore_rows::Runs;

/// What was computed of a matrix.
#[derive(Clone, Copy, Debug, PartialEq, Eq, Drop)]
pub enum Plan {
    /// Which of the two verdicts is true.
    Analyse,
    /// The rows that take the matrix to zeros.
    KernelLeft,
    /// The columns that the matrix takes to zeros.
    KernelRight,
    /// A left inverse, or that there is none.
    InverseLeft,
    /// A right inverse, or that there is none.
    InverseRight,
    /// A resolution of so many links, from 1 to 12.
    Resolve(u8),
    /// Whether the extension module of this number, from 1 to 12, is zero.
    Ext(u8),
    /// The transposed adjoint.
    Adjoint,
}

/// Why it stopped.
#[derive(Clone, Copy, Debug, PartialEq, Eq, Drop)]
pub enum Cause {
    /// A number left the range of fractions.
    Overflow,
    /// A degree passed 32,767.
    Degree,
    /// So many pairs were treated, and a pair is left; at most 1,000,000.
    Budget(u32),
}

/// Where it stopped.
#[derive(Clone, Copy, Debug, PartialEq, Eq, Drop)]
pub enum Stop {
    /// In what follows from the choices.
    Forced,
    /// In treating the pair of the basis rows at these places, from 0.
    Treat { i: usize, j: usize },
    /// Where the next pair would have been chosen.
    Budget,
}

/// A computation that stopped: the choices of its runs lead there.
#[derive(Drop)]
pub struct Report {
    pub cause: Cause,
    pub plan: Plan,
    /// The choices, run by run.
    pub runs: Runs,
    pub stop: Stop,
}

//! What a check answers.

use ore_blocks::Reason;

/// The answer of a check. Lines count from 1; at 2^64 - 1 the count stays there.
#[derive(Clone, Copy, Debug, PartialEq, Eq, Drop)]
pub enum Checked {
    /// Each condition holds.
    Valid,
    /// The first line whose condition fails, where none before it stops.
    Invalid { line: u64, reason: Reason },
    /// The first line of which an operation leaves the range of fractions, where no line before it fails.
    Overflow { line: u64 },
    /// The first line of which an operation passes the greatest degree, where no line before it fails.
    Degree { line: u64 },
    /// There was no memory.
    Memory,
}

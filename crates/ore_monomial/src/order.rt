//! The orders of monomials.

/// A graded order of monomials.
#[derive(Clone, Copy, Debug, PartialEq, Eq, Drop)]
pub enum Order {
    /// By degree, then by the first exponent that differs, the larger being greater.
    DegLex,
    /// By degree, then by the last exponent that differs, the smaller being greater.
    DegRevLex,
}

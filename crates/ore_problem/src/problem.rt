//! Problems.

use ore_monomial::Signature;
use ore_rows::Matrix;
use ore_text::Names;

/// A system: a matrix of operators of a signature, whose variables have these names. The type doesn't tie the three
/// together: what is read has one name for each variable and entries of the signature, and who prints owes it.
#[derive(Drop)]
pub struct Problem {
    /// The names of the variables, in the order of declaration.
    pub names: Names,
    /// What the variables are, and the order of monomials.
    pub signature: Signature,
    /// The matrix of the system.
    pub matrix: Matrix,
}

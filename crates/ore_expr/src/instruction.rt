//! Expressions in the order in which their operations are formed.

use ore_rational::Rational;

/// One step of the evaluation of an expression, on a stack of operators. Where that has too few, nothing happens.
#[derive(Clone, Copy, Drop)]
pub enum Instruction {
    /// A number is put on top.
    Constant(Rational),
    /// A power of the variable with this index is put on top, where the first variable has index 0.
    Power { variable: usize, exponent: u16 },
    /// The two operators on top are replaced by their sum.
    Add,
    /// They are replaced by the operator below the top less the top.
    Subtract,
    /// They are replaced by the operator below the top times the top.
    Multiply,
    /// The operator on top is replaced by the product of so many factors of it, 1 where there are none.
    Raise(u16),
}

//! Reads an expression token by token into instructions.

ghost use Rattle.ore_rational.specs.Range.{InRange};
ghost use Rattle.ore_expr.specs.ParserRange.{number_due};

mod takes;

use crate::instruction::Instruction;

/// What is due after the tokens so far.
#[derive(Clone, Copy, Drop)]
pub enum Due {
    /// An expression begins: a minus or an atom.
    Start,
    /// An atom.
    Operand,
    /// A number was read, which a denominator may follow.
    AfterNumber(i128),
    /// The denominator of this number.
    Denominator(i128),
    /// The variable with this index was read, which a power may follow.
    AfterName(usize),
    /// The exponent of this variable.
    Exponent(usize),
    /// Another atom was read, which a power may follow.
    AfterAtom,
    /// The power of an atom.
    Power,
    /// A factor was read.
    AfterFactor,
}

/// The sum that waits for its right side.
#[derive(Clone, Copy, Drop)]
pub enum Waiting {
    /// The term is the first.
    Nothing,
    /// The term is added to those before it.
    Add,
    /// The term is taken from those before it, or from 0.
    Subtract,
}

/// The operations that wait for their right sides between two parentheses.
#[derive(Clone, Copy, Drop)]
pub struct Level {
    /// What is done with the term that is read.
    pub sum: Waiting,
    /// Whether the factor that is read is multiplied with those before it.
    pub product: bool,
}

/// An expression that is read so far.
#[derive(Drop)]
pub(crate) struct Parser {
    due: Due,
    level: Level,
    outside: Vec<Level>,
    made: Vec<Instruction>,
    ghost in_range: { InRange (number_due due) },
}

//! Expressions: operators as a user writes them.
//!
//! An expression is what a user writes, as `d*t - 1/2*(t + 1)^2`. `specs/Tokens.antt` and
//! `specs/Grammar.antt` have its grammar, as trees and the tokens that spell them; `specs/Faults.antt`
//! has what is wrong with a text that is none, and where; `specs/Values.antt` its value, the operations
//! in the order in which they are formed. [`read_operator`] answers just that. [`parse`] and
//! [`evaluate`] are its halves, for a caller who reads several texts before any is evaluated: an
//! expression is turned into instructions for a stack, so no nesting needs recursion. A sum on the stack keeps its
//! terms in a sorted map, so a sum of many parts costs what its parts have, times a logarithm.
//!
//! The canonical text of an operator, which `ore_text` writes and reads, is also an expression, with the operator as its
//! value.
//!
//! The crate stands on `ore_ring` for operators and on `ore_text` for names and canonical texts.
#![tactic(auto)]

pub mod canonical_laws;
mod digits;
pub mod evaluation;
pub mod fault;
pub mod instruction;
pub mod laws;
mod operand;
pub mod parser;
pub mod read;
mod token;

pub use evaluation::evaluate;
pub use fault::TextFault;
pub use instruction::Instruction;
pub use read::{parse, read_operator};

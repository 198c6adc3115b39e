//! Generated problems: a system for each number from 0 to 65,535, for trying out and timing the searches.
//!
//! A system is a chain of 40 equations for 41 variables. Equation i says that the derivative of variable i is variable
//! i + 1 times a gain, so each variable is found from the first by derivation. The gains are 1, 2, 3 and 4 in turn, from
//! where the number says. Where it is odd, one gain is 0: this cuts the chain, and the variables before the cut move by
//! themselves.
//!
//! [`generate`] answers the problem that `specs/Chain.antt` defines entry by entry. Its printed text is read as the same
//! problem ([`laws::law_generated_is_read`]).
//!
//! The crate stands on `ore_problem` for problems, on `ore_text` for names, on `ore_rows` for matrices, and on `ore_ring`,
//! `ore_monomial` and `ore_rational` for their entries.
#![tactic(auto)]

pub mod chain;
pub mod laws;

pub use chain::generate;

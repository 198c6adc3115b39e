//! Lead reduction of rows.
//!
//! [`reduce`] takes multiples of basis rows from a row while the lead of one of them divides its lead, always the
//! first such one, and takes the same multiples of their cofactor rows from a cofactor row. It gives what the
//! definition in `ore_rows/specs/Reduction.antt` gives at the limits of the program: the value, or the cause of the
//! first product or difference that stops, in the order that stands there. Want of memory is the one answer beside
//! it. Since each step makes the lead smaller, it ends.
//!
//! The lengths, and that all belongs to the signature of the ring, are the conditions of the call; that the basis rows
//! have lead coefficient 1 is known of each `Basis`.
//!
//! The law function of [`laws`] says what reduction gives, also without limits: no lead of the basis divides the
//! lead of the rest; the steps, each times its row, and the rest make up the row, and likewise the cofactor row; and
//! a value within limits is the exact one. `proofs/Heights.antt` has the number that each step makes smaller.
//!
//! The crate stands on `ore_rows` for rows, bases and the definition, on `ore_leads` for the first lead that
//! divides, and on `ore_ring` for operators.
#![tactic(auto)]

pub mod division;
pub mod laws;

pub use division::{Reduced, reduce};

//! Problem texts: a system as a user writes it.
//!
//! A text says which variables there are, what they do, and what the matrix of the system is. A [`Problem`]
//! is what it says: names, a signature and a matrix of operators.
//!
//! [`read_problem`] answers the problem that a whole text is, and [`read_prefix`] the one that a text begins
//! with, with the bytes and lines that it takes. Where there is none, they answer the first faulty line and
//! what is wrong there. `specs/Problems.antt` says so line by line, in the order in which lines are due, each
//! with its faults in the order in which they are looked at. Of a row line all entries are parsed before any
//! is evaluated, in the ring of all kinds of the declared signature.
//!
//! Apart from the reader stands the relation of a text and its problem, `specs/Accepted.antt`: what is read are
//! just the accepted texts ([`laws::law_is_read_exactly`]), and a text begins with a problem just where its first lines are
//! an accepted text ([`laws::law_prefix_is_read_exactly`]). The faulty line that is answered is the first that no problem
//! with the same lines before it has there ([`laws::law_finds_first_faulty_line`]). [`print_problem`] writes the one
//! printed text, which is read as the same problem, whatever follows it ([`laws::law_printed_is_read`]).
//!
//! A line without an end, a number of any length and any bytes have an answer. Not proved: a reader passes over the
//! text once, and allocates nothing by a number that a text names.
//!
//! The crate stands on `ore_expr` for entries, on `ore_text` for names, lines and numbers, on `ore_rows` for matrices, on `ore_mixed`
//! for the ring in which entries are evaluated, and on `thiserror` for the fault.
#![tactic(auto)]

pub mod fault;
mod frame;
mod header;
pub mod laws;
mod lines;
pub mod print;
pub mod problem;
pub mod read;
mod rows;
mod word;

pub use fault::{ProblemFault, ProblemReason};
pub use print::print_problem;
pub use problem::Problem;
pub use read::{read_prefix, read_problem};

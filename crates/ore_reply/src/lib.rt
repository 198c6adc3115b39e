//! What every command of the bench has in common: its words, how its input is read and its reply written, and what is
//! replied where the input has a fault.
//!
//! [`ArgList`] has the words of the command line. [`read_input`] reads all that a source gives, up to a limit, and
//! [`respond`] writes a text to a sink and answers the status of the call. A [`Reply`] is a status with its text;
//! [`reply`] makes those that name a line, and [`fault_reply`] the one to the first faulty line of a problem.
//!
//! `specs/Answered.antt` says which reply is due and what is answered, whichever command was called, with the command's
//! own reply to the bytes of an input as a parameter: the crate above has the commands.
//!
//! The crate stands on `ore_io` for sources and sinks, on `ore_problem`, `ore_expr` and `ore_monomial` for the faults of
//! problems, and on `ore_text` for numbers.
#![tactic(auto)]

pub mod args;
pub mod fault;
pub mod input;
mod output;
pub mod reply;
pub mod respond;
pub mod status;

pub use args::ArgList;
pub use fault::fault_reply;
pub use input::{InputEnd, read_input};
pub use output::write_text;
pub use reply::Reply;
pub use status::Status;

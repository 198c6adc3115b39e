//! The commands of the bench, and the call that runs them.
//!
//! [`bench`] takes the words of the command line, a source of bytes and a sink, and answers a status. Its contract says
//! which status and which text come for which words and bytes, over every source and every sink: `specs/Answer.antt`
//! for all commands, on `ore_reply/specs/Answered.antt`, `specs/ReplyOfCheck.antt` for `check`, and `specs/Finding.antt` for
//! the searches.
//!
//! A [`Command`] has its words, the limit of what it reads, and its own reply to the bytes of an input. `check` reads a
//! problem, that is a system as a matrix of operators, and behind it the text of a certificate, which claims something of
//! that matrix. The reply says whether the certificate is valid, or which line has a fault or fails a condition, or that a
//! number or a degree leaves the program's range. The report of a stopped search is valid where it is honest.
//!
//! A search reads a problem alone and follows a plan: `analyse`, `kernel`, `parametrise`, `inverse left`, `inverse right`,
//! `resolve`, `ext` and `adjoint`. It writes the certificate of what it finds, or the problem with the transposed adjoint
//! of its matrix. Where an operation stops, or the budget of pairs is spent, it writes the report of that, and nothing
//! else comes. So where no report is honest the search has an answer, if memory, source and sink serve.
//!
//! `generate` reads nothing, and writes the problem with a number. `survey` writes the verdict on it, once `check` has
//! found the certificate valid, and the size of the certificate.
//!
//!  * `command`: the commands.
//!  * `report_check`: the check of a report, by a search with its choices.
//!  * `condition`: the reply to the answer of a check.
//!  * `verify`: the reply to a certificate, checked in the ring that the signature has.
//!  * `check`: the reply of `check` to the bytes.
//!  * `found`, `find`: what a plan finds of a matrix.
//!  * `search`: the reply of a search to the bytes.
//!  * `generated`: the reply with a generated problem.
//!  * `survey`: the reply with the verdict on it.
//!  * `top`: the top call.
//!  * `laws`: each input has one reply to `check`, and one to a search; words call one command; a search without an honest
//!    report has an answer; what is printed of a right certificate is valid.
//!
//! The crate stands on `ore_reply` for words, input, output and replies, on `ore_io` for sources and sinks, on
//! `ore_problem` and `ore_generate` for problems, on `ore_cert` and `ore_check` for certificates, their check and the plans,
//! on `ore_kernels`, `ore_inverse`, `ore_torsion`, `ore_resolution` and `ore_adjoint` for what is found, on `ore_report` for
//! the choosers of runs, and on `ore_commutative`, `ore_weyl` and `ore_mixed` for rings.
#![tactic(auto)]

mod check;
mod command;
mod condition;
pub mod find;
pub mod found;
mod generated;
pub mod laws;
pub mod report_check;
mod search;
mod survey;
mod top;
mod verify;

pub use command::Command;
pub use report_check::check_report;
pub use top::bench;

//! Torsion of matrices: which of the two verdicts is true.
//!
//! A matrix R has torsion where some row outside of its row module is taken into it by an operator that isn't zero: an
//! autonomous element. [`analyse`] answers a certificate that there is none, so that R is controllable, or one of such an
//! element. The columns of Q generate what R takes to zeros. Where each row that takes Q to zeros is in the row module of
//! R, R leaves no torsion; else the first that isn't is an autonomous element, since what Q takes to zeros is torsion.
//!
//! The call follows its plan (`analyse` of `ore_check/specs/Plans.antt`) by the choices of a chooser: its answer is one that
//! the plan forms by the choices given, so it is true and one that the check accepts, and each halt comes where these
//! choices lead the plan to it. There is no third answer.
//!
//!  * `entries`: the first row with a first entry that isn't zero.
//!  * `forming`: the certificates of both verdicts.
//!  * `finding`: the search.
//!
//! The crate stands on `ore_inverse` for reductions, on `ore_syzygy` for kernels and blocks, on `ore_check` for identities
//! and plans, on `ore_cert` for certificates, and on `ore_groebner` for runs.
#![tactic(auto)]

mod entries;
pub mod finding;
mod forming;

pub use finding::analyse;

//! One-sided inverses of matrices.
//!
//! [`left_inverse`] runs on the rows of a matrix and reduces the unit rows by the basis: where nothing is left of each, the
//! combinations are the rows of a left inverse; else the first unit row of which something is left is the first that isn't
//! in the row module, and no left inverse exists. [`right_inverse`] does the same with the transposed adjoint, and turns
//! what it finds. An inverse times the matrix, or the matrix times the inverse, is the identity; where there is none, a
//! valid block shows the unit row to be outside (`specs/Inverses.antt`).
//!
//! [`left_certificate`] and [`right_certificate`] answer the same as certificates: they are true, and the check accepts
//! them. Each call follows its plan (`inverse_left`, `inverse_right` of `ore_check/specs/Plans.antt`) by the choices of a
//! chooser: its answer is the one that the plan forms by the choices given, and a halt comes only where these choices lead
//! the plan to it.
//!
//!  * `runs`: complete runs on stored matrices.
//!  * `reductions`: rows reduced in order.
//!  * `answer`: an inverse or none, and its certificates.
//!  * `search`: the search for a left inverse, and the turn of an answer.
//!  * `finding`: the certificates.
//!  * `inverse`: the inverses.
//!
//! The crate stands on `ore_division` for reductions, on `ore_adjoint` for transposed adjoints, on `ore_syzygy` for blocks,
//! on `ore_check` for identities and plans, on `ore_cert` for certificates, and on `ore_groebner` for runs.
#![tactic(auto)]

pub mod answer;
pub mod finding;
pub mod inverse;
pub mod reductions;
pub mod runs;
mod search;

pub use answer::InverseAnswer;
pub use finding::{left_certificate, right_certificate};
pub use inverse::{left_inverse, right_inverse};
pub use reductions::{Reductions, reduce_rows, reduce_units};
pub use runs::run_on;

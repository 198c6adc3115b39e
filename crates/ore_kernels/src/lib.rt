//! Certificates of kernels.
//!
//! [`kernel_certificate`] finds the left or the right kernel of a matrix by the choices of a chooser, with the block that
//! shows it, and forms the identities of the certificate. It follows the plan of that kernel (`kernel_left` and
//! `kernel_right` of `ore_check/specs/Plans.antt`): each answer is a certificate that the plan forms by the choices given,
//! so it is true and one that the check accepts, and each halt comes where these choices lead the plan to it.
//!
//!  * `block`: the block of a kernel.
//!  * `finding`: the certificate.
//!
//! The crate stands on `ore_syzygy` for kernels and blocks, on `ore_check` for identities and plans, on `ore_cert` for
//! certificates, on `ore_groebner` for choosers and halts, and on `ore_rows` and below for matrices.
#![tactic(auto)]

pub mod block;
pub mod finding;

pub use finding::kernel_certificate;

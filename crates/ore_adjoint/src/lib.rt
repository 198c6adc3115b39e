//! The transposed adjoint of matrices of operators.
//!
//! [`transpose_adjoint`] makes of a matrix with q rows and p columns the one with p rows and q columns, whose entry
//! in row j and column i is the adjoint of the entry in row i and column j, over any ring of operators. It gives
//! what its definition in `specs/AdjointMatrix.antt` gives at the limits of the program: the value, or the cause of
//! the first adjoint that stops. The entries are formed row by row of the result, which is column by column of the
//! matrix. Want of memory is the one answer beside it. The adjoint of an entry that is zero isn't formed.
//!
//! The law function of [`laws`] says that a value within limits is the transposed adjoint of
//! `ore_rows/specs/Rows.antt`, and that without limits there is one. That the transposed adjoint turns products
//! round and is its own inverse is a contract of `ore_laws`.
//!
//! The crate stands on `ore_rows` for rows and matrices and on `ore_ring` for operators and their adjoints.
#![tactic(auto)]

pub mod laws;
pub mod matrix;

pub use matrix::transpose_adjoint;

//! Kernels of matrices, and the blocks of certificates that a complete run makes.
//!
//! [`left_kernel`] runs on the rows of a matrix: the syzygies of the run generate all rows that take the matrix to zeros.
//! [`right_kernel`] runs on the rows of the transposed adjoint; the transposed adjoint of the syzygies has the columns that
//! generate all columns which the matrix takes to zeros (`specs/Kernels.antt`). Both follow a course
//! (`ore_blocks/specs/KernelCourse.antt`) by the choices of a chooser: the answer is the one to which the choices given
//! lead, and where there is none, they lead to the stop, or to a state in which the budget is spent or the next kept choice
//! isn't lawful. A stop outside the treatment of a pair is one of forced work, as are those of the transposed adjoints.
//!
//! [`exact_block`] and [`outside_block`] make of a complete run the block that its last state makes
//! (`ore_blocks/specs/BlockOfRun.antt`), on whatever matrix the run was; they stop for want of memory alone. The law
//! function of [`laws`] says that such a block is valid, and of the signature (`specs/Laws.antt`).
//!
//! A block takes the parts of the run, and [`syzygies_with_block`] gives its syzygies back. Its inside rows are looked for
//! beside their origins, from the first on.
//!
//! The crate stands on `ore_groebner` for runs, on `ore_adjoint` for transposed adjoints, and on `ore_parts` and
//! `ore_blocks` for blocks. It doesn't stand on the check of certificates.
#![tactic(auto)]

pub mod block;
mod copies;
mod inside;
pub mod kernel;
pub mod laws;
mod pairs;

pub use block::{exact_block, outside_block, syzygies_with_block};
pub use kernel::{Kernel, left_kernel, right_kernel};

//! Kernels of matrices.

ghost use Rattle.std.specs.Prelude.{◌≡◌, IfOk, IfErr};
ghost use Rattle.std.specs.List.{All};
ghost use Rattle.ore_algebra.specs.Limits.{program};
ghost use Rattle.ore_ring.specs.Belongs.{AllBelong};
ghost use Rattle.ore_blocks.specs.CheckBlock.{row_matrix_of};
ghost use Rattle.ore_blocks.specs.KernelCourse as courses;
ghost use Rattle.ore_groebner.specs.Choosing.{present, AreWithinBudget};
ghost use Rattle.ore_groebner.specs.Courses.{last_of, FollowsTo, HaltsIn};
ghost use Rattle.ore_groebner.specs.Honest.{IsHonestRun};
ghost use Rattle.ore_syzygy.specs.Kernels.{IsLeftKernel, IsRightKernel, IsRunOnAdjoint, right_answer};
ghost use Rattle.ore_syzygy.specs.RunBlock.{HasRun};

use crate::copies::matrix_copy;
use ore_adjoint::transpose_adjoint;
use ore_groebner::halting::halt_at;
use ore_groebner::run::run;
use ore_groebner::{Chooser, Finished, Halt, StopAt};
use ore_ring::OreRing;
use ore_rows::Matrix;
use std::alloc::Global;

/// Generators of a kernel, and the run that found them.
#[derive(Drop)]
pub struct Kernel {
    /// Its rows, or its columns, generate the kernel.
    pub generators: Matrix,
    /// The run on the rows of the matrix, or on those of its transposed adjoint.
    pub run: Finished,
}

/// The rows of the generators, which have an entry for each row of `a`, generate all rows that take `a` to zeros.
///
/// # Errors
/// As those of [`run`], on the rows of `a`.
pub fn left_kernel<R: OreRing, C: Chooser>(
    ring: &R,
    alloc: Global,
    a: &Matrix,
    chooser: &mut C,
) -> Result<Kernel, Halt>
    requires { All (AllBelong (R.sig ring.now)) a.now.rows }
    ensures kernel { IfOk result (IsLeftKernel (R.sig ring.now) a.now) }
    ensures of { IfOk result (λ k. All (AllBelong (R.sig ring.now)) k.generators.rows) }
    ensures run { IfOk result (λ k. HasRun (R.sig ring.now) k.run) }
    ensures honest { IfOk result (λ k. IsHonestRun (R.sig ring.now) a.now (present (C.given chooser.new)) k.run) }
    ensures answered { IfOk result (λ k. FollowsTo (R.sig ring.now) C.allows C.allows_spent (courses.run_on program (R.sig ring.now) (row_matrix_of a.now)) (C.given chooser.old) (C.given chooser.new) (last_of k.run)) }
    ensures halts { IfErr result (HaltsIn (R.sig ring.now) C.allows C.allows_spent (courses.run_on program (R.sig ring.now) (row_matrix_of a.now)) (C.given chooser.old) (C.given chooser.new) (C.settings chooser.new)) }
    ensures within_budget { AreWithinBudget (C.given chooser.old) (C.settings chooser.old).budget → AreWithinBudget (C.given chooser.new) (C.settings chooser.new).budget }
    ensures settings { C.settings chooser.new ≡ C.settings chooser.old }
{
    let _cols = a.cols();
    let _rows = a.rows();
    let run = run(ring, alloc, a, chooser)?;
    let Ok(generators) = matrix_copy(ring, alloc, &run.syzygies) else {
        return Err(Halt::Memory);
    };
    Ok(Kernel { generators, run })
}

/// The columns of the generators, which have an entry for each column of `r`, generate all columns that `r` takes to
/// zeros. The run is on the rows of the transposed adjoint of `r`.
///
/// # Errors
/// As those of [`run`], on the rows of the transposed adjoint; and where forming it, or that of the syzygies, stops.
pub fn right_kernel<R: OreRing, C: Chooser>(
    ring: &R,
    alloc: Global,
    r: &Matrix,
    chooser: &mut C,
) -> Result<Kernel, Halt>
    requires { All (AllBelong (R.sig ring.now)) r.now.rows }
    ensures kernel { IfOk result (IsRightKernel (R.sig ring.now) r.now) }
    ensures of { IfOk result (λ k. All (AllBelong (R.sig ring.now)) k.generators.rows) }
    ensures run { IfOk result (λ k. HasRun (R.sig ring.now) k.run) }
    ensures honest { IfOk result (λ k. IsRunOnAdjoint (R.sig ring.now) r.now (present (C.given chooser.new)) k.run) }
    ensures answered { IfOk result (λ k. FollowsTo (R.sig ring.now) C.allows C.allows_spent (courses.right_kernel program (R.sig ring.now) (row_matrix_of r.now)) (C.given chooser.old) (C.given chooser.new) (right_answer (R.sig ring.now) r.now k)) }
    ensures halts { IfErr result (HaltsIn (R.sig ring.now) C.allows C.allows_spent (courses.right_kernel program (R.sig ring.now) (row_matrix_of r.now)) (C.given chooser.old) (C.given chooser.new) (C.settings chooser.new)) }
    ensures within_budget { AreWithinBudget (C.given chooser.old) (C.settings chooser.old).budget → AreWithinBudget (C.given chooser.new) (C.settings chooser.new).budget }
    ensures settings { C.settings chooser.new ≡ C.settings chooser.old }
{
    let _cols = r.cols();
    let _rows = r.rows();
    let adjoint = match transpose_adjoint(ring, alloc, r) {
        Ok(adjoint) => adjoint,
        Err(stop) => return Err(halt_at(stop, StopAt::Forced)),
    };
    let _fits = adjoint.cols();
    let run = run(ring, alloc, &adjoint, chooser)?;
    match transpose_adjoint(ring, alloc, &run.syzygies) {
        Ok(generators) => Ok(Kernel { generators, run }),
        Err(stop) => Err(halt_at(stop, StopAt::Forced)),
    }
}

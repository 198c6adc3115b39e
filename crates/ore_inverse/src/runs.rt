//! Complete runs on stored matrices.

ghost use Rattle.std.specs.Prelude.{◌≡◌, IfOk, IfErr};
ghost use Rattle.std.specs.List.{All};
ghost use Rattle.ore_algebra.specs.Limits.{program};
ghost use Rattle.ore_ring.specs.Belongs.{AllBelong};
ghost use Rattle.ore_blocks.specs.CheckBlock.{row_matrix_of};
ghost use Rattle.ore_blocks.specs.KernelCourse.{run_on};
ghost use Rattle.ore_groebner.specs.Choosing.{AreWithinBudget};
ghost use Rattle.ore_groebner.specs.Courses.{last_of, FollowsTo, HaltsIn};
ghost use Rattle.ore_inverse.specs.Runs.{IsRunOn};

use ore_groebner::run::run;
use ore_groebner::{Chooser, Finished, Halt};
use ore_ring::OreRing;
use ore_rows::Matrix;
use std::alloc::Global;

/// A complete run on the rows of the matrix.
///
/// # Errors
/// As those of [`run`].
pub fn run_on<R: OreRing, C: Chooser>(
    ring: &R,
    alloc: Global,
    a: &Matrix,
    chooser: &mut C,
) -> Result<Finished, Halt>
    requires { All (AllBelong (R.sig ring.now)) a.now.rows }
    ensures run { IfOk result (IsRunOn (R.sig ring.now) a.now) }
    ensures answered { IfOk result (λ f. FollowsTo (R.sig ring.now) C.allows C.allows_spent (run_on program (R.sig ring.now) (row_matrix_of a.now)) (C.given chooser.old) (C.given chooser.new) (last_of f)) }
    ensures halts { IfErr result (HaltsIn (R.sig ring.now) C.allows C.allows_spent (run_on program (R.sig ring.now) (row_matrix_of a.now)) (C.given chooser.old) (C.given chooser.new) (C.settings chooser.new)) }
    ensures within_budget { AreWithinBudget (C.given chooser.old) (C.settings chooser.old).budget → AreWithinBudget (C.given chooser.new) (C.settings chooser.new).budget }
    ensures settings { C.settings chooser.new ≡ C.settings chooser.old }
{
    let _cols = a.cols();
    let _rows = a.rows();
    run(ring, alloc, a, chooser)
}

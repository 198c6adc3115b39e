//! Finds a one-sided inverse of a matrix, or what shows that there is none.

ghost use Rattle.std.specs.Prelude.{◌≡◌, IfOk, IfErr};
ghost use Rattle.std.specs.List.{All};
ghost use Rattle.ore_algebra.specs.Limits.{program};
ghost use Rattle.ore_ring.specs.Belongs.{AllBelong};
ghost use Rattle.ore_blocks.specs.CheckBlock.{row_matrix_of};
ghost use Rattle.ore_groebner.specs.Choosing.{AreWithinBudget};
ghost use Rattle.ore_groebner.specs.Courses.{FollowsTo, HaltsIn};
ghost use Rattle.ore_check.specs.PlanLaws.{IsCorrect};
ghost use Rattle.ore_check.specs.Plans.{inverse_left, inverse_right};
ghost use Rattle.ore_inverse.specs.Inverses.{IsOfLeftInverse, IsOfRightInverse, NamesFirstUnit};

use crate::answer::{left_certificate_of, right_certificate_of};
use crate::search::{find_left, turned};
use ore_adjoint::transpose_adjoint;
use ore_cert::Certificate;
use ore_check::certify;
use ore_groebner::{Chooser, Halt};
use ore_ring::OreRing;
use ore_rows::Matrix;
use std::alloc::Global;

/// The certificate of a left inverse of `r`, which has a row for each column of `r` and a column for each of its rows; or
/// that there is none, with the first unit row that isn't in the row module of `r`.
///
/// # Errors
/// As those of a run on the rows of `r`; and where reducing a unit row, or an identity of the certificate, stops, as forced
/// work.
pub fn left_certificate<R: OreRing, C: Chooser>(
    ring: &R,
    alloc: Global,
    r: &Matrix,
    chooser: &mut C,
) -> Result<Certificate, Halt>
    requires { All (AllBelong (R.sig ring.now)) r.now.rows }
    ensures correct { IfOk result (IsCorrect (R.sig ring.now) (row_matrix_of r.now)) }
    ensures kind { IfOk result IsOfLeftInverse }
    ensures first { IfOk result (NamesFirstUnit (R.sig ring.now) (row_matrix_of r.now)) }
    ensures answered { IfOk result (FollowsTo (R.sig ring.now) C.allows C.allows_spent (inverse_left program (R.sig ring.now) (row_matrix_of r.now)) (C.given chooser.old) (C.given chooser.new)) }
    ensures halts { IfErr result (HaltsIn (R.sig ring.now) C.allows C.allows_spent (inverse_left program (R.sig ring.now) (row_matrix_of r.now)) (C.given chooser.old) (C.given chooser.new) (C.settings chooser.new)) }
    ensures within_budget { AreWithinBudget (C.given chooser.old) (C.settings chooser.old).budget → AreWithinBudget (C.given chooser.new) (C.settings chooser.new).budget }
    ensures settings { C.settings chooser.new ≡ C.settings chooser.old }
{
    let _cols = r.cols();
    let answer = find_left(ring, alloc, r, chooser)?;
    Ok(certify(ring, alloc, r, left_certificate_of(answer))?)
}

/// The certificate of a right inverse of `r`, which has a row for each column of `r` and a column for each of its rows; or
/// that there is none, with the first unit row that isn't in the row module of the transposed adjoint of `r`.
///
/// # Errors
/// As those of a run on the rows of the transposed adjoint; and where forming it, reducing a unit row, the transposed
/// adjoint of the combinations, or an identity of the certificate stops, as forced work.
pub fn right_certificate<R: OreRing, C: Chooser>(
    ring: &R,
    alloc: Global,
    r: &Matrix,
    chooser: &mut C,
) -> Result<Certificate, Halt>
    requires { All (AllBelong (R.sig ring.now)) r.now.rows }
    ensures correct { IfOk result (IsCorrect (R.sig ring.now) (row_matrix_of r.now)) }
    ensures kind { IfOk result IsOfRightInverse }
    ensures first { IfOk result (NamesFirstUnit (R.sig ring.now) (row_matrix_of r.now)) }
    ensures answered { IfOk result (FollowsTo (R.sig ring.now) C.allows C.allows_spent (inverse_right program (R.sig ring.now) (row_matrix_of r.now)) (C.given chooser.old) (C.given chooser.new)) }
    ensures halts { IfErr result (HaltsIn (R.sig ring.now) C.allows C.allows_spent (inverse_right program (R.sig ring.now) (row_matrix_of r.now)) (C.given chooser.old) (C.given chooser.new) (C.settings chooser.new)) }
    ensures within_budget { AreWithinBudget (C.given chooser.old) (C.settings chooser.old).budget → AreWithinBudget (C.given chooser.new) (C.settings chooser.new).budget }
    ensures settings { C.settings chooser.new ≡ C.settings chooser.old }
{
    let _cols = r.cols();
    let adjoint = transpose_adjoint(ring, alloc, r)?;
    let found = find_left(ring, alloc, &adjoint, chooser)?;
    let answer = turned(ring, alloc, found)?;
    Ok(certify(ring, alloc, r, right_certificate_of(answer))?)
}

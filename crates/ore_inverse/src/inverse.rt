//! One-sided inverses of matrices.

ghost use Rattle.std.specs.Prelude.{◌≡◌, IfOk, IfErr};
ghost use Rattle.std.specs.List.{All};
ghost use Rattle.ore_algebra.specs.Limits.{program};
ghost use Rattle.ore_ring.specs.Belongs.{AllBelong};
ghost use Rattle.ore_blocks.specs.CheckBlock.{row_matrix_of};
ghost use Rattle.ore_groebner.specs.Choosing.{AreWithinBudget};
ghost use Rattle.ore_groebner.specs.Courses.{FollowsTo, HaltsIn};
ghost use Rattle.ore_check.specs.Plans.{inverse_left, inverse_right};
ghost use Rattle.ore_inverse.specs.Inverses.{left_certificate_of, right_certificate_of, IsLeftInverseAnswer, IsRightInverseAnswer};

use crate::answer::{InverseAnswer, answer_of};
use crate::finding::{left_certificate, right_certificate};
use ore_groebner::{Chooser, Halt};
use ore_ring::OreRing;
use ore_rows::Matrix;
use std::alloc::Global;

/// A matrix S with S `r` the identity, or that there is none, found by the choices of the chooser.
///
/// # Errors
/// As those of [`left_certificate`].
pub fn left_inverse<R: OreRing, C: Chooser>(
    ring: &R,
    alloc: Global,
    r: &Matrix,
    chooser: &mut C,
) -> Result<InverseAnswer, Halt>
    requires { All (AllBelong (R.sig ring.now)) r.now.rows }
    ensures inverse { IfOk result (IsLeftInverseAnswer (R.sig ring.now) (row_matrix_of r.now)) }
    ensures answered { IfOk result (λ x. FollowsTo (R.sig ring.now) C.allows C.allows_spent (inverse_left program (R.sig ring.now) (row_matrix_of r.now)) (C.given chooser.old) (C.given chooser.new) (left_certificate_of x)) }
    ensures halts { IfErr result (HaltsIn (R.sig ring.now) C.allows C.allows_spent (inverse_left program (R.sig ring.now) (row_matrix_of r.now)) (C.given chooser.old) (C.given chooser.new) (C.settings chooser.new)) }
    ensures within_budget { AreWithinBudget (C.given chooser.old) (C.settings chooser.old).budget → AreWithinBudget (C.given chooser.new) (C.settings chooser.new).budget }
    ensures settings { C.settings chooser.new ≡ C.settings chooser.old }
{
    let cert = left_certificate(ring, alloc, r, chooser)?;
    Ok(answer_of(cert))
}

/// A matrix S with `r` S the identity, or that there is none, found by the choices of the chooser. The run is on the rows of
/// the transposed adjoint of `r`.
///
/// # Errors
/// As those of [`right_certificate`].
pub fn right_inverse<R: OreRing, C: Chooser>(
    ring: &R,
    alloc: Global,
    r: &Matrix,
    chooser: &mut C,
) -> Result<InverseAnswer, Halt>
    requires { All (AllBelong (R.sig ring.now)) r.now.rows }
    ensures inverse { IfOk result (IsRightInverseAnswer (R.sig ring.now) (row_matrix_of r.now)) }
    ensures answered { IfOk result (λ x. FollowsTo (R.sig ring.now) C.allows C.allows_spent (inverse_right program (R.sig ring.now) (row_matrix_of r.now)) (C.given chooser.old) (C.given chooser.new) (right_certificate_of x)) }
    ensures halts { IfErr result (HaltsIn (R.sig ring.now) C.allows C.allows_spent (inverse_right program (R.sig ring.now) (row_matrix_of r.now)) (C.given chooser.old) (C.given chooser.new) (C.settings chooser.new)) }
    ensures within_budget { AreWithinBudget (C.given chooser.old) (C.settings chooser.old).budget → AreWithinBudget (C.given chooser.new) (C.settings chooser.new).budget }
    ensures settings { C.settings chooser.new ≡ C.settings chooser.old }
{
    let cert = right_certificate(ring, alloc, r, chooser)?;
    Ok(answer_of(cert))
}

//! The search for an inverse, before the identities of its certificate are formed.

ghost use Rattle.std.specs.Prelude.{◌≡◌, IfOk, IfErr};
ghost use Rattle.std.specs.List.{All};
ghost use Rattle.ore_monomial.specs.Gives.{Gives};
ghost use Rattle.ore_ring.specs.Belongs.{AllBelong};
ghost use Rattle.ore_cert.specs.CertificateOf.{IsCertificateOf};
ghost use Rattle.ore_blocks.specs.CheckBlock.{row_matrix_of};
ghost use Rattle.ore_groebner.specs.Choosing.{AreWithinBudget};
ghost use Rattle.ore_groebner.specs.Courses.{FollowsTo, HaltsIn};
ghost use Rattle.ore_inverse.specs.Inverses.{left_certificate_of, right_certificate_of, NamesFirstUnit};
ghost use Rattle.ore_inverse.specs.Search.{left_search, turned};

use crate::answer::InverseAnswer;
use crate::reductions::{Reductions, reduce_units};
use crate::runs::run_on;
use ore_adjoint::transpose_adjoint;
use ore_groebner::{Chooser, Halt};
use ore_monomial::RingStop;
use ore_ring::OreRing;
use ore_rows::Matrix;
use ore_syzygy::outside_block;
use std::alloc::Global;

// A left inverse of `a`, or the first unit row that isn't in its row module.
pub(crate) fn find_left<R: OreRing, C: Chooser>(
    ring: &R,
    alloc: Global,
    a: &Matrix,
    chooser: &mut C,
) -> Result<InverseAnswer, Halt>
    requires { All (AllBelong (R.sig ring.now)) a.now.rows }
    ensures of { IfOk result (λ x. IsCertificateOf (R.sig ring.now) (left_certificate_of x)) }
    ensures first { IfOk result (λ x. NamesFirstUnit (R.sig ring.now) (row_matrix_of a.now) (left_certificate_of x)) }
    ensures answered { IfOk result (FollowsTo (R.sig ring.now) C.allows C.allows_spent (left_search (R.sig ring.now) (row_matrix_of a.now)) (C.given chooser.old) (C.given chooser.new)) }
    ensures halts { IfErr result (HaltsIn (R.sig ring.now) C.allows C.allows_spent (left_search (R.sig ring.now) (row_matrix_of a.now)) (C.given chooser.old) (C.given chooser.new) (C.settings chooser.new)) }
    ensures within_budget { AreWithinBudget (C.given chooser.old) (C.settings chooser.old).budget → AreWithinBudget (C.given chooser.new) (C.settings chooser.new).budget }
    ensures settings { C.settings chooser.new ≡ C.settings chooser.old }
{
    let run = run_on(ring, alloc, a, chooser)?;
    let reductions = reduce_units(ring, alloc, &run.basis, a.cols())?;
    match reductions {
        Reductions::AllReduce(combinations) => {
            let _fits = combinations.cols();
            Ok(InverseAnswer::Found(combinations))
        }
        Reductions::LeavesRest(unit, rest) => {
            let block = outside_block(ring, alloc, run, &rest)?;
            Ok(InverseAnswer::None(unit, block))
        }
    }
}

// What a left inverse of the transposed adjoint of a matrix, or none, says of the matrix: its transposed adjoint is a right
// inverse.
pub(crate) fn turned<R: OreRing>(
    ring: &R,
    alloc: Global,
    answer: InverseAnswer,
) -> Result<InverseAnswer, RingStop>
    requires { IsCertificateOf (R.sig ring.now) (left_certificate_of answer) }
    ensures gives { Gives (λ x. x) result (turned (R.sig ring.now) answer) }
    ensures of { IfOk result (λ x. IsCertificateOf (R.sig ring.now) (right_certificate_of x)) }
{
    match answer {
        InverseAnswer::Found(left) => {
            let right = transpose_adjoint(ring, alloc, &left)?;
            let _fits = right.cols();
            Ok(InverseAnswer::Found(right))
        }
        InverseAnswer::None(unit, block) => Ok(InverseAnswer::None(unit, block)),
    }
}

//! Lead reduction over a ring that has all kinds of letters.

ghost use Rattle.std.specs.Prelude.{◌≡◌, ◌<◌, IfOk, length};
ghost use Rattle.ore_rows.specs.StoredBasis.{BasisBelongs};

use crate::bases::add;
use crate::rows::{D, ONE, T, T_D, is_row, row_of};
use ore_agree::operators::{Term, mixed};
use ore_division::{Reduced, reduce};
use ore_mixed::MixedRing;
use ore_monomial::{Exps, Order, Signature};
use ore_rational::Rational;
use ore_ring::OreRing;
use ore_rows::{Basis, Step, Steps};
use std::alloc::Global;
use std::test::Fail;

const MINUS_ONE: Term = (-1, [0; 12]);

const MINUS_D: Term = (-1, [0, 0, 0, 0, 0, 0, 1, 0, 0, 0, 0, 0]);

// The basis of (t, 0) and (d, 1), each with a cofactor row of its own.
fn basis_of_two(signature: &Signature, alloc: Global) -> Result<Basis, Fail>
    requires { length signature.now.kinds ≡ 12 }
    ensures of { IfOk result (λ b. BasisBelongs signature.now b.items) }
    ensures cols { IfOk result (λ b. b.cols ≡ 2) }
    ensures width { IfOk result (λ b. b.width ≡ 2) }
{
    let mut basis = Basis::new(alloc, 2, 2);
    let first = row_of(signature, alloc, &[T], &[])?;
    let one = row_of(signature, alloc, &[ONE], &[])?;
    add(&mut basis, signature, first, one)?;
    let second = row_of(signature, alloc, &[D], &[ONE])?;
    let other_one = row_of(signature, alloc, &[], &[ONE])?;
    add(&mut basis, signature, second, other_one)?;
    Ok(basis)
}

// Lead reduction of (t d + d, 0) by it.
fn reduced(ring: &MixedRing, alloc: Global) -> Result<Reduced, Fail>
    requires { length ring.now.kinds ≡ 12 }
{
    let signature = OreRing::signature(ring);
    let basis = basis_of_two(signature, alloc)?;
    let row = row_of(signature, alloc, &[T_D, D], &[])?;
    let zeros = row_of(signature, alloc, &[], &[])?;
    Ok(reduce(ring, alloc, &basis, row, zeros)?)
}

// Whether a step takes a monomial times a row of the basis.
fn takes(step: &Step, index: usize, exps: Exps) -> bool {
    step.index == index && step.exps == exps && step.coef == Rational::one()
}

// Whether there are two steps, which take d times the first row and then the second row.
fn are_two(steps: &Steps) -> Result<bool, Fail> {
    if steps.len() != 2 {
        return Ok(false);
    }
    let d = Exps::from_list(&D.1)?;
    Ok(takes(steps.get(0), 0, d) && takes(steps.get(1), 1, Exps::zero()))
}

#[test]
fn two_steps(rt: HostRuntime) -> Result<(), Fail> {
    let ring = MixedRing::new(mixed(Order::DegRevLex)?);
    // (t d + d, 0) - d (t, 0) = (d - 1, 0), since d t = t d + 1; and less (d, 1) that is (-1, -1)
    let reduced = reduced(&ring, rt.alloc())?;
    let signature = OreRing::signature(&ring);
    assert!(rt;
        is_row(
            signature,
            rt.alloc(),
            &reduced.row,
            &[MINUS_ONE],
            &[MINUS_ONE]
        )?
    );
    assert!(rt;
        is_row(
            signature,
            rt.alloc(),
            &reduced.cofactor,
            &[MINUS_D],
            &[MINUS_ONE]
        )?
    );
    assert!(rt; are_two(&reduced.steps)?);
    Ok(())
}

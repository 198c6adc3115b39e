//! Dense operators.

ghost use Rattle.std.specs.Prelude.{◌≡◌, ◌≤◌, ◌<◌, IfOk, IfSome, IsTrue};
ghost use Rattle.ore_monomial.specs.Signature.{MonomialOf};
ghost use Rattle.ore_ring.specs.Belongs.{Belongs};

use ore_mixed::MixedRing;
use ore_monomial::{Exps, RingStop, Signature};
use ore_rational::Rational;
use ore_ring::{Op, OreRing};
use std::alloc::Global;

/// The sum of the first monomials by degree, times the whole numbers from 1 to 9 in turn.
pub fn dense(ring: &MixedRing, alloc: Global, terms: u32) -> Result<Op, RingStop>
    ensures { IfOk result (Belongs ring.now) }
{
    let signature = OreRing::signature(ring);
    let mut made = Op::zero(alloc, signature.order());
    let mut exponents = [0; 12];
    for place in 0..terms {
        let exps = Exps::from_list(&exponents)?;
        add_own_term(
            signature,
            &mut made,
            exps,
            Rational::whole(i128::from(place % 9 + 1)),
        )?;
        advance(&mut exponents, signature.count());
    }
    Ok(made)
}

// Adds a term. One that has a variable which the signature doesn't declare is left out.
fn add_own_term(
    signature: &Signature,
    made: &mut Op,
    exps: Exps,
    number: Rational,
) -> Result<(), RingStop>
    requires { Belongs signature.now made.old }
    ensures { Belongs signature.now made.new }
{
    if is_of(signature, &exps) {
        made.add_term(exps, number)
    } else {
        Ok(())
    }
}

// Whether a monomial has only variables that the signature declares.
fn is_of(signature: &Signature, exps: &Exps) -> bool
    ensures { IsTrue result → MonomialOf signature.now exps.now }
{
    for k in signature.count()..12 {
        if exps.get(k) != 0 {
            return false;
        }
    }
    true
}

// The exponents in the first `count` variables that follow these: the last of a degree is followed by the
// first of the next.
fn advance(exponents: &mut [u16; 12], count: usize)
    requires { count ≤ 12 }
{
    let Some(k) = first_used(exponents, count) else {
        exponents[0] = 1;
        return
    };
    let most = exponents[k];
    exponents[k] = 0;
    if k + 1 < count {
        exponents[0] = most.saturating_sub(1);
        exponents[k + 1] = exponents[k + 1].saturating_add(1);
    } else {
        exponents[0] = most.saturating_add(1);
    }
}

// The first variable that has an exponent.
fn first_used(exponents: &[u16; 12], count: usize) -> Option<usize>
    requires { count ≤ 12 }
    ensures { IfSome result (λ k. k < count) }
{
    for k in 0..count {
        if exponents[k] != 0 {
            return Some(k);
        }
    }
    None
}

//! Adjoints of operators, over any way to multiply two monomials.

ghost use Rattle.std.specs.Prelude.{◌≡◌, ◌+◌, ◌≤◌, IfOk};
ghost use Rattle.ore_algebra.specs.Limits.{program, fold_within};
ghost use Rattle.ore_algebra.specs.Ring.{power};
ghost use Rattle.ore_rational.specs.Fraction.{mul};
ghost use Rattle.ore_rational.specs.Field.{rationals};
ghost use Rattle.ore_monomial.specs.Gives.{Gives, Turns};
ghost use Rattle.ore_monomial.specs.Monomial.{degree};
ghost use Rattle.ore_monomial.specs.Signature.{kind_at, is_coordinate as is_coordinate_kind};
ghost use Rattle.ore_ring.specs.AdjointWithin.{coordinate_part as coordinates_of, letter_part as letters_of, adjoint_within};
ghost use Rattle.ore_ring.specs.Belongs.{Belongs};
ghost use Rattle.ore_ring.specs.Contributions.{push_adjoint};

use crate::multiply::{MonomialProduct, push_product};
use crate::op::Op;
use crate::sort::sum_of_terms;
use ore_monomial::{Exps, RingStop, Signature, VarKind};
use ore_rational::Rational;
use std::alloc::Global;

/// The adjoint of an operator.
pub fn adjoint<P: MonomialProduct>(p: &P, alloc: Global, a: &Op) -> Result<Op, RingStop>
    requires { Belongs (P.sig p.now) a.now }
    ensures gives { Gives (λ f. f.sum) result (adjoint_within program (P.sig p.now) a.now.sum) }
    ensures of { IfOk result (Belongs (P.sig p.now)) }
{
    let mut contributions = Vec::new(alloc);
    push_terms(p, alloc, &mut contributions, a.terms())?;
    sum_of_terms(alloc, a.order(), contributions)
}

// The contributions of a list of terms.
fn push_terms<P: MonomialProduct>(
    p: &P,
    alloc: Global,
    out: &mut Vec<(Exps, Rational)>,
    ts: &[(Exps, Rational)],
) -> Result<(), RingStop>
    ensures { Turns result out.new.items (fold_within (push_adjoint program (P.sig p.now)) out.old.items ts.now) }
{
    for t in ts {
        push_term(p, alloc, out, t)?;
    }
    Ok(())
}

// The contributions of one term: its letters pass over its coordinates.
#[tactic(auto, unfolding(crate::specs::Contributions::push_adjoint, crate::specs::AdjointWithin::sign_of))]
fn push_term<P: MonomialProduct>(
    p: &P,
    alloc: Global,
    out: &mut Vec<(Exps, Rational)>,
    t: &(Exps, Rational),
) -> Result<(), RingStop>
    ensures { Turns result out.new.items (push_adjoint program (P.sig p.now) out.old.items t.now) }
{
    let (coordinates, letters) = split(p.signature(), &t.0);
    let coef = signed(&coordinates, t.1);
    push_product(p, alloc, out, coef, &letters, &coordinates)
}

// The part of a monomial in the coordinates, and that in the other letters.
fn split(sig: &Signature, exps: &Exps) -> (Exps, Exps)
    ensures coordinates { result.0 ≡ coordinates_of sig.now exps.now }
    ensures letters { result.1 ≡ letters_of sig.now exps.now }
    ensures small { degree result.1 + degree result.0 ≤ 32767 }
{
    if exps.degree() == 0 {
        return (*exps, *exps);
    }
    let coordinates = coordinate_part(sig, exps);
    let letters = exps.minus(&coordinates);
    (coordinates, letters)
}

// The exponents of the coordinates.
fn coordinate_part(sig: &Signature, exps: &Exps) -> Exps
    requires { degree exps.now ≤ 32767 }
    ensures { result ≡ coordinates_of sig.now exps.now }
{
    let mut values = [0; 12];
    for k in 0..12 {
        if is_coordinate(sig, k) {
            values[k] = exps.get(k);
        }
    }
    match Exps::from_list(&values) {
        Ok(part) => part,
        // This doesn't come: the part has at most the degree of the whole.
        Err(_) => *exps,
    }
}

// Whether a variable is a coordinate. Past the last variable none is.
fn is_coordinate(sig: &Signature, k: usize) -> bool
    ensures { result ≡ is_coordinate_kind (kind_at sig.now k) }
{
    k < sig.count() && matches!(sig.kind(k), VarKind::Coordinate)
}

// A fraction with the sign of the adjoint of a monomial in the coordinates.
fn signed(coordinates: &Exps, coef: Rational) -> Rational
    ensures { result ≡ mul (power rationals.ring (rationals.minus rationals.one) (degree coordinates.now)) coef }
{
    if coordinates.degree() % 2 == 0 {
        coef
    } else {
        coef.neg()
    }
}

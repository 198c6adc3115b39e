//! Products of operators, over any way to multiply two monomials.

ghost use Rattle.std.specs.Prelude.{◌≡◌, ◌+◌, ◌≤◌, [], ◌∷◌, pos, true, IfOk};
ghost use Rattle.std.specs.List.{All};
ghost use Rattle.ore_algebra.specs.Limits.{program, fold_within};
ghost use Rattle.ore_rational.specs.Fraction.{whole};
ghost use Rattle.ore_rational.specs.Range.{InRange};
ghost use Rattle.ore_monomial.specs.Gives.{Gives, Turns};
ghost use Rattle.ore_monomial.specs.Monomial.{degree, unit};
ghost use Rattle.ore_monomial.specs.Signature.{Signature as Lawful};
ghost use Rattle.ore_ring.specs.Belongs.{Belongs};
ghost use Rattle.ore_monomial.specs.Numbers.{numbers, numbers_within};
ghost use Rattle.ore_ring.specs.Products.{AreWhole};
ghost use Rattle.ore_ring.specs.Terms.{falling, IsFalling};
ghost use Rattle.ore_ring.specs.Contributions.{AreInRange, push_number as number_of, push_product as product_of, push_pair as pair_of, push_row as row_of};
ghost use Rattle.ore_ring.specs.Within.{times_within, degrees_fit as fit};

use crate::fraction::product;
use crate::meet::meets_none;
use crate::op::Op;
use crate::sort::sum_of_terms;
use ore_monomial::{Exps, Order, RingStop, Signature};
use ore_rational::Rational;
use std::alloc::Global;

/// A way to multiply two monomials, from which a ring of operators is made.
pub trait MonomialProduct {
    /// The signature of the monomials.
    ghost sig: { Self → Lawful };

    /// The signature of the monomials.
    fn signature(&self) -> &Signature
        ensures { result.now ≡ sig self.now };

    /// The terms of the product of two monomials with their whole numbers, the greatest first.
    fn pass(&self, alloc: Global, left: &Exps, right: &Exps) -> Result<Vec<(Exps, i128)>, RingStop>
        requires { degree left.now + degree right.now ≤ 32767 }
        ensures { Gives (λ v. v.items) result (numbers_within program (numbers (sig self.now) left.now right.now)) };
}

/// The product of two operators.
pub fn times<P: MonomialProduct>(p: &P, alloc: Global, a: &Op, b: &Op) -> Result<Op, RingStop>
    requires a_of { Belongs (P.sig p.now) a.now }
    requires b_of { Belongs (P.sig p.now) b.now }
    ensures gives { Gives (λ f. f.sum) result (times_within program (P.sig p.now) a.now.sum b.now.sum) }
    ensures of { IfOk result (Belongs (P.sig p.now)) }
{
    let order = a.order();
    let ts = a.terms();
    let us = b.terms();
    if !degrees_pass(order, ts, us) {
        return Err(RingStop::Degree);
    }
    if is_one(ts) {
        are_in_range(us);
        return Ok(b.copy(alloc)?);
    }
    let mut contributions = Vec::with_capacity(alloc, us.len())?;
    push_rows(p, alloc, &mut contributions, ts, us)?;
    sum_of_terms(alloc, order, contributions)
}

/// Whether the product of two operators of one order keeps the greatest degree: where it doesn't, the product stops
/// with Degree.
pub fn degrees_fit(a: &Op, b: &Op) -> bool
    requires { a.now.by ≡ b.now.by }
    ensures { result ≡ fit program (falling a.now.by a.now.sum) (falling b.now.by b.now.sum) }
{
    degrees_pass(a.order(), a.terms(), b.terms())
}

// Whether all products of two terms keep the degree: the first terms have the greatest degrees.
fn degrees_pass(order: Order, ts: &[(Exps, Rational)], us: &[(Exps, Rational)]) -> bool
    requires left { IsFalling order ts.now }
    requires right { IsFalling order us.now }
    ensures { result ≡ fit program ts.now us.now }
{
    if ts.is_empty() {
        return true;
    }
    if us.is_empty() {
        return true;
    }
    ts[0].0.degree() + us[0].0.degree() <= 32767
}

// Whether these are the terms of the operator 1.
fn is_one(ts: &[(Exps, Rational)]) -> bool
    ensures { result ≡ true → ts.now ≡ (unit, whole (pos 1)) ∷ [] }
{
    match ts {
        [t] => t.0.degree() == 0 && t.1 == Rational::one(),
        _ => false,
    }
}

// Stored fractions are in the range.
fn are_in_range(ts: &[(Exps, Rational)])
    ensures { AreInRange ts.now }
{
    for t in ts {
        let _ = (t.1.numerator(), t.1.denominator());
    }
}

// The contributions of two lists of terms.
fn push_rows<P: MonomialProduct>(
    p: &P,
    alloc: Global,
    out: &mut Vec<(Exps, Rational)>,
    ts: &[(Exps, Rational)],
    us: &[(Exps, Rational)],
) -> Result<(), RingStop>
    requires { All (λ t. All (λ u. degree t.0 + degree u.0 ≤ 32767) us.now) ts.now }
    ensures { Turns result out.new.items (fold_within (row_of program (P.sig p.now) us.now) out.old.items ts.now) }
{
    for t in ts {
        push_row(p, alloc, out, t, us)?;
    }
    Ok(())
}

// The contributions of one term and a list of terms.
#[tactic(auto, unfolding(crate::specs::Contributions::push_row))]
fn push_row<P: MonomialProduct>(
    p: &P,
    alloc: Global,
    out: &mut Vec<(Exps, Rational)>,
    t: &(Exps, Rational),
    us: &[(Exps, Rational)],
) -> Result<(), RingStop>
    requires { All (λ u. degree t.now.0 + degree u.0 ≤ 32767) us.now }
    ensures { Turns result out.new.items (row_of program (P.sig p.now) us.now out.old.items t.now) }
{
    for u in us {
        push_pair(p, alloc, out, t, u)?;
    }
    Ok(())
}

// The contributions of two terms.
#[tactic(auto, unfolding(crate::specs::Contributions::push_pair))]
fn push_pair<P: MonomialProduct>(
    p: &P,
    alloc: Global,
    out: &mut Vec<(Exps, Rational)>,
    t: &(Exps, Rational),
    u: &(Exps, Rational),
) -> Result<(), RingStop>
    requires { degree t.now.0 + degree u.now.0 ≤ 32767 }
    ensures { Turns result out.new.items (pair_of program (P.sig p.now) t.now out.old.items u.now) }
{
    let uv = product(t.1, u.1)?;
    push_product(p, alloc, out, uv, &t.0, &u.0)
}

/// The contributions of two monomials with a fraction. Where none of their letters meet, it is one.
#[tactic(auto, unfolding(crate::specs::Contributions::push_product))]
pub(crate) fn push_product<P: MonomialProduct>(
    p: &P,
    alloc: Global,
    out: &mut Vec<(Exps, Rational)>,
    uv: Rational,
    left: &Exps,
    right: &Exps,
) -> Result<(), RingStop>
    requires { degree left.now + degree right.now ≤ 32767 }
    ensures { Turns result out.new.items (product_of program (P.sig p.now) uv out.old.items left.now right.now) }
{
    if meets_none(p.signature(), left, right) {
        let both = left.plus(right)?;
        return push_fraction(out, uv, both);
    }
    let ks = p.pass(alloc, left, right)?;
    push_numbers(out, uv, &ks)
}

// Appends a fraction, which is 1 times it.
fn push_fraction(out: &mut Vec<(Exps, Rational)>, uv: Rational, exps: Exps) -> Result<(), RingStop>
    ensures { Turns result out.new.items (number_of program uv out.old.items (exps, pos 1)) }
{
    let _ = (uv.numerator(), uv.denominator());
    out.push((exps, uv))?;
    Ok(())
}

// Appends each whole number times a fraction.
fn push_numbers(
    out: &mut Vec<(Exps, Rational)>,
    uv: Rational,
    ks: &[(Exps, i128)],
) -> Result<(), RingStop>
    requires { AreWhole ks.now }
    ensures { Turns result out.new.items (fold_within (number_of program uv) out.old.items ks.now) }
{
    for k in ks {
        push_number(out, uv, k)?;
    }
    Ok(())
}

// Appends a whole number times a fraction.
#[tactic(auto, unfolding(crate::specs::Contributions::push_number))]
fn push_number(
    out: &mut Vec<(Exps, Rational)>,
    uv: Rational,
    k: &(Exps, i128),
) -> Result<(), RingStop>
    requires { InRange k.now.1 }
    ensures { Turns result out.new.items (number_of program uv out.old.items k.now) }
{
    let c = product(uv, Rational::whole(k.1))?;
    out.push((k.0, c))?;
    Ok(())
}

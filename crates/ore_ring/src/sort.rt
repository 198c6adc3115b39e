//! Sums of many terms in any order.

ghost use Rattle.std.specs.Prelude.{◌≡◌, ◌≢◌, IfOk, true, pos};
ghost use Rattle.std.specs.List.Sorted.{IsStableBy};
ghost use Rattle.ore_algebra.specs.Free.{empty_sum};
ghost use Rattle.ore_algebra.specs.Limits.{program};
ghost use Rattle.ore_rational.specs.Fraction.{whole};
ghost use Rattle.ore_rational.specs.Field.{rationals};
ghost use Rattle.ore_monomial.specs.Gives.{Gives, Turns};
ghost use Rattle.ore_monomial.specs.Monomial.{plain_cmp};
ghost use Rattle.ore_ring.specs.Contributions.{add_terms_within, falls_before, IsInRange, AreInRange};
ghost use Rattle.ore_ring.specs.Terms.{IsFalling, IsBelowLast};

use crate::op::Op;
use ore_monomial::{Exps, Order, RingStop, compare};
use ore_rational::Rational;
use std::alloc::{AllocError, Global};

/// The sum of terms in any order, which are added in turn.
///
/// Where they don't fall, a stable sort brings those of each monomial together in the order in which
/// they came, so the same sums are formed.
///
/// # Errors
/// Overflow where a sum leaves the range, and want of memory.
pub fn sum_of_terms(
    alloc: Global,
    order: Order,
    terms: Vec<(Exps, Rational)>,
) -> Result<Op, RingStop>
    ensures gives { Gives (λ f. f.sum) result (add_terms_within program (empty_sum rationals plain_cmp) terms.items) }
    ensures by { IfOk result (λ f. f.by ≡ order) }
{
    if are_falling(order, &terms) {
        return Ok(Op::from_terms(order, terms));
    }
    let mut sorted = terms;
    sort(order, &mut sorted)?;
    let mut made = Op::zero(alloc, order);
    add_terms(&mut made, &sorted)?;
    Ok(made)
}

// Whether each monomial is below the one before it, and no fraction is 0.
fn are_falling(order: Order, terms: &[(Exps, Rational)]) -> bool
    ensures falls { result ≡ true → IsFalling order terms.now }
    ensures range { result ≡ true → AreInRange terms.now }
{
    for k in 0..terms.len() {
        if !follows(order, &terms[..k], &terms[k]) {
            return false;
        }
    }
    true
}

// Whether a term may be appended to falling terms.
fn follows(order: Order, before: &[(Exps, Rational)], t: &(Exps, Rational)) -> bool
    ensures below { result ≡ true → IsBelowLast order before.now t.now.0 }
    ensures apart { result ≡ true → t.now.1 ≢ whole (pos 0) }
    ensures range { result ≡ true → IsInRange t.now }
{
    let _ = (t.1.numerator(), t.1.denominator());
    if t.1.is_zero() {
        return false;
    }
    let count = before.len();
    if count == 0 {
        return true;
    }
    let last = before[count - 1];
    compare(order, &t.0, &last.0).is_lt()
}

// The greatest monomial first; terms of one monomial keep their order.
fn sort(order: Order, terms: &mut Vec<(Exps, Rational)>) -> Result<(), AllocError>
    ensures { IsStableBy (falls_before order) terms.old.items terms.new.items }
{
    terms.sort_by(|a, b| compare(order, &b.0, &a.0))
}

// Adds terms in turn.
#[tactic(auto, unfolding(crate::specs::Contributions::add_terms_within))]
fn add_terms(op: &mut Op, terms: &[(Exps, Rational)]) -> Result<(), RingStop>
    ensures by { op.new.by ≡ op.old.by }
    ensures turns { Turns result op.new.sum (add_terms_within program op.old.sum terms.now) }
{
    for t in terms {
        op.add_number(t.0, t.1)?;
    }
    Ok(())
}

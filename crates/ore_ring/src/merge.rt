//! Sums of lists of falling terms.

ghost use Rattle.std.specs.Prelude.{◌≡◌, [], ◌++◌, OnOk};
ghost use Rattle.ore_algebra.specs.Limits.{program};
ghost use Rattle.ore_rational.specs.Fraction.{neg};
ghost use Rattle.ore_monomial.specs.Gives.{Gives};
ghost use Rattle.ore_ring.specs.Merge.{merge_within, kept, opposite_terms};

use crate::fraction::sum;
use ore_monomial::{Exps, Order, RingStop, compare};
use ore_rational::Rational;
use std::alloc::{AllocError, Global};
use std::cmp::Ordering;

/// The sum of two lists of falling terms, by one walk over both.
pub(crate) fn merged(
    alloc: Global,
    order: Order,
    a: &[(Exps, Rational)],
    b: &[(Exps, Rational)],
) -> Result<Vec<(Exps, Rational)>, RingStop>
    ensures { Gives (λ v. v.items) result (merge_within program order a.now b.now) }
{
    let mut out = Vec::with_capacity(alloc, a.len().saturating_add(b.len()))?;
    let mut i = 0;
    let mut j = 0;
    while i < a.len() && j < b.len() {
        let t = a[i];
        let u = b[j];
        match compare(order, &t.0, &u.0) {
            Ordering::Less => {
                out.push(u)?;
                j += 1;
            }
            Ordering::Equal => {
                let s = sum(t.1, u.1)?;
                keep(&mut out, t.0, s)?;
                i += 1;
                j += 1;
            }
            Ordering::Greater => {
                out.push(t)?;
                i += 1;
            }
        }
    }
    out.extend_from_slice(&a[i..])?;
    out.extend_from_slice(&b[j..])?;
    Ok(out)
}

/// Appends a term, unless its fraction is 0.
pub(crate) fn keep(
    out: &mut Vec<(Exps, Rational)>,
    exps: Exps,
    coef: Rational,
) -> Result<(), AllocError>
    ensures { OnOk result (out.new.items ≡ out.old.items ++ kept exps coef []) }
{
    if !coef.is_zero() {
        out.push((exps, coef))?;
    }
    Ok(())
}

/// The difference of two lists of falling terms, by one walk over both.
pub(crate) fn merged_less(
    alloc: Global,
    order: Order,
    a: &[(Exps, Rational)],
    b: &[(Exps, Rational)],
) -> Result<Vec<(Exps, Rational)>, RingStop>
    ensures { Gives (λ v. v.items) result (merge_within program order a.now (opposite_terms b.now)) }
{
    let mut out = Vec::with_capacity(alloc, a.len().saturating_add(b.len()))?;
    let mut i = 0;
    let mut j = 0;
    while i < a.len() && j < b.len() {
        let t = a[i];
        let u = negated(&b[j]);
        match compare(order, &t.0, &u.0) {
            Ordering::Less => {
                out.push(u)?;
                j += 1;
            }
            Ordering::Equal => {
                let s = sum(t.1, u.1)?;
                keep(&mut out, t.0, s)?;
                i += 1;
                j += 1;
            }
            Ordering::Greater => {
                out.push(t)?;
                i += 1;
            }
        }
    }
    out.extend_from_slice(&a[i..])?;
    extend_negated(&mut out, &b[j..])?;
    Ok(out)
}

// A term with its fraction negated.
fn negated(term: &(Exps, Rational)) -> (Exps, Rational)
    ensures { result ≡ (term.now.0, neg term.now.1) }
{
    (term.0, term.1.neg())
}

// Appends the terms with each fraction negated.
fn extend_negated(
    out: &mut Vec<(Exps, Rational)>,
    terms: &[(Exps, Rational)],
) -> Result<(), AllocError>
    ensures { OnOk result (out.new.items ≡ out.old.items ++ opposite_terms terms.now) }
{
    for term in terms {
        out.push(negated(term))?;
    }
    Ok(())
}

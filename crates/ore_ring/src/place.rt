//! The place of a monomial among falling terms.

ghost use Rattle.std.specs.Prelude.{◌≡◌, ◌≤◌, [], ◌∷◌, length, OnErr, vec_len};
ghost use Rattle.ore_algebra.specs.Free.{sum_at};
ghost use Rattle.ore_algebra.specs.Limits.{program};
ghost use Rattle.ore_rational.specs.Field.{rationals};
ghost use Rattle.ore_monomial.specs.Gives.{Turns};
ghost use Rattle.ore_monomial.specs.Monomial.{plain_cmp};
ghost use Rattle.ore_ring.specs.Merge.{merge_within};
ghost use Rattle.ore_ring.specs.Place.{IsOver, IsNotOver};
ghost use Rattle.ore_ring.specs.Terms.{IsFalling};

use crate::fraction::sum;
use ore_monomial::{Exps, Order, RingStop, compare};
use ore_rational::Rational;
use std::cmp::Ordering;

/// How many terms are above the monomial, by binary search, which looks at the last term first.
pub(crate) fn place(order: Order, terms: &[(Exps, Rational)], exps: &Exps) -> usize
    requires { IsFalling order terms.now }
    ensures within { result ≤ length terms.now }
    ensures over { IsOver order exps.now terms.now result }
    ensures rest { IsNotOver order exps.now terms.now result }
{
    let count = terms.len();
    if count == 0 {
        return 0;
    }
    let last = terms[count - 1];
    match compare(order, exps, &last.0) {
        Ordering::Less => count,
        Ordering::Equal => count - 1,
        Ordering::Greater => place_among(order, terms, exps),
    }
}

// The same by binary search alone.
fn place_among(order: Order, terms: &[(Exps, Rational)], exps: &Exps) -> usize
    requires { IsFalling order terms.now }
    ensures within { result ≤ length terms.now }
    ensures over { IsOver order exps.now terms.now result }
    ensures rest { IsNotOver order exps.now terms.now result }
{
    let mut low = 0;
    let mut high = terms.len();
    while low < high {
        let middle = low + (high - low) / 2;
        let t = terms[middle];
        match compare(order, exps, &t.0) {
            Ordering::Less => {
                low = middle + 1;
            }
            _ => {
                high = middle;
            }
        }
    }
    low
}

/// The fraction of a monomial that has its place, 0 where no term has it.
pub(crate) fn number_at(order: Order, terms: &[(Exps, Rational)], k: usize, exps: &Exps) -> Rational
    requires falls { IsFalling order terms.now }
    requires over { IsOver order exps.now terms.now k }
    requires rest { IsNotOver order exps.now terms.now k }
    ensures { result ≡ sum_at rationals plain_cmp exps.now terms.now }
{
    if k < terms.len() {
        let t = terms[k];
        match compare(order, exps, &t.0) {
            Ordering::Equal => t.1,
            Ordering::Less => Rational::zero(),
            Ordering::Greater => Rational::zero(),
        }
    } else {
        Rational::zero()
    }
}

/// Adds a term at its place.
pub(crate) fn splice(
    terms: &mut Vec<(Exps, Rational)>,
    order: Order,
    k: usize,
    exps: Exps,
    coef: Rational,
) -> Result<(), RingStop>
    requires within { k ≤ vec_len terms.old }
    requires over { IsOver order exps terms.old.items k }
    requires rest { IsNotOver order exps terms.old.items k }
    ensures turns { Turns result terms.new.items (merge_within program order terms.old.items ((exps, coef) ∷ [])) }
    ensures err { OnErr result (terms.new.items ≡ terms.old.items) }
{
    if k < terms.len() {
        let t = terms[k];
        match compare(order, &exps, &t.0) {
            Ordering::Equal => {
                let s = sum(t.1, coef)?;
                if s.is_zero() {
                    terms.remove(k);
                } else {
                    terms[k] = (t.0, s);
                }
                return Ok(());
            }
            _ => {}
        }
    }
    terms.insert(k, (exps, coef))?;
    Ok(())
}

//! Sums and products of fractions that stop as operations on operators do.

ghost use Rattle.std.specs.Prelude.{◌≡◌, pos, true, IsTrue};
ghost use Rattle.ore_algebra.specs.Limits.{program};
ghost use Rattle.ore_rational.specs.Fraction.{whole};
ghost use Rattle.ore_rational.specs.Within.{fits, sum_within, product_within};
ghost use Rattle.ore_monomial.specs.Gives.{Gives};

use ore_monomial::RingStop;
use ore_rational::Rational;

/// The sum of two fractions.
pub(crate) fn sum(a: Rational, b: Rational) -> Result<Rational, RingStop>
    ensures { Gives (λ x. x) result (sum_within program a b) }
{
    match a.add(b) {
        Ok(sum) => Ok(sum),
        Err(_) => Err(RingStop::Overflow),
    }
}

/// The product of two fractions. Where one of them is 1, it is the other.
pub(crate) fn product(a: Rational, b: Rational) -> Result<Rational, RingStop>
    ensures { Gives (λ x. x) result (product_within program a b) }
{
    if is_one(a) {
        return Ok(fitting(b));
    }
    if is_one(b) {
        return Ok(fitting(a));
    }
    match a.mul(b) {
        Ok(product) => Ok(product),
        Err(_) => Err(RingStop::Overflow),
    }
}

// Whether a fraction is 1.
fn is_one(a: Rational) -> bool
    ensures { result ≡ true → a ≡ whole (pos 1) }
{
    a == Rational::one()
}

// The same fraction: each stored one fits.
fn fitting(a: Rational) -> Rational
    ensures value { result ≡ a }
    ensures fits { IsTrue (fits program a) }
{
    let _ = (a.numerator(), a.denominator());
    a
}

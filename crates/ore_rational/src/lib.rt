//! Exact fractions of 128 bits.
//!
//! A `Rational` is a fraction in lowest terms with a denominator above 0. Both of its numbers have a
//! magnitude of at most 2^127 - 1, so a fraction's opposite and inverse are always in range. Contracts
//! see it as a fraction of any size (`specs/Fraction.antt`): a pair of whole numbers that share no
//! divisor, so equal values are equal pairs.
//!
//! Each operation gives the mathematical value or answers `Passed`, and when it answers so is exact:
//!
//! - a sum forms g = gcd(b, d), a(d/g), c(b/g), their sum n, and (b/g)(d/gcd(n, g)) for a/b + c/d, and
//!   passes exactly where one of the four numbers after g is too great (`sum_fits`);
//! - a product or a quotient cancels first, and passes exactly where a number of the reduced result is
//!   too great (`fits`).
//!
//! Most fractions are whole numbers, and most parts have 64 bits. So two whole numbers are added and
//! multiplied without a division, and divisors, quotients and products of magnitudes that 64 bits hold
//! are formed in these; each such path has the contract of the wide one.
//!
//! The greatest magnitude is that of `program` in `ore_algebra`'s limits, the crate on which this one
//! stands. No call takes memory. The fractions are a field (`specs/Field.antt`) that the whole numbers
//! are part of; its laws are the functions of `laws`.
#![tactic(auto)]

ghost use Rattle.std.specs.Prelude.{◌≡◌, ◌≢◌, ◌<◌, ◌^◌, ℤ, pos, ◌+ℤ◌, ◌*ℤ◌, neg_ℤ, ◌<ℤ◌, nat_abs, OkIff, int_div, IsTrue, ◌↔◌, if◌then◌else◌};
ghost use Rattle.std.specs.Int.{IsGcd};
ghost use Rattle.ore_algebra.specs.Limits.{program};
ghost use Rattle.ore_rational.specs.Gcd.{gcd as gcd_of};
ghost use Rattle.ore_rational.specs.Fraction.{Fraction, add as add_of, mul as mul_of, neg as neg_of, sub as sub_of, inverse as inverse_of, div as div_of, whole, ratio};
ghost use Rattle.ore_rational.specs.Within.{sum_fits, fits};
ghost use Rattle.ore_rational.specs.Range.{InRange};

mod laws;

pub use laws::{fractions_are_a_field, limits_change_no_value, whole_numbers_are_fractions};
use std::marker::Model;

/// A number left the range: its magnitude is above 2^127 - 1.
#[derive(Clone, Copy, Debug, PartialEq, Eq, Drop)]
pub struct Passed;

/// A fraction in lowest terms, with a denominator above 0.
#[derive(Clone, Copy, Drop)]
pub struct Rational {
    numerator: i128,
    denominator: i128,
}

impl Model for Rational {
    ghost use Rattle.std.specs.Prelude.{nat_abs, pos};
    ghost use Rattle.ore_rational.specs.Fraction.{Fraction, reduce};
    ghost use Rattle.ore_rational.specs.Reduced.{fraction_code};

    ghost Value = { Fraction };

    ghost coded = { fraction_code };

    ghost use Rattle.ore_rational.specs.Stored.{IsStoredFraction, stored_back};

    ghost view = { λ a. reduce a.numerator (nat_abs a.denominator) };

    ghost invariant = { IsStoredFraction };

    ghost inverse = { λ q. record { numerator = q.num; denominator = pos q.den } };

    ghost inverse_ok = { stored_back };
}

impl PartialEq for Rational {
    ghost use Rattle.ore_rational.specs.Range.{fraction_eq};
    ghost use Rattle.std.specs.Cmp.Rules.{comparing};
    ghost use Rattle.std.proofs.Common.{rules};

    ghost eq = { fraction_eq };

    ghost laws = { Prim.search (comparing, rules) };

    fn eq(&self, other: &Rational) -> bool {
        self.numerator() == other.numerator() && self.denominator() == other.denominator()
    }
}

impl Eq for Rational {
    ghost use Rattle.std.specs.Cmp.Rules.{comparing};
    ghost use Rattle.std.proofs.Common.{rules};

    ghost laws = { Prim.search (comparing, rules) };
}

// The greatest magnitude of a stored number, 2^127 - 1.
const GREATEST: u128 = 0x7fff_ffff_ffff_ffff_ffff_ffff_ffff_ffff;

// The least number that doesn't fit 64 bits.
const WORD: u128 = 0x1_0000_0000_0000_0000;

// The least magnitude that a signed number of 64 bits can lack.
const SMALL: u128 = 0x8000_0000_0000_0000;

// The greatest common divisor of two numbers of 64 bits.
fn word_gcd(a: u64, b: u64) -> u64
    ensures { result ≡ gcd_of a b }
{
    let mut x = a;
    let mut y = b;
    while y != 0 {
        let rest = x % y;
        x = y;
        y = rest;
    }
    x
}

// Whether two numbers have 64 bits at most.
fn are_words(a: u128, b: u128) -> bool
    ensures { IsTrue result ↔ (a < 2 ^ 64) × (b < 2 ^ 64) }
{
    a < WORD && b < WORD
}

// The greatest common divisor. As soon as both numbers have 64 bits, the rest is done in these.
fn gcd(a: u128, b: u128) -> u128
    ensures { result ≡ gcd_of a b }
{
    let mut x = a;
    let mut y = b;
    while y != 0 {
        if are_words(x, y) {
            return word_gcd(x as u64, y as u64) as u128;
        }
        let rest = x % y;
        x = y;
        y = rest;
    }
    x
}

// The greatest common divisor of two magnitudes, as a signed number. Here and in a quotient 1 is
// looked for first: most fractions are whole numbers, and a division of 128 bits is slow.
fn common_divisor(a: i128, b: i128) -> i128
    requires low { pos 0 <ℤ b }
    ensures value { result ≡ pos (gcd_of (nat_abs a) (nat_abs b)) }
    ensures positive { pos 0 <ℤ result }
{
    if a == 1 {
        return 1;
    }
    if b == 1 {
        return 1;
    }
    gcd(a.unsigned_abs(), b.unsigned_abs()) as i128
}

fn quotient_of(n: i128, divisor: i128) -> i128
    requires low { pos 0 <ℤ divisor }
    ensures { result ≡ int_div n divisor }
{
    if divisor == 1 {
        return n;
    }
    if are_small(n, divisor) {
        return (n as i64 / divisor as i64) as i128;
    }
    n / divisor
}

// Whether two numbers have magnitudes below 2^63.
fn are_small(a: i128, b: i128) -> bool
    ensures { IsTrue result ↔ (nat_abs a < 2 ^ 63) × (nat_abs b < 2 ^ 63) }
{
    a.unsigned_abs() < SMALL && b.unsigned_abs() < SMALL
}

// The product of two numbers of magnitudes below 2^63, which is always in range.
fn small_product(a: i128, b: i128) -> i128
    requires a_is { nat_abs a < 2 ^ 63 }
    requires b_is { nat_abs b < 2 ^ 63 }
    ensures value { result ≡ a *ℤ b }
    ensures range { InRange result }
{
    (a as i64) as i128 * (b as i64) as i128
}

fn checked_product(a: i128, b: i128) -> Result<i128, Passed>
    ensures { OkIff result (InRange (a *ℤ b)) (a *ℤ b) }
{
    if are_small(a, b) {
        return Ok(small_product(a, b));
    }
    match a.checked_mul(b) {
        Some(value) if value != i128::MIN => Ok(value),
        _ => Err(Passed),
    }
}

fn checked_sum(a: i128, b: i128) -> Result<i128, Passed>
    ensures { OkIff result (InRange (a +ℤ b)) (a +ℤ b) }
{
    match a.checked_add(b) {
        Some(value) if value != i128::MIN => Ok(value),
        _ => Err(Passed),
    }
}

// Whether two fractions are whole numbers.
fn are_whole(p: &Rational, q: &Rational) -> bool
    ensures { IsTrue result ↔ (p.now.den ≡ 1) × (q.now.den ≡ 1) }
{
    p.denominator() == 1 && q.denominator() == 1
}

// A magnitude with a sign.
fn signed(negative: bool, magnitude: u128) -> i128
    requires { magnitude < 2 ^ 127 }
    ensures { result ≡ (if negative then neg_ℤ (pos magnitude) else pos magnitude) }
{
    if negative {
        -(magnitude as i128)
    } else {
        magnitude as i128
    }
}

impl Rational {
    /// The fraction 0.
    pub fn zero() -> Rational
        ensures { result ≡ whole (pos 0) }
    {
        Rational {
            numerator: 0,
            denominator: 1,
        }
    }

    /// The fraction 1.
    pub fn one() -> Rational
        ensures { result ≡ whole (pos 1) }
    {
        Rational {
            numerator: 1,
            denominator: 1,
        }
    }

    /// A whole number as a fraction.
    pub fn whole(k: i128) -> Rational
        requires { InRange k }
        ensures { result ≡ whole k }
    {
        Rational::from_parts(k, 1)
    }

    /// `num / den` in lowest terms. `Passed` where a number of the reduced fraction leaves the range;
    /// `i128::MIN` itself may be given.
    pub fn new(num: i128, den: i128) -> Result<Rational, Passed>
        requires { den ≢ pos 0 }
        ensures { OkIff result (IsTrue (fits program (ratio num den))) (ratio num den) }
    {
        let g = gcd(num.unsigned_abs(), den.unsigned_abs());
        let n = num.unsigned_abs() / g;
        let d = den.unsigned_abs() / g;
        if n > GREATEST {
            return Err(Passed);
        }
        if d > GREATEST {
            return Err(Passed);
        }
        let numerator = signed((num < 0) != (den < 0), n);
        Ok(Rational::from_parts(numerator, d as i128))
    }

    /// The numerator of the reduced fraction, which carries the sign.
    pub fn numerator(&self) -> i128
        ensures value { result ≡ self.now.num }
        ensures range { InRange result }
    {
        self.numerator
    }

    /// The denominator of the reduced fraction; that of 0 is 1.
    pub fn denominator(&self) -> i128
        ensures value { result ≡ pos self.now.den }
        ensures above { pos 0 <ℤ result }
        ensures range { InRange result }
    {
        self.denominator
    }

    /// The sum. `Passed` where one of the numbers that form it leaves the range, which the reduced sum
    /// may still be within.
    pub fn add(self, other: Rational) -> Result<Rational, Passed>
        ensures { OkIff result (IsTrue (sum_fits program self other)) (add_of self other) }
    {
        if are_whole(&self, &other) {
            return self.whole_sum(other);
        }
        self.wide_sum(other)
    }

    // The sum of two whole numbers.
    fn whole_sum(self, other: Rational) -> Result<Rational, Passed>
        requires self_is { self.den ≡ 1 }
        requires other_is { other.den ≡ 1 }
        ensures { OkIff result (IsTrue (sum_fits program self other)) (add_of self other) }
    {
        let Ok(n) = checked_sum(self.numerator(), other.numerator()) else {
            return Err(Passed)
        };
        Ok(Rational::from_parts(n, 1))
    }

    // The sum of any two fractions.
    fn wide_sum(self, other: Rational) -> Result<Rational, Passed>
        ensures { OkIff result (IsTrue (sum_fits program self other)) (add_of self other) }
    {
        let (a, b) = (self.numerator(), self.denominator());
        let (c, d) = (other.numerator(), other.denominator());
        let g = common_divisor(b, d);
        let b_over_g = quotient_of(b, g);
        let d_over_g = quotient_of(d, g);
        let Ok(left) = checked_product(a, d_over_g) else {
            return Err(Passed)
        };
        let Ok(right) = checked_product(c, b_over_g) else {
            return Err(Passed)
        };
        let Ok(n) = checked_sum(left, right) else {
            return Err(Passed)
        };
        let e = common_divisor(n, g);
        let d_over_e = quotient_of(d, e);
        let Ok(denominator) = checked_product(b_over_g, d_over_e) else {
            return Err(Passed)
        };
        let numerator = quotient_of(n, e);
        Ok(Rational::from_parts(numerator, denominator))
    }

    /// The difference: the sum with the opposite of `other`, with that sum's `Passed`.
    pub fn sub(self, other: Rational) -> Result<Rational, Passed>
        ensures { OkIff result (IsTrue (sum_fits program self (neg_of other))) (sub_of self other) }
    {
        self.add(other.neg())
    }

    /// The product. `Passed` where a number of the reduced product leaves the range.
    pub fn mul(self, other: Rational) -> Result<Rational, Passed>
        ensures { OkIff result (IsTrue (fits program (mul_of self other))) (mul_of self other) }
    {
        if are_whole(&self, &other) {
            return self.whole_product(other);
        }
        self.wide_product(other)
    }

    // The product of two whole numbers.
    fn whole_product(self, other: Rational) -> Result<Rational, Passed>
        requires self_is { self.den ≡ 1 }
        requires other_is { other.den ≡ 1 }
        ensures { OkIff result (IsTrue (fits program (mul_of self other))) (mul_of self other) }
    {
        let Ok(n) = checked_product(self.numerator(), other.numerator()) else {
            return Err(Passed)
        };
        Ok(Rational::from_parts(n, 1))
    }

    // The product of any two fractions.
    fn wide_product(self, other: Rational) -> Result<Rational, Passed>
        ensures { OkIff result (IsTrue (fits program (mul_of self other))) (mul_of self other) }
    {
        let (a, b) = (self.numerator(), self.denominator());
        let (c, d) = (other.numerator(), other.denominator());
        let g = common_divisor(a, d);
        let h = common_divisor(c, b);
        let a_over_g = quotient_of(a, g);
        let c_over_h = quotient_of(c, h);
        let b_over_h = quotient_of(b, h);
        let d_over_g = quotient_of(d, g);
        let Ok(numerator) = checked_product(a_over_g, c_over_h) else {
            return Err(Passed)
        };
        let Ok(denominator) = checked_product(b_over_h, d_over_g) else {
            return Err(Passed)
        };
        Ok(Rational::from_parts(numerator, denominator))
    }

    /// The quotient: the product with the inverse of `other`. `Passed` where a number of the reduced
    /// quotient leaves the range.
    pub fn div(self, other: Rational) -> Result<Rational, Passed>
        requires { other ≢ whole (pos 0) }
        ensures { OkIff result (IsTrue (fits program (div_of self other))) (div_of self other) }
    {
        self.mul(other.reciprocal())
    }

    /// The opposite, which is always in range.
    pub fn neg(self) -> Rational
        ensures { result ≡ neg_of self }
    {
        Rational::from_parts(-self.numerator(), self.denominator())
    }

    /// Whether the fraction is 0.
    pub fn is_zero(&self) -> bool
        ensures { IsTrue result ↔ self.now ≡ whole (pos 0) }
    {
        self.numerator() == 0
    }

    fn reciprocal(self) -> Rational
        requires { self ≢ whole (pos 0) }
        ensures { result ≡ inverse_of self }
    {
        let (a, b) = (self.numerator(), self.denominator());
        if a < 0 {
            Rational::from_parts(-b, -a)
        } else {
            Rational::from_parts(b, a)
        }
    }

    fn from_parts(numerator: i128, denominator: i128) -> Rational
        requires range { InRange numerator }
        requires above { pos 0 <ℤ denominator }
        requires lowest { IsGcd (nat_abs numerator) (nat_abs denominator) 1 }
        ensures numerator_is { result.num ≡ numerator }
        ensures denominator_is { pos result.den ≡ denominator }
    {
        Rational {
            numerator,
            denominator,
        }
    }
}

#[cfg(test)]
mod tests {
    use super::{Passed, Rational};

    const P: i128 = i128::MAX;

    // A numerator and a denominator, or nothing where the call refuses.
    type Parts = Option<(i128, i128)>;

    fn parts(made: Result<Rational, Passed>) -> Parts {
        match made {
            Ok(r) => Some((r.numerator(), r.denominator())),
            Err(_) => None,
        }
    }

    fn fraction(num: i128, den: i128) -> Result<Rational, Passed> {
        if den == 0 {
            return Err(Passed);
        }
        Rational::new(num, den)
    }

    #[test]
    fn quotients_of_whole_numbers(rt: HostRuntime) {
        let cases: [(i128, i128, Parts); 10] = [
            (6, -4, Some((-3, 2))),
            (-6, -4, Some((3, 2))),
            (0, -7, Some((0, 1))),
            (P, P, Some((1, 1))),
            (1, -P, Some((-1, P))),
            (
                i128::MIN,
                2,
                Some((-0x4000_0000_0000_0000_0000_0000_0000_0000, 1)),
            ),
            (i128::MIN, i128::MIN, Some((1, 1))),
            (i128::MIN, 1, None),
            (i128::MIN, -1, None),
            (1, i128::MIN, None),
        ];
        for (num, den, expected) in cases.iter() {
            assert!(rt; parts(fraction(*num, *den)) == *expected);
        }
    }

    // Two fractions, and their sum, difference, product and quotient.
    type Case = ((i128, i128), (i128, i128), Parts, Parts, Parts, Parts);

    #[test]
    fn operations(rt: HostRuntime) {
        let cases: [Case; 6] = [
            (
                (1, 6),
                (1, 3),
                Some((1, 2)),
                Some((-1, 6)),
                Some((1, 18)),
                Some((1, 2)),
            ),
            (
                (-2, 3),
                (3, 4),
                Some((1, 12)),
                Some((-17, 12)),
                Some((-1, 2)),
                Some((-8, 9)),
            ),
            (
                (1, P),
                (1, P),
                Some((2, P)),
                Some((0, 1)),
                None,
                Some((1, 1)),
            ),
            (
                (P, 1),
                (1, 1),
                None,
                Some((P - 1, 1)),
                Some((P, 1)),
                Some((P, 1)),
            ),
            ((P, 2), (P, 2), None, Some((0, 1)), None, Some((1, 1))),
            ((P, 3), (-6, P), None, None, Some((-2, 1)), None),
        ];
        for (left, right, sum, difference, product, quotient) in cases.iter() {
            let (made, other) = (fraction(left.0, left.1), fraction(right.0, right.1));
            assert!(rt; made.is_ok() && other.is_ok());
            let (Ok(a), Ok(b)) = (made, other) else {
                continue
            };
            assert!(rt; parts(a.add(b)) == *sum);
            assert!(rt; parts(a.sub(b)) == *difference);
            assert!(rt; parts(a.mul(b)) == *product);
            if !b.is_zero() {
                assert!(rt; parts(a.div(b)) == *quotient);
            }
        }
    }

    #[test]
    fn signs_and_whole_numbers(rt: HostRuntime) {
        let three = Rational::whole(-3);
        assert!(rt; (three.numerator(), three.denominator()) == (-3, 1));
        assert!(rt; parts(Ok(three.neg())) == Some((3, 1)));
        assert!(rt; parts(Rational::one().add(three)) == Some((-2, 1)));
        assert!(rt; Rational::zero() == Rational::whole(0));
        assert!(rt; Rational::zero() != Rational::one());
    }
}

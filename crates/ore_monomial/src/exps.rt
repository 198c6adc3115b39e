//! Exponents of monomials, and the orders of monomials.

ghost use Rattle.std.specs.Prelude.{◌≡◌, ◌+◌, ◌-◌, ◌<◌, ◌≤◌, ◌↔◌, ◌∷◌, IsTrue, OkIff, nat_le, max, map, reverse};
ghost use Rattle.std.specs.List.{sum, AllZip, list_all, zip};
ghost use Rattle.ore_monomial.specs.Monomial.{exponent, degree, unit, zip_with, product, lcm, quotient, Divides, monomial_of, order_cmp, rank};

use crate::order::Order;
use crate::stop::DegreePassed;
use std::cmp::Ordering;
use std::marker::Model;

/// The greatest degree of a monomial.
const MOST: u16 = 32767;

/// A monomial: one exponent for each of twelve variables. Its degree is at most 32,767.
#[derive(Clone, Copy, Debug, Drop)]
pub struct Exps {
    total: u16,
    values: [u16; 12],
}

impl Model for Exps {
    ghost use Rattle.ore_monomial.specs.Monomial.{Monomial, monomial_of, degree};
    ghost use Rattle.ore_monomial.specs.MonomialCode.{monomial_code};

    ghost Value = { Monomial };

    ghost coded = { monomial_code };

    ghost use Rattle.ore_monomial.specs.StoredExps.{IsStoredExps, exps_back};

    ghost view = { λ a. monomial_of a.values };

    ghost invariant = { IsStoredExps };

    ghost inverse = { λ m. record { total = degree m; values = m.exponents } };

    ghost inverse_ok = { exps_back };
}

impl PartialEq for Exps {
    ghost use Rattle.ore_monomial.specs.MonomialCode.{monomial_eq, monomial_equiv};
    ghost use Rattle.std.specs.Cmp.{partial_equiv_from_equiv};

    ghost eq = { monomial_eq };

    ghost laws = { partial_equiv_from_equiv monomial_equiv };

    fn eq(&self, other: &Exps) -> bool {
        self.values.cmp(&other.values).is_eq()
    }
}

impl Eq for Exps {
    ghost use Rattle.ore_monomial.specs.MonomialCode.{monomial_equiv};

    ghost laws = { monomial_equiv };
}

impl Exps {
    /// The monomial 1.
    pub fn zero() -> Exps
        ensures { result ≡ unit }
    {
        Exps {
            total: 0,
            values: [0; 12],
        }
    }

    /// The monomial with these exponents, in the order of the variables.
    ///
    /// # Errors
    /// Where their sum is greater than 32,767.
    pub fn from_list(values: &[u16; 12]) -> Result<Exps, DegreePassed>
        ensures { OkIff result (sum values.now ≤ 32767) (monomial_of values.now) }
    {
        let mut total: u32 = 0;
        for v in values {
            total += *v as u32;
        }
        if total > 32767 {
            return Err(DegreePassed);
        }
        Ok(Exps {
            total: total as u16,
            values: *values,
        })
    }

    /// The exponent of the variable `k`.
    pub fn get(&self, k: usize) -> u16
        requires { k < 12 }
        ensures { result ≡ exponent self.now k }
    {
        self.values[k]
    }

    /// The sum of the exponents.
    pub fn degree(&self) -> u16
        ensures value { result ≡ degree self.now }
        ensures small { result ≤ 32767 }
    {
        self.total
    }

    /// The product of two monomials, which has the sums of their exponents.
    ///
    /// # Errors
    /// Where its degree would be greater than 32,767.
    pub fn plus(&self, other: &Exps) -> Result<Exps, DegreePassed>
        ensures { OkIff result (degree self.now + degree other.now ≤ 32767) (product self.now other.now) }
    {
        if self.total + other.total > MOST {
            return Err(DegreePassed);
        }
        Ok(Exps {
            total: self.total + other.total,
            values: added(&self.values, &other.values),
        })
    }

    /// The least common multiple, which has the greater exponent for each variable.
    ///
    /// # Errors
    /// Where its degree would be greater than 32,767.
    pub fn lcm(&self, other: &Exps) -> Result<Exps, DegreePassed>
        ensures { OkIff result (degree (lcm self.now other.now) ≤ 32767) (lcm self.now other.now) }
    {
        Exps::from_list(&greater(&self.values, &other.values))
    }

    /// Whether no exponent is greater than that of `other`.
    pub fn divides(&self, other: &Exps) -> bool
        ensures { IsTrue result ↔ Divides self.now other.now }
    {
        are_at_most(&self.values, &other.values)
    }

    /// The monomial by which `other` has to be multiplied to give this one.
    pub fn minus(&self, other: &Exps) -> Exps
        requires { Divides other.now self.now }
        ensures { result ≡ quotient self.now other.now }
    {
        Exps {
            total: self.total - other.total,
            values: less(&self.values, &other.values),
        }
    }

    /// Thirteen numbers whose lexicographic order is the order of the monomials: a key for a map
    /// that is sorted by monomials.
    pub fn rank(&self, order: Order) -> [u16; 13]
        ensures { result ≡ rank order self.now }
    {
        match order {
            Order::DegLex => lex_rank(self.total, &self.values),
            Order::DegRevLex => reverse_rank(self.total, &self.values),
        }
    }
}

/// Which of two monomials is greater.
pub fn compare(order: Order, a: &Exps, b: &Exps) -> Ordering
    ensures { result ≡ order_cmp order a.now b.now }
{
    match a.total.cmp(&b.total) {
        Ordering::Equal => match order {
            Order::DegLex => a.values.cmp(&b.values),
            Order::DegRevLex => reversed(&b.values).cmp(&reversed(&a.values)),
        },
        other => other,
    }
}

// The numbers from the last one on.
fn reversed(a: &[u16; 12]) -> [u16; 12]
    ensures { result ≡ reverse a.now }
{
    let [a0, a1, a2, a3, a4, a5, a6, a7, a8, a9, a10, a11] = *a;
    [a11, a10, a9, a8, a7, a6, a5, a4, a3, a2, a1, a0]
}

// The sums of the numbers at each place.
fn added(a: &[u16; 12], b: &[u16; 12]) -> [u16; 12]
    requires { sum a.now + sum b.now ≤ 32767 }
    ensures { result ≡ zip_with ◌+◌ a.now b.now }
{
    let [a0, a1, a2, a3, a4, a5, a6, a7, a8, a9, a10, a11] = *a;
    let [b0, b1, b2, b3, b4, b5, b6, b7, b8, b9, b10, b11] = *b;
    [
        a0 + b0,
        a1 + b1,
        a2 + b2,
        a3 + b3,
        a4 + b4,
        a5 + b5,
        a6 + b6,
        a7 + b7,
        a8 + b8,
        a9 + b9,
        a10 + b10,
        a11 + b11,
    ]
}

// The degree, and then the exponents.
fn lex_rank(degree: u16, values: &[u16; 12]) -> [u16; 13]
    ensures { result ≡ degree ∷ values.now }
{
    let [a0, a1, a2, a3, a4, a5, a6, a7, a8, a9, a10, a11] = *values;
    [degree, a0, a1, a2, a3, a4, a5, a6, a7, a8, a9, a10, a11]
}

// The degree, and then the degree less each exponent, from the last one on.
fn reverse_rank(degree: u16, values: &[u16; 12]) -> [u16; 13]
    requires { sum values.now ≡ degree }
    ensures { result ≡ degree ∷ map (λ e. degree - e) (reverse values.now) }
{
    let [a0, a1, a2, a3, a4, a5, a6, a7, a8, a9, a10, a11] = *values;
    [
        degree,
        degree - a11,
        degree - a10,
        degree - a9,
        degree - a8,
        degree - a7,
        degree - a6,
        degree - a5,
        degree - a4,
        degree - a3,
        degree - a2,
        degree - a1,
        degree - a0,
    ]
}

// No number is greater than the one at the same place.
fn are_at_most(a: &[u16; 12], b: &[u16; 12]) -> bool
    ensures { result ≡ list_all (λ p. nat_le p.0 p.1) (zip a.now b.now) }
{
    a.iter().zip(b.iter()).all(|(x, y)| *x <= *y)
}

// The greater number at each place.
fn greater(a: &[u16; 12], b: &[u16; 12]) -> [u16; 12]
    ensures { result ≡ zip_with max a.now b.now }
{
    let [a0, a1, a2, a3, a4, a5, a6, a7, a8, a9, a10, a11] = *a;
    let [b0, b1, b2, b3, b4, b5, b6, b7, b8, b9, b10, b11] = *b;
    [
        a0.max(b0),
        a1.max(b1),
        a2.max(b2),
        a3.max(b3),
        a4.max(b4),
        a5.max(b5),
        a6.max(b6),
        a7.max(b7),
        a8.max(b8),
        a9.max(b9),
        a10.max(b10),
        a11.max(b11),
    ]
}

// The differences of the numbers at each place.
fn less(a: &[u16; 12], b: &[u16; 12]) -> [u16; 12]
    requires { AllZip (λ x y. x ≤ y) b.now a.now }
    ensures { result ≡ zip_with ◌-◌ a.now b.now }
{
    let [a0, a1, a2, a3, a4, a5, a6, a7, a8, a9, a10, a11] = *a;
    let [b0, b1, b2, b3, b4, b5, b6, b7, b8, b9, b10, b11] = *b;
    [
        a0 - b0,
        a1 - b1,
        a2 - b2,
        a3 - b3,
        a4 - b4,
        a5 - b5,
        a6 - b6,
        a7 - b7,
        a8 - b8,
        a9 - b9,
        a10 - b10,
        a11 - b11,
    ]
}

#[cfg(test)]
mod tests;

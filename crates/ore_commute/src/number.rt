//! The whole numbers of a product of two monomials.

ghost use Rattle.std.specs.Prelude.{◌≡◌, ◌≢◌, ◌+◌, ◌-◌, ◌*◌, ◌^◌, ◌<◌, ◌≤◌, pos, ◌*ℤ◌, nat_abs, SomeIff};
ghost use Rattle.ore_algebra.specs.Ring.{power as power_of};
ghost use Rattle.ore_algebra.proofs.Integers.{integers};
ghost use Rattle.ore_monomial.specs.Passing.{choose};
ghost use Rattle.ore_commute.specs.ClosedForm.{falling_factorial as falling_of, number as number_of};

/// The greatest magnitude of a whole number.
const MOST: u128 = 0x7fff_ffff_ffff_ffff_ffff_ffff_ffff_ffff;

/// The product, where it is in range.
pub fn times(a: u128, b: u128) -> Option<u128>
    ensures { SomeIff result (a * b < 2 ^ 127) (a * b) }
{
    let product = a.checked_mul(b)?;
    if product > MOST {
        return None;
    }
    Some(product)
}

/// a (a - 1) .. (a - k + 1), where it is in range.
pub fn falling(a: u16, k: u16) -> Option<u128>
    requires { k ≤ a }
    ensures { SomeIff result (falling_of a k < 2 ^ 127) (falling_of a k) }
{
    let mut value: u128 = 1;
    for i in 0..k {
        value = times(value, (a - i) as u128)?;
    }
    Some(value)
}

// From C(n,i) the next one, C(n,i+1), where it is in range.
fn next_binomial(n: u16, i: u16, value: u128) -> Option<u128>
    requires below { i < n }
    requires value_is { value ≡ choose n i }
    ensures { SomeIff result (choose n (i + 1) < 2 ^ 127) (choose n (i + 1)) }
{
    let divisor = (i + 1) as u128;
    let factor = (n - i) as u128;
    let whole = times(value / divisor, factor)?;
    let rest = value % divisor * factor / divisor;
    if whole + rest > MOST {
        return None;
    }
    Some(whole + rest)
}

/// C(n,j), where it is in range.
pub fn binomial(n: u16, j: u16) -> Option<u128>
    requires { j ≤ n }
    ensures { SomeIff result (choose n j < 2 ^ 127) (choose n j) }
{
    let steps = j.min(n - j);
    let mut value: u128 = 1;
    for i in 0..steps {
        value = next_binomial(n, i, value)?;
    }
    Some(value)
}

/// The product of whole numbers, where it is in range.
pub fn product(a: i128, b: i128) -> Option<i128>
    ensures { SomeIff result (nat_abs (a *ℤ b) < 2 ^ 127) (a *ℤ b) }
{
    let product = a.checked_mul(b)?;
    if product == i128::MIN {
        return None;
    }
    Some(product)
}

/// The number with a sign.
pub fn whole(n: u128) -> i128
    requires { n < 2 ^ 127 }
    ensures { result ≡ pos n }
{
    n as i128
}

// h to the power of j, where it is in range.
fn power(h: i128, j: u16) -> Option<i128>
    requires { 0 < j → h ≢ pos 0 }
    ensures { let value = power_of integers.ring h j in
        SomeIff result (nat_abs value < 2 ^ 127) value }
{
    let mut value: i128 = 1;
    for _ in 0..j {
        value = product(h, value)?;
    }
    Some(value)
}

/// The whole number of the term that lowers a differential operator with exponent `c` by `k`, and
/// its coordinate with exponent `a` by `k + j`, where `h` is the sum of the steps.
pub fn number(h: i128, c: u16, a: u16, k: u16, j: u16) -> Option<i128>
    requires operator { k ≤ c }
    requires coordinate { k + j ≤ a }
    requires steps { 0 < j → h ≢ pos 0 }
    ensures { let value = number_of integers h c a k j in
        SomeIff result (nat_abs value < 2 ^ 127) value }
{
    let chosen = binomial(c, k)?;
    let fallen = falling(a, k)?;
    let spent = times(chosen, fallen)?;
    let places = binomial(a - k, j)?;
    let steps = power(h, j)?;
    let shifted = product(whole(places), steps)?;
    product(whole(spent), shifted)
}

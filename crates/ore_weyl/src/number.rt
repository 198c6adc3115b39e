//! The whole numbers of a product of two monomials.

ghost use Rattle.std.specs.Prelude.{◌*◌, ◌^◌, ◌<◌, ◌≤◌, pos, SomeIff};
ghost use Rattle.ore_monomial.specs.Passing.{choose};
ghost use Rattle.ore_commute.specs.ClosedForm.{falling_factorial as falling_of};

use ore_commute::number::{binomial, falling, times, whole};

/// The whole number of the term that lowers a differential operator with exponent `c`, and its
/// coordinate with exponent `a`, by `k`.
pub fn number(c: u16, a: u16, k: u16) -> Option<i128>
    requires operator { k ≤ c }
    requires coordinate { k ≤ a }
    ensures { let value = choose c k * falling_of a k in
        SomeIff result (value < 2 ^ 127) (pos value) }
{
    let chosen = binomial(c, k)?;
    let fallen = falling(a, k)?;
    let value = times(chosen, fallen)?;
    Some(whole(value))
}

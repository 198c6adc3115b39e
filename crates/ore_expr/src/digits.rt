//! The numbers that digits write.

ghost use Rattle.std.specs.Prelude.{◌≡◌, ◌≢◌, ◌-◌, ◌^◌, min, pos, IfOk};
ghost use Rattle.std.specs.List.{AllPass};
ghost use Rattle.std.specs.Char.{is_ascii_digit};
ghost use Rattle.std.specs.Str.Parse.{digits_value};
ghost use Rattle.ore_rational.specs.Range.{InRange};
ghost use Rattle.ore_expr.specs.DigitsRead.{number_at, denominator_at, power_at};

use crate::fault::TextFault;

// The number of some digits, or the greatest `u128` where it is greater.
fn digits_number(digits: &[u8]) -> u128
    requires { AllPass is_ascii_digit digits.now }
    ensures { result ≡ min (digits_value 10 digits.now) (2 ^ 128 - 1) }
{
    let mut n = 0u128;
    for digit in digits {
        n = n
            .saturating_mul(10)
            .saturating_add(u128::from(*digit - b'0'));
    }
    n
}

/// The number that digits write as an atom.
///
/// # Errors
/// It is above `2^127 - 1`; with this place.
pub(crate) fn number(place: usize, digits: &[u8]) -> Result<i128, TextFault>
    requires { AllPass is_ascii_digit digits.now }
    ensures value { result ≡ number_at place (digits_value 10 digits.now) }
    ensures range { IfOk result InRange }
{
    i128::try_from(digits_number(digits)).or(Err(TextFault::NumberTooWide(place)))
}

/// The number that digits write as a denominator.
///
/// # Errors
/// It is above `2^127 - 1`, or 0; with this place.
pub(crate) fn denominator(place: usize, digits: &[u8]) -> Result<i128, TextFault>
    requires { AllPass is_ascii_digit digits.now }
    ensures value { result ≡ denominator_at place (digits_value 10 digits.now) }
    ensures range { IfOk result InRange }
    ensures above { IfOk result (λ n. n ≢ pos 0) }
{
    let n = number(place, digits)?;
    if n == 0 {
        return Err(TextFault::ZeroDenominator(place));
    }
    Ok(n)
}

/// The number that digits write as a power.
///
/// # Errors
/// It is above the limit; with this place.
pub(crate) fn power(limit: u16, place: usize, digits: &[u8]) -> Result<u16, TextFault>
    requires { AllPass is_ascii_digit digits.now }
    ensures { result ≡ power_at limit place (digits_value 10 digits.now) }
{
    let n = digits_number(digits);
    if n > u128::from(limit) {
        return Err(TextFault::PowerTooLarge(place));
    }
    Ok(n as u16)
}

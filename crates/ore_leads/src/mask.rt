//! Which of eight leads divide a monomial.

ghost use Rattle.std.specs.Prelude.{◌≡◌, ◌≤◌, ◌<◌, ◌↔◌, ℕ, map, slice_index_or};
ghost use Rattle.std.specs.Int.{bit_at};
ghost use Rattle.ore_monomial.specs.Monomial.{exponent, unit, Divides};

use ore_monomial::Exps;
use std::simd::prelude::*;

/// Which of eight leads divide the monomial `exps`: bit `k` is set exactly where lead `k` does.
///
/// For callers that have eight leads beside each other and want all that divide: it compares all their exponents,
/// eight at a time, and takes no memory. For the first that divides,
/// [`Leads::first_divisor`](crate::Leads::first_divisor) costs less, since most leads fail at the column or at
/// the first exponent.
pub fn divisor_mask(leads: &[Exps; 8], exps: &Exps) -> u8
    ensures { (k : ℕ) → k < 8 → (bit_at result k ≡ 1) ↔ Divides (slice_index_or leads.now k unit) exps.now }
{
    let mut mask = 255;
    for variable in 0..12 {
        mask &= variable_mask(leads, exps, variable);
    }
    mask
}

// The same by this variable alone: bit k is set exactly where its exponent in lead k is at most that in `exps`.
fn variable_mask(leads: &[Exps; 8], exps: &Exps, variable: usize) -> u8
    requires { variable < 12 }
    ensures { (k : ℕ) → k < 8 → (bit_at result k ≡ 1) ↔ (exponent (slice_index_or leads.now k unit) variable ≤ exponent exps.now variable) }
{
    u16x8::from_array(exponents(leads, variable))
        .simd_le(u16x8::splat(exps.get(variable)))
        .to_bitmask() as u8
}

// The exponents of this variable in the leads.
fn exponents(leads: &[Exps; 8], variable: usize) -> [u16; 8]
    requires { variable < 12 }
    ensures { result ≡ map (λ lead. exponent lead variable) leads.now }
{
    [
        leads[0].get(variable),
        leads[1].get(variable),
        leads[2].get(variable),
        leads[3].get(variable),
        leads[4].get(variable),
        leads[5].get(variable),
        leads[6].get(variable),
        leads[7].get(variable),
    ]
}

#[cfg(test)]
mod tests;

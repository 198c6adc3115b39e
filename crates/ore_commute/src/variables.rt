//! What the variables of a signature do to a coordinate.

ghost use Rattle.std.specs.Prelude.{◌≡◌, ◌*◌, ◌^◌, ◌<◌, ◌≤◌, pos, nat_abs, unwrap_or};
ghost use Rattle.std.specs.Option.{ForSome};
ghost use Rattle.ore_algebra.specs.Ring.{of_nat};
ghost use Rattle.ore_algebra.proofs.Integers.{integers};
ghost use Rattle.ore_monomial.specs.Signature.{is_differential_on as is_differential_of};
ghost use Rattle.ore_commute.specs.ClosedForm.{step_on, differential_of as differential_index, total_step as total_step_of};

use ore_monomial::{Exps, Signature, VarKind};

fn is_differential_on(coordinate: usize, kind: VarKind) -> bool
    ensures { result ≡ is_differential_of coordinate kind }
{
    match kind {
        VarKind::Differential { on } => on as usize == coordinate,
        _ => false,
    }
}

/// The index of the coordinate's differential operator.
pub fn differential_of(signature: &Signature, coordinate: usize) -> Option<usize>
    ensures index { unwrap_or result 12 ≡ differential_index signature.now coordinate }
    ensures within { ForSome result (λ d. d < 12) }
{
    for x in 0..signature.count() {
        if is_differential_on(coordinate, signature.kind(x)) {
            return Some(x);
        }
    }
    None
}

// The steps that a power of a shift makes.
fn steps(exponent: u16, step: u16) -> i128
    ensures { result ≡ pos (exponent * step) }
{
    (exponent as u64 * step as u64) as i128
}

// What a power of a letter adds to a coordinate.
fn added(coordinate: usize, kind: VarKind, exponent: u16) -> i128
    ensures value { result ≡ integers.times (of_nat integers.ring exponent) (step_on integers coordinate kind) }
    ensures small { nat_abs result ≤ 2 ^ 32 }
{
    match kind {
        VarKind::Shift { on, step } if on as usize == coordinate => steps(exponent, step),
        VarKind::Delay { on, step } if on as usize == coordinate => -steps(exponent, step),
        _ => 0,
    }
}

/// The sum of the steps over the coordinate of all letters of a monomial.
pub fn total_step(signature: &Signature, monomial: &Exps, coordinate: usize) -> i128
    ensures { result ≡ total_step_of integers signature.now coordinate monomial.now }
{
    let mut sum = 0;
    for x in 0..signature.count() {
        sum += added(coordinate, signature.kind(x), monomial.get(x));
    }
    sum
}

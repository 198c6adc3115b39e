//! One coordinate that operators pass.

ghost use Rattle.std.specs.Prelude.{ℕ, ◌≡◌, ◌≢◌, ◌+◌, ◌-◌, ◌^◌, ◌<◌, ◌≤◌, pos, nat_abs, [], unwrap_or, IsOkAnd, MatchResult};
ghost use Rattle.std.specs.Option.{ForSome};
ghost use Rattle.ore_monomial.specs.declared.stop.RingStop.TheVariants.{Overflow};
ghost use Rattle.std.specs.List.{All};
ghost use Rattle.ore_algebra.proofs.Integers.{integers};
ghost use Rattle.ore_monomial.specs.Gives.{Gives, Turns};
ghost use Rattle.ore_monomial.specs.Monomial.{exponent, degree};
ghost use Rattle.ore_monomial.specs.Signature.{kind_at};
ghost use Rattle.ore_monomial.specs.declared.signature.VarKind.TheVariants.{Coordinate};
ghost use Rattle.ore_commute.specs.ClosedForm.{divisor as divisor_of, differential_of as differential_index, number as number_of, total_step as total_step_of, shifted_terms, axis_terms};
ghost use Rattle.ore_commute.specs.Product.{checked, IsStarted, HasRoom};

use crate::number::number;
use crate::terms::{Lowering, Term, variable_power};
use crate::variables::{differential_of, total_step};
use ore_monomial::{DegreePassed, Exps, RingStop, Signature};
use std::alloc::Global;

// The exponent of a variable, and 0 where there is none.
fn exponent_of(monomial: &Exps, variable: Option<usize>) -> u16
    requires { ForSome variable (λ x. x < 12) }
    ensures { result ≡ exponent monomial.now (unwrap_or variable 12) }
{
    match variable {
        Some(x) => monomial.get(x),
        None => 0,
    }
}

/// A coordinate of the right monomial, with what passes it from the left.
#[derive(Drop)]
pub struct Axis {
    /// The index of the coordinate.
    coordinate: usize,
    /// The index of its differential operator, if it has one.
    operator: Option<usize>,
    /// The sum of the steps of the left monomial's shifts, less those of its delays.
    steps: i128,
    /// The exponent of the operator in the left monomial.
    left: u16,
    /// The exponent of the coordinate in the right monomial.
    right: u16,
    ghost within: { coordinate < 12 },
    ghost declared: { ForSome operator (λ d. d < 12) },
    ghost apart: { coordinate ≢ unwrap_or operator 12 },
    ghost idle: { unwrap_or operator 12 ≡ 12 → left ≡ 0 },
    ghost small: { left + right ≤ 32767 },
}

impl Axis {
    /// The axis of a coordinate, where the right monomial is passed by the left one.
    pub fn new(signature: &Signature, left: &Exps, right: &Exps, coordinate: usize) -> Axis
        requires within { coordinate < 12 }
        requires kind { kind_at signature.now coordinate ≡ Coordinate }
        requires small { degree left.now + degree right.now ≤ 32767 }
        ensures coordinate { result.coordinate ≡ coordinate }
        ensures operator { unwrap_or result.operator 12 ≡ differential_index signature.now coordinate }
        ensures steps { result.steps ≡ total_step_of integers signature.now coordinate left.now }
        ensures left { result.left ≡ exponent left.now (differential_index signature.now coordinate) }
        ensures right { result.right ≡ exponent right.now coordinate }
    {
        let operator = differential_of(signature, coordinate);
        let steps = total_step(signature, left, coordinate);
        let spent = exponent_of(left, operator);
        Axis {
            coordinate,
            operator,
            steps,
            left: spent,
            right: right.get(coordinate),
        }
    }

    // The monomial that is taken away where k operators are spent, and the coordinate falls by j more.
    fn divisor(&self, k: u16, j: u16) -> Result<Exps, DegreePassed>
        requires operator { k ≤ self.now.left }
        requires coordinate { k + j ≤ self.now.right }
        ensures { IsOkAnd result (λ m. m ≡ divisor_of self.now.coordinate (unwrap_or self.now.operator 12) k j) }
    {
        let fallen = variable_power(self.coordinate, k + j)?;
        match self.operator {
            Some(operator) => variable_power(operator, k)?.plus(&fallen),
            None => Ok(fallen),
        }
    }

    // The same with its number, where that is in range.
    fn lowering(&self, k: u16, j: u16) -> Result<Lowering, RingStop>
        requires operator { k ≤ self.now.left }
        requires coordinate { k + j ≤ self.now.right }
        requires steps { 0 < j → self.now.steps ≢ pos 0 }
        ensures { let divisor = divisor_of self.now.coordinate (unwrap_or self.now.operator 12) k j in
            let factor = number_of integers self.now.steps self.now.left self.now.right k j in
            MatchResult result (λ l. (l.divisor ≡ divisor) × (l.factor ≡ factor))
            (λ stop. (stop ≡ Overflow) × ¬ (nat_abs factor < 2 ^ 127)) }
    {
        let divisor = self.divisor(k, j)?;
        match number(self.steps, self.left, self.right, k, j) {
            Some(factor) => Ok(Lowering { divisor, factor }),
            None => Err(RingStop::Overflow),
        }
    }

    // How far the coordinate can fall by shifts after k operators are spent, plus one.
    fn falls(&self, k: u16) -> u16
        requires { k ≤ self.now.right }
        ensures still { self.now.steps ≡ pos 0 → result ≡ 1 }
        ensures moving { self.now.steps ≢ pos 0 → result ≡ self.now.right - k + 1 }
    {
        if self.steps == 0 {
            1
        } else {
            self.right - k + 1
        }
    }

    // What the terms become where k operators are spent goes to the end.
    fn pass_with(&self, k: u16, terms: &[Term], out: &mut Vec<Term>) -> Result<(), RingStop>
        requires operator { k ≤ self.now.left }
        requires coordinate { k ≤ self.now.right }
        requires started { IsStarted terms.now }
        requires room { All (λ t. HasRoom self.now.coordinate (unwrap_or self.now.operator 12)
            self.now.right self.now.left t.0) terms.now }
        ensures { let axis : ℕ × ℕ = (self.now.coordinate, unwrap_or self.now.operator 12) in
            let made = shifted_terms integers self.now.steps axis self.now.left self.now.right terms.now k in
            Turns result out.new.items (checked out.old.items made) }
    {
        for j in 0..self.falls(k) {
            self.lowering(k, j)?.add_to(out, terms)?;
        }
        Ok(())
    }

    /// What the terms become where the coordinate is passed.
    pub fn pass(&self, alloc: Global, terms: &[Term]) -> Result<Vec<Term>, RingStop>
        requires started { IsStarted terms.now }
        requires room { All (λ t. HasRoom self.now.coordinate (unwrap_or self.now.operator 12)
            self.now.right self.now.left t.0) terms.now }
        ensures { let axis : ℕ × ℕ = (self.now.coordinate, unwrap_or self.now.operator 12) in
            let made = axis_terms integers self.now.steps axis self.now.left self.now.right terms.now in
            Gives (λ v. v.items) result (checked [] made) }
    {
        let mut out = Vec::new(alloc);
        for k in 0..self.right.min(self.left) + 1 {
            self.pass_with(k, terms, &mut out)?;
        }
        Ok(out)
    }
}

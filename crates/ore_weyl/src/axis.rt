//! One coordinate that powers of its differential operator pass.

ghost use Rattle.std.specs.Prelude.{ℕ, ◌≡◌, ◌≢◌, ◌+◌, ◌*◌, ◌^◌, ◌<◌, ◌≤◌, pos, [], IsOkAnd, MatchResult};
ghost use Rattle.ore_monomial.specs.declared.stop.RingStop.TheVariants.{Overflow};
ghost use Rattle.std.specs.List.{All};
ghost use Rattle.ore_algebra.proofs.Integers.{integers};
ghost use Rattle.ore_monomial.specs.Gives.{Gives};
ghost use Rattle.ore_monomial.specs.Monomial.{exponent, degree};
ghost use Rattle.ore_monomial.specs.Passing.{choose};
ghost use Rattle.ore_commute.specs.ClosedForm.{divisor as divisor_of, falling_factorial as falling_of, axis_terms};
ghost use Rattle.ore_commute.specs.Product.{checked, IsStarted, HasRoom};

use crate::number::number;
use ore_commute::terms::{Lowering, Term, variable_power};
use ore_monomial::{DegreePassed, Exps, RingStop};
use std::alloc::Global;

/// A coordinate of the right monomial, with its differential operator in the left one.
#[derive(Drop)]
pub struct Axis {
    /// The index of the coordinate.
    coordinate: usize,
    /// The index of its differential operator.
    operator: usize,
    /// The exponent of the operator in the left monomial.
    left: u16,
    /// The exponent of the coordinate in the right monomial.
    right: u16,
    ghost within: { coordinate < 12 },
    ghost declared: { operator < 12 },
    ghost apart: { coordinate ≢ operator },
    ghost small: { left + right ≤ 32767 },
}

impl Axis {
    /// The axis of a coordinate and its operator, where the left monomial passes the right one.
    pub fn new(left: &Exps, right: &Exps, coordinate: usize, operator: usize) -> Axis
        requires within { coordinate < 12 }
        requires declared { operator < 12 }
        requires apart { coordinate ≢ operator }
        requires small { degree left.now + degree right.now ≤ 32767 }
        ensures coordinate { result.coordinate ≡ coordinate }
        ensures operator { result.operator ≡ operator }
        ensures left { result.left ≡ exponent left.now operator }
        ensures right { result.right ≡ exponent right.now coordinate }
    {
        Axis {
            coordinate,
            operator,
            left: left.get(operator),
            right: right.get(coordinate),
        }
    }

    // The monomial that is taken away where k operators are spent.
    fn divisor(&self, k: u16) -> Result<Exps, DegreePassed>
        requires operator { k ≤ self.now.left }
        requires coordinate { k ≤ self.now.right }
        ensures { IsOkAnd result (λ m. m ≡ divisor_of self.now.coordinate self.now.operator k 0) }
    {
        let fallen = variable_power(self.coordinate, k)?;
        variable_power(self.operator, k)?.plus(&fallen)
    }

    // The same with its number, where that is in range.
    fn lowering(&self, k: u16) -> Result<Lowering, RingStop>
        requires operator { k ≤ self.now.left }
        requires coordinate { k ≤ self.now.right }
        ensures { let divisor = divisor_of self.now.coordinate self.now.operator k 0 in
            let factor = choose self.now.left k * falling_of self.now.right k in
            MatchResult result (λ l. (l.divisor ≡ divisor) × (l.factor ≡ pos factor))
            (λ stop. (stop ≡ Overflow) × ¬ (factor < 2 ^ 127)) }
    {
        let divisor = self.divisor(k)?;
        match number(self.left, self.right, k) {
            Some(factor) => Ok(Lowering { divisor, factor }),
            None => Err(RingStop::Overflow),
        }
    }

    /// What the terms become where the coordinate is passed.
    pub fn pass(&self, alloc: Global, terms: &[Term]) -> Result<Vec<Term>, RingStop>
        requires started { IsStarted terms.now }
        requires room { All (λ t. HasRoom self.now.coordinate self.now.operator
            self.now.right self.now.left t.0) terms.now }
        ensures { let axis : ℕ × ℕ = (self.now.coordinate, self.now.operator) in
            let made = axis_terms integers (pos 0) axis self.now.left self.now.right terms.now in
            Gives (λ v. v.items) result (checked [] made) }
    {
        let mut out = Vec::new(alloc);
        for k in 0..self.right.min(self.left) + 1 {
            self.lowering(k)?.add_to(&mut out, terms)?;
        }
        Ok(out)
    }
}

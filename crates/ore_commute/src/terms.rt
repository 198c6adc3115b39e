//! Terms of a product, and how one is lowered where a coordinate is passed.

ghost use Rattle.std.specs.Prelude.{◌<◌, ◌≤◌, OkIff, map};
ghost use Rattle.std.specs.List.{All};
ghost use Rattle.ore_monomial.specs.Gives.{Gives, Turns};
ghost use Rattle.ore_monomial.specs.Monomial.{Divides, with_exponent, unit};
ghost use Rattle.ore_commute.specs.Product.{divided, in_range, checked};

use crate::number::product;
use ore_monomial::{DegreePassed, Exps, RingStop};

/// A monomial with its whole number.
pub type Term = (Exps, i128);

/// One way to pass a coordinate: terms are divided by a monomial, and times a number.
#[derive(Drop)]
pub struct Lowering {
    /// What terms are divided by.
    pub divisor: Exps,
    /// What their numbers are multiplied by.
    pub factor: i128,
}

impl Lowering {
    // The lowered term, where its number is in range.
    #[tactic(auto, unfolding(crate::specs::Product::divided))]
    fn of(&self, term: &Term) -> Result<Term, RingStop>
        requires { Divides self.now.divisor term.now.0 }
        ensures { Gives (λ t. t) result (in_range (divided self.now.divisor self.now.factor term.now)) }
    {
        let (monomial, number) = *term;
        match product(self.factor, number) {
            Some(scaled) => Ok((monomial.minus(&self.divisor), scaled)),
            None => Err(RingStop::Overflow),
        }
    }

    /// The lowered terms go to the end.
    ///
    /// # Errors
    /// `Overflow` where a number has magnitude above `2^127 - 1`, or want of memory.
    pub fn add_to(&self, out: &mut Vec<Term>, terms: &[Term]) -> Result<(), RingStop>
        requires { All (λ t. Divides self.now.divisor t.0) terms.now }
        ensures { let made = map (divided self.now.divisor self.now.factor) terms.now in
            Turns result out.new.items (checked out.old.items made) }
    {
        for term in terms {
            out.push(self.of(term)?)?;
        }
        Ok(())
    }
}

/// A power of one variable.
///
/// # Errors
/// The exponent is greater than 32,767.
pub fn variable_power(variable: usize, exponent: u16) -> Result<Exps, DegreePassed>
    requires { variable < 12 }
    ensures { OkIff result (exponent ≤ 32767) (with_exponent variable exponent unit) }
{
    let mut values = [0; 12];
    values[variable] = exponent;
    Exps::from_list(&values)
}

//! The operators on the stack on which an expression is evaluated.

ghost use Rattle.std.specs.Prelude.{◌≡◌, true, pos, IfOk};
ghost use Rattle.ore_algebra.specs.Limits.{program};
ghost use Rattle.ore_rational.specs.Fraction.{whole};
ghost use Rattle.ore_rational.specs.Within.{sum_fits};
ghost use Rattle.ore_monomial.specs.Gives.{Gives, Turns};
ghost use Rattle.ore_monomial.specs.Signature.{Signature};
ghost use Rattle.ore_ring.specs.Belongs.{Belongs};
ghost use Rattle.ore_ring.specs.Within.{plus_within};

use ore_monomial::{NoMemory, RingStop};
use ore_rational::Rational;
use ore_ring::{Gather, Op};
use std::alloc::Global;
use std::marker::Model;

// How the terms are kept.
#[derive(Drop)]
enum Form {
    // From the greatest down.
    Finished(Op),
    // In a sorted map, so that adding a term costs the logarithm of their number.
    Sum(Gather),
}

/// An operator on the stack. A sum stays open for more terms, so a sum of many parts costs what its parts have.
#[derive(Drop)]
pub(crate) struct Operand {
    form: Form,
}

impl Model for Operand {
    ghost use Rattle.ore_ring.specs.Ordered.{Ordered, ordered_code};

    ghost Value = { Ordered };

    ghost coded = { ordered_code };

    ghost use Rattle.ore_expr.specs.Operands.{ordered_of};

    ghost view = { λ a. ordered_of a.form };
}

impl Operand {
    /// A finished operator.
    pub fn finished(op: Op) -> Operand
        ensures { result ≡ op }
    {
        Operand {
            form: Form::Finished(op),
        }
    }

    /// A sum to which terms may be added.
    pub fn sum(sum: Gather) -> Operand
        ensures { result ≡ sum }
    {
        Operand {
            form: Form::Sum(sum),
        }
    }

    /// The operator with its terms from the greatest down.
    pub fn finish(self, alloc: Global) -> Result<Op, NoMemory>
        ensures { IfOk result (λ f. f ≡ self) }
    {
        match self.form {
            Form::Finished(op) => Ok(op),
            Form::Sum(sum) => sum.finish(alloc),
        }
    }

    /// The operator as a sum to which terms may be added.
    pub fn open(self, alloc: Global) -> Result<Gather, RingStop>
        ensures gives { Gives (λ f. f) result (Ok self) }
    {
        match self.form {
            Form::Finished(op) => gathered(alloc, &op),
            Form::Sum(sum) => Ok(sum),
        }
    }
}

/// The sum, by adding each term of the second to the first.
pub(crate) fn added(alloc: Global, f: Operand, g: &Op) -> Result<Operand, RingStop>
    ensures gives { Gives (λ h. h.sum) result (plus_within program f.sum g.now.sum) }
    ensures of { (s : Signature) → Belongs s f → Belongs s g.now → IfOk result (Belongs s) }
{
    let mut sum = f.open(alloc)?;
    add_terms(&mut sum, g)?;
    Ok(Operand::sum(sum))
}

// The same operator in a map.
fn gathered(alloc: Global, op: &Op) -> Result<Gather, RingStop>
    ensures gives { Gives (λ f. f) result (Ok op.now) }
{
    let mut sum = Gather::new(alloc, op.order());
    add_terms(&mut sum, op)?;
    Ok(sum)
}

// Adds all terms, the greatest first.
fn add_terms(sum: &mut Gather, op: &Op) -> Result<(), RingStop>
    ensures by { sum.new.by ≡ sum.old.by }
    ensures turns { Turns result sum.new.sum (plus_within program sum.old.sum op.now.sum) }
{
    for k in 0..op.len() {
        let Some(term) = op.get(k) else { return Ok(()) };
        fits_alone(&term.1);
        sum.add(term.0, term.1)?;
    }
    Ok(())
}

// The sum of 0 and a stored fraction doesn't stop.
fn fits_alone(number: &Rational)
    ensures { sum_fits program (whole (pos 0)) number.now ≡ true }
{
    let _ = number.numerator();
    let _ = number.denominator();
}

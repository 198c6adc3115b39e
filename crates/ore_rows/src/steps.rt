//! Steps of a lead reduction.

ghost use Rattle.std.specs.Prelude.{◌≡◌, ◌<◌, ◌^◌, length, slice_get};

use ore_monomial::Exps;
use ore_rational::Rational;
use std::marker::Model;

/// A fraction times a monomial, from the left, times a row of a basis.
#[derive(Drop)]
pub struct Step {
    /// The place of the basis row, where the first has place 0.
    pub index: usize,
    /// The monomial.
    pub exps: Exps,
    /// The fraction.
    pub coef: Rational,
}

impl Model for Step {
    ghost use Rattle.ore_rational.specs.Field.{rationals};
    ghost use Rattle.ore_rows.specs.Reduction as reduction;
    ghost use Rattle.ore_rows.specs.StoredSteps.{step_code};

    ghost Value = { reduction.Step rationals };

    ghost coded = { step_code };

    ghost view = { λ a. record { index = a.index; monomial = a.exps; number = a.coef } };
}

/// A list of steps.
#[derive(Drop)]
pub struct Steps {
    items: Vec<Step>,
}

impl Model for Steps {
    ghost use Rattle.std.specs.Prelude.{List};
    ghost use Rattle.ore_rational.specs.Field.{rationals};
    ghost use Rattle.ore_rows.specs.Reduction as reduction;
    ghost use Rattle.ore_rows.specs.StoredSteps.{steps_code};

    ghost Value = { List (reduction.Step rationals) };

    ghost coded = { steps_code };

    ghost view = { λ a. a.items.items };
}

impl Steps {
    /// These steps, in their order.
    pub fn from_vec(items: Vec<Step>) -> Steps
        ensures { result ≡ items.items }
    {
        Steps { items }
    }

    /// The steps as a vector.
    pub fn into_vec(self) -> Vec<Step>
        ensures { result.items ≡ self }
    {
        self.items
    }

    /// The number of steps.
    pub fn len(&self) -> usize
        ensures count { result ≡ length self.now }
        ensures few { result < 2 ^ 63 }
    {
        self.items.len()
    }

    /// The step at place `k`, which is below [`Steps::len`]; the first has place 0.
    pub fn get(&self, k: usize) -> &Step
        requires { k < length self.now }
        ensures { slice_get self.now k ≡ Some result.now }
    {
        &self.items[k]
    }
}

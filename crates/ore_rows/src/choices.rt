//! What a run does with its pairs of basis rows, one after another, which of that a rule allows, and what the syzygies
//! come from.

ghost use Rattle.std.specs.Prelude.{◌≡◌, ◌<◌, ◌^◌, ℕ, Bool, List, length, slice_get};
ghost use Rattle.ore_rows.specs.declared.choices.Choice as choices;
ghost use Rattle.ore_rows.specs.BasisLeads.{BasisLeads};

use std::marker::Model;

/// What is done with a pair of basis rows, given by their places in the basis, where the first row has place 0. In a
/// lawful choice `i` is below `j`.
#[derive(Clone, Copy, Debug, PartialEq, Eq, Drop)]
pub enum Choice {
    /// The combination of the two rows in which their leads cancel is reduced.
    Treat { i: usize, j: usize },
    /// Nothing, since the pairs of both rows with the row at `via` were dealt with before.
    Skip { i: usize, j: usize, via: usize },
}

/// Which choices may come, and whether the budget may be spent, by the leads of the basis and the pairs in the order in
/// which they were listed.
pub trait Rule {
    /// The choice may come.
    ghost allows: { BasisLeads → List (ℕ × ℕ) → choices.Choice → Bool };

    /// The answer that the budget is spent may come.
    ghost allows_spent: { BasisLeads → List (ℕ × ℕ) → Bool };
}

/// What a syzygy of a run comes from.
#[derive(Clone, Copy, Debug, PartialEq, Eq, Drop)]
pub enum Origin {
    /// The row of the matrix at this place, which is zero.
    ZeroRow(usize),
    /// The pair that was treated in the event at this place.
    Event(usize),
}

/// The choices of a run, in order.
#[derive(Drop)]
pub struct Choices {
    items: Vec<Choice>,
}

impl Model for Choices {
    ghost use Rattle.std.specs.Prelude.{List};
    ghost use Rattle.ore_rows.specs.declared.choices.Choice.{Choice};

    ghost Value = { List Choice };

    ghost view = { λ a. a.items.items };
}

impl Choices {
    /// These choices, in their order.
    pub fn from_vec(items: Vec<Choice>) -> Choices
        ensures { result ≡ items.items }
    {
        Choices { items }
    }

    /// The choices as a vector.
    pub fn into_vec(self) -> Vec<Choice>
        ensures { result.items ≡ self }
    {
        self.items
    }

    /// The number of choices.
    pub fn len(&self) -> usize
        ensures count { result ≡ length self.now }
        ensures few { result < 2 ^ 63 }
    {
        self.items.len()
    }

    /// The choice at place `k`, which is below [`Choices::len`]; the first has place 0.
    pub fn get(&self, k: usize) -> &Choice
        requires { k < length self.now }
        ensures { slice_get self.now k ≡ Some result.now }
    {
        &self.items[k]
    }
}

/// The choices of several runs, run by run.
#[derive(Drop)]
pub struct Runs {
    items: Vec<Choices>,
}

impl Model for Runs {
    ghost use Rattle.std.specs.Prelude.{List};
    ghost use Rattle.ore_rows.specs.declared.choices.Choice.{Choice};

    ghost Value = { List (List Choice) };

    ghost view = { λ a. a.items.items };
}

impl Runs {
    /// The choices of these runs, in their order.
    pub fn from_vec(items: Vec<Choices>) -> Runs
        ensures { result ≡ items.items }
    {
        Runs { items }
    }

    /// The runs as a vector.
    pub fn into_vec(self) -> Vec<Choices>
        ensures { result.items ≡ self }
    {
        self.items
    }

    /// The number of runs.
    pub fn len(&self) -> usize
        ensures count { result ≡ length self.now }
        ensures few { result < 2 ^ 63 }
    {
        self.items.len()
    }

    /// The choices of the run at place `k`, which is below [`Runs::len`]; the first has place 0.
    pub fn get(&self, k: usize) -> &Choices
        requires { k < length self.now }
        ensures { slice_get self.now k ≡ Some result.now }
    {
        &self.items[k]
    }
}

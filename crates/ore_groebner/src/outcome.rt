//! What a run answers.

ghost use Rattle.std.specs.Prelude.{◌≡◌, ◌<◌, ◌^◌, length, slice_get};

use ore_rational::Rational;
use ore_rows::{Basis, Matrix, Origin, Steps};
use std::marker::Model;

/// Where a run stopped.
#[derive(Clone, Copy, Debug, PartialEq, Eq, Drop)]
pub enum StopAt {
    /// The first basis was made, before any choice.
    Forced,
    /// The pair of these rows was treated.
    Treat { i: usize, j: usize },
}

/// Why a run stopped without an answer.
#[derive(Clone, Copy, Debug, PartialEq, Eq, Drop)]
pub enum Halt {
    /// A number that it forms is out of the range of fractions.
    Overflow(StopAt),
    /// A monomial that it forms has too great a degree.
    Degree(StopAt),
    /// The budget of the chooser is spent, and a pair is left.
    Spent,
    /// The next choice that the chooser keeps is absent or not lawful.
    NoLawful,
    /// There was no memory.
    Memory,
}

/// What is left of the S-row of a pair.
#[derive(Drop)]
pub enum Outcome {
    /// Nothing.
    Zero,
    /// A row with this lead coefficient, which is made monic and stands next in the basis.
    NewRow { coef: Rational },
}

/// What was done with a pair.
#[derive(Drop)]
pub enum Event {
    /// Its S-row was reduced by these steps.
    Treated {
        i: usize,
        j: usize,
        steps: Steps,
        outcome: Outcome,
    },
    /// It was skipped by way of a third row.
    Skipped {
        i: usize,
        j: usize,
        via: usize,
    },
}

/// What was done with the pairs, in order.
#[derive(Drop)]
pub struct Events {
    items: Vec<Event>,
}

impl Model for Events {
    ghost use Rattle.std.specs.Prelude.{List};
    ghost use Rattle.ore_groebner.specs.declared.outcome.Event.{Event};

    ghost Value = { List Event };

    ghost view = { λ a. a.items.items };
}

impl Events {
    /// These events, in their order.
    pub fn from_vec(items: Vec<Event>) -> Events
        ensures { result ≡ items.items }
    {
        Events { items }
    }

    /// The events as a vector.
    pub fn into_vec(self) -> Vec<Event>
        ensures { result.items ≡ self }
    {
        self.items
    }

    /// The number of events.
    pub fn len(&self) -> usize
        ensures { result ≡ length self.now }
    {
        self.items.len()
    }

    /// Does nothing. Its contract says what holds of all such lists: there are fewer than 2^63 events.
    pub fn few(&self)
        ensures { length self.now < 2 ^ 63 }
    {
        let _count = self.items.len();
    }

    /// The event at place `k`, where the first has place 0.
    pub fn get(&self, k: usize) -> &Event
        requires { k < length self.now }
        ensures { slice_get self.now k ≡ Some result.now }
    {
        &self.items[k]
    }
}

/// What the syzygies come from, in order.
#[derive(Drop)]
pub struct Origins {
    items: Vec<Origin>,
}

impl Model for Origins {
    ghost use Rattle.std.specs.Prelude.{List};
    ghost use Rattle.ore_rows.specs.declared.choices.Origin.{Origin};

    ghost Value = { List Origin };

    ghost view = { λ a. a.items.items };
}

impl Origins {
    /// These origins, in their order.
    pub fn from_vec(items: Vec<Origin>) -> Origins
        ensures { result ≡ items.items }
    {
        Origins { items }
    }

    /// The origins as a vector.
    pub fn into_vec(self) -> Vec<Origin>
        ensures { result.items ≡ self }
    {
        self.items
    }

    /// The number of origins.
    pub fn len(&self) -> usize
        ensures { result ≡ length self.now }
    {
        self.items.len()
    }

    /// The origin at place `k`, where the first has place 0.
    pub fn get(&self, k: usize) -> &Origin
        requires { k < length self.now }
        ensures { slice_get self.now k ≡ Some result.now }
    {
        &self.items[k]
    }
}

/// A complete run.
#[derive(Drop)]
pub struct Finished {
    /// The basis.
    pub basis: Basis,
    /// The rows of the matrix as multiples of the basis rows, of which only the first are needed.
    pub from: Matrix,
    /// What was done with the pairs.
    pub events: Events,
    /// The syzygies.
    pub syzygies: Matrix,
    /// What each of them comes from.
    pub origins: Origins,
}

//! Operators.

ghost use Rattle.std.specs.Prelude.{◌≡◌, ◌≢◌, length, slice_get, OnOk, OnErr, IfOk, MatchOption, IsTrue, ◌↔◌, pos};
ghost use Rattle.ore_algebra.specs.Free.{empty_sum, single, plus, collect};
ghost use Rattle.ore_algebra.specs.Limits.{program};
ghost use Rattle.ore_rational.specs.Fraction.{whole};
ghost use Rattle.ore_rational.specs.Field.{rationals};
ghost use Rattle.ore_monomial.specs.Gives.{Turns};
ghost use Rattle.ore_monomial.specs.Monomial.{plain_cmp};
ghost use Rattle.ore_ring.specs.Lead.{IsLead};
ghost use Rattle.ore_ring.specs.Ordered.{Ordered};
ghost use Rattle.ore_ring.specs.Terms.{falling, IsFalling, IsBelowLast};
ghost use Rattle.ore_ring.specs.Merge.{opposite_terms};
ghost use Rattle.ore_ring.specs.Within.{plus_within, add_term_within, opposite};

use crate::fraction::sum;
use crate::place::{number_at, place, splice};
use ore_monomial::{Exps, NoMemory, Order, RingStop};
use ore_rational::Rational;
use std::alloc::Global;
use std::marker::Model;

/// An operator: its terms from the greatest down, by an order of monomials.
#[derive(Drop)]
pub struct Op {
    order: Order,
    terms: Vec<(Exps, Rational)>,
}

impl Model for Op {
    ghost use Rattle.ore_ring.specs.Ordered.{Ordered, ordered_code};

    ghost Value = { Ordered };

    ghost coded = { ordered_code };

    ghost use Rattle.ore_algebra.specs.Free.{collect};
    ghost use Rattle.ore_monomial.specs.Monomial.{plain_cmp};
    ghost use Rattle.ore_rational.specs.Field.{rationals};
    ghost use Rattle.ore_ring.specs.Terms.{IsFalling};

    ghost view = { λ a. record { by = a.order; sum = collect rationals plain_cmp a.terms.items } };

    ghost invariant = { λ a. IsFalling a.order a.terms.items };
}

impl Op {
    /// The operator zero. Terms that are added to it later take memory from `alloc`.
    pub fn zero(alloc: Global, order: Order) -> Op
        ensures { result ≡ record { by = order; sum = empty_sum rationals plain_cmp } }
    {
        Op {
            order,
            terms: Vec::new(alloc),
        }
    }

    /// One term. A coefficient of 0 gives the operator zero.
    pub fn term(alloc: Global, order: Order, exps: Exps, coef: Rational) -> Result<Op, NoMemory>
        ensures { IfOk result (λ f. f ≡ record { by = order; sum = single rationals plain_cmp exps coef }) }
    {
        if coef.is_zero() {
            return Ok(Op::zero(alloc, order));
        }
        let mut made = Op::with_capacity(alloc, order, 1)?;
        made.push(exps, coef)?;
        Ok(made)
    }

    // The operator zero, with room for so many terms.
    fn with_capacity(alloc: Global, order: Order, terms: usize) -> Result<Op, NoMemory>
        ensures { IfOk result (λ f. f ≡ record { by = order; sum = empty_sum rationals plain_cmp }) }
    {
        let terms = Vec::with_capacity(alloc, terms)?;
        Ok(Op { order, terms })
    }

    // The operator of falling terms.
    pub(crate) fn from_terms(order: Order, terms: Vec<(Exps, Rational)>) -> Op
        requires { IsFalling order terms.items }
        ensures { result ≡ record { by = order; sum = collect rationals plain_cmp terms.items } }
    {
        Op { order, terms }
    }

    /// The order of its monomials.
    pub fn order(&self) -> Order
        ensures { result ≡ self.now.by }
    {
        self.order
    }

    /// The number of its terms.
    pub fn len(&self) -> usize
        ensures { result ≡ length (falling self.now.by self.now.sum) }
    {
        self.terms.len()
    }

    /// Whether it has no term.
    pub fn is_zero(&self) -> bool
        ensures { IsTrue result ↔ self.now.sum ≡ empty_sum rationals plain_cmp }
    {
        self.terms.is_empty()
    }

    /// The term at place `k`, where the greatest term has place 0.
    pub fn get(&self, k: usize) -> Option<(Exps, Rational)>
        ensures { result ≡ slice_get (falling self.now.by self.now.sum) k }
    {
        if k < self.terms.len() {
            Some(self.terms[k])
        } else {
            None
        }
    }

    // The terms from the greatest down.
    pub(crate) fn terms(&self) -> &[(Exps, Rational)]
        ensures value { result.now ≡ falling self.now.by self.now.sum }
        ensures falls { IsFalling self.now.by result.now }
    {
        self.terms.as_slice()
    }

    /// Whether both have the same order and the same terms.
    pub fn equal(&self, other: &Op) -> bool
        ensures { IsTrue result ↔ self.now ≡ other.now }
    {
        self.order == other.order && self.terms == other.terms
    }

    /// Appends a term below all others.
    pub fn push(&mut self, exps: Exps, coef: Rational) -> Result<(), NoMemory>
        requires apart { coef ≢ whole (pos 0) }
        requires below { IsBelowLast self.old.by (falling self.old.by self.old.sum) exps }
        ensures ok { OnOk result (self.new ≡ record { by = self.old.by; sum = plus rationals plain_cmp self.old.sum (single rationals plain_cmp exps coef) }) }
        ensures err { OnErr result (self.new ≡ self.old) }
    {
        self.terms.push((exps, coef))?;
        Ok(())
    }

    /// Adds to the coefficient of one monomial. Where the sum is 0, the term goes.
    pub fn add_term(&mut self, exps: Exps, coef: Rational) -> Result<(), RingStop>
        ensures by { self.new.by ≡ self.old.by }
        ensures turns { Turns result self.new.sum (plus_within program self.old.sum (single rationals plain_cmp exps coef)) }
        ensures err { OnErr result (self.new ≡ self.old) }
    {
        if coef.is_zero() {
            return Ok(());
        }
        let k = place(self.order, &self.terms, &exps);
        splice(&mut self.terms, self.order, k, exps, coef)
    }

    // Adds a term, where the sum with the fraction at its monomial doesn't stop.
    pub(crate) fn add_number(&mut self, exps: Exps, coef: Rational) -> Result<(), RingStop>
        ensures by { self.new.by ≡ self.old.by }
        ensures turns { Turns result self.new.sum (add_term_within program self.old.sum exps coef) }
    {
        let k = place(self.order, &self.terms, &exps);
        sum(number_at(self.order, &self.terms, k, &exps), coef)?;
        if coef.is_zero() {
            return Ok(());
        }
        splice(&mut self.terms, self.order, k, exps, coef)
    }

    /// The operator with each fraction negated, in the memory of this one.
    pub fn negated(self) -> Op
        ensures by { result.by ≡ self.by }
        ensures sum { result.sum ≡ opposite self.sum }
    {
        let Op {
            order,
            terms: mut terms,
        } = self;
        negate(&mut terms);
        Op::from_terms(order, terms)
    }

    /// The same operator again.
    pub fn copy(&self, alloc: Global) -> Result<Op, NoMemory>
        ensures { IfOk result (λ f. f ≡ self.now) }
    {
        let mut terms = Vec::with_capacity(alloc, self.terms.len())?;
        terms.extend_from_slice(&self.terms)?;
        Ok(Op {
            order: self.order,
            terms,
        })
    }
}

// Negates each fraction.
fn negate(terms: &mut Vec<(Exps, Rational)>)
    ensures { terms.new.items ≡ opposite_terms terms.old.items }
{
    for term in terms.iter_mut() {
        term.1 = term.1.neg();
    }
}

/// The greatest term.
pub fn lead(op: &Op) -> Option<(Exps, Rational)>
    ensures { MatchOption result (op.now.sum ≡ empty_sum rationals plain_cmp) (λ t. IsLead rationals op.now.by op.now.sum t.0 t.1) }
{
    op.get(0)
}

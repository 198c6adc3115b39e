//! Sums of many terms in any order.

ghost use Rattle.std.specs.Prelude.{◌≡◌, IfOk};
ghost use Rattle.std.specs.BTreeMap.{is_at};
ghost use Rattle.std.specs.Cmp.Lexicographic.{slice_cmp};
ghost use Rattle.std.specs.Map.{lookup};
ghost use Rattle.std.specs.Ordering.{nat_cmp};
ghost use Rattle.ore_algebra.specs.Free.{empty_sum};
ghost use Rattle.ore_algebra.specs.Limits.{program};
ghost use Rattle.ore_rational.specs.Field.{rationals};
ghost use Rattle.ore_monomial.specs.Gives.{Turns};
ghost use Rattle.ore_monomial.specs.Monomial.{plain_cmp};
ghost use Rattle.ore_ring.specs.IsGathered.{number_of};
ghost use Rattle.ore_ring.specs.Within.{add_term_within};

use crate::fraction::sum;
use crate::merge::keep;
use crate::op::Op;
use ore_monomial::{Exps, NoMemory, Order, RingStop};
use ore_rational::Rational;
use std::alloc::Global;
use std::collections::BTreeMap;
use std::marker::Model;

/// An operator to which terms are added in any order.
///
/// A sorted map keeps them by the rank of the monomial, so that a term costs a descent of a tree.
#[derive(Drop)]
pub struct Gather {
    order: Order,
    map: BTreeMap<[u16; 13], (Exps, Rational)>,
}

impl Model for Gather {
    ghost use Rattle.ore_ring.specs.Ordered.{Ordered, ordered_code};

    ghost Value = { Ordered };

    ghost coded = { ordered_code };

    ghost use Rattle.ore_algebra.specs.Free.{collect};
    ghost use Rattle.ore_monomial.specs.Monomial.{plain_cmp};
    ghost use Rattle.ore_rational.specs.Field.{rationals};
    ghost use Rattle.ore_ring.specs.IsGathered.{IsGathered, keyed_terms};

    ghost view = { λ a. record { by = a.order; sum = collect rationals plain_cmp (keyed_terms a.map.entries) } };

    ghost invariant = { λ a. IsGathered a.order a.map.entries };
}

impl Gather {
    /// The operator zero.
    pub fn new(alloc: Global, order: Order) -> Gather
        ensures { result ≡ record { by = order; sum = empty_sum rationals plain_cmp } }
    {
        Gather {
            order,
            map: BTreeMap::new(alloc),
        }
    }

    /// Adds a term.
    pub fn add(&mut self, exps: Exps, coef: Rational) -> Result<(), RingStop>
        ensures by { self.new.by ≡ self.old.by }
        ensures turns { Turns result self.new.sum (add_term_within program self.old.sum exps coef) }
    {
        let key = exps.rank(self.order);
        let old = number_at(&self.map, &key);
        let s = sum(old, coef)?;
        self.map.insert(key, (exps, s))?;
        Ok(())
    }

    /// The operator.
    pub fn finish(self, alloc: Global) -> Result<Op, NoMemory>
        ensures { IfOk result (λ f. f ≡ self) }
    {
        let Gather { order, mut map } = self;
        let mut out = Vec::new(alloc);
        while let Some((_, t)) = map.pop_last() {
            keep(&mut out, t.0, t.1)?;
        }
        Ok(Op::from_terms(order, out))
    }
}

// The fraction at a key, 0 where there is empty_sum.
fn number_at(map: &BTreeMap<[u16; 13], (Exps, Rational)>, key: &[u16; 13]) -> Rational
    ensures { result ≡ number_of (lookup (is_at (slice_cmp nat_cmp key.now)) map.now.entries) }
{
    match map.get(key) {
        Some(t) => t.1,
        None => Rational::zero(),
    }
}

//! The queue of pairs that may be treated.

ghost use Rattle.std.specs.Prelude.{◌≡◌, ℕ, ◌+◌, ◌<◌, ◌||◌, ◌&&◌, ◌↔◌, List, [], length, nat_lt, IfOk, IfSome, IsSome, IsTrue};
ghost use Rattle.std.specs.BTreeSet.{btree_set_len, contains, IsLowerBound};
ghost use Rattle.std.specs.Ordering.{is_eq};
ghost use Rattle.ore_monomial.specs.Term.{Term};
ghost use Rattle.ore_pairs.specs.PairRule.{may_treat};
ghost use Rattle.ore_report.specs.Queue.{place_cmp, place_at, AreWaiting, IsQueue, IsFirst};
ghost use Rattle.ore_report.specs.declared.queue.QueuedPair.{QueuedPair as Seen};

use ore_leads::Leads;
use ore_monomial::{NoMemory, Order};
use ore_pairs::Listed;
use ore_pairs::multiples::common_multiple;
use ore_pairs::rule::may_treat;
use std::alloc::Global;
use std::cmp::Reverse;
use std::collections::BTreeSet;

/// Where a pair stands in the queue: by its common multiple and its column, and then by its rows.
#[derive(Clone, Copy, Debug, PartialEq, Eq, PartialOrd, Ord, Drop)]
pub struct QueuedPair {
    /// The common multiple has too great a degree. Then it isn't looked at.
    pub past: bool,
    /// Numbers that are ordered as common multiples are.
    pub rank: [u16; 13],
    /// The column of both leads. Of equal multiples that in the greater column is less.
    pub column: Reverse<usize>,
    /// The first row.
    pub first: usize,
    /// The second row.
    pub second: usize,
}

/// The pairs of the rows that have entered which may be treated, each by its place.
#[derive(Drop)]
pub struct Queue {
    /// The places.
    pub places: BTreeSet<QueuedPair>,
    /// How many rows have entered.
    pub rows: usize,
}

impl Queue {
    /// No row has entered.
    pub fn new(alloc: Global) -> Queue
        ensures places { result.places.keys ≡ [] }
        ensures rows { result.rows ≡ 0 }
    {
        Queue {
            places: BTreeSet::new(alloc),
            rows: 0,
        }
    }

    /// All rows enter, each with its pairs. Where memory is wanting, they begin anew at the next call.
    ///
    /// # Errors
    /// Want of memory.
    pub fn enter(&mut self, order: Order, leads: &Leads, listed: &Listed) -> Result<(), NoMemory>
        requires { IsQueue order leads.now listed.now self.old.rows self.old.places }
        ensures queue { IsQueue order leads.now listed.now self.new.rows self.new.places }
        ensures all { IfOk result (λ _. self.new.rows ≡ length leads.now) }
    {
        for j in self.rows..leads.len() {
            match add_row(&mut self.places, order, leads, listed, j) {
                Ok(()) => self.rows = j + 1,
                Err(refused) => {
                    self.places.clear();
                    self.rows = 0;
                    return Err(refused);
                }
            }
        }
        Ok(())
    }

    /// The place of the pair that comes next, if there is one.
    pub fn first(&self) -> Option<QueuedPair>
        ensures { (o : Order) (leads : List Term) (ps : List (ℕ × ℕ)) → IsQueue o leads ps self.now.rows self.now.places → self.now.rows ≡ length leads → IsFirst o leads ps result }
    {
        least(&self.places)
    }
}

// The least of some places, if there is one.
fn least(places: &BTreeSet<QueuedPair>) -> Option<QueuedPair>
    ensures some { IsSome result ↔ (0 < btree_set_len places.now) }
    ensures member { IfSome result (λ p. IsTrue (contains place_cmp places.now p)) }
    ensures least { IfSome result (IsLowerBound place_cmp places.now) }
{
    match places.first() {
        None => None,
        Some(place) => Some(*place),
    }
}

// The pairs of a row with those before it enter.
fn add_row(
    places: &mut BTreeSet<QueuedPair>,
    order: Order,
    leads: &Leads,
    listed: &Listed,
    j: usize,
) -> Result<(), NoMemory>
    requires inside { j < length leads.now }
    requires waiting { AreWaiting order leads.now listed.now (λ x y. nat_lt y j) places.old }
    ensures { IfOk result (λ _. AreWaiting order leads.now listed.now (λ x y. nat_lt y (j + 1)) places.new) }
{
    for i in 0..j {
        add_pair(places, order, leads, listed, i, j)?;
    }
    Ok(())
}

// The pair enters, if it may be treated.
fn add_pair(
    places: &mut BTreeSet<QueuedPair>,
    order: Order,
    leads: &Leads,
    listed: &Listed,
    i: usize,
    j: usize,
) -> Result<(), NoMemory>
    requires first { i < length leads.now }
    requires second { j < length leads.now }
    ensures { IfOk result (λ _. (p : Seen) → contains place_cmp places.new p ≡ (contains place_cmp places.old p || (may_treat leads.now listed.now i j && is_eq (place_cmp (place_at order leads.now i j) p)))) }
{
    if may_treat(leads, listed, i, j) {
        places.insert(place_of(order, leads, i, j))?;
    }
    Ok(())
}

// The place of a pair.
fn place_of(order: Order, leads: &Leads, i: usize, j: usize) -> QueuedPair
    requires first { i < length leads.now }
    requires second { j < length leads.now }
    ensures { result ≡ place_at order leads.now i j }
{
    match common_multiple(leads, i, j) {
        Ok(multiple) => QueuedPair {
            past: false,
            rank: multiple.rank(order),
            column: Reverse(leads.get(i).0),
            first: i,
            second: j,
        },
        Err(_) => QueuedPair {
            past: true,
            rank: [0; 13],
            column: Reverse(0),
            first: i,
            second: j,
        },
    }
}

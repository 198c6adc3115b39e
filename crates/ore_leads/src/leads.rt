//! A list of leads.

ghost use Rattle.std.specs.Prelude.{◌≡◌, ◌<◌, [], ◌∷◌, ◌++◌, length, slice_get, IfOk, IfErr};
ghost use Rattle.ore_leads.specs.FirstDivisor.{divides_term, first_divisor};

use ore_monomial::{Exps, NoMemory};
use std::alloc::Global;
use std::marker::Model;

// A monomial in a column.
#[derive(Drop)]
struct Lead {
    column: usize,
    exps: Exps,
}

impl Model for Lead {
    ghost use Rattle.ore_monomial.specs.Term.{Term};
    ghost use Rattle.ore_leads.specs.StoredLeads.{term_code};

    ghost Value = { Term };

    ghost coded = { term_code };

    ghost view = { λ a. record { monomial = a.exps; column = a.column } };
}

impl Lead {
    // Whether this term divides a term.
    fn divides(&self, column: usize, exps: &Exps) -> bool
        ensures { result ≡ divides_term self.now (record { monomial = exps.now; column = column }) }
    {
        self.column == column && self.exps.divides(exps)
    }
}

/// A list of leads: each is a monomial in a column, where the first column has number 0.
#[derive(Drop)]
pub struct Leads {
    items: Vec<Lead>,
}

impl Model for Leads {
    ghost use Rattle.std.specs.Prelude.{List};
    ghost use Rattle.ore_monomial.specs.Term.{Term};
    ghost use Rattle.ore_leads.specs.StoredLeads.{leads_code};

    ghost Value = { List Term };

    ghost coded = { leads_code };

    ghost view = { λ a. a.items.items };
}

impl Leads {
    /// No leads.
    pub fn new(alloc: Global) -> Leads
        ensures { result ≡ [] }
    {
        Leads {
            items: Vec::new(alloc),
        }
    }

    /// The number of leads.
    pub fn len(&self) -> usize
        ensures { result ≡ length self.now }
    {
        self.items.len()
    }

    /// One more lead, at the end.
    ///
    /// # Errors
    /// Want of memory. Then the list is the same as before.
    pub fn push(&mut self, column: usize, exps: Exps) -> Result<(), NoMemory>
        ensures pushed { IfOk result (λ _. self.new ≡ self.old ++ record { monomial = exps; column = column } ∷ []) }
        ensures kept { IfErr result (λ _. self.new ≡ self.old) }
    {
        self.items.push(Lead { column, exps })?;
        Ok(())
    }

    /// The column and the exponents of the lead at place `k`, which is below [`Leads::len`]; the first has place 0.
    pub fn get(&self, k: usize) -> (usize, Exps)
        requires { k < length self.now }
        ensures { slice_get self.now k ≡ Some (record { monomial = result.1; column = result.0 }) }
    {
        let lead = &self.items[k];
        (lead.column, lead.exps)
    }

    /// The least place, counted from 0, whose lead stands in this column and divides these exponents, if there is one.
    pub fn first_divisor(&self, column: usize, exps: &Exps) -> Option<usize>
        ensures { result ≡ first_divisor self.now (record { monomial = exps.now; column = column }) }
    {
        self.items
            .iter()
            .position(|lead| lead.divides(column, exps))
    }
}

#[cfg(test)]
mod tests;

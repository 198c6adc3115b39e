//! What a run has shown of its basis.

ghost use Rattle.std.specs.Prelude.{◌≡◌, ◌≢◌, [], IfOk};
ghost use Rattle.ore_algebra.specs.Lists.{BeginsWith};
ghost use Rattle.ore_groebner.specs.BasisLeads.{BeginsWithLeads, no_leads, order_of, basis_leads};
ghost use Rattle.ore_report.specs.ChainRule.{order_shown};
ghost use Rattle.ore_rows.specs.Reduction.{leads_of};

use ore_leads::Leads;
use ore_monomial::{NoMemory, Order};
use ore_rows::Basis;
use std::alloc::Global;
use std::marker::Model;

/// The order of monomials, where there is a row, and the leads of the rows.
#[derive(Drop)]
pub struct ShownLeads {
    order: Option<Order>,
    leads: Leads,
}

impl Model for ShownLeads {
    ghost use Rattle.ore_groebner.specs.BasisLeads.{BasisLeads};
    ghost use Rattle.ore_report.specs.Codes.{shown_code};

    ghost Value = { BasisLeads };

    ghost coded = { shown_code };

    ghost view = { λ a. record { order = a.order; leads = a.leads } };
}

impl ShownLeads {
    /// Nothing.
    pub fn new(alloc: Global) -> ShownLeads
        ensures { result ≡ no_leads }
    {
        ShownLeads {
            order: None,
            leads: Leads::new(alloc),
        }
    }

    /// A basis is shown that has grown since the last.
    ///
    /// # Errors
    /// Want of memory. Then some of the new leads may be shown.
    pub fn show(&mut self, basis: &Basis) -> Result<(), NoMemory>
        requires { BeginsWithLeads self.old basis.now }
        ensures shown { IfOk result (λ _. self.new ≡ basis_leads basis.now) }
        ensures grown { BeginsWith self.new.leads self.old.leads }
        ensures order { self.old.leads ≢ [] → self.new.order ≡ self.old.order }
    {
        add_leads(&mut self.leads, basis)?;
        self.order = order_of(basis);
        Ok(())
    }

    /// The order of monomials; the graded lexicographic order where none is shown.
    pub fn order(&self) -> Order
        ensures { result ≡ order_shown self.now }
    {
        match self.order {
            None => Order::DegLex,
            Some(order) => order,
        }
    }
}

// The leads that the basis has beyond these are added.
fn add_leads(leads: &mut Leads, basis: &Basis) -> Result<(), NoMemory>
    requires { BeginsWith (leads_of basis.now.items) leads.old }
    ensures added { IfOk result (λ _. leads.new ≡ leads_of basis.now.items) }
    ensures grown { BeginsWith leads.new leads.old }
{
    for k in leads.len()..basis.len() {
        let (column, exps) = basis.leads().get(k);
        leads.push(column, exps)?;
    }
    Ok(())
}

// The order of the first entry of the first row.
fn order_of(basis: &Basis) -> Option<Order>
    ensures { result ≡ order_of basis.now }
{
    if basis.len() == 0 {
        return None;
    }
    let row = basis.row(0);
    if row.len() == 0 {
        return None;
    }
    Some(row.entry(0).order())
}

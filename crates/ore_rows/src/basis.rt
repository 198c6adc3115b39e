//! A basis of rows, each with its cofactor row and its lead.

ghost use Rattle.std.specs.Prelude.{◌≡◌, ◌<◌, ◌^◌, [], ◌∷◌, ◌++◌, length, map, slice_get, IfOk, IfErr};
ghost use Rattle.ore_rational.specs.Field.{rationals};
ghost use Rattle.ore_monomial.specs.Term.{Term};
ghost use Rattle.ore_ring.specs.Belongs.{AllBelong};
ghost use Rattle.ore_rows.specs.Reduction.{basis_rows, cofactors_of, leads_of, basis_lead};
ghost use Rattle.ore_rows.specs.RowLead.{IsRowLead};
ghost use Rattle.ore_rows.specs.Stored.{sums_of};
ghost use Rattle.ore_rows.specs.StoredBasis.{HasLead, HaveLeads, HaveWidths};

use crate::lead::row_lead;
use crate::matrix::Matrix;
use crate::row::Row;
use ore_leads::Leads;
use ore_monomial::{Exps, NoMemory, Signature};
use std::alloc::Global;
use std::marker::Model;

// A row of a basis, and its cofactor row.
#[derive(Drop)]
struct BasisEntry {
    row: Row,
    cofactor: Row,
}

/// Rows of `cols` entries, each with a cofactor row of `width` entries and with its lead.
///
/// The type's invariant has these numbers of entries, and that each row has the noted lead, with the coefficient 1, by
/// the order that its entries carry (`HasLead` in `specs/StoredBasis.antt`). [`Basis::push`] asks it of its row, and
/// [`Basis::cols`] and [`Basis::row`] tell it of all rows and of one.
#[derive(Drop)]
pub struct Basis {
    cols: usize,
    width: usize,
    items: Vec<BasisEntry>,
    leads: Leads,
}

impl Model for Basis {
    ghost use Rattle.ore_rows.specs.StoredBasis.{StoredBasis, basis_code, with_leads, IsStoredBasis};

    ghost Value = { StoredBasis };

    ghost coded = { basis_code };

    ghost view = { λ a. record { cols = a.cols; width = a.width; items = with_leads a.items.items a.leads } };

    ghost invariant = { λ a. IsStoredBasis a.cols a.width a.items.items a.leads };
}

impl Basis {
    /// The basis without rows, for rows of `cols` and cofactor rows of `width` entries.
    pub fn new(alloc: Global, cols: usize, width: usize) -> Basis
        ensures { result ≡ record { cols = cols; width = width; items = [] } }
    {
        Basis {
            cols,
            width,
            items: Vec::new(alloc),
            leads: Leads::new(alloc),
        }
    }

    /// The number of rows.
    pub fn len(&self) -> usize
        ensures value { result ≡ length self.now.items }
        ensures few { result < 2 ^ 63 }
    {
        self.items.len()
    }

    /// The number of entries of each row.
    pub fn cols(&self) -> usize
        ensures value { result ≡ self.now.cols }
        ensures widths { HaveWidths self.now.cols self.now.width self.now.items }
        ensures leads { HaveLeads self.now.items }
    {
        self.cols
    }

    /// The number of entries of each cofactor row.
    pub fn width(&self) -> usize
        ensures { result ≡ self.now.width }
    {
        self.width
    }

    /// The row at place `k`, which is below [`Basis::len`]; the first has place 0.
    pub fn row(&self, k: usize) -> &Row
        requires { k < length self.now.items }
        ensures value { slice_get (basis_rows self.now.items) k ≡ Some result.now }
        ensures width { length result.now ≡ self.now.cols }
        ensures lead { HasLead result.now (basis_lead self.now.items k) }
    {
        let entry = &self.items[k];
        &entry.row
    }

    /// The cofactor row at place `k`, which is below [`Basis::len`]; the first has place 0.
    pub fn cofactor(&self, k: usize) -> &Row
        requires { k < length self.now.items }
        ensures value { slice_get (cofactors_of self.now.items) k ≡ Some result.now }
        ensures width { length result.now ≡ self.now.width }
    {
        let entry = &self.items[k];
        &entry.cofactor
    }

    /// The rows and the cofactor rows, in order, as two matrices.
    ///
    /// # Errors
    /// Want of memory.
    pub fn into_matrices(self, alloc: Global) -> Result<(Matrix, Matrix), NoMemory>
        requires few_cols { self.cols < 2 ^ 63 }
        requires few_cofactors { self.width < 2 ^ 63 }
        ensures rows { IfOk result (λ p. p.0 ≡ record { cols = self.cols; rows = basis_rows self.items }) }
        ensures cofactors { IfOk result (λ p. p.1 ≡ record { cols = self.width; rows = cofactors_of self.items }) }
    {
        let (rows, cofactors) = parted(alloc, self.items)?;
        Ok((
            Matrix::from_rows(self.cols, rows),
            Matrix::from_rows(self.width, cofactors),
        ))
    }

    /// The leads of the rows, in order.
    pub fn leads(&self) -> &Leads
        ensures { result.now ≡ leads_of self.now.items }
    {
        &self.leads
    }

    /// One more row with its cofactor row, at the end; its lead is found and kept.
    ///
    /// The row has [`Basis::cols`] entries and the cofactor row [`Basis::width`], all of the signature, and the lead
    /// coefficient of the row is 1.
    ///
    /// # Errors
    /// Want of memory. Then the basis is the same as before, and both rows are dropped.
    pub fn push(&mut self, sig: &Signature, row: Row, cofactor: Row) -> Result<(), NoMemory>
        requires row_width { length row ≡ self.old.cols }
        requires cofactor_width { length cofactor ≡ self.old.width }
        requires row_of { AllBelong sig.now row }
        requires cofactor_of { AllBelong sig.now cofactor }
        requires monic { (t : Term) × IsRowLead rationals sig.now.order (sums_of row) t rationals.one }
        ensures pushed { IfOk result (λ _. (t : Term) × IsRowLead rationals sig.now.order (sums_of row) t rationals.one × (self.new ≡ record self.old { items = self.old.items ++ record { row = row; cofactor = cofactor; lead = t } ∷ [] })) }
        ensures kept { IfErr result (λ _. self.new ≡ self.old) }
    {
        let (column, exps) = monic_lead(sig, &row);
        self.items.push(BasisEntry { row, cofactor })?;
        match self.leads.push(column, exps) {
            Ok(()) => Ok(()),
            Err(refused) => {
                self.items.pop();
                Err(refused)
            }
        }
    }
}

// The rows of some entries, and their cofactor rows.
fn parted(alloc: Global, entries: Vec<BasisEntry>) -> Result<(Vec<Row>, Vec<Row>), NoMemory>
    ensures rows { IfOk result (λ p. p.0.items ≡ map (λ e. e.row) entries.items) }
    ensures cofactors { IfOk result (λ p. p.1.items ≡ map (λ e. e.cofactor) entries.items) }
{
    let mut rows = Vec::with_capacity(alloc, entries.len())?;
    let mut cofactors = Vec::with_capacity(alloc, entries.len())?;
    for entry in entries {
        rows.push(entry.row)?;
        cofactors.push(entry.cofactor)?;
    }
    Ok((rows, cofactors))
}

// The lead of a row whose lead coefficient is 1.
fn monic_lead(sig: &Signature, row: &Row) -> (usize, Exps)
    requires row_of { AllBelong sig.now row.now }
    requires monic { (t : Term) × IsRowLead rationals sig.now.order (sums_of row.now) t rationals.one }
    ensures { IsRowLead rationals sig.now.order (sums_of row.now) (record { monomial = result.1; column = result.0 }) rationals.one }
{
    let Some(found) = row_lead(sig, row) else {
        unreachable!()
    };
    (found.0, found.1)
}

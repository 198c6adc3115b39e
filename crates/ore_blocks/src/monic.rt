//! The leads of a basis, and rows without a lead.

ghost use Rattle.std.specs.Prelude.{◌≡◌, length, IfOk, IfSome};
ghost use Rattle.std.specs.List.{All};
ghost use Rattle.ore_rational.specs.Field.{rationals};
ghost use Rattle.ore_monomial.specs.Signature.{MonomialOf};
ghost use Rattle.ore_ring.specs.Belongs.{AllBelong};
ghost use Rattle.ore_rows.specs.RowLead.{row_lead};
ghost use Rattle.ore_rows.specs.Stored.{rows_of, sums_of};
ghost use Rattle.ore_blocks.specs.CheckBlock.{monic_leads, are_zero};
ghost use Rattle.ore_blocks.specs.Conditions.{found, is_none};
ghost use Rattle.ore_blocks.specs.InnerContracts.{lead_of};
ghost use Rattle.ore_blocks.specs.Judging.{Judges};
ghost use Rattle.ore_blocks.specs.PlaceConditions.{is_reduced, monic_lead};
ghost use Rattle.ore_algebra.specs.Limits.{program};

use crate::place::{Name, Place, Section};
use crate::reason::Reason;
use crate::refusal::Refusal;
use ore_leads::Leads;
use ore_monomial::{Exps, Signature};
use ore_rational::Rational;
use ore_rows::{Matrix, Row, row_lead};
use std::alloc::Global;

/// The leads of the basis rows of a section. Their coefficients are 1.
///
/// # Errors
/// The place of the first row that is zero, or whose lead coefficient isn't 1; and want of memory.
pub fn monic_leads(
    alloc: Global,
    sig: &Signature,
    section: Section,
    basis: &Matrix,
) -> Result<Leads, Refusal>
    requires of { All (AllBelong sig.now) basis.now.rows }
    ensures judges { Judges (λ l. l) result (monic_leads sig.now.order section 0 (rows_of basis.now)) }
    ensures of { IfOk result (All (λ t. MonomialOf sig.now t.monomial)) }
    ensures count { IfOk result (λ l. length l ≡ length basis.now.rows) }
{
    let mut leads = Leads::new(alloc);
    for k in 0..basis.rows() {
        let lead = basis_lead(sig, Place::Row(section, Name::Basis, k), basis.row(k))?;
        leads.push(lead.0, lead.1)?;
    }
    Ok(leads)
}

// The lead of the basis row at a place.
fn basis_lead(sig: &Signature, place: Place, row: &Row) -> Result<(usize, Exps), Refusal>
    requires { AllBelong sig.now row.now }
    ensures judges { Judges (λ t. record { monomial = t.1; column = t.0 }) result (found place Reason.NotMonic (monic_lead sig.now.order (sums_of row.now))) }
    ensures of { IfOk result (λ t. MonomialOf sig.now t.1) }
{
    match monic_lead(sig, row) {
        Some(lead) => Ok(lead),
        None => Err(Refusal::Fails {
            place,
            reason: Reason::NotMonic,
        }),
    }
}

// The lead of a row whose lead coefficient is 1.
fn monic_lead(sig: &Signature, row: &Row) -> Option<(usize, Exps)>
    requires { AllBelong sig.now row.now }
    ensures lead { lead_of result ≡ monic_lead sig.now.order (sums_of row.now) }
    ensures of { IfSome result (λ t. MonomialOf sig.now t.1) }
{
    let Some(found) = row_lead(sig, row) else {
        return None
    };
    if found.2 == Rational::one() {
        Some((found.0, found.1))
    } else {
        None
    }
}

/// Whether a row has a lead that no lead of a basis divides.
pub fn is_reduced(sig: &Signature, leads: &Leads, row: &Row) -> bool
    requires { AllBelong sig.now row.now }
    ensures { result ≡ is_reduced program sig.now leads.now (sums_of row.now) }
{
    match row_lead(sig, row) {
        Some(found) => leads.first_divisor(found.0, &found.1).is_none(),
        None => false,
    }
}

/// Whether each row is zero.
pub fn are_zero(sig: &Signature, m: &Matrix) -> bool
    ensures { result ≡ are_zero program sig.now (rows_of m.now) }
{
    for k in 0..m.rows() {
        if !is_zero(sig, m.row(k)) {
            return false;
        }
    }
    true
}

/// Whether a row has no lead.
pub fn is_zero(sig: &Signature, row: &Row) -> bool
    ensures { result ≡ is_none (row_lead rationals sig.now.order (sums_of row.now)) }
{
    let _sig = sig;
    row.is_zero()
}

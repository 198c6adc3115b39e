//! Rows that some rows times a matrix should be.

ghost use Rattle.std.specs.Prelude.{◌≡◌, length, IfOk};
ghost use Rattle.std.specs.List.{All};
ghost use Rattle.ore_algebra.specs.Limits.{program};
ghost use Rattle.ore_monomial.specs.Signature.{MonomialOf};
ghost use Rattle.ore_ring.specs.Belongs.{AllBelong};
ghost use Rattle.ore_rows.specs.Stored.{rows_of, sums_of};
ghost use Rattle.ore_blocks.specs.CheckBlock.{rows_give, row_matrix_of, check_basis, check_to};
ghost use Rattle.ore_blocks.specs.Judging.{Judges};
ghost use Rattle.ore_blocks.specs.PlaceConditions.{row_gives};

use crate::equal::are_same;
use crate::formed::combined;
use crate::monic::monic_leads;
use crate::place::{Name, Place, Section};
use crate::reason::Reason;
use crate::refusal::{Refusal, required};
use ore_leads::Leads;
use ore_ring::OreRing;
use ore_rows::{Matrix, Row};
use std::alloc::Global;

/// The basis of a block, and then the rows of `from`, which times the basis are those of `a`. The leads of the basis.
///
/// # Errors
/// The first place whose condition fails, or of which an operation stops; and want of memory.
#[tactic(auto, using(crate::proofs::Refusals::refuses_on), unfolding(crate::specs::CheckBlock::check_basis))]
pub fn check_basis<R: OreRing>(
    ring: &R,
    alloc: Global,
    a: &Matrix,
    section: Section,
    basis: &Matrix,
    from: &Matrix,
) -> Result<Leads, Refusal>
    requires a_of { All (AllBelong (R.sig ring.now)) a.now.rows }
    requires basis_of { All (AllBelong (R.sig ring.now)) basis.now.rows }
    requires from_of { All (AllBelong (R.sig ring.now)) from.now.rows }
    ensures judges { Judges (λ l. l) result (check_basis program (R.sig ring.now) (row_matrix_of a.now) section (row_matrix_of basis.now) (row_matrix_of from.now)) }
    ensures of { IfOk result (All (λ t. MonomialOf (R.sig ring.now) t.monomial)) }
    ensures count { IfOk result (λ l. length l ≡ length basis.now.rows) }
    ensures cols { IfOk result (λ _. basis.now.cols ≡ a.now.cols) }
    ensures from_rows { IfOk result (λ _. length from.now.rows ≡ length a.now.rows) }
    ensures from_cols { IfOk result (λ _. from.now.cols ≡ length basis.now.rows) }
{
    required(
        Place::Header(section, Name::Basis),
        Reason::Shape,
        basis.cols() == a.cols(),
    )?;
    let leads = monic_leads(alloc, ring.signature(), section, basis)?;
    required(
        Place::Header(section, Name::From),
        Reason::Shape,
        from.rows() == a.rows() && from.cols() == basis.rows(),
    )?;
    rows_give(
        ring,
        alloc,
        Reason::FromRow,
        basis,
        section,
        Name::From,
        from,
        a,
    )?;
    Ok(leads)
}

/// The rows of `to` of a block, which times `a` are those of the basis.
///
/// # Errors
/// The first place whose condition fails, or of which an operation stops; and want of memory.
#[tactic(auto, using(crate::proofs::Refusals::refuses_on), unfolding(crate::specs::CheckBlock::check_to))]
pub fn check_to<R: OreRing>(
    ring: &R,
    alloc: Global,
    a: &Matrix,
    section: Section,
    basis: &Matrix,
    to: &Matrix,
) -> Result<(), Refusal>
    requires a_of { All (AllBelong (R.sig ring.now)) a.now.rows }
    requires basis_of { All (AllBelong (R.sig ring.now)) basis.now.rows }
    requires to_of { All (AllBelong (R.sig ring.now)) to.now.rows }
    ensures judges { Judges (λ u. u) result (check_to program (R.sig ring.now) (row_matrix_of a.now) section (row_matrix_of basis.now) (row_matrix_of to.now)) }
    ensures to_rows { IfOk result (λ _. length to.now.rows ≡ length basis.now.rows) }
    ensures to_cols { IfOk result (λ _. to.now.cols ≡ length a.now.rows) }
{
    required(
        Place::Header(section, Name::To),
        Reason::Shape,
        to.rows() == basis.rows() && to.cols() == a.rows(),
    )?;
    rows_give(ring, alloc, Reason::ToRow, a, section, Name::To, to, basis)
}

/// Each row of the matrix with a name times `m` is the row that is wanted; else that is the reason. There are as many
/// rows as wanted ones, and `m` has a row for each of their columns.
///
/// # Errors
/// The first place whose condition fails, or of which an operation stops; and want of memory.
pub fn rows_give<R: OreRing>(
    ring: &R,
    alloc: Global,
    reason: Reason,
    m: &Matrix,
    section: Section,
    name: Name,
    rows: &Matrix,
    wanted: &Matrix,
) -> Result<(), Refusal>
    requires fits { rows.now.cols ≡ length m.now.rows }
    requires count { length rows.now.rows ≡ length wanted.now.rows }
    requires m_of { All (AllBelong (R.sig ring.now)) m.now.rows }
    requires rows_of { All (AllBelong (R.sig ring.now)) rows.now.rows }
    requires wanted_of { All (AllBelong (R.sig ring.now)) wanted.now.rows }
    ensures { Judges (λ u. u) result (rows_give program (R.sig ring.now) reason m.now.cols (rows_of m.now) section name 0 (rows_of rows.now) (rows_of wanted.now)) }
{
    for k in 0..rows.rows() {
        row_gives(
            ring,
            alloc,
            reason,
            m,
            Place::Row(section, name, k),
            rows.row(k),
            wanted.row(k),
        )?;
    }
    Ok(())
}

// A row times `m` is the row that is wanted.
#[tactic(auto, using(crate::proofs::Refusals::refuses_on), unfolding(crate::specs::PlaceConditions::row_gives))]
fn row_gives<R: OreRing>(
    ring: &R,
    alloc: Global,
    reason: Reason,
    m: &Matrix,
    place: Place,
    row: &Row,
    wanted: &Row,
) -> Result<(), Refusal>
    requires fits { length row.now ≡ length m.now.rows }
    requires m_of { All (AllBelong (R.sig ring.now)) m.now.rows }
    requires row_of { AllBelong (R.sig ring.now) row.now }
    requires wanted_of { AllBelong (R.sig ring.now) wanted.now }
    ensures { Judges (λ u. u) result (row_gives program (R.sig ring.now) reason m.now.cols (rows_of m.now) place (sums_of row.now) (sums_of wanted.now)) }
{
    let product = combined(ring, alloc, place, row, m)?;
    required(place, reason, are_same(ring, &product, wanted))
}

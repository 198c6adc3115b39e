//! The first basis of a run.

ghost use Rattle.std.specs.Prelude.{◌≡◌, ◌≤◌, ◌<◌, ◌+◌, ◌++◌, ◌∷◌, [], length, map, IfOk, IfErr};
ghost use Rattle.std.specs.List.{All};
ghost use Rattle.ore_algebra.specs.Limits.{program};
ghost use Rattle.ore_rational.specs.Field.{rationals, rational_inverses};
ghost use Rattle.ore_monomial.specs.Gives.{Gives};
ghost use Rattle.ore_monomial.specs.Term.{Term};
ghost use Rattle.ore_ring.specs.Belongs.{AllBelong};
ghost use Rattle.ore_rows.specs.Arithmetic.{within};
ghost use Rattle.ore_rows.specs.RowLead.{IsRowLead};
ghost use Rattle.ore_rows.specs.Rows as rows;
ghost use Rattle.ore_pairs.specs.Run as run;
ghost use Rattle.ore_rows.specs.Stored.{IsZeroRow, rows_of, sums_of};
ghost use Rattle.ore_rows.specs.declared.choices.Origin.TheVariants as origins;
ghost use Rattle.ore_groebner.specs.RunProgress.{run_state, with_basis_row, IsBegun, IsProgressOf, HasWidthsOf};

use crate::monic::push_monic;
use crate::progress::Progress;
use ore_monomial::{NoMemory, RingStop, Signature};
use ore_pairs::Listed;
use ore_rational::Rational;
use ore_ring::OreRing;
use ore_rows::{Basis, Matrix, Origin, Row, row_lead, unit_row};
use std::alloc::Global;

/// The state before the first choice: each row of the matrix made monic, with its unit row for its cofactor row;
/// the unit row of a row that is zero is a syzygy.
///
/// # Errors
/// The stop of the first product that stops, and want of memory.
pub fn begin<R: OreRing>(ring: &R, alloc: Global, a: &Matrix) -> Result<Progress, RingStop>
    requires { All (AllBelong (R.sig ring.now)) a.now.rows }
    ensures gives { Gives run_state result (run.begin rationals rational_inverses (R.sig ring.now).order (within program (R.sig ring.now)) (rows_of a.now)) }
    ensures fits { IfOk result (IsProgressOf (R.sig ring.now)) }
    ensures begun { IfOk result IsBegun }
    ensures cols { IfOk result (λ p. p.basis.cols ≡ a.now.cols) }
    ensures width { IfOk result (λ p. p.basis.width ≡ length a.now.rows) }
    ensures first { IfOk result (λ p. (p.first ≡ length p.basis.items) × (p.first ≤ length a.now.rows)) }
{
    let mut progress = Progress {
        first: 0,
        basis: Basis::new(alloc, a.cols(), a.rows()),
        listed: Listed::new(alloc),
        events: Vec::new(alloc),
        syzygies: Vec::new(alloc),
        origins: Vec::new(alloc),
    };
    for k in 0..a.rows() {
        progress = begin_row(ring, alloc, progress, a.row(k), k)?;
    }
    Ok(progress)
}

// What the row at place `k` adds to the first basis and its syzygies.
fn begin_row<R: OreRing>(
    ring: &R,
    alloc: Global,
    progress: Progress,
    row: &Row,
    k: usize,
) -> Result<Progress, RingStop>
    requires row_width { length row.now ≡ progress.basis.cols }
    requires row_of { AllBelong (R.sig ring.now) row.now }
    requires fits { IsProgressOf (R.sig ring.now) progress }
    requires begun { IsBegun progress }
    ensures gives { Gives run_state result (run.begin_row rationals rational_inverses (R.sig ring.now).order (within program (R.sig ring.now)) progress.basis.width k (sums_of row.now) (run_state progress)) }
    ensures fits { IfOk result (IsProgressOf (R.sig ring.now)) }
    ensures begun { IfOk result IsBegun }
    ensures widths { IfOk result (HasWidthsOf progress) }
    ensures count { IfOk result (λ p. length p.basis.items ≤ length progress.basis.items + 1) }
{
    let unit = unit_row(alloc, ring.signature(), progress.basis.width(), k)?;
    match row_lead(ring.signature(), row) {
        None => Ok(begin_zero(ring.signature(), progress, unit, k)?),
        Some(found) => begin_monic(ring, alloc, progress, row, &unit, found.2),
    }
}

// The unit row of a row that is zero is a syzygy.
fn begin_zero(
    sig: &Signature,
    progress: Progress,
    unit: Row,
    k: usize,
) -> Result<Progress, NoMemory>
    requires width { length unit ≡ progress.basis.width }
    requires of { AllBelong sig.now unit }
    requires fits { IsProgressOf sig.now progress }
    requires begun { IsBegun progress }
    ensures state { IfOk result (λ p. run_state p ≡ record (run_state progress) { syzygies = (run_state progress).syzygies ++ sums_of unit ∷ []; origins = (run_state progress).origins ++ origins.ZeroRow k ∷ [] }) }
    ensures fits { IfOk result (IsProgressOf sig.now) }
    ensures begun { IfOk result IsBegun }
    ensures widths { IfOk result (HasWidthsOf progress) }
    ensures basis { IfOk result (λ p. p.basis ≡ progress.basis) }
{
    let _ = sig;
    let mut grown = progress;
    grown.syzygies.push(unit)?;
    grown.origins.push(Origin::ZeroRow(k))?;
    Ok(grown)
}

// A row that isn't zero is made monic, and stands next in the basis.
fn begin_monic<R: OreRing>(
    ring: &R,
    alloc: Global,
    progress: Progress,
    row: &Row,
    unit: &Row,
    coef: Rational,
) -> Result<Progress, RingStop>
    requires lead { (t : Term) × IsRowLead rationals (R.sig ring.now).order (sums_of row.now) t coef }
    requires row_width { length row.now ≡ progress.basis.cols }
    requires unit_width { length unit.now ≡ progress.basis.width }
    requires row_of { AllBelong (R.sig ring.now) row.now }
    requires unit_of { AllBelong (R.sig ring.now) unit.now }
    requires fits { IsProgressOf (R.sig ring.now) progress }
    requires begun { IsBegun progress }
    ensures gives { (t : Term) → IsRowLead rationals (R.sig ring.now).order (sums_of row.now) t coef → Gives run_state result (with_basis_row (run_state progress) (run.monic_multiple rationals rational_inverses (within program (R.sig ring.now)) (sums_of row.now) (sums_of unit.now) t)) }
    ensures fits { IfOk result (IsProgressOf (R.sig ring.now)) }
    ensures begun { IfOk result IsBegun }
    ensures widths { IfOk result (HasWidthsOf progress) }
    ensures count { IfOk result (λ p. length p.basis.items ≡ length progress.basis.items + 1) }
{
    let Progress {
        first: _,
        basis,
        listed,
        events,
        syzygies,
        origins,
    } = progress;
    let basis = push_monic(ring, alloc, basis, row, unit, coef)?;
    let first = basis.len();
    Ok(Progress {
        first,
        basis,
        listed,
        events,
        syzygies,
        origins,
    })
}

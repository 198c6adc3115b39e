//! What a run has made so far.

ghost use Rattle.std.specs.Prelude.{◌≡◌, ◌<◌, ◌∷◌, ◌++◌, length, map, IfOk, IfErr};
ghost use Rattle.ore_algebra.specs.Limits.{program};
ghost use Rattle.ore_rational.specs.Field.{rationals, rational_inverses};
ghost use Rattle.ore_monomial.specs.Gives.{Gives};
ghost use Rattle.ore_monomial.specs.Signature.{Signature as Lawful};
ghost use Rattle.ore_monomial.specs.Term.{Term};
ghost use Rattle.ore_ring.specs.Belongs.{AllBelong};
ghost use Rattle.ore_rows.specs.Arithmetic.{within};
ghost use Rattle.ore_rows.specs.Reduction.{basis_lead};
ghost use Rattle.ore_rows.specs.RowLead.{IsRowLead};
ghost use Rattle.ore_pairs.specs.PairRule.{HaveSamePairs};
ghost use Rattle.ore_pairs.specs.Run as run;
ghost use Rattle.ore_pairs.specs.PairList as pair;
ghost use Rattle.ore_rows.specs.Stored.{IsZeroRow, sums_of};
ghost use Rattle.ore_division.specs.StoredWork.{work_of};
ghost use Rattle.ore_groebner.specs.RunProgress.{run_state, IsProgressOf, HasShapeOf};
ghost use Rattle.ore_rows.specs.declared.choices.Choice.TheVariants as choices;

use crate::monic::push_monic;
use crate::outcome::{Event, Outcome};
use ore_division::{Reduced, reduce};
use ore_monomial::{NoMemory, RingStop, Signature};
use ore_pairs::{Listed, s_row};
use ore_rational::Rational;
use ore_ring::OreRing;
use ore_rows::{Basis, Origin, Row, row_lead};
use std::alloc::Global;

/// What a run has made so far.
#[derive(Drop)]
pub struct Progress {
    /// How many rows the first basis had.
    pub first: usize,
    /// The basis.
    pub basis: Basis,
    /// The pairs that were dealt with.
    pub listed: Listed,
    /// What was done with them, in order.
    pub events: Vec<Event>,
    /// The syzygies.
    pub syzygies: Vec<Row>,
    /// What each of them comes from.
    pub origins: Vec<Origin>,
}

/// What treating the pair of the rows at `i` and `j` makes of the progress.
///
/// # Errors
/// Degree where the common multiple of the leads has too great a degree, else the stop of the first product or
/// difference that stops, and want of memory.
pub fn treat<R: OreRing>(
    ring: &R,
    alloc: Global,
    progress: Progress,
    i: usize,
    j: usize,
) -> Result<Progress, RingStop>
    requires ordered { i < j }
    requires inside { j < length progress.basis.items }
    requires columns { (basis_lead progress.basis.items i).column ≡ (basis_lead progress.basis.items j).column }
    requires fits { IsProgressOf (R.sig ring.now) progress }
    ensures gives { Gives run_state result (run.treat rationals rational_inverses (R.sig ring.now).order (within program (R.sig ring.now)) (run_state progress) i j) }
    ensures fits { IfOk result (IsProgressOf (R.sig ring.now)) }
    ensures shape { IfOk result (HasShapeOf progress (choices.Treat i j)) }
    ensures listed { IfOk result (λ p. HaveSamePairs p.listed ((i, j) ∷ progress.listed)) }
{
    let (row, cofactor) = s_row(ring, alloc, &progress.basis, i, j)?;
    let work = reduce(ring, alloc, &progress.basis, row, cofactor)?;
    add_remainder(ring, alloc, progress, i, j, work)
}

/// The pair of the rows at `i` and `j` is skipped by way of the row at `via`.
///
/// # Errors
/// Want of memory.
pub fn skip(progress: Progress, i: usize, j: usize, via: usize) -> Result<Progress, NoMemory>
    requires { i < j }
    ensures state { IfOk result (λ p. run_state p ≡ record (run_state progress) { listed = run.entries_with rationals (run_state progress) (pair.Skip i j via) }) }
    ensures fits { IfOk result (λ p. (s : Lawful) → IsProgressOf s progress → IsProgressOf s p) }
    ensures shape { IfOk result (HasShapeOf progress (choices.Skip i j via)) }
    ensures listed { IfOk result (λ p. HaveSamePairs p.listed ((i, j) ∷ progress.listed)) }
{
    let mut grown = progress;
    grown.listed.add(i, j)?;
    grown.events.push(Event::Skipped { i, j, via })?;
    Ok(grown)
}

// What is left of the S-row of a pair is a basis row, or its cofactor row is a syzygy.
fn add_remainder<R: OreRing>(
    ring: &R,
    alloc: Global,
    progress: Progress,
    i: usize,
    j: usize,
    work: Reduced,
) -> Result<Progress, RingStop>
    requires ordered { i < j }
    requires fits { IsProgressOf (R.sig ring.now) progress }
    requires row_width { length work.row ≡ progress.basis.cols }
    requires cofactor_width { length work.cofactor ≡ progress.basis.width }
    requires row_of { AllBelong (R.sig ring.now) work.row }
    requires cofactor_of { AllBelong (R.sig ring.now) work.cofactor }
    ensures gives { Gives run_state result (run.with_remainder rationals rational_inverses (R.sig ring.now).order (within program (R.sig ring.now)) (run_state progress) i j (work_of work)) }
    ensures fits { IfOk result (IsProgressOf (R.sig ring.now)) }
    ensures shape { IfOk result (HasShapeOf progress (choices.Treat i j)) }
    ensures listed { IfOk result (λ p. HaveSamePairs p.listed ((i, j) ∷ progress.listed)) }
{
    match row_lead(ring.signature(), &work.row) {
        None => Ok(add_syzygy(ring.signature(), progress, i, j, work)?),
        Some(found) => add_row(ring, alloc, progress, i, j, work, found.2),
    }
}

// Nothing is left of the S-row: its cofactor row is a syzygy, unless it is zero.
fn add_syzygy(
    sig: &Signature,
    progress: Progress,
    i: usize,
    j: usize,
    work: Reduced,
) -> Result<Progress, NoMemory>
    requires ordered { i < j }
    requires left { IsZeroRow work.row }
    requires fits { IsProgressOf sig.now progress }
    requires cofactor_width { length work.cofactor ≡ progress.basis.width }
    requires cofactor_of { AllBelong sig.now work.cofactor }
    ensures state { IfOk result (λ p. run_state p ≡ run.with_syzygy rationals sig.now.order (run_state progress) i j (work_of work)) }
    ensures fits { IfOk result (IsProgressOf sig.now) }
    ensures shape { IfOk result (HasShapeOf progress (choices.Treat i j)) }
    ensures listed { IfOk result (λ p. HaveSamePairs p.listed ((i, j) ∷ progress.listed)) }
{
    let Reduced {
        row: _,
        cofactor,
        steps,
    } = work;
    let origin = Origin::Event(progress.events.len());
    let mut grown = with_syzygy(sig, progress, cofactor, origin)?;
    grown.listed.add(i, j)?;
    grown.events.push(Event::Treated {
        i,
        j,
        steps,
        outcome: Outcome::Zero,
    })?;
    Ok(grown)
}

// The row, unless it is zero, is one more syzygy.
fn with_syzygy(
    sig: &Signature,
    progress: Progress,
    cofactor: Row,
    origin: Origin,
) -> Result<Progress, NoMemory>
    requires fits { IsProgressOf sig.now progress }
    requires width { length cofactor ≡ progress.basis.width }
    requires of { AllBelong sig.now cofactor }
    ensures syzygies { IfOk result (λ p. map sums_of p.syzygies.items ≡ map sums_of progress.syzygies.items ++ run.unless_zero rationals sig.now.order (sums_of cofactor)) }
    ensures fits { IfOk result (IsProgressOf sig.now) }
    ensures origins { IfOk result (λ p. p.origins.items ≡ progress.origins.items ++ map (λ _. origin) (run.unless_zero rationals sig.now.order (sums_of cofactor))) }
    ensures first { IfOk result (λ p. p.first ≡ progress.first) }
    ensures basis { IfOk result (λ p. p.basis ≡ progress.basis) }
    ensures listed { IfOk result (λ p. p.listed ≡ progress.listed) }
    ensures events { IfOk result (λ p. p.events.items ≡ progress.events.items) }
{
    let _ = sig;
    if cofactor.is_zero() {
        return Ok(progress);
    }
    let mut grown = progress;
    grown.syzygies.push(cofactor)?;
    grown.origins.push(origin)?;
    Ok(grown)
}

// What is left of the S-row, with the lead coefficient `coef`, is made monic and stands next in the basis.
fn add_row<R: OreRing>(
    ring: &R,
    alloc: Global,
    progress: Progress,
    i: usize,
    j: usize,
    work: Reduced,
    coef: Rational,
) -> Result<Progress, RingStop>
    requires ordered { i < j }
    requires fits { IsProgressOf (R.sig ring.now) progress }
    requires lead { (t : Term) × IsRowLead rationals (R.sig ring.now).order (sums_of work.row) t coef }
    requires row_width { length work.row ≡ progress.basis.cols }
    requires cofactor_width { length work.cofactor ≡ progress.basis.width }
    requires row_of { AllBelong (R.sig ring.now) work.row }
    requires cofactor_of { AllBelong (R.sig ring.now) work.cofactor }
    ensures gives { (t : Term) → IsRowLead rationals (R.sig ring.now).order (sums_of work.row) t coef → Gives run_state result (run.with_row rationals rational_inverses (within program (R.sig ring.now)) (run_state progress) i j (work_of work) t) }
    ensures fits { IfOk result (IsProgressOf (R.sig ring.now)) }
    ensures shape { IfOk result (HasShapeOf progress (choices.Treat i j)) }
    ensures listed { IfOk result (λ p. HaveSamePairs p.listed ((i, j) ∷ progress.listed)) }
{
    let Progress {
        first,
        basis,
        listed: mut listed,
        events: mut events,
        syzygies,
        origins,
    } = progress;
    let basis = push_monic(ring, alloc, basis, &work.row, &work.cofactor, coef)?;
    listed.add(i, j)?;
    events.push(Event::Treated {
        i,
        j,
        steps: work.steps,
        outcome: Outcome::NewRow { coef },
    })?;
    Ok(Progress {
        first,
        basis,
        listed,
        events,
        syzygies,
        origins,
    })
}

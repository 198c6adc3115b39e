//! Steps that are taken from a row, each at its place.

ghost use Rattle.std.specs.Prelude.{◌≡◌, ◌<◌, length, IfOk, IfSome};
ghost use Rattle.std.specs.List.{All};
ghost use Rattle.ore_algebra.specs.Limits.{program};
ghost use Rattle.ore_monomial.specs.Monomial.{degree};
ghost use Rattle.ore_monomial.specs.Signature.{MonomialOf};
ghost use Rattle.ore_monomial.specs.Term.{Term};
ghost use Rattle.ore_ring.specs.Belongs.{AllBelong};
ghost use Rattle.ore_rows.specs.Stored.{rows_of, sums_of};
ghost use Rattle.ore_parts.specs.OfSignature.{AreStoredStepsOf};
ghost use Rattle.ore_blocks.specs.CheckBlock.{check_steps, quotient_steps};
ghost use Rattle.ore_blocks.specs.Conditions.{formed};
ghost use Rattle.ore_blocks.specs.InnerContracts.{remainder_of};
ghost use Rattle.ore_blocks.specs.Judging.{Judges};
ghost use Rattle.ore_blocks.specs.PlaceConditions.{check_step, is_below, quotient_step, shifted};
ghost use Rattle.ore_pairs.specs.Steps.{lead_at};

use crate::formed::less_step_at;
use crate::monic::is_zero;
use crate::place::{Place, Section};
use crate::reason::Reason;
use crate::refusal::{Refusal, required};
use ore_leads::Leads;
use ore_monomial::{Exps, NoMemory, Order, compare};
use ore_ring::OreRing;
use ore_rows::{Matrix, Row, Step, Steps, row_copy};
use std::alloc::Global;
use std::cmp::Ordering;

/// The steps of the pair with a number, each below the common multiple in its column, leave nothing of a row, which
/// has an entry for each column of the basis. There is a lead for each basis row.
///
/// # Errors
/// The first place whose condition fails, or of which an operation stops; and want of memory.
pub fn check_steps<R: OreRing>(
    ring: &R,
    alloc: Global,
    basis: &Matrix,
    leads: &Leads,
    column: usize,
    multiple: &Exps,
    section: Section,
    pair: usize,
    row: Row,
    steps: &Steps,
) -> Result<(), Refusal>
    requires rows { length leads.now ≡ length basis.now.rows }
    requires width { length row ≡ basis.now.cols }
    requires basis_of { All (AllBelong (R.sig ring.now)) basis.now.rows }
    requires row_of { AllBelong (R.sig ring.now) row }
    requires steps_of { AreStoredStepsOf (R.sig ring.now) steps.now }
    ensures { Judges (λ u. u) result (check_steps program (R.sig ring.now) (rows_of basis.now) leads.now (record { monomial = multiple.now; column = column }) section pair 0 (sums_of row) steps.now) }
{
    let mut left = row;
    for n in 0..steps.len() {
        left = check_step(
            ring,
            alloc,
            basis,
            leads,
            column,
            multiple,
            Place::Pair(section, pair, n + 1),
            left,
            steps.get(n),
        )?;
    }
    required(
        Place::Pair(section, pair, steps.len()),
        Reason::Remainder,
        is_zero(ring.signature(), &left),
    )
}

// A step of a pair at its place: it is below the common multiple, and is taken from the row.
#[tactic(auto, using(crate::proofs::Refusals::refuses_on), unfolding(crate::specs::PlaceConditions::check_step))]
fn check_step<R: OreRing>(
    ring: &R,
    alloc: Global,
    basis: &Matrix,
    leads: &Leads,
    column: usize,
    multiple: &Exps,
    place: Place,
    row: Row,
    step: &Step,
) -> Result<Row, Refusal>
    requires rows { length leads.now ≡ length basis.now.rows }
    requires width { length row ≡ basis.now.cols }
    requires basis_of { All (AllBelong (R.sig ring.now)) basis.now.rows }
    requires row_of { AllBelong (R.sig ring.now) row }
    requires step_of { MonomialOf (R.sig ring.now) step.now.monomial }
    ensures judges { Judges sums_of result (check_step program (R.sig ring.now) (rows_of basis.now) leads.now (record { monomial = multiple.now; column = column }) place (sums_of row) step.now) }
    ensures of { IfOk result (AllBelong (R.sig ring.now)) }
    ensures width { IfOk result (λ r. length r ≡ basis.now.cols) }
{
    required(place, Reason::Step, step.index < leads.len())?;
    let lead = shifted(ring, leads, place, step)?;
    let order = ring.signature().order();
    required(
        place,
        Reason::StepTooHigh,
        is_below(order, &lead, column, multiple),
    )?;
    less_step_at(ring, alloc, place, basis, row, step)
}

// The lead that a step names, times the monomial of the step.
fn shifted<R: OreRing>(
    ring: &R,
    leads: &Leads,
    place: Place,
    step: &Step,
) -> Result<(usize, Exps), Refusal>
    requires { step.now.index < length leads.now }
    ensures { Judges (λ t. record { monomial = t.1; column = t.0 }) result (formed place (shifted program (R.sig ring.now) step.now.monomial (lead_at leads.now step.now.index))) }
{
    let _ring = ring;
    let lead = leads.get(step.index);
    match step.exps.plus(&lead.1) {
        Ok(product) => Ok((lead.0, product)),
        Err(_passed) => Err(Refusal::Degree { place }),
    }
}

// Whether a term is below another.
fn is_below(order: Order, term: &(usize, Exps), column: usize, exps: &Exps) -> bool
    ensures { result ≡ is_below order (record { monomial = term.now.1; column = term.now.0 }) (record { monomial = exps.now; column = column }) }
{
    match compare(order, &term.1, exps) {
        Ordering::Less => true,
        Ordering::Equal => column < term.0,
        Ordering::Greater => false,
    }
}

/// What the steps of an outside block leave of the row `w`, which has an entry for each column of the basis; none where
/// there is no step.
///
/// # Errors
/// The first place whose condition fails, or of which an operation stops; and want of memory.
pub fn quotient_steps<R: OreRing>(
    ring: &R,
    alloc: Global,
    basis: &Matrix,
    w: &Row,
    steps: &Steps,
) -> Result<Option<Row>, Refusal>
    requires width { length w.now ≡ basis.now.cols }
    requires basis_of { All (AllBelong (R.sig ring.now)) basis.now.rows }
    requires w_of { AllBelong (R.sig ring.now) w.now }
    requires steps_of { AreStoredStepsOf (R.sig ring.now) steps.now }
    ensures judges { Judges (λ o. sums_of (remainder_of o w.now)) result (quotient_steps program (R.sig ring.now) (rows_of basis.now) 0 (sums_of w.now) steps.now) }
    ensures of { IfOk result (λ o. IfSome o (AllBelong (R.sig ring.now))) }
{
    let mut left = None;
    for n in 0..steps.len() {
        let row = moved_remainder(ring, alloc, left, w)?;
        let step = steps.get(n);
        let next = quotient_step(ring, alloc, basis, Place::Step(n + 1), row, step)?;
        left = Some(next);
    }
    Ok(left)
}

/// What is left of the row `w`: the row itself before the first step.
pub fn remainder<'a>(left: &'a Option<Row>, w: &'a Row) -> &'a Row
    ensures { result.now ≡ remainder_of left.now w.now }
{
    match left {
        Some(row) => row,
        None => w,
    }
}

// What is left of the row `w`, moved out: a copy of the row itself before the first step.
fn moved_remainder<R: OreRing>(
    ring: &R,
    alloc: Global,
    left: Option<Row>,
    w: &Row,
) -> Result<Row, NoMemory>
    ensures { IfOk result (λ r. r ≡ remainder_of left w.now) }
{
    match left {
        Some(row) => Ok(row),
        None => match row_copy(ring, alloc, w) {
            Ok(row) => Ok(row),
            Err(_memory) => Err(NoMemory),
        },
    }
}

// A step of an outside block at its place.
#[tactic(auto, using(crate::proofs::Refusals::refuses_on), unfolding(crate::specs::PlaceConditions::quotient_step))]
fn quotient_step<R: OreRing>(
    ring: &R,
    alloc: Global,
    basis: &Matrix,
    place: Place,
    row: Row,
    step: &Step,
) -> Result<Row, Refusal>
    requires width { length row ≡ basis.now.cols }
    requires basis_of { All (AllBelong (R.sig ring.now)) basis.now.rows }
    requires row_of { AllBelong (R.sig ring.now) row }
    requires step_of { MonomialOf (R.sig ring.now) step.now.monomial }
    ensures judges { Judges sums_of result (quotient_step program (R.sig ring.now) (rows_of basis.now) place (sums_of row) step.now) }
    ensures of { IfOk result (AllBelong (R.sig ring.now)) }
    ensures width { IfOk result (λ r. length r ≡ basis.now.cols) }
{
    required(place, Reason::Step, step.index < basis.rows())?;
    less_step_at(ring, alloc, place, basis, row, step)
}

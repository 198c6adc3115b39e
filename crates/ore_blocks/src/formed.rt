//! Operations that a place calls for.

ghost use Rattle.std.specs.Prelude.{◌≡◌, ◌<◌, ◌≤◌, length, IfOk, IfErr};
ghost use Rattle.std.specs.List.{All};
ghost use Rattle.ore_algebra.specs.Limits.{program};
ghost use Rattle.ore_rational.specs.Field.{rationals};
ghost use Rattle.ore_monomial.specs.Gives.{Gives};
ghost use Rattle.ore_monomial.specs.Monomial.{degree};
ghost use Rattle.ore_monomial.specs.Signature.{MonomialOf};
ghost use Rattle.ore_monomial.specs.declared.stop.RingStop.TheVariants.{Memory};
ghost use Rattle.ore_ring.specs.Belongs.{AllBelong, Belongs};
ghost use Rattle.ore_rows.specs.Arithmetic.{within};
ghost use Rattle.ore_rows.specs.Reduction.{step_operator};
ghost use Rattle.ore_rows.specs.RowsWithin.{combine_within, row_difference_within, matrix_times_within};
ghost use Rattle.ore_rows.specs.Stored.{rows_of, sums_of};
ghost use Rattle.ore_pairs.specs.Steps.{lcm_of_leads, s_row_within};
ghost use Rattle.ore_parts.specs.OfSignature.{AreStoredStepsOf};
ghost use Rattle.ore_blocks.specs.Conditions.{formed};
ghost use Rattle.ore_blocks.specs.Judging.{Judges};
ghost use Rattle.ore_blocks.specs.PlaceConditions.{less_step, less_steps};

use crate::place::Place;
use crate::refusal::{Refusal, at_place};
use ore_leads::Leads;
use ore_monomial::RingStop;
use ore_pairs::multiples;
use ore_pairs::multiples::common_multiple;
use ore_ring::{Op, OreRing};
use ore_rows::{Matrix, Row, Step, Steps, combine, row_less, row_sub, times};
use std::alloc::Global;

/// A row times a matrix, at a place. The matrix has a row for each entry of the row.
///
/// # Errors
/// The stop of the first product or sum that stops, with the place; and want of memory.
#[tactic(auto, using(crate::proofs::Refusals::judged_at, crate::proofs::Refusals::kept_at))]
pub fn combined<R: OreRing>(
    ring: &R,
    alloc: Global,
    place: Place,
    c: &Row,
    m: &Matrix,
) -> Result<Row, Refusal>
    requires rows { length c.now ≡ length m.now.rows }
    requires c_of { AllBelong (R.sig ring.now) c.now }
    requires m_of { All (AllBelong (R.sig ring.now)) m.now.rows }
    ensures judges { Judges sums_of result (formed place (combine_within program (R.sig ring.now) m.now.cols (sums_of c.now) (rows_of m.now))) }
    ensures of { IfOk result (AllBelong (R.sig ring.now)) }
    ensures width { IfOk result (λ r. length r ≡ m.now.cols) }
{
    at_place(place, combine(ring, alloc, c, m))
}

/// The product of two matrices, at a place. The first has a column for each row of the second.
///
/// # Errors
/// The stop of the first row that stops, with the place; and want of memory.
#[tactic(auto, using(crate::proofs::Refusals::judged_at, crate::proofs::Refusals::kept_at))]
pub fn multiplied<R: OreRing>(
    ring: &R,
    alloc: Global,
    place: Place,
    a: &Matrix,
    b: &Matrix,
) -> Result<Matrix, Refusal>
    requires fits { a.now.cols ≡ length b.now.rows }
    requires a_of { All (AllBelong (R.sig ring.now)) a.now.rows }
    requires b_of { All (AllBelong (R.sig ring.now)) b.now.rows }
    ensures judges { Judges rows_of result (formed place (matrix_times_within program (R.sig ring.now) b.now.cols (rows_of a.now) (rows_of b.now))) }
    ensures of { IfOk result (λ m. All (AllBelong (R.sig ring.now)) m.rows) }
{
    at_place(place, times(ring, alloc, a, b))
}

/// A row less another of the same length, at a place.
///
/// # Errors
/// The stop of the first difference that stops, with the place; and want of memory.
#[tactic(auto, using(crate::proofs::Refusals::judged_at, crate::proofs::Refusals::kept_at))]
pub fn difference<R: OreRing>(
    ring: &R,
    alloc: Global,
    place: Place,
    a: &Row,
    b: &Row,
) -> Result<Row, Refusal>
    requires lengths { length a.now ≡ length b.now }
    requires a_of { AllBelong (R.sig ring.now) a.now }
    requires b_of { AllBelong (R.sig ring.now) b.now }
    ensures judges { Judges sums_of result (formed place (row_difference_within program (sums_of a.now) (sums_of b.now))) }
    ensures of { IfOk result (AllBelong (R.sig ring.now)) }
{
    at_place(place, row_sub(ring, alloc, a, b))
}

/// The S-row of a pair, at a place: row `i` of `m` less row `j`, both multiplied to the common multiple of the leads
/// there. `m` has a row for each lead, and the degree of the common multiple is at most 32,767.
///
/// # Errors
/// The stop of the first product or difference that stops, with the place; and want of memory.
#[tactic(auto, using(crate::proofs::Refusals::judged_at, crate::proofs::Refusals::kept_at))]
pub fn s_row_at<R: OreRing>(
    ring: &R,
    alloc: Global,
    place: Place,
    leads: &Leads,
    m: &Matrix,
    i: usize,
    j: usize,
) -> Result<Row, Refusal>
    requires first { i < length leads.now }
    requires second { j < length leads.now }
    requires rows { length m.now.rows ≡ length leads.now }
    requires fits { degree (lcm_of_leads leads.now i j).monomial ≤ 32767 }
    requires leads_of { All (λ t. MonomialOf (R.sig ring.now) t.monomial) leads.now }
    requires m_of { All (AllBelong (R.sig ring.now)) m.now.rows }
    ensures judges { Judges sums_of result (formed place (s_row_within rationals (within program (R.sig ring.now)) leads.now (rows_of m.now) i j)) }
    ensures of { IfOk result (AllBelong (R.sig ring.now)) }
    ensures width { IfOk result (λ r. length r ≡ m.now.cols) }
{
    at_place(place, s_row(ring, alloc, leads, m, i, j))
}

/// A row less a step times its row of `m`, at a place. The row has an entry for each column of `m`, and the step names a
/// row of `m`.
///
/// # Errors
/// The stop of the first product or difference that stops, with the place; and want of memory.
#[tactic(auto, using(crate::proofs::Refusals::judged_at, crate::proofs::Refusals::kept_at))]
pub fn less_step_at<R: OreRing>(
    ring: &R,
    alloc: Global,
    place: Place,
    m: &Matrix,
    row: Row,
    step: &Step,
) -> Result<Row, Refusal>
    requires place { step.now.index < length m.now.rows }
    requires width { length row ≡ m.now.cols }
    requires step_of { MonomialOf (R.sig ring.now) step.now.monomial }
    requires row_of { AllBelong (R.sig ring.now) row }
    requires m_of { All (AllBelong (R.sig ring.now)) m.now.rows }
    ensures judges { Judges sums_of result (formed place (less_step program (R.sig ring.now) (rows_of m.now) step.now (sums_of row))) }
    ensures of { IfOk result (AllBelong (R.sig ring.now)) }
    ensures width { IfOk result (λ r. length r ≡ m.now.cols) }
{
    at_place(place, less_step(ring, alloc, m, row, step))
}

/// A row less each step times its row of `m`, in order, at a place. The row has an entry for each column of `m`, and
/// each step names a row of `m`.
///
/// # Errors
/// The stop of the first product or difference that stops, with the place; and want of memory.
#[tactic(auto, using(crate::proofs::Refusals::judged_at, crate::proofs::Refusals::kept_at))]
pub fn less_steps_at<R: OreRing>(
    ring: &R,
    alloc: Global,
    place: Place,
    m: &Matrix,
    row: Row,
    steps: &Steps,
) -> Result<Row, Refusal>
    requires places { All (λ t. t.index < length m.now.rows) steps.now }
    requires width { length row ≡ m.now.cols }
    requires steps_of { AreStoredStepsOf (R.sig ring.now) steps.now }
    requires row_of { AllBelong (R.sig ring.now) row }
    requires m_of { All (AllBelong (R.sig ring.now)) m.now.rows }
    ensures judges { Judges sums_of result (formed place (less_steps program (R.sig ring.now) (rows_of m.now) steps.now (sums_of row))) }
    ensures of { IfOk result (AllBelong (R.sig ring.now)) }
{
    at_place(place, less_steps(ring, alloc, m, row, steps))
}

// The S-row of a pair: row `i` of `m` less row `j`, both multiplied to the common multiple of the leads there.
fn s_row<R: OreRing>(
    ring: &R,
    alloc: Global,
    leads: &Leads,
    m: &Matrix,
    i: usize,
    j: usize,
) -> Result<Row, RingStop>
    requires first { i < length leads.now }
    requires second { j < length leads.now }
    requires rows { length m.now.rows ≡ length leads.now }
    requires fits { degree (lcm_of_leads leads.now i j).monomial ≤ 32767 }
    requires leads_of { All (λ t. MonomialOf (R.sig ring.now) t.monomial) leads.now }
    requires m_of { All (AllBelong (R.sig ring.now)) m.now.rows }
    ensures gives { Gives sums_of result (s_row_within rationals (within program (R.sig ring.now)) leads.now (rows_of m.now) i j) }
    ensures of { IfOk result (AllBelong (R.sig ring.now)) }
    ensures width { IfOk result (λ r. length r ≡ m.now.cols) }
{
    let Ok(multiple) = common_multiple(leads, i, j) else {
        unreachable!()
    };
    multiples::s_row(ring, alloc, leads, &multiple, i, j, m.row(i), m.row(j))
}

// A row less each step times its row of `m`, in order.
fn less_steps<R: OreRing>(
    ring: &R,
    alloc: Global,
    m: &Matrix,
    row: Row,
    steps: &Steps,
) -> Result<Row, RingStop>
    requires places { All (λ t. t.index < length m.now.rows) steps.now }
    requires width { length row ≡ m.now.cols }
    requires steps_of { AreStoredStepsOf (R.sig ring.now) steps.now }
    requires row_of { AllBelong (R.sig ring.now) row }
    requires m_of { All (AllBelong (R.sig ring.now)) m.now.rows }
    ensures gives { Gives sums_of result (less_steps program (R.sig ring.now) (rows_of m.now) steps.now (sums_of row)) }
    ensures of { IfOk result (AllBelong (R.sig ring.now)) }
{
    let mut left = row;
    for k in 0..steps.len() {
        left = less_step(ring, alloc, m, left, steps.get(k))?;
    }
    Ok(left)
}

// A row less a step times its row of `m`.
fn less_step<R: OreRing>(
    ring: &R,
    alloc: Global,
    m: &Matrix,
    row: Row,
    step: &Step,
) -> Result<Row, RingStop>
    requires place { step.now.index < length m.now.rows }
    requires width { length row ≡ m.now.cols }
    requires step_of { MonomialOf (R.sig ring.now) step.now.monomial }
    requires row_of { AllBelong (R.sig ring.now) row }
    requires m_of { All (AllBelong (R.sig ring.now)) m.now.rows }
    ensures gives { Gives sums_of result (less_step program (R.sig ring.now) (rows_of m.now) step.now (sums_of row)) }
    ensures of { IfOk result (AllBelong (R.sig ring.now)) }
    ensures width { IfOk result (λ r. length r ≡ m.now.cols) }
{
    let term = step_term(ring, alloc, step)?;
    row_less(ring, alloc, row, &term, m.row(step.index))
}

// The operator that a step multiplies with.
fn step_term<R: OreRing>(ring: &R, alloc: Global, step: &Step) -> Result<Op, RingStop>
    requires { MonomialOf (R.sig ring.now) step.now.monomial }
    ensures value { IfOk result (λ f. f.sum ≡ step_operator rationals step.now) }
    ensures of { IfOk result (Belongs (R.sig ring.now)) }
    ensures memory { IfErr result (λ e. e ≡ Memory) }
{
    let order = ring.signature().order();
    Ok(Op::term(alloc, order, step.exps, step.coef)?)
}

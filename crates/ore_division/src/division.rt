//! Lead reduction of a row by a basis.

ghost use Rattle.std.specs.Prelude.{◌≡◌, ◌<◌, [], length, IfOk, IfErr, IfSome};
ghost use Rattle.std.specs.List.{All};
ghost use Rattle.ore_algebra.specs.Limits.{program};
ghost use Rattle.ore_rational.specs.Field.{rationals};
ghost use Rattle.ore_monomial.specs.Gives.{Gives};
ghost use Rattle.ore_monomial.specs.Signature.{MonomialOf};
ghost use Rattle.ore_monomial.specs.declared.stop.RingStop.TheVariants.{Memory};
ghost use Rattle.ore_ring.specs.Belongs.{AllBelong, Belongs};
ghost use Rattle.ore_rows.specs.Arithmetic.{within};
ghost use Rattle.ore_rows.specs.Reduction.{step_operator};
ghost use Rattle.ore_rows.specs.Reduction as reduction;
ghost use Rattle.ore_rows.specs.Stored.{sums_of};
ghost use Rattle.ore_rows.specs.StoredBasis.{BasisBelongs, monics};
ghost use Rattle.ore_division.specs.StoredWork.{work_of};

use ore_monomial::{RingStop, Signature};
use ore_ring::{Op, OreRing};
use ore_rows::{Basis, Row, Step, Steps, row_lead, row_less};
use std::alloc::Global;

/// What is left of a row and of its cofactor row, and the steps that were taken from them.
#[derive(Drop)]
pub struct Reduced {
    /// What is left of the row.
    pub row: Row,
    /// What is left of the cofactor row.
    pub cofactor: Row,
    /// The steps, in the order in which they were taken.
    pub steps: Steps,
}

/// While the lead of some basis row divides the lead of the row, the first such basis row, times what its lead
/// lacks, is taken from the row, and likewise its cofactor row from the cofactor row.
/// (Buchberger 1965; in algebras of this kind Kandri-Rody and Weispfenning 1990.)
///
/// The row has `basis.cols()` entries and the cofactor row `basis.width()`. All operators, also those of the basis, are
/// of the signature of the ring.
///
/// # Errors
/// The stop of the first product or difference that stops, and want of memory. Then both rows are dropped.
pub fn reduce<R: OreRing>(
    ring: &R,
    alloc: Global,
    basis: &Basis,
    row: Row,
    cofactor: Row,
) -> Result<Reduced, RingStop>
    requires row_width { length row ≡ basis.now.cols }
    requires cofactor_width { length cofactor ≡ basis.now.width }
    requires row_of { AllBelong (R.sig ring.now) row }
    requires cofactor_of { AllBelong (R.sig ring.now) cofactor }
    requires basis_of { BasisBelongs (R.sig ring.now) basis.now.items }
    ensures gives { Gives work_of result (reduction.reduce rationals (R.sig ring.now).order (within program (R.sig ring.now)) (monics basis.now) (record { row = sums_of row; cofactor = sums_of cofactor; steps = [] })) }
    ensures row_of { IfOk result (λ r. AllBelong (R.sig ring.now) r.row) }
    ensures cofactor_of { IfOk result (λ r. AllBelong (R.sig ring.now) r.cofactor) }
    ensures row_width { IfOk result (λ r. length r.row ≡ basis.now.cols) }
    ensures cofactor_width { IfOk result (λ r. length r.cofactor ≡ basis.now.width) }
{
    let fits = row.len() == basis.cols();
    prove!(fits);
    let mut work = Reduced {
        row,
        cofactor,
        steps: Steps::from_vec(Vec::new(alloc)),
    };
    while let Some(step) = next_step(ring.signature(), basis, &work.row) {
        work = subtract(ring, alloc, basis, step, work)?;
    }
    Ok(work)
}

// The step that takes the lead of the row away, by the first basis row whose lead divides it.
fn next_step(sig: &Signature, basis: &Basis, row: &Row) -> Option<Step>
    requires { AllBelong sig.now row.now }
    ensures value { result ≡ reduction.next_step rationals sig.now.order (monics basis.now) (sums_of row.now) }
    ensures inside { IfSome result (λ t. t.index < length basis.now.items) }
    ensures of { IfSome result (λ t. MonomialOf sig.now t.monomial) }
{
    let found = row_lead(sig, row)?;
    let index = basis.leads().first_divisor(found.0, &found.1)?;
    let divisor = basis.leads().get(index);
    Some(Step {
        index,
        exps: found.1.minus(&divisor.1),
        coef: found.2,
    })
}

// The row and the cofactor row, less the step.
fn subtract<R: OreRing>(
    ring: &R,
    alloc: Global,
    basis: &Basis,
    step: Step,
    work: Reduced,
) -> Result<Reduced, RingStop>
    requires index { step.index < length basis.now.items }
    requires step_of { MonomialOf (R.sig ring.now) step.monomial }
    requires row_width { length work.row ≡ basis.now.cols }
    requires cofactor_width { length work.cofactor ≡ basis.now.width }
    requires row_of { AllBelong (R.sig ring.now) work.row }
    requires cofactor_of { AllBelong (R.sig ring.now) work.cofactor }
    requires basis_of { BasisBelongs (R.sig ring.now) basis.now.items }
    ensures gives { Gives work_of result (reduction.subtract rationals (within program (R.sig ring.now)) (monics basis.now) step (work_of work)) }
    ensures row_of { IfOk result (λ r. AllBelong (R.sig ring.now) r.row) }
    ensures cofactor_of { IfOk result (λ r. AllBelong (R.sig ring.now) r.cofactor) }
    ensures row_width { IfOk result (λ r. length r.row ≡ basis.now.cols) }
    ensures cofactor_width { IfOk result (λ r. length r.cofactor ≡ basis.now.width) }
{
    let Reduced {
        row,
        cofactor,
        steps,
    } = work;
    let index = step.index;
    let term = step_term(ring, alloc, &step)?;
    let row = row_less(ring, alloc, row, &term, basis.row(index))?;
    let cofactor = row_less(ring, alloc, cofactor, &term, basis.cofactor(index))?;
    let mut taken = steps.into_vec();
    taken.push(step)?;
    Ok(Reduced {
        row,
        cofactor,
        steps: Steps::from_vec(taken),
    })
}

// The operator that a step multiplies with.
fn step_term<R: OreRing>(ring: &R, alloc: Global, step: &Step) -> Result<Op, RingStop>
    requires { MonomialOf (R.sig ring.now) step.now.monomial }
    ensures value { IfOk result (λ f. f.sum ≡ step_operator rationals step.now) }
    ensures of { IfOk result (Belongs (R.sig ring.now)) }
    ensures memory { IfErr result (λ e. e ≡ Memory) }
{
    let order = ring.signature().order();
    Ok(Op::term(alloc, order, step.exps, step.coef)?)
}

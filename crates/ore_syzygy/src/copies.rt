//! Copies of matrices and of steps.

ghost use Rattle.std.specs.Prelude.{◌≡◌, IfOk, IfErr};
ghost use Rattle.ore_monomial.specs.declared.stop.RingStop.TheVariants.{Memory};

use ore_monomial::{NoMemory, RingStop};
use ore_ring::OreRing;
use ore_rows::{Matrix, Step, Steps, row_copy};
use std::alloc::Global;

// An equal matrix.
pub(crate) fn matrix_copy<R: OreRing>(
    ring: &R,
    alloc: Global,
    m: &Matrix,
) -> Result<Matrix, RingStop>
    ensures same { IfOk result (λ x. x ≡ m.now) }
    ensures memory { IfErr result (λ e. e ≡ Memory) }
{
    let mut out = Vec::new(alloc);
    for k in 0..m.rows() {
        out.push(row_copy(ring, alloc, m.row(k))?)?;
    }
    Ok(Matrix::from_rows(m.cols(), out))
}

// Equal steps.
pub(crate) fn steps_copy(alloc: Global, steps: &Steps) -> Result<Steps, NoMemory>
    ensures { IfOk result (λ x. x ≡ steps.now) }
{
    let mut out = Vec::new(alloc);
    for k in 0..steps.len() {
        out.push(step_copy(steps.get(k)))?;
    }
    Ok(Steps::from_vec(out))
}

// An equal step.
fn step_copy(step: &Step) -> Step
    ensures { result ≡ step.now }
{
    Step {
        index: step.index,
        exps: step.exps,
        coef: step.coef,
    }
}

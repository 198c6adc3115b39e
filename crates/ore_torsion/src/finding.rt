//! Finds which of the two verdicts on a matrix is true.

ghost use Rattle.std.specs.Prelude.{◌≡◌, [], length, IfOk, IfErr};
ghost use Rattle.std.specs.List.{All};
ghost use Rattle.ore_algebra.specs.Limits.{program};
ghost use Rattle.ore_course.specs.Following.{Follows};
ghost use Rattle.ore_ring.specs.Belongs.{AllBelong};
ghost use Rattle.ore_rows.specs.Stored.{sums_of};
ghost use Rattle.ore_pairs.specs.Reached.{rule_of};
ghost use Rattle.ore_pairs.specs.Runner.{runner_within};
ghost use Rattle.ore_parts.specs.OfSignature.{IsOutsideOf};
ghost use Rattle.ore_blocks.specs.BlockOfRun.{outside_block_of};
ghost use Rattle.ore_blocks.specs.CheckBlock.{row_matrix_of};
ghost use Rattle.ore_groebner.specs.Choosing.{AreWithinBudget};
ghost use Rattle.ore_groebner.specs.Courses.{last_of, FollowsTo, HaltsIn};
ghost use Rattle.ore_check.specs.PlanLaws.{IsCorrect};
ghost use Rattle.ore_check.specs.Plans as plans;
ghost use Rattle.ore_inverse.specs.Runs.{IsRunOn};
ghost use Rattle.ore_inverse.specs.StoredReductions.{reductions_of, AreReducedSyzygies};
ghost use Rattle.ore_torsion.specs.Verdicts.{IsVerdict, verdict_course};

use crate::forming::{form_controllable, form_element};
use ore_cert::Certificate;
use ore_division::Reduced;
use ore_groebner::run::run;
use ore_groebner::{Chooser, Finished, Halt};
use ore_inverse::{Reductions, reduce_rows, run_on};
use ore_ring::OreRing;
use ore_rows::{Matrix, stack};
use ore_syzygy::right_kernel;
use std::alloc::Global;

/// Which of the two verdicts on the matrix `r` is true: a certificate that there is no torsion (`Controllable`), or one of
/// an autonomous element (`AutonomousElement`), which has an entry for each column of `r`.
///
/// The operators of the matrix are of the signature of the ring.
///
/// # Errors
/// As those of a run on the rows of `r`, of the right kernel of `r`, of a run on the rows of its generators, and, where a
/// row is left, of a run on that row above those of `r`; and where reducing a kernel row, or an identity of the
/// certificate, stops, as forced work.
pub fn analyse<R: OreRing, C: Chooser>(
    ring: &R,
    alloc: Global,
    r: &Matrix,
    chooser: &mut C,
) -> Result<Certificate, Halt>
    requires { All (AllBelong (R.sig ring.now)) r.now.rows }
    // It is true, and the check accepts it.
    ensures correct { IfOk result (IsCorrect (R.sig ring.now) (row_matrix_of r.now)) }
    // It is one of the two.
    ensures verdict { IfOk result IsVerdict }
    // The plan forms it by the choices given, or halts so.
    ensures answered { IfOk result (FollowsTo (R.sig ring.now) C.allows C.allows_spent (plans.analyse program (R.sig ring.now) (row_matrix_of r.now)) (C.given chooser.old) (C.given chooser.new)) }
    ensures halts { IfErr result (HaltsIn (R.sig ring.now) C.allows C.allows_spent (plans.analyse program (R.sig ring.now) (row_matrix_of r.now)) (C.given chooser.old) (C.given chooser.new) (C.settings chooser.new)) }
    ensures within_budget { AreWithinBudget (C.given chooser.old) (C.settings chooser.old).budget → AreWithinBudget (C.given chooser.new) (C.settings chooser.new).budget }
    ensures settings { C.settings chooser.new ≡ C.settings chooser.old }
{
    let _cols = r.cols();
    let elements = reduce_kernel_rows(ring, alloc, r, chooser)?;
    let Elements {
        first,
        generators,
        second,
        reductions,
    } = elements;
    match reductions {
        Reductions::AllReduce(combinations) => Ok(form_controllable(
            ring,
            alloc,
            r,
            generators,
            second,
            combinations,
        )?),
        Reductions::LeavesRest(_, rest) => find_operator(ring, alloc, r, first, rest, chooser),
    }
}

// Kernel rows, and what reducing them gives.
#[derive(Drop)]
struct Elements {
    // The run on the matrix.
    first: Finished,
    // The columns generate what the matrix takes to zeros.
    generators: Matrix,
    // The run on the rows of the generators. Its syzygies are the kernel rows.
    second: Finished,
    // The kernel rows, reduced by the first run.
    reductions: Reductions,
}

// The rows that take the generators of the right kernel of `r` to zeros, reduced by the run on `r`.
fn reduce_kernel_rows<R: OreRing, C: Chooser>(
    ring: &R,
    alloc: Global,
    r: &Matrix,
    chooser: &mut C,
) -> Result<Elements, Halt>
    requires { All (AllBelong (R.sig ring.now)) r.now.rows }
    ensures first { IfOk result (λ x. IsRunOn (R.sig ring.now) r.now x.first) }
    ensures generators_of { IfOk result (λ x. All (AllBelong (R.sig ring.now)) x.generators.rows) }
    ensures second { IfOk result (λ x. IsRunOn (R.sig ring.now) x.generators x.second) }
    ensures reduced { IfOk result (λ x. AreReducedSyzygies (R.sig ring.now) r.now x.first x.second x.reductions) }
    // The verdict is left to form.
    ensures left { IfOk result (λ x. Follows (runner_within program (R.sig ring.now)) (rule_of (R.sig ring.now) C.allows C.allows_spent) (plans.analyse program (R.sig ring.now) (row_matrix_of r.now)) (C.given chooser.old) (C.given chooser.new) (verdict_course (R.sig ring.now) (row_matrix_of r.now) (last_of x.first) (row_matrix_of x.generators) (last_of x.second) (reductions_of x.reductions))) }
    ensures halts { IfErr result (HaltsIn (R.sig ring.now) C.allows C.allows_spent (plans.analyse program (R.sig ring.now) (row_matrix_of r.now)) (C.given chooser.old) (C.given chooser.new) (C.settings chooser.new)) }
    ensures within_budget { AreWithinBudget (C.given chooser.old) (C.settings chooser.old).budget → AreWithinBudget (C.given chooser.new) (C.settings chooser.new).budget }
    ensures settings { C.settings chooser.new ≡ C.settings chooser.old }
{
    let first = run_on(ring, alloc, r, chooser)?;
    let kernel = right_kernel(ring, alloc, r, chooser)?;
    let generators = kernel.generators;
    let second = run_on(ring, alloc, &generators, chooser)?;
    let reductions = reduce_rows(ring, alloc, &first.basis, &second.syzygies)?;
    Ok(Elements {
        first,
        generators,
        second,
        reductions,
    })
}

// The certificate of the element that the run on `r` left of a row: a run on it above the rows of `r` finds its operator.
fn find_operator<R: OreRing, C: Chooser>(
    ring: &R,
    alloc: Global,
    r: &Matrix,
    first: Finished,
    rest: Reduced,
    chooser: &mut C,
) -> Result<Certificate, Halt>
    requires r_of { All (AllBelong (R.sig ring.now)) r.now.rows }
    requires run { IsRunOn (R.sig ring.now) r.now first }
    requires width { length rest.row ≡ r.now.cols }
    requires rest_of { AllBelong (R.sig ring.now) rest.row }
    requires block_of { IsOutsideOf (R.sig ring.now) (outside_block_of (R.sig ring.now) (row_matrix_of r.now) (last_of first) [] (sums_of rest.row)) }
    ensures verdict { IfOk result IsVerdict }
    ensures answered { IfOk result (FollowsTo (R.sig ring.now) C.allows C.allows_spent (plans.autonomous program (R.sig ring.now) (row_matrix_of r.now) (last_of first) (sums_of rest.row)) (C.given chooser.old) (C.given chooser.new)) }
    ensures halts { IfErr result (HaltsIn (R.sig ring.now) C.allows C.allows_spent (plans.autonomous program (R.sig ring.now) (row_matrix_of r.now) (last_of first) (sums_of rest.row)) (C.given chooser.old) (C.given chooser.new) (C.settings chooser.new)) }
    ensures within_budget { AreWithinBudget (C.given chooser.old) (C.settings chooser.old).budget → AreWithinBudget (C.given chooser.new) (C.settings chooser.new).budget }
    ensures settings { C.settings chooser.new ≡ C.settings chooser.old }
{
    let stacked = stack(ring, alloc, &rest.row, r)?;
    let second = run(ring, alloc, &stacked, chooser)?;
    Ok(form_element(ring, alloc, r, first, rest, &second.syzygies)?)
}

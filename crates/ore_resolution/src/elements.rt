//! What takes the transposed adjoint of the last matrix of a resolution to zeros, reduced by the one before.

ghost use Rattle.std.specs.Prelude.{◌≡◌, ◌-◌, ◌≤◌, length, IfOk, IfErr};
ghost use Rattle.std.specs.List.{All};
ghost use Rattle.ore_algebra.specs.Limits.{program};
ghost use Rattle.ore_course.specs.Following.{Follows};
ghost use Rattle.ore_ring.specs.Belongs.{AllBelong};
ghost use Rattle.ore_pairs.specs.Reached.{rule_of};
ghost use Rattle.ore_pairs.specs.Runner.{runner_within};
ghost use Rattle.ore_cert.specs.CertificateOf.{AreLinksOf};
ghost use Rattle.ore_blocks.specs.CheckBlock.{row_matrix_of};
ghost use Rattle.ore_groebner.specs.Choosing.{AreWithinBudget};
ghost use Rattle.ore_groebner.specs.Courses.{last_of, FollowsTo, HaltsIn};
ghost use Rattle.ore_check.specs.InnerContracts.{matrix_before};
ghost use Rattle.ore_check.specs.Plans.{extension, extension_ends};
ghost use Rattle.ore_inverse.specs.Runs.{IsRunOn};
ghost use Rattle.ore_inverse.specs.StoredReductions.{reductions_of, AreReducedSyzygies};
ghost use Rattle.ore_resolution.specs.Stored.{run_on_adjoint, resolution_of};

use ore_adjoint::transpose_adjoint;
use ore_cert::Links;
use ore_check::links::matrix_before;
use ore_groebner::{Chooser, Finished, Halt};
use ore_inverse::{Reductions, reduce_rows, run_on};
use ore_ring::OreRing;
use ore_rows::Matrix;
use std::alloc::Global;

// Elements, and what reducing them gives.
#[derive(Drop)]
pub(crate) struct Elements {
    // The run on the transposed adjoint of the last matrix. Its syzygies are the elements.
    pub last: AdjointRun,
    // The run on the transposed adjoint of the matrix before.
    pub before: AdjointRun,
    // The elements, reduced by the second run.
    pub reductions: Reductions,
}

// The transposed adjoint of a matrix, and a complete run on its rows.
#[derive(Drop)]
pub(crate) struct AdjointRun {
    pub adjoint: Matrix,
    pub run: Finished,
}

// The rows that take the transposed adjoint of the last matrix to zeros, reduced by a run on that of the matrix before.
pub(crate) fn reduce_elements<R: OreRing, C: Chooser>(
    ring: &R,
    alloc: Global,
    r: &Matrix,
    links: &Links,
    chooser: &mut C,
) -> Result<Elements, Halt>
    requires of { All (AllBelong (R.sig ring.now)) r.now.rows }
    requires links_of { AreLinksOf (R.sig ring.now) links.now }
    requires fits { (matrix_before r.now links.now (length links.now)).cols ≡ length (matrix_before r.now links.now (length links.now - 1)).rows }
    ensures last { IfOk result (λ x. IsRunOn (R.sig ring.now) x.last.adjoint x.last.run) }
    ensures before { IfOk result (λ x. IsRunOn (R.sig ring.now) x.before.adjoint x.before.run) }
    ensures reduced { IfOk result (λ x. AreReducedSyzygies (R.sig ring.now) x.before.adjoint x.before.run x.last.run x.reductions) }
    // The certificate is left to form.
    ensures left { IfOk result (λ x. Follows (runner_within program (R.sig ring.now)) (rule_of (R.sig ring.now) C.allows C.allows_spent) (extension program (R.sig ring.now) (row_matrix_of r.now) (resolution_of r.now links.now)) (C.given chooser.old) (C.given chooser.new) (extension_ends program (R.sig ring.now) (row_matrix_of r.now) (resolution_of r.now links.now) (row_matrix_of x.last.adjoint) (last_of x.last.run) (row_matrix_of x.before.adjoint) (last_of x.before.run) (reductions_of x.reductions))) }
    ensures halts { IfErr result (HaltsIn (R.sig ring.now) C.allows C.allows_spent (extension program (R.sig ring.now) (row_matrix_of r.now) (resolution_of r.now links.now)) (C.given chooser.old) (C.given chooser.new) (C.settings chooser.new)) }
    ensures within_budget { AreWithinBudget (C.given chooser.old) (C.settings chooser.old).budget → AreWithinBudget (C.given chooser.new) (C.settings chooser.new).budget }
    ensures settings { C.settings chooser.new ≡ C.settings chooser.old }
{
    let count = links.len();
    let last = run_on_adjoint(ring, alloc, r, links, count, chooser)?;
    let before = run_on_adjoint(ring, alloc, r, links, count - 1, chooser)?;
    let reductions = reduce_rows(ring, alloc, &before.run.basis, &last.run.syzygies)?;
    Ok(Elements {
        last,
        before,
        reductions,
    })
}

// A run on the transposed adjoint of the matrix before link `k`, or of the last matrix.
fn run_on_adjoint<R: OreRing, C: Chooser>(
    ring: &R,
    alloc: Global,
    r: &Matrix,
    links: &Links,
    k: usize,
    chooser: &mut C,
) -> Result<AdjointRun, Halt>
    requires of { All (AllBelong (R.sig ring.now)) r.now.rows }
    requires links_of { AreLinksOf (R.sig ring.now) links.now }
    requires place { k ≤ length links.now }
    ensures run { IfOk result (λ x. IsRunOn (R.sig ring.now) x.adjoint x.run) }
    ensures cols { IfOk result (λ x. x.adjoint.cols ≡ length (matrix_before r.now links.now k).rows) }
    ensures count { IfOk result (λ x. length x.adjoint.rows ≡ (matrix_before r.now links.now k).cols) }
    ensures answered { IfOk result (λ x. FollowsTo (R.sig ring.now) C.allows C.allows_spent (run_on_adjoint (R.sig ring.now) (row_matrix_of (matrix_before r.now links.now k))) (C.given chooser.old) (C.given chooser.new) (row_matrix_of x.adjoint, last_of x.run)) }
    ensures halts { IfErr result (HaltsIn (R.sig ring.now) C.allows C.allows_spent (run_on_adjoint (R.sig ring.now) (row_matrix_of (matrix_before r.now links.now k))) (C.given chooser.old) (C.given chooser.new) (C.settings chooser.new)) }
    ensures within_budget { AreWithinBudget (C.given chooser.old) (C.settings chooser.old).budget → AreWithinBudget (C.given chooser.new) (C.settings chooser.new).budget }
    ensures settings { C.settings chooser.new ≡ C.settings chooser.old }
{
    let adjoint = transpose_adjoint(ring, alloc, matrix_before(r, links, k))?;
    let run = run_on(ring, alloc, &adjoint, chooser)?;
    Ok(AdjointRun { adjoint, run })
}

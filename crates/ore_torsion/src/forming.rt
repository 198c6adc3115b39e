//! The certificates of the two verdicts.

ghost use Rattle.std.specs.Prelude.{◌≡◌, [], suc, length, IfOk};
ghost use Rattle.std.specs.List.{All};
ghost use Rattle.ore_ring.specs.Belongs.{AllBelong};
ghost use Rattle.ore_rows.specs.Stored.{sums_of};
ghost use Rattle.ore_parts.specs.OfSignature.{IsOutsideOf};
ghost use Rattle.ore_blocks.specs.BlockOfRun.{outside_block_of};
ghost use Rattle.ore_blocks.specs.CheckBlock.{row_matrix_of};
ghost use Rattle.ore_groebner.specs.Courses.{last_of};
ghost use Rattle.ore_check.specs.Plans.{IsFormed};
ghost use Rattle.ore_inverse.specs.Runs.{IsRunOn};
ghost use Rattle.ore_torsion.specs.Verdicts.{IsVerdict, controllable_of, element_of};

use crate::entries::first_nonzero;
use ore_cert::Certificate;
use ore_check::certify;
use ore_division::Reduced;
use ore_groebner::Finished;
use ore_inverse::reductions::{negated, without_steps};
use ore_monomial::RingStop;
use ore_ring::OreRing;
use ore_rows::Matrix;
use ore_syzygy::{exact_block, outside_block};
use std::alloc::Global;

// The certificate that `r` has no torsion, once its identities are formed: the rows that take `q` to zeros, which are the
// syzygies of the run on `q`, are these combinations of the rows of `r`.
pub(crate) fn form_controllable<R: OreRing>(
    ring: &R,
    alloc: Global,
    r: &Matrix,
    q: Matrix,
    run: Finished,
    combinations: Matrix,
) -> Result<Certificate, RingStop>
    requires r_of { All (AllBelong (R.sig ring.now)) r.now.rows }
    requires q_of { All (AllBelong (R.sig ring.now)) q.rows }
    requires run { IsRunOn (R.sig ring.now) q run }
    requires count { length combinations.rows ≡ length run.syzygies.rows }
    requires combinations_of { All (AllBelong (R.sig ring.now)) combinations.rows }
    ensures formed { IsFormed (R.sig ring.now) (row_matrix_of r.now) (controllable_of (R.sig ring.now) q run (row_matrix_of combinations)) result }
    ensures verdict { IfOk result IsVerdict }
{
    let _columns = q.cols();
    let block = exact_block(ring, alloc, run, combinations)?;
    let verdict = Certificate::Controllable { q, block };
    certify(ring, alloc, r, verdict)
}

// The certificate of an autonomous element, once its identities are formed: the element, which the run on `r` left of a
// row, and the first of some syzygies of it above the rows of `r` whose first entry isn't zero. That entry is its operator,
// and the opposites of the others are the cofactors.
pub(crate) fn form_element<R: OreRing>(
    ring: &R,
    alloc: Global,
    r: &Matrix,
    run: Finished,
    rest: Reduced,
    syzygies: &Matrix,
) -> Result<Certificate, RingStop>
    requires r_of { All (AllBelong (R.sig ring.now)) r.now.rows }
    requires run { IsRunOn (R.sig ring.now) r.now run }
    requires rest_of { AllBelong (R.sig ring.now) rest.row }
    requires block_of { IsOutsideOf (R.sig ring.now) (outside_block_of (R.sig ring.now) (row_matrix_of r.now) (last_of run) [] (sums_of rest.row)) }
    requires cols { syzygies.now.cols ≡ suc (length r.now.rows) }
    requires syzygies_of { All (AllBelong (R.sig ring.now)) syzygies.now.rows }
    ensures formed { IsFormed (R.sig ring.now) (row_matrix_of r.now) (element_of (R.sig ring.now) (row_matrix_of r.now) run rest.row (row_matrix_of syzygies.now)) result }
    ensures verdict { IfOk result IsVerdict }
{
    let found = first_nonzero(ring, alloc, r.rows(), syzygies)?;
    let cofactor = negated(ring, alloc, &found.1)?;
    let element = without_steps(alloc, rest);
    let block = outside_block(ring, alloc, run, &element)?;
    let certificate = Certificate::AutonomousElement {
        element: element.row,
        operator: found.0,
        cofactor,
        block,
    };
    certify(ring, alloc, r, certificate)
}

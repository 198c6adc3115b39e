//! Finds the kernel of a matrix, and what shows it.

ghost use Rattle.std.specs.Prelude.{◌≡◌, IfOk, IfErr};
ghost use Rattle.std.specs.List.{All};
ghost use Rattle.ore_ring.specs.Belongs.{AllBelong};
ghost use Rattle.ore_blocks.specs.CheckBlock.{row_matrix_of};
ghost use Rattle.ore_check.specs.PlanLaws.{IsCorrect};
ghost use Rattle.ore_groebner.specs.Choosing.{AreWithinBudget};
ghost use Rattle.ore_groebner.specs.Courses.{FollowsTo, HaltsIn};
ghost use Rattle.ore_kernels.specs.KernelPlans.{kernel_course, IsLeftToForm};
ghost use Rattle.ore_syzygy.specs.RunBlock.{HasRun};

use crate::block::kernel_block;
use ore_cert::{Certificate, Side};
use ore_check::certify;
use ore_groebner::{Chooser, Halt};
use ore_ring::OreRing;
use ore_rows::Matrix;
use ore_syzygy::{Kernel, left_kernel, right_kernel};
use std::alloc::Global;

/// The certificate of the left or right kernel of the matrix `r`: on the left, the rows that take `r` to zeros, with an
/// entry for each of its rows; on the right, the columns that `r` takes to zeros, with an entry for each of its columns.
///
/// The operators of the matrix are of the signature of the ring.
///
/// # Errors
/// As those of the kernel; and the first identity of the certificate that stops, as forced work.
pub fn kernel_certificate<R: OreRing, C: Chooser>(
    ring: &R,
    alloc: Global,
    side: Side,
    r: &Matrix,
    chooser: &mut C,
) -> Result<Certificate, Halt>
    requires { All (AllBelong (R.sig ring.now)) r.now.rows }
    // It is true, and the check accepts it.
    ensures correct { IfOk result (IsCorrect (R.sig ring.now) (row_matrix_of r.now)) }
    // The plan forms it by the choices given, or halts so.
    ensures answered { IfOk result (FollowsTo (R.sig ring.now) C.allows C.allows_spent (kernel_course side (R.sig ring.now) (row_matrix_of r.now)) (C.given chooser.old) (C.given chooser.new)) }
    ensures halts { IfErr result (HaltsIn (R.sig ring.now) C.allows C.allows_spent (kernel_course side (R.sig ring.now) (row_matrix_of r.now)) (C.given chooser.old) (C.given chooser.new) (C.settings chooser.new)) }
    ensures within_budget { AreWithinBudget (C.given chooser.old) (C.settings chooser.old).budget → AreWithinBudget (C.given chooser.new) (C.settings chooser.new).budget }
    ensures settings { C.settings chooser.new ≡ C.settings chooser.old }
{
    let _cols = r.cols();
    let kernel = find_kernel(ring, alloc, side, r, chooser)?;
    let Kernel { generators, run } = kernel;
    let _columns = generators.cols();
    let (_, block) = kernel_block(ring, alloc, run)?;
    let certificate = Certificate::Kernel {
        side,
        generators,
        block,
    };
    Ok(certify(ring, alloc, r, certificate)?)
}

// The kernel, which the plan has found before it forms the certificate.
fn find_kernel<R: OreRing, C: Chooser>(
    ring: &R,
    alloc: Global,
    side: Side,
    r: &Matrix,
    chooser: &mut C,
) -> Result<Kernel, Halt>
    requires { All (AllBelong (R.sig ring.now)) r.now.rows }
    ensures left { IfOk result (IsLeftToForm (R.sig ring.now) C.allows C.allows_spent side (row_matrix_of r.now) (C.given chooser.old) (C.given chooser.new)) }
    ensures of { IfOk result (λ k. All (AllBelong (R.sig ring.now)) k.generators.rows) }
    ensures run { IfOk result (λ k. HasRun (R.sig ring.now) k.run) }
    ensures halts { IfErr result (HaltsIn (R.sig ring.now) C.allows C.allows_spent (kernel_course side (R.sig ring.now) (row_matrix_of r.now)) (C.given chooser.old) (C.given chooser.new) (C.settings chooser.new)) }
    ensures within_budget { AreWithinBudget (C.given chooser.old) (C.settings chooser.old).budget → AreWithinBudget (C.given chooser.new) (C.settings chooser.new).budget }
    ensures settings { C.settings chooser.new ≡ C.settings chooser.old }
{
    match side {
        Side::Left => left_kernel(ring, alloc, r, chooser),
        Side::Right => right_kernel(ring, alloc, r, chooser),
    }
}

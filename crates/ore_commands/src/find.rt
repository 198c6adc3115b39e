//! Follows the plan of a command.

ghost use Rattle.std.specs.Prelude.{◌≡◌, [], IfOk, IfErr};
ghost use Rattle.std.specs.List.{All};
ghost use Rattle.ore_cert.specs.WholeText.{IsWrittenPlan};
ghost use Rattle.ore_ring.specs.Belongs.{AllBelong};
ghost use Rattle.ore_blocks.specs.CheckBlock.{row_matrix_of};
ghost use Rattle.ore_groebner.specs.Choosing.{AreWithinBudget};
ghost use Rattle.ore_commands.specs.Search.{IsFoundBy, IsHaltedBy, IsReportedBy, IsCorrectFound, certified_of, transposed_of};

use crate::found::Found;
use ore_adjoint::transpose_adjoint;
use ore_cert::{Certificate, Plan, Side};
use ore_groebner::{Chooser, Halt};
use ore_inverse::{left_certificate, right_certificate};
use ore_kernels::kernel_certificate;
use ore_monomial::RingStop;
use ore_resolution::{ext, resolve};
use ore_ring::OreRing;
use ore_rows::Matrix;
use ore_torsion::analyse;
use std::alloc::Global;

/// What the plan of a command finds of the matrix `r`, by the choices of a chooser.
///
/// The operators of the matrix are of the signature of the ring.
///
/// # Errors
/// The first operation of the plan that stops, a spent budget, or a kept choice that is absent or not lawful, as the choices
/// given lead to it; and want of memory.
pub fn find<R: OreRing, C: Chooser>(
    ring: &R,
    alloc: Global,
    plan: Plan,
    r: &Matrix,
    chooser: &mut C,
) -> Result<Found, Halt>
    requires plan { IsWrittenPlan plan }
    requires of { All (AllBelong (R.sig ring.now)) r.now.rows }
    // It is right and of the plan, and what the plan answers by the choices given; or these lead the plan to the halt.
    ensures correct { IfOk result (IsCorrectFound (R.sig ring.now) (row_matrix_of r.now) plan) }
    ensures answered { IfOk result (IsFoundBy (R.sig ring.now) (row_matrix_of r.now) C.allows C.allows_spent plan (C.given chooser.old) (C.given chooser.new)) }
    ensures halts { IfErr result (IsHaltedBy (R.sig ring.now) (row_matrix_of r.now) C.allows C.allows_spent plan (C.given chooser.old) (C.given chooser.new) (C.settings chooser.new)) }
    // Where the chooser began with no runs, the report of the halt is honest by its rule and within its budget.
    ensures reported { C.given chooser.old ≡ [] → IfErr result (IsReportedBy (R.sig ring.now) (row_matrix_of r.now) C.allows C.allows_spent plan (C.given chooser.new) (C.settings chooser.new).budget) }
    ensures within_budget { AreWithinBudget (C.given chooser.old) (C.settings chooser.old).budget → AreWithinBudget (C.given chooser.new) (C.settings chooser.new).budget }
    ensures settings { C.settings chooser.new ≡ C.settings chooser.old }
{
    match plan {
        Plan::Analyse => certified(analyse(ring, alloc, r, chooser)),
        Plan::KernelLeft => certified(kernel_certificate(ring, alloc, Side::Left, r, chooser)),
        Plan::KernelRight => certified(kernel_certificate(ring, alloc, Side::Right, r, chooser)),
        Plan::InverseLeft => certified(left_certificate(ring, alloc, r, chooser)),
        Plan::InverseRight => certified(right_certificate(ring, alloc, r, chooser)),
        Plan::Adjoint => transposed(transpose_adjoint(ring, alloc, r)),
        Plan::Resolve(count) => certified(resolve(ring, alloc, r, count, chooser)),
        Plan::Ext(place) => certified(ext(ring, alloc, r, place, chooser)),
    }
}

// A certificate as what is found.
fn certified(answer: Result<Certificate, Halt>) -> Result<Found, Halt>
    ensures { result ≡ certified_of answer }
{
    Ok(Found::Certified(answer?))
}

// The transposed adjoint as what is found. Where it stops, forced work does.
fn transposed(answer: Result<Matrix, RingStop>) -> Result<Found, Halt>
    ensures { result ≡ transposed_of answer }
{
    Ok(Found::Transposed(answer?))
}

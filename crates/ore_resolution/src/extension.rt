//! Extension modules.

ghost use Rattle.std.specs.Prelude.{◌≡◌, ◌-◌, length, IfOk, IfErr};
ghost use Rattle.std.specs.List.{All};
ghost use Rattle.ore_algebra.specs.Limits.{program};
ghost use Rattle.ore_ring.specs.Belongs.{AllBelong};
ghost use Rattle.ore_cert.specs.CertificateOf.{AreLinksOf};
ghost use Rattle.ore_cert.specs.EachKind.{IsLength};
ghost use Rattle.ore_blocks.specs.CheckBlock.{row_matrix_of};
ghost use Rattle.ore_groebner.specs.Choosing.{AreWithinBudget};
ghost use Rattle.ore_groebner.specs.Courses.{FollowsTo, HaltsIn};
ghost use Rattle.ore_check.specs.InnerContracts.{matrix_before};
ghost use Rattle.ore_check.specs.PlanLaws.{IsCorrect};
ghost use Rattle.ore_check.specs.Plans.{extension, ext};
ghost use Rattle.ore_resolution.specs.Stored.{resolution_of, IsExtensionOf};

use crate::elements::{Elements, reduce_elements};
use crate::links::find_links;
use ore_cert::{Certificate, Links};
use ore_check::certify;
use ore_groebner::{Chooser, Halt};
use ore_inverse::Reductions;
use ore_inverse::reductions::without_steps;
use ore_ring::OreRing;
use ore_rows::Matrix;
use ore_syzygy::{exact_block, outside_block};
use std::alloc::Global;

/// Whether the extension module at a place, from 1 to 12, of the module that `r` presents is zero. Where it isn't, the
/// certificate has an element: it takes the transposed adjoint of the last matrix of a resolution with so many links to
/// zeros, and isn't in the row module of the transposed adjoint of the matrix before.
///
/// The operators of the matrix are of the signature of the ring.
///
/// # Errors
/// As those of a run on the rows of each matrix of the resolution but the last, and of the transposed adjoints of the last
/// two; and where forming these, reducing an element, or an identity of the certificate stops, as forced work.
pub fn ext<R: OreRing, C: Chooser>(
    ring: &R,
    alloc: Global,
    r: &Matrix,
    place: u8,
    chooser: &mut C,
) -> Result<Certificate, Halt>
    requires of { All (AllBelong (R.sig ring.now)) r.now.rows }
    requires place { IsLength place }
    // It is true, and the check accepts it.
    ensures correct { IfOk result (IsCorrect (R.sig ring.now) (row_matrix_of r.now)) }
    ensures kind { IfOk result (IsExtensionOf place) }
    // The plan forms it by the choices given, or halts so.
    ensures answered { IfOk result (FollowsTo (R.sig ring.now) C.allows C.allows_spent (ext program (R.sig ring.now) place (row_matrix_of r.now)) (C.given chooser.old) (C.given chooser.new)) }
    ensures halts { IfErr result (HaltsIn (R.sig ring.now) C.allows C.allows_spent (ext program (R.sig ring.now) place (row_matrix_of r.now)) (C.given chooser.old) (C.given chooser.new) (C.settings chooser.new)) }
    ensures within_budget { AreWithinBudget (C.given chooser.old) (C.settings chooser.old).budget → AreWithinBudget (C.given chooser.new) (C.settings chooser.new).budget }
    ensures settings { C.settings chooser.new ≡ C.settings chooser.old }
{
    let _cols = r.cols();
    let links = find_links(ring, alloc, r, place, chooser)?;
    behind_links(ring, alloc, r, links, chooser)
}

// The certificate, behind the links.
fn behind_links<R: OreRing, C: Chooser>(
    ring: &R,
    alloc: Global,
    r: &Matrix,
    links: Links,
    chooser: &mut C,
) -> Result<Certificate, Halt>
    requires of { All (AllBelong (R.sig ring.now)) r.now.rows }
    requires links_of { AreLinksOf (R.sig ring.now) links }
    requires fits { (matrix_before r.now links (length links)).cols ≡ length (matrix_before r.now links (length links - 1)).rows }
    ensures kind { IfOk result (IsExtensionOf (length links)) }
    ensures answered { IfOk result (FollowsTo (R.sig ring.now) C.allows C.allows_spent (extension program (R.sig ring.now) (row_matrix_of r.now) (resolution_of r.now links)) (C.given chooser.old) (C.given chooser.new)) }
    ensures halts { IfErr result (HaltsIn (R.sig ring.now) C.allows C.allows_spent (extension program (R.sig ring.now) (row_matrix_of r.now) (resolution_of r.now links)) (C.given chooser.old) (C.given chooser.new) (C.settings chooser.new)) }
    ensures within_budget { AreWithinBudget (C.given chooser.old) (C.settings chooser.old).budget → AreWithinBudget (C.given chooser.new) (C.settings chooser.new).budget }
    ensures settings { C.settings chooser.new ≡ C.settings chooser.old }
{
    let found = reduce_elements(ring, alloc, r, &links, chooser)?;
    let Elements {
        last,
        before,
        reductions,
    } = found;
    match reductions {
        Reductions::AllReduce(combinations) => {
            let block = exact_block(ring, alloc, last.run, combinations)?;
            Ok(certify(ring, alloc, r, Certificate::ExtZero { links, block })?)
        }
        Reductions::LeavesRest(_, rest) => {
            let outside = without_steps(alloc, rest);
            let block = outside_block(ring, alloc, before.run, &outside)?;
            let element = outside.row;
            let nonzero = Certificate::ExtNonzero {
                links,
                element,
                block,
            };
            Ok(certify(ring, alloc, r, nonzero)?)
        }
    }
}

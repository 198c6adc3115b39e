//! The links of a resolution, one behind the other.

ghost use Rattle.std.specs.Prelude.{◌≡◌, ◌≤◌, ◌-◌, length, IfOk, IfErr};
ghost use Rattle.std.specs.List.{All};
ghost use Rattle.ore_algebra.specs.Limits.{program};
ghost use Rattle.ore_ring.specs.Belongs.{AllBelong};
ghost use Rattle.ore_parts.specs.OfSignature.{IsLinkOf};
ghost use Rattle.ore_blocks.specs.CheckBlock.{row_matrix_of};
ghost use Rattle.ore_blocks.specs.KernelCourse.{run_on};
ghost use Rattle.ore_groebner.specs.Choosing.{AreWithinBudget};
ghost use Rattle.ore_groebner.specs.Courses.{FollowsTo, HaltsIn};
ghost use Rattle.ore_check.specs.InnerContracts.{matrix_before};
ghost use Rattle.ore_check.specs.Plans.{resolution};
ghost use Rattle.ore_resolution.specs.Stored.{resolution_of, IsNextLink};

use ore_cert::{Link, Links};
use ore_groebner::{Chooser, Halt};
use ore_inverse::run_on;
use ore_kernels::block::kernel_block;
use ore_ring::OreRing;
use ore_rows::Matrix;
use std::alloc::Global;

/// So many links of a resolution of the module that `r` presents.
///
/// # Errors
/// As those of a run on the rows of the last matrix so far.
pub fn find_links<R: OreRing, C: Chooser>(
    ring: &R,
    alloc: Global,
    r: &Matrix,
    count: u8,
    chooser: &mut C,
) -> Result<Links, Halt>
    requires { All (AllBelong (R.sig ring.now)) r.now.rows }
    ensures of { IfOk result (All (IsLinkOf (R.sig ring.now))) }
    ensures many { IfOk result (λ ks. length ks ≡ count) }
    ensures fits { IfOk result (λ ks. 1 ≤ length ks → (matrix_before r.now ks (length ks)).cols ≡ length (matrix_before r.now ks (length ks - 1)).rows) }
    ensures answered { IfOk result (λ ks. FollowsTo (R.sig ring.now) C.allows C.allows_spent (resolution program (R.sig ring.now) count (row_matrix_of r.now)) (C.given chooser.old) (C.given chooser.new) (resolution_of r.now ks)) }
    ensures halts { IfErr result (HaltsIn (R.sig ring.now) C.allows C.allows_spent (resolution program (R.sig ring.now) count (row_matrix_of r.now)) (C.given chooser.old) (C.given chooser.new) (C.settings chooser.new)) }
    ensures within_budget { AreWithinBudget (C.given chooser.old) (C.settings chooser.old).budget → AreWithinBudget (C.given chooser.new) (C.settings chooser.new).budget }
    ensures settings { C.settings chooser.new ≡ C.settings chooser.old }
{
    let mut links = Vec::new(alloc);
    for k in 0..count {
        let link = next_link(ring, alloc, last_matrix(r, &links), chooser)?;
        let Ok(()) = links.push(link) else {
            return Err(Halt::Memory);
        };
    }
    Ok(Links::from_vec(links))
}

// The link behind a matrix: the rows which take it to zeros are the row module of the link.
fn next_link<R: OreRing, C: Chooser>(
    ring: &R,
    alloc: Global,
    last: &Matrix,
    chooser: &mut C,
) -> Result<Link, Halt>
    requires { All (AllBelong (R.sig ring.now)) last.now.rows }
    ensures of { IfOk result (IsLinkOf (R.sig ring.now)) }
    ensures fits { IfOk result (λ k. k.l.cols ≡ length last.now.rows) }
    ensures answered { IfOk result (IsNextLink (R.sig ring.now) C.allows C.allows_spent (row_matrix_of last.now) (C.given chooser.old) (C.given chooser.new)) }
    ensures halts { IfErr result (HaltsIn (R.sig ring.now) C.allows C.allows_spent (run_on program (R.sig ring.now) (row_matrix_of last.now)) (C.given chooser.old) (C.given chooser.new) (C.settings chooser.new)) }
    ensures within_budget { AreWithinBudget (C.given chooser.old) (C.settings chooser.old).budget → AreWithinBudget (C.given chooser.new) (C.settings chooser.new).budget }
    ensures settings { C.settings chooser.new ≡ C.settings chooser.old }
{
    let run = run_on(ring, alloc, last, chooser)?;
    let Ok((l, block)) = kernel_block(ring, alloc, run) else {
        return Err(Halt::Memory);
    };
    let _fits = l.cols();
    Ok(Link { l, block })
}

// The matrix of the last link, or `r` where there is none.
fn last_matrix<'a>(r: &'a Matrix, links: &'a Vec<Link>) -> &'a Matrix
    ensures { result.now ≡ matrix_before r.now links.now.items (length links.now.items) }
{
    if links.len() == 0 {
        r
    } else {
        &links[links.len() - 1].l
    }
}

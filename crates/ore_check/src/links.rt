//! The links of a resolution.

ghost use Rattle.std.specs.Prelude.{◌≡◌, ◌≤◌, ◌-◌, length, IfOk};
ghost use Rattle.std.specs.List.{All};
ghost use Rattle.ore_algebra.specs.Limits.{program};
ghost use Rattle.ore_ring.specs.Belongs.{AllBelong};
ghost use Rattle.ore_parts.specs.OfSignature.{IsLinkOf};
ghost use Rattle.ore_blocks.specs.CheckBlock.{row_matrix_of};
ghost use Rattle.ore_blocks.specs.Judging.{Judges};
ghost use Rattle.ore_check.specs.Check.{adjoints_of, check_links};
ghost use Rattle.ore_check.specs.InnerContracts.{check_link, last_two, matrix_before};

use crate::formed::transposed_adjoint;
use ore_blocks::refusal::required;
use ore_blocks::{Name, Place, Reason, Refusal, Section, exact_block};
use ore_cert::{Link, Links};
use ore_ring::OreRing;
use ore_rows::Matrix;
use std::alloc::Global;

/// The links of a resolution of `r`, each on the matrix before it.
///
/// # Errors
/// The first place whose condition fails, or of which an operation stops; and want of memory.
pub fn check_links<R: OreRing>(
    ring: &R,
    alloc: Global,
    r: &Matrix,
    links: &Links,
) -> Result<(), Refusal>
    requires of { All (AllBelong (R.sig ring.now)) r.now.rows }
    requires links_of { All (IsLinkOf (R.sig ring.now)) links.now }
    ensures judges { Judges (λ _. last_two r.now links.now) result (check_links program (R.sig ring.now) 0 (row_matrix_of r.now) (row_matrix_of r.now) links.now) }
    ensures fits { IfOk result (λ _. 1 ≤ length links.now → (matrix_before r.now links.now (length links.now)).cols ≡ length (matrix_before r.now links.now (length links.now - 1)).rows) }
{
    for i in 0..links.len() {
        check_link(ring, alloc, i, matrix_before(r, links, i), links.get(i))?;
    }
    Ok(())
}

// Link `i`, on the matrix before it.
#[tactic(auto, using(ore_blocks::proofs::Refusals::refuses_on), unfolding(crate::specs::InnerContracts::check_link))]
fn check_link<R: OreRing>(
    ring: &R,
    alloc: Global,
    i: usize,
    before: &Matrix,
    link: &Link,
) -> Result<(), Refusal>
    requires of { All (AllBelong (R.sig ring.now)) before.now.rows }
    requires link_of { IsLinkOf (R.sig ring.now) link.now }
    ensures judges { Judges (λ u. u) result (check_link program (R.sig ring.now) i (row_matrix_of before.now) link.now) }
    ensures fits { IfOk result (λ _. link.now.l.cols ≡ length before.now.rows) }
{
    required(
        Place::Header(Section::Link(i), Name::Generators),
        Reason::Shape,
        link.l.cols() == before.rows(),
    )?;
    exact_block(ring, alloc, before, &link.l, &link.block, Section::Link(i))
}

/// The matrix before link `k`; behind the last link that is its own.
pub fn matrix_before<'a>(r: &'a Matrix, links: &'a Links, k: usize) -> &'a Matrix
    requires { k ≤ length links.now }
    ensures { result.now ≡ matrix_before r.now links.now k }
{
    if k == 0 { r } else { &links.get(k - 1).l }
}

/// The transposed adjoints of the last two matrices of a resolution, the last first.
///
/// # Errors
/// The stop of the first adjoint that stops, at the block behind the links; and want of memory.
#[tactic(auto, using(ore_blocks::proofs::Refusals::refuses_on), unfolding(crate::specs::Check::adjoints_of))]
pub fn adjoints_of<R: OreRing>(
    ring: &R,
    alloc: Global,
    before: &Matrix,
    last: &Matrix,
) -> Result<(Matrix, Matrix), Refusal>
    requires before_of { All (AllBelong (R.sig ring.now)) before.now.rows }
    requires last_of { All (AllBelong (R.sig ring.now)) last.now.rows }
    ensures judges { Judges (λ p. (row_matrix_of p.0, row_matrix_of p.1)) result (adjoints_of program (R.sig ring.now) (row_matrix_of before.now, row_matrix_of last.now)) }
    ensures fits { IfOk result (λ p. last.now.cols ≡ length before.now.rows → p.1.cols ≡ length p.0.rows) }
    ensures of { IfOk result (λ p. All (AllBelong (R.sig ring.now)) p.0.rows × All (AllBelong (R.sig ring.now)) p.1.rows) }
{
    let place = Place::Block(Section::Body);
    let last_adjoint = transposed_adjoint(ring, alloc, place, last)?;
    let before_adjoint = transposed_adjoint(ring, alloc, place, before)?;
    Ok((last_adjoint, before_adjoint))
}

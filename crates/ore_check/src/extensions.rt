//! Resolutions, and certificates of extension modules.

ghost use Rattle.std.specs.Prelude.{◌≡◌, ◌∷◌, []};
ghost use Rattle.std.specs.List.{All};
ghost use Rattle.ore_algebra.specs.Limits.{program};
ghost use Rattle.ore_ring.specs.Belongs.{AllBelong};
ghost use Rattle.ore_rows.specs.Stored.{sums_of};
ghost use Rattle.ore_parts.specs.OfSignature.{IsExactOf, IsOutsideOf};
ghost use Rattle.ore_cert.specs.CertificateOf.{AreLinksOf};
ghost use Rattle.ore_cert.specs.declared.certificate.Certificate.{Certificate};
ghost use Rattle.ore_blocks.specs.CheckBlock.{are_zero, row_matrix_of};
ghost use Rattle.ore_blocks.specs.Judging.{Judges};
ghost use Rattle.ore_check.specs.Check.{check};

use crate::formed::transposed_adjoint;
use crate::links::{adjoints_of, check_links, matrix_before};
use ore_blocks::formed::combined;
use ore_blocks::monic::is_zero;
use ore_blocks::refusal::required;
use ore_blocks::{Name, Place, Reason, Refusal, Section, exact_block, outside_block};
use ore_cert::{ExactBlock, Links, OutsideBlock};
use ore_monomial::Signature;
use ore_ring::OreRing;
use ore_rows::{Matrix, Row};
use std::alloc::Global;

/// A resolution of `r`.
///
/// # Errors
/// The first place whose condition fails, or of which an operation stops; and want of memory.
#[tactic(auto, using(ore_blocks::proofs::Refusals::refuses_on), unfolding(crate::specs::Check::check))]
pub fn resolution<R: OreRing>(
    ring: &R,
    alloc: Global,
    r: &Matrix,
    links: &Links,
) -> Result<(), Refusal>
    requires of { All (AllBelong (R.sig ring.now)) r.now.rows }
    requires links_of { AreLinksOf (R.sig ring.now) links.now }
    ensures { Judges (λ u. u) result (check program (R.sig ring.now) (row_matrix_of r.now) (Certificate.Resolution links.now) tt) }
{
    check_links(ring, alloc, r, links)?;
    Ok(())
}

/// An extension module is zero: the exact block is on the transposed adjoint of the last matrix.
///
/// # Errors
/// The first place whose condition fails, or of which an operation stops; and want of memory.
#[tactic(auto, using(ore_blocks::proofs::Refusals::refuses_on), unfolding(crate::specs::Check::check))]
pub fn extension_zero<R: OreRing>(
    ring: &R,
    alloc: Global,
    r: &Matrix,
    links: &Links,
    block: &ExactBlock,
) -> Result<(), Refusal>
    requires of { All (AllBelong (R.sig ring.now)) r.now.rows }
    requires links_of { AreLinksOf (R.sig ring.now) links.now }
    requires block_of { IsExactOf (R.sig ring.now) block.now }
    ensures { Judges (λ u. u) result (check program (R.sig ring.now) (row_matrix_of r.now) (Certificate.ExtZero links.now block.now) tt) }
{
    check_links(ring, alloc, r, links)?;
    let before = matrix_before(r, links, links.len() - 1);
    let last = matrix_before(r, links, links.len());
    let adjoints = adjoints_of(ring, alloc, before, last)?;
    exact_block(ring, alloc, &adjoints.0, &adjoints.1, block, Section::Body)
}

/// An extension module isn't zero: the element takes the transposed adjoint of the last matrix to zeros, and is outside
/// the row module of that before.
///
/// # Errors
/// The first place whose condition fails, or of which an operation stops; and want of memory.
#[tactic(auto, using(ore_blocks::proofs::Refusals::refuses_on), unfolding(crate::specs::Check::check))]
pub fn extension_nonzero<R: OreRing>(
    ring: &R,
    alloc: Global,
    r: &Matrix,
    links: &Links,
    element: &Row,
    block: &OutsideBlock,
) -> Result<(), Refusal>
    requires of { All (AllBelong (R.sig ring.now)) r.now.rows }
    requires links_of { AreLinksOf (R.sig ring.now) links.now }
    requires element_of { AllBelong (R.sig ring.now) element.now }
    requires block_of { IsOutsideOf (R.sig ring.now) block.now }
    ensures { Judges (λ u. u) result (check program (R.sig ring.now) (row_matrix_of r.now) (Certificate.ExtNonzero links.now element.now block.now) tt) }
{
    check_links(ring, alloc, r, links)?;
    let before = matrix_before(r, links, links.len() - 1);
    let last = matrix_before(r, links, links.len());
    required(
        Place::Header(Section::Body, Name::Element),
        Reason::Shape,
        element.len() == before.rows(),
    )?;
    let place = Place::Row(Section::Body, Name::Element, 0);
    let adjoint = transposed_adjoint(ring, alloc, place, last)?;
    let product = combined(ring, alloc, place, element, &adjoint)?;
    required(
        place,
        Reason::NotInKernel,
        is_zero_alone(ring.signature(), &product),
    )?;
    let adjoint_before = transposed_adjoint(ring, alloc, Place::Block(Section::Body), before)?;
    outside_block(ring, alloc, &adjoint_before, element, block)
}

// Whether a row is zero, as the one row of a matrix.
fn is_zero_alone(sig: &Signature, row: &Row) -> bool
    ensures { result ≡ are_zero program sig.now (sums_of row.now ∷ []) }
{
    is_zero(sig, row)
}

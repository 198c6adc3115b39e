//! The blocks of a certificate.

ghost use Rattle.std.specs.Prelude.{◌≡◌, length};
ghost use Rattle.std.specs.List.{All};
ghost use Rattle.ore_algebra.specs.Limits.{program};
ghost use Rattle.ore_ring.specs.Belongs.{AllBelong};
ghost use Rattle.ore_rows.specs.Stored.{sums_of};
ghost use Rattle.ore_parts.specs.OfSignature.{IsExactOf, IsOutsideOf};
ghost use Rattle.ore_blocks.specs.CheckBlock.{check_exact, check_outside, check_rest, row_matrix_of};
ghost use Rattle.ore_blocks.specs.Judging.{Judges};

use crate::equal::are_same;
use crate::formed::multiplied;
use crate::inside::check_inside;
use crate::monic::{are_zero, is_reduced};
use crate::pairs::check_pairs;
use crate::place::{Name, Place, Section};
use crate::products::{check_basis, check_to};
use crate::reason::Reason;
use crate::refusal::{Refusal, required};
use crate::steps::{quotient_steps, remainder};
use ore_leads::Leads;
use ore_parts::{ExactBlock, OutsideBlock};
use ore_ring::OreRing;
use ore_rows::{Matrix, Row};
use std::alloc::Global;

/// The exact block of a section shows that what takes `a` to zeros is the row module of `m`, which has a column for each
/// row of `a`. The block may have any sizes. All operators are of the signature of the ring.
///
/// # Errors
/// The first place whose condition fails, or of which an operation stops; and want of memory.
#[tactic(auto, using(crate::proofs::Refusals::refuses_on), unfolding(crate::specs::CheckBlock::check_exact))]
pub fn exact_block<R: OreRing>(
    ring: &R,
    alloc: Global,
    a: &Matrix,
    m: &Matrix,
    block: &ExactBlock,
    section: Section,
) -> Result<(), Refusal>
    requires m_cols { m.now.cols ≡ length a.now.rows }
    requires a_of { All (AllBelong (R.sig ring.now)) a.now.rows }
    requires m_of { All (AllBelong (R.sig ring.now)) m.now.rows }
    requires block_of { IsExactOf (R.sig ring.now) block.now }
    ensures { Judges (λ u. u) result (check_exact program (R.sig ring.now) section (row_matrix_of a.now) (row_matrix_of m.now) block.now) }
{
    let place = Place::Block(section);
    let product = multiplied(ring, alloc, place, m, a)?;
    required(
        place,
        Reason::NotInKernel,
        are_zero(ring.signature(), &product),
    )?;
    let leads = check_basis(ring, alloc, a, section, &block.basis, &block.from)?;
    check_to(ring, alloc, a, section, &block.basis, &block.to)?;
    check_pairs(ring, alloc, &block.basis, &leads, section, &block.pairs)?;
    check_inside(ring, alloc, a, m, &leads, section, block)
}

/// The outside block of a certificate shows that `w` is not in the row module of `a`, which has a column for each entry
/// of `w`. The block may have any sizes. All operators are of the signature of the ring.
///
/// # Errors
/// The first place whose condition fails, or of which an operation stops; and want of memory.
#[tactic(auto, using(crate::proofs::Refusals::refuses_on), unfolding(crate::specs::CheckBlock::check_outside))]
pub fn outside_block<R: OreRing>(
    ring: &R,
    alloc: Global,
    a: &Matrix,
    w: &Row,
    block: &OutsideBlock,
) -> Result<(), Refusal>
    requires width { length w.now ≡ a.now.cols }
    requires a_of { All (AllBelong (R.sig ring.now)) a.now.rows }
    requires w_of { AllBelong (R.sig ring.now) w.now }
    requires block_of { IsOutsideOf (R.sig ring.now) block.now }
    ensures { Judges (λ u. u) result (check_outside program (R.sig ring.now) (row_matrix_of a.now) (sums_of w.now) block.now) }
{
    let basis = &block.basis;
    let leads = check_basis(ring, alloc, a, Section::Body, basis, &block.from)?;
    check_pairs(ring, alloc, basis, &leads, Section::Body, &block.pairs)?;
    let left = quotient_steps(ring, alloc, basis, w, &block.quotients)?;
    check_rest(ring, &leads, a.cols(), remainder(&left, w), &block.rest)
}

// The rest is what is left, and no lead divides its lead.
#[tactic(auto, using(crate::proofs::Refusals::refuses_on), unfolding(crate::specs::CheckBlock::check_rest))]
fn check_rest<R: OreRing>(
    ring: &R,
    leads: &Leads,
    cols: usize,
    left: &Row,
    rest: &Row,
) -> Result<(), Refusal>
    requires remainder_of { AllBelong (R.sig ring.now) left.now }
    requires rest_of { AllBelong (R.sig ring.now) rest.now }
    ensures { Judges (λ u. u) result (check_rest program (R.sig ring.now) leads.now cols (sums_of left.now) rest.now) }
{
    required(
        Place::Header(Section::Body, Name::Rest),
        Reason::Shape,
        rest.len() == cols,
    )?;
    let place = Place::Row(Section::Body, Name::Rest, 0);
    required(place, Reason::Rest, are_same(ring, left, rest))?;
    required(
        place,
        Reason::Reducible,
        is_reduced(ring.signature(), leads, rest),
    )
}

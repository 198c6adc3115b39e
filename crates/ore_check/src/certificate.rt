//! Whole certificates, and blocks of their own.

ghost use Rattle.std.specs.Prelude.{◌≡◌, ◌≢◌, ℕ, not, length};
ghost use Rattle.ore_algebra.specs.Free.{empty_sum};
ghost use Rattle.ore_rational.specs.Field.{rationals};
ghost use Rattle.ore_monomial.specs.Monomial.{plain_cmp};
ghost use Rattle.ore_parts.specs.OfSignature.{IsExactOf, IsOutsideOf, MatrixOf};
ghost use Rattle.ore_cert.specs.CertificateOf.{IsCertificateOf};
ghost use Rattle.ore_blocks.specs.Same.{operator_discrete};
ghost use Rattle.std.specs.List.{All};
ghost use Rattle.ore_algebra.specs.Limits.{program};
ghost use Rattle.ore_ring.specs.Belongs.{AllBelong, Belongs};
ghost use Rattle.ore_rows.specs.Stored.{sums_of};
ghost use Rattle.ore_rows.specs.Rows.{InRowModule, IsExact};
ghost use Rattle.ore_rows.specs.Stored.{rows_of};
ghost use Rattle.ore_check.specs.Check.{Answers, IsNoReport, capped, check};
ghost use Rattle.ore_check.specs.InnerContracts.{place_of};
ghost use Rattle.ore_check.specs.Meaning.{Means};
ghost use Rattle.ore_check.specs.Layout.{exact_line, line_in, outside_line};
ghost use Rattle.ore_blocks.specs.CheckBlock.{check_exact, check_outside, row_matrix_of};
ghost use Rattle.ore_blocks.specs.Conditions as conditions;
ghost use Rattle.ore_blocks.specs.Judging.{Judges, Refuses};

use crate::answer::Checked;
use crate::extensions::{extension_nonzero, extension_zero, resolution};
use crate::formed::{scaled, transposed_adjoint};
use crate::layout::{exact_line, line_in, outside_line};
use ore_blocks::equal::{are_same, have_same_rows};
use ore_blocks::formed::{combined, multiplied};
use ore_blocks::products::rows_give;
use ore_blocks::refusal::required;
use ore_blocks::{Name, Place, Reason, Refusal, Section, exact_block, outside_block};
use ore_cert::{Certificate, ExactBlock, OutsideBlock, Side};
use ore_ring::{Op, OreRing};
use ore_rows::{Matrix, Row, identity, unit_row};
use std::alloc::Global;

/// Whether a certificate of the matrix `r` is valid, or the first line of its text that isn't right, from 1: the line of
/// the first place whose condition fails, or of which an operation stops. Where it is valid, what it says of `r` is true.
///
/// The operators of both are of the signature of the ring. A report must not be handed in: it claims nothing of `r`. The
/// certificate may have any sizes: that they fit `r` is a condition of its lines.
pub fn check<R: OreRing>(ring: &R, alloc: Global, r: &Matrix, cert: &Certificate) -> Checked
    requires of { All (AllBelong (R.sig ring.now)) r.now.rows }
    requires cert_of { IsCertificateOf (R.sig ring.now) cert.now }
    requires claims { IsNoReport cert.now }
    ensures answers { (claims : IsNoReport cert.now) → Answers (line_in cert.now) result (check program (R.sig ring.now) (row_matrix_of r.now) cert.now claims) }
    ensures valid { result ≡ Checked.Valid → Means (R.sig ring.now) (row_matrix_of r.now) cert.now }
{
    let _cols = r.cols();
    let Err(refusal) = whole(ring, alloc, r, cert) else {
        return Checked::Valid
    };
    answer(refusal, line_in(alloc, cert, place_of(refusal)))
}

/// Whether an exact block, whose line `block exact` has the number `first`, shows that the rows which take `a` to zeros
/// are the row module of `l`, or the first line that isn't right. Where it is valid, that is so.
///
/// `l` has a column for each row of `a`; the block may have any sizes. All operators are of the signature of the ring.
pub fn check_exact<R: OreRing>(
    ring: &R,
    alloc: Global,
    a: &Matrix,
    l: &Matrix,
    block: &ExactBlock,
    first: u64,
) -> Checked
    requires fits { l.now.cols ≡ length a.now.rows }
    requires a_of { All (AllBelong (R.sig ring.now)) a.now.rows }
    requires l_of { All (AllBelong (R.sig ring.now)) l.now.rows }
    requires block_of { IsExactOf (R.sig ring.now) block.now }
    ensures answers { Answers (exact_line first block.now) result (check_exact program (R.sig ring.now) Section.Body (row_matrix_of a.now) (row_matrix_of l.now) block.now) }
    ensures exact { result ≡ Checked.Valid → IsExact rationals (R.sig ring.now) a.now.cols (rows_of a.now) (rows_of l.now) }
{
    let _cols = a.cols();
    let _columns = l.cols();
    match exact_block(ring, alloc, a, l, block, Section::Body) {
        Ok(()) => Checked::Valid,
        Err(refusal) => answer(refusal, exact_line(first as u128, block, place_of(refusal))),
    }
}

/// Whether an outside block, whose line `block outside` has the number `first`, shows that `w` is not in the row module
/// of `a`, or the first line that isn't right. Where it is valid, that is so.
///
/// `w` has an entry for each column of `a`; the block may have any sizes. All operators are of the signature of the
/// ring.
pub fn check_outside<R: OreRing>(
    ring: &R,
    alloc: Global,
    a: &Matrix,
    w: &Row,
    block: &OutsideBlock,
    first: u64,
) -> Checked
    requires width { length w.now ≡ a.now.cols }
    requires a_of { All (AllBelong (R.sig ring.now)) a.now.rows }
    requires w_of { AllBelong (R.sig ring.now) w.now }
    requires block_of { IsOutsideOf (R.sig ring.now) block.now }
    ensures answers { Answers (outside_line first block.now) result (check_outside program (R.sig ring.now) (row_matrix_of a.now) (sums_of w.now) block.now) }
    ensures outside { result ≡ Checked.Valid → ¬ InRowModule rationals (R.sig ring.now) a.now.cols (rows_of a.now) (sums_of w.now) }
{
    match outside_block(ring, alloc, a, w, block) {
        Ok(()) => Checked::Valid,
        Err(refusal) => answer(
            refusal,
            outside_line(first as u128, block, place_of(refusal)),
        ),
    }
}

// The answer to a refusal, whose place has that line, or both are past 2^64 - 1.
fn answer(refusal: Refusal, line: u128) -> Checked
    ensures fails { result ≢ Checked.Valid }
    ensures answers { (at : Place → ℕ) (given : conditions.Checked (Unit {0})) → capped line ≡ capped (at (place_of refusal)) → Refuses refusal given → Answers at result given }
{
    match refusal {
        Refusal::Fails { reason, .. } => Checked::Invalid {
            line: capped(line),
            reason,
        },
        Refusal::Overflow { .. } => Checked::Overflow { line: capped(line) },
        Refusal::Degree { .. } => Checked::Degree { line: capped(line) },
        Refusal::Memory => Checked::Memory,
    }
}

// The place that a refusal names; want of memory names none, and is given the end.
fn place_of(refusal: Refusal) -> Place
    ensures { result ≡ place_of refusal }
{
    match refusal {
        Refusal::Fails { place, .. } => place,
        Refusal::Overflow { place } => place,
        Refusal::Degree { place } => place,
        Refusal::Memory => Place::End,
    }
}

// A line, or 2^64 - 1 where it is greater.
fn capped(line: u128) -> u64
    ensures { result ≡ capped line }
{
    if line <= u64::MAX as u128 {
        line as u64
    } else {
        u64::MAX
    }
}

// A certificate, by its kind.
fn whole<R: OreRing>(ring: &R, alloc: Global, r: &Matrix, cert: &Certificate) -> Result<(), Refusal>
    requires of { All (AllBelong (R.sig ring.now)) r.now.rows }
    requires cert_of { IsCertificateOf (R.sig ring.now) cert.now }
    requires claims { IsNoReport cert.now }
    ensures { (claims : IsNoReport cert.now) → Judges (λ u. u) result (check program (R.sig ring.now) (row_matrix_of r.now) cert.now claims) }
{
    match cert {
        Certificate::Controllable { q, block } => controllable(ring, alloc, r, q, block),
        Certificate::AutonomousElement {
            element,
            operator,
            cofactor,
            block,
        } => { autonomous(ring, alloc, r, element, operator, cofactor, block) }
        Certificate::LeftInverse { s } => left_inverse(ring, alloc, r, s),
        Certificate::RightInverse { s } => right_inverse(ring, alloc, r, s),
        Certificate::NoLeftInverse { unit, block } => no_left_inverse(ring, alloc, r, *unit, block),
        Certificate::NoRightInverse { unit, block } => no_right_inverse(
            ring, alloc, r, *unit, block,
        ),
        Certificate::Kernel {
            side,
            generators,
            block,
        } => kernel(ring, alloc, r, *side, generators, block),
        Certificate::Resolution { links } => resolution(ring, alloc, r, links),
        Certificate::ExtZero { links, block } => extension_zero(ring, alloc, r, links, block),
        Certificate::ExtNonzero {
            links,
            element,
            block,
        } => extension_nonzero(ring, alloc, r, links, element, block),
        Certificate::Halted { .. } => unreachable!(),
    }
}

#[tactic(auto, using(ore_blocks::proofs::Refusals::refuses_on), unfolding(crate::specs::Check::check))]
fn controllable<R: OreRing>(
    ring: &R,
    alloc: Global,
    r: &Matrix,
    q: &Matrix,
    block: &ExactBlock,
) -> Result<(), Refusal>
    requires of { All (AllBelong (R.sig ring.now)) r.now.rows }
    requires q_of { MatrixOf (R.sig ring.now) q.now }
    requires block_of { IsExactOf (R.sig ring.now) block.now }
    ensures { Judges (λ u. u) result (check program (R.sig ring.now) (row_matrix_of r.now) (Certificate.Controllable q.now block.now) tt) }
{
    required(
        Place::Header(Section::Body, Name::Generators),
        Reason::Shape,
        q.rows() == r.cols(),
    )?;
    exact_block(ring, alloc, q, r, block, Section::Body)
}

#[tactic(auto, using(ore_blocks::proofs::Refusals::refuses_on), unfolding(crate::specs::Check::check))]
fn autonomous<R: OreRing>(
    ring: &R,
    alloc: Global,
    r: &Matrix,
    element: &Row,
    operator: &Op,
    cofactor: &Row,
    block: &OutsideBlock,
) -> Result<(), Refusal>
    requires of { All (AllBelong (R.sig ring.now)) r.now.rows }
    requires element_of { AllBelong (R.sig ring.now) element.now }
    requires operator_of { Belongs (R.sig ring.now) operator.now }
    requires cofactor_of { AllBelong (R.sig ring.now) cofactor.now }
    requires block_of { IsOutsideOf (R.sig ring.now) block.now }
    ensures { Judges (λ u. u) result (check program (R.sig ring.now) (row_matrix_of r.now) (Certificate.AutonomousElement element.now operator.now cofactor.now block.now) tt) }
{
    required(
        Place::Header(Section::Body, Name::Element),
        Reason::Shape,
        element.len() == r.cols(),
    )?;
    required(Place::Operator, Reason::ZeroOperator, is_nonzero(operator))?;
    required(
        Place::Header(Section::Body, Name::Cofactor),
        Reason::Shape,
        cofactor.len() == r.rows(),
    )?;
    let place = Place::Row(Section::Body, Name::Cofactor, 0);
    let left = scaled(ring, alloc, place, operator, element)?;
    let right = combined(ring, alloc, place, cofactor, r)?;
    required(place, Reason::Cofactor, are_same(ring, &left, &right))?;
    outside_block(ring, alloc, r, element, block)
}

// Whether an operator isn't zero.
fn is_nonzero(operator: &Op) -> bool
    ensures { result ≡ not (conditions.is_same operator_discrete operator.now.sum (empty_sum rationals plain_cmp)) }
{
    !operator.is_zero()
}

#[tactic(auto, using(ore_blocks::proofs::Refusals::refuses_on), unfolding(crate::specs::Check::check))]
fn left_inverse<R: OreRing>(ring: &R, alloc: Global, r: &Matrix, s: &Matrix) -> Result<(), Refusal>
    requires of { All (AllBelong (R.sig ring.now)) r.now.rows }
    requires s_of { MatrixOf (R.sig ring.now) s.now }
    ensures { Judges (λ u. u) result (check program (R.sig ring.now) (row_matrix_of r.now) (Certificate.LeftInverse s.now) tt) }
{
    required(
        Place::Header(Section::Body, Name::Inverse),
        Reason::Shape,
        s.rows() == r.cols() && s.cols() == r.rows(),
    )?;
    let wanted = identity(alloc, ring.signature(), r.cols())?;
    rows_give(
        ring,
        alloc,
        Reason::Identity,
        r,
        Section::Body,
        Name::Inverse,
        s,
        &wanted,
    )
}

#[tactic(auto, using(ore_blocks::proofs::Refusals::refuses_on), unfolding(crate::specs::Check::check))]
fn right_inverse<R: OreRing>(ring: &R, alloc: Global, r: &Matrix, s: &Matrix) -> Result<(), Refusal>
    requires of { All (AllBelong (R.sig ring.now)) r.now.rows }
    requires s_of { MatrixOf (R.sig ring.now) s.now }
    ensures { Judges (λ u. u) result (check program (R.sig ring.now) (row_matrix_of r.now) (Certificate.RightInverse s.now) tt) }
{
    required(
        Place::Header(Section::Body, Name::Inverse),
        Reason::Shape,
        s.rows() == r.cols() && s.cols() == r.rows(),
    )?;
    let product = multiplied(ring, alloc, Place::End, r, s)?;
    let wanted = identity(alloc, ring.signature(), r.rows())?;
    required(
        Place::End,
        Reason::Identity,
        have_same_rows(ring, &product, &wanted),
    )
}

#[tactic(auto, using(ore_blocks::proofs::Refusals::refuses_on), unfolding(crate::specs::Check::check))]
fn no_left_inverse<R: OreRing>(
    ring: &R,
    alloc: Global,
    r: &Matrix,
    unit: usize,
    block: &OutsideBlock,
) -> Result<(), Refusal>
    requires of { All (AllBelong (R.sig ring.now)) r.now.rows }
    requires block_of { IsOutsideOf (R.sig ring.now) block.now }
    ensures { Judges (λ u. u) result (check program (R.sig ring.now) (row_matrix_of r.now) (Certificate.NoLeftInverse unit block.now) tt) }
{
    required(Place::Unit, Reason::Unit, unit < r.cols())?;
    let row = unit_row(alloc, ring.signature(), r.cols(), unit)?;
    outside_block(ring, alloc, r, &row, block)
}

#[tactic(auto, using(ore_blocks::proofs::Refusals::refuses_on), unfolding(crate::specs::Check::check))]
fn no_right_inverse<R: OreRing>(
    ring: &R,
    alloc: Global,
    r: &Matrix,
    unit: usize,
    block: &OutsideBlock,
) -> Result<(), Refusal>
    requires of { All (AllBelong (R.sig ring.now)) r.now.rows }
    requires block_of { IsOutsideOf (R.sig ring.now) block.now }
    ensures { Judges (λ u. u) result (check program (R.sig ring.now) (row_matrix_of r.now) (Certificate.NoRightInverse unit block.now) tt) }
{
    required(Place::Unit, Reason::Unit, unit < r.rows())?;
    let adjoint = transposed_adjoint(ring, alloc, Place::Block(Section::Body), r)?;
    let row = unit_row(alloc, ring.signature(), r.rows(), unit)?;
    outside_block(ring, alloc, &adjoint, &row, block)
}

// A kernel, by its side.
#[tactic(auto, using(ore_blocks::proofs::Refusals::refuses_on), unfolding(crate::specs::Check::check))]
fn kernel<R: OreRing>(
    ring: &R,
    alloc: Global,
    r: &Matrix,
    side: Side,
    generators: &Matrix,
    block: &ExactBlock,
) -> Result<(), Refusal>
    requires of { All (AllBelong (R.sig ring.now)) r.now.rows }
    requires generators_of { MatrixOf (R.sig ring.now) generators.now }
    requires block_of { IsExactOf (R.sig ring.now) block.now }
    ensures { Judges (λ u. u) result (check program (R.sig ring.now) (row_matrix_of r.now) (Certificate.Kernel side generators.now block.now) tt) }
{
    let header = Place::Header(Section::Body, Name::Generators);
    match side {
        Side::Left => {
            required(header, Reason::Shape, generators.cols() == r.rows())?;
            exact_block(ring, alloc, r, generators, block, Section::Body)
        }
        Side::Right => {
            required(header, Reason::Shape, generators.rows() == r.cols())?;
            let place = Place::Block(Section::Body);
            let adjoint = transposed_adjoint(ring, alloc, place, r)?;
            let other = transposed_adjoint(ring, alloc, place, generators)?;
            exact_block(ring, alloc, &adjoint, &other, block, Section::Body)
        }
    }
}

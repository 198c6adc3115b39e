//! Operations of a ring on rows.

ghost use Rattle.std.specs.Prelude.{◌≡◌, true, length, IfOk, IfErr};
ghost use Rattle.std.specs.List.{All};
ghost use Rattle.ore_algebra.specs.Limits.{program};
ghost use Rattle.ore_monomial.specs.Gives.{Gives};
ghost use Rattle.ore_monomial.specs.declared.stop.RingStop.TheVariants.{Memory};
ghost use Rattle.ore_rational.specs.Field.{rationals};
ghost use Rattle.ore_ring.specs.Belongs.{AllBelong, Belongs};
ghost use Rattle.ore_rows.specs.Arithmetic.{within};
ghost use Rattle.ore_rows.specs.Reduction.{less_multiple};
ghost use Rattle.ore_rows.specs.RowsWithin.{scale_within, row_sum_within, row_difference_within, HasDegrees, in_turn};
ghost use Rattle.ore_rows.specs.Stored.{sums_of};

use crate::entry_ops::{add, less, mul, sub, take};
use crate::row::Row;
use ore_monomial::RingStop;
use ore_ring::{Op, OreRing, degrees_fit};
use std::alloc::Global;
use std::mem;

/// `f` times each entry, in order. `f` and the entries are of the signature of the ring.
///
/// # Errors
/// The stop of the first product that stops, and want of memory.
pub fn scale<R: OreRing>(ring: &R, alloc: Global, f: &Op, row: &Row) -> Result<Row, RingStop>
    requires f_of { Belongs (R.sig ring.now) f.now }
    requires row_of { AllBelong (R.sig ring.now) row.now }
    ensures gives { Gives sums_of result (scale_within program (R.sig ring.now) f.now.sum (sums_of row.now)) }
    ensures of { IfOk result (AllBelong (R.sig ring.now)) }
    ensures width { IfOk result (λ r. length r ≡ length row.now) }
{
    let mut out = Vec::with_capacity(alloc, row.len())?;
    for g in row.entries() {
        out.push(mul(ring, alloc, f, g)?)?;
    }
    Ok(Row::from_vec(out))
}

/// An equal row, its entries copied in order.
///
/// # Errors
/// Want of memory.
pub fn row_copy<R: OreRing>(ring: &R, alloc: Global, row: &Row) -> Result<Row, RingStop>
    ensures same { IfOk result (λ r. r ≡ row.now) }
    ensures memory { IfErr result (λ e. e ≡ Memory) }
{
    let mut out = Vec::with_capacity(alloc, row.len())?;
    for g in row.entries() {
        out.push(ring.copy(alloc, g)?)?;
    }
    Ok(Row::from_vec(out))
}

/// The sum of two rows of one length, entry by entry. All entries are of the signature of the ring.
///
/// # Errors
/// The stop of the first sum that stops, and want of memory.
pub fn row_add<R: OreRing>(ring: &R, alloc: Global, a: &Row, b: &Row) -> Result<Row, RingStop>
    requires lengths { length a.now ≡ length b.now }
    requires a_of { AllBelong (R.sig ring.now) a.now }
    requires b_of { AllBelong (R.sig ring.now) b.now }
    ensures gives { Gives sums_of result (row_sum_within program (sums_of a.now) (sums_of b.now)) }
    ensures of { IfOk result (AllBelong (R.sig ring.now)) }
    ensures width { IfOk result (λ r. length r ≡ length a.now) }
{
    let mut out = Vec::with_capacity(alloc, a.len())?;
    for (f, g) in a.entries().iter().zip(b.entries()) {
        out.push(add(ring, alloc, f, g)?)?;
    }
    Ok(Row::from_vec(out))
}

/// The difference of two rows of one length, entry by entry. All entries are of the signature of the ring.
///
/// # Errors
/// The stop of the first difference that stops, and want of memory.
pub fn row_sub<R: OreRing>(ring: &R, alloc: Global, a: &Row, b: &Row) -> Result<Row, RingStop>
    requires lengths { length a.now ≡ length b.now }
    requires a_of { AllBelong (R.sig ring.now) a.now }
    requires b_of { AllBelong (R.sig ring.now) b.now }
    ensures gives { Gives sums_of result (row_difference_within program (sums_of a.now) (sums_of b.now)) }
    ensures of { IfOk result (AllBelong (R.sig ring.now)) }
    ensures width { IfOk result (λ r. length r ≡ length a.now) }
{
    let mut out = Vec::with_capacity(alloc, a.len())?;
    for (f, g) in a.entries().iter().zip(b.entries()) {
        out.push(sub(ring, alloc, f, g)?)?;
    }
    Ok(Row::from_vec(out))
}

/// The difference of two rows of one length, entry by entry. An entry of the first row from which zero is taken is
/// moved. All entries are of the signature of the ring.
///
/// # Errors
/// The stop of the first difference that stops, and want of memory. Then the first row is dropped.
pub fn row_take<R: OreRing>(ring: &R, alloc: Global, row: Row, other: &Row) -> Result<Row, RingStop>
    requires lengths { length row ≡ length other.now }
    requires row_of { AllBelong (R.sig ring.now) row }
    requires other_of { AllBelong (R.sig ring.now) other.now }
    ensures gives { Gives sums_of result (row_difference_within program (sums_of row) (sums_of other.now)) }
    ensures of { IfOk result (AllBelong (R.sig ring.now)) }
    ensures width { IfOk result (λ r. length r ≡ length row) }
{
    let mut out = Vec::with_capacity(alloc, row.len())?;
    for (f, g) in row.into_vec().into_iter().zip(other.entries()) {
        out.push(take(ring, alloc, f, g)?)?;
    }
    Ok(Row::from_vec(out))
}

/// A row less `f` times another of its length. It stops as if the products were formed in order, and then the
/// differences. Entries whose multiple is zero are moved. All operators are of the signature of the ring.
///
/// # Errors
/// The stop of the first product or difference that stops, and want of memory. Then the first row is dropped.
#[tactic(auto, unfolding(crate::specs::Reduction::less_multiple))]
pub fn row_less<R: OreRing>(
    ring: &R,
    alloc: Global,
    row: Row,
    f: &Op,
    other: &Row,
) -> Result<Row, RingStop>
    requires lengths { length row ≡ length other.now }
    requires row_of { AllBelong (R.sig ring.now) row }
    requires f_of { Belongs (R.sig ring.now) f.now }
    requires other_of { AllBelong (R.sig ring.now) other.now }
    ensures gives { Gives sums_of result (less_multiple rationals (within program (R.sig ring.now)) f.now.sum (sums_of other.now) (sums_of row)) }
    ensures of { IfOk result (AllBelong (R.sig ring.now)) }
    ensures width { IfOk result (λ r. length r ≡ length row) }
{
    if degrees_fit_in(ring, f, other) {
        return less_in_turn(ring, alloc, row, f, other);
    }
    let multiple = scale(ring, alloc, f, other)?;
    row_take(ring, alloc, row, &multiple)
}

// Whether the degrees of `f` times each entry fit.
fn degrees_fit_in<R: OreRing>(ring: &R, f: &Op, row: &Row) -> bool
    requires f_of { Belongs (R.sig ring.now) f.now }
    requires row_of { AllBelong (R.sig ring.now) row.now }
    ensures { result ≡ true → All (λ g. HasDegrees (R.sig ring.now) f.now.sum g.sum) row.now }
{
    let _ = ring;
    for g in row.entries() {
        if !degrees_fit(f, g) {
            return false;
        }
    }
    true
}

// Entry by entry, each less `f` times the other entry, in the memory of the row; an entry stays where the other one is
// zero. Where all degrees fit, only Overflow stops a product or a difference, so it doesn't matter which comes first.
fn less_in_turn<R: OreRing>(
    ring: &R,
    alloc: Global,
    row: Row,
    f: &Op,
    other: &Row,
) -> Result<Row, RingStop>
    requires lengths { length row ≡ length other.now }
    requires row_of { AllBelong (R.sig ring.now) row }
    requires f_of { Belongs (R.sig ring.now) f.now }
    requires other_of { AllBelong (R.sig ring.now) other.now }
    ensures gives { Gives sums_of result (in_turn program (R.sig ring.now) f.now.sum (sums_of row) (sums_of other.now)) }
    ensures of { IfOk result (AllBelong (R.sig ring.now)) }
    ensures width { IfOk result (λ r. length r ≡ length row) }
{
    let mut entries = row.into_vec();
    for k in 0..entries.len() {
        let g = other.entry(k);
        if g.is_zero() {
            continue;
        }
        let entry = mem::replace(&mut entries[k], Op::zero(alloc, f.order()));
        entries[k] = less(ring, alloc, f, entry, g)?;
    }
    Ok(Row::from_vec(entries))
}

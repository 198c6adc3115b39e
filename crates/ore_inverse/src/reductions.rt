//! Rows reduced one after another, up to the first of which something is left.

ghost use Rattle.std.specs.Prelude.{◌≡◌, ◌<◌, ◌^◌, [], length, IfOk, IfErr};
ghost use Rattle.std.specs.List.{All};
ghost use Rattle.ore_algebra.specs.Limits.{program};
ghost use Rattle.ore_rational.specs.Field.{rationals};
ghost use Rattle.ore_monomial.specs.Gives.{Gives};
ghost use Rattle.ore_monomial.specs.declared.stop.RingStop.TheVariants.{Memory};
ghost use Rattle.ore_ring.specs.Belongs.{AllBelong, Belongs};
ghost use Rattle.ore_ring.specs.Within.{opposite};
ghost use Rattle.ore_rows.specs.Arithmetic.{within};
ghost use Rattle.ore_rows.specs.ReduceRows as reduction;
ghost use Rattle.ore_rows.specs.Rows.{identity_rows, zero_row};
ghost use Rattle.ore_rows.specs.Stored.{rows_of, sums_of};
ghost use Rattle.ore_rows.specs.StoredBasis.{BasisBelongs, monics};
ghost use Rattle.ore_division.specs.StoredWork.{work_of};
ghost use Rattle.ore_inverse.specs.StoredReductions.{reductions_of, AreReductionsOf};

use ore_division::{Reduced, reduce};
use ore_monomial::{NoMemory, RingStop, Signature};
use ore_ring::{Op, OreRing};
use ore_rows::{Basis, Matrix, Row, Steps, identity, row_copy, unit_row};
use std::alloc::Global;

/// What reducing rows in order gives.
#[derive(Drop)]
pub enum Reductions {
    /// Of each row nothing is left; the rows of this matrix, times the matrix of the run that made the basis, are the rows.
    AllReduce(Matrix),
    /// The place of the first row of which something is left, from 0, and what that is.
    LeavesRest(usize, Reduced),
}

/// Reduces the rows of a matrix by a basis, in order, up to the first of which something is left.
///
/// The matrix has `basis.cols()` columns. All operators, also those of the basis, are of the signature of the ring. The
/// combinations have `basis.width()` columns, which is below 2^63, and a row for each row of the matrix.
///
/// # Errors
/// The stop of the first product or difference that stops, and want of memory.
pub fn reduce_rows<R: OreRing>(
    ring: &R,
    alloc: Global,
    basis: &Basis,
    rows: &Matrix,
) -> Result<Reductions, RingStop>
    requires cols { rows.now.cols ≡ basis.now.cols }
    requires few { basis.now.width < 2 ^ 63 }
    requires rows_of { All (AllBelong (R.sig ring.now)) rows.now.rows }
    requires basis_of { BasisBelongs (R.sig ring.now) basis.now.items }
    ensures gives { Gives reductions_of result (reduction.reduce_rows rationals (R.sig ring.now).order (within program (R.sig ring.now)) basis.now.width (monics basis.now) (rows_of rows.now)) }
    ensures of { IfOk result (AreReductionsOf (R.sig ring.now) basis.now.width) }
{
    let mut out = Vec::new(alloc);
    for k in 0..rows.rows() {
        let left = reduce_row(ring, alloc, basis, rows.row(k))?;
        if !left.row.is_zero() {
            return Ok(Reductions::LeavesRest(k, left));
        }
        out.push(negated(ring, alloc, &left.cofactor)?)?;
    }
    Ok(Reductions::AllReduce(Matrix::from_rows(basis.width(), out)))
}

/// Reduces the unit rows of `n` entries by a basis, in order, up to the first of which something is left.
///
/// The rows of the basis have `n` entries. All else is as in [`reduce_rows`].
///
/// # Errors
/// As those of [`reduce_rows`].
pub fn reduce_units<R: OreRing>(
    ring: &R,
    alloc: Global,
    basis: &Basis,
    n: usize,
) -> Result<Reductions, RingStop>
    requires cols { n ≡ basis.now.cols }
    requires few { basis.now.width < 2 ^ 63 }
    requires basis_of { BasisBelongs (R.sig ring.now) basis.now.items }
    ensures gives { Gives reductions_of result (reduction.reduce_rows rationals (R.sig ring.now).order (within program (R.sig ring.now)) basis.now.width (monics basis.now) (identity_rows rationals n)) }
    ensures of { IfOk result (AreReductionsOf (R.sig ring.now) basis.now.width) }
{
    let units = identity(alloc, ring.signature(), n)?;
    reduce_rows(ring, alloc, basis, &units)
}

// A row, reduced beside a cofactor row of zeros.
fn reduce_row<R: OreRing>(
    ring: &R,
    alloc: Global,
    basis: &Basis,
    row: &Row,
) -> Result<Reduced, RingStop>
    requires width { length row.now ≡ basis.now.cols }
    requires row_of { AllBelong (R.sig ring.now) row.now }
    requires basis_of { BasisBelongs (R.sig ring.now) basis.now.items }
    ensures gives { Gives work_of result (reduction.reduce_row rationals (R.sig ring.now).order (within program (R.sig ring.now)) basis.now.width (monics basis.now) (sums_of row.now)) }
    ensures row_of { IfOk result (λ w. AllBelong (R.sig ring.now) w.row) }
    ensures cofactor_of { IfOk result (λ w. AllBelong (R.sig ring.now) w.cofactor) }
    ensures cofactor_width { IfOk result (λ w. length w.cofactor ≡ basis.now.width) }
{
    let copy = row_copy(ring, alloc, row)?;
    let zeros = zero_row(alloc, ring.signature(), basis.width())?;
    reduce(ring, alloc, basis, copy, zeros)
}

/// What is left of a row, as a row from which no steps are taken.
pub fn without_steps(alloc: Global, rest: Reduced) -> Reduced
    ensures row { result.row ≡ rest.row }
    ensures steps { result.steps ≡ [] }
{
    Reduced {
        row: rest.row,
        cofactor: rest.cofactor,
        steps: Steps::from_vec(Vec::new(alloc)),
    }
}

/// The row of `n` zeros.
///
/// # Errors
/// Want of memory.
pub fn zero_row(alloc: Global, sig: &Signature, n: usize) -> Result<Row, NoMemory>
    ensures value { IfOk result (λ r. sums_of r ≡ zero_row rationals n) }
    ensures width { IfOk result (λ r. length r ≡ n) }
    ensures of { IfOk result (AllBelong sig.now) }
{
    unit_row(alloc, sig, n, n)
}

/// The opposite of each entry of a row, whose entries are of the signature of the ring.
///
/// # Errors
/// Want of memory.
pub fn negated<R: OreRing>(ring: &R, alloc: Global, row: &Row) -> Result<Row, RingStop>
    requires { AllBelong (R.sig ring.now) row.now }
    ensures value { IfOk result (λ r. sums_of r ≡ reduction.negated rationals (sums_of row.now)) }
    ensures width { IfOk result (λ r. length r ≡ length row.now) }
    ensures of { IfOk result (AllBelong (R.sig ring.now)) }
    ensures memory { IfErr result (λ e. e ≡ Memory) }
{
    let mut out = Vec::new(alloc);
    for k in 0..row.len() {
        out.push(opposite(ring, alloc, row.entry(k))?)?;
    }
    Ok(Row::from_vec(out))
}

// The opposite of an operator.
fn opposite<R: OreRing>(ring: &R, alloc: Global, f: &Op) -> Result<Op, RingStop>
    requires { Belongs (R.sig ring.now) f.now }
    ensures value { IfOk result (λ g. g.sum ≡ opposite f.now.sum) }
    ensures of { IfOk result (Belongs (R.sig ring.now)) }
    ensures memory { IfErr result (λ e. e ≡ Memory) }
{
    Ok(ring.copy(alloc, f)?.negated())
}

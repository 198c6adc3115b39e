//! Operations of a ring on matrices.

ghost use Rattle.std.specs.Prelude.{◌≡◌, ◌<◌, ◌∷◌, length, IfOk, IfErr};
ghost use Rattle.std.specs.List.{All};
ghost use Rattle.ore_algebra.specs.Limits.{program};
ghost use Rattle.ore_monomial.specs.Gives.{Gives};
ghost use Rattle.ore_monomial.specs.declared.stop.RingStop.TheVariants.{Memory};
ghost use Rattle.ore_ring.specs.Belongs.{AllBelong, Belongs};
ghost use Rattle.ore_rows.specs.RowsWithin.{AreEnough, combine_within, dot_within, matrix_times_within, product_added};
ghost use Rattle.ore_rows.specs.Stored.{places, rows_of, sums_of};

use crate::entry_ops::join;
use crate::matrix::Matrix;
use crate::row::Row;
use crate::row_ops::row_copy;
use ore_monomial::{NoMemory, RingStop};
use ore_ring::{Op, OreRing};
use std::alloc::Global;

/// The row `c` times the matrix `m`: q entries times q rows by p columns make p entries. The columns are taken in
/// order, and for each the products in order. All entries are of the signature of the ring.
///
/// # Errors
/// The stop of the first product or sum that stops, and want of memory.
pub fn combine<R: OreRing>(ring: &R, alloc: Global, c: &Row, m: &Matrix) -> Result<Row, RingStop>
    requires rows { length c.now ≡ length m.now.rows }
    requires c_of { AllBelong (R.sig ring.now) c.now }
    requires m_of { All (AllBelong (R.sig ring.now)) m.now.rows }
    ensures gives { Gives sums_of result (combine_within program (R.sig ring.now) m.now.cols (sums_of c.now) (rows_of m.now)) }
    ensures of { IfOk result (AllBelong (R.sig ring.now)) }
    ensures width { IfOk result (λ r. length r ≡ m.now.cols) }
{
    let nonzero = nonzero_places(alloc, c)?;
    let mut out = Vec::with_capacity(alloc, m.cols())?;
    for j in 0..m.cols() {
        out.push(dot(ring, alloc, c, m, &nonzero, j)?)?;
    }
    Ok(Row::from_vec(out))
}

/// The product of two matrices, row by row: q rows by r columns times r rows by p columns make q rows by p
/// columns. All entries are of the signature of the ring.
///
/// # Errors
/// The stop of the first row that stops, and want of memory.
pub fn times<R: OreRing>(
    ring: &R,
    alloc: Global,
    a: &Matrix,
    b: &Matrix,
) -> Result<Matrix, RingStop>
    requires fits { a.now.cols ≡ length b.now.rows }
    requires a_of { All (AllBelong (R.sig ring.now)) a.now.rows }
    requires b_of { All (AllBelong (R.sig ring.now)) b.now.rows }
    ensures gives { Gives rows_of result (matrix_times_within program (R.sig ring.now) b.now.cols (rows_of a.now) (rows_of b.now)) }
    ensures cols { IfOk result (λ m. m.cols ≡ b.now.cols) }
    ensures of { IfOk result (λ m. All (AllBelong (R.sig ring.now)) m.rows) }
{
    let mut out = Vec::with_capacity(alloc, a.rows())?;
    for row in a.rows_slice() {
        out.push(combine(ring, alloc, row, b)?)?;
    }
    Ok(Matrix::from_rows(b.cols(), out))
}

/// The row `z` above the rows of `m`, all of them copied: p entries above q rows by p columns make q + 1 rows by
/// p columns. All entries are of the signature of the ring.
///
/// # Errors
/// Want of memory.
pub fn stack<R: OreRing>(ring: &R, alloc: Global, z: &Row, m: &Matrix) -> Result<Matrix, RingStop>
    requires width { length z.now ≡ m.now.cols }
    requires z_of { AllBelong (R.sig ring.now) z.now }
    requires m_of { All (AllBelong (R.sig ring.now)) m.now.rows }
    ensures value { IfOk result (λ x. x ≡ record { cols = m.now.cols; rows = z.now ∷ m.now.rows }) }
    ensures memory { IfErr result (λ e. e ≡ Memory) }
    ensures of { IfOk result (λ x. All (AllBelong (R.sig ring.now)) x.rows) }
{
    let mut out = Vec::new(alloc);
    out.push(row_copy(ring, alloc, z)?)?;
    for row in m.rows_slice() {
        out.push(row_copy(ring, alloc, row)?)?;
    }
    Ok(Matrix::from_rows(m.cols(), out))
}

// A product added to an operator.
#[tactic(auto, unfolding(crate::specs::RowsWithin::product_added))]
fn add_product<R: OreRing>(ring: &R, alloc: Global, acc: Op, f: &Op, g: &Op) -> Result<Op, RingStop>
    requires acc_of { Belongs (R.sig ring.now) acc }
    requires f_of { Belongs (R.sig ring.now) f.now }
    requires g_of { Belongs (R.sig ring.now) g.now }
    ensures gives { Gives (λ f. f.sum) result (product_added program (R.sig ring.now) acc.sum (f.now.sum, g.now.sum)) }
    ensures of { IfOk result (Belongs (R.sig ring.now)) }
{
    let product = ring.mul(alloc, f, g)?;
    join(ring, alloc, acc, product)
}

// The places of the entries that aren't zero, in order.
fn nonzero_places(alloc: Global, c: &Row) -> Result<Vec<usize>, NoMemory>
    ensures enough { IfOk result (λ x. AreEnough x.items (sums_of c.now)) }
    ensures inside { IfOk result (λ x. All (λ k. k < length c.now) x.items) }
{
    let mut out = Vec::new(alloc);
    for k in 0..c.len() {
        if c.entry(k).is_zero() {
            continue;
        }
        out.push(k)?;
    }
    Ok(out)
}

// A row times the column at place `j` of a matrix, by the entries of the row at the places `nonzero`; those of the
// column that are zero are passed over.
fn dot<R: OreRing>(
    ring: &R,
    alloc: Global,
    c: &Row,
    m: &Matrix,
    nonzero: &[usize],
    j: usize,
) -> Result<Op, RingStop>
    requires c_of { AllBelong (R.sig ring.now) c.now }
    requires m_of { All (AllBelong (R.sig ring.now)) m.now.rows }
    requires rows { length c.now ≡ length m.now.rows }
    requires column { j < m.now.cols }
    requires enough { AreEnough nonzero.now (sums_of c.now) }
    requires inside { All (λ k. k < length c.now) nonzero.now }
    ensures gives { Gives (λ f. f.sum) result (dot_within program (R.sig ring.now) (sums_of c.now) (places j m.now.rows)) }
    ensures of { IfOk result (Belongs (R.sig ring.now)) }
{
    let mut acc = Op::zero(alloc, ring.signature().order());
    for k in nonzero {
        let g = m.row(*k).entry(j);
        if g.is_zero() {
            continue;
        }
        acc = add_product(ring, alloc, acc, c.entry(*k), g)?;
    }
    Ok(acc)
}

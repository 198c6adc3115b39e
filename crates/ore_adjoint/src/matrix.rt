//! The transposed adjoint of a matrix.

ghost use Rattle.std.specs.Prelude.{◌≡◌, ◌<◌, length, IfOk};
ghost use Rattle.std.specs.List.{All};
ghost use Rattle.ore_adjoint.specs.AdjointMatrix.{adjoint_column_within, transpose_adjoint_within};
ghost use Rattle.ore_algebra.specs.Limits.{program};
ghost use Rattle.ore_monomial.specs.Gives.{Gives};
ghost use Rattle.ore_ring.specs.AdjointWithin.{adjoint_within};
ghost use Rattle.ore_ring.specs.Belongs.{AllBelong, Belongs};
ghost use Rattle.ore_rows.specs.Stored.{rows_of, sums_of};

use ore_monomial::RingStop;
use ore_ring::{Op, OreRing};
use ore_rows::{Matrix, Row};
use std::alloc::Global;

/// The transpose of a matrix, each entry replaced by its adjoint: of q rows and p columns it makes p rows
/// and q columns. The entries are of the signature of the ring.
///
/// # Errors
/// The stop of the first adjoint that stops, column by column of `m`, and want of memory.
pub fn transpose_adjoint<R: OreRing>(
    ring: &R,
    alloc: Global,
    m: &Matrix,
) -> Result<Matrix, RingStop>
    requires of { All (AllBelong (R.sig ring.now)) m.now.rows }
    ensures gives { Gives rows_of result (transpose_adjoint_within program (R.sig ring.now) m.now.cols (rows_of m.now)) }
    ensures cols { IfOk result (λ t. t.cols ≡ length m.now.rows) }
    ensures count { IfOk result (λ t. length t.rows ≡ m.now.cols) }
    ensures of { IfOk result (λ t. All (AllBelong (R.sig ring.now)) t.rows) }
{
    let mut out = Vec::new(alloc);
    for j in 0..m.cols() {
        out.push(adjoint_column(ring, alloc, m, j)?)?;
    }
    Ok(Matrix::from_rows(m.rows(), out))
}

// The adjoints of the entries at place `j`, from the first row to the last.
fn adjoint_column<R: OreRing>(
    ring: &R,
    alloc: Global,
    m: &Matrix,
    j: usize,
) -> Result<Row, RingStop>
    requires of { All (AllBelong (R.sig ring.now)) m.now.rows }
    requires place { j < m.now.cols }
    ensures gives { Gives sums_of result (adjoint_column_within program (R.sig ring.now) j (rows_of m.now)) }
    ensures of { IfOk result (AllBelong (R.sig ring.now)) }
    ensures width { IfOk result (λ r. length r ≡ length m.now.rows) }
{
    let mut out = Vec::new(alloc);
    for i in 0..m.rows() {
        out.push(adjoint(ring, alloc, m.row(i).entry(j))?)?;
    }
    Ok(Row::from_vec(out))
}

// The adjoint of an entry; that of zero is zero, and isn't formed.
fn adjoint<R: OreRing>(ring: &R, alloc: Global, f: &Op) -> Result<Op, RingStop>
    requires { Belongs (R.sig ring.now) f.now }
    ensures gives { Gives (λ f. f.sum) result (adjoint_within program (R.sig ring.now) f.now.sum) }
    ensures of { IfOk result (Belongs (R.sig ring.now)) }
{
    if f.is_zero() {
        return Ok(Op::zero(alloc, ring.signature().order()));
    }
    ring.adjoint(alloc, f)
}

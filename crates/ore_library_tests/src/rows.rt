//! Products of rows and matrices over a ring that has all kinds of letters.

ghost use Rattle.std.specs.Prelude.{◌≡◌, IfOk, length};
ghost use Rattle.std.specs.List.{All};
ghost use Rattle.ore_ring.specs.Belongs.{AllBelong};

use ore_agree::operators::{Term, mixed, operator};
use ore_mixed::MixedRing;
use ore_monomial::{Order, Signature};
use ore_ring::OreRing;
use ore_rows::{Matrix, Row, combine, times};
use std::alloc::Global;
use std::test::Fail;

pub(crate) const ONE: Term = (1, [0; 12]);

pub(crate) const T: Term = (1, [1, 0, 0, 0, 0, 0, 0, 0, 0, 0, 0, 0]);

const T_SQUARED: Term = (1, [2, 0, 0, 0, 0, 0, 0, 0, 0, 0, 0, 0]);

pub(crate) const D: Term = (1, [0, 0, 0, 0, 0, 0, 1, 0, 0, 0, 0, 0]);

const D_SQUARED: Term = (1, [0, 0, 0, 0, 0, 0, 2, 0, 0, 0, 0, 0]);

pub(crate) const T_D: Term = (1, [1, 0, 0, 0, 0, 0, 1, 0, 0, 0, 0, 0]);

const TWICE_T_D: Term = (2, [1, 0, 0, 0, 0, 0, 1, 0, 0, 0, 0, 0]);

// The row of two operators.
pub(crate) fn row_of(
    signature: &Signature,
    alloc: Global,
    first: &[Term],
    second: &[Term],
) -> Result<Row, Fail>
    requires { length signature.now.kinds ≡ 12 }
    ensures of { IfOk result (AllBelong signature.now) }
    ensures two { IfOk result (λ r. length r ≡ 2) }
{
    let mut entries = Vec::new(alloc);
    entries.push(operator(signature, alloc, first)?)?;
    entries.push(operator(signature, alloc, second)?)?;
    Ok(Row::from_vec(entries))
}

// The matrix of two rows, of two terms each.
fn matrix_of(
    signature: &Signature,
    alloc: Global,
    first: [Term; 2],
    second: [Term; 2],
) -> Result<Matrix, Fail>
    requires { length signature.now.kinds ≡ 12 }
    ensures of { IfOk result (λ m. All (AllBelong signature.now) m.rows) }
    ensures cols { IfOk result (λ m. m.cols ≡ 2) }
    ensures two { IfOk result (λ m. length m.rows ≡ 2) }
{
    let mut rows = Vec::new(alloc);
    rows.push(row_of(signature, alloc, &[first[0]], &[first[1]])?)?;
    rows.push(row_of(signature, alloc, &[second[0]], &[second[1]])?)?;
    Ok(Matrix::from_rows(2, rows))
}

// Whether two rows of two operators are equal.
fn equal(a: &Row, b: &Row) -> bool {
    if a.len() != 2 || b.len() != 2 {
        return false;
    }
    a.entry(0).equal(b.entry(0)) && a.entry(1).equal(b.entry(1))
}

// Whether a row is that of two operators.
pub(crate) fn is_row(
    signature: &Signature,
    alloc: Global,
    row: &Row,
    first: &[Term],
    second: &[Term],
) -> Result<bool, Fail>
    requires { length signature.now.kinds ≡ 12 }
{
    Ok(equal(row, &row_of(signature, alloc, first, second)?))
}

// Whether (d, t) by the rows (t, 1) and (d, t) is (d t + t d, d + t^2).
fn combines(ring: &MixedRing, alloc: Global, m: &Matrix) -> Result<bool, Fail>
    requires twelve { length ring.now.kinds ≡ 12 }
    requires of { All (AllBelong ring.now) m.now.rows }
    requires two { length m.now.rows ≡ 2 }
{
    let signature = OreRing::signature(ring);
    let c = row_of(signature, alloc, &[D], &[T])?;
    let combined = combine(ring, alloc, &c, m)?;
    is_row(
        signature,
        alloc,
        &combined,
        &[TWICE_T_D, ONE],
        &[D, T_SQUARED],
    )
}

// Whether that is the first row of a product, and the second is (t, d) by these rows, (t^2 + d^2, t + d t).
fn multiplies(ring: &MixedRing, alloc: Global, n: &Matrix, m: &Matrix) -> Result<bool, Fail>
    requires twelve { length ring.now.kinds ≡ 12 }
    requires n_of { All (AllBelong ring.now) n.now.rows }
    requires m_of { All (AllBelong ring.now) m.now.rows }
    requires fits { n.now.cols ≡ length m.now.rows }
{
    let signature = OreRing::signature(ring);
    let product = times(ring, alloc, n, m)?;
    if product.rows() != 2 {
        return Ok(false);
    }
    let (first, second) = (product.row(0), product.row(1));
    if !is_row(signature, alloc, first, &[TWICE_T_D, ONE], &[D, T_SQUARED])? {
        return Ok(false);
    }
    is_row(
        signature,
        alloc,
        second,
        &[T_SQUARED, D_SQUARED],
        &[T, T_D, ONE],
    )
}

#[test]
fn rows_and_matrices(rt: HostRuntime) -> Result<(), Fail> {
    let ring = MixedRing::new(mixed(Order::DegRevLex)?);
    let signature = OreRing::signature(&ring);
    let m = matrix_of(signature, rt.alloc(), [T, ONE], [D, T])?;
    assert!(rt; combines(&ring, rt.alloc(), &m)?);
    let n = matrix_of(signature, rt.alloc(), [D, T], [T, D])?;
    assert!(rt; multiplies(&ring, rt.alloc(), &n, &m)?);
    Ok(())
}

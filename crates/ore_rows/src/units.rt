//! Unit rows, and the matrix of all of one length.

ghost use Rattle.std.specs.Prelude.{◌≡◌, length, cond, IfOk};
ghost use Rattle.std.specs.List.{All};
ghost use Rattle.ore_algebra.specs.Free.{empty_sum, single};
ghost use Rattle.ore_rational.specs.Field.{rationals};
ghost use Rattle.ore_monomial.specs.Monomial.{plain_cmp};
ghost use Rattle.ore_monomial.specs.Monomial as monomials;
ghost use Rattle.ore_ring.specs.Belongs.{AllBelong, Belongs};
ghost use Rattle.ore_rows.specs.Rows as rows;
ghost use Rattle.ore_rows.specs.Stored.{rows_of, sums_of};

use crate::matrix::Matrix;
use crate::row::Row;
use ore_monomial::{Exps, NoMemory, Signature};
use ore_rational::Rational;
use ore_ring::Op;
use std::alloc::Global;

/// The row of `n` zeros, but for a 1 at place `i`, where the first has place 0. There is no 1 where `i` isn't below
/// `n`.
///
/// # Errors
/// Want of memory.
pub fn unit_row(alloc: Global, sig: &Signature, n: usize, i: usize) -> Result<Row, NoMemory>
    ensures value { IfOk result (λ r. sums_of r ≡ rows.unit_row rationals n i) }
    ensures width { IfOk result (λ r. length r ≡ n) }
    ensures of { IfOk result (AllBelong sig.now) }
{
    let mut out = Vec::with_capacity(alloc, n)?;
    for k in 0..n {
        out.push(one_or_zero(alloc, sig, k == i)?)?;
    }
    Ok(Row::from_vec(out))
}

/// The matrix of the `n` unit rows of `n` entries: `n` rows by `n` columns.
///
/// # Errors
/// Want of memory, so also where `n` is so great that no list can have `n` items.
pub fn identity(alloc: Global, sig: &Signature, n: usize) -> Result<Matrix, NoMemory>
    ensures rows { IfOk result (λ m. rows_of m ≡ rows.identity_rows rationals n) }
    ensures cols { IfOk result (λ m. m.cols ≡ n) }
    ensures count { IfOk result (λ m. length m.rows ≡ n) }
    ensures of { IfOk result (λ m. All (AllBelong sig.now) m.rows) }
{
    let mut out = Vec::with_capacity(alloc, n)?;
    for k in 0..n {
        out.push(unit_row(alloc, sig, n, k)?)?;
    }
    Ok(Matrix::from_rows(out.len(), out))
}

// The operator 1, or the operator 0.
fn one_or_zero(alloc: Global, sig: &Signature, one: bool) -> Result<Op, NoMemory>
    ensures value { IfOk result (λ f. f.sum ≡ cond one (single rationals plain_cmp monomials.unit rationals.one) (empty_sum rationals plain_cmp)) }
    ensures of { IfOk result (Belongs sig.now) }
{
    if !one {
        return Ok(Op::zero(alloc, sig.order()));
    }
    Op::term(alloc, sig.order(), Exps::zero(), Rational::one())
}

//! Rows with a single fraction, and the rows of a matrix as multiples of the first basis rows.

ghost use Rattle.std.specs.Prelude.{◌≡◌, ◌≤◌, ◌<◌, ◌+◌, ◌^◌, ◌∷◌, List, cond, length, IfOk};
ghost use Rattle.std.specs.List.{All};
ghost use Rattle.ore_algebra.specs.Free.{empty_sum};
ghost use Rattle.ore_rational.specs.Field.{rationals};
ghost use Rattle.ore_monomial.specs.Monomial.{plain_cmp};
ghost use Rattle.ore_monomial.specs.LetterRule.{constant};
ghost use Rattle.ore_ring.specs.Belongs.{AllBelong, Belongs};
ghost use Rattle.ore_rows.specs.Rows as rows;
ghost use Rattle.ore_pairs.specs.Run as run;
ghost use Rattle.ore_rows.specs.Stored.{rows_of, sums_of};

use ore_monomial::{Exps, NoMemory, Signature};
use ore_rational::Rational;
use ore_ring::Op;
use ore_rows::{Matrix, Row, row_lead};
use std::alloc::Global;

/// The rows of the matrix as multiples of `n` basis rows: the first of these are its rows that aren't zero, made monic.
///
/// # Errors
/// Want of memory.
pub fn from_matrix(alloc: Global, sig: &Signature, a: &Matrix, n: usize) -> Result<Matrix, NoMemory>
    requires of { All (AllBelong sig.now) a.now.rows }
    requires few { n < 2 ^ 63 }
    ensures value { IfOk result (λ m. rows_of m ≡ run.from_rows rationals sig.now.order n 0 (rows_of a.now)) }
    ensures cols { IfOk result (λ m. m.cols ≡ n) }
    ensures of { IfOk result (λ m. All (AllBelong sig.now) m.rows) }
{
    let mut out = Vec::new(alloc);
    let mut next = 0;
    for k in 0..a.rows() {
        let (multiple, after) = from_row(alloc, sig, a.row(k), n, next)?;
        out.push(multiple)?;
        next = after;
    }
    Ok(Matrix::from_rows(n, out))
}

// A row as a multiple of a basis row, and the place of the basis row of the next one that isn't zero. That of this
// one is `next`.
fn from_row(
    alloc: Global,
    sig: &Signature,
    row: &Row,
    n: usize,
    next: usize,
) -> Result<(Row, usize), NoMemory>
    requires of { AllBelong sig.now row.now }
    requires few { next < 2 ^ 63 }
    ensures value { IfOk result (λ p. (rest : List (rows.Row rationals)) → run.from_rows rationals sig.now.order n next (sums_of row.now ∷ rest) ≡ sums_of p.0 ∷ run.from_rows rationals sig.now.order n p.1 rest) }
    ensures after { IfOk result (λ p. p.1 ≤ next + 1) }
    ensures width { IfOk result (λ p. length p.0 ≡ n) }
    ensures of { IfOk result (λ p. AllBelong sig.now p.0) }
{
    match row_lead(sig, row) {
        None => Ok((entry_row(alloc, sig, n, n, Rational::zero())?, next)),
        Some(found) => Ok((entry_row(alloc, sig, n, next, found.2)?, next + 1)),
    }
}

/// `n` zeros, but for a fraction at place `i`.
///
/// # Errors
/// Want of memory.
pub fn entry_row(
    alloc: Global,
    sig: &Signature,
    n: usize,
    i: usize,
    coef: Rational,
) -> Result<Row, NoMemory>
    ensures value { IfOk result (λ r. sums_of r ≡ run.entry_row rationals n i (constant rationals coef)) }
    ensures width { IfOk result (λ r. length r ≡ n) }
    ensures of { IfOk result (AllBelong sig.now) }
{
    let mut out = Vec::with_capacity(alloc, n)?;
    for k in 0..n {
        out.push(coef_or_zero(alloc, sig, k == i, coef)?)?;
    }
    Ok(Row::from_vec(out))
}

// A fraction as an operator, or the operator 0.
fn coef_or_zero(alloc: Global, sig: &Signature, here: bool, coef: Rational) -> Result<Op, NoMemory>
    ensures value { IfOk result (λ f. f.sum ≡ cond here (constant rationals coef) (empty_sum rationals plain_cmp)) }
    ensures of { IfOk result (Belongs sig.now) }
{
    if !here {
        return Ok(Op::zero(alloc, sig.order()));
    }
    Op::term(alloc, sig.order(), Exps::zero(), coef)
}

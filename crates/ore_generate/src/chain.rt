//! Chains of equations of first order.

ghost use Rattle.std.specs.Prelude.{◌≡◌, ◌≤◌, pos, neg_ℤ, length, IfOk};
ghost use Rattle.std.specs.List.{All};
ghost use Rattle.ore_expr.specs.Values.{power_of_variable};
ghost use Rattle.ore_rational.specs.Fraction.{whole};
ghost use Rattle.ore_rational.specs.Range.{InRange};
ghost use Rattle.ore_rational.specs.Field.{rationals};
ghost use Rattle.ore_monomial.specs.LetterRule.{constant as constant_of};
ghost use Rattle.ore_ring.specs.Belongs.{Belongs, AllBelong};
ghost use Rattle.ore_rows.specs.Stored.{rows_of, sums_of};
ghost use Rattle.ore_problem.specs.Stored.{system_of, IsProblem};
ghost use Rattle.ore_generate.specs.Chain as chain;

use ore_monomial::{Exps, NoMemory, Order, Signature, VarKind};
use ore_problem::Problem;
use ore_rational::Rational;
use ore_ring::Op;
use ore_rows::{Matrix, Row};
use ore_text::Names;
use std::alloc::Global;

/// The number of equations.
const EQUATIONS: u16 = 40;

/// The number of variables of the system.
const VARIABLES: u16 = 41;

/// The order of monomials.
const ORDER: Order = Order::DegRevLex;

/// The problem with this number.
///
/// # Errors
/// Want of memory.
pub fn generate(alloc: Global, number: u16) -> Result<Problem, NoMemory>
    ensures value { IfOk result (λ p. system_of p ≡ chain.generated number) }
    ensures problem { IfOk result IsProblem }
{
    let matrix = equations(alloc, number)?;
    Ok(Problem {
        names: names(alloc)?,
        signature: signature(),
        matrix,
    })
}

// A time and its derivative.
fn names(alloc: Global) -> Result<Names, NoMemory>
    ensures { IfOk result (λ names. names ≡ chain.names) }
{
    let mut names = Names::new(alloc);
    names.add(b"t")?;
    names.add(b"d")?;
    Ok(names)
}

fn signature() -> Signature
    ensures { result ≡ chain.signature }
{
    match Signature::new(
        &[VarKind::Coordinate, VarKind::Differential { on: 0 }],
        ORDER,
    ) {
        Ok(signature) => signature,
        Err(_) => unreachable!(),
    }
}

// The matrix of the equations, one in each row.
fn equations(alloc: Global, number: u16) -> Result<Matrix, NoMemory>
    ensures rows { IfOk result (λ m. rows_of m ≡ chain.equations number) }
    ensures cols { IfOk result (λ m. m.cols ≡ 41) }
    ensures of { IfOk result (λ m. All (AllBelong chain.signature) m.rows) }
{
    let mut rows = Vec::with_capacity(alloc, usize::from(EQUATIONS))?;
    for k in 0..EQUATIONS {
        rows.push(equation(alloc, number, k + 1)?)?;
    }
    Ok(Matrix::from_rows(usize::from(VARIABLES), rows))
}

// The row of equation `i`, from 1.
fn equation(alloc: Global, number: u16, i: u16) -> Result<Row, NoMemory>
    requires { i ≤ 40 }
    ensures value { IfOk result (λ r. sums_of r ≡ chain.equation number i) }
    ensures width { IfOk result (λ r. length r ≡ 41) }
    ensures of { IfOk result (AllBelong chain.signature) }
{
    let mut entries = Vec::with_capacity(alloc, usize::from(VARIABLES))?;
    for k in 0..VARIABLES {
        entries.push(entry(alloc, number, i, k + 1)?)?;
    }
    Ok(Row::from_vec(entries))
}

// The operator of equation `i` at variable `j`, both from 1.
fn entry(alloc: Global, number: u16, i: u16, j: u16) -> Result<Op, NoMemory>
    requires { i ≤ 40 }
    ensures value { IfOk result (λ f. f.sum ≡ chain.entry number i j) }
    ensures of { IfOk result (Belongs chain.signature) }
{
    if j == i {
        return derivative(alloc);
    }
    if j == i + 1 {
        return constant(alloc, -i128::from(gain(number, i)));
    }
    Ok(Op::zero(alloc, ORDER))
}

// The operator d.
fn derivative(alloc: Global) -> Result<Op, NoMemory>
    ensures value { IfOk result (λ f. f.sum ≡ power_of_variable 1 1) }
    ensures of { IfOk result (Belongs chain.signature) }
{
    match Exps::from_list(&[0, 1, 0, 0, 0, 0, 0, 0, 0, 0, 0, 0]) {
        Ok(d) => Op::term(alloc, ORDER, d, Rational::one()),
        Err(_) => unreachable!(),
    }
}

// A whole number as an operator.
fn constant(alloc: Global, number: i128) -> Result<Op, NoMemory>
    requires { InRange number }
    ensures value { IfOk result (λ f. f.sum ≡ constant_of rationals (whole number)) }
    ensures of { IfOk result (Belongs chain.signature) }
{
    Op::term(alloc, ORDER, Exps::zero(), Rational::whole(number))
}

// The gain of equation `i`, from 1.
fn gain(number: u16, i: u16) -> u16
    ensures value { result ≡ chain.gain number i }
    ensures few { result ≤ 4 }
{
    if is_cut(number, i) {
        return 0;
    }
    1 + ((u32::from(number) + u32::from(i)) % 4) as u16
}

// Whether the chain is cut at equation `i`, from 1.
fn is_cut(number: u16, i: u16) -> bool
    ensures { result ≡ chain.is_cut number i }
{
    number % 2 == 1 && i == 1 + number % EQUATIONS
}

#[cfg(test)]
mod tests;

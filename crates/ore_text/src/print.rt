//! Writes canonical texts of operators.

ghost use Rattle.std.specs.Prelude.{◌≡◌, ◌∷◌, ◌++◌, take, drop, length, map, decimal, IfOk, OnOk};
ghost use Rattle.std.specs.List.{flat_map};
ghost use Rattle.ore_monomial.specs.Monomial.{exponent};
ghost use Rattle.ore_ring.specs.Belongs.{Belongs};
ghost use Rattle.ore_ring.specs.Terms.{falling};
ghost use Rattle.ore_text.specs.Lines.{line};
ghost use Rattle.ore_text.specs.CanonicalParts.{starred, stays_bare};
ghost use Rattle.ore_text.specs.CanonicalText.{power_text, factor_texts, magnitude_text, is_one as is_one_of, term_text, sign_text, later_text, operator_text};

use crate::algebra::Algebra;
use crate::names::Names;
use itoa::Buffer;
use ore_monomial::{Exps, NoMemory, Signature};
use ore_rational::Rational;
use ore_ring::Op;
use std::alloc::Global;

/// The canonical text of an operator.
///
/// The operator is of the signature, and there is one name for each variable.
///
/// # Errors
/// Want of memory.
pub fn print_operator(
    alloc: Global,
    sig: &Signature,
    names: &Names,
    op: &Op,
) -> Result<Vec<u8>, NoMemory>
    requires of { Belongs sig.now op.now }
    requires names { length names.now ≡ length sig.now.kinds }
    ensures { IfOk result (λ text. text.items ≡ operator_text names.now sig.now.order op.now.sum) }
{
    let mut text = Vec::new(alloc);
    append_operator(&mut text, &Algebra::new(sig, names), op)?;
    Ok(text)
}

/// Appends the canonical text of an operator.
///
/// The operator is of the signature.
///
/// # Errors
/// Want of memory. Then nothing is said of `text`.
pub fn append_operator(text: &mut Vec<u8>, algebra: &Algebra<'_>, op: &Op) -> Result<(), NoMemory>
    requires { Belongs algebra.now.signature.now op.now }
    ensures { OnOk result (text.new.items ≡ text.old.items ++ operator_text algebra.now.names.now algebra.now.signature.now.order op.now.sum) }
{
    let Some(first) = op.get(0) else {
        text.push(b'0')?;
        return Ok(());
    };
    append_signed(text, algebra, &first, "", "-")?;
    append_later(text, algebra, op)
}

// The terms behind the first, with their signs.
fn append_later(text: &mut Vec<u8>, algebra: &Algebra<'_>, op: &Op) -> Result<(), NoMemory>
    ensures { OnOk result (text.new.items ≡ text.old.items ++ flat_map (later_text algebra.now.names.now) (drop 1 (falling op.now.by op.now.sum))) }
{
    for k in 1..op.len() {
        append_later_term(text, algebra, op, k)?;
    }
    Ok(())
}

// The term at place `k`, if there is one, with its sign.
fn append_later_term(
    text: &mut Vec<u8>,
    algebra: &Algebra<'_>,
    op: &Op,
    k: usize,
) -> Result<(), NoMemory>
    ensures { OnOk result (text.new.items ≡ text.old.items ++ flat_map (later_text algebra.now.names.now) (take 1 (drop k (falling op.now.by op.now.sum)))) }
{
    match op.get(k) {
        Some(term) => append_signed(text, algebra, &term, " + ", " - "),
        None => Ok(()),
    }
}

// A term behind one of two texts, by its sign.
fn append_signed(
    text: &mut Vec<u8>,
    algebra: &Algebra<'_>,
    term: &(Exps, Rational),
    plus: &str,
    minus: &str,
) -> Result<(), NoMemory>
    ensures { OnOk result (text.new.items ≡ text.old.items ++ (sign_text term.now.1.num plus.now minus.now ++ term_text algebra.now.names.now term.now)) }
{
    append_sign(text, &term.1, plus, minus)?;
    append_term(text, algebra, &term.0, &term.1)
}

// One of two texts, by the sign of a number.
fn append_sign(text: &mut Vec<u8>, coef: &Rational, plus: &str, minus: &str) -> Result<(), NoMemory>
    ensures { OnOk result (text.new.items ≡ text.old.items ++ sign_text coef.now.num plus.now minus.now) }
{
    let sign = if coef.numerator() < 0 { minus } else { plus };
    text.extend_from_slice(sign.as_bytes())?;
    Ok(())
}

// A term without its sign: a magnitude 1 is written only where no factor follows.
fn append_term(
    text: &mut Vec<u8>,
    algebra: &Algebra<'_>,
    exps: &Exps,
    coef: &Rational,
) -> Result<(), NoMemory>
    ensures { OnOk result (text.new.items ≡ text.old.items ++ term_text algebra.now.names.now (exps.now, coef.now)) }
{
    if !is_one(coef) {
        append_magnitude(text, coef)?;
        append_factors(text, algebra, exps, false)?;
        return Ok(());
    }
    if append_factors(text, algebra, exps, true)? {
        return append_magnitude(text, coef);
    }
    Ok(())
}

fn is_one(coef: &Rational) -> bool
    ensures { result ≡ is_one_of coef.now }
{
    coef.numerator().unsigned_abs() == 1 && coef.denominator() == 1
}

// The numerator without its sign, and the denominator where it isn't 1.
fn append_magnitude(text: &mut Vec<u8>, coef: &Rational) -> Result<(), NoMemory>
    ensures { OnOk result (text.new.items ≡ text.old.items ++ magnitude_text coef.now) }
{
    append_number(text, coef.numerator().unsigned_abs())?;
    if coef.denominator() != 1 {
        text.push(b'/')?;
        append_number(text, coef.denominator().unsigned_abs())?;
    }
    Ok(())
}

// The factors, with `*` before each, the first excepted where the term is bare: nothing of it
// stands there. Whether it is bare still.
fn append_factors(
    text: &mut Vec<u8>,
    algebra: &Algebra<'_>,
    exps: &Exps,
    bare: bool,
) -> Result<bool, NoMemory>
    ensures text { OnOk result (text.new.items ≡ text.old.items ++ starred bare (factor_texts algebra.now.names.now exps.now.exponents)) }
    ensures bare { IfOk result (λ b. b ≡ stays_bare bare (factor_texts algebra.now.names.now exps.now.exponents)) }
{
    let mut is_bare = bare;
    for k in 0..algebra.signature.count() {
        is_bare = append_factor(text, algebra.names.name(k), exps.get(k), is_bare)?;
    }
    Ok(is_bare)
}

// The factor of one variable, if its exponent isn't 0.
fn append_factor(
    text: &mut Vec<u8>,
    name: &[u8],
    exponent: u16,
    bare: bool,
) -> Result<bool, NoMemory>
    ensures text { OnOk result (text.new.items ≡ text.old.items ++ starred bare (power_text name.now exponent)) }
    ensures bare { IfOk result (λ b. b ≡ stays_bare bare (power_text name.now exponent)) }
{
    if exponent == 0 {
        return Ok(bare);
    }
    if !bare {
        text.push(b'*')?;
    }
    text.extend_from_slice(name)?;
    if exponent > 1 {
        text.push(b'^')?;
        append_number(text, exponent as u128)?;
    }
    Ok(false)
}

/// Appends the line of a word and numbers, with a space before each number.
///
/// # Errors
/// Want of memory. Then nothing is said of `text`.
pub fn append_line(text: &mut Vec<u8>, word: &[u8], numbers: &[u128]) -> Result<(), NoMemory>
    ensures { OnOk result (text.new.items ≡ text.old.items ++ line (word.now ∷ map decimal numbers.now)) }
{
    text.extend_from_slice(word)?;
    for number in numbers {
        append_spaced(text, *number)?;
    }
    text.push(b'\n')?;
    Ok(())
}

// Appends a space and a number.
fn append_spaced(text: &mut Vec<u8>, number: u128) -> Result<(), NoMemory>
    ensures { OnOk result (text.new.items ≡ text.old.items ++ 32 ∷ decimal number) }
{
    text.push(b' ')?;
    append_number(text, number)
}

/// Appends the digits of a whole number.
///
/// # Errors
/// Want of memory. Then nothing is said of `text`.
pub fn append_number(text: &mut Vec<u8>, number: u128) -> Result<(), NoMemory>
    ensures { OnOk result (text.new.items ≡ text.old.items ++ decimal number) }
{
    let mut buffer = Buffer::new();
    text.extend_from_slice(buffer.format(number).as_bytes())?;
    Ok(())
}

//! Reads canonical texts of operators.
//!
//! A lenient walk finds the operator of a canonical text, and something or nothing in any other text.
//! What it finds is taken only where its canonical text is the text that was read.

ghost use Rattle.std.specs.Prelude.{◌≡◌, ◌≢◌, ◌⊎◌, true, false, ℕ, ◌+◌, ◌<◌, ◌≤◌, ◌^◌, Bool, not, ◌==◌, if◌then◌else◌, nat_abs, ℤ, neg_ℤ, List, [], ◌∷◌, ◌++◌, length, drop, slice_index, decimal, codes, IsTrue, ◌↔◌, IfOk, IfSome, MatchOption, pos};
ghost use Rattle.std.specs.List.{All, AllByRecursion, position_or_len};
ghost use Rattle.std.specs.Char.{is_ascii_digit};
ghost use Rattle.ore_rational.specs.Fraction.{Fraction, whole};
ghost use Rattle.ore_monomial.specs.Monomial.{Monomial, degree};
ghost use Rattle.ore_monomial.specs.Signature.{MonomialOf};
ghost use Rattle.ore_ring.specs.Belongs.{Belongs};
ghost use Rattle.ore_ring.specs.Terms.{Summand, IsBelowLast};
ghost use Rattle.ore_text.specs.CanonicalParts.{starred, stays_bare, exponent_text, denominator_text, is_negative as is_negative_of, IsWordEnd, IsFactorEnd, IsTermEnd, falling_terms, term_unless_zero, IsPrintableTerm};
ghost use Rattle.ore_text.specs.CanonicalText.{power_text, factor_texts, term_text, sign_text, later_text, operator_text};
ghost use Rattle.ore_text.specs.Printable.{IsStorable, IsPrintable};
ghost use Rattle.ore_text.specs.Names.{IsName, is_name_byte as name_byte};

use crate::algebra::Algebra;
use crate::names::Names;
use crate::print::append_operator;
use ore_monomial::{Exps, NoMemory, Signature, compare};
use ore_rational::Rational;
use ore_ring::Op;
use std::alloc::Global;
use std::str;

/// The operator whose canonical text this is, if there is one of the signature.
///
/// There is one name for each variable of the signature.
///
/// # Errors
/// Want of memory.
pub fn read_canonical(
    alloc: Global,
    sig: &Signature,
    names: &Names,
    text: &[u8],
) -> Result<Option<Op>, NoMemory>
    requires { length names.now ≡ length sig.now.kinds }
    ensures found { IfOk result (λ o. IfSome o (λ f. IsPrintable sig.now names.now f.sum × (text.now ≡ operator_text names.now sig.now.order f.sum))) }
    ensures of { IfOk result (λ o. IfSome o (Belongs sig.now)) }
    ensures only { IfOk result (λ o. (f : _) → IsPrintable sig.now names.now f → text.now ≡ operator_text names.now sig.now.order f → MatchOption o ⊥ (λ g. g.sum ≡ f)) }
{
    operator_in(alloc, &Algebra::new(sig, names), text)
}

/// The operator whose canonical text this is, if there is one of the signature.
///
/// # Errors
/// Want of memory.
pub fn operator_in(
    alloc: Global,
    algebra: &Algebra<'_>,
    text: &[u8],
) -> Result<Option<Op>, NoMemory>
    ensures found { IfOk result (λ o. IfSome o (λ f. IsPrintable algebra.now.signature.now algebra.now.names.now f.sum × (text.now ≡ operator_text algebra.now.names.now algebra.now.signature.now.order f.sum))) }
    ensures of { IfOk result (λ o. IfSome o (Belongs algebra.now.signature.now)) }
    ensures only { IfOk result (λ o. (f : _) → IsPrintable algebra.now.signature.now algebra.now.names.now f → text.now ≡ operator_text algebra.now.names.now algebra.now.signature.now.order f → MatchOption o ⊥ (λ g. g.sum ≡ f)) }
{
    if is_zero(text) {
        return Ok(Some(Op::zero(alloc, algebra.signature.order())));
    }
    operator_of_terms(alloc, algebra, text)
}

// Whether the text is `0`, as most entries are.
fn is_zero(text: &[u8]) -> bool
    ensures { result ≡ true → text.now ≡ 48 ∷ [] }
{
    match text {
        [b'0'] => true,
        _ => false,
    }
}

// The same, term by term.
fn operator_of_terms(
    alloc: Global,
    algebra: &Algebra<'_>,
    text: &[u8],
) -> Result<Option<Op>, NoMemory>
    ensures found { IfOk result (λ o. IfSome o (λ f. IsPrintable algebra.now.signature.now algebra.now.names.now f.sum × (text.now ≡ operator_text algebra.now.names.now algebra.now.signature.now.order f.sum))) }
    ensures of { IfOk result (λ o. IfSome o (Belongs algebra.now.signature.now)) }
    ensures only { IfOk result (λ o. (f : _) → IsPrintable algebra.now.signature.now algebra.now.names.now f → text.now ≡ operator_text algebra.now.names.now algebra.now.signature.now.order f → MatchOption o ⊥ (λ g. g.sum ≡ f)) }
{
    let Some(op) = walk(alloc, algebra, text)? else {
        return Ok(None)
    };
    let mut spelled = Vec::new(alloc);
    append_operator(&mut spelled, algebra, &op)?;
    if spelled.as_slice() != text {
        return Ok(None);
    }
    Ok(Some(op))
}

// What the lenient walk finds: the operator itself where the text is its canonical text.
fn walk(alloc: Global, algebra: &Algebra<'_>, text: &[u8]) -> Result<Option<Op>, NoMemory>
    ensures of { IfOk result (λ o. IfSome o (Belongs algebra.now.signature.now)) }
    ensures storable { IfOk result (λ o. IfSome o (λ f. IsStorable f.sum)) }
    ensures only { IfOk result (λ o. (f : _) → IsPrintable algebra.now.signature.now algebra.now.names.now f → text.now ≡ operator_text algebra.now.names.now algebra.now.signature.now.order f → MatchOption o ⊥ (λ g. g.sum ≡ f)) }
{
    let mut op = Op::zero(alloc, algebra.signature.order());
    if read_terms(&mut op, algebra, text)? {
        Ok(Some(op))
    } else {
        Ok(None)
    }
}

// Adds the terms of a text to no terms. False where something unexpected stands in it.
fn read_terms(op: &mut Op, algebra: &Algebra<'_>, text: &[u8]) -> Result<bool, NoMemory>
    requires { falling_terms op.old ≡ [] }
    ensures by { op.new.by ≡ op.old.by }
    ensures good { All (IsPrintableTerm algebra.now.signature.now) (falling_terms op.new) }
    ensures only { IfOk result (λ b. (f : _) → op.old.by ≡ algebra.now.signature.now.order → IsPrintable algebra.now.signature.now algebra.now.names.now f → text.now ≡ operator_text algebra.now.names.now algebra.now.signature.now.order f → (b ≡ true) × (op.new.sum ≡ f)) }
{
    let (is_negative, start) = first_sign(text);
    let Some(end) = take_term(op, algebra, text, start, is_negative)? else {
        return Ok(false)
    };
    let mut at = end;
    while at < text.len() {
        let Some(next) = take_later(op, algebra, text, at)? else {
            return Ok(false)
        };
        at = next;
    }
    Ok(true)
}

// Adds the term that stands behind its sign at `at`. The place behind the term.
fn take_later(
    op: &mut Op,
    algebra: &Algebra<'_>,
    text: &[u8],
    at: usize,
) -> Result<Option<usize>, NoMemory>
    requires { at ≤ length text.now }
    ensures within { IfOk result (λ o. IfSome o (λ next. (at < next) × (next ≤ length text.now))) }
    ensures by { op.new.by ≡ op.old.by }
    ensures good { All (IsPrintableTerm algebra.now.signature.now) (falling_terms op.old) → All (IsPrintableTerm algebra.now.signature.now) (falling_terms op.new) }
    ensures only { IfOk result (λ o. (t : Summand) (tail : List ℕ) → IsPrintableTerm algebra.now.signature.now t → IsTermEnd tail → IsBelowLast op.old.by (falling_terms op.old) t.0 → drop at text.now ≡ later_text algebra.now.names.now t ++ tail
        → MatchOption o ⊥ (λ next. (drop next text.now ≡ tail) × (falling_terms op.new ≡ falling_terms op.old ++ term_unless_zero t))) }
{
    let Some(is_negative) = later_sign(&text[at..]) else {
        return Ok(None)
    };
    take_term(op, algebra, text, at + 3, is_negative)
}

// Adds the term without its sign that stands at `at`. The place behind it.
fn take_term(
    op: &mut Op,
    algebra: &Algebra<'_>,
    text: &[u8],
    at: usize,
    is_negative: bool,
) -> Result<Option<usize>, NoMemory>
    requires { at ≤ length text.now }
    ensures within { IfOk result (λ o. IfSome o (λ next. (at ≤ next) × (next ≤ length text.now))) }
    ensures by { op.new.by ≡ op.old.by }
    ensures good { All (IsPrintableTerm algebra.now.signature.now) (falling_terms op.old) → All (IsPrintableTerm algebra.now.signature.now) (falling_terms op.new) }
    ensures only { IfOk result (λ o. (t : Summand) (tail : List ℕ) → IsPrintableTerm algebra.now.signature.now t → IsTermEnd tail → is_negative ≡ is_negative_of t.1.num → (t.1 ≡ whole (pos 0)) ⊎ IsBelowLast op.old.by (falling_terms op.old) t.0
        → drop at text.now ≡ term_text algebra.now.names.now t ++ tail → MatchOption o ⊥ (λ next. (drop next text.now ≡ tail) × (falling_terms op.new ≡ falling_terms op.old ++ term_unless_zero t))) }
{
    let Some((term, length)) = read_term(algebra, &text[at..], is_negative) else {
        return Ok(None)
    };
    if add_below(op, &term)? {
        Ok(Some(at + length))
    } else {
        Ok(None)
    }
}

// Adds a term below the others. False where it is not below them; 0 adds nothing.
fn add_below(op: &mut Op, term: &(Exps, Rational)) -> Result<bool, NoMemory>
    ensures by { op.new.by ≡ op.old.by }
    ensures added { (falling_terms op.new ≡ falling_terms op.old) ⊎ (falling_terms op.new ≡ falling_terms op.old ++ term_unless_zero term.now) }
    ensures only { IfOk result (λ b. (term.now.1 ≡ whole (pos 0)) ⊎ IsBelowLast op.old.by (falling_terms op.old) term.now.0 → (b ≡ true) × (falling_terms op.new ≡ falling_terms op.old ++ term_unless_zero term.now)) }
{
    if term.1.is_zero() {
        return Ok(true);
    }
    if !is_below_last(op, &term.0) {
        return Ok(false);
    }
    op.push(term.0, term.1)?;
    Ok(true)
}

fn is_below_last(op: &Op, exps: &Exps) -> bool
    ensures { IsTrue result ↔ IsBelowLast op.now.by (falling_terms op.now) exps.now }
{
    let count = op.len();
    if count == 0 {
        return true;
    }
    match op.get(count - 1) {
        Some(last) => compare(op.order(), exps, &last.0).is_lt(),
        None => true,
    }
}

// Whether a minus stands in front, and its length.
fn first_sign(text: &[u8]) -> (bool, usize)
    ensures within { result.1 ≤ length text.now }
    ensures only { (z : ℤ) (more : List ℕ) → name_byte (slice_index more 0) ≡ true → text.now ≡ sign_text z [] (codes "-") ++ more → (result.0 ≡ is_negative_of z) × (drop result.1 text.now ≡ more) }
{
    match text {
        [b'-', ..] => (true, 1),
        _ => (false, 0),
    }
}

// Whether the sign in front, between spaces, is a minus.
fn later_sign(text: &[u8]) -> Option<bool>
    ensures within { IfSome result (λ _. 3 ≤ length text.now) }
    ensures only { (z : ℤ) (more : List ℕ) → text.now ≡ sign_text z (codes " + ") (codes " - ") ++ more → (result ≡ Some (is_negative_of z)) × (drop 3 text.now ≡ more) }
{
    match text {
        [b' ', b'+', b' ', ..] => Some(false),
        [b' ', b'-', b' ', ..] => Some(true),
        _ => None,
    }
}

// The term in front without its sign, and its length.
fn read_term(
    algebra: &Algebra<'_>,
    text: &[u8],
    is_negative: bool,
) -> Option<((Exps, Rational), usize)>
    ensures within { IfSome result (λ r. r.1 ≤ length text.now) }
    ensures good { IfSome result (λ r. IsPrintableTerm algebra.now.signature.now r.0) }
    ensures only { (t : Summand) (tail : List ℕ) → IsPrintableTerm algebra.now.signature.now t → IsTermEnd tail → is_negative ≡ is_negative_of t.1.num → text.now ≡ term_text algebra.now.names.now t ++ tail
        → MatchOption result ⊥ (λ r. (r.0 ≡ t) × (drop r.1 text.now ≡ tail)) }
{
    let Some((coef, start)) = read_coefficient(text, is_negative) else {
        return None
    };
    let Some((exps, length)) = read_exps(algebra, &text[start..]) else {
        return None
    };
    Some(((exps, coef), start + length))
}

// The factors of the variables, each if it stands there, and the length of all.
fn read_exps(algebra: &Algebra<'_>, text: &[u8]) -> Option<(Exps, usize)>
    ensures within { IfSome result (λ r. r.1 ≤ length text.now) }
    ensures of { IfSome result (λ r. MonomialOf algebra.now.signature.now r.0) }
    ensures small { IfSome result (λ r. degree r.0 ≤ 32767) }
    ensures only { (bare : Bool) (m : Monomial) (tail : List ℕ) → MonomialOf algebra.now.signature.now m → degree m ≤ 32767 → IsTermEnd tail → text.now ≡ starred bare (factor_texts algebra.now.names.now m.exponents) ++ tail
        → MatchOption result ⊥ (λ r. (r.0 ≡ m) × (drop r.1 text.now ≡ tail)) }
{
    let mut values = [0; 12];
    let mut at = 0;
    for k in 0..algebra.signature.count() {
        let Some((exponent, length)) = read_power(&text[at..], algebra.names.name(k)) else {
            return None
        };
        values[k] = exponent;
        at += length;
    }
    match Exps::from_list(&values) {
        Ok(exps) => Some((exps, at)),
        Err(_) => None,
    }
}

// The exponent of a variable whose factor stands in front, behind `*` or not, and the length of
// all that: no length where the text doesn't go on with its name.
fn read_power(text: &[u8], name: &[u8]) -> Option<(u16, usize)>
    requires { IsName name.now }
    ensures within { IfSome result (λ r. r.1 ≤ length text.now) }
    ensures only { (bare : Bool) (e : ℕ) (names : List (List ℕ)) (es tail : List ℕ) → e ≤ 32767 → AllByRecursion IsName names → AllByRecursion (λ n. n ≢ name.now) names → IsTermEnd tail
        → text.now ≡ starred bare (power_text name.now e ++ factor_texts names es) ++ tail
        → MatchOption result ⊥ (λ r. (r.0 ≡ e) × (drop r.1 text.now ≡ starred (stays_bare bare (power_text name.now e)) (factor_texts names es) ++ tail)) }
{
    let start = star_length(text);
    let end = start + word_length(&text[start..]);
    if &text[start..end] != name {
        return Some((0, 0));
    }
    let Some((exponent, length)) = read_exponent(&text[end..]) else {
        return None
    };
    Some((exponent, end + length))
}

fn star_length(text: &[u8]) -> usize
    ensures value { result ≡ (if slice_index text.now 0 == 42 then 1 else 0) }
    ensures within { result ≤ length text.now }
{
    match text {
        [b'*', ..] => 1,
        _ => 0,
    }
}

// The exponent behind a name, 1 where no `^` stands there, and the length of what was read.
fn read_exponent(text: &[u8]) -> Option<(u16, usize)>
    ensures within { IfSome result (λ r. r.1 ≤ length text.now) }
    ensures only { (e : ℕ) (tail : List ℕ) → 0 < e → e ≤ 32767 → IsFactorEnd tail → text.now ≡ exponent_text e ++ tail → MatchOption result ⊥ (λ r. (r.0 ≡ e) × (drop r.1 text.now ≡ tail)) }
{
    let [b'^', digits @ ..] = text else {
        return Some((1, 0))
    };
    let Some((number, length)) = read_number(digits) else {
        return None
    };
    if number > 32767 {
        return None;
    }
    Some((number as u16, 1 + length))
}

// The coefficient of a term in front of it, with a sign, and its length: 1 of no length where no
// digit stands there.
fn read_coefficient(text: &[u8], is_negative: bool) -> Option<(Rational, usize)>
    ensures within { IfSome result (λ r. r.1 ≤ length text.now) }
    ensures range { IfSome result (λ r. (nat_abs r.0.num < 2 ^ 127) × (r.0.den < 2 ^ 127)) }
    ensures only { (names : List (List ℕ)) (t : Summand) (tail : List ℕ) → AllByRecursion IsName names → nat_abs t.1.num < 2 ^ 127 → t.1.den < 2 ^ 127 → is_negative ≡ is_negative_of t.1.num → IsTermEnd tail → text.now ≡ term_text names t ++ tail
        → MatchOption result ⊥ (λ r. (r.0 ≡ t.1) × ((bare : Bool) × (drop r.1 text.now ≡ starred bare (factor_texts names t.0.exponents) ++ tail))) }
{
    let Some((numerator, length)) = read_numerator(text) else {
        return None
    };
    let Some((denominator, more)) = read_denominator(&text[length..]) else {
        return None
    };
    let Some(coef) = fraction(is_negative, numerator, denominator) else {
        return None
    };
    Some((coef, length + more))
}

// The number in front and its length, 1 of no length where no digit stands there.
fn read_numerator(text: &[u8]) -> Option<(u128, usize)>
    ensures within { IfSome result (λ r. r.1 ≤ length text.now) }
    ensures only { (n : ℕ) (tail : List ℕ) → n < 2 ^ 127 → IsWordEnd tail → text.now ≡ decimal n ++ tail → MatchOption result ⊥ (λ r. (r.0 ≡ n) × (drop r.1 text.now ≡ tail)) }
    ensures none { is_ascii_digit (slice_index text.now 0) ≡ false → result ≡ Some (1, 0) }
{
    match text {
        [first, ..] if first.is_ascii_digit() => read_number(text),
        _ => Some((1, 0)),
    }
}

// The number behind `/` and the length of both, 1 of no length where no `/` stands in front.
fn read_denominator(text: &[u8]) -> Option<(u128, usize)>
    ensures within { IfSome result (λ r. r.1 ≤ length text.now) }
    ensures only { (n : ℕ) (tail : List ℕ) → n < 2 ^ 127 → IsFactorEnd tail → text.now ≡ denominator_text n ++ tail → MatchOption result ⊥ (λ r. (r.0 ≡ n) × (drop r.1 text.now ≡ tail)) }
    ensures none { slice_index text.now 0 ≢ 47 → result ≡ Some (1, 0) }
{
    let [b'/', digits @ ..] = text else {
        return Some((1, 0))
    };
    let Some((number, length)) = read_number(digits) else {
        return None
    };
    Some((number, 1 + length))
}

// A fraction with a sign, if it has one in range.
fn fraction(is_negative: bool, numerator: u128, denominator: u128) -> Option<Rational>
    ensures range { IfSome result (λ q. (nat_abs q.num < 2 ^ 127) × (q.den < 2 ^ 127)) }
    ensures only { (q : Fraction) → nat_abs q.num < 2 ^ 127 → q.den < 2 ^ 127 → is_negative ≡ is_negative_of q.num → numerator ≡ nat_abs q.num → denominator ≡ q.den → result ≡ Some q }
{
    let most = i128::MAX as u128;
    if numerator > most || denominator > most || denominator == 0 {
        return None;
    }
    match Rational::new(signed(is_negative, numerator), denominator as i128) {
        Ok(coef) => Some(coef),
        Err(_) => None,
    }
}

// A magnitude with a sign.
fn signed(is_negative: bool, magnitude: u128) -> i128
    requires { magnitude < 2 ^ 127 }
    ensures { result ≡ (if is_negative then neg_ℤ (pos magnitude) else pos magnitude) }
{
    if is_negative {
        -(magnitude as i128)
    } else {
        magnitude as i128
    }
}

// The number in front, and its length.
fn read_number(text: &[u8]) -> Option<(u128, usize)>
    ensures within { IfSome result (λ r. r.1 ≤ length text.now) }
    ensures only { (n : ℕ) (tail : List ℕ) → n < 2 ^ 127 → IsWordEnd tail → text.now ≡ decimal n ++ tail → MatchOption result ⊥ (λ r. (r.0 ≡ n) × (drop r.1 text.now ≡ tail)) }
{
    let length = word_length(text);
    let Some(number) = parse_number(&text[..length]) else {
        return None
    };
    Some((number, length))
}

fn parse_number(word: &[u8]) -> Option<u128>
    ensures { (n : ℕ) → n < 2 ^ 127 → word.now ≡ decimal n → result ≡ Some n }
{
    let Ok(digits) = str::from_utf8(word) else {
        return None
    };
    match digits.parse::<u128>() {
        Ok(number) => Some(number),
        Err(_) => None,
    }
}

// The length of the name or number in front.
fn word_length(text: &[u8]) -> usize
    ensures value { result ≡ position_or_len (λ b. not (name_byte b)) text.now }
    ensures within { result ≤ length text.now }
{
    text.iter()
        .position(|b| !is_name_byte(*b))
        .unwrap_or(text.len())
}

/// A letter, a digit or an underscore.
pub fn is_name_byte(b: u8) -> bool
    ensures { result ≡ name_byte b }
{
    b.is_ascii_alphanumeric() || b == b'_'
}

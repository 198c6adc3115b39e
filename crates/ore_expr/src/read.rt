//! Reads operators.

ghost use Rattle.std.specs.Prelude.{◌≡◌, ◌<◌, ◌⊎◌, [], ◌∷◌, length, pos, true, IfOk};
ghost use Rattle.std.specs.List.{All};
ghost use Rattle.ore_rational.specs.Fraction.{whole};
ghost use Rattle.ore_ring.specs.Belongs.{Belongs};
ghost use Rattle.ore_expr.specs.declared.instruction.Instruction.TheVariants as code;
ghost use Rattle.ore_expr.specs.Evaluation.{IsOf};
ghost use Rattle.ore_expr.specs.Parsing.{parse as parse_of};
ghost use Rattle.ore_expr.specs.ParserState.{parser_state};
ghost use Rattle.ore_expr.specs.ReadStep.{IsStep};
ghost use Rattle.ore_expr.specs.Reading.{Reads, IsRead};

use crate::evaluation::evaluate;
use crate::fault::TextFault;
use crate::instruction::Instruction;
use crate::parser::Parser;
use crate::token::token_at;
use ore_rational::Rational;
use ore_ring::{Op, OreRing};
use ore_text::Names;
use std::alloc::Global;

/// The instructions of an expression, in the order in which its operations are formed.
///
/// # Errors
/// The fault of the first token that has one, and want of memory, as a stop.
pub fn parse(alloc: Global, names: &Names, text: &[u8]) -> Result<Vec<Instruction>, TextFault>
    ensures reads { Reads (λ p. p.items) result (parse_of names.now text.now) }
    ensures of { IfOk result (λ p. All (IsOf (length names.now)) p.items) }
{
    if is_zero(text) {
        return zero(alloc);
    }
    parse_tokens(alloc, names, text)
}

// Whether the text is `0`, as most entries are, with a space in front or without.
fn is_zero(text: &[u8]) -> bool
    ensures { result ≡ true → (text.now ≡ 48 ∷ []) ⊎ (text.now ≡ 32 ∷ 48 ∷ []) }
{
    match text {
        [b'0'] => true,
        [b' ', b'0'] => true,
        _ => false,
    }
}

// The instruction of that text.
fn zero(alloc: Global) -> Result<Vec<Instruction>, TextFault>
    ensures { Reads (λ p. p.items) result (Ok (code.Constant (whole (pos 0)) ∷ [])) }
{
    let mut made = Vec::with_capacity(alloc, 1)?;
    made.push(Instruction::Constant(Rational::zero()))?;
    Ok(made)
}

// The same, token by token.
fn parse_tokens(alloc: Global, names: &Names, text: &[u8]) -> Result<Vec<Instruction>, TextFault>
    ensures reads { Reads (λ p. p.items) result (parse_of names.now text.now) }
    ensures of { IfOk result (λ p. All (IsOf (length names.now)) p.items) }
{
    let mut parser = Parser::new(alloc);
    let mut skipped = 0;
    for place in 0..text.len() {
        skipped = step(&mut parser, names, text, place, skipped)?;
    }
    parser.finish(text.len())
}

// A byte more: a space, a byte of a token that is taken already, or a token. The number of bytes
// after it that the token has; so many bytes are passed over first.
fn step(
    parser: &mut Parser,
    names: &Names,
    text: &[u8],
    place: usize,
    skipped: usize,
) -> Result<usize, TextFault>
    requires { place < length text.now }
    ensures { IsStep names.now text.now place skipped (parser_state parser.old) (parser_state parser.new) result }
{
    if skipped > 0 {
        return Ok(skipped - 1);
    }
    if text[place] == b' ' {
        return Ok(0);
    }
    let token = token_at(&text[place..]);
    parser.take(names, place, token)?;
    Ok(token.more_bytes())
}

/// The operator that a text spells as an expression.
///
/// There is one name for each variable of the ring's signature.
///
/// # Errors
/// The fault of the text where it is no expression, else the stop of the first operation that stops; and want of
/// memory, as a stop.
pub fn read_operator<R: OreRing>(
    ring: &R,
    alloc: Global,
    names: &Names,
    text: &[u8],
) -> Result<Op, TextFault>
    requires { length names.now ≡ length (R.sig ring.now).kinds }
    ensures read { IsRead (R.sig ring.now) names.now text.now result }
    ensures of { IfOk result (Belongs (R.sig ring.now)) }
{
    let instructions = parse(alloc, names, text)?;
    let value = evaluate(ring, alloc, &instructions)?;
    Ok(value)
}

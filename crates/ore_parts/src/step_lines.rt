//! Steps, each on a line.

ghost use Rattle.std.specs.Prelude.{◌≡◌, ◌≢◌, IfOk, MatchOption};
ghost use Rattle.ore_algebra.specs.Free.{single};
ghost use Rattle.ore_rational.specs.Field.{rationals};
ghost use Rattle.ore_monomial.specs.Monomial.{plain_cmp};
ghost use Rattle.ore_text.specs.CanonicalText.{operator_text};
ghost use Rattle.ore_text.specs.Printable.{IsPrintable};
ghost use Rattle.ore_parts.specs.BlockText.{IsWrittenStep};
ghost use Rattle.ore_parts.specs.Formats.{ReadsOne, Spells, items};
ghost use Rattle.ore_parts.specs.PartFormats.{step_words, step_format, quotients_format};

use crate::count::read_count;
use crate::fault::CertFault;
use crate::lines::{Lines, cut_at};
use crate::sizes::place_in;
use ore_monomial::{Exps, NoMemory};
use ore_rational::Rational;
use ore_ring::Op;
use ore_rows::{Step, Steps};
use ore_text::{Algebra, operator_in};
use std::alloc::Global;

/// The steps behind a line with their number.
///
/// # Errors
/// The faulty line of the text that is left, whatever were to follow; and want of memory. Then the lines may stand
/// anywhere.
pub fn read_quotients(
    alloc: Global,
    algebra: &Algebra<'_>,
    lines: &mut Lines<'_>,
) -> Result<Steps, CertFault>
    ensures { ReadsOne (quotients_format algebra.now.signature.now algebra.now.names.now) lines.old result lines.new }
{
    let count = read_count(lines, b"steps")?;
    read_steps(alloc, algebra, count, lines)
}

/// So many steps.
///
/// # Errors
/// The faulty line of the text that is left, whatever were to follow; and want of memory. Then the lines may stand
/// anywhere.
pub fn read_steps(
    alloc: Global,
    algebra: &Algebra<'_>,
    count: usize,
    lines: &mut Lines<'_>,
) -> Result<Steps, CertFault>
    ensures { ReadsOne (items (step_format algebra.now.signature.now algebra.now.names.now) count) lines.old result lines.new }
{
    let mut steps = Vec::new(alloc);
    for _ in 0..count {
        let step = read_step(alloc, algebra, lines)?;
        steps.push(step)?;
    }
    Ok(Steps::from_vec(steps))
}

// The step of the line that is due.
fn read_step(alloc: Global, algebra: &Algebra<'_>, lines: &mut Lines<'_>) -> Result<Step, CertFault>
    ensures { ReadsOne (step_format algebra.now.signature.now algebra.now.names.now) lines.old result lines.new }
{
    let line = lines.at();
    let Some(words) = lines.take() else {
        return Err(CertFault::Malformed { line })
    };
    match step_in(alloc, algebra, words)? {
        Some(step) => Ok(step),
        None => Err(CertFault::Malformed { line }),
    }
}

// The step that a line spells.
fn step_in(alloc: Global, algebra: &Algebra<'_>, words: &[u8]) -> Result<Option<Step>, NoMemory>
    ensures { IfOk result (Spells (step_words algebra.now.names.now algebra.now.signature.now.order) (IsWrittenStep algebra.now.signature.now algebra.now.names.now) words.now) }
{
    let Some(step) = words.strip_prefix(b"step ") else {
        return Ok(None)
    };
    let Some((place, term)) = cut_at(step, b' ') else {
        return Ok(None)
    };
    let Some(index) = place_in(place) else {
        return Ok(None)
    };
    match term_in(alloc, algebra, term)? {
        Some(found) => Ok(Some(Step {
            index,
            exps: found.0,
            coef: found.1,
        })),
        None => Ok(None),
    }
}

// The one term of the operator whose canonical text this is.
fn term_in(
    alloc: Global,
    algebra: &Algebra<'_>,
    text: &[u8],
) -> Result<Option<(Exps, Rational)>, NoMemory>
    ensures { IfOk result (Spells (λ t. operator_text algebra.now.names.now algebra.now.signature.now.order (single rationals plain_cmp t.0 t.1)) (λ t. (t.1 ≢ rationals.zero) × IsPrintable algebra.now.signature.now algebra.now.names.now (single rationals plain_cmp t.0 t.1)) text.now) }
{
    match operator_in(alloc, algebra, text)? {
        Some(op) => Ok(one_term(&op)),
        None => Ok(None),
    }
}

// The term of an operator with exactly one.
fn one_term(op: &Op) -> Option<(Exps, Rational)>
    ensures { MatchOption result ((m : _) (x : _) → x ≢ rationals.zero → op.now.sum ≢ single rationals plain_cmp m x)
        (λ t. (t.1 ≢ rationals.zero) × (op.now.sum ≡ single rationals plain_cmp t.0 t.1)) }
{
    if op.len() == 1 { op.get(0) } else { None }
}

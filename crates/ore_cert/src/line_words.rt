//! The lines of a unit row and of an operator.

ghost use Rattle.std.specs.Prelude.{◌++◌, codes, IfOk};
ghost use Rattle.ore_parts.specs.BlockText.{place, is_place};
ghost use Rattle.ore_parts.specs.Formats.{ReadsOne, Spells};
ghost use Rattle.ore_parts.specs.Lines.{LacksByte};
ghost use Rattle.ore_cert.specs.WholeFormats.{unit_format, operator_words, operator_format};
ghost use Rattle.ore_cert.specs.WholeText.{IsWrittenOperator};

use ore_monomial::NoMemory;
use ore_parts::line::read_line;
use ore_parts::sizes::place_in;
use ore_parts::{CertFault, Lines};
use ore_ring::Op;
use ore_text::{Algebra, operator_in};
use std::alloc::Global;

/// The place, from 0, of a unit row on the line that is due.
///
/// # Errors
/// The line that is due, where it isn't of this form or there is none.
pub fn read_unit(lines: &mut Lines<'_>) -> Result<usize, CertFault>
    ensures { ReadsOne unit_format lines.old result lines.new }
{
    read_line(lines, unit_in)
}

fn unit_in(words: &[u8]) -> Option<usize>
    ensures { Spells (λ k. codes "unit " ++ place k) is_place words.now result }
{
    let Some(digits) = words.strip_prefix(b"unit ") else {
        return None
    };
    place_in(digits)
}

/// The operator behind this word on the line that is due. The word has no line end.
///
/// # Errors
/// The line that is due, where it isn't of this form or there is none; and want of memory.
pub fn read_operator_line(
    alloc: Global,
    algebra: &Algebra<'_>,
    word: &[u8],
    lines: &mut Lines<'_>,
) -> Result<Op, CertFault>
    requires { LacksByte 10 word.now }
    ensures { ReadsOne (operator_format algebra.now.signature.now algebra.now.names.now word.now) lines.old result lines.new }
{
    let line = lines.at();
    let Some(words) = lines.take() else {
        return Err(CertFault::Malformed { line })
    };
    match operator_behind(alloc, algebra, word, words)? {
        Some(operator) => Ok(operator),
        None => Err(CertFault::Malformed { line }),
    }
}

fn operator_behind(
    alloc: Global,
    algebra: &Algebra<'_>,
    word: &[u8],
    words: &[u8],
) -> Result<Option<Op>, NoMemory>
    ensures { IfOk result (Spells (operator_words algebra.now.signature.now algebra.now.names.now word.now) (IsWrittenOperator algebra.now.signature.now algebra.now.names.now) words.now) }
{
    let Some(spaced) = words.strip_prefix(word) else {
        return Ok(None)
    };
    let Some(text) = spaced.strip_prefix(b" ") else {
        return Ok(None)
    };
    operator_in(alloc, algebra, text)
}

//! The blocks of a certificate, read from its lines.

ghost use Rattle.std.specs.Prelude.{◌≡◌, length, IfOk, IfErr};
ghost use Rattle.ore_parts.specs.Formats.{ReadsOne};
ghost use Rattle.ore_parts.specs.OfSignature.{IsExactOf, IsOutsideOf};
ghost use Rattle.ore_parts.specs.PartFormats.{exact_format, outside_format};

use crate::block::{ExactBlock, OutsideBlock};
use crate::fault::CertFault;
use crate::lines::Lines;
use crate::matrix::read_matrix_part;
use crate::pairs::read_pairs;
use crate::row::read_row_part;
use crate::step_lines::read_quotients;
use ore_monomial::Signature;
use ore_text::{Algebra, Names};
use std::alloc::Global;

/// The exact block whose text begins where the lines are, going past it. There is a name for each variable of the
/// signature.
///
/// # Errors
/// The faulty line of the text that is left, whatever were to follow the block; and want of memory. Then the lines are
/// as they were.
pub fn read_exact(
    alloc: Global,
    sig: &Signature,
    names: &Names,
    lines: &mut Lines<'_>,
) -> Result<ExactBlock, CertFault>
    requires { length names.now ≡ length sig.now.kinds }
    ensures reads { ReadsOne (exact_format sig.now names.now) lines.old result lines.new }
    ensures of { IfOk result (IsExactOf sig.now) }
    ensures kept { IfErr result (λ _. lines.new ≡ lines.old) }
{
    let mut ahead = lines.again();
    let block = read_exact_part(alloc, &Algebra::new(sig, names), &mut ahead)?;
    *lines = ahead;
    Ok(block)
}

/// The outside block whose text begins where the lines are, going past it. There is a name for each variable of the
/// signature.
///
/// # Errors
/// The faulty line of the text that is left, whatever were to follow the block; and want of memory. Then the lines are
/// as they were.
pub fn read_outside(
    alloc: Global,
    sig: &Signature,
    names: &Names,
    lines: &mut Lines<'_>,
) -> Result<OutsideBlock, CertFault>
    requires { length names.now ≡ length sig.now.kinds }
    ensures reads { ReadsOne (outside_format sig.now names.now) lines.old result lines.new }
    ensures of { IfOk result (IsOutsideOf sig.now) }
    ensures kept { IfErr result (λ _. lines.new ≡ lines.old) }
{
    let mut ahead = lines.again();
    let block = read_outside_part(alloc, &Algebra::new(sig, names), &mut ahead)?;
    *lines = ahead;
    Ok(block)
}

/// An exact block.
///
/// # Errors
/// The faulty line of the text that is left, whatever were to follow; and want of memory. Then the lines may stand
/// anywhere.
pub fn read_exact_part(
    alloc: Global,
    algebra: &Algebra<'_>,
    lines: &mut Lines<'_>,
) -> Result<ExactBlock, CertFault>
    ensures { ReadsOne (exact_format algebra.now.signature.now algebra.now.names.now) lines.old result lines.new }
{
    lines.expect(b"block exact\n")?;
    let basis = read_matrix_part(alloc, algebra, lines, b"basis")?;
    let from = read_matrix_part(alloc, algebra, lines, b"from")?;
    let to = read_matrix_part(alloc, algebra, lines, b"to")?;
    let pairs = read_pairs(alloc, algebra, lines)?;
    let inside = read_matrix_part(alloc, algebra, lines, b"inside")?;
    Ok(ExactBlock {
        basis,
        from,
        to,
        pairs,
        inside,
    })
}

/// An outside block.
///
/// # Errors
/// The faulty line of the text that is left, whatever were to follow; and want of memory. Then the lines may stand
/// anywhere.
pub fn read_outside_part(
    alloc: Global,
    algebra: &Algebra<'_>,
    lines: &mut Lines<'_>,
) -> Result<OutsideBlock, CertFault>
    ensures { ReadsOne (outside_format algebra.now.signature.now algebra.now.names.now) lines.old result lines.new }
{
    lines.expect(b"block outside\n")?;
    let basis = read_matrix_part(alloc, algebra, lines, b"basis")?;
    let from = read_matrix_part(alloc, algebra, lines, b"from")?;
    let pairs = read_pairs(alloc, algebra, lines)?;
    let quotients = read_quotients(alloc, algebra, lines)?;
    let rest = read_row_part(alloc, algebra, lines, b"rest")?;
    Ok(OutsideBlock {
        basis,
        from,
        pairs,
        quotients,
        rest,
    })
}

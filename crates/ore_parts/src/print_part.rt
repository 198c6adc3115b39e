//! Texts of single parts of a certificate.

ghost use Rattle.std.specs.Prelude.{◌≡◌, length, IfOk};
ghost use Rattle.std.specs.List.{All};
ghost use Rattle.ore_ring.specs.Belongs.{AllBelong};
ghost use Rattle.ore_parts.specs.BlockText.{matrix_part, exact_text, outside_text};
ghost use Rattle.ore_parts.specs.OfSignature.{IsExactOf, IsOutsideOf};

use crate::block::{ExactBlock, OutsideBlock};
use crate::matrix::append_matrix;
use crate::print_block::{append_exact, append_outside};
use ore_monomial::{NoMemory, Signature};
use ore_rows::Matrix;
use ore_text::{Algebra, Names};
use std::alloc::Global;

/// The text of a matrix with this name: a line with its sizes, rows before columns, and a line for each row.
///
/// # Errors
/// Want of memory.
pub fn print_matrix(
    alloc: Global,
    sig: &Signature,
    names: &Names,
    name: &[u8],
    m: &Matrix,
) -> Result<Vec<u8>, NoMemory>
    requires of { All (AllBelong sig.now) m.now.rows }
    requires names { length names.now ≡ length sig.now.kinds }
    ensures { IfOk result (λ text. text.items ≡ matrix_part names.now sig.now.order name.now m.now) }
{
    let mut text = Vec::new(alloc);
    append_matrix(&mut text, &Algebra::new(sig, names), name, m)?;
    Ok(text)
}

/// The text of an exact block.
///
/// # Errors
/// Want of memory.
pub fn print_exact(
    alloc: Global,
    sig: &Signature,
    names: &Names,
    block: &ExactBlock,
) -> Result<Vec<u8>, NoMemory>
    requires of { IsExactOf sig.now block.now }
    requires names { length names.now ≡ length sig.now.kinds }
    ensures { IfOk result (λ text. text.items ≡ exact_text names.now sig.now.order block.now) }
{
    let mut text = Vec::new(alloc);
    append_exact(alloc, &mut text, &Algebra::new(sig, names), block)?;
    Ok(text)
}

/// The text of an outside block.
///
/// # Errors
/// Want of memory.
pub fn print_outside(
    alloc: Global,
    sig: &Signature,
    names: &Names,
    block: &OutsideBlock,
) -> Result<Vec<u8>, NoMemory>
    requires of { IsOutsideOf sig.now block.now }
    requires names { length names.now ≡ length sig.now.kinds }
    ensures { IfOk result (λ text. text.items ≡ outside_text names.now sig.now.order block.now) }
{
    let mut text = Vec::new(alloc);
    append_outside(alloc, &mut text, &Algebra::new(sig, names), block)?;
    Ok(text)
}

//! A row, as a matrix of one row.

ghost use Rattle.std.specs.Prelude.{◌<◌};
ghost use Rattle.ore_parts.specs.CertificateText.{matrix_words, number_bound};
ghost use Rattle.ore_parts.specs.Formats.{ReadsOne, Spells};
ghost use Rattle.ore_parts.specs.Lines.{LacksByte};
ghost use Rattle.ore_parts.specs.PartFormats.{columns_format, row_format};

use crate::fault::CertFault;
use crate::line::read_line;
use crate::lines::Lines;
use crate::matrix::read_one_row;
use crate::sizes::sizes_in;
use ore_rows::Row;
use ore_text::Algebra;
use std::alloc::Global;

/// The row of this name, which has no line end.
///
/// # Errors
/// The faulty line of the text that is left, whatever were to follow; and want of memory. Then the lines may stand
/// anywhere.
pub fn read_row_part(
    alloc: Global,
    algebra: &Algebra<'_>,
    lines: &mut Lines<'_>,
    name: &[u8],
) -> Result<Row, CertFault>
    requires { LacksByte 10 name.now }
    ensures { ReadsOne (row_format algebra.now.signature.now algebra.now.names.now name.now) lines.old result lines.new }
{
    let cols = read_columns(lines, name)?;
    read_one_row(alloc, algebra, cols, lines)
}

// The number of columns that the line that is due says of one row.
fn read_columns(lines: &mut Lines<'_>, name: &[u8]) -> Result<usize, CertFault>
    requires { LacksByte 10 name.now }
    ensures { ReadsOne (columns_format name.now) lines.old result lines.new }
{
    read_line(lines, |words| columns_in(words, name))
}

// The number of columns, if the line says it of one row of this name.
fn columns_in(words: &[u8], name: &[u8]) -> Option<usize>
    ensures { Spells (λ cols. matrix_words name.now 1 cols) (λ cols. cols < number_bound) words.now result }
{
    let Some((rows, cols)) = sizes_in(words, name) else {
        return None
    };
    if rows == 1 { Some(cols) } else { None }
}

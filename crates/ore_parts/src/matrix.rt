//! The texts of matrices.

ghost use Rattle.std.specs.Prelude.{◌≡◌, suc, ◌+◌, ◌<◌, ◌∷◌, ◌++◌, [], length, IfOk, IfErr, OnOk};
ghost use Rattle.std.specs.List.{All};
ghost use Rattle.ore_ring.specs.Belongs.{AllBelong};
ghost use Rattle.ore_rows.specs.Stored.{rows_of};
ghost use Rattle.ore_parts.specs.CertificateText.{number_bound, matrix_words, named_matrix_text};
ghost use Rattle.ore_parts.specs.Formats.{ReadsOne};
ghost use Rattle.ore_parts.specs.Lines.{LacksByte};
ghost use Rattle.ore_parts.specs.PartFormats.{sizes_format, stored_row_format, rows_format, matrix_format};

use crate::fault::CertFault;
use crate::line::read_line;
use crate::lines::Lines;
use crate::sizes::sizes_in;
use ore_monomial::{NoMemory, Signature};
use ore_rows::{Matrix, Row};
use ore_text::{Algebra, Names, append_line, append_row, read_row};
use std::alloc::Global;

/// The matrix of this name whose text begins where the lines are, going past it. There is a name for each variable of
/// the signature, and the name of the matrix has no line end.
///
/// # Errors
/// The faulty line of the text that is left, whatever were to follow the matrix; and want of memory. Then the lines are
/// as they were.
pub fn read_matrix(
    alloc: Global,
    sig: &Signature,
    names: &Names,
    lines: &mut Lines<'_>,
    name: &[u8],
) -> Result<Matrix, CertFault>
    requires count { length names.now ≡ length sig.now.kinds }
    requires name { LacksByte 10 name.now }
    ensures reads { ReadsOne (matrix_format sig.now names.now name.now) lines.old result lines.new }
    ensures of { IfOk result (λ m. All (AllBelong sig.now) m.rows) }
    ensures passed { IfOk result (λ m. lines.new.at ≡ lines.old.at + suc (length m.rows)) }
    ensures kept { IfErr result (λ _. lines.new ≡ lines.old) }
{
    let mut ahead = lines.again();
    let matrix = read_matrix_part(alloc, &Algebra::new(sig, names), &mut ahead, name)?;
    *lines = ahead;
    Ok(matrix)
}

/// The matrix of this name, which has no line end.
///
/// # Errors
/// The faulty line of the text that is left, whatever were to follow; and want of memory. Then the lines may stand
/// anywhere.
pub fn read_matrix_part(
    alloc: Global,
    algebra: &Algebra<'_>,
    lines: &mut Lines<'_>,
    name: &[u8],
) -> Result<Matrix, CertFault>
    requires { LacksByte 10 name.now }
    ensures { ReadsOne (matrix_format algebra.now.signature.now algebra.now.names.now name.now) lines.old result lines.new }
{
    let (count, cols) = read_sizes(lines, name)?;
    read_rows(alloc, algebra, count, cols, lines)
}

// The numbers of rows and columns that the line that is due says.
fn read_sizes(lines: &mut Lines<'_>, name: &[u8]) -> Result<(usize, usize), CertFault>
    requires { LacksByte 10 name.now }
    ensures { ReadsOne (sizes_format name.now) lines.old result lines.new }
{
    read_line(lines, |words| sizes_in(words, name))
}

// So many rows. There are fewer than 2^63 columns.
fn read_rows(
    alloc: Global,
    algebra: &Algebra<'_>,
    count: usize,
    cols: usize,
    lines: &mut Lines<'_>,
) -> Result<Matrix, CertFault>
    requires { cols < number_bound }
    ensures { ReadsOne (rows_format algebra.now.signature.now algebra.now.names.now count cols) lines.old result lines.new }
{
    let mut rows = Vec::new(alloc);
    for _ in 0..count {
        let row = read_one_row(alloc, algebra, cols, lines)?;
        rows.push(row)?;
    }
    Ok(Matrix::from_rows(cols, rows))
}

// The row of the line that is due.
pub(crate) fn read_one_row(
    alloc: Global,
    algebra: &Algebra<'_>,
    cols: usize,
    lines: &mut Lines<'_>,
) -> Result<Row, CertFault>
    ensures { ReadsOne (stored_row_format algebra.now.signature.now algebra.now.names.now cols) lines.old result lines.new }
{
    let line = lines.at();
    let Some(due) = lines.take_with_end() else {
        return Err(CertFault::Malformed { line })
    };
    match read_row(alloc, algebra, cols, due)? {
        Some(entries) => Ok(Row::from_vec(entries)),
        None => Err(CertFault::Malformed { line }),
    }
}

/// Appends the text of a matrix with this name: a line with its sizes, rows before columns, and a line for each row.
/// The entries are of the signature.
///
/// # Errors
/// Want of memory. Then some of the text may have been appended.
pub fn append_matrix(
    out: &mut Vec<u8>,
    algebra: &Algebra<'_>,
    name: &[u8],
    m: &Matrix,
) -> Result<(), NoMemory>
    requires { All (AllBelong algebra.now.signature.now) m.now.rows }
    ensures { OnOk result (out.new.items ≡ out.old.items ++ named_matrix_text name.now algebra.now.names.now algebra.now.signature.now.order m.now.cols (rows_of m.now)) }
{
    append_sizes(out, name, m.rows(), m.cols())?;
    for k in 0..m.rows() {
        append_row(out, algebra, m.row(k).entries())?;
    }
    Ok(())
}

// Appends the line of a matrix with this name and these sizes.
pub(crate) fn append_sizes(
    out: &mut Vec<u8>,
    name: &[u8],
    rows: usize,
    cols: usize,
) -> Result<(), NoMemory>
    ensures { OnOk result (out.new.items ≡ out.old.items ++ (matrix_words name.now rows cols ++ 10 ∷ [])) }
{
    out.extend_from_slice(b"matrix ")?;
    append_line(out, name, &[rows as u128, cols as u128])
}

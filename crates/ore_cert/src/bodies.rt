//! What stands between the line of a kind and the last line, read kind by kind.

ghost use Rattle.ore_cert.specs.declared.kind.Kind.TheVariants as kinds;
ghost use Rattle.ore_parts.specs.Formats.{ReadsOne};
ghost use Rattle.ore_parts.specs.Lines.{LacksByte};
ghost use Rattle.ore_cert.specs.WholeFormats.{with_exact, with_unit, row_and_outside, with_operator, autonomous_parts, link_format, links_format, links_exact, links_row, body_format};

use crate::certificate::{Certificate, Side};
use crate::kind::Kind;
use crate::line_words::{read_operator_line, read_unit};
use crate::report::{Cause, Report};
use crate::report_lines::read_report_rest;
use ore_parts::matrix::read_matrix_part;
use ore_parts::parts::{read_exact_part, read_outside_part};
use ore_parts::row::read_row_part;
use ore_parts::{CertFault, ExactBlock, Lines, Link, Links, OutsideBlock};
use ore_ring::Op;
use ore_rows::{Matrix, Row};
use ore_text::Algebra;
use std::alloc::Global;

// The rest of a certificate of this kind.
pub(crate) fn read_body(
    alloc: Global,
    algebra: &Algebra<'_>,
    kind: Kind,
    lines: &mut Lines<'_>,
) -> Result<Certificate, CertFault>
    ensures { ReadsOne (body_format algebra.now.signature.now algebra.now.names.now kind) lines.old result lines.new }
{
    match kind {
        Kind::Controllable => read_controllable(alloc, algebra, lines),
        Kind::AutonomousElement => read_autonomous(alloc, algebra, lines),
        Kind::LeftInverse => read_left_inverse(alloc, algebra, lines),
        Kind::RightInverse => read_right(alloc, algebra, lines),
        Kind::NoLeftInverse => read_no_left(alloc, algebra, lines),
        Kind::NoRightInverse => read_no_right(alloc, algebra, lines),
        Kind::KernelLeft => read_kernel_left(alloc, algebra, lines),
        Kind::KernelRight => read_kernel_right(alloc, algebra, lines),
        Kind::Resolution { count } => read_resolution(alloc, algebra, count, lines),
        Kind::ExtZero { count } => read_ext_zero(alloc, algebra, count, lines),
        Kind::ExtNonzero { count } => read_ext_nonzero(alloc, algebra, count, lines),
        Kind::Halted { cause } => read_halted(alloc, algebra, cause, lines),
    }
}

// A matrix, and a block that shows exactness.
fn read_controllable(
    alloc: Global,
    algebra: &Algebra<'_>,
    lines: &mut Lines<'_>,
) -> Result<Certificate, CertFault>
    ensures { ReadsOne (body_format algebra.now.signature.now algebra.now.names.now kinds.Controllable) lines.old result lines.new }
{
    let (q, block) = read_with_exact(alloc, algebra, b"Q", lines)?;
    Ok(Certificate::Controllable { q, block })
}

// An element, the operator that takes it into the row module, and what shows both.
fn read_autonomous(
    alloc: Global,
    algebra: &Algebra<'_>,
    lines: &mut Lines<'_>,
) -> Result<Certificate, CertFault>
    ensures { ReadsOne (body_format algebra.now.signature.now algebra.now.names.now kinds.AutonomousElement) lines.old result lines.new }
{
    let (element, (operator, (cofactor, block))) = read_autonomous_parts(alloc, algebra, lines)?;
    Ok(Certificate::AutonomousElement {
        element,
        operator,
        cofactor,
        block,
    })
}

// A left inverse.
fn read_left_inverse(
    alloc: Global,
    algebra: &Algebra<'_>,
    lines: &mut Lines<'_>,
) -> Result<Certificate, CertFault>
    ensures { ReadsOne (body_format algebra.now.signature.now algebra.now.names.now kinds.LeftInverse) lines.old result lines.new }
{
    let s = read_matrix_part(alloc, algebra, lines, b"S")?;
    Ok(Certificate::LeftInverse { s })
}

// A right inverse.
fn read_right(
    alloc: Global,
    algebra: &Algebra<'_>,
    lines: &mut Lines<'_>,
) -> Result<Certificate, CertFault>
    ensures { ReadsOne (body_format algebra.now.signature.now algebra.now.names.now kinds.RightInverse) lines.old result lines.new }
{
    let s = read_matrix_part(alloc, algebra, lines, b"S")?;
    Ok(Certificate::RightInverse { s })
}

// The place of a unit row, and a block that shows that it lies outside.
fn read_no_left(
    alloc: Global,
    algebra: &Algebra<'_>,
    lines: &mut Lines<'_>,
) -> Result<Certificate, CertFault>
    ensures { ReadsOne (body_format algebra.now.signature.now algebra.now.names.now kinds.NoLeftInverse) lines.old result lines.new }
{
    let (unit, block) = read_with_unit(alloc, algebra, lines)?;
    Ok(Certificate::NoLeftInverse { unit, block })
}

// The place of a unit row, and a block that shows that it lies outside.
fn read_no_right(
    alloc: Global,
    algebra: &Algebra<'_>,
    lines: &mut Lines<'_>,
) -> Result<Certificate, CertFault>
    ensures { ReadsOne (body_format algebra.now.signature.now algebra.now.names.now kinds.NoRightInverse) lines.old result lines.new }
{
    let (unit, block) = read_with_unit(alloc, algebra, lines)?;
    Ok(Certificate::NoRightInverse { unit, block })
}

// Generators, and a block that shows exactness.
fn read_kernel_left(
    alloc: Global,
    algebra: &Algebra<'_>,
    lines: &mut Lines<'_>,
) -> Result<Certificate, CertFault>
    ensures { ReadsOne (body_format algebra.now.signature.now algebra.now.names.now kinds.KernelLeft) lines.old result lines.new }
{
    let (generators, block) = read_with_exact(alloc, algebra, b"L", lines)?;
    Ok(Certificate::Kernel {
        side: Side::Left,
        generators,
        block,
    })
}

// Generators, and a block that shows exactness.
fn read_kernel_right(
    alloc: Global,
    algebra: &Algebra<'_>,
    lines: &mut Lines<'_>,
) -> Result<Certificate, CertFault>
    ensures { ReadsOne (body_format algebra.now.signature.now algebra.now.names.now kinds.KernelRight) lines.old result lines.new }
{
    let (generators, block) = read_with_exact(alloc, algebra, b"Q", lines)?;
    Ok(Certificate::Kernel {
        side: Side::Right,
        generators,
        block,
    })
}

// So many links.
fn read_resolution(
    alloc: Global,
    algebra: &Algebra<'_>,
    count: usize,
    lines: &mut Lines<'_>,
) -> Result<Certificate, CertFault>
    ensures { ReadsOne (body_format algebra.now.signature.now algebra.now.names.now (kinds.Resolution count)) lines.old result lines.new }
{
    let links = read_links(alloc, algebra, count, lines)?;
    Ok(Certificate::Resolution { links })
}

// So many links, and a block that shows exactness.
fn read_ext_zero(
    alloc: Global,
    algebra: &Algebra<'_>,
    count: usize,
    lines: &mut Lines<'_>,
) -> Result<Certificate, CertFault>
    ensures { ReadsOne (body_format algebra.now.signature.now algebra.now.names.now (kinds.ExtZero count)) lines.old result lines.new }
{
    let (links, block) = read_links_exact(alloc, algebra, count, lines)?;
    Ok(Certificate::ExtZero { links, block })
}

// So many links, and an element with a block that shows that it lies outside.
fn read_ext_nonzero(
    alloc: Global,
    algebra: &Algebra<'_>,
    count: usize,
    lines: &mut Lines<'_>,
) -> Result<Certificate, CertFault>
    ensures { ReadsOne (body_format algebra.now.signature.now algebra.now.names.now (kinds.ExtNonzero count)) lines.old result lines.new }
{
    let (links, (element, block)) = read_links_row(alloc, algebra, count, lines)?;
    Ok(Certificate::ExtNonzero {
        links,
        element,
        block,
    })
}

// What follows the first line of a report.
fn read_halted(
    alloc: Global,
    algebra: &Algebra<'_>,
    cause: Cause,
    lines: &mut Lines<'_>,
) -> Result<Certificate, CertFault>
    ensures { ReadsOne (body_format algebra.now.signature.now algebra.now.names.now (kinds.Halted cause)) lines.old result lines.new }
{
    let (plan, (runs, stop)) = read_report_rest(alloc, lines)?;
    Ok(Certificate::Halted {
        report: Report {
            cause,
            plan,
            runs,
            stop,
        },
    })
}

// The matrix of this name, and a block that shows exactness.
fn read_with_exact(
    alloc: Global,
    algebra: &Algebra<'_>,
    name: &[u8],
    lines: &mut Lines<'_>,
) -> Result<(Matrix, ExactBlock), CertFault>
    requires { LacksByte 10 name.now }
    ensures { ReadsOne (with_exact algebra.now.signature.now algebra.now.names.now name.now) lines.old result lines.new }
{
    let matrix = read_matrix_part(alloc, algebra, lines, name)?;
    let block = read_exact_part(alloc, algebra, lines)?;
    Ok((matrix, block))
}

// The place of a unit row, and a block that shows that it lies outside.
fn read_with_unit(
    alloc: Global,
    algebra: &Algebra<'_>,
    lines: &mut Lines<'_>,
) -> Result<(usize, OutsideBlock), CertFault>
    ensures { ReadsOne (with_unit algebra.now.signature.now algebra.now.names.now) lines.old result lines.new }
{
    let unit = read_unit(lines)?;
    let block = read_outside_part(alloc, algebra, lines)?;
    Ok((unit, block))
}

// The row of this name, and a block that shows that a row lies outside.
fn read_with_row(
    alloc: Global,
    algebra: &Algebra<'_>,
    name: &[u8],
    lines: &mut Lines<'_>,
) -> Result<(Row, OutsideBlock), CertFault>
    requires { LacksByte 10 name.now }
    ensures { ReadsOne (row_and_outside algebra.now.signature.now algebra.now.names.now name.now) lines.old result lines.new }
{
    let row = read_row_part(alloc, algebra, lines, name)?;
    let block = read_outside_part(alloc, algebra, lines)?;
    Ok((row, block))
}

// An operator, and what shows that it takes an element into the row module.
fn read_with_operator(
    alloc: Global,
    algebra: &Algebra<'_>,
    lines: &mut Lines<'_>,
) -> Result<(Op, (Row, OutsideBlock)), CertFault>
    ensures { ReadsOne (with_operator algebra.now.signature.now algebra.now.names.now) lines.old result lines.new }
{
    let operator = read_operator_line(alloc, algebra, b"operator", lines)?;
    let rest = read_with_row(alloc, algebra, b"cofactor", lines)?;
    Ok((operator, rest))
}

// An element, and what follows it.
fn read_autonomous_parts(
    alloc: Global,
    algebra: &Algebra<'_>,
    lines: &mut Lines<'_>,
) -> Result<(Row, (Op, (Row, OutsideBlock))), CertFault>
    ensures { ReadsOne (autonomous_parts algebra.now.signature.now algebra.now.names.now) lines.old result lines.new }
{
    let element = read_row_part(alloc, algebra, lines, b"element")?;
    let rest = read_with_operator(alloc, algebra, lines)?;
    Ok((element, rest))
}

// A matrix with its block.
fn read_link(alloc: Global, algebra: &Algebra<'_>, lines: &mut Lines<'_>) -> Result<Link, CertFault>
    ensures { ReadsOne (link_format algebra.now.signature.now algebra.now.names.now) lines.old result lines.new }
{
    let l = read_matrix_part(alloc, algebra, lines, b"L")?;
    let block = read_exact_part(alloc, algebra, lines)?;
    Ok(Link { l, block })
}

// So many links.
fn read_links(
    alloc: Global,
    algebra: &Algebra<'_>,
    count: usize,
    lines: &mut Lines<'_>,
) -> Result<Links, CertFault>
    ensures { ReadsOne (links_format algebra.now.signature.now algebra.now.names.now count) lines.old result lines.new }
{
    let mut links = Vec::new(alloc);
    for _ in 0..count {
        let link = read_link(alloc, algebra, lines)?;
        links.push(link)?;
    }
    Ok(Links::from_vec(links))
}

// So many links, and a block that shows exactness.
fn read_links_exact(
    alloc: Global,
    algebra: &Algebra<'_>,
    count: usize,
    lines: &mut Lines<'_>,
) -> Result<(Links, ExactBlock), CertFault>
    ensures { ReadsOne (links_exact algebra.now.signature.now algebra.now.names.now count) lines.old result lines.new }
{
    let links = read_links(alloc, algebra, count, lines)?;
    let block = read_exact_part(alloc, algebra, lines)?;
    Ok((links, block))
}

// So many links, and an element with a block that shows that it lies outside.
fn read_links_row(
    alloc: Global,
    algebra: &Algebra<'_>,
    count: usize,
    lines: &mut Lines<'_>,
) -> Result<(Links, (Row, OutsideBlock)), CertFault>
    ensures { ReadsOne (links_row algebra.now.signature.now algebra.now.names.now count) lines.old result lines.new }
{
    let links = read_links(alloc, algebra, count, lines)?;
    let rest = read_with_row(alloc, algebra, b"element", lines)?;
    Ok((links, rest))
}

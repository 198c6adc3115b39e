//! The rows of the matrix.

ghost use Rattle.std.specs.Prelude.{◌≡◌, [], true, false, length, map, drop, IfOk, MatchOption};
ghost use Rattle.std.specs.List.{All, list_all};
ghost use Rattle.ore_algebra.specs.Limits.{program};
ghost use Rattle.ore_ring.specs.Belongs.{Belongs, AllBelong};
ghost use Rattle.ore_rows.specs.Stored.{HasColumns, sums_of};
ghost use Rattle.ore_expr.specs.Evaluation.{IsOf, value_of};
ghost use Rattle.ore_expr.specs.Parsing.{parse as parse_of};
ghost use Rattle.ore_problem.specs.Lines.{split_at};
ghost use Rattle.ore_problem.specs.Problems.{is_space, text_read, value_read, parsed, evaluated, is_row, row_entries, row_after, rows_after};
ghost use Rattle.ore_problem.specs.Reader.{cursor_of, spaces_read, text_fault as text_fault_of};
ghost use Rattle.ore_problem.specs.Stored.{ReadsProblem};

use crate::fault::{ProblemFault, ProblemReason};
use crate::frame::Frame;
use crate::lines::Lines;
use ore_expr::{Instruction, TextFault, evaluate, parse};
use ore_mixed::MixedRing;
use ore_monomial::{RingStop, Signature};
use ore_ring::Op;
use ore_rows::Row;
use ore_text::Names;
use std::alloc::{AllocError, Global};

/// So many rows of `cols` entries, each in the next line.
///
/// # Errors
/// The first line with a fault, or that a line is missing; and want of memory.
pub(crate) fn rows(
    alloc: Global,
    lines: &mut Lines,
    frame: &Frame,
    cols: usize,
    count: usize,
) -> Result<Vec<Row>, ProblemFault>
    ensures reads { ReadsProblem (λ rows. (map sums_of rows.items, cursor_of lines.new)) result (rows_after frame.now cols count (cursor_of lines.old)) }
    ensures of { IfOk result (λ rows. All (AllBelong frame.now.signature) rows.items) }
    ensures wide { IfOk result (λ rows. HasColumns cols rows.items) }
    ensures same { lines.new.text ≡ lines.old.text }
{
    let mut rows = Vec::new(alloc);
    for k in 0..count {
        rows.push(row(alloc, lines, frame, cols)?)?;
    }
    Ok(rows)
}

#[tactic(auto, using(crate::proofs::ReadLemmas::fault_reads_on), unfolding(crate::specs::Problems::row_after))]
fn row(alloc: Global, lines: &mut Lines, frame: &Frame, cols: usize) -> Result<Row, ProblemFault>
    ensures reads { ReadsProblem (λ row. (sums_of row, cursor_of lines.new)) result (row_after frame.now cols (cursor_of lines.old)) }
    ensures of { IfOk result (AllBelong frame.now.signature) }
    ensures wide { IfOk result (λ row. length row ≡ cols) }
    ensures same { lines.new.text ≡ lines.old.text }
{
    let line = lines.due()?;
    let Some(rest) = after_row(line) else {
        return Err(ProblemFault::at(lines.line(), ProblemReason::BadRow))
    };
    let entries = entries(alloc, frame, cols, lines.line(), rest)?;
    Ok(Row::from_vec(entries))
}

// What follows the word `row`.
fn after_row(line: &[u8]) -> Option<&[u8]>
    ensures { MatchOption result (is_row line.now ≡ false) (λ rest. (is_row line.now ≡ true) × (rest.now ≡ drop 3 line.now)) }
{
    let Some(rest) = line.strip_prefix(b"row") else {
        return None
    };
    match rest {
        [] => Some(rest),
        [b' ', ..] => Some(rest),
        [_, ..] => None,
    }
}

#[tactic(auto, using(crate::proofs::ReadLemmas::fault_reads_on), unfolding(crate::specs::Problems::row_entries))]
fn entries(
    alloc: Global,
    frame: &Frame,
    cols: usize,
    line: usize,
    rest: &[u8],
) -> Result<Vec<Op>, ProblemFault>
    ensures reads { ReadsProblem (λ es. sums_of es.items) result (row_entries frame.now cols line rest.now) }
    ensures of { IfOk result (λ es. AllBelong frame.now.signature es.items) }
    ensures wide { IfOk result (λ es. length es.items ≡ cols) }
{
    if cols == 0 {
        return no_entries(alloc, line, rest);
    }
    let parts = split_parts(alloc, rest)?;
    if parts.len() != cols {
        return Err(ProblemFault::at(line, ProblemReason::WrongLength));
    }
    let programs = parse_parts(alloc, frame.names(), line, &parts)?;
    evaluate_programs(alloc, frame.signature(), line, &programs)
}

// The row without entries, where only spaces stand.
#[tactic(auto, unfolding(crate::specs::Problems::row_entries))]
fn no_entries(alloc: Global, line: usize, rest: &[u8]) -> Result<Vec<Op>, ProblemFault>
    ensures reads { ReadsProblem (λ es. sums_of es.items) result (spaces_read line rest.now) }
    ensures none { IfOk result (λ es. es.items ≡ []) }
{
    if are_spaces(rest) {
        Ok(Vec::new(alloc))
    } else {
        Err(ProblemFault::at(line, ProblemReason::WrongLength))
    }
}

fn are_spaces(bytes: &[u8]) -> bool
    ensures { result ≡ list_all is_space bytes.now }
{
    bytes.iter().all(|b| *b == b' ')
}

// The parts between the commas.
fn split_parts(alloc: Global, rest: &[u8]) -> Result<Vec<&[u8]>, AllocError>
    ensures { IfOk result (λ parts. map (λ w. w.now) parts.items ≡ split_at 44 rest.now) }
{
    rest.split(|b| *b == b',').collect(alloc)
}

fn parse_parts(
    alloc: Global,
    names: &Names,
    line: usize,
    parts: &[&[u8]],
) -> Result<Vec<Vec<Instruction>>, ProblemFault>
    ensures reads { ReadsProblem (λ ps. map (λ p. p.items) ps.items) result (parsed names.now line (map (λ w. w.now) parts.now)) }
    ensures of { IfOk result (λ ps. All (λ p. All (IsOf (length names.now)) p.items) ps.items) }
    ensures wide { IfOk result (λ ps. length ps.items ≡ length parts.now) }
{
    let mut programs = Vec::with_capacity(alloc, parts.len())?;
    for part in parts {
        programs.push(parse_part(alloc, names, line, part)?)?;
    }
    Ok(programs)
}

fn parse_part(
    alloc: Global,
    names: &Names,
    line: usize,
    part: &[u8],
) -> Result<Vec<Instruction>, ProblemFault>
    ensures reads { ReadsProblem (λ p. p.items) result (text_read line (parse_of names.now part.now)) }
    ensures of { IfOk result (λ p. All (IsOf (length names.now)) p.items) }
{
    match parse(alloc, names, part) {
        Ok(instructions) => Ok(instructions),
        Err(fault) => Err(text_fault(line, fault)),
    }
}

fn text_fault(line: usize, fault: TextFault) -> ProblemFault
    ensures { result ≡ text_fault_of line fault }
{
    match fault {
        TextFault::Stop(RingStop::Memory) => ProblemFault::memory(),
        _ => ProblemFault::at(line, ProblemReason::Text(fault)),
    }
}

fn evaluate_programs(
    alloc: Global,
    signature: &Signature,
    line: usize,
    programs: &[Vec<Instruction>],
) -> Result<Vec<Op>, ProblemFault>
    requires { All (λ p. All (IsOf (length signature.now.kinds)) p.items) programs.now }
    ensures reads { ReadsProblem (λ es. sums_of es.items) result (evaluated signature.now line (map (λ p. p.items) programs.now)) }
    ensures of { IfOk result (λ es. AllBelong signature.now es.items) }
    ensures wide { IfOk result (λ es. length es.items ≡ length programs.now) }
{
    let ring = MixedRing::new(signature.copy());
    let mut entries = Vec::with_capacity(alloc, programs.len())?;
    for instructions in programs {
        entries.push(evaluate_program(alloc, &ring, line, instructions)?)?;
    }
    Ok(entries)
}

fn evaluate_program(
    alloc: Global,
    ring: &MixedRing,
    line: usize,
    instructions: &[Instruction],
) -> Result<Op, ProblemFault>
    requires { All (IsOf (length ring.now.kinds)) instructions.now }
    ensures reads { ReadsProblem (λ f. f.sum) result (value_read line (value_of program ring.now instructions.now)) }
    ensures of { IfOk result (Belongs ring.now) }
{
    match evaluate(ring, alloc, instructions) {
        Ok(operator) => Ok(operator),
        Err(stop) => Err(text_fault(line, TextFault::Stop(stop))),
    }
}

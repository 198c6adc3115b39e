//! The lines before the rows, and the last line.

ghost use Rattle.std.specs.Prelude.{◌≡◌, ◌≤◌, ◌&&◌, map, IfOk};
ghost use Rattle.ore_problem.specs.Declarations.{is_count as is_count_of};
ghost use Rattle.ore_problem.specs.Problems.{header_after, order_named as order_of_words, order_after, is_matrix as is_matrix_line, declarations_of, sizes_of, end_after};
ghost use Rattle.ore_problem.specs.Reader.{cursor_of, size_pair as size_pair_of};
ghost use Rattle.ore_problem.specs.Stored.{ReadsProblem};

use crate::fault::{ProblemFault, ProblemReason};
use crate::frame::Frame;
use crate::lines::Lines;
use crate::print::order_word;
use crate::word::{are_two, is_alone, is_count, is_word, split_words, value_up_to};
use ore_monomial::Order;
use std::alloc::Global;

/// The greatest number of rows, and of columns.
const MOST_SIZE: u32 = 64;

/// Passes the first line.
///
/// # Errors
/// It isn't `ore 1`, or there is none; and want of memory.
#[tactic(auto, using(crate::proofs::ReadLemmas::fault_reads_on), unfolding(crate::specs::Problems::header_after))]
pub(crate) fn header(alloc: Global, lines: &mut Lines) -> Result<(), ProblemFault>
    ensures reads { ReadsProblem (λ _. cursor_of lines.new) result (header_after (cursor_of lines.old)) }
    ensures same { lines.new.text ≡ lines.old.text }
{
    let line = lines.due()?;
    let words = split_words(alloc, line)?;
    if !are_two(&words, b"ore", b"1") {
        return Err(ProblemFault::at(lines.line(), ProblemReason::Header));
    }
    Ok(())
}

/// The order that the second line names.
///
/// # Errors
/// It names none, or there is no line; and want of memory.
#[tactic(auto, using(crate::proofs::ReadLemmas::fault_reads_on), unfolding(crate::specs::Problems::order_after))]
pub(crate) fn order(alloc: Global, lines: &mut Lines) -> Result<Order, ProblemFault>
    ensures reads { ReadsProblem (λ o. (o, cursor_of lines.new)) result (order_after (cursor_of lines.old)) }
    ensures same { lines.new.text ≡ lines.old.text }
{
    let line = lines.due()?;
    let words = split_words(alloc, line)?;
    match order_of(&words) {
        Some(order) => Ok(order),
        None => Err(ProblemFault::at(lines.line(), ProblemReason::Header)),
    }
}

fn order_of(words: &[&[u8]]) -> Option<Order>
    ensures { result ≡ order_of_words (map (λ w. w.now) words.now) }
{
    if are_two(words, b"order", order_word(Order::DegLex)) {
        return Some(Order::DegLex);
    }
    if are_two(words, b"order", order_word(Order::DegRevLex)) {
        return Some(Order::DegRevLex);
    }
    None
}

/// Adds the declarations to the frame. The words of the matrix line behind them.
///
/// # Errors
/// The first line with a fault, or that there is no matrix line; and want of memory. Then nothing is said of the frame.
pub(crate) fn declarations<'a>(
    alloc: Global,
    lines: &mut Lines<'a>,
    frame: &mut Frame,
) -> Result<Vec<&'a [u8]>, ProblemFault>
    ensures reads { ReadsProblem (λ ws. record { frame = frame.new; sizes = map (λ w. w.now) ws.items; cursor = cursor_of lines.new }) result
        (declarations_of frame.old (cursor_of lines.old).line (cursor_of lines.old).used (cursor_of lines.old).left) }
    ensures same { lines.new.text ≡ lines.old.text }
{
    loop {
        let line = lines.due()?;
        let words = split_words(alloc, line)?;
        if is_matrix(&words) {
            return Ok(words);
        }
        frame.declare(alloc, lines.line(), &words)?;
    }
}

fn is_matrix(words: &[&[u8]]) -> bool
    ensures { result ≡ is_matrix_line (map (λ w. w.now) words.now) }
{
    match words {
        [first, ..] => is_word(first, b"matrix"),
        [] => false,
    }
}

/// The numbers of rows and columns, by the words of the matrix line. Each is at most 64.
///
/// # Errors
/// The words aren't two numbers behind the first, or a number is too great, that of the rows first.
#[tactic(auto, unfolding(crate::specs::Problems::sizes_of))]
pub(crate) fn sizes(line: usize, words: &[&[u8]]) -> Result<(usize, usize), ProblemFault>
    ensures reads { ReadsProblem (λ n. n) result (sizes_of line (map (λ w. w.now) words.now)) }
    ensures few { IfOk result (λ n. n.1 ≤ 64) }
{
    match words {
        [_, rows, cols] => size_pair(line, rows, cols),
        _ => Err(ProblemFault::at(line, ProblemReason::BadMatrix)),
    }
}

fn size_pair(line: usize, rows: &[u8], cols: &[u8]) -> Result<(usize, usize), ProblemFault>
    ensures reads { ReadsProblem (λ n. n) result (size_pair_of line rows.now cols.now) }
    ensures few { IfOk result (λ n. n.1 ≤ 64) }
{
    if !are_counts(rows, cols) {
        return Err(ProblemFault::at(line, ProblemReason::BadMatrix));
    }
    let row_count = value_up_to(rows, MOST_SIZE + 1);
    if row_count > MOST_SIZE {
        return Err(ProblemFault::at(line, ProblemReason::TooManyRows));
    }
    let col_count = value_up_to(cols, MOST_SIZE + 1);
    if col_count > MOST_SIZE {
        return Err(ProblemFault::at(line, ProblemReason::TooManyColumns));
    }
    Ok((row_count as usize, col_count as usize))
}

fn are_counts(rows: &[u8], cols: &[u8]) -> bool
    ensures { result ≡ (is_count_of rows.now && is_count_of cols.now) }
{
    is_count(rows) && is_count(cols)
}

/// Passes the line behind the rows.
///
/// # Errors
/// It isn't `end`, or there is none; and want of memory.
#[tactic(auto, using(crate::proofs::ReadLemmas::fault_reads_on), unfolding(crate::specs::Problems::end_after))]
pub(crate) fn end(alloc: Global, lines: &mut Lines) -> Result<(), ProblemFault>
    ensures reads { ReadsProblem (λ _. cursor_of lines.new) result (end_after (cursor_of lines.old)) }
    ensures same { lines.new.text ≡ lines.old.text }
{
    let line = lines.due()?;
    let words = split_words(alloc, line)?;
    if !is_alone(&words, b"end") {
        return Err(ProblemFault::at(lines.line(), ProblemReason::NoEnd));
    }
    Ok(())
}

//! Reads problem texts.

ghost use Rattle.std.specs.Prelude.{◌≡◌, ◌≤◌, length, IfOk};
ghost use Rattle.ore_problem.specs.Problems.{prefix_sizes, problem_of};
ghost use Rattle.ore_problem.specs.Reader.{cursor_of, problem_after};
ghost use Rattle.ore_problem.specs.Stored.{system_of, IsProblem, ReadsProblem};

use crate::fault::{ProblemFault, ProblemReason};
use crate::frame::Frame;
use crate::header::{declarations, end, header, order, sizes};
use crate::lines::Lines;
use crate::problem::Problem;
use crate::rows::rows;
use ore_rows::Matrix;
use std::alloc::Global;

/// The problem that a whole text is.
///
/// # Errors
/// The first faulty line, from 1, with what is wrong there, and want of memory, with line 0.
pub fn read_problem(alloc: Global, text: &[u8]) -> Result<Problem, ProblemFault>
    ensures reads { ReadsProblem system_of result (problem_of text.now) }
    ensures problem { IfOk result IsProblem }
{
    let mut lines = Lines::new(text);
    let problem = problem_in(alloc, &mut lines)?;
    match lines.next() {
        None => Ok(problem),
        Some(_) => Err(ProblemFault::at(lines.line(), ProblemReason::AfterEnd)),
    }
}

/// The problem at the front of a text, the number of bytes up to the end of its line `end`, and the
/// number of lines.
///
/// # Errors
/// The first faulty line, from 1, with what is wrong there, and want of memory, with line 0. What follows the problem
/// is no fault.
pub fn read_prefix(alloc: Global, text: &[u8]) -> Result<(Problem, usize, usize), ProblemFault>
    ensures reads { ReadsProblem (λ r. (system_of r.0, (r.1, r.2))) result (prefix_sizes text.now) }
    ensures problem { IfOk result (λ r. IsProblem r.0) }
    ensures within { IfOk result (λ r. r.1 ≤ length text.now) }
{
    let mut lines = Lines::new(text);
    let problem = problem_in(alloc, &mut lines)?;
    Ok((problem, lines.used(), lines.line()))
}

// The problem whose first line is the next one.
#[tactic(auto, using(crate::proofs::ReadLemmas::fault_reads_on), unfolding(crate::specs::Reader::problem_after))]
fn problem_in(alloc: Global, lines: &mut Lines) -> Result<Problem, ProblemFault>
    ensures reads { ReadsProblem (λ p. (system_of p, cursor_of lines.new)) result (problem_after (cursor_of lines.old)) }
    ensures problem { IfOk result IsProblem }
    ensures same { lines.new.text ≡ lines.old.text }
{
    header(alloc, lines)?;
    let order = order(alloc, lines)?;
    let mut frame = Frame::new(alloc, order);
    let words = declarations(alloc, lines, &mut frame)?;
    let (row_count, cols) = sizes(lines.line(), &words)?;
    let rows = rows(alloc, lines, &frame, cols, row_count)?;
    end(alloc, lines)?;
    Ok(frame.into_problem(Matrix::from_rows(cols, rows)))
}

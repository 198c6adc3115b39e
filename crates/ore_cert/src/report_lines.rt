//! The lines of the report of a stopped computation.

ghost use Rattle.std.specs.Prelude.{◌≡◌, ◌++◌, ◌∷◌, codes, MatchOption};
ghost use Rattle.ore_parts.specs.BlockText.{place, is_place};
ghost use Rattle.ore_parts.specs.Formats.{ReadsOne, items, Spells};
ghost use Rattle.ore_cert.specs.WholeText.{IsWrittenChoice, IsWrittenPlan, IsWrittenStop};
ghost use Rattle.ore_cert.specs.ReportFormats.{plan_line, IsNoUnnumberedPlan, choice_words, stop_line, report_line_words, IsWrittenReportLine, plan_format, choice_format, report_line_format, next_format, runs_format, report_rest_format};

use crate::kind::length_behind;
use crate::report::{Plan, Stop};
use ore_parts::count::count_in;
use ore_parts::line::read_line;
use ore_parts::lines::cut_at;
use ore_parts::sizes::{place_in, places_in};
use ore_parts::{CertFault, Lines};
use ore_rows::{Choice, Choices, Runs};
use std::alloc::Global;

/// A line behind the plan that isn't a choice.
#[derive(Clone, Copy, Drop)]
pub enum ReportLine {
    /// So many choices of a run follow.
    RunLine { count: usize },
    /// The last line of the report.
    StopLine { stop: Stop },
}

/// What follows the plan, or a run.
#[derive(Drop)]
pub enum Next {
    /// A run with these choices.
    Run { choices: Choices },
    /// The last line of the report.
    End { stop: Stop },
}

/// What follows the first line of a report: the plan, the runs and where the computation stopped.
///
/// # Errors
/// The faulty line of the text that is left, whatever were to follow; and want of memory. Then the lines may stand
/// anywhere.
pub fn read_report_rest(
    alloc: Global,
    lines: &mut Lines<'_>,
) -> Result<(Plan, (Runs, Stop)), CertFault>
    ensures { ReadsOne report_rest_format lines.old result lines.new }
{
    let plan = read_plan(lines)?;
    let runs = read_runs(alloc, lines)?;
    Ok((plan, runs))
}

// The runs up to the line that says where the computation stopped.
fn read_runs(alloc: Global, lines: &mut Lines<'_>) -> Result<(Runs, Stop), CertFault>
    ensures { ReadsOne runs_format lines.old result lines.new }
{
    let mut runs = Vec::new(alloc);
    for _ in 0..lines.len() + 1 {
        match read_next(alloc, lines)? {
            Next::Run { choices } => runs.push(choices)?,
            Next::End { stop } => return Ok((Runs::from_vec(runs), stop)),
        }
    }
    Err(CertFault::Malformed { line: lines.at() })
}

// A run, or where the computation stopped.
fn read_next(alloc: Global, lines: &mut Lines<'_>) -> Result<Next, CertFault>
    ensures { ReadsOne next_format lines.old result lines.new }
{
    match read_report_line(lines)? {
        ReportLine::RunLine { count } => {
            let choices = read_choices(alloc, count, lines)?;
            Ok(Next::Run { choices })
        }
        ReportLine::StopLine { stop } => Ok(Next::End { stop }),
    }
}

// So many choices.
fn read_choices(alloc: Global, count: usize, lines: &mut Lines<'_>) -> Result<Choices, CertFault>
    ensures { ReadsOne (items choice_format count) lines.old result lines.new }
{
    let mut choices = Vec::new(alloc);
    for _ in 0..count {
        let choice = read_choice(lines)?;
        choices.push(choice)?;
    }
    Ok(Choices::from_vec(choices))
}

// The choice on the line that is due.
fn read_choice(lines: &mut Lines<'_>) -> Result<Choice, CertFault>
    ensures { ReadsOne choice_format lines.old result lines.new }
{
    read_line(lines, choice_in)
}

// The plan on the line that is due.
fn read_plan(lines: &mut Lines<'_>) -> Result<Plan, CertFault>
    ensures { ReadsOne plan_format lines.old result lines.new }
{
    read_line(lines, plan_in)
}

// The line of a run, or the last line of a report.
fn read_report_line(lines: &mut Lines<'_>) -> Result<ReportLine, CertFault>
    ensures { ReadsOne report_line_format lines.old result lines.new }
{
    read_line(lines, report_line_in)
}

// The plan that these words are.
fn plan_in(words: &[u8]) -> Option<Plan>
    ensures { Spells plan_line IsWrittenPlan words.now result }
{
    if let Some(plan) = unnumbered_plan_in(words) {
        return Some(plan);
    }
    if let Some(links) = length_behind(words, b"plan resolve") {
        return Some(Plan::Resolve(links as u8));
    }
    if let Some(place) = length_behind(words, b"plan ext") {
        return Some(Plan::Ext(place as u8));
    }
    None
}

// A plan without a number.
fn unnumbered_plan_in(words: &[u8]) -> Option<Plan>
    ensures { MatchOption result (IsNoUnnumberedPlan words.now) (λ p. IsWrittenPlan p × (words.now ≡ plan_line p)) }
{
    if words == b"plan analyse".as_slice() {
        return Some(Plan::Analyse);
    }
    if words == b"plan kernel left".as_slice() {
        return Some(Plan::KernelLeft);
    }
    if words == b"plan kernel right".as_slice() {
        return Some(Plan::KernelRight);
    }
    if words == b"plan inverse left".as_slice() {
        return Some(Plan::InverseLeft);
    }
    if words == b"plan inverse right".as_slice() {
        return Some(Plan::InverseRight);
    }
    if words == b"plan adjoint".as_slice() {
        return Some(Plan::Adjoint);
    }
    None
}

// The line of a run, or the last line, that these words are.
fn report_line_in(words: &[u8]) -> Option<ReportLine>
    ensures { Spells report_line_words IsWrittenReportLine words.now result }
{
    if let Some(count) = count_in(words, b"run") {
        return Some(ReportLine::RunLine { count });
    }
    if let Some(stop) = stop_in(words) {
        return Some(ReportLine::StopLine { stop });
    }
    None
}

// Where the computation stopped.
fn stop_in(words: &[u8]) -> Option<Stop>
    ensures { Spells stop_line IsWrittenStop words.now result }
{
    if words == b"stop forced".as_slice() {
        return Some(Stop::Forced);
    }
    if words == b"stop budget".as_slice() {
        return Some(Stop::Budget);
    }
    if let Some((i, j)) = pair_behind(words, b"stop treat ") {
        return Some(Stop::Treat { i, j });
    }
    None
}

// The choice that these words are.
fn choice_in(words: &[u8]) -> Option<Choice>
    ensures { Spells choice_words IsWrittenChoice words.now result }
{
    if let Some((i, j)) = pair_behind(words, b"treat ") {
        return Some(Choice::Treat { i, j });
    }
    if let Some((i, j, via)) = skip_in(words) {
        return Some(Choice::Skip { i, j, via });
    }
    None
}

// Two places behind these bytes.
fn pair_behind(words: &[u8], before: &[u8]) -> Option<(usize, usize)>
    ensures { Spells (λ p. before.now ++ (place p.0 ++ 32 ∷ place p.1)) (λ p. is_place p.0 × is_place p.1) words.now result }
{
    let Some(places) = words.strip_prefix(before) else {
        return None
    };
    let Some((first, second)) = cut_at(places, b' ') else {
        return None
    };
    let Some(i) = place_in(first) else {
        return None
    };
    let Some(j) = place_in(second) else {
        return None
    };
    Some((i, j))
}

// The three places of a pair that was skipped.
fn skip_in(words: &[u8]) -> Option<(usize, usize, usize)>
    ensures { Spells (λ p. codes "skip " ++ (place p.0 ++ 32 ∷ (place p.1 ++ 32 ∷ place p.2))) (λ p. is_place p.0 × is_place p.1 × is_place p.2) words.now result }
{
    let Some(places) = words.strip_prefix(b"skip ") else {
        return None
    };
    let Some((i, j, rest)) = places_in(places) else {
        return None
    };
    let Some(via) = place_in(rest) else {
        return None
    };
    Some((i, j, via))
}

//! The check of a report.

ghost use Rattle.std.specs.Prelude.{◌≡◌, ◌≢◌, ◌↔◌, ◌<◌, ◌≤◌, ℕ, cond, List, [], length, get_or, slice_get, nat_eq};
ghost use Rattle.std.specs.List.{All};
ghost use Rattle.ore_cert.specs.WholeText.{IsWrittenPlan};
ghost use Rattle.ore_algebra.specs.Limits as limits;
ghost use Rattle.ore_monomial.specs.Signature.{Signature};
ghost use Rattle.ore_ring.specs.Belongs.{AllBelong};
ghost use Rattle.ore_course.specs.Choices.{without_last};
ghost use Rattle.ore_course.specs.Choices as course;
ghost use Rattle.ore_course.specs.Failing.{OfRun, OfChoice, OfStop, is_cause, is_budget};
ghost use Rattle.ore_course.specs.Report.{AtForced, AtBudget, AtChoice};
ghost use Rattle.ore_course.specs.Replaying.{passed_of, replayed, stop_decided};
ghost use Rattle.ore_pairs.specs.Runner.{treats_pair};
ghost use Rattle.ore_rows.specs.declared.choices.Choice as rows;
ghost use Rattle.ore_cert.specs.CourseReport.{course_report, reported_as, stop_as};
ghost use Rattle.ore_blocks.specs.CheckBlock.{row_matrix_of};
ghost use Rattle.ore_check.specs.Check.{capped};
ghost use Rattle.ore_check.specs.Reports as reports;
ghost use Rattle.ore_commands.specs.ReportAnswers.{answer_to, end_of, line_at};

use crate::find::find;
use ore_cert::{Cause, Report, Stop};
use ore_check::{Checked, Reason};
use ore_groebner::{Halt, StopAt};
use ore_report::ReplayChooser;
use ore_ring::OreRing;
use ore_rows::{Choice, Choices, Matrix, Runs};
use std::alloc::Global;

/// Whether a report of the matrix `r` is honest: valid, or the first line that fails with its reason. Lines count within
/// the text of the report.
///
/// Its plan is one by which is searched, and the operators of the matrix are of the signature of the ring. No operation
/// that stops is an answer: the report names one, or the line that leads to it fails.
pub fn check_report<R: OreRing>(ring: &R, alloc: Global, r: &Matrix, report: &Report) -> Checked
    requires plan { IsWrittenPlan report.now.plan }
    requires of { All (AllBelong (R.sig ring.now)) r.now.rows }
    ensures answer { result ≢ Checked.Memory → result ≡ reports.check_report (R.sig ring.now) (row_matrix_of r.now) report.now }
    ensures honest { result ≢ Checked.Memory → (result ≡ Checked.Valid) ↔ reports.IsHonestReport (R.sig ring.now) (row_matrix_of r.now) report.now }
{
    let Ok(mut chooser) = ReplayChooser::new(alloc, report) else {
        return Checked::Memory;
    };
    match find(ring, alloc, report.plan, r, &mut chooser).err() {
        None => answer(report, chooser.given(), None),
        Some(halt) => halted_answer(report, chooser.given(), halt),
    }
}

// The answer where the search halted.
fn halted_answer(report: &Report, given: &Runs, halt: Halt) -> Checked
    ensures memory { halt ≡ Halt.Memory → result ≡ Checked.Memory }
    ensures answer { halt ≢ Halt.Memory → (s : Signature) → result ≡ answer_to report.now (replayed (reports.program_runner s) (course_report report.now) given.now (end_of (Some halt))) }
{
    if halt == Halt::Memory {
        return Checked::Memory;
    }
    answer(report, given, Some(halt))
}

// The answer by the choices that were given, and by how the search ended: a line fails where fewer choices passed than the
// run has, where no run was begun, or where one more was begun.
fn answer(report: &Report, given: &Runs, end: Option<Halt>) -> Checked
    ensures { (s : Signature) → result ≡ answer_to report.now (replayed (reports.program_runner s) (course_report report.now) given.now (end_of end)) }
{
    for k in 0..report.runs.len() {
        if k >= given.len() {
            return run_fails(report, k);
        }
        let count = passed(given, k, end);
        if count < report.runs.get(k).len() {
            return choice_fails(report, k, count);
        }
    }
    if given.len() > report.runs.len() {
        return stop_fails(report);
    }
    if stop_passes(report, end) {
        Checked::Valid
    } else {
        stop_fails(report)
    }
}

// How many choices of a run passed: all that were given, but for one that stopped.
fn passed(given: &Runs, k: usize, end: Option<Halt>) -> usize
    requires { k < length given.now }
    ensures { result ≡ length (get_or (passed_of given.now (end_of end)) k []) }
{
    let begun = given.len();
    let count = given.get(k).len();
    if k + 1 < begun {
        return count;
    }
    if is_in_choice(end) {
        count.saturating_sub(1)
    } else {
        count
    }
}

// Whether a choice stopped.
fn is_in_choice(end: Option<Halt>) -> bool
    ensures { (given : List (List rows.Choice)) → passed_of given (end_of end) ≡ cond result (without_last given) given }
{
    match end {
        None => false,
        Some(halt) => match halt {
            Halt::Overflow(StopAt::Forced) => false,
            Halt::Overflow(StopAt::Treat { .. }) => true,
            Halt::Degree(StopAt::Forced) => false,
            Halt::Degree(StopAt::Treat { .. }) => true,
            Halt::Spent => false,
            Halt::NoLawful => false,
            Halt::Memory => false,
        },
    }
}

// Whether the stop line passes, where all choices did.
fn stop_passes(report: &Report, end: Option<Halt>) -> bool
    ensures { result ≡ stop_decided (reported_as report.now.cause) (course.treatment_count_in treats_pair report.now.runs) (stop_as report.now.stop) (end_of end) }
{
    let Some(halt) = end else {
        return false;
    };
    match report.stop {
        Stop::Forced => forced_passes(report.cause, halt),
        Stop::Treat { i, j } => choice_passes(report.cause, Choice::Treat { i, j }, halt),
        Stop::Budget => budget_passes(report, halt),
    }
}

// Whether forced work stopped, for the cause.
fn forced_passes(cause: Cause, halt: Halt) -> bool
    ensures { (treated : ℕ) → result ≡ stop_decided (reported_as cause) treated AtForced (end_of (Some halt)) }
{
    match halt {
        Halt::Overflow(StopAt::Forced) => is_overflow(cause),
        Halt::Overflow(StopAt::Treat { .. }) => false,
        Halt::Degree(StopAt::Forced) => is_degree(cause),
        Halt::Degree(StopAt::Treat { .. }) => false,
        Halt::Spent => false,
        Halt::NoLawful => false,
        Halt::Memory => false,
    }
}

// Whether a choice stopped, for the cause. Which one it was, the numbers of choices tell.
fn choice_passes(cause: Cause, choice: Choice, halt: Halt) -> bool
    ensures { (treated : ℕ) → result ≡ stop_decided (reported_as cause) treated (AtChoice choice) (end_of (Some halt)) }
{
    match halt {
        Halt::Overflow(StopAt::Forced) => false,
        Halt::Overflow(StopAt::Treat { .. }) => is_overflow(cause),
        Halt::Degree(StopAt::Forced) => false,
        Halt::Degree(StopAt::Treat { .. }) => is_degree(cause),
        Halt::Spent => false,
        Halt::NoLawful => false,
        Halt::Memory => false,
    }
}

// Whether the cause is a number that left its range.
#[tactic(auto, unfolding(ore_course::specs::Failing::is_cause))]
fn is_overflow(cause: Cause) -> bool
    ensures { result ≡ is_cause (reported_as cause) limits.Overflow }
{
    match cause {
        Cause::Overflow => true,
        Cause::Degree => false,
        Cause::Budget(_) => false,
    }
}

// Whether the cause is a degree that was passed.
#[tactic(auto, unfolding(ore_course::specs::Failing::is_cause))]
fn is_degree(cause: Cause) -> bool
    ensures { result ≡ is_cause (reported_as cause) limits.Degree }
{
    match cause {
        Cause::Overflow => false,
        Cause::Degree => true,
        Cause::Budget(_) => false,
    }
}

// Whether a pair is left and no choice, and the budget is the number of all treatments.
fn budget_passes(report: &Report, halt: Halt) -> bool
    ensures { result ≡ stop_decided (reported_as report.now.cause) (course.treatment_count_in treats_pair report.now.runs) AtBudget (end_of (Some halt)) }
{
    match halt {
        Halt::Overflow(_) => false,
        Halt::Degree(_) => false,
        Halt::Spent => false,
        Halt::NoLawful => is_budget(report.cause, treated_in(&report.runs)),
        Halt::Memory => false,
    }
}

// Whether the cause is a budget of so many treatments, a number that rises to 2^64 - 1 and stays there.
fn is_budget(cause: Cause, treated: u64) -> bool
    ensures { (n : ℕ) → treated ≡ capped n → result ≡ is_budget (reported_as cause) n }
{
    match cause {
        Cause::Overflow => false,
        Cause::Degree => false,
        Cause::Budget(budget) => is_number(budget, treated),
    }
}

// Whether both are one number.
fn is_number(budget: u32, treated: u64) -> bool
    ensures { (n : ℕ) → treated ≡ capped n → result ≡ nat_eq budget n }
{
    budget as u64 == treated
}

// How many choices treat a pair.
fn treated_in(runs: &Runs) -> u64
    ensures { result ≡ capped (course.treatment_count_in treats_pair runs.now) }
{
    let mut treated = 0u64;
    for k in 0..runs.len() {
        treated = treated.saturating_add(treated_by(runs.get(k)));
    }
    treated
}

// How many choices of a run do.
fn treated_by(run: &Choices) -> u64
    ensures { result ≡ capped (course.treatment_count treats_pair run.now) }
{
    let mut treated = 0u64;
    for k in 0..run.len() {
        treated = treated.saturating_add(cost(*run.get(k)));
    }
    treated
}

// A treatment counts, and a skipped pair doesn't.
#[tactic(auto, unfolding(ore_course::specs::Choices::cost))]
fn cost(choice: Choice) -> u64
    ensures { result ≡ course.cost treats_pair choice }
{
    match choice {
        Choice::Treat { .. } => 1,
        Choice::Skip { .. } => 0,
    }
}

// The line that begins a run, or the stop line behind all runs.
fn line_at(runs: &Runs, k: usize) -> u64
    requires { k ≤ length runs.now }
    ensures { result ≡ capped (line_at runs.now k) }
{
    let mut line = 4u64;
    for n in 0..k {
        line = line.saturating_add(runs.get(n).len() as u64 + 1);
    }
    line
}

// The line that begins a run fails.
fn run_fails(report: &Report, k: usize) -> Checked
    requires { k ≤ length report.now.runs }
    ensures { result ≡ answer_to report.now (Some (OfRun k)) }
{
    Checked::Invalid {
        line: line_at(&report.runs, k),
        reason: Reason::Run,
    }
}

// The line of a choice of a run fails.
fn choice_fails(report: &Report, k: usize, n: usize) -> Checked
    requires run { k < length report.now.runs }
    requires choice { n < length (get_or report.now.runs k []) }
    ensures { (c : rows.Choice) × (slice_get (get_or report.now.runs k []) n ≡ Some c) × (result ≡ answer_to report.now (Some (OfChoice k n c))) }
{
    let run = report.runs.get(k);
    let _choices = run.len();
    let line = line_at(&report.runs, k).saturating_add(n as u64 + 1);
    let choice = *run.get(n);
    Checked::Invalid {
        line,
        reason: reason_of(choice),
    }
}

// A treated pair, or a skipped one.
fn reason_of(choice: Choice) -> Reason
    ensures { (k n : ℕ) → result ≡ reports.reason_of (OfChoice k n choice) }
{
    match choice {
        Choice::Treat { .. } => Reason::Treat,
        Choice::Skip { .. } => Reason::Skip,
    }
}

// The stop line fails.
fn stop_fails(report: &Report) -> Checked
    ensures { result ≡ answer_to report.now (Some OfStop) }
{
    Checked::Invalid {
        line: line_at(&report.runs, report.runs.len()),
        reason: Reason::Stop,
    }
}

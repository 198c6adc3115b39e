//! The reply of a command that searches by a plan.

ghost use Rattle.std.specs.Prelude.{◌≡◌, ◌≤◌, ◌↔◌, [], IsTrue, IfOk};
ghost use Rattle.std.specs.List.{All};
ghost use Rattle.ore_cert.specs.WholeText.{IsWrittenPlan};
ghost use Rattle.ore_ring.specs.Belongs.{AllBelong};
ghost use Rattle.ore_blocks.specs.CheckBlock.{row_matrix_of};
ghost use Rattle.ore_cert.specs.CertificateOf.{IsCertificateOf};
ghost use Rattle.ore_course.specs.Following.{IsReportable};
ghost use Rattle.ore_groebner.specs.Courses.{halt_in_course};
ghost use Rattle.ore_problem.specs.Stored.{system_of, IsProblem};
ghost use Rattle.ore_reply.specs.MadeReply.{reply_of, IsOfBytes};
ghost use Rattle.ore_report.specs.ChainRule.{chain_allows, chain_allows_spent};
ghost use Rattle.ore_commands.specs.Finding.{greatest_budget, search_by, search_in_brief, search_within, halt_status, text_of, shown_text, text_with_matrix, found_text, IsSearchReply, IsStoppedReply, IsReplyOfSearch, HoldsAnswer};
ghost use Rattle.ore_commands.specs.Search.{IsReportedBy, IsCorrectFound, IsStorableFound};

use crate::find::find;
use crate::found::Found;
use ore_cert::{
    Cause, Certificate, Plan, Report, law_certificate_is_storable, print_brief, print_certificate,
};
use ore_commutative::CommutativeRing;
use ore_groebner::Halt;
use ore_mixed::MixedRing;
use ore_monomial::NoMemory;
use ore_problem::{Problem, print_problem, read_problem};
use ore_reply::{Reply, Status, fault_reply};
use ore_report::LiveChooser;
use ore_ring::OreRing;
use ore_rows::Matrix;
use ore_weyl::WeylRing;
use std::alloc::Global;

/// How many pairs are treated at most, where the words name no number.
const BUDGET: u32 = 10_000;

/// What is searched for, how long, and how the answer is written.
#[derive(Clone, Copy, Debug, PartialEq, Eq, Drop)]
pub struct Search {
    /// The plan that is followed.
    pub plan: Plan,
    /// How many pairs are treated at most, in all runs together. No budget is above 1,000,000.
    pub budget: u32,
    /// Whether of a verdict only what it claims is written.
    pub brief: bool,
}

impl Search {
    /// The search by a plan, with the budget of 10,000 pairs.
    pub fn by(plan: Plan) -> Search
        ensures { result ≡ search_by plan }
    {
        Search {
            plan,
            budget: BUDGET,
            brief: false,
        }
    }

    /// The search for a verdict, of which the claim is written, with the budget of 10,000 pairs.
    pub fn in_brief() -> Search
        ensures { result ≡ search_in_brief }
    {
        Search {
            plan: Plan::Analyse,
            budget: BUDGET,
            brief: true,
        }
    }

    /// The search for a verdict, with this budget.
    pub fn within(budget: u32) -> Search
        ensures { result ≡ search_within budget }
    {
        Search {
            plan: Plan::Analyse,
            budget,
            brief: false,
        }
    }
}

/// The reply to the bytes of a problem that is searched by a plan: the text of what is found, or the report of a search
/// that stopped.
///
/// # Errors
/// Want of memory.
pub fn search_reply(alloc: Global, search: Search, bytes: &[u8]) -> Result<Reply, NoMemory>
    requires plan { IsWrittenPlan search.plan }
    requires budget { search.budget ≤ greatest_budget }
    ensures reply { IfOk result (λ r. IsReplyOfSearch search bytes.now (reply_of r)) }
    ensures truth { IfOk result (λ r. r.status ≡ Status.Done → HoldsAnswer search r.text.items bytes.now) }
    ensures of_bytes { IfOk result (λ r. IsOfBytes r.status) }
{
    match read_problem(alloc, bytes) {
        Ok(problem) => problem_reply(alloc, search, problem),
        Err(fault) => fault_reply(alloc, &fault),
    }
}

// The reply to the problem, in the ring with the simplest body that the signature has.
fn problem_reply(alloc: Global, search: Search, problem: Problem) -> Result<Reply, NoMemory>
    requires plan { IsWrittenPlan search.plan }
    requires budget { search.budget ≤ greatest_budget }
    requires problem { IsProblem problem }
    ensures { IfOk result (λ r. IsSearchReply (system_of problem) search (reply_of r)) }
{
    if let Some(ring) = CommutativeRing::new(problem.signature.copy()) {
        return reply_in(&ring, alloc, search, problem);
    }
    if let Some(ring) = WeylRing::new(problem.signature.copy()) {
        return reply_in(&ring, alloc, search, problem);
    }
    let ring = MixedRing::new(problem.signature.copy());
    reply_in(&ring, alloc, search, problem)
}

// The reply, by the operations of a ring of the problem's signature.
fn reply_in<R: OreRing>(
    ring: &R,
    alloc: Global,
    search: Search,
    problem: Problem,
) -> Result<Reply, NoMemory>
    requires plan { IsWrittenPlan search.plan }
    requires budget { search.budget ≤ greatest_budget }
    requires same { R.sig ring.now ≡ problem.signature }
    requires problem { IsProblem problem }
    ensures { IfOk result (λ r. IsSearchReply (system_of problem) search (reply_of r)) }
{
    let mut chooser = LiveChooser::new(alloc, search.budget);
    match find(ring, alloc, search.plan, &problem.matrix, &mut chooser) {
        Ok(found) => {
            law_found_is_storable(&found);
            found_reply(alloc, search, problem, found)
        }
        Err(halt) => halted_reply(alloc, search, &problem, chooser, &halt),
    }
}

// What is stored of what is found is in the program's ranges.
fn law_found_is_storable(found: &Found)
    ensures { IsStorableFound found.now }
{
    match found {
        Found::Certified(certificate) => law_certificate_is_storable(certificate),
        Found::Transposed(_) => (),
    }
}

// The reply with the text of what is found.
fn found_reply(
    alloc: Global,
    search: Search,
    problem: Problem,
    found: Found,
) -> Result<Reply, NoMemory>
    requires problem { IsProblem problem }
    requires right { IsCorrectFound problem.signature (row_matrix_of problem.matrix) search.plan found }
    ensures { IfOk result (λ r. reply_of r ≡ record { status = Status.Done; text = found_text (system_of problem) search.brief found }) }
{
    let text = found_text(alloc, search, problem, found)?;
    Ok(Reply {
        status: Status::Done,
        text,
    })
}

// The text of what is found.
fn found_text(
    alloc: Global,
    search: Search,
    problem: Problem,
    found: Found,
) -> Result<Vec<u8>, NoMemory>
    requires problem { IsProblem problem }
    requires right { IsCorrectFound problem.signature (row_matrix_of problem.matrix) search.plan found }
    ensures { IfOk result (λ text. text.items ≡ found_text (system_of problem) search.brief found) }
{
    match found {
        Found::Certified(certificate) => certified_text(alloc, problem, certificate, search.brief),
        Found::Transposed(matrix) => text_with(alloc, problem, matrix),
    }
}

// The text of a certificate that is found.
fn certified_text(
    alloc: Global,
    problem: Problem,
    certificate: Certificate,
    brief: bool,
) -> Result<Vec<u8>, NoMemory>
    requires problem { IsProblem problem }
    requires of { IsCertificateOf problem.signature certificate }
    ensures { IfOk result (λ text. text.items ≡ shown_text (system_of problem) brief certificate) }
{
    shown_text(alloc, &problem, &certificate, brief)
}

// The text of the problem with another matrix.
fn text_with(alloc: Global, problem: Problem, matrix: Matrix) -> Result<Vec<u8>, NoMemory>
    requires problem { IsProblem problem }
    requires of { All (AllBelong problem.signature) matrix.rows }
    ensures { IfOk result (λ text. text.items ≡ text_with_matrix (system_of problem) (row_matrix_of matrix)) }
{
    let turned = Problem {
        names: problem.names,
        signature: problem.signature,
        matrix,
    };
    print_problem(alloc, &turned)
}

// The reply with the report of a search that halted. A live chooser keeps no choices, so that none of them is refused.
fn halted_reply(
    alloc: Global,
    search: Search,
    problem: &Problem,
    chooser: LiveChooser,
    halt: &Halt,
) -> Result<Reply, NoMemory>
    requires problem { IsProblem problem.now }
    requires reported { IsReportedBy problem.now.signature (row_matrix_of problem.now.matrix) chain_allows chain_allows_spent search.plan chooser.given search.budget halt.now }
    requires budget { chooser.budget ≡ search.budget }
    ensures { IfOk result (λ r. IsStoppedReply (system_of problem.now) search (reply_of r)) }
{
    if !is_reportable(halt) {
        return Err(NoMemory);
    }
    let report = chooser.into_report(search.plan, halt);
    report_reply(alloc, problem, report)
}

// The reply with the text of a report.
fn report_reply(alloc: Global, problem: &Problem, report: Report) -> Result<Reply, NoMemory>
    requires { IsProblem problem.now }
    ensures { IfOk result (λ r. reply_of r ≡ record { status = halt_status report.cause; text = text_of (system_of problem.now) (Certificate.Halted report) }) }
{
    let status = status_of(&report);
    let text = report_text(alloc, problem, report)?;
    Ok(Reply { status, text })
}

// The text of a report.
fn report_text(alloc: Global, problem: &Problem, report: Report) -> Result<Vec<u8>, NoMemory>
    requires { IsProblem problem.now }
    ensures { IfOk result (λ text. text.items ≡ text_of (system_of problem.now) (Certificate.Halted report)) }
{
    certificate_text(alloc, problem, &Certificate::Halted { report })
}

// Whether a halt has a report: an operation stopped, or the budget is spent.
fn is_reportable(halt: &Halt) -> bool
    ensures { IsTrue result ↔ IsReportable (halt_in_course halt.now) }
{
    match halt {
        Halt::Overflow(_) => true,
        Halt::Degree(_) => true,
        Halt::Spent => true,
        Halt::NoLawful => false,
        Halt::Memory => false,
    }
}

// The status for the cause of a report.
fn status_of(report: &Report) -> Status
    ensures { result ≡ halt_status report.now.cause }
{
    match report.cause {
        Cause::Overflow => Status::Overflow,
        Cause::Degree => Status::Degree,
        Cause::Budget(_) => Status::Budget,
    }
}

// The text of a certificate of the problem, or of a verdict what it claims.
fn shown_text(
    alloc: Global,
    problem: &Problem,
    certificate: &Certificate,
    brief: bool,
) -> Result<Vec<u8>, NoMemory>
    requires problem { IsProblem problem.now }
    requires of { IsCertificateOf problem.now.signature certificate.now }
    ensures { IfOk result (λ text. text.items ≡ shown_text (system_of problem.now) brief certificate.now) }
{
    if brief {
        print_brief(alloc, &problem.signature, &problem.names, certificate)
    } else {
        certificate_text(alloc, problem, certificate)
    }
}

// The text of a certificate of the problem.
fn certificate_text(
    alloc: Global,
    problem: &Problem,
    certificate: &Certificate,
) -> Result<Vec<u8>, NoMemory>
    requires problem { IsProblem problem.now }
    requires of { IsCertificateOf problem.now.signature certificate.now }
    ensures { IfOk result (λ text. text.items ≡ text_of (system_of problem.now) certificate.now) }
{
    print_certificate(alloc, &problem.signature, &problem.names, certificate)
}

//! The reply to a certificate of a problem.

ghost use Rattle.std.specs.Prelude.{◌≡◌, IfOk, MatchOption};
ghost use Rattle.ore_cert.specs.CertificateOf.{IsCertificateOf};
ghost use Rattle.ore_cert.specs.KindWords.{kind_word};
ghost use Rattle.ore_cert.specs.declared.certificate.Certificate.TheVariants.{Halted};
ghost use Rattle.ore_blocks.specs.CheckBlock.{row_matrix_of};
ghost use Rattle.ore_check.specs.Check.{IsNoReport};
ghost use Rattle.ore_check.specs.Meaning.{Means};
ghost use Rattle.ore_problem.specs.Stored.{system_of, IsProblem};
ghost use Rattle.ore_reply.specs.Replies as replies;
ghost use Rattle.ore_reply.specs.MadeReply.{reply_of};
ghost use Rattle.ore_commands.specs.ReplyOfCheck as verdict;

use crate::condition::answer_reply;
use crate::report_check::check_report;
use ore_cert::{Certificate, Report};
use ore_check::{Checked, check};
use ore_commutative::CommutativeRing;
use ore_mixed::MixedRing;
use ore_monomial::NoMemory;
use ore_problem::Problem;
use ore_reply::{Reply, Status};
use ore_ring::OreRing;
use ore_weyl::WeylRing;
use std::alloc::Global;

/// The reply to a certificate of a problem that has so many lines.
///
/// The problem is as it is read, and the certificate of its signature; the plan of a report may be written.
///
/// # Errors
/// Want of memory.
pub fn certificate_reply(
    alloc: Global,
    problem: &Problem,
    lines: usize,
    cert: &Certificate,
) -> Result<Reply, NoMemory>
    requires problem { IsProblem problem.now }
    requires of { IsCertificateOf problem.now.signature cert.now }
    requires plan { verdict.HasWrittenPlan cert.now }
    ensures reply { IfOk result (λ r. verdict.IsCheckedReply (system_of problem.now) lines cert.now (reply_of r)) }
    ensures valid { IfOk result (λ r. r.status ≡ Status.Done → Means problem.now.signature (row_matrix_of problem.now.matrix) cert.now × (r.text.items ≡ (replies.valid (kind_word cert.now)).text)) }
{
    let answer = checked(alloc, problem, cert);
    answer_reply(alloc, lines, cert.word(), answer)
}

// The answer of the check, in the ring with the simplest body that the signature has. Where it is that the certificate is
// valid, what it says is true.
fn checked(alloc: Global, problem: &Problem, cert: &Certificate) -> Checked
    requires problem { IsProblem problem.now }
    requires of { IsCertificateOf problem.now.signature cert.now }
    requires plan { verdict.HasWrittenPlan cert.now }
    ensures answers { verdict.IsCheckAnswer problem.now.signature (row_matrix_of problem.now.matrix) cert.now result }
    ensures means { result ≡ Checked.Valid → Means problem.now.signature (row_matrix_of problem.now.matrix) cert.now }
{
    let signature = &problem.signature;
    if let Some(ring) = CommutativeRing::new(signature.copy()) {
        return checked_in(&ring, alloc, problem, cert);
    }
    if let Some(ring) = WeylRing::new(signature.copy()) {
        return checked_in(&ring, alloc, problem, cert);
    }
    checked_in(&MixedRing::new(signature.copy()), alloc, problem, cert)
}

// The answer of the check, by the operations of a ring of the problem's signature.
fn checked_in<R: OreRing>(ring: &R, alloc: Global, problem: &Problem, cert: &Certificate) -> Checked
    requires same { R.sig ring.now ≡ problem.now.signature }
    requires problem { IsProblem problem.now }
    requires of { IsCertificateOf problem.now.signature cert.now }
    requires plan { verdict.HasWrittenPlan cert.now }
    ensures answers { verdict.IsCheckAnswer problem.now.signature (row_matrix_of problem.now.matrix) cert.now result }
    ensures means { result ≡ Checked.Valid → Means problem.now.signature (row_matrix_of problem.now.matrix) cert.now }
{
    match report_of(cert) {
        Some(report) => check_report(ring, alloc, &problem.matrix, report),
        None => check(ring, alloc, &problem.matrix, cert),
    }
}

// The report, where the certificate is one.
fn report_of(cert: &Certificate) -> Option<&Report>
    ensures { MatchOption result (IsNoReport cert.now) (λ report. cert.now ≡ Halted report.now) }
{
    match cert {
        Certificate::Controllable { .. }
        | Certificate::AutonomousElement { .. }
        | Certificate::LeftInverse { .. }
        | Certificate::RightInverse { .. }
        | Certificate::NoLeftInverse { .. }
        | Certificate::NoRightInverse { .. }
        | Certificate::Kernel { .. }
        | Certificate::Resolution { .. }
        | Certificate::ExtZero { .. }
        | Certificate::ExtNonzero { .. } => None,
        Certificate::Halted { report } => Some(report),
    }
}

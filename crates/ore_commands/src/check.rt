//! The reply to the bytes of an input.

ghost use Rattle.std.specs.Prelude.{◌≡◌, IfOk};
ghost use Rattle.ore_problem.specs.Stored.{system_of, IsProblem};
ghost use Rattle.ore_reply.specs.MadeReply.{reply_of};
ghost use Rattle.ore_commands.specs.ReplyOfCheck.{IsCertificateReply, IsReplyOfCheck, SaysValid, HoldsCertificate};

use crate::verify::certificate_reply;
use ore_cert::{CertFault, read_certificate};
use ore_monomial::NoMemory;
use ore_problem::{Problem, read_prefix};
use ore_reply::reply::malformed_at;
use ore_reply::{Reply, Status, fault_reply};
use std::alloc::Global;

/// The reply that the bytes call for: those of a problem, and behind it those of a certificate.
///
/// # Errors
/// Want of memory.
pub fn check_reply(alloc: Global, bytes: &[u8]) -> Result<Reply, NoMemory>
    ensures verdict { IfOk result (λ r. IsReplyOfCheck bytes.now (reply_of r)) }
    ensures valid { IfOk result (λ r. r.status ≡ Status.Done → HoldsCertificate r.text.items bytes.now) }
{
    match read_prefix(alloc, bytes) {
        Ok((problem, used, lines)) => { text_reply(alloc, &problem, lines, &bytes[used..]) }
        Err(fault) => fault_reply(alloc, &fault),
    }
}

// The reply to the text behind a problem that has so many lines.
fn text_reply(
    alloc: Global,
    problem: &Problem,
    lines: usize,
    text: &[u8],
) -> Result<Reply, NoMemory>
    requires { IsProblem problem.now }
    ensures reply { IfOk result (λ r. IsCertificateReply (system_of problem.now) lines text.now (reply_of r)) }
    ensures valid { IfOk result (λ r. r.status ≡ Status.Done → SaysValid (system_of problem.now) text.now r.text.items) }
{
    match read_certificate(alloc, &problem.signature, &problem.names, text) {
        Ok(certificate) => certificate_reply(alloc, problem, lines, &certificate),
        Err(CertFault::Malformed { line }) => {
            malformed_at(alloc, lines as u128 + line as u128, b"certificate")
        }
        Err(CertFault::Memory) => Err(NoMemory),
    }
}

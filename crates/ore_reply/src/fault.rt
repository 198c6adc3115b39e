//! The reply to a problem with a fault.

ghost use Rattle.std.specs.Prelude.{◌≡◌, IfOk, IsErr};
ghost use Rattle.ore_problem.specs.declared.fault.ProblemReason.TheVariants as reason_of;
ghost use Rattle.ore_reply.specs.FaultReply as answer;
ghost use Rattle.ore_reply.specs.MadeReply.{reply_of};

use crate::reply::{Reply, degree_at, malformed_at, overflow_at};
use ore_expr::TextFault;
use ore_monomial::{NoMemory, RingStop};
use ore_problem::{ProblemFault, ProblemReason};
use std::alloc::Global;

/// The reply to a fault of a problem.
///
/// # Errors
/// The fault is want of memory, or there is no memory for the reply.
pub fn fault_reply(alloc: Global, fault: &ProblemFault) -> Result<Reply, NoMemory>
    ensures reply { IfOk result (λ r. reply_of r ≡ answer.fault_reply fault.now.line fault.now.reason) }
    ensures memory { fault.now.reason ≡ reason_of.Memory → IsErr result }
{
    let line = fault.line as u128;
    match fault.reason {
        ProblemReason::Text(TextFault::Stop(RingStop::Overflow)) => overflow_at(alloc, line),
        ProblemReason::Text(TextFault::Stop(RingStop::Degree)) => degree_at(alloc, line),
        ProblemReason::Text(TextFault::Stop(RingStop::Memory)) | ProblemReason::Memory => {
            Err(NoMemory)
        }
        reason => malformed_at(alloc, line, reason.word()),
    }
}

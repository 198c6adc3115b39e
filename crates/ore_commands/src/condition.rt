//! The reply to the answer of a check.

ghost use Rattle.std.specs.Prelude.{IfOk};
ghost use Rattle.ore_reply.specs.MadeReply.{reply_of};
ghost use Rattle.ore_commands.specs.CheckedReply.{IsAnswerReply};

use ore_check::Checked;
use ore_monomial::NoMemory;
use ore_reply::Reply;
use ore_reply::reply::{degree_at, invalid_at, overflow_at, valid};
use std::alloc::Global;

/// The reply to the answer of a check, where the problem has so many lines and the kind of its certificate
/// this word.
///
/// # Errors
/// The answer is want of memory, or there is no memory for the reply.
pub fn answer_reply(
    alloc: Global,
    lines: usize,
    word: &[u8],
    answer: Checked,
) -> Result<Reply, NoMemory>
    ensures { IfOk result (λ r. IsAnswerReply lines word.now answer (reply_of r)) }
{
    let lines = lines as u128;
    match answer {
        Checked::Valid => valid(alloc, word),
        Checked::Invalid { line, reason } => {
            invalid_at(alloc, lines + line as u128, reason.word())
        }
        Checked::Overflow { line } => overflow_at(alloc, lines + line as u128),
        Checked::Degree { line } => degree_at(alloc, lines + line as u128),
        Checked::Memory => Err(NoMemory),
    }
}

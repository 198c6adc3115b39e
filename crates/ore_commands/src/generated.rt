//! The reply of `generate`.

ghost use Rattle.std.specs.Prelude.{◌≡◌, IfOk};
ghost use Rattle.ore_reply.specs.MadeReply.{reply_of, IsOfBytes};
ghost use Rattle.ore_commands.specs.Generating.{generated_text, generated_reply};

use ore_generate::generate;
use ore_monomial::NoMemory;
use ore_problem::print_problem;
use ore_reply::{Reply, Status};
use std::alloc::Global;

/// The reply with the text of the generated problem with this number.
///
/// # Errors
/// Want of memory.
pub fn generate_reply(alloc: Global, number: u16) -> Result<Reply, NoMemory>
    ensures reply { IfOk result (λ r. reply_of r ≡ generated_reply number) }
    ensures truth { IfOk result (λ r. r.status ≡ Status.Done → r.text.items ≡ generated_text number) }
    ensures of_bytes { IfOk result (λ r. IsOfBytes r.status) }
{
    let problem = generate(alloc, number)?;
    let text = print_problem(alloc, &problem)?;
    Ok(Reply {
        status: Status::Done,
        text,
    })
}

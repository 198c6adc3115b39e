//! The top call.

ghost use Rattle.std.specs.Prelude.{◌≡◌, ◌⊎◌, ◌<◌, ℕ, List, IfOk, IsNone};
ghost use Rattle.std.specs.Io.KnownBytes.{append_known};
ghost use Rattle.ore_io.specs.Faults.{Rose};
ghost use Rattle.ore_reply.specs.Replies.{Reply as ReplyOf};
ghost use Rattle.ore_reply.specs.Answered.{IsDelivered};
ghost use Rattle.ore_reply.specs.InputEnd.{CountsFault};
ghost use Rattle.ore_reply.specs.MadeReply.{given_reply, IsOfBytes};
ghost use Rattle.ore_commands.specs.declared.command.Command as command_of;
ghost use Rattle.ore_commands.specs.Commands.{AreWordsOfCommand, IsCommandInRange, IsReader, input_limit};
ghost use Rattle.ore_commands.specs.Answer.{IsDue, IsDueTo, TellsTruth, IsUnhalted};

use crate::command::Command;
use ore_io::{Sink, Source};
use ore_reply::respond::respond;
use ore_reply::{ArgList, InputEnd, Reply, Status, read_input};
use std::alloc::Global;

/// Runs the command that the words name on what the source gives, and writes the answer. Where the words name no
/// command that reads, the source isn't read; an input with more bytes than the command's limit is read up to the first
/// byte past it.
pub fn bench<S: Source, K: Sink>(
    alloc: Global,
    words: &ArgList,
    source: &mut S,
    sink: &mut K,
) -> Status
    // What is due is answered, by its status and its whole text, or the sink failed after a front of it.
    ensures answer { (due : ReplyOf) × IsDue words.now (S.left source.old) (S.left source.new) due
        × IsDelivered due result (K.written sink.old) (K.written sink.new) }
    ensures unread { ¬ IsReader words.now → source.new ≡ source.old }

    // What a command says with status `Done` is true of what it was given, and was written.
    ensures valid { result ≡ Status.Done → (c : command_of.Command) × AreWordsOfCommand words.now c × (said : List ℕ)
        × (K.written sink.new ≡ append_known (K.written sink.old) said) × TellsTruth c said (S.left source.old) }

    // A search of a problem of which no report is honest comes to its answer, unless memory gives out or a count of faults rises.
    ensures complete { (c : command_of.Command) → AreWordsOfCommand words.now c → IsUnhalted c (S.left source.old)
        → ¬ Rose (S.faults source.old) (S.faults source.new) → ¬ Rose (K.faults sink.old) (K.faults sink.new)
        → (result ≡ Status.Done) ⊎ (result ≡ Status.Memory) }

    ensures read_fault_only { result ≡ Status.ReadFault → Rose (S.faults source.old) (S.faults source.new) }
    ensures read_fault_where { S.faults source.old < S.faults source.new → result ≡ Status.ReadFault }
    ensures write_fault_only { result ≡ Status.WriteFault → Rose (K.faults sink.old) (K.faults sink.new) }
    ensures write_fault_where { K.faults sink.old < K.faults sink.new → result ≡ Status.WriteFault }
{
    let Some(command) = Command::named(words) else {
        return respond(sink, Status::Words, b"unknown words\n");
    };
    match input_reply(command, alloc, source) {
        Ok(reply) => respond(sink, reply.status, &reply.text),
        Err(end) => respond(sink, end.status(), end.text()),
    }
}

// The reply that the command gives to its input, or why that wasn't read to its end.
fn input_reply<S: Source>(
    command: Command,
    alloc: Global,
    source: &mut S,
) -> Result<Reply, InputEnd>
    requires { IsCommandInRange command }
    ensures due { IsDueTo command (S.left source.old) (S.left source.new) (given_reply result) }
    ensures truth { IfOk result (λ r. r.status ≡ Status.Done → TellsTruth command r.text.items (S.left source.old)) }
    ensures of_bytes { IfOk result (λ r. IsOfBytes r.status) }
    ensures fault { CountsFault result (S.faults source.old) (S.faults source.new) }
    ensures unread { IsNone (input_limit command) → source.new ≡ source.old }
{
    let Some(limit) = command.input_limit() else {
        let reply = command.reply(alloc, b"")?;
        return Ok(reply);
    };
    let bytes = read_input(alloc, source, limit)?;
    let reply = command.reply(alloc, &bytes)?;
    Ok(reply)
}

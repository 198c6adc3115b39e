//! Reads all of the input, up to a limit.

ghost use Rattle.std.specs.Prelude.{◌≡◌, ◌+◌, ◌≤◌, IfOk, OnOk, IfSome, IsErrOf, vec_len};
ghost use Rattle.std.specs.Io.KnownBytes.{IsAtEnd};
ghost use Rattle.ore_reply.specs.InputEnd.{CountsFault, Takes};
ghost use Rattle.ore_reply.specs.MadeReply.{end_reply};
ghost use Rattle.ore_reply.specs.declared.input.InputEnd.TheVariants.{Memory};

use crate::status::Status;
use ore_io::{Failed, Source};
use ore_monomial::NoMemory;
use std::alloc::{AllocError, Global};

/// How many bytes are read at most in one call.
const PIECE: usize = 4096;

/// Why the input wasn't read to its end.
#[derive(Clone, Copy, Debug, PartialEq, Eq, Drop)]
pub enum InputEnd {
    /// A read failed.
    Fault,
    /// There are more bytes than the limit.
    TooLong,
    /// Memory ran out.
    Memory,
}

impl InputEnd {
    /// The status with which the program ends.
    pub fn status(self) -> Status
        ensures { result ≡ (end_reply self).status }
    {
        match self {
            InputEnd::Fault => Status::ReadFault,
            InputEnd::TooLong => Status::TooLong,
            InputEnd::Memory => Status::Memory,
        }
    }

    /// The bytes that it writes.
    pub fn text(self) -> &'static [u8]
        ensures { result.now ≡ (end_reply self).text }
    {
        match self {
            InputEnd::TooLong => b"too long\n",
            InputEnd::Fault | InputEnd::Memory => b"",
        }
    }
}

impl From<AllocError> for InputEnd {
    ghost from_gives = { λ _ e. e ≡ Memory };

    fn from(_: AllocError) -> InputEnd {
        InputEnd::Memory
    }
}

impl From<NoMemory> for InputEnd {
    ghost from_gives = { λ _ e. e ≡ Memory };

    fn from(_: NoMemory) -> InputEnd {
        InputEnd::Memory
    }
}

/// Reads to the end of the input, of at most `limit` bytes.
///
/// # Errors
/// The first read that fails; that a byte past the limit was read; and want of memory. What was read before is gone
/// from the source.
pub fn read_input<S: Source>(
    alloc: Global,
    source: &mut S,
    limit: usize,
) -> Result<Vec<u8>, InputEnd>
    ensures within { IfOk result (λ bytes. vec_len bytes ≤ limit) }
    ensures whole { IfOk result (λ bytes. IfSome (S.left source.old) (λ left. bytes.items ≡ left)) }
    ensures end { OnOk result (IsAtEnd (S.left source.new)) }
    ensures too_long { IsErrOf result InputEnd.TooLong →
        Takes (S.left source.old) (S.left source.new) (limit + 1) }
    // The count of faults rose where the answer is `Fault`, and is the same elsewhere.
    ensures fault { CountsFault result (S.faults source.old) (S.faults source.new) }
{
    let mut bytes = Vec::new(alloc);
    let mut piece = [0u8; PIECE];
    loop {
        let room = limit - bytes.len();
        let asked = room.min(PIECE - 1) + 1;
        let count = match source.read(&mut piece[..asked]) {
            Ok(count) => count,
            Err(Failed) => return Err(InputEnd::Fault),
        };
        if count == 0 {
            return Ok(bytes);
        }
        if count > room {
            return Err(InputEnd::TooLong);
        }
        bytes.extend_from_slice(&piece[..count])?;
    }
}

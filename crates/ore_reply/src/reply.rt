//! Replies: a status, and what is written with it.

ghost use Rattle.std.specs.Prelude.{◌≡◌, IfOk};
ghost use Rattle.ore_reply.specs.Replies as answer;
ghost use Rattle.ore_reply.specs.MadeReply.{reply_of};

use crate::status::Status;
use ore_monomial::NoMemory;
use ore_text::append_number;
use std::alloc::Global;

/// A status and its text.
#[derive(Drop)]
pub struct Reply {
    /// The status with which the program ends.
    pub status: Status,
    /// The bytes that it writes.
    pub text: Vec<u8>,
}

/// The certificate, of a kind with this word, is valid.
///
/// # Errors
/// Want of memory.
pub fn valid(alloc: Global, word: &[u8]) -> Result<Reply, NoMemory>
    ensures { IfOk result (λ r. reply_of r ≡ answer.valid word.now) }
{
    let mut text = Vec::from_slice(alloc, b"valid ")?;
    text.extend_from_slice(word)?;
    text.push(b'\n')?;
    Ok(Reply {
        status: Status::Done,
        text,
    })
}

/// The condition with this word fails on this line, from 1.
///
/// # Errors
/// Want of memory.
pub fn invalid_at(alloc: Global, line: u128, word: &[u8]) -> Result<Reply, NoMemory>
    ensures { IfOk result (λ r. reply_of r ≡ answer.invalid_at line word.now) }
{
    Ok(Reply {
        status: Status::Invalid,
        text: word_at_line(alloc, b"invalid", line, word)?,
    })
}

/// The input has the fault with this word on this line, from 1.
///
/// # Errors
/// Want of memory.
pub fn malformed_at(alloc: Global, line: u128, word: &[u8]) -> Result<Reply, NoMemory>
    ensures { IfOk result (λ r. reply_of r ≡ answer.malformed_at line word.now) }
{
    Ok(Reply {
        status: Status::Malformed,
        text: word_at_line(alloc, b"malformed", line, word)?,
    })
}

/// A number leaves the range of fractions on this line, from 1.
///
/// # Errors
/// Want of memory.
pub fn overflow_at(alloc: Global, line: u128) -> Result<Reply, NoMemory>
    ensures { IfOk result (λ r. reply_of r ≡ answer.overflow_at line) }
{
    let mut text = at_line(alloc, b"overflow", line)?;
    text.push(b'\n')?;
    Ok(Reply {
        status: Status::Overflow,
        text,
    })
}

/// A degree is above 32,767 on this line, from 1.
///
/// # Errors
/// Want of memory.
pub fn degree_at(alloc: Global, line: u128) -> Result<Reply, NoMemory>
    ensures { IfOk result (λ r. reply_of r ≡ answer.degree_at line) }
{
    let mut text = at_line(alloc, b"degree", line)?;
    text.push(b'\n')?;
    Ok(Reply {
        status: Status::Degree,
        text,
    })
}

// A word and the number of a line.
fn at_line(alloc: Global, word: &[u8], line: u128) -> Result<Vec<u8>, NoMemory>
    ensures { IfOk result (λ text. text.items ≡ answer.at_line word.now line) }
{
    let mut text = Vec::from_slice(alloc, word)?;
    text.push(b' ')?;
    append_number(&mut text, line)?;
    Ok(text)
}

// These, a word behind them, and a line end.
fn word_at_line(alloc: Global, word: &[u8], line: u128, more: &[u8]) -> Result<Vec<u8>, NoMemory>
    ensures { IfOk result (λ text. text.items ≡ answer.word_at_line word.now line more.now) }
{
    let mut text = at_line(alloc, word, line)?;
    text.push(b' ')?;
    text.extend_from_slice(more)?;
    text.push(b'\n')?;
    Ok(text)
}

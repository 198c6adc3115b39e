//! The lines of a text.

ghost use Rattle.std.specs.Prelude.{◌≡◌, ◌+◌, ◌≤◌, ◌∷◌, [], suc, length, position, nat_eq, IfOk, IfSome, MatchOption};
ghost use Rattle.ore_problem.specs.Lines.{content as content_of, is_comment as is_comment_line};
ghost use Rattle.ore_problem.specs.Reader.{line_length as length_of, cursor_of};
ghost use Rattle.ore_problem.specs.Problems.{line_due};
ghost use Rattle.ore_problem.specs.Stored.{ReadsProblem};

use crate::fault::{ProblemFault, ProblemReason};
use std::marker::Model;

/// A text, and how many of its bytes and lines were passed.
#[derive(Drop)]
pub(crate) struct Lines<'a> {
    text: &'a [u8],
    used: usize,
    line: usize,
}

impl<'a> Model for Lines<'a> {
    ghost use Rattle.std.specs.Prelude.{◌≤◌, length};
    ghost use Rattle.ore_problem.specs.Reader.{Position};

    ghost Value = { Position };

    ghost view = { λ a. record { text = a.text.now; line = a.line; used = a.used } };

    ghost invariant = { λ a. (a.used ≤ length a.text.now) × (a.line ≤ a.used) };
}

impl<'a> Lines<'a> {
    /// No line is passed yet.
    pub fn new(text: &'a [u8]) -> Lines<'a>
        ensures { result ≡ record { text = text.now; line = 0; used = 0 } }
    {
        Lines {
            text,
            used: 0,
            line: 0,
        }
    }

    /// The number of lines that were passed.
    pub fn line(&self) -> usize
        ensures { result ≡ self.now.line }
    {
        self.line
    }

    /// The number of bytes that were passed.
    pub fn used(&self) -> usize
        ensures value { result ≡ self.now.used }
        ensures within { result ≤ length self.now.text }
    {
        self.used
    }

    /// The next line that is no comment, without its end.
    ///
    /// # Errors
    /// No such line is left: the text lacks its end, behind its last line.
    pub fn due(&mut self) -> Result<&'a [u8], ProblemFault>
        ensures reads { ReadsProblem (λ line. (line.now, cursor_of self.new)) result (line_due (cursor_of self.old)) }
        ensures goes_on { IfOk result (λ _. suc self.old.used ≤ self.new.used) }
        ensures within { IfOk result (λ _. self.new.used ≤ length self.new.text) }
        ensures same { self.new.text ≡ self.old.text }
    {
        while let Some(raw) = self.next() {
            if !is_comment(raw) {
                return Ok(content(raw));
            }
        }
        Err(ProblemFault {
            line: self.line + 1,
            reason: ProblemReason::NoEnd,
        })
    }

    /// The next line with its end, also a comment.
    pub fn next(&mut self) -> Option<&'a [u8]>
        ensures lines { MatchOption result ((cursor_of self.old).left ≡ []) (λ raw. (cursor_of self.old).left ≡ raw.now ∷ (cursor_of self.new).left) }
        ensures used { MatchOption result (self.new.used ≡ self.old.used) (λ raw. self.new.used ≡ self.old.used + length raw.now) }
        ensures line { MatchOption result (self.new.line ≡ self.old.line) (λ raw. self.new.line ≡ suc self.old.line) }
        ensures bytes { MatchOption result (self.old.used ≡ length self.old.text) (λ raw. suc self.old.used ≤ self.new.used) }
        ensures within { self.new.used ≤ length self.new.text }
        ensures same { self.new.text ≡ self.old.text }
    {
        let rest = &self.text[self.used..];
        if rest.is_empty() {
            return None;
        }
        let len = line_length(rest);
        self.used += len;
        self.line += 1;
        Some(&rest[..len])
    }
}

// The number of bytes of the first line, with its end.
fn line_length(text: &[u8]) -> usize
    ensures value { result ≡ length_of text.now }
    ensures within { result ≤ length text.now }
    ensures some { suc 0 ≤ length text.now → suc 0 ≤ result }
{
    match line_end(text) {
        Some(k) => k + 1,
        None => text.len(),
    }
}

fn line_end(text: &[u8]) -> Option<usize>
    ensures value { result ≡ position (λ b. nat_eq b 10) text.now }
    ensures within { IfSome result (λ k. suc k ≤ length text.now) }
{
    text.iter().position(|b| *b == b'\n')
}

fn is_comment(line: &[u8]) -> bool
    ensures { result ≡ is_comment_line line.now }
{
    match line {
        [b'#', ..] => true,
        _ => false,
    }
}

// A line without its end.
fn content(raw: &[u8]) -> &[u8]
    ensures { result.now ≡ content_of raw.now }
{
    if let Some(front) = raw.strip_suffix(b"\r\n") {
        return front;
    }
    match raw.strip_suffix(b"\n") {
        Some(front) => front,
        None => raw,
    }
}

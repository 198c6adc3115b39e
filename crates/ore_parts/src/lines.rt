//! The lines of a text, one after the other.

ghost use Rattle.std.specs.Prelude.{◌≡◌, ◌≢◌, ℕ, ◌+◌, ◌<◌, ◌^◌, ◌==◌, List, [], ◌∷◌, ◌++◌, length, MatchOption, IfErr, OnOk};
ghost use Rattle.std.specs.List.{position};
ghost use Rattle.ore_parts.specs.declared.fault.CertFault.TheVariants.{Malformed};
ghost use Rattle.ore_parts.specs.Lines.{LacksByte, IsLine};

use crate::fault::CertFault;
use std::marker::Model;

/// The text that is left, and the number of its first line.
#[derive(Drop)]
pub struct Lines<'a> {
    left: &'a [u8],
    at: u64,
}

impl<'a> Model for Lines<'a> {
    ghost use Rattle.std.specs.Prelude.{◌+◌, ◌<◌, ◌^◌, length};
    ghost use Rattle.ore_parts.specs.Lines.{Unread, unread_code};

    ghost Value = { Unread };

    ghost coded = { unread_code };

    ghost view = { λ a. record { at = a.at; left = a.left.now } };

    ghost invariant = { λ a. a.at + length a.left.now < 2 ^ 64 };
}

impl<'a> Lines<'a> {
    /// The lines of a text, counted from 1.
    pub fn new(text: &'a [u8]) -> Lines<'a>
        ensures { result ≡ record { at = 1; left = text.now } }
    {
        Lines { left: text, at: 1 }
    }

    /// The number of the line that is due.
    pub fn at(&self) -> u64
        ensures { result ≡ self.now.at }
    {
        self.at
    }

    /// The number of bytes that are left, which is below 2^63.
    pub fn len(&self) -> usize
        ensures value { result ≡ length self.now.left }
        ensures small { result < 2 ^ 63 }
    {
        self.left.len()
    }

    /// The line that is due, without its end, and goes past it. None exactly where no whole line is left,
    /// and then nothing changes.
    pub fn take(&mut self) -> Option<&'a [u8]>
        ensures { MatchOption result (LacksByte 10 self.old.left × (self.new ≡ self.old))
            (λ line. LacksByte 10 line.now × (self.old.left ≡ line.now ++ 10 ∷ self.new.left) × (self.new.at ≡ self.old.at + 1)) }
    {
        let Some((line, rest)) = cut_at(self.left, b'\n') else {
            return None
        };
        self.left = rest;
        self.at += 1;
        Some(line)
    }

    /// The line that is due, with its end, and goes past it. None exactly where no whole line is left,
    /// and then nothing changes.
    pub fn take_with_end(&mut self) -> Option<&'a [u8]>
        ensures { MatchOption result (LacksByte 10 self.old.left × (self.new ≡ self.old))
            (λ line. IsLine line.now × (self.old.left ≡ line.now ++ self.new.left) × (self.new.at ≡ self.old.at + 1)) }
    {
        let text = self.left;
        let Some(line) = self.take() else { return None };
        Some(&text[..line.len() + 1])
    }

    // The same text, from the same line on.
    pub(crate) fn again(&self) -> Lines<'a>
        ensures { result ≡ self.now }
    {
        Lines {
            left: self.left,
            at: self.at,
        }
    }

    /// Goes past the line that is due where it is this one, which ends with its line end.
    ///
    /// # Errors
    /// The line that is due, where it is another or there is none.
    pub fn expect(&mut self, wanted: &[u8]) -> Result<(), CertFault>
        requires { IsLine wanted.now }
        ensures ok { OnOk result ((self.old.left ≡ wanted.now ++ self.new.left) × (self.new.at ≡ self.old.at + 1)) }
        ensures err { IfErr result (λ e. (e ≡ Malformed self.old.at) × ((rest : List ℕ) → self.old.left ≢ wanted.now ++ rest)) }
    {
        let line = self.at;
        let Some(due) = self.take_with_end() else {
            return Err(CertFault::Malformed { line })
        };
        if due == wanted {
            Ok(())
        } else {
            Err(CertFault::Malformed { line })
        }
    }

    /// Nothing follows.
    ///
    /// # Errors
    /// The line that is due, where something is left.
    pub fn expect_end(&self) -> Result<(), CertFault>
        ensures ok { OnOk result (self.now.left ≡ []) }
        ensures err { IfErr result (λ e. (e ≡ Malformed self.now.at) × (self.now.left ≢ [])) }
    {
        if self.left.is_empty() {
            Ok(())
        } else {
            Err(CertFault::Malformed { line: self.at })
        }
    }
}

/// What stands before the first byte of this value, and what follows it. None where there is none.
pub fn cut_at(text: &[u8], byte: u8) -> Option<(&[u8], &[u8])>
    ensures { MatchOption result (LacksByte byte text.now) (λ parts. LacksByte byte parts.0.now × (text.now ≡ parts.0.now ++ byte ∷ parts.1.now)) }
{
    let Some(place) = place_of(text, byte) else {
        return None
    };
    let (front, back) = text.split_at(place);
    Some((front, &back[1..]))
}

fn place_of(text: &[u8], byte: u8) -> Option<usize>
    ensures { result ≡ position (λ b. b == byte) text.now }
{
    text.iter().position(|b| *b == byte)
}

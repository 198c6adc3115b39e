//! The line with the kind of a certificate.

ghost use Rattle.std.specs.Prelude.{◌≡◌, ◌≤◌, ◌++◌, ◌∷◌, decimal, MatchOption};
ghost use Rattle.ore_parts.specs.Formats.{ReadsOne, Spells};
ghost use Rattle.ore_cert.specs.KindWords.{word_of, kind_words};
ghost use Rattle.ore_cert.specs.WholeText.{IsWrittenCause, IsLength};
ghost use Rattle.ore_cert.specs.KindFormat.{halted_words, IsWrittenKind, kind_format, IsNoUnnumberedKind, IsNoLinks};

use crate::report::Cause;
use ore_parts::count::count_in;
use ore_parts::line::read_line;
use ore_parts::{CertFault, Lines};

/// The kind of a certificate, and what its line says besides. What the kinds claim stands at `Certificate`.
#[derive(Clone, Copy, Drop)]
pub enum Kind {
    Controllable,
    AutonomousElement,
    LeftInverse,
    RightInverse,
    NoLeftInverse,
    NoRightInverse,
    KernelLeft,
    KernelRight,
    /// So many links follow.
    Resolution { count: usize },
    /// So many links follow, and then an exact block.
    ExtZero { count: usize },
    /// So many links follow, and then a row and an outside block.
    ExtNonzero { count: usize },
    /// The report follows of a computation that stopped for this cause.
    Halted { cause: Cause },
}

impl Kind {
    /// Its word, which begins the second line of a text, and with which a reply names a certificate.
    pub fn word(self) -> &'static [u8]
        ensures { result.now ≡ word_of self }
    {
        match self {
            Kind::Controllable => b"controllable",
            Kind::AutonomousElement => b"autonomous-element",
            Kind::LeftInverse => b"left-inverse",
            Kind::RightInverse => b"right-inverse",
            Kind::NoLeftInverse => b"no-left-inverse",
            Kind::NoRightInverse => b"no-right-inverse",
            Kind::KernelLeft | Kind::KernelRight => b"kernel",
            Kind::Resolution { count: _ } => b"resolution",
            Kind::ExtZero { count: _ } => b"ext-zero",
            Kind::ExtNonzero { count: _ } => b"ext-nonzero",
            Kind::Halted { cause: _ } => b"halted",
        }
    }
}

/// The kind on the line that is due.
///
/// # Errors
/// The line that is due, where it isn't of this form or there is none.
pub fn read_kind(lines: &mut Lines<'_>) -> Result<Kind, CertFault>
    ensures { ReadsOne kind_format lines.old result lines.new }
{
    read_line(lines, kind_in)
}

// The kind that these words are.
fn kind_in(words: &[u8]) -> Option<Kind>
    ensures { Spells kind_words IsWrittenKind words.now result }
{
    match unnumbered_kind_in(words) {
        Some(kind) => Some(kind),
        None => match links_kind_in(words) {
            Some(kind) => Some(kind),
            None => match cause_in(words) {
                Some(cause) => Some(Kind::Halted { cause }),
                None => None,
            },
        },
    }
}

// A kind whose line has no number.
fn unnumbered_kind_in(words: &[u8]) -> Option<Kind>
    ensures { MatchOption result (IsNoUnnumberedKind words.now) (λ k. IsWrittenKind k × (words.now ≡ kind_words k)) }
{
    if words == b"controllable".as_slice() {
        return Some(Kind::Controllable);
    }
    if words == b"autonomous-element".as_slice() {
        return Some(Kind::AutonomousElement);
    }
    if words == b"left-inverse".as_slice() {
        return Some(Kind::LeftInverse);
    }
    if words == b"right-inverse".as_slice() {
        return Some(Kind::RightInverse);
    }
    if words == b"no-left-inverse".as_slice() {
        return Some(Kind::NoLeftInverse);
    }
    if words == b"no-right-inverse".as_slice() {
        return Some(Kind::NoRightInverse);
    }
    if words == b"kernel left".as_slice() {
        return Some(Kind::KernelLeft);
    }
    if words == b"kernel right".as_slice() {
        return Some(Kind::KernelRight);
    }
    None
}

// A kind whose line has the number of links.
fn links_kind_in(words: &[u8]) -> Option<Kind>
    ensures { MatchOption result (IsNoLinks words.now) (λ k. IsWrittenKind k × (words.now ≡ kind_words k)) }
{
    if let Some(count) = length_behind(words, b"resolution") {
        return Some(Kind::Resolution { count });
    }
    if let Some(count) = length_behind(words, b"ext-zero") {
        return Some(Kind::ExtZero { count });
    }
    if let Some(count) = length_behind(words, b"ext-nonzero") {
        return Some(Kind::ExtNonzero { count });
    }
    None
}

// Why a computation stopped.
fn cause_in(words: &[u8]) -> Option<Cause>
    ensures { Spells halted_words IsWrittenCause words.now result }
{
    if words == b"halted overflow".as_slice() {
        return Some(Cause::Overflow);
    }
    if words == b"halted degree".as_slice() {
        return Some(Cause::Degree);
    }
    if let Some(treated) = budget_behind(words, b"halted budget") {
        return Some(Cause::Budget(treated));
    }
    None
}

/// The number of links, from 1 to 12, behind this word, if these words are that.
pub fn length_behind(words: &[u8], word: &[u8]) -> Option<usize>
    ensures { Spells (λ n. word.now ++ 32 ∷ decimal n) IsLength words.now result }
{
    let Some(number) = count_in(words, word) else {
        return None
    };
    match number {
        1..=12 => Some(number),
        _ => None,
    }
}

// The number of pairs, at most 1,000,000, behind this word.
fn budget_behind(words: &[u8], word: &[u8]) -> Option<u32>
    ensures { Spells (λ n. word.now ++ 32 ∷ decimal n) (λ n. n ≤ 1000000) words.now result }
{
    let Some(number) = count_in(words, word) else {
        return None
    };
    match number {
        0..=1000000 => Some(number as u32),
        _ => None,
    }
}

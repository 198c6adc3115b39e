//! The pairs of a basis, each with its steps.

ghost use Rattle.std.specs.Prelude.{◌≡◌, ◌≢◌, ℕ, ◌<◌, ◌∷◌, ◌++◌, MatchOption, codes, decimal};
ghost use Rattle.ore_parts.specs.BlockText.{place, is_place};
ghost use Rattle.ore_parts.specs.CertificateText.{number_bound};
ghost use Rattle.ore_parts.specs.Formats.{ReadsOne, Spells, items};
ghost use Rattle.ore_parts.specs.PartFormats.{entry_words, IsWrittenLine, entry_line_format, entry_format, pairs_format};

use crate::block::{PairEntry, Pairs};
use crate::count::read_count;
use crate::fault::CertFault;
use crate::line::read_line;
use crate::lines::Lines;
use crate::sizes::{number_in, place_in, places_in};
use crate::step_lines::read_steps;
use ore_text::Algebra;
use std::alloc::Global;

/// The line of a pair. Places count from 0.
#[derive(Clone, Copy, Drop)]
pub enum EntryLine {
    /// So many steps follow.
    PairLine { i: usize, j: usize, count: usize },
    /// No step follows.
    SkipLine { i: usize, j: usize, via: usize },
}

/// The pairs behind a line with their number.
///
/// # Errors
/// The faulty line of the text that is left, whatever were to follow; and want of memory. Then the lines may stand
/// anywhere.
pub fn read_pairs(
    alloc: Global,
    algebra: &Algebra<'_>,
    lines: &mut Lines<'_>,
) -> Result<Pairs, CertFault>
    ensures { ReadsOne (pairs_format algebra.now.signature.now algebra.now.names.now) lines.old result lines.new }
{
    let count = read_count(lines, b"pairs")?;
    read_entries(alloc, algebra, count, lines)
}

// So many pairs.
fn read_entries(
    alloc: Global,
    algebra: &Algebra<'_>,
    count: usize,
    lines: &mut Lines<'_>,
) -> Result<Pairs, CertFault>
    ensures { ReadsOne (items (entry_format algebra.now.signature.now algebra.now.names.now) count) lines.old result lines.new }
{
    let mut entries = Vec::new(alloc);
    for _ in 0..count {
        let entry = read_entry(alloc, algebra, lines)?;
        entries.push(entry)?;
    }
    Ok(Pairs::from_vec(entries))
}

// A pair with its steps, or skipped.
fn read_entry(
    alloc: Global,
    algebra: &Algebra<'_>,
    lines: &mut Lines<'_>,
) -> Result<PairEntry, CertFault>
    ensures { ReadsOne (entry_format algebra.now.signature.now algebra.now.names.now) lines.old result lines.new }
{
    match read_entry_line(lines)? {
        EntryLine::PairLine { i, j, count } => {
            let steps = read_steps(alloc, algebra, count, lines)?;
            Ok(PairEntry::Pair { i, j, steps })
        }
        EntryLine::SkipLine { i, j, via } => Ok(PairEntry::Skip { i, j, via }),
    }
}

// The line of a pair that is due.
fn read_entry_line(lines: &mut Lines<'_>) -> Result<EntryLine, CertFault>
    ensures { ReadsOne entry_line_format lines.old result lines.new }
{
    read_line(lines, entry_line_in)
}

// The line of a pair that these words are.
fn entry_line_in(words: &[u8]) -> Option<EntryLine>
    ensures { Spells entry_words IsWrittenLine words.now result }
{
    match words.strip_prefix(b"pair ") {
        Some(numbers) => pair_line_in(numbers),
        None => match words.strip_prefix(b"skip ") {
            Some(numbers) => skip_line_in(numbers),
            None => None,
        },
    }
}

fn pair_line_in(numbers: &[u8]) -> Option<EntryLine>
    ensures { MatchOption result ((i j count : ℕ) → is_place i → is_place j → count < number_bound → numbers.now ≢ place i ++ 32 ∷ (place j ++ 32 ∷ decimal count))
        (λ e. IsWrittenLine e × (codes "pair " ++ numbers.now ≡ entry_words e)) }
{
    let Some((i, j, rest)) = places_in(numbers) else {
        return None
    };
    let Some(count) = number_in(rest) else {
        return None
    };
    Some(EntryLine::PairLine { i, j, count })
}

fn skip_line_in(numbers: &[u8]) -> Option<EntryLine>
    ensures { MatchOption result ((i j via : ℕ) → is_place i → is_place j → is_place via → numbers.now ≢ place i ++ 32 ∷ (place j ++ 32 ∷ place via))
        (λ e. IsWrittenLine e × (codes "skip " ++ numbers.now ≡ entry_words e)) }
{
    let Some((i, j, rest)) = places_in(numbers) else {
        return None
    };
    let Some(via) = place_in(rest) else {
        return None
    };
    Some(EntryLine::SkipLine { i, j, via })
}

//! Prints blocks, and the lines of which they are made.

ghost use Rattle.std.specs.Prelude.{◌≡◌, suc, ◌++◌, ◌∷◌, [], decimal, codes, OnOk};
ghost use Rattle.std.specs.List.{All, flat_map};
ghost use Rattle.ore_monomial.specs.Signature.{MonomialOf};
ghost use Rattle.ore_ring.specs.Belongs.{AllBelong};
ghost use Rattle.ore_text.specs.Lines.{line};
ghost use Rattle.ore_parts.specs.BlockText.{place, step_text, entry_text, pairs_text, steps_text, row_part, exact_text, outside_text};
ghost use Rattle.ore_parts.specs.OfSignature.{AreStoredStepsOf, IsEntryOf, IsExactOf, IsOutsideOf};

use crate::block::{ExactBlock, OutsideBlock, PairEntry, Pairs};
use crate::matrix::{append_matrix, append_sizes};
use ore_monomial::NoMemory;
use ore_ring::Op;
use ore_rows::{Row, Step, Steps};
use ore_text::{Algebra, append_line, append_number, append_operator, append_row};
use std::alloc::Global;

// The number of a place, which counts from 0 where it is stored, and from 1 where it is written.
fn ordinal(index: usize) -> u128
    ensures { result ≡ suc index }
{
    index as u128 + 1
}

/// Appends the line of a word and a number.
///
/// # Errors
/// Want of memory. Then some of the line may have been appended.
pub fn append_count(out: &mut Vec<u8>, word: &[u8], number: usize) -> Result<(), NoMemory>
    ensures { OnOk result (out.new.items ≡ out.old.items ++ line (word.now ∷ decimal number ∷ [])) }
{
    append_line(out, word, &[number as u128])
}

/// Appends the line of a word and a place, which counts from 0 here and from 1 in the text.
///
/// # Errors
/// Want of memory. Then some of the line may have been appended.
pub fn append_one(out: &mut Vec<u8>, word: &[u8], index: usize) -> Result<(), NoMemory>
    ensures { OnOk result (out.new.items ≡ out.old.items ++ line (word.now ∷ place index ∷ [])) }
{
    append_line(out, word, &[ordinal(index)])
}

/// Appends the line of a word and two places, which count from 0 here and from 1 in the text.
///
/// # Errors
/// Want of memory. Then some of the line may have been appended.
pub fn append_two(out: &mut Vec<u8>, word: &[u8], i: usize, j: usize) -> Result<(), NoMemory>
    ensures { OnOk result (out.new.items ≡ out.old.items ++ line (word.now ∷ place i ∷ place j ∷ [])) }
{
    append_line(out, word, &[ordinal(i), ordinal(j)])
}

/// Appends the line of a pair that is skipped. Its places count from 0 here and from 1 in the text.
///
/// # Errors
/// Want of memory. Then some of the line may have been appended.
pub fn append_skip(out: &mut Vec<u8>, i: usize, j: usize, via: usize) -> Result<(), NoMemory>
    ensures { OnOk result (out.new.items ≡ out.old.items ++ line (codes "skip" ∷ place i ∷ place j ∷ place via ∷ [])) }
{
    append_line(out, b"skip", &[ordinal(i), ordinal(j), ordinal(via)])
}

// Appends the line of a pair with so many steps.
fn append_pair(out: &mut Vec<u8>, i: usize, j: usize, steps: usize) -> Result<(), NoMemory>
    ensures { OnOk result (out.new.items ≡ out.old.items ++ line (codes "pair" ∷ place i ∷ place j ∷ decimal steps ∷ [])) }
{
    append_line(out, b"pair", &[ordinal(i), ordinal(j), steps as u128])
}

// Appends the line of a step.
fn append_step(
    alloc: Global,
    out: &mut Vec<u8>,
    algebra: &Algebra<'_>,
    step: &Step,
) -> Result<(), NoMemory>
    requires { MonomialOf algebra.now.signature.now step.now.monomial }
    ensures { OnOk result (out.new.items ≡ out.old.items ++ step_text algebra.now.names.now algebra.now.signature.now.order step.now) }
{
    let term = Op::term(alloc, algebra.signature.order(), step.exps, step.coef)?;
    out.extend_from_slice(b"step ")?;
    append_number(out, ordinal(step.index))?;
    out.push(b' ')?;
    append_operator(out, algebra, &term)?;
    out.push(b'\n')?;
    Ok(())
}

// Appends the lines of steps.
fn append_steps(
    alloc: Global,
    out: &mut Vec<u8>,
    algebra: &Algebra<'_>,
    steps: &Steps,
) -> Result<(), NoMemory>
    requires { AreStoredStepsOf algebra.now.signature.now steps.now }
    ensures { OnOk result (out.new.items ≡ out.old.items ++ flat_map (step_text algebra.now.names.now algebra.now.signature.now.order) steps.now) }
{
    for k in 0..steps.len() {
        append_step(alloc, out, algebra, steps.get(k))?;
    }
    Ok(())
}

// Appends the number of steps, and their lines.
fn append_counted_steps(
    alloc: Global,
    out: &mut Vec<u8>,
    algebra: &Algebra<'_>,
    steps: &Steps,
) -> Result<(), NoMemory>
    requires { AreStoredStepsOf algebra.now.signature.now steps.now }
    ensures { OnOk result (out.new.items ≡ out.old.items ++ steps_text algebra.now.names.now algebra.now.signature.now.order steps.now) }
{
    append_count(out, b"steps", steps.len())?;
    append_steps(alloc, out, algebra, steps)
}

// Appends a pair with what was done with it.
fn append_entry(
    alloc: Global,
    out: &mut Vec<u8>,
    algebra: &Algebra<'_>,
    entry: &PairEntry,
) -> Result<(), NoMemory>
    requires { IsEntryOf algebra.now.signature.now entry.now }
    ensures { OnOk result (out.new.items ≡ out.old.items ++ entry_text algebra.now.names.now algebra.now.signature.now.order entry.now) }
{
    match entry {
        PairEntry::Pair { i, j, steps } => {
            append_pair(out, *i, *j, steps.len())?;
            append_steps(alloc, out, algebra, steps)
        }
        PairEntry::Skip { i, j, via } => append_skip(out, *i, *j, *via),
    }
}

// Appends pairs, one after the other.
fn append_entries(
    alloc: Global,
    out: &mut Vec<u8>,
    algebra: &Algebra<'_>,
    pairs: &Pairs,
) -> Result<(), NoMemory>
    requires { All (IsEntryOf algebra.now.signature.now) pairs.now }
    ensures { OnOk result (out.new.items ≡ out.old.items ++ flat_map (entry_text algebra.now.names.now algebra.now.signature.now.order) pairs.now) }
{
    for k in 0..pairs.len() {
        append_entry(alloc, out, algebra, pairs.get(k))?;
    }
    Ok(())
}

// Appends the number of pairs, and the pairs.
fn append_pairs(
    alloc: Global,
    out: &mut Vec<u8>,
    algebra: &Algebra<'_>,
    pairs: &Pairs,
) -> Result<(), NoMemory>
    requires { All (IsEntryOf algebra.now.signature.now) pairs.now }
    ensures { OnOk result (out.new.items ≡ out.old.items ++ pairs_text algebra.now.names.now algebra.now.signature.now.order pairs.now) }
{
    append_count(out, b"pairs", pairs.len())?;
    append_entries(alloc, out, algebra, pairs)
}

/// Appends a row as a matrix of one row, which has this name and a column for each entry. The entries are of the
/// signature.
///
/// # Errors
/// Want of memory. Then some of the text may have been appended.
pub fn append_row_part(
    out: &mut Vec<u8>,
    algebra: &Algebra<'_>,
    name: &[u8],
    row: &Row,
) -> Result<(), NoMemory>
    requires { AllBelong algebra.now.signature.now row.now }
    ensures { OnOk result (out.new.items ≡ out.old.items ++ row_part algebra.now.names.now algebra.now.signature.now.order name.now row.now) }
{
    append_sizes(out, name, 1, row.len())?;
    append_row(out, algebra, row.entries())
}

/// Appends the text of an exact block. Its operators are of the signature.
///
/// # Errors
/// Want of memory. Then some of the text may have been appended.
pub fn append_exact(
    alloc: Global,
    out: &mut Vec<u8>,
    algebra: &Algebra<'_>,
    block: &ExactBlock,
) -> Result<(), NoMemory>
    requires { IsExactOf algebra.now.signature.now block.now }
    ensures { OnOk result (out.new.items ≡ out.old.items ++ exact_text algebra.now.names.now algebra.now.signature.now.order block.now) }
{
    out.extend_from_slice(b"block exact\n")?;
    append_matrix(out, algebra, b"basis", &block.basis)?;
    append_matrix(out, algebra, b"from", &block.from)?;
    append_matrix(out, algebra, b"to", &block.to)?;
    append_pairs(alloc, out, algebra, &block.pairs)?;
    append_matrix(out, algebra, b"inside", &block.inside)
}

/// Appends the text of an outside block. Its operators are of the signature.
///
/// # Errors
/// Want of memory. Then some of the text may have been appended.
pub fn append_outside(
    alloc: Global,
    out: &mut Vec<u8>,
    algebra: &Algebra<'_>,
    block: &OutsideBlock,
) -> Result<(), NoMemory>
    requires { IsOutsideOf algebra.now.signature.now block.now }
    ensures { OnOk result (out.new.items ≡ out.old.items ++ outside_text algebra.now.names.now algebra.now.signature.now.order block.now) }
{
    out.extend_from_slice(b"block outside\n")?;
    append_matrix(out, algebra, b"basis", &block.basis)?;
    append_matrix(out, algebra, b"from", &block.from)?;
    append_pairs(alloc, out, algebra, &block.pairs)?;
    append_counted_steps(alloc, out, algebra, &block.quotients)?;
    append_row_part(out, algebra, b"rest", &block.rest)
}

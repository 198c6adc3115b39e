//! Lines of rows of operators.

ghost use Rattle.std.specs.Prelude.{◌≡◌, ◌++◌, ℕ, List, length, map, IfOk, OnOk, IfSome, MatchOption};
ghost use Rattle.std.specs.List.{AllByRecursion, position, position_or_len};
ghost use Rattle.ore_rational.specs.Field.{rationals};
ghost use Rattle.ore_monomial.specs.LetterRule.{Operator};
ghost use Rattle.ore_ring.specs.Belongs.{Belongs, AllBelong};
ghost use Rattle.ore_text.specs.RowText.{row_text};
ghost use Rattle.ore_text.specs.Printable.{IsPrintable};
ghost use Rattle.ore_text.specs.CanonicalText.{operator_text};
ghost use Rattle.ore_text.specs.RowParts.{is_stop, LacksStops, BeginsWithStop};

use crate::algebra::Algebra;
use crate::canonical::operator_in;
use crate::print::append_operator;
use ore_monomial::NoMemory;
use ore_ring::Op;
use std::alloc::Global;

/// Appends the line of a row: its entries by their canonical texts, and the line end.
///
/// The entries are of the signature.
///
/// # Errors
/// Want of memory. Then nothing is said of `out`.
pub fn append_row(out: &mut Vec<u8>, algebra: &Algebra<'_>, row: &[Op]) -> Result<(), NoMemory>
    requires { AllBelong algebra.now.signature.now row.now }
    ensures { OnOk result (out.new.items ≡ out.old.items ++ row_text algebra.now.names.now algebra.now.signature.now.order (map (λ f. f.sum) row.now)) }
{
    out.extend_from_slice(b"row")?;
    let mut separator: &[u8] = b" ";
    for op in row {
        append_entry(out, algebra, separator, op)?;
        separator = b", ";
    }
    out.push(b'\n')?;
    Ok(())
}

// Appends a separator and the text of an entry.
fn append_entry(
    out: &mut Vec<u8>,
    algebra: &Algebra<'_>,
    separator: &[u8],
    op: &Op,
) -> Result<(), NoMemory>
    requires { Belongs algebra.now.signature.now op.now }
    ensures { OnOk result (out.new.items ≡ out.old.items ++ (separator.now ++ operator_text algebra.now.names.now algebra.now.signature.now.order op.now.sum)) }
{
    out.extend_from_slice(separator)?;
    append_operator(out, algebra, op)
}

/// The row of `cols` entries whose line this is, with its line end, if there is one of the signature.
///
/// # Errors
/// Want of memory.
pub fn read_row(
    alloc: Global,
    algebra: &Algebra<'_>,
    cols: usize,
    line: &[u8],
) -> Result<Option<Vec<Op>>, NoMemory>
    ensures found { IfOk result (λ o. IfSome o (λ row. AllByRecursion (IsPrintable algebra.now.signature.now algebra.now.names.now) (map (λ f. f.sum) row.items)
        × (length row.items ≡ cols) × (line.now ≡ row_text algebra.now.names.now algebra.now.signature.now.order (map (λ f. f.sum) row.items)))) }
    ensures of { IfOk result (λ o. IfSome o (λ row. AllBelong algebra.now.signature.now row.items)) }
    ensures only { IfOk result (λ o. (fs : List (Operator rationals)) → AllByRecursion (IsPrintable algebra.now.signature.now algebra.now.names.now) fs → length fs ≡ cols
        → line.now ≡ row_text algebra.now.names.now algebra.now.signature.now.order fs → MatchOption o ⊥ (λ row. map (λ f. f.sum) row.items ≡ fs)) }
{
    let Some(mut rest) = line.strip_prefix(b"row") else {
        return Ok(None)
    };
    let mut row = Vec::new(alloc);
    let mut separator: &[u8] = b" ";
    for _ in 0..cols {
        let Some((spelled, after)) = cut_entry(separator, rest) else {
            return Ok(None)
        };
        let Some(op) = operator_in(alloc, algebra, spelled)? else {
            return Ok(None)
        };
        row.push(op)?;
        rest = after;
        separator = b", ";
    }
    if rest == b"\n".as_slice() {
        Ok(Some(row))
    } else {
        Ok(None)
    }
}

// What stands behind a separator, up to the first comma or line end, and the rest from there.
fn cut_entry<'a>(separator: &[u8], text: &'a [u8]) -> Option<(&'a [u8], &'a [u8])>
    ensures found { IfSome result (λ parts. text.now ≡ separator.now ++ (parts.0.now ++ parts.1.now)) }
    ensures only { (front rest : List ℕ) → LacksStops front → BeginsWithStop rest → text.now ≡ separator.now ++ (front ++ rest)
        → MatchOption result ⊥ (λ parts. (parts.0.now ≡ front) × (parts.1.now ≡ rest)) }
{
    let Some(entry) = text.strip_prefix(separator) else {
        return None
    };
    Some(entry.split_at(stop_in(entry)))
}

// The place of the first comma or line end, or the length.
fn stop_in(text: &[u8]) -> usize
    ensures { result ≡ position_or_len is_stop text.now }
{
    match place_of_stop(text) {
        Some(place) => place,
        None => text.len(),
    }
}

fn place_of_stop(text: &[u8]) -> Option<usize>
    ensures { result ≡ position is_stop text.now }
{
    text.iter().position(|b| *b == b',' || *b == b'\n')
}

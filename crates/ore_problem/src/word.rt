//! The words of a line.

ghost use Rattle.std.specs.Prelude.{◌≡◌, ◌<◌, ◌^◌, ◌∷◌, [], ◌&&◌, true, map, min, IfOk};
ghost use Rattle.std.specs.List.{list_all};
ghost use Rattle.std.specs.Char.{is_ascii_digit};
ghost use Rattle.std.specs.Str.{bytes_eq};
ghost use Rattle.std.specs.Str.Parse.{digits_value};
ghost use Rattle.ore_expr.specs.Tokens.{is_name_byte as is_name_byte_of};
ghost use Rattle.ore_problem.specs.Lines.{words as words_of};
ghost use Rattle.ore_problem.specs.Declarations.{is_name as is_name_of, is_digits as is_digits_of, is_count as is_count_of};
ghost use Rattle.ore_problem.specs.Problems.{are_words};

use ore_text::is_name_byte;
use std::alloc::{AllocError, Global};

/// What stands between the spaces of a line, but for empty pieces.
///
/// # Errors
/// Want of memory.
pub(crate) fn split_words(alloc: Global, line: &[u8]) -> Result<Vec<&[u8]>, AllocError>
    ensures { IfOk result (λ words. map (λ w. w.now) words.items ≡ words_of line.now) }
{
    line.split(|b| *b == b' ')
        .filter(|word| !word.is_empty())
        .collect(alloc)
}

/// Whether a word is this one.
pub(crate) fn is_word(word: &[u8], known: &[u8]) -> bool
    ensures { result ≡ bytes_eq word.now known.now }
{
    word == known
}

/// Whether there is one word, and it is this.
pub(crate) fn is_alone(words: &[&[u8]], known: &[u8]) -> bool
    ensures { result ≡ are_words (map (λ w. w.now) words.now) (known.now ∷ []) }
{
    match words {
        [] => false,
        [word] => is_word(word, known),
        [_, _, ..] => false,
    }
}

/// Whether there are two words, and they are these.
pub(crate) fn are_two(words: &[&[u8]], first: &[u8], second: &[u8]) -> bool
    ensures { result ≡ are_words (map (λ w. w.now) words.now) (first.now ∷ second.now ∷ []) }
{
    match words {
        [] => false,
        [_] => false,
        [one, other] => is_word(one, first) && is_word(other, second),
        [_, _, _, ..] => false,
    }
}

/// A letter, and at most 15 letters, digits or underscores behind it.
pub(crate) fn is_name(word: &[u8]) -> bool
    ensures { result ≡ is_name_of word.now }
{
    match word {
        [first, others @ ..] => {
            first.is_ascii_alphabetic() && others.len() <= 15 && are_name_bytes(others)
        }
        [] => false,
    }
}

fn are_name_bytes(bytes: &[u8]) -> bool
    ensures { result ≡ list_all is_name_byte_of bytes.now }
{
    bytes.iter().all(|b| is_name_byte(*b))
}

/// One digit or more, and nothing else.
pub(crate) fn is_digits(word: &[u8]) -> bool
    ensures { result ≡ is_digits_of word.now }
{
    match word {
        [_, ..] => are_digits(word),
        [] => false,
    }
}

fn are_digits(bytes: &[u8]) -> bool
    ensures { result ≡ list_all is_ascii_digit bytes.now }
{
    bytes.iter().all(|b| b.is_ascii_digit())
}

/// Digits without a leading zero, or a zero alone.
pub(crate) fn is_count(word: &[u8]) -> bool
    ensures { result ≡ is_count_of word.now }
{
    match word {
        [digit] => digit.is_ascii_digit(),
        [first, ..] => *first != b'0' && is_digits(word),
        [] => false,
    }
}

/// The value of digits, or `most` where it is greater.
pub(crate) fn value_up_to(digits: &[u8], most: u32) -> u32
    requires digits { list_all is_ascii_digit digits.now ≡ true }
    requires most { most < 2 ^ 16 }
    ensures { result ≡ min (digits_value 10 digits.now) most }
{
    let mut value = 0;
    for digit in digits {
        value = (value * 10 + u32::from(*digit - b'0')).min(most);
    }
    value
}

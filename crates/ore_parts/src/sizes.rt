//! Numbers and places in a line, and the line that a matrix begins with.

ghost use Rattle.std.specs.Prelude.{◌≡◌, ◌≢◌, ℕ, ◌<◌, List, ◌∷◌, ◌++◌, MatchOption, codes, decimal};
ghost use Rattle.ore_parts.specs.BlockText.{place, is_place};
ghost use Rattle.ore_parts.specs.CertificateText.{matrix_words, number_bound};
ghost use Rattle.ore_parts.specs.Formats.{Spells};

use crate::lines::cut_at;
use itoa::Buffer;
use std::str;

/// The numbers of rows and columns, if the line says them of a matrix of this name.
pub fn sizes_in(line: &[u8], name: &[u8]) -> Option<(usize, usize)>
    ensures { Spells (λ s. matrix_words name.now s.0 s.1) (λ s. (s.0 < number_bound) × (s.1 < number_bound)) line.now result }
{
    let Some(sizes) = after_name(line, name) else {
        return None
    };
    pair_in(sizes)
}

// What follows the word `matrix` and the name.
fn after_name<'a>(line: &'a [u8], name: &[u8]) -> Option<&'a [u8]>
    ensures { MatchOption result ((sizes : List ℕ) → line.now ≢ codes "matrix " ++ (name.now ++ 32 ∷ sizes))
        (λ sizes. line.now ≡ codes "matrix " ++ (name.now ++ 32 ∷ sizes.now)) }
{
    let Some(named) = line.strip_prefix(b"matrix ") else {
        return None
    };
    let Some(spaced) = named.strip_prefix(name) else {
        return None
    };
    spaced.strip_prefix(b" ")
}

// Two numbers with a space between.
fn pair_in(text: &[u8]) -> Option<(usize, usize)>
    ensures { Spells (λ s. decimal s.0 ++ 32 ∷ decimal s.1) (λ s. (s.0 < number_bound) × (s.1 < number_bound)) text.now result }
{
    let Some((first, second)) = cut_at(text, b' ') else {
        return None
    };
    let Some(rows) = number_in(first) else {
        return None
    };
    let Some(cols) = number_in(second) else {
        return None
    };
    Some((rows, cols))
}

/// The number that a text spells without a leading zero, if it is below 2^63.
pub fn number_in(text: &[u8]) -> Option<usize>
    ensures { Spells (λ n. decimal n) (λ n. n < number_bound) text.now result }
{
    let Ok(digits) = str::from_utf8(text) else {
        return None
    };
    let Ok(number) = digits.parse::<usize>() else {
        return None
    };
    if number >= 1 << 63 {
        return None;
    }
    let mut buffer = Buffer::new();
    if buffer.format(number) == digits {
        Some(number)
    } else {
        None
    }
}

/// The place that a text spells, from 0: the number, less one.
pub fn place_in(text: &[u8]) -> Option<usize>
    ensures { Spells place is_place text.now result }
{
    let Some(number) = number_in(text) else {
        return None
    };
    if number == 0 {
        return None;
    }
    Some(number - 1)
}

/// The two places, from 0, that a text begins with, and what follows the space behind them.
pub fn places_in(text: &[u8]) -> Option<(usize, usize, &[u8])>
    ensures { MatchOption result ((i j : ℕ) (rest : List ℕ) → is_place i → is_place j → text.now ≢ place i ++ 32 ∷ (place j ++ 32 ∷ rest))
        (λ p. is_place p.0 × is_place p.1 × (text.now ≡ place p.0 ++ 32 ∷ (place p.1 ++ 32 ∷ p.2.now))) }
{
    let Some((first, rest)) = cut_at(text, b' ') else {
        return None
    };
    let Some(i) = place_in(first) else {
        return None
    };
    let Some((second, more)) = cut_at(rest, b' ') else {
        return None
    };
    let Some(j) = place_in(second) else {
        return None
    };
    Some((i, j, more))
}

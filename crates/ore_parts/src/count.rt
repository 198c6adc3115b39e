//! Lines of a word and a number.

ghost use Rattle.std.specs.Prelude.{◌<◌, ◌∷◌, ◌++◌, decimal};
ghost use Rattle.ore_parts.specs.CertificateText.{number_bound};
ghost use Rattle.ore_parts.specs.Formats.{ReadsOne, Spells};
ghost use Rattle.ore_parts.specs.Lines.{LacksByte};
ghost use Rattle.ore_parts.specs.PartFormats.{count_format};

use crate::fault::CertFault;
use crate::line::read_line;
use crate::lines::Lines;
use crate::sizes::number_in;

/// The number behind this word on the line that is due. The word has no line end.
///
/// # Errors
/// The line that is due, where it isn't of this form or there is none.
pub fn read_count(lines: &mut Lines<'_>, word: &[u8]) -> Result<usize, CertFault>
    requires { LacksByte 10 word.now }
    ensures { ReadsOne (count_format word.now) lines.old result lines.new }
{
    read_line(lines, |words| count_in(words, word))
}

/// The number behind this word, if these words are that.
pub fn count_in(words: &[u8], word: &[u8]) -> Option<usize>
    ensures { Spells (λ n. word.now ++ 32 ∷ decimal n) (λ n. n < number_bound) words.now result }
{
    let Some(spaced) = words.strip_prefix(word) else {
        return None
    };
    let Some(digits) = spaced.strip_prefix(b" ") else {
        return None
    };
    number_in(digits)
}

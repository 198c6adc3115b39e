//! Names of the twelve variables.

ghost use Rattle.std.specs.Prelude.{◌≡◌, IfOk, length};

use ore_text::Names;
use std::alloc::Global;
use std::test::Fail;

/// The twelve letters, each a name.
pub(crate) fn letters(alloc: Global) -> Result<Names, Fail>
    ensures { IfOk result (λ names. length names ≡ 12) }
{
    let mut names = Names::new(alloc);
    for letter in b"tubcpqdesvlw" {
        if letter.is_ascii_alphabetic() {
            names.add(&[*letter])?;
        }
    }
    if names.len() != 12 {
        return Err(Fail::new("a letter is missing"));
    }
    Ok(names)
}

//! One line.

ghost use Rattle.std.specs.Fn.{FnOnceReturnsAt};
ghost use Rattle.ore_parts.specs.Formats.{FindsInLine};

use crate::fault::CertFault;
use crate::lines::Lines;

/// What a function finds in the line that is due, without its end.
///
/// # Errors
/// The line that is due, where the function finds nothing there or there is none.
pub fn read_line<T, F: FnOnce(&[u8]) -> Option<T>>(
    lines: &mut Lines<'_>,
    find: F,
) -> Result<T, CertFault>
    requires { F.IsAlwaysCallable find }
    ensures { FindsInLine (FnOnceReturnsAt F.FnOnce find) lines.old result lines.new }
{
    let line = lines.at();
    let Some(words) = lines.take() else {
        return Err(CertFault::Malformed { line })
    };
    match find(words) {
        Some(found) => Ok(found),
        None => Err(CertFault::Malformed { line }),
    }
}

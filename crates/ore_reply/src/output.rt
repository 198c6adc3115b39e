//! Writes a whole text.

ghost use Rattle.std.specs.Prelude.{◌≡◌, [], IsOk, OnOk, OnErr};
ghost use Rattle.std.specs.Io.KnownBytes.{append_known};
ghost use Rattle.ore_io.specs.Faults.{Rose};
ghost use Rattle.ore_reply.specs.Prefix.{AppendsPrefix};

use ore_io::{Failed, Sink};

/// Writes the text from its first byte to its last.
///
/// # Errors
/// The first write that fails. Then a front of the text was written.
pub fn write_text<K: Sink>(sink: &mut K, text: &[u8]) -> Result<(), Failed>
    ensures whole { OnOk result (K.written sink.new ≡ append_known (K.written sink.old) text.now) }
    ensures prefix { OnErr result (AppendsPrefix (K.written sink.old) (K.written sink.new) text.now) }
    ensures nothing { text.now ≡ [] → IsOk result }
    ensures no_fault { OnOk result (K.faults sink.new ≡ K.faults sink.old) }
    ensures fault { OnErr result (Rose (K.faults sink.old) (K.faults sink.new)) }
{
    let mut done = 0;
    while done < text.len() {
        done += sink.write(&text[done..])?;
    }
    Ok(())
}

//! Writes what is replied.

ghost use Rattle.std.specs.Prelude.{◌≡◌, ◌≢◌, ◌⊎◌, ◌<◌, []};
ghost use Rattle.ore_io.specs.Faults.{Rose};
ghost use Rattle.ore_reply.specs.Answered.{IsDelivered};

use crate::output::write_text;
use crate::status::Status;
use ore_io::{Failed, Sink};

/// Writes the text of a status, and answers this status. Where the sink fails, the answer is that of the failure.
pub fn respond<K: Sink>(sink: &mut K, status: Status, text: &[u8]) -> Status
    requires { status ≢ Status.WriteFault }
    ensures answer { IsDelivered (record { status = status; text = text.now }) result (K.written sink.old) (K.written sink.new) }
    ensures either { (result ≡ status) ⊎ (result ≡ Status.WriteFault) }
    ensures fault_only { result ≡ Status.WriteFault → Rose (K.faults sink.old) (K.faults sink.new) }
    ensures fault_where { K.faults sink.old < K.faults sink.new → result ≡ Status.WriteFault }
    ensures nothing { text.now ≡ [] → result ≡ status }
{
    match write_text(sink, text) {
        Ok(()) => status,
        Err(Failed) => Status::WriteFault,
    }
}

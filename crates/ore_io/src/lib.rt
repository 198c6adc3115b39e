//! The outside, as the bench sees it: where bytes come from, and where they go.
//!
//! A `Source` gives bytes and a `Sink` takes them, a piece at a time. Each has two meanings that
//! contracts speak of. One is its content: what is left to read, or what was written, where the
//! type tells it. The other is a count of faults, which never falls: a call answers `Failed` only
//! where that count rises, and a failed call takes no byte and appends none.
//!
//! Code that is generic over a source and a sink can so promise two things at once: what it writes
//! is a stated function of what it read, and it reports a fault exactly where one happened. No
//! promise is made in the name of a pipe or a terminal, whose content no proof can know.
//!
//! The types:
//!
//! - `MemSource` and `MemSink` stand over bytes in memory. They give and take at most a chunk a
//!   call, and fail at the calls whose numbers are listed. They are for tests and for the worked
//!   examples, and their contracts say what each call does, to the last byte.
//! - `SureSource` and `SureSink` stand over bytes in memory and have no chunk. The source never
//!   fails, and the sink fails only where it is full.
//! - `StreamSource` and `StreamSink` adapt the readers and writers of `std::io`, the standard input
//!   and output among them. They tell no content, and count each error.
//!
//! Counts are kept in a `u64`. A count that is at 2^64 - 1 stays there, so `Failed` may come there without
//! a rise.
//!
//! The crate stands on std alone.
#![tactic(auto)]

mod calls;
mod memory;
mod store;
mod stream;
mod sure;
#[cfg(test)]
mod tests;

ghost use Rattle.std.specs.Prelude.{◌≡◌, ℕ, ◌<◌, ◌≤◌, ◌^◌, List, Option, length, take, IfOk, OnOk, OnErr};
ghost use Rattle.std.specs.Io.KnownBytes.{prepend_known, append_known, IsAtEnd};
ghost use Rattle.ore_io.specs.Faults.{Rose};

pub use memory::{MemSink, MemSource};
pub use stream::{StreamSink, StreamSource};
pub use sure::{SureSink, SureSource};

/// A call that gave or took nothing, because of a fault.
#[derive(Clone, Copy, Debug, PartialEq, Eq)]
pub struct Failed;

/// Where bytes come from.
pub trait Source {
    // What is left to read, where the source tells it.
    ghost left: { Self → Option (List ℕ) };

    // How often a read failed.
    ghost faults: { Self → ℕ };

    /// Reads into the front of `into` and answers how many bytes it read. No byte for a slice that
    /// isn't empty is the end of the input. What `into` holds past the bytes read is free.
    ///
    /// # Errors
    /// A fault, which is counted. Then no byte is read, and what `into` holds is free.
    fn read(&mut self, into: &mut [u8]) -> Result<usize, Failed>
        ensures bound { IfOk result (λ count. count ≤ length into.new) }
        // The bytes read and then what is left now are what was left before.
        ensures bytes { IfOk result (λ count.
            left self.old ≡ prepend_known (take count into.new) (left self.new)) }
        ensures end { IfOk result (λ count.
            count ≡ 0 → 0 < length into.new → IsAtEnd (left self.old)) }
        ensures kept { OnErr result (left self.new ≡ left self.old) }

        ensures no_fault { OnOk result (faults self.new ≡ faults self.old) }
        ensures fault { OnErr result (Rose (faults self.old) (faults self.new)) }
        ensures counted { faults self.new < 2 ^ 64 };
}

/// Where bytes go.
pub trait Sink {
    // What was written, where the sink tells it.
    ghost written: { Self → Option (List ℕ) };

    // How often a write failed.
    ghost faults: { Self → ℕ };

    /// Takes bytes from the front of `piece` and answers how many: at least one, where the piece
    /// isn't empty.
    ///
    /// # Errors
    /// A fault, which is counted; that nothing is taken of a piece that isn't empty is one. Then no
    /// byte is written.
    fn write(&mut self, piece: &[u8]) -> Result<usize, Failed>
        ensures bound { IfOk result (λ count. count ≤ length piece.now) }
        ensures bytes { IfOk result (λ count.
            written self.new ≡ append_known (written self.old) (take count piece.now)) }
        ensures some { IfOk result (λ count. 0 < length piece.now → 0 < count) }
        ensures kept { OnErr result (written self.new ≡ written self.old) }

        ensures no_fault { OnOk result (faults self.new ≡ faults self.old) }
        ensures fault { OnErr result (Rose (faults self.old) (faults self.new)) }
        ensures counted { faults self.new < 2 ^ 64 };
}

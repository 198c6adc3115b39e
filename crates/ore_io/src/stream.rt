//! A source and a sink over the readers and writers of std, the standard streams among them.

ghost use Rattle.std.specs.Prelude.{◌≡◌, ◌<◌, ◌≤◌, ◌^◌, length, IfOk, OnOk, OnErr, None};
ghost use Rattle.ore_io.specs.Faults.{Rose, one_more};

use crate::{Failed, Sink, Source};
use std::io::{Read, Write};
use std::marker::Model;

/// A reader as a source. It tells no content, and fails at each error of the reader. Contracts see
/// the count of faults.
#[derive(Drop)]
pub struct StreamSource<T> {
    input: T,
    faults: u64,
}

impl<T> Model for StreamSource<T> {
    ghost use Rattle.std.specs.Prelude.{ℕ, ◌<◌, ◌^◌};

    ghost Value = { ℕ };

    ghost view = { λ source. source.faults };

    ghost invariant = { λ source. source.faults < 2 ^ 64 };
}

impl<T: Read> StreamSource<T> {
    /// A source over this reader, with no fault counted yet.
    pub fn new(input: T) -> StreamSource<T>
        ensures { result ≡ 0 }
    {
        StreamSource { input, faults: 0 }
    }
}

impl<T: Read> Source for StreamSource<T> {
    ghost left = { λ _. None };

    ghost faults = { λ faults. faults };

    fn read(&mut self, into: &mut [u8]) -> Result<usize, Failed>
        ensures bound { IfOk result (λ count. count ≤ length into.new) }
        ensures no_fault { OnOk result (self.new ≡ self.old) }
        ensures after_err { OnErr result (self.new ≡ one_more self.old) }
        ensures fault { OnErr result (Rose self.old self.new) }
        ensures counted { self.new < 2 ^ 64 }
    {
        match self.input.read(into) {
            Ok(count) => Ok(count),
            Err(_) => {
                self.faults = self.faults.saturating_add(1);
                Err(Failed)
            }
        }
    }
}

/// A writer as a sink. It tells no content, and fails at each error of the writer, and where the
/// writer takes nothing of a piece that isn't empty. Contracts see the count of faults.
#[derive(Drop)]
pub struct StreamSink<T> {
    output: T,
    faults: u64,
}

impl<T> Model for StreamSink<T> {
    ghost use Rattle.std.specs.Prelude.{ℕ, ◌<◌, ◌^◌};

    ghost Value = { ℕ };

    ghost view = { λ sink. sink.faults };

    ghost invariant = { λ sink. sink.faults < 2 ^ 64 };
}

impl<T: Write> StreamSink<T> {
    /// A sink over this writer, with no fault counted yet.
    pub fn new(output: T) -> StreamSink<T>
        ensures { result ≡ 0 }
    {
        StreamSink { output, faults: 0 }
    }
}

impl<T: Write> Sink for StreamSink<T> {
    ghost written = { λ _. None };

    ghost faults = { λ faults. faults };

    fn write(&mut self, piece: &[u8]) -> Result<usize, Failed>
        ensures bound { IfOk result (λ count. count ≤ length piece.now) }
        ensures some { IfOk result (λ count. 0 < length piece.now → 0 < count) }
        ensures no_fault { OnOk result (self.new ≡ self.old) }
        ensures after_err { OnErr result (self.new ≡ one_more self.old) }
        ensures fault { OnErr result (Rose self.old self.new) }
        ensures counted { self.new < 2 ^ 64 }
    {
        match self.output.write(piece) {
            Ok(count) if count > 0 || piece.is_empty() => Ok(count),
            _ => {
                self.faults = self.faults.saturating_add(1);
                Err(Failed)
            }
        }
    }
}

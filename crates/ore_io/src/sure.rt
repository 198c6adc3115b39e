//! A source and a sink over bytes in memory, with no chunk and no listed faults.

ghost use Rattle.std.specs.Prelude.{◌≡◌, ◌↔◌, ◌++◌, ◌-◌, ◌<◌, ◌^◌, [], length, min, take, drop, vec_len, IfOk, OnErr, IsErr, IsOkAnd, Some};
ghost use Rattle.ore_io.specs.Faults.{Rose, one_more};

use crate::store::{Room, Unread};
use crate::{Failed, Sink, Source};
use std::marker::Model;

/// Bytes in memory as a source that never fails.
#[derive(Drop)]
pub struct SureSource {
    unread: Unread,
}

impl Model for SureSource {
    ghost use Rattle.std.specs.Prelude.{ℕ, List};

    ghost Value = { List ℕ };

    ghost view = { λ source. source.unread };
}

impl SureSource {
    /// All of `bytes` is left to read.
    pub fn new(bytes: Vec<u8>) -> SureSource
        ensures { result ≡ bytes.items }
    {
        SureSource {
            unread: Unread::new(bytes),
        }
    }
}

impl Source for SureSource {
    ghost left = { λ left. Some left };

    ghost faults = { λ _. 0 };

    fn read(&mut self, into: &mut [u8]) -> Result<usize, Failed>
        ensures count { IsOkAnd result (λ count. count ≡ min (length into.old) (length self.old)) }
        ensures into { IfOk result (λ count. into.new ≡ take count self.old ++ drop count into.old) }
        ensures left { IfOk result (λ count. self.new ≡ drop count self.old) }
    {
        let most = into.len();
        Ok(self.unread.read(into, most))
    }
}

/// Room in memory as a sink that fails only where no room is left.
#[derive(Drop)]
pub struct SureSink {
    room: Room,
    faults: u64,
}

impl Model for SureSink {
    ghost use Rattle.std.specs.Prelude.{◌<◌, ◌^◌};
    ghost use Rattle.ore_io.specs.Memory.{SureWriting};

    ghost Value = { SureWriting };

    ghost view = { λ sink. record {
      written = sink.room.written;
      spare = sink.room.spare;
      faults = sink.faults;
    } };

    ghost invariant = { λ sink. sink.faults < 2 ^ 64 };
}

impl SureSink {
    /// All of `room` is room for what is written, whatever it holds.
    pub fn new(room: Vec<u8>) -> SureSink
        ensures written { result.written ≡ [] }
        ensures spare { result.spare ≡ vec_len room }
        ensures faults { result.faults ≡ 0 }
    {
        SureSink {
            room: Room::new(room),
            faults: 0,
        }
    }

    /// How many bytes of the room are left.
    pub fn spare(&self) -> usize
        ensures { result ≡ self.now.spare }
    {
        self.room.spare()
    }

    /// The bytes that were written so far.
    pub fn written(&self) -> &[u8]
        ensures { result.now ≡ self.now.written }
    {
        self.room.written()
    }
}

impl Sink for SureSink {
    ghost written = { λ sink. Some sink.written };

    ghost faults = { λ sink. sink.faults };

    fn write(&mut self, piece: &[u8]) -> Result<usize, Failed>
        ensures fails { IsErr result ↔ ((self.old.spare ≡ 0) × (0 < length piece.now)) }
        ensures count { IfOk result (λ count. count ≡ min (length piece.now) self.old.spare) }
        ensures after { IfOk result (λ count. self.new ≡ record self.old {
          written = self.old.written ++ take count piece.now;
          spare = self.old.spare - count;
        }) }
        ensures after_err { OnErr result (self.new ≡ record self.old {
          faults = one_more self.old.faults;
        }) }
        ensures fault { OnErr result (Rose self.old.faults self.new.faults) }
        ensures counted { self.new.faults < 2 ^ 64 }
    {
        if self.room.spare() == 0 && !piece.is_empty() {
            self.faults = self.faults.saturating_add(1);
            return Err(Failed);
        }
        Ok(self.room.write(piece, piece.len()))
    }
}

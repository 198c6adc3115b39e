//! A source and a sink over bytes in memory, whose calls have a chunk and fail at listed numbers.

ghost use Rattle.std.specs.Prelude.{◌≡◌, ◌↔◌, ◌⊎◌, ◌++◌, ◌-◌, ◌<◌, ◌≤◌, ◌^◌, [], length, min, take, drop, vec_len, Contains, IfOk, OnOk, OnErr, IsErr, Some};
ghost use Rattle.std.specs.Io.KnownBytes.{prepend_known, append_known, IsAtEnd};
ghost use Rattle.ore_io.specs.Faults.{Rose, one_more};
ghost use Rattle.ore_io.specs.Calls.{next_call, one_call};

use crate::calls::Schedule;
use crate::store::{Room, Unread};
use crate::{Failed, Sink, Source};
use std::marker::Model;

/// Bytes in memory as a source. A call gives at most a chunk of them, and fails where its number,
/// from 1, is listed.
#[derive(Drop)]
pub struct MemSource {
    unread: Unread,
    chunk: usize,
    schedule: Schedule,
    faults: u64,
}

impl Model for MemSource {
    ghost use Rattle.std.specs.Prelude.{◌<◌};
    ghost use Rattle.ore_io.specs.Memory.{MemReading};

    ghost Value = { MemReading };

    ghost view = { λ source. record {
      left = source.unread;
      chunk = source.chunk;
      calls = source.schedule;
      faults = source.faults;
    } };

    ghost invariant = { λ source. 0 < source.chunk };
}

impl MemSource {
    /// All of `bytes` is left to read. A call gives at most `chunk` bytes, which is at least 1, and
    /// fails where its number, from 1, is in `failing`.
    pub fn new(bytes: Vec<u8>, chunk: usize, failing: Vec<u64>) -> MemSource
        requires { 0 < chunk }
        ensures left { result.left ≡ bytes.items }
        ensures chunk { result.chunk ≡ chunk }
        ensures failing { result.calls.failing ≡ failing.items }
        ensures made { result.calls.made ≡ 0 }
        ensures faults { result.faults ≡ 0 }
    {
        MemSource {
            unread: Unread::new(bytes),
            chunk,
            schedule: Schedule::new(failing),
            faults: 0,
        }
    }

    /// The bytes that weren't read yet.
    pub fn left(&self) -> &[u8]
        ensures { result.now ≡ self.now.left }
    {
        self.unread.left()
    }
}

impl Source for MemSource {
    ghost left = { λ source. Some source.left };

    ghost faults = { λ source. source.faults };

    fn read(&mut self, into: &mut [u8]) -> Result<usize, Failed>
        ensures fails { IsErr result ↔ Contains self.old.calls.failing (next_call self.old.calls) }
        ensures count { IfOk result (λ count.
            count ≡ min self.old.chunk (min (length into.old) (length self.old.left))) }
        ensures into { IfOk result (λ count.
            into.new ≡ take count self.old.left ++ drop count into.old) }
        ensures after { IfOk result (λ count. self.new ≡ record self.old {
          left = drop count self.old.left;
          calls = one_call self.old.calls;
        }) }
        ensures end { IfOk result (λ count. count ≡ 0 → 0 < length into.new → self.old.left ≡ []) }

        ensures err { OnErr result (into.new ≡ into.old) }
        ensures after_err { OnErr result (self.new ≡ record self.old {
          calls = one_call self.old.calls;
          faults = one_more self.old.faults;
        }) }
        ensures fault { OnErr result (Rose self.old.faults self.new.faults) }
        ensures counted { self.new.faults < 2 ^ 64 }
    {
        if self.schedule.next_fails() {
            self.faults = self.faults.saturating_add(1);
            return Err(Failed);
        }
        Ok(self.unread.read(into, self.chunk))
    }
}

/// Room in memory as a sink. A call takes at most a chunk of bytes, and fails where its number,
/// from 1, is listed, or where no room is left.
#[derive(Drop)]
pub struct MemSink {
    room: Room,
    chunk: usize,
    schedule: Schedule,
    faults: u64,
}

impl Model for MemSink {
    ghost use Rattle.std.specs.Prelude.{◌<◌};
    ghost use Rattle.ore_io.specs.Memory.{MemWriting};

    ghost Value = { MemWriting };

    ghost view = { λ sink. record {
      written = sink.room.written;
      spare = sink.room.spare;
      chunk = sink.chunk;
      calls = sink.schedule;
      faults = sink.faults;
    } };

    ghost invariant = { λ sink. 0 < sink.chunk };
}

impl MemSink {
    /// All of `room` is room for what is written, whatever it holds. A call takes at most `chunk`
    /// bytes, which is at least 1, and fails where its number, from 1, is in `failing`.
    pub fn new(room: Vec<u8>, chunk: usize, failing: Vec<u64>) -> MemSink
        requires { 0 < chunk }
        ensures written { result.written ≡ [] }
        ensures spare { result.spare ≡ vec_len room }
        ensures chunk { result.chunk ≡ chunk }
        ensures failing { result.calls.failing ≡ failing.items }
        ensures made { result.calls.made ≡ 0 }
        ensures faults { result.faults ≡ 0 }
    {
        MemSink {
            room: Room::new(room),
            chunk,
            schedule: Schedule::new(failing),
            faults: 0,
        }
    }

    /// The bytes that were written so far.
    pub fn written(&self) -> &[u8]
        ensures { result.now ≡ self.now.written }
    {
        self.room.written()
    }
}

impl Sink for MemSink {
    ghost written = { λ sink. Some sink.written };

    ghost faults = { λ sink. sink.faults };

    fn write(&mut self, piece: &[u8]) -> Result<usize, Failed>
        ensures fails { IsErr result ↔ (Contains self.old.calls.failing (next_call self.old.calls)
            ⊎ ((self.old.spare ≡ 0) × (0 < length piece.now))) }
        ensures count { IfOk result (λ count.
            count ≡ min self.old.chunk (min (length piece.now) self.old.spare)) }
        ensures after { IfOk result (λ count. self.new ≡ record self.old {
          written = self.old.written ++ take count piece.now;
          spare = self.old.spare - count;
          calls = one_call self.old.calls;
        }) }
        ensures some { IfOk result (λ count. 0 < length piece.now → 0 < count) }
        ensures after_err { OnErr result (self.new ≡ record self.old {
          calls = one_call self.old.calls;
          faults = one_more self.old.faults;
        }) }
        ensures fault { OnErr result (Rose self.old.faults self.new.faults) }
        ensures counted { self.new.faults < 2 ^ 64 }
    {
        let fails = self.schedule.next_fails();
        if fails || (self.room.spare() == 0 && !piece.is_empty()) {
            self.faults = self.faults.saturating_add(1);
            return Err(Failed);
        }
        Ok(self.room.write(piece, self.chunk))
    }
}

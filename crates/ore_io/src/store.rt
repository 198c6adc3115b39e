//! Bytes in memory that are read, or written, from the front on.

ghost use Rattle.std.specs.Prelude.{◌≡◌, ◌++◌, ◌-◌, [], length, min, take, drop, vec_len};

use std::marker::Model;

/// Bytes of which the first were read. Contracts see those that are left.
#[derive(Drop)]
pub struct Unread {
    bytes: Vec<u8>,
    at: usize,
}

impl Model for Unread {
    ghost use Rattle.std.specs.Prelude.{ℕ, ◌≤◌, List, drop, vec_len};

    ghost Value = { List ℕ };

    ghost view = { λ unread. drop unread.at unread.bytes.items };

    ghost invariant = { λ unread. unread.at ≤ vec_len unread.bytes };
}

impl Unread {
    /// None of the bytes was read yet.
    pub fn new(bytes: Vec<u8>) -> Unread
        ensures { result ≡ bytes.items }
    {
        Unread { bytes, at: 0 }
    }

    /// The bytes that weren't read yet.
    pub fn left(&self) -> &[u8]
        ensures { result.now ≡ self.now }
    {
        &self.bytes[self.at..]
    }

    /// Reads as many bytes as there are, as fit into the slice, and as are allowed: `most`. How many it read.
    pub fn read(&mut self, into: &mut [u8], most: usize) -> usize
        ensures count { result ≡ min most (min (length into.old) (length self.old)) }
        ensures into { into.new ≡ take result self.old ++ drop result into.old }
        ensures left { self.new ≡ drop result self.old }
    {
        let left = &self.bytes[self.at..];
        let count = most.min(into.len().min(left.len()));
        into[..count].copy_from_slice(&left[..count]);
        self.at += count;
        count
    }
}

/// Bytes of which the first were written. Contracts see those, and how many are left.
#[derive(Drop)]
pub struct Room {
    bytes: Vec<u8>,
    len: usize,
}

impl Model for Room {
    ghost use Rattle.std.specs.Prelude.{◌-◌, ◌≤◌, take, vec_len};
    ghost use Rattle.ore_io.specs.Store.{Filling};

    ghost Value = { Filling };

    ghost view = { λ room. record {
      written = take room.len room.bytes.items;
      spare = vec_len room.bytes - room.len;
    } };

    ghost invariant = { λ room. room.len ≤ vec_len room.bytes };
}

impl Room {
    /// All of the bytes are room, whatever they hold.
    pub fn new(bytes: Vec<u8>) -> Room
        ensures written { result.written ≡ [] }
        ensures spare { result.spare ≡ vec_len bytes }
    {
        Room { bytes, len: 0 }
    }

    /// The bytes that were written so far.
    pub fn written(&self) -> &[u8]
        ensures { result.now ≡ self.now.written }
    {
        &self.bytes[..self.len]
    }

    /// How many bytes of the room are left.
    pub fn spare(&self) -> usize
        ensures { result ≡ self.now.spare }
    {
        self.bytes.len() - self.len
    }

    /// Writes as many bytes as the piece has, as there is room for, and as are allowed: `most`. How many it wrote.
    pub fn write(&mut self, piece: &[u8], most: usize) -> usize
        ensures count { result ≡ min most (min (length piece.now) self.old.spare) }
        ensures written { self.new.written ≡ self.old.written ++ take result piece.now }
        ensures spare { self.new.spare ≡ self.old.spare - result }
    {
        let count = most.min(piece.len().min(self.spare()));
        let end = self.len + count;
        self.bytes[self.len..end].copy_from_slice(&piece[..count]);
        self.len = end;
        count
    }
}

ghost use Rattle.std.specs.Prelude.{◌≡◌, ◌+◌, ◌≤◌, ◌++◌, max, [], length, IsOk, IfOk, OnOk, OnErr};

use crate::NoMemory;
use std::alloc::Global;
use std::marker::Model;

/// Bytes that grow at their end, and the length up to which they do so without memory.
#[derive(Drop)]
pub struct Stored {
    bytes: Vec<u8>,
    room: usize,
}

impl Model for Stored {
    ghost use Rattle.std.specs.Prelude.{◌≤◌, vec_capacity};
    ghost use Rattle.il_base.specs.Stock.{Held};

    ghost Value = { Held };

    ghost view = { λ s. record { bytes = s.bytes.items; room = s.room } };

    ghost invariant = { λ s. s.room ≤ vec_capacity s.bytes };
}

impl Stored {
    /// No bytes and no room. Takes no memory.
    pub fn new(alloc: Global) -> Stored
        ensures { result ≡ record { bytes = []; room = 0 } }
    {
        Stored {
            bytes: Vec::new(alloc),
            room: 0,
        }
    }

    /// A copy of `bytes`, with this room.
    pub fn with_room(alloc: Global, bytes: &[u8], room: usize) -> Result<Stored, NoMemory>
        ensures { IfOk result (λ s. s ≡ record { bytes = bytes.now; room = room }) }
    {
        let mut copy = Vec::with_capacity(alloc, room.max(bytes.len()))?;
        copy.extend_from_slice(bytes)?;
        Ok(Stored { bytes: copy, room })
    }

    /// Lends the bytes.
    pub fn as_slice(&self) -> &[u8]
        ensures { result.now ≡ self.now.bytes }
    {
        self.bytes.as_slice()
    }

    /// The length up to which the bytes grow without memory.
    pub fn room(&self) -> usize
        ensures { result ≡ self.now.room }
    {
        self.room
    }

    /// Leaves no bytes. The room stays.
    pub fn clear(&mut self)
        ensures { self.new ≡ record { bytes = []; room = self.old.room } }
    {
        self.bytes.clear();
    }

    /// Adds `piece` at the end. It takes no memory where the room is enough.
    pub fn append(&mut self, piece: &[u8]) -> Result<(), NoMemory>
        ensures ok { OnOk result (self.new ≡ record { bytes = self.old.bytes ++ piece.now; room = self.old.room }) }
        ensures err { OnErr result (self.new ≡ self.old) }
        ensures succeeds { length self.old.bytes + length piece.now ≤ self.old.room → IsOk result }
    {
        self.bytes.extend_from_slice(piece)?;
        Ok(())
    }

    /// Takes room for `room` bytes in all.
    pub fn make_room(&mut self, room: usize) -> Result<(), NoMemory>
        ensures ok { OnOk result (self.new ≡ record { bytes = self.old.bytes; room = max self.old.room room }) }
        ensures err { OnErr result (self.new ≡ self.old) }
    {
        if room > self.room {
            let more = room.saturating_sub(self.bytes.len());
            self.bytes.reserve(more)?;
            self.room = room;
        }
        Ok(())
    }
}

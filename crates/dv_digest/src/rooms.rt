ghost use Rattle.std.specs.Prelude.{◌≡◌, ◌≤◌, ◌<◌, ◌+◌, [], ◌∷◌, ◌++◌, IfOk, length};
ghost use Rattle.dv_digest.specs.declared.rooms.TheConstants.{ROOM_SIZE};

use dv_text::Memory;
use std::alloc::Global;
use std::marker::Model;

/// How many bytes a room holds: 32 attributes of 4,096 bytes each, with a semicolon between each and the next.
pub const ROOM_SIZE: usize = 131_103;

/// Room for the text that is hashed, made once and used for each hash. Contracts see it as the bytes that
/// stand in it.
#[derive(Debug, Drop)]
pub struct Room {
    buffer: Vec<u8>,
}

impl Model for Room {
    ghost use Rattle.std.specs.Prelude.{◌≤◌, List, ℕ, vec_capacity};
    ghost use Rattle.dv_digest.specs.declared.rooms.TheConstants.{ROOM_SIZE};

    ghost Value = { List ℕ };

    ghost view = { λ room. room.buffer.items };

    ghost invariant = { λ room. ROOM_SIZE ≤ vec_capacity room.buffer };
}

impl Room {
    /// Room for 131,103 bytes, with nothing in it.
    pub fn new(alloc: Global) -> Result<Room, Memory>
        ensures { IfOk result (λ room. room ≡ []) }
    {
        let buffer = Vec::with_capacity(alloc, ROOM_SIZE)?;
        Ok(Room { buffer })
    }

    /// Takes everything out of the room.
    pub(crate) fn clear(&mut self)
        ensures { self.new ≡ [] }
    {
        self.buffer.clear();
    }

    /// Puts bytes behind those that stand in the room. Takes no memory.
    pub(crate) fn put(&mut self, bytes: &[u8])
        requires { length self.old + length bytes.now ≤ ROOM_SIZE }
        ensures { self.new ≡ self.old ++ bytes.now }
    {
        match self.buffer.extend_from_slice(bytes) {
            Ok(()) => {}
            Err(_) => unreachable!(),
        }
    }

    /// Puts a semicolon behind the bytes that stand in the room. Takes no memory.
    pub(crate) fn put_separator(&mut self)
        requires { length self.old < ROOM_SIZE }
        ensures { self.new ≡ self.old ++ 59 ∷ [] }
    {
        self.put(b";");
    }

    /// The bytes that stand in the room.
    pub(crate) fn bytes(&self) -> &[u8]
        ensures { result.now ≡ self.now }
    {
        self.buffer.as_slice()
    }
}

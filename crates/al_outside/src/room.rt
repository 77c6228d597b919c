ghost use Rattle.std.specs.Prelude.{◌≡◌, ◌≤◌, ◌+◌, ◌++◌, [], length, vec_len, vec_capacity, IfOk};

use al_values::NoMemory;
use std::alloc::Global;
use std::marker::Model;

/// An empty buffer with room for a set number of bytes.
#[derive(Drop)]
pub struct Room8 {
    buffer: Vec<u8>,
    bytes: u32,
}

impl Model for Room8 {
    ghost use Rattle.std.specs.Prelude.{ℕ, ◌≡◌, ◌≤◌, [], vec_capacity};

    ghost Value = { ℕ };

    ghost view = { λ it. it.bytes };

    ghost invariant = { λ it. (it.buffer.items ≡ []) × (it.bytes ≤ vec_capacity it.buffer) };
}

impl Room8 {
    /// Room for so many bytes.
    pub fn new(alloc: Global, bytes: u32) -> Result<Room8, NoMemory>
        ensures { IfOk result (λ room. room ≡ bytes) }
    {
        let buffer = Vec::with_capacity(alloc, bytes as usize)?;
        Ok(Room8 { buffer, bytes })
    }

    /// How many bytes there is room for.
    pub fn bytes(&self) -> u32
        ensures { result ≡ self.now }
    {
        self.bytes
    }

    /// The buffer, which is empty. It takes no memory.
    pub fn into_buffer(self) -> Vec<u8>
        ensures items { result.items ≡ [] }
        ensures capacity { self ≤ vec_capacity result }
    {
        let Room8 { buffer, .. } = self;
        buffer
    }
}

// Appends a piece for which there is room, so that no memory is taken.
pub fn append_within(buffer: &mut Vec<u8>, piece: &[u8])
    requires { vec_len buffer.old + length piece.now ≤ vec_capacity buffer.old }
    ensures items { buffer.new.items ≡ buffer.old.items ++ piece.now }
    ensures capacity { vec_capacity buffer.old ≤ vec_capacity buffer.new }
{
    if buffer.extend_from_slice(piece).is_err() {
        unreachable!();
    }
}

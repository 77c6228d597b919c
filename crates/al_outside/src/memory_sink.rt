ghost use Rattle.std.specs.Prelude.{◌≡◌, ◌↔◌, ◌++◌, ◌≤◌, ◌<◌, ◌-◌, ◌⊎◌, [], length, min, take, Contains, IfOk, OnErr, IsErr};
ghost use Rattle.std.specs.Io.{WritesAtMost};
ghost use Rattle.al_outside.specs.Faults.{HasCause};
ghost use Rattle.al_outside.specs.Holding.{Bytes, WriteGrows};
ghost use Rattle.al_outside.specs.Memory.{counted};

use crate::failing::is_listed;
use crate::room::append_within;
use crate::{Failed, Room8, Sink};
use al_values::CallList;
use std::marker::Model;

/// A sink that holds its bytes in memory. It takes at most a set number of bytes a call and takes no memory in a call.
/// It fails at the calls that it was told to fail at, counted from 0, and where its room is full and the piece isn't
/// empty, and at no others.
#[derive(Drop)]
pub struct MemorySink {
    buffer: Vec<u8>,
    room: u32,
    most: u32,
    failing: CallList,
    calls: u64,
    faults: u64,
}

impl Model for MemorySink {
    ghost use Rattle.std.specs.Prelude.{◌<◌, ◌≤◌, vec_len, vec_capacity};
    ghost use Rattle.al_outside.specs.Memory.{SinkState};

    ghost Value = { SinkState };

    ghost view = { λ it. record { held = it.buffer.items; room = it.room; most = it.most; failing = it.failing; calls = it.calls; faults = it.faults } };

    ghost invariant = { λ it. (0 < it.most) × (vec_len it.buffer ≤ it.room) × (it.room ≤ vec_capacity it.buffer) };
}

impl MemorySink {
    /// An empty sink with this room, which takes at most `most` bytes a call and fails at the calls in `failing`.
    pub fn new(room: Room8, most: u32, failing: CallList) -> MemorySink
        requires { 1 ≤ most }
        ensures { result ≡ record { held = []; room = room; most = most; failing = failing; calls = 0; faults = 0 } }
    {
        let bytes = room.bytes();
        MemorySink {
            buffer: room.into_buffer(),
            room: bytes,
            most,
            failing,
            calls: 0,
            faults: 0,
        }
    }

    /// The bytes that it has taken.
    pub fn held(&self) -> &[u8]
        ensures { result.now ≡ self.now.held }
    {
        self.buffer.as_slice()
    }

    /// How many faults were counted; the count stays at its last value.
    pub fn faults(&self) -> u64
        ensures { result ≡ self.now.faults }
    {
        self.faults
    }
}

impl Sink for MemorySink {
    ghost held = { λ it. Bytes it.held };

    ghost faults = { λ it. it.faults };

    fn write(&mut self, piece: &[u8]) -> Result<usize, Failed>
        ensures bound { WritesAtMost result piece.now }
        ensures progress { IfOk result (λ n. 0 < length piece.now → 0 < n) }
        ensures bytes { WriteGrows (Bytes self.old.held) (Bytes self.new.held) result piece.now }
        ensures cause { HasCause self.old.faults self.new.faults result }

        // Exactly when it fails, how many bytes pass, and what is held.
        ensures fails { IsErr result ↔ (Contains self.old.failing self.old.calls
            ⊎ (self.old.room ≤ length self.old.held) × (0 < length piece.now)) }
        ensures count { IfOk result (λ n. n ≡ min (length piece.now) (min self.old.most (self.old.room - length self.old.held))) }
        ensures ok { IfOk result (λ n. self.new ≡ record self.old { held = self.old.held ++ take n piece.now; calls = counted self.old.calls }) }
        ensures err { OnErr result (self.new ≡ record self.old { calls = counted self.old.calls; faults = counted self.old.faults }) }
    {
        let call = self.calls;
        self.calls = call.saturating_add(1);
        let free = self.room as usize - self.buffer.len();
        let is_full = free == 0 && !piece.is_empty();
        if is_full || is_listed(self.failing.as_slice(), call) {
            self.faults = self.faults.saturating_add(1);
            return Err(Failed);
        }
        let count = piece.len().min((self.most as usize).min(free));
        append_within(&mut self.buffer, &piece[..count]);
        Ok(count)
    }
}

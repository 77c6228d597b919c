ghost use Rattle.std.specs.Prelude.{◌≡◌, ◌↔◌, ◌++◌, ◌≤◌, Some, length, min, take, drop, Contains, IfOk, OnErr, IsErr};
ghost use Rattle.std.specs.Io.{ReadsAtMost};
ghost use Rattle.std.specs.Io.KnownBytes.{ReadConsumes};
ghost use Rattle.al_outside.specs.Faults.{HasCause};
ghost use Rattle.al_outside.specs.Memory.{counted};

use crate::failing::is_listed;
use crate::{Failed, Source};
use al_values::{CallList, Txt8};
use std::marker::Model;

/// A source of bytes in memory. It gives at most a set number of bytes a call, takes no memory in a call, and fails at
/// the calls that it was told to fail at, counted from 0, and at no others.
#[derive(Drop)]
pub struct MemorySource {
    bytes: Txt8,
    at: usize,
    most: u32,
    failing: CallList,
    calls: u64,
    faults: u64,
}

impl Model for MemorySource {
    ghost use Rattle.std.specs.Prelude.{◌<◌, ◌≤◌, drop, length};
    ghost use Rattle.al_outside.specs.Memory.{SourceState};

    ghost Value = { SourceState };

    ghost view = { λ it. record { left = drop it.at it.bytes; most = it.most; failing = it.failing; calls = it.calls; faults = it.faults } };

    ghost invariant = { λ it. (0 < it.most) × (it.at ≤ length it.bytes) };
}

impl MemorySource {
    /// A source of these bytes, at most `most` a call, that fails at the calls in `failing`.
    pub fn new(bytes: Txt8, most: u32, failing: CallList) -> MemorySource
        requires { 1 ≤ most }
        ensures { result ≡ record { left = bytes; most = most; failing = failing; calls = 0; faults = 0 } }
    {
        MemorySource {
            bytes,
            at: 0,
            most,
            failing,
            calls: 0,
            faults: 0,
        }
    }

    /// How many faults were counted; the count stays at its last value.
    pub fn faults(&self) -> u64
        ensures { result ≡ self.now.faults }
    {
        self.faults
    }
}

impl Source for MemorySource {
    ghost left = { λ it. Some it.left };

    ghost faults = { λ it. it.faults };

    fn read(&mut self, into: &mut [u8]) -> Result<usize, Failed>
        ensures bound { ReadsAtMost result into.new }
        ensures bytes { ReadConsumes (Some self.old.left) (Some self.new.left) result into.new }
        ensures cause { HasCause self.old.faults self.new.faults result }

        // Exactly when it fails, how many bytes pass, and what is left.
        ensures fails { IsErr result ↔ Contains self.old.failing self.old.calls }
        ensures count { IfOk result (λ n. n ≡ min (length into.old) (min self.old.most (length self.old.left))) }
        ensures given { IfOk result (λ n. into.new ≡ take n self.old.left ++ drop n into.old) }
        ensures ok { IfOk result (λ n. self.new ≡ record self.old { left = drop n self.old.left; calls = counted self.old.calls }) }
        ensures err { OnErr result (self.new ≡ record self.old { calls = counted self.old.calls; faults = counted self.old.faults }) }
        ensures untouched { OnErr result (into.new ≡ into.old) }
    {
        let call = self.calls;
        self.calls = call.saturating_add(1);
        if is_listed(self.failing.as_slice(), call) {
            self.faults = self.faults.saturating_add(1);
            return Err(Failed);
        }
        let count = give(self.bytes.as_slice(), self.at, self.most as usize, into);
        self.at += count;
        Ok(count)
    }
}

// Copies bytes from a place on, at most so many and as many as fit, and says how many.
fn give(bytes: &[u8], at: usize, most: usize, into: &mut [u8]) -> usize
    requires { at ≤ length bytes.now }
    ensures count { result ≡ min (length into.old) (min most (length (drop at bytes.now))) }
    ensures given { into.new ≡ take result (drop at bytes.now) ++ drop result into.old }
{
    let rest = &bytes[at..];
    let count = into.len().min(most.min(rest.len()));
    into[..count].copy_from_slice(&rest[..count]);
    count
}

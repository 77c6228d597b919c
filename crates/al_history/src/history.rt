ghost use Rattle.al_history.specs.Past.{past_of};
ghost use Rattle.std.specs.Prelude.{◌≡◌, [], ◌∷◌, ◌++◌, ◌+◌, ◌<◌, ◌≤◌, ◌^◌, length, IfOk, OnOk, OnErr, reverse};

use crate::Entry;
use al_values::NoMemory;
use std::alloc::Global;
use std::marker::Model;

// The most entries that a journal has, its reserved places counted.
const MOST_ENTRIES: usize = 4_294_967_295;

/// A journal: the entries of a run, oldest first, and the places that are reserved for more.
#[derive(Debug, Drop)]
pub struct History {
    entries: Vec<Entry>,
    room: usize,
}

impl Model for History {
    ghost use Rattle.std.specs.Prelude.{◌+◌, ◌<◌, ◌^◌, ◌≤◌, vec_len, vec_capacity};
    ghost use Rattle.al_history.specs.Kept.{Kept};

    ghost Value = { Kept };

    ghost view = { λ h. record { entries = h.entries.items; room = h.room } };

    ghost invariant = { λ h. (vec_len h.entries + h.room ≤ vec_capacity h.entries) × (vec_len h.entries + h.room < 2 ^ 32) };
}

impl History {
    /// The empty journal. It takes no memory.
    pub fn new(alloc: Global) -> History
        ensures { result ≡ record { entries = []; room = 0 } }
    {
        History {
            entries: Vec::new(alloc),
            room: 0,
        }
    }

    /// The entries, oldest first.
    pub fn entries(&self) -> &[Entry]
        ensures entries { result.now ≡ self.now.entries }
        ensures few { length self.now.entries + self.now.room < 2 ^ 32 }
    {
        self.entries.as_slice()
    }

    /// How many entries there are.
    #[tactic(auto, using(crate::proofs::Pasts::past_length))]
    pub fn len(&self) -> u32
        ensures entries { result ≡ length self.now.entries }
        ensures past { result ≡ length (past_of self.now) }
        ensures few { result + self.now.room < 2 ^ 32 }
    {
        self.entries.len() as u32
    }

    /// How many places are reserved for entries to come.
    pub fn room(&self) -> usize
        ensures places { result ≡ self.now.room }
        ensures few { result < 2 ^ 32 }
    {
        self.room
    }

    /// Reserves places for more entries. A journal has at most 2^32 - 1 entries, its reserved places counted.
    pub fn reserve(&mut self, more: usize) -> Result<(), NoMemory>
        requires { more < 2 ^ 32 }
        ensures entries { self.new.entries ≡ self.old.entries }
        ensures ok { OnOk result (self.new.room ≡ self.old.room + more) }
        ensures err { OnErr result (self.new.room ≡ self.old.room) }
    {
        let wanted = self.entries.len() + self.room + more;
        if wanted > MOST_ENTRIES {
            return Err(NoMemory);
        }
        self.entries.reserve(self.room + more)?;
        self.room += more;
        Ok(())
    }

    /// Puts an entry at the end, in a reserved place. It takes no memory.
    #[tactic(auto, using(crate::proofs::Pasts::past_grows))]
    pub fn note(&mut self, entry: Entry)
        requires { 0 < self.old.room }
        ensures entries { self.new.entries ≡ self.old.entries ++ entry ∷ [] }
        ensures past { past_of self.new ≡ entry ∷ past_of self.old }
        ensures room { self.new.room + 1 ≡ self.old.room }
    {
        self.room -= 1;
        self.entries.push_reserved(entry);
    }
}

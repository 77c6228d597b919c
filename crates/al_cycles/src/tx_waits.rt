ghost use Rattle.std.specs.Prelude.{◌≡◌, ◌<◌, None, IfOk, length, slice_set, replicate};
ghost use Rattle.al_cycles.specs.Blocks.{whom_of};

use al_values::NoMemory;
use std::alloc::Global;
use std::marker::Model;

/// For each session the session whose transaction's end it waits for, if any (13.3.4). Sessions count from 0. Contracts see the
/// list of these.
#[derive(Debug, Drop)]
pub struct TxWaits {
    whom: Vec<Option<u32>>,
}

impl Model for TxWaits {
    ghost use Rattle.std.specs.Prelude.{ℕ, List, Option, ◌<◌, ◌^◌, vec_len};

    ghost Value = { List (Option ℕ) };

    ghost view = { λ t. t.whom.items };

    ghost invariant = { λ t. vec_len t.whom < 2 ^ 32 };
}

impl TxWaits {
    /// So many sessions, none of which waits.
    ///
    /// # Errors
    ///
    /// Want of memory.
    pub fn new(alloc: Global, sessions: u32) -> Result<TxWaits, NoMemory>
        ensures { IfOk result (λ waits. waits ≡ replicate sessions None) }
    {
        Ok(TxWaits {
            whom: vec![in alloc; None; sessions as usize]?,
        })
    }

    /// The number of sessions.
    pub fn sessions(&self) -> u32
        ensures { result ≡ length self.now }
    {
        self.whom.len() as u32
    }

    /// Sets whose end a session waits for. It takes no memory.
    pub fn set(&mut self, session: u32, whom: Option<u32>)
        requires { session < length self.old }
        ensures { self.new ≡ slice_set self.old session whom }
    {
        let at = session as usize;
        self.whom[at] = whom;
    }

    /// Whose end a session waits for, if any.
    pub fn of(&self, session: u32) -> Option<u32>
        requires { session < length self.now }
        ensures { result ≡ whom_of self.now session }
    {
        self.whom[session as usize]
    }
}

ghost use Rattle.std.specs.Prelude.{◌≡◌, [], ◌<◌, ◌↔◌, None, IfOk, OnOk, OnErr, IsTrue, is_some, length, slice_get, Some, IfSome};
ghost use Rattle.al_queue.specs.InWay.{grantable, answer, asked};
ghost use Rattle.al_queue.specs.Waits.{holds, IsLeastBefore, request_at, blocked_by};
ghost use Rattle.al_queue.specs.Walk.{walked, released, withdrawn};
ghost use Rattle.al_queue.specs.Settled.{IsSettled, HandsOn};

use crate::in_way::{
    any_like, any_of_session, count_of_table, is_held_up, least_in_way, position_of,
};
use crate::walk::{end_claims, keep_others, walk_queues};
use crate::{Asked, Grant};
use al_modes::Mode;
use al_values::NoMemory;
use std::alloc::Global;
use std::marker::Model;

// The most requests that wait at the same time.
const MOST_WAITING: usize = 4_294_967_295;

/// The locks of tables that sessions hold and ask for (13.3.1). Sessions count from 0.
#[derive(Debug, Drop)]
pub struct LockTable {
    sessions: u32,
    held: Vec<Grant>,
    waiting: Vec<Grant>,
    spare: Vec<Grant>,
    granted: Vec<Grant>,
}

impl Model for LockTable {
    ghost use Rattle.std.specs.Prelude.{◌+◌, ◌<◌, ◌^◌, ◌≤◌, vec_len, vec_capacity};
    ghost use Rattle.al_queue.specs.Locks.{Kept};

    ghost Value = { Kept };

    ghost view = { λ t. record { sessions = t.sessions; locks = record { held = t.held.items; waiting = t.waiting.items; granted = t.granted.items } } };

    // Each waiting request has its place among the locks, and among those that a walk names.
    ghost invariant = { λ t. (vec_len t.held + vec_len t.waiting ≤ vec_capacity t.held) × (vec_len t.waiting ≤ vec_capacity t.waiting) × (vec_len t.waiting ≤ vec_capacity t.spare) × (vec_len t.waiting ≤ vec_capacity t.granted) × (vec_len t.waiting < 2 ^ 32) × (vec_len t.granted < 2 ^ 32) };
}

impl LockTable {
    /// A table for so many sessions, in which nothing is locked.
    ///
    /// # Errors
    ///
    /// Want of memory.
    pub fn new(alloc: Global, sessions: u32) -> Result<LockTable, NoMemory>
        ensures table { IfOk result (λ t. t ≡ record { sessions = sessions; locks = record { held = []; waiting = []; granted = [] } }) }
        ensures settled { IfOk result (λ t. IsSettled t.locks) }
    {
        Ok(LockTable {
            sessions,
            held: Vec::new(alloc),
            waiting: Vec::new(alloc),
            spare: Vec::new(alloc),
            granted: Vec::new(alloc),
        })
    }

    /// The number of sessions.
    pub fn sessions(&self) -> u32
        ensures { result ≡ self.now.sessions }
    {
        self.sessions
    }

    /// How many requests wait.
    pub fn waiting(&self) -> u32
        ensures { result ≡ length self.now.locks.waiting }
    {
        self.waiting.len() as u32
    }

    /// Whether a session has a waiting request.
    pub fn waits(&self, session: u32) -> bool
        ensures { result ≡ is_some (request_at self.now.locks session) }
    {
        position_of(session, &self.waiting).is_some()
    }

    /// Asks for a lock: the session holds it from now on, or its request waits.
    ///
    /// # Errors
    ///
    /// Want of memory. Then nothing has changed.
    pub fn ask(&mut self, session: u32, table: u32, mode: Mode) -> Result<Asked, NoMemory>
        requires known { session < self.old.sessions }
        requires free { request_at self.old.locks session ≡ None }
        ensures answer { IfOk result (λ a. a ≡ answer self.old.locks (record { session = session; table = table; mode = mode })) }
        ensures ok { OnOk result (self.new ≡ record { sessions = self.old.sessions; locks = asked self.old.locks (record { session = session; table = table; mode = mode }) }) }
        ensures err { OnErr result (self.new ≡ self.old) }
        ensures settled { IsSettled self.old.locks → IsSettled self.new.locks }
    {
        let request = Grant {
            session,
            table,
            mode,
        };
        let waiting = self.waiting.len();
        if waiting >= MOST_WAITING {
            return Err(NoMemory);
        }
        self.held.reserve(waiting + 1)?;
        if !is_held_up(request, &self.held, &self.waiting) {
            self.held.push_reserved(request);
            return Ok(Asked::Granted);
        }
        let place = count_of_table(table, &self.waiting) as u32;
        self.spare.reserve(waiting + 1)?;
        self.granted.reserve(waiting + 1)?;
        self.waiting.reserve(1)?;
        self.waiting.push_reserved(request);
        Ok(Asked::Queued { place })
    }

    /// The least session that would make this request wait, where it would wait.
    pub fn stands_before(&self, session: u32, table: u32, mode: Mode) -> Option<u32>
        requires { session < self.now.sessions }
        ensures none { (result ≡ None) ↔ IsTrue (grantable self.now.locks (record { session = session; table = table; mode = mode })) }
        ensures least { IfSome result (IsLeastBefore self.now.locks (record { session = session; table = table; mode = mode })) }
    {
        let request = Grant {
            session,
            table,
            mode,
        };
        let found = least_in_way(request, None, &self.held);
        least_in_way(request, found, &self.waiting)
    }

    /// Ends all claims of a session, its locks and its waiting request where it has one, and walks the queues. The answer
    /// is how many requests were granted.
    pub fn release(&mut self, session: u32) -> u32
        requires { session < self.old.sessions }
        ensures locks { self.new ≡ record { sessions = self.old.sessions; locks = walked (released self.old.locks session) } }
        ensures count { result ≡ length self.new.locks.granted }
        ensures settled { IsSettled self.new.locks }
        ensures hands_on { HandsOn (released self.old.locks session) self.new.locks }
    {
        end_claims(session, &mut self.held, &mut self.waiting);
        walk_queues(
            &mut self.held,
            &mut self.waiting,
            &mut self.spare,
            &mut self.granted,
        );
        self.granted.len() as u32
    }

    /// Takes back the waiting request of a session, where it has one, and walks the queues. The answer is how many
    /// requests were granted.
    pub fn withdraw(&mut self, session: u32) -> u32
        requires { session < self.old.sessions }
        ensures locks { self.new ≡ record { sessions = self.old.sessions; locks = walked (withdrawn self.old.locks session) } }
        ensures count { result ≡ length self.new.locks.granted }
        ensures settled { IsSettled self.new.locks }
        ensures hands_on { HandsOn (withdrawn self.old.locks session) self.new.locks }
    {
        keep_others(session, &mut self.waiting);
        walk_queues(
            &mut self.held,
            &mut self.waiting,
            &mut self.spare,
            &mut self.granted,
        );
        self.granted.len() as u32
    }

    /// The request at a place among those that the last release or withdrawal granted, whose tables ascend.
    pub fn granted(&self, i: u32) -> Grant
        requires { i < length self.now.locks.granted }
        ensures { slice_get self.now.locks.granted i ≡ Some result }
    {
        self.granted[i as usize]
    }

    /// Whether a session holds a lock of a table in this mode.
    pub fn holds(&self, session: u32, table: u32, mode: Mode) -> bool
        requires { session < self.now.sessions }
        ensures { result ≡ holds self.now.locks session table mode }
    {
        any_like(session, table, mode, &self.held)
    }

    /// Whether a session waits, and another holds a lock or has a request ahead that makes it wait.
    pub fn blocked_by(&self, session: u32, other: u32) -> bool
        requires known { session < self.now.sessions }
        requires other_known { other < self.now.sessions }
        ensures { result ≡ blocked_by self.now.locks session other }
    {
        match position_of(session, &self.waiting) {
            Some(at) => {
                let request = self.waiting[at];
                any_of_session(other, request, &self.held)
                    || any_of_session(other, request, &self.waiting[..at])
            }
            None => false,
        }
    }
}

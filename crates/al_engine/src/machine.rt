//! What is kept of a run beside its blocks, and how statements and transactions end in it.
ghost use Rattle.std.specs.Prelude.{◌≡◌, ◌+◌, ◌<◌, ◌≤◌, ◌∷◌, ◌^◌, Some, None, true, false, length, slice_get, slice_set};
ghost use Rattle.al_history.specs.declared.entry.Entry.TheVariants.{Commit, Abort, Refuse, End};
ghost use Rattle.al_history.specs.Made.{row_entries};
ghost use Rattle.al_history.specs.Hand.{failed_at};
ghost use Rattle.al_history.specs.Past.{past_of};
ghost use Rattle.al_history.specs.Tail.{owed};
ghost use Rattle.al_history.specs.Whole.{driver, IsLeast, IsTurn};
ghost use Rattle.al_history.proofs.Turns.{Went};
ghost use Rattle.al_queue.specs.Walk.{walked, released};
ghost use Rattle.al_queue.specs.Settled.{IsSettled, HandsOn};
ghost use Rattle.al_engine.specs.LockTie.{locked_by, IsNoted};
ghost use Rattle.al_engine.specs.Sessions.{state_of, xact_in, woken, IsWakened, stopped, onward};
ghost use Rattle.al_engine.specs.Listed.{KeepsControls, IsAfter};
ghost use Rattle.al_engine.specs.Ran.{IsAborted};
ghost use Rattle.al_engine.specs.Kept.{parts_of, past_in, IsAmid, IsClear, IsKept, CanBeDone, CanBeRefused, IsRefused, used_by};

use crate::sessions::{Block, Session, SessionList};
use crate::stored::StoredTable;
use al_history::{Cause, Entry, History, Reply, Terms};
use al_queue::{Grant, LockTable};
use al_sessions::How;

/// What is kept of a run beside its blocks.
#[derive(Debug, Drop)]
pub struct Machine {
    /// The journal.
    pub journal: History,
    /// The sessions.
    pub sessions: SessionList,
    /// All that was ever made.
    pub tables: Vec<StoredTable>,
    /// The locks of tables, by session.
    pub locks: LockTable,
    /// For each place of the journal, whether the transaction of that place is committed.
    pub committed: Vec<bool>,
    /// What the entries of the journal weigh.
    pub weight: u64,
}

/// A session's locks become free, and its waiting request is taken back; the requests that can be granted then are, by ascending
/// table number.
fn end_claims(machine: &mut Machine, session: u32)
    requires known { session < machine.old.locks.sessions }
    requires room { length machine.old.locks.locks.waiting ≤ machine.old.journal.room }
    ensures locks { machine.new.locks ≡ record { sessions = machine.old.locks.sessions; locks = walked (released machine.old.locks.locks session) } }
    ensures past { past_in machine.new ≡ locked_by (xact_in machine.old.sessions.list) machine.new.locks.locks.granted (past_in machine.old) }
    ensures sessions { machine.new.sessions.list ≡ woken machine.new.locks.locks.granted machine.old.sessions.list }
    ensures controls { KeepsControls machine.old.sessions machine.new.sessions }
    ensures room { machine.new.journal.room + length machine.new.locks.locks.granted ≡ machine.old.journal.room }
    ensures tables { machine.new.tables.items ≡ machine.old.tables.items }
    ensures committed { machine.new.committed.items ≡ machine.old.committed.items }
    ensures weight { machine.new.weight ≡ machine.old.weight }
    ensures settled { IsSettled machine.new.locks.locks }
    ensures hands_on { HandsOn (released machine.old.locks.locks session) machine.new.locks.locks }
{
    let count = machine.locks.release(session);
    for i in 0..count {
        note_granted(machine, i);
    }
}

/// Notes the lock of the request that was granted at this place. Its session waits no more.
fn note_granted(machine: &mut Machine, i: u32)
    requires there { i < length machine.old.locks.locks.granted }
    requires room { 0 < machine.old.journal.room }
    ensures past { IsNoted (xact_in machine.old.sessions.list) (slice_get machine.old.locks.locks.granted i) (past_in machine.old) (past_in machine.new) }
    ensures sessions { IsWakened (slice_get machine.old.locks.locks.granted i) machine.old.sessions.list machine.new.sessions.list }
    ensures controls { KeepsControls machine.old.sessions machine.new.sessions }
    ensures locks { machine.new.locks ≡ machine.old.locks }
    ensures room { machine.new.journal.room + 1 ≡ machine.old.journal.room }
    ensures tables { machine.new.tables.items ≡ machine.old.tables.items }
    ensures committed { machine.new.committed.items ≡ machine.old.committed.items }
    ensures weight { machine.new.weight ≡ machine.old.weight }
{
    let Grant {
        session,
        table,
        mode,
    } = machine.locks.granted(i);
    let xact = machine.sessions.xact_of(session);
    machine.journal.note(Entry::Lock { xact, table, mode });
    machine.sessions.wake(session);
}

/// A session's open transaction is committed.
pub fn commit(machine: &mut Machine, session: u32, xact: u32)
    requires known { session < machine.old.locks.sessions }
    requires room { length machine.old.locks.locks.waiting + 1 ≤ machine.old.journal.room }
    requires marked { xact < length machine.old.committed.items }
    ensures locks { machine.new.locks ≡ record { sessions = machine.old.locks.sessions; locks = walked (released machine.old.locks.locks session) } }
    ensures past { past_in machine.new ≡ locked_by (xact_in machine.old.sessions.list) machine.new.locks.locks.granted (Commit xact ∷ past_in machine.old) }
    ensures sessions { machine.new.sessions.list ≡ woken machine.new.locks.locks.granted machine.old.sessions.list }
    ensures controls { KeepsControls machine.old.sessions machine.new.sessions }
    ensures room { machine.new.journal.room + length machine.new.locks.locks.granted + 1 ≡ machine.old.journal.room }
    ensures tables { machine.new.tables.items ≡ machine.old.tables.items }
    ensures committed { machine.new.committed.items ≡ slice_set machine.old.committed.items xact true }
    ensures weight { machine.new.weight ≡ machine.old.weight }
    ensures settled { IsSettled machine.new.locks.locks }
    ensures hands_on { HandsOn (released machine.old.locks.locks session) machine.new.locks.locks }
{
    machine.journal.note(Entry::Commit { xact });
    machine.committed[xact as usize] = true;
    end_claims(machine, session);
}

/// A session's open transaction is aborted.
pub fn abort(machine: &mut Machine, session: u32, xact: u32)
    requires known { session < machine.old.locks.sessions }
    requires room { length machine.old.locks.locks.waiting + 1 ≤ machine.old.journal.room }
    ensures locks { machine.new.locks ≡ record { sessions = machine.old.locks.sessions; locks = walked (released machine.old.locks.locks session) } }
    ensures past { past_in machine.new ≡ locked_by (xact_in machine.old.sessions.list) machine.new.locks.locks.granted (Abort xact ∷ past_in machine.old) }
    ensures sessions { machine.new.sessions.list ≡ woken machine.new.locks.locks.granted machine.old.sessions.list }
    ensures controls { KeepsControls machine.old.sessions machine.new.sessions }
    ensures room { machine.new.journal.room + length machine.new.locks.locks.granted + 1 ≡ machine.old.journal.room }
    ensures tables { machine.new.tables.items ≡ machine.old.tables.items }
    ensures committed { machine.new.committed.items ≡ machine.old.committed.items }
    ensures weight { machine.new.weight ≡ machine.old.weight }
    ensures settled { IsSettled machine.new.locks.locks }
    ensures hands_on { HandsOn (released machine.old.locks.locks session) machine.new.locks.locks }
{
    machine.journal.note(Entry::Abort { xact });
    end_claims(machine, session);
}

/// The statement in hand is done with this reply. The step goes on with the next one; after the last one it ends, and with it an
/// implicit transaction.
pub fn done(_terms: &Terms, machine: &mut Machine, session: u32, state: Session, reply: Reply)
    requires known { session < _terms.now.scripts.sessions }
    requires amid { IsAmid _terms.now (parts_of machine.old) session 0 }
    requires clear { IsClear _terms.now (past_in machine.old) }
    requires state { slice_get machine.old.sessions.list session ≡ Some state }
    requires done { CanBeDone _terms.now (past_in machine.old) session state reply }
    ensures kept { IsKept _terms.now (parts_of machine.new) }
    ensures rows { row_entries (past_in machine.new) ≡ row_entries (past_in machine.old) }
    ensures went { Went _terms.now session (past_in machine.old) (past_in machine.new) false (driver (past_in machine.old)) (IsLeast (past_in machine.old) session) }
{
    machine.journal.note(Entry::Done { session, reply });
    if state.left > 1 {
        let next = next_statement(state);
        machine.sessions.after(session, How::Done, next);
    } else if let (Block::Outside, Some(xact)) = (state.block, state.xact) {
        commit(machine, session, xact);
        let ended = Session {
            xact: None,
            ..state
        };
        end_step(machine, session, How::Done, ended);
    } else {
        end_step(machine, session, How::Done, state);
    }
}

/// The statement in hand is refused for this cause: its transaction is aborted, where one is open, its open block fails, and its
/// step ends.
pub fn refuse(_terms: &Terms, machine: &mut Machine, session: u32, state: Session, cause: Cause)
    requires known { session < _terms.now.scripts.sessions }
    requires amid { IsAmid _terms.now (parts_of machine.old) session (used_by cause) }
    requires state { slice_get machine.old.sessions.list session ≡ Some state }
    requires refused { CanBeRefused _terms.now (past_in machine.old) session state cause }
    ensures kept { IsKept _terms.now (parts_of machine.new) }
    ensures exact { IsRefused (past_in machine.old) (past_in machine.new) session state.xact cause }
    ensures went { Went _terms.now session (past_in machine.old) (past_in machine.new) true (driver (past_in machine.old)) (IsTurn (owed _terms.now (past_in machine.old)) (past_in machine.old) session) }
{
    let place = machine.journal.len();
    machine.journal.note(Entry::Refuse { session, cause });
    if let Some(xact) = state.xact {
        abort(machine, session, xact);
    }
    let aborted = Session {
        xact: None,
        block: failed(state.block, place),
        ..state
    };
    end_step(machine, session, How::Refused, aborted);
}

/// A block after a refusal at this place.
fn failed(block: Block, place: u32) -> Block
    ensures { state_of result ≡ failed_at place (state_of block) }
{
    match block {
        Block::Open => Block::Failed { refuse: place },
        other => other,
    }
}

/// The session once the statement in hand is done, and goes on with the next one.
pub fn next_statement(state: Session) -> Session
    requires more { 1 < state.left }
    requires few { state.done + state.left < 2 ^ 32 }
    ensures { result ≡ onward state state.xact state.block }
{
    Session {
        done: state.done + 1,
        left: state.left - 1,
        looked: false,
        wants: None,
        ..state
    }
}

/// The session once its step has ended.
fn stopped(state: Session) -> Session
    ensures { result ≡ stopped state state.xact state.block }
{
    Session {
        hand: None,
        done: 0,
        left: 0,
        looked: false,
        wants: None,
        ..state
    }
}

/// The step in hand ends, since its last statement is done or one is refused.
pub fn end_step(machine: &mut Machine, session: u32, how: How, state: Session)
    requires known { session < length machine.old.sessions.list }
    requires is_after { IsAfter how machine.old.sessions session (stopped state state.xact state.block) }
    requires room { 0 < machine.old.journal.room }
    ensures past { past_in machine.new ≡ End session ∷ past_in machine.old }
    ensures sessions { machine.new.sessions.list ≡ slice_set machine.old.sessions.list session (stopped state state.xact state.block) }
    ensures controls { KeepsControls machine.old.sessions machine.new.sessions }
    ensures room { machine.new.journal.room + 1 ≡ machine.old.journal.room }
    ensures tables { machine.new.tables.items ≡ machine.old.tables.items }
    ensures locks { machine.new.locks ≡ machine.old.locks }
    ensures committed { machine.new.committed.items ≡ machine.old.committed.items }
    ensures weight { machine.new.weight ≡ machine.old.weight }
{
    machine.journal.note(Entry::End { session });
    machine.sessions.after(session, how, stopped(state));
}

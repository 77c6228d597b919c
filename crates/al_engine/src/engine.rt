ghost use Rattle.std.specs.Prelude.{◌≡◌, ◌<◌, ◌≤◌, ◌+◌, max, ◌∷◌, [], false, None, Some, IfOk, IfErr, OnOk, OnErr, IfSome, is_some, length, slice_get, option_map};
ghost use Rattle.al_history.specs.declared.entry.Entry.TheVariants.{Give};
ghost use Rattle.al_history.specs.Past.{past_of};
ghost use Rattle.al_history.specs.Hand.{hand, in_hand, closed};
ghost use Rattle.al_history.specs.Made.{row_entries};
ghost use Rattle.al_engine.specs.Kept.{IsKept, IsSame, parts_of, past_in};
ghost use Rattle.al_engine.specs.Closing.{HasLeft};
ghost use Rattle.al_engine.specs.Giving.{IsTakenUp};
ghost use Rattle.al_engine.specs.Listed.{IsFree, controls_at};
ghost use Rattle.al_sessions.specs.Blocks.{controls_given};
ghost use Rattle.al_engine.specs.Sessions.{light, of_step};
ghost use Rattle.std.specs.Option.{option_copied};
ghost use Rattle.al_engine.specs.Ran.{Ran, IsLegalRun, AreOfSessions, IsBusyFor, IsTurned, ends_block, Cancels, IsClosed, IsReady};

use crate::machine::{Machine, abort, refuse};
use crate::sessions::{MOST_PLACES, Session, SessionList, step_light};
use crate::told::{Busy, Told};
use crate::turns::go_on;
use al_history::{Cause, Entry, History, Script, Scripts, Terms};
use al_queue::LockTable;
use al_values::{Cant, NoMemory, Steps, count_of};
use std::alloc::Global;
use std::marker::Model;
use std::sync::ledger::Ledger;

/// The sessions of one run, over a database that is empty at first. Contracts see its terms, which are the blocks that may be
/// given and the weight that the journal may have, and the past of the journal.
#[derive(Debug, Drop)]
pub struct Engine {
    terms: Terms,
    machine: Machine,
}

impl Model for Engine {
    ghost use Rattle.al_history.specs.Past.{past_of};
    ghost use Rattle.al_engine.specs.Ran.{Ran};
    ghost use Rattle.al_engine.specs.Kept.{IsKept, parts_of};

    ghost Value = { Ran };

    ghost view = { λ e. record { terms = e.terms; past = past_of e.machine.journal } };

    ghost invariant = { λ e. IsKept e.terms (parts_of e.machine) };
}

impl Engine {
    /// An empty database and an empty journal, whose entries may weigh so much; all sessions are open and have no step in hand.
    pub fn open(alloc: Global, scripts: Scripts, weight: u32) -> Result<Engine, NoMemory>
        requires { AreOfSessions scripts }
        ensures { IfOk result (λ engine. engine ≡ record { terms = record { scripts = scripts; weight = weight }; past = [] }) }
    {
        let mut journal = History::new(alloc);
        journal.reserve(scripts.sessions as usize)?;
        let sessions = SessionList::new(alloc, scripts.sessions)?;
        let locks = LockTable::new(alloc, scripts.sessions)?;
        Ok(Engine {
            terms: Terms { scripts, weight },
            machine: Machine {
                journal,
                sessions,
                tables: Vec::new(alloc),
                locks,
                committed: Vec::new(alloc),
                weight: 0,
            },
        })
    }

    /// Gives a block to its session. It is busy where it has a step in hand.
    pub fn give(&mut self, alloc: Global, session: u32, block: u32) -> Result<(), Cant<Busy>>
        requires known { session < self.old.terms.scripts.sessions }
        requires of_session { option_map (λ b. b.session) (slice_get self.old.terms.scripts.blocks block) ≡ Some session }
        requires not_closed { closed self.old.past session ≡ false }
        ensures ok { OnOk result (self.new ≡ record self.old { past = Give session block ∷ self.old.past }) }
        ensures idle { OnOk result (hand self.old.past session ≡ None) }
        ensures busy { IfErr result (IsBusyFor self.old session) }
        ensures err { OnErr result (self.new ≡ self.old) }
        ensures legal { IsLegalRun self.new }
    {
        let state = self.machine.sessions.get(session);
        if state.hand.is_some() {
            return Err(Cant::Why(Busy));
        }
        take_up(alloc, &self.terms, &mut self.machine, session, block)?;
        Ok(())
    }

    /// Goes on with the session's step in hand, and counts the row versions that it reads. A COMMIT or ROLLBACK takes no memory.
    pub fn turn<L: Ledger>(
        &mut self,
        alloc: Global,
        session: u32,
        steps: &mut Steps<L>,
    ) -> Result<Told, NoMemory>
        requires known { session < self.old.terms.scripts.sessions }
        ensures ok { IfOk result (IsTurned self.old self.new session) }
        ensures err { OnErr result (self.new ≡ self.old) }
        ensures light { OnErr result (ends_block (in_hand self.old.terms self.old.past session) ≡ false) }
        ensures counted { steps.old ≤ steps.new }
        ensures bounded { steps.new ≤ steps.old + row_entries self.old.past }
        ensures legal { IsLegalRun self.new }
    {
        let state = self.machine.sessions.get(session);
        if state.hand.is_none() {
            return Ok(Told::Idle);
        }
        if self.machine.sessions.is_held_up(state.wants) {
            return Ok(Told::Waits);
        }
        let from = self.machine.journal.len();
        let outcome = go_on(alloc, &self.terms, &mut self.machine, session, state, steps)?;
        let to = self.machine.journal.len();
        Ok(Told::Went { from, to, outcome })
    }

    /// The least session that can go on with a step in hand. It takes no memory.
    pub fn ready(&self) -> Option<u32>
        ensures is { IsReady self.now.past result }
        ensures known { IfSome result (λ session. session < self.now.terms.scripts.sessions) }
    {
        self.machine
            .sessions
            .first_ready(self.terms.scripts.sessions)
    }

    /// Whether the session has a step in hand. It takes no memory.
    pub fn is_busy(&self, session: u32) -> bool
        requires known { session < self.now.terms.scripts.sessions }
        ensures { result ≡ is_some (hand self.now.past session) }
    {
        self.machine.sessions.get(session).hand.is_some()
    }

    /// Ends the session's step in hand, where it has one, with 57014. It takes no memory.
    pub fn cancel(&mut self, session: u32)
        requires known { session < self.old.terms.scripts.sessions }
        ensures cancels { Cancels self.old self.new session (hand self.old.past session) }
        ensures legal { IsLegalRun self.new }
    {
        let state = self.machine.sessions.get(session);
        if state.hand.is_some() {
            let entry = self.machine.journal.len();
            self.machine.journal.note(Entry::Cancel { session });
            let cause = Cause::Cancelled { entry };
            refuse(&self.terms, &mut self.machine, session, state, cause);
        }
    }

    /// Closes a session that has no step in hand, and aborts its open transaction. It takes no memory.
    pub fn close_session(&mut self, session: u32)
        requires known { session < self.old.terms.scripts.sessions }
        requires idle { hand self.old.past session ≡ None }
        requires not_closed { closed self.old.past session ≡ false }
        ensures closes { IsClosed self.old self.new session }
        ensures legal { IsLegalRun self.new }
    {
        let state = self.machine.sessions.get(session);
        abort_open(&self.terms, &mut self.machine, session, state);
        self.machine.journal.note(Entry::Close { session });
        let closed = Session {
            xact: None,
            closed: true,
            ..state
        };
        self.machine.sessions.keep(session, closed);
    }

    /// The journal so far.
    pub fn history(&self) -> &History
        ensures { past_of result.now ≡ self.now.past }
    {
        &self.machine.journal
    }

    /// The journal of the run.
    pub fn close(self) -> History
        ensures is { past_of result ≡ self.past }
        ensures legal { IsLegalRun self }
    {
        self.finish().0
    }

    /// The journal of the run, and its blocks, for another run.
    pub fn finish(self) -> (History, Scripts)
        ensures is { past_of result.0 ≡ self.past }
        ensures scripts { result.1 ≡ self.terms.scripts }
        ensures legal { IsLegalRun self }
    {
        let Engine { terms, machine } = self;
        let Machine {
            journal,
            sessions: _,
            tables: _,
            locks: _,
            committed: _,
            weight: _,
        } = machine;
        let Terms { scripts, weight: _ } = terms;
        (journal, scripts)
    }
}

/// The block is the session's step in hand from now on, and the light entries of the step have their places.
fn take_up(
    alloc: Global,
    terms: &Terms,
    machine: &mut Machine,
    session: u32,
    block: u32,
) -> Result<(), NoMemory>
    requires known { session < length machine.old.sessions.list }
    requires idle { IsFree (slice_get machine.old.sessions.list session) }
    ensures ok { OnOk result (IsTakenUp terms.now machine.old machine.new session block) }
    ensures err { OnErr result (IsSame (parts_of machine.old) (parts_of machine.new)) }
{
    let script = script_of(terms, block);
    let statements = statements_in(script)?;
    reserve_step(
        &mut machine.journal,
        &machine.sessions,
        &machine.locks,
        statements,
    )?;
    machine.sessions.give(alloc, session, block, script)?;
    machine.journal.note(Entry::Give { session, block });
    Ok(())
}

/// The script of a block; none where its text is no script.
fn script_of(terms: &Terms, block: u32) -> Option<&Script>
    ensures { controls_given (option_copied result) ≡ controls_at terms.now block }
{
    match terms.scripts.blocks.get(block as usize) {
        Some(block) => match &block.script {
            Ok(script) => Some(script),
            Err(_) => None,
        },
        None => None,
    }
}

/// How many statements a script has, or a text that is none.
fn statements_in(script: Option<&Script>) -> Result<u32, NoMemory>
    ensures { IfOk result (λ count. count ≡ length (controls_given (option_copied script.entry))) }
{
    match script {
        Some(script) => count_of(script.len()),
        None => Ok(0),
    }
}

/// Reserves what is lacking for a Give and the light entries of its step, beside the light entries of all sessions and the locks
/// that wait.
fn reserve_step(
    journal: &mut History,
    sessions: &SessionList,
    locks: &LockTable,
    statements: u32,
) -> Result<(), NoMemory>
    ensures entries { journal.new.entries ≡ journal.old.entries }
    ensures ok { OnOk result (journal.new.room ≡ max journal.old.room (light sessions.now.list + length locks.now.locks.waiting + 1 + of_step None statements)) }
    ensures err { OnErr result (journal.new.room ≡ journal.old.room) }
{
    let Some(owed) = sessions.light() else {
        return Err(NoMemory);
    };
    let wanted = owed + u64::from(locks.waiting()) + 1 + step_light(None, statements);
    if wanted > MOST_PLACES {
        return Err(NoMemory);
    }
    let lacking = wanted.saturating_sub(journal.room() as u64);
    journal.reserve(lacking as usize)
}

/// The open transaction of an idle session is aborted, where it has one.
fn abort_open(_terms: &Terms, machine: &mut Machine, session: u32, state: Session)
    requires known { session < _terms.now.scripts.sessions }
    requires kept { IsKept _terms.now (parts_of machine.old) }
    requires state { slice_get machine.old.sessions.list session ≡ Some state }
    requires idle { hand (past_in machine.old) session ≡ None }
    requires not_closed { closed (past_in machine.old) session ≡ false }
    ensures { HasLeft _terms.now (parts_of machine.old) (parts_of machine.new) session state }
{
    if let Some(xact) = state.xact {
        abort(machine, session, xact);
    }
}

//! What is kept of each session.
ghost use Rattle.std.specs.Prelude.{◌≡◌, ◌<◌, ◌^◌, None, Some, IfOk, OnOk, OnErr, IfSome, IfNone, unwrap_or, option_and_then, length, map, replicate, slice_get, slice_set};
ghost use Rattle.std.specs.Option.{option_copied};
ghost use Rattle.std.specs.List.{list_any};
ghost use Rattle.al_history.specs.Fate.{is_that};
ghost use Rattle.al_sessions.specs.Blocks.{controls_given};
ghost use Rattle.al_engine.specs.Sessions.{idle_session, xact_in, xacts_in, light, light_of, of_step, is_open_in, is_held_up, wakened, IsFirstReady, AreStuck};
ghost use Rattle.al_engine.specs.declared.sessions.Beside.{Beside};
ghost use Rattle.al_engine.specs.Listed.{nothing_beside, block_in, hand_in, done_in, refuse_of, IsFree, IsGiven, KeepsControls, HasSameStep, IsAfter};

use al_history::{Script, Want};
use al_sessions::{BlockState, How, Next, Sessions};
use al_values::NoMemory;
use std::alloc::Global;
use std::marker::Model;

/// A journal has no more entries than these, and can't reserve more.
pub const MOST_PLACES: u64 = 4_294_967_295;

// The light entries of each statement of a step: a Start, the Refuse or the Done, and the end of the transaction.
const STATEMENT_LIGHT: u64 = 3;

// Those of the step itself: a Cancel and the End.
const STEP_LIGHT: u64 = 2;

// Those of a step without a statement: a Cancel, its Refuse and the End.
const FEWEST_LIGHT: u64 = 3;

/// A session's transaction block.
#[derive(Clone, Copy, Debug, PartialEq, Eq)]
pub enum Block {
    /// None.
    Outside,
    /// One is open.
    Open,
    /// One has failed, by the Refuse at this place of the journal.
    Failed {
        /// The place.
        refuse: u32,
    },
}

/// A session.
#[derive(Clone, Copy, Debug, PartialEq, Eq)]
pub struct Session {
    /// The block of the script of its step in hand.
    pub hand: Option<u32>,
    /// How many of its statements are done.
    pub done: u32,
    /// How many aren't done yet, the one in hand among them.
    pub left: u32,
    /// Its open transaction.
    pub xact: Option<u32>,
    /// Its transaction block.
    pub block: Block,
    /// Whether the statement in hand has looked.
    pub looked: bool,
    /// What its last entry waits for, where that is a Wait.
    pub wants: Option<Want>,
    /// Whether it is closed.
    pub closed: bool,
}

/// What is kept of a session beside its step in hand and the state of its block.
#[derive(Clone, Copy, Debug, PartialEq, Eq)]
pub struct Beside {
    /// The block of the script of its last step.
    pub block: u32,
    /// The place of the last Refuse by which its block failed.
    pub refuse: u32,
    /// Its open transaction.
    pub xact: Option<u32>,
    /// Whether the statement in hand has looked.
    pub looked: bool,
    /// What its last entry waits for, where that is a Wait.
    pub wants: Option<Want>,
    /// Whether it is closed.
    pub closed: bool,
}

/// All sessions: their steps in hand and the states of their blocks, and what is kept beside. Contracts see a list of the sessions,
/// and for each what the statements of its step do to its block.
#[derive(Debug, Drop)]
pub struct SessionList {
    steps: Sessions,
    beside: Vec<Beside>,
}

impl Model for SessionList {
    ghost use Rattle.std.specs.Prelude.{◌≡◌, length};
    ghost use Rattle.al_engine.specs.Listed.{Listed, listed};

    ghost Value = { Listed };

    ghost view = { λ l. listed l.steps l.beside.items };

    ghost invariant = { λ l. length l.steps ≡ length l.beside.items };
}

impl SessionList {
    /// So many sessions that are open and have no step in hand.
    pub fn new(alloc: Global, count: u32) -> Result<SessionList, NoMemory>
        ensures { IfOk result (λ sessions. sessions.list ≡ replicate count idle_session) }
    {
        let steps = Sessions::new(alloc, count)?;
        let beside = all_beside(alloc, count)?;
        Ok(SessionList { steps, beside })
    }

    /// One of the sessions.
    pub fn get(&self, session: u32) -> Session
        requires known { session < length self.now.list }
        ensures { slice_get self.now.list session ≡ Some result }
    {
        let beside = self.beside[session as usize];
        let next = self.steps.next(session);
        Session {
            hand: hand_in(next, beside.block),
            done: done_in(next),
            left: self.steps.left(session),
            xact: beside.xact,
            block: block_in(self.steps.state(session), beside.refuse),
            looked: beside.looked,
            wants: beside.wants,
            closed: beside.closed,
        }
    }

    /// Puts a block into a session's hand, which has this script or is none.
    pub fn give(
        &mut self,
        alloc: Global,
        session: u32,
        block: u32,
        script: Option<&Script>,
    ) -> Result<(), NoMemory>
        requires known { session < length self.old.list }
        requires idle { IsFree (slice_get self.old.list session) }
        ensures ok { OnOk result (IsGiven self.old self.new session block (controls_given (option_copied script.entry))) }
        ensures err { OnErr result (self.new ≡ self.old) }
    {
        self.steps.give(alloc, session, script)?;
        let beside = &mut self.beside[session as usize];
        beside.block = block;
        beside.looked = false;
        beside.wants = None;
        Ok(())
    }

    /// The statement in hand of a session is done, or refused. This is the session then.
    pub fn after(&mut self, session: u32, how: How, state: Session)
        requires known { session < length self.old.list }
        requires is_after { IsAfter how self.old session state }
        ensures list { self.new.list ≡ slice_set self.old.list session state }
        ensures controls { KeepsControls self.old self.new }
    {
        self.steps.after(session, how);
        let beside = &mut self.beside[session as usize];
        beside.refuse = refuse_of(state.block, beside.refuse);
        beside.xact = state.xact;
        beside.looked = state.looked;
        beside.wants = state.wants;
    }

    /// This is a session from now on, but for its step and its block, which stay.
    pub fn keep(&mut self, session: u32, state: Session)
        requires known { session < length self.old.list }
        requires same_step { HasSameStep (slice_get self.old.list session) state }
        ensures list { self.new.list ≡ slice_set self.old.list session state }
        ensures controls { KeepsControls self.old self.new }
    {
        let beside = &mut self.beside[session as usize];
        beside.xact = state.xact;
        beside.looked = state.looked;
        beside.wants = state.wants;
        beside.closed = state.closed;
    }

    /// A session waits no more.
    pub fn wake(&mut self, session: u32)
        ensures list { self.new.list ≡ wakened session self.old.list }
        ensures controls { KeepsControls self.old self.new }
    {
        if (session as usize) < self.beside.len() {
            self.beside[session as usize].wants = None;
        }
    }

    /// The open transaction of a session, 0 where it has none.
    #[tactic(auto, using(crate::proofs::Joined::xact_joined))]
    pub fn xact_of(&self, session: u32) -> u32
        ensures { result ≡ xact_in self.now.list session }
    {
        xact_beside(&self.beside, session)
    }

    /// The sessions' open transactions.
    pub fn open_xacts(&self, alloc: Global) -> Result<Vec<Option<u32>>, NoMemory>
        ensures { IfOk result (λ xacts. xacts.items ≡ xacts_in self.now.list) }
    {
        xacts_beside(alloc, &self.beside)
    }

    /// Whether somebody holds up what is wanted: a lock is always held up while it is waited for, since it is granted as soon as it
    /// can be, and the end of a transaction while one of the sessions has it open.
    #[tactic(auto, using(crate::proofs::Joined::open_joined))]
    pub fn is_held_up(&self, wants: Option<Want>) -> bool
        ensures { result ≡ is_held_up self.now.list wants }
    {
        match wants {
            None => false,
            Some(Want::Table { .. }) => true,
            Some(Want::Ends { xact }) => is_open_beside(&self.beside, xact),
        }
    }

    /// How many light entries are owed to the sessions, where that isn't more than a journal can have.
    pub fn light(&self) -> Option<u64>
        ensures { IfSome result (λ count. (count ≡ light self.now.list) × (count < 2 ^ 32)) }
    {
        let mut count: u64 = 0;
        for at in 0..self.steps.sessions() {
            count += light_of(self.get(at));
            if count > MOST_PLACES {
                return None;
            }
        }
        Some(count)
    }

    /// The first of so many sessions that has a step in hand and isn't held up.
    pub fn first_ready(&self, count: u32) -> Option<u32>
        requires { count ≡ length self.now.list }
        ensures some { IfSome result (λ at. IsFirstReady self.now.list at) }
        ensures none { IfNone result (AreStuck self.now.list (length self.now.list)) }
    {
        for at in 0..count {
            let state = self.get(at);
            if state.hand.is_some() && !self.is_held_up(state.wants) {
                return Some(at);
            }
        }
        None
    }
}

/// How many light entries are owed to a session.
fn light_of(state: Session) -> u64
    ensures { result ≡ light_of state }
{
    let close = u64::from(!state.closed);
    let end = u64::from(state.xact.is_some());
    let step = match state.hand {
        None => 0,
        Some(_) => step_light(state.xact, state.left),
    };
    close + end + step
}

/// How many light entries are owed to a step that has so many statements left, in this open transaction where there is one.
pub fn step_light(xact: Option<u32>, left: u32) -> u64
    ensures { result ≡ of_step xact left }
{
    let statements = STATEMENT_LIGHT * u64::from(left);
    match xact {
        None => FEWEST_LIGHT.max(statements + STEP_LIGHT),
        Some(_) => FEWEST_LIGHT.max(statements),
    }
}

/// What is kept of so many open sessions beside their steps.
fn all_beside(alloc: Global, count: u32) -> Result<Vec<Beside>, NoMemory>
    ensures { IfOk result (λ beside. beside.items ≡ replicate count nothing_beside) }
{
    let mut beside = Vec::with_capacity(alloc, count as usize)?;
    for _session in 0..count {
        beside.push(Beside {
            block: 0,
            refuse: 0,
            xact: None,
            looked: false,
            wants: None,
            closed: false,
        })?;
    }
    Ok(beside)
}

/// The open transaction of a session, 0 where it has none.
fn xact_beside(sessions: &[Beside], session: u32) -> u32
    ensures { result ≡ unwrap_or (option_and_then (λ (beside : Beside). beside.xact) (slice_get sessions.now session)) 0 }
{
    match sessions.get(session as usize) {
        Some(beside) => beside.xact.unwrap_or(0),
        None => 0,
    }
}

/// Whether one of the sessions has the transaction open.
fn is_open_beside(sessions: &[Beside], xact: u32) -> bool
    ensures { result ≡ list_any (λ (beside : Beside). is_that beside.xact xact) sessions.now }
{
    sessions.iter().any(|beside| beside.xact == Some(xact))
}

/// The open transactions.
fn xacts_beside(alloc: Global, sessions: &[Beside]) -> Result<Vec<Option<u32>>, NoMemory>
    ensures { IfOk result (λ xacts. xacts.items ≡ map (λ (beside : Beside). beside.xact) sessions.now) }
{
    let mut xacts = Vec::with_capacity(alloc, sessions.len())?;
    for beside in sessions {
        xacts.push(beside.xact)?;
    }
    Ok(xacts)
}

/// The block of the step that is in hand.
fn hand_in(next: Next, block: u32) -> Option<u32>
    ensures { result ≡ hand_in next block }
{
    match next {
        Next::Idle => None,
        Next::Run { .. } | Next::Finish => Some(block),
    }
}

/// How many statements of the step in hand are done.
fn done_in(next: Next) -> u32
    ensures { result ≡ done_in next }
{
    match next {
        Next::Run { statement } => statement,
        Next::Idle | Next::Finish => 0,
    }
}

/// A transaction block in this state, which has failed by this Refuse where it has failed.
fn block_in(state: BlockState, refuse: u32) -> Block
    ensures { result ≡ block_in state refuse }
{
    match state {
        BlockState::Outside => Block::Outside,
        BlockState::Open => Block::Open,
        BlockState::Failed => Block::Failed { refuse },
    }
}

/// The place of the Refuse by which a block has failed, else the one before.
fn refuse_of(block: Block, before: u32) -> u32
    ensures { result ≡ refuse_of block before }
{
    match block {
        Block::Failed { refuse } => refuse,
        Block::Outside | Block::Open => before,
    }
}

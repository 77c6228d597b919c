ghost use Rattle.std.specs.Prelude.{◌≡◌, ◌<◌, None, IsSome, is_none, IfOk, OnOk, OnErr, length, replicate, slice_set};
ghost use Rattle.std.specs.Option.{option_map_or, option_copied};
ghost use Rattle.al_sessions.specs.Blocks.{controls_given};
ghost use Rattle.al_sessions.specs.Steps.{at_rest, progress_of, given, left_of, next_of, after, ending_of};

use crate::{BlockState, ControlList, Ending, How, InStep, Next, Progress, step};
use al_history::Script;
use al_values::NoMemory;
use std::alloc::Global;
use std::marker::Model;

/// The step that each session has in hand, and its transaction block. Sessions count from 0.
#[derive(Debug, Drop)]
pub struct Sessions {
    sessions: Vec<Progress>,
}

impl Model for Sessions {
    ghost use Rattle.std.specs.Prelude.{List, ◌<◌, ◌^◌, length};
    ghost use Rattle.al_sessions.specs.declared.step.Progress.{Progress};

    ghost Value = { List Progress };

    ghost view = { λ s. s.sessions.items };

    ghost invariant = { λ s. length s.sessions.items < 2 ^ 32 };
}

impl Sessions {
    /// So many sessions, each without a step and outside a block.
    ///
    /// # Errors
    ///
    /// Want of memory.
    pub fn new(alloc: Global, sessions: u32) -> Result<Sessions, NoMemory>
        ensures { IfOk result (λ s. s ≡ replicate sessions at_rest) }
    {
        let mut list = Vec::with_capacity(alloc, sessions as usize)?;
        for _ in 0..sessions {
            list.push(Progress {
                step: None,
                state: BlockState::Outside,
            })?;
        }
        Ok(Sessions { sessions: list })
    }

    /// How many sessions there are.
    pub fn sessions(&self) -> u32
        ensures { result ≡ length self.now }
    {
        self.sessions.len() as u32
    }

    /// Whether a session has no step in hand.
    pub fn is_idle(&self, session: u32) -> bool
        requires { session < length self.now }
        ensures { result ≡ is_none (progress_of self.now session).step }
    {
        self.sessions[session as usize].step.is_none()
    }

    /// Puts a step in hand: a block's statements, or none where it is no script.
    ///
    /// # Errors
    ///
    /// Want of memory. Then nothing has changed.
    pub fn give(
        &mut self,
        alloc: Global,
        session: u32,
        script: Option<&Script>,
    ) -> Result<(), NoMemory>
        requires known { session < length self.old }
        requires free { (progress_of self.old session).step ≡ None }
        ensures ok { OnOk result (self.new ≡ slice_set self.old session (given (controls_given (option_copied script.entry)) (progress_of self.old session))) }
        ensures err { OnErr result (self.new ≡ self.old) }
    {
        let controls = ControlList::of_block(alloc, script)?;
        let progress = &mut self.sessions[session as usize];
        progress.step = Some(InStep { controls, done: 0 });
        Ok(())
    }

    /// What a session does next.
    pub fn next(&self, session: u32) -> Next
        requires { session < length self.now }
        ensures { result ≡ next_of (progress_of self.now session).step }
    {
        step::next_of(&self.sessions[session as usize])
    }

    /// How many statements of a session's step aren't done; 0 where it has none in hand.
    pub fn left(&self, session: u32) -> u32
        requires { session < length self.now }
        ensures { result ≡ option_map_or left_of (progress_of self.now session).step 0 }
    {
        match &self.sessions[session as usize].step {
            Some(step) => step::left_of(step),
            None => 0,
        }
    }

    /// The statement in hand went so, or the step, where it has no statement left. A refusal ends the step, and drops its
    /// later statements.
    pub fn after(&mut self, session: u32, how: How) -> Ending
        requires known { session < length self.old }
        requires in_hand { IsSome (progress_of self.old session).step }
        ensures sessions { self.new ≡ slice_set self.old session (after how (progress_of self.old session)) }
        ensures ending { result ≡ ending_of how (progress_of self.old session) }
    {
        step::after(&mut self.sessions[session as usize], how)
    }

    /// A session's transaction block.
    pub fn state(&self, session: u32) -> BlockState
        requires { session < length self.now }
        ensures { result ≡ (progress_of self.now session).state }
    {
        self.sessions[session as usize].state
    }
}

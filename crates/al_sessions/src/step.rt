ghost use Rattle.std.specs.Prelude.{◌≡◌};
ghost use Rattle.al_sessions.specs.Steps.{next_of, left_of, state_on, step_on, after, after_done, after_refused, ending_in, ending_of};

use crate::block::{failed, moved};
use crate::{BlockState, ControlList};

/// What a session does next.
#[derive(Clone, Copy, Debug, PartialEq, Eq)]
pub enum Next {
    /// Nothing: it has no step in hand.
    Idle,
    /// It runs a statement of its step.
    Run {
        /// The statement's number in the block, from 0.
        statement: u32,
    },
    /// Its step has no statement left, and ends.
    Finish,
}

/// How a statement went, or a step that has none left.
#[derive(Clone, Copy, Debug, PartialEq, Eq)]
pub enum How {
    /// It is done.
    Done,
    /// It was refused.
    Refused,
}

/// What becomes of the step and of the transaction.
#[derive(Clone, Copy, Debug, PartialEq, Eq)]
pub enum Ending {
    /// The step goes on with its next statement.
    Goes,
    /// The step ends outside a block, and the implicit transaction, where one is open, commits with it.
    Commits,
    /// The step ends by a refusal, and the open transaction, where there is one, is aborted.
    Aborts,
    /// The step ends in a block, whose transaction stays as it is.
    Ends,
}

/// A step in hand.
#[derive(Debug, Drop)]
pub struct InStep {
    /// What each of its statements does to the block.
    pub controls: ControlList,
    /// How many of them are done.
    pub done: u32,
}

/// How far a session is.
#[derive(Debug, Drop)]
pub struct Progress {
    /// Its step in hand.
    pub step: Option<InStep>,
    /// Its transaction block.
    pub state: BlockState,
}

/// What comes next in a step.
fn next_in(step: &InStep) -> Next
    ensures { result ≡ next_of (Some step.now) }
{
    if step.done < step.controls.len() {
        Next::Run {
            statement: step.done,
        }
    } else {
        Next::Finish
    }
}

/// What a session does next.
pub fn next_of(progress: &Progress) -> Next
    ensures { result ≡ next_of progress.now.step }
{
    match &progress.step {
        Some(step) => next_in(step),
        None => Next::Idle,
    }
}

/// How many statements of a step aren't done.
pub fn left_of(step: &InStep) -> u32
    ensures { result ≡ left_of step.now }
{
    step.controls.len().saturating_sub(step.done)
}

/// The block once the statement in hand is done.
fn state_on(step: &InStep, state: BlockState) -> BlockState
    ensures { result ≡ state_on step.now state }
{
    match step.controls.get(step.done) {
        Some(control) => moved(control, state),
        None => state,
    }
}

/// The step once the statement in hand is done.
fn step_on(step: InStep) -> Option<InStep>
    ensures { result ≡ step_on step }
{
    let InStep { controls, done } = step;
    if done < controls.len() && done + 1 < controls.len() {
        return Some(InStep {
            controls,
            done: done + 1,
        });
    }
    None
}

/// What becomes of a transaction at its step's end.
fn ending_in(state: BlockState) -> Ending
    ensures { result ≡ ending_in state }
{
    match state {
        BlockState::Outside => Ending::Commits,
        BlockState::Open | BlockState::Failed => Ending::Ends,
    }
}

/// The statement in hand is done, or the step that has none left.
fn done(progress: &mut Progress) -> Ending
    ensures progress { progress.new ≡ after_done progress.old }
    ensures ending { result ≡ ending_of How.Done progress.old }
{
    if let Some(step) = progress.step.take() {
        progress.state = state_on(&step, progress.state);
        progress.step = step_on(step);
    }
    match progress.step {
        Some(_) => Ending::Goes,
        None => ending_in(progress.state),
    }
}

/// The statement in hand is refused, or the step.
fn refused(progress: &mut Progress) -> Ending
    ensures progress { progress.new ≡ after_refused progress.old }
    ensures ending { result ≡ ending_of How.Refused progress.old }
{
    progress.step = None;
    progress.state = failed(progress.state);
    Ending::Aborts
}

/// The statement in hand went so.
pub fn after(progress: &mut Progress, how: How) -> Ending
    ensures progress { progress.new ≡ after how progress.old }
    ensures ending { result ≡ ending_of how progress.old }
{
    match how {
        How::Done => done(progress),
        How::Refused => refused(progress),
    }
}

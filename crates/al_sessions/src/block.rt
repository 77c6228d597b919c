ghost use Rattle.std.specs.Prelude.{◌≡◌, ◌<◌, ◌^◌, IfOk, length, map, take, slice_get};
ghost use Rattle.std.specs.Option.{option_copied};
ghost use Rattle.al_sessions.specs.Blocks.{control_of, controls_of, controls_given, moved, failed};

use al_history::{Script, Statement};
use al_values::NoMemory;
use std::alloc::Global;
use std::marker::Model;

/// What a statement does to the transaction block of its session (3.4).
#[derive(Clone, Copy, Debug, PartialEq, Eq)]
pub enum Control {
    /// It opens one: BEGIN.
    Begins,
    /// It ends it: COMMIT and ROLLBACK.
    EndsBlock,
    /// Nothing.
    Other,
}

/// The transaction block of a session (3.4).
#[derive(Clone, Copy, Debug, PartialEq, Eq)]
pub enum BlockState {
    /// There is none.
    Outside,
    /// It is open.
    Open,
    /// A refusal found it open; it is failed until COMMIT or ROLLBACK.
    Failed,
}

/// What each statement of a step does to the block, in order. There are fewer than 2^32.
#[derive(Debug, Drop)]
pub struct ControlList {
    items: Vec<Control>,
}

impl Model for ControlList {
    ghost use Rattle.std.specs.Prelude.{List, ◌<◌, ◌^◌, length};
    ghost use Rattle.std.specs.Coded.{coded_list};
    ghost use Rattle.al_sessions.specs.declared.block.Control.{Control};

    ghost Value = { List Control };

    ghost view = { λ l. l.items.items };

    ghost invariant = { λ l. length l.items.items < 2 ^ 32 };
}

impl ControlList {
    /// Those of the statements of a block of a spec file; none where it is no script.
    ///
    /// # Errors
    ///
    /// Want of memory.
    pub fn of_block(alloc: Global, script: Option<&Script>) -> Result<ControlList, NoMemory>
        ensures { IfOk result (λ l. l ≡ controls_given (option_copied script.entry)) }
    {
        let items = match script {
            Some(script) => controls_of(alloc, script)?,
            None => Vec::new(alloc),
        };
        if items.len() > u32::MAX as usize {
            return Err(NoMemory);
        }
        Ok(ControlList { items })
    }

    /// How many there are.
    pub fn len(&self) -> u32
        ensures { result ≡ length self.now }
    {
        self.items.len() as u32
    }

    /// The one at a place, where there is one.
    pub fn get(&self, at: u32) -> Option<Control>
        ensures { result ≡ slice_get self.now at }
    {
        self.items.get(at as usize).copied()
    }
}

/// What a statement does to the block.
fn control_of(statement: &Statement) -> Control
    ensures { result ≡ control_of statement.now }
{
    match statement {
        Statement::Begin => Control::Begins,
        Statement::Commit | Statement::Rollback => Control::EndsBlock,
        _ => Control::Other,
    }
}

fn controls_of(alloc: Global, script: &Script) -> Result<Vec<Control>, NoMemory>
    ensures { IfOk result (λ controls. controls.items ≡ controls_of script.now) }
{
    let mut controls = Vec::with_capacity(alloc, script.len())?;
    for statement in script.as_slice() {
        controls.push(control_of(statement))?;
    }
    Ok(controls)
}

/// The block once a statement is done.
pub fn moved(control: Control, state: BlockState) -> BlockState
    ensures { result ≡ moved control state }
{
    match control {
        Control::Begins => match state {
            BlockState::Outside => BlockState::Open,
            BlockState::Open | BlockState::Failed => state,
        },
        Control::EndsBlock => BlockState::Outside,
        Control::Other => state,
    }
}

/// The block once a statement is refused.
pub fn failed(state: BlockState) -> BlockState
    ensures { result ≡ failed state }
{
    match state {
        BlockState::Open => BlockState::Failed,
        BlockState::Outside | BlockState::Failed => state,
    }
}

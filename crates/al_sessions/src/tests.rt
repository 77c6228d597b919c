use crate::{BlockState, Control, Ending, How, Next, Sessions};
use al_history::{Script, Statement};
use al_values::{Name, NoMemory};
use std::alloc::Global;
use std::process::Abort;
use std::test::Fail;

// What comes next, how it goes, what becomes of the step and how the block then is.
type Turn = (Next, How, Ending, BlockState);

// A block, by what its statements do, or none where it is no script; and its turns.
struct Step<'a> {
    block: Option<&'a [Control]>,
    turns: &'a [Turn],
}

fn statement(alloc: Global, control: Control) -> Statement {
    match control {
        Control::Begins => Statement::Begin,
        Control::EndsBlock => Statement::Commit,
        Control::Other => Statement::Select {
            table: Name::from_string(String::new(alloc)),
        },
    }
}

fn script(alloc: Global, controls: &[Control]) -> Result<Script, NoMemory> {
    let mut script = Script::new(alloc);
    for control in controls {
        script.push(statement(alloc, *control))?;
    }
    Ok(script)
}

fn give(
    rt: &impl Abort,
    alloc: Global,
    sessions: &mut Sessions,
    block: Option<&[Control]>,
) -> Result<(), Fail> {
    assert!(rt; 1 < sessions.sessions());
    assert!(rt; sessions.is_idle(1));
    match block {
        Some(controls) => {
            let script = script(alloc, controls)?;
            sessions.give(alloc, 1, Some(&script))?;
            assert!(rt; 1 < sessions.sessions());
            assert_eq!(rt; sessions.left(1) as usize, controls.len());
        }
        None => sessions.give(alloc, 1, None)?,
    }
    Ok(())
}

fn take(rt: &impl Abort, sessions: &mut Sessions, turn: Turn) {
    let (next, how, ending, state) = turn;
    assert!(rt; 1 < sessions.sessions());
    assert_eq!(rt; sessions.next(1), next);
    assert!(rt; !sessions.is_idle(1));
    let told = sessions.after(1, how);
    assert_eq!(rt; told, ending);
    assert!(rt; 1 < sessions.sessions());
    assert_eq!(rt; sessions.state(1), state);
}

// Blocks given one after the other to a session, which begins outside a block.
const STEPS: [Step<'static>; 8] = [
    // INSERT; INSERT.
    Step {
        block: Some(&[Control::Other, Control::Other]),
        turns: &[
            (
                Next::Run { statement: 0 },
                How::Done,
                Ending::Goes,
                BlockState::Outside,
            ),
            (
                Next::Run { statement: 1 },
                How::Done,
                Ending::Commits,
                BlockState::Outside,
            ),
        ],
    },
    // BEGIN; INSERT; COMMIT; BEGIN; SELECT.
    Step {
        block: Some(&[
            Control::Begins,
            Control::Other,
            Control::EndsBlock,
            Control::Begins,
            Control::Other,
        ]),
        turns: &[
            (
                Next::Run { statement: 0 },
                How::Done,
                Ending::Goes,
                BlockState::Open,
            ),
            (
                Next::Run { statement: 1 },
                How::Done,
                Ending::Goes,
                BlockState::Open,
            ),
            (
                Next::Run { statement: 2 },
                How::Done,
                Ending::Goes,
                BlockState::Outside,
            ),
            (
                Next::Run { statement: 3 },
                How::Done,
                Ending::Goes,
                BlockState::Open,
            ),
            (
                Next::Run { statement: 4 },
                How::Done,
                Ending::Ends,
                BlockState::Open,
            ),
        ],
    },
    // No statement, in an open block.
    Step {
        block: Some(&[]),
        turns: &[(Next::Finish, How::Done, Ending::Ends, BlockState::Open)],
    },
    // A refusal in the middle of an open block.
    Step {
        block: Some(&[Control::Other, Control::Other, Control::Other]),
        turns: &[
            (
                Next::Run { statement: 0 },
                How::Done,
                Ending::Goes,
                BlockState::Open,
            ),
            (
                Next::Run { statement: 1 },
                How::Refused,
                Ending::Aborts,
                BlockState::Failed,
            ),
        ],
    },
    // No script, in a failed block.
    Step {
        block: None,
        turns: &[(
            Next::Finish,
            How::Refused,
            Ending::Aborts,
            BlockState::Failed,
        )],
    },
    // COMMIT ends the failed block; the next statement is a transaction of its own.
    Step {
        block: Some(&[Control::EndsBlock, Control::Other]),
        turns: &[
            (
                Next::Run { statement: 0 },
                How::Done,
                Ending::Goes,
                BlockState::Outside,
            ),
            (
                Next::Run { statement: 1 },
                How::Done,
                Ending::Commits,
                BlockState::Outside,
            ),
        ],
    },
    // A refusal in an implicit transaction.
    Step {
        block: Some(&[Control::Other, Control::Begins]),
        turns: &[(
            Next::Run { statement: 0 },
            How::Refused,
            Ending::Aborts,
            BlockState::Outside,
        )],
    },
    // INSERT; BEGIN: the implicit transaction becomes an open block.
    Step {
        block: Some(&[Control::Other, Control::Begins]),
        turns: &[
            (
                Next::Run { statement: 0 },
                How::Done,
                Ending::Goes,
                BlockState::Outside,
            ),
            (
                Next::Run { statement: 1 },
                How::Done,
                Ending::Ends,
                BlockState::Open,
            ),
        ],
    },
];

#[test]
fn blocks_in_turn(rt: HostRuntime) -> Result<(), Fail> {
    let alloc = rt.alloc();
    let mut sessions = Sessions::new(alloc, 3)?;
    for step in &STEPS {
        give(&rt, alloc, &mut sessions, step.block)?;
        for turn in step.turns {
            take(&rt, &mut sessions, *turn);
        }
    }
    assert_eq!(rt; sessions.sessions(), 3);
    assert_eq!(rt; sessions.next(1), Next::Idle);
    assert_eq!(rt; sessions.left(1), 0);
    // The others are as they were.
    assert_eq!(rt; sessions.next(0), Next::Idle);
    assert_eq!(rt; sessions.state(2), BlockState::Outside);
    Ok(())
}

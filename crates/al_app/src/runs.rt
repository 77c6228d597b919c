//! The runs of a spec file: what the driver gives to the engine, and in which order.
ghost use Rattle.std.specs.Prelude.{◌≡◌, ℕ, ◌<◌, ◌≤◌, ◌+◌, ◌++◌, [], false, None, Some, length, slice_get, option_map, IfOk, OnOk};
ghost use Rattle.al_history.specs.declared.run.Setup.TheVariants as setups;
ghost use Rattle.al_history.specs.Hand.{hand, closed};
ghost use Rattle.al_history.specs.Whole.{IsLeast, is_setup, each_block};
ghost use Rattle.al_engine.specs.Ran.{Ran, IsLegalRun, IsTurned};
ghost use Rattle.al_engine.specs.Outcomes.{is_refused};
ghost use Rattle.al_spec.specs.Keeps.{Each};
ghost use Rattle.al_spec.specs.Sound.{IsStepAt};
ghost use Rattle.al_app.specs.Runs.{journal_weight, IsRunnable, HasTurned, IsDriven, IsAtRest, HasRunBlock, CancelsIfBusy, IsNoneBusy, HasRunWhole, SetupRan, SetupSoFar, SetupGoesOn, StepsRan, SessionsCancelled, is_of, AreOpenFor, tasks_from, TeardownsRan, SessionsClosed, IsEnded, HasRunOne};

use al_engine::{Busy, Engine, Outcome, Told};
use al_history::{Block, Part, Run, Scripts, Setup, Spec};
use al_values::{Cant, NoMemory, Steps, count_of};
use std::alloc::Global;
use std::marker::Brand;
use std::sync::ledger::{Blank, Ledger};

/// The most that the journals of a call may weigh together.
const MOST_WEIGHT: usize = 8_000_000;
/// The fewest runs among which that is divided.
const LEAST_SHARES: usize = 4;

/// Teardown blocks of one kind.
#[derive(Clone, Copy, Debug)]
pub enum Teardowns {
    /// Those of the sessions.
    OfSessions,
    /// The main one, in the control session.
    Main,
}

/// The most that the journal of each run of a spec may weigh.
fn journal_weight(spec: &Spec) -> u32
    ensures { result ≡ journal_weight spec.now }
{
    (MOST_WEIGHT / spec.permutations.len().max(LEAST_SHARES)) as u32
}

/// A turn whose steps go to a counter of their own, which nobody reads.
fn turn_uncounted<L: Ledger>(
    alloc: Global,
    engine: &mut Engine,
    session: u32,
    blank: Blank,
) -> Result<Told, NoMemory>
    requires name { blank.name ≡ L.name }
    requires parts { blank.parts ≡ L.parts }
    requires some { 0 < blank.parts }
    requires known { session < engine.old.terms.scripts.sessions }
    ensures turned { IfOk result (IsTurned engine.old engine.new session) }
    ensures legal { IsLegalRun engine.new }
{
    let mut steps = Steps::<L>::new(blank);
    engine.turn(alloc, session, &mut steps)
}

/// Goes on with the step in hand of the least session that can go on. It tells what became of its statement.
fn take_turn(alloc: Global, engine: &mut Engine, session: u32) -> Result<Outcome, NoMemory>
    requires known { session < engine.old.terms.scripts.sessions }
    requires least { IsLeast engine.old.past session }
    ensures { IfOk result (λ outcome. HasTurned engine.old engine.new (is_refused outcome)) }
{
    match turn_uncounted::<Brand>(alloc, engine, session, Blank::new(1))? {
        Told::Went {
            from: _,
            to: _,
            outcome,
        } => Ok(outcome),
        Told::Waits => unreachable!(),
        Told::Idle => unreachable!(),
    }
}

/// Goes on with the steps in hand until no session can go on. It tells what became of them: a refusal where one was refused.
fn drive(alloc: Global, engine: &mut Engine) -> Result<Outcome, NoMemory>
    ensures { IfOk result (λ outcome. IsDriven engine.old engine.new (is_refused outcome)) }
{
    let mut outcome = Outcome::WentOn;
    'turns: loop {
        let Some(session) = engine.ready() else {
            return Ok(outcome);
        };
        outcome = outcome.or(take_turn(alloc, engine, session)?);
    }
}

/// Gives a block to its session, which has no step in hand, and drives. It tells what became of the steps in hand.
fn run_block(
    alloc: Global,
    engine: &mut Engine,
    session: u32,
    block: u32,
) -> Result<Outcome, NoMemory>
    requires known { session < engine.old.terms.scripts.sessions }
    requires of_session { option_map (λ b. b.session) (slice_get engine.old.terms.scripts.blocks block) ≡ Some session }
    requires not_closed { closed engine.old.past session ≡ false }
    requires idle { hand engine.old.past session ≡ None }
    requires rest { IsAtRest engine.old }
    ensures { IfOk result (λ outcome. HasRunBlock engine.old engine.new session block (is_refused outcome)) }
{
    match engine.give(alloc, session, block) {
        Ok(()) => {}
        Err(Cant::NoMemory) => return Err(NoMemory),
        Err(Cant::Why(Busy)) => unreachable!(),
    }
    drive(alloc, engine)
}

/// Cancels the session's step in hand, where it has one, and drives. It tells whether it had one.
fn cancel_if_busy(alloc: Global, engine: &mut Engine, session: u32) -> Result<bool, NoMemory>
    requires known { session < engine.old.terms.scripts.sessions }
    requires rest { IsAtRest engine.old }
    ensures { IfOk result (λ cancelled. CancelsIfBusy engine.old engine.new session cancelled) }
{
    if !engine.is_busy(session) {
        return Ok(false);
    }
    engine.cancel(session);
    drive(alloc, engine)?;
    Ok(true)
}

/// Runs a setup or teardown block while no session is busy. A step that still waits is cancelled. It tells whether the block was
/// refused or cancelled.
fn run_whole(alloc: Global, engine: &mut Engine, session: u32, block: u32) -> Result<bool, NoMemory>
    requires known { session < engine.old.terms.scripts.sessions }
    requires of_session { option_map (λ b. b.session) (slice_get engine.old.terms.scripts.blocks block) ≡ Some session }
    requires not_closed { closed engine.old.past session ≡ false }
    requires none_busy { IsNoneBusy engine.old.past }
    requires rest { IsAtRest engine.old }
    ensures { IfOk result (λ failed. HasRunWhole engine.old engine.new session block failed) }
{
    let outcome = run_block(alloc, engine, session, block)?;
    let cancelled = cancel_if_busy(alloc, engine, session)?;
    Ok(outcome.is_refused() | cancelled)
}

fn is_setup(part: Part) -> bool
    ensures { result ≡ is_setup part }
{
    match part {
        Part::Setup | Part::SessionSetup => true,
        Part::Step | Part::SessionTeardown | Part::Teardown => false,
    }
}

/// Runs the block of this number, if it is one of the setup part. It tells whether the block was refused or cancelled.
fn run_setup_block(
    alloc: Global,
    engine: &mut Engine,
    spec: &Spec,
    number: u32,
    block: &Block,
) -> Result<bool, NoMemory>
    requires runnable { IsRunnable spec.now engine.old.terms.scripts }
    requires there { slice_get spec.now.blocks number ≡ Some block.now }
    requires so_far { SetupSoFar spec.now engine.old number }
    ensures ran { IfOk result (λ failed. SetupGoesOn spec.now engine.new number failed) }
    ensures terms { OnOk result (engine.new.terms ≡ engine.old.terms) }
{
    if !is_setup(block.part) {
        return Ok(false);
    }
    let failed = run_whole(alloc, engine, block.session, number)?;
    Ok(failed)
}

/// Gives the setup blocks in the file's order, up to the first that is refused or cancelled.
fn run_setup(alloc: Global, engine: &mut Engine, spec: &Spec) -> Result<Setup, NoMemory>
    requires runnable { IsRunnable spec.now engine.old.terms.scripts }
    requires opened { engine.old.past ≡ [] }
    ensures ran { IfOk result (λ setup. SetupRan spec.now engine.new setup) }
    ensures terms { OnOk result (engine.new.terms ≡ engine.old.terms) }
{
    for (number, block) in spec.blocks.as_slice().iter().enumerate() {
        let number = count_of(number)?;
        if run_setup_block(alloc, engine, spec, number, block)? {
            return Ok(Setup::Failed { block: number });
        }
    }
    Ok(Setup::Done)
}

/// Gives the steps of a permutation in order. A step for a busy session isn't given, and ends the list.
fn run_steps(alloc: Global, engine: &mut Engine, spec: &Spec, steps: &[u32]) -> Result<(), NoMemory>
    requires runnable { IsRunnable spec.now engine.old.terms.scripts }
    requires are_steps { Each (IsStepAt spec.now.blocks) steps.now }
    requires set_up { SetupRan spec.now engine.old setups.Done }
    ensures ran { OnOk result (StepsRan spec.now steps.now engine.new) }
    ensures terms { OnOk result (engine.new.terms ≡ engine.old.terms) }
{
    for step in steps {
        let session = spec.blocks.get(*step as usize).unwrap().session;
        if engine.is_busy(session) {
            return Ok(());
        }
        run_block(alloc, engine, session, *step)?;
    }
    Ok(())
}

/// Cancels the steps in hand of the sessions below this one, in ascending order, driving after each.
fn cancel_busy(alloc: Global, engine: &mut Engine, end: u32) -> Result<(), NoMemory>
    requires known { end ≤ engine.old.terms.scripts.sessions }
    requires rest { IsAtRest engine.old }
    ensures { OnOk result (SessionsCancelled engine.old engine.new end) }
{
    for session in 0..end {
        cancel_if_busy(alloc, engine, session)?;
    }
    Ok(())
}

fn is_of(which: Teardowns, part: Part) -> bool
    ensures { result ≡ is_of which part }
{
    match which {
        Teardowns::OfSessions => match part {
            Part::SessionTeardown => true,
            Part::Setup | Part::SessionSetup | Part::Step | Part::Teardown => false,
        },
        Teardowns::Main => match part {
            Part::Teardown => true,
            Part::Setup | Part::SessionSetup | Part::Step | Part::SessionTeardown => false,
        },
    }
}

/// Runs the block of this number, if it is one of these teardown blocks. A refusal of it changes nothing for the run.
fn run_teardown_block(
    alloc: Global,
    engine: &mut Engine,
    spec: &Spec,
    which: Teardowns,
    number: u32,
    block: &Block,
) -> Result<(), NoMemory>
    requires runnable { IsRunnable spec.now engine.old.terms.scripts }
    requires there { slice_get spec.now.blocks number ≡ Some block.now }
    requires are_open { AreOpenFor spec.now which engine.old.past }
    requires none_busy { IsNoneBusy engine.old.past }
    requires rest { IsAtRest engine.old }
    ensures ran { OnOk result (TeardownsRan spec.now engine.old engine.new (tasks_from spec.now (is_of which) number) (tasks_from spec.now (is_of which) (number + 1))) }
{
    if is_of(which, block.part) {
        run_whole(alloc, engine, block.session, number)?;
    }
    Ok(())
}

/// Runs these teardown blocks in the file's order.
fn run_teardowns(
    alloc: Global,
    engine: &mut Engine,
    spec: &Spec,
    which: Teardowns,
) -> Result<(), NoMemory>
    requires runnable { IsRunnable spec.now engine.old.terms.scripts }
    requires are_open { AreOpenFor spec.now which engine.old.past }
    requires none_busy { IsNoneBusy engine.old.past }
    requires rest { IsAtRest engine.old }
    ensures ran { OnOk result (TeardownsRan spec.now engine.old engine.new (each_block spec.now (is_of which)) []) }
{
    for (number, block) in spec.blocks.as_slice().iter().enumerate() {
        run_teardown_block(alloc, engine, spec, which, count_of(number)?, block)?;
    }
    Ok(())
}

/// Closes the sessions from the first on, up to and without the end.
fn close_sessions(engine: &mut Engine, first: u32, end: u32)
    requires known { end ≤ engine.old.terms.scripts.sessions }
    requires in_order { first ≤ end }
    requires still_open { (s : ℕ) → first ≤ s → s < end → closed engine.old.past s ≡ false }
    requires none_busy { IsNoneBusy engine.old.past }
    requires rest { IsAtRest engine.old }
    ensures { SessionsClosed engine.old engine.new first end }
{
    for session in first..end {
        engine.close_session(session);
    }
}

/// Ends a run whose setup part didn't fail: the steps, then the cancels of those that wait still, then the teardown blocks and
/// the closes of the sessions, the control session's last.
fn finish_steps(
    alloc: Global,
    engine: &mut Engine,
    spec: &Spec,
    end: u32,
    steps: &[u32],
) -> Result<(), NoMemory>
    requires runnable { IsRunnable spec.now engine.old.terms.scripts }
    requires end { end ≡ length spec.now.sessions + 1 }
    requires are_steps { Each (IsStepAt spec.now.blocks) steps.now }
    requires set_up { SetupRan spec.now engine.old setups.Done }
    ensures ran { OnOk result (IsEnded spec.now engine.new steps.now setups.Done) }
    ensures terms { OnOk result (engine.new.terms ≡ engine.old.terms) }
{
    run_steps(alloc, engine, spec, steps)?;
    cancel_busy(alloc, engine, end)?;
    run_teardowns(alloc, engine, spec, Teardowns::OfSessions)?;
    close_sessions(engine, 1, end);
    run_teardowns(alloc, engine, spec, Teardowns::Main)?;
    close_sessions(engine, 0, 1);
    Ok(())
}

/// Ends a run whose setup part ended so. Where it failed, all sessions are closed, in ascending order.
fn finish(
    alloc: Global,
    engine: &mut Engine,
    spec: &Spec,
    end: u32,
    setup: Setup,
    steps: &[u32],
) -> Result<(), NoMemory>
    requires runnable { IsRunnable spec.now engine.old.terms.scripts }
    requires end { end ≡ length spec.now.sessions + 1 }
    requires are_steps { Each (IsStepAt spec.now.blocks) steps.now }
    requires set_up { SetupRan spec.now engine.old setup }
    ensures ran { OnOk result (IsEnded spec.now engine.new steps.now setup) }
    ensures terms { OnOk result (engine.new.terms ≡ engine.old.terms) }
{
    match setup {
        Setup::Failed { .. } => {
            close_sessions(engine, 0, end);
            Ok(())
        }
        Setup::Done => finish_steps(alloc, engine, spec, end, steps),
    }
}

/// Runs one permutation from an empty database. The blocks come back for the next one.
pub fn run_permutation(
    alloc: Global,
    spec: &Spec,
    scripts: Scripts,
    number: u32,
    steps: &[u32],
) -> Result<(Run, Scripts), NoMemory>
    requires runnable { IsRunnable spec.now scripts }
    requires are_steps { Each (IsStepAt spec.now.blocks) steps.now }
    ensures { IfOk result (λ ran. HasRunOne spec.now scripts number steps.now ran.0 ran.1) }
{
    let end = scripts.sessions;
    let mut engine = Engine::open(alloc, scripts, journal_weight(spec))?;
    let setup = run_setup(alloc, &mut engine, spec)?;
    finish(alloc, &mut engine, spec, end, setup, steps)?;
    let (history, scripts) = engine.finish();
    let run = Run {
        permutation: number,
        setup,
        history,
    };
    Ok((run, scripts))
}

//! A turn of a session that can go on: a transaction begins or ends, or the statement in hand goes on.
ghost use Rattle.std.specs.Prelude.{◌≡◌, ◌<◌, ◌≤◌, ◌+◌, ◌++◌, ◌-◌, true, false, cond, Some, None, IsSome, IfOk, OnOk, OnErr, slice_get, slice_set, length, option_map, option_and_then, replicate, ℕ, ◌^◌, ◌∷◌, nat_lt};
ghost use Rattle.al_statements.specs.declared.reply.Tag.TheVariants as tags;
ghost use Rattle.al_history.specs.declared.statement.Statement.TheVariants as statements;
ghost use Rattle.al_history.specs.declared.entry.Entry.TheVariants.{End};
ghost use Rattle.al_history.specs.Cause.{text_cause};
ghost use Rattle.al_history.specs.Hand.{NoBlock, opened, statement_in, statement_of, fault_in, fault_of};
ghost use Rattle.al_history.specs.Made.{row_entries};
ghost use Rattle.al_history.specs.Rules.{starts, commit_tag};
ghost use Rattle.al_history.specs.Whole.{driver, IsLeast};
ghost use Rattle.al_history.specs.Waits.{can_go_on};
ghost use Rattle.al_history.proofs.Turns.{Went};
ghost use Rattle.al_engine.specs.declared.sessions.Block.TheVariants as blocks;
ghost use Rattle.al_sessions.specs.declared.step.How.TheVariants as hows;
ghost use Rattle.al_engine.specs.Sessions.{state_of, passed};
ghost use Rattle.al_engine.specs.Listed.{KeepsControls, IsAfter};
ghost use Rattle.al_engine.specs.Ran.{ends_block};
ghost use Rattle.al_engine.specs.Outcomes.{is_refused};
ghost use Rattle.al_engine.specs.Ended.{IsEnded};
ghost use Rattle.al_engine.specs.Kept.{parts_of, past_in, IsKept, IsSame};

use crate::machine::{Machine, abort, commit, end_step, next_statement, refuse};
use crate::sessions::{Block, Session};
use crate::statements::{create_table, use_table};
use crate::told::Outcome;
use al_history::{Cause, Entry, Level, Reply, Script, SqlFault, Statement, Tag, Terms};
use al_sessions::How;
use al_values::{NoMemory, Steps};
use std::alloc::Global;
use std::sync::ledger::Ledger;

/// Goes on with the step in hand of a session that isn't held up, and counts the row versions that it reads. It tells what became of
/// its statement.
pub fn go_on<L: Ledger>(
    alloc: Global,
    terms: &Terms,
    machine: &mut Machine,
    session: u32,
    state: Session,
    steps: &mut Steps<L>,
) -> Result<Outcome, NoMemory>
    requires known { session < terms.now.scripts.sessions }
    requires kept { IsKept terms.now (parts_of machine.old) }
    requires state { slice_get machine.old.sessions.list session ≡ Some state }
    requires goes { can_go_on (past_in machine.old) session ≡ true }
    ensures kept { OnOk result (IsKept terms.now (parts_of machine.new)) }
    ensures went { IfOk result (λ outcome. Went terms.now session (past_in machine.old) (past_in machine.new) (is_refused outcome) (driver (past_in machine.old)) (IsLeast (past_in machine.old) session)) }
    ensures light { OnErr result (ends_block (statement_of terms.now state.hand state.done) ≡ false) }
    ensures err { OnErr result (IsSame (parts_of machine.old) (parts_of machine.new)) }
    ensures counted { steps.old ≤ steps.new }
    ensures bounded { steps.new ≤ steps.old + row_entries (past_in machine.old) }
{
    match script_at(terms, state) {
        Err(fault) => {
            refuse(terms, machine, session, state, text_cause(*fault));
            Ok(Outcome::Refused)
        }
        Ok(script) => match script.get(state.done as usize) {
            None => {
                finish(terms, machine, session, state);
                Ok(Outcome::WentOn)
            }
            Some(Statement::Commit) => {
                end_block(terms, machine, session, state, true);
                Ok(Outcome::WentOn)
            }
            Some(Statement::Rollback) => {
                end_block(terms, machine, session, state, false);
                Ok(Outcome::WentOn)
            }
            Some(other) => go_on_in_block(alloc, terms, machine, session, state, other, steps),
        },
    }
}

/// Why a text that is no script is refused.
fn text_cause(fault: SqlFault) -> Cause
    ensures { Some result ≡ text_cause (Some fault) }
{
    match fault {
        SqlFault::Syntax { at } => Cause::Syntax { at },
        SqlFault::NotInProfile { at } => Cause::NotInProfile { at },
    }
}

/// A step without a statement ends.
fn finish(_terms: &Terms, machine: &mut Machine, session: u32, state: Session)
    requires known { session < _terms.now.scripts.sessions }
    requires kept { IsKept _terms.now (parts_of machine.old) }
    requires state { slice_get machine.old.sessions.list session ≡ Some state }
    requires goes { can_go_on (past_in machine.old) session ≡ true }
    requires is_script { fault_of _terms.now state.hand ≡ None }
    requires none_left { statement_of _terms.now state.hand state.done ≡ None }
    ensures kept { IsKept _terms.now (parts_of machine.new) }
    ensures went { Went _terms.now session (past_in machine.old) (past_in machine.new) false (driver (past_in machine.old)) (IsLeast (past_in machine.old) session) }
{
    end_step(machine, session, How::Done, state);
}

/// Goes on with a statement that isn't COMMIT or ROLLBACK: in a failed block it is refused, and where no transaction is open one
/// begins.
fn go_on_in_block<L: Ledger>(
    alloc: Global,
    terms: &Terms,
    machine: &mut Machine,
    session: u32,
    state: Session,
    statement: &Statement,
    steps: &mut Steps<L>,
) -> Result<Outcome, NoMemory>
    requires known { session < terms.now.scripts.sessions }
    requires kept { IsKept terms.now (parts_of machine.old) }
    requires state { slice_get machine.old.sessions.list session ≡ Some state }
    requires goes { can_go_on (past_in machine.old) session ≡ true }
    requires statement { statement_of terms.now state.hand state.done ≡ Some statement.now }
    requires goes_on { starts NoBlock statement.now ≡ true }
    ensures kept { OnOk result (IsKept terms.now (parts_of machine.new)) }
    ensures went { IfOk result (λ outcome. Went terms.now session (past_in machine.old) (past_in machine.new) (is_refused outcome) (driver (past_in machine.old)) (IsLeast (past_in machine.old) session)) }
    ensures err { OnErr result (IsSame (parts_of machine.old) (parts_of machine.new)) }
    ensures counted { steps.old ≤ steps.new }
    ensures bounded { steps.new ≤ steps.old + row_entries (past_in machine.old) }
{
    if let Block::Failed { refuse: place } = state.block {
        let cause = Cause::BlockFailed { refuse: place };
        refuse(terms, machine, session, state, cause);
        return Ok(Outcome::Refused);
    }
    match state.xact {
        Some(xact) => run(
            alloc, terms, machine, session, state, xact, statement, steps,
        ),
        None => {
            begin(terms, machine, session, state)?;
            Ok(Outcome::WentOn)
        }
    }
}

/// Goes on with a statement of an open transaction.
fn run<L: Ledger>(
    alloc: Global,
    terms: &Terms,
    machine: &mut Machine,
    session: u32,
    state: Session,
    xact: u32,
    statement: &Statement,
    steps: &mut Steps<L>,
) -> Result<Outcome, NoMemory>
    requires known { session < terms.now.scripts.sessions }
    requires kept { IsKept terms.now (parts_of machine.old) }
    requires state { slice_get machine.old.sessions.list session ≡ Some state }
    requires goes { can_go_on (past_in machine.old) session ≡ true }
    requires in_xact { state.xact ≡ Some xact }
    requires statement { statement_of terms.now state.hand state.done ≡ Some statement.now }
    requires goes_on { starts NoBlock statement.now ≡ true }
    ensures kept { OnOk result (IsKept terms.now (parts_of machine.new)) }
    ensures went { IfOk result (λ outcome. Went terms.now session (past_in machine.old) (past_in machine.new) (is_refused outcome) (driver (past_in machine.old)) (IsLeast (past_in machine.old) session)) }
    ensures err { OnErr result (IsSame (parts_of machine.old) (parts_of machine.new)) }
    ensures counted { steps.old ≤ steps.new }
    ensures bounded { steps.new ≤ steps.old + row_entries (past_in machine.old) }
{
    match statement {
        Statement::Commit | Statement::Rollback => unreachable!(),
        Statement::Begin => {
            begin_block(terms, machine, session, state);
            Ok(Outcome::WentOn)
        }
        Statement::CreateTable { table, columns } => create_table(
            alloc, terms, machine, session, state, xact, table, columns,
        ),
        Statement::Insert { .. } | Statement::Select { .. } | Statement::AddColumn { .. } => {
            use_table(
                alloc, terms, machine, session, state, xact, statement, steps,
            )
        }
    }
}

/// The script of a session's step in hand, or why its text is none.
fn script_at(terms: &Terms, state: Session) -> &Result<Script, SqlFault>
    requires { IsSome (option_and_then (λ block. slice_get terms.now.scripts.blocks block) state.hand) }
    ensures fault { fault_of terms.now state.hand ≡ fault_in result.now }
    ensures statements { (n : ℕ) → statement_of terms.now state.hand n ≡ statement_in result.now n }
{
    let block = state.hand.unwrap();
    let block = terms.scripts.blocks.get(block as usize).unwrap();
    &block.script
}

/// A transaction begins.
fn begin(
    _terms: &Terms,
    machine: &mut Machine,
    session: u32,
    state: Session,
) -> Result<(), NoMemory>
    requires known { session < _terms.now.scripts.sessions }
    requires kept { IsKept _terms.now (parts_of machine.old) }
    requires state { slice_get machine.old.sessions.list session ≡ Some state }
    requires goes { can_go_on (past_in machine.old) session ≡ true }
    requires statement { option_map (starts (state_of state.block)) (statement_of _terms.now state.hand state.done) ≡ Some true }
    requires none_open { state.xact ≡ None }
    ensures kept { OnOk result (IsKept _terms.now (parts_of machine.new)) }
    ensures went { OnOk result (Went _terms.now session (past_in machine.old) (past_in machine.new) false (driver (past_in machine.old)) (IsLeast (past_in machine.old) session)) }
    ensures err { OnErr result (IsSame (parts_of machine.old) (parts_of machine.new)) }
{
    let xact = machine.journal.len();
    reach(&mut machine.committed, xact as usize + 1)?;
    let level = Level::ReadCommitted;
    machine.journal.note(Entry::Start { session, level });
    let begun = Session {
        xact: Some(xact),
        wants: None,
        ..state
    };
    machine.sessions.keep(session, begun);
    Ok(())
}

/// Makes a list of marks at least so long. The new ones aren't set.
fn reach(marks: &mut Vec<bool>, count: usize) -> Result<(), NoMemory>
    ensures ok { OnOk result (marks.new.items ≡ marks.old.items ++ replicate (count - length marks.old.items) false) }
    ensures err { OnErr result (marks.new.items ≡ marks.old.items) }
{
    if marks.len() >= count {
        return Ok(());
    }
    let more = count - marks.len();
    marks.reserve(more)?;
    for _mark in 0..more {
        marks.push_reserved(false);
    }
    Ok(())
}

/// BEGIN opens a block, where none is.
fn opened(block: Block) -> Block
    ensures { state_of result ≡ opened (state_of block) }
{
    match block {
        Block::Outside => Block::Open,
        other => other,
    }
}

/// What COMMIT and ROLLBACK answer: a failed block is rolled back.
fn end_tag(block: Block, commits: bool) -> Tag
    ensures { result ≡ cond commits (commit_tag (state_of block)) tags.Rollback }
{
    match block {
        Block::Outside | Block::Open if commits => Tag::Commit,
        _ => Tag::Rollback,
    }
}

/// BEGIN is done: the session's open transaction is a block from now on.
fn begin_block(_terms: &Terms, machine: &mut Machine, session: u32, state: Session)
    requires known { session < _terms.now.scripts.sessions }
    requires kept { IsKept _terms.now (parts_of machine.old) }
    requires state { slice_get machine.old.sessions.list session ≡ Some state }
    requires goes { can_go_on (past_in machine.old) session ≡ true }
    requires in_xact { IsSome state.xact }
    requires statement { statement_of _terms.now state.hand state.done ≡ Some statements.Begin }
    ensures kept { IsKept _terms.now (parts_of machine.new) }
    ensures went { Went _terms.now session (past_in machine.old) (past_in machine.new) false (driver (past_in machine.old)) (IsLeast (past_in machine.old) session) }
{
    let tag = Tag::Begin;
    machine.journal.note(Entry::Done {
        session,
        reply: Reply::Tag { tag, count: 0 },
    });
    let block = opened(state.block);
    pass(machine, session, Session { block, ..state });
}

/// COMMIT or ROLLBACK is done: the session's open transaction ends, where it has one, and its block.
fn end_block(_terms: &Terms, machine: &mut Machine, session: u32, state: Session, commits: bool)
    requires known { session < _terms.now.scripts.sessions }
    requires kept { IsKept _terms.now (parts_of machine.old) }
    requires state { slice_get machine.old.sessions.list session ≡ Some state }
    requires goes { can_go_on (past_in machine.old) session ≡ true }
    requires statement { statement_of _terms.now state.hand state.done ≡ Some (cond commits statements.Commit statements.Rollback) }
    ensures kept { IsKept _terms.now (parts_of machine.new) }
    ensures went { Went _terms.now session (past_in machine.old) (past_in machine.new) false (driver (past_in machine.old)) (IsLeast (past_in machine.old) session) }
{
    end_xact(_terms, machine, session, state, commits);
    let tag = end_tag(state.block, commits);
    machine.journal.note(Entry::Done {
        session,
        reply: Reply::Tag { tag, count: 0 },
    });
    pass(machine, session, out_of_block(state));
}

/// The step goes on with its next statement, or ends, where none is left.
fn pass(machine: &mut Machine, session: u32, state: Session)
    requires known { session < length machine.old.sessions.list }
    requires room { 0 < machine.old.journal.room }
    requires few { state.done + state.left < 2 ^ 32 }
    requires is_after { IsAfter hows.Done machine.old.sessions session (passed state) }
    ensures past { past_in machine.new ≡ cond (nat_lt 1 state.left) (past_in machine.old) (End session ∷ past_in machine.old) }
    ensures sessions { machine.new.sessions.list ≡ slice_set machine.old.sessions.list session (passed state) }
    ensures controls { KeepsControls machine.old.sessions machine.new.sessions }
    ensures room { machine.new.journal.room + cond (nat_lt 1 state.left) 0 1 ≡ machine.old.journal.room }
    ensures tables { machine.new.tables.items ≡ machine.old.tables.items }
    ensures locks { machine.new.locks ≡ machine.old.locks }
    ensures committed { machine.new.committed.items ≡ machine.old.committed.items }
    ensures weight { machine.new.weight ≡ machine.old.weight }
{
    if state.left > 1 {
        let next = next_statement(state);
        machine.sessions.after(session, How::Done, next);
    } else {
        end_step(machine, session, How::Done, state);
    }
}

/// The session once its transaction block has ended.
fn out_of_block(state: Session) -> Session
    ensures { result ≡ record state { xact = None; block = blocks.Outside } }
{
    Session {
        xact: None,
        block: Block::Outside,
        ..state
    }
}

/// The session's open transaction ends by COMMIT or ROLLBACK, where it has one.
fn end_xact(_terms: &Terms, machine: &mut Machine, session: u32, state: Session, commits: bool)
    requires known { session < _terms.now.scripts.sessions }
    requires kept { IsKept _terms.now (parts_of machine.old) }
    requires state { slice_get machine.old.sessions.list session ≡ Some state }
    requires goes { can_go_on (past_in machine.old) session ≡ true }
    requires statement { statement_of _terms.now state.hand state.done ≡ Some (cond commits statements.Commit statements.Rollback) }
    ensures { IsEnded _terms.now (parts_of machine.new) session state (past_in machine.old) commits }
{
    match state.xact {
        None => {}
        Some(xact) if commits => commit(machine, session, xact),
        Some(xact) => abort(machine, session, xact),
    }
}

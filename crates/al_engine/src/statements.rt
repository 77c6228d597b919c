//! The statements of an open transaction. Each is judged, what it takes is copied and reserved, and then the tables and the journal
//! change together.
ghost use Rattle.std.specs.Prelude.{◌≡◌, ℕ, List, [], ◌+◌, ◌<◌, ◌≤◌, ◌^◌, ◌∷◌, ◌++◌, option_map, not, cond, true, Some, None, IsSome, IfOk, OnOk, OnErr, slice_get, slice_set, length};
ghost use Rattle.al_statements.specs.declared.cause.Cause.TheVariants as causes;
ghost use Rattle.al_history.specs.declared.entry.Entry.TheVariants.{Wait, Make};
ghost use Rattle.al_history.specs.declared.entry.Want.TheVariants as wants;
ghost use Rattle.al_history.specs.declared.statement.Statement.TheVariants as statements;
ghost use Rattle.al_history.specs.Cause.{used_name, first_of, create_cause};
ghost use Rattle.al_history.specs.Change.{shape_of};
ghost use Rattle.al_history.specs.Store.{slots_of};
ghost use Rattle.al_history.specs.Hand.{statement_of};
ghost use Rattle.al_queue.specs.InWay.{grantable};
ghost use Rattle.al_queue.specs.Waits.{holds};
ghost use Rattle.al_history.specs.Made.{row_entries};
ghost use Rattle.al_history.specs.Whole.{driver, IsLeast};
ghost use Rattle.al_history.specs.Waits.{can_go_on};
ghost use Rattle.al_history.proofs.Turns.{Went};
ghost use Rattle.al_engine.specs.Kept.{parts_of, past_in, IsKept, IsSame, CanBeRefused, Lacks, over_by};
ghost use Rattle.al_engine.specs.Outcomes.{is_refused};
ghost use Rattle.al_engine.specs.Using.{mode_of, IsLocked, create_weight};
ghost use Rattle.al_engine.specs.Creating.{taker_in, seen_in, limit_in, look_past};
ghost use Rattle.al_engine.specs.Stored.{all_kept};
ghost use Rattle.al_engine.specs.Listed.{KeepsControls, HasSameStep};

use crate::causes::{alter_cause, count_cause, create_cause, first_of, tables_cause};
use crate::machine::{Machine, done, refuse};
use crate::sessions::Session;
use crate::stored::{
    Reader, StoredColumn, StoredRow, columns_of, filled, names_of, new_table, position_of,
    push_column, push_row, rows_of, shape_of, spread, taker_of,
};
use crate::told::Outcome;
use crate::weights::{over, plus, read_weight, row_weight};
use al_history::{Cause, Column, Entry, Mode, Reply, RewrittenList, Statement, Tag, Terms, Want};
use al_queue::{Asked, LockTable};
use al_values::{Copied, Name, NameList, NoMemory, Row, Steps};
use std::alloc::Global;
use std::sync::ledger::Ledger;

/// Notes an entry of this weight.
fn note_heavy(machine: &mut Machine, entry: Entry, weight: u64)
    requires room { 0 < machine.old.journal.room }
    requires fits { machine.old.weight + weight < 2 ^ 64 }
    ensures past { past_in machine.new ≡ entry ∷ past_in machine.old }
    ensures room { machine.new.journal.room + 1 ≡ machine.old.journal.room }
    ensures weight { machine.new.weight ≡ machine.old.weight + weight }
    ensures sessions { machine.new.sessions ≡ machine.old.sessions }
    ensures tables { machine.new.tables.items ≡ machine.old.tables.items }
    ensures locks { machine.new.locks ≡ machine.old.locks }
    ensures committed { machine.new.committed.items ≡ machine.old.committed.items }
{
    machine.journal.note(entry);
    machine.weight += weight;
}

/// Whether a session doesn't hold this lock yet.
fn lacks(locks: &LockTable, session: u32, table: u32, mode: Mode) -> bool
    requires known { session < locks.now.sessions }
    ensures { result ≡ not (holds locks.now.locks session table mode) }
{
    !locks.holds(session, table, mode)
}

/// What the next entry of a statement weighs that lacks this lock: 1 where the lock is free, and 2 where it has to wait.
fn request_weight(locks: &LockTable, session: u32, table: u32, mode: Mode) -> u64
    requires known { session < locks.now.sessions }
    ensures { result ≡ cond (grantable locks.now.locks (record { session = session; table = table; mode = mode })) 1 2 }
{
    match locks.stands_before(session, table, mode) {
        None => 1,
        Some(_) => 2,
    }
}

/// Asks for the lock that a statement lacks: it is got, or waited for.
fn ask(
    terms: &Terms,
    machine: &mut Machine,
    session: u32,
    state: Session,
    xact: u32,
    table: u32,
    mode: Mode,
) -> Result<Outcome, NoMemory>
    requires known { session < terms.now.scripts.sessions }
    requires lacks { Lacks terms.now (parts_of machine.old) session state xact (record { session = session; table = table; mode = mode }) }
    ensures kept { OnOk result (IsKept terms.now (parts_of machine.new)) }
    ensures went { IfOk result (λ outcome. Went terms.now session (past_in machine.old) (past_in machine.new) (is_refused outcome) (driver (past_in machine.old)) (IsLeast (past_in machine.old) session)) }
    ensures err { OnErr result (IsSame (parts_of machine.old) (parts_of machine.new)) }
{
    let weight = request_weight(&machine.locks, session, table, mode);
    if let Some(cause) = over(terms.weight, machine.weight, weight)? {
        refuse(terms, machine, session, state, cause);
        return Ok(Outcome::Refused);
    }
    machine.journal.reserve(2)?;
    match machine.locks.ask(session, table, mode)? {
        Asked::Granted => note_heavy(machine, Entry::Lock { xact, table, mode }, weight),
        Asked::Queued { .. } => {
            let want = Want::Table { table, mode };
            note_heavy(machine, Entry::Wait { xact, want }, weight);
            let waiting = Session {
                wants: Some(want),
                ..state
            };
            machine.sessions.keep(session, waiting);
        }
    }
    Ok(Outcome::WentOn)
}

/// The table that a statement uses isn't there.
fn unknown(
    alloc: Global,
    terms: &Terms,
    machine: &mut Machine,
    session: u32,
    state: Session,
    name: &Name,
) -> Result<Outcome, NoMemory>
    requires known { session < terms.now.scripts.sessions }
    requires kept { IsKept terms.now (parts_of machine.old) }
    requires state { slice_get machine.old.sessions.list session ≡ Some state }
    requires refused { CanBeRefused terms.now (past_in machine.old) session state (causes.NoTable name.now) }
    ensures kept { OnOk result (IsKept terms.now (parts_of machine.new)) }
    ensures went { IfOk result (λ outcome. Went terms.now session (past_in machine.old) (past_in machine.new) (is_refused outcome) (driver (past_in machine.old)) (IsLeast (past_in machine.old) session)) }
    ensures err { OnErr result (IsSame (parts_of machine.old) (parts_of machine.new)) }
{
    let name = name.copied(alloc)?;
    refuse(terms, machine, session, state, Cause::NoTable { name });
    Ok(Outcome::Refused)
}

/// Why a Look is refused, unless the statement has looked: the journal has no place for it.
fn look_cause(limit: u32, weight: u64, looked: bool) -> Result<Option<Cause>, NoMemory>
    ensures { IfOk result (λ cause. cause ≡ cond looked None (over_by limit weight 1)) }
{
    if looked {
        return Ok(None);
    }
    over(limit, weight, 1)
}

/// What the next entry of a CREATE TABLE weighs that has looked: a Wait where somebody is in the way of its name, else its Make.
fn create_weight(columns: &[Name], taker: Option<u32>) -> Result<u64, NoMemory>
    ensures { IfOk result (λ weight. weight ≡ create_weight columns.now taker) }
{
    match taker {
        Some(_) => Ok(2),
        None => plus(1, columns.len() as u64),
    }
}

/// Who is in the way of a new table's name: an open transaction of another that has made a table of it.
fn name_taker(
    alloc: Global,
    machine: &Machine,
    xact: u32,
    name: &Name,
) -> Result<Option<u32>, NoMemory>
    ensures { IfOk result (λ taker. taker ≡ taker_in (parts_of machine.now) xact name.now) }
{
    let opened = machine.sessions.open_xacts(alloc)?;
    Ok(taker_of(&machine.tables, name, xact, &opened))
}

/// Why a CREATE TABLE is refused once it has looked: for what it finds, or because the journal has no place for its next entry.
fn create_refusal(
    alloc: Global,
    limit: u32,
    machine: &Machine,
    looked: bool,
    xact: u32,
    name: &Name,
    columns: &[Name],
    taker: Option<u32>,
) -> Result<Option<Cause>, NoMemory>
    ensures { IfOk result (λ cause. cause ≡ first_of (create_cause name.now columns.now taker (seen_in (parts_of machine.now) xact)) (limit_in limit (machine.now.weight + cond looked 0 1) (length machine.now.tables.items) name.now columns.now taker)) }
{
    let reader = Reader {
        xact,
        committed: &machine.committed,
    };
    let weight = create_weight(columns, taker)?;
    let so_far = plus(machine.weight, u64::from(!looked))?;
    let found = create_cause(alloc, &machine.tables, &reader, name, columns, taker)?;
    let tables = tables_cause(machine.tables.len(), taker)?;
    Ok(first_of(found, first_of(tables, over(limit, so_far, weight)?)))
}

/// CREATE TABLE. Where an open transaction of another is in the way of its name, it waits for its end.
pub fn create_table(
    alloc: Global,
    terms: &Terms,
    machine: &mut Machine,
    session: u32,
    state: Session,
    xact: u32,
    name: &Name,
    columns: &NameList,
) -> Result<Outcome, NoMemory>
    requires known { session < terms.now.scripts.sessions }
    requires kept { IsKept terms.now (parts_of machine.old) }
    requires state { slice_get machine.old.sessions.list session ≡ Some state }
    requires goes { can_go_on (past_in machine.old) session ≡ true }
    requires in_xact { state.xact ≡ Some xact }
    requires statement { statement_of terms.now state.hand state.done ≡ Some (statements.CreateTable name.now columns.now) }
    ensures kept { OnOk result (IsKept terms.now (parts_of machine.new)) }
    ensures went { IfOk result (λ outcome. Went terms.now session (past_in machine.old) (past_in machine.new) (is_refused outcome) (driver (past_in machine.old)) (IsLeast (past_in machine.old) session)) }
    ensures err { OnErr result (IsSame (parts_of machine.old) (parts_of machine.new)) }
{
    let limit = terms.weight;
    let looked = state.looked;
    if let Some(cause) = look_cause(limit, machine.weight, looked)? {
        refuse(terms, machine, session, state, cause);
        return Ok(Outcome::Refused);
    }
    let columns = columns.as_slice();
    let taker = name_taker(alloc, machine, xact, name)?;
    let refusal = create_refusal(alloc, limit, machine, looked, xact, name, columns, taker)?;
    machine.journal.reserve(2)?;
    if let Some(cause) = refusal {
        look(machine, state, xact);
        refuse(terms, machine, session, state, cause);
        return Ok(Outcome::Refused);
    }
    if let Some(other) = taker {
        look(machine, state, xact);
        wait_for_end(machine, session, state, xact, other);
        return Ok(Outcome::WentOn);
    }
    make(alloc, machine, state, xact, name, columns)?;
    let tag = Tag::CreateTable;
    let reply = Reply::Tag { tag, count: 0 };
    done(terms, machine, session, state, reply);
    Ok(Outcome::WentOn)
}

/// Looks, unless the statement has looked, and makes its table.
fn make(
    alloc: Global,
    machine: &mut Machine,
    state: Session,
    xact: u32,
    name: &Name,
    columns: &[Name],
) -> Result<(), NoMemory>
    requires room { 2 ≤ machine.old.journal.room }
    requires fits { machine.old.weight + cond state.looked 0 1 + (1 + length columns.now) < 2 ^ 64 }
    ensures past { OnOk result (past_in machine.new ≡ Make xact (length (look_past state.looked xact (past_in machine.old))) name.now (shape_of columns.now) ∷ look_past state.looked xact (past_in machine.old)) }
    ensures room { OnOk result (machine.old.journal.room ≤ machine.new.journal.room + 2) }
    ensures weight { OnOk result (machine.new.weight ≡ machine.old.weight + cond state.looked 0 1 + (1 + length columns.now)) }
    ensures tables { OnOk result (all_kept machine.new.tables.items ≡ all_kept machine.old.tables.items ++ record { number = length (look_past state.looked xact (past_in machine.old)); maker = xact; name = name.now; slots = slots_of xact (shape_of columns.now); rows = [] } ∷ []) }
    ensures sessions { OnOk result (machine.new.sessions ≡ machine.old.sessions) }
    ensures locks { OnOk result (machine.new.locks ≡ machine.old.locks) }
    ensures committed { OnOk result (machine.new.committed.items ≡ machine.old.committed.items) }
    ensures err { OnErr result (IsSame (parts_of machine.old) (parts_of machine.new)) }
{
    let number = machine.journal.len() + u32::from(!state.looked);
    let table = new_table(alloc, number, xact, name, columns)?;
    let act = Entry::Make {
        xact,
        table: number,
        name: name.copied(alloc)?,
        shape: shape_of(alloc, columns)?,
    };
    machine.tables.push(table)?;
    look(machine, state, xact);
    note_heavy(machine, act, 1 + columns.len() as u64);
    Ok(())
}

/// Notes the statement's Look, unless it has looked.
fn look(machine: &mut Machine, state: Session, xact: u32)
    requires room { 0 < machine.old.journal.room }
    requires fits { machine.old.weight + cond state.looked 0 1 < 2 ^ 64 }
    ensures past { past_in machine.new ≡ look_past state.looked xact (past_in machine.old) }
    ensures room { machine.old.journal.room ≤ machine.new.journal.room + 1 }
    ensures weight { machine.new.weight ≡ machine.old.weight + cond state.looked 0 1 }
    ensures sessions { machine.new.sessions ≡ machine.old.sessions }
    ensures tables { machine.new.tables.items ≡ machine.old.tables.items }
    ensures locks { machine.new.locks ≡ machine.old.locks }
    ensures committed { machine.new.committed.items ≡ machine.old.committed.items }
{
    if !state.looked {
        note_heavy(machine, Entry::Look { xact }, 1);
    }
}

/// The statement waits for the end of another's transaction.
fn wait_for_end(machine: &mut Machine, session: u32, state: Session, xact: u32, other: u32)
    requires known { session < length machine.old.sessions.list }
    requires same_step { HasSameStep (slice_get machine.old.sessions.list session) state }
    requires room { 0 < machine.old.journal.room }
    requires fits { machine.old.weight + 2 < 2 ^ 64 }
    ensures past { past_in machine.new ≡ Wait xact (wants.Ends other) ∷ past_in machine.old }
    ensures room { machine.new.journal.room + 1 ≡ machine.old.journal.room }
    ensures sessions { machine.new.sessions.list ≡ slice_set machine.old.sessions.list session (record state { looked = true; wants = Some (wants.Ends other) }) }
    ensures controls { KeepsControls machine.old.sessions machine.new.sessions }
    ensures tables { machine.new.tables.items ≡ machine.old.tables.items }
    ensures locks { machine.new.locks ≡ machine.old.locks }
    ensures committed { machine.new.committed.items ≡ machine.old.committed.items }
    ensures weight { machine.new.weight ≡ machine.old.weight + 2 }
{
    let want = Want::Ends { xact: other };
    note_heavy(machine, Entry::Wait { xact, want }, 2);
    let waiting = Session {
        looked: true,
        wants: Some(want),
        ..state
    };
    machine.sessions.keep(session, waiting);
}

/// The name of the table that a statement uses which has to be there.
fn used_name(statement: &Statement) -> Option<&Name>
    ensures { option_map (λ name. name.now) result ≡ used_name statement.now }
{
    match statement {
        Statement::Begin | Statement::Commit | Statement::Rollback => None,
        Statement::CreateTable { .. } => None,
        Statement::Insert { table, .. } => Some(table),
        Statement::Select { table } => Some(table),
        Statement::AddColumn { table, .. } => Some(table),
    }
}

/// The mode in which a statement locks the table that it uses (13.3.1).
fn mode_of(statement: &Statement) -> Mode
    ensures { result ≡ mode_of statement.now }
{
    match statement {
        Statement::Select { .. } => Mode::AccessShare,
        Statement::Insert { .. } => Mode::RowExclusive,
        _ => Mode::AccessExclusive,
    }
}

/// Goes on with a statement that uses a table: it asks for the table's lock, and looks and acts once it has that.
pub fn use_table<L: Ledger>(
    alloc: Global,
    terms: &Terms,
    machine: &mut Machine,
    session: u32,
    state: Session,
    xact: u32,
    statement: &Statement,
    steps: &mut Steps<L>,
) -> Result<Outcome, NoMemory>
    requires known { session < terms.now.scripts.sessions }
    requires kept { IsKept terms.now (parts_of machine.old) }
    requires state { slice_get machine.old.sessions.list session ≡ Some state }
    requires goes { can_go_on (past_in machine.old) session ≡ true }
    requires in_xact { state.xact ≡ Some xact }
    requires statement { statement_of terms.now state.hand state.done ≡ Some statement.now }
    requires uses { IsSome (used_name statement.now) }
    ensures kept { OnOk result (IsKept terms.now (parts_of machine.new)) }
    ensures went { IfOk result (λ outcome. Went terms.now session (past_in machine.old) (past_in machine.new) (is_refused outcome) (driver (past_in machine.old)) (IsLeast (past_in machine.old) session)) }
    ensures err { OnErr result (IsSame (parts_of machine.old) (parts_of machine.new)) }
    ensures counted { steps.old ≤ steps.new }
    ensures bounded { steps.new ≤ steps.old + row_entries (past_in machine.old) }
{
    let name = used_name(statement).unwrap();
    let reader = Reader {
        xact,
        committed: &machine.committed,
    };
    let Some(at) = position_of(&machine.tables, &reader, name) else {
        return unknown(alloc, terms, machine, session, state, name);
    };
    let number = machine.tables[at].number;
    let mode = mode_of(statement);
    if lacks(&machine.locks, session, number, mode) {
        return ask(terms, machine, session, state, xact, number, mode);
    }
    if let Some(cause) = over(terms.weight, machine.weight, 1)? {
        refuse(terms, machine, session, state, cause);
        return Ok(Outcome::Refused);
    }
    act(
        alloc, terms, machine, session, state, xact, at, statement, steps,
    )
}

/// A statement acts that has locked its table, which stands at this place, and may look.
fn act<L: Ledger>(
    alloc: Global,
    terms: &Terms,
    machine: &mut Machine,
    session: u32,
    state: Session,
    xact: u32,
    at: usize,
    statement: &Statement,
    steps: &mut Steps<L>,
) -> Result<Outcome, NoMemory>
    requires known { session < terms.now.scripts.sessions }
    requires locked { IsLocked terms.now (parts_of machine.old) session state xact statement.now at }
    requires uses { IsSome (used_name statement.now) }
    ensures kept { OnOk result (IsKept terms.now (parts_of machine.new)) }
    ensures went { IfOk result (λ outcome. Went terms.now session (past_in machine.old) (past_in machine.new) (is_refused outcome) (driver (past_in machine.old)) (IsLeast (past_in machine.old) session)) }
    ensures err { OnErr result (IsSame (parts_of machine.old) (parts_of machine.new)) }
    ensures counted { steps.old ≤ steps.new }
    ensures bounded { steps.new ≤ steps.old + row_entries (past_in machine.old) }
{
    match statement {
        Statement::Insert { values, .. } => {
            insert(alloc, terms, machine, session, state, xact, at, values)
        }
        Statement::Select { .. } => select(alloc, terms, machine, session, state, xact, at, steps),
        Statement::AddColumn { column, .. } => {
            add_column(alloc, terms, machine, session, state, xact, at, column)
        }
        _ => unreachable!(),
    }
}

/// INSERT: a row is added.
fn insert(
    alloc: Global,
    terms: &Terms,
    machine: &mut Machine,
    session: u32,
    state: Session,
    xact: u32,
    at: usize,
    written: &Row,
) -> Result<Outcome, NoMemory>
    requires known { session < terms.now.scripts.sessions }
    requires locked { (name : List ℕ) × IsLocked terms.now (parts_of machine.old) session state xact (statements.Insert name written.now) at }
    ensures kept { OnOk result (IsKept terms.now (parts_of machine.new)) }
    ensures went { IfOk result (λ outcome. Went terms.now session (past_in machine.old) (past_in machine.new) (is_refused outcome) (driver (past_in machine.old)) (IsLeast (past_in machine.old) session)) }
    ensures err { OnErr result (IsSame (parts_of machine.old) (parts_of machine.new)) }
{
    let reader = Reader {
        xact,
        committed: &machine.committed,
    };
    let table = &machine.tables[at];
    let number = table.number;
    let columns = columns_of(alloc, &reader, table)?;
    let so_far = plus(machine.weight, 1)?;
    machine.journal.reserve(2)?;
    if let Some(cause) = count_cause(columns.as_slice(), written.len())? {
        note_heavy(machine, Entry::Look { xact }, 1);
        refuse(terms, machine, session, state, cause);
        return Ok(Outcome::Refused);
    }
    let row = filled(alloc, columns.as_slice(), written)?;
    let weight = plus(1, row_weight(row.as_slice())?)?;
    let over_limit = over(terms.weight, so_far, weight)?;
    let values = spread(alloc, &reader, table.columns.as_slice(), &row)?;
    if let Some(cause) = over_limit {
        note_heavy(machine, Entry::Look { xact }, 1);
        refuse(terms, machine, session, state, cause);
        return Ok(Outcome::Refused);
    }
    let stored = StoredRow {
        number: machine.journal.len() + 1,
        maker: xact,
        values,
    };
    push_row(&mut machine.tables, at, stored)?;
    note_heavy(machine, Entry::Look { xact }, 1);
    let table = number;
    note_heavy(machine, Entry::Add { xact, table, row }, weight);
    let tag = Tag::Insert;
    let reply = Reply::Tag { tag, count: 1 };
    done(terms, machine, session, state, reply);
    Ok(Outcome::WentOn)
}

/// SELECT: all rows are read. Each row version of its table is looked at once, and counted.
fn select<L: Ledger>(
    alloc: Global,
    terms: &Terms,
    machine: &mut Machine,
    session: u32,
    state: Session,
    xact: u32,
    at: usize,
    steps: &mut Steps<L>,
) -> Result<Outcome, NoMemory>
    requires known { session < terms.now.scripts.sessions }
    requires locked { (name : List ℕ) × IsLocked terms.now (parts_of machine.old) session state xact (statements.Select name) at }
    ensures kept { OnOk result (IsKept terms.now (parts_of machine.new)) }
    ensures went { IfOk result (λ outcome. Went terms.now session (past_in machine.old) (past_in machine.new) (is_refused outcome) (driver (past_in machine.old)) (IsLeast (past_in machine.old) session)) }
    ensures err { OnErr result (IsSame (parts_of machine.old) (parts_of machine.new)) }
    ensures counted { steps.old ≤ steps.new }
    ensures bounded { steps.new ≤ steps.old + row_entries (past_in machine.old) }
{
    let reader = Reader {
        xact,
        committed: &machine.committed,
    };
    let table = &machine.tables[at];
    let columns = columns_of(alloc, &reader, table)?;
    let names = names_of(alloc, columns.as_slice())?;
    let rows = rows_of(alloc, &reader, table, steps)?;
    let weight = read_weight(names.as_slice(), rows.as_slice())?;
    let so_far = plus(machine.weight, 1)?;
    let over_limit = over(terms.weight, so_far, weight)?;
    machine.journal.reserve(2)?;
    note_heavy(machine, Entry::Look { xact }, 1);
    if let Some(cause) = over_limit {
        refuse(terms, machine, session, state, cause);
        return Ok(Outcome::Refused);
    }
    let entry = machine.journal.len();
    note_heavy(machine, Entry::Read { xact, names, rows }, weight);
    done(terms, machine, session, state, Reply::Rows { entry });
    Ok(Outcome::WentOn)
}

/// ALTER TABLE with ADD COLUMN. No row is copied: it has the column's default from then on.
fn add_column(
    alloc: Global,
    terms: &Terms,
    machine: &mut Machine,
    session: u32,
    state: Session,
    xact: u32,
    at: usize,
    column: &Column,
) -> Result<Outcome, NoMemory>
    requires known { session < terms.now.scripts.sessions }
    requires locked { (name : List ℕ) × IsLocked terms.now (parts_of machine.old) session state xact (statements.AddColumn name column.now) at }
    ensures kept { OnOk result (IsKept terms.now (parts_of machine.new)) }
    ensures went { IfOk result (λ outcome. Went terms.now session (past_in machine.old) (past_in machine.new) (is_refused outcome) (driver (past_in machine.old)) (IsLeast (past_in machine.old) session)) }
    ensures err { OnErr result (IsSame (parts_of machine.old) (parts_of machine.new)) }
{
    let reader = Reader {
        xact,
        committed: &machine.committed,
    };
    let table = &machine.tables[at];
    let number = table.number;
    let columns = columns_of(alloc, &reader, table)?;
    let so_far = plus(machine.weight, 1)?;
    let over_limit = over(terms.weight, so_far, 1)?;
    let found = alter_cause(alloc, columns.as_slice(), column)?;
    machine.journal.reserve(2)?;
    if let Some(cause) = first_of(found, over_limit) {
        note_heavy(machine, Entry::Look { xact }, 1);
        refuse(terms, machine, session, state, cause);
        return Ok(Outcome::Refused);
    }
    let column = StoredColumn {
        maker: xact,
        column: column.copied(alloc)?,
    };
    push_column(&mut machine.tables, at, column)?;
    note_heavy(machine, Entry::Look { xact }, 1);
    let act = Entry::Alter {
        xact,
        table: number,
        statement: state.done,
        rewritten: RewrittenList::new(alloc),
    };
    note_heavy(machine, act, 1);
    let tag = Tag::AlterTable;
    let reply = Reply::Tag { tag, count: 0 };
    done(terms, machine, session, state, reply);
    Ok(Outcome::WentOn)
}

//! Steps of an engine with one session.
ghost use Rattle.std.specs.Prelude.{◌≡◌, ◌∷◌, [], true, false, ◌<◌, Some, IfOk, OnOk, slice_get, option_map};
ghost use Rattle.al_engine.specs.Ran.{AreOfSessions};
ghost use Rattle.al_history.specs.Hand.{closed};
ghost use Rattle.al_history.specs.declared.statement.ScriptBlock.{ScriptBlock};

use al_engine::{Engine, Told};
use al_history::{Column, ScriptBlock, Scripts, Statement};
use al_values::{ListOf, Name, NameList, NoMemory, Row, Steps, Value};
use std::alloc::Global;
use std::marker::Brand;
use std::sync::ledger::{Blank, Ledger};

// More turns than a step of one statement takes, and than one of as many as there may be tables.
const MOST_TURNS: u32 = 8;

const MOST_TURNS_OF_TABLES: u32 = 8 * 500;

/// The statement of each step. The table has one column, and no row but those that are inserted.
#[derive(Clone, Copy)]
pub enum Kind {
    /// INSERT of one row.
    Insert,
    /// SELECT of an empty table.
    Select,
    /// ALTER TABLE which is refused, since the table has the column.
    Refused,
}

/// Makes so many journals of so many steps side by side, so often, and gives the count of their entries.
pub fn journals(
    alloc: Global,
    kind: Kind,
    turns: u32,
    beside: u32,
    times: u32,
) -> Result<u64, NoMemory> {
    let mut entries: u64 = 0;
    for _ in 0..times {
        entries = entries.wrapping_add(side_by_side(alloc, kind, turns, beside)?);
    }
    Ok(entries)
}

/// Makes so many journals, which are kept until the last is made.
fn side_by_side(alloc: Global, kind: Kind, turns: u32, beside: u32) -> Result<u64, NoMemory> {
    let mut engines = Vec::with_capacity(alloc, beside as usize)?;
    let mut entries: u64 = 0;
    for _ in 0..beside {
        let engine = engine_of(alloc, kind, turns)?;
        entries = entries.wrapping_add(u64::from(engine.history().len()));
        engines.push(engine)?;
    }
    Ok(entries)
}

fn engine_of(alloc: Global, kind: Kind, turns: u32) -> Result<Engine, NoMemory> {
    let mut engine = Engine::open(alloc, scripts(alloc, kind, 1)?, u32::MAX)?;
    run_block(alloc, &mut engine, 0, MOST_TURNS)?;
    go_on(alloc, &mut engine, 1, turns)?;
    Ok(engine)
}

/// Makes a journal of so many steps beside so many tables, so often, and gives the count of their entries.
pub fn among_tables(
    alloc: Global,
    kind: Kind,
    tables: u32,
    turns: u32,
    times: u32,
) -> Result<u64, NoMemory> {
    let mut entries: u64 = 0;
    for _ in 0..times {
        let mut engine = Engine::open(alloc, scripts(alloc, kind, tables)?, u32::MAX)?;
        run_block(alloc, &mut engine, 0, MOST_TURNS_OF_TABLES)?;
        go_on(alloc, &mut engine, 1, turns)?;
        entries = entries.wrapping_add(u64::from(engine.history().len()));
    }
    Ok(entries)
}

/// Gives a block so often.
fn go_on(alloc: Global, engine: &mut Engine, block: u32, turns: u32) -> Result<(), NoMemory>
    requires known { 0 < engine.old.terms.scripts.sessions }
    requires of_session { option_map (λ b. b.session) (slice_get engine.old.terms.scripts.blocks block) ≡ Some 0 }
    requires not_closed { closed engine.old.past 0 ≡ false }
    ensures not_closed { OnOk result (closed engine.new.past 0 ≡ false) }
    ensures terms { OnOk result (engine.new.terms ≡ engine.old.terms) }
{
    for _ in 0..turns {
        run_block(alloc, engine, block, MOST_TURNS)?;
    }
    Ok(())
}

/// Reads a table of so many rows and columns, so often, and gives the count of the journal's entries.
pub fn reads(alloc: Global, rows: u32, columns: u32, times: u32) -> Result<u64, NoMemory> {
    let mut engine = Engine::open(alloc, row_scripts(alloc, columns)?, u32::MAX)?;
    run_block(alloc, &mut engine, 0, MOST_TURNS)?;
    go_on(alloc, &mut engine, 1, rows)?;
    go_on(alloc, &mut engine, 2, times)?;
    Ok(u64::from(engine.history().len()))
}

/// Gives a block to the session, and goes on with it to its end.
fn run_block(alloc: Global, engine: &mut Engine, block: u32, most: u32) -> Result<(), NoMemory>
    requires known { 0 < engine.old.terms.scripts.sessions }
    requires of_session { option_map (λ b. b.session) (slice_get engine.old.terms.scripts.blocks block) ≡ Some 0 }
    requires not_closed { closed engine.old.past 0 ≡ false }
    ensures not_closed { OnOk result (closed engine.new.past 0 ≡ false) }
    ensures terms { OnOk result (engine.new.terms ≡ engine.old.terms) }
{
    let Ok(()) = engine.give(alloc, 0, block) else {
        return Err(NoMemory);
    };
    for _turn in 0..most {
        if !take_turn(alloc, engine)? {
            break;
        }
    }
    Ok(())
}

/// Goes on with a session that can, and tells whether there was one. Nothing counts its steps.
fn take_turn(alloc: Global, engine: &mut Engine) -> Result<bool, NoMemory>
    ensures closed_same { OnOk result (closed engine.new.past 0 ≡ closed engine.old.past 0) }
    ensures terms { OnOk result (engine.new.terms ≡ engine.old.terms) }
{
    let Some(session) = engine.ready() else {
        return Ok(false);
    };
    turn_in::<Brand>(alloc, engine, session, Blank::new(1))
}

/// A turn whose steps are counted in a new ledger. It tells whether the session went on.
fn turn_in<L: Ledger>(
    alloc: Global,
    engine: &mut Engine,
    session: u32,
    blank: Blank,
) -> Result<bool, NoMemory>
    requires known { session < engine.old.terms.scripts.sessions }
    requires name { blank.name ≡ L.name }
    requires parts { blank.parts ≡ L.parts }
    requires some { 0 < blank.parts }
    ensures closed_same { OnOk result (closed engine.new.past 0 ≡ closed engine.old.past 0) }
    ensures terms { OnOk result (engine.new.terms ≡ engine.old.terms) }
{
    let mut steps = Steps::<L>::new(blank);
    match engine.turn(alloc, session, &mut steps)? {
        Told::Went { .. } => Ok(true),
        Told::Waits | Told::Idle => Ok(false),
    }
}

/// CREATE TABLEs as block 0, and the statement of each turn as block 1.
fn scripts(alloc: Global, kind: Kind, tables: u32) -> Result<Scripts, NoMemory>
    ensures sessions { IfOk result (λ s. s.sessions ≡ 1) }
    ensures blocks { IfOk result (λ s. (a b : ScriptBlock) × (s.blocks ≡ a ∷ b ∷ []) × (a.session ≡ 0) × (b.session ≡ 0)) }
    ensures known { IfOk result AreOfSessions }
{
    let create = tables_block(alloc, tables)?;
    let turn = block_of(alloc, statement_of(alloc, kind)?)?;
    let mut blocks = ListOf::new(alloc);
    blocks.push(create)?;
    blocks.push(turn)?;
    Ok(Scripts {
        sessions: 1,
        blocks,
    })
}

fn create(alloc: Global, table: Name, width: u32) -> Result<Statement, NoMemory> {
    let mut columns = NameList::new(alloc);
    columns.push(Name::new(alloc, "a")?)?;
    for number in 1..width {
        let name = format!(in alloc; "a{number}")?;
        columns.push(Name::new(alloc, name.as_str())?)?;
    }
    Ok(Statement::CreateTable { table, columns })
}

/// The table of the statements behind so many, less one, whose names are numbered.
fn tables_block(alloc: Global, tables: u32) -> Result<ScriptBlock, NoMemory>
    ensures session { IfOk result (λ b. b.session ≡ 0) }
{
    let mut script = ListOf::new(alloc);
    for number in 1..tables {
        let name = format!(in alloc; "t{number}")?;
        script.push(create(alloc, Name::new(alloc, name.as_str())?, 1)?)?;
    }
    script.push(create(alloc, Name::new(alloc, "t")?, 1)?)?;
    let script = Ok(script);
    Ok(ScriptBlock { session: 0, script })
}

/// CREATE TABLE with so many columns as block 0, INSERT of a whole row as block 1, and SELECT as block 2.
fn row_scripts(alloc: Global, columns: u32) -> Result<Scripts, NoMemory>
    ensures sessions { IfOk result (λ s. s.sessions ≡ 1) }
    ensures blocks { IfOk result (λ s. (a b c : ScriptBlock) × (s.blocks ≡ a ∷ b ∷ c ∷ []) × (a.session ≡ 0) × (b.session ≡ 0) × (c.session ≡ 0)) }
    ensures known { IfOk result AreOfSessions }
{
    let create = block_of(alloc, create(alloc, Name::new(alloc, "t")?, columns)?)?;
    let insert = block_of(alloc, insert(alloc, columns)?)?;
    let select = block_of(alloc, statement_of(alloc, Kind::Select)?)?;
    let mut blocks = ListOf::new(alloc);
    blocks.push(create)?;
    blocks.push(insert)?;
    blocks.push(select)?;
    Ok(Scripts {
        sessions: 1,
        blocks,
    })
}

fn insert(alloc: Global, width: u32) -> Result<Statement, NoMemory> {
    let table = Name::new(alloc, "t")?;
    let mut values = Row::new(alloc);
    for _ in 0..width {
        values.push(Value::Int(7))?;
    }
    Ok(Statement::Insert { table, values })
}

fn statement_of(alloc: Global, kind: Kind) -> Result<Statement, NoMemory> {
    let table = Name::new(alloc, "t")?;
    match kind {
        Kind::Insert => insert(alloc, 1),
        Kind::Select => Ok(Statement::Select { table }),
        Kind::Refused => {
            let name = Name::new(alloc, "a")?;
            let default = Value::Null;
            let column = Column { name, default };
            Ok(Statement::AddColumn { table, column })
        }
    }
}

/// A block of the session with one statement.
fn block_of(alloc: Global, statement: Statement) -> Result<ScriptBlock, NoMemory>
    ensures session { IfOk result (λ b. b.session ≡ 0) }
{
    let mut script = ListOf::new(alloc);
    script.push(statement)?;
    let script = Ok(script);
    Ok(ScriptBlock { session: 0, script })
}

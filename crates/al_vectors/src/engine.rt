ghost use Rattle.std.specs.Prelude.{◌≡◌, ℕ, ◌∷◌, ◌<◌, [], false, Some, IfOk, OnOk, slice_get, option_map};
ghost use Rattle.al_history.specs.Hand.{closed};
ghost use Rattle.al_engine.specs.Ran.{AreOfSessions, Ran};
ghost use Rattle.al_history.specs.declared.statement.ScriptBlock.{ScriptBlock};

use al_engine::{Engine, Outcome, Told};
use al_history::{Column, Entry, History, ScriptBlock, Scripts, Statement};
use al_values::{ListOf, Name, NameList, NoMemory, Row, Steps, Value};
use std::alloc::Global;
use std::marker::Brand;
use std::process::Abort;
use std::sync::ledger::{Blank, Ledger};
use std::test::Fail;

// The blocks, by number.
const CREATE: u32 = 0;

const BEGIN: u32 = 1;

const ALTER: u32 = 2;

const COMMIT: u32 = 3;

const INSERT: u32 = 4;

// What a journal may weigh.
const WEIGHT: u32 = 2_000_000;

fn block(alloc: Global, session: u32, statement: Statement) -> Result<ScriptBlock, NoMemory>
    ensures session { IfOk result (λ b. b.session ≡ session) }
{
    let mut script = ListOf::new(alloc);
    script.push(statement)?;
    let script = Ok(script);
    Ok(ScriptBlock { session, script })
}

fn create(alloc: Global) -> Result<Statement, NoMemory> {
    let mut columns = NameList::new(alloc);
    columns.push(Name::new(alloc, "a")?)?;
    let table = Name::new(alloc, "t")?;
    Ok(Statement::CreateTable { table, columns })
}

fn alter(alloc: Global) -> Result<Statement, NoMemory> {
    let table = Name::new(alloc, "t")?;
    let name = Name::new(alloc, "b")?;
    let default = Value::Null;
    let column = Column { name, default };
    Ok(Statement::AddColumn { table, column })
}

fn insert(alloc: Global) -> Result<Statement, NoMemory> {
    let table = Name::new(alloc, "t")?;
    let mut values = Row::new(alloc);
    values.push(Value::Int(7))?;
    Ok(Statement::Insert { table, values })
}

// CREATE TABLE t (a integer), BEGIN, ALTER TABLE t ADD COLUMN b integer and COMMIT for session 0, INSERT INTO t VALUES (7) for
// session 1.
fn scripts(alloc: Global) -> Result<Scripts, NoMemory>
    ensures sessions { IfOk result (λ s. s.sessions ≡ 2) }
    ensures blocks { IfOk result (λ s. (a b c d e : ScriptBlock) × (s.blocks ≡ a ∷ b ∷ c ∷ d ∷ e ∷ []) × (a.session ≡ 0) × (b.session ≡ 0) × (c.session ≡ 0) × (d.session ≡ 0) × (e.session ≡ 1)) }
    ensures known { IfOk result AreOfSessions }
{
    let create = block(alloc, 0, create(alloc)?)?;
    let begin = block(alloc, 0, Statement::Begin)?;
    let alter = block(alloc, 0, alter(alloc)?)?;
    let commit = block(alloc, 0, Statement::Commit)?;
    let insert = block(alloc, 1, insert(alloc)?)?;
    let mut blocks = ListOf::new(alloc);
    blocks.push(create)?;
    blocks.push(begin)?;
    blocks.push(alter)?;
    blocks.push(commit)?;
    blocks.push(insert)?;
    Ok(Scripts {
        sessions: 2,
        blocks,
    })
}

// A turn, which closes no session. Its steps aren't counted.
fn turn(alloc: Global, engine: &mut Engine, session: u32) -> Result<Told, NoMemory>
    requires known { session < engine.old.terms.scripts.sessions }
    ensures closed_same { OnOk result ((s : ℕ) → closed engine.new.past s ≡ closed engine.old.past s) }
    ensures terms { OnOk result (engine.new.terms ≡ engine.old.terms) }
{
    turn_in::<Brand>(alloc, engine, session, Blank::new(1))
}

// A turn whose steps are counted in a new ledger.
fn turn_in<L: Ledger>(
    alloc: Global,
    engine: &mut Engine,
    session: u32,
    blank: Blank,
) -> Result<Told, NoMemory>
    requires known { session < engine.old.terms.scripts.sessions }
    requires name { blank.name ≡ L.name }
    requires parts { blank.parts ≡ L.parts }
    requires some { 0 < blank.parts }
    ensures closed_same { OnOk result ((s : ℕ) → closed engine.new.past s ≡ closed engine.old.past s) }
    ensures terms { OnOk result (engine.new.terms ≡ engine.old.terms) }
{
    let mut steps = Steps::<L>::new(blank);
    match engine.turn(alloc, session, &mut steps)? {
        Told::Went { from, to, outcome } => Ok(Told::Went { from, to, outcome }),
        Told::Waits => Ok(Told::Waits),
        Told::Idle => Ok(Told::Idle),
    }
}

// Turns of whoever can go on, nine at most.
fn go_on(alloc: Global, engine: &mut Engine) -> Result<(), NoMemory>
    ensures closed_same { OnOk result ((s : ℕ) → closed engine.new.past s ≡ closed engine.old.past s) }
    ensures terms { OnOk result (engine.new.terms ≡ engine.old.terms) }
{
    for _ in 0..9 {
        if let Some(session) = engine.ready() {
            turn(alloc, engine, session)?;
        }
    }
    Ok(())
}

// A block is given, and whoever can go on does.
fn run(alloc: Global, engine: &mut Engine, session: u32, block: u32) -> Result<(), NoMemory>
    requires known { session < engine.old.terms.scripts.sessions }
    requires of_session { option_map (λ b. b.session) (slice_get engine.old.terms.scripts.blocks block) ≡ Some session }
    requires open { (s : ℕ) → closed engine.old.past s ≡ false }
    ensures open { OnOk result ((s : ℕ) → closed engine.new.past s ≡ false) }
    ensures terms { OnOk result (engine.new.terms ≡ engine.old.terms) }
{
    let Ok(()) = engine.give(alloc, session, block) else {
        return Err(NoMemory);
    };
    go_on(alloc, engine)
}

// The table is there, session 0 has altered it in a block, and the INSERT of session 1 waits.
fn waiting(alloc: Global) -> Result<Engine, NoMemory>
    ensures sessions { IfOk result (λ engine. engine.terms.scripts.sessions ≡ 2) }
    ensures commit { IfOk result (λ engine. option_map (λ b. b.session) (slice_get engine.terms.scripts.blocks 3) ≡ Some 0) }
    ensures open { IfOk result (λ (engine : Ran). (s : ℕ) → closed engine.past s ≡ false) }
{
    let mut engine = Engine::open(alloc, scripts(alloc)?, WEIGHT)?;
    run(alloc, &mut engine, 0, CREATE)?;
    run(alloc, &mut engine, 0, BEGIN)?;
    run(alloc, &mut engine, 0, ALTER)?;
    run(alloc, &mut engine, 1, INSERT)?;
    Ok(engine)
}

// The kinds of a journal's entries, a letter for each.
fn kinds(alloc: Global, history: &History) -> Result<String, NoMemory> {
    let mut text = String::new(alloc);
    for entry in history.entries() {
        text.push(match entry {
            Entry::Give { .. } => 'g',
            Entry::Start { .. } => 's',
            Entry::Wait { .. } => 'w',
            Entry::Lock { .. } => 'k',
            Entry::Look { .. } => 'l',
            Entry::Make { .. } => 'm',
            Entry::Add { .. } => 'i',
            Entry::Read { .. } => 'r',
            Entry::Alter { .. } => 'a',
            Entry::Done { .. } => 'd',
            Entry::Refuse { .. } => 'f',
            Entry::Commit { .. } => 'c',
            Entry::Abort { .. } => 'b',
            Entry::Cancel { .. } => 'x',
            Entry::End { .. } => 'e',
            Entry::Close { .. } => 'z',
        })?;
    }
    Ok(text)
}

#[test]
fn waits_and_is_cancelled(rt: HostRuntime) -> Result<(), Fail> {
    let mut engine = waiting(rt.alloc())?;
    assert_eq!(rt; engine.ready(), None);
    assert!(rt; engine.is_busy(1));
    assert_eq!(rt; turn(rt.alloc(), &mut engine, 1)?, Told::Waits);
    assert_eq!(rt; turn(rt.alloc(), &mut engine, 0)?, Told::Idle);
    engine.cancel(1);
    engine.cancel(1);
    assert!(rt; !engine.is_busy(1));
    assert_eq!(rt; engine.ready(), None);
    assert_eq!(rt;
        kinds(rt.alloc(), engine.history())?.as_str(),
        "gslmdcegsdegkladegswxfbe"
    );
    Ok(())
}

#[test]
fn waits_for_commit(rt: HostRuntime) -> Result<(), Fail> {
    let mut engine = waiting(rt.alloc())?;
    assert!(rt; engine.give(rt.alloc(), 0, COMMIT).is_ok());
    assert_eq!(rt; engine.ready(), Some(0));
    let told = turn(rt.alloc(), &mut engine, 0)?;
    assert_eq!(rt;
        told,
        Told::Went {
            from: 21,
            to: 25,
            outcome: Outcome::WentOn
        }
    );
    assert_eq!(rt; engine.ready(), Some(1));
    go_on(rt.alloc(), &mut engine)?;
    assert_eq!(rt;
        kinds(rt.alloc(), engine.history())?.as_str(),
        "gslmdcegsdegkladegswgckdelidce"
    );
    Ok(())
}

#[test]
fn waits_for_close(rt: HostRuntime) -> Result<(), Fail> {
    let mut engine = waiting(rt.alloc())?;
    assert!(rt; !engine.is_busy(0));
    engine.close_session(0);
    assert_eq!(rt; engine.ready(), Some(1));
    go_on(rt.alloc(), &mut engine)?;
    assert_eq!(rt;
        kinds(rt.alloc(), engine.history())?.as_str(),
        "gslmdcegsdegkladegswbkzlidce"
    );
    Ok(())
}

// The table is made, where the journal may weigh so much.
fn created(alloc: Global, weight: u32) -> Result<Engine, NoMemory>
    ensures sessions { IfOk result (λ engine. engine.terms.scripts.sessions ≡ 2) }
    ensures insert { IfOk result (λ engine. option_map (λ b. b.session) (slice_get engine.terms.scripts.blocks 4) ≡ Some 1) }
    ensures open { IfOk result (λ (engine : Ran). (s : ℕ) → closed engine.past s ≡ false) }
{
    let mut engine = Engine::open(alloc, scripts(alloc)?, weight)?;
    run(alloc, &mut engine, 0, CREATE)?;
    Ok(engine)
}

// A Look weighs 1, and the Make of a table of one column 2.
#[test]
fn ends_at_the_limit(rt: HostRuntime) -> Result<(), Fail> {
    let rows = [(0, "gsfbe"), (2, "gslfbe"), (3, "gslmdce")];
    for (weight, entries) in rows {
        let engine = created(rt.alloc(), weight)?;
        assert_eq!(rt; kinds(rt.alloc(), engine.history())?.as_str(), entries);
    }
    Ok(())
}

// So many rows are added, each in a step of its own.
fn insert_often(alloc: Global, engine: &mut Engine, rows: usize) -> Result<(), NoMemory>
    requires known { engine.old.terms.scripts.sessions ≡ 2 }
    requires of_session { option_map (λ b. b.session) (slice_get engine.old.terms.scripts.blocks 4) ≡ Some 1 }
    requires open { (s : ℕ) → closed engine.old.past s ≡ false }
{
    for _ in 0..rows {
        run(alloc, engine, 1, INSERT)?;
    }
    Ok(())
}

// A run of thousands of entries. Each INSERT has eight: Give, Start, Lock, Look, Add, Done, Commit and End.
#[test]
fn runs_on(rt: HostRuntime) -> Result<(), Fail> {
    let mut engine = created(rt.alloc(), WEIGHT)?;
    insert_often(rt.alloc(), &mut engine, 800)?;
    assert_eq!(rt; engine.history().len(), 7 + 800 * 8);
    Ok(())
}

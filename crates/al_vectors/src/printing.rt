use al_app::print;
use al_history::{
    Block, Cause, Column, Entry, History, Level, Part, Reply, Run, RunLimit, Setup, Spec, Tag,
};
use al_values::{ListOf, NoMemory, Txt, Value};
use std::alloc::Global;
use std::test::Fail;

fn make_block(alloc: Global, part: Part, name: &str, text: &str) -> Result<Block, NoMemory> {
    let session = match part {
        Part::Setup | Part::Teardown => 0,
        Part::SessionSetup | Part::Step | Part::SessionTeardown => 1,
    };
    Ok(Block {
        part,
        session,
        name: Txt::new(alloc, name)?,
        text: Txt::new(alloc, text)?,
    })
}

// One session, two setup blocks, and the permutation `add sel`, or `add` alone.
fn make_spec(alloc: Global, second: &str, both: bool) -> Result<Spec, NoMemory> {
    let add = "ALTER TABLE t ADD COLUMN b integer DEFAULT 5;";
    let mut blocks = ListOf::new(alloc);
    blocks.push(make_block(alloc, Part::Setup, "", "CREATE TABLE t (a integer)")?)?;
    blocks.push(make_block(alloc, Part::Setup, "", second)?)?;
    blocks.push(make_block(alloc, Part::Step, "add", add)?)?;
    blocks.push(make_block(alloc, Part::Step, "sel", "SELECT * FROM t;")?)?;
    let mut steps = ListOf::new(alloc);
    steps.push(2)?;
    if both {
        steps.push(3)?;
    }
    let mut permutations = ListOf::new(alloc);
    permutations.push(steps)?;
    let mut sessions = ListOf::new(alloc);
    sessions.push(Txt::new(alloc, "s1")?)?;
    Ok(Spec {
        sessions,
        blocks,
        permutations,
    })
}

fn put(history: &mut History, entry: Entry) -> Result<(), NoMemory> {
    history.reserve(1)?;
    history.note(entry);
    Ok(())
}

// A block is given, and its first statement looks.
fn begin(history: &mut History, session: u32, block: u32) -> Result<u32, NoMemory> {
    put(history, Entry::Give { session, block })?;
    let xact = history.len();
    let level = Level::ReadCommitted;
    put(history, Entry::Start { session, level })?;
    put(history, Entry::Look { xact })?;
    Ok(xact)
}

// The last statement of a block is answered.
fn finish(history: &mut History, session: u32, xact: u32, reply: Reply) -> Result<(), NoMemory> {
    put(history, Entry::Done { session, reply })?;
    put(history, Entry::Commit { xact })?;
    put(history, Entry::End { session })
}

// The first setup block: the table `t`.
fn create(alloc: Global, history: &mut History) -> Result<u32, NoMemory> {
    let xact = begin(history, 0, 0)?;
    let table = history.len();
    let name = Txt::new(alloc, "t")?;
    let mut shape = ListOf::new(alloc);
    shape.push(Column {
        name: Txt::new(alloc, "a")?,
        default: Value::Null,
    })?;
    put(
        history,
        Entry::Make {
            xact,
            table,
            name,
            shape,
        },
    )?;
    let tag = Tag::CreateTable;
    finish(history, 0, xact, Reply::Tag { tag, count: 0 })?;
    Ok(table)
}

fn insert(alloc: Global, history: &mut History, table: u32) -> Result<(), NoMemory> {
    let xact = begin(history, 0, 1)?;
    let mut row = ListOf::new(alloc);
    row.push(Value::Int(1))?;
    put(history, Entry::Add { xact, table, row })?;
    let tag = Tag::Insert;
    finish(history, 0, xact, Reply::Tag { tag, count: 1 })
}

fn alter(alloc: Global, history: &mut History, table: u32) -> Result<(), NoMemory> {
    let xact = begin(history, 1, 2)?;
    put(
        history,
        Entry::Alter {
            xact,
            table,
            statement: 0,
            rewritten: ListOf::new(alloc),
        },
    )?;
    let tag = Tag::AlterTable;
    finish(history, 1, xact, Reply::Tag { tag, count: 0 })
}

fn select(alloc: Global, history: &mut History) -> Result<(), NoMemory> {
    let xact = begin(history, 1, 3)?;
    let mut names = ListOf::new(alloc);
    names.push(Txt::new(alloc, "a")?)?;
    names.push(Txt::new(alloc, "b")?)?;
    let mut row = ListOf::new(alloc);
    row.push(Value::Int(1))?;
    row.push(Value::Int(5))?;
    let mut rows = ListOf::new(alloc);
    rows.push(row)?;
    let entry = history.len();
    put(history, Entry::Read { xact, names, rows })?;
    finish(history, 1, xact, Reply::Rows { entry })
}

fn print_run(alloc: Global, spec: &Spec, setup: Setup, history: History) -> Result<Txt, NoMemory> {
    let mut runs = ListOf::new(alloc);
    runs.push(Run {
        permutation: 1,
        setup,
        history,
    })?;
    print(alloc, spec, &runs)
}

#[test]
fn prints_a_run(rt: HostRuntime) -> Result<(), Fail> {
    let alloc = rt.alloc();
    let spec = make_spec(alloc, "INSERT INTO t VALUES (1)", true)?;
    let mut history = History::new(alloc);
    let table = create(alloc, &mut history)?;
    insert(alloc, &mut history, table)?;
    alter(alloc, &mut history, table)?;
    select(alloc, &mut history)?;
    put(&mut history, Entry::Close { session: 1 })?;
    let text = print_run(alloc, &spec, Setup::Done, history)?;
    let wanted = "Parsed test spec with 1 sessions\n\
        \n\
        starting permutation: add sel\n\
        setup 1\n\
        CREATE TABLE\n\
        setup 2\n\
        INSERT 0 1\n\
        step add: ALTER TABLE t ADD COLUMN b integer DEFAULT 5;\n\
        ALTER TABLE\n\
        step sel: SELECT * FROM t;\n\
        a|b\n\
        1|5\n\
        (1 row)\n";
    assert_eq!(rt; text.as_str(), wanted);
    Ok(())
}

// The report of a run whose second setup block is refused.
fn print_refused(alloc: Global, cause: Cause) -> Result<Txt, NoMemory> {
    let spec = make_spec(alloc, "CREATE TABLE t (b integer)", true)?;
    let mut history = History::new(alloc);
    create(alloc, &mut history)?;
    let xact = begin(&mut history, 0, 1)?;
    put(&mut history, Entry::Refuse { session: 0, cause })?;
    put(&mut history, Entry::Abort { xact })?;
    put(&mut history, Entry::End { session: 0 })?;
    print_run(alloc, &spec, Setup::Failed { block: 1 }, history)
}

#[test]
fn prints_a_failed_setup(rt: HostRuntime) -> Result<(), Fail> {
    let alloc = rt.alloc();
    let missing = Txt::new(alloc, "t")?;
    let table = Txt::new(alloc, "t")?;
    let column = Txt::new(alloc, "b")?;
    for (cause, line) in [
        (
            Cause::NoTable { name: missing },
            "42P01: table \"t\" does not exist",
        ),
        (
            Cause::TwiceTable { name: table },
            "42P07: table \"t\" already exists",
        ),
        (
            Cause::TwiceColumn { name: column },
            "42701: column \"b\" already exists",
        ),
        (
            Cause::Count { want: 2, got: 3 },
            "42601: INSERT has 3 values for 2 columns",
        ),
        (
            Cause::BlockFailed { refuse: 3 },
            "25P02: transaction block has failed",
        ),
        (
            Cause::Limit {
                what: RunLimit::Journal,
                count: 2_000_001,
            },
            "54000: limit of journal passed",
        ),
        (Cause::Cancelled { entry: 3 }, "57014: cancelled"),
    ] {
        let text = print_refused(alloc, cause)?;
        let wanted = format!(in alloc;
            "Parsed test spec with 1 sessions\n\
            \n\
            starting permutation: add sel\n\
            setup 1\n\
            CREATE TABLE\n\
            setup 2\n\
            ERROR: {line}\n\
            setup failed\n"
        )?;
        assert_eq!(rt; text.as_str(), wanted.as_str());
    }
    Ok(())
}

// The report of a step that is answered by a tag.
fn print_tag(alloc: Global, tag: Tag) -> Result<Txt, NoMemory> {
    let spec = make_spec(alloc, "INSERT INTO t VALUES (1)", false)?;
    let mut history = History::new(alloc);
    put(
        &mut history,
        Entry::Give {
            session: 1,
            block: 2,
        },
    )?;
    let reply = Reply::Tag { tag, count: 0 };
    put(&mut history, Entry::Done { session: 1, reply })?;
    put(&mut history, Entry::End { session: 1 })?;
    print_run(alloc, &spec, Setup::Done, history)
}

#[test]
fn prints_tags(rt: HostRuntime) -> Result<(), Fail> {
    let alloc = rt.alloc();
    for (tag, line) in [
        (Tag::Begin, "BEGIN"),
        (Tag::Commit, "COMMIT"),
        (Tag::Rollback, "ROLLBACK"),
    ] {
        let text = print_tag(alloc, tag)?;
        let wanted = format!(in alloc;
            "Parsed test spec with 1 sessions\n\
            \n\
            starting permutation: add\n\
            step add: ALTER TABLE t ADD COLUMN b integer DEFAULT 5;\n\
            {line}\n"
        )?;
        assert_eq!(rt; text.as_str(), wanted.as_str());
    }
    Ok(())
}

// What becomes of a session's step.
#[derive(Clone, Copy)]
enum Act {
    Give(u32),
    Tag(Tag),
    Rows,
    Cancel,
    End,
    Close,
}

fn answer(history: &mut History, session: u32, reply: Reply) -> Result<(), NoMemory> {
    put(history, Entry::Done { session, reply })
}

// A SELECT of a table of one column and one row.
fn read(alloc: Global, history: &mut History, session: u32) -> Result<(), NoMemory> {
    let mut names = ListOf::new(alloc);
    names.push(Txt::new(alloc, "a")?)?;
    let mut row = ListOf::new(alloc);
    row.push(Value::Int(1))?;
    let mut rows = ListOf::new(alloc);
    rows.push(row)?;
    let entry = history.len();
    let xact = 0;
    put(history, Entry::Read { xact, names, rows })?;
    answer(history, session, Reply::Rows { entry })
}

fn cancel(history: &mut History, session: u32) -> Result<(), NoMemory> {
    let entry = history.len();
    put(history, Entry::Cancel { session })?;
    let cause = Cause::Cancelled { entry };
    put(history, Entry::Refuse { session, cause })
}

fn note_act(alloc: Global, history: &mut History, session: u32, act: Act) -> Result<(), NoMemory> {
    match act {
        Act::Give(block) => put(history, Entry::Give { session, block }),
        Act::Tag(tag) => answer(history, session, Reply::Tag { tag, count: 0 }),
        Act::Rows => read(alloc, history, session),
        Act::Cancel => cancel(history, session),
        Act::End => put(history, Entry::End { session }),
        Act::Close => put(history, Entry::Close { session }),
    }
}

fn push_step(
    alloc: Global,
    blocks: &mut ListOf<Block>,
    session: u32,
    name: &str,
    text: &str,
) -> Result<(), NoMemory> {
    blocks.push(Block {
        part: Part::Step,
        session,
        name: Txt::new(alloc, name)?,
        text: Txt::new(alloc, text)?,
    })
}

// Three sessions, and a permutation of their steps, which count from 0 in the order b, x, e, r, y.
fn make_waiting(alloc: Global, steps: &[u32]) -> Result<Spec, NoMemory> {
    let mut blocks = ListOf::new(alloc);
    push_step(alloc, &mut blocks, 1, "b", "BEGIN")?;
    push_step(
        alloc,
        &mut blocks,
        1,
        "x",
        "ALTER TABLE t ADD COLUMN b integer",
    )?;
    push_step(alloc, &mut blocks, 1, "e", "ROLLBACK;")?;
    push_step(alloc, &mut blocks, 2, "r", "SELECT *\n  FROM t")?;
    push_step(alloc, &mut blocks, 3, "y", "CREATE TABLE u (a integer)")?;
    let mut numbers = ListOf::new(alloc);
    for step in steps {
        numbers.push(*step)?;
    }
    let mut permutations = ListOf::new(alloc);
    permutations.push(numbers)?;
    let mut sessions = ListOf::new(alloc);
    for name in ["s1", "s2", "the \"other\""] {
        sessions.push(Txt::new(alloc, name)?)?;
    }
    Ok(Spec {
        sessions,
        blocks,
        permutations,
    })
}

fn print_acts(alloc: Global, steps: &[u32], acts: &[(u32, Act)]) -> Result<Txt, NoMemory> {
    let spec = make_waiting(alloc, steps)?;
    let mut history = History::new(alloc);
    for (session, what) in acts {
        note_act(alloc, &mut history, *session, *what)?;
    }
    print_run(alloc, &spec, Setup::Done, history)
}

#[test]
fn prints_a_step_that_waits(rt: HostRuntime) -> Result<(), Fail> {
    let alloc = rt.alloc();
    let acts = [
        (1, Act::Give(0)),
        (1, Act::Tag(Tag::Begin)),
        (1, Act::End),
        (1, Act::Give(1)),
        (1, Act::Tag(Tag::AlterTable)),
        (1, Act::End),
        (2, Act::Give(3)),
        (1, Act::Give(2)),
        (1, Act::Tag(Tag::Rollback)),
        (1, Act::End),
        (2, Act::Rows),
        (2, Act::End),
        (1, Act::Close),
    ];
    let text = print_acts(alloc, &[0, 1, 3, 2], &acts)?;
    let wanted = "Parsed test spec with 3 sessions\n\
        \n\
        starting permutation: b x r e\n\
        step b: BEGIN\n\
        BEGIN\n\
        step x: ALTER TABLE t ADD COLUMN b integer\n\
        ALTER TABLE\n\
        step r: SELECT *\n  FROM t <waiting ...>\n\
        step e: ROLLBACK;\n\
        ROLLBACK\n\
        step r: <... completed>\n\
        a\n\
        1\n\
        (1 row)\n";
    assert_eq!(rt; text.as_str(), wanted);
    Ok(())
}

// The report of `y` and `r`, which wait, and what comes after them, behind the line that names the permutation.
fn print_two(alloc: Global, steps: &[u32], later: &[(u32, Act)]) -> Result<Txt, NoMemory> {
    let spec = make_waiting(alloc, steps)?;
    let mut history = History::new(alloc);
    note_act(alloc, &mut history, 3, Act::Give(4))?;
    note_act(alloc, &mut history, 2, Act::Give(3))?;
    for (session, what) in later {
        note_act(alloc, &mut history, *session, *what)?;
    }
    print_run(alloc, &spec, Setup::Done, history)
}

fn two_lines(alloc: Global, names: &str, later: &str) -> Result<String, NoMemory> {
    let text = format!(in alloc;
        "Parsed test spec with 3 sessions\n\
        \n\
        starting permutation: {names}\n\
        step y: CREATE TABLE u (a integer) <waiting ...>\n\
        step r: SELECT *\n  FROM t <waiting ...>\n\
        {later}"
    )?;
    Ok(text)
}

#[test]
fn prints_steps_in_the_order_of_their_ends(rt: HostRuntime) -> Result<(), Fail> {
    let alloc = rt.alloc();
    let acts = [
        (1, Act::Give(2)),
        (3, Act::Tag(Tag::CreateTable)),
        (3, Act::End),
        (1, Act::Tag(Tag::Rollback)),
        (1, Act::End),
        (2, Act::Rows),
        (2, Act::End),
        (2, Act::Give(3)),
        (2, Act::Rows),
        (2, Act::End),
    ];
    let text = print_two(alloc, &[4, 3, 2, 3], &acts)?;
    let wanted = two_lines(
        alloc,
        "y r e r",
        "step e: ROLLBACK;\n\
        ROLLBACK\n\
        step y: <... completed>\n\
        CREATE TABLE\n\
        step r: <... completed>\n\
        a\n\
        1\n\
        (1 row)\n\
        step r: SELECT *\n  FROM t\n\
        a\n\
        1\n\
        (1 row)\n",
    )?;
    assert_eq!(rt; text.as_str(), wanted.as_str());
    Ok(())
}

#[test]
fn prints_a_step_for_a_blocked_session(rt: HostRuntime) -> Result<(), Fail> {
    let alloc = rt.alloc();
    let acts = [
        (2, Act::Cancel),
        (2, Act::End),
        (3, Act::Tag(Tag::CreateTable)),
        (3, Act::End),
        (1, Act::Close),
    ];
    let text = print_two(alloc, &[4, 3, 4, 2], &acts)?;
    let wanted = two_lines(
        alloc,
        "y r y e",
        "step y: not given, session \"the \"\"other\"\"\" is blocked\n\
        step r: <... completed>\n\
        ERROR: 57014: cancelled\n\
        step y: <... completed>\n\
        CREATE TABLE\n",
    )?;
    assert_eq!(rt; text.as_str(), wanted.as_str());
    Ok(())
}

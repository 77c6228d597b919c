use al_app::{Answer, Status, answer, answer_alone};
use al_history::{Setup, SpecFault};
use al_outside::{MemorySink, MemorySource, OpenGate, Room8};
use al_values::{CallList, NoMemory, Txt, Txt8, Word};
use std::alloc::Global;
use std::process::Abort;
use std::test::Fail;

const ADDS: &str = "setup { CREATE TABLE t (a integer) }
setup { INSERT INTO t VALUES (1) }
session s1
step add { ALTER TABLE t ADD COLUMN b integer DEFAULT 5; }
step sel { SELECT * FROM t; }
permutation add sel
";

const ADDS_REPORT: &str = "Parsed test spec with 1 sessions

starting permutation: add sel
setup 1
CREATE TABLE
setup 2
INSERT 0 1
step add: ALTER TABLE t ADD COLUMN b integer DEFAULT 5;
ALTER TABLE
step sel: SELECT * FROM t;
a|b
1|5
(1 row)
";

// Bytes that are no spec file, or one without a permutation, each with its fault and its line.
const FAULTY: [(&[u8], SpecFault, &str); 12] = [
    (
        b"",
        SpecFault::Syntax { at: 0 },
        "spec fault at byte 0: syntax\n",
    ),
    (
        b"session s1 step a { SELECT",
        SpecFault::Syntax { at: 26 },
        "spec fault at byte 26: syntax\n",
    ),
    (
        b"session s\xff step x { SELECT * FROM t } permutation x",
        SpecFault::Utf8 { at: 9 },
        "spec fault at byte 9: utf8\n",
    ),
    (
        b"session s step x { } \0 permutation x",
        SpecFault::Syntax { at: 21 },
        "spec fault at byte 21: syntax\n",
    ),
    (
        b"session s step x { } step x { } permutation x",
        SpecFault::TwoSteps { at: 26 },
        "spec fault at byte 26: two steps\n",
    ),
    (
        b"session s step x { } session t step x { } permutation y",
        SpecFault::TwoSteps { at: 36 },
        "spec fault at byte 36: two steps\n",
    ),
    (
        b"session s step x { } permutation x y",
        SpecFault::NoStep { at: 35 },
        "spec fault at byte 35: no step\n",
    ),
    (
        b"session s step x { } permutation x(*)",
        SpecFault::Marker { at: 34 },
        "spec fault at byte 34: marker\n",
    ),
    (
        b"teardown { } setup { } session s step x { } permutation x",
        SpecFault::Syntax { at: 13 },
        "spec fault at byte 13: syntax\n",
    ),
    (
        b"session s permutation x",
        SpecFault::Syntax { at: 10 },
        "spec fault at byte 10: syntax\n",
    ),
    (
        b"session s step x { }",
        SpecFault::NoPermutation,
        "spec fault: no permutation\n",
    ),
    (
        b"setup { SELEC } session s step x { } # permutation x",
        SpecFault::NoPermutation,
        "spec fault: no permutation\n",
    ),
];

const TOO_LONG: &str = "input too long\n";

const USAGE: &str =
    "usage: alterlive run [--brief] | race [--brief] | plan | load NUMBER [--rows ROWS]\n";

// Spec files whose setup part is done, each with its report.
const DONE: [(&str, &str); 5] = [
    // Each refusal; the statements after it go on from what was there before it.
    (
        "setup { CREATE TABLE t (a integer) }
session s
step missing { SELECT * FROM u }
step add { ALTER TABLE u ADD COLUMN a integer; }
step put { INSERT INTO u VALUES (1) }
step table { CREATE TABLE t (b integer, b integer) }
step columns { CREATE TABLE u (c integer, b integer, b integer) }
step column { ALTER TABLE t ADD COLUMN a integer DEFAULT 3 }
step count { INSERT INTO t VALUES (1, 2) }
step ins { INSERT INTO t VALUES (3) }
step sel { SELECT * FROM t }
permutation missing add put table columns column count ins missing sel
",
        "Parsed test spec with 1 sessions

starting permutation: missing add put table columns column count ins missing sel
setup 1
CREATE TABLE
step missing: SELECT * FROM u
ERROR: 42P01: table \"u\" does not exist
step add: ALTER TABLE u ADD COLUMN a integer;
ERROR: 42P01: table \"u\" does not exist
step put: INSERT INTO u VALUES (1)
ERROR: 42P01: table \"u\" does not exist
step table: CREATE TABLE t (b integer, b integer)
ERROR: 42P07: table \"t\" already exists
step columns: CREATE TABLE u (c integer, b integer, b integer)
ERROR: 42701: column \"b\" already exists
step column: ALTER TABLE t ADD COLUMN a integer DEFAULT 3
ERROR: 42701: column \"a\" already exists
step count: INSERT INTO t VALUES (1, 2)
ERROR: 42601: INSERT has 2 values for 1 columns
step ins: INSERT INTO t VALUES (3)
INSERT 0 1
step missing: SELECT * FROM u
ERROR: 42P01: table \"u\" does not exist
step sel: SELECT * FROM t
a
3
(1 row)
",
    ),
    // No setup block; an empty table; zeros in front, Null, and words in either case.
    (
        "session s
step c { create table T (A integer, b INTEGER); }
step sel { Select * From t }
step i { INSERT INTO T VALUES (007) }
step n { insert into t values (null, 999999999) }
step z { insert into t values (000000000, NULL) ; }
permutation c sel i n z sel
",
        "Parsed test spec with 1 sessions

starting permutation: c sel i n z sel
step c: create table T (A integer, b INTEGER);
CREATE TABLE
step sel: Select * From t
a|b
(0 rows)
step i: INSERT INTO T VALUES (007)
INSERT 0 1
step n: insert into t values (null, 999999999)
INSERT 0 1
step z: insert into t values (000000000, NULL) ;
INSERT 0 1
step sel: Select * From t
a|b
7|
|999999999
0|
(3 rows)
",
    ),
    // New columns with and without a default, which rows of before and after take; a written NULL stays.
    (
        "setup { CREATE TABLE t (a integer) }
setup { INSERT INTO t VALUES (1) }
session s
step plain { ALTER TABLE t ADD COLUMN b integer }
step five { ALTER TABLE t ADD COLUMN c integer DEFAULT 05 }
step one { INSERT INTO t VALUES (2) }
step all { INSERT INTO t VALUES (3, 4, NULL) }
step many { INSERT INTO t VALUES (1, 2, 3, 4) }
step again { ALTER TABLE t ADD COLUMN b integer DEFAULT 9 }
step sel { SELECT * FROM t }
permutation plain five one all many again sel
",
        "Parsed test spec with 1 sessions

starting permutation: plain five one all many again sel
setup 1
CREATE TABLE
setup 2
INSERT 0 1
step plain: ALTER TABLE t ADD COLUMN b integer
ALTER TABLE
step five: ALTER TABLE t ADD COLUMN c integer DEFAULT 05
ALTER TABLE
step one: INSERT INTO t VALUES (2)
INSERT 0 1
step all: INSERT INTO t VALUES (3, 4, NULL)
INSERT 0 1
step many: INSERT INTO t VALUES (1, 2, 3, 4)
ERROR: 42601: INSERT has 4 values for 3 columns
step again: ALTER TABLE t ADD COLUMN b integer DEFAULT 9
ERROR: 42701: column \"b\" already exists
step sel: SELECT * FROM t
a|b|c
1||5
2||5
3|4|
(3 rows)
",
    ),
    // A step that is given twice, a row that is an empty line, and a table that an ALTER TABLE of another leaves alone.
    (
        "setup { CREATE TABLE t (a integer) }
setup { CREATE TABLE u (a integer) }
setup { INSERT INTO u VALUES (NULL) }
setup { INSERT INTO t VALUES (8) }
session s
step add { ALTER TABLE t ADD COLUMN b integer DEFAULT 0 }
step t { SELECT * FROM t }
step u { SELECT * FROM u }
permutation t add add t u
",
        "Parsed test spec with 1 sessions

starting permutation: t add add t u
setup 1
CREATE TABLE
setup 2
CREATE TABLE
setup 3
INSERT 0 1
setup 4
INSERT 0 1
step t: SELECT * FROM t
a
8
(1 row)
step add: ALTER TABLE t ADD COLUMN b integer DEFAULT 0
ALTER TABLE
step add: ALTER TABLE t ADD COLUMN b integer DEFAULT 0
ERROR: 42701: column \"b\" already exists
step t: SELECT * FROM t
a|b
8|0
(1 row)
step u: SELECT * FROM u
a

(1 row)
",
    ),
    // A comment, names past ASCII, and a text with line feeds.
    (
        "# one session\nsession \u{e9} step \u{e9}$1 {\n\tSELECT *\n FROM t;\n } permutation \u{e9}$1",
        "Parsed test spec with 1 sessions\n\nstarting permutation: \u{e9}$1\nstep \u{e9}$1: \n\tSELECT *\n FROM t;\n\nERROR: 42P01: table \"t\" does not exist\n",
    ),
];

// Spec files whose setup part fails, each with the block and the report.
const SETUP_FAILED: [(&str, u32, &str); 4] = [
    (
        "setup { CREATE TABLE t (a integer) }
setup { CREATE TABLE t (b integer) }
session s1
step add { ALTER TABLE t ADD COLUMN b integer DEFAULT 5; }
step sel { SELECT * FROM t; }
permutation add sel
",
        1,
        "Parsed test spec with 1 sessions

starting permutation: add sel
setup 1
CREATE TABLE
setup 2
ERROR: 42P07: table \"t\" already exists
setup failed
",
    ),
    (
        "setup { INSERT INTO u VALUES (1) } setup { CREATE TABLE u (a integer) }
session s step x { SELECT * FROM u } permutation x x
",
        0,
        "Parsed test spec with 1 sessions

starting permutation: x x
setup 1
ERROR: 42P01: table \"u\" does not exist
setup failed
",
    ),
    (
        "setup { CREATE TABLE t (a integer, b integer, a integer) }
session s step x { SELECT * FROM t } permutation x
",
        0,
        "Parsed test spec with 1 sessions

starting permutation: x
setup 1
ERROR: 42701: column \"a\" already exists
setup failed
",
    ),
    (
        "setup { CREATE TABLE t (a integer) } setup { INSERT INTO t VALUES (1) }
setup { INSERT INTO t VALUES (1, NULL, 3) } setup { INSERT INTO t VALUES (2) }
session s step x { SELECT * FROM t } permutation x
",
        2,
        "Parsed test spec with 1 sessions

starting permutation: x
setup 1
CREATE TABLE
setup 2
INSERT 0 1
setup 3
ERROR: 42601: INSERT has 3 values for 1 columns
setup failed
",
    ),
];

fn source_of(alloc: Global, bytes: &[u8]) -> Result<MemorySource, NoMemory> {
    let bytes = Txt8::from_vec(bytes.to_vec(alloc)?);
    Ok(MemorySource::new(bytes, 4_096, CallList::new(alloc)))
}

fn sink_of(alloc: Global) -> Result<MemorySink, NoMemory> {
    let room = Room8::new(alloc, 4_096)?;
    Ok(MemorySink::new(room, 4_096, CallList::new(alloc)))
}

// The call numbers where something fails: 1 alone.
fn second_call(alloc: Global) -> Result<CallList, NoMemory> {
    let mut calls = CallList::new(alloc);
    calls.push(1)?;
    Ok(calls)
}

fn words_of(alloc: Global, texts: &[&str]) -> Result<Vec<Word>, NoMemory> {
    let mut words = Vec::new(alloc);
    for text in texts {
        words.push(Txt::new(alloc, text)?)?;
    }
    Ok(words)
}

// The answer, where the status and the bytes that are written are as wanted.
fn answer_to(
    rt: &impl Abort,
    alloc: Global,
    texts: &[&str],
    bytes: &[u8],
    status: Status,
    written: &str,
) -> Result<Answer, NoMemory> {
    let words = words_of(alloc, texts)?;
    let mut source = source_of(alloc, bytes)?;
    let mut sink = sink_of(alloc)?;
    let answer = answer_alone(alloc, &words, &mut source, &mut sink);
    assert_eq!(rt; answer.status, status);
    assert_eq!(rt; sink.held(), written.as_bytes());
    Ok(answer)
}

// The setup part and the number of entries of the one run of an answer.
fn only_run(answer: &Answer) -> Option<(u32, Setup, usize)> {
    if answer.runs.len() != 1 {
        return None;
    }
    let run = answer.runs.get(0)?;
    Some((run.permutation, run.setup, run.history.entries().len()))
}

#[test]
fn reports_a_run(rt: HostRuntime) -> Result<(), Fail> {
    let answer = answer_to(
        &rt,
        rt.alloc(),
        &["run"],
        ADDS.as_bytes(),
        Status::Done,
        ADDS_REPORT,
    )?;
    assert_eq!(rt; only_run(&answer), Some((1, Setup::Done, 33)));
    for (file, report) in DONE {
        let answer = answer_to(
            &rt,
            rt.alloc(),
            &["run"],
            file.as_bytes(),
            Status::Done,
            report,
        )?;
        assert_eq!(rt; answer.runs.len(), 1);
    }
    Ok(())
}

#[test]
fn reports_a_failed_setup(rt: HostRuntime) -> Result<(), Fail> {
    for (file, block, report) in SETUP_FAILED {
        let status = Status::SetupFailed { run: 1 };
        let answer = answer_to(&rt, rt.alloc(), &["run"], file.as_bytes(), status, report)?;
        let run = only_run(&answer).ok_or("one run")?;
        assert_eq!(rt; run.1, Setup::Failed { block });
    }
    Ok(())
}

fn blanks(alloc: Global, len: usize) -> Result<Vec<u8>, NoMemory> {
    Ok(vec![in alloc; b' '; len]?)
}

#[test]
fn refuses_faulty_files(rt: HostRuntime) -> Result<(), Fail> {
    for (bytes, fault, line) in FAULTY {
        let status = Status::SpecFault(fault);
        let answer = answer_to(&rt, rt.alloc(), &["run"], bytes, status, line)?;
        assert_eq!(rt; answer.runs.len(), 0);
    }
    Ok(())
}

#[test]
fn reads_so_many_bytes(rt: HostRuntime) -> Result<(), Fail> {
    let alloc = rt.alloc();
    let fault = Status::SpecFault(SpecFault::Syntax { at: 4_194_304 });
    let line = "spec fault at byte 4194304: syntax\n";
    answer_to(
        &rt,
        alloc,
        &["run"],
        &blanks(alloc, 4_194_304)?,
        fault,
        line,
    )?;
    let long = blanks(alloc, 4_194_305)?;
    let answer = answer_to(&rt, alloc, &["run"], &long, Status::TooLong, TOO_LONG)?;
    assert_eq!(rt; answer.runs.len(), 0);
    Ok(())
}

#[test]
fn refuses_other_words(rt: HostRuntime) -> Result<(), Fail> {
    let none: [&str; 0] = [];
    for (words, word) in [
        (none.as_slice(), 0),
        (["walk"].as_slice(), 0),
        (["race"].as_slice(), 0),
        (["Run"].as_slice(), 0),
        (["run", "run"].as_slice(), 1),
        (["run", "--brief", "run"].as_slice(), 1),
        (["walk", "run"].as_slice(), 0),
    ] {
        let status = Status::Usage { word };
        let answer = answer_to(&rt, rt.alloc(), words, ADDS.as_bytes(), status, USAGE)?;
        assert_eq!(rt; answer.runs.len(), 0);
    }
    Ok(())
}

// The answer to `run` over a source and a sink.
fn run(
    alloc: Global,
    source: &mut MemorySource,
    sink: &mut MemorySink,
) -> Result<Answer, NoMemory> {
    let words = words_of(alloc, &["run"])?;
    Ok(answer_alone(alloc, &words, source, sink))
}

// Whether a sink holds a front of the report, of 1 to so many bytes.
fn holds_front(sink: &MemorySink, most: usize) -> bool {
    let held = sink.held();
    !held.is_empty() && held.len() <= most && ADDS_REPORT.as_bytes().starts_with(held)
}

#[test]
fn keeps_the_run_where_the_sink_fails(rt: HostRuntime) -> Result<(), Fail> {
    let alloc = rt.alloc();
    let mut source = source_of(alloc, ADDS.as_bytes())?;
    let mut sink = MemorySink::new(Room8::new(alloc, 4_096)?, 64, second_call(alloc)?);
    let answer = run(alloc, &mut source, &mut sink)?;
    assert_eq!(rt; answer.status, Status::WriteFault);
    assert_eq!(rt; answer.runs.len(), 1);
    assert!(rt; holds_front(&sink, 64));
    Ok(())
}

#[test]
fn fills_a_small_sink(rt: HostRuntime) -> Result<(), Fail> {
    let alloc = rt.alloc();
    let mut source = source_of(alloc, ADDS.as_bytes())?;
    let mut sink = MemorySink::new(Room8::new(alloc, 100)?, 64, CallList::new(alloc));
    let answer = run(alloc, &mut source, &mut sink)?;
    assert_eq!(rt; answer.status, Status::WriteFault);
    assert_eq!(rt; sink.held().len(), 100);
    assert!(rt; holds_front(&sink, 100));
    Ok(())
}

#[test]
fn writes_nothing_where_the_source_fails(rt: HostRuntime) -> Result<(), Fail> {
    let alloc = rt.alloc();
    let bytes = Txt8::from_vec(ADDS.as_bytes().to_vec(alloc)?);
    let mut source = MemorySource::new(bytes, 10, second_call(alloc)?);
    let mut sink = sink_of(alloc)?;
    let answer = run(alloc, &mut source, &mut sink)?;
    assert_eq!(rt; answer.status, Status::ReadFault);
    assert_eq!(rt; answer.runs.len(), 0);
    assert_eq!(rt; sink.held().len(), 0);
    Ok(())
}

#[test]
fn numbers(rt: HostRuntime) {
    for (status, number) in [
        (Status::Done, 0),
        (Status::SpecFault(SpecFault::NoPermutation), 1),
        (Status::Usage { word: 1 }, 2),
        (Status::ReadFault, 3),
        (Status::WriteFault, 4),
        (Status::NoMemory, 5),
        (Status::TooLong, 6),
        (Status::SetupFailed { run: 1 }, 7),
    ] {
        assert_eq!(rt; status.number(), number);
    }
}

#[test]
fn answers_with_threads_at_hand(rt: HostRuntime) -> Result<(), Fail> {
    let alloc = rt.alloc();
    let words = words_of(alloc, &["run"])?;
    let mut source = source_of(alloc, ADDS.as_bytes())?;
    let mut sink = sink_of(alloc)?;
    let answer = answer(&rt, alloc, &words, &mut source, &mut sink, &OpenGate);
    assert_eq!(rt; answer.status, Status::Done);
    assert_eq!(rt; sink.held(), ADDS_REPORT.as_bytes());
    assert_eq!(rt; only_run(&answer), Some((1, Setup::Done, 33)));
    Ok(())
}

use al_app::{Status, answer_alone};
use al_outside::{MemorySink, MemorySource, Room8};
use al_values::{CallList, NoMemory, Txt, Txt8};
use std::alloc::Global;
use std::process::Abort;
use std::test::Fail;

// Whole spec files over `SETUP`: how many sessions there are, what stands after the setup block, and what is told after the first line.
const DONE: [(usize, &str, &str); 23] = [
    // A teardown block that is refused: the run goes on.
    (
        1,
        "teardown { SELECT * FROM t }
session s1
step x { SELECT * FROM t }
teardown { SELECT * FROM v }
permutation x
",
        "
starting permutation: x
setup 1
CREATE TABLE
INSERT 0 1
step x: SELECT * FROM t
a
1
(1 row)
session s1 teardown
ERROR: 42P01: table \"v\" does not exist
teardown
a
1
(1 row)
",
    ),
    // A teardown block in an open transaction, which the close aborts.
    (
        1,
        "teardown { SELECT * FROM t }
session s1
step b { BEGIN; INSERT INTO t VALUES (2) }
teardown { SELECT * FROM t }
permutation b
",
        "
starting permutation: b
setup 1
CREATE TABLE
INSERT 0 1
step b: BEGIN; INSERT INTO t VALUES (2)
BEGIN
INSERT 0 1
session s1 teardown
a
1
2
(2 rows)
teardown
a
1
(1 row)
",
    ),
    // A teardown block that waits is cancelled.
    (
        2,
        "teardown { SELECT * FROM t }
session s1
step b { BEGIN; ALTER TABLE t ADD COLUMN b integer }
session s2
step x { BEGIN }
teardown { SELECT * FROM t }
permutation b
",
        "
starting permutation: b
setup 1
CREATE TABLE
INSERT 0 1
step b: BEGIN; ALTER TABLE t ADD COLUMN b integer
BEGIN
ALTER TABLE
session s2 teardown
ERROR: 57014: cancelled
teardown
a
1
(1 row)
",
    ),
    // COMMIT and BEGIN inside a block of five statements.
    (
        2,
        "session s1
step x { BEGIN; INSERT INTO t VALUES (2); COMMIT; BEGIN; INSERT INTO t VALUES (3) }
session s2
step y { SELECT * FROM t }
permutation x y
",
        "
starting permutation: x y
setup 1
CREATE TABLE
INSERT 0 1
step x: BEGIN; INSERT INTO t VALUES (2); COMMIT; BEGIN; INSERT INTO t VALUES (3)
BEGIN
INSERT 0 1
COMMIT
BEGIN
INSERT 0 1
step y: SELECT * FROM t
a
1
2
(2 rows)
",
    ),
    // BEGIN after an INSERT makes its implicit transaction a block, and ROLLBACK takes all of it back.
    (
        1,
        "session s1
step x { INSERT INTO t VALUES (2); BEGIN; INSERT INTO t VALUES (3); ROLLBACK }
step y { SELECT * FROM t }
permutation x y
",
        "
starting permutation: x y
setup 1
CREATE TABLE
INSERT 0 1
step x: INSERT INTO t VALUES (2); BEGIN; INSERT INTO t VALUES (3); ROLLBACK
INSERT 0 1
BEGIN
INSERT 0 1
ROLLBACK
step y: SELECT * FROM t
a
1
(1 row)
",
    ),
    // Several statements without BEGIN are one transaction.
    (
        1,
        "session s1
step x { INSERT INTO t VALUES (2); INSERT INTO t VALUES (3); SELECT * FROM t; }
permutation x
",
        "
starting permutation: x
setup 1
CREATE TABLE
INSERT 0 1
step x: INSERT INTO t VALUES (2); INSERT INTO t VALUES (3); SELECT * FROM t;
INSERT 0 1
INSERT 0 1
a
1
2
3
(3 rows)
",
    ),
    // A refusal in the middle takes it back, and the later statements are dropped.
    (
        1,
        "session s1
step x { INSERT INTO t VALUES (2); INSERT INTO u VALUES (1); INSERT INTO t VALUES (3); }
step y { SELECT * FROM t; }
permutation x y
",
        "
starting permutation: x y
setup 1
CREATE TABLE
INSERT 0 1
step x: INSERT INTO t VALUES (2); INSERT INTO u VALUES (1); INSERT INTO t VALUES (3);
INSERT 0 1
ERROR: 42P01: table \"u\" does not exist
step y: SELECT * FROM t;
a
1
(1 row)
",
    ),
    // A statement waits in the middle of a block, which goes on with the next one.
    (
        2,
        "session s1
step b { BEGIN; ALTER TABLE t ADD COLUMN b integer; }
step e { COMMIT; }
session s2
step x { CREATE TABLE u (z integer); SELECT * FROM t; SELECT * FROM u; }
permutation b x e
",
        "
starting permutation: b x e
setup 1
CREATE TABLE
INSERT 0 1
step b: BEGIN; ALTER TABLE t ADD COLUMN b integer;
BEGIN
ALTER TABLE
step x: CREATE TABLE u (z integer); SELECT * FROM t; SELECT * FROM u; <waiting ...>
step e: COMMIT;
COMMIT
step x: <... completed>
CREATE TABLE
a|b
1|
(1 row)
z
(0 rows)
",
    ),
    // A reader waits for the end of a whole block, and finds nothing of it after its ROLLBACK.
    (
        2,
        "session s1
step b { BEGIN; ALTER TABLE t ADD COLUMN b integer; }
step e { ROLLBACK; }
session s2
step r { SELECT * FROM t; }
permutation b r e
",
        "
starting permutation: b r e
setup 1
CREATE TABLE
INSERT 0 1
step b: BEGIN; ALTER TABLE t ADD COLUMN b integer;
BEGIN
ALTER TABLE
step r: SELECT * FROM t; <waiting ...>
step e: ROLLBACK;
ROLLBACK
step r: <... completed>
a
1
(1 row)
",
    ),
    // Two permutations, of which the first blocks; each begins with an empty database.
    (
        2,
        "session s1
step l { BEGIN; ALTER TABLE t ADD COLUMN b integer; }
session s2
step r { SELECT * FROM t; }
step x { INSERT INTO t VALUES (2); }
permutation l r x
permutation x r
",
        "
starting permutation: l r x
setup 1
CREATE TABLE
INSERT 0 1
step l: BEGIN; ALTER TABLE t ADD COLUMN b integer;
BEGIN
ALTER TABLE
step r: SELECT * FROM t; <waiting ...>
step x: not given, session s2 is blocked
step r: <... completed>
ERROR: 57014: cancelled

starting permutation: x r
setup 1
CREATE TABLE
INSERT 0 1
step x: INSERT INTO t VALUES (2);
INSERT 0 1
step r: SELECT * FROM t;
a
1
2
(2 rows)
",
    ),
    // The same step twice.
    (
        1,
        "session s1
step x { INSERT INTO t VALUES (2); SELECT * FROM t }
permutation x x
",
        "
starting permutation: x x
setup 1
CREATE TABLE
INSERT 0 1
step x: INSERT INTO t VALUES (2); SELECT * FROM t
INSERT 0 1
a
1
2
(2 rows)
step x: INSERT INTO t VALUES (2); SELECT * FROM t
INSERT 0 1
a
1
2
2
(3 rows)
",
    ),
    // A cancelled step in an open block, which has failed then.
    (
        2,
        "session s1
step l { BEGIN; ALTER TABLE t ADD COLUMN b integer }
session s2
step b { BEGIN; INSERT INTO t VALUES (5); }
step r { SELECT * FROM t }
teardown { SELECT * FROM t }
permutation l b
",
        "
starting permutation: l b
setup 1
CREATE TABLE
INSERT 0 1
step l: BEGIN; ALTER TABLE t ADD COLUMN b integer
BEGIN
ALTER TABLE
step b: BEGIN; INSERT INTO t VALUES (5); <waiting ...>
step b: <... completed>
BEGIN
ERROR: 57014: cancelled
session s2 teardown
ERROR: 25P02: transaction block has failed
",
    ),
    // A block that is no script, outside a transaction block.
    (
        1,
        "session s1
step x { SELEC 1; }
step y { SELECT * FROM t; SELEC }
permutation x y
",
        "
starting permutation: x y
setup 1
CREATE TABLE
INSERT 0 1
step x: SELEC 1;
ERROR: 42601: syntax error at byte 0
step y: SELECT * FROM t; SELEC
ERROR: 42601: syntax error at byte 17
",
    ),
    // In an open one it aborts, and the block stays failed.
    (
        1,
        "session s1
step b { BEGIN; INSERT INTO t VALUES (2) }
step x { SELEC }
step y { SELECT * FROM t }
step c { COMMIT }
permutation b x y c y
",
        "
starting permutation: b x y c y
setup 1
CREATE TABLE
INSERT 0 1
step b: BEGIN; INSERT INTO t VALUES (2)
BEGIN
INSERT 0 1
step x: SELEC
ERROR: 42601: syntax error at byte 0
step y: SELECT * FROM t
ERROR: 25P02: transaction block has failed
step c: COMMIT
ROLLBACK
step y: SELECT * FROM t
a
1
(1 row)
",
    ),
    // In a failed one it has its own code.
    (
        1,
        "session s1
step b { BEGIN; SELECT * FROM u }
step x { SELEC }
permutation b x
",
        "
starting permutation: b x
setup 1
CREATE TABLE
INSERT 0 1
step b: BEGIN; SELECT * FROM u
BEGIN
ERROR: 42P01: table \"u\" does not exist
step x: SELEC
ERROR: 42601: syntax error at byte 0
",
    ),
    // Values are expressions of constants, in whatever spelling.
    (
        1,
        "session s1
step w { INSERT INTO t VALUES (1,) }
step x { insert into T values (-7 + 2 * 3) }
step y { ALTER TABLE \"t\" ADD b integer DEFAULT CAST('8' AS integer) }
step z { INSERT INTO t VALUES ('5', 40 / 7); SELECT * FROM t -- all }
permutation w x y z
",
        "
starting permutation: w x y z
setup 1
CREATE TABLE
INSERT 0 1
step w: INSERT INTO t VALUES (1,)
ERROR: 42601: syntax error at byte 24
step x: insert into T values (-7 + 2 * 3)
INSERT 0 1
step y: ALTER TABLE \"t\" ADD b integer DEFAULT CAST('8' AS integer)
ALTER TABLE
step z: INSERT INTO t VALUES ('5', 40 / 7); SELECT * FROM t -- all
INSERT 0 1
a|b
1|8
-1|8
5|5
(3 rows)
",
    ),
    // Scripts without a statement.
    (
        1,
        "session s1
step x { }
step y { ; }
permutation x y
",
        "
starting permutation: x y
setup 1
CREATE TABLE
INSERT 0 1
step x: \nstep y: ;
",
    ),
    // Names in double quotes, with a quote in them.
    (
        2,
        "session \"s \"\"1\" setup { BEGIN; ALTER TABLE t ADD COLUMN b integer }
step \"a b\" { COMMIT }
session \"s\"
step \"a\"\"\" { SELECT * FROM t }
step \"step\" { BEGIN }
permutation \"a\"\"\" \"step\" \"a b\"
",
        "
starting permutation: \"a\"\"\" \"step\" \"a b\"
setup 1
CREATE TABLE
INSERT 0 1
session \"s \"\"1\" setup
BEGIN
ALTER TABLE
step \"a\"\"\": SELECT * FROM t <waiting ...>
step \"step\": not given, session s is blocked
step \"a\"\"\": <... completed>
ERROR: 57014: cancelled
",
    ),
    // Names past ASCII.
    (
        1,
        "session \u{e9}t\u{e9} setup { BEGIN }
step \u{fc}1 { COMMIT }
teardown { SELECT * FROM t }
permutation \u{fc}1
",
        "
starting permutation: \u{fc}1
setup 1
CREATE TABLE
INSERT 0 1
session \u{e9}t\u{e9} setup
BEGIN
step \u{fc}1: COMMIT
COMMIT
session \u{e9}t\u{e9} teardown
a
1
(1 row)
",
    ),
    // Session setups go in the file's order. A BEGIN in one keeps the transaction of its INSERT open.
    (
        2,
        "session s1 setup { INSERT INTO t VALUES (2) }
step x { SELECT * FROM t }
session s2 setup { INSERT INTO t VALUES (3); BEGIN }
step y { COMMIT }
permutation x y x
",
        "
starting permutation: x y x
setup 1
CREATE TABLE
INSERT 0 1
session s1 setup
INSERT 0 1
session s2 setup
INSERT 0 1
BEGIN
step x: SELECT * FROM t
a
1
2
(2 rows)
step y: COMMIT
COMMIT
step x: SELECT * FROM t
a
1
2
3
(3 rows)
",
    ),
    // Session teardowns go in the file's order, and then the main one.
    (
        2,
        "teardown { INSERT INTO t VALUES (9); SELECT * FROM t }
session s1
step x { BEGIN }
teardown { INSERT INTO t VALUES (2); COMMIT }
session s2
step y { BEGIN }
teardown { SELECT * FROM t }
permutation x
",
        "
starting permutation: x
setup 1
CREATE TABLE
INSERT 0 1
step x: BEGIN
BEGIN
session s1 teardown
INSERT 0 1
COMMIT
session s2 teardown
a
1
2
(2 rows)
teardown
INSERT 0 1
a
1
2
9
(3 rows)
",
    ),
    // A second BEGIN, and COMMIT and ROLLBACK outside a block, change nothing.
    (
        1,
        "session s1
step x { COMMIT; ROLLBACK; BEGIN; BEGIN; INSERT INTO t VALUES (2) }
step y { ROLLBACK; SELECT * FROM t }
permutation x y
",
        "
starting permutation: x y
setup 1
CREATE TABLE
INSERT 0 1
step x: COMMIT; ROLLBACK; BEGIN; BEGIN; INSERT INTO t VALUES (2)
COMMIT
ROLLBACK
BEGIN
BEGIN
INSERT 0 1
step y: ROLLBACK; SELECT * FROM t
ROLLBACK
a
1
(1 row)
",
    ),
    // A refusal aborts its transaction at once, and so frees its locks.
    (
        2,
        "session s1
step b { BEGIN; ALTER TABLE t ADD COLUMN b integer }
step x { SELECT * FROM u }
session s2
step r { SELECT * FROM t }
permutation b r x
",
        "
starting permutation: b r x
setup 1
CREATE TABLE
INSERT 0 1
step b: BEGIN; ALTER TABLE t ADD COLUMN b integer
BEGIN
ALTER TABLE
step r: SELECT * FROM t <waiting ...>
step x: SELECT * FROM u
ERROR: 42P01: table \"u\" does not exist
step r: <... completed>
a
1
(1 row)
",
    ),
];

const SETUP: &str = "setup { CREATE TABLE t (a integer); INSERT INTO t VALUES (1); }\n";

// Spec files whose setup part fails, each with what is told after the first line.
const FAILED: [(usize, &str, &str); 4] = [
    // At the second statement of a block.
    (
        1,
        "setup { CREATE TABLE t (a integer); CREATE TABLE t (b integer); }
teardown { SELECT * FROM t }
session s1
step x { SELECT * FROM t }
teardown { SELECT * FROM t }
permutation x
",
        "
starting permutation: x
setup 1
CREATE TABLE
ERROR: 42P07: table \"t\" already exists
setup failed
",
    ),
    // In a session's setup block, in each permutation.
    (
        2,
        "setup { CREATE TABLE t (a integer) }
session s1 setup { SELECT * FROM u }
step x { SELECT * FROM t }
session s2 setup { SELECT * FROM t }
step y { SELECT * FROM t }
permutation x
permutation y
",
        "
starting permutation: x
setup 1
CREATE TABLE
session s1 setup
ERROR: 42P01: table \"u\" does not exist
setup failed

starting permutation: y
setup 1
CREATE TABLE
session s1 setup
ERROR: 42P01: table \"u\" does not exist
setup failed
",
    ),
    // A session's setup block waits for a lock that an earlier one keeps, and is cancelled.
    (
        2,
        "setup { CREATE TABLE t (a integer) }
session s1 setup { BEGIN; ALTER TABLE t ADD COLUMN b integer }
step x { COMMIT }
session s2 setup { SELECT * FROM t }
step y { SELECT * FROM t }
permutation x y
",
        "
starting permutation: x y
setup 1
CREATE TABLE
session s1 setup
BEGIN
ALTER TABLE
session s2 setup
ERROR: 57014: cancelled
setup failed
",
    ),
    // At a block that is no script.
    (
        1,
        "setup { CREATE TABLE t (a integer) }
setup { CREATE TABLE u (a real) }
session s1 step x { SELECT * FROM t }
permutation x
",
        "
starting permutation: x
setup 1
CREATE TABLE
setup 2
ERROR: 0A000: not supported at byte 18
setup failed
",
    ),
];

fn check_report(
    rt: &impl Abort,
    alloc: Global,
    file: &str,
    status: Status,
    report: &str,
) -> Result<(), NoMemory> {
    let mut words = Vec::new(alloc);
    words.push(Txt::new(alloc, "run")?)?;
    let bytes = Txt8::from_vec(file.as_bytes().to_vec(alloc)?);
    let mut source = MemorySource::new(bytes, 4_096, CallList::new(alloc));
    let mut sink = MemorySink::new(Room8::new(alloc, 4_096)?, 4_096, CallList::new(alloc));
    let answer = answer_alone(alloc, &words, &mut source, &mut sink);
    assert_eq!(rt; answer.status, status);
    assert_eq!(rt; sink.held(), report.as_bytes());
    Ok(())
}

fn report_of(alloc: Global, count: usize, runs: &str) -> Result<String, NoMemory> {
    let mut report = String::new(alloc);
    write!(report, "Parsed test spec with {count} sessions\n{runs}")?;
    Ok(report)
}

#[test]
fn whole_files(rt: HostRuntime) -> Result<(), Fail> {
    let alloc = rt.alloc();
    for (count, rest, runs) in DONE {
        let mut file = String::new(alloc);
        write!(file, "{SETUP}{rest}")?;
        let report = report_of(alloc, count, runs)?;
        check_report(&rt, alloc, &file, Status::Done, &report)?;
    }
    Ok(())
}

#[test]
fn failed_setups(rt: HostRuntime) -> Result<(), Fail> {
    let alloc = rt.alloc();
    for (count, file, runs) in FAILED {
        let report = report_of(alloc, count, runs)?;
        check_report(&rt, alloc, file, Status::SetupFailed { run: 1 }, &report)?;
    }
    Ok(())
}

use al_app::{Status, answer_alone};
use al_outside::{MemorySink, MemorySource, Room8};
use al_values::{CallList, NoMemory, Txt, Txt8};
use std::alloc::Global;
use std::process::Abort;
use std::test::Fail;

// A table `t (a integer)` with one row, 1.
const SETUP: &str = "setup { CREATE TABLE t (a integer) }\nsetup { INSERT INTO t VALUES (1) }\n";

const SETUP_REPORT: &str = "setup 1\nCREATE TABLE\nsetup 2\nINSERT 0 1\n";

// Runs over that table: how many sessions there are, the sessions, a permutation, and what is told of its steps.
const RUNS: [(usize, &str, &str, &str); 20] = [
    // A reader waits for an ALTER TABLE, and finds nothing of it after its ROLLBACK.
    (
        2,
        "session s1
step b { BEGIN }
step x { ALTER TABLE t ADD COLUMN b integer }
step e { ROLLBACK }
session s2
step r { SELECT * FROM t }
",
        "b x r e",
        "step b: BEGIN
BEGIN
step x: ALTER TABLE t ADD COLUMN b integer
ALTER TABLE
step r: SELECT * FROM t <waiting ...>
step e: ROLLBACK
ROLLBACK
step r: <... completed>
a
1
(1 row)
",
    ),
    // After its COMMIT it finds the column.
    (
        2,
        "session s1
step b { BEGIN }
step x { ALTER TABLE t ADD COLUMN b integer }
step e { COMMIT }
session s2
step r { SELECT * FROM t }
",
        "b x r e",
        "step b: BEGIN
BEGIN
step x: ALTER TABLE t ADD COLUMN b integer
ALTER TABLE
step r: SELECT * FROM t <waiting ...>
step e: COMMIT
COMMIT
step r: <... completed>
a|b
1|
(1 row)
",
    ),
    // A CREATE TABLE waits for another's uncommitted table of its name.
    (
        2,
        "session s1
step b { BEGIN }
step c { CREATE TABLE u (a integer) }
step e { COMMIT }
session s2
step d { CREATE TABLE u (a integer) }
",
        "b c d e",
        "step b: BEGIN
BEGIN
step c: CREATE TABLE u (a integer)
CREATE TABLE
step d: CREATE TABLE u (a integer) <waiting ...>
step e: COMMIT
COMMIT
step d: <... completed>
ERROR: 42P07: table \"u\" already exists
",
    ),
    // It goes on where that is rolled back.
    (
        2,
        "session s1
step b { BEGIN }
step c { CREATE TABLE u (a integer) }
step e { ROLLBACK }
session s2
step d { CREATE TABLE u (a integer) }
step q { SELECT * FROM u }
",
        "b c d e q",
        "step b: BEGIN
BEGIN
step c: CREATE TABLE u (a integer)
CREATE TABLE
step d: CREATE TABLE u (a integer) <waiting ...>
step e: ROLLBACK
ROLLBACK
step d: <... completed>
CREATE TABLE
step q: SELECT * FROM u
a
(0 rows)
",
    ),
    // The first that waited for the name makes it, and the other waits for that one.
    (
        3,
        "session s1
step b { BEGIN }
step c { CREATE TABLE u (a integer) }
step e { ROLLBACK }
session s2
step k { BEGIN }
step d { CREATE TABLE u (a integer) }
step f { COMMIT }
session s3
step g { CREATE TABLE u (a integer) }
",
        "b c k d g e f",
        "step b: BEGIN
BEGIN
step c: CREATE TABLE u (a integer)
CREATE TABLE
step k: BEGIN
BEGIN
step d: CREATE TABLE u (a integer) <waiting ...>
step g: CREATE TABLE u (a integer) <waiting ...>
step e: ROLLBACK
ROLLBACK
step d: <... completed>
CREATE TABLE
step f: COMMIT
COMMIT
step g: <... completed>
ERROR: 42P07: table \"u\" already exists
",
    ),
    // A reader waits behind an ALTER TABLE that waits behind a reader.
    (
        3,
        "session s1
step b { BEGIN }
step q { SELECT * FROM t }
step c { COMMIT }
session s2
step x { ALTER TABLE t ADD COLUMN b integer }
session s3
step r { SELECT * FROM t }
",
        "b q x r c",
        "step b: BEGIN
BEGIN
step q: SELECT * FROM t
a
1
(1 row)
step x: ALTER TABLE t ADD COLUMN b integer <waiting ...>
step r: SELECT * FROM t <waiting ...>
step c: COMMIT
COMMIT
step x: <... completed>
ALTER TABLE
step r: <... completed>
a|b
1|
(1 row)
",
    ),
    // Two ALTER TABLEs, one after the other.
    (
        2,
        "session s1
step b { BEGIN }
step x { ALTER TABLE t ADD COLUMN b integer }
step e { COMMIT }
step q { SELECT * FROM t }
session s2
step y { ALTER TABLE t ADD COLUMN c integer DEFAULT 3 }
",
        "b x y e q",
        "step b: BEGIN
BEGIN
step x: ALTER TABLE t ADD COLUMN b integer
ALTER TABLE
step y: ALTER TABLE t ADD COLUMN c integer DEFAULT 3 <waiting ...>
step e: COMMIT
COMMIT
step y: <... completed>
ALTER TABLE
step q: SELECT * FROM t
a|b|c
1||3
(1 row)
",
    ),
    // The second finds the column of the first.
    (
        2,
        "session s1
step b { BEGIN }
step x { ALTER TABLE t ADD COLUMN b integer }
step e { COMMIT }
session s2
step y { ALTER TABLE t ADD COLUMN b integer }
",
        "b x y e",
        "step b: BEGIN
BEGIN
step x: ALTER TABLE t ADD COLUMN b integer
ALTER TABLE
step y: ALTER TABLE t ADD COLUMN b integer <waiting ...>
step e: COMMIT
COMMIT
step y: <... completed>
ERROR: 42701: column \"b\" already exists
",
    ),
    // An INSERT beside an INSERT, and readers beside both, who see what is committed.
    (
        2,
        "session s1
step b { BEGIN }
step i { INSERT INTO t VALUES (2) }
step e { COMMIT }
session s2
step j { INSERT INTO t VALUES (3) }
step q { SELECT * FROM t }
",
        "b i j q e q",
        "step b: BEGIN
BEGIN
step i: INSERT INTO t VALUES (2)
INSERT 0 1
step j: INSERT INTO t VALUES (3)
INSERT 0 1
step q: SELECT * FROM t
a
1
3
(2 rows)
step e: COMMIT
COMMIT
step q: SELECT * FROM t
a
1
2
3
(3 rows)
",
    ),
    // A row that is rolled back was seen by its own session alone.
    (
        2,
        "session s1
step b { BEGIN }
step i { INSERT INTO t VALUES (2) }
step p { SELECT * FROM t }
step e { ROLLBACK }
session s2
step q { SELECT * FROM t }
",
        "b i p q e p",
        "step b: BEGIN
BEGIN
step i: INSERT INTO t VALUES (2)
INSERT 0 1
step p: SELECT * FROM t
a
1
2
(2 rows)
step q: SELECT * FROM t
a
1
(1 row)
step e: ROLLBACK
ROLLBACK
step p: SELECT * FROM t
a
1
(1 row)
",
    ),
    // Two sessions that wait for each other stay so until they are cancelled, the least first; the other goes on then.
    (
        2,
        "session s1
step b { BEGIN }
step q { SELECT * FROM t }
step x { ALTER TABLE t ADD COLUMN b integer }
session s2
step k { BEGIN }
step r { SELECT * FROM t }
step y { ALTER TABLE t ADD COLUMN c integer }
",
        "b q k r x y",
        "step b: BEGIN
BEGIN
step q: SELECT * FROM t
a
1
(1 row)
step k: BEGIN
BEGIN
step r: SELECT * FROM t
a
1
(1 row)
step x: ALTER TABLE t ADD COLUMN b integer <waiting ...>
step y: ALTER TABLE t ADD COLUMN c integer <waiting ...>
step x: <... completed>
ERROR: 57014: cancelled
step y: <... completed>
ALTER TABLE
",
    ),
    // A step for a session that is blocked isn't given, and ends the list.
    (
        2,
        "session s1
step b { BEGIN }
step x { ALTER TABLE t ADD COLUMN b integer }
step e { COMMIT }
session s2
step r { SELECT * FROM t }
step z { INSERT INTO t VALUES (2) }
",
        "b x r z e",
        "step b: BEGIN
BEGIN
step x: ALTER TABLE t ADD COLUMN b integer
ALTER TABLE
step r: SELECT * FROM t <waiting ...>
step z: not given, session s2 is blocked
step r: <... completed>
ERROR: 57014: cancelled
",
    ),
    // A failed block: every statement is refused but COMMIT, which rolls back.
    (
        1,
        "session s1
step b { BEGIN }
step i { INSERT INTO t VALUES (2) }
step f { SELECT * FROM u }
step q { SELECT * FROM t }
step c { COMMIT }
",
        "b i f q b c q",
        "step b: BEGIN
BEGIN
step i: INSERT INTO t VALUES (2)
INSERT 0 1
step f: SELECT * FROM u
ERROR: 42P01: table \"u\" does not exist
step q: SELECT * FROM t
ERROR: 25P02: transaction block has failed
step b: BEGIN
ERROR: 25P02: transaction block has failed
step c: COMMIT
ROLLBACK
step q: SELECT * FROM t
a
1
(1 row)
",
    ),
    // ROLLBACK ends a failed block too.
    (
        1,
        "session s1
step b { BEGIN }
step f { INSERT INTO t VALUES (1, 2) }
step r { ROLLBACK }
step i { INSERT INTO t VALUES (2) }
",
        "b f i r i",
        "step b: BEGIN
BEGIN
step f: INSERT INTO t VALUES (1, 2)
ERROR: 42601: INSERT has 2 values for 1 columns
step i: INSERT INTO t VALUES (2)
ERROR: 25P02: transaction block has failed
step r: ROLLBACK
ROLLBACK
step i: INSERT INTO t VALUES (2)
INSERT 0 1
",
    ),
    // BEGIN in a block, and COMMIT and ROLLBACK outside one, change nothing.
    (
        1,
        "session s1
step b { begin }
step c { Commit; }
step r { rollback }
",
        "b b c c r",
        "step b: begin
BEGIN
step b: begin
BEGIN
step c: Commit;
COMMIT
step c: Commit;
COMMIT
step r: rollback
ROLLBACK
",
    ),
    // A reader in a block that begins before an ALTER TABLE and selects after it: BEGIN locks nothing.
    (
        2,
        "session s1
step b { BEGIN }
step q { SELECT * FROM t }
step c { COMMIT }
session s2
step x { ALTER TABLE t ADD COLUMN b integer DEFAULT 7 }
",
        "b x q c",
        "step b: BEGIN
BEGIN
step x: ALTER TABLE t ADD COLUMN b integer DEFAULT 7
ALTER TABLE
step q: SELECT * FROM t
a|b
1|7
(1 row)
step c: COMMIT
COMMIT
",
    ),
    // A reader in a block keeps its lock to the block's end.
    (
        2,
        "session s1
step b { BEGIN }
step q { SELECT * FROM t }
step c { COMMIT }
session s2
step x { ALTER TABLE t ADD COLUMN b integer }
",
        "b q x c",
        "step b: BEGIN
BEGIN
step q: SELECT * FROM t
a
1
(1 row)
step x: ALTER TABLE t ADD COLUMN b integer <waiting ...>
step c: COMMIT
COMMIT
step x: <... completed>
ALTER TABLE
",
    ),
    // An INSERT that waited for an ALTER TABLE takes the new column's default.
    (
        2,
        "session s1
step b { BEGIN }
step x { ALTER TABLE t ADD COLUMN b integer DEFAULT 5 }
step e { COMMIT }
step q { SELECT * FROM t }
session s2
step i { INSERT INTO t VALUES (2) }
",
        "b x i e q",
        "step b: BEGIN
BEGIN
step x: ALTER TABLE t ADD COLUMN b integer DEFAULT 5
ALTER TABLE
step i: INSERT INTO t VALUES (2) <waiting ...>
step e: COMMIT
COMMIT
step i: <... completed>
INSERT 0 1
step q: SELECT * FROM t
a|b
1|5
2|5
(2 rows)
",
    ),
    // A refusal frees the locks of its block at once.
    (
        2,
        "session s1
step b { BEGIN }
step q { SELECT * FROM t }
step f { SELECT * FROM u }
session s2
step x { ALTER TABLE t ADD COLUMN b integer }
",
        "b q x f",
        "step b: BEGIN
BEGIN
step q: SELECT * FROM t
a
1
(1 row)
step x: ALTER TABLE t ADD COLUMN b integer <waiting ...>
step f: SELECT * FROM u
ERROR: 42P01: table \"u\" does not exist
step x: <... completed>
ALTER TABLE
",
    ),
    // Readers that wait for one ALTER TABLE go on together, in ascending order of their sessions.
    (
        3,
        "session s1
step b { BEGIN }
step x { ALTER TABLE t ADD COLUMN b integer }
step e { COMMIT }
session s2
step q { SELECT * FROM t }
session s3
step r { INSERT INTO t VALUES (2, 2) }
",
        "b x r q e",
        "step b: BEGIN
BEGIN
step x: ALTER TABLE t ADD COLUMN b integer
ALTER TABLE
step r: INSERT INTO t VALUES (2, 2) <waiting ...>
step q: SELECT * FROM t <waiting ...>
step e: COMMIT
COMMIT
step q: <... completed>
a|b
1|
(1 row)
step r: <... completed>
INSERT 0 1
",
    ),
];

fn file_of(alloc: Global, sessions: &str, permutation: &str) -> Result<String, NoMemory> {
    let mut file = String::new(alloc);
    write!(file, "{SETUP}{sessions}permutation {permutation}\n")?;
    Ok(file)
}

fn report_of(
    alloc: Global,
    count: usize,
    permutation: &str,
    steps: &str,
) -> Result<String, NoMemory> {
    let mut report = String::new(alloc);
    write!(report, "Parsed test spec with {count} sessions\n\n")?;
    write!(
        report,
        "starting permutation: {permutation}\n{SETUP_REPORT}{steps}"
    )?;
    Ok(report)
}

// The report of the run of a file, where its status is as wanted.
fn check_report(rt: &impl Abort, alloc: Global, file: &str, report: &str) -> Result<(), NoMemory> {
    let mut words = Vec::new(alloc);
    words.push(Txt::new(alloc, "run")?)?;
    let bytes = Txt8::from_vec(file.as_bytes().to_vec(alloc)?);
    let mut source = MemorySource::new(bytes, 4_096, CallList::new(alloc));
    let mut sink = MemorySink::new(Room8::new(alloc, 4_096)?, 4_096, CallList::new(alloc));
    let answer = answer_alone(alloc, &words, &mut source, &mut sink);
    assert_eq!(rt; answer.status, Status::Done);
    assert_eq!(rt; sink.held(), report.as_bytes());
    Ok(())
}

#[test]
fn sessions_that_wait(rt: HostRuntime) -> Result<(), Fail> {
    let alloc = rt.alloc();
    for (count, sessions, permutation, steps) in RUNS {
        let file = file_of(alloc, sessions, permutation)?;
        let report = report_of(alloc, count, permutation, steps)?;
        check_report(&rt, alloc, &file, &report)?;
    }
    Ok(())
}

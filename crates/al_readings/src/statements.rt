use crate::reading::say;
use std::test::Fail;

#[test]
fn transactions(rt: HostRuntime) -> Result<(), Fail> {
    let rows = [
        ("BEGIN", "[Begin(None)]"),
        ("begin WORK", "[Begin(None)]"),
        (
            "BEGIN TRANSACTION ISOLATION LEVEL REPEATABLE READ",
            "[Begin(Some(RepeatableRead))]",
        ),
        (
            "BEGIN ISOLATION LEVEL REPEATABLE READ",
            "[Begin(Some(RepeatableRead))]",
        ),
        ("START TRANSACTION", "[StartTransaction(None)]"),
        (
            "START TRANSACTION ISOLATION LEVEL READ COMMITTED",
            "[StartTransaction(Some(ReadCommitted))]",
        ),
        ("COMMIT", "[Commit]"),
        ("COMMIT WORK", "[Commit]"),
        ("END TRANSACTION", "[Commit]"),
        ("ROLLBACK TRANSACTION", "[Rollback]"),
        (
            "ABORT; COMMIT; ROLLBACK WORK",
            "[Rollback, Commit, Rollback]",
        ),
        ("SET deadlock_timeout TO 70", "[Set(DeadlockTimeout)]"),
        ("SET LOCAL lock_timeout TO 70", "[Set(LockTimeout)]"),
        ("SET SESSION lock_timeout = '1s'", "[Set(LockTimeout)]"),
        ("SET statement_timeout = a", "[Set(StatementTimeout)]"),
        ("", "[]"),
        (";", "[]"),
        (";;;;;;", "[]"),
        (" \n", "[]"),
        ("-- COMMIT", "[]"),
        ("; COMMIT -- x\n; ;", "[Commit]"),
    ];
    say(&rt, rt.alloc(), &rows)
}

#[test]
fn locks(rt: HostRuntime) -> Result<(), Fail> {
    let rows = [
        (
            "LOCK a IN ACCESS SHARE MODE",
            "[LockTable(LockTable targets: [a], mode: AccessShare, nowait: false)]",
        ),
        (
            "LOCK a IN ROW SHARE MODE",
            "[LockTable(LockTable targets: [a], mode: RowShare, nowait: false)]",
        ),
        (
            "LOCK a IN ROW EXCLUSIVE MODE",
            "[LockTable(LockTable targets: [a], mode: RowExclusive, nowait: false)]",
        ),
        (
            "LOCK a IN SHARE UPDATE EXCLUSIVE MODE",
            "[LockTable(LockTable targets: [a], mode: ShareUpdateExclusive, nowait: false)]",
        ),
        (
            "LOCK a IN SHARE MODE NOWAIT",
            "[LockTable(LockTable targets: [a], mode: Share, nowait: true)]",
        ),
        (
            "LOCK a IN SHARE ROW EXCLUSIVE MODE",
            "[LockTable(LockTable targets: [a], mode: ShareRowExclusive, nowait: false)]",
        ),
        (
            "LOCK a IN EXCLUSIVE MODE",
            "[LockTable(LockTable targets: [a], mode: Exclusive, nowait: false)]",
        ),
        (
            "LOCK a IN ACCESS EXCLUSIVE MODE",
            "[LockTable(LockTable targets: [a], mode: AccessExclusive, nowait: false)]",
        ),
        (
            "LOCK TABLE ONLY a",
            "[LockTable(LockTable targets: [ONLY a], mode: AccessExclusive, nowait: false)]",
        ),
        (
            "LOCK ONLY a, b NOWAIT",
            "[LockTable(LockTable targets: [ONLY a, b], mode: AccessExclusive, nowait: true)]",
        ),
    ];
    say(&rt, rt.alloc(), &rows)
}

#[test]
fn drops(rt: HostRuntime) -> Result<(), Fail> {
    let rows = [
        (
            "DROP TABLE a",
            "[DropTable(DropTable if_exists: false, names: [a])]",
        ),
        (
            "DROP TABLE IF EXISTS a",
            "[DropTable(DropTable if_exists: true, names: [a])]",
        ),
        (
            "DROP TABLE if",
            "[DropTable(DropTable if_exists: false, names: [if])]",
        ),
        (
            "DROP TABLE if, t",
            "[DropTable(DropTable if_exists: false, names: [if, t])]",
        ),
        (
            "DROP TABLE if RESTRICT",
            "[DropTable(DropTable if_exists: false, names: [if])]",
        ),
        (
            "DROP TABLE IF EXISTS if, exists RESTRICT",
            "[DropTable(DropTable if_exists: true, names: [if, exists])]",
        ),
        (
            "DROP TABLE restrict, \"Re\"\"strict\"",
            "[DropTable(DropTable if_exists: false, names: [restrict, Re\"strict])]",
        ),
    ];
    say(&rt, rt.alloc(), &rows)
}

#[test]
fn writes(rt: HostRuntime) -> Result<(), Fail> {
    let rows = [
        (
            "INSERT INTO t VALUES (DEFAULT, TRUE), (TRUE)",
            "[Insert(Insert table: t, columns: None, rows: Values([[Default, Value(Literal(31, Bool(true)))], [Value(Literal(39, Bool(true)))]]))]",
        ),
        (
            "INSERT INTO t (a, b) VALUES (1, 'x')",
            "[Insert(Insert table: t, columns: Some([a, b]), rows: Values([[Value(Literal(29, Int(1))), Value(Literal(32, Text(x)))]]))]",
        ),
        (
            "INSERT INTO t SELECT a FROM generate_series(-70, 70) a",
            "[Insert(Insert table: t, columns: None, rows: Series(Series outputs: [Column(21, a)], first: -70, last: 70, name: a))]",
        ),
        (
            "INSERT INTO t (a) SELECT 1, g FROM generate_series (1, -2) AS g",
            "[Insert(Insert table: t, columns: Some([a]), rows: Series(Series outputs: [Literal(25, Int(1)), Column(28, g)], first: 1, last: -2, name: g))]",
        ),
        (
            "UPDATE t SET a = DEFAULT WHERE TRUE",
            "[Update(Update target: t, assignments: [Assignment column: a, slot: Default], condition: Some(Literal(31, Bool(true))))]",
        ),
        (
            "UPDATE ONLY t SET a = 1, b = NULL",
            "[Update(Update target: ONLY t, assignments: [Assignment column: a, slot: Value(Literal(22, Int(1))), Assignment column: b, slot: Value(Literal(29, Null))], condition: None)]",
        ),
        (
            "DELETE FROM ONLY t",
            "[Delete(Delete target: ONLY t, condition: None)]",
        ),
        (
            "DELETE FROM t WHERE a",
            "[Delete(Delete target: t, condition: Some(Column(20, a)))]",
        ),
    ];
    say(&rt, rt.alloc(), &rows)
}

#[test]
fn queries(rt: HostRuntime) -> Result<(), Fail> {
    let rows = [
        (
            "SELECT TRUE AS b",
            "[Select(Row([Output expr: Literal(7, Bool(true)), name: Some(b)]))]",
        ),
        (
            "SELECT 1, a",
            "[Select(Row([Output expr: Literal(7, Int(1)), name: None, Output expr: Column(10, a), name: None]))]",
        ),
        (
            "SELECT * FROM t",
            "[Select(Table(TableQuery list: All, target: t, condition: None, order: [], lock: None))]",
        ),
        (
            "SELECT * FROM t FOR KEY SHARE",
            "[Select(Table(TableQuery list: All, target: t, condition: None, order: [], lock: Some(KeyShare)))]",
        ),
        (
            "SELECT a FROM t FOR SHARE",
            "[Select(Table(TableQuery list: Outputs([Output expr: Column(7, a), name: None]), target: t, condition: None, order: [], lock: Some(Share)))]",
        ),
        (
            "SELECT * FROM t FOR NO KEY UPDATE",
            "[Select(Table(TableQuery list: All, target: t, condition: None, order: [], lock: Some(NoKeyUpdate)))]",
        ),
        (
            "SELECT * FROM ONLY t WHERE a ORDER BY a FOR UPDATE",
            "[Select(Table(TableQuery list: All, target: ONLY t, condition: Some(Column(27, a)), order: [SortKey column: a, descending: false], lock: Some(Update)))]",
        ),
        (
            "SELECT * FROM t ORDER BY a DESC, b ASC, c",
            "[Select(Table(TableQuery list: All, target: t, condition: None, order: [SortKey column: a, descending: true, SortKey column: b, descending: false, SortKey column: c, descending: false], lock: None))]",
        ),
    ];
    say(&rt, rt.alloc(), &rows)
}

#[test]
fn aggregates(rt: HostRuntime) -> Result<(), Fail> {
    let rows = [
        (
            "SELECT count(*) FROM t",
            "[Select(Table(TableQuery list: Aggregates([Aggregate place: 7, function: Count, name: None]), target: t, condition: None, order: [], lock: None))]",
        ),
        (
            "SELECT max(a) FROM ONLY t",
            "[Select(Table(TableQuery list: Aggregates([Aggregate place: 7, function: Max(Column(11, a)), name: None]), target: ONLY t, condition: None, order: [], lock: None))]",
        ),
        (
            "SELECT min (1) AS m, count ( * ) AS n FROM t ORDER BY a",
            "[Select(Table(TableQuery list: Aggregates([Aggregate place: 7, function: Min(Literal(12, Int(1))), name: Some(m), Aggregate place: 21, function: Count, name: Some(n)]), target: t, condition: None, order: [SortKey column: a, descending: false], lock: None))]",
        ),
        (
            "SELECT count, min",
            "[Select(Row([Output expr: Column(7, count), name: None, Output expr: Column(14, min), name: None]))]",
        ),
    ];
    say(&rt, rt.alloc(), &rows)
}

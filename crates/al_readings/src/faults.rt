use crate::reading::Told::{Good, NotInProfile, Syntax};
use crate::reading::are_told;
use std::test::Fail;

#[test]
fn tokens(rt: HostRuntime) -> Result<(), Fail> {
    let rows = [
        ("SELECT 1_000", Syntax(8)),
        ("SELECT 1.5", NotInProfile(7)),
        ("SELECT 1.", NotInProfile(7)),
        ("SELECT 1a", NotInProfile(7)),
        ("SELECT .5", NotInProfile(7)),
        ("SELECT t.a", NotInProfile(8)),
        ("COMMIT 1.5", NotInProfile(7)),
        ("SELECT 9223372036854775807", Good),
        ("SELECT -9223372036854775807", Good),
        ("SELECT 000000000000000000000000000007", Good),
        ("SELECT 9223372036854775808", NotInProfile(7)),
        ("SELECT -9223372036854775808", NotInProfile(8)),
        ("SELECT 99999999999999999999999", NotInProfile(7)),
        ("SELECT a 9223372036854775807", Syntax(9)),
        ("SELECT a 9223372036854775808", NotInProfile(9)),
        ("SELECT \"a\"\"b\", 'it''s'", Good),
        ("SELECT \"\"", Syntax(7)),
        ("SELECT 1 AS \"\"", Syntax(12)),
        ("SELECT 1 @ 2", Syntax(9)),
        ("SELECT 1 | 2", Syntax(9)),
        ("SELECT !a", Syntax(7)),
        ("SELECT a : int", Syntax(9)),
        ("SELECT é", Syntax(7)),
        ("SELECT 'é', $1", Syntax(13)),
        ("SELECT 1 2 @", Syntax(9)),
        ("SELECT 1 = = 2", Syntax(11)),
        ("SELECT 1 ' ' '", Syntax(9)),
    ];
    are_told(&rt, rt.alloc(), &rows)
}

#[test]
fn quotes_left_open(rt: HostRuntime) -> Result<(), Fail> {
    let rows = [
        ("SELECT 'abc", Syntax(11)),
        ("SELECT 'it''s", Syntax(13)),
        ("SELECT 'abc''", Syntax(13)),
        ("SELECT '", Syntax(8)),
        ("SELECT \"abc", Syntax(11)),
        ("SELECT \"abc\"\"", Syntax(13)),
        ("SELECT 1 FROM 'abc", Syntax(18)),
        ("COMMIT 'abc", Syntax(11)),
        ("COMMIT \"abc", Syntax(11)),
        ("SELECT 1 AS \"abc", Syntax(16)),
        ("SELECT DATE 'abc; COMMIT", Syntax(24)),
        ("'abc", Syntax(4)),
        ("SELEC 'abc", Syntax(0)),
        ("COMMIT COMMIT 'abc", Syntax(7)),
        ("SELECT ) \"abc", Syntax(7)),
        ("SELECT 1.5 'abc", NotInProfile(7)),
    ];
    are_told(&rt, rt.alloc(), &rows)
}

#[test]
fn comments(rt: HostRuntime) -> Result<(), Fail> {
    let rows = [
        ("COMMIT -- done", Good),
        ("COMMIT --", Good),
        ("COMMIT --; COMMIT", Good),
        ("-- ' \" /*", Good),
        ("COMMIT -- \n; COMMIT", Good),
        ("COMMIT -- a\n b", Syntax(13)),
        ("SELECT -- a", Syntax(11)),
        ("SELECT 1 - -1", Good),
        ("SELECT 1 --1", Good),
        ("SELECT 1 - --1", Syntax(14)),
        ("SELECT 1 /* a */", Syntax(10)),
        ("SELECT 1 /* /* a */ */", Syntax(10)),
        ("SELECT 1 /*", Syntax(10)),
        ("COMMIT /* a */", Syntax(7)),
        ("COMMIT; /* a", Syntax(8)),
        ("/* a */ COMMIT", Syntax(0)),
        ("COMMIT; */", Syntax(8)),
    ];
    are_told(&rt, rt.alloc(), &rows)
}

#[test]
fn scripts(rt: HostRuntime) -> Result<(), Fail> {
    let rows = [
        ("", Good),
        (";", Good),
        ("COMMIT;;COMMIT", Good),
        ("COMMIT COMMIT", Syntax(7)),
        ("COMMIT; a", Syntax(8)),
        ("1", Syntax(0)),
        ("(", Syntax(0)),
        ("COMMIT; ,", Syntax(8)),
        ("START", Syntax(5)),
        ("START WORK", Syntax(6)),
        ("START TRANSACTION WORK", Syntax(18)),
        ("BEGIN WORK WORK", Syntax(11)),
        ("BEGIN READ COMMITTED", Syntax(6)),
        ("BEGIN ISOLATION LEVEL SERIALIZABLE", NotInProfile(22)),
        ("BEGIN ISOLATION LEVEL READ UNCOMMITTED", Syntax(27)),
        ("BEGIN ISOLATION LEVEL REPEATABLE", Syntax(32)),
        ("COMMIT AND CHAIN", Syntax(7)),
        ("COMMIT PREPARED", Syntax(7)),
        ("ROLLBACK TO a", Syntax(9)),
        ("SAVEPOINT a", NotInProfile(0)),
        (
            "SET TRANSACTION ISOLATION LEVEL READ COMMITTED",
            NotInProfile(4),
        ),
        ("SET work_mem TO 1", Syntax(4)),
        ("SET LOCAL SESSION lock_timeout TO 1", Syntax(10)),
        ("SET lock_timeout 1", Syntax(17)),
        ("SET lock_timeout TO DEFAULT", Syntax(20)),
        ("SET lock_timeout TO -1", Syntax(20)),
        ("SET lock_timeout = 1 , 2", Syntax(21)),
        ("SET lock_timeout = on", Good),
        ("SET \"lock_timeout\" = 1", Syntax(4)),
        ("\"COMMIT\"", Syntax(0)),
        ("TRUNCATE t", NotInProfile(0)),
        ("WITH a AS (SELECT 1) SELECT 2", NotInProfile(0)),
        ("VALUES (1)", Syntax(0)),
    ];
    are_told(&rt, rt.alloc(), &rows)
}

#[test]
fn locks_and_drops(rt: HostRuntime) -> Result<(), Fail> {
    let rows = [
        ("LOCK a IN UPDATE EXCLUSIVE MODE", Syntax(10)),
        ("LOCK a IN SHARE UPDATE MODE", Syntax(23)),
        ("LOCK a IN ROW MODE", Syntax(14)),
        ("LOCK a IN SHARE", Syntax(15)),
        ("LOCK a IN SHARE EXCLUSIVE MODE", Syntax(16)),
        ("LOCK a MODE", Syntax(7)),
        ("LOCK a NOWAIT IN SHARE MODE", Syntax(14)),
        ("LOCK TABLE", Syntax(10)),
        ("LOCK TABLE a,", Syntax(13)),
        ("LOCK a b", Syntax(7)),
        ("LOCK ONLY ONLY a", Syntax(10)),
        ("LOCK a *", Syntax(7)),
        ("DROP INDEX a", NotInProfile(5)),
        ("DROP a", Syntax(5)),
        ("DROP TABLE a EXISTS a", Syntax(13)),
        ("DROP TABLE if a", Syntax(14)),
        ("DROP TABLE a CASCADE", NotInProfile(13)),
        ("DROP TABLE cascade", Good),
        ("DROP TABLE a RESTRICT , b", Syntax(22)),
        ("DROP TABLE a,", Syntax(13)),
        ("DROP TABLE ONLY a", Syntax(11)),
        ("DROP TABLE a(b)", Syntax(12)),
        ("DROP TABLE IF EXISTS", Syntax(20)),
    ];
    are_told(&rt, rt.alloc(), &rows)
}

#[test]
fn definitions(rt: HostRuntime) -> Result<(), Fail> {
    let rows = [
        ("CREATE INDEX", NotInProfile(7)),
        ("CREATE UNIQUE INDEX a", Syntax(7)),
        ("CREATE TEMP TABLE t ()", NotInProfile(7)),
        ("CREATE TABLE if NOT EXISTS t ()", Syntax(16)),
        ("CREATE TABLE t", Syntax(14)),
        ("CREATE TABLE t (a)", Syntax(17)),
        ("CREATE TABLE t (a int, )", Syntax(23)),
        ("CREATE TABLE t (a foo)", Syntax(18)),
        ("CREATE TABLE t (a numeric)", NotInProfile(18)),
        ("CREATE TABLE t (a int b int)", Syntax(22)),
        ("CREATE TABLE t (a int(4))", Syntax(21)),
        ("CREATE TABLE t (a int DEFAULT 1 DEFAULT 2)", Syntax(32)),
        (
            "CREATE TABLE t (a int PRIMARY KEY UNIQUE PRIMARY KEY)",
            Syntax(41),
        ),
        (
            "CREATE TABLE t (a int DEFAULT 1 PRIMARY KEY, b int DEFAULT 1 PRIMARY KEY)",
            Good,
        ),
        ("CREATE TABLE t (a int DEFAULT 1 NOT NULL)", Good),
        ("CREATE TABLE t (a int DEFAULT 1 NOT IN)", Syntax(36)),
        ("CREATE TABLE t (a int DEFAULT 1 = 1)", Syntax(32)),
        ("CREATE TABLE t (a int DEFAULT 1 IS NULL)", Syntax(32)),
        ("CREATE TABLE t (a int DEFAULT NOT TRUE)", Syntax(30)),
        ("CREATE TABLE t (a int DEFAULT (NOT TRUE))", Good),
        ("CREATE TABLE t (a int NULL)", Syntax(22)),
        ("CREATE TABLE t (a int CONSTRAINT c NOT NULL)", Syntax(35)),
        ("CREATE TABLE t (a int CONSTRAINT c DEFAULT 1)", Syntax(35)),
        ("CREATE TABLE t (a int CHECK a)", Syntax(28)),
        ("CREATE TABLE t (a int CHECK (a) NO a)", Syntax(35)),
        ("CREATE TABLE t (a int UNIQUE (a))", Syntax(29)),
        ("CREATE TABLE t (a int REFERENCES p (b, c))", Syntax(37)),
        (
            "CREATE TABLE t (a int REFERENCES p ON DELETE CASCADE)",
            NotInProfile(35),
        ),
        ("CREATE TABLE t (a int GENERATED)", NotInProfile(22)),
        ("CREATE TABLE t (UNIQUE a)", Syntax(23)),
        ("CREATE TABLE t (UNIQUE ())", Syntax(24)),
        ("CREATE TABLE t (PRIMARY (a))", Syntax(24)),
        ("CREATE TABLE t (CONSTRAINT c a int)", Syntax(29)),
        ("CREATE TABLE t (FOREIGN KEY (a) p)", Syntax(32)),
        ("CREATE TABLE t (CHECK (TRUE) NOT VALID)", Syntax(29)),
        ("CREATE TABLE t (LIKE p)", Syntax(21)),
        ("CREATE TABLE t () INHERITS ()", Syntax(28)),
        ("CREATE TABLE t () INHERITS p", Syntax(27)),
        ("CREATE TABLE t () PARTITION BY LIST (a)", NotInProfile(18)),
        ("CREATE TABLE t () WITH (fillfactor = 70)", NotInProfile(18)),
        ("CREATE TABLE t AS SELECT 1", Syntax(15)),
    ];
    are_told(&rt, rt.alloc(), &rows)
}

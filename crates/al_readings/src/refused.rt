use crate::reading::Told::{Good, NotInProfile, Syntax};
use crate::reading::are_told;
use std::test::Fail;

#[test]
fn writes(rt: HostRuntime) -> Result<(), Fail> {
    let rows = [
        ("INSERT t VALUES (1)", Syntax(7)),
        ("INSERT INTO t", Syntax(13)),
        ("INSERT INTO t DEFAULT VALUES", Syntax(14)),
        ("INSERT INTO t () VALUES (1)", Syntax(15)),
        ("INSERT INTO t VALUES ()", Syntax(22)),
        ("INSERT INTO t VALUES (1),", Syntax(25)),
        ("INSERT INTO t VALUES 1", Syntax(21)),
        ("INSERT INTO t VALUES (1 + DEFAULT)", Syntax(26)),
        ("INSERT INTO t VALUES (1) RETURNING a", NotInProfile(25)),
        (
            "INSERT INTO t VALUES (1) ON CONFLICT DO NOTHING",
            NotInProfile(25),
        ),
        ("INSERT INTO t SELECT 1", Syntax(22)),
        ("INSERT INTO t SELECT * FROM u", Syntax(21)),
        (
            "INSERT INTO t SELECT DEFAULT FROM generate_series(1, 2) g",
            Syntax(21),
        ),
        (
            "INSERT INTO t SELECT g AS a FROM generate_series(1, 2) g",
            Syntax(23),
        ),
        ("INSERT INTO t SELECT 1 FROM u", Syntax(28)),
        ("INSERT INTO t SELECT 1 FROM generate_series g", Syntax(44)),
        (
            "INSERT INTO t SELECT 1 FROM generate_series(+1, 2) g",
            Syntax(44),
        ),
        (
            "INSERT INTO t SELECT 1 FROM generate_series(- -1, 2) g",
            Syntax(46),
        ),
        (
            "INSERT INTO t SELECT 1 FROM generate_series(1, 2, 3) g",
            Syntax(48),
        ),
        (
            "INSERT INTO t SELECT 1 FROM generate_series(1, 2)",
            Syntax(49),
        ),
        (
            "INSERT INTO t SELECT 1 FROM generate_series(1, 2) g WHERE TRUE",
            Syntax(52),
        ),
        (
            "INSERT INTO t SELECT 1 FROM generate_series(1, -9223372036854775808) g",
            NotInProfile(48),
        ),
        ("UPDATE t a = 1", Syntax(9)),
        ("UPDATE t SET a + 1", Syntax(15)),
        ("UPDATE t SET (a) = 1", Syntax(13)),
        ("UPDATE t AS u SET a = 1", Syntax(9)),
        ("UPDATE t SET a = 1 FROM u", Syntax(19)),
        ("UPDATE t SET a = DEFAULT + 1", Syntax(25)),
        ("UPDATE t SET a = 1 WHERE DEFAULT", Syntax(25)),
        ("UPDATE t SET a = 1 RETURNING a", NotInProfile(19)),
        ("UPDATE t SET a = b = 1", Good),
        ("DELETE t", Syntax(7)),
        ("DELETE FROM t USING u", Syntax(14)),
        ("DELETE FROM t WHERE", Syntax(19)),
        ("DELETE FROM t WHERE a , b", Syntax(22)),
    ];
    are_told(&rt, rt.alloc(), &rows)
}

#[test]
fn queries(rt: HostRuntime) -> Result<(), Fail> {
    let rows = [
        ("SELECT", Syntax(6)),
        ("SELECT FROM t", Syntax(7)),
        ("SELECT *", Syntax(8)),
        ("SELECT *;", Syntax(8)),
        ("SELECT *, a FROM t", Syntax(8)),
        ("SELECT a, * FROM t", Syntax(10)),
        ("SELECT a b FROM t", Syntax(9)),
        ("SELECT DISTINCT a FROM t", Syntax(16)),
        ("SELECT 1 AS 'a'", Syntax(12)),
        ("SELECT 1 WHERE TRUE", Syntax(9)),
        ("SELECT 1 ORDER BY a", Syntax(9)),
        ("SELECT 1 FOR UPDATE", Syntax(9)),
        ("SELECT a FROM t, u", Syntax(15)),
        ("SELECT a FROM t u", Syntax(16)),
        ("SELECT a FROM t JOIN u ON TRUE", NotInProfile(16)),
        ("SELECT a FROM (SELECT 1)", Syntax(14)),
        ("SELECT a FROM public.t", NotInProfile(20)),
        ("SELECT a FROM t GROUP BY a", NotInProfile(16)),
        ("SELECT a FROM t WHERE a LIKE 'x'", NotInProfile(24)),
        ("SELECT a FROM t ORDER BY a LIMIT 1", NotInProfile(27)),
        ("SELECT a FROM t UNION SELECT 1", NotInProfile(16)),
        ("SELECT a FROM t ORDER a", Syntax(22)),
        ("SELECT a FROM t ORDER BY 1", Syntax(25)),
        ("SELECT a FROM t ORDER BY a + 1", Syntax(27)),
        ("SELECT a FROM t ORDER BY a ASC DESC", Syntax(31)),
        ("SELECT a FROM t ORDER BY a,", Syntax(27)),
        ("SELECT a FROM t ORDER BY a WHERE b", Syntax(27)),
        ("SELECT a FROM t FOR UPDATE ORDER BY a", Syntax(27)),
        ("SELECT a FROM t FOR KEY UPDATE", Syntax(24)),
        ("SELECT a FROM t FOR NO UPDATE", Syntax(23)),
        ("SELECT a FROM t FOR NO KEY SHARE", Syntax(27)),
        ("SELECT a FROM t FOR SHARE NOWAIT", Syntax(26)),
    ];
    are_told(&rt, rt.alloc(), &rows)
}

#[test]
fn aggregates(rt: HostRuntime) -> Result<(), Fail> {
    let rows = [
        ("SELECT count(*)", Syntax(15)),
        ("SELECT count(a) FROM t", Syntax(13)),
        ("SELECT count() FROM t", Syntax(13)),
        ("SELECT min(*) FROM t", Syntax(11)),
        ("SELECT min(a, b) FROM t", Syntax(12)),
        ("SELECT count(*) + 1 FROM t", Syntax(16)),
        ("SELECT count(*), a FROM t", Syntax(17)),
        ("SELECT count(*), coalesce(a) FROM t", Syntax(17)),
        ("SELECT count(*), f(a) FROM t", Syntax(17)),
        ("SELECT count(*), \"min\"(a) FROM t", Syntax(17)),
        ("SELECT count(*), case FROM t", NotInProfile(17)),
        ("SELECT count(*) n FROM t", Syntax(16)),
        ("SELECT a, count(*) FROM t", NotInProfile(10)),
        ("SELECT a, min(a) FROM t", NotInProfile(10)),
        ("SELECT a, max (a) FROM t", NotInProfile(10)),
        ("SELECT 1 + count(*) FROM t", NotInProfile(11)),
        ("SELECT min(max(a)) FROM t", NotInProfile(11)),
        ("SELECT a FROM t WHERE count(*) = 1", NotInProfile(22)),
        ("SELECT count(*) FROM t FOR UPDATE", NotInProfile(23)),
        (
            "SELECT min(a), max(a) FROM t WHERE TRUE ORDER BY a FOR KEY SHARE",
            NotInProfile(51),
        ),
        ("SELECT count, min, max FROM t FOR UPDATE", Good),
        ("SELECT count * FROM t", Syntax(15)),
    ];
    are_told(&rt, rt.alloc(), &rows)
}

// Behind a comma an aggregate's word is taken for itself, whatever stands behind it.
#[test]
fn next_aggregate(rt: HostRuntime) -> Result<(), Fail> {
    let rows = [
        ("SELECT count(*), min x", Syntax(21)),
        ("SELECT count(*), min", Syntax(20)),
        ("SELECT count(*), max FROM t", Syntax(21)),
        ("SELECT min(a), count *", Syntax(21)),
        ("SELECT count(*), min(a), count_", Syntax(25)),
    ];
    are_told(&rt, rt.alloc(), &rows)
}

#[test]
fn expressions(rt: HostRuntime) -> Result<(), Fail> {
    let rows = [
        ("SELECT f(1)", NotInProfile(7)),
        ("SELECT f (1)", NotInProfile(7)),
        ("SELECT f -- a\n (1)", NotInProfile(7)),
        ("SELECT \"f\"(1)", NotInProfile(7)),
        ("SELECT 1 + lower('x')", NotInProfile(11)),
        ("SELECT date('x')", NotInProfile(7)),
        ("SELECT int(1)", NotInProfile(7)),
        ("SELECT values (1)", NotInProfile(7)),
        ("SELECT case(1)", NotInProfile(7)),
        ("SELECT f 'x'", Syntax(9)),
        ("SELECT and(1)", Syntax(7)),
        ("SELECT 1 (1)", Syntax(9)),
        ("SELECT 'x' (1)", Syntax(11)),
        ("SELECT (1) (1)", Syntax(11)),
        ("SELECT ()", Syntax(8)),
        ("SELECT (1", Syntax(9)),
        ("SELECT (1, 2)", Syntax(9)),
        ("SELECT (1))", Syntax(10)),
        ("SELECT (SELECT 1)", Syntax(8)),
        ("SELECT 1 +", Syntax(10)),
        ("SELECT 1 + NOT TRUE", Syntax(11)),
        ("SELECT a = NOT b", Syntax(11)),
        ("SELECT - NOT a", Syntax(9)),
        ("SELECT * 1", Syntax(9)),
        ("SELECT 1 + * 1", Syntax(11)),
        ("SELECT a = b = c", Syntax(13)),
        ("SELECT a < b > c", Syntax(13)),
        ("SELECT a IS TRUE", Syntax(12)),
        ("SELECT a IS NOT 1", Syntax(16)),
        ("SELECT a IS NULL = b", Syntax(17)),
        ("SELECT a NULL", Syntax(9)),
        ("SELECT a NOT NULL", Syntax(13)),
        ("SELECT a NOT LIKE 'x'", NotInProfile(13)),
        ("SELECT a BETWEEN 1 OR 2", Syntax(19)),
        ("SELECT a BETWEEN 1 = 1 AND 2", Syntax(19)),
        ("SELECT a BETWEEN NOT 1 AND 2", Syntax(17)),
        ("SELECT a BETWEEN 1 AND 2 BETWEEN 3 AND 4", Syntax(25)),
        ("SELECT a IN 1", Syntax(12)),
        ("SELECT a IN ()", Syntax(13)),
        ("SELECT a IN (1) IN (2)", Syntax(16)),
        ("SELECT a IN (SELECT 1)", Syntax(13)),
        ("SELECT DATE 1", Syntax(12)),
        ("SELECT TRUE FALSE", Syntax(12)),
        ("SELECT ALL", Good),
    ];
    are_told(&rt, rt.alloc(), &rows)
}

#[test]
fn calls_and_casts(rt: HostRuntime) -> Result<(), Fail> {
    let rows = [
        ("SELECT abs(1, 2)", Syntax(12)),
        ("SELECT length('a', 'b')", Syntax(17)),
        ("SELECT length()", Syntax(14)),
        ("SELECT coalesce()", Syntax(16)),
        ("SELECT coalesce(1,", Syntax(18)),
        ("SELECT coalesce(1, 2, 3)", Good),
        ("SELECT \"abs\"(1)", NotInProfile(7)),
        ("SELECT CAST 1 AS int", Syntax(12)),
        ("SELECT CAST(1)", Syntax(13)),
        ("SELECT CAST(1 AS 1)", Syntax(17)),
        ("SELECT CAST(1 AS int, 2)", Syntax(20)),
        ("SELECT 1::f", Syntax(10)),
        ("SELECT 1::f(2)", Syntax(10)),
        ("SELECT 1::\"text\"", Syntax(10)),
        ("SELECT 1::char(3)", Syntax(10)),
        ("SELECT 1::numeric", NotInProfile(10)),
        ("SELECT 1::double precision", NotInProfile(10)),
        ("SELECT 1::character", Syntax(19)),
        ("SELECT 1::character(3)", Syntax(19)),
        ("SELECT 1::character varying", Good),
        ("SELECT 1::character varying (3)", Good),
        ("SELECT 1::varchar(0)", Syntax(18)),
        ("SELECT 1::varchar(1)", Good),
        ("SELECT 1::varchar(10485760)", Good),
        ("SELECT 1::varchar(10485761)", Syntax(18)),
        ("SELECT 1::character varying(0)", Syntax(28)),
        ("SELECT 1::character varying(10485761)", Syntax(28)),
        ("SELECT 1::varchar(9223372036854775808)", NotInProfile(18)),
        ("SELECT 1::varchar(1.5)", NotInProfile(18)),
        ("SELECT 1::varchar(-1)", Syntax(18)),
        ("SELECT 1::varchar()", Syntax(18)),
        ("SELECT 1::varchar(3, 4)", Syntax(19)),
        ("SELECT 1::int(3)", Syntax(13)),
        ("SELECT 1::text::text text", Syntax(21)),
    ];
    are_told(&rt, rt.alloc(), &rows)
}

#[test]
fn alterations(rt: HostRuntime) -> Result<(), Fail> {
    let rows = [
        ("ALTER a", Syntax(6)),
        ("ALTER INDEX a", NotInProfile(6)),
        ("ALTER TABLE t", Syntax(13)),
        ("ALTER TABLE IF EXISTS t", Syntax(15)),
        ("ALTER TABLE t INHERIT p SELECT", Syntax(24)),
        ("ALTER TABLE t OWNER TO a", NotInProfile(14)),
        ("ALTER TABLE t ATTACH PARTITION a", NotInProfile(14)),
        ("ALTER TABLE t ENABLE TRIGGER ALL", Syntax(14)),
        ("ALTER TABLE t ADD (a int)", Syntax(18)),
        ("ALTER TABLE t ADD COLUMN UNIQUE (a)", Syntax(25)),
        ("ALTER TABLE t ADD COLUMN IF NOT EXISTS a int", Syntax(28)),
        ("ALTER TABLE t ADD a", Syntax(19)),
        ("ALTER TABLE t ADD CONSTRAINT c a int", Syntax(31)),
        ("ALTER TABLE t ADD UNIQUE (a) NOT VALID", Syntax(29)),
        ("ALTER TABLE t ADD PRIMARY KEY (a) NOT VALID", Syntax(34)),
        ("ALTER TABLE t ADD CHECK (a) NOT NULL", Syntax(32)),
        ("ALTER TABLE t ADD a int NOT VALID", Syntax(28)),
        (
            "ALTER TABLE t ADD CHECK (a) NOT VALID NO INHERIT",
            Syntax(38),
        ),
        ("ALTER TABLE t DROP a CASCADE", NotInProfile(21)),
        ("ALTER TABLE t DROP CONSTRAINT c CASCADE", NotInProfile(32)),
        ("ALTER TABLE t DROP COLUMN", Syntax(25)),
        ("ALTER TABLE t DROP a, RENAME b TO c", Syntax(22)),
        ("ALTER TABLE t DROP a,", Syntax(21)),
        ("ALTER TABLE t ALTER a SET DEFAULT 70 NOT NULL", Syntax(37)),
        ("ALTER TABLE t ALTER a SET DEFAULT 1 = 1", Syntax(36)),
        ("ALTER TABLE t ALTER a SET STATISTICS 70 ONLY", Syntax(40)),
        ("ALTER TABLE t ALTER a SET STATISTICS +1", Syntax(37)),
        (
            "ALTER TABLE t ALTER a SET STATISTICS 9223372036854775808",
            NotInProfile(37),
        ),
        ("ALTER TABLE t ALTER a SET TYPE int", Syntax(26)),
        ("ALTER TABLE t ALTER a SET DATA int", Syntax(31)),
        ("ALTER TABLE t ALTER a DROP NOT VALID", Syntax(31)),
        ("ALTER TABLE t ALTER a TYPE int USING", Syntax(36)),
        ("ALTER TABLE t ALTER a TYPE real", NotInProfile(27)),
        ("ALTER TABLE t VALIDATE c", Syntax(23)),
        ("ALTER TABLE t NO p", Syntax(17)),
        ("ALTER TABLE t SET NOT NULL", Syntax(18)),
        ("ALTER TABLE t SET (autovacuum = 1)", Syntax(19)),
        ("ALTER TABLE t SET (fillfactor 70)", Syntax(30)),
        ("ALTER TABLE t SET (fillfactor = 9)", Syntax(32)),
        ("ALTER TABLE t SET (fillfactor = 10)", Good),
        ("ALTER TABLE t SET (fillfactor = 100)", Good),
        ("ALTER TABLE t SET (fillfactor = 101)", Syntax(32)),
        ("ALTER TABLE t SET (fillfactor = -10)", Syntax(32)),
        ("ALTER TABLE t SET (fillfactor = 70) ONLY", Syntax(36)),
        ("ALTER TABLE t RENAME a b", Syntax(23)),
        ("ALTER TABLE t RENAME a TO b, INHERIT p", Syntax(27)),
        ("ALTER TABLE t RENAME CONSTRAINT c d", Syntax(34)),
    ];
    are_told(&rt, rt.alloc(), &rows)
}

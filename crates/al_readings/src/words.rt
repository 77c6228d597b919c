use crate::reading::Told::{Good, NotInProfile, Syntax};
use crate::reading::{Told, are_told, told_by};
use al_values::{NoMemory, Txt};
use std::alloc::Global;
use std::test::Fail;

// What a text is told where a word stands in it.
fn told_with(alloc: Global, before: &str, word: &str, after: &str) -> Result<Told, NoMemory> {
    let text = format!(in alloc; "{before}{word}{after}")?;
    told_by(alloc, &Txt::from_string(text))
}

// As a token that can't stand, as a column, as a table and its quoted name, and as a quoted name that can't stand.
fn told_of_word(alloc: Global, word: &str) -> Result<[Told; 5], NoMemory> {
    Ok([
        told_with(alloc, "COMMIT WORK ", word, "")?,
        told_with(alloc, "SELECT ", word, "")?,
        told_with(alloc, "DROP TABLE ", word, "")?,
        told_with(alloc, "DROP TABLE \"", word, "\"")?,
        told_with(alloc, "COMMIT WORK \"", word, "\"")?,
    ])
}

#[test]
fn left_out(rt: HostRuntime) -> Result<(), Fail> {
    let words =
        "analyze attach cascade case copy deferrable detach distinct do except exclude explain generated grant \
        group having identity index intersect join like limit merge offset on owner partition prepare release returning \
        rule savepoint schema sequence serializable temp temporary transaction trigger truncate union vacuum view with \
        numeric decimal real double timestamp";
    let wanted = [NotInProfile(12), Good, Good, Good, Syntax(12)];
    let mut count: u32 = 0;
    for word in words.split_whitespace() {
        let found = told_of_word(rt.alloc(), word)?;
        assert_eq!(rt; found, wanted, "{word}");
        count = count.saturating_add(1);
    }
    assert_eq!(rt; count, 49);
    Ok(())
}

#[test]
fn reserved(rt: HostRuntime) -> Result<(), Fail> {
    let words =
        "and as between cast check column constraint create default false for foreign from in into is not null \
        only or order primary references select table to true unique using where";
    let wanted = (Syntax(11), Good, Syntax(12));
    let mut count: u32 = 0;
    for word in words.split_whitespace() {
        let found = told_of_word(rt.alloc(), word)?;
        assert_eq!(rt; (found[2], found[3], found[0]), wanted, "{word}");
        count = count.saturating_add(1);
    }
    assert_eq!(rt; count, 30);
    Ok(())
}

// The other words of the grammar are names where a name may stand.
#[test]
fn free(rt: HostRuntime) -> Result<(), Fail> {
    let words =
        "abort abs access add alter asc begin bigint bool boolean by character coalesce commit committed count \
        data date deadlock_timeout delete desc drop end exclusive exists fillfactor generate_series if inherit inherits \
        insert int int2 int4 int8 integer isolation key length level local lock lock_timeout max min mode no nowait read \
        rename repeatable restrict rollback row session set share smallint start statement_timeout statistics text type \
        update valid validate values varchar varying work";
    let wanted = [Syntax(12), Good, Good, Good, Syntax(12)];
    for word in words.split_whitespace() {
        let found = told_of_word(rt.alloc(), word)?;
        assert_eq!(rt; found, wanted, "{word}");
    }
    Ok(())
}

#[test]
fn where_they_are_met(rt: HostRuntime) -> Result<(), Fail> {
    let rows = [
        ("SELECT case WHEN TRUE", Syntax(12)),
        ("SELECT case", Good),
        ("SELECT a CASE", NotInProfile(9)),
        ("SELECT a AS case, b AS \"case\"", Good),
        ("SELECT a \"case\"", Syntax(9)),
        ("SELECT a 'case'", Syntax(9)),
        ("SELECT group FROM limit", Good),
        ("SELECT group FROM limit limit", NotInProfile(24)),
        ("VIEW", NotInProfile(0)),
        ("CREATE View", NotInProfile(7)),
        ("CREATE TABLE view (index int)", Good),
        ("ALTER TABLE with RENAME TO owner", Good),
        ("ALTER TABLE t owner", NotInProfile(14)),
        ("COMMIT TRANSACTION TRANSACTION", NotInProfile(19)),
        ("analyzed", Syntax(0)),
    ];
    are_told(&rt, rt.alloc(), &rows)
}

// A piece so many times.
fn row_of(alloc: Global, piece: &str, count: u32) -> Result<String, NoMemory> {
    let mut row = String::new(alloc);
    for _ in 0..count {
        row.push_str(piece)?;
    }
    Ok(row)
}

// A name of a piece so many times, as a table, quoted, as a column, and where no name may stand.
fn told_of_name(alloc: Global, piece: &str, count: u32) -> Result<[Told; 4], NoMemory> {
    let name = row_of(alloc, piece, count)?;
    let name = name.as_str();
    Ok([
        told_with(alloc, "DROP TABLE ", name, "")?,
        told_with(alloc, "DROP TABLE \"", name, "\"")?,
        told_with(alloc, "SELECT ", name, "")?,
        told_with(alloc, "COMMIT ", name, "")?,
    ])
}

#[test]
fn long_names(rt: HostRuntime) -> Result<(), Fail> {
    let alloc = rt.alloc();
    let long = NotInProfile(11);
    assert_eq!(rt;
        told_of_name(alloc, "a", 63)?,
        [Good, Good, Good, Syntax(7)]
    );
    assert_eq!(rt;
        told_of_name(alloc, "a", 64)?,
        [long, long, NotInProfile(7), NotInProfile(7)]
    );
    assert_eq!(rt;
        told_of_name(alloc, "_A0", 21)?,
        [Good, Good, Good, Syntax(7)]
    );
    assert_eq!(rt;
        told_of_name(alloc, "_A0b", 16)?,
        [long, long, NotInProfile(7), NotInProfile(7)]
    );
    Ok(())
}

// What a quoted name of a piece so many times is told.
fn told_quoted(alloc: Global, piece: &str, count: u32) -> Result<Told, NoMemory> {
    let name = row_of(alloc, piece, count)?;
    told_with(alloc, "DROP TABLE \"", name.as_str(), "\"")
}

#[test]
fn long_quoted_names(rt: HostRuntime) -> Result<(), Fail> {
    let rows = [
        ("\"\"", 63, Good),
        ("\"\"", 64, NotInProfile(11)),
        ("é", 31, Good),
        ("é", 32, NotInProfile(11)),
        ("€", 21, Good),
        ("€", 22, NotInProfile(11)),
    ];
    for (piece, count, wanted) in rows {
        let found = told_quoted(rt.alloc(), piece, count)?;
        assert_eq!(rt; found, wanted, "{piece} {count}");
    }
    Ok(())
}

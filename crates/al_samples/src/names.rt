use al_catalogue::{Catalogue, Claimed, TableEntry};
use al_modes::Level;
use al_schema::Shape;
use al_values::{IdList, ListOf, Name, NoMemory, Txt};
use al_xacts::{Fate, Xact, Xacts};
use std::alloc::Global;
use std::process::Abort;
use std::test::Fail;

fn name(alloc: Global, text: &str) -> Result<Name, NoMemory> {
    Txt::new(alloc, text)
}

fn start(alloc: Global, xacts: &mut Xacts) -> Result<Xact, NoMemory> {
    if xacts.sessions() == 0 {
        return Err(NoMemory);
    }
    xacts.start(alloc, 0, Level::ReadCommitted)
}

fn entry(alloc: Global, text: &str, parent: u32) -> Result<TableEntry, NoMemory> {
    let mut parents: IdList = ListOf::new(alloc);
    parents.push(parent)?;
    Ok(TableEntry {
        name: name(alloc, text)?,
        shape: Shape::new(alloc),
        parents,
    })
}

// A transaction's change of a table, where it may have the name.
fn put(
    alloc: Global,
    catalogue: &mut Catalogue,
    x: Xact,
    table: u32,
    entry: TableEntry,
) -> Result<(), NoMemory> {
    match catalogue.claim(&entry.name, x) {
        Claimed::Free if catalogue.can_change(table, x) => {
            catalogue.set(alloc, x, table, Some(entry))
        }
        _ => Err(NoMemory),
    }
}

fn remove(alloc: Global, catalogue: &mut Catalogue, x: Xact, table: u32) -> Result<(), NoMemory> {
    if !catalogue.can_change(table, x) {
        return Err(NoMemory);
    }
    catalogue.set(alloc, x, table, None)
}

fn has_name(
    alloc: Global,
    catalogue: &Catalogue,
    x: Xact,
    text: &str,
) -> Result<Claimed, NoMemory> {
    Ok(catalogue.claim(&name(alloc, text)?, x))
}

// What a transaction does with table 1, which is called t.
#[derive(Clone, Copy)]
enum Act {
    Makes,
    Drops,
    RenamesToW,
}

#[derive(Clone, Copy)]
enum Word {
    T,
    W,
}

// What it and another transaction find a name to be while it is open, or once it has ended so.
#[derive(Clone, Copy)]
enum Claim {
    Free(Act, Fate, Word),
    Taken(Act, Fate, Word),
    Open(Act, Fate, Word),
    OwnFree(Act, Fate, Word),
    OwnTaken(Act, Fate, Word),
}

// The tables after an act, the transaction that did it, and another.
#[derive(Drop)]
struct Acted {
    tables: Catalogue,
    by: Xact,
    other: Xact,
}

fn perform(alloc: Global, tables: &mut Catalogue, x: Xact, act: Act) -> Result<(), NoMemory> {
    match act {
        Act::Makes => put(alloc, tables, x, 1, entry(alloc, "t", 9)?),
        Act::Drops => remove(alloc, tables, x, 1),
        Act::RenamesToW => put(alloc, tables, x, 1, entry(alloc, "w", 9)?),
    }
}

// A table that isn't made by the act itself was there before.
fn begun(alloc: Global, x: Xact, act: Act) -> Result<Catalogue, NoMemory> {
    let mut tables = Catalogue::new(alloc);
    match act {
        Act::Makes => {}
        Act::Drops | Act::RenamesToW => {
            put(alloc, &mut tables, x, 1, entry(alloc, "t", 9)?)?;
            tables.finish(x, Fate::Committed);
        }
    }
    Ok(tables)
}

fn tables_after(alloc: Global, done: Act, fate: Fate) -> Result<Acted, NoMemory> {
    let mut xacts = Xacts::new(alloc, 1)?;
    let first = start(alloc, &mut xacts)?;
    let by = start(alloc, &mut xacts)?;
    let other = start(alloc, &mut xacts)?;
    let mut tables = begun(alloc, first, done)?;
    perform(alloc, &mut tables, by, done)?;
    if fate != Fate::Open {
        tables.finish(by, fate);
    }
    Ok(Acted { tables, by, other })
}

fn claimed(alloc: Global, tables: &Catalogue, x: Xact, word: Word) -> Result<Claimed, NoMemory> {
    match word {
        Word::T => has_name(alloc, tables, x, "t"),
        Word::W => has_name(alloc, tables, x, "w"),
    }
}

fn check_claim(rt: &impl Abort, alloc: Global, claim: Claim) -> Result<(), Fail> {
    match claim {
        Claim::Free(done, fate, word) => {
            let after = tables_after(alloc, done, fate)?;
            let found = claimed(alloc, &after.tables, after.other, word)?;
            assert_eq!(rt; found, Claimed::Free);
        }
        Claim::Taken(done, fate, word) => {
            let after = tables_after(alloc, done, fate)?;
            let found = claimed(alloc, &after.tables, after.other, word)?;
            assert_eq!(rt; found, Claimed::Taken { table: 1 });
        }
        Claim::Open(done, fate, word) => {
            let after = tables_after(alloc, done, fate)?;
            let found = claimed(alloc, &after.tables, after.other, word)?;
            assert_eq!(rt; found, Claimed::Open { by: after.by });
        }
        Claim::OwnFree(done, fate, word) => {
            let after = tables_after(alloc, done, fate)?;
            let found = claimed(alloc, &after.tables, after.by, word)?;
            assert_eq!(rt; found, Claimed::Free);
        }
        Claim::OwnTaken(done, fate, word) => {
            let after = tables_after(alloc, done, fate)?;
            let found = claimed(alloc, &after.tables, after.by, word)?;
            assert_eq!(rt; found, Claimed::Taken { table: 1 });
        }
    }
    Ok(())
}

fn check_claims(rt: &impl Abort, alloc: Global, claims: &[Claim]) -> Result<(), Fail> {
    for claim in claims {
        check_claim(rt, alloc, *claim)?;
    }
    Ok(())
}

// A name of a table that an open transaction makes, drops or renames.
#[test]
fn names_of_an_open_transaction(rt: HostRuntime) -> Result<(), Fail> {
    let claims = [
        Claim::Open(Act::Makes, Fate::Open, Word::T),
        Claim::OwnTaken(Act::Makes, Fate::Open, Word::T),
        Claim::Free(Act::Makes, Fate::Open, Word::W),
        Claim::Open(Act::Drops, Fate::Open, Word::T),
        Claim::OwnFree(Act::Drops, Fate::Open, Word::T),
        Claim::Open(Act::RenamesToW, Fate::Open, Word::T),
        Claim::OwnFree(Act::RenamesToW, Fate::Open, Word::T),
        Claim::Open(Act::RenamesToW, Fate::Open, Word::W),
        Claim::OwnTaken(Act::RenamesToW, Fate::Open, Word::W),
    ];
    check_claims(&rt, rt.alloc(), &claims)
}

// The same names once it has ended.
#[test]
fn names_after_the_end(rt: HostRuntime) -> Result<(), Fail> {
    let claims = [
        Claim::Taken(Act::Makes, Fate::Committed, Word::T),
        Claim::Free(Act::Makes, Fate::Aborted, Word::T),
        Claim::Free(Act::Drops, Fate::Committed, Word::T),
        Claim::Taken(Act::Drops, Fate::Aborted, Word::T),
        Claim::Free(Act::RenamesToW, Fate::Committed, Word::T),
        Claim::Taken(Act::RenamesToW, Fate::Committed, Word::W),
        Claim::Taken(Act::RenamesToW, Fate::Aborted, Word::T),
        Claim::Free(Act::RenamesToW, Fate::Aborted, Word::W),
    ];
    check_claims(&rt, rt.alloc(), &claims)
}

// A table that is renamed twice by one transaction has the last name alone, and its first name is free for another table. Nothing
// is kept of a name once nobody can find a table by it.
#[test]
fn renamed_twice(rt: HostRuntime) -> Result<(), Fail> {
    let alloc = rt.alloc();
    let mut xacts = Xacts::new(alloc, 1)?;
    let a = start(alloc, &mut xacts)?;
    let b = start(alloc, &mut xacts)?;
    let mut catalogue = Catalogue::new(alloc);
    put(alloc, &mut catalogue, a, 1, entry(alloc, "t", 9)?)?;
    put(alloc, &mut catalogue, a, 1, entry(alloc, "v", 9)?)?;
    assert_eq!(rt; has_name(alloc, &catalogue, b, "t")?, Claimed::Free);
    assert!(rt; !catalogue.keeps_name(&name(alloc, "t")?));
    put(alloc, &mut catalogue, b, 2, entry(alloc, "t", 9)?)?;
    assert!(rt; catalogue.keeps_name(&name(alloc, "t")?));
    catalogue.finish(a, Fate::Committed);
    assert_eq!(rt; catalogue.find(&name(alloc, "v")?, b), Some(1));
    assert_eq!(rt; catalogue.find(&name(alloc, "t")?, b), Some(2));
    assert_eq!(rt; catalogue.find(&name(alloc, "t")?, a), None);
    catalogue.finish(b, Fate::Aborted);
    assert_eq!(rt; has_name(alloc, &catalogue, b, "t")?, Claimed::Free);
    assert!(rt; catalogue.entry(2, b).is_none());
    assert!(rt; catalogue.entry(1, b).is_some());
    assert!(rt; !catalogue.keeps_name(&name(alloc, "t")?));
    assert!(rt; catalogue.keeps_name(&name(alloc, "v")?));
    Ok(())
}

#[test]
fn links(rt: HostRuntime) -> Result<(), Fail> {
    let alloc = rt.alloc();
    let a = start(alloc, &mut Xacts::new(alloc, 1)?)?;
    let mut catalogue = Catalogue::new(alloc);
    put(alloc, &mut catalogue, a, 1, entry(alloc, "t", 9)?)?;
    let tree = catalogue.tree(alloc, a)?;
    assert_eq!(rt; tree.children(9).as_slice(), [1].as_slice());
    Ok(())
}

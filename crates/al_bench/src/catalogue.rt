//! Calls of al_catalogue.

use crate::parts::Size;
use crate::schema::shape;
use crate::tree::parent_of;
use crate::xacts::{commit, open, start, without};
use al_catalogue::{Catalogue, Claimed, TableEntry};
use al_values::{IdList, Name, NoMemory};
use al_xacts::{Fate, Xact, Xacts};
use std::alloc::Global;

#[derive(Clone, Copy)]
pub enum Call {
    Nothing,
    Find,
    Claim,
    Entry,
    Tree,
    Set,
    Finish,
}

pub fn call_of(word: &str) -> Option<Call> {
    match word {
        "nothing" => Some(Call::Nothing),
        "find" => Some(Call::Find),
        "claim" => Some(Call::Claim),
        "entry" => Some(Call::Entry),
        "tree" => Some(Call::Tree),
        "set" => Some(Call::Set),
        "finish" => Some(Call::Finish),
        _ => None,
    }
}

fn name_of(alloc: Global, table: u32) -> Result<Name, NoMemory> {
    Ok(Name::from_string(format!(in alloc; "t{table}")?))
}

fn entry_of(alloc: Global, table: u32) -> Result<TableEntry, NoMemory> {
    let mut parents = IdList::new(alloc);
    parents.push(parent_of(table))?;
    Ok(TableEntry {
        name: name_of(alloc, table)?,
        shape: shape(alloc)?,
        parents,
    })
}

/// Makes a table, where its name is free.
fn make(
    alloc: Global,
    tables: &mut Catalogue,
    x: Xact,
    table: u32,
    entry: TableEntry,
) -> Result<u64, NoMemory> {
    match tables.claim(&entry.name, x) {
        Claimed::Free if tables.can_change(table, x) => {
            tables.set(alloc, x, table, Some(entry))?;
            Ok(1)
        }
        _ => Ok(0),
    }
}

/// Makes a table in a new transaction, and commits that.
fn come_and_go(
    alloc: Global,
    tables: &mut Catalogue,
    xacts: &mut Xacts,
    table: u32,
    entry: TableEntry,
) -> Result<u64, NoMemory> {
    let x = start(alloc, xacts)?;
    let made = make(alloc, tables, x, table, entry)?;
    tables.finish(x, Fate::Committed);
    commit(xacts, x);
    Ok(made)
}

fn claim_number(claimed: Claimed) -> u64 {
    match claimed {
        Claimed::Free => 0,
        Claimed::Taken { table } => u64::from(table),
        Claimed::Open { by } => u64::from(by.number()),
    }
}

/// The entry of a new table is made for each call, so that its making is no part of what is counted.
fn one(
    alloc: Global,
    call: Call,
    new: u32,
    entry: TableEntry,
    tables: &mut Catalogue,
    xacts: &mut Xacts,
    last: Xact,
    name: &Name,
) -> Result<u64, NoMemory> {
    let answer = match call {
        Call::Nothing => 0,
        Call::Find => u64::from(tables.find(name, last).is_some()),
        Call::Claim => claim_number(tables.claim(name, last)),
        Call::Entry => u64::from(tables.entry(1, last).is_some()),
        Call::Tree => tables.tree(alloc, last)?.children(0).len() as u64,
        Call::Set => make(alloc, tables, last, new, entry)?,
        Call::Finish => come_and_go(alloc, tables, xacts, new, entry)?,
    };
    Ok(answer)
}

/// Over so many tables in families of five.
pub fn calls(alloc: Global, call: Call, size: Size, times: u32) -> Result<u64, NoMemory> {
    let mut xacts = without(alloc)?;
    let mut tables = Catalogue::new(alloc);
    for table in 0..size.tables {
        let entry = entry_of(alloc, table)?;
        come_and_go(alloc, &mut tables, &mut xacts, table, entry)?;
    }
    let last = open(alloc, &mut xacts)?;
    let name = name_of(alloc, 1)?;
    let mut sum: u64 = 0;
    for number in 0..times {
        let new = size.tables.wrapping_add(number);
        let entry = entry_of(alloc, new)?;
        let answer = one(
            alloc,
            call,
            new,
            entry,
            &mut tables,
            &mut xacts,
            last,
            &name,
        )?;
        sum = sum.wrapping_add(answer);
    }
    Ok(sum)
}

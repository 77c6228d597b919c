//! Calls of al_xacts.

use crate::parts::Size;
use al_modes::{Level, RowMode};
use al_values::NoMemory;
use al_xacts::{Fate, Marked, Snapshot, Xact, Xacts};
use std::alloc::Global;

const SESSIONS: u32 = 62;

#[derive(Clone, Copy)]
pub enum Call {
    Nothing,
    Start,
    Finish,
    Fate,
    Snapshot,
    Sees,
    Mark,
    InTheWay,
}

pub fn call_of(word: &str) -> Option<Call> {
    match word {
        "nothing" => Some(Call::Nothing),
        "start" => Some(Call::Start),
        "finish" => Some(Call::Finish),
        "fate" => Some(Call::Fate),
        "snapshot" => Some(Call::Snapshot),
        "sees" => Some(Call::Sees),
        "mark" => Some(Call::Mark),
        "in_the_way" => Some(Call::InTheWay),
        _ => None,
    }
}

/// Without a transaction.
pub fn without(alloc: Global) -> Result<Xacts, NoMemory> {
    Xacts::new(alloc, SESSIONS)
}

pub fn start(alloc: Global, xacts: &mut Xacts) -> Result<Xact, NoMemory> {
    if xacts.sessions() == 0 {
        return Err(NoMemory);
    }
    xacts.start(alloc, 0, Level::ReadCommitted)
}

pub fn commit(xacts: &mut Xacts, x: Xact) {
    if xacts.is_open(x) {
        xacts.finish(x, Fate::Committed);
    }
}

/// Opens a transaction for each session, and gives the last.
pub fn open(alloc: Global, xacts: &mut Xacts) -> Result<Xact, NoMemory> {
    let mut last = start(alloc, xacts)?;
    for _ in 1..SESSIONS {
        last = start(alloc, xacts)?;
    }
    Ok(last)
}

fn mark(alloc: Global, xacts: &mut Xacts, x: Xact, row: u32) -> Result<u64, NoMemory> {
    if !xacts.is_open(x) {
        return Ok(0);
    }
    match xacts.mark(alloc, x, row, RowMode::Share)? {
        Marked::Done => Ok(1),
        Marked::Held { .. } => Ok(0),
    }
}

/// Opens a transaction, and commits it.
fn come_and_go(alloc: Global, xacts: &mut Xacts) -> Result<u64, NoMemory> {
    let x = start(alloc, xacts)?;
    commit(xacts, x);
    Ok(1)
}

fn fate_number(fate: Fate) -> u64 {
    match fate {
        Fate::Open => 0,
        Fate::Committed => 1,
        Fate::Aborted => 2,
    }
}

fn one(
    alloc: Global,
    call: Call,
    number: u32,
    xacts: &mut Xacts,
    last: Xact,
    first: Xact,
    snapshot: &Snapshot,
) -> Result<u64, NoMemory> {
    let answer = match call {
        Call::Nothing => 0,
        Call::Start => u64::from(start(alloc, xacts)?.number()),
        Call::Finish => come_and_go(alloc, xacts)?,
        Call::Fate => fate_number(xacts.fate(first)),
        Call::Snapshot => u64::from(xacts.snapshot(alloc, last)?.sees(first, xacts)),
        Call::Sees => u64::from(snapshot.sees(first, xacts)),
        Call::Mark => mark(alloc, xacts, last, number)?,
        Call::InTheWay => match xacts.in_the_way(last, number, RowMode::Update) {
            Some(by) => u64::from(by.number()),
            None => 0,
        },
    };
    Ok(answer)
}

/// Over marks of an open transaction on so many rows.
pub fn calls(alloc: Global, call: Call, size: Size, times: u32) -> Result<u64, NoMemory> {
    let mut xacts = without(alloc)?;
    let first = start(alloc, &mut xacts)?;
    commit(&mut xacts, first);
    for _ in 1..size.transactions {
        come_and_go(alloc, &mut xacts)?;
    }
    let marker = start(alloc, &mut xacts)?;
    for row in 0..size.transactions.wrapping_mul(size.each) {
        mark(alloc, &mut xacts, marker, row)?;
    }
    let last = open(alloc, &mut xacts)?;
    let snapshot = xacts.snapshot(alloc, last)?;
    let mut sum: u64 = 0;
    for number in 0..times {
        sum = sum.wrapping_add(one(alloc, call, number, &mut xacts, last, first, &snapshot)?);
    }
    Ok(sum)
}

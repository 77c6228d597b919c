//! Calls of al_keys.

use crate::parts::Size;
use crate::xacts::{commit, open, start, without};
use al_keys::{KeyIndex, Sought};
use al_values::{NoMemory, Row, Value};
use al_xacts::{Snapshot, Xact, Xacts};
use std::alloc::Global;

#[derive(Clone, Copy)]
pub enum Call {
    Nothing,
    Seek,
    Gives,
    Enter,
    Leave,
}

pub fn call_of(word: &str) -> Option<Call> {
    match word {
        "nothing" => Some(Call::Nothing),
        "seek" => Some(Call::Seek),
        "gives" => Some(Call::Gives),
        "enter" => Some(Call::Enter),
        "leave" => Some(Call::Leave),
        _ => None,
    }
}

/// The key of a row. Between two of them there is room for another.
fn key_of(alloc: Global, row: u32) -> Result<Row, NoMemory> {
    let mut key = Row::new(alloc);
    key.push(Value::Int(i64::from(row).wrapping_mul(2)))?;
    Ok(key)
}

fn key_behind(alloc: Global, row: u32) -> Result<Row, NoMemory> {
    let mut key = Row::new(alloc);
    key.push(Value::Int(i64::from(row).wrapping_mul(2).wrapping_add(1)))?;
    Ok(key)
}

fn leave(index: &mut KeyIndex, x: Xact, key: &Row, row: u32, xacts: &Xacts) -> u64 {
    if !index.can_leave(x, key, row, xacts) {
        return 0;
    }
    index.leave(x, key, row, xacts);
    1
}

fn found(sought: Sought) -> u64 {
    match sought {
        Sought::Free => 0,
        Sought::Held { row } => u64::from(row),
        Sought::Open { by } => u64::from(by.number()),
    }
}

fn one(
    alloc: Global,
    call: Call,
    number: u32,
    index: &mut KeyIndex,
    xacts: &Xacts,
    last: Xact,
    snapshot: &Snapshot,
) -> Result<u64, NoMemory> {
    let key = key_of(alloc, number)?;
    let answer = match call {
        Call::Nothing => 0,
        Call::Seek => found(index.seek(&key, last, xacts)),
        Call::Gives => u64::from(index.gives(&key, snapshot, xacts).is_some()),
        Call::Enter => {
            index.enter(alloc, last, key_behind(alloc, number)?, number, number)?;
            1
        }
        Call::Leave => leave(index, last, &key, number, xacts),
    };
    Ok(answer)
}

/// Over so many keys, each of one row.
pub fn calls(alloc: Global, call: Call, size: Size, times: u32) -> Result<u64, NoMemory> {
    let mut xacts = without(alloc)?;
    let mut index = KeyIndex::new(alloc);
    for before in 0..size.transactions {
        let x = start(alloc, &mut xacts)?;
        for more in 0..size.each {
            let row = before.wrapping_mul(size.each).wrapping_add(more);
            index.enter(alloc, x, key_of(alloc, row)?, row, row)?;
        }
        commit(&mut xacts, x);
    }
    let last = open(alloc, &mut xacts)?;
    let snapshot = xacts.snapshot(alloc, last)?;
    let mut sum: u64 = 0;
    for number in 0..times {
        sum = sum.wrapping_add(one(alloc, call, number, &mut index, &xacts, last, &snapshot)?);
    }
    Ok(sum)
}

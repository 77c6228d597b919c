//! Calls of al_heap.

use crate::parts::Size;
use crate::xacts::{commit, open, start, without};
use al_heap::Heap;
use al_values::{NoMemory, Row, Value};
use al_xacts::{Snapshot, Xact, Xacts};
use std::alloc::Global;

#[derive(Clone, Copy)]
pub enum Call {
    Nothing,
    Put,
    Change,
    At,
    Newest,
    Visible,
    TakeOut,
}

pub fn call_of(word: &str) -> Option<Call> {
    match word {
        "nothing" => Some(Call::Nothing),
        "put" => Some(Call::Put),
        "change" => Some(Call::Change),
        "at" => Some(Call::At),
        "newest" => Some(Call::Newest),
        "visible" => Some(Call::Visible),
        "take_out" => Some(Call::TakeOut),
        _ => None,
    }
}

fn values_of(alloc: Global, number: u32) -> Result<Row, NoMemory> {
    let mut row = Row::new(alloc);
    row.push(Value::Int(i64::from(number)))?;
    Ok(row)
}

/// Puts a row that isn't there.
fn put(alloc: Global, heap: &mut Heap, x: Xact, row: u32) -> Result<u64, NoMemory> {
    match heap.newest(row) {
        Some(_) => Ok(0),
        None => {
            let values = values_of(alloc, row)?;
            Ok(u64::from(heap.put(alloc, x, row, values)?))
        }
    }
}

/// Changes a row that may be changed.
fn change(
    alloc: Global,
    heap: &mut Heap,
    x: Xact,
    row: u32,
    number: u32,
    xacts: &Xacts,
) -> Result<u64, NoMemory> {
    if !xacts.is_open(x) || !heap.can_change(x, row, xacts) {
        return Ok(0);
    }
    let values = values_of(alloc, number)?;
    heap.change(alloc, x, row, number, Some(values), xacts)?;
    Ok(1)
}

/// Makes versions of this number and those behind it, two of each row.
fn fill(
    alloc: Global,
    heap: &mut Heap,
    x: Xact,
    xacts: &Xacts,
    from: u32,
    count: u32,
) -> Result<(), NoMemory> {
    for more in 0..count {
        let number = from.wrapping_add(more);
        if number % 2 == 0 {
            put(alloc, heap, x, number / 2)?;
        } else {
            change(alloc, heap, x, number / 2, number, xacts)?;
        }
    }
    Ok(())
}

fn version_number(heap: &Heap, place: u32) -> u64 {
    if place < heap.len() {
        u64::from(heap.at(place).number)
    } else {
        0
    }
}

fn is_visible(heap: &Heap, place: u32, snapshot: &Snapshot, xacts: &Xacts) -> bool {
    place < heap.len() && heap.visible(place, snapshot, xacts)
}

fn out_and_back(heap: &mut Heap) {
    let taken = heap.take_out();
    heap.put_back(taken);
}

fn one(
    alloc: Global,
    call: Call,
    number: u32,
    heap: &mut Heap,
    xacts: &Xacts,
    last: Xact,
    snapshot: &Snapshot,
) -> Result<u64, NoMemory> {
    let answer = match call {
        Call::Nothing => 0,
        Call::Put => put(alloc, heap, last, u32::MAX.wrapping_sub(number))?,
        Call::Change => change(alloc, heap, last, number, 7, xacts)?,
        Call::At => version_number(heap, number),
        Call::Newest => u64::from(heap.newest(number).is_some()),
        Call::Visible => u64::from(is_visible(heap, number, snapshot, xacts)),
        Call::TakeOut => {
            out_and_back(heap);
            1
        }
    };
    Ok(answer)
}

/// Over so many versions, two of each row.
pub fn calls(alloc: Global, call: Call, size: Size, times: u32) -> Result<u64, NoMemory> {
    let mut xacts = without(alloc)?;
    let mut heap = Heap::new(alloc);
    for before in 0..size.transactions {
        let x = start(alloc, &mut xacts)?;
        let from = before.wrapping_mul(size.each);
        fill(alloc, &mut heap, x, &xacts, from, size.each)?;
        commit(&mut xacts, x);
    }
    let last = open(alloc, &mut xacts)?;
    let snapshot = xacts.snapshot(alloc, last)?;
    let mut sum: u64 = 0;
    for number in 0..times {
        sum = sum.wrapping_add(one(alloc, call, number, &mut heap, &xacts, last, &snapshot)?);
    }
    Ok(sum)
}

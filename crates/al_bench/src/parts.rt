//! Single calls of the crates that keep transactions, rows, keys and tables, over as much as stands there already.

use crate::{catalogue, heap, keys, schema, tree, xacts};
use al_values::NoMemory;
use std::alloc::Global;

/// How much stands there before the first call.
#[derive(Clone, Copy)]
pub struct Size {
    /// Transactions that were committed; one of each session is open beside them.
    pub transactions: u32,
    /// The versions, keys or marks that each of them made.
    pub each: u32,
    /// The tables.
    pub tables: u32,
}

/// The call that is made.
#[derive(Clone, Copy)]
pub enum Part {
    Xacts(xacts::Call),
    Heap(heap::Call),
    Keys(keys::Call),
    Tree(tree::Call),
    Catalogue(catalogue::Call),
    Schema(schema::Call),
}

/// Makes a call so often, and gives a sum of what it answered.
pub fn calls(alloc: Global, part: Part, size: Size, times: u32) -> Result<u64, NoMemory> {
    match part {
        Part::Xacts(call) => xacts::calls(alloc, call, size, times),
        Part::Heap(call) => heap::calls(alloc, call, size, times),
        Part::Keys(call) => keys::calls(alloc, call, size, times),
        Part::Tree(call) => tree::calls(alloc, call, size, times),
        Part::Catalogue(call) => catalogue::calls(alloc, call, size, times),
        Part::Schema(call) => schema::calls(alloc, call, times),
    }
}

/// The call of a crate that words name.
pub fn part_of(of: &str, call: &str) -> Option<Part> {
    match of {
        "xacts" => Some(Part::Xacts(xacts::call_of(call)?)),
        "heap" => Some(Part::Heap(heap::call_of(call)?)),
        "keys" => Some(Part::Keys(keys::call_of(call)?)),
        "tree" => Some(Part::Tree(tree::call_of(call)?)),
        "catalogue" => Some(Part::Catalogue(catalogue::call_of(call)?)),
        "schema" => Some(Part::Schema(schema::call_of(call)?)),
        _ => None,
    }
}

//! Calls of al_tree.

use crate::parts::Size;
use al_tree::Tree;
use al_values::{Cant, NoMemory};
use std::alloc::Global;

// The table from which all descend.
const ROOT: u32 = u32::MAX;

#[derive(Clone, Copy)]
pub enum Call {
    Nothing,
    Children,
    Family,
    WholeFamily,
    Link,
    LinkAbove,
    Unlink,
    UnlinkRoot,
}

pub fn call_of(word: &str) -> Option<Call> {
    match word {
        "nothing" => Some(Call::Nothing),
        "children" => Some(Call::Children),
        "family" => Some(Call::Family),
        "whole_family" => Some(Call::WholeFamily),
        "link" => Some(Call::Link),
        "link_above" => Some(Call::LinkAbove),
        "unlink" => Some(Call::Unlink),
        "unlink_root" => Some(Call::UnlinkRoot),
        _ => None,
    }
}

/// Makes a table a child of another.
fn link(alloc: Global, tree: &mut Tree, child: u32, parent: u32) -> Result<u64, NoMemory> {
    match tree.link(alloc, child, parent) {
        Ok(()) => Ok(1),
        Err(Cant::Why(_)) => Ok(0),
        Err(Cant::NoMemory) => Err(NoMemory),
    }
}

/// The same, and ends the link again.
fn link_and_unlink(
    alloc: Global,
    tree: &mut Tree,
    child: u32,
    parent: u32,
) -> Result<u64, NoMemory> {
    link(alloc, tree, child, parent)?;
    Ok(u64::from(tree.unlink(child, parent)))
}

fn one(alloc: Global, call: Call, new: u32, tree: &mut Tree) -> Result<u64, NoMemory> {
    let answer = match call {
        Call::Nothing => 0,
        Call::Children => tree.children(0).len() as u64,
        Call::Family => tree.family(alloc, 0)?.len() as u64,
        Call::WholeFamily => tree.family(alloc, ROOT)?.len() as u64,
        Call::Link => link(alloc, tree, new, 1)?,
        Call::LinkAbove => link(alloc, tree, ROOT, new)?,
        Call::Unlink => link_and_unlink(alloc, tree, new, 1)?,
        Call::UnlinkRoot => link_and_unlink(alloc, tree, new, ROOT)?,
    };
    Ok(answer)
}

/// The parent of a table: each fifth is one of the next four, and itself a child of the root.
pub fn parent_of(table: u32) -> u32 {
    let least = table - table % 5;
    if least == table { ROOT } else { least }
}

/// Over so many tables in families of five.
pub fn calls(alloc: Global, call: Call, size: Size, times: u32) -> Result<u64, NoMemory> {
    let mut tree = Tree::new(alloc);
    for table in 0..size.tables {
        tree.note(alloc, table, parent_of(table))?;
    }
    let mut sum: u64 = 0;
    for number in 0..times {
        let new = size.tables.wrapping_add(number);
        sum = sum.wrapping_add(one(alloc, call, new, &mut tree)?);
    }
    Ok(sum)
}

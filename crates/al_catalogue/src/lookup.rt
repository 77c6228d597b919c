ghost use Rattle.std.specs.Prelude.{◌≡◌, ◌==◌, ◌||◌, ◌&&◌, ℕ, List, true, false, OnOk, slice_get};
ghost use Rattle.std.specs.Option.{option_copied, option_map, option_map_or, option_and_then};
ghost use Rattle.std.specs.List.{list_any};
ghost use Rattle.al_tree.specs.Links.{has_link};
ghost use Rattle.al_catalogue.specs.Tables.{seen, has_parent, is_parent};
ghost use Rattle.al_catalogue.specs.Names.{is_called, moves_name, taker_of};
ghost use Rattle.al_catalogue.specs.Changes.{ended, is_mine};
ghost use Rattle.al_catalogue.specs.Indexed.{is_own, own_called, has_name};

use crate::{Kept, Own, TableEntry};
use al_tree::Tree;
use al_values::{Name, NoMemory};
use al_xacts::{Fate, Xact};
use std::alloc::Global;
use std::mem;

/// A table as a transaction finds it.
pub(crate) fn seen(x: Xact, kept: &Kept) -> Option<&TableEntry>
    ensures { option_copied result ≡ seen x kept.now }
{
    match &kept.own {
        Some(own) if own.xact == x => own.entry.as_ref(),
        _ => kept.committed.as_ref(),
    }
}

pub(crate) fn is_called(name: &Name, entry: Option<&TableEntry>) -> bool
    ensures { result ≡ is_called name.now (option_copied entry.entry) }
{
    match entry {
        Some(entry) => entry.name == *name,
        None => false,
    }
}

/// The other transaction that makes a name come or go at a table.
pub(crate) fn taker_of(name: &Name, x: Xact, kept: &Kept) -> Option<Xact>
    ensures { result ≡ taker_of name.now x kept.now.committed kept.now.own }
{
    match &kept.own {
        Some(own) => {
            let before = is_called(name, kept.committed.as_ref());
            let after = is_called(name, own.entry.as_ref());
            if own.xact != x && before != after {
                Some(own.xact)
            } else {
                None
            }
        }
        None => None,
    }
}

/// Ends a transaction's change of a table, and gives what isn't kept of it any more.
pub(crate) fn end(kept: &mut Kept, x: Xact, fate: Fate) -> Option<TableEntry>
    ensures kept { kept.new ≡ ended x fate kept.old }
    ensures gone { (name : List ℕ) → (has_name name kept.old || false) ≡ (has_name name (ended x fate kept.old) || is_called name result) }
{
    if !is_own(x, kept) {
        return None;
    }
    match kept.own.take() {
        Some(own) => {
            if fate == Fate::Committed {
                mem::replace(&mut kept.committed, own.entry)
            } else {
                own.entry
            }
        }
        None => None,
    }
}

/// Whether a transaction has changed a table.
pub(crate) fn is_own(x: Xact, kept: &Kept) -> bool
    ensures { result ≡ is_own x kept.now }
{
    match &kept.own {
        Some(own) => own.xact == x,
        None => false,
    }
}

fn own_called(name: &Name, own: &Option<Own>) -> bool
    ensures { result ≡ own_called name.now own.now }
{
    match own {
        Some(own) => is_called(name, own.entry.as_ref()),
        None => false,
    }
}

/// Whether a table is called so by what is committed, or by an open transaction's change.
pub(crate) fn has_name(name: &Name, kept: &Kept) -> bool
    ensures { result ≡ has_name name.now kept.now }
{
    is_called(name, kept.committed.as_ref()) || own_called(name, &kept.own)
}

/// Notes the parents of a table.
pub(crate) fn note_parents(
    alloc: Global,
    tree: &mut Tree,
    child: u32,
    parents: &[u32],
) -> Result<(), NoMemory>
    ensures { OnOk result ((c p : ℕ) → has_link tree.new c p ≡ (has_link tree.old c p || ((child == c) && list_any (λ other. other == p) parents.now))) }
{
    for parent in parents {
        tree.note(alloc, child, *parent)?;
    }
    Ok(())
}

/// Notes the parents of each table, as a transaction finds it.
pub(crate) fn note_all(
    alloc: Global,
    tree: &mut Tree,
    tables: &[Kept],
    x: Xact,
) -> Result<(), NoMemory>
    ensures { OnOk result ((c p : ℕ) → has_link tree.new c p ≡ (has_link tree.old c p || is_parent tables.now x c p)) }
{
    for kept in tables {
        if let Some(entry) = seen(x, kept) {
            note_parents(alloc, tree, kept.number, entry.parents.as_slice())?;
        }
    }
    Ok(())
}

/// Whether nobody else has a change of a table.
pub(crate) fn is_mine(x: Xact, own: &Option<Own>) -> bool
    ensures { result ≡ is_mine x own.now }
{
    match own {
        Some(own) => own.xact == x,
        None => true,
    }
}

/// The number of the table at a place.
pub(crate) fn number_at(tables: &[Kept], at: usize) -> Option<u32>
    ensures { result ≡ option_map (λ kept. kept.number) (slice_get tables.now at) }
{
    match tables.get(at) {
        Some(kept) => Some(kept.number),
        None => None,
    }
}

/// The table at a place, as a transaction finds it.
pub(crate) fn seen_at(tables: &[Kept], at: usize, x: Xact) -> Option<&TableEntry>
    ensures { option_copied result ≡ option_and_then (seen x) (slice_get tables.now at) }
{
    match tables.get(at) {
        Some(kept) => seen(x, kept),
        None => None,
    }
}

/// The other transaction that makes a name come or go at a place.
pub(crate) fn taker_at(tables: &[Kept], at: usize, name: &Name, x: Xact) -> Option<Xact>
    ensures { result ≡ option_and_then (λ kept. taker_of name.now x kept.committed kept.own) (slice_get tables.now at) }
{
    match tables.get(at) {
        Some(kept) => taker_of(name, x, kept),
        None => None,
    }
}

/// Whether nobody else has a change of the table at a place.
pub(crate) fn is_mine_at(tables: &[Kept], at: usize, x: Xact) -> bool
    ensures { result ≡ option_map_or (λ kept. is_mine x kept.own) (slice_get tables.now at) true }
{
    match tables.get(at) {
        Some(kept) => is_mine(x, &kept.own),
        None => true,
    }
}

ghost use Rattle.std.specs.Prelude.{◌≡◌, ℕ, List, ◌<◌, true, false, Some, None, fold, length, slice_get, OnOk, OnErr};
ghost use Rattle.std.specs.Option.{option_map_or};
ghost use Rattle.al_catalogue.specs.Names.{is_called};
ghost use Rattle.al_catalogue.specs.Changes.{ended};
ghost use Rattle.indexmap.specs.IndexMap.{get_by_text};
ghost use Rattle.al_catalogue.specs.Indexed.{AreExact, AreExactBut, AreNamed, HasNoBare, KeepsListed, ListsMore, at_place, has_name, is_listed, is_own, named_in, owned_in, with_own};

use crate::lookup::{end, has_name, is_own};
use crate::names::{add_name, add_owned, cut_name};
use crate::{Kept, Own, Places, TableEntry};
use al_values::{Name, NoMemory};
use al_xacts::{Fate, Xact};
use indexmap::IndexMap;
use std::alloc::Global;
use std::collections::HashMap;
use std::mem;

/// A table that nothing is committed of.
pub(crate) fn first_change(table: u32, own: Own) -> Kept
    ensures { result ≡ record { number = table; committed = None; own = Some own } }
{
    Kept {
        number: table,
        committed: None,
        own: Some(own),
    }
}

/// Keeps the place of a table for the name that a change gives it.
pub(crate) fn list_name(
    alloc: Global,
    names: &mut IndexMap<String, Places>,
    at: usize,
    entry: &Option<TableEntry>,
) -> Result<(), NoMemory>
    ensures keeps { KeepsListed (named_in names.old) (named_in names.new) }
    ensures there { OnOk result ((name : List ℕ) → is_called name entry.now ≡ true → is_listed at (named_in names.new name) ≡ true) }
    ensures listed { OnOk result (ListsMore (named_in names.old) (named_in names.new) at entry.now) }
    ensures err { OnErr result ((asked : List ℕ) → named_in names.new asked ≡ named_in names.old asked) }
    ensures filled { HasNoBare (get_by_text names.old) → HasNoBare (get_by_text names.new) }
{
    match entry {
        Some(entry) => add_name(alloc, names, &entry.name, at),
        None => Ok(()),
    }
}

/// Keeps the place of a table for a transaction that is to change it, where it hasn't yet.
pub(crate) fn list_owner(
    alloc: Global,
    owners: &mut HashMap<u32, Places>,
    tables: &[Kept],
    x: Xact,
    at: usize,
) -> Result<(), NoMemory>
    ensures keeps { KeepsListed (owned_in owners.old.entries) (owned_in owners.new.entries) }
    ensures there { OnOk result (option_map_or (is_own x) (slice_get tables.now at) false ≡ false → is_listed at (owned_in owners.new.entries x) ≡ true) }
{
    if is_own_at(x, tables, at) {
        return Ok(());
    }
    add_owned(alloc, owners, x.number(), at)
}

fn is_own_at(x: Xact, tables: &[Kept], at: usize) -> bool
    ensures { result ≡ option_map_or (is_own x) (slice_get tables.now at) false }
{
    match tables.get(at) {
        Some(kept) => is_own(x, kept),
        None => false,
    }
}

fn has_name_at(name: &Name, tables: &[Kept], at: usize) -> bool
    ensures { result ≡ option_map_or (has_name name.now) (slice_get tables.now at) false }
{
    match tables.get(at) {
        Some(kept) => has_name(name, kept),
        None => false,
    }
}

/// Takes the place of a table from the name that it had by an entry which is gone, unless it has the name still.
fn forget(
    tables: &[Kept],
    names: &mut IndexMap<String, Places>,
    at: usize,
    gone: Option<TableEntry>,
)
    ensures named { AreNamed tables.now (named_in names.old) → AreNamed tables.now (named_in names.new) }
    ensures exact { AreExactBut tables.now (named_in names.old) at gone → AreExact tables.now (named_in names.new) }
    ensures filled { HasNoBare (get_by_text names.old) → HasNoBare (get_by_text names.new) }
{
    if let Some(entry) = gone {
        if !has_name_at(&entry.name, tables, at) {
            cut_name(names, &entry.name, at);
        }
    }
}

/// Puts a change of the table at a place, and takes away the name that an earlier one gave it.
pub(crate) fn change_at(
    tables: &mut Vec<Kept>,
    names: &mut IndexMap<String, Places>,
    at: usize,
    own: Own,
)
    requires { at < length tables.old.items }
    ensures tables { tables.new.items ≡ at_place (with_own own) at tables.old.items }
    ensures named { AreNamed tables.new.items (named_in names.old) → AreNamed tables.new.items (named_in names.new) }
    ensures exact { AreExactBut tables.old.items (named_in names.old) at own.entry → AreExact tables.new.items (named_in names.new) }
    ensures filled { HasNoBare (get_by_text names.old) → HasNoBare (get_by_text names.new) }
{
    let before = mem::replace(&mut tables[at].own, Some(own));
    if let Some(own) = before {
        forget(tables, names, at, own.entry);
    }
}

/// Ends a transaction's change of the table at a place.
fn end_at(
    tables: &mut Vec<Kept>,
    names: &mut IndexMap<String, Places>,
    at: usize,
    x: Xact,
    fate: Fate,
)
    ensures tables { tables.new.items ≡ at_place (ended x fate) at tables.old.items }
    ensures named { AreNamed tables.old.items (named_in names.old) → AreNamed tables.new.items (named_in names.new) }
    ensures exact { AreExact tables.old.items (named_in names.old) → AreExact tables.new.items (named_in names.new) }
    ensures filled { HasNoBare (get_by_text names.old) → HasNoBare (get_by_text names.new) }
{
    if at < tables.len() {
        let gone = end(&mut tables[at], x, fate);
        forget(tables, names, at, gone);
    }
}

/// Ends a transaction's changes of tables.
pub(crate) fn end_all(
    tables: &mut Vec<Kept>,
    names: &mut IndexMap<String, Places>,
    places: &[usize],
    x: Xact,
    fate: Fate,
)
    requires named { AreNamed tables.old.items (named_in names.old) }
    requires exact { AreExact tables.old.items (named_in names.old) }
    requires filled { HasNoBare (get_by_text names.old) }
    ensures tables { tables.new.items ≡ fold (λ tables at. at_place (ended x fate) at tables) tables.old.items places.now }
    ensures named { AreNamed tables.new.items (named_in names.new) }
    ensures exact { AreExact tables.new.items (named_in names.new) }
    ensures filled { HasNoBare (get_by_text names.new) }
{
    for at in places {
        end_at(tables, names, *at, x, fate);
    }
}

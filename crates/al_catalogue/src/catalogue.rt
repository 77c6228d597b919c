ghost use Rattle.std.specs.Prelude.{ℕ, ◌≡◌, ◌<◌, ◌∷◌, ◌++◌, [], Some, None, true, map, length, IfOk, OnOk, OnErr};
ghost use Rattle.std.specs.List.{list_any};
ghost use Rattle.std.specs.Option.{option_copied};
ghost use Rattle.al_xacts.specs.declared.xact.Fate.TheVariants as fates;
ghost use Rattle.al_tree.specs.Links.{has_link};
ghost use Rattle.al_catalogue.specs.Tables.{entry_of, is_parent};
ghost use Rattle.al_catalogue.specs.Names.{find_in, claim_in, taker_in};
ghost use Rattle.al_catalogue.specs.Changes.{is_free_for, IsNameFree, changed, ended};
ghost use Rattle.al_catalogue.specs.Indexed.{at_place, has_name, numbers_of, place_in, with_own};

use crate::changes::{change_at, end_all, first_change, list_name, list_owner};
use crate::lookup::{is_mine_at, note_all, number_at, seen_at, taker_at};
use crate::names::named;
use crate::search::{Sought, first_among};
use crate::{Claimed, Kept, Own, Places, TableEntry};
use al_tree::Tree;
use al_values::{Name, NoMemory};
use al_xacts::{Fate, Xact};
use indexmap::IndexMap;
use std::alloc::Global;
use std::collections::HashMap;
use std::marker::Model;

/// The tables: of each what is committed, and an open transaction's own change. Contracts see the list of what is kept, a table
/// for each number that a change was made of.
#[derive(Debug, Drop)]
pub struct Catalogue {
    tables: Vec<Kept>,
    // The place of each table by its number.
    numbers: HashMap<u32, usize>,
    // For each name the places of the tables that have it, by what is committed or by an open transaction's change.
    names: IndexMap<String, Places>,
    // For each open transaction the places of the tables that it has changed.
    owners: HashMap<u32, Places>,
}

impl Model for Catalogue {
    ghost use Rattle.std.specs.Prelude.{List, nat_eq};
    ghost use Rattle.std.specs.Map.{lookup};
    ghost use Rattle.al_catalogue.specs.declared.entry.Kept.{Kept};
    ghost use Rattle.indexmap.specs.IndexMap.{get_by_text};
    ghost use Rattle.al_catalogue.specs.Indexed.{AreExact, HasNoBare, IsIndexed, named_in, owned_in};
    ghost use Rattle.al_expr.specs.contracts.tree.Expr as e;
    ghost use Rattle.std.specs.Coded.{codes};

    ghost Value = { List Kept };

    ghost coded = { Prim.hlevel (codes, e.the_row.coded) };

    ghost view = { λ c. c.tables.items };

    ghost invariant = { λ c. IsIndexed c.tables.items (λ number. lookup (nat_eq number) c.numbers.entries) (named_in c.names) (owned_in c.owners.entries) × AreExact c.tables.items (named_in c.names) × HasNoBare (get_by_text c.names) };
}

impl Catalogue {
    /// No table. It takes no memory.
    pub fn new(alloc: Global) -> Catalogue
        ensures { result ≡ [] }
    {
        Catalogue {
            tables: Vec::new(alloc),
            numbers: HashMap::new(alloc),
            names: IndexMap::new(alloc),
            owners: HashMap::new(alloc),
        }
    }

    /// The table of a name, among what is committed and the transaction's own changes.
    pub fn find(&self, name: &Name, x: Xact) -> Option<u32>
        ensures { result ≡ find_in self.now name.now x }
    {
        let places = named(&self.names, name);
        match first_among(Sought::Found, name, x, &self.tables, places) {
            Some(at) => number_at(&self.tables, at),
            None => None,
        }
    }

    /// Whether something is kept of a name: a table has it, by what is committed or by an open transaction's change. So nothing
    /// is kept of the names of tables that were dropped or renamed, once that is committed.
    pub fn keeps_name(&self, name: &Name) -> bool
        ensures { result ≡ list_any (has_name name.now) self.now }
    {
        self.names.contains_key(name.as_str())
    }

    // The other transaction that made, dropped or renamed a table of a name, where there is one.
    fn taker(&self, name: &Name, x: Xact) -> Option<Xact>
        ensures { result ≡ taker_in self.now name.now x }
    {
        let places = named(&self.names, name);
        match first_among(Sought::Moved, name, x, &self.tables, places) {
            Some(at) => taker_at(&self.tables, at, name, x),
            None => None,
        }
    }

    /// Whether a transaction can have a name for a table. It is Open exactly where another open transaction made, dropped or
    /// renamed a table of that name.
    pub fn claim(&self, name: &Name, x: Xact) -> Claimed
        ensures { result ≡ claim_in self.now name.now x }
    {
        let taker = self.taker(name, x);
        let found = self.find(name, x);
        match taker {
            Some(by) => Claimed::Open { by },
            None => match found {
                Some(table) => Claimed::Taken { table },
                None => Claimed::Free,
            },
        }
    }

    // The place of a table.
    fn place_of(&self, table: u32) -> Option<usize>
        ensures { result ≡ place_in (numbers_of self.now) table }
    {
        self.numbers.get(&table).copied()
    }

    /// The table of a number, among what is committed and the transaction's own changes.
    pub fn entry(&self, table: u32, x: Xact) -> Option<&TableEntry>
        ensures { option_copied result ≡ entry_of self.now table x }
    {
        match self.place_of(table) {
            Some(at) => seen_at(&self.tables, at, x),
            None => None,
        }
    }

    /// The links of the tables to their parents, among what is committed and the transaction's own changes.
    ///
    /// # Errors
    ///
    /// Want of memory.
    pub fn tree(&self, alloc: Global, x: Xact) -> Result<Tree, NoMemory>
        ensures { IfOk result (λ tree. (child parent : ℕ) → has_link tree child parent ≡ is_parent self.now x child parent) }
    {
        let mut tree = Tree::new(alloc);
        note_all(alloc, &mut tree, &self.tables, x)?;
        Ok(tree)
    }

    /// Whether no other open transaction has a change of a table.
    pub fn can_change(&self, table: u32, x: Xact) -> bool
        ensures { result ≡ is_free_for self.now table x }
    {
        match self.place_of(table) {
            Some(at) => is_mine_at(&self.tables, at, x),
            None => true,
        }
    }

    /// A transaction's own change of a table; None drops it.
    ///
    /// # Errors
    ///
    /// Want of memory. Nothing has changed then.
    pub fn set(
        &mut self,
        alloc: Global,
        x: Xact,
        table: u32,
        entry: Option<TableEntry>,
    ) -> Result<(), NoMemory>
        requires alone { is_free_for self.old table x ≡ true }
        requires name { IsNameFree self.old table x entry }
        ensures ok { OnOk result (self.new ≡ changed x table entry self.old) }
        ensures err { OnErr result (self.new ≡ self.old) }
    {
        match self.place_of(table) {
            Some(at) => self.change(alloc, x, at, entry),
            None => self.add(alloc, x, table, entry),
        }
    }

    // A change of the table at a place.
    fn change(
        &mut self,
        alloc: Global,
        x: Xact,
        at: usize,
        entry: Option<TableEntry>,
    ) -> Result<(), NoMemory>
        requires { at < length self.old }
        ensures ok { OnOk result (self.new ≡ at_place (with_own (record { xact = x; entry = entry })) at self.old) }
        ensures err { OnErr result (self.new ≡ self.old) }
    {
        list_owner(alloc, &mut self.owners, &self.tables, x, at)?;
        list_name(alloc, &mut self.names, at, &entry)?;
        change_at(
            &mut self.tables,
            &mut self.names,
            at,
            Own { xact: x, entry },
        );
        Ok(())
    }

    // The first change of a table.
    fn add(
        &mut self,
        alloc: Global,
        x: Xact,
        table: u32,
        entry: Option<TableEntry>,
    ) -> Result<(), NoMemory>
        requires { place_in (numbers_of self.old) table ≡ None }
        ensures ok { OnOk result (self.new ≡ self.old ++ record { number = table; committed = None; own = Some (record { xact = x; entry = entry }) } ∷ []) }
        ensures err { OnErr result (self.new ≡ self.old) }
    {
        let at = self.tables.len();
        self.tables.reserve(1)?;
        list_owner(alloc, &mut self.owners, &self.tables, x, at)?;
        self.numbers.insert(table, at)?;
        if let Err(error) = list_name(alloc, &mut self.names, at, &entry) {
            self.numbers.remove(&table);
            return Err(error);
        }
        self.tables
            .push_reserved(first_change(table, Own { xact: x, entry }));
        Ok(())
    }

    /// Makes a transaction's changes committed, or takes them back. It takes no memory, and the time of its own changes.
    pub fn finish(&mut self, x: Xact, fate: Fate)
        requires { fate ≡ fates.Open → ⊥ }
        ensures { self.new ≡ map (ended x fate) self.old }
    {
        if let Some(places) = self.owners.remove(&x.number()) {
            end_all(
                &mut self.tables,
                &mut self.names,
                places.as_slice(),
                x,
                fate,
            );
        }
    }
}

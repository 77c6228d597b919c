ghost use Rattle.std.specs.Prelude.{ℕ, ◌≡◌, ◌+◌, ◌-◌, ◌<◌, ◌≤◌, ◌^◌, [], ◌++◌, length, take, nat_lt, if◌then◌else◌, slice_get, IfOk, OnOk, OnErr, IfSome};
ghost use Rattle.std.specs.Map.{values_of};
ghost use Rattle.al_query.specs.Origins.{ReadsAs};
ghost use Rattle.al_query.specs.Rows.{with_row, with_version, rows_seen};
ghost use Rattle.al_query.specs.Progress.{begun, rows_of, onto_next, read_to, piece_end, HasRead};

use crate::Origin;
use crate::origin::{names_in, origins_named, origins_of, row_from};
use al_heap::{Heap, Version};
use al_schema::Shape;
use al_values::{Copied, ListOf, NameList, NoMemory, Row, RowList, Steps};
use al_xacts::{Snapshot, Xacts};
use std::alloc::Global;
use std::collections::BTreeMap;
use std::marker::Model;
use std::mem;
use std::sync::ledger::Ledger;

/// How a part of a reading has ended.
#[derive(Clone, Copy, Debug, PartialEq, Eq)]
pub enum Read {
    /// Versions are left.
    More,
    /// All versions of the table are read.
    Done,
}

/// A reading of a table, or of a family of tables one after another, by one snapshot (13.2.1, SELECT). Contracts see how far it has
/// come.
#[derive(Debug, Drop)]
pub struct Reading {
    snapshot: Snapshot,
    names: NameList,
    origins: ListOf<Origin>,
    earlier: Vec<Row>,
    found: BTreeMap<u32, Row>,
    place: u32,
}

impl Model for Reading {
    ghost use Rattle.al_query.specs.Progress.{Progress};

    ghost Value = { Progress };

    ghost view = { λ r. record { snapshot = r.snapshot; names = r.names; origins = r.origins; earlier = r.earlier.items; found = r.found.entries; place = r.place } };
}

impl Reading {
    /// A reading of a table of this shape, of which nothing is read yet. Its columns are those of the shape.
    ///
    /// # Errors
    ///
    /// Want of memory.
    pub fn new(alloc: Global, shape: &Shape, snapshot: &Snapshot) -> Result<Reading, NoMemory>
        ensures begun { IfOk result (λ reading. reading ≡ begun shape.now.slots snapshot.now) }
        ensures as_shape { IfOk result (λ reading. ReadsAs reading.origins shape.now.slots) }
    {
        Ok(Reading {
            snapshot: snapshot.copied(alloc)?,
            names: names_in(alloc, shape.columns())?,
            origins: origins_of(alloc, shape.slots())?,
            earlier: Vec::new(alloc),
            found: BTreeMap::new(alloc),
            place: 0,
        })
    }

    /// The names of the columns.
    pub fn names(&self) -> &NameList
        ensures { result.now ≡ self.now.names }
    {
        &self.names
    }

    /// Reads on in the table in hand: at most so many versions, but one at least, and none from the place `end` on. A version
    /// that was read is never read again, so all calls for a table are given the same `end`. A step is counted for each version.
    ///
    /// # Errors
    ///
    /// Want of memory. The versions up to the place are read then, and the one at it was begun.
    pub fn next<L: Ledger>(
        &mut self,
        alloc: Global,
        heap: &Heap,
        xacts: &Xacts,
        end: u32,
        up_to: u32,
        steps: &mut Steps<L>,
    ) -> Result<Read, NoMemory>
        requires { end ≤ length heap.now }
        ensures reads { self.new ≡ read_to heap.now xacts.now.transactions self.new.place self.old }
        ensures place { OnOk result (self.new.place ≡ piece_end self.old.place end up_to) }
        ensures answer { IfOk result (λ read. read ≡ (if nat_lt self.new.place end then Read.More else Read.Done)) }
        ensures further { result ≡ Ok Read.More → self.old.place < self.new.place }
        ensures steps { OnOk result (steps.new + self.old.place ≡ steps.old + self.new.place) }
        ensures err { OnErr result ((self.old.place ≤ self.new.place) × (self.new.place < piece_end self.old.place end up_to) × (steps.new + self.old.place ≡ steps.old + self.new.place + 1)) }
        ensures whole { HasRead heap.now xacts.now.transactions self.old → HasRead heap.now xacts.now.transactions self.new }
        ensures done { HasRead heap.now xacts.now.transactions self.old → self.old.place ≤ end → result ≡ Ok Read.Done → self.new.found ≡ rows_seen self.old.origins self.old.snapshot xacts.now.transactions (take end heap.now) }
    {
        let stop = piece_end(self.place, end, up_to);
        while self.place < stop {
            self.read_one(alloc, heap, xacts, steps)?;
        }
        Ok(told(self.place, end))
    }

    // Reads one version, which is a step.
    fn read_one<L: Ledger>(
        &mut self,
        alloc: Global,
        heap: &Heap,
        xacts: &Xacts,
        steps: &mut Steps<L>,
    ) -> Result<(), NoMemory>
        requires within { self.old.place < length heap.now }
        requires few { self.old.place + 1 < 2 ^ 32 }
        ensures ok { OnOk result (IfSome (slice_get heap.now self.old.place) (λ version. self.new ≡ record self.old { found = with_version self.old.origins self.old.snapshot xacts.now.transactions self.old.found version; place = self.old.place + 1 })) }
        ensures err { OnErr result (self.new ≡ self.old) }
        ensures counted { steps.new ≡ steps.old + 1 }
    {
        steps.tick();
        let seen = heap.visible(self.place, &self.snapshot, xacts);
        let version = heap.at(self.place);
        add_row(
            alloc,
            &mut self.found,
            self.origins.as_slice(),
            seen,
            version,
        )?;
        self.place += 1;
        Ok(())
    }

    /// Goes on to the next table of the family, of which nothing is read yet. The columns are found in its shape by their names; one
    /// that it doesn't have is null.
    ///
    /// # Errors
    ///
    /// Want of memory. Then nothing has changed.
    pub fn onto(&mut self, alloc: Global, shape: &Shape) -> Result<(), NoMemory>
        ensures ok { OnOk result (self.new ≡ onto_next shape.now.slots self.old) }
        ensures err { OnErr result (self.new ≡ self.old) }
    {
        let origins = origins_named(alloc, shape, &self.names)?;
        move_rows(&mut self.found, &mut self.earlier)?;
        self.origins = origins;
        self.place = 0;
        Ok(())
    }

    /// The rows so far, table after table, and those of a table by row number.
    ///
    /// # Errors
    ///
    /// Want of memory.
    pub fn rows(&self, alloc: Global) -> Result<RowList, NoMemory>
        ensures rows { IfOk result (λ rows. rows ≡ rows_of self.now) }
    {
        let mut rows = copied_rows(alloc, self.earlier.as_slice())?;
        copy_found(alloc, &self.found, &mut rows)?;
        Ok(rows)
    }

    /// Takes the rows out, table after table, and those of a table by row number. None is left.
    ///
    /// # Errors
    ///
    /// Want of memory. Then nothing has changed.
    pub fn take_rows(&mut self, alloc: Global) -> Result<RowList, NoMemory>
        ensures rows { IfOk result (λ rows. rows ≡ rows_of self.old) }
        ensures left { OnOk result (self.new ≡ record self.old { earlier = []; found = [] }) }
        ensures err { OnErr result (self.new ≡ self.old) }
    {
        move_rows(&mut self.found, &mut self.earlier)?;
        let rows = mem::replace(&mut self.earlier, Vec::new(alloc));
        Ok(ListOf::from_vec(rows))
    }
}

fn piece_end(place: u32, end: u32, up_to: u32) -> u32
    ensures { result ≡ piece_end place end up_to }
{
    if place < end {
        place + up_to.max(1).min(end - place)
    } else {
        place
    }
}

fn told(place: u32, end: u32) -> Read
    ensures { result ≡ (if nat_lt place end then Read.More else Read.Done) }
{
    if place < end { Read::More } else { Read::Done }
}

/// Adds the row of a version where it is seen.
fn add_row(
    alloc: Global,
    found: &mut BTreeMap<u32, Row>,
    origins: &[Origin],
    seen: bool,
    version: Version<'_>,
) -> Result<(), NoMemory>
    ensures ok { OnOk result (found.new.entries ≡ with_row origins.now seen found.old.entries version.entry.row version.entry.values.now) }
    ensures err { OnErr result (found.new.entries ≡ found.old.entries) }
{
    if seen {
        let row = row_from(alloc, origins, version.values.as_slice())?;
        found.insert(version.row, row)?;
    }
    Ok(())
}

fn copied_rows(alloc: Global, rows: &[Row]) -> Result<RowList, NoMemory>
    ensures { IfOk result (λ copies. copies ≡ rows.now) }
{
    let mut copies = ListOf::new(alloc);
    for row in rows {
        copies.push(row.copied(alloc)?)?;
    }
    Ok(copies)
}

/// Copies rows that were found to the end of others, by number.
fn copy_found(alloc: Global, found: &BTreeMap<u32, Row>, rows: &mut RowList) -> Result<(), NoMemory>
    ensures { OnOk result (rows.new ≡ rows.old ++ values_of found.now.entries) }
{
    for row in found.values() {
        rows.push(row.copied(alloc)?)?;
    }
    Ok(())
}

/// Moves rows that were found to the end of others, by number.
fn move_rows(found: &mut BTreeMap<u32, Row>, rows: &mut Vec<Row>) -> Result<(), NoMemory>
    ensures rows { OnOk result (rows.new.items ≡ rows.old.items ++ values_of found.old.entries) }
    ensures found { OnOk result (found.new.entries ≡ []) }
    ensures err_rows { OnErr result (rows.new.items ≡ rows.old.items) }
    ensures err_found { OnErr result (found.new.entries ≡ found.old.entries) }
{
    rows.reserve(found.len())?;
    while let Some((_, row)) = found.pop_first() {
        rows.push_reserved(row);
    }
    Ok(())
}

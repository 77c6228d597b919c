ghost use Rattle.std.specs.Prelude.{◌≡◌, [], ◌∷◌, ◌++◌, ◌<◌, ◌↔◌, true, None, Some, IfOk, OnOk, OnErr, IsOk, IfSome, length, slice_get, slice_set};
ghost use Rattle.al_xacts.specs.Fates.{is_open_at};
ghost use Rattle.al_heap.specs.Versions.{newest, standing};
ghost use Rattle.al_heap.specs.Visible.{is_visible, VisibleAsTaken, ThereAgain};
ghost use Rattle.al_heap.specs.Changes.{made, removed, can_change, Changes, OwnChange, with_version};

use crate::walk::{is_changeable, is_visible, standing_from};
use crate::{Stored, Version};
use al_values::{NoMemory, Row, count_of};
use al_xacts::{Snapshot, Xact, Xacts};
use std::alloc::Global;
use std::collections::HashMap;
use std::marker::Model;
use std::mem;

/// The versions of a table's rows (13.2.1), oldest first. A version's place is its index and never changes.
#[derive(Debug, Drop)]
pub struct Heap {
    versions: Vec<Stored>,
    // For each version the place of the one of its row before it.
    earlier: Vec<Option<u32>>,
    // For each row the place of its newest version.
    rows: HashMap<u32, u32>,
}

impl Model for Heap {
    ghost use Rattle.std.specs.Prelude.{List};
    ghost use Rattle.al_heap.specs.declared.version.Stored.{Stored};
    ghost use Rattle.al_heap.specs.Kept.{IsKept};

    ghost Value = { List Stored };

    ghost view = { λ h. h.versions.items };

    ghost invariant = { λ h. IsKept h.versions.items h.earlier.items h.rows.entries };
}

impl Heap {
    /// A heap without versions. It takes no memory.
    pub fn new(alloc: Global) -> Heap
        ensures { result ≡ [] }
    {
        Heap {
            versions: Vec::new(alloc),
            earlier: Vec::new(alloc),
            rows: HashMap::new(alloc),
        }
    }

    /// How many versions there are.
    pub fn len(&self) -> u32
        ensures { result ≡ length self.now }
    {
        self.versions.len() as u32
    }

    /// Whether there is no version.
    pub fn is_empty(&self) -> bool
        ensures { result ≡ true ↔ (self.now ≡ []) }
    {
        self.versions.is_empty()
    }

    /// The version at a place.
    pub fn at(&self, place: u32) -> Version<'_>
        requires { place < length self.now }
        ensures { slice_get self.now place ≡ Some (record { row = result.row; number = result.number; maker = result.maker; remover = result.remover; removal = result.removal; values = result.values.now }) }
    {
        let version = &self.versions[place as usize];
        Version {
            row: version.row,
            number: version.number,
            maker: version.maker,
            remover: version.remover,
            removal: version.removal,
            values: &version.values,
        }
    }

    /// The place of a row's newest version, whoever made it. None exactly where there is no version of the row. It takes the same time
    /// whatever the heap holds.
    pub fn newest(&self, row: u32) -> Option<u32>
        ensures { result ≡ newest self.now row }
    {
        self.rows.get(&row).copied()
    }

    /// The place of a row's newest version whose maker wasn't rolled back. It takes the time of the versions behind it, whose makers all
    /// were.
    pub fn standing(&self, row: u32, xacts: &Xacts) -> Option<u32>
        ensures { result ≡ standing xacts.now.transactions self.now row }
    {
        let newest = self.rows.get(&row).copied();
        standing_from(&self.versions, &self.earlier, newest, row, xacts)
    }

    /// Whether a transaction may change a row: the newest version whose maker wasn't rolled back is there, its maker is the
    /// transaction or committed, and nobody has removed it but transactions that were rolled back.
    pub fn can_change(&self, x: Xact, row: u32, xacts: &Xacts) -> bool
        ensures { result ≡ can_change xacts.now.transactions self.now row x }
    {
        match self.standing(row, xacts) {
            Some(place) => match self.versions.get(place as usize) {
                Some(version) => is_changeable(version, x, xacts),
                None => false,
            },
            None => false,
        }
    }

    /// Adds a new row, whose first version has the row's number, and answers the version's place.
    ///
    /// # Errors
    ///
    /// Want of memory, also where the heap has as many versions as a number can count. Then nothing has changed.
    pub fn put(&mut self, _alloc: Global, x: Xact, row: u32, values: Row) -> Result<u32, NoMemory>
        requires { newest self.old row ≡ None }
        ensures place { IfOk result (λ place. place ≡ length self.old) }
        ensures ok { OnOk result (self.new ≡ self.old ++ made row row x values ∷ []) }
        ensures err { OnErr result (self.new ≡ self.old) }
        ensures own { OwnChange row row x }
    {
        self.add(Stored {
            row,
            number: row,
            maker: x,
            remover: None,
            removal: 0,
            values,
        })
    }

    /// Changes a row: a version of this number follows, or without values the row is removed under it. The transaction becomes the
    /// remover of what was until then the row's newest version whose maker wasn't rolled back.
    ///
    /// # Errors
    ///
    /// Want of memory, also where the heap has as many versions as a number can count; without values none. Then nothing has changed.
    pub fn change(
        &mut self,
        _alloc: Global,
        x: Xact,
        row: u32,
        number: u32,
        values: Option<Row>,
        xacts: &Xacts,
    ) -> Result<(), NoMemory>
        requires undecided { is_open_at xacts.now.transactions x ≡ true }
        requires changeable { can_change xacts.now.transactions self.old row x ≡ true }
        ensures ok { OnOk result (Changes xacts.now.transactions self.old self.new row number x values) }
        ensures err { OnErr result (self.new ≡ self.old) }
        ensures removal { values ≡ None → IsOk result }
        ensures own { OwnChange row number x }
    {
        let place = match self.standing(row, xacts) {
            Some(place) => place,
            None => unreachable!(),
        };
        self.follow(x, row, number, values)?;
        self.remove_at(place, x, number);
        Ok(())
    }

    // Adds the version that follows a change, if there are values.
    fn follow(
        &mut self,
        x: Xact,
        row: u32,
        number: u32,
        values: Option<Row>,
    ) -> Result<(), NoMemory>
        ensures ok { OnOk result (self.new ≡ with_version row number x values self.old) }
        ensures err { OnErr result (self.new ≡ self.old) }
        ensures removal { values ≡ None → IsOk result }
    {
        match values {
            Some(values) => {
                self.add(Stored {
                    row,
                    number,
                    maker: x,
                    remover: None,
                    removal: 0,
                    values,
                })?;
                Ok(())
            }
            None => Ok(()),
        }
    }

    fn add(&mut self, version: Stored) -> Result<u32, NoMemory>
        ensures place { IfOk result (λ place. place ≡ length self.old) }
        ensures ok { OnOk result (self.new ≡ self.old ++ version ∷ []) }
        ensures err { OnErr result (self.new ≡ self.old) }
    {
        let place = count_of(self.versions.len())?;
        if place == u32::MAX {
            return Err(NoMemory);
        }
        self.versions.reserve(1)?;
        self.earlier.reserve(1)?;
        let before = self.rows.insert(version.row, place)?;
        self.earlier.push_reserved(before);
        self.versions.push_reserved(version);
        Ok(place)
    }

    fn remove_at(&mut self, place: u32, x: Xact, number: u32)
        requires { place < length self.old }
        ensures { IfSome (slice_get self.old place) (λ version. self.new ≡ slice_set self.old place (removed x number version)) }
    {
        let version = &mut self.versions[place as usize];
        note_removal(version, x, number);
    }

    /// Whether a snapshot sees the version at a place: it sees the maker, and it doesn't see who removed the version last.
    pub fn visible(&self, place: u32, snapshot: &Snapshot, xacts: &Xacts) -> bool
        requires { place < length self.now }
        ensures value { IfSome (slice_get self.now place) (λ version. result ≡ is_visible snapshot.now xacts.now.transactions version) }
        ensures as_taken { IfSome (slice_get self.now place) (λ version. VisibleAsTaken snapshot.now xacts.now.transactions version result) }
        ensures there_again { IfSome (slice_get self.now place) (λ version. ThereAgain snapshot.now xacts.now.transactions version result) }
    {
        is_visible(&self.versions[place as usize], snapshot, xacts)
    }

    /// Takes the versions out, and leaves none. It takes no memory.
    pub fn take_out(&mut self) -> Heap
        ensures taken { result ≡ self.old }
        ensures left { self.new ≡ [] }
    {
        let empty = Heap::new(*self.versions.allocator());
        mem::replace(self, empty)
    }

    /// Puts versions that were taken out in the place of those that are there. It takes no memory.
    pub fn put_back(&mut self, heap: Heap)
        ensures { self.new ≡ heap }
    {
        *self = heap;
    }
}

/// Notes who has removed a version, and under which number.
fn note_removal(version: &mut Stored, x: Xact, number: u32)
    ensures { version.new ≡ removed x number version.old }
{
    version.remover = Some(x);
    version.removal = number;
}

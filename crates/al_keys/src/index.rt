ghost use Rattle.std.specs.Prelude.{◌≡◌, ◌<◌, [], true, false, OnOk, OnErr, IfSome, length, slice_get, slice_set};
ghost use Rattle.std.specs.Option.{option_map_or};
ghost use Rattle.al_keys.specs.Keys.{versions_in, ChangesKey, made, with_version, left_by, can_leave, standing, passes, is_changeable};
ghost use Rattle.al_keys.specs.Order.{has_null};
ghost use Rattle.al_keys.specs.Kept.{IsKept};
ghost use Rattle.al_keys.specs.Sought.{sought, least_row, is_visible, IsSought, IsGiven};

use crate::order::has_null;
use crate::search::{find, last_standing};
use crate::verdict::{is_changeable, least_visible, seek_in};
use crate::{Entry, KeyVersion, Sought, VersionList};
use al_values::{NoMemory, Row};
use al_xacts::{Snapshot, Xact, Xacts};
use std::alloc::Global;
use std::marker::Model;

/// The keys of a table's rows, in ascending order, each with the versions that have it. A key with a null, which is equal to none, isn't kept.
#[derive(Debug, Drop)]
pub struct KeyIndex {
    entries: Vec<Entry>,
}

impl Model for KeyIndex {
    ghost use Rattle.std.specs.Prelude.{List};
    ghost use Rattle.al_keys.specs.declared.entry.Entry.{Entry};
    ghost use Rattle.al_keys.specs.Kept.{IsKept};

    ghost Value = { List Entry };

    ghost view = { λ k. k.entries.items };

    ghost invariant = { λ k. IsKept k.entries.items };
}

impl KeyIndex {
    /// An index without keys. It takes no memory.
    pub fn new(alloc: Global) -> KeyIndex
        ensures { result ≡ [] }
    {
        KeyIndex {
            entries: Vec::new(alloc),
        }
    }

    fn versions_of(&self, key: &Row) -> &[KeyVersion]
        ensures { result.now ≡ versions_in self.now key.now }
    {
        match find(&self.entries, key.as_slice()) {
            Ok(at) => self.entries[at].versions.as_slice(),
            Err(_) => &[],
        }
    }

    /// What a transaction finds that looks for a key: another open transaction that made or is removing a version of the least row that
    /// is in the way, or that row, or nothing.
    pub fn seek(&self, key: &Row, x: Xact, xacts: &Xacts) -> Sought
        ensures value { result ≡ sought xacts.now.transactions x (versions_in self.now key.now) }
        ensures found { IsSought xacts.now.transactions x (versions_in self.now key.now) result }
    {
        seek_in(self.versions_of(key), x, xacts)
    }

    /// The least row that gives a key in a snapshot. None exactly where no row does.
    pub fn gives(&self, key: &Row, snapshot: &Snapshot, xacts: &Xacts) -> Option<u32>
        ensures value { result ≡ least_row (is_visible snapshot.now xacts.now.transactions) (versions_in self.now key.now) }
        ensures least { IsGiven snapshot.now xacts.now.transactions (versions_in self.now key.now) result }
    {
        least_visible(self.versions_of(key), snapshot, xacts)
    }

    /// Whether a transaction may remove the newest version of a row under a key, or the key has a null.
    pub fn can_leave(&self, x: Xact, key: &Row, row: u32, xacts: &Xacts) -> bool
        ensures { result ≡ can_leave xacts.now.transactions self.now key.now row x }
    {
        has_null(key.as_slice()) || may_leave(self.versions_of(key), x, row, xacts)
    }

    /// Notes a version that a transaction has made. Under a key with a null nothing is kept.
    ///
    /// # Errors
    ///
    /// Want of memory. Then nothing has changed.
    pub fn enter(
        &mut self,
        alloc: Global,
        x: Xact,
        key: Row,
        row: u32,
        place: u32,
    ) -> Result<(), NoMemory>
        ensures ok { OnOk result (ChangesKey self.old self.new key (with_version (made row place x))) }
        ensures err { OnErr result (self.new ≡ self.old) }
    {
        if has_null(key.as_slice()) {
            return Ok(());
        }
        enter_in(&mut self.entries, alloc, x, key, row, place)
    }

    /// Notes that a transaction removes the newest version of a row under a key, whose maker wasn't rolled back. It takes no memory.
    pub fn leave(&mut self, x: Xact, key: &Row, row: u32, xacts: &Xacts)
        requires { can_leave xacts.now.transactions self.old key.now row x ≡ true }
        ensures { ChangesKey self.old self.new key.now (left_by xacts.now.transactions x row) }
    {
        leave_in(&mut self.entries, x, key, row, xacts);
    }
}

fn enter_in(
    entries: &mut Vec<Entry>,
    alloc: Global,
    x: Xact,
    key: Row,
    row: u32,
    place: u32,
) -> Result<(), NoMemory>
    requires kept { IsKept entries.old.items }
    requires whole { has_null key ≡ false }
    ensures ok { OnOk result (ChangesKey entries.old.items entries.new.items key (with_version (made row place x))) }
    ensures err { OnErr result (entries.new.items ≡ entries.old.items) }
    ensures kept { IsKept entries.new.items }
{
    match find(entries, key.as_slice()) {
        Ok(at) => {
            drop(key);
            add_at(entries, at, row, place, x)
        }
        Err(at) => {
            let versions = VersionList::one(alloc, row, place, x)?;
            entries.insert(at, Entry { key, versions })?;
            Ok(())
        }
    }
}

fn leave_in(entries: &mut Vec<Entry>, x: Xact, key: &Row, row: u32, xacts: &Xacts)
    requires { IsKept entries.old.items }
    ensures left { ChangesKey entries.old.items entries.new.items key.now (left_by xacts.now.transactions x row) }
    ensures kept { IsKept entries.new.items }
{
    match find(entries, key.as_slice()) {
        Ok(at) => leave_at(entries, at, x, row, xacts),
        Err(_) => {}
    }
}

fn may_leave(versions: &[KeyVersion], x: Xact, row: u32, xacts: &Xacts) -> bool
    ensures { result ≡ option_map_or (λ place. passes (is_changeable xacts.now.transactions x) (slice_get versions.now place)) (standing xacts.now.transactions versions.now row) false }
{
    match last_standing(versions, row, xacts) {
        Some(place) => match versions.get(place) {
            Some(version) => is_changeable(version, x, xacts),
            None => false,
        },
        None => false,
    }
}

fn add_at(
    entries: &mut Vec<Entry>,
    at: usize,
    row: u32,
    place: u32,
    x: Xact,
) -> Result<(), NoMemory>
    requires { at < length entries.old.items }
    ensures ok { OnOk result (IfSome (slice_get entries.old.items at) (λ entry. entries.new.items ≡ slice_set entries.old.items at (record entry { versions = with_version (made row place x) entry.versions }))) }
    ensures err { OnErr result (entries.new.items ≡ entries.old.items) }
{
    let entry = &mut entries[at];
    entry.versions.add(row, place, x)
}

fn leave_at(entries: &mut Vec<Entry>, at: usize, x: Xact, row: u32, xacts: &Xacts)
    requires { at < length entries.old.items }
    ensures { IfSome (slice_get entries.old.items at) (λ entry. entries.new.items ≡ slice_set entries.old.items at (record entry { versions = left_by xacts.now.transactions x row entry.versions })) }
{
    let entry = &mut entries[at];
    entry.versions.leave(x, row, xacts);
}

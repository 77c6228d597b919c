ghost use Rattle.std.specs.Prelude.{◌≡◌, [], ◌∷◌, Some, IfOk, OnOk, OnErr};
ghost use Rattle.al_keys.specs.Keys.{made, with_version, left_by};

use crate::KeyVersion;
use crate::search::last_standing;
use al_values::{NoMemory, Row};
use al_xacts::{Xact, Xacts};
use std::alloc::Global;
use std::marker::Model;

/// The versions under a key, in the order in which they were entered.
#[derive(Debug, Drop)]
pub struct VersionList {
    items: Vec<KeyVersion>,
}

impl Model for VersionList {
    ghost use Rattle.std.specs.Prelude.{List};
    ghost use Rattle.al_keys.specs.declared.version.KeyVersion.{KeyVersion};

    ghost Value = { List KeyVersion };

    ghost view = { λ it. it.items.items };
}

impl VersionList {
    /// One version, which nobody has removed.
    pub fn one(alloc: Global, row: u32, place: u32, maker: Xact) -> Result<VersionList, NoMemory>
        ensures { IfOk result (λ list. list ≡ made row place maker ∷ []) }
    {
        let mut items = Vec::new(alloc);
        items.push(KeyVersion {
            row,
            place,
            maker,
            remover: None,
        })?;
        Ok(VersionList { items })
    }

    /// The versions as a slice.
    pub fn as_slice(&self) -> &[KeyVersion]
        ensures { result.now ≡ self.now }
    {
        self.items.as_slice()
    }

    /// Puts a version at the end, which nobody has removed.
    pub fn add(&mut self, row: u32, place: u32, maker: Xact) -> Result<(), NoMemory>
        ensures ok { OnOk result (self.new ≡ with_version (made row place maker) self.old) }
        ensures err { OnErr result (self.new ≡ self.old) }
    {
        self.items.push(KeyVersion {
            row,
            place,
            maker,
            remover: None,
        })?;
        Ok(())
    }

    /// Notes who removes a row's newest version whose maker wasn't rolled back.
    pub fn leave(&mut self, x: Xact, row: u32, xacts: &Xacts)
        ensures { self.new ≡ left_by xacts.now.transactions x row self.old }
    {
        if let Some(place) = last_standing(&self.items, row, xacts) {
            let version = &mut self.items[place];
            note_remover(version, x);
        }
    }
}

/// Notes who has removed a version.
fn note_remover(version: &mut KeyVersion, x: Xact)
    ensures { version.new ≡ record version.old { remover = Some x } }
{
    version.remover = Some(x);
}

/// A key with its versions.
#[derive(Debug, Drop)]
pub struct Entry {
    /// The key, which has no null.
    pub key: Row,
    /// Its versions.
    pub versions: VersionList,
}

ghost use Rattle.std.specs.Prelude.{◌≡◌, Some, min};
ghost use Rattle.std.specs.Option.{option_map_or};
ghost use Rattle.al_xacts.specs.Snapshots.{sees};
ghost use Rattle.al_keys.specs.Keys.{is_standing, is_changeable, is_freed};
ghost use Rattle.al_keys.specs.Sought.{is_other, of_remover, verdict, is_taken, is_in_way, least_row, first_of, sought, is_removed_for, is_visible};

use crate::{KeyVersion, Sought};
use al_xacts::{Fate, Snapshot, Xact, Xacts};

fn is_other(x: Xact, y: Xact, xacts: &Xacts) -> bool
    ensures { result ≡ is_other xacts.now.transactions x y }
{
    y != x && xacts.fate(y) == Fate::Open
}

fn of_remover(row: u32, remover: Option<Xact>, x: Xact, xacts: &Xacts) -> Sought
    ensures { result ≡ of_remover xacts.now.transactions x row remover }
{
    match remover {
        Some(remover) => {
            if xacts.is_aborted(remover) {
                Sought::Held { row }
            } else if is_other(x, remover, xacts) {
                Sought::Open { by: remover }
            } else {
                Sought::Free
            }
        }
        None => Sought::Held { row },
    }
}

/// What a version is to a transaction that looks for its key.
pub fn verdict(version: &KeyVersion, x: Xact, xacts: &Xacts) -> Sought
    ensures { result ≡ verdict xacts.now.transactions x version.now }
{
    if xacts.is_aborted(version.maker) {
        Sought::Free
    } else if is_other(x, version.maker, xacts) {
        Sought::Open { by: version.maker }
    } else {
        of_remover(version.row, version.remover, x, xacts)
    }
}

fn is_taken(sought: Sought) -> bool
    ensures { result ≡ is_taken sought }
{
    match sought {
        Sought::Free => false,
        Sought::Held { row: _ } => true,
        Sought::Open { by: _ } => true,
    }
}

fn is_in_way(version: &KeyVersion, x: Xact, xacts: &Xacts) -> bool
    ensures { result ≡ is_in_way xacts.now.transactions x version.now }
{
    is_taken(verdict(version, x, xacts))
}

fn is_removed(remover: Option<Xact>, snapshot: &Snapshot, xacts: &Xacts) -> bool
    ensures { result ≡ is_removed_for (sees snapshot.now xacts.now.transactions) remover }
{
    match remover {
        Some(remover) => snapshot.sees(remover, xacts),
        None => false,
    }
}

fn is_visible(version: &KeyVersion, snapshot: &Snapshot, xacts: &Xacts) -> bool
    ensures { result ≡ is_visible snapshot.now xacts.now.transactions version.now }
{
    snapshot.sees(version.maker, xacts) && !is_removed(version.remover, snapshot, xacts)
}

/// The lesser of a row found so far and one that is found or passed over.
fn lesser(found: Option<u32>, row: u32) -> Option<u32>
    ensures { result ≡ Some (option_map_or (λ other. min row other) found row) }
{
    match found {
        Some(other) => Some(row.min(other)),
        None => Some(row),
    }
}

fn least_in_way(versions: &[KeyVersion], x: Xact, xacts: &Xacts) -> Option<u32>
    ensures { result ≡ least_row (is_in_way xacts.now.transactions x) versions.now }
{
    let mut least = None;
    for version in versions {
        if is_in_way(version, x, xacts) {
            least = lesser(least, version.row);
        }
    }
    least
}

/// The least row of the versions that a snapshot sees.
pub fn least_visible(versions: &[KeyVersion], snapshot: &Snapshot, xacts: &Xacts) -> Option<u32>
    ensures { result ≡ least_row (is_visible snapshot.now xacts.now.transactions) versions.now }
{
    let mut least = None;
    for version in versions {
        if is_visible(version, snapshot, xacts) {
            least = lesser(least, version.row);
        }
    }
    least
}

/// What the first version of a row is that is in the way.
fn first_of(versions: &[KeyVersion], row: u32, x: Xact, xacts: &Xacts) -> Sought
    ensures { result ≡ first_of xacts.now.transactions x row versions.now }
{
    for version in versions {
        if version.row == row && is_in_way(version, x, xacts) {
            return verdict(version, x, xacts);
        }
    }
    Sought::Free
}

/// What a transaction finds among a key's versions.
pub fn seek_in(versions: &[KeyVersion], x: Xact, xacts: &Xacts) -> Sought
    ensures { result ≡ sought xacts.now.transactions x versions.now }
{
    match least_in_way(versions, x, xacts) {
        Some(row) => first_of(versions, row, x, xacts),
        None => Sought::Free,
    }
}

/// Whether a version is one of the row, and its maker wasn't rolled back.
pub fn is_standing(version: &KeyVersion, row: u32, xacts: &Xacts) -> bool
    ensures { result ≡ is_standing xacts.now.transactions row version.now }
{
    version.row == row && !xacts.is_aborted(version.maker)
}

fn is_freed(remover: Option<Xact>, xacts: &Xacts) -> bool
    ensures { result ≡ is_freed xacts.now.transactions remover }
{
    match remover {
        Some(remover) => xacts.is_aborted(remover),
        None => true,
    }
}

/// Whether a transaction may remove a version.
pub fn is_changeable(version: &KeyVersion, x: Xact, xacts: &Xacts) -> bool
    ensures { result ≡ is_changeable xacts.now.transactions x version.now }
{
    (version.maker == x || xacts.is_committed(version.maker)) && is_freed(version.remover, xacts)
}

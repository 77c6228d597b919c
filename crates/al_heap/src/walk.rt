ghost use Rattle.std.specs.Prelude.{◌≡◌, List, not, ◌&&◌};
ghost use Rattle.al_heap.specs.Versions.{newest, standing};
ghost use Rattle.al_heap.specs.Visible.{is_visible, is_removed_for, own_or_committed, VisibleAsTaken, ThereAgain};
ghost use Rattle.al_heap.specs.Changes.{is_changeable, is_freed};
ghost use Rattle.al_heap.specs.Kept.{IsLinked};
ghost use Rattle.al_xacts.specs.declared.xact.Started.{Started};
ghost use Rattle.al_xacts.specs.Fates.{GoesOn};
ghost use Rattle.al_xacts.specs.Snapshots.{taken, sees};

use crate::Stored;
use al_xacts::{Snapshot, Xact, Xacts};

/// The place of a row's newest version whose maker wasn't rolled back, sought from its newest version back.
pub fn standing_from(
    versions: &[Stored],
    earlier: &[Option<u32>],
    last: Option<u32>,
    row: u32,
    xacts: &Xacts,
) -> Option<u32>
    requires linked { IsLinked versions.now earlier.now }
    requires start { last ≡ newest versions.now row }
    ensures { result ≡ standing xacts.now.transactions versions.now row }
{
    let mut at = last;
    while let Some(place) = at {
        if !xacts.is_aborted(versions[place as usize].maker) {
            return Some(place);
        }
        at = earlier[place as usize];
    }
    None
}

fn is_removed(remover: Option<Xact>, snapshot: &Snapshot, xacts: &Xacts) -> bool
    ensures value { result ≡ is_removed_for (sees snapshot.now xacts.now.transactions) remover }
    ensures as_taken { (before : List Started) → snapshot.now ≡ taken before snapshot.now.own → GoesOn before xacts.now.transactions → result ≡ is_removed_for (own_or_committed before snapshot.now.own) remover }
{
    match remover {
        Some(remover) => snapshot.sees(remover, xacts),
        None => false,
    }
}

fn is_there(seen: bool, removed: bool) -> bool
    ensures { result ≡ (seen && not removed) }
{
    seen && !removed
}

/// Whether a snapshot sees a version.
pub fn is_visible(version: &Stored, snapshot: &Snapshot, xacts: &Xacts) -> bool
    ensures value { result ≡ is_visible snapshot.now xacts.now.transactions version.now }
    ensures as_taken { VisibleAsTaken snapshot.now xacts.now.transactions version.now result }
    ensures there_again { ThereAgain snapshot.now xacts.now.transactions version.now result }
{
    let seen = snapshot.sees(version.maker, xacts);
    let removed = is_removed(version.remover, snapshot, xacts);
    is_there(seen, removed)
}

fn is_freed(remover: Option<Xact>, xacts: &Xacts) -> bool
    ensures { result ≡ is_freed xacts.now.transactions remover }
{
    match remover {
        Some(remover) => xacts.is_aborted(remover),
        None => true,
    }
}

/// Whether a transaction may change a version.
pub fn is_changeable(version: &Stored, x: Xact, xacts: &Xacts) -> bool
    ensures { result ≡ is_changeable xacts.now.transactions x version.now }
{
    (version.maker == x || xacts.is_committed(version.maker)) && is_freed(version.remover, xacts)
}

ghost use Rattle.std.specs.Prelude.{◌≡◌};
ghost use Rattle.std.specs.Option.{is_some, option_copied};
ghost use Rattle.al_catalogue.specs.Indexed.{is_sought, passes, lesser, nearer, first_among};
ghost use Rattle.std.specs.Prelude.{slice_get};

use crate::Kept;
use crate::lookup::{is_called, seen, taker_of};
use al_values::Name;
use al_xacts::Xact;

/// What is sought among the tables of a name.
#[derive(Clone, Copy, Debug, PartialEq, Eq)]
pub enum Sought {
    /// A table that the transaction finds by the name.
    Found,
    /// A table that another open transaction makes come to the name or go.
    Moved,
}

fn is_sought(sought: Sought, name: &Name, x: Xact, kept: &Kept) -> bool
    ensures { result ≡ is_sought sought name.now x kept.now }
{
    match sought {
        Sought::Found => is_called(name, seen(x, kept)),
        Sought::Moved => taker_of(name, x, kept).is_some(),
    }
}

fn passes(sought: Sought, name: &Name, x: Xact, kept: Option<&Kept>) -> bool
    ensures { result ≡ passes (is_sought sought name.now x) (option_copied kept.entry) }
{
    match kept {
        Some(kept) => is_sought(sought, name, x, kept),
        None => false,
    }
}

fn lesser(found: Option<usize>, at: usize) -> Option<usize>
    ensures { result ≡ lesser found at }
{
    match found {
        Some(other) => if other <= at { Some(other) } else { Some(at) },
        None => Some(at),
    }
}

/// The lesser of a place found so far and another, where the table there is sought.
fn nearer(
    sought: Sought,
    name: &Name,
    x: Xact,
    tables: &[Kept],
    found: Option<usize>,
    at: usize,
) -> Option<usize>
    ensures { result ≡ nearer (is_sought sought name.now x) tables.now found at }
{
    if passes(sought, name, x, tables.get(at)) {
        lesser(found, at)
    } else {
        found
    }
}

/// The first table among these places that is sought.
pub(crate) fn first_among(
    sought: Sought,
    name: &Name,
    x: Xact,
    tables: &[Kept],
    places: &[usize],
) -> Option<usize>
    ensures { result ≡ first_among (is_sought sought name.now x) tables.now places.now }
{
    let mut found = None;
    for at in places {
        found = nearer(sought, name, x, tables, found, *at);
    }
    found
}

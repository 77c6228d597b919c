ghost use Rattle.std.specs.Prelude.{◌≡◌, ◌==◌, ◌&&◌, ◌||◌, count_by, position, fold};
ghost use Rattle.std.specs.List.{list_any};
ghost use Rattle.al_queue.specs.InWay.{is_in_way, held_up};
ghost use Rattle.al_queue.specs.Waits.{is_like, is_in_way_of};
ghost use Rattle.al_queue.specs.Least.{lesser};

use crate::Grant;
use al_modes::{Mode, conflicts};

/// Whether another session's lock or request is in the way of a request.
pub fn is_in_way(request: Grant, other: Grant) -> bool
    ensures { result ≡ is_in_way request other }
{
    other.table == request.table
        && other.session != request.session
        && conflicts(other.mode, request.mode)
}

/// Whether one of a list is in the way of a request.
pub fn any_in_way(request: Grant, others: &[Grant]) -> bool
    ensures { result ≡ list_any (is_in_way request) others.now }
{
    others.iter().any(|other| is_in_way(request, *other))
}

/// Whether a request is held up, by the locks that are held or by those ahead of it.
pub fn is_held_up(request: Grant, held: &[Grant], ahead: &[Grant]) -> bool
    ensures { result ≡ held_up held.now ahead.now request }
{
    any_in_way(request, held) || any_in_way(request, ahead)
}

/// Whether one of a list that a session has is in the way of a request.
pub fn any_of_session(session: u32, request: Grant, others: &[Grant]) -> bool
    ensures { result ≡ list_any (is_in_way_of session request) others.now }
{
    others.iter().any(|other| other.session == session && is_in_way(request, *other))
}

/// Whether a session has a lock of a table in a mode among these.
pub fn any_like(session: u32, table: u32, mode: Mode, locks: &[Grant]) -> bool
    ensures { result ≡ list_any (is_like session table mode) locks.now }
{
    locks.iter().any(|lock| {
        lock.session == session
            && lock.table == table
            && lock.mode.strictness() == mode.strictness()
    })
}

/// The lesser of a session found so far and that of another lock or request, where this is in the way.
fn lesser(request: Grant, found: Option<u32>, other: Grant) -> Option<u32>
    ensures { result ≡ lesser request found other }
{
    if !is_in_way(request, other) {
        return found;
    }
    match found {
        Some(session) => Some(other.session.min(session)),
        None => Some(other.session),
    }
}

/// The least session of a list's that are in the way of a request, and of one found so far.
pub fn least_in_way(request: Grant, found: Option<u32>, others: &[Grant]) -> Option<u32>
    ensures { result ≡ fold (lesser request) found others.now }
{
    let mut least = found;
    for other in others {
        least = lesser(request, least, *other);
    }
    least
}

/// How many requests are for a table.
pub fn count_of_table(table: u32, requests: &[Grant]) -> usize
    ensures { result ≡ count_by (λ other. other.table == table) requests.now }
{
    requests.iter().filter(|other| other.table == table).count()
}

/// The place of a session's request, where it has one.
pub fn position_of(session: u32, requests: &[Grant]) -> Option<usize>
    ensures { result ≡ position (λ request. request.session == session) requests.now }
{
    requests
        .iter()
        .position(|request| request.session == session)
}

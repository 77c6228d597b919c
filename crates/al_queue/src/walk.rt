ghost use Rattle.std.specs.Prelude.{◌≡◌, [], ◌∷◌, ◌++◌, ◌+◌, ◌<◌, ◌≤◌, ◌==◌, not, length, filter, fold, nat_lt, position, vec_len, vec_capacity};
ghost use Rattle.std.specs.List.{position_or_len};
ghost use Rattle.al_queue.specs.Walk.{placed, passed, walked};

use crate::Grant;
use crate::in_way::is_held_up;
use std::mem;

/// The place of the first grant of a table above one, where there is one.
fn position_above(table: u32, grants: &[Grant]) -> Option<usize>
    ensures { result ≡ position (λ other. nat_lt table other.table) grants.now }
{
    grants.iter().position(|other| table < other.table)
}

/// The place of the first grant of a table above one, or the length.
fn place_for(table: u32, grants: &[Grant]) -> usize
    ensures value { result ≡ position_or_len (λ other. nat_lt table other.table) grants.now }
    ensures within { result ≤ length grants.now }
{
    match position_above(table, grants) {
        Some(at) => at,
        None => grants.len(),
    }
}

/// Names a grant behind those of the tables up to its own. There is room for it.
fn place(granted: &mut Vec<Grant>, grant: Grant)
    requires { vec_len granted.old < vec_capacity granted.old }
    ensures items { granted.new.items ≡ placed granted.old.items grant }
    ensures len { vec_len granted.new ≡ vec_len granted.old + 1 }
    ensures capacity { vec_capacity granted.old ≤ vec_capacity granted.new }
{
    let at = place_for(grant.table, granted);
    granted.insert(at, grant).unwrap();
}

/// Walks requests, which go on waiting or are granted. There is room for each.
fn walk(
    held: &mut Vec<Grant>,
    requests: &[Grant],
    waiting: &mut Vec<Grant>,
    granted: &mut Vec<Grant>,
)
    requires held_room { vec_len held.old + length requests.now ≤ vec_capacity held.old }
    requires waiting_room { vec_len waiting.old + length requests.now ≤ vec_capacity waiting.old }
    requires granted_room { vec_len granted.old + length requests.now ≤ vec_capacity granted.old }
    ensures walked { fold passed (record { held = held.old.items; waiting = waiting.old.items; granted = granted.old.items }) requests.now ≡ record { held = held.new.items; waiting = waiting.new.items; granted = granted.new.items } }
    ensures len { vec_len held.new + vec_len waiting.new ≡ vec_len held.old + vec_len waiting.old + length requests.now }
    ensures granted_len { vec_len granted.new + vec_len waiting.new ≡ vec_len granted.old + vec_len waiting.old + length requests.now }
    ensures held_capacity { vec_capacity held.old ≤ vec_capacity held.new }
    ensures waiting_capacity { vec_capacity waiting.old ≤ vec_capacity waiting.new }
    ensures granted_capacity { vec_capacity granted.old ≤ vec_capacity granted.new }
{
    for request in requests {
        let request = *request;
        if is_held_up(request, held, waiting) {
            waiting.push_reserved(request);
        } else {
            held.push_reserved(request);
            place(granted, request);
        }
    }
}

/// Walks the queues from their fronts, by way of a spare list. There is room for each request.
pub fn walk_queues(
    held: &mut Vec<Grant>,
    waiting: &mut Vec<Grant>,
    spare: &mut Vec<Grant>,
    granted: &mut Vec<Grant>,
)
    requires held_room { vec_len held.old + vec_len waiting.old ≤ vec_capacity held.old }
    requires waiting_room { vec_len waiting.old ≤ vec_capacity waiting.old }
    requires spare_room { vec_len waiting.old ≤ vec_capacity spare.old }
    requires granted_room { vec_len waiting.old ≤ vec_capacity granted.old }
    ensures walked { walked (record { held = held.old.items; waiting = waiting.old.items; granted = granted.old.items }) ≡ record { held = held.new.items; waiting = waiting.new.items; granted = granted.new.items } }
    ensures held_room { vec_len held.new + vec_len waiting.new ≤ vec_capacity held.new }
    ensures waiting_room { vec_len waiting.new ≤ vec_capacity waiting.new }
    ensures spare_room { vec_len waiting.new ≤ vec_capacity spare.new }
    ensures granted_room { vec_len waiting.new ≤ vec_capacity granted.new }
    ensures waiting_len { vec_len waiting.new ≤ vec_len waiting.old }
    ensures granted_len { vec_len granted.new ≤ vec_len waiting.old }
{
    spare.clear();
    granted.clear();
    walk(held, waiting.as_slice(), spare, granted);
    mem::swap(waiting, spare);
}

/// Keeps what isn't a session's.
pub fn keep_others(session: u32, grants: &mut Vec<Grant>)
    ensures items { grants.new.items ≡ filter (λ grant. not (grant.session == session)) grants.old.items }
    ensures len { vec_len grants.new ≤ vec_len grants.old }
    ensures capacity { vec_capacity grants.new ≡ vec_capacity grants.old }
{
    grants.retain(|grant| grant.session != session);
}

/// Ends a session's claims: its locks, and its waiting request where it has one.
pub fn end_claims(session: u32, held: &mut Vec<Grant>, waiting: &mut Vec<Grant>)
    ensures held { held.new.items ≡ filter (λ lock. not (lock.session == session)) held.old.items }
    ensures waiting { waiting.new.items ≡ filter (λ request. not (request.session == session)) waiting.old.items }
    ensures held_len { vec_len held.new ≤ vec_len held.old }
    ensures waiting_len { vec_len waiting.new ≤ vec_len waiting.old }
    ensures held_capacity { vec_capacity held.new ≡ vec_capacity held.old }
    ensures waiting_capacity { vec_capacity waiting.new ≡ vec_capacity waiting.old }
{
    keep_others(session, held);
    keep_others(session, waiting);
}

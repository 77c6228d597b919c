ghost use Rattle.std.specs.Prelude.{◌≡◌, ◌+◌, ◌<◌, ◌≤◌, ◌↔◌, true, false, IsTrue, IfOk, length};
ghost use Rattle.al_cycles.specs.Blocks.{is_this, blocks};
ghost use Rattle.al_cycles.specs.Rounds.{AreMidRound, AreRounds, IsDone, Reaches, unknown, is_next, IsFirst};

use crate::TxWaits;
use al_queue::LockTable;
use al_values::NoMemory;
use std::alloc::Global;

/// Whether a session that may be there is this one.
fn is_this(other: Option<u32>, session: u32) -> bool
    ensures { result ≡ is_this other session }
{
    match other {
        Some(other) => other == session,
        None => false,
    }
}

/// Whether a session waits for another.
#[tactic(auto, unfolding(crate::specs::Blocks::blocks))]
pub(crate) fn blocks(locks: &LockTable, waits: &TxWaits, session: u32, other: u32) -> bool
    requires known { session < locks.now.sessions }
    requires other_known { other < locks.now.sessions }
    requires same { length waits.now ≡ locks.now.sessions }
    ensures { result ≡ blocks locks.now waits.now session other }
{
    locks.blocked_by(session, other) || is_this(waits.of(session), other)
}

/// Whether a session waits for another that has so many between itself and the end.
fn is_next(
    locks: &LockTable,
    waits: &TxWaits,
    table: &[Option<u32>],
    session: u32,
    between: u32,
    other: u32,
) -> bool
    requires known { session < locks.now.sessions }
    requires other_known { other < locks.now.sessions }
    requires same { length waits.now ≡ locks.now.sessions }
    requires len { length table.now ≡ locks.now.sessions }
    ensures { result ≡ is_next (blocks locks.now waits.now) table.now session between other }
{
    is_this(table[other as usize], between) && blocks(locks, waits, session, other)
}

/// The least session that a session waits for and that has so many between itself and the end, where there is one.
pub(crate) fn next_of(
    locks: &LockTable,
    waits: &TxWaits,
    table: &[Option<u32>],
    session: u32,
    between: u32,
) -> Option<u32>
    requires known { session < locks.now.sessions }
    requires same { length waits.now ≡ locks.now.sessions }
    requires len { length table.now ≡ locks.now.sessions }
    ensures { IsFirst (is_next (blocks locks.now waits.now) table.now session between) locks.now.sessions result }
{
    for other in 0..locks.sessions() {
        if is_next(locks, waits, table, session, between, other) {
            return Some(other);
        }
    }
    None
}

/// Whether a session waits for the end, or for one that has one fewer between itself and the end.
fn reaches(
    locks: &LockTable,
    waits: &TxWaits,
    table: &[Option<u32>],
    end: u32,
    session: u32,
    between: u32,
) -> bool
    requires known { session < locks.now.sessions }
    requires end_known { end < locks.now.sessions }
    requires same { length waits.now ≡ locks.now.sessions }
    requires len { length table.now ≡ locks.now.sessions }
    ensures { IsTrue result ↔ Reaches (blocks locks.now waits.now) locks.now.sessions end table.now session between }
{
    if between == 0 {
        blocks(locks, waits, session, end)
    } else {
        next_of(locks, waits, table, session, between - 1).is_some()
    }
}

/// Notes how many stand between a session and the end, where that isn't known and it is so many. Whether it was noted.
fn place(
    locks: &LockTable,
    waits: &TxWaits,
    table: &mut Vec<Option<u32>>,
    end: u32,
    session: u32,
    between: u32,
) -> bool
    requires known { session < locks.now.sessions }
    requires end_known { end < locks.now.sessions }
    requires same { length waits.now ≡ locks.now.sessions }
    requires amid { AreMidRound (blocks locks.now waits.now) locks.now.sessions end between session table.old.items }
    ensures amid { AreMidRound (blocks locks.now waits.now) locks.now.sessions end between (session + 1) table.new.items }
    ensures fewer { result ≡ true → unknown table.new.items + 1 ≡ unknown table.old.items }
    ensures same { result ≡ false → table.new.items ≡ table.old.items }
{
    if table[session as usize].is_some() {
        return false;
    }
    if !reaches(locks, waits, table, end, session, between) {
        return false;
    }
    table[session as usize] = Some(between);
    true
}

/// A round: notes each session that has so many between itself and the end. Whether there was one.
fn round(
    locks: &LockTable,
    waits: &TxWaits,
    table: &mut Vec<Option<u32>>,
    end: u32,
    between: u32,
) -> bool
    requires end_known { end < locks.now.sessions }
    requires same { length waits.now ≡ locks.now.sessions }
    requires rounds { AreRounds (blocks locks.now waits.now) locks.now.sessions end between table.old.items }
    ensures rounds { AreRounds (blocks locks.now waits.now) locks.now.sessions end (between + 1) table.new.items }
    ensures fewer { result ≡ true → unknown table.new.items + 1 ≤ unknown table.old.items }
    ensures same { result ≡ false → table.new.items ≡ table.old.items }
{
    let mut found = false;
    for session in 0..locks.sessions() {
        if place(locks, waits, table, end, session, between) {
            found = true;
        }
    }
    found
}

/// How many stand between each session and the end, as far as it matters: until that of the end is known, or no session more
/// is found.
pub(crate) fn distances(
    alloc: Global,
    locks: &LockTable,
    waits: &TxWaits,
    end: u32,
) -> Result<Vec<Option<u32>>, NoMemory>
    requires end_known { end < locks.now.sessions }
    requires same { length waits.now ≡ locks.now.sessions }
    ensures { IfOk result (λ table. IsDone (blocks locks.now waits.now) locks.now.sessions end table.items) }
{
    let mut table = vec![in alloc; None; locks.sessions() as usize]?;
    let mut between = 0;
    while table[end as usize].is_none() {
        if !round(locks, waits, &mut table, end, between) {
            return Ok(table);
        }
        between += 1;
    }
    Ok(table)
}

//! Asks and releases of a lock table.

use al_modes::Mode;
use al_queue::{Asked, LockTable};
use al_values::NoMemory;
use std::alloc::Global;

const TABLE: u32 = 1;

/// What the sessions do with a new lock table.
#[derive(Clone, Copy)]
pub struct Round {
    /// The mode in which each asks for the one table.
    pub mode: Mode,
    /// Whether each releases its locks afterwards.
    pub releases: bool,
}

/// Makes as many rounds, each with a new lock table, and gives the count of the grants.
pub fn rounds(alloc: Global, round: Round, sessions: u32, times: u32) -> Result<u64, NoMemory> {
    let mut grants: u64 = 0;
    for _ in 0..times {
        grants = grants.wrapping_add(grants_of(alloc, round, sessions)?);
    }
    Ok(grants)
}

fn grants_of(alloc: Global, round: Round, sessions: u32) -> Result<u64, NoMemory> {
    let mut locks = LockTable::new(alloc, sessions)?;
    let mut grants: u64 = 0;
    for session in 0..sessions {
        grants = grants.wrapping_add(ask(&mut locks, session, round.mode)?);
    }
    if round.releases {
        for session in 0..sessions {
            grants = grants.wrapping_add(release(&mut locks, session));
        }
    }
    Ok(grants)
}

/// A session that waits already asks for nothing.
fn ask(locks: &mut LockTable, session: u32, mode: Mode) -> Result<u64, NoMemory> {
    if session >= locks.sessions() || locks.waits(session) {
        return Ok(0);
    }
    match locks.ask(session, TABLE, mode)? {
        Asked::Granted => Ok(1),
        Asked::Queued { .. } => Ok(0),
    }
}

fn release(locks: &mut LockTable, session: u32) -> u64 {
    if session >= locks.sessions() {
        return 0;
    }
    u64::from(locks.release(session))
}

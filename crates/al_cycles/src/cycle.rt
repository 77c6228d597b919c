ghost use Rattle.std.specs.Prelude.{◌≡◌, ◌<◌, ◌↔◌, [], ◌∷◌, ◌++◌, None, Some, IfOk, IfSome, OnOk, OnErr, length};
ghost use Rattle.al_cycles.specs.Blocks.{blocks};
ghost use Rattle.al_cycles.specs.Cycles.{IsCycle, HasNoCycle, IsShortest, IsLeast, edges_of, sessions_of};
ghost use Rattle.al_cycles.specs.Rounds.{between_of, IsDone, AreAnswer};

use crate::TxWaits;
use crate::rounds::{distances, next_of};
use al_modes::Edge;
use al_queue::LockTable;
use al_values::{ListOf, NoMemory};
use std::alloc::Global;

/// The edges of a cycle of waits, in its order.
pub type EdgeList = ListOf<Edge>;

/// Puts an edge at the end.
fn add_edge(edges: &mut EdgeList, session: u32, by: u32) -> Result<(), NoMemory>
    ensures ok { OnOk result (edges.new ≡ edges.old ++ record { session = session; by = by } ∷ []) }
    ensures err { OnErr result (edges.new ≡ edges.old) }
{
    edges.push(Edge { session, by })
}

/// The edges from a session back to itself, by way of the least next session each time.
fn edges_back(
    alloc: Global,
    locks: &LockTable,
    waits: &TxWaits,
    table: &[Option<u32>],
    session: u32,
    between: u32,
) -> Result<EdgeList, NoMemory>
    requires known { session < locks.now.sessions }
    requires same { length waits.now ≡ locks.now.sessions }
    requires done { IsDone (blocks locks.now waits.now) locks.now.sessions session table.now }
    requires at { between_of table.now session ≡ Some between }
    ensures { IfOk result (AreAnswer (blocks locks.now waits.now) locks.now.sessions session) }
{
    let mut edges = ListOf::new(alloc);
    let mut at = session;
    for left in (0..between).rev() {
        let Some(next) = next_of(locks, waits, table, at, left) else {
            unreachable!();
        };
        add_edge(&mut edges, at, next)?;
        at = next;
    }
    add_edge(&mut edges, at, session)?;
    Ok(edges)
}

/// A cycle of waits through a session, which has just begun to wait (13.3.4): the shortest, and among these the least list of
/// sessions, compared place by place from the session on. None where there is none, of whatever length.
///
/// # Errors
///
/// Want of memory.
pub fn closes(
    alloc: Global,
    locks: &LockTable,
    waits: &TxWaits,
    session: u32,
) -> Result<Option<EdgeList>, NoMemory>
    requires known { session < locks.now.sessions }
    requires same { length waits.now ≡ locks.now.sessions }
    ensures none { IfOk result (λ found. (found ≡ None) ↔ HasNoCycle (blocks locks.now waits.now) locks.now.sessions session) }
    ensures edges { IfOk result (λ found. IfSome found (λ edges. edges ≡ edges_of session (sessions_of edges))) }
    ensures cycle { IfOk result (λ found. IfSome found (λ edges. IsCycle (blocks locks.now waits.now) locks.now.sessions session (sessions_of edges))) }
    ensures shortest { IfOk result (λ found. IfSome found (λ edges. IsShortest (blocks locks.now waits.now) locks.now.sessions session (sessions_of edges))) }
    ensures least { IfOk result (λ found. IfSome found (λ edges. IsLeast (blocks locks.now waits.now) locks.now.sessions session (sessions_of edges))) }
{
    let table = distances(alloc, locks, waits, session)?;
    match table[session as usize] {
        Some(between) => Ok(Some(edges_back(alloc, locks, waits, &table, session, between)?)),
        None => Ok(None),
    }
}

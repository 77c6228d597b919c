use crate::{Edge, TxWaits, closes};
use al_modes::Mode;
use al_queue::{Grant, LockTable};
use std::alloc::Global;
use std::process::Abort;
use std::test::Fail;

const fn grant(session: u32, table: u32, mode: Mode) -> Grant {
    Grant {
        session,
        table,
        mode,
    }
}

// A lock, or a request, that conflicts with all others of the table.
const fn whole(session: u32, table: u32) -> Grant {
    grant(session, table, Mode::AccessExclusive)
}

// A lock that many sessions hold beside one another.
const fn shared(session: u32, table: u32) -> Grant {
    grant(session, table, Mode::AccessShare)
}

const fn edge(session: u32, by: u32) -> Edge {
    Edge { session, by }
}

fn ask_all(rt: &impl Abort, locks: &mut LockTable, asks: &[Grant]) -> Result<(), Fail> {
    for request in asks {
        assert!(rt; request.session < locks.sessions());
        assert!(rt; !locks.waits(request.session));
        locks.ask(request.session, request.table, request.mode)?;
    }
    Ok(())
}

fn set_all(rt: &impl Abort, waits: &mut TxWaits, ends: &[Edge]) {
    for wait in ends {
        assert!(rt; wait.session < waits.sessions());
        waits.set(wait.session, Some(wait.by));
        assert!(rt; wait.session < waits.sessions());
        assert_eq!(rt; waits.of(wait.session), Some(wait.by));
    }
}

// The edges of the cycle through a session, none where there is none.
fn check(
    rt: &impl Abort,
    alloc: Global,
    locks: &LockTable,
    waits: &TxWaits,
    session: u32,
    wanted: &[Edge],
) -> Result<(), Fail> {
    assert_eq!(rt; waits.sessions(), locks.sessions());
    assert!(rt; session < locks.sessions());
    match closes(alloc, locks, waits, session)? {
        Some(edges) => assert_eq!(rt; edges.as_slice(), wanted),
        None => assert!(rt; wanted.is_empty()),
    }
    Ok(())
}

#[test]
fn locks_alone(rt: HostRuntime) -> Result<(), Fail> {
    let alloc = rt.alloc();
    let mut locks = LockTable::new(alloc, 3)?;
    let waits = TxWaits::new(alloc, 3)?;
    // A chain has no cycle, and a session doesn't wait for itself.
    let asks = [
        whole(0, 0),
        shared(0, 0),
        whole(1, 1),
        whole(1, 0),
        whole(2, 1),
    ];
    ask_all(&rt, &mut locks, &asks)?;
    for session in 0..3 {
        check(&rt, alloc, &locks, &waits, session, &[])?;
    }
    // Two that each wait for the other, and a longer cycle by way of the request that is ahead.
    ask_all(&rt, &mut locks, &[whole(0, 1)])?;
    check(&rt, alloc, &locks, &waits, 0, &[edge(0, 1), edge(1, 0)])?;
    check(&rt, alloc, &locks, &waits, 1, &[edge(1, 0), edge(0, 1)])?;
    check(
        &rt,
        alloc,
        &locks,
        &waits,
        2,
        &[edge(2, 1), edge(1, 0), edge(0, 2)],
    )
}

// A request waits for one ahead of it, too.
#[test]
fn behind_a_request(rt: HostRuntime) -> Result<(), Fail> {
    let alloc = rt.alloc();
    let mut locks = LockTable::new(alloc, 3)?;
    let mut waits = TxWaits::new(alloc, 3)?;
    let asks = [shared(0, 0), whole(1, 0), grant(2, 0, Mode::RowExclusive)];
    ask_all(&rt, &mut locks, &asks)?;
    check(&rt, alloc, &locks, &waits, 2, &[])?;
    set_all(&rt, &mut waits, &[edge(0, 2)]);
    check(
        &rt,
        alloc,
        &locks,
        &waits,
        0,
        &[edge(0, 2), edge(2, 1), edge(1, 0)],
    )?;
    check(
        &rt,
        alloc,
        &locks,
        &waits,
        2,
        &[edge(2, 1), edge(1, 0), edge(0, 2)],
    )
}

// A wait for a transaction's end closes a cycle, and opens it again where it is taken back.
#[test]
fn ends_of_transactions(rt: HostRuntime) -> Result<(), Fail> {
    let alloc = rt.alloc();
    let mut locks = LockTable::new(alloc, 4)?;
    let mut waits = TxWaits::new(alloc, 4)?;
    ask_all(&rt, &mut locks, &[whole(0, 0), whole(1, 0)])?;
    check(&rt, alloc, &locks, &waits, 1, &[])?;
    set_all(&rt, &mut waits, &[edge(0, 1), edge(2, 2), edge(3, 2)]);
    check(&rt, alloc, &locks, &waits, 0, &[edge(0, 1), edge(1, 0)])?;
    check(&rt, alloc, &locks, &waits, 2, &[edge(2, 2)])?;
    check(&rt, alloc, &locks, &waits, 3, &[])?;
    assert!(&rt; waits.sessions() == 4);
    waits.set(0, None);
    check(&rt, alloc, &locks, &waits, 0, &[])
}

// The shortest of several: session 0 waits for 1, 2 and 3, and comes back to itself by way of 1 and two others, or by way of 3
// and one.
#[test]
fn the_shortest(rt: HostRuntime) -> Result<(), Fail> {
    let alloc = rt.alloc();
    let mut locks = LockTable::new(alloc, 7)?;
    let mut waits = TxWaits::new(alloc, 7)?;
    let asks = [shared(1, 0), shared(2, 0), shared(3, 0), whole(0, 0)];
    ask_all(&rt, &mut locks, &asks)?;
    let ends = [edge(1, 5), edge(5, 6), edge(6, 0), edge(3, 4), edge(4, 0)];
    set_all(&rt, &mut waits, &ends);
    check(
        &rt,
        alloc,
        &locks,
        &waits,
        0,
        &[edge(0, 3), edge(3, 4), edge(4, 0)],
    )?;
    check(
        &rt,
        alloc,
        &locks,
        &waits,
        5,
        &[edge(5, 6), edge(6, 0), edge(0, 1), edge(1, 5)],
    )?;
    check(&rt, alloc, &locks, &waits, 2, &[])
}

// The least of several that are as short, by the first place in which they differ.
#[test]
fn the_least(rt: HostRuntime) -> Result<(), Fail> {
    let alloc = rt.alloc();
    let mut locks = LockTable::new(alloc, 6)?;
    let mut waits = TxWaits::new(alloc, 6)?;
    // Session 0 waits for 1 and 2, and session 1 for 4 and 5.
    let asks = [
        shared(1, 0),
        shared(2, 0),
        shared(4, 1),
        shared(5, 1),
        whole(0, 0),
        whole(1, 1),
    ];
    ask_all(&rt, &mut locks, &asks)?;
    set_all(&rt, &mut waits, &[edge(2, 3), edge(3, 0)]);
    check(
        &rt,
        alloc,
        &locks,
        &waits,
        0,
        &[edge(0, 2), edge(2, 3), edge(3, 0)],
    )?;
    set_all(&rt, &mut waits, &[edge(5, 0)]);
    check(
        &rt,
        alloc,
        &locks,
        &waits,
        0,
        &[edge(0, 1), edge(1, 5), edge(5, 0)],
    )?;
    set_all(&rt, &mut waits, &[edge(4, 0)]);
    check(
        &rt,
        alloc,
        &locks,
        &waits,
        0,
        &[edge(0, 1), edge(1, 4), edge(4, 0)],
    )
}

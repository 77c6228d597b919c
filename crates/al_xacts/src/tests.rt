use crate::{Fate, Marked, Snapshot, Xact, Xacts};
use al_modes::{Level, RowMode};
use al_values::Copied;
use std::process::Abort;
use std::test::Fail;

fn start(rt: &(impl Abort + AllocGlobal), xacts: &mut Xacts, session: u32) -> Result<Xact, Fail> {
    assert!(rt; session < xacts.sessions());
    Ok(xacts.start(rt.alloc(), session, Level::RepeatableRead)?)
}

fn commit(rt: &impl Abort, xacts: &mut Xacts, x: Xact) {
    assert!(rt; xacts.is_open(x));
    xacts.finish(x, Fate::Committed);
}

fn abort(rt: &impl Abort, xacts: &mut Xacts, x: Xact) {
    assert!(rt; xacts.is_open(x));
    xacts.finish(x, Fate::Aborted);
}

// Which of four transactions a snapshot sees.
fn check_seen(rt: &impl Abort, xacts: &Xacts, snapshot: &Snapshot, all: &[Xact], seen: &[bool]) {
    for (x, wanted) in all.iter().zip(seen) {
        assert_eq!(rt; snapshot.sees(*x, xacts), *wanted, "{x:?}");
    }
}

#[test]
fn snapshots(rt: HostRuntime) -> Result<(), Fail> {
    let mut xacts = Xacts::new(rt.alloc(), 3)?;
    let first = start(&rt, &mut xacts, 0)?;
    let gone = start(&rt, &mut xacts, 1)?;
    commit(&rt, &mut xacts, first);
    abort(&rt, &mut xacts, gone);
    let reader = start(&rt, &mut xacts, 0)?;
    let writer = start(&rt, &mut xacts, 1)?;
    let all = [first, gone, reader, writer];
    assert!(rt; first < gone && gone < reader && reader < writer);

    let early = xacts.snapshot(rt.alloc(), reader)?;
    check_seen(&rt, &xacts, &early, &all, &[true, false, true, false]);
    commit(&rt, &mut xacts, writer);
    assert_eq!(rt; xacts.fate(writer), Fate::Committed);
    check_seen(&rt, &xacts, &early, &all, &[true, false, true, false]);
    let late = xacts.snapshot(rt.alloc(), reader)?;
    check_seen(&rt, &xacts, &late, &all, &[true, false, true, true]);

    let copy = early.copied(rt.alloc())?;
    let next = start(&rt, &mut xacts, 2)?;
    abort(&rt, &mut xacts, reader);
    commit(&rt, &mut xacts, next);
    let all = [next, reader, writer];
    check_seen(&rt, &xacts, &copy, &all, &[false, true, false]);
    check_seen(&rt, &xacts, &late, &all, &[false, true, true]);
    Ok(())
}

// A request for a mark: whose of three, on which row, in which mode, and who is in the way.
type Request = (usize, u32, RowMode, Option<usize>);

fn check_marks(
    rt: &(impl Abort + AllocGlobal),
    xacts: &mut Xacts,
    all: &[Xact; 3],
    requests: &[Request],
) -> Result<(), Fail> {
    for (own, row, mode, by) in requests {
        let by = match by {
            Some(by) => Some(xact_at(rt, all, *by)),
            None => None,
        };
        let x = xact_at(rt, all, *own);
        assert!(rt; xacts.is_open(x));
        assert_eq!(rt; xacts.in_the_way(x, *row, *mode), by, "{row} {mode:?}");
        let answer = match by {
            Some(by) => Marked::Held { by },
            None => Marked::Done,
        };
        assert_eq!(rt; xacts.mark(rt.alloc(), x, *row, *mode)?, answer);
    }
    Ok(())
}

fn xact_at(rt: &impl Abort, all: &[Xact; 3], at: usize) -> Xact {
    assert!(rt; at < 3);
    all[at]
}

#[test]
fn marks(rt: HostRuntime) -> Result<(), Fail> {
    let mut xacts = Xacts::new(rt.alloc(), 3)?;
    let all = [
        start(&rt, &mut xacts, 0)?,
        start(&rt, &mut xacts, 1)?,
        start(&rt, &mut xacts, 2)?,
    ];
    let requests = [
        (0, 7, RowMode::KeyShare, None),
        // KEY SHARE goes beside NO KEY UPDATE, and not beside UPDATE.
        (2, 7, RowMode::NoKeyUpdate, None),
        (1, 7, RowMode::Update, Some(0)),
        (1, 7, RowMode::Share, Some(2)),
        // The mark that was refused isn't there; a row of its own is free.
        (2, 7, RowMode::Update, Some(0)),
        (1, 8, RowMode::Update, None),
        // One's own marks are no hindrance, and the stronger one counts.
        (0, 9, RowMode::Share, None),
        (0, 9, RowMode::Update, None),
        (0, 9, RowMode::KeyShare, None),
        (1, 9, RowMode::KeyShare, Some(0)),
    ];
    check_marks(&rt, &mut xacts, &all, &requests)?;
    commit(&rt, &mut xacts, all[0]);
    let requests = [
        (1, 9, RowMode::Share, None),
        (2, 7, RowMode::Update, None),
        (1, 7, RowMode::KeyShare, Some(2)),
    ];
    check_marks(&rt, &mut xacts, &all, &requests)?;
    abort(&rt, &mut xacts, all[2]);
    check_marks(&rt, &mut xacts, &all, &[(1, 7, RowMode::Update, None)])
}

ghost use Rattle.std.specs.Prelude.{◌≡◌, length};

use crate::{Asked, Grant, LockTable};
use al_modes::Mode;
use std::process::Abort;
use std::test::Fail;

// One call, and what it answers.
#[derive(Clone, Copy)]
enum Call<'a> {
    Ask(Grant, Asked),
    Release(u32, &'a [Grant]),
    Withdraw(u32, &'a [Grant]),
}

const fn grant(session: u32, table: u32, mode: Mode) -> Grant {
    Grant {
        session,
        table,
        mode,
    }
}

fn check(rt: &impl Abort, locks: &mut LockTable, call: &Call) -> Result<(), Fail> {
    match call {
        Call::Ask(request, answer) => {
            let request = *request;
            assert!(rt; request.session < locks.sessions());
            assert!(rt; !locks.waits(request.session));
            let free = locks.stands_before(request.session, request.table, request.mode);
            assert_eq!(rt; free.is_none(), *answer == Asked::Granted);
            let answered = locks.ask(request.session, request.table, request.mode)?;
            assert_eq!(rt; answered, *answer);
        }
        Call::Release(session, grants) => {
            assert!(rt; *session < locks.sessions());
            let count = locks.release(*session);
            check_grants(rt, locks, count, grants);
        }
        Call::Withdraw(session, grants) => {
            assert!(rt; *session < locks.sessions());
            let count = locks.withdraw(*session);
            check_grants(rt, locks, count, grants);
        }
    }
    Ok(())
}

fn check_grants(rt: &impl Abort, locks: &LockTable, count: u32, grants: &[Grant])
    requires { count ≡ length locks.now.locks.granted }
{
    assert_eq!(rt; count as usize, grants.len());
    let mut i = 0;
    for wanted in grants {
        assert!(rt; i < count);
        assert_eq!(rt; locks.granted(i), *wanted);
        assert!(rt; wanted.session < locks.sessions());
        assert!(rt; locks.holds(wanted.session, wanted.table, wanted.mode));
        i += 1;
    }
}

#[test]
fn queue_cases(rt: HostRuntime) -> Result<(), Fail> {
    let mut locks = LockTable::new(rt.alloc(), 6)?;
    let calls = [
        // Beside locks that don't conflict, and beside the session's own.
        Call::Ask(grant(0, 1, Mode::AccessShare), Asked::Granted),
        Call::Ask(grant(1, 1, Mode::RowExclusive), Asked::Granted),
        Call::Ask(grant(1, 1, Mode::ShareUpdateExclusive), Asked::Granted),
        // Behind a lock, and behind a request for a stricter one.
        Call::Ask(
            grant(2, 1, Mode::AccessExclusive),
            Asked::Queued { place: 0 },
        ),
        Call::Ask(grant(3, 1, Mode::AccessShare), Asked::Queued { place: 1 }),
        Call::Ask(grant(4, 2, Mode::AccessExclusive), Asked::Granted),
        Call::Ask(grant(5, 2, Mode::RowShare), Asked::Queued { place: 0 }),
    ];
    for call in &calls {
        check(&rt, &mut locks, call)?;
    }
    assert_eq!(rt; locks.sessions(), 6);
    assert_eq!(rt; locks.stands_before(4, 1, Mode::Exclusive), Some(1));
    assert_eq!(rt; locks.stands_before(4, 1, Mode::AccessExclusive), Some(0));
    assert!(rt; locks.blocked_by(3, 2));
    assert!(rt; !locks.blocked_by(3, 0));
    assert!(rt; locks.blocked_by(2, 0));
    assert!(rt; locks.blocked_by(2, 1));
    assert!(rt; !locks.blocked_by(0, 2));

    let calls = [
        Call::Release(0, &[]),
        Call::Release(1, &[grant(2, 1, Mode::AccessExclusive)]),
        Call::Ask(grant(1, 1, Mode::RowShare), Asked::Queued { place: 1 }),
        // A chain: both are granted at one release.
        Call::Release(
            2,
            &[grant(3, 1, Mode::AccessShare), grant(1, 1, Mode::RowShare)],
        ),
        // The first of a queue is taken back, and those behind it are granted.
        Call::Ask(grant(0, 1, Mode::Exclusive), Asked::Queued { place: 0 }),
        Call::Ask(grant(2, 1, Mode::RowExclusive), Asked::Queued { place: 1 }),
        Call::Withdraw(0, &[grant(2, 1, Mode::RowExclusive)]),
        // The tables of the grants ascend, whatever the order in which they were asked for.
        Call::Ask(grant(4, 1, Mode::RowShare), Asked::Granted),
        Call::Ask(grant(0, 1, Mode::Exclusive), Asked::Queued { place: 0 }),
        Call::Release(2, &[]),
        Call::Release(1, &[]),
        Call::Release(
            4,
            &[grant(0, 1, Mode::Exclusive), grant(5, 2, Mode::RowShare)],
        ),
    ];
    for call in &calls {
        check(&rt, &mut locks, call)?;
    }
    assert_eq!(rt; locks.sessions(), 6);
    assert!(rt; !locks.holds(4, 2, Mode::AccessExclusive));

    let calls = [
        // Who releases its locks leaves the queue too, and those behind it are granted.
        Call::Ask(
            grant(3, 1, Mode::AccessExclusive),
            Asked::Queued { place: 0 },
        ),
        Call::Ask(grant(1, 1, Mode::AccessShare), Asked::Queued { place: 1 }),
        Call::Release(3, &[grant(1, 1, Mode::AccessShare)]),
        Call::Release(0, &[]),
    ];
    for call in &calls {
        check(&rt, &mut locks, call)?;
    }
    assert!(rt; !locks.waits(3));
    Ok(())
}

// One in the middle of a queue is taken back: the one ahead waits on, and the one behind is granted.
#[test]
fn withdrawn_from_the_middle(rt: HostRuntime) -> Result<(), Fail> {
    let mut locks = LockTable::new(rt.alloc(), 4)?;
    let calls = [
        Call::Ask(grant(0, 1, Mode::RowExclusive), Asked::Granted),
        Call::Ask(grant(1, 1, Mode::Share), Asked::Queued { place: 0 }),
        Call::Ask(
            grant(2, 1, Mode::AccessExclusive),
            Asked::Queued { place: 1 },
        ),
        Call::Ask(grant(3, 1, Mode::AccessShare), Asked::Queued { place: 2 }),
        Call::Withdraw(2, &[grant(3, 1, Mode::AccessShare)]),
        // Taken back again, it changes nothing.
        Call::Withdraw(2, &[]),
        Call::Release(0, &[grant(1, 1, Mode::Share)]),
    ];
    for call in &calls {
        check(&rt, &mut locks, call)?;
    }
    assert!(rt; !locks.waits(1));
    Ok(())
}

// Eight requests wait for one table, and are granted one after the other.
#[test]
fn many_waiters(rt: HostRuntime) -> Result<(), Fail> {
    let mut locks = LockTable::new(rt.alloc(), 9)?;
    let all = Mode::AccessExclusive;
    let calls = [
        Call::Ask(grant(0, 1, all), Asked::Granted),
        Call::Ask(grant(1, 1, all), Asked::Queued { place: 0 }),
        Call::Ask(grant(2, 1, all), Asked::Queued { place: 1 }),
        Call::Ask(grant(3, 1, all), Asked::Queued { place: 2 }),
        Call::Ask(grant(4, 1, all), Asked::Queued { place: 3 }),
        Call::Ask(grant(5, 1, all), Asked::Queued { place: 4 }),
        Call::Ask(grant(6, 1, all), Asked::Queued { place: 5 }),
        Call::Ask(grant(7, 1, all), Asked::Queued { place: 6 }),
        Call::Ask(grant(8, 1, all), Asked::Queued { place: 7 }),
        Call::Release(0, &[grant(1, 1, all)]),
        Call::Withdraw(5, &[]),
        Call::Release(1, &[grant(2, 1, all)]),
        Call::Release(2, &[grant(3, 1, all)]),
        Call::Release(3, &[grant(4, 1, all)]),
        Call::Release(4, &[grant(6, 1, all)]),
    ];
    for call in &calls {
        check(&rt, &mut locks, call)?;
    }
    Ok(())
}

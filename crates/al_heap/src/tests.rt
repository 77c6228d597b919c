use crate::Heap;
use al_modes::Level;
use al_values::{Row, Value};
use al_xacts::{Fate, Snapshot, Xact, Xacts};
use std::process::Abort;
use std::test::Fail;

// Three transactions, after a first one that was committed and has put in rows 0 and 1.
#[derive(Drop)]
struct Case {
    xacts: Xacts,
    heap: Heap,
    all: [Xact; 3],
    // What each has taken before the others' changes.
    early: Vec<Snapshot>,
}

// A row that was changed: by whom, and the number of its new version; None: it was removed.
#[derive(Clone, Copy)]
struct Change {
    by: usize,
    row: u32,
    number: Option<u32>,
}

fn nth<T: Copy>(rt: &impl Abort, items: &[T], at: usize) -> T {
    assert!(rt; at < items.len());
    items[at]
}

fn start(rt: &(impl Abort + AllocGlobal), xacts: &mut Xacts, session: u32) -> Result<Xact, Fail> {
    assert!(rt; session < xacts.sessions());
    Ok(xacts.start(rt.alloc(), session, Level::RepeatableRead)?)
}

fn end(rt: &impl Abort, xacts: &mut Xacts, x: Xact, commits: bool) {
    assert!(rt; xacts.is_open(x));
    if commits {
        xacts.finish(x, Fate::Committed);
    } else {
        xacts.finish(x, Fate::Aborted);
    }
}

fn values(rt: &impl AllocGlobal, number: u32) -> Result<Row, Fail> {
    let mut row = Row::new(rt.alloc());
    row.push(Value::Int(i64::from(number)))?;
    Ok(row)
}

fn put(rt: &(impl Abort + AllocGlobal), heap: &mut Heap, x: Xact, row: u32) -> Result<(), Fail> {
    assert!(rt; heap.newest(row) == None);
    let values = values(rt, row)?;
    let before = heap.len();
    let place = heap.put(rt.alloc(), x, row, values)?;
    assert_eq!(rt; place, before);
    assert_eq!(rt; heap.newest(row), Some(place));
    Ok(())
}

fn new_case(rt: &(impl Abort + AllocGlobal)) -> Result<Case, Fail> {
    let mut xacts = Xacts::new(rt.alloc(), 4)?;
    let first = start(rt, &mut xacts, 0)?;
    let mut heap = Heap::new(rt.alloc());
    put(rt, &mut heap, first, 0)?;
    put(rt, &mut heap, first, 1)?;
    end(rt, &mut xacts, first, true);
    let all = [
        start(rt, &mut xacts, 1)?,
        start(rt, &mut xacts, 2)?,
        start(rt, &mut xacts, 3)?,
    ];
    let mut early = Vec::new(rt.alloc());
    for x in &all {
        early.push(xacts.snapshot(rt.alloc(), *x)?)?;
    }
    Ok(Case {
        xacts,
        heap,
        all,
        early,
    })
}

// Changes a row where the transaction may.
fn make_change(
    rt: &(impl Abort + AllocGlobal),
    case: &mut Case,
    change: Change,
) -> Result<bool, Fail> {
    let x = nth(rt, &case.all, change.by);
    if !case.xacts.is_open(x) || !case.heap.can_change(x, change.row, &case.xacts) {
        return Ok(false);
    }
    let (number, values) = match change.number {
        Some(number) => (number, Some(values(rt, number)?)),
        None => (99, None),
    };
    case.heap
        .change(rt.alloc(), x, change.row, number, values, &case.xacts)?;
    Ok(true)
}

// The number of the version of a row that a snapshot sees, of which there is at most one.
fn seen(rt: &impl Abort, case: &Case, row: u32, snapshot: &Snapshot) -> Option<u32> {
    let mut found = None;
    for place in 0..case.heap.len() {
        let version = case.heap.at(place);
        if version.row == row && case.heap.visible(place, snapshot, &case.xacts) {
            assert!(rt; found == None);
            found = Some(version.number);
        }
    }
    found
}

// The plain program: it goes through all changes, and those of one's own and of the committed ones count.
fn plainly_seen(
    rt: &impl Abort,
    changes: &[Change],
    row: u32,
    own: usize,
    committed: &[bool],
) -> Option<u32> {
    let mut found = Some(row);
    for change in changes {
        if change.row == row && (change.by == own || nth(rt, committed, change.by)) {
            found = change.number;
        }
    }
    found
}

// A change or an end, from 0 to 17, and by whom.
fn step(code: u32, next: u32) -> (usize, Option<Change>, bool) {
    let by = (code % 3) as usize;
    let act = code / 3;
    let row = act % 2;
    let number = if act < 2 { Some(next) } else { None };
    if act < 4 {
        (by, Some(Change { by, row, number }), false)
    } else {
        (by, None, act == 4)
    }
}

// Whether a transaction's early snapshot sees the version that its change would replace. One that doesn't is refused such a
// change under REPEATABLE READ.
fn is_fresh(rt: &impl Abort, case: &Case, change: Change) -> bool {
    match case.heap.standing(change.row, &case.xacts) {
        Some(place) => match case.early.get(change.by) {
            Some(snapshot) => {
                assert!(rt; place < case.heap.len());
                case.heap.visible(place, snapshot, &case.xacts)
            }
            None => false,
        },
        None => false,
    }
}

// What all readers of a history see.
fn check_readers(rt: &(impl Abort + AllocGlobal), history: &History) -> Result<(), Fail> {
    let case = &history.case;
    let changes = &history.changes;
    let none = [false; 3];
    let mut committed = [false; 3];
    for own in 0..3 {
        committed[own] = case.xacts.is_committed(case.all[own]);
    }
    for own in 0..3 {
        if !case.xacts.is_open(case.all[own]) {
            continue;
        }
        let late = case.xacts.snapshot(rt.alloc(), case.all[own])?;
        for row in 0..2 {
            let wanted = plainly_seen(rt, changes, row, own, &committed);
            assert_eq!(rt; seen(rt, case, row, &late), wanted);
            if history.fresh[own]
                && let Some(early) = case.early.get(own)
            {
                let wanted = plainly_seen(rt, changes, row, own, &none);
                assert_eq!(rt; seen(rt, case, row, early), wanted);
            }
        }
    }
    Ok(())
}

// A history of steps, and which transactions have changed only what their early snapshots see.
#[derive(Drop)]
struct History {
    case: Case,
    changes: Vec<Change>,
    fresh: [bool; 3],
}

// A history of steps that can be taken. None: its last step can't be taken, or only under other names.
fn new_history(rt: &(impl Abort + AllocGlobal), codes: &[u32]) -> Result<Option<History>, Fail> {
    let mut case = new_case(rt)?;
    let mut changes = Vec::new(rt.alloc());
    let mut fresh = [true; 3];
    let mut next = 10u32;
    for code in codes {
        let (by, made, commits) = step(*code, next);
        match made {
            Some(made) => {
                let sees = is_fresh(rt, &case, made);
                if !make_change(rt, &mut case, made)? {
                    return Ok(None);
                }
                assert!(rt; by < 3);
                fresh[by] = fresh[by] && sees;
                changes.push(made)?;
            }
            None => {
                let x = nth(rt, &case.all, by);
                if !case.xacts.is_open(x) {
                    return Ok(None);
                }
                end(rt, &mut case.xacts, x, commits);
            }
        }
        next = next.wrapping_add(1);
    }
    Ok(Some(History {
        case,
        changes,
        fresh,
    }))
}

// Whether each transaction's first step comes after one by the transaction before it, so that histories that differ in the
// names of their transactions alone are taken once.
fn are_named_in_order(codes: &[u32]) -> bool {
    let mut named = 0;
    for code in codes {
        let by = code % 3;
        if by > named {
            return false;
        }
        if by == named {
            named = by + 1;
        }
    }
    true
}

// Checks a history, and says whether its steps can be taken.
fn visit(rt: &(impl Abort + AllocGlobal), codes: &[u32]) -> Result<bool, Fail> {
    if !are_named_in_order(codes) {
        return Ok(false);
    }
    match new_history(rt, codes)? {
        Some(history) => {
            check_readers(rt, &history)?;
            Ok(true)
        }
        None => Ok(false),
    }
}

// The next history: longer by a step, or with another last step.
fn advance(codes: &mut Vec<u32>, longer: bool) -> Result<(), Fail> {
    if longer {
        codes.push(0)?;
        return Ok(());
    }
    for _ in 0..codes.len() {
        match codes.pop() {
            Some(code) => {
                if code < 17 {
                    codes.push(code + 1)?;
                    return Ok(());
                }
            }
            None => return Ok(()),
        }
    }
    Ok(())
}

#[test]
fn all_short_histories(rt: HostRuntime) -> Result<(), Fail> {
    let mut codes = Vec::new(rt.alloc());
    codes.push(0)?;
    for _ in 0..1_000_000 {
        if codes.is_empty() {
            return Ok(());
        }
        let taken = visit(&rt, &codes)?;
        let longer = taken && codes.len() < 5;
        advance(&mut codes, longer)?;
    }
    assert!(rt; codes.is_empty());
    Ok(())
}

// What two readers see of row 0: one whose snapshot is the first transaction's early one, and one that reads now.
fn check_row(
    rt: &(impl Abort + AllocGlobal),
    case: &Case,
    early: Option<u32>,
    late: Option<u32>,
) -> Result<(), Fail> {
    if let Some(snapshot) = case.early.get(0) {
        assert_eq!(rt; seen(rt, case, 0, snapshot), early);
    }
    let snapshot = case.xacts.snapshot(rt.alloc(), case.all[0])?;
    assert_eq!(rt; seen(rt, case, 0, &snapshot), late);
    Ok(())
}

// What a transaction does with row 0.
#[derive(Clone, Copy)]
enum Act {
    // Gives it a version of this number, or removes it where none is told.
    Changes(Option<u32>),
    // May not change it.
    MayNot,
    Commits,
    Aborts,
}

// What a transaction does, and what the two readers of the first transaction see of row 0 from then on: the early one, and the one
// that reads now.
type Row0 = (usize, Act, Option<u32>, Option<u32>);

fn perform(
    rt: &(impl Abort + AllocGlobal),
    case: &mut Case,
    by: usize,
    act: Act,
) -> Result<(), Fail> {
    let x = nth(rt, &case.all, by);
    match act {
        Act::Changes(number) => {
            let change = Change { by, row: 0, number };
            assert!(rt; make_change(rt, case, change)?);
        }
        Act::MayNot => assert!(rt; !case.heap.can_change(x, 0, &case.xacts)),
        Act::Commits => end(rt, &mut case.xacts, x, true),
        Act::Aborts => end(rt, &mut case.xacts, x, false),
    }
    Ok(())
}

fn check_acts(rt: &(impl Abort + AllocGlobal), case: &mut Case, rows: &[Row0]) -> Result<(), Fail> {
    check_row(rt, case, Some(0), Some(0))?;
    for (by, done, early, late) in rows {
        perform(rt, case, *by, *done)?;
        check_row(rt, case, *early, *late)?;
    }
    Ok(())
}

// Own changes are seen at once, by both readers, and keep the others from changing the row.
#[test]
fn own_changes(rt: HostRuntime) -> Result<(), Fail> {
    let mut case = new_case(&rt)?;
    let rows = [
        (0, Act::Changes(Some(11)), Some(11), Some(11)),
        (1, Act::MayNot, Some(11), Some(11)),
        (0, Act::Changes(Some(12)), Some(12), Some(12)),
        (0, Act::Changes(None), None, None),
        (0, Act::MayNot, None, None),
    ];
    check_acts(&rt, &mut case, &rows)
}

// Changes of others are seen once they are committed, by the reader that reads now alone.
#[test]
fn changes_of_others(rt: HostRuntime) -> Result<(), Fail> {
    let mut case = new_case(&rt)?;
    let rows = [
        (1, Act::Changes(Some(11)), Some(0), Some(0)),
        (1, Act::Commits, Some(0), Some(11)),
        (2, Act::Changes(None), Some(0), Some(11)),
        (0, Act::MayNot, Some(0), Some(11)),
        (2, Act::Aborts, Some(0), Some(11)),
    ];
    check_acts(&rt, &mut case, &rows)
}

// A change that is rolled back and a removal that is committed. The versions are all there then, and can be taken out and put back.
#[test]
fn one_row(rt: HostRuntime) -> Result<(), Fail> {
    let mut case = new_case(&rt)?;
    let rows = [
        (1, Act::Changes(Some(11)), Some(0), Some(0)),
        (2, Act::MayNot, Some(0), Some(0)),
        (1, Act::Aborts, Some(0), Some(0)),
        (2, Act::Changes(Some(13)), Some(0), Some(0)),
        (2, Act::Changes(None), Some(0), Some(0)),
        (2, Act::Commits, Some(0), None),
        (0, Act::MayNot, Some(0), None),
    ];
    check_acts(&rt, &mut case, &rows)?;
    assert_eq!(rt; case.heap.newest(0), Some(3));
    assert_eq!(rt; case.heap.standing(0, &case.xacts), Some(3));
    let heap = case.heap.take_out();
    assert!(rt; case.heap.is_empty());
    case.heap.put_back(heap);
    assert_eq!(rt; case.heap.len(), 4);
    let last = case.heap.at(3);
    assert_eq!(rt; (last.number, last.removal), (13, 99));
    assert_eq!(rt; last.remover, Some(nth(&rt, &case.all, 2)));
    Ok(())
}

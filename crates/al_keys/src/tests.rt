use crate::{KeyIndex, Sought};
use al_modes::Level;
use al_values::{Row, Value};
use al_xacts::{Fate, Snapshot, Xact, Xacts};
use std::process::Abort;
use std::test::Fail;

// A version of a row in the plain list: its row, its key, who made it and who removed it last.
#[derive(Drop)]
struct Plain {
    row: u32,
    key: i64,
    maker: Xact,
    remover: Option<Xact>,
}

// Three transactions, after a first one that was committed and has put in row 0 under key 0 and row 1 under key 1.
#[derive(Drop)]
struct Case {
    xacts: Xacts,
    index: KeyIndex,
    all: [Xact; 3],
    versions: Vec<Plain>,
}

fn key_of(rt: &impl AllocGlobal, number: i64) -> Result<Row, Fail> {
    let mut key = Row::new(rt.alloc());
    key.push(Value::Int(number))?;
    Ok(key)
}

fn start(rt: &(impl Abort + AllocGlobal), xacts: &mut Xacts, session: u32) -> Result<Xact, Fail> {
    assert!(rt; session < xacts.sessions());
    Ok(xacts.start(rt.alloc(), session, Level::ReadCommitted)?)
}

fn end(rt: &impl Abort, xacts: &mut Xacts, x: Xact, commits: bool) {
    assert!(rt; xacts.is_open(x));
    if commits {
        xacts.finish(x, Fate::Committed);
    } else {
        xacts.finish(x, Fate::Aborted);
    }
}

fn enter(
    rt: &(impl Abort + AllocGlobal),
    case: &mut Case,
    x: Xact,
    row: u32,
    key: i64,
) -> Result<(), Fail> {
    case.index.enter(rt.alloc(), x, key_of(rt, key)?, row, 7)?;
    case.versions.push(Plain {
        row,
        key,
        maker: x,
        remover: None,
    })?;
    Ok(())
}

fn new_case(rt: &(impl Abort + AllocGlobal)) -> Result<Case, Fail> {
    let mut xacts = Xacts::new(rt.alloc(), 4)?;
    let first = start(rt, &mut xacts, 0)?;
    let all = [
        start(rt, &mut xacts, 1)?,
        start(rt, &mut xacts, 2)?,
        start(rt, &mut xacts, 3)?,
    ];
    let mut case = Case {
        xacts,
        index: KeyIndex::new(rt.alloc()),
        all,
        versions: Vec::new(rt.alloc()),
    };
    enter(rt, &mut case, first, 0, 0)?;
    enter(rt, &mut case, first, 1, 1)?;
    end(rt, &mut case.xacts, first, true);
    Ok(case)
}

// The key of a row's newest version whose maker wasn't rolled back, if a transaction may change it; it is removed then.
fn remove(case: &mut Case, x: Xact, row: u32) -> Option<i64> {
    let mut found = None;
    for at in 0..case.versions.len() {
        let version = &case.versions[at];
        if version.row == row && !case.xacts.is_aborted(version.maker) {
            let freed = match version.remover {
                Some(remover) => case.xacts.is_aborted(remover),
                None => true,
            };
            if (version.maker == x || case.xacts.is_committed(version.maker)) && freed {
                found = Some(at);
            } else {
                found = None;
            }
        }
    }
    match found {
        Some(at) => {
            if at < case.versions.len() {
                let version = &mut case.versions[at];
                version.remover = Some(x);
                Some(version.key)
            } else {
                None
            }
        }
        None => None,
    }
}

// Gives a row another key, or the same one, or removes it, where the transaction may.
fn change(
    rt: &(impl Abort + AllocGlobal),
    case: &mut Case,
    x: Xact,
    row: u32,
    key: Option<i64>,
) -> Result<bool, Fail> {
    if !case.xacts.is_open(x) {
        return Ok(false);
    }
    match remove(case, x, row) {
        Some(old) => {
            let old = key_of(rt, old)?;
            assert!(rt; case.index.can_leave(x, &old, row, &case.xacts));
            case.index.leave(x, &old, row, &case.xacts);
        }
        None => return Ok(false),
    }
    if let Some(key) = key {
        enter(rt, case, x, row, key)?;
    }
    Ok(true)
}

// The plain program for what a transaction finds: it goes through the rows in ascending number, and through all versions.
fn plainly_sought(case: &Case, x: Xact, key: i64) -> Sought {
    for row in 0..2 {
        for version in &case.versions {
            if version.row == row && version.key == key && !case.xacts.is_aborted(version.maker) {
                let maker = version.maker;
                if maker != x && case.xacts.is_open(maker) {
                    return Sought::Open { by: maker };
                }
                match version.remover {
                    Some(remover) => {
                        if remover != x && case.xacts.is_open(remover) {
                            return Sought::Open { by: remover };
                        }
                        if case.xacts.is_aborted(remover) {
                            return Sought::Held { row };
                        }
                    }
                    None => return Sought::Held { row },
                }
            }
        }
    }
    Sought::Free
}

// The plain program for the row that gives a key in a snapshot.
fn plainly_given(case: &Case, snapshot: &Snapshot, key: i64) -> Option<u32> {
    for row in 0..2 {
        for version in &case.versions {
            if version.row == row && version.key == key {
                let gone = match version.remover {
                    Some(remover) => snapshot.sees(remover, &case.xacts),
                    None => false,
                };
                if !gone && snapshot.sees(version.maker, &case.xacts) {
                    return Some(row);
                }
            }
        }
    }
    None
}

fn check_keys(rt: &(impl Abort + AllocGlobal), case: &Case) -> Result<(), Fail> {
    for x in &case.all {
        if case.xacts.is_open(*x) {
            let snapshot = case.xacts.snapshot(rt.alloc(), *x)?;
            for number in 0..2i64 {
                let key = key_of(rt, number)?;
                let sought = case.index.seek(&key, *x, &case.xacts);
                assert_eq!(rt; sought, plainly_sought(case, *x, number));
                let given = case.index.gives(&key, &snapshot, &case.xacts);
                assert_eq!(rt; given, plainly_given(case, &snapshot, number));
            }
        }
    }
    Ok(())
}

// A step, from 0 to 23, where it can be taken: a change of a row's key, a removal or an end.
fn take_step(rt: &(impl Abort + AllocGlobal), case: &mut Case, code: u32) -> Result<bool, Fail> {
    let by = (code % 3) as usize;
    assert!(rt; by < 3);
    let x = case.all[by];
    match code / 3 {
        0 => change(rt, case, x, 0, Some(0)),
        1 => change(rt, case, x, 0, Some(1)),
        2 => change(rt, case, x, 0, None),
        3 => change(rt, case, x, 1, Some(0)),
        4 => change(rt, case, x, 1, Some(1)),
        5 => change(rt, case, x, 1, None),
        act => {
            let open = case.xacts.is_open(x);
            if open {
                end(rt, &mut case.xacts, x, act == 6);
            }
            Ok(open)
        }
    }
}

// Whether each transaction's first step comes after one by the transaction before it, so that histories that differ in the
// names of their transactions alone are taken once.
fn are_named_in_order(codes: &[u32]) -> bool {
    let mut named = 0;
    for code in codes {
        let by = code % 3;
        if by > named {
            return false;
        }
        if by == named {
            named = by + 1;
        }
    }
    true
}

// Checks a history, and says whether its steps can be taken.
fn visit(rt: &(impl Abort + AllocGlobal), codes: &[u32]) -> Result<bool, Fail> {
    if !are_named_in_order(codes) {
        return Ok(false);
    }
    let mut case = new_case(rt)?;
    for code in codes {
        if !take_step(rt, &mut case, *code)? {
            return Ok(false);
        }
    }
    check_keys(rt, &case)?;
    Ok(true)
}

// The next history: longer by a step, or with another last step.
fn advance(codes: &mut Vec<u32>, longer: bool) -> Result<(), Fail> {
    if longer {
        codes.push(0)?;
        return Ok(());
    }
    for _ in 0..codes.len() {
        match codes.pop() {
            Some(code) => {
                if code < 23 {
                    codes.push(code + 1)?;
                    return Ok(());
                }
            }
            None => return Ok(()),
        }
    }
    Ok(())
}

#[test]
fn all_short_histories(rt: HostRuntime) -> Result<(), Fail> {
    let mut codes = Vec::new(rt.alloc());
    codes.push(0)?;
    for _ in 0..1_000_000 {
        if codes.is_empty() {
            return Ok(());
        }
        let taken = visit(&rt, &codes)?;
        let longer = taken && codes.len() < 5;
        advance(&mut codes, longer)?;
    }
    assert!(rt; codes.is_empty());
    Ok(())
}

// Steps by their codes: what the first transaction does, and the second.
const REMOVES_ROW_0: u32 = 6;

const COMMITS: u32 = 18;

const ABORTS: u32 = 21;

const GIVES_ROW_0_KEY_0: u32 = 0;

const SECOND_GIVES_ROW_1_KEY_0: u32 = 10;

const SECOND_GIVES_ROW_1_KEY_1: u32 = 13;

// After some steps a transaction looks for a key, and finds it free, or a row that has it, or an open transaction.
#[derive(Clone, Copy)]
enum Looked<'a> {
    Free(&'a [u32], usize, i64),
    Held(&'a [u32], usize, i64, u32),
    Open(&'a [u32], usize, i64, usize),
}

fn xact_at(rt: &impl Abort, case: &Case, by: usize) -> Xact {
    assert!(rt; by < 3);
    case.all[by]
}

fn sought_after(
    rt: &(impl Abort + AllocGlobal),
    codes: &[u32],
    by: usize,
    key: i64,
    open: usize,
) -> Result<(Sought, Xact), Fail> {
    let mut case = new_case(rt)?;
    for code in codes {
        assert!(rt; take_step(rt, &mut case, *code)?);
    }
    let x = xact_at(rt, &case, by);
    let key = key_of(rt, key)?;
    let sought = case.index.seek(&key, x, &case.xacts);
    Ok((sought, xact_at(rt, &case, open)))
}

fn check_looked(rt: &(impl Abort + AllocGlobal), looked: Looked) -> Result<(), Fail> {
    match looked {
        Looked::Free(codes, by, key) => {
            let found = sought_after(rt, codes, by, key, 0)?;
            assert_eq!(rt; found.0, Sought::Free);
        }
        Looked::Held(codes, by, key, row) => {
            let found = sought_after(rt, codes, by, key, 0)?;
            assert_eq!(rt; found.0, Sought::Held { row });
        }
        Looked::Open(codes, by, key, open) => {
            let found = sought_after(rt, codes, by, key, open)?;
            assert_eq!(rt; found.0, Sought::Open { by: found.1 });
        }
    }
    Ok(())
}

fn check_all(rt: &(impl Abort + AllocGlobal), all: &[Looked]) -> Result<(), Fail> {
    for looked in all {
        check_looked(rt, *looked)?;
    }
    Ok(())
}

// A version is in the way of the others while its remover is open, and of nobody once that has committed.
#[test]
fn open_remover(rt: HostRuntime) -> Result<(), Fail> {
    check_all(
        &rt,
        &[
            Looked::Held(&[], 0, 0, 0),
            Looked::Open(&[REMOVES_ROW_0], 1, 0, 0),
            Looked::Free(&[REMOVES_ROW_0], 0, 0),
            Looked::Free(&[REMOVES_ROW_0, COMMITS], 1, 0),
            Looked::Held(&[REMOVES_ROW_0, ABORTS], 1, 0, 0),
            Looked::Open(&[GIVES_ROW_0_KEY_0], 1, 0, 0),
            Looked::Held(&[GIVES_ROW_0_KEY_0], 0, 0, 0),
        ],
    )
}

// Row 0 is gone, and an open transaction gives its key to row 1; then it gives that row its old key again. The version with the
// other key, which its maker has replaced, is in the way of the others still.
#[test]
fn open_maker(rt: HostRuntime) -> Result<(), Fail> {
    let made = [REMOVES_ROW_0, COMMITS, SECOND_GIVES_ROW_1_KEY_0];
    let replaced = [
        REMOVES_ROW_0,
        COMMITS,
        SECOND_GIVES_ROW_1_KEY_0,
        SECOND_GIVES_ROW_1_KEY_1,
    ];
    check_all(
        &rt,
        &[
            Looked::Open(&made, 2, 0, 1),
            Looked::Held(&made, 1, 0, 1),
            Looked::Open(&made, 2, 1, 1),
            Looked::Free(&made, 1, 1),
            Looked::Open(&replaced, 2, 0, 1),
            Looked::Free(&replaced, 1, 0),
            Looked::Open(&replaced, 2, 1, 1),
            Looked::Held(&replaced, 1, 1, 1),
        ],
    )
}

#[test]
fn keys_with_nulls_and_texts(rt: HostRuntime) -> Result<(), Fail> {
    let mut case = new_case(&rt)?;
    let x = case.all[0];
    let mut null = Row::new(rt.alloc());
    null.push(Value::Null)?;
    let mut same = Row::new(rt.alloc());
    same.push(Value::Null)?;
    case.index.enter(rt.alloc(), x, null, 5, 9)?;
    assert_eq!(rt; case.index.seek(&same, x, &case.xacts), Sought::Free);
    assert!(rt; case.index.can_leave(x, &same, 5, &case.xacts));
    case.index.leave(x, &same, 5, &case.xacts);
    // A key of another length, or of another sort of value, is another key.
    let none = Row::new(rt.alloc());
    assert_eq!(rt; case.index.seek(&none, x, &case.xacts), Sought::Free);
    let mut day = Row::new(rt.alloc());
    day.push(Value::Day(0))?;
    assert_eq!(rt; case.index.seek(&day, x, &case.xacts), Sought::Free);
    let zero = key_of(&rt, 0)?;
    assert_eq!(rt;
        case.index.seek(&zero, x, &case.xacts),
        Sought::Held { row: 0 }
    );
    Ok(())
}

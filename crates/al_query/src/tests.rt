ghost use Rattle.std.specs.Prelude.{◌≡◌, ◌<◌, ◌≤◌, length};

use crate::{Read, Reading};
use al_heap::Heap;
use al_modes::Level;
use al_schema::{Shape, Slot};
use al_values::{Kind, Name, NoMemory, Row, RowList, Steps, Value};
use al_xacts::{Fate, Snapshot, Xact, Xacts};
use std::alloc::Global;
use std::marker::Brand;
use std::process::Abort;
use std::sync::ledger::{Blank, Ledger};
use std::test::Fail;

// Three transactions and a heap. The first one reads.
#[derive(Drop)]
struct Case {
    xacts: Xacts,
    heap: Heap,
    all: [Xact; 3],
    next: u32,
}

// What a transaction does to a row, or how it ends.
#[derive(Clone, Copy)]
enum Act {
    Puts(usize, u32, i64),
    Changes(usize, u32, i64),
    Removes(usize, u32),
    Commits(usize),
    Aborts(usize),
}

fn nth(rt: &impl Abort, case: &Case, by: usize) -> Xact {
    assert!(rt; by < 3);
    case.all[by]
}

fn start(rt: &(impl Abort + AllocGlobal), xacts: &mut Xacts, session: u32) -> Result<Xact, Fail> {
    assert!(rt; session < xacts.sessions());
    Ok(xacts.start(rt.alloc(), session, Level::RepeatableRead)?)
}

fn new_case(rt: &(impl Abort + AllocGlobal)) -> Result<Case, Fail> {
    let heap = Heap::new(rt.alloc());
    let mut xacts = Xacts::new(rt.alloc(), 3)?;
    let all = [
        start(rt, &mut xacts, 0)?,
        start(rt, &mut xacts, 1)?,
        start(rt, &mut xacts, 2)?,
    ];
    Ok(Case {
        xacts,
        heap,
        all,
        next: 100,
    })
}

fn row_of_numbers(alloc: Global, numbers: &[i64]) -> Result<Row, NoMemory> {
    let mut row = Row::new(alloc);
    for number in numbers {
        row.push(Value::Int(*number))?;
    }
    Ok(row)
}

fn put(
    rt: &(impl Abort + AllocGlobal),
    case: &mut Case,
    by: usize,
    row: u32,
    numbers: &[i64],
) -> Result<(), Fail> {
    let x = nth(rt, case, by);
    assert!(rt; case.heap.newest(row) == None);
    let values = row_of_numbers(rt.alloc(), numbers)?;
    case.heap.put(rt.alloc(), x, row, values)?;
    Ok(())
}

fn change(
    rt: &(impl Abort + AllocGlobal),
    case: &mut Case,
    by: usize,
    row: u32,
    values: Option<Row>,
) -> Result<(), Fail> {
    let x = nth(rt, case, by);
    assert!(rt; case.xacts.is_open(x));
    assert!(rt; case.heap.can_change(x, row, &case.xacts));
    case.next = case.next.wrapping_add(1);
    case.heap
        .change(rt.alloc(), x, row, case.next, values, &case.xacts)?;
    Ok(())
}

fn end(rt: &impl Abort, xacts: &mut Xacts, x: Xact, commits: bool) {
    assert!(rt; xacts.is_open(x));
    if commits {
        xacts.finish(x, Fate::Committed);
    } else {
        xacts.finish(x, Fate::Aborted);
    }
}

fn perform(rt: &(impl Abort + AllocGlobal), case: &mut Case, act: Act) -> Result<(), Fail> {
    match act {
        Act::Puts(by, row, number) => put(rt, case, by, row, &[number]),
        Act::Changes(by, row, number) => {
            let values = row_of_numbers(rt.alloc(), &[number])?;
            change(rt, case, by, row, Some(values))
        }
        Act::Removes(by, row) => change(rt, case, by, row, None),
        Act::Commits(by) => {
            let x = nth(rt, case, by);
            end(rt, &mut case.xacts, x, true);
            Ok(())
        }
        Act::Aborts(by) => {
            let x = nth(rt, case, by);
            end(rt, &mut case.xacts, x, false);
            Ok(())
        }
    }
}

fn perform_all(rt: &(impl Abort + AllocGlobal), case: &mut Case, acts: &[Act]) -> Result<(), Fail> {
    for act in acts {
        perform(rt, case, *act)?;
    }
    Ok(())
}

fn look(rt: &(impl Abort + AllocGlobal), case: &Case) -> Result<Snapshot, Fail> {
    let x = nth(rt, case, 0);
    Ok(case.xacts.snapshot(rt.alloc(), x)?)
}

// A column, with what older rows have there.
fn slot(alloc: Global, text: &str, added: Value, dropped: bool) -> Result<Slot, NoMemory> {
    Ok(Slot {
        name: Name::new(alloc, text)?,
        kind: Kind::Bigint,
        default: Value::Null,
        added,
        not_null: false,
        own: true,
        dropped,
    })
}

fn one_column(alloc: Global) -> Result<Shape, NoMemory> {
    Shape::new(alloc).add_column(alloc, slot(alloc, "a", Value::Null, false)?)
}

fn part_in<L: Ledger>(
    alloc: Global,
    reading: &mut Reading,
    case: &Case,
    end: u32,
    up_to: u32,
    blank: Blank,
) -> Result<Read, NoMemory>
    requires end { end ≤ length case.now.heap }
    requires name { blank.name ≡ L.name }
    requires parts { blank.parts ≡ L.parts }
    requires some { 0 < blank.parts }
{
    let mut steps = Steps::<L>::new(blank);
    reading.next(alloc, &case.heap, &case.xacts, end, up_to, &mut steps)
}

// One part of a reading, whose steps nobody counts.
fn part(
    alloc: Global,
    reading: &mut Reading,
    case: &Case,
    end: u32,
    up_to: u32,
) -> Result<Read, NoMemory>
    requires end { end ≤ length case.now.heap }
{
    part_in::<Brand>(alloc, reading, case, end, up_to, Blank::new(1))
}

// Reads on to the end, and counts the parts.
fn read_on(
    rt: &(impl Abort + AllocGlobal),
    reading: &mut Reading,
    case: &Case,
    end: u32,
    up_to: u32,
) -> Result<u32, Fail> {
    assert!(rt; end <= case.heap.len());
    let mut parts = 0u32;
    for _ in 0..1000 {
        parts = parts.wrapping_add(1);
        if part(rt.alloc(), reading, case, end, up_to)? == Read::Done {
            return Ok(parts);
        }
    }
    assert!(rt; false);
    Ok(parts)
}

fn number_of(value: &Value) -> Option<i64> {
    match value {
        Value::Int(number) => Some(*number),
        _ => None,
    }
}

// The values of all rows, one after another.
fn numbers_of(
    rt: &(impl Abort + AllocGlobal),
    rows: &RowList,
    width: usize,
) -> Result<Vec<Option<i64>>, Fail> {
    let mut numbers = Vec::new(rt.alloc());
    for row in rows.as_slice() {
        assert_eq!(rt; row.len(), width);
        for value in row.as_slice() {
            numbers.push(number_of(value))?;
        }
    }
    Ok(numbers)
}

fn check_rows(
    rt: &(impl Abort + AllocGlobal),
    rows: &RowList,
    width: usize,
    wanted: &[Option<i64>],
) -> Result<(), Fail> {
    let numbers = numbers_of(rt, rows, width)?;
    assert!(rt; numbers.as_slice() == wanted);
    Ok(())
}

fn check_numbers(
    rt: &(impl Abort + AllocGlobal),
    reading: &mut Reading,
    width: usize,
    wanted: &[Option<i64>],
) -> Result<(), Fail> {
    let copies = reading.rows(rt.alloc())?;
    check_rows(rt, &copies, width, wanted)?;
    let rows = reading.take_rows(rt.alloc())?;
    check_rows(rt, &rows, width, wanted)?;
    let none = reading.rows(rt.alloc())?;
    assert!(rt; none.is_empty());
    Ok(())
}

// How many parts a reading takes.
fn parts_of(count: u32, up_to: u32) -> u32 {
    if up_to < 2 {
        return count.max(1);
    }
    let mut parts = 1u32;
    let mut read = up_to;
    for _ in 0..count {
        if read >= count {
            return parts;
        }
        parts = parts.wrapping_add(1);
        read = read.saturating_add(up_to);
    }
    parts
}

// What is done before the snapshot and after it, and the rows that are found, whatever the parts.
fn check(
    rt: &(impl Abort + AllocGlobal),
    before: &[Act],
    after: &[Act],
    wanted: &[Option<i64>],
) -> Result<(), Fail> {
    let mut case = new_case(rt)?;
    let shape = one_column(rt.alloc())?;
    perform_all(rt, &mut case, before)?;
    let snapshot = look(rt, &case)?;
    perform_all(rt, &mut case, after)?;
    let end = case.heap.len();
    for up_to in [0, 1, 2, 64] {
        let mut reading = Reading::new(rt.alloc(), &shape, &snapshot)?;
        let parts = read_on(rt, &mut reading, &case, end, up_to)?;
        assert_eq!(rt; parts, parts_of(end, up_to));
        check_numbers(rt, &mut reading, 1, wanted)?;
    }
    Ok(())
}

#[test]
fn rows_of_transactions(rt: HostRuntime) -> Result<(), Fail> {
    use Act::*;
    let seen = [Some(50)];
    check(&rt, &[], &[], &[])?;
    check(&rt, &[Puts(0, 5, 50)], &[], &seen)?;
    check(&rt, &[Puts(1, 5, 50)], &[], &[])?;
    check(&rt, &[Puts(1, 5, 50), Aborts(1)], &[], &[])?;
    check(&rt, &[Puts(1, 5, 50), Commits(1)], &[], &seen)?;
    check(&rt, &[Puts(1, 5, 50)], &[Commits(1)], &[])
}

#[test]
fn removed_rows(rt: HostRuntime) -> Result<(), Fail> {
    use Act::*;
    let seen = [Some(50)];
    let there = [Puts(1, 5, 50), Commits(1)];
    check(&rt, &there, &[Removes(2, 5), Commits(2)], &seen)?;
    check(&rt, &there, &[Removes(0, 5)], &[])?;
    let open = [Puts(1, 5, 50), Commits(1), Removes(2, 5)];
    check(&rt, &open, &[], &seen)?;
    check(&rt, &open, &[Commits(2)], &seen)?;
    check(&rt, &open, &[Aborts(2)], &seen)?;
    let gone = [Puts(1, 5, 50), Commits(1), Removes(2, 5), Commits(2)];
    check(&rt, &gone, &[], &[])
}

#[test]
fn rows_by_number(rt: HostRuntime) -> Result<(), Fail> {
    use Act::*;
    let turned = [Puts(0, 9, 90), Puts(0, 3, 30), Puts(0, 5, 50)];
    let wanted = [Some(30), Some(50), Some(90)];
    check(&rt, &turned, &[], &wanted)?;
    let changed = [
        Puts(1, 5, 50),
        Puts(1, 6, 60),
        Commits(1),
        Changes(2, 5, 51),
    ];
    check(&rt, &changed, &[Commits(2)], &[Some(50), Some(60)])?;
    check(
        &rt,
        &turned,
        &[Changes(0, 3, 31)],
        &[Some(31), Some(50), Some(90)],
    )
}

// Others change rows and end between the parts of a reading.
#[test]
fn changes_between_parts(rt: HostRuntime) -> Result<(), Fail> {
    use Act::*;
    let mut case = new_case(&rt)?;
    let shape = one_column(rt.alloc())?;
    let acts = [
        Puts(1, 1, 10),
        Puts(1, 2, 20),
        Puts(1, 3, 30),
        Commits(1),
        Puts(2, 4, 40),
    ];
    perform_all(&rt, &mut case, &acts)?;
    let snapshot = look(&rt, &case)?;
    let end = case.heap.len();
    let mut reading = Reading::new(rt.alloc(), &shape, &snapshot)?;
    assert!(rt; end <= case.heap.len());
    let read = part(rt.alloc(), &mut reading, &case, end, 1)?;
    assert!(rt; read == Read::More);
    let more = [
        Changes(2, 1, 11),
        Removes(2, 2),
        Changes(2, 3, 31),
        Puts(2, 5, 50),
    ];
    perform_all(&rt, &mut case, &more)?;
    assert!(rt; end <= case.heap.len());
    let read = part(rt.alloc(), &mut reading, &case, end, 1)?;
    assert!(rt; read == Read::More);
    perform_all(&rt, &mut case, &[Commits(2)])?;
    read_on(&rt, &mut reading, &case, end, 64)?;
    let wanted = [Some(10), Some(20), Some(30)];
    check_numbers(&rt, &mut reading, 1, &wanted)
}

// a was dropped, b is stored, and c was added later, with 7 in older rows.
fn altered(alloc: Global) -> Result<Shape, NoMemory> {
    Shape::new(alloc)
        .add_column(alloc, slot(alloc, "a", Value::Null, true)?)?
        .add_column(alloc, slot(alloc, "b", Value::Null, false)?)?
        .add_column(alloc, slot(alloc, "c", Value::Int(7), false)?)
}

// A table of its family, with the columns in other slots, and one more.
fn other(alloc: Global) -> Result<Shape, NoMemory> {
    Shape::new(alloc)
        .add_column(alloc, slot(alloc, "c", Value::Null, false)?)?
        .add_column(alloc, slot(alloc, "d", Value::Null, false)?)?
        .add_column(alloc, slot(alloc, "b", Value::Int(8), false)?)
}

#[test]
fn columns_of_shapes(rt: HostRuntime) -> Result<(), Fail> {
    let mut case = new_case(&rt)?;
    put(&rt, &mut case, 0, 1, &[1, 2])?;
    put(&rt, &mut case, 0, 0, &[3, 4, 5])?;
    let snapshot = look(&rt, &case)?;
    let end = case.heap.len();
    let mut reading = Reading::new(rt.alloc(), &altered(rt.alloc())?, &snapshot)?;
    let names = reading.names();
    assert_eq!(rt; names.len(), 2);
    let last = Name::new(rt.alloc(), "c")?;
    assert!(rt; names.get(1) == Some(&last));
    read_on(&rt, &mut reading, &case, end, 64)?;
    let wanted = [Some(4), Some(5), Some(2), Some(7)];
    check_numbers(&rt, &mut reading, 2, &wanted)
}

#[test]
fn tables_of_a_family(rt: HostRuntime) -> Result<(), Fail> {
    let mut first = new_case(&rt)?;
    put(&rt, &mut first, 0, 9, &[1, 2])?;
    let mut second = new_case(&rt)?;
    put(&rt, &mut second, 0, 6, &[10, 20, 30])?;
    put(&rt, &mut second, 0, 5, &[40, 50])?;
    let snapshot = look(&rt, &first)?;
    let mut reading = Reading::new(rt.alloc(), &altered(rt.alloc())?, &snapshot)?;
    read_on(&rt, &mut reading, &first, 1, 1)?;
    reading.onto(rt.alloc(), &other(rt.alloc())?)?;
    read_on(&rt, &mut reading, &second, 2, 1)?;
    reading.onto(rt.alloc(), &one_column(rt.alloc())?)?;
    read_on(&rt, &mut reading, &first, 1, 1)?;
    let wanted = [
        Some(2),
        Some(7),
        Some(8),
        Some(40),
        Some(30),
        Some(10),
        None,
        None,
    ];
    check_numbers(&rt, &mut reading, 2, &wanted)
}

ghost use Rattle.std.specs.Prelude.{ℕ, ◌≡◌, [], ◌∷◌, None, fold, nat_eq, if◌then◌else◌, OnOk, OnErr, IsTrue};
ghost use Rattle.std.specs.List.{list_any};
ghost use Rattle.al_xacts.specs.Marks.{marks_in, covers, with_mark, without_marks, ChangesMarks};
ghost use Rattle.al_xacts.specs.Least.{lesser};

use crate::Mark;
use crate::in_way::{any_covers, least_in_way};
use crate::row_marks::RowMarks;
use al_modes::RowMode;
use al_values::NoMemory;
use std::alloc::Global;
use std::collections::HashMap;

/// The least transaction whose mark on a row stops a request.
pub fn least_on(marks: &HashMap<u32, RowMarks>, x: u32, row: u32, mode: RowMode) -> Option<u32>
    ensures { result ≡ fold (lesser x mode) None (marks_in marks.now.entries row) }
{
    match marks.get(&row) {
        Some(list) => least_in_way(x, mode, list.as_slice()),
        None => None,
    }
}

/// Whether a mark on a row is at least as strong as a new one of the same transaction.
pub fn is_covered(marks: &HashMap<u32, RowMarks>, row: u32, mark: Mark) -> bool
    ensures { result ≡ list_any (covers mark) (marks_in marks.now.entries row) }
{
    match marks.get(&row) {
        Some(list) => any_covers(mark, list.as_slice()),
        None => false,
    }
}

/// Keeps a mark on a row.
pub fn add_mark(
    alloc: Global,
    marks: &mut HashMap<u32, RowMarks>,
    row: u32,
    mark: Mark,
) -> Result<(), NoMemory>
    ensures ok { OnOk result (ChangesMarks marks.old.entries marks.new.entries row (with_mark mark)) }
    ensures err { OnErr result (marks.new.entries ≡ marks.old.entries) }
{
    match marks.get_mut(&row) {
        Some(list) => list.add(mark),
        None => {
            let mut list = RowMarks::new(alloc);
            list.add(mark)?;
            marks.insert(row, list)?;
            Ok(())
        }
    }
}

/// Drops the marks of a transaction on a row, and says whether no mark is left of some.
fn strip(marks: &mut HashMap<u32, RowMarks>, row: u32, x: u32) -> bool
    ensures marks { ChangesMarks marks.old.entries marks.new.entries row (without_marks x) }
    ensures empty { IsTrue result → marks_in marks.new.entries row ≡ [] }
{
    match marks.get_mut(&row) {
        Some(list) => {
            list.drop_of(x);
            list.is_empty()
        }
        None => false,
    }
}

/// Drops the marks of a transaction on a row.
fn drop_on(marks: &mut HashMap<u32, RowMarks>, row: u32, x: u32)
    ensures { ChangesMarks marks.old.entries marks.new.entries row (without_marks x) }
{
    if strip(marks, row, x) {
        marks.remove(&row);
    }
}

/// Drops the marks of a transaction on rows.
pub fn drop_marks(marks: &mut HashMap<u32, RowMarks>, rows: &[u32], x: u32)
    ensures { (row : ℕ) → marks_in marks.new.entries row ≡ (if list_any (nat_eq row) rows.now then without_marks x (marks_in marks.old.entries row) else marks_in marks.old.entries row) }
{
    for row in rows {
        drop_on(marks, *row, x);
    }
}

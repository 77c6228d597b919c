ghost use Rattle.std.specs.Prelude.{◌≡◌, [], ◌≤◌, ◌==◌, not, length, nat_le, nat_lt, position, if◌then◌else◌, OnOk, OnErr};
ghost use Rattle.std.specs.List.{position_or_len};
ghost use Rattle.al_tree.specs.Ascending.{Ascends, is_among, put, without};
ghost use Rattle.al_tree.specs.Lines.{AllAscend, has_line, put_line, tables_of, with_children};

use al_values::{IdList, ListOf, NoMemory};
use std::alloc::Global;
use std::mem;

/// A table that has a parent or a child.
#[derive(Debug, Drop)]
pub struct Line {
    /// The table.
    pub table: u32,
    /// Its children, by ascending number.
    pub children: IdList,
}

/// Whether a number isn't above another.
fn is_up_to(other: u32, number: u32) -> bool
    ensures { result ≡ nat_le other number }
{
    other <= number
}

/// The place of the first line of a table above one, or the length, by bisection.
fn place_for(table: u32, lines: &[Line]) -> usize
    requires { Ascends (tables_of lines.now) }
    ensures value { result ≡ position_or_len (λ line. nat_lt table line.table) lines.now }
    ensures within { result ≤ length lines.now }
{
    lines.partition_point(|line| is_up_to(line.table, table))
}

/// The place of a table's line, where it has one.
pub(crate) fn line_of(table: u32, lines: &[Line]) -> Option<usize>
    requires { Ascends (tables_of lines.now) }
    ensures { result ≡ position (λ line. line.table == table) lines.now }
{
    let above = place_for(table, lines);
    if above == 0 {
        return None;
    }
    let at = above - 1;
    if lines[at].table == table {
        Some(at)
    } else {
        None
    }
}

/// Gives a table a line, where it has none.
pub(crate) fn add_line(alloc: Global, lines: &mut Vec<Line>, table: u32) -> Result<(), NoMemory>
    requires { Ascends (tables_of lines.old.items) }
    ensures ok { OnOk result (lines.new.items ≡ (if has_line lines.old.items table then lines.old.items else put_line (record { table = table; children = [] }) lines.old.items)) }
    ensures err { OnErr result (lines.new.items ≡ lines.old.items) }
{
    if line_of(table, lines).is_some() {
        return Ok(());
    }
    let line = Line {
        table,
        children: ListOf::new(alloc),
    };
    let at = place_for(table, lines);
    lines.insert(at, line)?;
    Ok(())
}

/// The place of the first number above one, or the length, by bisection.
fn number_place(number: u32, numbers: &[u32]) -> usize
    requires { Ascends numbers.now }
    ensures value { result ≡ position_or_len (λ other. nat_lt number other) numbers.now }
    ensures within { result ≤ length numbers.now }
{
    numbers.partition_point(|other| is_up_to(*other, number))
}

/// A number more in a vector.
pub(crate) fn put(numbers: &mut Vec<u32>, number: u32) -> Result<(), NoMemory>
    requires { Ascends numbers.old.items }
    ensures ok { OnOk result (numbers.new.items ≡ put number numbers.old.items) }
    ensures err { OnErr result (numbers.new.items ≡ numbers.old.items) }
{
    let at = number_place(number, numbers);
    numbers.insert(at, number)?;
    Ok(())
}

/// Whether a number is another than one.
pub(crate) fn is_other(number: u32, other: u32) -> bool
    ensures { result ≡ not (other == number) }
{
    other != number
}

/// The place of a number, where it is there, by bisection.
fn place_of(number: u32, numbers: &[u32]) -> Option<usize>
    requires { Ascends numbers.now }
    ensures { result ≡ position (λ other. other == number) numbers.now }
{
    let above = number_place(number, numbers);
    if above == 0 {
        return None;
    }
    let at = above - 1;
    if numbers[at] == number {
        Some(at)
    } else {
        None
    }
}

/// All but one number.
fn cut(numbers: &mut Vec<u32>, number: u32)
    requires { Ascends numbers.old.items }
    ensures { numbers.new.items ≡ without number numbers.old.items }
{
    if let Some(at) = place_of(number, numbers) {
        numbers.remove(at);
    }
}

/// A child more.
fn put_child(alloc: Global, children: &mut IdList, child: u32) -> Result<(), NoMemory>
    requires { Ascends children.old }
    ensures ok { OnOk result (children.new ≡ put child children.old) }
    ensures err { OnErr result (children.new ≡ children.old) }
{
    let mut numbers = mem::replace(children, ListOf::new(alloc)).into_vec();
    let done = put(&mut numbers, child);
    *children = ListOf::from_vec(numbers);
    done
}

/// A child less.
fn cut_child(alloc: Global, children: &mut IdList, child: u32)
    requires { Ascends children.old }
    ensures { children.new ≡ without child children.old }
{
    let mut numbers = mem::replace(children, ListOf::new(alloc)).into_vec();
    cut(&mut numbers, child);
    *children = ListOf::from_vec(numbers);
}

/// Gives a table that has a line a child more.
pub(crate) fn add_child(
    alloc: Global,
    lines: &mut Vec<Line>,
    child: u32,
    parent: u32,
) -> Result<(), NoMemory>
    requires tables { Ascends (tables_of lines.old.items) }
    requires children { AllAscend lines.old.items }
    ensures ok { OnOk result (lines.new.items ≡ with_children parent (put child) lines.old.items) }
    ensures err { OnErr result (lines.new.items ≡ lines.old.items) }
{
    match line_of(parent, lines) {
        Some(at) => put_child(alloc, &mut lines[at].children, child),
        None => Ok(()),
    }
}

/// Takes a child from a table.
pub(crate) fn cut_line(alloc: Global, lines: &mut Vec<Line>, child: u32, parent: u32)
    requires tables { Ascends (tables_of lines.old.items) }
    requires children { AllAscend lines.old.items }
    ensures { lines.new.items ≡ with_children parent (without child) lines.old.items }
{
    if let Some(at) = line_of(parent, lines) {
        cut_child(alloc, &mut lines[at].children, child);
    }
}

/// Whether a number is among others, by bisection.
pub(crate) fn is_among(number: u32, numbers: &[u32]) -> bool
    requires { Ascends numbers.now }
    ensures { result ≡ is_among number numbers.now }
{
    let above = number_place(number, numbers);
    if above == 0 {
        return false;
    }
    numbers[above - 1] == number
}

ghost use Rattle.std.specs.Prelude.{◌≡◌, ℕ, [], ◌∷◌, ◌≤◌, ◌↔◌, true, IfOk, OnOk, fold};
ghost use Rattle.al_tree.specs.Links.{Descends};
ghost use Rattle.al_tree.specs.Ascending.{Ascends, is_among, without};
ghost use Rattle.al_tree.specs.Lines.{AreLines, links_in, children_in};
ghost use Rattle.al_tree.specs.Met.{found, work};

use crate::Line;
use crate::line::{is_among, is_other, line_of, put};
use al_values::{IdList, ListOf, NoMemory};
use std::alloc::Global;

/// Comes to a table; where it wasn't met, its children are to be looked at.
fn find(table: u32, met: &mut Vec<u32>, todo: &mut Vec<u32>) -> Result<(), NoMemory>
    requires { Ascends met.old.items }
    ensures ok { OnOk result (found (record { met = met.old.items; todo = todo.old.items }) table ≡ record { met = met.new.items; todo = todo.new.items }) }
    ensures ascends { OnOk result (Ascends met.new.items) }
{
    if !is_among(table, met) {
        put(met, table)?;
        todo.push(table)?;
    }
    Ok(())
}

/// Comes to each of some tables.
fn find_each(tables: &[u32], met: &mut Vec<u32>, todo: &mut Vec<u32>) -> Result<(), NoMemory>
    requires { Ascends met.old.items }
    ensures ok { OnOk result (fold found (record { met = met.old.items; todo = todo.old.items }) tables.now ≡ record { met = met.new.items; todo = todo.new.items }) }
    ensures ascends { OnOk result (Ascends met.new.items) }
{
    for table in tables {
        find(*table, met, todo)?;
    }
    Ok(())
}

/// Comes to the children of a table.
fn find_children(
    table: u32,
    lines: &[Line],
    met: &mut Vec<u32>,
    todo: &mut Vec<u32>,
) -> Result<(), NoMemory>
    requires lines { AreLines lines.now }
    requires ascends { Ascends met.old.items }
    ensures ok { OnOk result (fold found (record { met = met.old.items; todo = todo.old.items }) (children_in lines.now table) ≡ record { met = met.new.items; todo = todo.new.items }) }
    ensures ascends { OnOk result (Ascends met.new.items) }
    ensures work { OnOk result (work lines.now met.new.items todo.new.items ≤ work lines.now met.old.items todo.old.items) }
{
    match line_of(table, lines) {
        Some(at) => find_each(lines[at].children.as_slice(), met, todo),
        None => Ok(()),
    }
}

/// All that descends from a table, by ascending number. It takes the time of these.
pub(crate) fn descendants(alloc: Global, lines: &[Line], table: u32) -> Result<Vec<u32>, NoMemory>
    requires { AreLines lines.now }
    ensures ascends { IfOk result (λ met. Ascends met.items) }
    ensures met { IfOk result (λ met. (t : ℕ) → (is_among t met.items ≡ true) ↔ Descends (links_in lines.now) table t) }
{
    let mut met = Vec::new(alloc);
    let mut todo = Vec::new(alloc);
    todo.push(table)?;
    while let Some(next) = todo.pop() {
        find_children(next, lines, &mut met, &mut todo)?;
    }
    Ok(met)
}

/// A table, then the others that were met.
pub(crate) fn listed(alloc: Global, table: u32, met: &[u32]) -> Result<IdList, NoMemory>
    ensures { IfOk result (λ family. family ≡ table ∷ without table met.now) }
{
    let mut family = ListOf::new(alloc);
    family.push(table)?;
    for other in met {
        if is_other(table, *other) {
            family.push(*other)?;
        }
    }
    Ok(family)
}

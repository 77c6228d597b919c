ghost use Rattle.std.specs.Prelude.{◌≡◌, IfOk};
ghost use Rattle.al_schema.specs.Constraints.{has_slot, link_involves, rule_involves, involves, rule_renamed};

use crate::naming::names;
use crate::renaming::renamed;
use al_expr::Expr;
use al_values::{Copied, IdList, ListOf, Name, NoMemory};
use std::alloc::Global;

/// A foreign key's columns and the columns that they refer to, by slot (5.4.5).
#[derive(Debug, Drop)]
pub struct Link {
    /// The constraint's name.
    pub name: Name,
    /// The table that has the foreign key.
    pub child: u32,
    /// Its columns.
    pub child_columns: IdList,
    /// The table that they refer to.
    pub parent: u32,
    /// The columns there, each beside its own.
    pub parent_columns: IdList,
}

/// What a constraint asks.
#[derive(Debug, Drop)]
pub enum Rule {
    /// An expression that is true or null on each row (5.4.1); whether children don't inherit it.
    Check(Expr, bool),
    /// No two rows with the same values in these slots (5.4.3).
    Unique(IdList),
    /// The same, of the primary key (5.4.4).
    Primary(IdList),
    /// A row that is referred to (5.4.5).
    Foreign(Link),
}

/// A constraint. It is told apart by what made it, its table then and its first name.
#[derive(Debug, Drop)]
pub struct Constraint {
    /// The entry that made it.
    pub maker: u32,
    /// Its table.
    pub table: u32,
    /// Its first name.
    pub first_name: Name,
    /// Its name.
    pub name: Name,
    /// What it asks.
    pub rule: Rule,
    /// Whether all rows are known to keep it. One that isn't valid is asked of new rows alone.
    pub valid: bool,
    /// Whether it was defined here by itself, and not only inherited (5.10).
    pub own: bool,
}

/// Constraints, one after another.
pub type ConstraintList = ListOf<Constraint>;

impl Copied for Link {
    fn copied(&self, alloc: Global) -> Result<Link, NoMemory> {
        Ok(Link {
            name: self.name.copied(alloc)?,
            child: self.child,
            child_columns: copy_of_slots(alloc, self.child_columns.as_slice())?,
            parent: self.parent,
            parent_columns: copy_of_slots(alloc, self.parent_columns.as_slice())?,
        })
    }
}

impl Copied for Rule {
    fn copied(&self, alloc: Global) -> Result<Rule, NoMemory> {
        Ok(match self {
            Rule::Check(expr, no_inherit) => Rule::Check(expr.copied(alloc)?, *no_inherit),
            Rule::Unique(slots) => Rule::Unique(copy_of_slots(alloc, slots.as_slice())?),
            Rule::Primary(slots) => Rule::Primary(copy_of_slots(alloc, slots.as_slice())?),
            Rule::Foreign(link) => Rule::Foreign(link.copied(alloc)?),
        })
    }
}

impl Copied for Constraint {
    fn copied(&self, alloc: Global) -> Result<Constraint, NoMemory> {
        Ok(Constraint {
            maker: self.maker,
            table: self.table,
            first_name: self.first_name.copied(alloc)?,
            name: self.name.copied(alloc)?,
            rule: self.rule.copied(alloc)?,
            valid: self.valid,
            own: self.own,
        })
    }
}

pub(crate) fn copy_of_slots(alloc: Global, slots: &[u32]) -> Result<IdList, NoMemory>
    ensures { IfOk result (λ copy. copy ≡ slots.now) }
{
    Ok(ListOf::from_vec(Vec::from_slice(alloc, slots)?))
}

/// Whether a slot is among others.
fn has_slot(slot: u32, slots: &[u32]) -> bool
    ensures { result ≡ has_slot slot slots.now }
{
    slots.iter().any(|other| *other == slot)
}

fn link_involves(slot: u32, link: &Link) -> bool
    ensures { result ≡ link_involves slot link.now }
{
    has_slot(slot, link.child_columns.as_slice())
        || (link.child == link.parent && has_slot(slot, link.parent_columns.as_slice()))
}

fn rule_involves(slot: u32, name: &Name, rule: &Rule) -> bool
    ensures { result ≡ rule_involves slot name.now rule.now }
{
    match rule {
        Rule::Check(expr, _) => names(expr, name),
        Rule::Unique(slots) | Rule::Primary(slots) => has_slot(slot, slots.as_slice()),
        Rule::Foreign(link) => link_involves(slot, link),
    }
}

/// Whether a constraint of a table involves the column of a slot, which has this name.
pub(crate) fn involves(slot: u32, name: &Name, constraint: &Constraint) -> bool
    ensures { result ≡ involves slot name.now constraint.now }
{
    rule_involves(slot, name, &constraint.rule)
}

/// A rule with another name for a column.
pub(crate) fn rule_renamed(
    alloc: Global,
    from: &Name,
    to: &Name,
    rule: &Rule,
) -> Result<Rule, NoMemory>
    ensures { IfOk result (λ copy. copy ≡ rule_renamed from.now to.now rule.now) }
{
    match rule {
        Rule::Check(expr, no_inherit) => {
            Ok(Rule::Check(renamed(alloc, from, to, expr)?, *no_inherit))
        }
        Rule::Unique(slots) => Ok(Rule::Unique(copy_of_slots(alloc, slots.as_slice())?)),
        Rule::Primary(slots) => Ok(Rule::Primary(copy_of_slots(alloc, slots.as_slice())?)),
        Rule::Foreign(link) => Ok(Rule::Foreign(link.copied(alloc)?)),
    }
}

ghost use Rattle.std.specs.Prelude.{◌≡◌, ◌<◌, ◌≤◌, [], ◌∷◌, ◌++◌, length, ◌^◌, IfOk, IfSome, OnOk, OnErr};
ghost use Rattle.std.specs.List.{remove};
ghost use Rattle.al_schema.specs.Slots.{columns_of, row_by, slot_named, name_at, at_slot, as_dropped, renamed_to, retyped, with_default, with_not_null, with_own};
ghost use Rattle.al_schema.specs.Constraints.{apart_from, involving, constraint_named, column_renamed, with_rule_renamed, at_constraint, called, as_valid, marked_own};

use crate::constraint::{involves, rule_renamed};
use crate::rows::{columns_of, row_by};
use crate::{Constraint, Slot};
use al_expr::ColumnList;
use al_values::{Copied, IdList, Kind, ListOf, Name, NoMemory, Row, Value};
use std::alloc::Global;
use std::marker::Model;

// The most slots, and the most constraints, that a number of 32 bits can name.
const MOST: usize = 4_294_967_295;

/// What a table is like: its slots, and its constraints. Contracts see both lists.
///
/// A method that takes the shape itself and finds no memory gives it up.
#[derive(Debug, Drop)]
pub struct Shape {
    slots: Vec<Slot>,
    constraints: Vec<Constraint>,
    columns: ColumnList,
}

impl Model for Shape {
    ghost use Rattle.std.specs.Prelude.{◌≡◌, ◌<◌, ◌^◌, length};
    ghost use Rattle.al_schema.specs.Layout.{Layout};
    ghost use Rattle.al_schema.specs.Slots.{columns_of};
    ghost use Rattle.al_expr.specs.contracts.tree.Expr as e;
    ghost use Rattle.std.specs.Coded.{codes};

    ghost Value = { Layout };

    ghost coded = { Prim.hlevel (codes, e.the_row.coded) };

    ghost view = { λ s. record { slots = s.slots.items; constraints = s.constraints.items } };

    ghost invariant = { λ s. (s.columns ≡ columns_of s.slots.items) × (length s.slots.items < 2 ^ 32) × (length s.constraints.items < 2 ^ 32) };
}

impl Shape {
    /// No slot and no constraint. It takes no memory.
    pub fn new(alloc: Global) -> Shape
        ensures { result ≡ record { slots = []; constraints = [] } }
    {
        Shape {
            slots: Vec::new(alloc),
            constraints: Vec::new(alloc),
            columns: ListOf::new(alloc),
        }
    }

    // A shape of these slots and constraints.
    fn of(alloc: Global, slots: Vec<Slot>, constraints: Vec<Constraint>) -> Result<Shape, NoMemory>
        requires slots { length slots.items < 2 ^ 32 }
        requires constraints { length constraints.items < 2 ^ 32 }
        ensures { IfOk result (λ shape. shape ≡ record { slots = slots.items; constraints = constraints.items }) }
    {
        let columns = columns_of(alloc, &slots)?;
        Ok(Shape {
            slots,
            constraints,
            columns,
        })
    }

    /// The slots, from the first on, also those that were dropped.
    pub fn slots(&self) -> &[Slot]
        ensures { result.now ≡ self.now.slots }
    {
        &self.slots
    }

    /// The constraints, in the order in which they were added.
    pub fn constraints(&self) -> &[Constraint]
        ensures { result.now ≡ self.now.constraints }
    {
        &self.constraints
    }

    /// The columns: the slots that aren't dropped, in order.
    pub fn columns(&self) -> &ColumnList
        ensures { result.now ≡ columns_of self.now.slots }
    {
        let _slots = &self.slots;
        &self.columns
    }

    /// The columns' values of a row version with these stored values. A slot past their end is a column that was
    /// added later, and has its added value.
    ///
    /// # Errors
    ///
    /// Want of memory.
    pub fn row_of(&self, alloc: Global, stored: &Row) -> Result<Row, NoMemory>
        requires { length stored.now ≤ length self.now.slots }
        ensures value { IfOk result (λ row. row ≡ row_by self.now.slots stored.now) }
        ensures width { IfOk result (λ row. length row ≡ length (columns_of self.now.slots)) }
    {
        row_by(alloc, &self.slots, stored.as_slice())
    }

    /// The slot of the column of a name, where there is one.
    pub fn slot_of(&self, name: &Name) -> Option<u32>
        ensures { result ≡ slot_named self.now.slots name.now }
    {
        match place_of_column(&self.slots, name) {
            Some(at) => Some(at as u32),
            None => None,
        }
    }

    /// The shape with a column behind the others.
    ///
    /// # Errors
    ///
    /// Want of memory.
    pub fn add_column(self, alloc: Global, slot: Slot) -> Result<Shape, NoMemory>
        ensures { IfOk result (λ shape. shape ≡ record self { slots = self.slots ++ slot ∷ [] }) }
    {
        let Shape {
            mut slots,
            constraints,
            ..
        } = self;
        if slots.len() >= MOST {
            return Err(NoMemory);
        }
        slots.push(slot)?;
        Shape::of(alloc, slots, constraints)
    }

    /// The shape without a column, and without the constraints that involve it. Its slot stays, as dropped.
    ///
    /// # Errors
    ///
    /// Want of memory.
    pub fn drop_column(self, alloc: Global, slot: u32) -> Result<Shape, NoMemory>
        requires { slot < length self.slots }
        ensures { IfOk result (λ shape. shape ≡ record { slots = at_slot slot as_dropped self.slots; constraints = apart_from slot (name_at self.slots slot) self.constraints }) }
    {
        let Shape {
            mut slots,
            mut constraints,
            ..
        } = self;
        keep_apart(&mut constraints, slot, &slots[slot as usize].name);
        slots[slot as usize].dropped = true;
        Shape::of(alloc, slots, constraints)
    }

    /// The shape with another name for a column, in its CHECKs too.
    ///
    /// # Errors
    ///
    /// Want of memory.
    pub fn rename_column(self, alloc: Global, slot: u32, name: Name) -> Result<Shape, NoMemory>
        requires { slot < length self.slots }
        ensures { IfOk result (λ shape. shape ≡ record { slots = at_slot slot (renamed_to name) self.slots; constraints = column_renamed (name_at self.slots slot) name self.constraints }) }
    {
        let Shape {
            mut slots,
            mut constraints,
            ..
        } = self;
        rename_in_rules(alloc, &mut constraints, &slots[slot as usize].name, &name)?;
        slots[slot as usize].name = name;
        Shape::of(alloc, slots, constraints)
    }

    /// The shape with another kind for a column.
    ///
    /// # Errors
    ///
    /// Want of memory.
    pub fn retype_column(self, alloc: Global, slot: u32, kind: Kind) -> Result<Shape, NoMemory>
        requires { slot < length self.slots }
        ensures { IfOk result (λ shape. shape ≡ record self { slots = at_slot slot (retyped kind) self.slots }) }
    {
        let Shape {
            mut slots,
            constraints,
            ..
        } = self;
        slots[slot as usize].kind = kind;
        Shape::of(alloc, slots, constraints)
    }

    /// Sets what a new row has in a slot where it gives no value; Null drops the default. Rows that are stored stay what
    /// they are.
    pub fn set_default(&mut self, slot: u32, value: Value)
        requires { slot < length self.old.slots }
        ensures { self.new ≡ record self.old { slots = at_slot slot (with_default value) self.old.slots } }
    {
        self.slots[slot as usize].default = value;
    }

    /// Marks whether a column takes no null.
    pub fn set_not_null(&mut self, slot: u32, mark: bool)
        requires { slot < length self.old.slots }
        ensures { self.new ≡ record self.old { slots = at_slot slot (with_not_null mark) self.old.slots } }
    {
        self.slots[slot as usize].not_null = mark;
    }

    /// Marks whether a column was defined here by itself.
    pub fn set_own(&mut self, slot: u32, mark: bool)
        requires { slot < length self.old.slots }
        ensures { self.new ≡ record self.old { slots = at_slot slot (with_own mark) self.old.slots } }
    {
        self.slots[slot as usize].own = mark;
    }

    /// The place of the constraint of a name, where there is one.
    pub fn constraint_of(&self, name: &Name) -> Option<u32>
        ensures { result ≡ constraint_named self.now.constraints name.now }
    {
        match place_of_constraint(&self.constraints, name) {
            Some(at) => Some(at as u32),
            None => None,
        }
    }

    /// The places of the constraints that involve the column of a slot.
    ///
    /// # Errors
    ///
    /// Want of memory.
    pub fn involving(&self, alloc: Global, slot: u32) -> Result<IdList, NoMemory>
        requires { slot < length self.now.slots }
        ensures { IfOk result (λ places. places ≡ involving 0 slot (name_at self.now.slots slot) self.now.constraints) }
    {
        places_of(
            alloc,
            &self.constraints,
            slot,
            &self.slots[slot as usize].name,
        )
    }

    /// Puts a constraint behind the others.
    ///
    /// # Errors
    ///
    /// Want of memory. Nothing has changed then.
    pub fn add_constraint(&mut self, constraint: Constraint) -> Result<(), NoMemory>
        ensures ok { OnOk result (self.new ≡ record self.old { constraints = self.old.constraints ++ constraint ∷ [] }) }
        ensures err { OnErr result (self.new ≡ self.old) }
    {
        if self.constraints.len() >= MOST {
            return Err(NoMemory);
        }
        self.constraints.push(constraint)?;
        Ok(())
    }

    /// Takes a constraint out.
    pub fn drop_constraint(&mut self, at: u32)
        requires { at < length self.old.constraints }
        ensures { self.new ≡ record self.old { constraints = remove self.old.constraints at } }
    {
        self.constraints.remove(at as usize);
    }

    /// Gives a constraint another name.
    pub fn rename_constraint(&mut self, at: u32, name: Name)
        requires { at < length self.old.constraints }
        ensures { self.new ≡ record self.old { constraints = at_constraint at (called name) self.old.constraints } }
    {
        self.constraints[at as usize].name = name;
    }

    /// Marks a constraint as valid.
    pub fn validate(&mut self, at: u32)
        requires { at < length self.old.constraints }
        ensures { self.new ≡ record self.old { constraints = at_constraint at as_valid self.old.constraints } }
    {
        self.constraints[at as usize].valid = true;
    }

    /// Marks whether a constraint was defined here by itself.
    pub fn set_constraint_own(&mut self, at: u32, mark: bool)
        requires { at < length self.old.constraints }
        ensures { self.new ≡ record self.old { constraints = at_constraint at (marked_own mark) self.old.constraints } }
    {
        self.constraints[at as usize].own = mark;
    }
}

impl Copied for Shape {
    fn copied(&self, alloc: Global) -> Result<Shape, NoMemory> {
        let slots = copies_of(alloc, &self.slots)?;
        let constraints = copies_of(alloc, &self.constraints)?;
        Shape::of(alloc, slots, constraints)
    }
}

fn copies_of<T: Copied>(alloc: Global, items: &[T]) -> Result<Vec<T>, NoMemory>
    ensures { IfOk result (λ copies. copies.items ≡ items.now) }
{
    let mut copies = Vec::with_capacity(alloc, items.len())?;
    for item in items {
        copies.push(item.copied(alloc)?)?;
    }
    Ok(copies)
}

/// The place of the column of a name, where there is one.
fn place_of_column(slots: &[Slot], name: &Name) -> Option<usize>
    ensures value { result ≡ slot_named slots.now name.now }
    ensures within { IfSome result (λ at. at < length slots.now) }
{
    slots
        .iter()
        .position(|slot| !slot.dropped && slot.name == *name)
}

/// The place of the constraint of a name, where there is one.
fn place_of_constraint(constraints: &[Constraint], name: &Name) -> Option<usize>
    ensures value { result ≡ constraint_named constraints.now name.now }
    ensures within { IfSome result (λ at. at < length constraints.now) }
{
    constraints
        .iter()
        .position(|constraint| constraint.name == *name)
}

/// Keeps the constraints that don't involve a column.
fn keep_apart(constraints: &mut Vec<Constraint>, slot: u32, name: &Name)
    ensures { constraints.new.items ≡ apart_from slot name.now constraints.old.items }
{
    constraints.retain(|constraint| !involves(slot, name, constraint));
}

/// The places of the constraints that involve a column.
fn places_of(
    alloc: Global,
    constraints: &[Constraint],
    slot: u32,
    name: &Name,
) -> Result<IdList, NoMemory>
    requires { length constraints.now < 2 ^ 32 }
    ensures { IfOk result (λ places. places ≡ involving 0 slot name.now constraints.now) }
{
    let mut places = ListOf::new(alloc);
    for (at, constraint) in constraints.iter().enumerate() {
        if involves(slot, name, constraint) {
            places.push(at as u32)?;
        }
    }
    Ok(places)
}

/// Renames a column in a constraint's rule.
fn rename_in_rule(
    alloc: Global,
    constraint: &mut Constraint,
    from: &Name,
    to: &Name,
) -> Result<(), NoMemory>
    ensures { OnOk result (constraint.new ≡ with_rule_renamed from.now to.now constraint.old) }
{
    constraint.rule = rule_renamed(alloc, from, to, &constraint.rule)?;
    Ok(())
}

/// Renames a column in each rule.
fn rename_in_rules(
    alloc: Global,
    constraints: &mut Vec<Constraint>,
    from: &Name,
    to: &Name,
) -> Result<(), NoMemory>
    ensures { OnOk result (constraints.new.items ≡ column_renamed from.now to.now constraints.old.items) }
{
    for at in 0..constraints.len() {
        rename_in_rule(alloc, &mut constraints[at], from, to)?;
    }
    Ok(())
}

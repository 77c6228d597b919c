//! The shape of a table: slots for its columns, also for those that were dropped, the values that older rows have in columns that were
//! added later, and its constraints.
#![tactic(auto)]

mod constraint;
mod laws;
mod naming;
mod plan;
mod renaming;
mod rows;
mod shape;
mod slot;

pub use constraint::{Constraint, ConstraintList, Link, Rule};
pub use laws::{added_values_stay, defaults_are_later, drops_lose_one, each_column_has_a_value};
pub use naming::names;
pub use plan::{Broken, Plan, Planned, PlannedList, Source, SourceList, Tested, TestedList, Work};
pub use renaming::renamed;
pub use shape::Shape;
pub use slot::{Slot, SlotList};

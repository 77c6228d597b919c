//! Expressions of SQL on the columns of one row: their trees, the kind of each, and its value.
#![tactic(auto)]

mod arithmetic;
mod binding;
mod bound;
mod bound_rows;
mod column;
mod copying;
mod evaluation;
mod fault;
mod held;
mod kinds;
mod nominal;
mod place;
mod roots;
mod sameness;
mod texts;
mod tree;
mod typing;
mod unplaced;
mod values;

pub use binding::{bind_condition, bind_output, bind_stored};
pub use bound::{Bound, Joint};
pub use bound_rows::{eval_bound, truth_of_bound};
pub use column::{Column, ColumnList};
pub use fault::EvalFault;
pub use kinds::{TypeFault, Typed, is_truth};
pub use place::place_of;
pub use roots::{eval, eval_as, is_assignable, row_fits, truth_of};
pub use sameness::same;
pub use tree::{Arithmetic, Comparison, Expr, Operator, Prefix};
pub use typing::kind_of;
pub use unplaced::without_places;

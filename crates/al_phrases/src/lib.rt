//! The phrases that the statements of SQL share: names, kinds, expressions, definitions of columns, and constraints.
#![tactic(auto)]

mod atoms;
mod chains;
mod clause;
mod columns;
mod constraints;
pub mod kinds;
mod leaves;
mod levels;
mod lexeme;
mod names;
mod ranges;
mod rows;
mod tail;
mod tokens;
mod types;

pub use columns::column_definition;
pub use constraints::{names_in_parens, optional_names, table_constraint};
pub use leaves::{given, starts_among};
pub use levels::{concatenation, expression};
pub use lexeme::{Lexeme, LexemeList};
pub use names::name_list;
pub use tail::Tail;
pub use tokens::{name, starts, word};
pub use types::type_name;

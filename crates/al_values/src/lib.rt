//! Values of SQL with their kinds and conversions, and the small types that every crate names: texts, lists, and the error of a call that finds no
//! memory.
#![tactic(auto)]

mod cant;
mod characters;
mod convert;
mod copied;
mod counts;
mod days;
mod kinds;
mod listed;
mod order;
mod reading;
mod scalar;
mod steps;
#[cfg(test)]
mod tests;
mod text;

pub use cant::{Cant, NoMemory};
pub use characters::count_characters;
pub use convert::{assign, cast};
pub use copied::Copied;
pub use counts::count_of;
pub use kinds::{CastFault, Group, Kind, Tri};
pub use listed::ListOf;
pub use order::compare;
pub use reading::read;
pub use scalar::{Value, print};
pub use steps::Steps;
pub use text::Txt;

/// A name of a table, a column, a session or a step.
pub type Name = Txt;

/// One word of the command line.
pub type Word = Txt;

/// The values of a row, in the order of its table's columns.
pub type Row = ListOf<Value>;

/// Rows, one after another.
pub type RowList = ListOf<Row>;

/// Names, one after another.
pub type NameList = ListOf<Name>;

/// Numbers of tables, blocks or rows.
pub type IdList = ListOf<u32>;

/// Bytes.
pub type Txt8 = ListOf<u8>;

/// Numbers of calls, from 0.
pub type CallList = ListOf<u32>;

//! The journal of a run: its entries, the statements and spec files that it speaks of, and the definitions of what a
//! journal means, which stand in `specs/`.
#![tactic(auto)]

mod entry;
mod history;
mod laws;
mod run;
mod statement;

pub use al_modes::{Level, Mode};
pub use al_spec::{Block, BlockList, Part, PermutationList, Spec, SpecFault, SpecLimit};
pub use al_statements::{Cause, Reply, RunLimit, SqlFault, Tag};
use al_values::ListOf;
pub use entry::{Entry, NumberedRow, Rewritten, Want};
pub use history::History;
pub use laws::parts_serve_readers;
pub use run::{Run, Setup};
pub use statement::{Column, ScriptBlock, Scripts, Statement, Terms};

/// The columns of a table, in order.
pub type Shape = ListOf<Column>;

/// The statements of a block, in order.
pub type Script = ListOf<Statement>;

/// The blocks of a run, each with its session and its statements.
pub type ScriptList = ListOf<ScriptBlock>;

/// Rows that keep their numbers.
pub type NumberedRowList = ListOf<NumberedRow>;

/// The tables that an ALTER TABLE rewrote.
pub type RewrittenList = ListOf<Rewritten>;

/// The runs of one call, in order.
pub type RunList = ListOf<Run>;

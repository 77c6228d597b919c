//! The top calls of `alterlive`: a spec file is read, its permutations are run, and the report is written.
#![tactic(auto)]

mod answers;
mod built;
mod report;
mod runs;
mod scripts;
mod status;
mod top;
mod words;

pub use answers::{answer, answer_alone};
pub use report::print;
pub use status::{Answer, Status};
pub use words::{Words, exit_number, words_of};

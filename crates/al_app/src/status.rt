ghost use Rattle.std.specs.Prelude.{◌≡◌};
ghost use Rattle.al_app.specs.Numbers.{number_of};

use al_history::{RunList, SpecFault};

/// How a call of the program ended.
#[derive(Clone, Copy, Debug, PartialEq, Eq)]
pub enum Status {
    /// The report was written.
    Done,
    /// The input is no spec file, or one without a permutation.
    SpecFault(SpecFault),
    /// The words are no command.
    Usage {
        /// The number of the first bad word, or the count of words where one is missing.
        word: u32,
    },
    /// The source failed.
    ReadFault,
    /// The sink failed.
    WriteFault,
    /// No memory was to be had.
    NoMemory,
    /// The input is longer than a spec file may be.
    TooLong,
    /// A setup block was refused, in this run as the first. The report was written.
    SetupFailed {
        /// The run's number, from 1.
        run: u32,
    },
}

impl Status {
    /// The exit status of the program.
    pub fn number(&self) -> u8
        ensures { result ≡ number_of self.now }
    {
        match self {
            Status::Done => 0,
            Status::SpecFault(_) => 1,
            Status::Usage { .. } => 2,
            Status::ReadFault => 3,
            Status::WriteFault => 4,
            Status::NoMemory => 5,
            Status::TooLong => 6,
            Status::SetupFailed { .. } => 7,
        }
    }
}

/// What a call of the program answers: its status, and the runs that were made, each with its journal.
#[derive(Debug, Drop)]
pub struct Answer {
    /// How it ended.
    pub status: Status,
    /// One run for each permutation, or none.
    pub runs: RunList,
}

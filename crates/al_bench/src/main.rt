//! What bench/ times: the word says what the proved crates do, and the numbers how much and how often. One line is
//! printed, a sum that depends on all that was done. No clock is read here: the scripts time whole runs.
#![tactic(auto)]

mod catalogue;
mod check;
mod heap;
mod input;
mod keys;
mod parts;
mod queue;
mod schema;
mod tree;
mod turn;
mod words;
mod xacts;

use al_values::NoMemory;
use std::alloc::Global;
use std::io::{ErrorKind, Read};
use std::process::ExitCode;
use words::{Task, task_of, words_of};

const USAGE: &str = "\
usage: al_bench queue shared|shared-asks|queued|queued-asks SESSIONS TIMES
       al_bench turn insert|select|refused TURNS JOURNALS TIMES
       al_bench among insert|select|refused TABLES TURNS TIMES
       al_bench read ROWS COLUMNS TIMES
       al_bench spec TIMES <FILE
       al_bench tokens TIMES <FILE
       al_bench sql TIMES <FILE
       al_bench eval|bound ROWS TIMES
       al_bench part CRATE CALL TRANSACTIONS EACH TABLES TIMES
";

/// Why nothing was counted; the program's status.
#[derive(Clone, Copy)]
enum Stop {
    /// The words aren't those of the usage.
    BadWord = 2,
    /// No memory was to be had.
    NoMemory = 5,
    /// The input couldn't be read.
    ReadFault = 6,
    /// The line couldn't be written.
    WriteFault = 7,
}

impl From<NoMemory> for Stop {
    fn from(_error: NoMemory) -> Stop {
        Stop::NoMemory
    }
}

fn input_of(rt: &HostRuntime, alloc: Global) -> Result<Vec<u8>, Stop> {
    let mut bytes = Vec::new(alloc);
    match rt.reader().read_to_end(&mut bytes) {
        Ok(_) => Ok(bytes),
        Err(error) if error.kind() == ErrorKind::OutOfMemory => Err(Stop::NoMemory),
        Err(_) => Err(Stop::ReadFault),
    }
}

fn perform(rt: &HostRuntime, alloc: Global, task: Task) -> Result<u64, Stop> {
    let sum = match task {
        Task::Queue {
            round,
            sessions,
            times,
        } => queue::rounds(alloc, round, sessions, times)?,
        Task::Turn {
            kind,
            turns,
            beside,
            times,
        } => turn::journals(alloc, kind, turns, beside, times)?,
        Task::Among {
            kind,
            tables,
            turns,
            times,
        } => turn::among_tables(alloc, kind, tables, turns, times)?,
        Task::Read {
            rows,
            columns,
            times,
        } => turn::reads(alloc, rows, columns, times)?,
        Task::Spec { times } => input::specs(alloc, &input_of(rt, alloc)?, times)?,
        Task::Tokens { times } => input::texts(alloc, input_of(rt, alloc)?, times)?,
        Task::Sql { times } => input::scripts(alloc, input_of(rt, alloc)?, times)?,
        Task::Eval { form, rows, times } => check::checks(alloc, form, rows, times)?,
        Task::Part { part, size, times } => parts::calls(alloc, part, size, times)?,
    };
    Ok(sum)
}

fn run(rt: &HostRuntime, alloc: Global) -> Result<(), Stop> {
    let words = words_of(rt, alloc)?;
    let Some(task) = task_of(&words) else {
        let _ = print!(rt; "{USAGE}");
        return Err(Stop::BadWord);
    };
    let sum = perform(rt, alloc, task)?;
    match println!(rt; "{sum}") {
        Ok(()) => Ok(()),
        Err(_) => Err(Stop::WriteFault),
    }
}

fn main(rt: HostRuntime) -> ExitCode {
    match run(&rt, rt.alloc()) {
        Ok(()) => ExitCode::SUCCESS,
        Err(stop) => ExitCode::from(stop as u8),
    }
}

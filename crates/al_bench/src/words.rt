//! The words of the command line.

use crate::check::Form;
use crate::parts::{Part, Size, part_of};
use crate::queue::Round;
use crate::turn::Kind;
use al_modes::Mode;
use al_values::{NoMemory, Txt, Word};
use std::alloc::Global;
use std::env;

/// What is done, how much of it, and how often.
#[derive(Clone, Copy)]
pub enum Task {
    /// Asks and releases of a lock table, by so many sessions.
    Queue {
        round: Round,
        sessions: u32,
        times: u32,
    },
    /// So many steps in each of some journals that are kept side by side.
    Turn {
        kind: Kind,
        turns: u32,
        beside: u32,
        times: u32,
    },
    /// So many steps in a journal beside so many tables.
    Among {
        kind: Kind,
        tables: u32,
        turns: u32,
        times: u32,
    },
    /// SELECT of a table of so many rows and columns.
    Read {
        rows: u32,
        columns: u32,
        times: u32,
    },
    /// A spec file from standard input.
    Spec {
        times: u32,
    },
    /// A text of SQL from standard input, for its tokens.
    Tokens {
        times: u32,
    },
    /// A text of SQL from standard input, for its statements.
    Sql {
        times: u32,
    },
    /// A CHECK on so many rows, as it is read or bound to their columns once.
    Eval {
        form: Form,
        rows: u32,
        times: u32,
    },
    /// A call of a crate, over as much as stands there.
    Part {
        part: Part,
        size: Size,
        times: u32,
    },
}

/// The words without the program's name; none where they can't be had.
pub fn words_of(rt: &HostRuntime, alloc: Global) -> Result<Vec<Word>, NoMemory> {
    let mut words = Vec::new(alloc);
    let Ok(args) = env::args(rt) else {
        return Ok(words);
    };
    for word in args.skip(1) {
        words.push(Txt::from_string(word))?;
    }
    Ok(words)
}

fn round_of(kind: &str) -> Option<Round> {
    let (mode, releases) = match kind {
        "shared" => (Mode::AccessShare, true),
        "shared-asks" => (Mode::AccessShare, false),
        "queued" => (Mode::AccessExclusive, true),
        "queued-asks" => (Mode::AccessExclusive, false),
        _ => return None,
    };
    Some(Round { mode, releases })
}

fn kind_of(kind: &str) -> Option<Kind> {
    match kind {
        "insert" => Some(Kind::Insert),
        "select" => Some(Kind::Select),
        "refused" => Some(Kind::Refused),
        _ => None,
    }
}

fn form_of(form: &str) -> Option<Form> {
    match form {
        "eval" => Some(Form::Named),
        "bound" => Some(Form::Bound),
        _ => None,
    }
}

fn number_of(word: &Word) -> Option<u32> {
    word.as_str().parse::<u32>().ok()
}

fn task_on_input(what: &str, times: u32) -> Option<Task> {
    match what {
        "spec" => Some(Task::Spec { times }),
        "tokens" => Some(Task::Tokens { times }),
        "sql" => Some(Task::Sql { times }),
        _ => None,
    }
}

/// The task that the words name; none where they aren't one of the usage.
pub fn task_of(words: &[Word]) -> Option<Task> {
    match words {
        [what, times] => task_on_input(what.as_str(), number_of(times)?),
        [what, rows, times] => Some(Task::Eval {
            form: form_of(what.as_str())?,
            rows: number_of(rows)?,
            times: number_of(times)?,
        }),
        [what, rows, columns, times] if what.as_str() == "read" => Some(Task::Read {
            rows: number_of(rows)?,
            columns: number_of(columns)?,
            times: number_of(times)?,
        }),
        [what, kind, sessions, times] if what.as_str() == "queue" => Some(Task::Queue {
            round: round_of(kind.as_str())?,
            sessions: number_of(sessions)?,
            times: number_of(times)?,
        }),
        [what, kind, turns, beside, times] if what.as_str() == "turn" => Some(Task::Turn {
            kind: kind_of(kind.as_str())?,
            turns: number_of(turns)?,
            beside: number_of(beside)?,
            times: number_of(times)?,
        }),
        [what, kind, tables, turns, times] if what.as_str() == "among" => Some(Task::Among {
            kind: kind_of(kind.as_str())?,
            tables: number_of(tables)?,
            turns: number_of(turns)?,
            times: number_of(times)?,
        }),
        [part, of, call, transactions, each, tables, times] if part.as_str() == "part" => {
            Some(Task::Part {
                part: part_of(of.as_str(), call.as_str())?,
                size: Size {
                    transactions: number_of(transactions)?,
                    each: number_of(each)?,
                    tables: number_of(tables)?,
                },
                times: number_of(times)?,
            })
        }
        _ => None,
    }
}

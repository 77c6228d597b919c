//! Reads, types, evaluates, binds, copies and compares the deepest expression that SQL here may have, and a long one, on the main
//! stack and on a thread's of 2 MiB; and writes a line for each. A stack that is too small ends the program.
#![tactic(auto)]

use al_expr::{
    ColumnList, Expr, Typed, bind_output, eval, eval_bound, kind_of, same, without_places,
};
use al_sql::read_script;
use al_statements::{Query, Statement};
use al_values::{Cant, Copied, Kind, NoMemory, Row, Txt, Value};
use std::alloc::Global;
use std::fmt::{Display, Formatter, Write};
use std::thread::{Builder, Threads};

const THREAD_STACK: usize = 2 * 1024 * 1024;

const LEVELS: u32 = 200;

const OPERATORS: u32 = 30_000;

/// An expression by its text, and what it is: its kind and value.
#[derive(Clone, Copy)]
enum Sample {
    /// `FALSE OR TRUE AND TRUE = 1 BETWEEN 1 AND 1 + 1 * (..)::integer IS NULL` with 200 levels: false.
    Deep,
    /// `1 + 1 + ..` with 30,000 operators: 30,001.
    Long,
}

/// The first that isn't as it should be of an expression.
#[derive(Clone, Copy)]
enum Outcome {
    Good,
    Unread,
    OtherKind,
    OtherValue,
    OtherBoundValue,
    OtherCopy,
    NoMemory,
}

impl From<NoMemory> for Outcome {
    fn from(_error: NoMemory) -> Outcome {
        Outcome::NoMemory
    }
}

impl Display for Outcome {
    fn fmt<W: Write>(&self, f: &mut Formatter<W>) -> std::fmt::Result {
        f.write_str(match self {
            Outcome::Good => "good",
            Outcome::Unread => "not read",
            Outcome::OtherKind => "another kind",
            Outcome::OtherValue => "another value",
            Outcome::OtherBoundValue => "another value of the bound tree",
            Outcome::OtherCopy => "another copy",
            Outcome::NoMemory => "no memory",
        })
    }
}

fn text_of(alloc: Global, sample: Sample) -> Result<Txt, NoMemory> {
    let mut text = String::new(alloc);
    text.push_str("SELECT ")?;
    match sample {
        Sample::Deep => {
            for _ in 0..LEVELS {
                text.push_str("FALSE OR TRUE AND TRUE = 1 BETWEEN 1 AND 1 + 1 * (")?;
            }
            text.push_str("TRUE")?;
            for _ in 0..LEVELS {
                text.push_str(")::integer IS NULL")?;
            }
        }
        Sample::Long => {
            text.push_str("1")?;
            for _ in 0..OPERATORS {
                text.push_str(" + 1")?;
            }
        }
    }
    Ok(Txt::from_string(text))
}

fn kind_wanted(sample: Sample) -> Kind {
    match sample {
        Sample::Deep => Kind::Boolean,
        Sample::Long => Kind::Integer,
    }
}

fn is_wanted(sample: Sample, value: &Value) -> bool {
    match (sample, value) {
        (Sample::Deep, Value::Bool(value)) => !*value,
        (Sample::Long, Value::Int(value)) => *value == i64::from(OPERATORS) + 1,
        _ => false,
    }
}

fn values(alloc: Global, sample: Sample, expr: &Expr) -> Result<Outcome, NoMemory> {
    let columns = ColumnList::new(alloc);
    let row = Row::new(alloc);
    match eval(alloc, expr, &columns, &row) {
        Ok(value) if is_wanted(sample, &value) => {}
        Err(Cant::NoMemory) => return Err(NoMemory),
        _ => return Ok(Outcome::OtherValue),
    }
    let bound = bind_output(alloc, expr, &columns)?;
    match eval_bound(alloc, &bound, &row) {
        Ok(value) if is_wanted(sample, &value) => Ok(Outcome::Good),
        Err(Cant::NoMemory) => Err(NoMemory),
        _ => Ok(Outcome::OtherBoundValue),
    }
}

fn outcome_of(alloc: Global, sample: Sample, expr: &Expr) -> Result<Outcome, NoMemory> {
    let wanted = Ok(Typed::Known(kind_wanted(sample)));
    let unplaced = without_places(alloc, expr)?;
    if kind_of(&unplaced, &ColumnList::new(alloc)) != wanted {
        return Ok(Outcome::OtherKind);
    }
    let copy = expr.copied(alloc)?;
    if !same(expr, &copy) {
        return Ok(Outcome::OtherCopy);
    }
    values(alloc, sample, &copy)
}

fn tried(alloc: Global, sample: Sample) -> Result<Outcome, NoMemory> {
    let text = text_of(alloc, sample)?;
    let script = match read_script(alloc, &text) {
        Ok(script) => script,
        Err(Cant::NoMemory) => return Err(NoMemory),
        Err(Cant::Why(_)) => return Ok(Outcome::Unread),
    };
    let Some(Statement::Select(Query::Row(outputs))) = script.get(0) else {
        return Ok(Outcome::Unread);
    };
    match outputs.get(0) {
        Some(output) => outcome_of(alloc, sample, &output.expr),
        None => Ok(Outcome::Unread),
    }
}

fn tried_outcome(alloc: Global, sample: Sample) -> Outcome {
    match tried(alloc, sample) {
        Ok(outcome) => outcome,
        Err(NoMemory) => Outcome::NoMemory,
    }
}

fn on_thread<R: Threads>(rt: &R, alloc: Global, sample: Sample) -> Outcome {
    match Builder::new()
        .stack_size(THREAD_STACK)
        .spawn(rt, move || tried_outcome(alloc, sample))
    {
        Ok(handle) => handle.join(rt),
        Err(_) => Outcome::NoMemory,
    }
}

fn main(rt: HostRuntime) -> std::io::Result<()> {
    let alloc = rt.alloc();
    for (name, sample) in [("deep", Sample::Deep), ("long", Sample::Long)] {
        let main = tried_outcome(alloc, sample);
        println!(rt; "{name}, on the main stack: {main}")?;
        let thread = on_thread(&rt, alloc, sample);
        println!(rt; "{name}, on a thread's stack: {thread}")?;
    }
    Ok(())
}

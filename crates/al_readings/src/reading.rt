//! What texts are told as SQL, and what they say.

use al_sql::read_script;
use al_statements::{Script, SqlFault};
use al_values::{Cant, NoMemory, Txt};
use std::alloc::Global;
use std::process::Abort;
use std::test::Fail;

/// What a text is told.
#[derive(Clone, Copy, Debug, PartialEq, Eq)]
pub(crate) enum Told {
    /// It is a script.
    Good,
    /// It isn't SQL from this byte on.
    Syntax(u32),
    /// At this byte stands what is left out here.
    NotInProfile(u32),
}

/// What a text is told.
pub(crate) fn told_by(alloc: Global, text: &Txt) -> Result<Told, NoMemory> {
    match read_script(alloc, text) {
        Ok(_) => Ok(Told::Good),
        Err(Cant::Why(SqlFault::Syntax { at })) => Ok(Told::Syntax(at)),
        Err(Cant::Why(SqlFault::NotInProfile { at })) => Ok(Told::NotInProfile(at)),
        Err(Cant::NoMemory) => Err(NoMemory),
    }
}

/// The script that a text is.
pub(crate) fn script_of(alloc: Global, text: &str) -> Result<Script, Cant<SqlFault>> {
    let text = Txt::new(alloc, text)?;
    read_script(alloc, &text)
}

fn replaced(alloc: Global, text: &str, from: &str, to: &str) -> Result<String, NoMemory> {
    let mut line = String::new(alloc);
    let mut is_first = true;
    for piece in text.split(from) {
        if !is_first {
            line.push_str(to)?;
        }
        is_first = false;
        line.push_str(piece)?;
    }
    Ok(line)
}

/// What a value is printed as for those who look for faults, with lists as `[..]`, targets as their names, and no braces.
pub(crate) fn brief(alloc: Global, printed: String) -> Result<Txt, NoMemory> {
    let swaps = [
        ("ListOf { items: ", ""),
        ("Items { items: ", ""),
        ("Boxed { inner: ", ""),
        ("SubList { subs: ", ""),
        ("Target { only: false, name: ", ""),
        ("Target { only: true, name: ", "ONLY "),
        (" }", ""),
        (" {", ""),
    ];
    let mut line = printed;
    for (from, to) in swaps {
        line = replaced(alloc, line.as_str(), from, to)?;
    }
    Ok(Txt::from_string(line))
}

// The statements of a text.
fn said(alloc: Global, text: &Txt) -> Result<Txt, Cant<SqlFault>> {
    let script = read_script(alloc, text)?;
    let printed = format!(in alloc; "{script:?}")?;
    Ok(brief(alloc, printed)?)
}

/// A head, a piece so many times, what stands inside, another piece as often, and a tail.
pub(crate) fn nested(alloc: Global, parts: [&str; 5], count: u32) -> Result<Txt, NoMemory> {
    let mut text = String::from_str(alloc, parts[0])?;
    for _ in 0..count {
        text.push_str(parts[1])?;
    }
    text.push_str(parts[2])?;
    for _ in 0..count {
        text.push_str(parts[3])?;
    }
    text.push_str(parts[4])?;
    Ok(Txt::from_string(text))
}

/// Tests that texts are told these.
pub(crate) fn are_told(rt: &impl Abort, alloc: Global, rows: &[(&str, Told)]) -> Result<(), Fail> {
    for (text, wanted) in rows {
        let text = Txt::new(alloc, text)?;
        let found = told_by(alloc, &text)?;
        assert_eq!(rt; found, *wanted, "{text}");
    }
    Ok(())
}

/// Tests that texts say these statements.
pub(crate) fn say(rt: &impl Abort, alloc: Global, rows: &[(&str, &str)]) -> Result<(), Fail> {
    for (text, wanted) in rows {
        let text = Txt::new(alloc, text)?;
        let found = said(alloc, &text)?;
        let wanted = Txt::new(alloc, wanted)?;
        assert_eq!(rt; found, wanted, "{text}");
    }
    Ok(())
}

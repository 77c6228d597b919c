use crate::lexemes;
use crate::names::{read_front_names, read_names};
use al_statements::SqlFault;
use al_tokens::front_tokens;
use al_values::{Cant, NoMemory, Txt};
use std::alloc::Global;
use std::fmt::Write;
use std::test::Fail;

// The tokens in front of a text: each one's kind, `(` where it is called, its place, its text and its number.
fn shown(alloc: Global, text: &str) -> Result<String, Fail> {
    let text = Txt::new(alloc, text)?;
    let front = front_tokens(alloc, &text)?;
    let all = lexemes(alloc, &text, front.tokens.as_slice())?;
    let mut line = String::new(alloc);
    for lexeme in all.as_slice() {
        let called = if lexeme.called { "(" } else { "" };
        write!(
            line,
            "{}{} {} {} {};",
            lexeme.kind, called, lexeme.place, lexeme.text, lexeme.number
        )?;
    }
    Ok(line)
}

#[test]
fn classed(rt: HostRuntime) -> Result<(), Fail> {
    let rows = [
        ("", ""),
        ("SELECT a", "53 0 select 0;127 7 a 0;"),
        ("\"SELECT\"", "127 0 SELECT 0;"),
        ("\"a\"\"b\"", "127 0 a\"b 0;"),
        ("\"\"\"\"\"é\"", "127 0 \"\"é 0;"),
        ("'it''s'", "20 0 it's 0;"),
        ("''", "20 0  0;"),
        ("1_000", "19 0  1;127 1 _000 0;"),
        ("1.5", "21 0  0;"),
        ("007", "19 0  7;"),
        ("9223372036854775807", "19 0  9223372036854775807;"),
        ("9223372036854775808", "21 0  0;"),
        ("99999999999999999999", "21 0  0;"),
        ("count (", "128( 0 count 0;1 6  0;"),
        ("\"count\"(", "127( 0 count 0;1 7  0;"),
        ("count a", "124 0 count 0;127 6 a 0;"),
        ("abs", "127 0 abs 0;"),
        ("ABS(", "133( 0 abs 0;1 3  0;"),
        ("values (", "88( 0 values 0;1 7  0;"),
        ("and (", "30 0 and 0;1 4  0;"),
        ("f -- (\n(", "127( 0 f 0;1 7  0;"),
        ("date int8 -- (", "131 0 date 0;117 5 int8 0;"),
        ("<= . ||", "9 0  0;5 3  0;17 5  0;"),
        (
            "aaaaaaaaaaaaaaaaaaaaaaaaaaaaaaaaaaaaaaaaaaaaaaaaaaaaaaaaaaaaaaa",
            "127 0 aaaaaaaaaaaaaaaaaaaaaaaaaaaaaaaaaaaaaaaaaaaaaaaaaaaaaaaaaaaaaaa 0;",
        ),
        (
            "aaaaaaaaaaaaaaaaaaaaaaaaaaaaaaaaaaaaaaaaaaaaaaaaaaaaaaaaaaaaaaaa",
            "21 0  0;",
        ),
        (
            "\"aaaaaaaaaaaaaaaaaaaaaaaaaaaaaaaaaaaaaaaaaaaaaaaaaaaaaaaaaaaaaa\"\"\"",
            "127 0 aaaaaaaaaaaaaaaaaaaaaaaaaaaaaaaaaaaaaaaaaaaaaaaaaaaaaaaaaaaaaa\" 0;",
        ),
        (
            "\"aaaaaaaaaaaaaaaaaaaaaaaaaaaaaaaaaaaaaaaaaaaaaaaaaaaaaaaaaaaaaaa\"\"\"",
            "21 0  0;",
        ),
    ];
    for (text, wanted) in rows {
        let found = shown(rt.alloc(), text)?;
        assert_eq!(rt; found.as_str(), wanted, "{text:?}");
    }
    Ok(())
}

fn fault_of(alloc: Global, text: &str) -> Result<Option<SqlFault>, NoMemory> {
    match read_names(alloc, &Txt::new(alloc, text)?) {
        Ok(_) => Ok(None),
        Err(Cant::Why(fault)) => Ok(Some(fault)),
        Err(Cant::NoMemory) => Err(NoMemory),
    }
}

#[test]
fn faults(rt: HostRuntime) -> Result<(), Fail> {
    let rows = [
        ("a, \"B\", count -- x", None),
        ("", Some(SqlFault::Syntax { at: 0 })),
        ("a,", Some(SqlFault::Syntax { at: 2 })),
        ("a b", Some(SqlFault::Syntax { at: 2 })),
        ("a, select", Some(SqlFault::Syntax { at: 3 })),
        ("a 5", Some(SqlFault::Syntax { at: 2 })),
        ("a (", Some(SqlFault::Syntax { at: 2 })),
        ("a case", Some(SqlFault::NotInProfile { at: 2 })),
        ("a, case", None),
        ("a \"case\"", Some(SqlFault::Syntax { at: 2 })),
        ("a 'case'", Some(SqlFault::Syntax { at: 2 })),
        ("a 1.5", Some(SqlFault::NotInProfile { at: 2 })),
        ("a.b", Some(SqlFault::NotInProfile { at: 1 })),
        ("a 9223372036854775807", Some(SqlFault::Syntax { at: 2 })),
        (
            "a 9223372036854775808",
            Some(SqlFault::NotInProfile { at: 2 }),
        ),
        ("a @ b", Some(SqlFault::Syntax { at: 2 })),
        ("a b @", Some(SqlFault::Syntax { at: 2 })),
        ("a, @", Some(SqlFault::Syntax { at: 3 })),
        ("a 'xy", Some(SqlFault::Syntax { at: 5 })),
        ("a, \"xy", Some(SqlFault::Syntax { at: 6 })),
        ("a b 'xy", Some(SqlFault::Syntax { at: 2 })),
    ];
    for (text, wanted) in rows {
        let found = fault_of(rt.alloc(), text)?;
        assert_eq!(rt; found, wanted, "{text:?}");
    }
    Ok(())
}

// The first token behind the names that stand from a token on.
fn next_of(alloc: Global, text: &str, from: u32) -> Result<Result<u32, SqlFault>, NoMemory> {
    let text = Txt::new(alloc, text)?;
    let front = front_tokens(alloc, &text)?;
    if from as usize > front.tokens.len() {
        return Ok(Ok(0));
    }
    match read_front_names(alloc, &front.tokens, &text, from) {
        Ok((_, next)) => Ok(Ok(next)),
        Err(Cant::Why(fault)) => Ok(Err(fault)),
        Err(Cant::NoMemory) => Err(NoMemory),
    }
}

#[test]
fn fronts(rt: HostRuntime) -> Result<(), Fail> {
    let rows = [
        ("x a, b ; c", 1, Ok(4)),
        ("x a case", 1, Ok(2)),
        ("a, b", 0, Ok(3)),
        ("x a, ;", 1, Err(SqlFault::Syntax { at: 5 })),
        ("x a,", 1, Err(SqlFault::Syntax { at: 4 })),
        ("x 1.5", 1, Err(SqlFault::NotInProfile { at: 2 })),
        ("x -- y", 1, Err(SqlFault::Syntax { at: 6 })),
        ("x a, select", 1, Err(SqlFault::Syntax { at: 5 })),
    ];
    for (text, from, wanted) in rows {
        let found = next_of(rt.alloc(), text, from)?;
        assert_eq!(rt; found, wanted, "{text:?}");
    }
    Ok(())
}

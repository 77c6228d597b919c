use al_phrases::kinds::{
    BOOL, CHARACTER, COMMA, DATE, INT8, INTEGER, INTEGER_TOKEN, LEFT_PAREN, NAME, RIGHT_PAREN,
    SELECT, SMALLINT, TEXT, VALUES, VARCHAR, VARYING,
};
use al_phrases::{Lexeme, LexemeList, name_list, type_name};
use al_values::{Cant, Kind, ListOf, NoMemory, Txt};
use std::alloc::Global;
use std::test::Fail;

fn token(alloc: Global, kind: u8, text: &str, number: i64) -> Result<Lexeme, NoMemory> {
    Ok(Lexeme {
        kind,
        called: false,
        place: 0,
        text: Txt::new(alloc, text)?,
        number,
    })
}

fn list_of(alloc: Global, kinds: &[u8], number: i64) -> Result<LexemeList, NoMemory> {
    let mut list = ListOf::new(alloc);
    for kind in kinds {
        list.push(token(alloc, *kind, "", number)?)?;
    }
    Ok(list)
}

// A kind's name with how many tokens are left; or how many are left from the faulty one on.
fn kind_read(
    alloc: Global,
    kinds: &[u8],
    number: i64,
) -> Result<Result<(Kind, usize), usize>, NoMemory> {
    let list = list_of(alloc, kinds, number)?;
    match type_name(list.as_slice()) {
        Ok((kind, rest)) => Ok(Ok((kind, rest.len()))),
        Err(Cant::Why(left)) => Ok(Err(left)),
        Err(Cant::NoMemory) => Err(NoMemory),
    }
}

#[test]
fn kinds_of_one_word(rt: HostRuntime) -> Result<(), Fail> {
    let rows = [
        (SMALLINT, Ok((Kind::Smallint, 0))),
        (INT8, Ok((Kind::Bigint, 0))),
        (BOOL, Ok((Kind::Boolean, 0))),
        (DATE, Ok((Kind::Date, 0))),
        (INTEGER, Ok((Kind::Integer, 0))),
        (TEXT, Ok((Kind::Text, 0))),
        (VARCHAR, Ok((Kind::Text, 0))),
        (CHARACTER, Err(0)),
        (NAME, Err(1)),
    ];
    for (kind, wanted) in rows {
        let found = kind_read(rt.alloc(), &[kind], 0)?;
        assert_eq!(rt; found, wanted, "{kind}");
    }
    Ok(())
}

#[test]
fn kinds_with_a_length(rt: HostRuntime) -> Result<(), Fail> {
    let rows = [
        (1, Ok((Kind::Varchar(1), 1))),
        (10_485_760, Ok((Kind::Varchar(10_485_760), 1))),
        (0, Err(3)),
        (10_485_761, Err(3)),
    ];
    for (number, wanted) in rows {
        let short = [VARCHAR, LEFT_PAREN, INTEGER_TOKEN, RIGHT_PAREN, COMMA];
        let found = kind_read(rt.alloc(), &short, number)?;
        assert_eq!(rt; found, wanted, "{number}");
        let long = [
            CHARACTER,
            VARYING,
            LEFT_PAREN,
            INTEGER_TOKEN,
            RIGHT_PAREN,
            COMMA,
        ];
        let found = kind_read(rt.alloc(), &long, number)?;
        assert_eq!(rt; found, wanted, "{number}");
    }
    Ok(())
}

// How many names there are, whether the second has its text, and how many tokens are left.
fn names_read(alloc: Global, list: &LexemeList) -> Result<(usize, bool, usize), Cant<usize>> {
    let (names, rest) = name_list(alloc, list.as_slice())?;
    let second = match names.get(1) {
        None => false,
        Some(name) => name.as_str() == "values",
    };
    Ok((names.len(), second, rest.len()))
}

#[test]
fn lists_of_names(rt: HostRuntime) -> Result<(), Fail> {
    let mut list = list_of(rt.alloc(), &[NAME, COMMA], 0)?;
    list.push(token(rt.alloc(), VALUES, "values", 0)?)?;
    list.push(token(rt.alloc(), SELECT, "select", 0)?)?;
    assert_eq!(rt; names_read(rt.alloc(), &list).ok(), Some((2, true, 1)));
    let reserved = list_of(rt.alloc(), &[NAME, COMMA, SELECT], 0)?;
    assert_eq!(rt; names_read(rt.alloc(), &reserved).err(), Some(Cant::Why(1)));
    let one = list_of(rt.alloc(), &[DATE], 0)?;
    assert_eq!(rt; names_read(rt.alloc(), &one).ok(), Some((1, false, 0)));
    Ok(())
}

use crate::{
    Cant, CastFault, Kind, NoMemory, Txt, Value, assign, cast, compare, count_characters, print,
    read,
};
use std::alloc::Global;
use std::cmp::Ordering;
use std::process::Abort;
use std::test::Fail;

// A value, or why there is none.
#[derive(Clone, Copy)]
enum Plain<'a> {
    Null,
    Bool(bool),
    Int(i64),
    Text(&'a str),
    Day(i32),
    Fault(CastFault),
}

fn value(alloc: Global, plain: &Plain) -> Result<Value, NoMemory> {
    Ok(match plain {
        Plain::Null | Plain::Fault(_) => Value::Null,
        Plain::Bool(truth) => Value::Bool(*truth),
        Plain::Int(number) => Value::Int(*number),
        Plain::Text(text) => Value::Text(Txt::new(alloc, text)?),
        Plain::Day(day) => Value::Day(*day),
    })
}

// Want of memory is handed on: it is neither the wanted answer nor another one.
fn is(answer: &Result<Value, Cant<CastFault>>, wanted: &Plain) -> Result<bool, NoMemory> {
    match answer {
        Ok(value) => Ok(is_value(value, wanted)),
        Err(Cant::Why(fault)) => Ok(match wanted {
            Plain::Fault(other) => *fault == *other,
            _ => false,
        }),
        Err(Cant::NoMemory) => Err(NoMemory),
    }
}

fn is_value(value: &Value, wanted: &Plain) -> bool {
    match value {
        Value::Null => matches!(wanted, Plain::Null),
        Value::Bool(truth) => match wanted {
            Plain::Bool(other) => *truth == *other,
            _ => false,
        },
        Value::Int(number) => match wanted {
            Plain::Int(other) => *number == *other,
            _ => false,
        },
        Value::Text(text) => match wanted {
            Plain::Text(other) => text.as_str() == *other,
            _ => false,
        },
        Value::Day(day) => match wanted {
            Plain::Day(other) => *day == *other,
            _ => false,
        },
    }
}

const SHORT: Plain = Plain::Fault(CastFault::OutOfRange);

const BAD: Plain = Plain::Fault(CastFault::BadText);

const NO_DATE: Plain = Plain::Fault(CastFault::BadDate);

const LONG: Plain = Plain::Fault(CastFault::TooLong);

const NONE: Plain = Plain::Fault(CastFault::NoCast);

// A text, the kind that it is read into, and what comes out.
fn check_read(rt: &impl Abort, alloc: Global, cases: &[(&str, Kind, Plain)]) -> Result<(), Fail> {
    for (text, kind, wanted) in cases {
        let answer = read(alloc, &Txt::new(alloc, text)?, *kind);
        assert!(rt; is(&answer, wanted)?, "at '{text}'");
    }
    Ok(())
}

#[test]
fn reads_integers(rt: HostRuntime) -> Result<(), Fail> {
    let cases = [
        ("0", Kind::Integer, Plain::Int(0)),
        ("007", Kind::Integer, Plain::Int(7)),
        ("+5", Kind::Integer, Plain::Int(5)),
        ("-5", Kind::Integer, Plain::Int(-5)),
        ("-0", Kind::Integer, Plain::Int(0)),
        (
            " \t\n\x0B\x0C\r42 \t\n\x0B\x0C\r",
            Kind::Integer,
            Plain::Int(42),
        ),
        ("", Kind::Integer, BAD),
        ("  ", Kind::Integer, BAD),
        ("-", Kind::Integer, BAD),
        ("+", Kind::Integer, BAD),
        ("--1", Kind::Integer, BAD),
        ("- 1", Kind::Integer, BAD),
        ("1 2", Kind::Integer, BAD),
        ("1.0", Kind::Integer, BAD),
        ("1_000", Kind::Integer, BAD),
        ("0x10", Kind::Integer, BAD),
        ("1e3", Kind::Integer, BAD),
        ("a", Kind::Integer, BAD),
        ("\u{a0}1", Kind::Integer, BAD),
        ("32767", Kind::Smallint, Plain::Int(32767)),
        ("32768", Kind::Smallint, SHORT),
        ("-32768", Kind::Smallint, Plain::Int(-32768)),
        ("-32769", Kind::Smallint, SHORT),
        ("2147483647", Kind::Integer, Plain::Int(2147483647)),
        ("2147483648", Kind::Integer, SHORT),
        ("-2147483648", Kind::Integer, Plain::Int(-2147483648)),
        ("-2147483649", Kind::Integer, SHORT),
        (
            "9223372036854775807",
            Kind::Bigint,
            Plain::Int(9223372036854775807),
        ),
        ("9223372036854775808", Kind::Bigint, SHORT),
        (
            "-9223372036854775808",
            Kind::Bigint,
            Plain::Int(-9223372036854775808),
        ),
        ("-9223372036854775809", Kind::Bigint, SHORT),
        ("18446744073709551616", Kind::Bigint, SHORT),
        ("-18446744073709551617", Kind::Smallint, SHORT),
        (
            "00000000000000000000000000000001",
            Kind::Bigint,
            Plain::Int(1),
        ),
        ("100000000000000000000000000000000x", Kind::Bigint, BAD),
    ];
    check_read(&rt, rt.alloc(), &cases)
}

#[test]
fn reads_booleans(rt: HostRuntime) -> Result<(), Fail> {
    for text in [
        "t", "tr", "tru", "true", "y", "ye", "yes", "on", "1", "TRUE", "yEs", " oN\n",
    ] {
        check_read(&rt, rt.alloc(), &[(text, Kind::Boolean, Plain::Bool(true))])?;
    }
    for text in [
        "f", "fa", "fal", "fals", "false", "n", "no", "of", "off", "0", "FALSE", "\tNo ",
    ] {
        check_read(
            &rt,
            rt.alloc(),
            &[(text, Kind::Boolean, Plain::Bool(false))],
        )?;
    }
    for text in [
        "", " ", "o", "2", "10", "truee", "yess", "ons", "offf", "nope", "t f", "00", "+1",
    ] {
        check_read(&rt, rt.alloc(), &[(text, Kind::Boolean, BAD)])?;
    }
    Ok(())
}

#[test]
fn reads_dates(rt: HostRuntime) -> Result<(), Fail> {
    let cases = [
        ("1970-01-01", Kind::Date, Plain::Day(0)),
        ("1969-12-31", Kind::Date, Plain::Day(-1)),
        ("0001-01-01", Kind::Date, Plain::Day(-719162)),
        ("9999-12-31", Kind::Date, Plain::Day(2932896)),
        ("2000-02-29", Kind::Date, Plain::Day(11016)),
        ("2024-02-29", Kind::Date, Plain::Day(19782)),
        ("2024-03-01", Kind::Date, Plain::Day(19783)),
        ("1900-02-28", Kind::Date, Plain::Day(-25509)),
        ("1900-03-01", Kind::Date, Plain::Day(-25508)),
        ("2023-03-01", Kind::Date, Plain::Day(19417)),
        ("1900-02-29", Kind::Date, NO_DATE),
        ("2023-02-29", Kind::Date, NO_DATE),
        ("2024-02-30", Kind::Date, NO_DATE),
        ("2024-04-31", Kind::Date, NO_DATE),
        ("2024-13-01", Kind::Date, NO_DATE),
        ("2024-00-01", Kind::Date, NO_DATE),
        ("2024-01-00", Kind::Date, NO_DATE),
        ("2024-01-32", Kind::Date, NO_DATE),
        ("0000-01-01", Kind::Date, NO_DATE),
        ("10000-01-01", Kind::Date, NO_DATE),
        ("2024-1-01", Kind::Date, NO_DATE),
        ("2024-01-1", Kind::Date, NO_DATE),
        ("2024/01/01", Kind::Date, NO_DATE),
        ("20240101", Kind::Date, NO_DATE),
        (" 2024-01-01", Kind::Date, NO_DATE),
        ("2024-01-01 ", Kind::Date, NO_DATE),
        ("+024-01-01", Kind::Date, NO_DATE),
        ("2024-01-0a", Kind::Date, NO_DATE),
        ("", Kind::Date, NO_DATE),
    ];
    check_read(&rt, rt.alloc(), &cases)
}

const KINDS: [Kind; 7] = [
    Kind::Smallint,
    Kind::Integer,
    Kind::Bigint,
    Kind::Boolean,
    Kind::Text,
    Kind::Varchar(4),
    Kind::Date,
];

// A value, and what is assigned and cast into each of the kinds.
fn check_into(
    rt: &impl Abort,
    alloc: Global,
    from: Plain,
    assigned: [Plain; 7],
    written: [Plain; 7],
) -> Result<(), Fail> {
    let from = value(alloc, &from)?;
    for (place, kind) in KINDS.iter().enumerate() {
        assert!(rt; place < 7);
        assert!(rt;
            is(&assign(alloc, &from, *kind), &assigned[place])?,
            "'{from}' assigned at {place}"
        );
        assert!(rt;
            is(&cast(alloc, &from, *kind), &written[place])?,
            "'{from}' cast at {place}"
        );
    }
    Ok(())
}

#[test]
fn converts_numbers(rt: HostRuntime) -> Result<(), Fail> {
    let (alloc, null, yes) = (rt.alloc(), Plain::Null, Plain::Bool(true));
    check_into(&rt, alloc, null, [null; 7], [null; 7])?;
    let (number, text) = (Plain::Int(12), Plain::Text("12"));
    let assigned = [number, number, number, NONE, text, text, NONE];
    check_into(
        &rt,
        alloc,
        number,
        assigned,
        [number, number, number, yes, text, text, NONE],
    )?;
    let (number, text) = (Plain::Int(32768), Plain::Text("32768"));
    let assigned = [SHORT, number, number, NONE, text, LONG, NONE];
    check_into(
        &rt,
        alloc,
        number,
        assigned,
        [SHORT, number, number, yes, text, Plain::Text("3276"), NONE],
    )?;
    let (number, text) = (Plain::Int(-2147483649), Plain::Text("-2147483649"));
    let assigned = [SHORT, SHORT, number, NONE, text, LONG, NONE];
    check_into(
        &rt,
        alloc,
        number,
        assigned,
        [SHORT, SHORT, number, yes, text, Plain::Text("-214"), NONE],
    )?;
    let (number, text) = (Plain::Int(0), Plain::Text("0"));
    let assigned = [number, number, number, NONE, text, text, NONE];
    check_into(
        &rt,
        alloc,
        number,
        assigned,
        [number, number, number, Plain::Bool(false), text, text, NONE],
    )
}

#[test]
fn converts_others(rt: HostRuntime) -> Result<(), Fail> {
    let alloc = rt.alloc();
    let (yes, no) = (Plain::Bool(true), Plain::Bool(false));
    let text = Plain::Text("true");
    let assigned = [NONE, NONE, NONE, yes, text, text, NONE];
    check_into(
        &rt,
        alloc,
        yes,
        assigned,
        [NONE, Plain::Int(1), NONE, yes, text, text, NONE],
    )?;
    let text = Plain::Text("false");
    let assigned = [NONE, NONE, NONE, no, text, LONG, NONE];
    check_into(
        &rt,
        alloc,
        no,
        assigned,
        [
            NONE,
            Plain::Int(0),
            NONE,
            no,
            text,
            Plain::Text("fals"),
            NONE,
        ],
    )?;
    let (day, text) = (Plain::Day(19782), Plain::Text("2024-02-29"));
    let assigned = [NONE, NONE, NONE, NONE, text, LONG, day];
    check_into(
        &rt,
        alloc,
        day,
        assigned,
        [NONE, NONE, NONE, NONE, text, Plain::Text("2024"), day],
    )?;
    let (number, text) = (Plain::Int(1), Plain::Text("1"));
    let assigned = [NONE, NONE, NONE, NONE, text, text, NONE];
    check_into(
        &rt,
        alloc,
        text,
        assigned,
        [number, number, number, yes, text, text, NO_DATE],
    )?;
    let (day, text) = (Plain::Day(0), Plain::Text("1970-01-01"));
    let assigned = [NONE, NONE, NONE, NONE, text, LONG, NONE];
    check_into(
        &rt,
        alloc,
        text,
        assigned,
        [BAD, BAD, BAD, BAD, text, Plain::Text("1970"), day],
    )
}

#[test]
fn cuts_texts(rt: HostRuntime) -> Result<(), Fail> {
    let alloc = rt.alloc();
    // The text, the length, what is stored, and what a cast makes.
    let cases = [
        ("abc", 3, Plain::Text("abc"), "abc"),
        ("abc", 4, Plain::Text("abc"), "abc"),
        ("abc  ", 3, Plain::Text("abc"), "abc"),
        ("abc  ", 4, Plain::Text("abc "), "abc "),
        ("abc d", 3, LONG, "abc"),
        ("abc\t", 3, LONG, "abc"),
        ("  ", 1, Plain::Text(" "), " "),
        ("äöü", 3, Plain::Text("äöü"), "äöü"),
        ("äöü", 2, LONG, "äö"),
        ("€𝄞 ", 2, Plain::Text("€𝄞"), "€𝄞"),
        ("€𝄞x", 2, LONG, "€𝄞"),
        ("", 1, Plain::Text(""), ""),
    ];
    for (text, most, stored, cut) in cases {
        let from = Value::Text(Txt::new(alloc, text)?);
        let kind = Kind::Varchar(most);
        assert!(rt;
            is(&assign(alloc, &from, kind), &stored)?,
            "'{text}' assigned"
        );
        assert!(rt;
            is(&cast(alloc, &from, kind), &Plain::Text(cut))?,
            "'{text}' cast"
        );
        assert!(rt;
            is(&read(alloc, &Txt::new(alloc, text)?, kind), &stored)?,
            "'{text}' read"
        );
    }
    for (text, count) in [("", 0), ("abc", 3), ("äöü", 3), ("€𝄞", 2)] {
        assert_eq!(rt; count_characters(text), count);
    }
    Ok(())
}

#[test]
fn prints(rt: HostRuntime) -> Result<(), Fail> {
    let alloc = rt.alloc();
    // The value, its text, and the kind into which the text is read again.
    let cases = [
        (Plain::Null, "", None),
        (Plain::Bool(true), "t", Some(Kind::Boolean)),
        (Plain::Bool(false), "f", Some(Kind::Boolean)),
        (Plain::Int(0), "0", Some(Kind::Integer)),
        (
            Plain::Int(-9223372036854775808),
            "-9223372036854775808",
            Some(Kind::Bigint),
        ),
        (Plain::Text("a 'b'"), "a 'b'", Some(Kind::Text)),
        (Plain::Day(0), "1970-01-01", Some(Kind::Date)),
        (Plain::Day(-719162), "0001-01-01", Some(Kind::Date)),
        (Plain::Day(2932896), "9999-12-31", Some(Kind::Date)),
        (Plain::Day(11016), "2000-02-29", Some(Kind::Date)),
        (Plain::Day(-25508), "1900-03-01", Some(Kind::Date)),
        (Plain::Day(-719163), "-719163", None),
        (Plain::Day(2932897), "2932897", None),
    ];
    for (plain, wanted, kind) in cases {
        let text = print(alloc, &value(alloc, &plain)?)?;
        assert_eq!(rt; text.as_str(), wanted);
        if let Some(kind) = kind {
            assert!(rt; is(&read(alloc, &text, kind), &plain)?, "{text} read again");
        }
    }
    Ok(())
}

#[test]
fn compares(rt: HostRuntime) -> Result<(), Fail> {
    let alloc = rt.alloc();
    let cases = [
        (Plain::Int(-1), Plain::Int(1), Some(Ordering::Less)),
        (Plain::Int(2), Plain::Int(2), Some(Ordering::Equal)),
        (Plain::Bool(false), Plain::Bool(true), Some(Ordering::Less)),
        (Plain::Bool(true), Plain::Bool(true), Some(Ordering::Equal)),
        (Plain::Text("Z"), Plain::Text("a"), Some(Ordering::Less)),
        (Plain::Text("ab"), Plain::Text("a"), Some(Ordering::Greater)),
        (Plain::Text("z"), Plain::Text("ä"), Some(Ordering::Less)),
        (Plain::Text("a "), Plain::Text("a"), Some(Ordering::Greater)),
        (Plain::Day(3), Plain::Day(-3), Some(Ordering::Greater)),
        (Plain::Null, Plain::Null, None),
        (Plain::Null, Plain::Int(1), None),
        (Plain::Int(1), Plain::Null, None),
        (Plain::Int(1), Plain::Bool(true), None),
        (Plain::Text("1"), Plain::Int(1), None),
        (Plain::Day(1), Plain::Int(1), None),
    ];
    for (a, b, wanted) in cases {
        assert!(rt; compare(&value(alloc, &a)?, &value(alloc, &b)?) == wanted);
    }
    Ok(())
}

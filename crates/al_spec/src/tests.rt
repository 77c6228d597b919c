use crate::{Spec, SpecFault, SpecLimit, is_plain, read_spec};
use al_values::{Cant, NoMemory};
use std::alloc::Global;
use std::fmt::Write;
use std::test::Fail;

// A spec as a line: names, blocks and permutations.
fn shown(alloc: Global, spec: &Spec) -> Result<String, Fail> {
    let mut line = String::new(alloc);
    for name in spec.sessions.as_slice() {
        write!(line, "{name};")?;
    }
    for block in spec.blocks.as_slice() {
        write!(
            line,
            " {:?} {} {}={}|",
            block.part, block.session, block.name, block.text
        )?;
    }
    for permutation in spec.permutations.as_slice() {
        write!(line, " {:?}", permutation.as_slice())?;
    }
    Ok(line)
}

fn fault_of(alloc: Global, bytes: &[u8]) -> Result<Option<SpecFault>, NoMemory> {
    match read_spec(alloc, bytes) {
        Ok(_) => Ok(None),
        Err(Cant::Why(fault)) => Ok(Some(fault)),
        Err(Cant::NoMemory) => Err(NoMemory),
    }
}

#[test]
fn specs(rt: HostRuntime) -> Result<(), Fail> {
    let rows = [
        (
            "setup { A }\nteardown { B }\nsession s\nsetup { C }\nstep a { D }\nteardown { E }\npermutation a a\npermutation a",
            "s; Setup 0 =A| Teardown 0 =B| SessionSetup 1 =C| Step 1 a=D| SessionTeardown 1 =E| [3, 3] [3]",
        ),
        ("session s step a {}", "s; Step 1 a=|"),
        (
            "session s step a {1} step b {2} session s step c {3} permutation c b a",
            "s;s; Step 1 a=1| Step 1 b=2| Step 2 c=3| [2, 1, 0]",
        ),
        (
            "session \"a\"\"b\" step \"step\" {x}",
            "a\"b; Step 1 step=x|",
        ),
        (
            "session \"{#}\" step \"\"\"\" { # } permutation \"\"\"\"",
            "{#}; Step 1 \"=#| [0]",
        ),
        (
            "session é step Setup$1 {é} permutation Setup$1",
            "é; Step 1 Setup$1=é| [0]",
        ),
        (
            "# c\nsession#d\ns step _ {# e\n}#f}\n# g",
            "s; Step 1 _=# e\n|",
        ),
        (
            "session s step a { \t\r\x0c\n A {\n \t}",
            "s; Step 1 a=\n A {\n|",
        ),
        ("session s step a{A}permutation a", "s; Step 1 a=A| [0]"),
        (
            "session \"é\"\"ü\" step \"a\"\"\"\"é\" {x} step \"b\" {} permutation \"a\"\"\"\"é\" b",
            "é\"ü; Step 1 a\"\"é=x| Step 1 b=| [0, 1]",
        ),
    ];
    for (text, wanted) in rows {
        let spec = read_spec(rt.alloc(), text.as_bytes())?;
        let line = shown(rt.alloc(), &spec)?;
        assert!(rt; line.as_str() == wanted, "{text:?}: {line}");
    }
    Ok(())
}

#[test]
fn faults(rt: HostRuntime) -> Result<(), Fail> {
    let rows: [(&[u8], SpecFault); 34] = [
        (b"", SpecFault::Syntax { at: 0 }),
        (b" # a", SpecFault::Syntax { at: 4 }),
        (b"session s1 step a { SELECT", SpecFault::Syntax { at: 26 }),
        (b"session \"s", SpecFault::Syntax { at: 10 }),
        (b"session \"s\n\"", SpecFault::Syntax { at: 8 }),
        (b"session \"s\n", SpecFault::Syntax { at: 8 }),
        (b"session \"\" step", SpecFault::Syntax { at: 8 }),
        (b"session \"a\"\"", SpecFault::Syntax { at: 12 }),
        (b"session s step \"a", SpecFault::Syntax { at: 17 }),
        (b"setup setup", SpecFault::Syntax { at: 6 }),
        (b"{", SpecFault::Syntax { at: 0 }),
        (b"\"", SpecFault::Syntax { at: 0 }),
        (b"session {", SpecFault::Syntax { at: 8 }),
        (b"session s step \"", SpecFault::Syntax { at: 16 }),
        (b"session s \"", SpecFault::Syntax { at: 10 }),
        (b"session step {}", SpecFault::Syntax { at: 8 }),
        (b"session s", SpecFault::Syntax { at: 9 }),
        (b"session s teardown {}", SpecFault::Syntax { at: 10 }),
        (
            b"teardown {} setup {} session s step a {}",
            SpecFault::Syntax { at: 12 },
        ),
        (b"session s step a {} }", SpecFault::Syntax { at: 20 }),
        (b"session s step 1 {}", SpecFault::Syntax { at: 15 }),
        (
            b"session s step a {} permutation",
            SpecFault::Syntax { at: 31 },
        ),
        (
            b"session s step a {} permutation a {}",
            SpecFault::Syntax { at: 34 },
        ),
        (
            b"session s step a {} permutation (",
            SpecFault::Syntax { at: 32 },
        ),
        (b"session s step a {} (", SpecFault::Syntax { at: 20 }),
        (
            b"session s step a {} permutation a (",
            SpecFault::Marker { at: 34 },
        ),
        (
            b"session s step a {} permutation a(b)",
            SpecFault::Marker { at: 33 },
        ),
        (
            b"session s step a {} step a {}",
            SpecFault::TwoSteps { at: 25 },
        ),
        (
            b"session s step a {} session t step \"a\" {} {",
            SpecFault::TwoSteps { at: 35 },
        ),
        (
            b"session s step a {} permutation b",
            SpecFault::NoStep { at: 32 },
        ),
        (
            b"session s step a {} permutation a s a",
            SpecFault::NoStep { at: 34 },
        ),
        (b"\xff", SpecFault::Utf8 { at: 0 }),
        (b"( session s step a { \xc3", SpecFault::Utf8 { at: 21 }),
        (
            b"session s step a {} # \xed\xa0\x80",
            SpecFault::Utf8 { at: 22 },
        ),
    ];
    for (bytes, wanted) in rows {
        let found = fault_of(rt.alloc(), bytes)?;
        assert_eq!(rt; found, Some(wanted));
    }
    Ok(())
}

// The place of the fault of each front of a text, none where it is a spec; for others the front's length.
fn place_in(rows: &[(u32, u32, Option<u32>)], length: u32) -> Option<u32> {
    for (from, to, at) in rows {
        if *from <= length && length <= *to {
            return *at;
        }
    }
    Some(length)
}

#[test]
fn fronts(rt: HostRuntime) -> Result<(), Fail> {
    let text =
        "setup { A } teardown { B } session s setup { C } step a { D } teardown { E } permutation a";
    let rows = [
        (1, 4, Some(0)),
        (13, 19, Some(12)),
        (28, 33, Some(27)),
        (38, 41, Some(37)),
        (50, 52, Some(49)),
        (61, 62, None),
        (63, 69, Some(62)),
        (76, 77, None),
        (78, 87, Some(77)),
        (90, 90, None),
    ];
    let bytes = text.as_bytes();
    for length in 0..=bytes.len() {
        let found = fault_of(rt.alloc(), &bytes[..length])?;
        let wanted = place_in(&rows, length as u32);
        assert_eq!(rt;
            found,
            wanted.map(|at| SpecFault::Syntax { at }),
            "{length}"
        );
    }
    Ok(())
}

fn repeated(
    alloc: Global,
    head: &str,
    piece: &str,
    count: u32,
    tail: &str,
) -> Result<String, Fail> {
    let mut text = String::from_str(alloc, head)?;
    for _ in 0..count {
        text.push_str(piece)?;
    }
    text.push_str(tail)?;
    Ok(text)
}

fn numbered(alloc: Global, sessions: u32) -> Result<String, Fail> {
    let mut text = String::new(alloc);
    for i in 0..sessions {
        write!(text, "session s step a{i:02} {{}}\n")?;
    }
    Ok(text)
}

#[test]
fn limits(rt: HostRuntime) -> Result<(), Fail> {
    let alloc = rt.alloc();
    let one = "session s step a {} ";
    let limit = |at, what| Some(SpecFault::Limit { at, what });
    let rows = [
        (numbered(alloc, 62)?, None),
        (
            numbered(alloc, 63)?,
            limit(62 * 22 + 8, SpecLimit::Sessions),
        ),
        (
            repeated(alloc, "session s step a {", "x", 65_536, " }")?,
            None,
        ),
        (
            repeated(alloc, "session s step a {", "x", 65_537, " }")?,
            limit(17, SpecLimit::Block),
        ),
        (repeated(alloc, one, "permutation a\n", 1000, "")?, None),
        (
            repeated(alloc, one, "permutation a\n", 1001, "")?,
            limit(14_020, SpecLimit::Permutations),
        ),
        (
            repeated(alloc, "session s step a {} permutation", " a", 1000, "")?,
            None,
        ),
        (
            repeated(alloc, "session s step a {} permutation", " a", 1001, "")?,
            limit(2032, SpecLimit::Steps),
        ),
        (
            repeated(alloc, "session s step a {} permutation", " a", 1000, " b")?,
            Some(SpecFault::NoStep { at: 2032 }),
        ),
        (
            repeated(alloc, "", " ", 4_194_304, "")?,
            Some(SpecFault::Syntax { at: 4_194_304 }),
        ),
    ];
    for (text, wanted) in rows {
        let found = fault_of(alloc, text.as_bytes())?;
        assert_eq!(rt; found, wanted);
    }
    Ok(())
}

// A setup or teardown block of the file or of a session that brings the work to its limit, and one with a `;` more.
#[test]
fn fixed_work(rt: HostRuntime) -> Result<(), Fail> {
    let alloc = rt.alloc();
    // The step, named a thousand times, is work 999,000.
    let step = repeated(alloc, "} session s step a {", ";", 998, "} ")?;
    let own_step = repeated(alloc, "} step a {", ";", 998, "} ")?;
    let before = repeated(alloc, "session s step a {", ";", 998, "} teardown {")?;
    let named = repeated(alloc, "permutation", " a", 1000, "")?;
    let rows = [
        ("setup {", step.as_str(), 2027),
        ("teardown {", step.as_str(), 2030),
        ("session s setup {", own_step.as_str(), 2027),
        (before.as_str(), "} ", 2030),
    ];
    for (front, back, at) in rows {
        let within = repeated(alloc, front, ";", 999, back)?;
        let text = repeated(alloc, within.as_str(), named.as_str(), 1, "")?;
        let found = fault_of(alloc, text.as_bytes())?;
        assert_eq!(rt; found, None);
        let past = repeated(alloc, front, ";", 1000, back)?;
        let text = repeated(alloc, past.as_str(), named.as_str(), 1, "")?;
        let found = fault_of(alloc, text.as_bytes())?;
        assert_eq!(rt;
            found,
            Some(SpecFault::Limit {
                at,
                what: SpecLimit::Work
            })
        );
    }
    Ok(())
}

#[test]
fn over_a_mebibyte(rt: HostRuntime) -> Result<(), Fail> {
    let alloc = rt.alloc();
    let mut text = String::from_str(alloc, "session s\n")?;
    for i in 0..20_000u32 {
        write!(
            text,
            "step a{i:05} {{ SELECT * FROM a_table_with_a_long_name; -- {i:05} }}\n"
        )?;
    }
    assert!(rt; text.len() > 1_048_576);
    let spec = read_spec(alloc, text.as_bytes())?;
    assert_eq!(rt; spec.blocks.len(), 20_000);
    let mut last = String::new(alloc);
    if let Some(block) = spec.blocks.get(19_999) {
        write!(last, "{} {}", block.name, block.text)?;
    }
    assert!(rt;
        last.as_str() == "a19999 SELECT * FROM a_table_with_a_long_name; -- 19999",
        "{last}"
    );
    Ok(())
}

#[test]
fn plain_names(rt: HostRuntime) -> Result<(), Fail> {
    let rows = [
        ("a", true),
        ("_", true),
        ("Setup$1", true),
        ("é", true),
        ("steps", true),
        ("step", false),
        ("setup", false),
        ("teardown", false),
        ("session", false),
        ("permutation", false),
        ("", false),
        ("1a", false),
        ("$a", false),
        ("a b", false),
        ("a\"", false),
    ];
    for (name, wanted) in rows {
        assert!(rt; is_plain(name) == wanted, "{name}");
    }
    Ok(())
}

#[test]
fn work(rt: HostRuntime) -> Result<(), Fail> {
    let alloc = rt.alloc();
    // A step of work 1,000, and a setup of work 20.
    let step = repeated(alloc, "session s step a {", ";", 999, "} step b {} ")?;
    let setup = repeated(alloc, "setup {", ";", 19, "} ")?;
    let thousand = repeated(alloc, "permutation", " a", 1000, "")?;
    let rows = [
        (
            repeated(alloc, step.as_str(), thousand.as_str(), 1, "")?,
            None,
        ),
        (
            repeated(alloc, step.as_str(), thousand.as_str(), 1, " permutation b")?,
            Some(SpecFault::Limit {
                at: 3041,
                what: SpecLimit::Work,
            }),
        ),
        (
            repeated(
                alloc,
                step.as_str(),
                thousand.as_str(),
                1,
                "( permutation b",
            )?,
            Some(SpecFault::Marker { at: 3040 }),
        ),
    ];
    for (text, wanted) in rows {
        let found = fault_of(alloc, text.as_bytes())?;
        assert_eq!(rt; found, wanted);
        let more = repeated(alloc, setup.as_str(), text.as_str(), 1, "")?;
        let fault = fault_of(alloc, more.as_bytes())?;
        assert_eq!(rt;
            fault,
            Some(SpecFault::Limit {
                at: 1057,
                what: SpecLimit::Work
            })
        );
    }
    Ok(())
}

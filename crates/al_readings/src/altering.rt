use crate::reading::brief;
use al_altersql::read_alter;
use al_statements::SqlFault;
use al_tokens::tokens;
use al_values::{Cant, NoMemory, Txt};
use std::alloc::Global;
use std::test::Fail;

// What stands from a token on.
#[derive(Clone, Copy, Debug, PartialEq, Eq)]
enum Found {
    // An ALTER TABLE, up to this token.
    UpTo(u32),
    Syntax(u32),
    NotInProfile(u32),
    NoTokens,
}

fn found_from(alloc: Global, text: &Txt, from: u32) -> Result<Found, NoMemory> {
    let tokens = match tokens(alloc, text) {
        Ok(tokens) => tokens,
        Err(Cant::NoMemory) => return Err(NoMemory),
        Err(Cant::Why(_)) => return Ok(Found::NoTokens),
    };
    if tokens.len() < from as usize {
        return Ok(Found::NoTokens);
    }
    match read_alter(alloc, &tokens, text, from) {
        Ok((_, next)) => Ok(Found::UpTo(next)),
        Err(Cant::Why(SqlFault::Syntax { at })) => Ok(Found::Syntax(at)),
        Err(Cant::Why(SqlFault::NotInProfile { at })) => Ok(Found::NotInProfile(at)),
        Err(Cant::NoMemory) => Err(NoMemory),
    }
}

#[test]
fn from_a_token(rt: HostRuntime) -> Result<(), Fail> {
    let rows = [
        ("ALTER TABLE t DROP a", 0, Found::UpTo(5)),
        ("ALTER TABLE t DROP a; COMMIT", 0, Found::UpTo(5)),
        (
            "COMMIT; ALTER TABLE ONLY t DROP a, DROP b;",
            2,
            Found::UpTo(11),
        ),
        ("ALTER TABLE t DROP a CASCADE", 0, Found::UpTo(5)),
        (
            "ALTER TABLE t ADD CHECK (a > 0) NOT VALID",
            0,
            Found::UpTo(12),
        ),
        ("ALTER TABLE t ADD UNIQUE (a) NOT VALID", 0, Found::UpTo(8)),
        ("ALTER TABLE t", 0, Found::Syntax(13)),
        ("ALTER TABLE t DROP a, DROP", 0, Found::Syntax(26)),
        ("ALTER TABLE t ADD a int DEFAULT )", 0, Found::Syntax(32)),
        ("ALTER TABLE t ADD a numeric", 0, Found::NotInProfile(20)),
        ("COMMIT", 0, Found::Syntax(0)),
        ("COMMIT", 1, Found::Syntax(6)),
    ];
    for (text, from, wanted) in rows {
        let text = Txt::new(rt.alloc(), text)?;
        let found = found_from(rt.alloc(), &text, from)?;
        assert_eq!(rt; found, wanted, "{text} {from}");
    }
    Ok(())
}

fn printed(alloc: Global, text: &Txt) -> Result<Txt, NoMemory> {
    let Ok(tokens) = tokens(alloc, text) else {
        return Txt::new(alloc, "no tokens");
    };
    match read_alter(alloc, &tokens, text, 0) {
        Ok((alter, _)) => brief(alloc, format!(in alloc; "{alter:?}")?),
        Err(_) => Txt::new(alloc, "no ALTER TABLE"),
    }
}

#[test]
fn in_front_of_others(rt: HostRuntime) -> Result<(), Fail> {
    let text = Txt::new(rt.alloc(), "ALTER TABLE ONLY t DROP a, DROP b; COMMIT")?;
    let wanted = "Alter target: ONLY t, change: Subs([DropColumn(a), DropColumn(b)])";
    assert_eq!(rt; printed(rt.alloc(), &text)?.as_str(), wanted);
    Ok(())
}

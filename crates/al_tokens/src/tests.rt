use crate::{Ending, Lex, Sign, Token, TokenKind, front_tokens, tokens};
use al_values::{Cant, Txt};
use std::test::Fail;

type Row<'a> = (&'a str, &'a [(TokenKind, u32, u32)]);

fn are(found: &[Token], wanted: &[(TokenKind, u32, u32)]) -> bool {
    found.len() == wanted.len()
        && found.iter().zip(wanted.iter()).all(|(token, (kind, start, end))| {
            token.kind == *kind && token.start == *start && token.end == *end
        })
}

#[test]
fn tokens_and_places(rt: HostRuntime) -> Result<(), Fail> {
    let name = TokenKind::QuotedName;
    let text = TokenKind::Text;
    let word = TokenKind::Word;
    let integer = TokenKind::Integer;
    let odd = TokenKind::OddNumber;
    let rows: [Row; 19] = [
        ("", &[]),
        ("SELECT a_1", &[(word, 0, 6), (word, 7, 10)]),
        (" \t\n\x0b\x0c\r_x", &[(word, 6, 8)]),
        ("12", &[(integer, 0, 2)]),
        ("12abc.5 3", &[(odd, 0, 7), (integer, 8, 9)]),
        ("1.", &[(odd, 0, 2)]),
        ("1_000", &[(integer, 0, 1), (word, 1, 5)]),
        ("'it''s'", &[(text, 0, 7)]),
        ("''", &[(text, 0, 2)]),
        ("\"a\"\"b\"", &[(name, 0, 6)]),
        ("\"\"\"\"", &[(name, 0, 4)]),
        ("a--b\nc", &[(word, 0, 1), (word, 5, 6)]),
        ("a --", &[(word, 0, 1)]),
        ("'é' \"é\"", &[(text, 0, 4), (name, 5, 9)]),
        (
            "t.1-b",
            &[
                (word, 0, 1),
                (TokenKind::Sign(Sign::Point), 1, 2),
                (integer, 2, 3),
                (TokenKind::Sign(Sign::Minus), 3, 4),
                (word, 4, 5),
            ],
        ),
        (
            "<=>",
            &[
                (TokenKind::Sign(Sign::LessOrEqual), 0, 2),
                (TokenKind::Sign(Sign::Greater), 2, 3),
            ],
        ),
        (
            "<<>",
            &[
                (TokenKind::Sign(Sign::Less), 0, 1),
                (TokenKind::Sign(Sign::NotEqual), 1, 3),
            ],
        ),
        (
            "<> != <= >= || ::",
            &[
                (TokenKind::Sign(Sign::NotEqual), 0, 2),
                (TokenKind::Sign(Sign::NotEqual), 3, 5),
                (TokenKind::Sign(Sign::LessOrEqual), 6, 8),
                (TokenKind::Sign(Sign::GreaterOrEqual), 9, 11),
                (TokenKind::Sign(Sign::Joined), 12, 14),
                (TokenKind::Sign(Sign::Cast), 15, 17),
            ],
        ),
        (
            "( ) , ; . = < > + - * / %",
            &[
                (TokenKind::Sign(Sign::LeftParen), 0, 1),
                (TokenKind::Sign(Sign::RightParen), 2, 3),
                (TokenKind::Sign(Sign::Comma), 4, 5),
                (TokenKind::Sign(Sign::Semicolon), 6, 7),
                (TokenKind::Sign(Sign::Point), 8, 9),
                (TokenKind::Sign(Sign::Equal), 10, 11),
                (TokenKind::Sign(Sign::Less), 12, 13),
                (TokenKind::Sign(Sign::Greater), 14, 15),
                (TokenKind::Sign(Sign::Plus), 16, 17),
                (TokenKind::Sign(Sign::Minus), 18, 19),
                (TokenKind::Sign(Sign::Star), 20, 21),
                (TokenKind::Sign(Sign::Slash), 22, 23),
                (TokenKind::Sign(Sign::Percent), 24, 25),
            ],
        ),
    ];
    for (text, wanted) in rows {
        let found = tokens(rt.alloc(), &Txt::new(rt.alloc(), text)?)?;
        assert!(rt; are(found.as_slice(), wanted), "{text:?}: {found:?}");
    }
    Ok(())
}

#[test]
fn faults(rt: HostRuntime) -> Result<(), Fail> {
    let rows = [
        ("a | b", 2),
        ("1|2", 1),
        ("!", 0),
        ("a:", 1),
        ("'", 1),
        ("'ab", 3),
        ("'a''", 4),
        ("\"ab", 3),
        ("\"\"\"", 3),
        ("a \"\" b", 2),
        ("é", 0),
        ("aé", 1),
        ("a -- x\n$", 7),
    ];
    for (text, at) in rows {
        let found = tokens(rt.alloc(), &Txt::new(rt.alloc(), text)?);
        assert_eq!(rt; found.err(), Some(Cant::Why(Lex { at })), "{text:?}");
    }
    Ok(())
}

#[test]
fn tokens_in_front(rt: HostRuntime) -> Result<(), Fail> {
    let rows = [
        ("SELECT a --", 2, Ending::Whole),
        ("SELECT 1 @ 2", 2, Ending::Stray { at: 9 }),
        ("a \"\" b", 1, Ending::Stray { at: 2 }),
        ("SELECT 1 FROM 'abc", 3, Ending::OpenText { at: 14 }),
        ("b, \"ab\"\"", 2, Ending::OpenName { at: 3 }),
        ("'", 0, Ending::OpenText { at: 0 }),
    ];
    for (text, count, ending) in rows {
        let found = front_tokens(rt.alloc(), &Txt::new(rt.alloc(), text)?)?;
        assert_eq!(rt; found.tokens.len(), count, "{text:?}");
        assert_eq!(rt; found.ending, ending, "{text:?}");
    }
    Ok(())
}

// More bytes than 16 bits count.
#[test]
fn long_text(rt: HostRuntime) -> Result<(), Fail> {
    let mut text = String::new(rt.alloc());
    for _ in 0..40_000 {
        text.push_str("a,")?;
    }
    text.push_str("é")?;
    let found = front_tokens(rt.alloc(), &Txt::from_string(text))?;
    assert_eq!(rt; found.tokens.len(), 80_000);
    assert_eq!(rt; found.ending, Ending::Stray { at: 80_000 });
    let last = found.tokens.get(79_999).map(|token| token.start);
    assert_eq!(rt; last, Some(79_999));
    Ok(())
}

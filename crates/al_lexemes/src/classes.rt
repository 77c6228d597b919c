ghost use Rattle.std.specs.Prelude.{ℕ, true, false, ◌≡◌, ◌<◌, ◌≤◌, ◌&&◌, Some, None, length, pos, IfOk, if◌then◌else◌};
ghost use Rattle.al_grammar.specs.Kinds.{among};
ghost use Rattle.al_phrases.specs.Kinds.{names};
ghost use Rattle.al_tokens.specs.declared.kinds.TokenKind.TheVariants as kinds;
ghost use Rattle.al_tokens.specs.Tokens.{Spans, IsToken};
ghost use Rattle.al_lexemes.specs.Classes.{bare, named, integer, lexeme_by, lexeme_of, lexemes_of, opens, is_paren_kind, sign_kind, outside, outside_by, is_long, is_wide, stand_in, stand_in_kind};

use crate::texts::{number_of, quoted_of, word_of};
use crate::words::{is_left_out, word_kind};
use al_phrases::kinds::{
    BEGIN, CAST_SIGN, COMMA, DEEP_NOT, DEEP_PAREN, DEEP_SIGN, EQUAL, FOR, GREATER,
    GREATER_OR_EQUAL, INTEGER_TOKEN, JOINED, LATE_FOR, LEFT_PAREN, LENGTH_CALL, LESS,
    LESS_OR_EQUAL, MINUS, NAME, NOT, NOT_EQUAL, PERCENT, PLUS, POINT, RIGHT_PAREN, SEMICOLON,
    SLASH, STAR, TEXT_TOKEN, UNTAKEN,
};
use al_phrases::{Lexeme, LexemeList};
use al_tokens::{Sign, Token, TokenKind};
use al_values::{ListOf, NoMemory, Txt};
use std::alloc::Global;

fn sign_kind(sign: Sign) -> u8
    ensures { result ≡ sign_kind sign }
{
    match sign {
        Sign::LeftParen => LEFT_PAREN,
        Sign::RightParen => RIGHT_PAREN,
        Sign::Comma => COMMA,
        Sign::Semicolon => SEMICOLON,
        Sign::Point => POINT,
        Sign::Equal => EQUAL,
        Sign::NotEqual => NOT_EQUAL,
        Sign::Less => LESS,
        Sign::LessOrEqual => LESS_OR_EQUAL,
        Sign::Greater => GREATER,
        Sign::GreaterOrEqual => GREATER_OR_EQUAL,
        Sign::Plus => PLUS,
        Sign::Minus => MINUS,
        Sign::Star => STAR,
        Sign::Slash => SLASH,
        Sign::Percent => PERCENT,
        Sign::Joined => JOINED,
        Sign::Cast => CAST_SIGN,
    }
}

// A token without a text or a number.
fn bare(alloc: Global, kind: u8, place: u32) -> Lexeme
    ensures { result ≡ bare kind place }
{
    Lexeme {
        kind,
        called: false,
        place,
        text: Txt::from_string(String::new(alloc)),
        number: 0,
    }
}

// Whether a name is over 63 bytes.
fn is_long(name: &Txt) -> bool
    ensures { result ≡ is_long name.now }
{
    name.as_bytes().len() > 63
}

// Whether a kind may be a name.
#[tactic(auto, using(al_phrases::proofs::NameKinds::name_kinds, al_phrases::proofs::NameKinds::below_names, al_phrases::proofs::NameKinds::above_names))]
fn may_be_name(kind: u8) -> bool
    ensures { result ≡ among kind names }
{
    if kind < BEGIN {
        return false;
    }
    if LENGTH_CALL < kind {
        return false;
    }
    true
}

// A word or a quoted name.
fn named(alloc: Global, kind: u8, paren: bool, place: u32, name: Txt) -> Lexeme
    ensures { result ≡ named kind paren place name }
{
    if is_long(&name) {
        return bare(alloc, UNTAKEN, place);
    }
    Lexeme {
        kind,
        called: paren && may_be_name(kind),
        place,
        text: name,
        number: 0,
    }
}

// An integer, or what no rule takes where it is too wide.
fn integer(alloc: Global, place: u32, number: Option<i64>) -> Lexeme
    ensures { (value : ℕ) → number ≡ (if is_wide value then None else Some (pos value)) → result ≡ integer place value }
{
    match number {
        None => bare(alloc, UNTAKEN, place),
        Some(number) => Lexeme {
            kind: INTEGER_TOKEN,
            called: false,
            place,
            text: Txt::from_string(String::new(alloc)),
            number,
        },
    }
}

// A word, as the parenthesis behind it lets it be read.
fn word(alloc: Global, text: &Txt, token: Token, paren: bool) -> Result<Lexeme, NoMemory>
    requires is { IsToken kinds.Word text.now token.start token.end }
    requires rises { token.start < token.end }
    ensures { IfOk result (λ it. it ≡ lexeme_by kinds.Word text.now token paren) }
{
    let word = word_of(alloc, text, token)?;
    let kind = word_kind(paren, word.as_bytes());
    Ok(named(alloc, kind, paren, token.start, word))
}

// A text in single quotes.
fn quoted_text(alloc: Global, text: &Txt, token: Token) -> Result<Lexeme, NoMemory>
    requires is { IsToken kinds.Text text.now token.start token.end }
    requires within { token.end ≤ length text.now }
    ensures { IfOk result (λ it. it ≡ lexeme_by kinds.Text text.now token false) }
{
    Ok(Lexeme {
        kind: TEXT_TOKEN,
        called: false,
        place: token.start,
        text: quoted_of(alloc, b'\'', text, token)?,
        number: 0,
    })
}

/// A token classed, where a parenthesis may stand directly behind it.
#[tactic(auto, unfolding(crate::specs::Classes::lexeme_of))]
fn lexeme_of(alloc: Global, text: &Txt, token: Token, paren: bool) -> Result<Lexeme, NoMemory>
    requires is { IsToken token.kind text.now token.start token.end }
    requires rises { token.start < token.end }
    requires within { token.end ≤ length text.now }
    ensures { IfOk result (λ it. it ≡ lexeme_of text.now token paren) }
{
    match token.kind {
        TokenKind::Word => word(alloc, text, token, paren),
        TokenKind::QuotedName => {
            let name = quoted_of(alloc, b'"', text, token)?;
            Ok(named(alloc, NAME, paren, token.start, name))
        }
        TokenKind::Integer => Ok(integer(alloc, token.start, number_of(text, token))),
        TokenKind::Text => quoted_text(alloc, text, token),
        TokenKind::Sign(sign) => Ok(bare(alloc, sign_kind(sign), token.start)),
        TokenKind::OddNumber => Ok(bare(alloc, UNTAKEN, token.start)),
    }
}

fn is_paren(kind: TokenKind) -> bool
    ensures { result ≡ is_paren_kind kind }
{
    match kind {
        TokenKind::Sign(Sign::LeftParen) => true,
        _ => false,
    }
}

// Whether tokens begin with a parenthesis.
fn opens(tokens: &[Token]) -> bool
    ensures { result ≡ opens tokens.now false }
{
    match tokens.first() {
        None => false,
        Some(token) => is_paren(token.kind),
    }
}

/// The tokens of a text, or those from one of its tokens on, classed as the grammar tells them apart (4.1).
#[tactic(auto, unfolding(crate::specs::Classes::lexemes_of))]
pub fn lexemes(alloc: Global, text: &Txt, tokens: &[Token]) -> Result<LexemeList, NoMemory>
    requires { Spans text.now 0 tokens.now }
    ensures { IfOk result (λ all. all ≡ lexemes_of text.now tokens.now) }
{
    let mut all = ListOf::new(alloc);
    let mut rest = tokens;
    while let [token, behind @ ..] = rest {
        all.push(lexeme_of(alloc, text, *token, opens(behind))?)?;
        rest = behind;
    }
    Ok(all)
}

// Whether a word is over 63 bytes, or one of those that are left out.
fn is_outside_word(alloc: Global, text: &Txt, token: Token) -> Result<bool, NoMemory>
    requires is { IsToken kinds.Word text.now token.start token.end }
    requires rises { token.start < token.end }
    ensures { IfOk result (λ it. it ≡ outside_by kinds.Word text.now token) }
{
    let word = word_of(alloc, text, token)?;
    Ok(is_long(&word) || is_left_out(word.as_bytes()))
}

/// Whether a token is SQL's, but never read here: a number that is too wide, digits with a point or letter, a `.`, a name
/// over 63 bytes, or one of the words that are left out.
#[tactic(auto, unfolding(crate::specs::Classes::outside))]
pub fn is_outside(alloc: Global, text: &Txt, token: Token) -> Result<bool, NoMemory>
    requires is { IsToken token.kind text.now token.start token.end }
    requires rises { token.start < token.end }
    requires within { token.end ≤ length text.now }
    ensures { IfOk result (λ it. it ≡ outside text.now token) }
{
    match token.kind {
        TokenKind::Word => is_outside_word(alloc, text, token),
        TokenKind::QuotedName => Ok(is_long(&quoted_of(alloc, b'"', text, token)?)),
        TokenKind::Integer => Ok(number_of(text, token).is_none()),
        TokenKind::OddNumber | TokenKind::Sign(Sign::Point) => Ok(true),
        TokenKind::Text | TokenKind::Sign(_) => Ok(false),
    }
}

fn stand_in_kind(lexeme: &Lexeme) -> u8
    ensures { result ≡ stand_in_kind lexeme.now }
{
    if lexeme.called {
        return NAME;
    }
    match lexeme.kind {
        LEFT_PAREN => DEEP_PAREN,
        NOT => DEEP_NOT,
        PLUS | MINUS => DEEP_SIGN,
        FOR => LATE_FOR,
        kind => kind,
    }
}

/// What stands in for a token where a rule names it and leaves it out: for a parenthesis, NOT or a sign one that opens a
/// level too many, for FOR one behind aggregates, for a name directly before a parenthesis a plain one. Any other stands
/// for itself.
#[tactic(auto, unfolding(crate::specs::Classes::stand_in))]
pub fn stand_in(lexeme: Lexeme) -> Lexeme
    ensures { result ≡ stand_in lexeme }
{
    let kind = stand_in_kind(&lexeme);
    Lexeme {
        kind,
        called: false,
        ..lexeme
    }
}

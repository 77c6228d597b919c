ghost use Rattle.std.specs.Prelude.{ℕ, [], ◌∷◌, ◌++◌, ◌≡◌, ◌≤◌, ◌<◌, ◌+◌, ◌^◌, length, get_or, slice_range, IsCharBoundary, IsUtf8, IfOk, IfSome, Ok};
ghost use Rattle.std.specs.List.{list_all};
ghost use Rattle.al_spec.specs.Bytes.{at, begun, goes_on, Quoted};
ghost use Rattle.al_spec.specs.Tokens.{word_of, plain, is_plain, IsQuote, IsPiece, GoesOn, Reads, AreTokens};
ghost use Rattle.al_spec.specs.declared.bytes.Begins.TheVariants as begins;

use crate::bytes::{Begins, at, begins_name, begun, goes_on, run_end, seek, trimmed};
use crate::kinds::{Lexeme, Token, TokenList, Word};
use crate::lent::Lent;
use al_values::{ListOf, NoMemory, Txt};
use std::alloc::Global;

/// What a name in double quotes is.
#[derive(Drop)]
pub enum Quote<'a> {
    /// The name, and where it ends.
    Closed(Lent<'a>, usize),
    /// It isn't closed, and has no line feed.
    Open,
    /// It has a line feed.
    Broken,
}

/// What stands at a place of a text.
#[derive(Drop)]
pub enum Piece<'a> {
    /// Blanks or a comment, and where they end.
    Gap(usize),
    /// A token, and where it ends.
    Token(Lexeme<'a>, usize),
    /// What isn't closed.
    Open(Lexeme<'a>),
    /// What begins no token.
    Bad(Lexeme<'a>),
}

// The word that a text is, where it is one of the five.
#[tactic(auto, unfolding(crate::specs::Tokens::word_of))]
fn word_of(text: &str) -> Option<Word>
    ensures { result ≡ word_of text.now }
{
    if text == "setup" {
        return Some(Word::Setup);
    }
    if text == "teardown" {
        return Some(Word::Teardown);
    }
    if text == "session" {
        return Some(Word::Session);
    }
    if text == "step" {
        return Some(Word::Step);
    }
    if text == "permutation" {
        return Some(Word::Permutation);
    }
    None
}

// Whether bytes go on a name.
fn all_go_on(bytes: &[u8]) -> bool
    ensures { result ≡ list_all goes_on bytes.now }
{
    bytes.iter().all(|byte| goes_on(*byte))
}

/// Whether a name can stand without double quotes: an ASCII letter, `_` or a character past ASCII, followed by any of
/// these, ASCII digits and `$`, other than the five words.
pub fn is_plain(name: &str) -> bool
    ensures { result ≡ is_plain name.now }
{
    match name.as_bytes() {
        [] => false,
        [first, rest @ ..] => { begins_name(*first) && all_go_on(rest) && word_of(name).is_none() }
    }
}

// One of the five words, or a name.
fn plain<'a>(text: &'a str) -> Lexeme<'a>
    ensures { result ≡ plain text.now }
{
    match word_of(text) {
        Some(word) => Lexeme::Word(word),
        None => Lexeme::Name(Lent::lent(text)),
    }
}

// A name in double quotes that begin at a place, lent where it stands in the text as it is; none where it has `""`.
fn quoted_as_is<'a>(text: &'a str, start: usize) -> Option<Quote<'a>>
    requires inside { start < length text.now }
    requires boundary { IsCharBoundary text.now (start + 1) }
    ensures { IfSome result (λ quote. IsQuote text.now start quote) }
{
    let bytes = text.as_bytes();
    let from = start + 1;
    let found = seek(b'"', bytes, from, bytes.len());
    let feed = seek(b'\n', bytes, from, found);
    if feed < found {
        return Some(Quote::Broken);
    }
    if found == bytes.len() {
        return Some(Quote::Open);
    }
    if at(bytes, found + 1) == b'"' {
        return None;
    }
    Some(Quote::Closed(Lent::lent(&text[from..found]), found + 1))
}

// A name in double quotes that begin at a place, made anew with one quote for `""`.
fn quoted_anew<'a>(alloc: Global, text: &'a str, start: usize) -> Result<Quote<'a>, NoMemory>
    requires inside { start < length text.now }
    requires boundary { IsCharBoundary text.now (start + 1) }
    ensures { IfOk result (λ quote. IsQuote text.now start quote) }
{
    let bytes = text.as_bytes();
    let mut name = String::new(alloc);
    let mut place = start + 1;
    while place < bytes.len() {
        let found = seek(b'"', bytes, place, bytes.len());
        let feed = seek(b'\n', bytes, place, found);
        if feed < found {
            return Ok(Quote::Broken);
        }
        if found == bytes.len() {
            return Ok(Quote::Open);
        }
        name.push_str(&text[place..found])?;
        if at(bytes, found + 1) != b'"' {
            return Ok(Quote::Closed(Lent::own(Txt::from_string(name)), found + 1));
        }
        name.push_str("\"")?;
        place = found + 2;
    }
    Ok(Quote::Open)
}

// A name in double quotes that begin at a place.
fn quoted<'a>(alloc: Global, text: &'a str, start: usize) -> Result<Quote<'a>, NoMemory>
    requires inside { start < length text.now }
    requires boundary { IsCharBoundary text.now (start + 1) }
    ensures { IfOk result (λ quote. IsQuote text.now start quote) }
{
    match quoted_as_is(text, start) {
        Some(quote) => Ok(quote),
        None => quoted_anew(alloc, text, start),
    }
}

// A word or a plain name at a place.
fn plain_piece<'a>(text: &'a str, place: usize) -> Piece<'a>
    requires inside { place < length text.now }
    requires boundary { IsCharBoundary text.now place }
    requires begins { begun (at text.now place) ≡ begins.Name }
    ensures is { IsPiece text.now place result }
    ensures on { GoesOn text.now place result }
{
    let end = run_end(text.as_bytes(), place);
    Piece::Token(plain(&text[place..end]), end)
}

// A name in double quotes at a place.
fn quoted_piece<'a>(alloc: Global, text: &'a str, place: usize) -> Result<Piece<'a>, NoMemory>
    requires inside { place < length text.now }
    requires boundary { IsCharBoundary text.now (place + 1) }
    requires begins { begun (at text.now place) ≡ begins.Quote }
    ensures is { IfOk result (λ piece. IsPiece text.now place piece) }
    ensures on { IfOk result (λ piece. GoesOn text.now place piece) }
{
    match quoted(alloc, text, place)? {
        Quote::Open => Ok(Piece::Open(Lexeme::OpenName)),
        Quote::Broken => Ok(Piece::Bad(Lexeme::Stray)),
        Quote::Closed(name, end) => {
            if name.as_str().is_empty() {
                return Ok(Piece::Bad(Lexeme::Stray));
            }
            Ok(Piece::Token(Lexeme::Name(name), end))
        }
    }
}

// A block at a place.
fn block_piece<'a>(text: &'a str, place: usize) -> Piece<'a>
    requires inside { place < length text.now }
    requires boundary { IsCharBoundary text.now (place + 1) }
    requires begins { begun (at text.now place) ≡ begins.Block }
    ensures is { IsPiece text.now place result }
    ensures on { GoesOn text.now place result }
{
    let close = seek(b'}', text.as_bytes(), place, text.len());
    if close == text.len() {
        return Piece::Open(Lexeme::OpenBlock);
    }
    let block = Lent::lent(trimmed(text, place + 1, close));
    Piece::Token(Lexeme::Block(block), close + 1)
}

// What stands at a place.
fn piece_at<'a>(alloc: Global, text: &'a str, place: usize) -> Result<Piece<'a>, NoMemory>
    requires inside { place < length text.now }
    requires boundary { IsCharBoundary text.now place }
    ensures is { IfOk result (λ piece. IsPiece text.now place piece) }
    ensures on { IfOk result (λ piece. GoesOn text.now place piece) }
{
    let bytes = text.as_bytes();
    match begun(at(bytes, place)) {
        Begins::Blank => Ok(Piece::Gap(place + 1)),
        Begins::Comment => Ok(Piece::Gap(seek(b'\n', bytes, place, bytes.len()))),
        Begins::Name => Ok(plain_piece(text, place)),
        Begins::Quote => quoted_piece(alloc, text, place),
        Begins::Block => Ok(block_piece(text, place)),
        Begins::Paren => Ok(Piece::Bad(Lexeme::Paren)),
        Begins::Nothing => Ok(Piece::Bad(Lexeme::Stray)),
    }
}

/// The tokens of a text.
pub fn tokens<'a>(alloc: Global, text: &'a str) -> Result<TokenList<'a>, NoMemory>
    requires { length text.now < 2 ^ 32 }
    ensures { IfOk result (λ ts. AreTokens text.now ts) }
{
    let mut tokens = ListOf::new(alloc);
    let mut place = 0;
    while place < text.len() {
        let start = place as u32;
        match piece_at(alloc, text, place)? {
            Piece::Gap(next) => place = next,
            Piece::Token(lexeme, next) => {
                tokens.push(Token { lexeme, start })?;
                place = next;
            }
            Piece::Open(lexeme) => {
                tokens.push(Token { lexeme, start })?;
                tokens.push(Token {
                    lexeme: Lexeme::Unclosed,
                    start: text.len() as u32,
                })?;
                return Ok(tokens);
            }
            Piece::Bad(lexeme) => {
                tokens.push(Token { lexeme, start })?;
                return Ok(tokens);
            }
        }
    }
    Ok(tokens)
}

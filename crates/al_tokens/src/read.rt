ghost use Rattle.std.specs.Prelude.{ℕ, true, ◌≡◌, ◌≤◌, ◌<◌, ◌+◌, ◌^◌, ◌⊎◌, List, length, Some, None, Ok, Err, IfOk, IfErr};
ghost use Rattle.al_values.specs.Gives.{GivesUnlessNoMemory};
ghost use Rattle.al_values.specs.declared.cant.Cant.TheVariants as cants;
ghost use Rattle.std.specs.Char.{is_ascii_digit};
ghost use Rattle.al_tokens.specs.Bytes.{at};
ghost use Rattle.al_tokens.specs.Tokens.{IsGap, IsToken, IsPiece, IfWhy, AreTokens, FaultAt, IsFront, Spans, Stops, ending_of, whole_of};
ghost use Rattle.al_tokens.specs.declared.kinds.Front.{Front};
ghost use Rattle.al_tokens.specs.declared.kinds.TokenKind.TheVariants as kinds;

use crate::bytes::{Begins, Class, Stop, at, begun, closed, is_of, run_end, seek, width};
use crate::{Ending, Front, Lex, Token, TokenKind, TokenList};
use al_values::{Cant, ListOf, NoMemory, Txt};
use std::alloc::Global;

// An integer or an odd number, with its end.
fn number(text: &[u8], place: usize) -> (TokenKind, usize)
    requires inside { place < length text.now }
    requires digit { is_ascii_digit (at text.now place) ≡ true }
    ensures found { IsToken result.0 text.now place result.1 }
    ensures rises { place < result.1 }
    ensures within { result.1 ≤ length text.now }
{
    let digits = run_end(Class::Digit, text, place);
    if !is_of(Class::Number, at(text, digits)) {
        return (TokenKind::Integer, digits);
    }
    (TokenKind::OddNumber, run_end(Class::Number, text, digits))
}

// A quoted name's end, or why there is none.
fn quoted_name(text: &[u8], place: usize) -> Result<usize, Stop>
    requires inside { place < length text.now }
    requires quote { at text.now place ≡ 34 }
    ensures found { IfOk result (λ end. IsToken kinds.QuotedName text.now place end) }
    ensures rises { IfOk result (λ end. (place < end) × (end ≤ length text.now)) }
    ensures stops { IfErr result (λ stop. Stops stop text.now place) }
{
    match closed(b'"', text, place + 1) {
        None => Err(Stop::OpenName),
        Some(end) => {
            if end == place + 2 {
                return Err(Stop::Stray);
            }
            Ok(end)
        }
    }
}

// A text's end, or why there is none.
fn quoted_text(text: &[u8], place: usize) -> Result<usize, Stop>
    requires inside { place < length text.now }
    requires quote { at text.now place ≡ 39 }
    ensures found { IfOk result (λ end. IsToken kinds.Text text.now place end) }
    ensures rises { IfOk result (λ end. (place < end) × (end ≤ length text.now)) }
    ensures stops { IfErr result (λ stop. Stops stop text.now place) }
{
    match closed(b'\'', text, place + 1) {
        None => Err(Stop::OpenText),
        Some(end) => Ok(end),
    }
}

// The gap or the token that begins at a place, with its end; or why there is none.
fn piece(text: &[u8], place: usize) -> Result<(Option<TokenKind>, usize), Stop>
    requires inside { place < length text.now }
    ensures found { IfOk result (λ piece. IsPiece piece.0 text.now place piece.1) }
    ensures rises { IfOk result (λ piece. (place < piece.1) × (piece.1 ≤ length text.now)) }
    ensures stops { IfErr result (λ stop. Stops stop text.now place) }
{
    match begun(at(text, place), at(text, place + 1)) {
        Begins::Blank => Ok((None, place + 1)),
        Begins::Comment => Ok((None, seek(b'\n', text, place))),
        Begins::Word => Ok((Some(TokenKind::Word), run_end(Class::Word, text, place))),
        Begins::Number => {
            let (kind, end) = number(text, place);
            Ok((Some(kind), end))
        }
        Begins::QuotedName => {
            let end = quoted_name(text, place)?;
            Ok((Some(TokenKind::QuotedName), end))
        }
        Begins::Text => {
            let end = quoted_text(text, place)?;
            Ok((Some(TokenKind::Text), end))
        }
        Begins::Sign(sign) => Ok((Some(TokenKind::Sign(sign)), place + width(sign))),
        Begins::Nothing => Err(Stop::Stray),
    }
}

// What ends the tokens at a place.
fn ending(stop: Stop, at: u32) -> Ending
    ensures { result ≡ ending_of stop at }
{
    match stop {
        Stop::Stray => Ending::Stray { at },
        Stop::OpenName => Ending::OpenName { at },
        Stop::OpenText => Ending::OpenText { at },
    }
}

fn read(alloc: Global, text: &[u8]) -> Result<Front, NoMemory>
    requires { length text.now < 2 ^ 32 }
    ensures { IfOk result (λ front. IsFront text.now front) }
{
    let mut tokens = ListOf::new(alloc);
    let mut place = 0;
    while place < text.len() {
        match piece(text, place) {
            Err(stop) => {
                return Ok(Front {
                    tokens,
                    ending: ending(stop, place as u32),
                });
            }
            Ok((kind, end)) => {
                if let Some(kind) = kind {
                    tokens.push(Token {
                        kind,
                        start: place as u32,
                        end: end as u32,
                    })?;
                }
                place = end;
            }
        }
    }
    Ok(Front {
        tokens,
        ending: Ending::Whole,
    })
}

/// The tokens in front of the first place where none begins, with what stands there: the text's end, a byte that begins
/// none, or a quote that nothing closes. A text of more than 2^32 - 1 bytes finds no memory.
#[tactic(auto, using(crate::proofs::Fronts::only_front, crate::proofs::Fronts::front_spans))]
pub fn front_tokens(alloc: Global, text: &Txt) -> Result<Front, NoMemory>
    ensures found { IfOk result (λ front. IsFront text.now front) }
    ensures only { (front : Front) → IsFront text.now front → IfOk result (λ it. it ≡ front) }
    ensures spans { IfOk result (λ front. Spans text.now 0 front.tokens) }
    ensures short { IfOk result (λ front. length text.now < 2 ^ 32) }
{
    let bytes = text.as_bytes();
    if bytes.len() > u32::MAX as usize {
        return Err(NoMemory);
    }
    read(alloc, bytes)
}

// The tokens, where nothing but the text's end ends them.
fn whole(front: Front, length: u32) -> Result<TokenList, Cant<Lex>>
    ensures { result ≡ whole_of front length }
{
    let Front { tokens, ending } = front;
    match ending {
        Ending::Whole => Ok(tokens),
        Ending::Stray { at } => Err(Cant::Why(Lex { at })),
        Ending::OpenName { at: _ } | Ending::OpenText { at: _ } => {
            Err(Cant::Why(Lex { at: length }))
        }
    }
}

/// The tokens of a text, with their places in it; or the first place where it has none. A text of more than 2^32 - 1
/// bytes finds no memory.
pub fn tokens(alloc: Global, text: &Txt) -> Result<TokenList, Cant<Lex>>
    ensures found { IfOk result (λ ts. AreTokens text.now ts) }
    ensures only { (ts : List Token) → AreTokens text.now ts → GivesUnlessNoMemory result (Ok ts) }
    ensures fault { IfWhy result (λ lex. FaultAt text.now lex.at) }
    ensures only_fault { (n : ℕ) → FaultAt text.now n → GivesUnlessNoMemory result (Err (record { at = n })) }
    ensures spans { IfOk result (λ ts. Spans text.now 0 ts) }
    ensures long { 2 ^ 32 ≤ length text.now → result ≡ Err cants.NoMemory }
{
    let bytes = text.as_bytes();
    if bytes.len() > u32::MAX as usize {
        return Err(Cant::NoMemory);
    }
    whole(read(alloc, bytes)?, bytes.len() as u32)
}

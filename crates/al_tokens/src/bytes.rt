ghost use Rattle.std.specs.Prelude.{ℕ, ◌≡◌, ◌≤◌, ◌<◌, ◌+◌, length, get_or, IfSome, IfNone};
ghost use Rattle.al_tokens.specs.Bytes.{at, is_blank, begins_word, is_of, Run, First, Closed};
ghost use Rattle.al_tokens.specs.Begun.{long_sign, short_sign, begun};
ghost use Rattle.al_tokens.specs.Signs.{width};

use crate::Sign;
use memchr::memchr;

/// Bytes of which as many are taken as follow.
#[derive(Clone, Copy, Debug, Drop)]
pub enum Class {
    /// ASCII letters, digits and `_`.
    Word,
    /// Digits.
    Digit,
    /// ASCII letters, digits and points.
    Number,
}

/// What a byte begins.
#[derive(Clone, Copy, Debug, Drop)]
pub enum Begins {
    /// A blank, which is one byte.
    Blank,
    /// A comment.
    Comment,
    /// A word.
    Word,
    /// An integer or an odd number.
    Number,
    /// A quoted name.
    QuotedName,
    /// A text in single quotes.
    Text,
    /// A sign.
    Sign(Sign),
    /// No token.
    Nothing,
}

/// Why no gap and no token is read at a place.
#[derive(Clone, Copy, Debug, Drop)]
pub enum Stop {
    /// The byte begins none.
    Stray,
    /// Double quotes are open there.
    OpenName,
    /// Single quotes are open there.
    OpenText,
}

pub fn at(text: &[u8], place: usize) -> u8
    ensures { result ≡ at text.now place }
{
    match text.get(place) {
        Some(byte) => *byte,
        None => 0,
    }
}

fn is_blank(byte: u8) -> bool
    ensures { result ≡ is_blank byte }
{
    byte == b' ' || (9 <= byte && byte <= 13)
}

fn begins_word(byte: u8) -> bool
    ensures { result ≡ begins_word byte }
{
    byte.is_ascii_alphabetic() || byte == b'_'
}

pub fn is_of(class: Class, byte: u8) -> bool
    ensures { result ≡ is_of class byte }
{
    match class {
        Class::Word => begins_word(byte) || byte.is_ascii_digit(),
        Class::Digit => byte.is_ascii_digit(),
        Class::Number => byte.is_ascii_alphabetic() || byte.is_ascii_digit() || byte == b'.',
    }
}

#[tactic(auto, unfolding(crate::specs::Begun::long_sign))]
fn long_sign(byte: u8, next: u8) -> Option<Sign>
    ensures { result ≡ long_sign byte next }
{
    if byte == b'<' && next == b'>' {
        return Some(Sign::NotEqual);
    }
    if byte == b'!' && next == b'=' {
        return Some(Sign::NotEqual);
    }
    if byte == b'<' && next == b'=' {
        return Some(Sign::LessOrEqual);
    }
    if byte == b'>' && next == b'=' {
        return Some(Sign::GreaterOrEqual);
    }
    if byte == b'|' && next == b'|' {
        return Some(Sign::Joined);
    }
    if byte == b':' && next == b':' {
        return Some(Sign::Cast);
    }
    None
}

#[tactic(auto, unfolding(crate::specs::Begun::short_sign))]
fn short_sign(byte: u8) -> Option<Sign>
    ensures { result ≡ short_sign byte }
{
    if byte == b'(' {
        return Some(Sign::LeftParen);
    }
    if byte == b')' {
        return Some(Sign::RightParen);
    }
    if byte == b',' {
        return Some(Sign::Comma);
    }
    if byte == b';' {
        return Some(Sign::Semicolon);
    }
    if byte == b'.' {
        return Some(Sign::Point);
    }
    if byte == b'=' {
        return Some(Sign::Equal);
    }
    if byte == b'<' {
        return Some(Sign::Less);
    }
    if byte == b'>' {
        return Some(Sign::Greater);
    }
    if byte == b'+' {
        return Some(Sign::Plus);
    }
    if byte == b'-' {
        return Some(Sign::Minus);
    }
    if byte == b'*' {
        return Some(Sign::Star);
    }
    if byte == b'/' {
        return Some(Sign::Slash);
    }
    if byte == b'%' {
        return Some(Sign::Percent);
    }
    None
}

pub fn width(sign: Sign) -> usize
    ensures { result ≡ width sign }
{
    match sign {
        Sign::NotEqual | Sign::LessOrEqual | Sign::GreaterOrEqual | Sign::Joined | Sign::Cast => 2,
        _ => 1,
    }
}

#[tactic(auto, unfolding(crate::specs::Begun::begun))]
pub fn begun(byte: u8, next: u8) -> Begins
    ensures { result ≡ begun byte next }
{
    if is_blank(byte) {
        return Begins::Blank;
    }
    if byte == b'-' && next == b'-' {
        return Begins::Comment;
    }
    if begins_word(byte) {
        return Begins::Word;
    }
    if byte.is_ascii_digit() {
        return Begins::Number;
    }
    if byte == b'"' {
        return Begins::QuotedName;
    }
    if byte == b'\'' {
        return Begins::Text;
    }
    if let Some(sign) = long_sign(byte, next) {
        return Begins::Sign(sign);
    }
    match short_sign(byte) {
        Some(sign) => Begins::Sign(sign),
        None => Begins::Nothing,
    }
}

/// The end of the bytes of a class that stand from a place on.
pub fn run_end(class: Class, text: &[u8], from: usize) -> usize
    requires from_within { from ≤ length text.now }
    ensures { Run class text.now from result }
{
    let mut end = from;
    while end < text.len() && is_of(class, text[end]) {
        end += 1;
    }
    end
}

/// The first place of a byte from a place on, or the text's length.
pub fn seek(byte: u8, text: &[u8], from: usize) -> usize
    requires { from ≤ length text.now }
    ensures { First byte text.now from result }
{
    match memchr(byte, &text[from..]) {
        None => text.len(),
        Some(after) => from + after,
    }
}

/// The end of what stands open in quotes at a place, where it is closed.
pub fn closed(quote: u8, text: &[u8], from: usize) -> Option<usize>
    requires from_within { from ≤ length text.now }
    requires byte { 0 < quote }
    ensures some { IfSome result (λ end. Closed quote text.now end from) }
    ensures within { IfSome result (λ end. end ≤ length text.now) }
    ensures rises { IfSome result (λ end. from < end) }
    ensures none { IfNone result ((end : ℕ) → Closed quote text.now end from → ⊥) }
{
    let mut place = from;
    while place < text.len() {
        let found = seek(quote, text, place);
        if found == text.len() {
            return None;
        }
        if at(text, found + 1) != quote {
            return Some(found + 1);
        }
        place = found + 2;
    }
    None
}

ghost use Rattle.std.specs.Prelude.{◌≡◌, ◌-◌, ◌^◌, Some, None, min, reverse, map, bytes_eq, option_map, if◌then◌else◌};
ghost use Rattle.std.specs.Char.{to_ascii_lowercase};
ghost use Rattle.al_values.specs.declared.kinds.Kind.TheVariants as kinds;
ghost use Rattle.al_values.specs.Gives.{GivesUnlessNoMemory};
ghost use Rattle.al_values.specs.Kinds.{fits};
ghost use Rattle.al_values.specs.Reading as means;

use crate::convert::{ranged, stored};
use crate::{Cant, CastFault, Copied, Kind, Txt, Value};
use jiff_core::civil::Date;
use std::alloc::Global;

/// What an untyped literal is read as (manual, 4.1.2.7). Into an integer kind: digits with a sign or none and blanks
/// around; else BadText, and OutOfRange outside the kind. Into boolean: a word of 8.6 in any case, with blanks around;
/// else BadText. Into date: `YYYY-MM-DD`, a day of the years 1 to 9999; else BadDate. Into text: the text, which for a
/// greatest length is stored as `assign` does.
pub fn read(alloc: Global, text: &Txt, to: Kind) -> Result<Value, Cant<CastFault>>
    ensures { GivesUnlessNoMemory result (means.read_as text.now to) }
{
    match to {
        Kind::Smallint | Kind::Integer | Kind::Bigint => read_integer(trimmed(text.as_bytes()), to),
        Kind::Boolean => read_boolean(trimmed(text.as_bytes())),
        Kind::Text => Ok(Value::Text(text.copied(alloc)?)),
        Kind::Varchar(most) => stored(alloc, text.as_str(), most),
        Kind::Date => read_date(text.as_bytes()),
    }
}

fn read_integer(word: &[u8], to: Kind) -> Result<Value, Cant<CastFault>>
    ensures { GivesUnlessNoMemory result (means.number_read to (means.number_of word.now)) }
{
    match word {
        [] => Err(Cant::Why(CastFault::BadText)),
        [first, digits @ ..] => match *first {
            b'-' => read_number(true, digits, to),
            b'+' => read_number(false, digits, to),
            _ => read_number(false, word, to),
        },
    }
}

fn read_number(minus: bool, digits: &[u8], to: Kind) -> Result<Value, Cant<CastFault>>
    ensures { GivesUnlessNoMemory result
        (means.number_read to (option_map (means.signed_of minus) (means.unsigned_of digits.now))) }
{
    match unsigned(digits) {
        Some(magnitude) => match signed(minus, magnitude) {
            Some(number) => ranged(number, to),
            None => Err(Cant::Why(CastFault::OutOfRange)),
        },
        None => Err(Cant::Why(CastFault::BadText)),
    }
}

/// The number with its sign, where 64 bits hold it.
fn signed(minus: bool, magnitude: u64) -> Option<i64>
    ensures { let number = means.signed_of minus magnitude in
        result ≡ (if fits kinds.Bigint number then Some number else None) }
{
    let number = i128::from(magnitude);
    i64::try_from(if minus { -number } else { number }).ok()
}

/// The number that digits spell; the greatest of 64 bits stands for all from it on.
fn unsigned(digits: &[u8]) -> Option<u64>
    ensures { result ≡ option_map (min (2 ^ 64 - 1)) (means.unsigned_of digits.now) }
{
    if digits.is_empty() {
        return None;
    }
    let mut number: u64 = 0;
    for byte in digits {
        if !is_digit(*byte) {
            return None;
        }
        number = number
            .saturating_mul(10)
            .saturating_add(u64::from(*byte - b'0'));
    }
    Some(number)
}

fn is_digit(byte: u8) -> bool
    ensures { result ≡ means.is_digit byte }
{
    byte >= b'0' && byte <= b'9'
}

#[tactic(auto, unfolding(crate::specs::Reading::boolean_read))]
fn read_boolean(word: &[u8]) -> Result<Value, Cant<CastFault>>
    ensures { GivesUnlessNoMemory result (means.boolean_read word.now) }
{
    if says_true(word) {
        Ok(Value::Bool(true))
    } else if says_false(word) {
        Ok(Value::Bool(false))
    } else {
        Err(Cant::Why(CastFault::BadText))
    }
}

fn says_true(word: &[u8]) -> bool
    ensures { result ≡ means.is_among means.true_words (map to_ascii_lowercase word.now) }
{
    is_word(word, b"t")
        || is_word(word, b"tr")
        || is_word(word, b"tru")
        || is_word(word, b"true")
        || is_word(word, b"y")
        || is_word(word, b"ye")
        || is_word(word, b"yes")
        || is_word(word, b"on")
        || is_word(word, b"1")
}

fn says_false(word: &[u8]) -> bool
    ensures { result ≡ means.is_among means.false_words (map to_ascii_lowercase word.now) }
{
    is_word(word, b"f")
        || is_word(word, b"fa")
        || is_word(word, b"fal")
        || is_word(word, b"fals")
        || is_word(word, b"false")
        || is_word(word, b"n")
        || is_word(word, b"no")
        || is_word(word, b"of")
        || is_word(word, b"off")
        || is_word(word, b"0")
}

/// Whether it is the word in small letters, in any case.
fn is_word(word: &[u8], small: &[u8]) -> bool
    requires { map to_ascii_lowercase small.now ≡ small.now }
    ensures { result ≡ bytes_eq (map to_ascii_lowercase word.now) small.now }
{
    word.eq_ignore_ascii_case(small)
}

#[tactic(auto, using(crate::proofs::Dates::dated_capped, crate::proofs::Dates::date_form), unfolding(crate::specs::Reading::date_read))]
fn read_date(text: &[u8]) -> Result<Value, Cant<CastFault>>
    ensures { GivesUnlessNoMemory result (means.date_read text.now) }
{
    if text.len() != 10 || text[4] != b'-' || text[7] != b'-' {
        return Err(Cant::Why(CastFault::BadDate));
    }
    match (
        unsigned(&text[..4]),
        unsigned(&text[5..7]),
        unsigned(&text[8..10]),
    ) {
        (Some(year), Some(month), Some(day)) => dated(year, month, day),
        _ => Err(Cant::Why(CastFault::BadDate)),
    }
}

/// The day, where the calendar has it in a year from 1 to 9999.
fn dated(year: u64, month: u64, day: u64) -> Result<Value, Cant<CastFault>>
    ensures { GivesUnlessNoMemory result (means.dated (Some year) (Some month) (Some day)) }
{
    if year < 1 || year > 9999 || month > 12 || day > 31 {
        return Err(Cant::Why(CastFault::BadDate));
    }
    match Date::new(year as i16, month as i8, day as i8) {
        Ok(date) => Ok(Value::Day(date.to_unix_epoch_day())),
        Err(_) => Err(Cant::Why(CastFault::BadDate)),
    }
}

/// Without the blanks at both ends.
#[tactic(auto, unfolding(crate::specs::Reading::trimmed))]
fn trimmed(text: &[u8]) -> &[u8]
    ensures { result.now ≡ means.trimmed text.now }
{
    skip_back(skip_front(text))
}

#[tactic(auto, unfolding(crate::specs::Reading::skip_blanks))]
fn skip_front(text: &[u8]) -> &[u8]
    ensures { result.now ≡ means.skip_blanks text.now }
{
    let mut rest = text;
    while let [first, behind @ ..] = rest
        && is_blank(*first)
    {
        rest = behind;
    }
    rest
}

#[tactic(auto, using(crate::proofs::Blanks::back_more, crate::proofs::Blanks::back_stop, crate::proofs::Blanks::back_none))]
fn skip_back(text: &[u8]) -> &[u8]
    ensures { result.now ≡ reverse (means.skip_blanks (reverse text.now)) }
{
    let mut rest = text;
    while let [before @ .., last] = rest
        && is_blank(*last)
    {
        rest = before;
    }
    rest
}

fn is_blank(byte: u8) -> bool
    ensures { result ≡ means.is_blank byte }
{
    byte == b' ' || (byte >= 9 && byte <= 13)
}

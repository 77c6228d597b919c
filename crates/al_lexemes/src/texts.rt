ghost use Rattle.std.specs.Prelude.{ℕ, true, false, ◌≡◌, ◌<◌, ◌≤◌, ◌+◌, ◌-◌, ◌^◌, min, Some, None, length, pos, IfOk, string_bytes, if◌then◌else◌};
ghost use Rattle.al_tokens.specs.declared.kinds.TokenKind.TheVariants as kinds;
ghost use Rattle.al_tokens.specs.Bytes.{at, Closed};
ghost use Rattle.al_tokens.specs.Tokens.{IsToken};
ghost use Rattle.al_lexemes.specs.Classes.{undoubled, undoubled_from, word_of, quoted_of, number_of, is_wide};
ghost use Rattle.al_values.specs.Reading.{digits_value};

use al_tokens::Token;
use al_values::{NoMemory, Txt};
use memchr::memchr;
use std::alloc::Global;

// What stands behind a quote, without a second one.
fn past_second(quote: u8, text: &str) -> &str
    requires small { quote < 128 }
    ensures same { undoubled_from quote true text.now ≡ undoubled_from quote false result.now }
    ensures shorter { length result.now ≤ length text.now }
{
    match text.as_bytes() {
        [first, ..] => {
            if *first == quote {
                return &text[1..];
            }
            text
        }
        [] => text,
    }
}

// A text with two quotes as one.
fn undoubled(alloc: Global, quote: u8, text: &str) -> Result<Txt, NoMemory>
    requires small { quote < 128 }
    ensures { IfOk result (λ it. it ≡ undoubled quote text.now) }
{
    let mut made = String::new(alloc);
    let mut rest = text;
    while let Some(found) = memchr(quote, rest.as_bytes()) {
        made.push_str(&rest[..found + 1])?;
        rest = past_second(quote, &rest[found + 1..]);
    }
    made.push_str(rest)?;
    Ok(Txt::from_string(made))
}

/// A word in small letters.
#[tactic(auto, unfolding(crate::specs::Classes::word_of), using(crate::proofs::Cuts::word_end))]
pub fn word_of(alloc: Global, text: &Txt, token: Token) -> Result<Txt, NoMemory>
    requires is { IsToken kinds.Word text.now token.start token.end }
    requires rises { token.start < token.end }
    ensures { IfOk result (λ it. it ≡ word_of text.now token) }
{
    let word = &text.as_str()[token.start as usize..token.end as usize];
    Ok(Txt::from_string(word.to_ascii_lowercase(alloc)?))
}

/// What stands in quotes of a kind, with two quotes as one.
#[tactic(auto, unfolding(crate::specs::Classes::quoted_of), using(crate::proofs::Cuts::inner_start, crate::proofs::Cuts::inner_end, crate::proofs::Cuts::inner_rises))]
pub fn quoted_of(alloc: Global, quote: u8, text: &Txt, token: Token) -> Result<Txt, NoMemory>
    requires small { quote < 128 }
    requires begins { at text.now token.start ≡ quote }
    requires closed { Closed quote text.now token.end (token.start + 1) }
    requires within { token.end ≤ length text.now }
    ensures { IfOk result (λ it. it ≡ quoted_of quote text.now token) }
{
    let start = token.start as usize + 1;
    let end = token.end as usize - 1;
    undoubled(alloc, quote, &text.as_str()[start..end])
}

// What digits spell; the greatest number of 64 bits stands for all from it on.
fn spelled(digits: &[u8]) -> u64
    ensures { result ≡ min (2 ^ 64 - 1) (digits_value digits.now) }
{
    let mut number: u64 = 0;
    for digit in digits {
        number = number
            .saturating_mul(10)
            .saturating_add(u64::from(digit.saturating_sub(b'0')));
    }
    number
}

/// An integer's number, where 64 bits with a sign have it.
#[tactic(auto, unfolding(crate::specs::Classes::number_of), using(crate::proofs::Numbers::wide, crate::proofs::Numbers::fits_too, crate::proofs::Numbers::not_wide))]
pub fn number_of(text: &Txt, token: Token) -> Option<i64>
    requires rises { token.start ≤ token.end }
    requires within { token.end ≤ length text.now }
    ensures { result ≡ (if is_wide (number_of text.now token) then None else Some (pos (number_of text.now token))) }
{
    let number = spelled(&text.as_bytes()[token.start as usize..token.end as usize]);
    if number > i64::MAX as u64 {
        return None;
    }
    Some(number as i64)
}

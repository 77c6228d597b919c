ghost use Rattle.std.specs.Prelude.{ℕ, ℤ, pos, true, false, ◌≡◌, ◌<◌, ◌≤◌, ◌≤ℤ◌, List, [], ◌∷◌, length, Some, None, IfOk};
ghost use Rattle.al_grammar.specs.Gives.{GivesStep};
ghost use Rattle.al_altersql.specs.Alter.{whole_number, signed, sint, percent_of, percent};

use al_phrases::kinds::{INTEGER_TOKEN, MINUS};
use al_phrases::{Lexeme, given};
use al_values::Cant;

// An integer without a sign.
#[tactic(auto, unfolding(crate::specs::Alter::whole_number))]
fn whole_number(tokens: &[Lexeme]) -> Result<(i64, &[Lexeme]), Cant<usize>>
    ensures gives { GivesStep (λ x. x.0) (λ x. x.1.now) result (whole_number.reads tokens.now) }
    ensures shorter { IfOk result (λ x. length x.1.now < length tokens.now) }
    ensures sign { IfOk result (λ x. pos 0 ≤ℤ x.0) }
{
    match tokens {
        [token, rest @ ..] => {
            if token.kind != INTEGER_TOKEN {
                return Err(Cant::Why(tokens.len()));
            }
            let number = token.number;
            if number < 0 {
                return Err(Cant::Why(tokens.len()));
            }
            Ok((number, rest))
        }
        [] => Err(Cant::Why(0)),
    }
}

fn signed(negative: bool, number: i64) -> i64
    requires { pos 0 ≤ℤ number }
    ensures { result ≡ signed negative number }
{
    if negative { -number } else { number }
}

/// Reads an integer with a sign or without one.
#[tactic(auto, unfolding(crate::specs::Alter::sint))]
pub fn sint(tokens: &[Lexeme]) -> Result<(i64, &[Lexeme]), Cant<usize>>
    ensures gives { GivesStep (λ x. x.0) (λ x. x.1.now) result (sint.reads tokens.now) }
    ensures shorter { IfOk result (λ x. length x.1.now < length tokens.now) }
{
    let (negative, rest) = given(MINUS, tokens);
    let (number, rest) = whole_number(rest)?;
    Ok((signed(negative, number), rest))
}

// The fillfactor that an integer gives.
fn percent_of(number: i64) -> Option<u8>
    ensures { result ≡ percent_of number }
{
    if 10 <= number && number <= 100 {
        return Some(number as u8);
    }
    None
}

/// Reads a fillfactor, from 10 to 100.
#[tactic(auto, unfolding(crate::specs::Alter::percent))]
pub(crate) fn percent(tokens: &[Lexeme]) -> Result<(u8, &[Lexeme]), Cant<usize>>
    ensures gives { GivesStep (λ x. x.0) (λ x. x.1.now) result (percent.reads tokens.now) }
    ensures shorter { IfOk result (λ x. length x.1.now < length tokens.now) }
{
    match tokens {
        [token, rest @ ..] => {
            if token.kind != INTEGER_TOKEN {
                return Err(Cant::Why(tokens.len()));
            }
            match percent_of(token.number) {
                None => Err(Cant::Why(tokens.len())),
                Some(percent) => Ok((percent, rest)),
            }
        }
        [] => Err(Cant::Why(0)),
    }
}

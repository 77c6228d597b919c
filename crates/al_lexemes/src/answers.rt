ghost use Rattle.std.specs.Prelude.{ℕ, ◌≡◌, ◌-◌, ◌<◌, ◌≤◌, ◌^◌, length, take, drop, slice_get, Result, IfOk};
ghost use Rattle.al_values.specs.Gives.{GivesUnlessNoMemory};
ghost use Rattle.al_grammar.specs.Gives.{GivesStep};
ghost use Rattle.al_grammar.specs.Rules.{Step};
ghost use Rattle.al_grammar.specs.Whole.{whole_of};
ghost use Rattle.al_tokens.specs.Tokens.{Spans};
ghost use Rattle.al_statements.specs.declared.fault.SqlFault.TheVariants as faults;
ghost use Rattle.al_lexemes.specs.Faults.{end_place};
ghost use Rattle.al_lexemes.specs.Answer.{ended, fault_at, fault_of, front_of, goes_on, trial};

use crate::classes::{is_outside, stand_in};
use al_phrases::{Lexeme, LexemeList};
use al_statements::SqlFault;
use al_tokens::{Ending, Token, TokenList};
use al_values::{Cant, ListOf, NoMemory, Txt};
use std::alloc::Global;

/// What a reader answered, where all tokens must be read: the value; or how many tokens are left from the first one on
/// that can't stand, none where they end too early.
pub fn whole<T: Drop>(read: Result<(T, &[Lexeme]), Cant<usize>>) -> Result<T, Cant<usize>>
    ensures { (step : Step Lexeme T) → GivesStep (λ x. x.0) (λ x. x.1.now) read.entry step → GivesUnlessNoMemory result (whole_of step) }
{
    match read {
        Ok((value, rest)) => {
            if rest.is_empty() {
                return Ok(value);
            }
            Err(Cant::Why(rest.len()))
        }
        Err(fault) => Err(fault),
    }
}

/// What a reader answered, where tokens may stand behind: the value and how many stand behind it; or how many tokens are
/// left from the first one on that can't stand.
pub fn front<T: Drop>(read: Result<(T, &[Lexeme]), Cant<usize>>) -> Result<(T, usize), Cant<usize>>
    ensures { (step : Step Lexeme T) → GivesStep (λ x. x.0) (λ x. x.1.now) read.entry step → GivesUnlessNoMemory result (front_of step) }
{
    match read {
        Ok((value, rest)) => Ok((value, rest.len())),
        Err(fault) => Err(fault),
    }
}

/// Whether what was read of a whole text says that its tokens begin some text.
pub fn goes_on<T: Drop>(read: Result<T, Cant<usize>>) -> Result<bool, NoMemory>
    ensures { (step : Result T ℕ) → GivesUnlessNoMemory read step → IfOk result (λ it. it ≡ goes_on step) }
{
    match read {
        Ok(_) => Ok(true),
        Err(Cant::Why(left)) => Ok(left == 0),
        Err(Cant::NoMemory) => Err(NoMemory),
    }
}

/// The tokens before the one from which on so many are left.
pub fn tokens_before(lexemes: &[Lexeme], left: usize) -> &[Lexeme]
    ensures { result.now ≡ take (length lexemes.now - left) lexemes.now }
{
    &lexemes[..lexemes.len().saturating_sub(left)]
}

/// The tokens up to the one from which on so many are left, which is stood in for.
#[tactic(auto, using(crate::proofs::Trials::trial_past, crate::proofs::Trials::trial_cut))]
pub fn trial(lexemes: LexemeList, left: usize) -> Result<LexemeList, NoMemory>
    ensures { IfOk result (λ it. it ≡ trial lexemes (length lexemes - left)) }
{
    let place = lexemes.len().saturating_sub(left);
    let mut before = lexemes.into_vec();
    if place >= before.len() {
        return Ok(ListOf::from_vec(before));
    }
    before.truncate(place + 1);
    match before.pop() {
        None => Ok(ListOf::from_vec(before)),
        Some(lexeme) => {
            before.push(stand_in(lexeme))?;
            Ok(ListOf::from_vec(before))
        }
    }
}

// The fault at a place.
fn fault_of(is_left_out: bool, at: u32) -> SqlFault
    ensures { result ≡ fault_of is_left_out at }
{
    if is_left_out {
        return SqlFault::NotInProfile { at };
    }
    SqlFault::Syntax { at }
}

/// The tokens from one on.
#[tactic(auto, using(crate::proofs::Walks::rest_of))]
pub fn tokens_from(tokens: &TokenList, from: u32) -> &[Token]
    requires { from ≤ length tokens.now }
    ensures { result.now ≡ drop from tokens.now }
{
    &tokens.as_slice()[from as usize..]
}

fn token_at(tokens: &[Token], place: usize) -> Option<Token>
    ensures { result ≡ slice_get tokens.now place }
{
    tokens.get(place).copied()
}

/// What is told of the token from which on so many are left: whether it is left out here, or only can't stand. `stands`
/// says whether what stands in for it could stand in its place.
pub fn fault_at(
    alloc: Global,
    text: &Txt,
    tokens: &[Token],
    left: usize,
    stands: bool,
) -> Result<SqlFault, NoMemory>
    requires spans { Spans text.now 0 tokens.now }
    requires short { length text.now < 2 ^ 32 }
    ensures { IfOk result (λ it. it ≡ fault_at text.now tokens.now (length tokens.now - left) stands) }
{
    match token_at(tokens, tokens.len().saturating_sub(left)) {
        None => Ok(SqlFault::Syntax {
            at: text.as_bytes().len() as u32,
        }),
        Some(token) => {
            let outside = is_outside(alloc, text, token)?;
            Ok(fault_of(outside || stands, token.start))
        }
    }
}

/// What is told where all tokens can go on, but what ends them can't: the place of a stray byte, or the text's length.
pub fn end_fault(ending: Ending, text: &Txt) -> SqlFault
    requires { length text.now < 2 ^ 32 }
    ensures { result ≡ faults.Syntax (end_place ending (length text.now)) }
{
    match ending {
        Ending::Stray { at } => SqlFault::Syntax { at },
        Ending::Whole | Ending::OpenName { at: _ } | Ending::OpenText { at: _ } => {
            SqlFault::Syntax {
                at: text.as_bytes().len() as u32,
            }
        }
    }
}

/// The value of a text whose tokens were all read, where the text's end ends them.
pub fn ended<T: Drop>(ending: Ending, value: T, text: &Txt) -> Result<T, Cant<SqlFault>>
    requires { length text.now < 2 ^ 32 }
    ensures { GivesUnlessNoMemory result (ended ending value (length text.now)) }
{
    match ending {
        Ending::Whole => Ok(value),
        Ending::Stray { at: _ } | Ending::OpenName { at: _ } | Ending::OpenText { at: _ } => {
            Err(Cant::Why(end_fault(ending, text)))
        }
    }
}

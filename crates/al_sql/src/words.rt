ghost use Rattle.std.specs.Prelude.{ℕ, true, false, ◌≡◌, ◌<◌, ◌≤◌, List, [], ◌∷◌, length, Some, None, IfOk};
ghost use Rattle.al_grammar.specs.Rules.{read};
ghost use Rattle.al_grammar.specs.Gives.{GivesStep};
ghost use Rattle.al_sql.specs.Phrases.{word_among, given_among, condition};

use al_expr::Expr;
use al_phrases::kinds::WHERE;
use al_phrases::{Lexeme, expression, starts, starts_among, word};
use al_values::Cant;
use std::alloc::Global;

/// Reads one of these words.
pub(crate) fn word_among<'a>(
    kinds: &[u8],
    tokens: &'a [Lexeme],
) -> Result<&'a [Lexeme], Cant<usize>>
    ensures gives { GivesStep (λ rest. tt) (λ rest. rest.now) result ((word_among kinds.now).reads tokens.now) }
    ensures shorter { IfOk result (λ rest. length rest.now < length tokens.now) }
{
    match tokens {
        [_, rest @ ..] => {
            if !starts_among(kinds, tokens) {
                return Err(Cant::Why(tokens.len()));
            }
            Ok(rest)
        }
        [] => Err(Cant::Why(0)),
    }
}

/// Reads one of these words, which may be left out: whether one stands there.
pub(crate) fn given_among<'a>(kinds: &[u8], tokens: &'a [Lexeme]) -> (bool, &'a [Lexeme])
    ensures gives { (given_among kinds.now).reads tokens.now ≡ read result.0 result.1.now }
    ensures shorter { length result.1.now ≤ length tokens.now }
{
    match tokens {
        [_, rest @ ..] => {
            if !starts_among(kinds, tokens) {
                return (false, tokens);
            }
            (true, rest)
        }
        [] => (false, tokens),
    }
}

/// Reads WHERE and an expression, where they stand.
#[tactic(auto, unfolding(crate::specs::Phrases::condition))]
pub(crate) fn condition(
    alloc: Global,
    depth: u32,
    tokens: &[Lexeme],
) -> Result<(Option<Expr>, &[Lexeme]), Cant<usize>>
    ensures gives { GivesStep (λ x. x.0) (λ x. x.1.now) result ((condition depth).reads tokens.now) }
    ensures shorter { IfOk result (λ x. length x.1.now ≤ length tokens.now) }
{
    if !starts(WHERE, tokens) {
        return Ok((None, tokens));
    }
    let rest = word(WHERE, tokens)?;
    let (value, rest) = expression(alloc, depth, rest)?;
    Ok((Some(value), rest))
}

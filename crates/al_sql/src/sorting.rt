ghost use Rattle.std.specs.Prelude.{ℕ, true, false, ◌≡◌, ◌<◌, ◌≤◌, List, [], ◌∷◌, length, Some, None, ◌==◌, if◌then◌else◌, IfOk};
ghost use Rattle.al_grammar.specs.Kinds.{among};
ghost use Rattle.al_grammar.specs.Rules.{read};
ghost use Rattle.al_phrases.specs.Kinds.{desc_word};
ghost use Rattle.al_grammar.specs.Gives.{GivesStep};
ghost use Rattle.al_sql.specs.Queries.{directions, direction, key, next_key, keys_from, key_list, order};

use al_phrases::kinds::{ASC, BY, COMMA, DESC, ORDER};
use al_phrases::{Lexeme, name, starts, word};
use al_statements::{SortKey, SortKeyList};
use al_values::{Cant, ListOf};
use std::alloc::Global;

// Whether the word is DESC, where it is ASC or DESC.
fn descends(word: u8) -> Option<bool>
    ensures { result ≡ (if among word directions then Some (word == desc_word) else None) }
{
    match word {
        ASC => Some(false),
        DESC => Some(true),
        _ => None,
    }
}

// Whether DESC stands there.
#[tactic(auto, unfolding(crate::specs::Queries::direction))]
fn direction(tokens: &[Lexeme]) -> (bool, &[Lexeme])
    ensures gives { direction.reads tokens.now ≡ read result.0 result.1.now }
    ensures shorter { length result.1.now ≤ length tokens.now }
{
    match tokens {
        [token, rest @ ..] => match descends(token.kind) {
            None => (false, tokens),
            Some(descending) => (descending, rest),
        },
        [] => (false, tokens),
    }
}

#[tactic(auto, unfolding(crate::specs::Queries::key))]
fn key(alloc: Global, tokens: &[Lexeme]) -> Result<(SortKey, &[Lexeme]), Cant<usize>>
    ensures gives { GivesStep (λ x. x.0) (λ x. x.1.now) result (key.reads tokens.now) }
    ensures shorter { IfOk result (λ x. length x.1.now < length tokens.now) }
{
    let (column, rest) = name(alloc, tokens)?;
    let (descending, rest) = direction(rest);
    Ok((SortKey { column, descending }, rest))
}

#[tactic(auto, unfolding(crate::specs::Queries::next_key))]
fn next_key(alloc: Global, tokens: &[Lexeme]) -> Result<(SortKey, &[Lexeme]), Cant<usize>>
    ensures gives { GivesStep (λ x. x.0) (λ x. x.1.now) result (next_key.reads tokens.now) }
    ensures shorter { IfOk result (λ x. length x.1.now < length tokens.now) }
{
    let rest = word(COMMA, tokens)?;
    key(alloc, rest)
}

#[tactic(auto, using(crate::proofs::QueryLaws::keys_on, crate::proofs::QueryLaws::keys_off, crate::proofs::QueryLaws::keys_stop))]
fn more_keys(
    alloc: Global,
    first: SortKey,
    tokens: &[Lexeme],
) -> Result<(ListOf<SortKey>, &[Lexeme]), Cant<usize>>
    ensures gives { GivesStep (λ x. x.0) (λ x. x.1.now) result (keys_from (first ∷ []) tokens.now) }
    ensures shorter { IfOk result (λ x. length x.1.now ≤ length tokens.now) }
{
    let mut all = ListOf::new(alloc);
    all.push(first)?;
    let mut rest = tokens;
    'keys: while starts(COMMA, rest) {
        let (next, more) = next_key(alloc, rest)?;
        all.push(next)?;
        rest = more;
    }
    Ok((all, rest))
}

#[tactic(auto, unfolding(crate::specs::Queries::key_list, crate::specs::Queries::keys_from, crate::specs::Queries::next_key))]
fn key_list(alloc: Global, tokens: &[Lexeme]) -> Result<(ListOf<SortKey>, &[Lexeme]), Cant<usize>>
    ensures gives { GivesStep (λ x. x.0) (λ x. x.1.now) result (key_list.reads tokens.now) }
    ensures shorter { IfOk result (λ x. length x.1.now < length tokens.now) }
{
    let (first, rest) = key(alloc, tokens)?;
    more_keys(alloc, first, rest)
}

/// Reads ORDER BY, where it stands.
#[tactic(auto, unfolding(crate::specs::Queries::order))]
pub(crate) fn order(
    alloc: Global,
    tokens: &[Lexeme],
) -> Result<(SortKeyList, &[Lexeme]), Cant<usize>>
    ensures gives { GivesStep (λ x. x.0) (λ x. x.1.now) result (order.reads tokens.now) }
    ensures shorter { IfOk result (λ x. length x.1.now ≤ length tokens.now) }
{
    if !starts(ORDER, tokens) {
        return Ok((ListOf::new(alloc), tokens));
    }
    let rest = word(ORDER, tokens)?;
    let rest = word(BY, rest)?;
    key_list(alloc, rest)
}

ghost use Rattle.std.specs.Prelude.{ℕ, true, false, ◌≡◌, ◌<◌, ◌≤◌, List, [], ◌∷◌, length, Some, None, IfOk};
ghost use Rattle.al_grammar.specs.Gives.{GivesStep};
ghost use Rattle.al_sql.specs.Queries.{count_word, count, extreme_of, extreme_word, extreme, function, aggregate, next_aggregate, aggregates_from, aggregate_list};

use crate::outputs::alias;
use al_expr::Expr;
use al_phrases::kinds::{
    COMMA, COUNT, COUNT_CALL, LEFT_PAREN, MAX, MAX_CALL, MIN, MIN_CALL, RIGHT_PAREN, STAR,
};
use al_phrases::{Lexeme, expression, starts, starts_among, word};
use al_statements::{Aggregate, Function};
use al_values::{Cant, ListOf};
use std::alloc::Global;

const COUNTS: [u8; 2] = [COUNT, COUNT_CALL];

const EXTREMES: [u8; 4] = [MIN, MAX, MIN_CALL, MAX_CALL];

#[tactic(auto, unfolding(crate::specs::Queries::count_word))]
fn count_word(tokens: &[Lexeme]) -> Result<(u32, &[Lexeme]), Cant<usize>>
    ensures gives { GivesStep (λ x. x.0) (λ x. x.1.now) result (count_word.reads tokens.now) }
    ensures shorter { IfOk result (λ x. length x.1.now < length tokens.now) }
{
    match tokens {
        [token, rest @ ..] => {
            if !starts_among(&COUNTS, tokens) {
                return Err(Cant::Why(tokens.len()));
            }
            Ok((token.place, rest))
        }
        [] => Err(Cant::Why(0)),
    }
}

#[tactic(auto, unfolding(crate::specs::Queries::count))]
fn count(tokens: &[Lexeme]) -> Result<((u32, Function), &[Lexeme]), Cant<usize>>
    ensures gives { GivesStep (λ x. x.0) (λ x. x.1.now) result (count.reads tokens.now) }
    ensures shorter { IfOk result (λ x. length x.1.now < length tokens.now) }
{
    let (place, rest) = count_word(tokens)?;
    let rest = word(LEFT_PAREN, rest)?;
    let rest = word(STAR, rest)?;
    let rest = word(RIGHT_PAREN, rest)?;
    Ok(((place, Function::Count), rest))
}

// The word's place, and whether it is max.
#[tactic(auto, unfolding(crate::specs::Queries::extreme_word))]
fn extreme_word(tokens: &[Lexeme]) -> Result<((u32, bool), &[Lexeme]), Cant<usize>>
    ensures gives { GivesStep (λ x. x.0) (λ x. x.1.now) result (extreme_word.reads tokens.now) }
    ensures shorter { IfOk result (λ x. length x.1.now < length tokens.now) }
{
    match tokens {
        [token, rest @ ..] => {
            if !starts_among(&EXTREMES, tokens) {
                return Err(Cant::Why(tokens.len()));
            }
            let is_max = token.kind == MAX || token.kind == MAX_CALL;
            Ok(((token.place, is_max), rest))
        }
        [] => Err(Cant::Why(0)),
    }
}

fn extreme_of(word: (u32, bool), value: Expr) -> (u32, Function)
    ensures { result ≡ extreme_of word value }
{
    if word.1 {
        (word.0, Function::Max(value))
    } else {
        (word.0, Function::Min(value))
    }
}

// The parentheses open no level.
#[tactic(auto, unfolding(crate::specs::Queries::extreme))]
fn extreme(
    alloc: Global,
    depth: u32,
    tokens: &[Lexeme],
) -> Result<((u32, Function), &[Lexeme]), Cant<usize>>
    ensures gives { GivesStep (λ x. x.0) (λ x. x.1.now) result ((extreme depth).reads tokens.now) }
    ensures shorter { IfOk result (λ x. length x.1.now < length tokens.now) }
{
    let (least_or_greatest, rest) = extreme_word(tokens)?;
    let rest = word(LEFT_PAREN, rest)?;
    let (value, rest) = expression(alloc, depth, rest)?;
    let rest = word(RIGHT_PAREN, rest)?;
    Ok((extreme_of(least_or_greatest, value), rest))
}

#[tactic(auto, unfolding(crate::specs::Queries::function))]
fn function(
    alloc: Global,
    depth: u32,
    tokens: &[Lexeme],
) -> Result<((u32, Function), &[Lexeme]), Cant<usize>>
    ensures gives { GivesStep (λ x. x.0) (λ x. x.1.now) result ((function depth).reads tokens.now) }
    ensures shorter { IfOk result (λ x. length x.1.now < length tokens.now) }
{
    if starts_among(&COUNTS, tokens) {
        return count(tokens);
    }
    extreme(alloc, depth, tokens)
}

#[tactic(auto, unfolding(crate::specs::Queries::aggregate))]
fn aggregate(
    alloc: Global,
    depth: u32,
    tokens: &[Lexeme],
) -> Result<(Aggregate, &[Lexeme]), Cant<usize>>
    ensures gives { GivesStep (λ x. x.0) (λ x. x.1.now) result ((aggregate depth).reads tokens.now) }
    ensures shorter { IfOk result (λ x. length x.1.now < length tokens.now) }
{
    let (what, rest) = function(alloc, depth, tokens)?;
    let (name, rest) = alias(alloc, rest)?;
    let aggregate = Aggregate {
        place: what.0,
        function: what.1,
        name,
    };
    Ok((aggregate, rest))
}

#[tactic(auto, unfolding(crate::specs::Queries::next_aggregate))]
fn next_aggregate(
    alloc: Global,
    depth: u32,
    tokens: &[Lexeme],
) -> Result<(Aggregate, &[Lexeme]), Cant<usize>>
    ensures gives { GivesStep (λ x. x.0) (λ x. x.1.now) result ((next_aggregate depth).reads tokens.now) }
    ensures shorter { IfOk result (λ x. length x.1.now < length tokens.now) }
{
    let rest = word(COMMA, tokens)?;
    aggregate(alloc, depth, rest)
}

#[tactic(auto, using(crate::proofs::QueryLaws::aggregates_on, crate::proofs::QueryLaws::aggregates_off, crate::proofs::QueryLaws::aggregates_stop))]
fn more_aggregates(
    alloc: Global,
    depth: u32,
    first: Aggregate,
    tokens: &[Lexeme],
) -> Result<(ListOf<Aggregate>, &[Lexeme]), Cant<usize>>
    ensures gives { GivesStep (λ x. x.0) (λ x. x.1.now) result (aggregates_from depth (first ∷ []) tokens.now) }
    ensures shorter { IfOk result (λ x. length x.1.now ≤ length tokens.now) }
{
    let mut all = ListOf::new(alloc);
    all.push(first)?;
    let mut rest = tokens;
    'aggregates: while starts(COMMA, rest) {
        let (next, more) = next_aggregate(alloc, depth, rest)?;
        all.push(next)?;
        rest = more;
    }
    Ok((all, rest))
}

/// Reads aggregates with commas between.
#[tactic(auto, unfolding(crate::specs::Queries::aggregate_list, crate::specs::Queries::aggregates_from, crate::specs::Queries::next_aggregate))]
pub(crate) fn aggregate_list(
    alloc: Global,
    depth: u32,
    tokens: &[Lexeme],
) -> Result<(ListOf<Aggregate>, &[Lexeme]), Cant<usize>>
    ensures gives { GivesStep (λ x. x.0) (λ x. x.1.now) result ((aggregate_list depth).reads tokens.now) }
    ensures shorter { IfOk result (λ x. length x.1.now < length tokens.now) }
{
    let (first, rest) = aggregate(alloc, depth, tokens)?;
    more_aggregates(alloc, depth, first, rest)
}

ghost use Rattle.std.specs.Prelude.{ℕ, true, false, ◌≡◌, ◌<◌, ◌≤◌, List, [], ◌∷◌, length, Some, None, IfOk};
ghost use Rattle.al_grammar.specs.Gives.{GivesStep};
ghost use Rattle.al_sql.specs.Rows.{next_value, values_from, value_list, number_span, from_span, series, new_rows, insert};

use crate::slots::tuple_list;
use al_altersql::sint;
use al_expr::Expr;
use al_phrases::kinds::{
    AS, COMMA, FROM, GENERATE_SERIES, INSERT, INTO, LEFT_PAREN, RIGHT_PAREN, SELECT, VALUES,
};
use al_phrases::{Lexeme, expression, given, name, optional_names, starts, word};
use al_statements::{Insert, InsertRows, Series};
use al_values::{Cant, ListOf, Name};
use std::alloc::Global;

#[tactic(auto, unfolding(crate::specs::Rows::next_value))]
fn next_value(
    alloc: Global,
    depth: u32,
    tokens: &[Lexeme],
) -> Result<(Expr, &[Lexeme]), Cant<usize>>
    ensures gives { GivesStep (λ x. x.0) (λ x. x.1.now) result ((next_value depth).reads tokens.now) }
    ensures shorter { IfOk result (λ x. length x.1.now < length tokens.now) }
{
    let rest = word(COMMA, tokens)?;
    expression(alloc, depth, rest)
}

#[tactic(auto, using(crate::proofs::RowLaws::values_on, crate::proofs::RowLaws::values_off, crate::proofs::RowLaws::values_stop))]
fn more_values(
    alloc: Global,
    depth: u32,
    first: Expr,
    tokens: &[Lexeme],
) -> Result<(ListOf<Expr>, &[Lexeme]), Cant<usize>>
    ensures gives { GivesStep (λ x. x.0) (λ x. x.1.now) result (values_from depth (first ∷ []) tokens.now) }
    ensures shorter { IfOk result (λ x. length x.1.now ≤ length tokens.now) }
{
    let mut all = ListOf::new(alloc);
    all.push(first)?;
    let mut rest = tokens;
    'values: while starts(COMMA, rest) {
        let (next, more) = next_value(alloc, depth, rest)?;
        all.push(next)?;
        rest = more;
    }
    Ok((all, rest))
}

#[tactic(auto, unfolding(crate::specs::Rows::value_list, crate::specs::Rows::values_from, crate::specs::Rows::next_value))]
fn value_list(
    alloc: Global,
    depth: u32,
    tokens: &[Lexeme],
) -> Result<(ListOf<Expr>, &[Lexeme]), Cant<usize>>
    ensures gives { GivesStep (λ x. x.0) (λ x. x.1.now) result ((value_list depth).reads tokens.now) }
    ensures shorter { IfOk result (λ x. length x.1.now < length tokens.now) }
{
    let (first, rest) = expression(alloc, depth, tokens)?;
    more_values(alloc, depth, first, rest)
}

// The first and the last number of a series.
#[tactic(auto, unfolding(crate::specs::Rows::number_span))]
fn number_span(tokens: &[Lexeme]) -> Result<((i64, i64), &[Lexeme]), Cant<usize>>
    ensures gives { GivesStep (λ x. x.0) (λ x. x.1.now) result (number_span.reads tokens.now) }
    ensures shorter { IfOk result (λ x. length x.1.now < length tokens.now) }
{
    let rest = word(GENERATE_SERIES, tokens)?;
    let rest = word(LEFT_PAREN, rest)?;
    let (first, rest) = sint(rest)?;
    let rest = word(COMMA, rest)?;
    let (last, rest) = sint(rest)?;
    let rest = word(RIGHT_PAREN, rest)?;
    Ok(((first, last), rest))
}

#[tactic(auto, unfolding(crate::specs::Rows::from_span))]
fn from_span(
    alloc: Global,
    tokens: &[Lexeme],
) -> Result<(((i64, i64), Name), &[Lexeme]), Cant<usize>>
    ensures gives { GivesStep (λ x. x.0) (λ x. x.1.now) result (from_span.reads tokens.now) }
    ensures shorter { IfOk result (λ x. length x.1.now < length tokens.now) }
{
    let rest = word(FROM, tokens)?;
    let (numbers, rest) = number_span(rest)?;
    let (_, rest) = given(AS, rest);
    let (name, rest) = name(alloc, rest)?;
    Ok(((numbers, name), rest))
}

#[tactic(auto, unfolding(crate::specs::Rows::series))]
fn series(alloc: Global, depth: u32, tokens: &[Lexeme]) -> Result<(Series, &[Lexeme]), Cant<usize>>
    ensures gives { GivesStep (λ x. x.0) (λ x. x.1.now) result ((series depth).reads tokens.now) }
    ensures shorter { IfOk result (λ x. length x.1.now < length tokens.now) }
{
    let rest = word(SELECT, tokens)?;
    let (outputs, rest) = value_list(alloc, depth, rest)?;
    let (numbers, rest) = from_span(alloc, rest)?;
    let series = Series {
        outputs,
        first: numbers.0.0,
        last: numbers.0.1,
        name: numbers.1,
    };
    Ok((series, rest))
}

#[tactic(auto, unfolding(crate::specs::Rows::new_rows))]
fn new_rows(
    alloc: Global,
    depth: u32,
    tokens: &[Lexeme],
) -> Result<(InsertRows, &[Lexeme]), Cant<usize>>
    ensures gives { GivesStep (λ x. x.0) (λ x. x.1.now) result ((new_rows depth).reads tokens.now) }
    ensures shorter { IfOk result (λ x. length x.1.now < length tokens.now) }
{
    if starts(VALUES, tokens) {
        let rest = word(VALUES, tokens)?;
        let (tuples, rest) = tuple_list(alloc, depth, rest)?;
        return Ok((InsertRows::Values(tuples), rest));
    }
    let (series, rest) = series(alloc, depth, tokens)?;
    Ok((InsertRows::Series(series), rest))
}

/// Reads INSERT.
#[tactic(auto, unfolding(crate::specs::Rows::insert))]
pub(crate) fn insert(
    alloc: Global,
    depth: u32,
    tokens: &[Lexeme],
) -> Result<(Insert, &[Lexeme]), Cant<usize>>
    ensures gives { GivesStep (λ x. x.0) (λ x. x.1.now) result ((insert depth).reads tokens.now) }
    ensures shorter { IfOk result (λ x. length x.1.now < length tokens.now) }
{
    let rest = word(INSERT, tokens)?;
    let rest = word(INTO, rest)?;
    let (table, rest) = name(alloc, rest)?;
    let (columns, rest) = optional_names(alloc, rest)?;
    let (rows, rest) = new_rows(alloc, depth, rest)?;
    Ok((
        Insert {
            table,
            columns,
            rows,
        },
        rest,
    ))
}

ghost use Rattle.std.specs.Prelude.{ℕ, true, false, ◌≡◌, ◌<◌, ◌≤◌, List, [], ◌∷◌, length, Some, None, IfOk};
ghost use Rattle.al_grammar.specs.Gives.{GivesStep};
ghost use Rattle.al_sql.specs.Phrases.{barring};
ghost use Rattle.al_grammar.specs.Rules.{optional};
ghost use Rattle.al_phrases.specs.Words.{kind_of};
ghost use Rattle.al_sql.specs.Queries.{row_mode, for_mark, row_lock, sorted, from, with_rest, from_or_row, all_columns, all_rows, each_row, selected, select};

use crate::aggregates::aggregate_list;
use crate::following::Rest;
use crate::outputs::output_list;
use crate::sorting::order;
use crate::words::condition;
use al_altersql::target;
use al_modes::RowMode;
use al_phrases::kinds::{
    COUNT_CALL, FOR, FROM, KEY, LATE_FOR, MAX_CALL, MIN_CALL, NO, SELECT, SHARE, STAR, UPDATE,
};
use al_phrases::{Lexeme, starts, starts_among, word};
use al_statements::{OutputList, Query, SelectList, SortKeyList, TableQuery};
use al_values::Cant;
use std::alloc::Global;

const FORS: [u8; 2] = [FOR, LATE_FOR];

// A list that begins with one of these is one of aggregates.
const AGGREGATES: [u8; 3] = [COUNT_CALL, MIN_CALL, MAX_CALL];

#[tactic(auto, unfolding(crate::specs::Queries::row_mode))]
fn row_mode(tokens: &[Lexeme]) -> Result<(RowMode, &[Lexeme]), Cant<usize>>
    ensures gives { GivesStep (λ x. x.0) (λ x. x.1.now) result (row_mode.reads tokens.now) }
    ensures shorter { IfOk result (λ x. length x.1.now < length tokens.now) }
{
    if starts(UPDATE, tokens) {
        let rest = word(UPDATE, tokens)?;
        return Ok((RowMode::Update, rest));
    }
    if starts(NO, tokens) {
        let rest = word(NO, tokens)?;
        let rest = word(KEY, rest)?;
        let rest = word(UPDATE, rest)?;
        return Ok((RowMode::NoKeyUpdate, rest));
    }
    if starts(SHARE, tokens) {
        let rest = word(SHARE, tokens)?;
        return Ok((RowMode::Share, rest));
    }
    let rest = word(KEY, tokens)?;
    let rest = word(SHARE, rest)?;
    Ok((RowMode::KeyShare, rest))
}

// FOR, where it may stand; else what stands in for it.
fn for_mark(may_stand: bool, tokens: &[Lexeme]) -> Result<&[Lexeme], Cant<usize>>
    ensures gives { GivesStep (λ rest. tt) (λ rest. rest.now) result ((for_mark may_stand).reads tokens.now) }
    ensures shorter { IfOk result (λ rest. length rest.now < length tokens.now) }
{
    if may_stand {
        return word(FOR, tokens);
    }
    word(LATE_FOR, tokens)
}

#[tactic(auto, unfolding(crate::specs::Queries::row_lock))]
fn row_lock(may_stand: bool, tokens: &[Lexeme]) -> Result<(Option<RowMode>, &[Lexeme]), Cant<usize>>
    ensures gives { GivesStep (λ x. x.0) (λ x. x.1.now) result ((row_lock may_stand).reads tokens.now) }
    ensures shorter { IfOk result (λ x. length x.1.now ≤ length tokens.now) }
{
    if !starts_among(&FORS, tokens) {
        return Ok((None, tokens));
    }
    let rest = for_mark(may_stand, tokens)?;
    let (mode, rest) = row_mode(rest)?;
    Ok((Some(mode), rest))
}

#[tactic(auto, unfolding(crate::specs::Queries::sorted))]
fn sorted(
    alloc: Global,
    may_lock: bool,
    tokens: &[Lexeme],
) -> Result<((SortKeyList, Option<RowMode>), &[Lexeme]), Cant<usize>>
    ensures gives { GivesStep (λ x. x.0) (λ x. x.1.now) result ((sorted may_lock).reads tokens.now) }
    ensures shorter { IfOk result (λ x. length x.1.now ≤ length tokens.now) }
{
    let (keys, rest) = order(alloc, tokens)?;
    let (lock, rest) = row_lock(may_lock, rest)?;
    Ok(((keys, lock), rest))
}

#[tactic(auto, unfolding(crate::specs::Queries::from))]
fn from(
    alloc: Global,
    depth: u32,
    may_lock: bool,
    tokens: &[Lexeme],
) -> Result<(Rest, &[Lexeme]), Cant<usize>>
    ensures gives { GivesStep (λ x. x.0) (λ x. x.1.now) result ((from depth may_lock).reads tokens.now) }
    ensures shorter { IfOk result (λ x. length x.1.now < length tokens.now) }
{
    let rest = word(FROM, tokens)?;
    let (target, rest) = target(alloc, rest)?;
    let (condition, rest) = condition(alloc, depth, rest)?;
    let (behind, rest) = sorted(alloc, may_lock, rest)?;
    let table = Rest {
        target,
        condition,
        order: behind.0,
        lock: behind.1,
    };
    Ok((table, rest))
}

fn maybe_from(
    alloc: Global,
    depth: u32,
    tokens: &[Lexeme],
) -> Result<(Option<Rest>, &[Lexeme]), Cant<usize>>
    ensures gives { GivesStep (λ x. x.0) (λ x. x.1.now) result ((optional kind_of (from depth true)).reads tokens.now) }
    ensures shorter { IfOk result (λ x. length x.1.now ≤ length tokens.now) }
{
    if !starts(FROM, tokens) {
        return Ok((None, tokens));
    }
    let (table, rest) = from(alloc, depth, true, tokens)?;
    Ok((Some(table), rest))
}

fn with_rest(list: SelectList, rest: Rest) -> Query
    ensures { result ≡ with_rest list rest }
{
    Query::Table(TableQuery {
        list,
        target: rest.target,
        condition: rest.condition,
        order: rest.order,
        lock: rest.lock,
    })
}

fn from_or_row(outputs: OutputList, table: Option<Rest>) -> Query
    ensures { result ≡ from_or_row outputs table }
{
    match table {
        None => Query::Row(outputs),
        Some(rest) => with_rest(SelectList::Outputs(outputs), rest),
    }
}

#[tactic(auto, unfolding(crate::specs::Queries::all_columns))]
fn all_columns(
    alloc: Global,
    depth: u32,
    tokens: &[Lexeme],
) -> Result<(Query, &[Lexeme]), Cant<usize>>
    ensures gives { GivesStep (λ x. x.0) (λ x. x.1.now) result ((all_columns depth).reads tokens.now) }
    ensures shorter { IfOk result (λ x. length x.1.now < length tokens.now) }
{
    let rest = word(STAR, tokens)?;
    let (table, rest) = from(alloc, depth, true, rest)?;
    Ok((with_rest(SelectList::All, table), rest))
}

// Aggregates, behind whose table FOR does not stand.
#[tactic(auto, unfolding(crate::specs::Queries::all_rows))]
fn all_rows(alloc: Global, depth: u32, tokens: &[Lexeme]) -> Result<(Query, &[Lexeme]), Cant<usize>>
    ensures gives { GivesStep (λ x. x.0) (λ x. x.1.now) result ((all_rows depth).reads tokens.now) }
    ensures shorter { IfOk result (λ x. length x.1.now < length tokens.now) }
{
    let (aggregates, rest) = aggregate_list(alloc, depth, tokens)?;
    let (table, rest) = from(alloc, depth, false, rest)?;
    Ok((with_rest(SelectList::Aggregates(aggregates), table), rest))
}

#[tactic(auto, unfolding(crate::specs::Queries::each_row))]
fn each_row(alloc: Global, depth: u32, tokens: &[Lexeme]) -> Result<(Query, &[Lexeme]), Cant<usize>>
    ensures gives { GivesStep (λ x. x.0) (λ x. x.1.now) result ((each_row depth).reads tokens.now) }
    ensures shorter { IfOk result (λ x. length x.1.now < length tokens.now) }
{
    let (outputs, rest) = output_list(alloc, depth, tokens)?;
    let (table, rest) = maybe_from(alloc, depth, rest)?;
    Ok((from_or_row(outputs, table), rest))
}

#[tactic(auto, unfolding(crate::specs::Queries::selected))]
fn selected(alloc: Global, depth: u32, tokens: &[Lexeme]) -> Result<(Query, &[Lexeme]), Cant<usize>>
    ensures gives { GivesStep (λ x. x.0) (λ x. x.1.now) result ((selected depth).reads tokens.now) }
    ensures shorter { IfOk result (λ x. length x.1.now < length tokens.now) }
{
    if starts(STAR, tokens) {
        return all_columns(alloc, depth, tokens);
    }
    if starts_among(&AGGREGATES, tokens) {
        return all_rows(alloc, depth, tokens);
    }
    each_row(alloc, depth, tokens)
}

/// Reads SELECT.
#[tactic(auto, unfolding(crate::specs::Queries::select))]
pub(crate) fn select(
    alloc: Global,
    depth: u32,
    tokens: &[Lexeme],
) -> Result<(Query, &[Lexeme]), Cant<usize>>
    ensures gives { GivesStep (λ x. x.0) (λ x. x.1.now) result ((select depth).reads tokens.now) }
    ensures shorter { IfOk result (λ x. length x.1.now < length tokens.now) }
{
    let rest = word(SELECT, tokens)?;
    selected(alloc, depth, rest)
}

ghost use Rattle.std.specs.Prelude.{ℕ, true, false, ◌≡◌, ◌<◌, ◌≤◌, List, [], ◌∷◌, length, Some, None, IfOk};
ghost use Rattle.al_grammar.specs.Rules.{optional};
ghost use Rattle.al_grammar.specs.Gives.{GivesStep};
ghost use Rattle.al_phrases.specs.Words.{kind_of};
ghost use Rattle.al_altersql.specs.Alter.{using_clause, type_change, not_null, set_action, unset_action, action, on_column, alter_column};

use crate::action::Action;
use crate::numbers::sint;
use al_expr::Expr;
use al_phrases::kinds::{
    ALTER, COLUMN, DATA, DEFAULT, DROP, NOT, NULL, SET, STATISTICS, TYPE, USING,
};
use al_phrases::{Lexeme, concatenation, expression, given, name, starts, type_name, word};
use al_statements::Sub;
use al_values::{Cant, Name};
use std::alloc::Global;

#[tactic(auto, unfolding(crate::specs::Alter::using_clause))]
fn using_clause(
    alloc: Global,
    depth: u32,
    tokens: &[Lexeme],
) -> Result<(Expr, &[Lexeme]), Cant<usize>>
    ensures gives { GivesStep (λ x. x.0) (λ x. x.1.now) result ((using_clause depth).reads tokens.now) }
    ensures shorter { IfOk result (λ x. length x.1.now < length tokens.now) }
{
    let rest = word(USING, tokens)?;
    expression(alloc, depth, rest)
}

fn optional_using(
    alloc: Global,
    depth: u32,
    tokens: &[Lexeme],
) -> Result<(Option<Expr>, &[Lexeme]), Cant<usize>>
    ensures gives { GivesStep (λ x. x.0) (λ x. x.1.now) result ((optional kind_of (using_clause depth)).reads tokens.now) }
    ensures shorter { IfOk result (λ x. length x.1.now ≤ length tokens.now) }
{
    if !starts(USING, tokens) {
        return Ok((None, tokens));
    }
    let (value, rest) = using_clause(alloc, depth, tokens)?;
    Ok((Some(value), rest))
}

// TYPE, a kind, and USING.
#[tactic(auto, unfolding(crate::specs::Alter::type_change))]
fn type_change(
    alloc: Global,
    depth: u32,
    tokens: &[Lexeme],
) -> Result<(Action, &[Lexeme]), Cant<usize>>
    ensures gives { GivesStep (λ x. x.0) (λ x. x.1.now) result ((type_change depth).reads tokens.now) }
    ensures shorter { IfOk result (λ x. length x.1.now < length tokens.now) }
{
    let rest = word(TYPE, tokens)?;
    let (kind, rest) = type_name(rest)?;
    let (value, rest) = optional_using(alloc, depth, rest)?;
    Ok((Action::Type(kind, value), rest))
}

#[tactic(auto, unfolding(crate::specs::Alter::not_null))]
fn not_null(tokens: &[Lexeme]) -> Result<&[Lexeme], Cant<usize>>
    ensures gives { GivesStep (λ rest. tt) (λ rest. rest.now) result (not_null.reads tokens.now) }
    ensures shorter { IfOk result (λ rest. length rest.now < length tokens.now) }
{
    let rest = word(NOT, tokens)?;
    word(NULL, rest)
}

#[tactic(auto, unfolding(crate::specs::Alter::set_action))]
fn set_action(
    alloc: Global,
    depth: u32,
    tokens: &[Lexeme],
) -> Result<(Action, &[Lexeme]), Cant<usize>>
    ensures gives { GivesStep (λ x. x.0) (λ x. x.1.now) result ((set_action depth).reads tokens.now) }
    ensures shorter { IfOk result (λ x. length x.1.now < length tokens.now) }
{
    let rest = word(SET, tokens)?;
    if starts(DATA, rest) {
        let rest = word(DATA, rest)?;
        return type_change(alloc, depth, rest);
    }
    if starts(DEFAULT, rest) {
        let rest = word(DEFAULT, rest)?;
        let (value, rest) = concatenation(alloc, depth, rest)?;
        return Ok((Action::SetDefault(value), rest));
    }
    if starts(NOT, rest) {
        let rest = not_null(rest)?;
        return Ok((Action::SetNotNull, rest));
    }
    let rest = word(STATISTICS, rest)?;
    let (number, rest) = sint(rest)?;
    Ok((Action::SetStatistics(number), rest))
}

#[tactic(auto, unfolding(crate::specs::Alter::unset_action))]
fn unset_action(tokens: &[Lexeme]) -> Result<(Action, &[Lexeme]), Cant<usize>>
    ensures gives { GivesStep (λ x. x.0) (λ x. x.1.now) result (unset_action.reads tokens.now) }
    ensures shorter { IfOk result (λ x. length x.1.now < length tokens.now) }
{
    let rest = word(DROP, tokens)?;
    if starts(DEFAULT, rest) {
        let rest = word(DEFAULT, rest)?;
        return Ok((Action::DropDefault, rest));
    }
    let rest = not_null(rest)?;
    Ok((Action::DropNotNull, rest))
}

#[tactic(auto, unfolding(crate::specs::Alter::action))]
fn action(alloc: Global, depth: u32, tokens: &[Lexeme]) -> Result<(Action, &[Lexeme]), Cant<usize>>
    ensures gives { GivesStep (λ x. x.0) (λ x. x.1.now) result ((action depth).reads tokens.now) }
    ensures shorter { IfOk result (λ x. length x.1.now < length tokens.now) }
{
    if starts(TYPE, tokens) {
        return type_change(alloc, depth, tokens);
    }
    if starts(SET, tokens) {
        return set_action(alloc, depth, tokens);
    }
    unset_action(tokens)
}

fn on_column(column: Name, action: Action) -> Sub
    ensures { result ≡ on_column column action }
{
    match action {
        Action::Type(kind, value) => Sub::AlterType(column, kind, value),
        Action::SetDefault(value) => Sub::SetDefault(column, value),
        Action::DropDefault => Sub::DropDefault(column),
        Action::SetNotNull => Sub::SetNotNull(column),
        Action::DropNotNull => Sub::DropNotNull(column),
        Action::SetStatistics(number) => Sub::SetStatistics(column, number),
    }
}

/// Reads ALTER of a column.
#[tactic(auto, unfolding(crate::specs::Alter::alter_column))]
pub(crate) fn alter_column(
    alloc: Global,
    depth: u32,
    tokens: &[Lexeme],
) -> Result<(Sub, &[Lexeme]), Cant<usize>>
    ensures gives { GivesStep (λ x. x.0) (λ x. x.1.now) result ((alter_column depth).reads tokens.now) }
    ensures shorter { IfOk result (λ x. length x.1.now < length tokens.now) }
{
    let rest = word(ALTER, tokens)?;
    let (_, rest) = given(COLUMN, rest);
    let (column, rest) = name(alloc, rest)?;
    let (action, rest) = action(alloc, depth, rest)?;
    Ok((on_column(column, action), rest))
}

ghost use Rattle.std.specs.Prelude.{ℕ, true, false, ◌≡◌, ◌<◌, ◌≤◌, List, [], ◌∷◌, length, Some, None, IfOk};
ghost use Rattle.al_grammar.specs.Rules.{optional};
ghost use Rattle.al_grammar.specs.Gives.{GivesStep};
ghost use Rattle.al_phrases.specs.Kinds.{unique_word};
ghost use Rattle.al_phrases.specs.Words.{kind_of, ◌▸◌};
ghost use Rattle.al_phrases.specs.Columns.{condition, no_inherit, check, names_in_parens, references, keyed, foreign, demand, named, table_constraint};

use crate::Lexeme;
use crate::kinds::{
    CHECK, CONSTRAINT, FOREIGN, INHERIT, KEY, LEFT_PAREN, NO, PRIMARY, REFERENCES, RIGHT_PAREN,
    UNIQUE,
};
use crate::levels::expression;
use crate::names::name_list;
use crate::tokens::{name, starts, word};
use al_expr::Expr;
use al_statements::{Constraint, Rule};
use al_values::{Cant, Name, NameList};
use std::alloc::Global;

// "(" expr ")": the parentheses open no level.
#[tactic(auto, unfolding(crate::specs::Columns::condition))]
fn condition(alloc: Global, depth: u32, tokens: &[Lexeme]) -> Result<(Expr, &[Lexeme]), Cant<usize>>
    ensures gives { GivesStep (λ x. x.0) (λ x. x.1.now) result ((condition depth).reads tokens.now) }
    ensures shorter { IfOk result (λ x. length x.1.now < length tokens.now) }
{
    let rest = word(LEFT_PAREN, tokens)?;
    let (value, rest) = expression(alloc, depth, rest)?;
    let rest = word(RIGHT_PAREN, rest)?;
    Ok((value, rest))
}

#[tactic(auto, unfolding(crate::specs::Columns::no_inherit))]
fn no_inherit(tokens: &[Lexeme]) -> Result<(bool, &[Lexeme]), Cant<usize>>
    ensures gives { GivesStep (λ x. x.0) (λ x. x.1.now) result (no_inherit.reads tokens.now) }
    ensures shorter { IfOk result (λ x. length x.1.now ≤ length tokens.now) }
{
    if !starts(NO, tokens) {
        return Ok((false, tokens));
    }
    let rest = word(NO, tokens)?;
    let rest = word(INHERIT, rest)?;
    Ok((true, rest))
}

#[tactic(auto, unfolding(crate::specs::Columns::check))]
pub(crate) fn check(
    alloc: Global,
    depth: u32,
    tokens: &[Lexeme],
) -> Result<((Expr, bool), &[Lexeme]), Cant<usize>>
    ensures gives { GivesStep (λ x. x.0) (λ x. x.1.now) result ((check depth).reads tokens.now) }
    ensures shorter { IfOk result (λ x. length x.1.now < length tokens.now) }
{
    let rest = word(CHECK, tokens)?;
    let (value, rest) = condition(alloc, depth, rest)?;
    let (alone, rest) = no_inherit(rest)?;
    Ok(((value, alone), rest))
}

/// Reads names in parentheses, with commas between.
#[tactic(auto, unfolding(crate::specs::Columns::names_in_parens))]
pub fn names_in_parens(
    alloc: Global,
    tokens: &[Lexeme],
) -> Result<(NameList, &[Lexeme]), Cant<usize>>
    ensures gives { GivesStep (λ x. x.0) (λ x. x.1.now) result (names_in_parens.reads tokens.now) }
    ensures shorter { IfOk result (λ x. length x.1.now < length tokens.now) }
{
    let rest = word(LEFT_PAREN, tokens)?;
    let (names, rest) = name_list(alloc, rest)?;
    let rest = word(RIGHT_PAREN, rest)?;
    Ok((names, rest))
}

/// Reads names in parentheses where they stand.
pub fn optional_names(
    alloc: Global,
    tokens: &[Lexeme],
) -> Result<(Option<NameList>, &[Lexeme]), Cant<usize>>
    ensures gives { GivesStep (λ x. x.0) (λ x. x.1.now) result ((optional kind_of names_in_parens).reads tokens.now) }
    ensures shorter { IfOk result (λ x. length x.1.now ≤ length tokens.now) }
{
    if !starts(LEFT_PAREN, tokens) {
        return Ok((None, tokens));
    }
    let (names, rest) = names_in_parens(alloc, tokens)?;
    Ok((Some(names), rest))
}

#[tactic(auto, unfolding(crate::specs::Columns::references))]
fn references(
    alloc: Global,
    tokens: &[Lexeme],
) -> Result<((Name, Option<NameList>), &[Lexeme]), Cant<usize>>
    ensures gives { GivesStep (λ x. x.0) (λ x. x.1.now) result (references.reads tokens.now) }
    ensures shorter { IfOk result (λ x. length x.1.now < length tokens.now) }
{
    let rest = word(REFERENCES, tokens)?;
    let (table, rest) = name(alloc, rest)?;
    let (keys, rest) = optional_names(alloc, rest)?;
    Ok(((table, keys), rest))
}

// PRIMARY KEY or FOREIGN KEY, and names.
fn keyed(alloc: Global, first: u8, tokens: &[Lexeme]) -> Result<(NameList, &[Lexeme]), Cant<usize>>
    ensures gives { GivesStep (λ x. x.0) (λ x. x.1.now) result ((keyed first).reads tokens.now) }
    ensures shorter { IfOk result (λ x. length x.1.now < length tokens.now) }
{
    let rest = word(first, tokens)?;
    let rest = word(KEY, rest)?;
    names_in_parens(alloc, rest)
}

#[tactic(auto, unfolding(crate::specs::Columns::foreign))]
fn foreign(alloc: Global, tokens: &[Lexeme]) -> Result<(Rule, &[Lexeme]), Cant<usize>>
    ensures gives { GivesStep (λ x. x.0) (λ x. x.1.now) result (foreign.reads tokens.now) }
    ensures shorter { IfOk result (λ x. length x.1.now < length tokens.now) }
{
    let (columns, rest) = keyed(alloc, FOREIGN, tokens)?;
    let (target, rest) = references(alloc, rest)?;
    Ok((Rule::ForeignKey(columns, target.0, target.1), rest))
}

fn unique(alloc: Global, tokens: &[Lexeme]) -> Result<(NameList, &[Lexeme]), Cant<usize>>
    ensures gives { GivesStep (λ x. x.0) (λ x. x.1.now) result ((unique_word ▸ names_in_parens).reads tokens.now) }
    ensures shorter { IfOk result (λ x. length x.1.now < length tokens.now) }
{
    let rest = word(UNIQUE, tokens)?;
    names_in_parens(alloc, rest)
}

#[tactic(auto, unfolding(crate::specs::Columns::demand))]
fn demand(alloc: Global, depth: u32, tokens: &[Lexeme]) -> Result<(Rule, &[Lexeme]), Cant<usize>>
    ensures gives { GivesStep (λ x. x.0) (λ x. x.1.now) result ((demand depth).reads tokens.now) }
    ensures shorter { IfOk result (λ x. length x.1.now < length tokens.now) }
{
    if starts(CHECK, tokens) {
        let (condition, rest) = check(alloc, depth, tokens)?;
        return Ok((Rule::Check(condition.0, condition.1), rest));
    }
    if starts(UNIQUE, tokens) {
        let (columns, rest) = unique(alloc, tokens)?;
        return Ok((Rule::Unique(columns), rest));
    }
    if starts(PRIMARY, tokens) {
        let (columns, rest) = keyed(alloc, PRIMARY, tokens)?;
        return Ok((Rule::PrimaryKey(columns), rest));
    }
    foreign(alloc, tokens)
}

// The name after CONSTRAINT, where one is written.
#[tactic(auto, unfolding(crate::specs::Columns::named))]
pub(crate) fn named(
    alloc: Global,
    tokens: &[Lexeme],
) -> Result<(Option<Name>, &[Lexeme]), Cant<usize>>
    ensures gives { GivesStep (λ x. x.0) (λ x. x.1.now) result (named.reads tokens.now) }
    ensures shorter { IfOk result (λ x. length x.1.now ≤ length tokens.now) }
{
    if !starts(CONSTRAINT, tokens) {
        return Ok((None, tokens));
    }
    let rest = word(CONSTRAINT, tokens)?;
    let (name, rest) = name(alloc, rest)?;
    Ok((Some(name), rest))
}

/// Reads a constraint of a table (the manual, CREATE TABLE), with its name where one is written. So many levels may be
/// opened in an expression.
#[tactic(auto, unfolding(crate::specs::Columns::table_constraint))]
pub fn table_constraint(
    alloc: Global,
    depth: u32,
    tokens: &[Lexeme],
) -> Result<(Constraint, &[Lexeme]), Cant<usize>>
    ensures gives { GivesStep (λ x. x.0) (λ x. x.1.now) result ((table_constraint depth).reads tokens.now) }
    ensures shorter { IfOk result (λ x. length x.1.now < length tokens.now) }
{
    let (name, rest) = named(alloc, tokens)?;
    let (rule, rest) = demand(alloc, depth, rest)?;
    Ok((Constraint { name, rule }, rest))
}

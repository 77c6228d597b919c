ghost use Rattle.std.specs.Prelude.{ℕ, true, false, ◌≡◌, ◌<◌, ◌≤◌, List, [], ◌∷◌, length, Some, None, IfOk};
ghost use Rattle.al_grammar.specs.Rules.{optional};
ghost use Rattle.al_grammar.specs.Gives.{GivesStep};
ghost use Rattle.al_phrases.specs.Words.{kind_of};
ghost use Rattle.al_phrases.specs.Columns.{default_mark, primary_mark, primary_words, name_in_parens, reference, part, default_clause, clause, sees, none_seen, key_list, demand_on, with_clause, bare_definition, clauses_from, column_definition};

use crate::Lexeme;
use crate::clause::{Clause, Part, Seen};
use crate::constraints::{check, named};
use crate::kinds::{
    CHECK, CONSTRAINT, DEFAULT, KEY, LATE_DEFAULT, LATE_PRIMARY, LEFT_PAREN, NOT, NULL, PRIMARY,
    REFERENCES, RIGHT_PAREN, UNIQUE,
};
use crate::leaves::starts_among;
use crate::levels::concatenation;
use crate::tokens::{name, starts, word};
use crate::types::type_name;
use al_expr::Expr;
use al_statements::{ColumnDefinition, Constraint, Rule};
use al_values::{Cant, Copied, ListOf, Name, NameList, NoMemory};
use std::alloc::Global;

// DEFAULT, where it may still stand; else what stands in for it.
fn default_mark(seen: bool, tokens: &[Lexeme]) -> Result<&[Lexeme], Cant<usize>>
    ensures gives { GivesStep (λ rest. tt) (λ rest. rest.now) result ((default_mark seen).reads tokens.now) }
    ensures shorter { IfOk result (λ rest. length rest.now < length tokens.now) }
{
    if seen {
        return word(LATE_DEFAULT, tokens);
    }
    word(DEFAULT, tokens)
}

// PRIMARY, where it may still stand; else what stands in for it.
fn primary_mark(seen: bool, tokens: &[Lexeme]) -> Result<&[Lexeme], Cant<usize>>
    ensures gives { GivesStep (λ rest. tt) (λ rest. rest.now) result ((primary_mark seen).reads tokens.now) }
    ensures shorter { IfOk result (λ rest. length rest.now < length tokens.now) }
{
    if seen {
        return word(LATE_PRIMARY, tokens);
    }
    word(PRIMARY, tokens)
}

#[tactic(auto, unfolding(crate::specs::Columns::name_in_parens))]
fn name_in_parens(alloc: Global, tokens: &[Lexeme]) -> Result<(Name, &[Lexeme]), Cant<usize>>
    ensures gives { GivesStep (λ x. x.0) (λ x. x.1.now) result (name_in_parens.reads tokens.now) }
    ensures shorter { IfOk result (λ x. length x.1.now < length tokens.now) }
{
    let rest = word(LEFT_PAREN, tokens)?;
    let (key, rest) = name(alloc, rest)?;
    let rest = word(RIGHT_PAREN, rest)?;
    Ok((key, rest))
}

fn optional_name(alloc: Global, tokens: &[Lexeme]) -> Result<(Option<Name>, &[Lexeme]), Cant<usize>>
    ensures gives { GivesStep (λ x. x.0) (λ x. x.1.now) result ((optional kind_of name_in_parens).reads tokens.now) }
    ensures shorter { IfOk result (λ x. length x.1.now ≤ length tokens.now) }
{
    if !starts(LEFT_PAREN, tokens) {
        return Ok((None, tokens));
    }
    let (key, rest) = name_in_parens(alloc, tokens)?;
    Ok((Some(key), rest))
}

#[tactic(auto, unfolding(crate::specs::Columns::reference))]
fn reference(alloc: Global, tokens: &[Lexeme]) -> Result<(Part, &[Lexeme]), Cant<usize>>
    ensures gives { GivesStep (λ x. x.0) (λ x. x.1.now) result (reference.reads tokens.now) }
    ensures shorter { IfOk result (λ x. length x.1.now < length tokens.now) }
{
    let rest = word(REFERENCES, tokens)?;
    let (table, rest) = name(alloc, rest)?;
    let (key, rest) = optional_name(alloc, rest)?;
    Ok((Part::References(table, key), rest))
}

const DEFAULTS: [u8; 2] = [DEFAULT, LATE_DEFAULT];

const PRIMARIES: [u8; 2] = [PRIMARY, LATE_PRIMARY];

const CLAUSES: [u8; 9] = [
    DEFAULT,
    LATE_DEFAULT,
    NOT,
    CONSTRAINT,
    CHECK,
    UNIQUE,
    PRIMARY,
    LATE_PRIMARY,
    REFERENCES,
];

// PRIMARY KEY, where it may still stand.
fn primary_key(seen: bool, tokens: &[Lexeme]) -> Result<&[Lexeme], Cant<usize>>
    ensures gives { GivesStep (λ rest. tt) (λ rest. rest.now) result ((primary_words seen).reads tokens.now) }
    ensures shorter { IfOk result (λ rest. length rest.now < length tokens.now) }
{
    let rest = primary_mark(seen, tokens)?;
    word(KEY, rest)
}

#[tactic(auto, unfolding(crate::specs::Columns::part))]
fn next_part(
    alloc: Global,
    depth: u32,
    seen: Seen,
    tokens: &[Lexeme],
) -> Result<(Part, &[Lexeme]), Cant<usize>>
    ensures gives { GivesStep (λ x. x.0) (λ x. x.1.now) result ((part depth seen).reads tokens.now) }
    ensures shorter { IfOk result (λ x. length x.1.now < length tokens.now) }
{
    if starts(CHECK, tokens) {
        let (condition, rest) = check(alloc, depth, tokens)?;
        return Ok((Part::Check(condition.0, condition.1), rest));
    }
    if starts(UNIQUE, tokens) {
        let rest = word(UNIQUE, tokens)?;
        return Ok((Part::Unique, rest));
    }
    if starts_among(&PRIMARIES, tokens) {
        let rest = primary_key(seen.primary_key, tokens)?;
        return Ok((Part::PrimaryKey, rest));
    }
    reference(alloc, tokens)
}

fn default_value(
    alloc: Global,
    depth: u32,
    seen: Seen,
    tokens: &[Lexeme],
) -> Result<(Expr, &[Lexeme]), Cant<usize>>
    ensures gives { GivesStep (λ x. x.0) (λ x. x.1.now) result ((default_clause depth seen).reads tokens.now) }
    ensures shorter { IfOk result (λ x. length x.1.now < length tokens.now) }
{
    let rest = default_mark(seen.default, tokens)?;
    concatenation(alloc, depth, rest)
}

#[tactic(auto, unfolding(crate::specs::Columns::clause))]
fn next_clause(
    alloc: Global,
    depth: u32,
    seen: Seen,
    tokens: &[Lexeme],
) -> Result<(Clause, &[Lexeme]), Cant<usize>>
    ensures gives { GivesStep (λ x. x.0) (λ x. x.1.now) result ((clause depth seen).reads tokens.now) }
    ensures shorter { IfOk result (λ x. length x.1.now < length tokens.now) }
{
    if starts_among(&DEFAULTS, tokens) {
        let (value, rest) = default_value(alloc, depth, seen, tokens)?;
        return Ok((Clause::Default(value), rest));
    }
    if starts(NOT, tokens) {
        let rest = word(NOT, tokens)?;
        let rest = word(NULL, rest)?;
        return Ok((Clause::NotNull, rest));
    }
    let (name, rest) = named(alloc, tokens)?;
    let (part, rest) = next_part(alloc, depth, seen, rest)?;
    Ok((Clause::Constraint(name, part), rest))
}

fn sees(seen: Seen, clause: &Clause) -> Seen
    ensures { result ≡ sees seen clause.now }
{
    match clause {
        Clause::Default(_) => Seen {
            default: true,
            primary_key: seen.primary_key,
        },
        Clause::Constraint(_, Part::PrimaryKey) => Seen {
            default: seen.default,
            primary_key: true,
        },
        _ => seen,
    }
}

fn one_name(alloc: Global, name: &Name) -> Result<NameList, NoMemory>
    ensures { IfOk result (λ names. names ≡ name.now ∷ []) }
{
    let mut names = ListOf::new(alloc);
    names.push(name.copied(alloc)?)?;
    Ok(names)
}

// The column of a table that is referred to, as a list.
fn key_list(alloc: Global, key: Option<Name>) -> Result<Option<NameList>, NoMemory>
    ensures { IfOk result (λ keys. keys ≡ key_list key) }
{
    match key {
        None => Ok(None),
        Some(key) => Ok(Some(one_name(alloc, &key)?)),
    }
}

// A constraint in the definition of a column has that column as its only one.
fn demand_on(alloc: Global, column: &Name, part: Part) -> Result<Rule, NoMemory>
    ensures { IfOk result (λ rule. rule ≡ demand_on column.now part) }
{
    match part {
        Part::Check(condition, alone) => Ok(Rule::Check(condition, alone)),
        Part::Unique => Ok(Rule::Unique(one_name(alloc, column)?)),
        Part::PrimaryKey => Ok(Rule::PrimaryKey(one_name(alloc, column)?)),
        Part::References(table, key) => Ok(Rule::ForeignKey(
            one_name(alloc, column)?,
            table,
            key_list(alloc, key)?,
        )),
    }
}

fn with_clause(
    alloc: Global,
    definition: ColumnDefinition,
    clause: Clause,
) -> Result<ColumnDefinition, NoMemory>
    ensures { IfOk result (λ d. d ≡ with_clause definition clause) }
{
    let mut definition = definition;
    match clause {
        Clause::Default(value) => definition.default = Some(value),
        Clause::NotNull => definition.not_null = true,
        Clause::Constraint(name, part) => {
            let rule = demand_on(alloc, &definition.name, part)?;
            definition.constraints.push(Constraint { name, rule })?;
        }
    }
    Ok(definition)
}

#[tactic(auto, unfolding(crate::specs::Columns::bare_definition))]
fn bare_definition(
    alloc: Global,
    tokens: &[Lexeme],
) -> Result<(ColumnDefinition, &[Lexeme]), Cant<usize>>
    ensures gives { GivesStep (λ x. x.0) (λ x. x.1.now) result (bare_definition.reads tokens.now) }
    ensures shorter { IfOk result (λ x. length x.1.now < length tokens.now) }
{
    let (name, rest) = name(alloc, tokens)?;
    let (kind, rest) = type_name(rest)?;
    let definition = ColumnDefinition {
        name,
        kind,
        default: None,
        not_null: false,
        constraints: ListOf::new(alloc),
    };
    Ok((definition, rest))
}

#[tactic(auto, using(crate::proofs::ColumnLaws::clauses_on, crate::proofs::ColumnLaws::clauses_off, crate::proofs::ColumnLaws::clauses_stop))]
fn more_clauses(
    alloc: Global,
    depth: u32,
    first: ColumnDefinition,
    tokens: &[Lexeme],
) -> Result<(ColumnDefinition, &[Lexeme]), Cant<usize>>
    ensures gives { GivesStep (λ x. x.0) (λ x. x.1.now) result (clauses_from depth none_seen first tokens.now) }
    ensures shorter { IfOk result (λ x. length x.1.now ≤ length tokens.now) }
{
    let mut definition = first;
    let mut seen = Seen {
        default: false,
        primary_key: false,
    };
    let mut rest = tokens;
    'clauses: while starts_among(&CLAUSES, rest) {
        let (next, more) = next_clause(alloc, depth, seen, rest)?;
        seen = sees(seen, &next);
        definition = with_clause(alloc, definition, next)?;
        rest = more;
    }
    Ok((definition, rest))
}

/// Reads the definition of a column (the manual, CREATE TABLE). So many levels may be opened in an expression.
#[tactic(auto, unfolding(crate::specs::Columns::column_definition, crate::specs::Columns::clauses_from))]
pub fn column_definition(
    alloc: Global,
    depth: u32,
    tokens: &[Lexeme],
) -> Result<(ColumnDefinition, &[Lexeme]), Cant<usize>>
    ensures gives { GivesStep (λ x. x.0) (λ x. x.1.now) result ((column_definition depth).reads tokens.now) }
    ensures shorter { IfOk result (λ x. length x.1.now < length tokens.now) }
{
    let (definition, rest) = bare_definition(alloc, tokens)?;
    more_clauses(alloc, depth, definition, rest)
}

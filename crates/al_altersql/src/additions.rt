ghost use Rattle.std.specs.Prelude.{ℕ, true, false, ◌≡◌, ◌<◌, ◌≤◌, List, [], ◌∷◌, length, IfOk};
ghost use Rattle.al_grammar.specs.Gives.{GivesStep};
ghost use Rattle.al_altersql.specs.Alter.{takes_not_valid, not_mark, not_valid, new_column, new_constraint, add};

use al_phrases::kinds::{ADD, CHECK, COLUMN, CONSTRAINT, FOREIGN, NOT, PRIMARY, UNIQUE, VALID};
use al_phrases::{Lexeme, column_definition, given, starts_among, table_constraint, word};
use al_statements::{Rule, Sub};
use al_values::Cant;
use std::alloc::Global;

// Stands in for the NOT of NOT VALID where it can't stand; no text has it.
const LATE_NOT: u8 = 28;

const NOTS: [u8; 2] = [NOT, LATE_NOT];

const CONSTRAINTS: [u8; 5] = [CONSTRAINT, CHECK, UNIQUE, PRIMARY, FOREIGN];

// Whether NOT VALID may stand behind a rule.
fn takes_not_valid(rule: &Rule) -> bool
    ensures { result ≡ takes_not_valid rule.now }
{
    match rule {
        Rule::Check(_, _) | Rule::ForeignKey(_, _, _) => true,
        Rule::Unique(_) | Rule::PrimaryKey(_) => false,
    }
}

// NOT, where NOT VALID may stand; else what stands in for it.
fn not_mark(may_stand: bool, tokens: &[Lexeme]) -> Result<&[Lexeme], Cant<usize>>
    ensures gives { GivesStep (λ rest. tt) (λ rest. rest.now) result ((not_mark may_stand).reads tokens.now) }
    ensures shorter { IfOk result (λ rest. length rest.now < length tokens.now) }
{
    if may_stand {
        return word(NOT, tokens);
    }
    word(LATE_NOT, tokens)
}

#[tactic(auto, unfolding(crate::specs::Alter::not_valid))]
fn not_valid(may_stand: bool, tokens: &[Lexeme]) -> Result<(bool, &[Lexeme]), Cant<usize>>
    ensures gives { GivesStep (λ x. x.0) (λ x. x.1.now) result ((not_valid may_stand).reads tokens.now) }
    ensures shorter { IfOk result (λ x. length x.1.now ≤ length tokens.now) }
{
    if !starts_among(&NOTS, tokens) {
        return Ok((false, tokens));
    }
    let rest = not_mark(may_stand, tokens)?;
    let rest = word(VALID, rest)?;
    Ok((true, rest))
}

#[tactic(auto, unfolding(crate::specs::Alter::new_column))]
fn new_column(alloc: Global, depth: u32, tokens: &[Lexeme]) -> Result<(Sub, &[Lexeme]), Cant<usize>>
    ensures gives { GivesStep (λ x. x.0) (λ x. x.1.now) result ((new_column depth).reads tokens.now) }
    ensures shorter { IfOk result (λ x. length x.1.now < length tokens.now) }
{
    let (_, rest) = given(COLUMN, tokens);
    let (column, rest) = column_definition(alloc, depth, rest)?;
    Ok((Sub::AddColumn(column), rest))
}

#[tactic(auto, unfolding(crate::specs::Alter::new_constraint))]
fn new_constraint(
    alloc: Global,
    depth: u32,
    tokens: &[Lexeme],
) -> Result<(Sub, &[Lexeme]), Cant<usize>>
    ensures gives { GivesStep (λ x. x.0) (λ x. x.1.now) result ((new_constraint depth).reads tokens.now) }
    ensures shorter { IfOk result (λ x. length x.1.now < length tokens.now) }
{
    let (constraint, rest) = table_constraint(alloc, depth, tokens)?;
    let (is_not_valid, rest) = not_valid(takes_not_valid(&constraint.rule), rest)?;
    Ok((Sub::AddConstraint(constraint, is_not_valid), rest))
}

/// Reads ADD of a column or of a constraint.
#[tactic(auto, unfolding(crate::specs::Alter::add))]
pub(crate) fn add(
    alloc: Global,
    depth: u32,
    tokens: &[Lexeme],
) -> Result<(Sub, &[Lexeme]), Cant<usize>>
    ensures gives { GivesStep (λ x. x.0) (λ x. x.1.now) result ((add depth).reads tokens.now) }
    ensures shorter { IfOk result (λ x. length x.1.now < length tokens.now) }
{
    let rest = word(ADD, tokens)?;
    if starts_among(&CONSTRAINTS, rest) {
        return new_constraint(alloc, depth, rest);
    }
    new_column(alloc, depth, rest)
}

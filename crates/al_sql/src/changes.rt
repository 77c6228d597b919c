ghost use Rattle.std.specs.Prelude.{ℕ, true, false, ◌≡◌, ◌<◌, ◌≤◌, List, [], ◌∷◌, length, Some, None, IfOk};
ghost use Rattle.al_grammar.specs.Gives.{GivesStep};
ghost use Rattle.al_sql.specs.Rows.{assignment, next_assignment, assignments_from, assignment_list, update, delete};

use crate::slots::slot;
use crate::words::condition;
use al_altersql::target;
use al_phrases::kinds::{COMMA, DELETE, EQUAL, FROM, SET, UPDATE};
use al_phrases::{Lexeme, name, starts, word};
use al_statements::{Assignment, Delete, Update};
use al_values::{Cant, ListOf};
use std::alloc::Global;

#[tactic(auto, unfolding(crate::specs::Rows::assignment))]
fn assignment(
    alloc: Global,
    depth: u32,
    tokens: &[Lexeme],
) -> Result<(Assignment, &[Lexeme]), Cant<usize>>
    ensures gives { GivesStep (λ x. x.0) (λ x. x.1.now) result ((assignment depth).reads tokens.now) }
    ensures shorter { IfOk result (λ x. length x.1.now < length tokens.now) }
{
    let (column, rest) = name(alloc, tokens)?;
    let rest = word(EQUAL, rest)?;
    let (slot, rest) = slot(alloc, depth, rest)?;
    Ok((Assignment { column, slot }, rest))
}

#[tactic(auto, unfolding(crate::specs::Rows::next_assignment))]
fn next_assignment(
    alloc: Global,
    depth: u32,
    tokens: &[Lexeme],
) -> Result<(Assignment, &[Lexeme]), Cant<usize>>
    ensures gives { GivesStep (λ x. x.0) (λ x. x.1.now) result ((next_assignment depth).reads tokens.now) }
    ensures shorter { IfOk result (λ x. length x.1.now < length tokens.now) }
{
    let rest = word(COMMA, tokens)?;
    assignment(alloc, depth, rest)
}

#[tactic(auto, using(crate::proofs::RowLaws::assignments_on, crate::proofs::RowLaws::assignments_off, crate::proofs::RowLaws::assignments_stop))]
fn more_assignments(
    alloc: Global,
    depth: u32,
    first: Assignment,
    tokens: &[Lexeme],
) -> Result<(ListOf<Assignment>, &[Lexeme]), Cant<usize>>
    ensures gives { GivesStep (λ x. x.0) (λ x. x.1.now) result (assignments_from depth (first ∷ []) tokens.now) }
    ensures shorter { IfOk result (λ x. length x.1.now ≤ length tokens.now) }
{
    let mut all = ListOf::new(alloc);
    all.push(first)?;
    let mut rest = tokens;
    'assignments: while starts(COMMA, rest) {
        let (next, more) = next_assignment(alloc, depth, rest)?;
        all.push(next)?;
        rest = more;
    }
    Ok((all, rest))
}

#[tactic(auto, unfolding(crate::specs::Rows::assignment_list, crate::specs::Rows::assignments_from, crate::specs::Rows::next_assignment))]
fn assignment_list(
    alloc: Global,
    depth: u32,
    tokens: &[Lexeme],
) -> Result<(ListOf<Assignment>, &[Lexeme]), Cant<usize>>
    ensures gives { GivesStep (λ x. x.0) (λ x. x.1.now) result ((assignment_list depth).reads tokens.now) }
    ensures shorter { IfOk result (λ x. length x.1.now < length tokens.now) }
{
    let (first, rest) = assignment(alloc, depth, tokens)?;
    more_assignments(alloc, depth, first, rest)
}

/// Reads UPDATE.
#[tactic(auto, unfolding(crate::specs::Rows::update))]
pub(crate) fn update(
    alloc: Global,
    depth: u32,
    tokens: &[Lexeme],
) -> Result<(Update, &[Lexeme]), Cant<usize>>
    ensures gives { GivesStep (λ x. x.0) (λ x. x.1.now) result ((update depth).reads tokens.now) }
    ensures shorter { IfOk result (λ x. length x.1.now < length tokens.now) }
{
    let rest = word(UPDATE, tokens)?;
    let (target, rest) = target(alloc, rest)?;
    let rest = word(SET, rest)?;
    let (assignments, rest) = assignment_list(alloc, depth, rest)?;
    let (condition, rest) = condition(alloc, depth, rest)?;
    let update = Update {
        target,
        assignments,
        condition,
    };
    Ok((update, rest))
}

/// Reads DELETE.
#[tactic(auto, unfolding(crate::specs::Rows::delete))]
pub(crate) fn delete(
    alloc: Global,
    depth: u32,
    tokens: &[Lexeme],
) -> Result<(Delete, &[Lexeme]), Cant<usize>>
    ensures gives { GivesStep (λ x. x.0) (λ x. x.1.now) result ((delete depth).reads tokens.now) }
    ensures shorter { IfOk result (λ x. length x.1.now < length tokens.now) }
{
    let rest = word(DELETE, tokens)?;
    let rest = word(FROM, rest)?;
    let (target, rest) = target(alloc, rest)?;
    let (condition, rest) = condition(alloc, depth, rest)?;
    Ok((Delete { target, condition }, rest))
}

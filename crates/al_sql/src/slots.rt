ghost use Rattle.std.specs.Prelude.{ℕ, true, false, ◌≡◌, ◌<◌, ◌≤◌, List, [], ◌∷◌, length, Some, None, IfOk};
ghost use Rattle.al_grammar.specs.Gives.{GivesStep};
ghost use Rattle.al_sql.specs.Rows.{slot, next_slot, slots_from, slot_list, tuple, next_tuple, tuples_from, tuple_list};

use al_phrases::kinds::{COMMA, DEFAULT, LEFT_PAREN, RIGHT_PAREN};
use al_phrases::{Lexeme, expression, starts, word};
use al_statements::{Slot, Tuple};
use al_values::{Cant, ListOf};
use std::alloc::Global;

/// Reads what is given for a column.
#[tactic(auto, unfolding(crate::specs::Rows::slot))]
pub(crate) fn slot(
    alloc: Global,
    depth: u32,
    tokens: &[Lexeme],
) -> Result<(Slot, &[Lexeme]), Cant<usize>>
    ensures gives { GivesStep (λ x. x.0) (λ x. x.1.now) result ((slot depth).reads tokens.now) }
    ensures shorter { IfOk result (λ x. length x.1.now < length tokens.now) }
{
    if starts(DEFAULT, tokens) {
        let rest = word(DEFAULT, tokens)?;
        return Ok((Slot::Default, rest));
    }
    let (value, rest) = expression(alloc, depth, tokens)?;
    Ok((Slot::Value(value), rest))
}

#[tactic(auto, unfolding(crate::specs::Rows::next_slot))]
fn next_slot(alloc: Global, depth: u32, tokens: &[Lexeme]) -> Result<(Slot, &[Lexeme]), Cant<usize>>
    ensures gives { GivesStep (λ x. x.0) (λ x. x.1.now) result ((next_slot depth).reads tokens.now) }
    ensures shorter { IfOk result (λ x. length x.1.now < length tokens.now) }
{
    let rest = word(COMMA, tokens)?;
    slot(alloc, depth, rest)
}

#[tactic(auto, using(crate::proofs::RowLaws::slots_on, crate::proofs::RowLaws::slots_off, crate::proofs::RowLaws::slots_stop))]
fn more_slots(
    alloc: Global,
    depth: u32,
    first: Slot,
    tokens: &[Lexeme],
) -> Result<(ListOf<Slot>, &[Lexeme]), Cant<usize>>
    ensures gives { GivesStep (λ x. x.0) (λ x. x.1.now) result (slots_from depth (first ∷ []) tokens.now) }
    ensures shorter { IfOk result (λ x. length x.1.now ≤ length tokens.now) }
{
    let mut all = ListOf::new(alloc);
    all.push(first)?;
    let mut rest = tokens;
    'slots: while starts(COMMA, rest) {
        let (next, more) = next_slot(alloc, depth, rest)?;
        all.push(next)?;
        rest = more;
    }
    Ok((all, rest))
}

#[tactic(auto, unfolding(crate::specs::Rows::slot_list, crate::specs::Rows::slots_from, crate::specs::Rows::next_slot))]
fn slot_list(
    alloc: Global,
    depth: u32,
    tokens: &[Lexeme],
) -> Result<(ListOf<Slot>, &[Lexeme]), Cant<usize>>
    ensures gives { GivesStep (λ x. x.0) (λ x. x.1.now) result ((slot_list depth).reads tokens.now) }
    ensures shorter { IfOk result (λ x. length x.1.now < length tokens.now) }
{
    let (first, rest) = slot(alloc, depth, tokens)?;
    more_slots(alloc, depth, first, rest)
}

#[tactic(auto, unfolding(crate::specs::Rows::tuple))]
fn tuple(alloc: Global, depth: u32, tokens: &[Lexeme]) -> Result<(Tuple, &[Lexeme]), Cant<usize>>
    ensures gives { GivesStep (λ x. x.0) (λ x. x.1.now) result ((tuple depth).reads tokens.now) }
    ensures shorter { IfOk result (λ x. length x.1.now < length tokens.now) }
{
    let rest = word(LEFT_PAREN, tokens)?;
    let (slots, rest) = slot_list(alloc, depth, rest)?;
    let rest = word(RIGHT_PAREN, rest)?;
    Ok((slots, rest))
}

#[tactic(auto, unfolding(crate::specs::Rows::next_tuple))]
fn next_tuple(
    alloc: Global,
    depth: u32,
    tokens: &[Lexeme],
) -> Result<(Tuple, &[Lexeme]), Cant<usize>>
    ensures gives { GivesStep (λ x. x.0) (λ x. x.1.now) result ((next_tuple depth).reads tokens.now) }
    ensures shorter { IfOk result (λ x. length x.1.now < length tokens.now) }
{
    let rest = word(COMMA, tokens)?;
    tuple(alloc, depth, rest)
}

#[tactic(auto, using(crate::proofs::RowLaws::tuples_on, crate::proofs::RowLaws::tuples_off, crate::proofs::RowLaws::tuples_stop))]
fn more_tuples(
    alloc: Global,
    depth: u32,
    first: Tuple,
    tokens: &[Lexeme],
) -> Result<(ListOf<Tuple>, &[Lexeme]), Cant<usize>>
    ensures gives { GivesStep (λ x. x.0) (λ x. x.1.now) result (tuples_from depth (first ∷ []) tokens.now) }
    ensures shorter { IfOk result (λ x. length x.1.now ≤ length tokens.now) }
{
    let mut all = ListOf::new(alloc);
    all.push(first)?;
    let mut rest = tokens;
    'tuples: while starts(COMMA, rest) {
        let (next, more) = next_tuple(alloc, depth, rest)?;
        all.push(next)?;
        rest = more;
    }
    Ok((all, rest))
}

/// Reads tuples with commas between.
#[tactic(auto, unfolding(crate::specs::Rows::tuple_list, crate::specs::Rows::tuples_from, crate::specs::Rows::next_tuple))]
pub(crate) fn tuple_list(
    alloc: Global,
    depth: u32,
    tokens: &[Lexeme],
) -> Result<(ListOf<Tuple>, &[Lexeme]), Cant<usize>>
    ensures gives { GivesStep (λ x. x.0) (λ x. x.1.now) result ((tuple_list depth).reads tokens.now) }
    ensures shorter { IfOk result (λ x. length x.1.now < length tokens.now) }
{
    let (first, rest) = tuple(alloc, depth, tokens)?;
    more_tuples(alloc, depth, first, rest)
}

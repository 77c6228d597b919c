ghost use Rattle.std.specs.Prelude.{ℕ, true, false, ◌≡◌, ◌<◌, ◌≤◌, List, [], ◌∷◌, length, IfOk};
ghost use Rattle.al_grammar.specs.Gives.{GivesStep};
ghost use Rattle.al_altersql.specs.Alter.{sub, next_sub, subs_from, sub_list};

use crate::additions::add;
use crate::alterations::alter_column;
use crate::removals::remove;
use crate::storage::{fillfactor, inherit, validate};
use al_phrases::kinds::{ADD, ALTER, COMMA, DROP, INHERIT, NO, SET, VALIDATE};
use al_phrases::{Lexeme, starts, word};
use al_statements::{Sub, SubList};
use al_values::Cant;
use std::alloc::Global;

#[tactic(auto, unfolding(crate::specs::Alter::sub))]
fn sub(alloc: Global, depth: u32, tokens: &[Lexeme]) -> Result<(Sub, &[Lexeme]), Cant<usize>>
    ensures gives { GivesStep (λ x. x.0) (λ x. x.1.now) result ((sub depth).reads tokens.now) }
    ensures shorter { IfOk result (λ x. length x.1.now < length tokens.now) }
{
    if starts(ADD, tokens) {
        return add(alloc, depth, tokens);
    }
    if starts(DROP, tokens) {
        return remove(alloc, tokens);
    }
    if starts(ALTER, tokens) {
        return alter_column(alloc, depth, tokens);
    }
    if starts(VALIDATE, tokens) {
        return validate(alloc, tokens);
    }
    if starts(SET, tokens) {
        return fillfactor(tokens);
    }
    if starts(INHERIT, tokens) {
        let (parent, rest) = inherit(alloc, tokens)?;
        return Ok((Sub::Inherit(parent), rest));
    }
    let rest = word(NO, tokens)?;
    let (parent, rest) = inherit(alloc, rest)?;
    Ok((Sub::NoInherit(parent), rest))
}

#[tactic(auto, unfolding(crate::specs::Alter::next_sub))]
fn next_sub(alloc: Global, depth: u32, tokens: &[Lexeme]) -> Result<(Sub, &[Lexeme]), Cant<usize>>
    ensures gives { GivesStep (λ x. x.0) (λ x. x.1.now) result ((next_sub depth).reads tokens.now) }
    ensures shorter { IfOk result (λ x. length x.1.now < length tokens.now) }
{
    let rest = word(COMMA, tokens)?;
    sub(alloc, depth, rest)
}

#[tactic(auto, using(crate::proofs::AlterLaws::subs_on, crate::proofs::AlterLaws::subs_off, crate::proofs::AlterLaws::subs_stop))]
fn more_subs(
    alloc: Global,
    depth: u32,
    first: Sub,
    tokens: &[Lexeme],
) -> Result<(SubList, &[Lexeme]), Cant<usize>>
    ensures gives { GivesStep (λ x. x.0) (λ x. x.1.now) result (subs_from depth (first ∷ []) tokens.now) }
    ensures shorter { IfOk result (λ x. length x.1.now ≤ length tokens.now) }
{
    let mut all = SubList::new(alloc, first)?;
    let mut rest = tokens;
    'subs: while starts(COMMA, rest) {
        let (next, more) = next_sub(alloc, depth, rest)?;
        all.push(next)?;
        rest = more;
    }
    Ok((all, rest))
}

/// Reads subcommands with commas between.
#[tactic(auto, unfolding(crate::specs::Alter::sub_list, crate::specs::Alter::subs_from, crate::specs::Alter::next_sub))]
pub(crate) fn sub_list(
    alloc: Global,
    depth: u32,
    tokens: &[Lexeme],
) -> Result<(SubList, &[Lexeme]), Cant<usize>>
    ensures gives { GivesStep (λ x. x.0) (λ x. x.1.now) result ((sub_list depth).reads tokens.now) }
    ensures shorter { IfOk result (λ x. length x.1.now < length tokens.now) }
{
    let (first, rest) = sub(alloc, depth, tokens)?;
    more_subs(alloc, depth, first, rest)
}

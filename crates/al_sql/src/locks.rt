ghost use Rattle.std.specs.Prelude.{ℕ, true, false, ◌≡◌, ◌<◌, ◌≤◌, List, [], ◌∷◌, length, Some, None, IfOk};
ghost use Rattle.al_grammar.specs.Gives.{GivesStep};
ghost use Rattle.al_sql.specs.Tables.{strength, beside_share, share_mode, mode, in_mode, next_target, targets_from, target_list, lock};
ghost use Rattle.al_grammar.specs.Rules.{optional};
ghost use Rattle.al_phrases.specs.Words.{kind_of};

use al_altersql::target;
use al_modes::Mode;
use al_phrases::kinds::{
    ACCESS, COMMA, EXCLUSIVE, IN, LOCK, MODE, NOWAIT, ROW, SHARE, TABLE, UPDATE,
};
use al_phrases::{Lexeme, given, starts, starts_among, word};
use al_statements::{LockTable, Target};
use al_values::{Cant, ListOf};
use std::alloc::Global;

const BESIDE_SHARE: [u8; 2] = [UPDATE, ROW];

// SHARE or EXCLUSIVE behind ACCESS or ROW.
fn strength(
    share: Mode,
    exclusive: Mode,
    tokens: &[Lexeme],
) -> Result<(Mode, &[Lexeme]), Cant<usize>>
    ensures gives { GivesStep (λ x. x.0) (λ x. x.1.now) result ((strength share exclusive).reads tokens.now) }
    ensures shorter { IfOk result (λ x. length x.1.now < length tokens.now) }
{
    if starts(SHARE, tokens) {
        let rest = word(SHARE, tokens)?;
        return Ok((share, rest));
    }
    let rest = word(EXCLUSIVE, tokens)?;
    Ok((exclusive, rest))
}

#[tactic(auto, unfolding(crate::specs::Tables::beside_share))]
fn beside_share(tokens: &[Lexeme]) -> Result<(Mode, &[Lexeme]), Cant<usize>>
    ensures gives { GivesStep (λ x. x.0) (λ x. x.1.now) result (beside_share.reads tokens.now) }
    ensures shorter { IfOk result (λ x. length x.1.now < length tokens.now) }
{
    if starts(UPDATE, tokens) {
        let rest = word(UPDATE, tokens)?;
        let rest = word(EXCLUSIVE, rest)?;
        return Ok((Mode::ShareUpdateExclusive, rest));
    }
    let rest = word(ROW, tokens)?;
    let rest = word(EXCLUSIVE, rest)?;
    Ok((Mode::ShareRowExclusive, rest))
}

// SHARE, SHARE UPDATE EXCLUSIVE or SHARE ROW EXCLUSIVE.
#[tactic(auto, unfolding(crate::specs::Tables::share_mode))]
fn share_mode(tokens: &[Lexeme]) -> Result<(Mode, &[Lexeme]), Cant<usize>>
    ensures gives { GivesStep (λ x. x.0) (λ x. x.1.now) result (share_mode.reads tokens.now) }
    ensures shorter { IfOk result (λ x. length x.1.now < length tokens.now) }
{
    let rest = word(SHARE, tokens)?;
    if !starts_among(&BESIDE_SHARE, rest) {
        return Ok((Mode::Share, rest));
    }
    beside_share(rest)
}

#[tactic(auto, unfolding(crate::specs::Tables::mode))]
fn mode(tokens: &[Lexeme]) -> Result<(Mode, &[Lexeme]), Cant<usize>>
    ensures gives { GivesStep (λ x. x.0) (λ x. x.1.now) result (mode.reads tokens.now) }
    ensures shorter { IfOk result (λ x. length x.1.now < length tokens.now) }
{
    if starts(ACCESS, tokens) {
        let rest = word(ACCESS, tokens)?;
        return strength(Mode::AccessShare, Mode::AccessExclusive, rest);
    }
    if starts(ROW, tokens) {
        let rest = word(ROW, tokens)?;
        return strength(Mode::RowShare, Mode::RowExclusive, rest);
    }
    if starts(SHARE, tokens) {
        return share_mode(tokens);
    }
    let rest = word(EXCLUSIVE, tokens)?;
    Ok((Mode::Exclusive, rest))
}

#[tactic(auto, unfolding(crate::specs::Tables::in_mode))]
fn in_mode(tokens: &[Lexeme]) -> Result<(Mode, &[Lexeme]), Cant<usize>>
    ensures gives { GivesStep (λ x. x.0) (λ x. x.1.now) result (in_mode.reads tokens.now) }
    ensures shorter { IfOk result (λ x. length x.1.now ≤ length tokens.now) }
{
    if !starts(IN, tokens) {
        return Ok((Mode::AccessExclusive, tokens));
    }
    let rest = word(IN, tokens)?;
    let (mode, rest) = mode(rest)?;
    let rest = word(MODE, rest)?;
    Ok((mode, rest))
}

#[tactic(auto, unfolding(crate::specs::Tables::next_target))]
fn next_target(alloc: Global, tokens: &[Lexeme]) -> Result<(Target, &[Lexeme]), Cant<usize>>
    ensures gives { GivesStep (λ x. x.0) (λ x. x.1.now) result (next_target.reads tokens.now) }
    ensures shorter { IfOk result (λ x. length x.1.now < length tokens.now) }
{
    let rest = word(COMMA, tokens)?;
    target(alloc, rest)
}

#[tactic(auto, using(crate::proofs::TableLaws::targets_on, crate::proofs::TableLaws::targets_off, crate::proofs::TableLaws::targets_stop))]
fn more_targets(
    alloc: Global,
    first: Target,
    tokens: &[Lexeme],
) -> Result<(ListOf<Target>, &[Lexeme]), Cant<usize>>
    ensures gives { GivesStep (λ x. x.0) (λ x. x.1.now) result (targets_from (first ∷ []) tokens.now) }
    ensures shorter { IfOk result (λ x. length x.1.now ≤ length tokens.now) }
{
    let mut all = ListOf::new(alloc);
    all.push(first)?;
    let mut rest = tokens;
    'targets: while starts(COMMA, rest) {
        let (next, more) = next_target(alloc, rest)?;
        all.push(next)?;
        rest = more;
    }
    Ok((all, rest))
}

#[tactic(auto, unfolding(crate::specs::Tables::target_list, crate::specs::Tables::targets_from, crate::specs::Tables::next_target))]
fn target_list(alloc: Global, tokens: &[Lexeme]) -> Result<(ListOf<Target>, &[Lexeme]), Cant<usize>>
    ensures gives { GivesStep (λ x. x.0) (λ x. x.1.now) result (target_list.reads tokens.now) }
    ensures shorter { IfOk result (λ x. length x.1.now < length tokens.now) }
{
    let (first, rest) = target(alloc, tokens)?;
    more_targets(alloc, first, rest)
}

/// Reads LOCK TABLE.
#[tactic(auto, unfolding(crate::specs::Tables::lock))]
pub(crate) fn lock(alloc: Global, tokens: &[Lexeme]) -> Result<(LockTable, &[Lexeme]), Cant<usize>>
    ensures gives { GivesStep (λ x. x.0) (λ x. x.1.now) result (lock.reads tokens.now) }
    ensures shorter { IfOk result (λ x. length x.1.now < length tokens.now) }
{
    let rest = word(LOCK, tokens)?;
    let (_, rest) = given(TABLE, rest);
    let (targets, rest) = target_list(alloc, rest)?;
    let (mode, rest) = in_mode(rest)?;
    let (nowait, rest) = given(NOWAIT, rest);
    Ok((
        LockTable {
            targets,
            mode,
            nowait,
        },
        rest,
    ))
}

ghost use Rattle.std.specs.Prelude.{ℕ, true, false, ◌≡◌, ◌<◌, ◌≤◌, List, [], ◌∷◌, length, IfOk};
ghost use Rattle.al_grammar.specs.Gives.{GivesStep};
ghost use Rattle.al_altersql.specs.Alter.{validate, fillfactor, inherit};

use crate::numbers::percent;
use al_phrases::kinds::{
    CONSTRAINT, EQUAL, FILLFACTOR, INHERIT, LEFT_PAREN, RIGHT_PAREN, SET, VALIDATE,
};
use al_phrases::{Lexeme, name, word};
use al_statements::Sub;
use al_values::{Cant, Name};
use std::alloc::Global;

/// Reads VALIDATE CONSTRAINT.
#[tactic(auto, unfolding(crate::specs::Alter::validate))]
pub(crate) fn validate(alloc: Global, tokens: &[Lexeme]) -> Result<(Sub, &[Lexeme]), Cant<usize>>
    ensures gives { GivesStep (λ x. x.0) (λ x. x.1.now) result (validate.reads tokens.now) }
    ensures shorter { IfOk result (λ x. length x.1.now < length tokens.now) }
{
    let rest = word(VALIDATE, tokens)?;
    let rest = word(CONSTRAINT, rest)?;
    let (name, rest) = name(alloc, rest)?;
    Ok((Sub::Validate(name), rest))
}

/// Reads SET of the fillfactor.
#[tactic(auto, unfolding(crate::specs::Alter::fillfactor))]
pub(crate) fn fillfactor(tokens: &[Lexeme]) -> Result<(Sub, &[Lexeme]), Cant<usize>>
    ensures gives { GivesStep (λ x. x.0) (λ x. x.1.now) result (fillfactor.reads tokens.now) }
    ensures shorter { IfOk result (λ x. length x.1.now < length tokens.now) }
{
    let rest = word(SET, tokens)?;
    let rest = word(LEFT_PAREN, rest)?;
    let rest = word(FILLFACTOR, rest)?;
    let rest = word(EQUAL, rest)?;
    let (percent, rest) = percent(rest)?;
    let rest = word(RIGHT_PAREN, rest)?;
    Ok((Sub::SetFillfactor(percent), rest))
}

/// Reads INHERIT and the parent's name.
#[tactic(auto, unfolding(crate::specs::Alter::inherit))]
pub(crate) fn inherit(alloc: Global, tokens: &[Lexeme]) -> Result<(Name, &[Lexeme]), Cant<usize>>
    ensures gives { GivesStep (λ x. x.0) (λ x. x.1.now) result (inherit.reads tokens.now) }
    ensures shorter { IfOk result (λ x. length x.1.now < length tokens.now) }
{
    let rest = word(INHERIT, tokens)?;
    name(alloc, rest)
}

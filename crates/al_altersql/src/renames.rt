ghost use Rattle.std.specs.Prelude.{ℕ, true, false, ◌≡◌, ◌<◌, ◌≤◌, List, [], ◌∷◌, length, IfOk};
ghost use Rattle.al_grammar.specs.Gives.{GivesStep};
ghost use Rattle.al_altersql.specs.Alter.{new_name, names_change, rename};

use al_phrases::kinds::{COLUMN, CONSTRAINT, RENAME, TO};
use al_phrases::{Lexeme, given, name, starts, word};
use al_statements::Rename;
use al_values::{Cant, Name};
use std::alloc::Global;

#[tactic(auto, unfolding(crate::specs::Alter::new_name))]
fn new_name(alloc: Global, tokens: &[Lexeme]) -> Result<(Name, &[Lexeme]), Cant<usize>>
    ensures gives { GivesStep (λ x. x.0) (λ x. x.1.now) result (new_name.reads tokens.now) }
    ensures shorter { IfOk result (λ x. length x.1.now < length tokens.now) }
{
    let rest = word(TO, tokens)?;
    name(alloc, rest)
}

// A name TO another.
#[tactic(auto, unfolding(crate::specs::Alter::names_change))]
fn names_change(alloc: Global, tokens: &[Lexeme]) -> Result<((Name, Name), &[Lexeme]), Cant<usize>>
    ensures gives { GivesStep (λ x. x.0) (λ x. x.1.now) result (names_change.reads tokens.now) }
    ensures shorter { IfOk result (λ x. length x.1.now < length tokens.now) }
{
    let (before, rest) = name(alloc, tokens)?;
    let (behind, rest) = new_name(alloc, rest)?;
    Ok(((before, behind), rest))
}

/// Reads RENAME.
#[tactic(auto, unfolding(crate::specs::Alter::rename))]
pub(crate) fn rename(alloc: Global, tokens: &[Lexeme]) -> Result<(Rename, &[Lexeme]), Cant<usize>>
    ensures gives { GivesStep (λ x. x.0) (λ x. x.1.now) result (rename.reads tokens.now) }
    ensures shorter { IfOk result (λ x. length x.1.now < length tokens.now) }
{
    let rest = word(RENAME, tokens)?;
    if starts(TO, rest) {
        let (name, rest) = new_name(alloc, rest)?;
        return Ok((Rename::Table(name), rest));
    }
    if starts(CONSTRAINT, rest) {
        let rest = word(CONSTRAINT, rest)?;
        let (names, rest) = names_change(alloc, rest)?;
        return Ok((Rename::Constraint(names.0, names.1), rest));
    }
    let (_, rest) = given(COLUMN, rest);
    let (names, rest) = names_change(alloc, rest)?;
    Ok((Rename::Column(names.0, names.1), rest))
}

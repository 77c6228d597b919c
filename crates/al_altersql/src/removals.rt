ghost use Rattle.std.specs.Prelude.{ℕ, true, false, ◌≡◌, ◌<◌, ◌≤◌, List, [], ◌∷◌, length, IfOk};
ghost use Rattle.al_grammar.specs.Gives.{GivesStep};
ghost use Rattle.al_altersql.specs.Alter.{dropped, remove};

use al_phrases::kinds::{COLUMN, CONSTRAINT, DROP, RESTRICT};
use al_phrases::{Lexeme, given, name, starts, word};
use al_statements::Sub;
use al_values::{Cant, Name};
use std::alloc::Global;

// A name, and RESTRICT, which may be left out.
#[tactic(auto, unfolding(crate::specs::Alter::dropped))]
fn dropped(alloc: Global, tokens: &[Lexeme]) -> Result<(Name, &[Lexeme]), Cant<usize>>
    ensures gives { GivesStep (λ x. x.0) (λ x. x.1.now) result (dropped.reads tokens.now) }
    ensures shorter { IfOk result (λ x. length x.1.now < length tokens.now) }
{
    let (name, rest) = name(alloc, tokens)?;
    let (_, rest) = given(RESTRICT, rest);
    Ok((name, rest))
}

/// Reads DROP of a column or of a constraint.
#[tactic(auto, unfolding(crate::specs::Alter::remove))]
pub(crate) fn remove(alloc: Global, tokens: &[Lexeme]) -> Result<(Sub, &[Lexeme]), Cant<usize>>
    ensures gives { GivesStep (λ x. x.0) (λ x. x.1.now) result (remove.reads tokens.now) }
    ensures shorter { IfOk result (λ x. length x.1.now < length tokens.now) }
{
    let rest = word(DROP, tokens)?;
    if starts(CONSTRAINT, rest) {
        let rest = word(CONSTRAINT, rest)?;
        let (name, rest) = dropped(alloc, rest)?;
        return Ok((Sub::DropConstraint(name), rest));
    }
    let (_, rest) = given(COLUMN, rest);
    let (name, rest) = dropped(alloc, rest)?;
    Ok((Sub::DropColumn(name), rest))
}

ghost use Rattle.std.specs.Prelude.{ℕ, true, false, ◌≡◌, ◌<◌, ◌≤◌, List, [], ◌∷◌, length, IfOk};
ghost use Rattle.al_grammar.specs.Gives.{GivesStep};
ghost use Rattle.al_altersql.specs.Alter.{change, alter_table};

use crate::renames::rename;
use crate::subcommands::sub_list;
use crate::targets::target;
use al_phrases::kinds::{ALTER, RENAME, TABLE};
use al_phrases::{Lexeme, starts, word};
use al_statements::{Alter, Change};
use al_values::Cant;
use std::alloc::Global;

/// How many levels an expression of a statement may open.
pub const LEVELS: u32 = 200;

#[tactic(auto, unfolding(crate::specs::Alter::change))]
fn change(alloc: Global, depth: u32, tokens: &[Lexeme]) -> Result<(Change, &[Lexeme]), Cant<usize>>
    ensures gives { GivesStep (λ x. x.0) (λ x. x.1.now) result ((change depth).reads tokens.now) }
    ensures shorter { IfOk result (λ x. length x.1.now < length tokens.now) }
{
    if starts(RENAME, tokens) {
        let (renamed, rest) = rename(alloc, tokens)?;
        return Ok((Change::Rename(renamed), rest));
    }
    let (subs, rest) = sub_list(alloc, depth, tokens)?;
    Ok((Change::Subs(subs), rest))
}

/// Reads ALTER TABLE. What it answers is the statement with the tokens behind it; or how many tokens are left from the
/// first on that no ALTER TABLE can have there.
#[tactic(auto, unfolding(crate::specs::Alter::alter_table))]
pub fn alter(alloc: Global, tokens: &[Lexeme]) -> Result<(Alter, &[Lexeme]), Cant<usize>>
    ensures gives { GivesStep (λ x. x.0) (λ x. x.1.now) result (alter_table.reads tokens.now) }
    ensures shorter { IfOk result (λ x. length x.1.now < length tokens.now) }
{
    let rest = word(ALTER, tokens)?;
    let rest = word(TABLE, rest)?;
    let (target, rest) = target(alloc, rest)?;
    let (change, rest) = change(alloc, LEVELS, rest)?;
    Ok((Alter { target, change }, rest))
}

ghost use Rattle.std.specs.Prelude.{ℕ, true, false, ◌≡◌, ◌<◌, ◌≤◌, List, [], ◌∷◌, length, IfOk};
ghost use Rattle.al_grammar.specs.Gives.{GivesStep};
ghost use Rattle.al_altersql.specs.Alter.{target};

use al_phrases::kinds::ONLY;
use al_phrases::{Lexeme, given, name};
use al_statements::Target;
use al_values::Cant;
use std::alloc::Global;

/// Reads the name of a table, which stands for its descendants too where ONLY isn't before it (the manual, 5.10).
#[tactic(auto, unfolding(crate::specs::Alter::target))]
pub fn target(alloc: Global, tokens: &[Lexeme]) -> Result<(Target, &[Lexeme]), Cant<usize>>
    ensures gives { GivesStep (λ x. x.0) (λ x. x.1.now) result (target.reads tokens.now) }
    ensures shorter { IfOk result (λ x. length x.1.now < length tokens.now) }
{
    let (only, rest) = given(ONLY, tokens);
    let (name, rest) = name(alloc, rest)?;
    Ok((Target { only, name }, rest))
}

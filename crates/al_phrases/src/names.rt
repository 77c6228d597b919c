ghost use Rattle.std.specs.Prelude.{ℕ, true, false, ◌≡◌, ◌<◌, ◌≤◌, List, [], ◌∷◌, length, IfOk};
ghost use Rattle.al_grammar.specs.Kinds.{starts};
ghost use Rattle.al_grammar.specs.Gives.{GivesStep};
ghost use Rattle.al_phrases.specs.Kinds.{comma};
ghost use Rattle.al_phrases.specs.Words.{kind_of, name_list, next_name, names_from};

use crate::Lexeme;
use crate::kinds::COMMA;
use crate::tokens::{name, starts, word};
use al_values::{Cant, ListOf, Name, NameList};
use std::alloc::Global;

#[tactic(auto, unfolding(crate::specs::Words::next_name))]
fn next_name(alloc: Global, tokens: &[Lexeme]) -> Result<(Name, &[Lexeme]), Cant<usize>>
    ensures gives { GivesStep (λ x. x.0) (λ x. x.1.now) result (next_name.reads tokens.now) }
    ensures shorter { IfOk result (λ x. length x.1.now < length tokens.now) }
{
    let rest = word(COMMA, tokens)?;
    name(alloc, rest)
}

#[tactic(auto, using(crate::proofs::WordLaws::names_on, crate::proofs::WordLaws::names_off, crate::proofs::WordLaws::names_stop))]
fn more_names(
    alloc: Global,
    first: Name,
    tokens: &[Lexeme],
) -> Result<(NameList, &[Lexeme]), Cant<usize>>
    ensures gives { GivesStep (λ x. x.0) (λ x. x.1.now) result (names_from (first ∷ []) tokens.now) }
    ensures shorter { IfOk result (λ x. length x.1.now ≤ length tokens.now) }
{
    let mut all = ListOf::new(alloc);
    all.push(first)?;
    let mut rest = tokens;
    'names: while starts(COMMA, rest) {
        let (next, more) = next_name(alloc, rest)?;
        all.push(next)?;
        rest = more;
    }
    Ok((all, rest))
}

/// Reads names with commas between.
#[tactic(auto, unfolding(crate::specs::Words::name_list, crate::specs::Words::names_from, crate::specs::Words::next_name))]
pub fn name_list(alloc: Global, tokens: &[Lexeme]) -> Result<(NameList, &[Lexeme]), Cant<usize>>
    ensures gives { GivesStep (λ x. x.0) (λ x. x.1.now) result (name_list.reads tokens.now) }
    ensures shorter { IfOk result (λ x. length x.1.now < length tokens.now) }
{
    let (first, rest) = name(alloc, tokens)?;
    more_names(alloc, first, rest)
}

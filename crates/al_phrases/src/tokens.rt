ghost use Rattle.std.specs.Prelude.{ℕ, true, false, ◌≡◌, ◌<◌, ◌≤◌, List, [], ◌∷◌, length, IfOk};
ghost use Rattle.al_grammar.specs.Kinds.{among, starts};
ghost use Rattle.al_grammar.specs.Gives.{GivesStep};
ghost use Rattle.al_phrases.specs.Kinds.{names};
ghost use Rattle.al_phrases.specs.Words.{kind_of, word, name};

use crate::Lexeme;
use crate::kinds::{BEGIN, LENGTH_CALL};
use al_values::{Cant, Copied, Name};
use std::alloc::Global;

/// Whether the first token is of a kind.
pub fn starts(kind: u8, tokens: &[Lexeme]) -> bool
    ensures { result ≡ starts kind_of false (kind ∷ []) tokens.now }
{
    match tokens.first() {
        None => false,
        Some(token) => token.kind == kind,
    }
}

/// Reads a token of a kind. What it answers is the tokens behind it; or how many are left from the faulty one on.
pub fn word(kind: u8, tokens: &[Lexeme]) -> Result<&[Lexeme], Cant<usize>>
    ensures gives { GivesStep (λ rest. tt) (λ rest. rest.now) result ((word kind).reads tokens.now) }
    ensures shorter { IfOk result (λ rest. length rest.now < length tokens.now) }
{
    match tokens {
        [token, rest @ ..] => {
            if token.kind != kind {
                return Err(Cant::Why(tokens.len()));
            }
            Ok(rest)
        }
        [] => Err(Cant::Why(0)),
    }
}

/// Whether a kind may be a name.
#[tactic(auto, using(crate::proofs::NameKinds::name_kinds, crate::proofs::NameKinds::below_names, crate::proofs::NameKinds::above_names))]
fn may_be_name(kind: u8) -> bool
    ensures { result ≡ among kind names }
{
    if kind < BEGIN {
        return false;
    }
    if LENGTH_CALL < kind {
        return false;
    }
    true
}

/// Reads a name: a word that isn't reserved, or a quoted name (4.1.1).
#[tactic(auto, unfolding(crate::specs::Words::name))]
pub fn name(alloc: Global, tokens: &[Lexeme]) -> Result<(Name, &[Lexeme]), Cant<usize>>
    ensures gives { GivesStep (λ x. x.0) (λ x. x.1.now) result (name.reads tokens.now) }
    ensures shorter { IfOk result (λ x. length x.1.now < length tokens.now) }
{
    match tokens {
        [token, rest @ ..] => {
            if !may_be_name(token.kind) {
                return Err(Cant::Why(tokens.len()));
            }
            Ok((token.text.copied(alloc)?, rest))
        }
        [] => Err(Cant::Why(0)),
    }
}

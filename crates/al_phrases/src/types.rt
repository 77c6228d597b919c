ghost use Rattle.std.specs.Prelude.{ℕ, true, false, ◌≡◌, ◌<◌, ◌≤◌, List, [], ◌∷◌, length, Some, None, if◌then◌else◌, IfOk};
ghost use Rattle.al_grammar.specs.Kinds.{among, starts};
ghost use Rattle.al_grammar.specs.Rules.{optional};
ghost use Rattle.al_grammar.specs.Gives.{GivesStep};
ghost use Rattle.al_phrases.specs.Words.{kind_of};
ghost use Rattle.al_phrases.specs.Types.{size_of, size, sized, varying, varying_kind, varying_text, one_word, kind_named, one_word_kind, type_name, varying_shape};

use crate::Lexeme;
use crate::kinds::{
    BIGINT, BOOL, BOOLEAN, CHARACTER, DATE, INT, INT2, INT4, INT8, INTEGER, INTEGER_TOKEN,
    LEFT_PAREN, RIGHT_PAREN, SMALLINT, TEXT, VARCHAR, VARYING,
};
use crate::tokens::{starts, word};
use al_values::{Cant, Kind};

// The greatest length that an integer gives.
fn size_of(number: i64) -> Option<u32>
    ensures { result ≡ size_of number }
{
    if 1 <= number && number <= 10_485_760 {
        return Some(number as u32);
    }
    None
}

#[tactic(auto, unfolding(crate::specs::Types::size))]
fn size(tokens: &[Lexeme]) -> Result<(u32, &[Lexeme]), Cant<usize>>
    ensures gives { GivesStep (λ x. x.0) (λ x. x.1.now) result (size.reads tokens.now) }
    ensures shorter { IfOk result (λ x. length x.1.now < length tokens.now) }
{
    match tokens {
        [token, rest @ ..] => {
            if token.kind != INTEGER_TOKEN {
                return Err(Cant::Why(tokens.len()));
            }
            match size_of(token.number) {
                None => Err(Cant::Why(tokens.len())),
                Some(size) => Ok((size, rest)),
            }
        }
        [] => Err(Cant::Why(0)),
    }
}

#[tactic(auto, unfolding(crate::specs::Types::sized))]
fn sized(tokens: &[Lexeme]) -> Result<(u32, &[Lexeme]), Cant<usize>>
    ensures gives { GivesStep (λ x. x.0) (λ x. x.1.now) result (sized.reads tokens.now) }
    ensures shorter { IfOk result (λ x. length x.1.now < length tokens.now) }
{
    let rest = word(LEFT_PAREN, tokens)?;
    let (size, rest) = size(rest)?;
    let rest = word(RIGHT_PAREN, rest)?;
    Ok((size, rest))
}

fn optional_size(tokens: &[Lexeme]) -> Result<(Option<u32>, &[Lexeme]), Cant<usize>>
    ensures gives { GivesStep (λ x. x.0) (λ x. x.1.now) result ((optional kind_of sized).reads tokens.now) }
    ensures shorter { IfOk result (λ x. length x.1.now ≤ length tokens.now) }
{
    if !starts(LEFT_PAREN, tokens) {
        return Ok((None, tokens));
    }
    let (size, rest) = sized(tokens)?;
    Ok((Some(size), rest))
}

// varchar, or character varying.
#[tactic(auto, unfolding(crate::specs::Types::varying))]
fn varying(tokens: &[Lexeme]) -> Result<&[Lexeme], Cant<usize>>
    ensures gives { GivesStep (λ rest. tt) (λ rest. rest.now) result (varying.reads tokens.now) }
    ensures shorter { IfOk result (λ rest. length rest.now < length tokens.now) }
{
    if starts(VARCHAR, tokens) {
        return word(VARCHAR, tokens);
    }
    let rest = word(CHARACTER, tokens)?;
    word(VARYING, rest)
}

fn varying_kind(size: Option<u32>) -> Kind
    ensures { result ≡ varying_kind tt size }
{
    match size {
        None => Kind::Text,
        Some(size) => Kind::Varchar(size),
    }
}

#[tactic(auto, unfolding(crate::specs::Types::varying_text))]
fn varying_text(tokens: &[Lexeme]) -> Result<(Kind, &[Lexeme]), Cant<usize>>
    ensures gives { GivesStep (λ x. x.0) (λ x. x.1.now) result (varying_text.reads tokens.now) }
    ensures shorter { IfOk result (λ x. length x.1.now < length tokens.now) }
{
    let rest = varying(tokens)?;
    let (size, rest) = optional_size(rest)?;
    Ok((varying_kind(size), rest))
}

// The kind that one word names.
fn kind_of_word(word: u8) -> Option<Kind>
    ensures { result ≡ (if among word one_word then Some (kind_named word) else None) }
{
    if word == SMALLINT || word == INT2 {
        return Some(Kind::Smallint);
    }
    if word == BIGINT || word == INT8 {
        return Some(Kind::Bigint);
    }
    if word == BOOLEAN || word == BOOL {
        return Some(Kind::Boolean);
    }
    if word == TEXT {
        return Some(Kind::Text);
    }
    if word == DATE {
        return Some(Kind::Date);
    }
    if word == INTEGER || word == INT || word == INT4 {
        return Some(Kind::Integer);
    }
    None
}

#[tactic(auto, unfolding(crate::specs::Types::one_word_kind))]
fn one_word_kind(tokens: &[Lexeme]) -> Result<(Kind, &[Lexeme]), Cant<usize>>
    ensures gives { GivesStep (λ x. x.0) (λ x. x.1.now) result (one_word_kind.reads tokens.now) }
    ensures shorter { IfOk result (λ x. length x.1.now < length tokens.now) }
{
    match tokens {
        [token, rest @ ..] => match kind_of_word(token.kind) {
            None => Err(Cant::Why(tokens.len())),
            Some(kind) => Ok((kind, rest)),
        },
        [] => Err(Cant::Why(0)),
    }
}

fn starts_varying(tokens: &[Lexeme]) -> bool
    ensures { result ≡ starts kind_of false varying_shape.first tokens.now }
{
    starts(VARCHAR, tokens) || starts(CHARACTER, tokens)
}

/// Reads the name of a kind (chapter 8). `varchar` without a length is text.
#[tactic(auto, unfolding(crate::specs::Types::type_name))]
pub fn type_name(tokens: &[Lexeme]) -> Result<(Kind, &[Lexeme]), Cant<usize>>
    ensures gives { GivesStep (λ x. x.0) (λ x. x.1.now) result (type_name.reads tokens.now) }
    ensures shorter { IfOk result (λ x. length x.1.now < length tokens.now) }
{
    if starts_varying(tokens) {
        return varying_text(tokens);
    }
    one_word_kind(tokens)
}

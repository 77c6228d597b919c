ghost use Rattle.std.specs.Prelude.{ℕ, true, false, ◌≡◌, ◌<◌, ◌≤◌, ◌==◌, List, [], ◌∷◌, length, Some, None, if◌then◌else◌, IfOk};
ghost use Rattle.std.specs.Option.{option_copied};
ghost use Rattle.al_grammar.specs.Kinds.{among, starts};
ghost use Rattle.al_grammar.specs.Rules.{read};
ghost use Rattle.al_grammar.specs.Gives.{GivesStep};
ghost use Rattle.al_phrases.specs.Kinds.{column_names, minus, plus, deep_sign, not_word, deep_not};
ghost use Rattle.al_phrases.specs.Words.{kind_of, given};
ghost use Rattle.al_phrases.specs.Expressions.{place_of, operator_named, operator, literal_of, literal, column, date_leaf, date_text, dated_by, dated, sign_named, sign, not_sign, paren, cast_suffix, null_test};

use crate::Lexeme;
use crate::kinds::{
    AND, BEGIN, CAST_SIGN, DATE, DEEP_NOT, DEEP_PAREN, DEEP_SIGN, EQUAL, FALSE, GREATER,
    GREATER_OR_EQUAL, INTEGER_TOKEN, IS, JOINED, LEFT_PAREN, LESS, LESS_OR_EQUAL, MAX_CALL, MINUS,
    NOT, NOT_EQUAL, NULL, OR, PLUS, SLASH, STAR, TEXT_TOKEN, TRUE,
};
use crate::tokens::word;
use crate::types::type_name;
use al_expr::{Arithmetic, Comparison, Expr, Operator, Prefix};
use al_values::{Cant, Copied, Kind, NoMemory, Txt, Value};
use std::alloc::Global;

/// Whether a kind is one of these.
pub(crate) fn among(kind: u8, kinds: &[u8]) -> bool
    ensures { result ≡ among kind kinds.now }
{
    match kinds {
        [one, rest @ ..] => kind == *one || among(kind, rest),
        [] => false,
    }
}

/// Whether the first token is of one of these kinds.
pub fn starts_among(kinds: &[u8], tokens: &[Lexeme]) -> bool
    ensures { result ≡ starts kind_of false kinds.now tokens.now }
{
    match tokens.first() {
        None => false,
        Some(token) => among(token.kind, kinds),
    }
}

/// Reads a token of a kind, for its place.
pub(crate) fn place_of(kind: u8, tokens: &[Lexeme]) -> Result<(u32, &[Lexeme]), Cant<usize>>
    ensures gives { GivesStep (λ x. x.0) (λ x. x.1.now) result ((place_of kind).reads tokens.now) }
    ensures shorter { IfOk result (λ x. length x.1.now < length tokens.now) }
{
    match tokens {
        [token, rest @ ..] => {
            if token.kind != kind {
                return Err(Cant::Why(tokens.len()));
            }
            Ok((token.place, rest))
        }
        [] => Err(Cant::Why(0)),
    }
}

/// Reads a word that may be left out: whether it stands there.
pub fn given(kind: u8, tokens: &[Lexeme]) -> (bool, &[Lexeme])
    ensures gives { (given kind).reads tokens.now ≡ read result.0 result.1.now }
    ensures shorter { length result.1.now ≤ length tokens.now }
{
    match tokens {
        [token, rest @ ..] => {
            if token.kind != kind {
                return (false, tokens);
            }
            (true, rest)
        }
        [] => (false, tokens),
    }
}

fn operator_named(kind: u8) -> Operator
    ensures { result ≡ operator_named kind }
{
    match kind {
        OR => Operator::Or,
        AND => Operator::And,
        EQUAL => Operator::Compare(Comparison::Equal),
        NOT_EQUAL => Operator::Compare(Comparison::NotEqual),
        LESS => Operator::Compare(Comparison::Less),
        LESS_OR_EQUAL => Operator::Compare(Comparison::LessOrEqual),
        GREATER => Operator::Compare(Comparison::Greater),
        GREATER_OR_EQUAL => Operator::Compare(Comparison::GreaterOrEqual),
        JOINED => Operator::Concat,
        PLUS => Operator::Calculate(Arithmetic::Add),
        MINUS => Operator::Calculate(Arithmetic::Subtract),
        STAR => Operator::Calculate(Arithmetic::Multiply),
        SLASH => Operator::Calculate(Arithmetic::Divide),
        _ => Operator::Calculate(Arithmetic::Remainder),
    }
}

/// Reads an operator of one of these kinds, with its place.
pub(crate) fn operator<'a>(
    kinds: &[u8],
    tokens: &'a [Lexeme],
) -> Result<((u32, Operator), &'a [Lexeme]), Cant<usize>>
    ensures gives { GivesStep (λ x. x.0) (λ x. x.1.now) result ((operator kinds.now).reads tokens.now) }
    ensures shorter { IfOk result (λ x. length x.1.now < length tokens.now) }
{
    match tokens {
        [token, rest @ ..] => {
            if !among(token.kind, kinds) {
                return Err(Cant::Why(tokens.len()));
            }
            Ok(((token.place, operator_named(token.kind)), rest))
        }
        [] => Err(Cant::Why(0)),
    }
}

// What a literal means.
fn literal_of(alloc: Global, token: &Lexeme) -> Result<Expr, NoMemory>
    ensures { IfOk result (λ x. x ≡ literal_of token.now) }
{
    if token.kind == INTEGER_TOKEN {
        return Ok(Expr::Literal(token.place, Value::Int(token.number)));
    }
    if token.kind == TEXT_TOKEN {
        return Ok(Expr::Literal(token.place, Value::Text(token.text.copied(alloc)?)));
    }
    if token.kind == TRUE {
        return Ok(Expr::Literal(token.place, Value::Bool(true)));
    }
    if token.kind == FALSE {
        return Ok(Expr::Literal(token.place, Value::Bool(false)));
    }
    Ok(Expr::Literal(token.place, Value::Null))
}

/// The kinds of literals.
pub(crate) const LITERALS: [u8; 5] = [INTEGER_TOKEN, TEXT_TOKEN, TRUE, FALSE, NULL];

/// Reads a literal (4.1.2).
#[tactic(auto, unfolding(crate::specs::Expressions::literal))]
pub(crate) fn literal(alloc: Global, tokens: &[Lexeme]) -> Result<(Expr, &[Lexeme]), Cant<usize>>
    ensures gives { GivesStep (λ x. x.0) (λ x. x.1.now) result (literal.reads tokens.now) }
    ensures shorter { IfOk result (λ x. length x.1.now < length tokens.now) }
{
    match tokens {
        [token, rest @ ..] => {
            if !among(token.kind, &LITERALS) {
                return Err(Cant::Why(tokens.len()));
            }
            Ok((literal_of(alloc, token)?, rest))
        }
        [] => Err(Cant::Why(0)),
    }
}

// Whether a kind may be the name of a column.
#[tactic(auto, using(crate::proofs::NameKinds::column_kinds, crate::proofs::NameKinds::below_columns, crate::proofs::NameKinds::above_columns))]
fn may_be_column(kind: u8) -> bool
    ensures { result ≡ among kind column_names }
{
    if kind < BEGIN {
        return false;
    }
    if MAX_CALL < kind {
        return false;
    }
    true
}

/// Reads the name of a column, which doesn't stand directly before a parenthesis.
#[tactic(auto, unfolding(crate::specs::Expressions::column))]
pub(crate) fn column(alloc: Global, tokens: &[Lexeme]) -> Result<(Expr, &[Lexeme]), Cant<usize>>
    ensures gives { GivesStep (λ x. x.0) (λ x. x.1.now) result (column.reads tokens.now) }
    ensures shorter { IfOk result (λ x. length x.1.now < length tokens.now) }
{
    match tokens {
        [token, rest @ ..] => {
            if !may_be_column(token.kind) {
                return Err(Cant::Why(tokens.len()));
            }
            if token.called {
                return Err(Cant::Why(tokens.len()));
            }
            Ok((Expr::Column(token.place, token.text.copied(alloc)?), rest))
        }
        [] => Err(Cant::Why(0)),
    }
}

// The word DATE, which doesn't stand directly before a parenthesis.
#[tactic(auto, unfolding(crate::specs::Expressions::date_leaf))]
fn date_word(tokens: &[Lexeme]) -> Result<(&Lexeme, &[Lexeme]), Cant<usize>>
    ensures gives { GivesStep (λ x. (x.0.now.place, x.0.now.text)) (λ x. x.1.now) result (date_leaf.reads tokens.now) }
    ensures shorter { IfOk result (λ x. length x.1.now < length tokens.now) }
{
    match tokens {
        [token, rest @ ..] => {
            if token.kind != DATE {
                return Err(Cant::Why(tokens.len()));
            }
            if token.called {
                return Err(Cant::Why(tokens.len()));
            }
            Ok((token, rest))
        }
        [] => Err(Cant::Why(0)),
    }
}

// A string that may be left out.
#[tactic(auto, unfolding(crate::specs::Expressions::date_text))]
fn date_text(tokens: &[Lexeme]) -> (Option<&Txt>, &[Lexeme])
    ensures gives { date_text.reads tokens.now ≡ read (option_copied result.0) result.1.now }
    ensures shorter { length result.1.now ≤ length tokens.now }
{
    match tokens {
        [token, rest @ ..] => {
            if token.kind != TEXT_TOKEN {
                return (None, tokens);
            }
            (Some(&token.text), rest)
        }
        [] => (None, tokens),
    }
}

// DATE and a string, or a column of this name.
fn dated_by(alloc: Global, word: &Lexeme, text: Option<&Txt>) -> Result<Expr, NoMemory>
    ensures { IfOk result (λ x. x ≡ dated_by (word.now.place, word.now.text) (option_copied text.entry)) }
{
    match text {
        None => Ok(Expr::Column(word.place, word.text.copied(alloc)?)),
        Some(text) => Ok(Expr::Date(word.place, text.copied(alloc)?)),
    }
}

/// Reads DATE and a string (4.1.2.7), or a column of this name.
#[tactic(auto, unfolding(crate::specs::Expressions::dated, crate::specs::Expressions::date_leaf, crate::specs::Expressions::date_text))]
pub(crate) fn dated(alloc: Global, tokens: &[Lexeme]) -> Result<(Expr, &[Lexeme]), Cant<usize>>
    ensures gives { GivesStep (λ x. x.0) (λ x. x.1.now) result (dated.reads tokens.now) }
    ensures shorter { IfOk result (λ x. length x.1.now < length tokens.now) }
{
    let (word, rest) = date_word(tokens)?;
    let (text, rest) = date_text(rest);
    Ok((dated_by(alloc, word, text)?, rest))
}

fn sign_named(free: bool, kind: u8) -> Option<Prefix>
    ensures { result ≡ (if free
        then (if among kind (minus ∷ plus ∷ []) then Some (sign_named kind) else None)
        else (if kind == deep_sign then Some Prefix.Minus else None)) }
{
    if free {
        return match kind {
            PLUS => Some(Prefix::Plus),
            MINUS => Some(Prefix::Minus),
            _ => None,
        };
    }
    if kind == DEEP_SIGN {
        Some(Prefix::Minus)
    } else {
        None
    }
}

/// Reads a sign, where a level may still be opened; else what stands in for one.
pub(crate) fn sign(free: bool, tokens: &[Lexeme]) -> Result<((u32, Prefix), &[Lexeme]), Cant<usize>>
    ensures gives { GivesStep (λ x. x.0) (λ x. x.1.now) result ((sign free).reads tokens.now) }
    ensures shorter { IfOk result (λ x. length x.1.now < length tokens.now) }
{
    match tokens {
        [token, rest @ ..] => match sign_named(free, token.kind) {
            None => Err(Cant::Why(tokens.len())),
            Some(prefix) => Ok(((token.place, prefix), rest)),
        },
        [] => Err(Cant::Why(0)),
    }
}

// The kind of NOT, where a level may still be opened; else what stands in for it.
fn not_kind(free: bool) -> u8
    ensures { result ≡ (if free then not_word else deep_not) }
{
    if free { NOT } else { DEEP_NOT }
}

/// Reads NOT, where a level may still be opened; else what stands in for it.
pub(crate) fn not_sign(
    free: bool,
    tokens: &[Lexeme],
) -> Result<((u32, Prefix), &[Lexeme]), Cant<usize>>
    ensures gives { GivesStep (λ x. x.0) (λ x. x.1.now) result ((not_sign free).reads tokens.now) }
    ensures shorter { IfOk result (λ x. length x.1.now < length tokens.now) }
{
    let (place, rest) = place_of(not_kind(free), tokens)?;
    Ok(((place, Prefix::Not), rest))
}

/// Reads an opening parenthesis, where a level may still be opened; else what stands in for one.
pub(crate) fn paren(free: bool, tokens: &[Lexeme]) -> Result<&[Lexeme], Cant<usize>>
    ensures gives { GivesStep (λ rest. tt) (λ rest. rest.now) result ((paren free).reads tokens.now) }
    ensures shorter { IfOk result (λ rest. length rest.now < length tokens.now) }
{
    if free {
        return word(LEFT_PAREN, tokens);
    }
    word(DEEP_PAREN, tokens)
}

/// Reads `::` and a kind.
#[tactic(auto, unfolding(crate::specs::Expressions::cast_suffix))]
pub(crate) fn cast_suffix(tokens: &[Lexeme]) -> Result<((u32, Kind), &[Lexeme]), Cant<usize>>
    ensures gives { GivesStep (λ x. x.0) (λ x. x.1.now) result (cast_suffix.reads tokens.now) }
    ensures shorter { IfOk result (λ x. length x.1.now < length tokens.now) }
{
    let (place, rest) = place_of(CAST_SIGN, tokens)?;
    let (kind, rest) = type_name(rest)?;
    Ok(((place, kind), rest))
}

/// Reads IS NULL, or IS NOT NULL (true).
#[tactic(auto, unfolding(crate::specs::Expressions::null_test))]
pub(crate) fn null_test(tokens: &[Lexeme]) -> Result<((u32, bool), &[Lexeme]), Cant<usize>>
    ensures gives { GivesStep (λ x. x.0) (λ x. x.1.now) result (null_test.reads tokens.now) }
    ensures shorter { IfOk result (λ x. length x.1.now < length tokens.now) }
{
    let (place, rest) = place_of(IS, tokens)?;
    let (negated, rest) = given(NOT, rest);
    let rest = word(NULL, rest)?;
    Ok(((place, negated), rest))
}

//! What operators stand between: atoms, casts, signs, and NOT.

ghost use Rattle.std.specs.Prelude.{ℕ, true, false, ◌≡◌, ◌<◌, ◌≤◌, List, [], ◌∷◌, length, IfOk};
ghost use Rattle.al_grammar.specs.Gives.{GivesStep};
ghost use Rattle.al_phrases.specs.Nests.{Nests};
ghost use Rattle.al_phrases.specs.Expressions.{inside, is_free, in_parens, items, cast_call, coalesce_call, functions, function_value, function_word, function_call, atom, post, signs_at, nots_at};
ghost use Rattle.al_phrases.specs.Reading.{at_depth, next_expr, items_from, casts_from};

use crate::Lexeme;
use crate::kinds::{
    ABS_CALL, AS, CAST, CAST_SIGN, COALESCE_CALL, COMMA, DATE, DEEP_NOT, DEEP_PAREN, DEEP_SIGN,
    LEFT_PAREN, LENGTH_CALL, MINUS, NOT, PLUS, RIGHT_PAREN,
};
use crate::leaves::{
    LITERALS, among, cast_suffix, column, dated, literal, not_sign, paren, place_of, sign,
    starts_among,
};
use crate::levels::{Levels, Opened};
use crate::rows::{cast_to, prefixed};
use crate::tokens::{starts, word};
use crate::types::type_name;
use al_expr::Expr;
use al_values::{Cant, NoMemory};
use sqlite_items::{Boxed, Items};
use std::alloc::Global;

// `abs` or `length`, directly before a parenthesis.
#[tactic(auto, unfolding(crate::specs::Expressions::function_word))]
fn function_word(tokens: &[Lexeme]) -> Result<((u32, u8), &[Lexeme]), Cant<usize>>
    ensures gives { GivesStep (λ x. x.0) (λ x. x.1.now) result (function_word.reads tokens.now) }
    ensures shorter { IfOk result (λ x. length x.1.now < length tokens.now) }
{
    match tokens {
        [token, rest @ ..] => {
            if !among(token.kind, &FUNCTIONS) {
                return Err(Cant::Why(tokens.len()));
            }
            Ok(((token.place, token.kind), rest))
        }
        [] => Err(Cant::Why(0)),
    }
}

fn function_value(alloc: Global, word: (u32, u8), operand: Expr) -> Result<Expr, NoMemory>
    ensures { IfOk result (λ x. x ≡ function_value word operand) }
{
    let operand = Boxed::new(alloc, operand)?;
    if word.1 == ABS_CALL {
        return Ok(Expr::Abs(word.0, operand));
    }
    Ok(Expr::Length(word.0, operand))
}

const FUNCTIONS: [u8; 2] = [ABS_CALL, LENGTH_CALL];

const PARENS: [u8; 2] = [LEFT_PAREN, DEEP_PAREN];

const SIGNS: [u8; 3] = [MINUS, PLUS, DEEP_SIGN];

const NOTS: [u8; 2] = [NOT, DEEP_NOT];

impl<F: Fn(Global, u32, Opened, &[Lexeme]) -> Result<(Expr, &[Lexeme]), Cant<usize>>> Levels<F> {
    #[tactic(auto, unfolding(crate::specs::Reading::next_expr))]
    fn next_expr<'a>(&self, tokens: &'a [Lexeme]) -> Result<(Expr, &'a [Lexeme]), Cant<usize>>
        requires { Nests self.now.depth (F.pre self.now.inner) (F.post self.now.inner) }
        ensures gives { GivesStep (λ x. x.0) (λ x. x.1.now) result ((next_expr self.now.depth).reads tokens.now) }
        ensures shorter { IfOk result (λ x. length x.1.now < length tokens.now) }
    {
        let rest = word(COMMA, tokens)?;
        self.whole(rest)
    }

    #[tactic(auto, using(crate::proofs::RowLaws::items_on, crate::proofs::RowLaws::items_off, crate::proofs::RowLaws::items_stop))]
    fn more_items<'a>(
        &self,
        first: Expr,
        tokens: &'a [Lexeme],
    ) -> Result<(Items<Expr>, &'a [Lexeme]), Cant<usize>>
        requires { Nests self.now.depth (F.pre self.now.inner) (F.post self.now.inner) }
        ensures gives { GivesStep (λ x. x.0) (λ x. x.1.now) result (items_from self.now.depth (first ∷ []) tokens.now) }
        ensures shorter { IfOk result (λ x. length x.1.now ≤ length tokens.now) }
    {
        let mut all = Items::new(self.alloc);
        all.push(first)?;
        let mut rest = tokens;
        'items: while starts(COMMA, rest) {
            let (next, more) = self.next_expr(rest)?;
            all.push(next)?;
            rest = more;
        }
        Ok((all, rest))
    }

    /// Reads expressions with commas between.
    #[tactic(auto, unfolding(crate::specs::Expressions::items, crate::specs::Reading::items_from, crate::specs::Reading::next_expr))]
    pub(crate) fn items<'a>(
        &self,
        tokens: &'a [Lexeme],
    ) -> Result<(Items<Expr>, &'a [Lexeme]), Cant<usize>>
        requires { Nests self.now.depth (F.pre self.now.inner) (F.post self.now.inner) }
        ensures gives { GivesStep (λ x. x.0) (λ x. x.1.now) result ((items (inside self.now.depth).whole).reads tokens.now) }
        ensures shorter { IfOk result (λ x. length x.1.now < length tokens.now) }
    {
        let (first, rest) = self.whole(tokens)?;
        self.more_items(first, rest)
    }

    /// Reads expressions with commas between in parentheses.
    pub(crate) fn items_in_parens<'a>(
        &self,
        tokens: &'a [Lexeme],
    ) -> Result<(Items<Expr>, &'a [Lexeme]), Cant<usize>>
        requires { Nests self.now.depth (F.pre self.now.inner) (F.post self.now.inner) }
        ensures gives { GivesStep (λ x. x.0) (λ x. x.1.now) result ((in_parens (is_free self.now.depth) (items (inside self.now.depth).whole)).reads tokens.now) }
        ensures shorter { IfOk result (λ x. length x.1.now < length tokens.now) }
    {
        let rest = paren(self.is_free(), tokens)?;
        let (all, rest) = self.items(rest)?;
        let rest = word(RIGHT_PAREN, rest)?;
        Ok((all, rest))
    }

    fn group<'a>(&self, tokens: &'a [Lexeme]) -> Result<(Expr, &'a [Lexeme]), Cant<usize>>
        requires { Nests self.now.depth (F.pre self.now.inner) (F.post self.now.inner) }
        ensures gives { GivesStep (λ x. x.0) (λ x. x.1.now) result ((in_parens (is_free self.now.depth) (inside self.now.depth).whole).reads tokens.now) }
        ensures shorter { IfOk result (λ x. length x.1.now < length tokens.now) }
    {
        let rest = paren(self.is_free(), tokens)?;
        let (value, rest) = self.whole(rest)?;
        let rest = word(RIGHT_PAREN, rest)?;
        Ok((value, rest))
    }

    #[tactic(auto, unfolding(crate::specs::Expressions::cast_call))]
    fn cast<'a>(&self, tokens: &'a [Lexeme]) -> Result<(Expr, &'a [Lexeme]), Cant<usize>>
        requires { Nests self.now.depth (F.pre self.now.inner) (F.post self.now.inner) }
        ensures gives { GivesStep (λ x. x.0) (λ x. x.1.now) result ((cast_call (is_free self.now.depth) (inside self.now.depth).whole).reads tokens.now) }
        ensures shorter { IfOk result (λ x. length x.1.now < length tokens.now) }
    {
        let (place, rest) = place_of(CAST, tokens)?;
        let rest = paren(self.is_free(), rest)?;
        let (value, rest) = self.whole(rest)?;
        let rest = word(AS, rest)?;
        let (kind, rest) = type_name(rest)?;
        let rest = word(RIGHT_PAREN, rest)?;
        Ok((cast_to(self.alloc, value, (place, kind))?, rest))
    }

    #[tactic(auto, unfolding(crate::specs::Expressions::coalesce_call))]
    fn coalesce<'a>(&self, tokens: &'a [Lexeme]) -> Result<(Expr, &'a [Lexeme]), Cant<usize>>
        requires { Nests self.now.depth (F.pre self.now.inner) (F.post self.now.inner) }
        ensures gives { GivesStep (λ x. x.0) (λ x. x.1.now) result ((coalesce_call (is_free self.now.depth) (inside self.now.depth).whole).reads tokens.now) }
        ensures shorter { IfOk result (λ x. length x.1.now < length tokens.now) }
    {
        let (place, rest) = place_of(COALESCE_CALL, tokens)?;
        let (all, rest) = self.items_in_parens(rest)?;
        Ok((Expr::Coalesce(place, all), rest))
    }

    #[tactic(auto, unfolding(crate::specs::Expressions::function_call))]
    fn function<'a>(&self, tokens: &'a [Lexeme]) -> Result<(Expr, &'a [Lexeme]), Cant<usize>>
        requires { Nests self.now.depth (F.pre self.now.inner) (F.post self.now.inner) }
        ensures gives { GivesStep (λ x. x.0) (λ x. x.1.now) result ((function_call (is_free self.now.depth) (inside self.now.depth).whole).reads tokens.now) }
        ensures shorter { IfOk result (λ x. length x.1.now < length tokens.now) }
    {
        let (word, rest) = function_word(tokens)?;
        let (operand, rest) = self.group(rest)?;
        Ok((function_value(self.alloc, word, operand)?, rest))
    }

    #[tactic(auto, unfolding(crate::specs::Expressions::atom))]
    fn atom<'a>(&self, tokens: &'a [Lexeme]) -> Result<(Expr, &'a [Lexeme]), Cant<usize>>
        requires { Nests self.now.depth (F.pre self.now.inner) (F.post self.now.inner) }
        ensures gives { GivesStep (λ x. x.0) (λ x. x.1.now) result ((atom (is_free self.now.depth) (inside self.now.depth).whole).reads tokens.now) }
        ensures shorter { IfOk result (λ x. length x.1.now < length tokens.now) }
    {
        if starts_among(&LITERALS, tokens) {
            return literal(self.alloc, tokens);
        }
        if starts(DATE, tokens) {
            return dated(self.alloc, tokens);
        }
        if starts(CAST, tokens) {
            return self.cast(tokens);
        }
        if starts(COALESCE_CALL, tokens) {
            return self.coalesce(tokens);
        }
        if starts_among(&FUNCTIONS, tokens) {
            return self.function(tokens);
        }
        if starts_among(&PARENS, tokens) {
            return self.group(tokens);
        }
        column(self.alloc, tokens)
    }

    // An atom with casts behind it.
    #[tactic(auto, unfolding(crate::specs::Expressions::post, crate::specs::Reading::casts_from))]
    fn casts<'a>(&self, tokens: &'a [Lexeme]) -> Result<(Expr, &'a [Lexeme]), Cant<usize>>
        requires { Nests self.now.depth (F.pre self.now.inner) (F.post self.now.inner) }
        ensures gives { GivesStep (λ x. x.0) (λ x. x.1.now) result ((post (atom (is_free self.now.depth) (inside self.now.depth).whole)).reads tokens.now) }
        ensures shorter { IfOk result (λ x. length x.1.now < length tokens.now) }
    {
        let (first, rest) = self.atom(tokens)?;
        more_casts(self.alloc, first, rest)
    }

    /// Reads an operand with its signs.
    #[tactic(auto, unfolding(crate::specs::Expressions::signs_at))]
    pub(crate) fn signs<'a>(
        &self,
        tokens: &'a [Lexeme],
    ) -> Result<(Expr, &'a [Lexeme]), Cant<usize>>
        requires { Nests self.now.depth (F.pre self.now.inner) (F.post self.now.inner) }
        ensures gives { GivesStep (λ x. x.0) (λ x. x.1.now) result (at_depth signs_at self.now.depth tokens.now) }
        ensures shorter { IfOk result (λ x. length x.1.now < length tokens.now) }
    {
        if !starts_among(&SIGNS, tokens) {
            return self.casts(tokens);
        }
        let (prefix, rest) = sign(self.is_free(), tokens)?;
        let (operand, rest) = self.signed(rest)?;
        Ok((prefixed(self.alloc, operand, prefix)?, rest))
    }

    /// Reads an operand of AND with its NOTs.
    #[tactic(auto, unfolding(crate::specs::Expressions::nots_at))]
    pub(crate) fn nots<'a>(&self, tokens: &'a [Lexeme]) -> Result<(Expr, &'a [Lexeme]), Cant<usize>>
        requires { Nests self.now.depth (F.pre self.now.inner) (F.post self.now.inner) }
        ensures gives { GivesStep (λ x. x.0) (λ x. x.1.now) result (at_depth nots_at self.now.depth tokens.now) }
        ensures shorter { IfOk result (λ x. length x.1.now < length tokens.now) }
    {
        if !starts_among(&NOTS, tokens) {
            return self.tests(tokens);
        }
        let (prefix, rest) = not_sign(self.is_free(), tokens)?;
        let (operand, rest) = self.negated(rest)?;
        Ok((prefixed(self.alloc, operand, prefix)?, rest))
    }
}

// Casts in a row.
#[tactic(auto, using(crate::proofs::RowLaws::casts_on, crate::proofs::RowLaws::casts_off, crate::proofs::RowLaws::casts_stop))]
fn more_casts(
    alloc: Global,
    first: Expr,
    tokens: &[Lexeme],
) -> Result<(Expr, &[Lexeme]), Cant<usize>>
    ensures gives { GivesStep (λ x. x.0) (λ x. x.1.now) result (casts_from first tokens.now) }
    ensures shorter { IfOk result (λ x. length x.1.now ≤ length tokens.now) }
{
    let mut left = first;
    let mut rest = tokens;
    'casts: while starts(CAST_SIGN, rest) {
        let (cast, more) = cast_suffix(rest)?;
        left = cast_to(alloc, left, cast)?;
        rest = more;
    }
    Ok((left, rest))
}

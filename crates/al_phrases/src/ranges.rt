//! BETWEEN and IN, comparisons, and IS NULL.

ghost use Rattle.std.specs.Prelude.{ℕ, true, false, ◌≡◌, ◌<◌, ◌≤◌, List, [], ◌∷◌, length, IfOk};
ghost use Rattle.al_grammar.specs.Rules.{optional};
ghost use Rattle.al_grammar.specs.Gives.{GivesStep};
ghost use Rattle.al_phrases.specs.Nests.{Nests};
ghost use Rattle.al_phrases.specs.Words.{kind_of};
ghost use Rattle.al_phrases.specs.Expressions.{inside, is_free, between_tail, in_tail, plain_tail, tail, negated_at, with_tail, link, comparisons_signs, concats_at, ranges_at, comparisons_at, tests_at};
ghost use Rattle.al_phrases.specs.Reading.{at_depth, tests_from};

use crate::kinds::{
    AND, BETWEEN, EQUAL, GREATER, GREATER_OR_EQUAL, IN, IS, LESS, LESS_OR_EQUAL, NOT, NOT_EQUAL,
};
use crate::leaves::{null_test, operator, place_of, starts_among};
use crate::levels::{Levels, Opened};
use crate::rows::{extended, tested};
use crate::tokens::{starts, word};
use crate::{Lexeme, Tail};
use al_expr::{Expr, Operator};
use al_values::{Cant, NoMemory};
use sqlite_items::Boxed;
use std::alloc::Global;

const TAILS: [u8; 3] = [NOT, BETWEEN, IN];

const COMPARISONS: [u8; 6] = [
    EQUAL,
    NOT_EQUAL,
    LESS,
    LESS_OR_EQUAL,
    GREATER,
    GREATER_OR_EQUAL,
];

fn negated_at(place: u32, tail: Tail) -> Tail
    ensures { result ≡ negated_at place tail }
{
    match tail {
        Tail::Between(_, _, low, high) => Tail::Between(place, true, low, high),
        Tail::In(_, _, items) => Tail::In(place, true, items),
    }
}

fn with_tail(alloc: Global, value: Expr, tail: Tail) -> Result<Expr, NoMemory>
    ensures { IfOk result (λ x. x ≡ with_tail value (Some tail)) }
{
    let value = Boxed::new(alloc, value)?;
    match tail {
        Tail::Between(place, negated, low, high) => Ok(Expr::Between(
            place,
            negated,
            value,
            Boxed::new(alloc, low)?,
            Boxed::new(alloc, high)?,
        )),
        Tail::In(place, negated, items) => Ok(Expr::In(place, negated, value, items)),
    }
}

impl<F: Fn(Global, u32, Opened, &[Lexeme]) -> Result<(Expr, &[Lexeme]), Cant<usize>>> Levels<F> {
    #[tactic(auto, unfolding(crate::specs::Expressions::between_tail))]
    fn between<'a>(&self, tokens: &'a [Lexeme]) -> Result<(Tail, &'a [Lexeme]), Cant<usize>>
        requires { Nests self.now.depth (F.pre self.now.inner) (F.post self.now.inner) }
        ensures gives { GivesStep (λ x. x.0) (λ x. x.1.now) result ((between_tail (concats_at (is_free self.now.depth) (inside self.now.depth))).reads tokens.now) }
        ensures shorter { IfOk result (λ x. length x.1.now < length tokens.now) }
    {
        let (place, rest) = place_of(BETWEEN, tokens)?;
        let (low, rest) = self.concats(rest)?;
        let rest = word(AND, rest)?;
        let (high, rest) = self.concats(rest)?;
        Ok((Tail::Between(place, false, low, high), rest))
    }

    #[tactic(auto, unfolding(crate::specs::Expressions::in_tail))]
    fn among_items<'a>(&self, tokens: &'a [Lexeme]) -> Result<(Tail, &'a [Lexeme]), Cant<usize>>
        requires { Nests self.now.depth (F.pre self.now.inner) (F.post self.now.inner) }
        ensures gives { GivesStep (λ x. x.0) (λ x. x.1.now) result ((in_tail (is_free self.now.depth) (inside self.now.depth).whole).reads tokens.now) }
        ensures shorter { IfOk result (λ x. length x.1.now < length tokens.now) }
    {
        let (place, rest) = place_of(IN, tokens)?;
        let (all, rest) = self.items_in_parens(rest)?;
        Ok((Tail::In(place, false, all), rest))
    }

    #[tactic(auto, unfolding(crate::specs::Expressions::plain_tail))]
    fn plain_tail<'a>(&self, tokens: &'a [Lexeme]) -> Result<(Tail, &'a [Lexeme]), Cant<usize>>
        requires { Nests self.now.depth (F.pre self.now.inner) (F.post self.now.inner) }
        ensures gives { GivesStep (λ x. x.0) (λ x. x.1.now) result ((plain_tail (is_free self.now.depth) (inside self.now.depth).whole (concats_at (is_free self.now.depth) (inside self.now.depth))).reads tokens.now) }
        ensures shorter { IfOk result (λ x. length x.1.now < length tokens.now) }
    {
        if starts(BETWEEN, tokens) {
            return self.between(tokens);
        }
        self.among_items(tokens)
    }

    #[tactic(auto, unfolding(crate::specs::Expressions::tail))]
    fn tail<'a>(&self, tokens: &'a [Lexeme]) -> Result<(Tail, &'a [Lexeme]), Cant<usize>>
        requires { Nests self.now.depth (F.pre self.now.inner) (F.post self.now.inner) }
        ensures gives { GivesStep (λ x. x.0) (λ x. x.1.now) result ((tail (is_free self.now.depth) (inside self.now.depth).whole (concats_at (is_free self.now.depth) (inside self.now.depth))).reads tokens.now) }
        ensures shorter { IfOk result (λ x. length x.1.now < length tokens.now) }
    {
        if !starts(NOT, tokens) {
            return self.plain_tail(tokens);
        }
        let (place, rest) = place_of(NOT, tokens)?;
        let (tail, rest) = self.plain_tail(rest)?;
        Ok((negated_at(place, tail), rest))
    }

    /// Reads a value with BETWEEN or IN behind it.
    #[tactic(auto, unfolding(crate::specs::Expressions::ranges_at))]
    pub(crate) fn ranges<'a>(
        &self,
        tokens: &'a [Lexeme],
    ) -> Result<(Expr, &'a [Lexeme]), Cant<usize>>
        requires { Nests self.now.depth (F.pre self.now.inner) (F.post self.now.inner) }
        ensures gives { GivesStep (λ x. x.0) (λ x. x.1.now) result (at_depth ranges_at self.now.depth tokens.now) }
        ensures shorter { IfOk result (λ x. length x.1.now < length tokens.now) }
    {
        let (value, rest) = self.concats(tokens)?;
        if !starts_among(&TAILS, rest) {
            return Ok((value, rest));
        }
        let (tail, rest) = self.tail(rest)?;
        Ok((with_tail(self.alloc, value, tail)?, rest))
    }

    fn compared<'a>(
        &self,
        tokens: &'a [Lexeme],
    ) -> Result<((u32, Operator, Expr), &'a [Lexeme]), Cant<usize>>
        requires { Nests self.now.depth (F.pre self.now.inner) (F.post self.now.inner) }
        ensures gives { GivesStep (λ x. x.0) (λ x. x.1.now) result ((link comparisons_signs (ranges_at (is_free self.now.depth) (inside self.now.depth))).reads tokens.now) }
        ensures shorter { IfOk result (λ x. length x.1.now < length tokens.now) }
    {
        let (sign, rest) = operator(&COMPARISONS, tokens)?;
        let (right, rest) = self.ranges(rest)?;
        Ok(((sign.0, sign.1, right), rest))
    }

    /// Reads one value, or two with a comparison between.
    #[tactic(auto, unfolding(crate::specs::Expressions::comparisons_at))]
    pub(crate) fn comparisons<'a>(
        &self,
        tokens: &'a [Lexeme],
    ) -> Result<(Expr, &'a [Lexeme]), Cant<usize>>
        requires { Nests self.now.depth (F.pre self.now.inner) (F.post self.now.inner) }
        ensures gives { GivesStep (λ x. x.0) (λ x. x.1.now) result (at_depth comparisons_at self.now.depth tokens.now) }
        ensures shorter { IfOk result (λ x. length x.1.now < length tokens.now) }
    {
        let (left, rest) = self.ranges(tokens)?;
        if !starts_among(&COMPARISONS, rest) {
            return Ok((left, rest));
        }
        let (link, rest) = self.compared(rest)?;
        Ok((extended(self.alloc, left, link)?, rest))
    }

    /// Reads a comparison with IS NULLs behind it.
    #[tactic(auto, unfolding(crate::specs::Expressions::tests_at, crate::specs::Reading::tests_from))]
    pub(crate) fn tests<'a>(
        &self,
        tokens: &'a [Lexeme],
    ) -> Result<(Expr, &'a [Lexeme]), Cant<usize>>
        requires { Nests self.now.depth (F.pre self.now.inner) (F.post self.now.inner) }
        ensures gives { GivesStep (λ x. x.0) (λ x. x.1.now) result (at_depth tests_at self.now.depth tokens.now) }
        ensures shorter { IfOk result (λ x. length x.1.now < length tokens.now) }
    {
        let (first, rest) = self.comparisons(tokens)?;
        more_tests(self.alloc, first, rest)
    }
}

// IS NULLs in a row.
#[tactic(auto, using(crate::proofs::RowLaws::tests_on, crate::proofs::RowLaws::tests_off, crate::proofs::RowLaws::tests_stop))]
fn more_tests(
    alloc: Global,
    first: Expr,
    tokens: &[Lexeme],
) -> Result<(Expr, &[Lexeme]), Cant<usize>>
    ensures gives { GivesStep (λ x. x.0) (λ x. x.1.now) result (tests_from first tokens.now) }
    ensures shorter { IfOk result (λ x. length x.1.now ≤ length tokens.now) }
{
    let mut left = first;
    let mut rest = tokens;
    'tests: while starts(IS, rest) {
        let (test, more) = null_test(rest)?;
        left = tested(alloc, left, test)?;
        rest = more;
    }
    Ok((left, rest))
}

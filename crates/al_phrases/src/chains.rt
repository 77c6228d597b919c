//! Operands with operators of one precedence between, each row by a loop.

ghost use Rattle.std.specs.Prelude.{ℕ, true, false, ◌≡◌, ◌<◌, ◌≤◌, List, [], ◌∷◌, length, IfOk};
ghost use Rattle.al_grammar.specs.Gives.{GivesStep};
ghost use Rattle.al_phrases.specs.Nests.{Nests};
ghost use Rattle.al_phrases.specs.Expressions.{products_at, sums_at, concats_at, ands_at, ors_at};
ghost use Rattle.al_phrases.specs.Reading.{at_depth, next_product, products_from, next_sum, sums_from, next_concat, concats_from, next_and, ands_from, next_or, ors_from};

use crate::Lexeme;
use crate::kinds::{AND, JOINED, MINUS, OR, PERCENT, PLUS, SLASH, STAR};
use crate::leaves::{operator, starts_among};
use crate::levels::{Levels, Opened};
use crate::rows::extended;
use al_expr::{Expr, Operator};
use al_values::Cant;
use std::alloc::Global;

/// The operators that multiply and divide.
const PRODUCTS: [u8; 3] = [STAR, SLASH, PERCENT];

/// The operators that add and subtract.
const SUMS: [u8; 2] = [PLUS, MINUS];

impl<F: Fn(Global, u32, Opened, &[Lexeme]) -> Result<(Expr, &[Lexeme]), Cant<usize>>> Levels<F> {
    #[tactic(auto, unfolding(crate::specs::Reading::next_product))]
    fn next_product<'a>(
        &self,
        tokens: &'a [Lexeme],
    ) -> Result<((u32, Operator, Expr), &'a [Lexeme]), Cant<usize>>
        requires { Nests self.now.depth (F.pre self.now.inner) (F.post self.now.inner) }
        ensures gives { GivesStep (λ x. x.0) (λ x. x.1.now) result ((next_product self.now.depth).reads tokens.now) }
        ensures shorter { IfOk result (λ x. length x.1.now < length tokens.now) }
    {
        let (sign, rest) = operator(&PRODUCTS, tokens)?;
        let (right, rest) = self.signs(rest)?;
        Ok(((sign.0, sign.1, right), rest))
    }

    #[tactic(auto, using(crate::proofs::RowLaws::products_on, crate::proofs::RowLaws::products_off, crate::proofs::RowLaws::products_stop))]
    fn more_products<'a>(
        &self,
        first: Expr,
        tokens: &'a [Lexeme],
    ) -> Result<(Expr, &'a [Lexeme]), Cant<usize>>
        requires { Nests self.now.depth (F.pre self.now.inner) (F.post self.now.inner) }
        ensures gives { GivesStep (λ x. x.0) (λ x. x.1.now) result (products_from self.now.depth first tokens.now) }
        ensures shorter { IfOk result (λ x. length x.1.now ≤ length tokens.now) }
    {
        let mut left = first;
        let mut rest = tokens;
        'links: while starts_among(&PRODUCTS, rest) {
            let (link, more) = self.next_product(rest)?;
            left = extended(self.alloc, left, link)?;
            rest = more;
        }
        Ok((left, rest))
    }

    /// Reads operands of `*`, `/` and `%` in a row.
    #[tactic(auto, unfolding(crate::specs::Expressions::products_at, crate::specs::Reading::products_from, crate::specs::Reading::next_product))]
    pub(crate) fn products<'a>(
        &self,
        tokens: &'a [Lexeme],
    ) -> Result<(Expr, &'a [Lexeme]), Cant<usize>>
        requires { Nests self.now.depth (F.pre self.now.inner) (F.post self.now.inner) }
        ensures gives { GivesStep (λ x. x.0) (λ x. x.1.now) result (at_depth products_at self.now.depth tokens.now) }
        ensures shorter { IfOk result (λ x. length x.1.now < length tokens.now) }
    {
        let (first, rest) = self.signs(tokens)?;
        self.more_products(first, rest)
    }

    #[tactic(auto, unfolding(crate::specs::Reading::next_sum))]
    fn next_sum<'a>(
        &self,
        tokens: &'a [Lexeme],
    ) -> Result<((u32, Operator, Expr), &'a [Lexeme]), Cant<usize>>
        requires { Nests self.now.depth (F.pre self.now.inner) (F.post self.now.inner) }
        ensures gives { GivesStep (λ x. x.0) (λ x. x.1.now) result ((next_sum self.now.depth).reads tokens.now) }
        ensures shorter { IfOk result (λ x. length x.1.now < length tokens.now) }
    {
        let (sign, rest) = operator(&SUMS, tokens)?;
        let (right, rest) = self.products(rest)?;
        Ok(((sign.0, sign.1, right), rest))
    }

    #[tactic(auto, using(crate::proofs::RowLaws::sums_on, crate::proofs::RowLaws::sums_off, crate::proofs::RowLaws::sums_stop))]
    fn more_sums<'a>(
        &self,
        first: Expr,
        tokens: &'a [Lexeme],
    ) -> Result<(Expr, &'a [Lexeme]), Cant<usize>>
        requires { Nests self.now.depth (F.pre self.now.inner) (F.post self.now.inner) }
        ensures gives { GivesStep (λ x. x.0) (λ x. x.1.now) result (sums_from self.now.depth first tokens.now) }
        ensures shorter { IfOk result (λ x. length x.1.now ≤ length tokens.now) }
    {
        let mut left = first;
        let mut rest = tokens;
        'links: while starts_among(&SUMS, rest) {
            let (link, more) = self.next_sum(rest)?;
            left = extended(self.alloc, left, link)?;
            rest = more;
        }
        Ok((left, rest))
    }

    /// Reads operands of `+` and `-` in a row.
    #[tactic(auto, unfolding(crate::specs::Expressions::sums_at, crate::specs::Reading::sums_from, crate::specs::Reading::next_sum))]
    pub(crate) fn sums<'a>(&self, tokens: &'a [Lexeme]) -> Result<(Expr, &'a [Lexeme]), Cant<usize>>
        requires { Nests self.now.depth (F.pre self.now.inner) (F.post self.now.inner) }
        ensures gives { GivesStep (λ x. x.0) (λ x. x.1.now) result (at_depth sums_at self.now.depth tokens.now) }
        ensures shorter { IfOk result (λ x. length x.1.now < length tokens.now) }
    {
        let (first, rest) = self.products(tokens)?;
        self.more_sums(first, rest)
    }

    #[tactic(auto, unfolding(crate::specs::Reading::next_concat))]
    fn next_concat<'a>(
        &self,
        tokens: &'a [Lexeme],
    ) -> Result<((u32, Operator, Expr), &'a [Lexeme]), Cant<usize>>
        requires { Nests self.now.depth (F.pre self.now.inner) (F.post self.now.inner) }
        ensures gives { GivesStep (λ x. x.0) (λ x. x.1.now) result ((next_concat self.now.depth).reads tokens.now) }
        ensures shorter { IfOk result (λ x. length x.1.now < length tokens.now) }
    {
        let (sign, rest) = operator(&[JOINED], tokens)?;
        let (right, rest) = self.sums(rest)?;
        Ok(((sign.0, sign.1, right), rest))
    }

    #[tactic(auto, using(crate::proofs::RowLaws::concats_on, crate::proofs::RowLaws::concats_off, crate::proofs::RowLaws::concats_stop))]
    fn more_concats<'a>(
        &self,
        first: Expr,
        tokens: &'a [Lexeme],
    ) -> Result<(Expr, &'a [Lexeme]), Cant<usize>>
        requires { Nests self.now.depth (F.pre self.now.inner) (F.post self.now.inner) }
        ensures gives { GivesStep (λ x. x.0) (λ x. x.1.now) result (concats_from self.now.depth first tokens.now) }
        ensures shorter { IfOk result (λ x. length x.1.now ≤ length tokens.now) }
    {
        let mut left = first;
        let mut rest = tokens;
        'links: while starts_among(&[JOINED], rest) {
            let (link, more) = self.next_concat(rest)?;
            left = extended(self.alloc, left, link)?;
            rest = more;
        }
        Ok((left, rest))
    }

    /// Reads operands of `||` in a row.
    #[tactic(auto, unfolding(crate::specs::Expressions::concats_at, crate::specs::Reading::concats_from, crate::specs::Reading::next_concat))]
    pub(crate) fn concats<'a>(
        &self,
        tokens: &'a [Lexeme],
    ) -> Result<(Expr, &'a [Lexeme]), Cant<usize>>
        requires { Nests self.now.depth (F.pre self.now.inner) (F.post self.now.inner) }
        ensures gives { GivesStep (λ x. x.0) (λ x. x.1.now) result (at_depth concats_at self.now.depth tokens.now) }
        ensures shorter { IfOk result (λ x. length x.1.now < length tokens.now) }
    {
        let (first, rest) = self.sums(tokens)?;
        self.more_concats(first, rest)
    }

    #[tactic(auto, unfolding(crate::specs::Reading::next_and))]
    fn next_and<'a>(
        &self,
        tokens: &'a [Lexeme],
    ) -> Result<((u32, Operator, Expr), &'a [Lexeme]), Cant<usize>>
        requires { Nests self.now.depth (F.pre self.now.inner) (F.post self.now.inner) }
        ensures gives { GivesStep (λ x. x.0) (λ x. x.1.now) result ((next_and self.now.depth).reads tokens.now) }
        ensures shorter { IfOk result (λ x. length x.1.now < length tokens.now) }
    {
        let (sign, rest) = operator(&[AND], tokens)?;
        let (right, rest) = self.nots(rest)?;
        Ok(((sign.0, sign.1, right), rest))
    }

    #[tactic(auto, using(crate::proofs::RowLaws::ands_on, crate::proofs::RowLaws::ands_off, crate::proofs::RowLaws::ands_stop))]
    fn more_ands<'a>(
        &self,
        first: Expr,
        tokens: &'a [Lexeme],
    ) -> Result<(Expr, &'a [Lexeme]), Cant<usize>>
        requires { Nests self.now.depth (F.pre self.now.inner) (F.post self.now.inner) }
        ensures gives { GivesStep (λ x. x.0) (λ x. x.1.now) result (ands_from self.now.depth first tokens.now) }
        ensures shorter { IfOk result (λ x. length x.1.now ≤ length tokens.now) }
    {
        let mut left = first;
        let mut rest = tokens;
        'links: while starts_among(&[AND], rest) {
            let (link, more) = self.next_and(rest)?;
            left = extended(self.alloc, left, link)?;
            rest = more;
        }
        Ok((left, rest))
    }

    /// Reads operands of AND in a row.
    #[tactic(auto, unfolding(crate::specs::Expressions::ands_at, crate::specs::Reading::ands_from, crate::specs::Reading::next_and))]
    pub(crate) fn ands<'a>(&self, tokens: &'a [Lexeme]) -> Result<(Expr, &'a [Lexeme]), Cant<usize>>
        requires { Nests self.now.depth (F.pre self.now.inner) (F.post self.now.inner) }
        ensures gives { GivesStep (λ x. x.0) (λ x. x.1.now) result (at_depth ands_at self.now.depth tokens.now) }
        ensures shorter { IfOk result (λ x. length x.1.now < length tokens.now) }
    {
        let (first, rest) = self.nots(tokens)?;
        self.more_ands(first, rest)
    }

    #[tactic(auto, unfolding(crate::specs::Reading::next_or))]
    fn next_or<'a>(
        &self,
        tokens: &'a [Lexeme],
    ) -> Result<((u32, Operator, Expr), &'a [Lexeme]), Cant<usize>>
        requires { Nests self.now.depth (F.pre self.now.inner) (F.post self.now.inner) }
        ensures gives { GivesStep (λ x. x.0) (λ x. x.1.now) result ((next_or self.now.depth).reads tokens.now) }
        ensures shorter { IfOk result (λ x. length x.1.now < length tokens.now) }
    {
        let (sign, rest) = operator(&[OR], tokens)?;
        let (right, rest) = self.ands(rest)?;
        Ok(((sign.0, sign.1, right), rest))
    }

    #[tactic(auto, using(crate::proofs::RowLaws::ors_on, crate::proofs::RowLaws::ors_off, crate::proofs::RowLaws::ors_stop))]
    fn more_ors<'a>(
        &self,
        first: Expr,
        tokens: &'a [Lexeme],
    ) -> Result<(Expr, &'a [Lexeme]), Cant<usize>>
        requires { Nests self.now.depth (F.pre self.now.inner) (F.post self.now.inner) }
        ensures gives { GivesStep (λ x. x.0) (λ x. x.1.now) result (ors_from self.now.depth first tokens.now) }
        ensures shorter { IfOk result (λ x. length x.1.now ≤ length tokens.now) }
    {
        let mut left = first;
        let mut rest = tokens;
        'links: while starts_among(&[OR], rest) {
            let (link, more) = self.next_or(rest)?;
            left = extended(self.alloc, left, link)?;
            rest = more;
        }
        Ok((left, rest))
    }

    /// Reads operands of OR in a row.
    #[tactic(auto, unfolding(crate::specs::Expressions::ors_at, crate::specs::Reading::ors_from, crate::specs::Reading::next_or))]
    pub(crate) fn ors<'a>(&self, tokens: &'a [Lexeme]) -> Result<(Expr, &'a [Lexeme]), Cant<usize>>
        requires { Nests self.now.depth (F.pre self.now.inner) (F.post self.now.inner) }
        ensures gives { GivesStep (λ x. x.0) (λ x. x.1.now) result (at_depth ors_at self.now.depth tokens.now) }
        ensures shorter { IfOk result (λ x. length x.1.now < length tokens.now) }
    {
        let (first, rest) = self.ands(tokens)?;
        self.more_ors(first, rest)
    }
}

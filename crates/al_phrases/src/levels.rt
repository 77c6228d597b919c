//! The levels of expressions take the reader of what stands in an opened level as a value, so that each is proved by itself.

ghost use Rattle.std.specs.Prelude.{ℕ, zero, suc, true, false, ◌≡◌, ◌<◌, ◌≤◌, List, [], ◌∷◌, length, IfOk};
ghost use Rattle.al_grammar.specs.Gives.{GivesStep};
ghost use Rattle.al_phrases.specs.Nests.{Nests};
ghost use Rattle.al_phrases.specs.Expressions.{inside, is_free, expression, concatenation};
ghost use Rattle.al_phrases.specs.Reading.{opened_at};
ghost use Rattle.al_phrases.specs.Canonical.{is_canonical};

use crate::Lexeme;
use crate::leaves::column;
use al_expr::Expr;
use al_values::Cant;
use std::alloc::Global;

/// What stands in a level that was opened.
#[derive(Clone, Copy, Debug)]
pub(crate) enum Opened {
    /// An expression, in parentheses.
    Whole,
    /// The operand of a NOT.
    Negated,
    /// The operand of a sign.
    Signed,
}

/// Reads the levels of an expression.
#[derive(Drop)]
pub(crate) struct Levels<F> {
    pub(crate) alloc: Global,
    /// How many levels may still be opened.
    pub(crate) depth: u32,
    /// Reads what stands in an opened level.
    pub(crate) inner: F,
}

impl<F: Fn(Global, u32, Opened, &[Lexeme]) -> Result<(Expr, &[Lexeme]), Cant<usize>>> Levels<F> {
    /// Whether a level may be opened.
    pub(crate) fn is_free(&self) -> bool
        ensures { result ≡ is_free self.now.depth }
    {
        0 < self.depth
    }

    /// Reads an expression in a level that was opened.
    pub(crate) fn whole<'a>(
        &self,
        tokens: &'a [Lexeme],
    ) -> Result<(Expr, &'a [Lexeme]), Cant<usize>>
        requires { Nests self.now.depth (F.pre self.now.inner) (F.post self.now.inner) }
        ensures gives { GivesStep (λ x. x.0) (λ x. x.1.now) result ((inside self.now.depth).whole.reads tokens.now) }
        ensures shorter { IfOk result (λ x. length x.1.now < length tokens.now) }
    {
        (self.inner)(self.alloc, self.depth, Opened::Whole, tokens)
    }

    /// Reads the operand of a NOT.
    pub(crate) fn negated<'a>(
        &self,
        tokens: &'a [Lexeme],
    ) -> Result<(Expr, &'a [Lexeme]), Cant<usize>>
        requires { Nests self.now.depth (F.pre self.now.inner) (F.post self.now.inner) }
        ensures gives { GivesStep (λ x. x.0) (λ x. x.1.now) result ((inside self.now.depth).negated.reads tokens.now) }
        ensures shorter { IfOk result (λ x. length x.1.now < length tokens.now) }
    {
        (self.inner)(self.alloc, self.depth, Opened::Negated, tokens)
    }

    /// Reads the operand of a sign.
    pub(crate) fn signed<'a>(
        &self,
        tokens: &'a [Lexeme],
    ) -> Result<(Expr, &'a [Lexeme]), Cant<usize>>
        requires { Nests self.now.depth (F.pre self.now.inner) (F.post self.now.inner) }
        ensures gives { GivesStep (λ x. x.0) (λ x. x.1.now) result ((inside self.now.depth).signed.reads tokens.now) }
        ensures shorter { IfOk result (λ x. length x.1.now < length tokens.now) }
    {
        (self.inner)(self.alloc, self.depth, Opened::Signed, tokens)
    }
}

/// Reads what stands in a level that was opened, where so many may still be opened.
fn inner(
    alloc: Global,
    depth: u32,
    opened: Opened,
    tokens: &[Lexeme],
) -> Result<(Expr, &[Lexeme]), Cant<usize>>
    ensures gives { GivesStep (λ x. x.0) (λ x. x.1.now) result (opened_at depth opened tokens.now) }
    ensures shorter { IfOk result (λ x. length x.1.now < length tokens.now) }
{
    if depth == 0 {
        return column(alloc, tokens);
    }
    let levels = Levels {
        alloc,
        depth: depth - 1,
        inner,
    };
    match opened {
        Opened::Whole => levels.ors(tokens),
        Opened::Negated => levels.nots(tokens),
        Opened::Signed => levels.signs(tokens),
    }
}

/// Reads an expression (4.2 and 4.1.6) in which so many levels may be opened: by a parenthesis, a NOT or a sign. What it
/// answers is the expression with the tokens behind it; or how many are left from the faulty one on.
#[tactic(auto, unfolding(crate::specs::Expressions::expression))]
pub fn expression(
    alloc: Global,
    depth: u32,
    tokens: &[Lexeme],
) -> Result<(Expr, &[Lexeme]), Cant<usize>>
    ensures gives { GivesStep (λ x. x.0) (λ x. x.1.now) result ((expression depth).reads tokens.now) }
    ensures canonical { IfOk result (λ x. is_canonical x.0 ≡ true) }
    ensures shorter { IfOk result (λ x. length x.1.now < length tokens.now) }
{
    let levels = Levels {
        alloc,
        depth,
        inner,
    };
    levels.ors(tokens)
}

/// Reads an expression without comparisons, NOT, AND and OR outside parentheses.
#[tactic(auto, unfolding(crate::specs::Expressions::concatenation))]
pub fn concatenation(
    alloc: Global,
    depth: u32,
    tokens: &[Lexeme],
) -> Result<(Expr, &[Lexeme]), Cant<usize>>
    ensures gives { GivesStep (λ x. x.0) (λ x. x.1.now) result ((concatenation depth).reads tokens.now) }
    ensures canonical { IfOk result (λ x. is_canonical x.0 ≡ true) }
    ensures shorter { IfOk result (λ x. length x.1.now < length tokens.now) }
{
    let levels = Levels {
        alloc,
        depth,
        inner,
    };
    levels.concats(tokens)
}

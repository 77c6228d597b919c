ghost use Rattle.std.specs.Prelude.{◌≡◌, [], ◌∷◌, IfOk};
ghost use Rattle.al_phrases.specs.Rows.{precedence, row_precedence, extended, prefixed, cast_to, tested};

use al_expr::{Arithmetic, Expr, Operator, Prefix};
use al_values::{Kind, NoMemory};
use sqlite_items::{Boxed, Items};
use std::alloc::Global;

// How tight an operator binds.
fn precedence(operator: Operator) -> u8
    ensures { result ≡ precedence operator }
{
    match operator {
        Operator::Or => 1,
        Operator::And => 2,
        Operator::Compare(_) => 3,
        Operator::Concat => 4,
        Operator::Calculate(Arithmetic::Add | Arithmetic::Subtract) => 5,
        Operator::Calculate(_) => 6,
    }
}

// The precedence of a row, 0 where there is none.
fn row_precedence(links: &[(u32, Operator, Expr)]) -> u8
    ensures { result ≡ row_precedence links.now }
{
    match links {
        [link, ..] => precedence(link.1),
        [] => 0,
    }
}

fn new_row(alloc: Global, first: Expr, link: (u32, Operator, Expr)) -> Result<Expr, NoMemory>
    ensures { IfOk result (λ x. x ≡ Expr.Chain first (link ∷ [])) }
{
    let mut links = Items::new(alloc);
    links.push(link)?;
    Ok(Expr::Chain(Boxed::new(alloc, first)?, links))
}

/// One operator more with its right side, behind a row where one of its kind stands there.
#[tactic(auto, unfolding(crate::specs::Rows::extended))]
pub(crate) fn extended(
    alloc: Global,
    left: Expr,
    link: (u32, Operator, Expr),
) -> Result<Expr, NoMemory>
    ensures { IfOk result (λ x. x ≡ extended left link) }
{
    match left {
        Expr::Chain(first, mut links) => {
            if row_precedence(links.as_slice()) == precedence(link.1) {
                links.push(link)?;
                return Ok(Expr::Chain(first, links));
            }
            new_row(alloc, Expr::Chain(first, links), link)
        }
        other => new_row(alloc, other, link),
    }
}

/// One NOT or sign more in front.
#[tactic(auto, unfolding(crate::specs::Rows::prefixed))]
pub(crate) fn prefixed(
    alloc: Global,
    operand: Expr,
    prefix: (u32, Prefix),
) -> Result<Expr, NoMemory>
    ensures { IfOk result (λ x. x ≡ prefixed operand prefix) }
{
    match operand {
        Expr::Prefixed(inner, mut prefixes) => {
            prefixes.push(prefix)?;
            Ok(Expr::Prefixed(inner, prefixes))
        }
        other => {
            let mut prefixes = Items::new(alloc);
            prefixes.push(prefix)?;
            Ok(Expr::Prefixed(Boxed::new(alloc, other)?, prefixes))
        }
    }
}

/// One cast more.
#[tactic(auto, unfolding(crate::specs::Rows::cast_to))]
pub(crate) fn cast_to(alloc: Global, operand: Expr, cast: (u32, Kind)) -> Result<Expr, NoMemory>
    ensures { IfOk result (λ x. x ≡ cast_to operand cast) }
{
    match operand {
        Expr::Casts(inner, mut casts) => {
            casts.push(cast)?;
            Ok(Expr::Casts(inner, casts))
        }
        other => {
            let mut casts = Items::new(alloc);
            casts.push(cast)?;
            Ok(Expr::Casts(Boxed::new(alloc, other)?, casts))
        }
    }
}

/// One IS NULL or IS NOT NULL (true) more.
#[tactic(auto, unfolding(crate::specs::Rows::tested))]
pub(crate) fn tested(alloc: Global, operand: Expr, test: (u32, bool)) -> Result<Expr, NoMemory>
    ensures { IfOk result (λ x. x ≡ tested operand test) }
{
    match operand {
        Expr::IsNull(inner, mut tests) => {
            tests.push(test)?;
            Ok(Expr::IsNull(inner, tests))
        }
        other => {
            let mut tests = Items::new(alloc);
            tests.push(test)?;
            Ok(Expr::IsNull(Boxed::new(alloc, other)?, tests))
        }
    }
}

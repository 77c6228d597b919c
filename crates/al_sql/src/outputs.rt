ghost use Rattle.std.specs.Prelude.{ℕ, true, false, ◌≡◌, ◌<◌, ◌≤◌, List, [], ◌∷◌, length, Some, None, IfOk};
ghost use Rattle.al_grammar.specs.Gives.{GivesStep};
ghost use Rattle.al_sql.specs.Queries.{alias, output, next_output, outputs_from, output_list};

use al_phrases::kinds::{AS, COMMA};
use al_phrases::{Lexeme, expression, name, starts, word};
use al_statements::Output;
use al_values::{Cant, ListOf, Name};
use std::alloc::Global;

/// Reads AS and a name, where they stand.
#[tactic(auto, unfolding(crate::specs::Queries::alias))]
pub(crate) fn alias(
    alloc: Global,
    tokens: &[Lexeme],
) -> Result<(Option<Name>, &[Lexeme]), Cant<usize>>
    ensures gives { GivesStep (λ x. x.0) (λ x. x.1.now) result (alias.reads tokens.now) }
    ensures shorter { IfOk result (λ x. length x.1.now ≤ length tokens.now) }
{
    if !starts(AS, tokens) {
        return Ok((None, tokens));
    }
    let rest = word(AS, tokens)?;
    let (name, rest) = name(alloc, rest)?;
    Ok((Some(name), rest))
}

#[tactic(auto, unfolding(crate::specs::Queries::output))]
fn output(alloc: Global, depth: u32, tokens: &[Lexeme]) -> Result<(Output, &[Lexeme]), Cant<usize>>
    ensures gives { GivesStep (λ x. x.0) (λ x. x.1.now) result ((output depth).reads tokens.now) }
    ensures shorter { IfOk result (λ x. length x.1.now < length tokens.now) }
{
    let (expr, rest) = expression(alloc, depth, tokens)?;
    let (name, rest) = alias(alloc, rest)?;
    Ok((Output { expr, name }, rest))
}

#[tactic(auto, unfolding(crate::specs::Queries::next_output))]
fn next_output(
    alloc: Global,
    depth: u32,
    tokens: &[Lexeme],
) -> Result<(Output, &[Lexeme]), Cant<usize>>
    ensures gives { GivesStep (λ x. x.0) (λ x. x.1.now) result ((next_output depth).reads tokens.now) }
    ensures shorter { IfOk result (λ x. length x.1.now < length tokens.now) }
{
    let rest = word(COMMA, tokens)?;
    output(alloc, depth, rest)
}

#[tactic(auto, using(crate::proofs::QueryLaws::outputs_on, crate::proofs::QueryLaws::outputs_off, crate::proofs::QueryLaws::outputs_stop))]
fn more_outputs(
    alloc: Global,
    depth: u32,
    first: Output,
    tokens: &[Lexeme],
) -> Result<(ListOf<Output>, &[Lexeme]), Cant<usize>>
    ensures gives { GivesStep (λ x. x.0) (λ x. x.1.now) result (outputs_from depth (first ∷ []) tokens.now) }
    ensures shorter { IfOk result (λ x. length x.1.now ≤ length tokens.now) }
{
    let mut all = ListOf::new(alloc);
    all.push(first)?;
    let mut rest = tokens;
    'outputs: while starts(COMMA, rest) {
        let (next, more) = next_output(alloc, depth, rest)?;
        all.push(next)?;
        rest = more;
    }
    Ok((all, rest))
}

/// Reads outputs with commas between.
#[tactic(auto, unfolding(crate::specs::Queries::output_list, crate::specs::Queries::outputs_from, crate::specs::Queries::next_output))]
pub(crate) fn output_list(
    alloc: Global,
    depth: u32,
    tokens: &[Lexeme],
) -> Result<(ListOf<Output>, &[Lexeme]), Cant<usize>>
    ensures gives { GivesStep (λ x. x.0) (λ x. x.1.now) result ((output_list depth).reads tokens.now) }
    ensures shorter { IfOk result (λ x. length x.1.now < length tokens.now) }
{
    let (first, rest) = output(alloc, depth, tokens)?;
    more_outputs(alloc, depth, first, rest)
}

ghost use Rattle.std.specs.Prelude.{ℕ, true, false, ◌≡◌, ◌<◌, ◌≤◌, List, [], ◌∷◌, length, Some, None, IfOk};
ghost use Rattle.al_grammar.specs.Gives.{GivesStep};
ghost use Rattle.al_sql.specs.Tables.{element, next_element, elements_from, element_list, elements_in_parens, inherits, create};

use al_phrases::kinds::{
    CHECK, COMMA, CONSTRAINT, CREATE, FOREIGN, INHERITS, LEFT_PAREN, PRIMARY, RIGHT_PAREN, TABLE,
    UNIQUE,
};
use al_phrases::{
    Lexeme, column_definition, name, names_in_parens, starts, starts_among, table_constraint, word,
};
use al_statements::{CreateTable, Element, ElementList};
use al_values::{Cant, ListOf, NameList};
use std::alloc::Global;

const CONSTRAINTS: [u8; 5] = [CONSTRAINT, CHECK, UNIQUE, PRIMARY, FOREIGN];

#[tactic(auto, unfolding(crate::specs::Tables::element))]
fn element(
    alloc: Global,
    depth: u32,
    tokens: &[Lexeme],
) -> Result<(Element, &[Lexeme]), Cant<usize>>
    ensures gives { GivesStep (λ x. x.0) (λ x. x.1.now) result ((element depth).reads tokens.now) }
    ensures shorter { IfOk result (λ x. length x.1.now < length tokens.now) }
{
    if starts_among(&CONSTRAINTS, tokens) {
        let (constraint, rest) = table_constraint(alloc, depth, tokens)?;
        return Ok((Element::Constraint(constraint), rest));
    }
    let (column, rest) = column_definition(alloc, depth, tokens)?;
    Ok((Element::Column(column), rest))
}

#[tactic(auto, unfolding(crate::specs::Tables::next_element))]
fn next_element(
    alloc: Global,
    depth: u32,
    tokens: &[Lexeme],
) -> Result<(Element, &[Lexeme]), Cant<usize>>
    ensures gives { GivesStep (λ x. x.0) (λ x. x.1.now) result ((next_element depth).reads tokens.now) }
    ensures shorter { IfOk result (λ x. length x.1.now < length tokens.now) }
{
    let rest = word(COMMA, tokens)?;
    element(alloc, depth, rest)
}

#[tactic(auto, using(crate::proofs::TableLaws::elements_on, crate::proofs::TableLaws::elements_off, crate::proofs::TableLaws::elements_stop))]
fn more_elements(
    alloc: Global,
    depth: u32,
    first: Element,
    tokens: &[Lexeme],
) -> Result<(ListOf<Element>, &[Lexeme]), Cant<usize>>
    ensures gives { GivesStep (λ x. x.0) (λ x. x.1.now) result (elements_from depth (first ∷ []) tokens.now) }
    ensures shorter { IfOk result (λ x. length x.1.now ≤ length tokens.now) }
{
    let mut all = ListOf::new(alloc);
    all.push(first)?;
    let mut rest = tokens;
    'elements: while starts(COMMA, rest) {
        let (next, more) = next_element(alloc, depth, rest)?;
        all.push(next)?;
        rest = more;
    }
    Ok((all, rest))
}

#[tactic(auto, unfolding(crate::specs::Tables::element_list, crate::specs::Tables::elements_from, crate::specs::Tables::next_element))]
fn element_list(
    alloc: Global,
    depth: u32,
    tokens: &[Lexeme],
) -> Result<(ListOf<Element>, &[Lexeme]), Cant<usize>>
    ensures gives { GivesStep (λ x. x.0) (λ x. x.1.now) result ((element_list depth).reads tokens.now) }
    ensures shorter { IfOk result (λ x. length x.1.now < length tokens.now) }
{
    let (first, rest) = element(alloc, depth, tokens)?;
    more_elements(alloc, depth, first, rest)
}

#[tactic(auto, unfolding(crate::specs::Tables::elements_in_parens))]
fn elements_in_parens(
    alloc: Global,
    depth: u32,
    tokens: &[Lexeme],
) -> Result<(ElementList, &[Lexeme]), Cant<usize>>
    ensures gives { GivesStep (λ x. x.0) (λ x. x.1.now) result ((elements_in_parens depth).reads tokens.now) }
    ensures shorter { IfOk result (λ x. length x.1.now < length tokens.now) }
{
    let rest = word(LEFT_PAREN, tokens)?;
    if starts(RIGHT_PAREN, rest) {
        let rest = word(RIGHT_PAREN, rest)?;
        return Ok((ListOf::new(alloc), rest));
    }
    let (elements, rest) = element_list(alloc, depth, rest)?;
    let rest = word(RIGHT_PAREN, rest)?;
    Ok((elements, rest))
}

#[tactic(auto, unfolding(crate::specs::Tables::inherits))]
fn inherits(alloc: Global, tokens: &[Lexeme]) -> Result<(NameList, &[Lexeme]), Cant<usize>>
    ensures gives { GivesStep (λ x. x.0) (λ x. x.1.now) result (inherits.reads tokens.now) }
    ensures shorter { IfOk result (λ x. length x.1.now ≤ length tokens.now) }
{
    if !starts(INHERITS, tokens) {
        return Ok((ListOf::new(alloc), tokens));
    }
    let rest = word(INHERITS, tokens)?;
    names_in_parens(alloc, rest)
}

/// Reads CREATE TABLE.
#[tactic(auto, unfolding(crate::specs::Tables::create))]
pub(crate) fn create(
    alloc: Global,
    depth: u32,
    tokens: &[Lexeme],
) -> Result<(CreateTable, &[Lexeme]), Cant<usize>>
    ensures gives { GivesStep (λ x. x.0) (λ x. x.1.now) result ((create depth).reads tokens.now) }
    ensures shorter { IfOk result (λ x. length x.1.now < length tokens.now) }
{
    let rest = word(CREATE, tokens)?;
    let rest = word(TABLE, rest)?;
    let (name, rest) = name(alloc, rest)?;
    let (elements, rest) = elements_in_parens(alloc, depth, rest)?;
    let (parents, rest) = inherits(alloc, rest)?;
    Ok((
        CreateTable {
            name,
            elements,
            parents,
        },
        rest,
    ))
}

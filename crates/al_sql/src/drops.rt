ghost use Rattle.std.specs.Prelude.{ℕ, true, false, ◌≡◌, ◌<◌, ◌≤◌, List, [], ◌∷◌, length, Some, None, IfOk};
ghost use Rattle.al_grammar.specs.Gives.{GivesStep};
ghost use Rattle.al_grammar.specs.Rules.{optional};
ghost use Rattle.al_phrases.specs.Words.{kind_of};
ghost use Rattle.al_sql.specs.Tables.{exists_mark, first_name, following, dropped_of, dropped, drop_table};

use crate::following::Following;
use al_phrases::kinds::{COMMA, DROP, EXISTS, IF, RESTRICT, TABLE};
use al_phrases::{Lexeme, given, name, name_list, starts, starts_among, word};
use al_statements::DropTable;
use al_values::{Cant, ListOf, Name, NameList, NoMemory};
use std::alloc::Global;

// Stands in for EXISTS behind another name than IF; no text has it.
const LATE_EXISTS: u8 = 29;

const EXISTS_WORDS: [u8; 2] = [EXISTS, LATE_EXISTS];

const FOLLOWING: [u8; 3] = [EXISTS, LATE_EXISTS, COMMA];

// EXISTS, where it may stand; else what stands in for it.
fn exists_mark(may_stand: bool, tokens: &[Lexeme]) -> Result<&[Lexeme], Cant<usize>>
    ensures gives { GivesStep (λ rest. tt) (λ rest. rest.now) result ((exists_mark may_stand).reads tokens.now) }
    ensures shorter { IfOk result (λ rest. length rest.now < length tokens.now) }
{
    if may_stand {
        return word(EXISTS, tokens);
    }
    word(LATE_EXISTS, tokens)
}

// A name, and whether it is the word IF.
#[tactic(auto, using(crate::proofs::TableLaws::first_on, crate::proofs::TableLaws::first_off))]
fn first_name(alloc: Global, tokens: &[Lexeme]) -> Result<((bool, Name), &[Lexeme]), Cant<usize>>
    ensures gives { GivesStep (λ x. x.0) (λ x. x.1.now) result (first_name.reads tokens.now) }
    ensures shorter { IfOk result (λ x. length x.1.now < length tokens.now) }
{
    let is_if = starts(IF, tokens);
    let (name, rest) = name(alloc, tokens)?;
    Ok(((is_if, name), rest))
}

#[tactic(auto, unfolding(crate::specs::Tables::following))]
fn following(
    alloc: Global,
    is_if: bool,
    tokens: &[Lexeme],
) -> Result<(Following, &[Lexeme]), Cant<usize>>
    ensures gives { GivesStep (λ x. x.0) (λ x. x.1.now) result ((following is_if).reads tokens.now) }
    ensures shorter { IfOk result (λ x. length x.1.now < length tokens.now) }
{
    if starts_among(&EXISTS_WORDS, tokens) {
        let rest = exists_mark(is_if, tokens)?;
        let (names, rest) = name_list(alloc, rest)?;
        return Ok((Following::Exists(names), rest));
    }
    let rest = word(COMMA, tokens)?;
    let (names, rest) = name_list(alloc, rest)?;
    Ok((Following::Names(names), rest))
}

fn maybe_following(
    alloc: Global,
    is_if: bool,
    tokens: &[Lexeme],
) -> Result<(Option<Following>, &[Lexeme]), Cant<usize>>
    ensures gives { GivesStep (λ x. x.0) (λ x. x.1.now) result ((optional kind_of (following is_if)).reads tokens.now) }
    ensures shorter { IfOk result (λ x. length x.1.now ≤ length tokens.now) }
{
    if !starts_among(&FOLLOWING, tokens) {
        return Ok((None, tokens));
    }
    let (next, rest) = following(alloc, is_if, tokens)?;
    Ok((Some(next), rest))
}

fn one_name(alloc: Global, name: Name) -> Result<NameList, NoMemory>
    ensures { IfOk result (λ names. names ≡ name ∷ []) }
{
    let mut names = ListOf::new(alloc);
    names.push(name)?;
    Ok(names)
}

// A name in front of others.
fn in_front(name: Name, names: NameList) -> Result<NameList, NoMemory>
    ensures { IfOk result (λ all. all ≡ name ∷ names) }
{
    let mut all = names.into_vec();
    all.insert(0, name)?;
    Ok(ListOf::from_vec(all))
}

fn dropped_of(
    alloc: Global,
    first: (bool, Name),
    following: Option<Following>,
) -> Result<DropTable, NoMemory>
    ensures { IfOk result (λ d. d ≡ dropped_of first following) }
{
    match following {
        None => Ok(DropTable {
            if_exists: false,
            names: one_name(alloc, first.1)?,
        }),
        Some(Following::Names(names)) => Ok(DropTable {
            if_exists: false,
            names: in_front(first.1, names)?,
        }),
        Some(Following::Exists(names)) => Ok(DropTable {
            if_exists: true,
            names,
        }),
    }
}

#[tactic(auto, unfolding(crate::specs::Tables::dropped))]
fn dropped(alloc: Global, tokens: &[Lexeme]) -> Result<(DropTable, &[Lexeme]), Cant<usize>>
    ensures gives { GivesStep (λ x. x.0) (λ x. x.1.now) result (dropped.reads tokens.now) }
    ensures shorter { IfOk result (λ x. length x.1.now < length tokens.now) }
{
    let (first, rest) = first_name(alloc, tokens)?;
    let (following, rest) = maybe_following(alloc, first.0, rest)?;
    Ok((dropped_of(alloc, first, following)?, rest))
}

/// Reads DROP TABLE.
#[tactic(auto, unfolding(crate::specs::Tables::drop_table))]
pub(crate) fn drop_table(
    alloc: Global,
    tokens: &[Lexeme],
) -> Result<(DropTable, &[Lexeme]), Cant<usize>>
    ensures gives { GivesStep (λ x. x.0) (λ x. x.1.now) result (drop_table.reads tokens.now) }
    ensures shorter { IfOk result (λ x. length x.1.now < length tokens.now) }
{
    let rest = word(DROP, tokens)?;
    let rest = word(TABLE, rest)?;
    let (what, rest) = dropped(alloc, rest)?;
    let (_, rest) = given(RESTRICT, rest);
    Ok((what, rest))
}

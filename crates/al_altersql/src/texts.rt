ghost use Rattle.std.specs.Prelude.{ℕ, ◌≡◌, ◌<◌, ◌≤◌, ◌^◌, length, Ok, Err, IfOk};
ghost use Rattle.al_values.specs.Gives.{GivesUnlessNoMemory};
ghost use Rattle.al_tokens.specs.Tokens.{Spans, IfWhy};
ghost use Rattle.al_statements.specs.declared.alter.Alter.{Alter};
ghost use Rattle.al_statements.specs.declared.fault.SqlFault.{SqlFault};
ghost use Rattle.al_lexemes.specs.Answer.{front_answer};
ghost use Rattle.al_lexemes.specs.Faults.{IsFrontText, IsFrontFault};
ghost use Rattle.al_altersql.specs.Alter.{alter_table};

use crate::alter;
use al_lexemes::{
    end_fault, fault_at, front, goes_on, lexemes, tokens_before, tokens_from, trial, whole,
};
use al_statements::{Alter, SqlFault};
use al_tokens::{Ending, Token, TokenList};
use al_values::{Cant, Txt};
use std::alloc::Global;

// The statement that stands in front of tokens, and how many tokens it has.
fn answered(alloc: Global, text: &Txt, tokens: &[Token]) -> Result<(Alter, usize), Cant<SqlFault>>
    requires spans { Spans text.now 0 tokens.now }
    requires short { length text.now < 2 ^ 32 }
    ensures { GivesUnlessNoMemory result (front_answer alter_table text.now tokens.now) }
{
    let lexemes = lexemes(alloc, text, tokens)?;
    match front(alter(alloc, lexemes.as_slice())) {
        Ok((statement, behind)) => Ok((statement, lexemes.len().saturating_sub(behind))),
        Err(Cant::NoMemory) => Err(Cant::NoMemory),
        Err(Cant::Why(left)) => {
            if left == 0 {
                return Err(Cant::Why(end_fault(Ending::Whole, text)));
            }
            let place = lexemes.len().saturating_sub(left);
            match whole(alter(alloc, tokens_before(lexemes.as_slice(), left))) {
                Ok(statement) => Ok((statement, place)),
                Err(Cant::NoMemory) => Err(Cant::NoMemory),
                Err(Cant::Why(_)) => {
                    let trial = trial(lexemes, left)?;
                    let stands = goes_on(whole(alter(alloc, trial.as_slice())))?;
                    Err(Cant::Why(fault_at(alloc, text, tokens, left, stands)?))
                }
            }
        }
    }
}

/// Reads the ALTER TABLE that stands in a text from one of its tokens on, as far as it goes (the manual, ALTER TABLE). The
/// number is that of the first token behind it.
///
/// # Errors
///
/// The first token that can't stand where it stands, or the text's length where each of them can: `NotInProfile` where the
/// token is SQL's but left out here, else `Syntax`.
#[tactic(auto, using(al_lexemes::proofs::Walks::spans_drop))]
pub fn read_alter(
    alloc: Global,
    tokens: &TokenList,
    text: &Txt,
    from: u32,
) -> Result<(Alter, u32), Cant<SqlFault>>
    requires spans { Spans text.now 0 tokens.now }
    requires short { length text.now < 2 ^ 32 }
    requires begun { from ≤ length tokens.now }
    ensures found { IfOk result (λ x. IsFrontText alter_table.Is text.now tokens.now from x.0 x.1) }
    ensures only { (statement : Alter) (next : ℕ) → IsFrontText alter_table.Is text.now tokens.now from statement next → GivesUnlessNoMemory result (Ok (statement, next)) }
    ensures fault { IfWhy result (λ fault. IsFrontFault alter_table.Is text.now tokens.now from fault) }
    ensures only_fault { (fault : SqlFault) → IsFrontFault alter_table.Is text.now tokens.now from fault → GivesUnlessNoMemory result (Err fault) }
{
    match answered(alloc, text, tokens_from(tokens, from)) {
        Ok((statement, count)) => Ok((statement, from + count as u32)),
        Err(fault) => Err(fault),
    }
}

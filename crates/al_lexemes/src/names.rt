ghost use Rattle.std.specs.Prelude.{ℕ, List, ◌≡◌, ◌<◌, ◌≤◌, ◌^◌, length, Ok, Err, IfOk};
ghost use Rattle.al_values.specs.Gives.{GivesUnlessNoMemory};
ghost use Rattle.al_tokens.specs.Tokens.{Spans, IfWhy};
ghost use Rattle.al_phrases.specs.Words.{name_list};
ghost use Rattle.al_statements.specs.declared.fault.SqlFault.{SqlFault};
ghost use Rattle.al_lexemes.specs.Answer.{answer, front_answer};
ghost use Rattle.al_lexemes.specs.Faults.{IsText, IsFault, IsFrontText, IsFrontFault};

use crate::{
    end_fault, ended, fault_at, front, goes_on, lexemes, tokens_before, tokens_from, trial, whole,
};
use al_phrases::name_list;
use al_statements::SqlFault;
use al_tokens::{Ending, Front, Token, TokenList, front_tokens};
use al_values::{Cant, NameList, Txt};
use std::alloc::Global;

// Names with commas between, of the tokens in front of a text.
#[tactic(auto, using(crate::proofs::NameTexts::stopped))]
fn answered(alloc: Global, text: &Txt, front: &Front) -> Result<NameList, Cant<SqlFault>>
    requires spans { Spans text.now 0 front.now.tokens }
    requires short { length text.now < 2 ^ 32 }
    ensures { GivesUnlessNoMemory result (answer name_list text.now front.now) }
{
    let tokens = front.tokens.as_slice();
    let lexemes = lexemes(alloc, text, tokens)?;
    match whole(name_list(alloc, lexemes.as_slice())) {
        Ok(names) => ended(front.ending, names, text),
        Err(Cant::NoMemory) => Err(Cant::NoMemory),
        Err(Cant::Why(left)) => {
            if left == 0 {
                return Err(Cant::Why(end_fault(front.ending, text)));
            }
            let trial = trial(lexemes, left)?;
            let stands = goes_on(whole(name_list(alloc, trial.as_slice())))?;
            Err(Cant::Why(fault_at(alloc, text, tokens, left, stands)?))
        }
    }
}

/// Reads a text of names with commas between.
#[tactic(auto, using(crate::proofs::NameTexts::found, crate::proofs::NameTexts::only, crate::proofs::NameTexts::fault, crate::proofs::NameTexts::only_fault))]
pub fn read_names(alloc: Global, text: &Txt) -> Result<NameList, Cant<SqlFault>>
    ensures found { IfOk result (λ names. IsText name_list text.now names) }
    ensures only { (names : List (List ℕ)) → IsText name_list text.now names → GivesUnlessNoMemory result (Ok names) }
    ensures fault { IfWhy result (λ fault. IsFault name_list text.now fault) }
    ensures only_fault { (fault : SqlFault) → IsFault name_list text.now fault → GivesUnlessNoMemory result (Err fault) }
{
    let front = front_tokens(alloc, text)?;
    answered(alloc, text, &front)
}

// The names that stand in front of tokens, and how many tokens they have.
fn front_answered(
    alloc: Global,
    text: &Txt,
    tokens: &[Token],
) -> Result<(NameList, usize), Cant<SqlFault>>
    requires spans { Spans text.now 0 tokens.now }
    requires short { length text.now < 2 ^ 32 }
    ensures { GivesUnlessNoMemory result (front_answer name_list text.now tokens.now) }
{
    let lexemes = lexemes(alloc, text, tokens)?;
    match front(name_list(alloc, lexemes.as_slice())) {
        Ok((names, behind)) => Ok((names, lexemes.len().saturating_sub(behind))),
        Err(Cant::NoMemory) => Err(Cant::NoMemory),
        Err(Cant::Why(left)) => {
            if left == 0 {
                return Err(Cant::Why(end_fault(Ending::Whole, text)));
            }
            let place = lexemes.len().saturating_sub(left);
            match whole(name_list(alloc, tokens_before(lexemes.as_slice(), left))) {
                Ok(names) => Ok((names, place)),
                Err(Cant::NoMemory) => Err(Cant::NoMemory),
                Err(Cant::Why(_)) => {
                    let trial = trial(lexemes, left)?;
                    let stands = goes_on(whole(name_list(alloc, trial.as_slice())))?;
                    Err(Cant::Why(fault_at(alloc, text, tokens, left, stands)?))
                }
            }
        }
    }
}

/// Reads the names that stand from a token on, as many as there are; the number is the first token behind them.
#[tactic(auto, using(crate::proofs::Walks::spans_drop))]
pub fn read_front_names(
    alloc: Global,
    tokens: &TokenList,
    text: &Txt,
    from: u32,
) -> Result<(NameList, u32), Cant<SqlFault>>
    requires spans { Spans text.now 0 tokens.now }
    requires short { length text.now < 2 ^ 32 }
    requires begun { from ≤ length tokens.now }
    ensures found { IfOk result (λ x. IsFrontText name_list.Is text.now tokens.now from x.0 x.1) }
    ensures only { (names : List (List ℕ)) (next : ℕ) → IsFrontText name_list.Is text.now tokens.now from names next → GivesUnlessNoMemory result (Ok (names, next)) }
    ensures fault { IfWhy result (λ fault. IsFrontFault name_list.Is text.now tokens.now from fault) }
    ensures only_fault { (fault : SqlFault) → IsFrontFault name_list.Is text.now tokens.now from fault → GivesUnlessNoMemory result (Err fault) }
{
    match front_answered(alloc, text, tokens_from(tokens, from)) {
        Ok((names, count)) => Ok((names, from + count as u32)),
        Err(fault) => Err(fault),
    }
}

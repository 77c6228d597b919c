ghost use Rattle.std.specs.Prelude.{List, ◌<◌, ◌^◌, length, Ok, Err, IfOk};
ghost use Rattle.al_values.specs.Gives.{GivesUnlessNoMemory};
ghost use Rattle.al_tokens.specs.Tokens.{Spans, IfWhy};
ghost use Rattle.al_statements.specs.declared.fault.SqlFault.{SqlFault};
ghost use Rattle.al_statements.specs.declared.script.Statement.{Statement};
ghost use Rattle.al_lexemes.specs.Answer.{answer};
ghost use Rattle.al_lexemes.specs.Faults.{IsText, IsFault};
ghost use Rattle.al_sql.specs.Scripts.{script};

use crate::script;
use al_lexemes::{end_fault, ended, fault_at, goes_on, lexemes, trial, whole};
use al_statements::{Script, SqlFault};
use al_tokens::{Front, front_tokens};
use al_values::{Cant, Txt};
use std::alloc::Global;

// The script of the tokens in front of a text, where the text's end ends them.
#[tactic(auto, using(crate::proofs::ScriptTexts::stopped))]
fn answered(alloc: Global, text: &Txt, front: &Front) -> Result<Script, Cant<SqlFault>>
    requires spans { Spans text.now 0 front.now.tokens }
    requires short { length text.now < 2 ^ 32 }
    ensures { GivesUnlessNoMemory result (answer script text.now front.now) }
{
    let tokens = front.tokens.as_slice();
    let lexemes = lexemes(alloc, text, tokens)?;
    match whole(script(alloc, lexemes.as_slice())) {
        Ok(statements) => ended(front.ending, statements, text),
        Err(Cant::NoMemory) => Err(Cant::NoMemory),
        Err(Cant::Why(left)) => {
            if left == 0 {
                return Err(Cant::Why(end_fault(front.ending, text)));
            }
            let trial = trial(lexemes, left)?;
            let stands = goes_on(whole(script(alloc, trial.as_slice())))?;
            Err(Cant::Why(fault_at(alloc, text, tokens, left, stands)?))
        }
    }
}

/// Reads a script: statements with `;` between, of which each may be left out.
///
/// # Errors
///
/// The first token that can't stand where it stands, or what ends the tokens where each of them can: `NotInProfile` where the
/// token is SQL's but left out here, else `Syntax`.
#[tactic(auto, using(crate::proofs::ScriptTexts::found, crate::proofs::ScriptTexts::only, crate::proofs::ScriptTexts::fault, crate::proofs::ScriptTexts::only_fault))]
pub fn read_script(alloc: Global, text: &Txt) -> Result<Script, Cant<SqlFault>>
    ensures found { IfOk result (λ statements. IsText script text.now statements) }
    ensures only { (statements : List Statement) → IsText script text.now statements → GivesUnlessNoMemory result (Ok statements) }
    ensures fault { IfWhy result (λ fault. IsFault script text.now fault) }
    ensures only_fault { (fault : SqlFault) → IsFault script text.now fault → GivesUnlessNoMemory result (Err fault) }
{
    let front = front_tokens(alloc, text)?;
    answered(alloc, text, &front)
}

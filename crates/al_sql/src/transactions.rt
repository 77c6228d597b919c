ghost use Rattle.std.specs.Prelude.{ℕ, true, false, ◌≡◌, ◌<◌, ◌≤◌, List, [], ◌∷◌, length, Some, None, if◌then◌else◌, IfOk};
ghost use Rattle.al_grammar.specs.Kinds.{among};
ghost use Rattle.al_grammar.specs.Gives.{GivesStep};
ghost use Rattle.al_sql.specs.Transactions.{level, isolation, begin, start, end_words, ended_by, end_word, finish, setting_words, setting_named, setting, set_value, set};

use crate::words::{given_among, word_among};
use al_modes::Level;
use al_phrases::kinds::{
    ABORT, BEGIN, COMMIT, COMMITTED, DEADLOCK_TIMEOUT, END, EQUAL, INTEGER_TOKEN, ISOLATION, LEVEL,
    LOCAL, LOCK_TIMEOUT, READ, REPEATABLE, ROLLBACK, SESSION, SET, START, STATEMENT_TIMEOUT,
    TEXT_TOKEN, TO, TRANSACTION, WORK,
};
use al_phrases::{Lexeme, name, starts, starts_among, word};
use al_statements::{Setting, Statement};
use al_values::Cant;
use std::alloc::Global;

const BLOCK_WORDS: [u8; 2] = [WORK, TRANSACTION];

const SCOPE_WORDS: [u8; 2] = [LOCAL, SESSION];

const BECOMES_WORDS: [u8; 2] = [TO, EQUAL];

const PLAIN_VALUES: [u8; 2] = [INTEGER_TOKEN, TEXT_TOKEN];

#[tactic(auto, unfolding(crate::specs::Transactions::level))]
fn level(tokens: &[Lexeme]) -> Result<(Level, &[Lexeme]), Cant<usize>>
    ensures gives { GivesStep (λ x. x.0) (λ x. x.1.now) result (level.reads tokens.now) }
    ensures shorter { IfOk result (λ x. length x.1.now < length tokens.now) }
{
    if starts(READ, tokens) {
        let rest = word(READ, tokens)?;
        let rest = word(COMMITTED, rest)?;
        return Ok((Level::ReadCommitted, rest));
    }
    let rest = word(REPEATABLE, tokens)?;
    let rest = word(READ, rest)?;
    Ok((Level::RepeatableRead, rest))
}

#[tactic(auto, unfolding(crate::specs::Transactions::isolation))]
fn isolation(tokens: &[Lexeme]) -> Result<(Option<Level>, &[Lexeme]), Cant<usize>>
    ensures gives { GivesStep (λ x. x.0) (λ x. x.1.now) result (isolation.reads tokens.now) }
    ensures shorter { IfOk result (λ x. length x.1.now ≤ length tokens.now) }
{
    if !starts(ISOLATION, tokens) {
        return Ok((None, tokens));
    }
    let rest = word(ISOLATION, tokens)?;
    let rest = word(LEVEL, rest)?;
    let (level, rest) = level(rest)?;
    Ok((Some(level), rest))
}

/// Reads BEGIN.
#[tactic(auto, unfolding(crate::specs::Transactions::begin))]
pub(crate) fn begin(tokens: &[Lexeme]) -> Result<(Statement, &[Lexeme]), Cant<usize>>
    ensures gives { GivesStep (λ x. x.0) (λ x. x.1.now) result (begin.reads tokens.now) }
    ensures shorter { IfOk result (λ x. length x.1.now < length tokens.now) }
{
    let rest = word(BEGIN, tokens)?;
    let (_, rest) = given_among(&BLOCK_WORDS, rest);
    let (level, rest) = isolation(rest)?;
    Ok((Statement::Begin(level), rest))
}

/// Reads START TRANSACTION.
#[tactic(auto, unfolding(crate::specs::Transactions::start))]
pub(crate) fn start(tokens: &[Lexeme]) -> Result<(Statement, &[Lexeme]), Cant<usize>>
    ensures gives { GivesStep (λ x. x.0) (λ x. x.1.now) result (start.reads tokens.now) }
    ensures shorter { IfOk result (λ x. length x.1.now < length tokens.now) }
{
    let rest = word(START, tokens)?;
    let rest = word(TRANSACTION, rest)?;
    let (level, rest) = isolation(rest)?;
    Ok((Statement::StartTransaction(level), rest))
}

// The statement that a word ends a block by.
fn ended_by(word: u8) -> Option<Statement>
    ensures { result ≡ (if among word end_words then Some (ended_by word) else None) }
{
    match word {
        COMMIT | END => Some(Statement::Commit),
        ROLLBACK | ABORT => Some(Statement::Rollback),
        _ => None,
    }
}

#[tactic(auto, unfolding(crate::specs::Transactions::end_word))]
fn end_word(tokens: &[Lexeme]) -> Result<(Statement, &[Lexeme]), Cant<usize>>
    ensures gives { GivesStep (λ x. x.0) (λ x. x.1.now) result (end_word.reads tokens.now) }
    ensures shorter { IfOk result (λ x. length x.1.now < length tokens.now) }
{
    match tokens {
        [token, rest @ ..] => match ended_by(token.kind) {
            None => Err(Cant::Why(tokens.len())),
            Some(statement) => Ok((statement, rest)),
        },
        [] => Err(Cant::Why(0)),
    }
}

/// Reads COMMIT, END, ROLLBACK or ABORT.
#[tactic(auto, unfolding(crate::specs::Transactions::finish))]
pub(crate) fn finish(tokens: &[Lexeme]) -> Result<(Statement, &[Lexeme]), Cant<usize>>
    ensures gives { GivesStep (λ x. x.0) (λ x. x.1.now) result (finish.reads tokens.now) }
    ensures shorter { IfOk result (λ x. length x.1.now < length tokens.now) }
{
    let (statement, rest) = end_word(tokens)?;
    let (_, rest) = given_among(&BLOCK_WORDS, rest);
    Ok((statement, rest))
}

// What a word names.
fn setting_named(word: u8) -> Option<Setting>
    ensures { result ≡ (if among word setting_words then Some (setting_named word) else None) }
{
    match word {
        DEADLOCK_TIMEOUT => Some(Setting::DeadlockTimeout),
        LOCK_TIMEOUT => Some(Setting::LockTimeout),
        STATEMENT_TIMEOUT => Some(Setting::StatementTimeout),
        _ => None,
    }
}

#[tactic(auto, unfolding(crate::specs::Transactions::setting))]
fn setting(tokens: &[Lexeme]) -> Result<(Setting, &[Lexeme]), Cant<usize>>
    ensures gives { GivesStep (λ x. x.0) (λ x. x.1.now) result (setting.reads tokens.now) }
    ensures shorter { IfOk result (λ x. length x.1.now < length tokens.now) }
{
    match tokens {
        [token, rest @ ..] => match setting_named(token.kind) {
            None => Err(Cant::Why(tokens.len())),
            Some(setting) => Ok((setting, rest)),
        },
        [] => Err(Cant::Why(0)),
    }
}

#[tactic(auto, unfolding(crate::specs::Transactions::set_value))]
fn set_value(alloc: Global, tokens: &[Lexeme]) -> Result<&[Lexeme], Cant<usize>>
    ensures gives { GivesStep (λ rest. tt) (λ rest. rest.now) result (set_value.reads tokens.now) }
    ensures shorter { IfOk result (λ rest. length rest.now < length tokens.now) }
{
    if starts_among(&PLAIN_VALUES, tokens) {
        return word_among(&PLAIN_VALUES, tokens);
    }
    let (_, rest) = name(alloc, tokens)?;
    Ok(rest)
}

/// Reads SET.
#[tactic(auto, unfolding(crate::specs::Transactions::set))]
pub(crate) fn set(alloc: Global, tokens: &[Lexeme]) -> Result<(Statement, &[Lexeme]), Cant<usize>>
    ensures gives { GivesStep (λ x. x.0) (λ x. x.1.now) result (set.reads tokens.now) }
    ensures shorter { IfOk result (λ x. length x.1.now < length tokens.now) }
{
    let rest = word(SET, tokens)?;
    let (_, rest) = given_among(&SCOPE_WORDS, rest);
    let (setting, rest) = setting(rest)?;
    let rest = word_among(&BECOMES_WORDS, rest)?;
    let rest = set_value(alloc, rest)?;
    Ok((Statement::Set(setting), rest))
}

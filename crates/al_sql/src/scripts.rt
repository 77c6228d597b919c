ghost use Rattle.std.specs.Prelude.{ℕ, true, false, ◌≡◌, ◌<◌, ◌≤◌, List, [], ◌∷◌, length, Some, None, IfOk};
ghost use Rattle.al_grammar.specs.Gives.{GivesStep};
ghost use Rattle.al_sql.specs.Scripts.{on_transactions, on_tables, on_rows, statement, with_statement, maybe, next_statement, statements_from, script_at, script};

use crate::changes::{delete, update};
use crate::creations::create;
use crate::drops::drop_table;
use crate::inserts::insert;
use crate::locks::lock;
use crate::queries::select;
use crate::transactions::{begin, finish, set, start};
use al_altersql::{LEVELS, alter};
use al_phrases::kinds::{
    ABORT, ALTER, BEGIN, COMMIT, CREATE, DELETE, DROP, END, INSERT, LOCK, ROLLBACK, SELECT,
    SEMICOLON, SET, START, UPDATE,
};
use al_phrases::{Lexeme, starts, starts_among, word};
use al_statements::{Script, Statement};
use al_values::{Cant, ListOf, NoMemory};
use std::alloc::Global;

const ENDS: [u8; 4] = [COMMIT, END, ROLLBACK, ABORT];

const ON_TRANSACTIONS: [u8; 7] = [BEGIN, START, COMMIT, END, ROLLBACK, ABORT, SET];

const ON_TABLES: [u8; 4] = [LOCK, CREATE, DROP, ALTER];

const STATEMENTS: [u8; 15] = [
    BEGIN, START, COMMIT, END, ROLLBACK, ABORT, SET, LOCK, CREATE, DROP, ALTER, INSERT, UPDATE,
    DELETE, SELECT,
];

#[tactic(auto, unfolding(crate::specs::Scripts::on_transactions))]
fn on_transactions(alloc: Global, tokens: &[Lexeme]) -> Result<(Statement, &[Lexeme]), Cant<usize>>
    ensures gives { GivesStep (λ x. x.0) (λ x. x.1.now) result (on_transactions.reads tokens.now) }
    ensures shorter { IfOk result (λ x. length x.1.now < length tokens.now) }
{
    if starts(BEGIN, tokens) {
        return begin(tokens);
    }
    if starts(START, tokens) {
        return start(tokens);
    }
    if starts_among(&ENDS, tokens) {
        return finish(tokens);
    }
    set(alloc, tokens)
}

#[tactic(auto, unfolding(crate::specs::Scripts::on_tables))]
fn on_tables(
    alloc: Global,
    depth: u32,
    tokens: &[Lexeme],
) -> Result<(Statement, &[Lexeme]), Cant<usize>>
    ensures gives { GivesStep (λ x. x.0) (λ x. x.1.now) result ((on_tables depth).reads tokens.now) }
    ensures shorter { IfOk result (λ x. length x.1.now < length tokens.now) }
{
    if starts(LOCK, tokens) {
        let (what, rest) = lock(alloc, tokens)?;
        return Ok((Statement::LockTable(what), rest));
    }
    if starts(CREATE, tokens) {
        let (what, rest) = create(alloc, depth, tokens)?;
        return Ok((Statement::CreateTable(what), rest));
    }
    if starts(DROP, tokens) {
        let (what, rest) = drop_table(alloc, tokens)?;
        return Ok((Statement::DropTable(what), rest));
    }
    let (what, rest) = alter(alloc, tokens)?;
    Ok((Statement::AlterTable(what), rest))
}

#[tactic(auto, unfolding(crate::specs::Scripts::on_rows))]
fn on_rows(
    alloc: Global,
    depth: u32,
    tokens: &[Lexeme],
) -> Result<(Statement, &[Lexeme]), Cant<usize>>
    ensures gives { GivesStep (λ x. x.0) (λ x. x.1.now) result ((on_rows depth).reads tokens.now) }
    ensures shorter { IfOk result (λ x. length x.1.now < length tokens.now) }
{
    if starts(INSERT, tokens) {
        let (what, rest) = insert(alloc, depth, tokens)?;
        return Ok((Statement::Insert(what), rest));
    }
    if starts(UPDATE, tokens) {
        let (what, rest) = update(alloc, depth, tokens)?;
        return Ok((Statement::Update(what), rest));
    }
    if starts(DELETE, tokens) {
        let (what, rest) = delete(alloc, depth, tokens)?;
        return Ok((Statement::Delete(what), rest));
    }
    let (what, rest) = select(alloc, depth, tokens)?;
    Ok((Statement::Select(what), rest))
}

#[tactic(auto, unfolding(crate::specs::Scripts::statement))]
fn statement(
    alloc: Global,
    depth: u32,
    tokens: &[Lexeme],
) -> Result<(Statement, &[Lexeme]), Cant<usize>>
    ensures gives { GivesStep (λ x. x.0) (λ x. x.1.now) result ((statement depth).reads tokens.now) }
    ensures shorter { IfOk result (λ x. length x.1.now < length tokens.now) }
{
    if starts_among(&ON_TRANSACTIONS, tokens) {
        return on_transactions(alloc, tokens);
    }
    if starts_among(&ON_TABLES, tokens) {
        return on_tables(alloc, depth, tokens);
    }
    on_rows(alloc, depth, tokens)
}

// A statement, where one stands.
#[tactic(auto, unfolding(crate::specs::Scripts::maybe))]
fn maybe(
    alloc: Global,
    depth: u32,
    tokens: &[Lexeme],
) -> Result<(Option<Statement>, &[Lexeme]), Cant<usize>>
    ensures gives { GivesStep (λ x. x.0) (λ x. x.1.now) result ((maybe depth).reads tokens.now) }
    ensures shorter { IfOk result (λ x. length x.1.now ≤ length tokens.now) }
{
    if !starts_among(&STATEMENTS, tokens) {
        return Ok((None, tokens));
    }
    let (what, rest) = statement(alloc, depth, tokens)?;
    Ok((Some(what), rest))
}

#[tactic(auto, unfolding(crate::specs::Scripts::next_statement))]
fn next_statement(
    alloc: Global,
    depth: u32,
    tokens: &[Lexeme],
) -> Result<(Option<Statement>, &[Lexeme]), Cant<usize>>
    ensures gives { GivesStep (λ x. x.0) (λ x. x.1.now) result ((next_statement depth).reads tokens.now) }
    ensures shorter { IfOk result (λ x. length x.1.now < length tokens.now) }
{
    let rest = word(SEMICOLON, tokens)?;
    maybe(alloc, depth, rest)
}

fn with_statement(before: Script, statement: Option<Statement>) -> Result<Script, NoMemory>
    ensures { IfOk result (λ all. all ≡ with_statement before statement) }
{
    let mut all = before;
    if let Some(statement) = statement {
        all.push(statement)?;
    }
    Ok(all)
}

#[tactic(auto, using(crate::proofs::ScriptLaws::statements_on, crate::proofs::ScriptLaws::statements_off, crate::proofs::ScriptLaws::statements_stop))]
fn more_statements(
    alloc: Global,
    depth: u32,
    first: Script,
    tokens: &[Lexeme],
) -> Result<(Script, &[Lexeme]), Cant<usize>>
    ensures gives { GivesStep (λ x. x.0) (λ x. x.1.now) result (statements_from depth first tokens.now) }
    ensures shorter { IfOk result (λ x. length x.1.now ≤ length tokens.now) }
{
    let mut all = first;
    let mut rest = tokens;
    'statements: while starts(SEMICOLON, rest) {
        let (next, more) = next_statement(alloc, depth, rest)?;
        all = with_statement(all, next)?;
        rest = more;
    }
    Ok((all, rest))
}

#[tactic(auto, unfolding(crate::specs::Scripts::script_at, crate::specs::Scripts::statements_from))]
fn script_at(
    alloc: Global,
    depth: u32,
    tokens: &[Lexeme],
) -> Result<(Script, &[Lexeme]), Cant<usize>>
    ensures gives { GivesStep (λ x. x.0) (λ x. x.1.now) result ((script_at depth).reads tokens.now) }
    ensures shorter { IfOk result (λ x. length x.1.now ≤ length tokens.now) }
{
    let (first, rest) = maybe(alloc, depth, tokens)?;
    let all = with_statement(ListOf::new(alloc), first)?;
    more_statements(alloc, depth, all, rest)
}

/// Reads statements with semicolons between; each may be left out. What it answers is the script with the tokens behind it;
/// or how many tokens are left from the first on that no script can have there.
#[tactic(auto, unfolding(crate::specs::Scripts::script))]
pub fn script(alloc: Global, tokens: &[Lexeme]) -> Result<(Script, &[Lexeme]), Cant<usize>>
    ensures gives { GivesStep (λ x. x.0) (λ x. x.1.now) result (script.reads tokens.now) }
    ensures shorter { IfOk result (λ x. length x.1.now ≤ length tokens.now) }
{
    script_at(alloc, LEVELS, tokens)
}

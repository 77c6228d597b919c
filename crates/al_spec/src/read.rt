ghost use Rattle.std.specs.Prelude.{ℕ, ◌≡◌, ◌<◌, ◌≤◌, ◌^◌, List, [], length, Ok, Err, IfOk, IsUtf8, if◌then◌else◌};
ghost use Rattle.al_values.specs.Gives.{GivesUnlessNoMemory};
ghost use Rattle.al_values.specs.declared.cant.Cant.TheVariants as cants;
ghost use Rattle.al_spec.specs.Tokens.{AreTokens};
ghost use Rattle.al_spec.specs.Files.{IsSpecFile, IsFault, IfWhy, spec_noted, syntax_fault, marker_or_syntax, answer};
ghost use Rattle.al_spec.specs.Sound.{IsSound};
ghost use Rattle.al_spec.specs.declared.spec.SpecFault.{SpecFault};
ghost use Rattle.al_spec.specs.declared.spec.Spec.{Spec};
ghost use Rattle.al_spec.specs.declared.kinds.Lexeme.TheVariants as lexemes;
ghost use Rattle.al_spec.specs.declared.spec.SpecFault.TheVariants as faults;

use crate::kinds::{Lexeme, Token};
use crate::lex::tokens;
use crate::notes::{Noted, closed, note_all};
use crate::parse::syntax;
use crate::spec::{Spec, SpecFault};
use al_values::{Cant, IdList, NoMemory};
use std::alloc::Global;

// Whether a permutation has a step.
fn has_step(current: &Option<IdList>) -> bool
    ensures { (at : ℕ) → marker_or_syntax lexemes.Paren current.now at ≡ (if result then faults.Marker at else faults.Syntax at) }
{
    match current {
        None => false,
        Some(steps) => !steps.is_empty(),
    }
}

// The fault of a token that can't stand there.
fn fault_of(lexeme: &Lexeme<'_>, current: &Option<IdList>, at: u32) -> SpecFault
    ensures { result ≡ marker_or_syntax lexeme.now current.now at }
{
    match lexeme {
        Lexeme::Paren => {
            if has_step(current) {
                return SpecFault::Marker { at };
            }
            SpecFault::Syntax { at }
        }
        Lexeme::Word(_)
        | Lexeme::Name(_)
        | Lexeme::Block(_)
        | Lexeme::OpenName
        | Lexeme::OpenBlock
        | Lexeme::Unclosed
        | Lexeme::Stray => SpecFault::Syntax { at },
    }
}

fn first_fault(noted: &Noted<'_>, from: &[Token<'_>], end: u32) -> SpecFault
    ensures { result ≡ syntax_fault noted.now from.now end }
{
    match from.first() {
        None => SpecFault::Syntax { at: end },
        Some(token) => fault_of(&token.lexeme, &noted.current, token.start),
    }
}

fn spec_of_noted(noted: Noted<'_>) -> Result<Spec, NoMemory>
    ensures { IfOk result (λ spec. spec ≡ spec_noted noted.entry) }
{
    let Noted {
        word: _,
        at: _,
        name: _,
        sessions,
        blocks,
        permutations,
        current,
        work: _,
    } = noted;
    Ok(Spec {
        sessions,
        blocks,
        permutations: closed(permutations, current)?,
    })
}

fn answer(alloc: Global, tokens: &[Token<'_>], end: u32) -> Result<Spec, Cant<SpecFault>>
    ensures gives { GivesUnlessNoMemory result (answer tokens.now end) }
    ensures few { IfOk result (λ spec. length spec.blocks < 2 ^ 32) }
{
    match syntax(tokens) {
        None => Ok(spec_of_noted(note_all(alloc, tokens)?)?),
        Some(left) => {
            let before = tokens.len() - left;
            let noted = note_all(alloc, &tokens[..before])?;
            Err(Cant::Why(first_fault(&noted, &tokens[before..], end)))
        }
    }
}

// The spec of a text.
fn read(alloc: Global, text: &str) -> Result<Spec, Cant<SpecFault>>
    requires { length text.now < 2 ^ 32 }
    ensures found { IfOk result (λ spec. IsSpecFile text.now spec) }
    ensures sound { IfOk result (λ spec. IsSound spec) }
    ensures only { (spec : Spec) → IsSpecFile text.now spec → GivesUnlessNoMemory result (Ok spec) }
    ensures fault { IfWhy result (λ fault. IsFault text.now fault) }
    ensures only_fault { (fault : SpecFault) → IsFault text.now fault → GivesUnlessNoMemory result (Err fault) }
{
    let all = tokens(alloc, text)?;
    answer(alloc, all.as_slice(), text.len() as u32)
}

/// Reads a spec file of the isolation tester: its sessions, its blocks in the file's order, and its permutations, each a
/// list of block numbers. Otherwise the first fault in reading order with its byte place, where bytes that aren't UTF-8
/// come first. More than 2^32 - 1 bytes find no memory.
pub fn read_spec(alloc: Global, bytes: &[u8]) -> Result<Spec, Cant<SpecFault>>
    ensures found { IfOk result (λ spec. IsSpecFile bytes.now spec) }
    ensures sound { IfOk result (λ spec. IsSound spec) }
    ensures only { (spec : Spec) → IsSpecFile bytes.now spec → GivesUnlessNoMemory result (Ok spec) }
    ensures fault { IfWhy result (λ fault. IsFault bytes.now fault) }
    ensures only_fault { (fault : SpecFault) → IsFault bytes.now fault → GivesUnlessNoMemory result (Err fault) }
    ensures long { 2 ^ 32 ≤ length bytes.now → result ≡ Err cants.NoMemory }
{
    if bytes.len() > u32::MAX as usize {
        return Err(Cant::NoMemory);
    }
    match std::str::from_utf8(bytes) {
        Err(fault) => Err(Cant::Why(SpecFault::Utf8 {
            at: fault.valid_up_to() as u32,
        })),
        Ok(text) => read(alloc, text),
    }
}

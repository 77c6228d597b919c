ghost use Rattle.std.specs.Prelude.{ℕ, ◌≡◌, ◌+◌, ◌<◌, ◌≤◌, ◌^◌, List, [], ◌∷◌, ◌++◌, length, Ok, Err, Some, None, IfOk, MatchOption, option_copied, nat_lt, OnOk, ◌&&◌, bytes_eq};
ghost use Rattle.std.specs.HashMap.{get_by_text};
ghost use Rattle.al_values.specs.Gives.{GivesUnlessNoMemory};
ghost use Rattle.al_spec.specs.Notes.{note, note_all, nothing_noted, note_word, note_permutation, note_session, note_step, note_named, note_name, note_block, number_of, work_at, work_of, semicolons, begun_ones, steps_in, all_permutations, part_of, name_for, block_of, is_step, or_else, fixed};
ghost use Rattle.al_spec.specs.Indexed.{Indexed};
ghost use Rattle.al_spec.specs.declared.spec.Block.{Block};

use crate::kinds::{Lexeme, Token, Word};
use crate::lent::Lent;
use crate::spec::{Block, BlockList, Part, PermutationList, SpecFault, SpecLimit};
use al_values::{Cant, IdList, ListOf, Name, NameList, NoMemory, Txt};
use std::alloc::Global;
use std::collections::HashMap;

/// What the tokens so far say.
#[derive(Drop)]
pub struct Noted<'a> {
    /// The last of the five words, and its place.
    pub word: Option<Word>,
    pub at: u32,
    /// The last step's name.
    pub name: Lent<'a>,
    pub sessions: NameList,
    pub blocks: BlockList,
    /// The permutations before the last one.
    pub permutations: PermutationList,
    /// The last permutation.
    pub current: Option<IdList>,
    /// The work of all permutations.
    pub work: u64,
}

/// What is kept beside the blocks.
#[derive(Drop)]
pub struct Index {
    /// The number of the step of a name.
    pub numbers: HashMap<String, u32>,
    /// Each block's work.
    pub works: Vec<u64>,
    /// The work of all setup and teardown blocks.
    pub base: u64,
}

const WORK: u64 = 1_000_000;

// The sum, where it is within the limit of work.
fn within(work: u64, more: u64) -> Option<u64>
    ensures { MatchOption result (1000000 < work + more) (λ sum. (sum ≡ work + more) × (sum ≤ 1000000)) }
{
    match work.checked_add(more) {
        None => None,
        Some(sum) => {
            if sum > WORK {
                return None;
            }
            Some(sum)
        }
    }
}

/// The permutations with the last one.
pub fn closed(
    permutations: PermutationList,
    current: Option<IdList>,
) -> Result<PermutationList, NoMemory>
    ensures { IfOk result (λ all. all ≡ permutations ++ begun_ones current) }
{
    match current {
        None => Ok(permutations),
        Some(last) => {
            let mut all = permutations;
            all.push(last)?;
            Ok(all)
        }
    }
}

fn noted_permutation<'a>(
    alloc: Global,
    noted: Noted<'a>,
    index: &Index,
    at: u32,
) -> Result<Noted<'a>, Cant<SpecFault>>
    requires { Indexed index.now noted.blocks }
    ensures gives { GivesUnlessNoMemory result (note_permutation at noted.entry) }
    ensures blocks { IfOk result (λ more. more.blocks ≡ noted.entry.blocks) }
{
    let Noted {
        word: _,
        at: _,
        name,
        sessions,
        blocks,
        permutations,
        current,
        work,
    } = noted;
    let permutations = closed(permutations, current)?;
    if permutations.len() == 1000 {
        return Err(Cant::Why(SpecFault::Limit {
            at,
            what: SpecLimit::Permutations,
        }));
    }
    match within(work, index.base) {
        None => Err(Cant::Why(SpecFault::Limit {
            at,
            what: SpecLimit::Work,
        })),
        Some(work) => Ok(Noted {
            word: Some(Word::Permutation),
            at,
            name,
            sessions,
            blocks,
            permutations,
            current: Some(ListOf::new(alloc)),
            work,
        }),
    }
}

fn noted_session<'a>(
    alloc: Global,
    noted: Noted<'a>,
    name: &'a Lent<'a>,
    at: u32,
) -> Result<Noted<'a>, Cant<SpecFault>>
    ensures gives { GivesUnlessNoMemory result (note_session name.now at noted.entry) }
    ensures blocks { IfOk result (λ more. more.blocks ≡ noted.entry.blocks) }
{
    if noted.sessions.len() == 62 {
        return Err(Cant::Why(SpecFault::Limit {
            at,
            what: SpecLimit::Sessions,
        }));
    }
    let mut noted = noted;
    noted.sessions.push(name.to_txt(alloc)?)?;
    Ok(noted)
}

// The number of the step of a name.
fn numbered(index: &Index, name: &Lent<'_>) -> Option<u32>
    ensures { (blocks : List Block) → Indexed index.now blocks → result ≡ number_of name.now blocks }
{
    index.numbers.get(name.as_str()).copied()
}

fn noted_step<'a>(
    alloc: Global,
    noted: Noted<'a>,
    index: &Index,
    name: &'a Lent<'a>,
    at: u32,
) -> Result<Noted<'a>, Cant<SpecFault>>
    requires { Indexed index.now noted.blocks }
    ensures gives { GivesUnlessNoMemory result (note_step (number_of name.now noted.entry.blocks) name.now at noted.entry) }
    ensures blocks { IfOk result (λ more. more.blocks ≡ noted.entry.blocks) }
{
    match numbered(index, name) {
        Some(_) => Err(Cant::Why(SpecFault::TwoSteps { at })),
        None => {
            let mut noted = noted;
            noted.name = Lent::lent(name.as_str());
            Ok(noted)
        }
    }
}

// The work of the block of a number.
fn work_of_number(index: &Index, number: u32) -> u64
    ensures { (blocks : List Block) → Indexed index.now blocks → result ≡ work_at blocks number }
{
    match index.works.get(number as usize) {
        None => 0,
        Some(work) => *work,
    }
}

fn steps_so_far(current: &Option<IdList>) -> usize
    ensures { result ≡ length (steps_in current.now) }
{
    match current {
        None => 0,
        Some(steps) => steps.len(),
    }
}

fn stepped(alloc: Global, current: Option<IdList>, number: u32) -> Result<IdList, NoMemory>
    ensures { IfOk result (λ steps. steps ≡ steps_in current ++ number ∷ []) }
{
    let mut steps = match current {
        None => ListOf::new(alloc),
        Some(steps) => steps,
    };
    steps.push(number)?;
    Ok(steps)
}

fn noted_found<'a>(
    alloc: Global,
    noted: Noted<'a>,
    index: &Index,
    number: u32,
    at: u32,
) -> Result<Noted<'a>, Cant<SpecFault>>
    requires { Indexed index.now noted.blocks }
    ensures gives { GivesUnlessNoMemory result (note_named (Some number) at noted.entry) }
    ensures blocks { IfOk result (λ more. more.blocks ≡ noted.entry.blocks) }
{
    match within(noted.work, work_of_number(index, number)) {
        None => Err(Cant::Why(SpecFault::Limit {
            at: noted.at,
            what: SpecLimit::Work,
        })),
        Some(work) => {
            if steps_so_far(&noted.current) == 1000 {
                return Err(Cant::Why(SpecFault::Limit {
                    at,
                    what: SpecLimit::Steps,
                }));
            }
            let mut noted = noted;
            noted.current = Some(stepped(alloc, noted.current, number)?);
            noted.work = work;
            Ok(noted)
        }
    }
}

fn noted_named<'a>(
    alloc: Global,
    noted: Noted<'a>,
    index: &Index,
    name: &'a Lent<'a>,
    at: u32,
) -> Result<Noted<'a>, Cant<SpecFault>>
    requires { Indexed index.now noted.blocks }
    ensures gives { GivesUnlessNoMemory result (note_named (number_of name.now noted.entry.blocks) at noted.entry) }
    ensures blocks { IfOk result (λ more. more.blocks ≡ noted.entry.blocks) }
{
    match numbered(index, name) {
        None => Err(Cant::Why(SpecFault::NoStep { at })),
        Some(number) => noted_found(alloc, noted, index, number, at),
    }
}

fn noted_name<'a>(
    alloc: Global,
    noted: Noted<'a>,
    index: &Index,
    name: &'a Lent<'a>,
    at: u32,
) -> Result<Noted<'a>, Cant<SpecFault>>
    requires { Indexed index.now noted.blocks }
    ensures gives { GivesUnlessNoMemory result (note_name noted.entry.word name.now at noted.entry) }
    ensures blocks { IfOk result (λ more. more.blocks ≡ noted.entry.blocks) }
{
    match noted.word {
        Some(Word::Session) => noted_session(alloc, noted, name, at),
        Some(Word::Step) => noted_step(alloc, noted, index, name, at),
        Some(Word::Permutation) => noted_named(alloc, noted, index, name, at),
        Some(Word::Setup) | Some(Word::Teardown) | None => Ok(noted),
    }
}

fn noted_word<'a>(
    alloc: Global,
    noted: Noted<'a>,
    index: &Index,
    word: Word,
    at: u32,
) -> Result<Noted<'a>, Cant<SpecFault>>
    requires { Indexed index.now noted.blocks }
    ensures gives { GivesUnlessNoMemory result (note_word word at noted.entry) }
    ensures blocks { IfOk result (λ more. more.blocks ≡ noted.entry.blocks) }
{
    match word {
        Word::Permutation => noted_permutation(alloc, noted, index, at),
        Word::Setup | Word::Teardown | Word::Session | Word::Step => {
            let mut noted = noted;
            noted.word = Some(word);
            noted.at = at;
            Ok(noted)
        }
    }
}

// The work of a block once: 1, and 1 more for each `;`.
fn work_of_text(text: &[u8]) -> u64
    ensures { result ≡ 1 + semicolons text.now }
{
    let mut work: u64 = 1;
    for byte in text {
        if *byte == b';' {
            work += 1;
        }
    }
    work
}

fn part_of(word: Option<Word>, sessions: usize) -> Part
    ensures { result ≡ part_of word sessions }
{
    match word {
        Some(Word::Setup) => {
            if sessions == 0 {
                return Part::Setup;
            }
            Part::SessionSetup
        }
        Some(Word::Teardown) => {
            if sessions == 0 {
                return Part::Teardown;
            }
            Part::SessionTeardown
        }
        Some(Word::Session) | Some(Word::Step) | Some(Word::Permutation) | None => Part::Step,
    }
}

fn block_name(alloc: Global, part: Part, name: &Lent<'_>) -> Result<Name, NoMemory>
    ensures { IfOk result (λ own. own ≡ name_for part name.now) }
{
    match part {
        Part::Step => name.to_txt(alloc),
        Part::Setup | Part::SessionSetup | Part::SessionTeardown | Part::Teardown => Txt::new(
            alloc, "",
        ),
    }
}

fn is_step(part: Part) -> bool
    ensures { result ≡ is_step part }
{
    match part {
        Part::Step => true,
        Part::Setup | Part::SessionSetup | Part::SessionTeardown | Part::Teardown => false,
    }
}

// Keeps the number of a step, where no step before has its name.
fn keep_number(
    alloc: Global,
    numbers: &mut HashMap<String, u32>,
    name: &Name,
    number: u32,
) -> Result<(), NoMemory>
    ensures { OnOk result ((asked : List ℕ) → get_by_text numbers.new asked ≡ or_else (get_by_text numbers.old asked) (bytes_eq asked name.now) number) }
{
    if numbers.contains_key(name.as_str()) {
        return Ok(());
    }
    numbers.insert(String::from_str(alloc, name.as_str())?, number)?;
    Ok(())
}

fn keep_step(
    alloc: Global,
    index: &mut Index,
    part: Part,
    name: &Name,
    number: u32,
) -> Result<(), NoMemory>
    ensures numbers { OnOk result ((asked : List ℕ) → get_by_text index.new.numbers asked ≡ or_else (get_by_text index.old.numbers asked) (is_step part && bytes_eq asked name.now) number) }
    ensures works { index.new.works ≡ index.old.works }
    ensures base { index.new.base ≡ index.old.base }
{
    if is_step(part) {
        return keep_number(alloc, &mut index.numbers, name, number);
    }
    Ok(())
}

fn keep_work(index: &mut Index, part: Part, work: u64) -> Result<(), NoMemory>
    ensures numbers { index.new.numbers ≡ index.old.numbers }
    ensures works { OnOk result (index.new.works.items ≡ index.old.works.items ++ work ∷ []) }
    ensures base { OnOk result (index.new.base ≡ index.old.base + fixed part work) }
{
    index.works.push(work)?;
    if is_step(part) {
        return Ok(());
    }
    match index.base.checked_add(work) {
        None => Err(NoMemory),
        Some(base) => {
            index.base = base;
            Ok(())
        }
    }
}

// Keeps a block's step and work.
fn keep(alloc: Global, index: &mut Index, block: &Block, number: u32) -> Result<(), NoMemory>
    ensures { OnOk result ((blocks : List Block) → Indexed index.old blocks → length blocks ≡ number → Indexed index.new (blocks ++ block.now ∷ [])) }
{
    keep_step(alloc, index, block.part, &block.name, number)?;
    keep_work(index, block.part, work_of_text(block.text.as_bytes()))?;
    Ok(())
}

fn noted_block<'a>(
    alloc: Global,
    noted: Noted<'a>,
    index: &mut Index,
    text: &Lent<'_>,
    at: u32,
) -> Result<Noted<'a>, Cant<SpecFault>>
    requires { Indexed index.old noted.blocks }
    ensures gives { GivesUnlessNoMemory result (note_block text.now at noted.entry) }
    ensures indexed { IfOk result (λ more. Indexed index.new more.blocks) }
    ensures few { IfOk result (λ more. length more.blocks < 2 ^ 32) }
{
    if text.as_str().len() > 65_536 {
        return Err(Cant::Why(SpecFault::Limit {
            at,
            what: SpecLimit::Block,
        }));
    }
    let sessions = noted.sessions.len();
    let number = noted.blocks.len();
    if sessions > u32::MAX as usize || number >= u32::MAX as usize {
        return Err(Cant::NoMemory);
    }
    let part = part_of(noted.word, sessions);
    let block = Block {
        part,
        session: sessions as u32,
        name: block_name(alloc, part, &noted.name)?,
        text: text.to_txt(alloc)?,
    };
    keep(alloc, index, &block, number as u32)?;
    let mut noted = noted;
    noted.blocks.push(block)?;
    Ok(noted)
}

fn note_one<'a>(
    alloc: Global,
    noted: Noted<'a>,
    index: &mut Index,
    token: &'a Token<'a>,
) -> Result<Noted<'a>, Cant<SpecFault>>
    requires indexed { Indexed index.old noted.blocks }
    requires few { length noted.blocks < 2 ^ 32 }
    ensures gives { GivesUnlessNoMemory result (note noted.entry token.now) }
    ensures indexed { IfOk result (λ more. Indexed index.new more.blocks) }
    ensures few { IfOk result (λ more. length more.blocks < 2 ^ 32) }
{
    match &token.lexeme {
        Lexeme::Word(word) => noted_word(alloc, noted, index, *word, token.start),
        Lexeme::Name(name) => noted_name(alloc, noted, index, name, token.start),
        Lexeme::Block(text) => noted_block(alloc, noted, index, text, token.start),
        Lexeme::OpenName | Lexeme::OpenBlock | Lexeme::Unclosed | Lexeme::Paren | Lexeme::Stray =>
            Ok(noted),
    }
}

/// What tokens say, or the fault of the first that breaks a rule beside the grammar.
pub fn note_all<'a>(alloc: Global, tokens: &'a [Token<'a>]) -> Result<Noted<'a>, Cant<SpecFault>>
    ensures gives { GivesUnlessNoMemory result (note_all nothing_noted tokens.now) }
    ensures few { IfOk result (λ noted. length noted.blocks < 2 ^ 32) }
{
    let mut noted = Noted {
        word: None,
        at: 0,
        name: Lent::lent(""),
        sessions: ListOf::new(alloc),
        blocks: ListOf::new(alloc),
        permutations: ListOf::new(alloc),
        current: None,
        work: 0,
    };
    let mut index = Index {
        numbers: HashMap::new(alloc),
        works: Vec::new(alloc),
        base: 0,
    };
    for token in tokens {
        noted = note_one(alloc, noted, &mut index, token)?;
    }
    Ok(noted)
}

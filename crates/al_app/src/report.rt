ghost use Rattle.std.specs.Prelude.{◌≡◌, ◌≤◌, ◌++◌, length, flat_map, IfOk, OnOk, string_bytes};
ghost use Rattle.std.specs.List.{count_by};
ghost use Rattle.al_app.specs.Report.{report, run_text, journal_text, title_text, setup_text, permutation_text, names_text, step_name, is_step, gives_step, giving_end, blocked_text, rest_text, not_given_text, text_at};

mod blocks;
mod causes;
mod names;
mod replies;

use crate::report::blocks::{push_entries, push_session_name, push_step};
use crate::report::names::push_name;
use al_history::{Block, Entry, Part, Run, RunList, Setup, Spec};
use al_values::{Name, NoMemory, Txt};
use std::alloc::Global;

/// The report of the runs of a spec file. The only error is that no memory was to be had.
#[tactic(auto, unfolding(crate::specs::Report::report))]
pub fn print(alloc: Global, spec: &Spec, runs: &RunList) -> Result<Txt, NoMemory>
    ensures { IfOk result (λ text. text ≡ report spec.now runs.now) }
{
    let mut text = String::new(alloc);
    let sessions = spec.sessions.len();
    write!(text, "Parsed test spec with {sessions} sessions\n")?;
    push_runs(&mut text, spec, runs.as_slice())?;
    Ok(Txt::from_string(text))
}

fn is_step(part: Part) -> bool
    ensures { result ≡ is_step part }
{
    match part {
        Part::Step => true,
        Part::Setup | Part::SessionSetup | Part::SessionTeardown | Part::Teardown => false,
    }
}

fn gives_step(blocks: &[Block], entry: &Entry) -> bool
    ensures { result ≡ gives_step blocks.now entry.now }
{
    match entry {
        Entry::Give { block, .. } => match blocks.get(*block as usize) {
            Some(given) => is_step(given.part),
            None => false,
        },
        _ => false,
    }
}

fn steps_given(blocks: &[Block], journal: &[Entry]) -> usize
    ensures { result ≡ count_by (gives_step blocks.now) journal.now }
{
    let mut count: usize = 0;
    for entry in journal {
        if gives_step(blocks, entry) {
            count += 1;
        }
    }
    count
}

fn giving_end(journal: &[Entry]) -> usize
    ensures end { result ≡ giving_end journal.now }
    ensures within { result ≤ length journal.now }
{
    for (place, entry) in journal.iter().enumerate() {
        match entry {
            Entry::Cancel { .. } | Entry::Close { .. } => return place,
            _ => {}
        }
    }
    journal.len()
}

fn push_blocked(text: &mut String, sessions: &[Name], block: &Block) -> Result<(), NoMemory>
    ensures ok { OnOk result
        (string_bytes text.new ≡ string_bytes text.old ++ blocked_text sessions.now block.now) }
{
    push_step(text, block)?;
    text.push_str(": not given, session ")?;
    push_session_name(text, sessions, block.session)?;
    text.push_str(" is blocked\n")?;
    Ok(())
}

fn push_blocked_step(
    text: &mut String,
    sessions: &[Name],
    blocks: &[Block],
    step: u32,
) -> Result<(), NoMemory>
    ensures ok { OnOk result
        (string_bytes text.new ≡ string_bytes text.old ++ text_at (blocked_text sessions.now) blocks.now step) }
{
    if let Some(block) = blocks.get(step as usize) {
        push_blocked(text, sessions, block)?;
    }
    Ok(())
}

fn push_rest(
    text: &mut String,
    spec: &Spec,
    journal: &[Entry],
    steps: &[u32],
) -> Result<(), NoMemory>
    ensures ok { OnOk result
        (string_bytes text.new ≡ string_bytes text.old ++ rest_text spec.now journal.now steps.now) }
{
    let count = steps_given(spec.blocks.as_slice(), journal);
    if let Some(step) = steps.get(count) {
        push_blocked_step(
            text,
            spec.sessions.as_slice(),
            spec.blocks.as_slice(),
            *step,
        )?;
    }
    Ok(())
}

fn push_not_given(
    text: &mut String,
    spec: &Spec,
    number: u32,
    setup: Setup,
    journal: &[Entry],
) -> Result<(), NoMemory>
    ensures ok { OnOk result
        (string_bytes text.new ≡ string_bytes text.old ++ not_given_text spec.now number setup journal.now) }
{
    match setup {
        Setup::Done => {
            if number == 0 {
                return Ok(());
            }
            if let Some(steps) = spec.permutations.get((number - 1) as usize) {
                push_rest(text, spec, journal, steps.as_slice())?;
            }
            Ok(())
        }
        Setup::Failed { .. } => Ok(()),
    }
}

fn push_journal(
    text: &mut String,
    spec: &Spec,
    number: u32,
    setup: Setup,
    journal: &[Entry],
) -> Result<(), NoMemory>
    ensures ok { OnOk result
        (string_bytes text.new ≡ string_bytes text.old ++ journal_text spec.now number setup journal.now) }
{
    let end = giving_end(journal);
    push_entries(text, spec, journal, 0, end)?;
    push_not_given(text, spec, number, setup, journal)?;
    push_entries(text, spec, journal, end, journal.len())?;
    Ok(())
}

fn push_step_name(text: &mut String, blocks: &[Block], step: u32) -> Result<(), NoMemory>
    ensures ok { OnOk result
        (string_bytes text.new ≡ string_bytes text.old ++ step_name blocks.now step) }
{
    if let Some(block) = blocks.get(step as usize) {
        push_name(text, &block.name)?;
    }
    Ok(())
}

fn push_step_names(text: &mut String, blocks: &[Block], steps: &[u32]) -> Result<(), NoMemory>
    ensures ok { OnOk result
        (string_bytes text.new ≡ string_bytes text.old ++ names_text blocks.now steps.now) }
{
    let Some((first, others)) = steps.split_first() else {
        return Ok(());
    };
    push_step_name(text, blocks, *first)?;
    for step in others {
        text.push_str(" ")?;
        push_step_name(text, blocks, *step)?;
    }
    Ok(())
}

fn push_permutation(text: &mut String, spec: &Spec, number: u32) -> Result<(), NoMemory>
    ensures ok { OnOk result
        (string_bytes text.new ≡ string_bytes text.old ++ permutation_text spec.now number) }
{
    if number == 0 {
        return Ok(());
    }
    if let Some(steps) = spec.permutations.get((number - 1) as usize) {
        push_step_names(text, spec.blocks.as_slice(), steps.as_slice())?;
    }
    Ok(())
}

fn push_setup(text: &mut String, setup: Setup) -> Result<(), NoMemory>
    ensures ok { OnOk result (string_bytes text.new ≡ string_bytes text.old ++ setup_text setup) }
{
    match setup {
        Setup::Done => {}
        Setup::Failed { .. } => text.push_str("setup failed\n")?,
    }
    Ok(())
}

fn push_title(text: &mut String, spec: &Spec, number: u32) -> Result<(), NoMemory>
    ensures ok { OnOk result
        (string_bytes text.new ≡ string_bytes text.old ++ title_text spec.now number) }
{
    text.push_str("\nstarting permutation: ")?;
    push_permutation(text, spec, number)?;
    text.push_str("\n")?;
    Ok(())
}

fn push_run(text: &mut String, spec: &Spec, run: &Run) -> Result<(), NoMemory>
    ensures ok { OnOk result
        (string_bytes text.new ≡ string_bytes text.old ++ run_text spec.now run.now) }
{
    push_title(text, spec, run.permutation)?;
    push_journal(
        text,
        spec,
        run.permutation,
        run.setup,
        run.history.entries(),
    )?;
    push_setup(text, run.setup)?;
    Ok(())
}

fn push_runs(text: &mut String, spec: &Spec, runs: &[Run]) -> Result<(), NoMemory>
    ensures ok { OnOk result
        (string_bytes text.new ≡ string_bytes text.old ++ flat_map (run_text spec.now) runs.now) }
{
    for run in runs {
        push_run(text, spec, run)?;
    }
    Ok(())
}

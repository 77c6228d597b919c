//! Blocks where they are given, and steps where they end.
ghost use Rattle.std.specs.Prelude.{◌≡◌, ◌≤◌, ◌++◌, length, take, reverse, OnOk, string_bytes};
ghost use Rattle.al_app.specs.Report.{step_text, is_drivers, is_give, is_end, answer_text, replies_text, ends_in_part, waits, given_at, session_name, session_text, head_text, given_text, completed_text, end_text, place_text, entries_text, text_at};

use crate::report::names::push_name;
use crate::report::replies::{push_refusal, push_reply};
use al_history::{Block, Entry, Part, Spec};
use al_values::{Name, NoMemory};

fn is_drivers(entry: &Entry) -> bool
    ensures { result ≡ is_drivers entry.now }
{
    match entry {
        Entry::Give { .. } | Entry::Cancel { .. } | Entry::Close { .. } => true,
        _ => false,
    }
}

fn is_give(session: u32, entry: &Entry) -> bool
    ensures { result ≡ is_give session entry.now }
{
    match entry {
        Entry::Give { session: other, .. } => *other == session,
        _ => false,
    }
}

fn is_end(session: u32, entry: &Entry) -> bool
    ensures { result ≡ is_end session entry.now }
{
    match entry {
        Entry::End { session: other } => *other == session,
        _ => false,
    }
}

fn push_answer(
    text: &mut String,
    journal: &[Entry],
    session: u32,
    entry: &Entry,
) -> Result<(), NoMemory>
    ensures ok { OnOk result
        (string_bytes text.new ≡ string_bytes text.old ++ answer_text journal.now session entry.now) }
{
    match entry {
        Entry::Done {
            session: other,
            reply,
        } => {
            if *other == session {
                push_reply(text, journal, *reply)?;
            }
        }
        Entry::Refuse {
            session: other,
            cause,
        } => {
            if *other == session {
                push_refusal(text, cause)?;
            }
        }
        _ => {}
    }
    Ok(())
}

fn push_replies(
    text: &mut String,
    journal: &[Entry],
    session: u32,
    later: &[Entry],
) -> Result<(), NoMemory>
    ensures ok { OnOk result
        (string_bytes text.new ≡ string_bytes text.old ++ replies_text journal.now session later.now) }
{
    for entry in later {
        if is_end(session, entry) {
            return Ok(());
        }
        push_answer(text, journal, session, entry)?;
    }
    Ok(())
}

fn ends_in_part(session: u32, later: &[Entry]) -> bool
    ensures { result ≡ ends_in_part session later.now }
{
    for entry in later {
        if is_drivers(entry) {
            return false;
        }
        if is_end(session, entry) {
            return true;
        }
    }
    false
}

fn waits(part: Part, session: u32, later: &[Entry]) -> bool
    ensures { result ≡ waits part session later.now }
{
    match part {
        Part::Step => !ends_in_part(session, later),
        Part::Setup | Part::SessionSetup | Part::SessionTeardown | Part::Teardown => false,
    }
}

// The place of the Give of the step that a session has in hand before a place.
fn given_before(journal: &[Entry], session: u32, place: usize) -> Option<usize>
    requires { place ≤ length journal.now }
    ensures { result ≡ given_at (reverse (take place journal.now)) session }
{
    let mut at = place;
    while at > 0 {
        at -= 1;
        let entry = &journal[at];
        if is_give(session, entry) {
            return Some(at);
        }
        if is_end(session, entry) {
            return None;
        }
    }
    None
}

/// How the lines on a step begin.
#[tactic(auto, unfolding(crate::specs::Report::step_text))]
pub fn push_step(text: &mut String, block: &Block) -> Result<(), NoMemory>
    ensures ok { OnOk result (string_bytes text.new ≡ string_bytes text.old ++ step_text block.now) }
{
    text.push_str("step ")?;
    push_name(text, &block.name)?;
    Ok(())
}

/// The name of a session of the file; nothing for the control session.
pub fn push_session_name(text: &mut String, sessions: &[Name], session: u32) -> Result<(), NoMemory>
    ensures ok { OnOk result
        (string_bytes text.new ≡ string_bytes text.old ++ session_name sessions.now session) }
{
    if session == 0 {
        return Ok(());
    }
    if let Some(name) = sessions.get((session - 1) as usize) {
        push_name(text, name)?;
    }
    Ok(())
}

fn push_session(text: &mut String, spec: &Spec, block: &Block) -> Result<(), NoMemory>
    ensures ok { OnOk result
        (string_bytes text.new ≡ string_bytes text.old ++ session_text spec.now block.now) }
{
    text.push_str("session ")?;
    push_session_name(text, spec.sessions.as_slice(), block.session)?;
    Ok(())
}

fn push_head(text: &mut String, spec: &Spec, number: u32, block: &Block) -> Result<(), NoMemory>
    ensures ok { OnOk result
        (string_bytes text.new ≡ string_bytes text.old ++ head_text spec.now number block.now) }
{
    match block.part {
        Part::Setup => {
            let place = u64::from(number) + 1;
            write!(text, "setup {place}")?;
        }
        Part::SessionSetup => {
            push_session(text, spec, block)?;
            text.push_str(" setup")?;
        }
        Part::Step => {
            push_step(text, block)?;
            text.push_str(": ")?;
            text.push_str(block.text.as_str())?;
        }
        Part::SessionTeardown => {
            push_session(text, spec, block)?;
            text.push_str(" teardown")?;
        }
        Part::Teardown => text.push_str("teardown")?,
    }
    Ok(())
}

fn push_given(
    text: &mut String,
    spec: &Spec,
    journal: &[Entry],
    session: u32,
    later: &[Entry],
    number: u32,
    block: &Block,
) -> Result<(), NoMemory>
    ensures ok { OnOk result
        (string_bytes text.new ≡ string_bytes text.old ++ given_text spec.now journal.now session later.now number block.now) }
{
    push_head(text, spec, number, block)?;
    if waits(block.part, session, later) {
        text.push_str(" <waiting ...>\n")?;
    } else {
        text.push_str("\n")?;
        push_replies(text, journal, session, later)?;
    }
    Ok(())
}

fn push_completed(
    text: &mut String,
    journal: &[Entry],
    session: u32,
    later: &[Entry],
    block: &Block,
) -> Result<(), NoMemory>
    ensures ok { OnOk result
        (string_bytes text.new ≡ string_bytes text.old ++ completed_text journal.now session later.now block.now) }
{
    if waits(block.part, session, later) {
        push_step(text, block)?;
        text.push_str(": <... completed>\n")?;
        push_replies(text, journal, session, later)?;
    }
    Ok(())
}

fn push_end(
    text: &mut String,
    blocks: &[Block],
    journal: &[Entry],
    place: usize,
) -> Result<(), NoMemory>
    ensures ok { OnOk result
        (string_bytes text.new ≡ string_bytes text.old ++ text_at (end_text blocks.now journal.now place) journal.now place) }
{
    if let Some(Entry::Give { session, block }) = journal.get(place) {
        if let Some(given) = blocks.get(*block as usize) {
            push_completed(text, journal, *session, &journal[place + 1..], given)?;
        }
    }
    Ok(())
}

fn push_place(
    text: &mut String,
    spec: &Spec,
    journal: &[Entry],
    place: usize,
) -> Result<(), NoMemory>
    ensures ok { OnOk result
        (string_bytes text.new ≡ string_bytes text.old ++ place_text spec.now journal.now place) }
{
    match journal.get(place) {
        Some(Entry::Give { session, block }) => {
            if let Some(given) = spec.blocks.get(*block as usize) {
                push_given(
                    text,
                    spec,
                    journal,
                    *session,
                    &journal[place + 1..],
                    *block,
                    given,
                )?;
            }
        }
        Some(Entry::End { session }) => {
            if let Some(given) = given_before(journal, *session, place) {
                push_end(text, spec.blocks.as_slice(), journal, given)?;
            }
        }
        _ => {}
    }
    Ok(())
}

/// The entries from a place of a journal up to another.
pub fn push_entries(
    text: &mut String,
    spec: &Spec,
    journal: &[Entry],
    from: usize,
    to: usize,
) -> Result<(), NoMemory>
    requires { from ≤ to }
    ensures ok { OnOk result
        (string_bytes text.new ≡ string_bytes text.old ++ entries_text spec.now journal.now from to) }
{
    for place in from..to {
        push_place(text, spec, journal, place)?;
    }
    Ok(())
}

//! The top calls.
ghost use Rattle.std.specs.Prelude.{◌≡◌, [], map, IfOk, string_bytes};
ghost use Rattle.al_outside.specs.Faults.{Rose};
ghost use Rattle.al_outside.specs.Holding.{Grows, GrowsByFront};
ghost use Rattle.al_outside.specs.Reading.{IsReadUpTo};
ghost use Rattle.al_app.specs.declared.status.Status.TheVariants as statuses;
ghost use Rattle.al_app.specs.Answers.{most_bytes, usage_line, bad_word, limit_word, fault_line, failed_first, status_of, IsConcluded, IsTold, IsAnswer, IsReadFor, AreLegal, IsComplete};

use crate::status::{Answer, Status};
use crate::top::{Performed, Stop, failed_first, perform};
use al_history::{RunList, SpecFault, SpecLimit};
use al_outside::{Gate, Sink, Source, write_all};
use al_values::{NoMemory, Word};
use std::alloc::Global;
use std::sync::Wait;
use std::thread::Threads;

const USAGE: &str =
    "usage: alterlive run [--brief] | race [--brief] | plan | load NUMBER [--rows ROWS]\n";

const LONG: &str = "input too long\n";

/// The number of the first word that isn't of the grammar.
fn bad_word(words: &[Word]) -> Option<u32>
    ensures { result ≡ bad_word words.now }
{
    match words {
        [] => Some(0),
        [first] if first.as_str() == "run" => None,
        [first, _, ..] if first.as_str() == "run" => Some(1),
        _ => Some(0),
    }
}

/// Writes a text; the status is the wanted one, or a write fault where the sink fails.
fn conclude<K: Sink>(sink: &mut K, wanted: Status, text: &[u8]) -> Status
    ensures { IsConcluded wanted (Rose (K.faults sink.old) (K.faults sink.new)) (K.held sink.old) (K.held sink.new) text.now result }
{
    match write_all(sink, text) {
        Ok(()) => wanted,
        Err(_) => Status::WriteFault,
    }
}

/// The status of words that are no text.
pub fn refuse_words<K: Sink>(sink: &mut K) -> Status
    ensures { IsConcluded (statuses.Usage 0) (Rose (K.faults sink.old) (K.faults sink.new)) (K.held sink.old) (K.held sink.new) usage_line result }
{
    conclude(sink, Status::Usage { word: 0 }, USAGE.as_bytes())
}
/// The answer to these words.
fn answer_words<S: Source, K: Sink>(
    alloc: Global,
    words: &[Word],
    source: &mut S,
    sink: &mut K,
) -> Answer
    ensures answer { IsAnswer words.now (S.left source.old) (S.left source.new) (Rose (S.faults source.old) (S.faults source.new)) (Rose (K.faults sink.old) (K.faults sink.new)) (K.held sink.old) (K.held sink.new) result.runs result.status }
    ensures read { IsReadFor (S.left source.old) (S.left source.new) result.status }
    ensures up_to { IsReadUpTo most_bytes (S.left source.old) (S.left source.new) }
    ensures legal { AreLegal result.runs }
{
    if let Some(word) = bad_word(words) {
        let status = conclude(sink, Status::Usage { word }, USAGE.as_bytes());
        return without_runs(alloc, status);
    }
    match perform(alloc, source) {
        Ok(performed) => report_runs(sink, performed),
        Err(Stop::Spec(fault)) => report_fault(alloc, sink, fault),
        Err(Stop::TooLong) => {
            let status = conclude(sink, Status::TooLong, LONG.as_bytes());
            without_runs(alloc, status)
        }
        Err(Stop::Fault) => without_runs(alloc, Status::ReadFault),
        Err(Stop::NoMemory) => without_runs(alloc, Status::NoMemory),
    }
}
/// `alterlive` in a process that starts no thread: the words `race` and its options are none of its grammar.
///
/// It always returns. The status says how the call ended, and the sink's new bytes are the report for `Done` and
/// `SetupFailed`, one line for `Usage`, `SpecFault` and `TooLong`, a front of what would have been written for `WriteFault`, and
/// nothing for `ReadFault` and `NoMemory`.
pub fn answer_alone<S: Source, K: Sink>(
    alloc: Global,
    words: &[Word],
    source: &mut S,
    sink: &mut K,
) -> Answer
    // The status, the runs and what was written belong together.
    ensures answer { IsAnswer words.now (S.left source.old) (S.left source.new) (Rose (S.faults source.old) (S.faults source.new)) (Rose (K.faults sink.old) (K.faults sink.new)) (K.held sink.old) (K.held sink.new) result.runs result.status }
    // Where the input was read.
    ensures read { IsReadFor (S.left source.old) (S.left source.new) result.status }
    // Past the most bytes of a spec file no more than one buffer is read.
    ensures up_to { IsReadUpTo most_bytes (S.left source.old) (S.left source.new) }
    // Each journal is a legal history of a whole run, for every status.
    ensures legal { AreLegal result.runs }
    // Which status the bytes decide.
    ensures complete { IsComplete words.now (S.left source.old) (Rose (S.faults source.old) (S.faults source.new)) (Rose (K.faults sink.old) (K.faults sink.new)) result.status }
{
    answer_words(alloc, words, source, sink)
}
/// `alterlive`: every command, with threads where a command starts some. So far none does.
pub fn answer<R: Threads + Wait + Sync, S: Source, K: Sink, G: Gate + Sync>(
    rt: &R,
    alloc: Global,
    words: &[Word],
    source: &mut S,
    sink: &mut K,
    gate: &G,
) -> Answer
    ensures answer { IsAnswer words.now (S.left source.old) (S.left source.new) (Rose (S.faults source.old) (S.faults source.new)) (Rose (K.faults sink.old) (K.faults sink.new)) (K.held sink.old) (K.held sink.new) result.runs result.status }
    ensures read { IsReadFor (S.left source.old) (S.left source.new) result.status }
    ensures up_to { IsReadUpTo most_bytes (S.left source.old) (S.left source.new) }
    ensures legal { AreLegal result.runs }
    ensures complete { IsComplete words.now (S.left source.old) (Rose (S.faults source.old) (S.faults source.new)) (Rose (K.faults sink.old) (K.faults sink.new)) result.status }
{
    let _ = rt;
    let _ = gate;
    answer_alone(alloc, words, source, sink)
}

fn without_runs(alloc: Global, status: Status) -> Answer
    ensures { result ≡ record { status = status; runs = [] } }
{
    Answer {
        status,
        runs: RunList::new(alloc),
    }
}

fn limit_word(what: SpecLimit) -> &'static str
    ensures { result.now ≡ limit_word what }
{
    match what {
        SpecLimit::Sessions => "sessions",
        SpecLimit::Permutations => "permutations",
        SpecLimit::Block => "block",
        SpecLimit::Steps => "steps",
        SpecLimit::Work => "work",
    }
}
/// The line that tells a fault of a spec file.
fn line_of(alloc: Global, fault: SpecFault) -> Result<String, NoMemory>
    ensures { IfOk result (λ line. string_bytes line ≡ fault_line fault) }
{
    let mut line = String::new(alloc);
    match fault {
        SpecFault::Utf8 { at } => write!(line, "spec fault at byte {at}: utf8\n")?,
        SpecFault::Syntax { at } => write!(line, "spec fault at byte {at}: syntax\n")?,
        SpecFault::Marker { at } => write!(line, "spec fault at byte {at}: marker\n")?,
        SpecFault::TwoSteps { at } => write!(line, "spec fault at byte {at}: two steps\n")?,
        SpecFault::NoStep { at } => write!(line, "spec fault at byte {at}: no step\n")?,
        SpecFault::Limit { at, what } => {
            write!(
                line,
                "spec fault at byte {at}: limit of {}\n",
                limit_word(what)
            )?;
        }
        SpecFault::NoPermutation => line.push_str("spec fault: no permutation\n")?,
    }
    Ok(line)
}
/// Tells a fault of a spec file.
fn report_fault<K: Sink>(alloc: Global, sink: &mut K, fault: SpecFault) -> Answer
    ensures runs { result.runs ≡ [] }
    ensures status { IsTold fault (Rose (K.faults sink.old) (K.faults sink.new)) (K.held sink.old) (K.held sink.new) result.status }
{
    match line_of(alloc, fault) {
        Ok(line) => {
            let status = conclude(sink, Status::SpecFault(fault), line.as_bytes());
            without_runs(alloc, status)
        }
        Err(NoMemory) => without_runs(alloc, Status::NoMemory),
    }
}
/// Writes the report of runs.
fn report_runs<K: Sink>(sink: &mut K, performed: Performed) -> Answer
    ensures runs { result.runs ≡ performed.runs }
    ensures status { IsConcluded (status_of (failed_first performed.runs)) (Rose (K.faults sink.old) (K.faults sink.new)) (K.held sink.old) (K.held sink.new) performed.text result.status }
{
    let Performed { runs, text } = performed;
    let wanted = match failed_first(runs.as_slice()) {
        None => Status::Done,
        Some(run) => Status::SetupFailed { run },
    };
    let status = conclude(sink, wanted, text.as_bytes());
    Answer { status, runs }
}

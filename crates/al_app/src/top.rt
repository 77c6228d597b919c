//! From the bytes of a spec file to its runs and its report.
ghost use Rattle.al_spec.specs.declared.spec.SpecFault.{SpecFault};
ghost use Rattle.std.specs.Prelude.{◌≡◌, ◌<◌, ◌≤◌, [], Some, length, IfOk, IfErr, OnOk, OnErr};
ghost use Rattle.std.specs.Io.KnownBytes.{IsAtEnd};
ghost use Rattle.al_history.specs.Whole.{AreRuns};
ghost use Rattle.al_outside.specs.Faults.{Rose};
ghost use Rattle.al_outside.specs.Reading.{IsReadUpTo};
ghost use Rattle.al_spec.specs.Files.{IsFault};
ghost use Rattle.al_spec.specs.Sound.{IsSound};
ghost use Rattle.al_app.specs.Answers.{most_bytes, IsRunnableFile, HasRun, failed_first};
ghost use Rattle.al_app.specs.Runs.{terms_for, IsRunnable};
ghost use Rattle.al_app.specs.Top.{StopsFor, IsFaultOf};

use crate::report::print;
use crate::runs::run_permutation;
use crate::scripts::read_scripts;
use al_history::{Run, RunList, Scripts, Setup, Spec, SpecFault};
use al_outside::{NotRead, Source, read_all};
use al_spec::read_spec;
use al_values::{Cant, ListOf, NoMemory, Txt, count_of};
use std::alloc::Global;

/// The most bytes that a spec file has.
const MOST_BYTES: usize = 4_194_304;

/// The runs of a spec file and their report.
#[derive(Debug, Drop)]
pub struct Performed {
    pub runs: RunList,
    pub text: Txt,
}

/// Why a spec file was not run.
#[derive(Clone, Copy, Debug)]
pub enum Stop {
    Spec(SpecFault),
    TooLong,
    Fault,
    NoMemory,
}

/// One run for each permutation. The blocks go from run to run.
fn run_all(alloc: Global, spec: &Spec, scripts: Scripts) -> Result<RunList, NoMemory>
    requires { IsRunnable spec.now scripts }
    ensures { IfOk result (λ runs. AreRuns spec.now (terms_for spec.now scripts) runs) }
{
    let mut scripts = scripts;
    let mut runs = ListOf::new(alloc);
    for (place, steps) in spec.permutations.as_slice().iter().enumerate() {
        let number = count_of(place + 1)?;
        let (run, back) = run_permutation(alloc, spec, scripts, number, steps.as_slice())?;
        scripts = back;
        runs.push(run)?;
    }
    Ok(runs)
}

/// A spec file with a permutation.
fn read_runnable(alloc: Global, bytes: &[u8]) -> Result<Spec, Cant<SpecFault>>
    requires { length bytes.now ≤ most_bytes }
    ensures ok { IfOk result (λ spec. IsRunnableFile bytes.now spec) }
    ensures sound { IfOk result (λ spec. IsSound spec) }
    ensures no_fault { OnOk result ((fault : SpecFault) → IsFault bytes.now fault → ⊥) }
    ensures fault { IfErr result (IsFaultOf bytes.now) }
{
    let spec = match read_spec(alloc, bytes) {
        Ok(spec) => spec,
        Err(cause) => return Err(cause),
    };
    if spec.permutations.is_empty() {
        return Err(Cant::Why(SpecFault::NoPermutation));
    }
    Ok(spec)
}

/// Runs what bytes spell.
fn perform_bytes(alloc: Global, bytes: &[u8]) -> Result<Performed, Cant<SpecFault>>
    requires { length bytes.now ≤ most_bytes }
    ensures ok { IfOk result (λ done. HasRun (Some bytes.now) done.runs done.text) }
    ensures fault { IfErr result (IsFaultOf bytes.now) }
{
    let spec = match read_runnable(alloc, bytes) {
        Ok(spec) => spec,
        Err(cause) => return Err(cause),
    };
    let scripts = read_scripts(alloc, &spec)?;
    let runs = run_all(alloc, &spec, scripts)?;
    let text = print(alloc, &spec, &runs)?;
    Ok(Performed { runs, text })
}

/// Reads a source to its end and runs what it holds. Past the most bytes of a spec file it reads no more than one buffer.
pub fn perform<S: Source>(alloc: Global, source: &mut S) -> Result<Performed, Stop>
    ensures ok { IfOk result (λ done. HasRun (S.left source.old) done.runs done.text) }
    ensures end { OnOk result (IsAtEnd (S.left source.new)) }
    ensures stop { IfErr result (StopsFor (S.left source.old) (S.left source.new) (Rose (S.faults source.old) (S.faults source.new))) }
    ensures up_to { IsReadUpTo most_bytes (S.left source.old) (S.left source.new) }
{
    let bytes = match read_all(alloc, MOST_BYTES, source) {
        Ok(bytes) => bytes,
        Err(NotRead::Fault) => return Err(Stop::Fault),
        Err(NotRead::NoMemory) => return Err(Stop::NoMemory),
        Err(NotRead::TooLong) => return Err(Stop::TooLong),
    };
    match perform_bytes(alloc, &bytes) {
        Ok(performed) => Ok(performed),
        Err(Cant::Why(fault)) => Err(Stop::Spec(fault)),
        Err(Cant::NoMemory) => Err(Stop::NoMemory),
    }
}

/// The number of the first run with a failed setup part.
pub fn failed_first(runs: &[Run]) -> Option<u32>
    ensures { result ≡ failed_first runs.now }
{
    for run in runs {
        if let Setup::Failed { .. } = run.setup {
            return Some(run.permutation);
        }
    }
    None
}

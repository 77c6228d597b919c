//! `alterlive`: reads a spec file from standard input, writes its report to standard output, and ends with the number of
//! the status.
#![tactic(auto)]

use al_app::{exit_number, words_of};
use al_outside::{OpenGate, StdSink, StdSource};
use std::process::ExitCode;
use std::{env, io};

fn main(rt: HostRuntime) -> ExitCode {
    let alloc = rt.alloc();
    let words = words_of(alloc, env::args(&rt));
    let mut source = StdSource::new(rt.reader());
    let mut sink = StdSink::new(io::writer(&rt));
    ExitCode::from(exit_number(&rt, alloc, &words, &mut source, &mut sink, &OpenGate))
}

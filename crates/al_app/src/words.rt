//! The words that the program is given, and the number that it ends with.
ghost use Rattle.std.specs.Prelude.{OnErr};
ghost use Rattle.al_outside.specs.Faults.{Rose};
ghost use Rattle.al_app.specs.Words.{IsUnknown, IsExit};

use crate::answers::{answer, refuse_words};
use crate::status::Status;
use al_outside::{Gate, Sink, Source};
use al_values::{ListOf, NoMemory, Txt, Word};
use std::alloc::Global;
use std::env::Args;
use std::io;
use std::io::ErrorKind;
use std::sync::Wait;
use std::thread::Threads;
/// The words of a command line, without the program's name.
#[derive(Debug, Drop)]
pub enum Words {
    /// These.
    Known(ListOf<Word>),
    /// One of them isn't UTF-8.
    NotText,
    /// No memory was to be had for them.
    NoMemory,
}

fn known(alloc: Global, args: Args) -> Result<ListOf<Word>, NoMemory> {
    let mut words = ListOf::new(alloc);
    for word in args.skip(1) {
        words.push(Txt::from_string(word))?;
    }
    Ok(words)
}
/// The words among a program's arguments. Arguments that couldn't be had give no words.
pub fn words_of(alloc: Global, args: io::Result<Args>) -> Words
    ensures unknown { OnErr args (IsUnknown result) }
{
    match args {
        Ok(args) => match known(alloc, args) {
            Ok(words) => Words::Known(words),
            Err(NoMemory) => Words::NoMemory,
        },
        Err(error) => {
            if error.kind() == ErrorKind::OutOfMemory {
                return Words::NoMemory;
            }
            Words::NotText
        }
    }
}
/// Does what the words say, and gives the number with which the program ends: that of the answer's status.
pub fn exit_number<R: Threads + Wait + Sync, S: Source, K: Sink, G: Gate + Sync>(
    rt: &R,
    alloc: Global,
    words: &Words,
    source: &mut S,
    sink: &mut K,
    gate: &G,
) -> u8
    ensures exit { IsExit words.now (S.left source.old) (S.left source.new) (Rose (S.faults source.old) (S.faults source.new)) (Rose (K.faults sink.old) (K.faults sink.new)) (K.held sink.old) (K.held sink.new) result }
{
    match words {
        Words::Known(words) => answer(rt, alloc, words.as_slice(), source, sink, gate)
            .status
            .number(),
        Words::NotText => refuse_words(sink).number(),
        Words::NoMemory => Status::NoMemory.number(),
    }
}

ghost use Rattle.std.specs.Prelude.{◌≡◌};
ghost use Rattle.al_outside.specs.Holding.{held_by};

use crate::{Failed, Sink, Source};
use std::io::{Read, Write};
use std::marker::Model;

/// A reader of std as a source. Each of its errors counts as a fault.
#[derive(Drop)]
pub struct StdSource<R: Read> {
    reader: R,
    faults: u64,
}

impl<R: Read> Model for StdSource<R> {
    ghost use Rattle.al_outside.specs.Adapted.{ReaderState};

    ghost Value = { ReaderState };

    ghost view = { λ it. record { left = R.remaining it.reader; faults = it.faults } };
}

impl<R: Read> StdSource<R> {
    /// A source of what the reader gives, with no fault yet.
    pub fn new(reader: R) -> StdSource<R>
        ensures left { result.left ≡ R.remaining reader }
        ensures faults { result.faults ≡ 0 }
    {
        StdSource { reader, faults: 0 }
    }

    /// How many faults were counted; the count stays at its last value.
    pub fn faults(&self) -> u64
        ensures { result ≡ self.now.faults }
    {
        self.faults
    }

    /// The reader.
    pub fn into_reader(self) -> R
        ensures { R.remaining result ≡ self.left }
    {
        let StdSource { reader, .. } = self;
        reader
    }
}

impl<R: Read> Source for StdSource<R> {
    ghost left = { λ it. it.left };

    ghost faults = { λ it. it.faults };

    fn read(&mut self, into: &mut [u8]) -> Result<usize, Failed> {
        match self.reader.read(into) {
            Ok(count) => Ok(count),
            Err(_) => {
                self.faults = self.faults.saturating_add(1);
                Err(Failed)
            }
        }
    }
}

/// A writer of std as a sink. Each of its errors counts as a fault, and so does a write that takes no byte of a piece
/// that isn't empty.
#[derive(Drop)]
pub struct StdSink<W: Write> {
    writer: W,
    faults: u64,
}

impl<W: Write> Model for StdSink<W> {
    ghost use Rattle.al_outside.specs.Adapted.{WriterState};
    ghost use Rattle.al_outside.specs.Holding.{held_by};

    ghost Value = { WriterState };

    ghost view = { λ it. record { held = held_by (W.contents it.writer); faults = it.faults } };
}

impl<W: Write> StdSink<W> {
    /// A sink that gives what it takes to the writer, with no fault yet.
    pub fn new(writer: W) -> StdSink<W>
        ensures held { result.held ≡ held_by (W.contents writer) }
        ensures faults { result.faults ≡ 0 }
    {
        StdSink { writer, faults: 0 }
    }

    /// How many faults were counted; the count stays at its last value.
    pub fn faults(&self) -> u64
        ensures { result ≡ self.now.faults }
    {
        self.faults
    }

    /// The writer.
    pub fn into_writer(self) -> W
        ensures { held_by (W.contents result) ≡ self.held }
    {
        let StdSink { writer, .. } = self;
        writer
    }
}

impl<W: Write> Sink for StdSink<W> {
    ghost held = { λ it. it.held };

    ghost faults = { λ it. it.faults };

    fn write(&mut self, piece: &[u8]) -> Result<usize, Failed> {
        match self.writer.write(piece) {
            Ok(count) if count > 0 || piece.is_empty() => Ok(count),
            _ => {
                self.faults = self.faults.saturating_add(1);
                Err(Failed)
            }
        }
    }
}

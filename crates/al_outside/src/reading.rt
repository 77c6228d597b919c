ghost use Rattle.std.specs.Prelude.{◌≡◌, ◌≤◌, ◌<◌, length, IfOk, OnOk, IfErr, OnErr, IfSome};
ghost use Rattle.std.specs.Io.KnownBytes.{Consumes, IsAtEnd};
ghost use Rattle.al_outside.specs.Reading.{NotReadFor, read_size, IsReadUpTo};

use crate::{Failed, Source};
use std::alloc::{AllocError, Global};

/// Why a source was not read whole.
#[derive(Clone, Copy, Debug, PartialEq, Eq)]
pub enum NotRead {
    /// It has more bytes than the limit allows.
    TooLong,
    /// It failed.
    Fault,
    /// No memory was to be had.
    NoMemory,
}

impl From<AllocError> for NotRead {
    ghost use Rattle.std.specs.Prelude.{◌≡◌};
    ghost use Rattle.al_outside.specs.declared.reading.NotRead.TheVariants as causes;

    ghost from_gives = { λ _ why. why ≡ causes.NoMemory };

    fn from(_error: AllocError) -> NotRead {
        NotRead::NoMemory
    }
}

impl From<Failed> for NotRead {
    ghost use Rattle.std.specs.Prelude.{◌≡◌};
    ghost use Rattle.al_outside.specs.declared.reading.NotRead.TheVariants as causes;

    ghost from_gives = { λ _ why. why ≡ causes.Fault };

    fn from(_error: Failed) -> NotRead {
        NotRead::Fault
    }
}

// How many bytes one call reads at most.
const READ_SIZE: usize = 8192;

/// All the bytes that a source has left, where they are no more than `limit`. It may read past the limit, by one
/// buffer at most.
///
/// # Errors
///
/// `TooLong` where more bytes were read, `Fault` where the source failed, and `NoMemory`.
pub fn read_all<S: Source>(alloc: Global, limit: usize, source: &mut S) -> Result<Vec<u8>, NotRead>
    ensures all { IfOk result (λ text. IfSome (S.left source.old) (λ input. text.items ≡ input)) }
    ensures end { OnOk result (IsAtEnd (S.left source.new)) }
    ensures within { IfOk result (λ text. length text.items ≤ limit) }
    ensures consumed { IfOk result (λ text. Consumes (S.left source.old) (S.left source.new) text.items) }
    ensures faults { OnOk result (S.faults source.new ≡ S.faults source.old) }
    ensures cause { IfErr result (NotReadFor limit (S.left source.old) (S.left source.new) (S.faults source.old) (S.faults source.new)) }
    ensures up_to { IsReadUpTo limit (S.left source.old) (S.left source.new) }
{
    let mut buffer = vec![in alloc; 0; READ_SIZE]?;
    read_by(alloc, limit, source, buffer.as_mut_slice())
}

// The same by pieces of a buffer.
fn read_by<S: Source>(
    alloc: Global,
    limit: usize,
    source: &mut S,
    buffer: &mut [u8],
) -> Result<Vec<u8>, NotRead>
    requires some { 0 < length buffer.old }
    requires small { length buffer.old ≤ read_size }
    ensures all { IfOk result (λ text. IfSome (S.left source.old) (λ input. text.items ≡ input)) }
    ensures end { OnOk result (IsAtEnd (S.left source.new)) }
    ensures within { IfOk result (λ text. length text.items ≤ limit) }
    ensures consumed { IfOk result (λ text. Consumes (S.left source.old) (S.left source.new) text.items) }
    ensures faults { OnOk result (S.faults source.new ≡ S.faults source.old) }
    ensures cause { IfErr result (NotReadFor limit (S.left source.old) (S.left source.new) (S.faults source.old) (S.faults source.new)) }
    ensures up_to { IsReadUpTo limit (S.left source.old) (S.left source.new) }
{
    let mut text = Vec::new(alloc);
    'reads: loop {
        let count = source.read(buffer)?;
        if count == 0 {
            return Ok(text);
        }
        if count > limit - text.len() {
            return Err(NotRead::TooLong);
        }
        text.extend_from_slice(&buffer[..count])?;
    }
}

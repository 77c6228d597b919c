ghost use Rattle.std.specs.Prelude.{◌≡◌, ◌^◌, ◌≤◌, IfOk, OnErr};

use crate::NoMemory;

/// A length as a number of the journal, which has 32 bits. A list that is longer than any journal counts as want of memory. It
/// takes none itself.
pub fn count_of(length: usize) -> Result<u32, NoMemory>
    ensures ok { IfOk result (λ count. count ≡ length) }
    ensures err { OnErr result (2 ^ 32 ≤ length) }
{
    match u32::try_from(length) {
        Ok(count) => Ok(count),
        Err(_) => Err(NoMemory),
    }
}

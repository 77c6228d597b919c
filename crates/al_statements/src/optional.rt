ghost use Rattle.std.specs.Prelude.{◌≡◌, IfOk};

use al_values::{Copied, NoMemory};
use std::alloc::Global;

/// A copy of what may be left out.
pub fn copy_of_optional<T: Copied>(
    alloc: Global,
    optional: &Option<T>,
) -> Result<Option<T>, NoMemory>
    ensures { IfOk result (λ copy. copy ≡ optional.now) }
{
    match optional {
        None => Ok(None),
        Some(item) => Ok(Some(item.copied(alloc)?)),
    }
}

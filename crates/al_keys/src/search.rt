ghost use Rattle.std.specs.Prelude.{◌≡◌, length};
ghost use Rattle.al_keys.specs.Keys.{standing};
ghost use Rattle.al_keys.specs.Kept.{IsSorted, IsPlaceOf};

use crate::order::key_order;
use crate::verdict::is_standing;
use crate::{Entry, KeyVersion};
use al_values::Value;
use al_xacts::Xacts;
use std::cmp::Ordering;

/// The place of a row's newest version whose maker wasn't rolled back.
pub fn last_standing(versions: &[KeyVersion], row: u32, xacts: &Xacts) -> Option<usize>
    ensures { result ≡ standing xacts.now.transactions versions.now row }
{
    let mut end = versions.len();
    while end > 0 {
        end -= 1;
        if is_standing(&versions[end], row, xacts) {
            return Some(end);
        }
    }
    None
}

/// The place of a key, or the place where it would stand, by bisection.
pub fn find(entries: &[Entry], key: &[Value]) -> Result<usize, usize>
    requires { IsSorted entries.now }
    ensures { IsPlaceOf entries.now key.now result }
{
    let mut low = 0;
    let mut high = entries.len();
    while low < high {
        let middle = low + (high - low) / 2;
        match key_order(entries[middle].key.as_slice(), key) {
            Ordering::Less => low = middle + 1,
            Ordering::Greater => high = middle,
            Ordering::Equal => return Ok(middle),
        }
    }
    Err(low)
}

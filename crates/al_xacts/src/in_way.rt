ghost use Rattle.std.specs.Prelude.{◌≡◌, fold, None};
ghost use Rattle.std.specs.List.{list_any};
ghost use Rattle.al_xacts.specs.Marks.{stops, covers};
ghost use Rattle.al_xacts.specs.Least.{lesser};

use crate::Mark;
use al_modes::{RowMode, row_conflicts};

/// Whether a mark stops a transaction's request for a mode.
pub fn is_stop(x: u32, mode: RowMode, mark: Mark) -> bool
    ensures { result ≡ stops x mode mark }
{
    mark.xact != x && row_conflicts(mark.mode, mode)
}

/// The lesser of one found so far and a mark's transaction, where the mark stops the request.
fn lesser(x: u32, mode: RowMode, found: Option<u32>, mark: Mark) -> Option<u32>
    ensures { result ≡ lesser x mode found mark }
{
    if !is_stop(x, mode, mark) {
        return found;
    }
    match found {
        Some(other) => Some(mark.xact.min(other)),
        None => Some(mark.xact),
    }
}

/// The least transaction whose mark among these stops a request.
pub fn least_in_way(x: u32, mode: RowMode, marks: &[Mark]) -> Option<u32>
    ensures { result ≡ fold (lesser x mode) None marks.now }
{
    let mut least = None;
    for mark in marks {
        least = lesser(x, mode, least, *mark);
    }
    least
}

/// Whether a mark is at least as strong as a new one of the same transaction.
fn covers(new: Mark, mark: Mark) -> bool
    ensures { result ≡ covers new mark }
{
    mark.xact == new.xact && new.mode <= mark.mode
}

/// Whether one of these marks is at least as strong as a new one of the same transaction.
pub fn any_covers(new: Mark, marks: &[Mark]) -> bool
    ensures { result ≡ list_any (covers new) marks.now }
{
    marks.iter().any(|mark| covers(new, *mark))
}

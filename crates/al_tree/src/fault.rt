ghost use Rattle.std.specs.Prelude.{◌≡◌};
ghost use Rattle.al_tree.specs.Links.{fault_of};

/// Why a table can't become a parent of another.
#[derive(Clone, Copy, Debug, PartialEq, Eq)]
pub enum LinkFault {
    /// It is that table itself, or descends from it.
    Circle,
    /// It is a parent of it already.
    Twice,
}

/// Why a link is refused, by whether it would close a circle and whether it is there.
pub(crate) fn fault_of(closes: bool, there: bool) -> Option<LinkFault>
    ensures { result ≡ fault_of closes there }
{
    if closes {
        Some(LinkFault::Circle)
    } else if there {
        Some(LinkFault::Twice)
    } else {
        None
    }
}

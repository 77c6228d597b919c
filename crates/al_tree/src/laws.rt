ghost use Rattle.std.specs.Prelude.{◌≡◌, ℕ, List};
ghost use Rattle.al_tree.specs.Links.{Inherits, IsFamily};

/// A table has one family alone: what `family` promises leaves one list.
pub fn one_family()
    ensures { (links : List Inherits) (table : ℕ) (one other : List ℕ) → IsFamily links table one → IsFamily links table other → one ≡ other }
{}

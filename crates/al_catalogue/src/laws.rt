ghost use Rattle.std.specs.Prelude.{◌≡◌, ℕ, true};
ghost use Rattle.al_xacts.specs.declared.xact.Fate.TheVariants as fates;
ghost use Rattle.al_catalogue.specs.declared.entry.Kept.{Kept};
ghost use Rattle.al_catalogue.specs.Tables.{seen};
ghost use Rattle.al_catalogue.specs.Changes.{ended, is_mine};

/// After a commit everybody who has no change of a table finds it as its transaction left it.
#[tactic(auto, using(crate::proofs::EndLaws::committed_seen))]
pub fn committed_for_all()
    ensures { (kept : Kept) (x y : ℕ) → is_mine x kept.own ≡ true → seen y (ended x fates.Committed kept) ≡ seen x kept }
{}

/// After an abort everybody finds what was committed before.
#[tactic(auto, using(crate::proofs::EndLaws::aborted_seen))]
pub fn aborted_again()
    ensures { (kept : Kept) (x y : ℕ) → is_mine x kept.own ≡ true → seen y (ended x fates.Aborted kept) ≡ kept.committed }
{}

ghost use Rattle.std.specs.Prelude.{◌≡◌, ℕ, ◌≤◌, List, ◌++◌, Option, Some, true, false, take, slice_get};
ghost use Rattle.al_values.specs.declared.scalar.Value.{Value};
ghost use Rattle.al_xacts.specs.declared.xact.Started.{Started};
ghost use Rattle.al_xacts.specs.Fates.{fate_at, is_aborted, GoesOn};
ghost use Rattle.al_xacts.specs.Snapshots.{Taken, taken, sees};
ghost use Rattle.al_heap.specs.declared.version.Stored.{Stored};
ghost use Rattle.al_heap.specs.Visible.{is_visible};
ghost use Rattle.al_heap.specs.Changes.{can_change, Changes};
ghost use Rattle.al_schema.specs.declared.slot.Slot.{Slot};
ghost use Rattle.al_query.specs.declared.origin.Origin.{Origin};
ghost use Rattle.al_query.specs.Origins.{origins_of, ReadsAs};
ghost use Rattle.al_query.specs.Rows.{with_rows, rows_seen};
ghost use Rattle.al_query.specs.Progress.{Progress, HasRead};
ghost use Rattle.al_query.specs.GoingOn.{GoesOnFor};

/// The columns of a shape give of each stored row what the shape does.
#[tactic(auto, using(crate::proofs::OriginRows::reads_as))]
pub fn rows_are_the_shapes()
    ensures { (slots : List Slot) → ReadsAs (origins_of slots) slots }
{}

/// What is found in two parts of a list of versions, one after the other, is what is found in the list.
#[tactic(auto, using(crate::proofs::Pieces::with_rows_append))]
pub fn pieces_make_the_whole()
    ensures { (origins : List Origin) (snapshot : Taken) (transactions : List Started) (found : List (ℕ × List Value)) (first second : List Stored) → with_rows origins snapshot transactions found (first ++ second) ≡ with_rows origins snapshot transactions (with_rows origins snapshot transactions found first) second }
{}

/// A reading stays right while each version that was there is for its snapshot what it was.
#[tactic(auto, using(crate::proofs::Stays::reading_stays))]
pub fn reading_stays()
    ensures { (reading : Progress) (before after : List Started) (versions later : List Stored) → GoesOnFor reading.snapshot before after versions later → HasRead versions before reading → HasRead later after reading }
{}

/// It is so where versions follow.
#[tactic(auto, using(crate::proofs::Stays::more_follow))]
pub fn puts_change_nothing()
    ensures { (snapshot : Taken) (transactions : List Started) (versions more : List Stored) → GoesOnFor snapshot transactions transactions versions (versions ++ more) }
{}

/// It is so where a transaction that the snapshot doesn't see changes or removes a row, and the snapshot's own wasn't rolled back.
#[tactic(auto, using(crate::proofs::Stays::change_stays))]
pub fn changes_change_nothing()
    ensures { (snapshot : Taken) (transactions : List Started) (before after : List Stored) (row number x : ℕ) (values : Option (List Value)) → sees snapshot transactions x ≡ false → is_aborted (fate_at transactions snapshot.own) ≡ false → can_change transactions before row x ≡ true → Changes transactions before after row number x values → GoesOnFor snapshot transactions transactions before after }
{}

/// It is so where transactions have started and ended since the snapshot was taken.
#[tactic(auto, using(crate::proofs::Stays::transactions_go_on))]
pub fn ends_change_nothing()
    ensures { (start before after : List Started) (own : ℕ) (versions : List Stored) → GoesOn start before → GoesOn start after → GoesOnFor (taken start own) before after versions versions }
{}

/// Where the snapshot sees no version from a place on, the versions before it have all rows of the table.
#[tactic(auto, using(crate::proofs::Unseen::whole_table))]
pub fn the_rest_is_unseen()
    ensures { (origins : List Origin) (snapshot : Taken) (transactions : List Started) (versions : List Stored) (end : ℕ) → ((place : ℕ) (version : Stored) → end ≤ place → slice_get versions place ≡ Some version → is_visible snapshot transactions version ≡ false) → rows_seen origins snapshot transactions (take end versions) ≡ rows_seen origins snapshot transactions versions }
{}

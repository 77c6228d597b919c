ghost use Rattle.std.specs.Prelude.{◌≡◌, ℕ, ◌<◌, ◌≤◌, List, [], ◌∷◌, ◌++◌, false, length};
ghost use Rattle.al_values.specs.declared.scalar.Value.{Value};
ghost use Rattle.al_schema.specs.declared.slot.Slot.{Slot};
ghost use Rattle.al_schema.specs.Slots.{columns_of, row_by, at_slot, as_dropped, with_default};
ghost use Rattle.al_schema.specs.Laws.{dropped_at, columns_before, left_out};

/// A row has one value for each column, whatever slots were dropped or added since it was stored.
#[tactic(auto, using(crate::proofs::RowLaws::one_value_each))]
pub fn each_column_has_a_value()
    ensures { (slots : List Slot) (stored : List Value) → length (row_by slots stored) ≡ length (columns_of slots) }
{}

/// A later default changes no row that is stored already.
#[tactic(auto, using(crate::proofs::RowLaws::later_default))]
pub fn defaults_are_later()
    ensures { (slots : List Slot) (stored : List Value) (at : ℕ) (value : Value) → row_by (at_slot at (with_default value) slots) stored ≡ row_by slots stored }
{}

/// A row that is older than a column has the value there that the column was added with.
#[tactic(auto, using(crate::proofs::RowLaws::added_later))]
pub fn added_values_stay()
    ensures { (slots : List Slot) (slot : Slot) (stored : List Value) → length stored ≤ length slots → slot.dropped ≡ false → row_by (slots ++ slot ∷ []) stored ≡ row_by slots stored ++ slot.added ∷ [] }
{}

/// A column that is dropped takes its own value out of each row, and no other, also where a column was added behind it.
#[tactic(auto, using(crate::proofs::RowLaws::dropped_one))]
pub fn drops_lose_one()
    ensures { (slots : List Slot) (stored : List Value) (at : ℕ) → at < length slots → dropped_at slots at ≡ false → row_by (at_slot at as_dropped slots) stored ≡ left_out (columns_before slots at) (row_by slots stored) }
{}

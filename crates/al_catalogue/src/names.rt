ghost use Rattle.std.specs.Prelude.{◌≡◌, ℕ, List, [], ◌∷◌, ◌++◌, true, Some, OnOk, OnErr, IsTrue};
ghost use Rattle.std.specs.Str.{bytes_eq};
ghost use Rattle.indexmap.specs.IndexMap.{get_by_text};
ghost use Rattle.al_catalogue.specs.Indexed.{ChangesNamed, ChangesOwned, HasNoBare, named_in, owned_in, with_place, without_place};

use crate::Places;
use al_values::{Name, NoMemory};
use indexmap::IndexMap;
use std::alloc::Global;
use std::collections::HashMap;

/// The places that are kept for a name.
pub(crate) fn named<'a>(names: &'a IndexMap<String, Places>, name: &Name) -> &'a [usize]
    ensures { result.now ≡ named_in names.now name.now }
{
    match names.get(name.as_str()) {
        Some(places) => places.as_slice(),
        None => &[],
    }
}

/// Keeps a place for a name.
pub(crate) fn add_name(
    alloc: Global,
    names: &mut IndexMap<String, Places>,
    name: &Name,
    at: usize,
) -> Result<(), NoMemory>
    ensures ok { OnOk result (ChangesNamed (named_in names.old) (named_in names.new) name.now (with_place at)) }
    ensures err { OnErr result ((asked : List ℕ) → named_in names.new asked ≡ named_in names.old asked) }
    ensures filled { HasNoBare (get_by_text names.old) → HasNoBare (get_by_text names.new) }
{
    match names.get_mut(name.as_str()) {
        Some(places) => places.add(at),
        None => {
            let mut places = Places::new(alloc);
            places.add(at)?;
            names.insert(String::from_str(alloc, name.as_str())?, places)?;
            Ok(())
        }
    }
}

/// Takes a place from a name, and says whether none is left of some.
fn strip_name(names: &mut IndexMap<String, Places>, name: &Name, at: usize) -> bool
    ensures places { ChangesNamed (named_in names.old) (named_in names.new) name.now (without_place at) }
    ensures empty { IsTrue result → named_in names.new name.now ≡ [] }
    ensures bare { HasNoBare (get_by_text names.old) → (asked : List ℕ) → get_by_text names.new asked ≡ Some [] → (result ≡ true) × (bytes_eq name.now asked ≡ true) }
{
    match names.get_mut(name.as_str()) {
        Some(places) => {
            places.cut(at);
            places.is_empty()
        }
        None => false,
    }
}

/// Takes a place from a name.
pub(crate) fn cut_name(names: &mut IndexMap<String, Places>, name: &Name, at: usize)
    ensures places { ChangesNamed (named_in names.old) (named_in names.new) name.now (without_place at) }
    ensures filled { HasNoBare (get_by_text names.old) → HasNoBare (get_by_text names.new) }
{
    if strip_name(names, name, at) {
        names.swap_remove(name.as_str());
    }
}

/// Keeps a place for a transaction.
pub(crate) fn add_owned(
    alloc: Global,
    owners: &mut HashMap<u32, Places>,
    x: u32,
    at: usize,
) -> Result<(), NoMemory>
    ensures ok { OnOk result (ChangesOwned (owned_in owners.old.entries) (owned_in owners.new.entries) x (λ places. places ++ at ∷ [])) }
    ensures err { OnErr result ((asked : ℕ) → owned_in owners.new.entries asked ≡ owned_in owners.old.entries asked) }
{
    match owners.get_mut(&x) {
        Some(places) => places.push(at),
        None => {
            let mut places = Places::new(alloc);
            places.push(at)?;
            owners.insert(x, places)?;
            Ok(())
        }
    }
}

ghost use Rattle.std.specs.Prelude.{◌≡◌, [], ◌∷◌, ◌++◌, ◌↔◌, OnOk, OnErr, IsTrue};
ghost use Rattle.al_catalogue.specs.Indexed.{is_listed, with_place, without_place};

use al_values::NoMemory;
use std::alloc::Global;
use std::marker::Model;

/// Places of tables, in any order.
#[derive(Debug, Drop)]
pub struct Places {
    items: Vec<usize>,
}

impl Model for Places {
    ghost use Rattle.std.specs.Prelude.{ℕ, List};

    ghost Value = { List ℕ };

    ghost view = { λ it. it.items.items };
}

impl Places {
    /// No places. It takes no memory.
    pub fn new(alloc: Global) -> Places
        ensures { result ≡ [] }
    {
        Places {
            items: Vec::new(alloc),
        }
    }

    /// The places as a slice.
    pub fn as_slice(&self) -> &[usize]
        ensures { result.now ≡ self.now }
    {
        self.items.as_slice()
    }

    /// Whether there is no place.
    pub fn is_empty(&self) -> bool
        ensures { IsTrue result ↔ (self.now ≡ []) }
    {
        self.items.is_empty()
    }

    /// Puts a place at the end.
    pub fn push(&mut self, at: usize) -> Result<(), NoMemory>
        ensures ok { OnOk result (self.new ≡ self.old ++ at ∷ []) }
        ensures err { OnErr result (self.new ≡ self.old) }
    {
        self.items.push(at)?;
        Ok(())
    }

    /// Adds a place, unless it is there.
    pub fn add(&mut self, at: usize) -> Result<(), NoMemory>
        ensures ok { OnOk result (self.new ≡ with_place at self.old) }
        ensures err { OnErr result (self.new ≡ self.old) }
    {
        if !is_listed(at, &self.items) {
            self.items.push(at)?;
        }
        Ok(())
    }

    /// Takes a place out.
    pub fn cut(&mut self, at: usize)
        ensures { self.new ≡ without_place at self.old }
    {
        self.items.retain(|place| *place != at);
    }
}

fn is_listed(at: usize, places: &[usize]) -> bool
    ensures { result ≡ is_listed at places.now }
{
    places.iter().any(|place| *place == at)
}

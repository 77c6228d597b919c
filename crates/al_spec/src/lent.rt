ghost use Rattle.std.specs.Prelude.{◌≡◌, IfOk};

use al_values::{Copied, NoMemory, Txt};
use std::alloc::Global;
use std::marker::Model;

#[derive(Drop)]
enum Owner<'a> {
    // A part of the file.
    File(&'a str),
    // A name in which `""` was read as one quote.
    Own(Txt),
}

/// A text that the file lends, or that was made from it. Contracts see its bytes.
#[derive(Drop)]
pub struct Lent<'a> {
    owner: Owner<'a>,
}

impl<'a> Model for Lent<'a> {
    ghost use Rattle.std.specs.Prelude.{ℕ, List};
    ghost use Rattle.al_spec.specs.Owned.{owned};

    ghost Value = { List ℕ };

    ghost view = { λ it. owned it.owner };
}

impl<'a> Lent<'a> {
    /// A text that is lent.
    pub fn lent(text: &'a str) -> Lent<'a>
        ensures { result ≡ text.now }
    {
        Lent {
            owner: Owner::File(text),
        }
    }

    /// A text that was made.
    pub fn own(text: Txt) -> Lent<'a>
        ensures { result ≡ text }
    {
        Lent {
            owner: Owner::Own(text),
        }
    }

    /// The text.
    pub fn as_str(&self) -> &str
        ensures { result.now ≡ self.now }
    {
        match &self.owner {
            Owner::File(text) => text,
            Owner::Own(text) => text.as_str(),
        }
    }

    /// A copy of the text.
    pub fn to_txt(&self, alloc: Global) -> Result<Txt, NoMemory>
        ensures { IfOk result (λ copy. copy ≡ self.now) }
    {
        Txt::new(alloc, self.as_str())
    }
}

ghost use Rattle.std.specs.Prelude.{◌≡◌, ◌∷◌, [], ◌++◌, ◌↔◌, Some, nat_eq, IfOk, string_bytes, OnOk, OnErr, IsTrue, length};
ghost use Rattle.std.specs.Cmp.Lexicographic.{pointwise, nat_list_eq_equiv};
ghost use Rattle.std.specs.Cmp.{partial_equiv_from_equiv};

use crate::{Copied, NoMemory};
use std::alloc::Global;
use std::fmt;
use std::marker::Model;

/// A text in UTF-8, which contracts see as its bytes.
#[derive(Drop)]
pub struct Txt {
    text: String,
}

impl Model for Txt {
    ghost use Rattle.std.specs.Prelude.{ℕ, List, string_bytes};

    ghost Value = { List ℕ };

    ghost view = { λ it. string_bytes it.text };
}

impl Txt {
    /// A copy of a text.
    pub fn new(alloc: Global, text: &str) -> Result<Txt, NoMemory>
        ensures { IfOk result (λ copy. copy ≡ text.now) }
    {
        Ok(Txt {
            text: String::from_str(alloc, text)?,
        })
    }

    /// The bytes of a string. It takes no memory.
    pub fn from_string(text: String) -> Txt
        ensures { result ≡ string_bytes text }
    {
        Txt { text }
    }

    /// The text.
    pub fn as_str(&self) -> &str
        ensures { result.now ≡ self.now }
    {
        self.text.as_str()
    }

    /// The text's bytes.
    pub fn as_bytes(&self) -> &[u8]
        ensures { result.now ≡ self.now }
    {
        self.text.as_bytes()
    }
}

impl Copied for Txt {
    fn copied(&self, alloc: Global) -> Result<Txt, NoMemory> {
        Txt::new(alloc, self.as_str())
    }
}

/// Two texts are equal where their bytes are.
impl PartialEq for Txt {
    ghost eq = { pointwise nat_eq };

    ghost laws = { partial_equiv_from_equiv nat_list_eq_equiv };

    fn eq(&self, other: &Txt) -> bool {
        self.as_str() == other.as_str()
    }
}

impl Eq for Txt {
    ghost laws = { nat_list_eq_equiv };
}

impl fmt::Debug for Txt {
    fn fmt<W: fmt::Write>(&self, f: &mut fmt::Formatter<W>) -> fmt::Result {
        f.write_str(self.as_str())
    }
}

impl fmt::Display for Txt {
    ghost output = { λ it. Some it };

    fn fmt<W: fmt::Write>(&self, f: &mut fmt::Formatter<W>) -> fmt::Result {
        f.write_str(self.as_str())
    }
}

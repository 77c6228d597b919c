ghost use Rattle.std.specs.Prelude.{◌≡◌, [], ◌∷◌, ◌↔◌, IfOk, OnOk, OnErr, IsTrue, filter, not, ◌==◌};
ghost use Rattle.al_xacts.specs.Marks.{with_mark, without_marks};

use crate::Mark;
use crate::in_way::any_covers;
use al_values::NoMemory;
use std::alloc::Global;
use std::marker::Model;

/// The marks of one row, oldest first.
#[derive(Debug, Drop)]
pub struct RowMarks {
    items: Vec<Mark>,
}

impl Model for RowMarks {
    ghost use Rattle.std.specs.Prelude.{List};
    ghost use Rattle.al_xacts.specs.declared.xact.Mark.{Mark};

    ghost Value = { List Mark };

    ghost view = { λ it. it.items.items };
}

impl RowMarks {
    /// No marks. It takes no memory.
    pub fn new(alloc: Global) -> RowMarks
        ensures { result ≡ [] }
    {
        RowMarks {
            items: Vec::new(alloc),
        }
    }

    /// The marks as a slice.
    pub fn as_slice(&self) -> &[Mark]
        ensures { result.now ≡ self.now }
    {
        self.items.as_slice()
    }

    /// Whether there is no mark.
    pub fn is_empty(&self) -> bool
        ensures { IsTrue result ↔ (self.now ≡ []) }
    {
        self.items.is_empty()
    }

    /// Adds a mark, unless its transaction has one that is at least as strong.
    pub fn add(&mut self, mark: Mark) -> Result<(), NoMemory>
        ensures ok { OnOk result (self.new ≡ with_mark mark self.old) }
        ensures err { OnErr result (self.new ≡ self.old) }
    {
        if !any_covers(mark, &self.items) {
            self.items.push(mark)?;
        }
        Ok(())
    }

    /// Drops the marks of a transaction.
    pub fn drop_of(&mut self, x: u32)
        ensures { self.new ≡ without_marks x self.old }
    {
        self.items.retain(|mark| mark.xact != x);
    }
}

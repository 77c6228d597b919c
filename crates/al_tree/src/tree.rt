ghost use Rattle.std.specs.Prelude.{◌≡◌, [], ◌↔◌, true, IfOk, OnOk, OnErr};
ghost use Rattle.al_tree.specs.Ascending.{Ascends};
ghost use Rattle.al_tree.specs.Links.{Descends, has_link, children_of, IsFamily, IsAnswer, fault_of, HasOneMore, HasOneLess, HasNoCircle, ClosesCircle};

use crate::LinkFault;
use crate::fault::fault_of;
use crate::one_way::OneWay;
use al_values::{Cant, IdList, NoMemory};
use std::alloc::Global;
use std::marker::Model;

/// The links of tables to the tables that they inherit from, as one reader finds them (the manual, 5.10). Contracts see
/// the list of the links, by ascending parent.
#[derive(Debug, Drop)]
pub struct Tree {
    down: OneWay,
    // The same links turned, so that the parents of a table are found as its children are.
    up: OneWay,
}

impl Model for Tree {
    ghost use Rattle.std.specs.Prelude.{List};
    ghost use Rattle.al_tree.specs.Links.{Inherits, AreTurned};

    ghost Value = { List Inherits };

    ghost view = { λ t. t.down };

    ghost invariant = { λ t. AreTurned t.down t.up };
}

impl Tree {
    /// No links. It takes no memory.
    pub fn new(alloc: Global) -> Tree
        ensures { result ≡ [] }
    {
        Tree {
            down: OneWay::new(alloc),
            up: OneWay::new(alloc),
        }
    }

    /// The children of a table, by ascending number.
    pub fn children(&self, table: u32) -> &IdList
        ensures value { result.now ≡ children_of self.now table }
        ensures ascends { Ascends result.now }
    {
        self.down.children(table)
    }

    /// The table, then its descendants by ascending number, each once. It takes the time of these, whatever the tree holds beside them.
    ///
    /// # Errors
    ///
    /// Want of memory.
    pub fn family(&self, alloc: Global, table: u32) -> Result<IdList, NoMemory>
        ensures { IfOk result (IsFamily self.now table) }
    {
        self.down.family(alloc, table)
    }

    /// Makes a table a child of another. It takes the time of the ancestors of that.
    ///
    /// # Errors
    ///
    /// Circle where the parent is the child itself or descends from it, else Twice where it is a parent of it already; and want of
    /// memory. Nothing has changed then.
    pub fn link(&mut self, alloc: Global, child: u32, parent: u32) -> Result<(), Cant<LinkFault>>
        ensures answer { IsAnswer self.old child parent result }
        ensures ok { OnOk result (HasOneMore self.old self.new child parent) }
        ensures err { OnErr result (self.new ≡ self.old) }
        ensures circles { HasNoCircle self.old → HasNoCircle self.new }
    {
        let closes = self.closes_circle(alloc, child, parent)?;
        let there = self.down.has(child, parent);
        if let Some(fault) = fault_of(closes, there) {
            return Err(Cant::Why(fault));
        }
        self.note(alloc, child, parent)?;
        Ok(())
    }

    // Whether a link would close a circle.
    fn closes_circle(&self, alloc: Global, child: u32, parent: u32) -> Result<bool, NoMemory>
        ensures { IfOk result (λ closes. (closes ≡ true) ↔ ClosesCircle self.now child parent) }
    {
        if child == parent {
            return Ok(true);
        }
        self.is_ancestor(alloc, child, parent)
    }

    // Whether a table is an ancestor of another, by the ancestors of that.
    fn is_ancestor(&self, alloc: Global, table: u32, of: u32) -> Result<bool, NoMemory>
        ensures { IfOk result (λ above. (above ≡ true) ↔ Descends self.now table of) }
    {
        self.up.descends(alloc, table, of)
    }

    /// Notes a link as it is found, without looking for circles. One that is there already stays.
    ///
    /// # Errors
    ///
    /// Want of memory. Nothing has changed then.
    pub fn note(&mut self, alloc: Global, child: u32, parent: u32) -> Result<(), NoMemory>
        ensures ok { OnOk result (HasOneMore self.old self.new child parent) }
        ensures err { OnErr result (self.new ≡ self.old) }
    {
        if self.down.has(child, parent) {
            return Ok(());
        }
        self.up.note(alloc, parent, child)?;
        let done = self.down.note(alloc, child, parent);
        if done.is_err() {
            self.up.unlink(parent, child);
        }
        done
    }

    /// Ends a link. The answer is false where there was none. It takes no memory.
    pub fn unlink(&mut self, child: u32, parent: u32) -> bool
        ensures answer { result ≡ has_link self.old child parent }
        ensures links { HasOneLess self.old self.new child parent }
        ensures circles { HasNoCircle self.old → HasNoCircle self.new }
    {
        self.up.unlink(parent, child);
        self.down.unlink(child, parent)
    }
}

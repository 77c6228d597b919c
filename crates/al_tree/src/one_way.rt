ghost use Rattle.std.specs.Prelude.{◌≡◌, ℕ, [], ◌↔◌, true, IfOk, OnOk, OnErr};
ghost use Rattle.al_tree.specs.Ascending.{Ascends};
ghost use Rattle.al_tree.specs.Links.{Inherits, Descends, has_link, children_of, IsFamily, HasOneMore, HasOneLess};

use crate::Line;
use crate::line::{add_child, add_line, cut_line, is_among, line_of};
use crate::search::{descendants, listed};
use al_values::{IdList, ListOf, NoMemory};
use std::alloc::Global;
use std::marker::Model;

/// Links that are found by one of their ends, which is called the parent. Contracts see the list of the links, by ascending
/// parent.
#[derive(Debug, Drop)]
pub struct OneWay {
    lines: Vec<Line>,
    none: IdList,
    alloc: Global,
}

impl Model for OneWay {
    ghost use Rattle.std.specs.Prelude.{◌≡◌, List, []};
    ghost use Rattle.al_tree.specs.Links.{Inherits};
    ghost use Rattle.al_tree.specs.Lines.{AreLines, links_in};

    ghost Value = { List Inherits };

    ghost view = { λ t. links_in t.lines.items };

    ghost invariant = { λ t. AreLines t.lines.items × (t.none ≡ []) };
}

impl OneWay {
    /// No links. It takes no memory.
    pub fn new(alloc: Global) -> OneWay
        ensures { result ≡ [] }
    {
        OneWay {
            lines: Vec::new(alloc),
            none: ListOf::new(alloc),
            alloc,
        }
    }

    /// The children of a table, by ascending number.
    pub fn children(&self, table: u32) -> &IdList
        ensures value { result.now ≡ children_of self.now table }
        ensures ascends { Ascends result.now }
    {
        match line_of(table, &self.lines) {
            Some(at) => &self.lines[at].children,
            None => &self.none,
        }
    }

    /// The table, then its descendants by ascending number, each once. It takes the time of these, whatever the tree holds beside them.
    ///
    /// # Errors
    ///
    /// Want of memory.
    pub fn family(&self, alloc: Global, table: u32) -> Result<IdList, NoMemory>
        ensures { IfOk result (IsFamily self.now table) }
    {
        let met = descendants(alloc, &self.lines, table)?;
        listed(alloc, table, &met)
    }

    /// Whether a table is a child of another.
    pub fn has(&self, child: u32, parent: u32) -> bool
        ensures { result ≡ has_link self.now child parent }
    {
        is_among(child, self.children(parent).as_slice())
    }

    /// Whether a table descends from another. It takes the time of the other's descendants.
    ///
    /// # Errors
    ///
    /// Want of memory.
    pub fn descends(&self, alloc: Global, table: u32, from: u32) -> Result<bool, NoMemory>
        ensures { IfOk result (λ descends. (descends ≡ true) ↔ Descends self.now from table) }
    {
        let met = descendants(alloc, &self.lines, from)?;
        Ok(is_among(table, &met))
    }

    /// Notes a link as it is found, without looking for circles. One that is there already stays.
    ///
    /// # Errors
    ///
    /// Want of memory. Nothing has changed then.
    pub fn note(&mut self, alloc: Global, child: u32, parent: u32) -> Result<(), NoMemory>
        ensures ok { OnOk result (HasOneMore self.old self.new child parent) }
        ensures err { OnErr result (self.new ≡ self.old) }
    {
        if self.has(child, parent) {
            return Ok(());
        }
        add_line(alloc, &mut self.lines, child)?;
        add_line(alloc, &mut self.lines, parent)?;
        add_child(alloc, &mut self.lines, child, parent)
    }

    /// Ends a link. The answer is false where there was none. It takes no memory.
    pub fn unlink(&mut self, child: u32, parent: u32) -> bool
        ensures answer { result ≡ has_link self.old child parent }
        ensures links { HasOneLess self.old self.new child parent }
    {
        let there = self.has(child, parent);
        cut_line(self.alloc, &mut self.lines, child, parent);
        there
    }
}

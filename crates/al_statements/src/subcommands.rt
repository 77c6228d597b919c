ghost use Rattle.std.specs.Prelude.{◌≡◌, ◌<◌, [], ◌∷◌, ◌++◌, length, IfOk, OnOk, OnErr, MatchOption};

use crate::Sub;
use al_values::{Copied, ListOf, NoMemory};
use std::alloc::Global;
use std::marker::Model;

/// The subcommands of an ALTER TABLE in written order. There is at least one.
#[derive(Debug, Drop)]
pub struct SubList {
    subs: ListOf<Sub>,
}

impl Model for SubList {
    ghost use Rattle.std.specs.Prelude.{List, ◌<◌, length};
    ghost use Rattle.std.specs.Coded.{codes};
    ghost use Rattle.al_statements.specs.declared.alter.Sub.{Sub};
    ghost use Rattle.al_statements.specs.contracts.alter.Sub as sub_contract;

    ghost Value = { List Sub };

    ghost coded = { Prim.hlevel (codes, sub_contract.the_row.coded) };

    ghost view = { λ it. it.subs };

    ghost invariant = { λ it. 0 < length it.subs };
}

impl SubList {
    /// The list of one subcommand.
    pub fn new(alloc: Global, sub: Sub) -> Result<SubList, NoMemory>
        ensures { IfOk result (λ list. list ≡ sub ∷ []) }
    {
        let mut subs = ListOf::new(alloc);
        subs.push(sub)?;
        Ok(SubList { subs })
    }

    /// The subcommands of a list; none exactly where it is empty. It takes no memory.
    pub fn from_list(subs: ListOf<Sub>) -> Option<SubList>
        ensures { MatchOption result (subs ≡ []) (λ list. list ≡ subs) }
    {
        if subs.is_empty() {
            return None;
        }
        Some(SubList { subs })
    }

    /// Puts a subcommand at the end.
    pub fn push(&mut self, sub: Sub) -> Result<(), NoMemory>
        ensures ok { OnOk result (self.new ≡ self.old ++ sub ∷ []) }
        ensures err { OnErr result (self.new ≡ self.old) }
    {
        self.subs.push(sub)
    }

    /// The subcommands as a slice.
    pub fn as_slice(&self) -> &[Sub]
        ensures items { result.now ≡ self.now }
        ensures some { 0 < length self.now }
    {
        self.subs.as_slice()
    }
}

impl Copied for SubList {
    fn copied(&self, alloc: Global) -> Result<SubList, NoMemory> {
        Ok(SubList {
            subs: self.subs.copied(alloc)?,
        })
    }
}

//! The flags of the domains.
ghost use Rattle.std.specs.Prelude.{◌≡◌, false, [], length, IfOk, slice_index_or};
ghost use Rattle.argo_board.specs.Board.{AreReplay};
ghost use Rattle.argo_board.specs.Journal.{AreChanged, AreRaised};

use crate::FlagChange;
use argo_base::{DomId, NoMemory};
use std::alloc::Global;
use std::marker::Model;

/// As many as a domain id has values.
const COUNT: usize = 65536;

/// A flag for each number that a domain id can have.
#[derive(Drop)]
pub(crate) struct Flags {
    set: Vec<bool>,
}

impl Model for Flags {
    ghost use Rattle.std.specs.Prelude.{◌≡◌, List, Bool, length};

    ghost Value = { List Bool };

    ghost view = { λ f. f.set.items };

    ghost invariant = { λ f. length f.set.items ≡ 65536 };
}

impl Flags {
    /// All are clear.
    pub(crate) fn clear(alloc: Global) -> Result<Flags, NoMemory>
        ensures { IfOk result (λ f. AreReplay f []) }
    {
        let set = Vec::from_elem(alloc, false, COUNT)?;
        Ok(Flags { set })
    }

    pub(crate) fn is_set(&self, dom: DomId) -> bool
        ensures { result ≡ slice_index_or self.now dom false }
    {
        self.set[usize::from(dom.0)]
    }

    pub(crate) fn apply(&mut self, change: &FlagChange)
        ensures { AreChanged self.old change.now self.new }
    {
        match change {
            FlagChange::Keep => {}
            FlagChange::Raise(doms) => raise(self.set.as_mut_slice(), doms.as_slice()),
            FlagChange::Clear(dom) => self.set[usize::from(dom.0)] = false,
        }
    }
}

/// Sets the flags of these domains.
fn raise(set: &mut [bool], doms: &[DomId])
    requires { length set.old ≡ 65536 }
    ensures len { length set.new ≡ 65536 }
    ensures raised { AreRaised set.old doms.now set.new }
{
    for dom in doms {
        set[usize::from(dom.0)] = true;
    }
}

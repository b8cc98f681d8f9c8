//! The entries so far, in segments.
ghost use Rattle.std.specs.Prelude.{◌≡◌, true, [], ◌∷◌, ◌++◌, IfOk, OnOk, OnErr};

use crate::Entry;
use argo_base::NoMemory;
use std::alloc::Global;
use std::collections::LinkedList;
use std::marker::Model;
use std::mem;

/// How many entries a segment has room for.
const SEGMENT: usize = 1024;

/// Entries in segments of 1,024: the newest, and the full ones in boxes of their own, the newest of these first. No entry moves before
/// the end. Contracts see all entries from the first to the last, and whether the newest segment has room.
#[derive(Drop)]
pub(crate) struct Journal {
    newest: Vec<Entry>,
    full: LinkedList<Vec<Entry>>,
}

impl Model for Journal {
    ghost use Rattle.std.specs.Prelude.{◌++◌, nat_lt, vec_len};
    ghost use Rattle.std.specs.Vec.{vec_capacity};
    ghost use Rattle.argo_board.specs.Board.{Seen, seen};
    ghost use Rattle.argo_board.specs.Segments.{entries_in};

    ghost Value = { Seen };

    ghost view = { λ j. seen (entries_in j.full ++ j.newest.items)
        (nat_lt (vec_len j.newest) (vec_capacity j.newest)) };
}

impl Journal {
    pub(crate) fn new(alloc: Global) -> Result<Journal, NoMemory>
        ensures { IfOk result (λ j. j.entries ≡ []) }
    {
        let newest = Vec::with_capacity(alloc, SEGMENT)?;
        Ok(Journal {
            newest,
            full: LinkedList::new(alloc),
        })
    }

    /// Makes room for one entry.
    pub(crate) fn reserve(&mut self, alloc: Global) -> Result<(), NoMemory>
        ensures entries { self.new.entries ≡ self.old.entries }
        ensures reserved { OnOk result (self.new.reserved ≡ true) }
        ensures refused { OnErr result (self.new ≡ self.old) }
    {
        if self.newest.len() < self.newest.capacity() {
            return Ok(());
        }
        let fresh = Vec::with_capacity(alloc, SEGMENT)?;
        let full = mem::replace(&mut self.newest, fresh);
        if let Err(refused) = self.full.push_front(full) {
            self.newest = refused.value;
            return Err(NoMemory);
        }
        Ok(())
    }

    pub(crate) fn append(&mut self, e: Entry)
        requires { self.old.reserved ≡ true }
        ensures { self.new.entries ≡ self.old.entries ++ e ∷ [] }
    {
        self.newest.push_reserved(e);
    }

    /// All entries in one piece, from the first to the last.
    pub(crate) fn in_order(self, alloc: Global) -> Result<Vec<Entry>, NoMemory>
        ensures { IfOk result (λ all. all.items ≡ self.entries) }
    {
        let Journal { newest, full } = self;
        let count = full.len().saturating_mul(SEGMENT);
        let mut all = Vec::with_capacity(alloc, count.saturating_add(newest.len()))?;
        let mut full = full;
        while let Some(segment) = full.pop_back() {
            let mut segment = segment;
            all.append(&mut segment)?;
        }
        let mut newest = newest;
        all.append(&mut newest)?;
        Ok(all)
    }
}

//! The lists, and how rings come into them and go out.
ghost use Rattle.std.specs.Prelude.{◌≡◌, ◌+◌, ◌&&◌, ◌||◌, ℕ, not, true, length, ◌≤◌, [], IfSome, IfNone, OnOk, OnErr};
ghost use Rattle.argo_base.specs.declared.ring_key.RingId.{RingId as Id};
ghost use Rattle.std.specs.BTreeMap.{is_at};
ghost use Rattle.argo_base.specs.Match.{id_cmp};
ghost use Rattle.argo_base.specs.RingIds.{has_id};
ghost use Rattle.domain_lists.specs.Lists.{ids_of, names, is_pair, AreNoLonger};

use argo_base::{DomId, NoMemory, RingId, RingIdSet};
use std::alloc::Global;
use std::collections::BTreeMap;
use std::marker::Model;

/// A list of rings for each domain. A domain without a list has the empty one.
#[derive(Drop)]
pub struct DomainLists {
    lists: BTreeMap<DomId, RingIdSet>,
}

impl Model for DomainLists {
    ghost use Rattle.domain_lists.specs.Lists.{RingLists};

    ghost Value = { RingLists };

    ghost view = { λ l. l.lists.entries };
}

impl DomainLists {
    /// Every list empty. It takes no memory.
    pub fn new(alloc: Global) -> Self
        ensures { result ≡ [] }
    {
        DomainLists {
            lists: BTreeMap::new(alloc),
        }
    }

    /// How many rings the list of a domain names.
    pub fn count(&self, dom: DomId) -> usize
        ensures { result ≡ length (ids_of self.now dom) }
    {
        match self.lists.get(&dom) {
            Some(ids) => ids.len(),
            None => 0,
        }
    }

    /// Adds a ring to the list of a domain, where it is not named yet. Where memory runs out all lists stay as they were.
    pub fn add(&mut self, alloc: Global, dom: DomId, id: RingId) -> Result<(), NoMemory>
        ensures ok { OnOk result
            ((d : ℕ) (x : Id) → names self.new d x ≡ (is_pair dom id d x || names self.old d x)) }
        ensures err { OnErr result (self.new ≡ self.old) }
    {
        if let Some(ids) = self.lists.get_mut(&dom) {
            ids.add(id)?;
            return Ok(());
        }
        let mut ids = RingIdSet::new(alloc);
        ids.add(id)?;
        self.lists.insert(dom, ids)?;
        Ok(())
    }

    /// Takes a ring off the list of a domain, where it is named. It takes no memory.
    pub fn remove(&mut self, dom: DomId, id: RingId)
        ensures names { (d : ℕ) (x : Id)
            → names self.new d x ≡ (names self.old d x && not (is_pair dom id d x)) }
        ensures lengths { AreNoLonger self.old self.new }
    {
        let Some(ids) = self.lists.get_mut(&dom) else {
            return;
        };
        take_out(ids, id);
    }

    /// Takes the least ring off the list of a domain, if it names one. It takes no memory.
    pub fn take_first(&mut self, dom: DomId) -> Option<RingId>
        ensures taken { IfSome result (λ id. names self.old dom id ≡ true) }
        ensures names { IfSome result (λ id. (d : ℕ) (x : Id)
            → names self.new d x ≡ (names self.old d x && not (is_pair dom id d x))) }
        ensures lengths { AreNoLonger self.old self.new }
        ensures one { IfSome result (λ id.
            length (ids_of self.new dom) + 1 ≡ length (ids_of self.old dom)) }
        ensures none { IfNone result (ids_of self.old dom ≡ []) }
        ensures kept { IfNone result (self.new ≡ self.old) }
    {
        let ids = self.lists.get_mut(&dom)?;
        ids.drain_one()
    }
}

// Takes a ring out of a set, where it is a member.
fn take_out(ids: &mut RingIdSet, id: RingId)
    ensures names { (x : Id)
        → has_id ids.new x ≡ (has_id ids.old x && not (is_at (id_cmp id) x)) }
    ensures length { length ids.new ≤ length ids.old }
{
    if ids.len() > 0 {
        ids.remove(id);
    }
}

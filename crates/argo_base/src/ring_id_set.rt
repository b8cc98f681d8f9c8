//! Finite sets of rings.
ghost use Rattle.std.specs.Prelude.{◌≡◌, ◌∷◌, ◌==◌, true, false, [], length, IfSome, IfNone, OnOk, OnErr};
ghost use Rattle.std.specs.List.Sorted.{IsStrictlySortedBy};
ghost use Rattle.std.specs.List.{All};
ghost use Rattle.std.specs.BTreeMap.{is_at};
ghost use Rattle.std.specs.BTreeMap.Range.{IsLtBy};
ghost use Rattle.std.specs.BTreeSet.{insert_key};
ghost use Rattle.std.specs.Set.{remove_key};
ghost use Rattle.argo_base.specs.Match.{id_cmp};
ghost use Rattle.argo_base.specs.RingIds.{has_id};

use crate::{NoMemory, RingId};
use std::alloc::Global;
use std::collections::BTreeSet;
use std::marker::Model;

/// A finite set of rings, which contracts see as the list of their ids, by rising id.
#[derive(Drop)]
pub struct RingIdSet {
    ids: BTreeSet<RingId>,
}

impl Model for RingIdSet {
    ghost use Rattle.std.specs.Prelude.{List};
    ghost use Rattle.argo_base.specs.declared.ring_key.RingId.{RingId as Id};

    ghost Value = { List Id };

    ghost view = { λ s. s.ids.keys };
}

impl RingIdSet {
    /// The empty set. It takes no memory.
    pub fn new(alloc: Global) -> Self
        ensures { result ≡ [] }
    {
        RingIdSet {
            ids: BTreeSet::new(alloc),
        }
    }

    pub fn len(&self) -> usize
        ensures value { result ≡ length self.now }
        ensures rising { IsStrictlySortedBy id_cmp self.now }
    {
        self.ids.len()
    }

    pub fn is_empty(&self) -> bool
        ensures { result ≡ (length self.now == 0) }
    {
        self.ids.len() == 0
    }

    /// Whether the ring is a member.
    pub fn contains(&self, id: RingId) -> bool
        ensures { result ≡ has_id self.now id }
    {
        self.ids.contains(&id)
    }

    /// Adds a ring. A member stays as it is, and takes no memory; where memory runs out, the set stays.
    pub fn add(&mut self, id: RingId) -> Result<(), NoMemory>
        ensures ok { OnOk result (self.new ≡ insert_key id_cmp self.old id) }
        ensures err { OnErr result (self.new ≡ self.old) }
        ensures no_member { OnErr result (has_id self.old id ≡ false) }
        ensures member { has_id self.old id ≡ true → self.new ≡ self.old }
    {
        self.ids.insert(id)?;
        Ok(())
    }

    /// Takes a ring out, and says whether it was a member. It takes no memory.
    pub fn remove(&mut self, id: RingId) -> bool
        ensures value { result ≡ has_id self.old id }
        ensures rest { self.new ≡ remove_key (is_at (id_cmp id)) self.old }
    {
        self.ids.remove(&id)
    }

    /// Takes out the least ring, if there is one. It takes no memory.
    pub fn drain_one(&mut self) -> Option<RingId>
        ensures taken { IfSome result (λ id. self.old ≡ id ∷ self.new) }
        ensures none { IfNone result (self.old ≡ []) }
        ensures kept { IfNone result (self.new ≡ self.old) }
        ensures least { IfSome result (λ id. All (IsLtBy id_cmp id) self.new) }
    {
        self.ids.pop_first()
    }
}

//! The names of rings, and their orders.
ghost use Rattle.std.specs.Prelude.{◌≡◌};
ghost use Rattle.argo_base.specs.Match.{key_cmp, id_cmp, key_in};

use crate::DomId;
use std::cmp::Ordering;

/// What names a ring among those of its owner: its port, and the domain whose messages it takes, or `DomId::ANY`.
#[derive(Clone, Copy, Debug, PartialEq, Eq, PartialOrd, Ord, Hash)]
pub struct RingKey {
    pub port: u32,
    pub partner: DomId,
}

impl RingKey {
    /// The order of keys, which is also their `Ord`: by port, and then by partner.
    pub fn order(&self, other: &RingKey) -> Ordering
        ensures ord { (a b : RingKey) → ⟦<RingKey as Ord>⟧.cmp a b ≡ key_cmp a b }
        ensures value { result ≡ key_cmp self.now other.now }
    {
        self.cmp(other)
    }
}

/// What names a ring among all: `struct argo_ring_id` of Xen.
#[derive(Clone, Copy, Debug, PartialEq, Eq, PartialOrd, Ord, Hash)]
pub struct RingId {
    pub owner: DomId,
    pub port: u32,
    pub partner: DomId,
}

impl RingId {
    /// The key of the ring among those of its owner.
    pub fn key(&self) -> RingKey
        ensures { result ≡ key_in self.now }
    {
        RingKey {
            port: self.port,
            partner: self.partner,
        }
    }

    /// The order of ring ids, which is also their `Ord`: by owner, then by port, and then by partner.
    pub fn order(&self, other: &RingId) -> Ordering
        ensures ord { (a b : RingId) → ⟦<RingId as Ord>⟧.cmp a b ≡ id_cmp a b }
        ensures value { result ≡ id_cmp self.now other.now }
    {
        self.cmp(other)
    }
}

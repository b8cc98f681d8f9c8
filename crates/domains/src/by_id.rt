//! Rings of the domains, by their ids.
ghost use Rattle.std.specs.Prelude.{◌≡◌, [], length, true, IfSome, IfNone, option_map};
ghost use Rattle.argo_model.specs.Rules.State.{live_of};
ghost use Rattle.std.specs.Option.{option_copied};
ghost use Rattle.live_domain.specs.Keyed.{noted_on};
ghost use Rattle.domains.specs.ById.{ring_ended, notice_ended};
ghost use Rattle.domains.specs.ById.{id_in, rings_of, ring_at, stands, is_noted, met_id, next_key};

use crate::domains::Domains;
use argo_base::{DomId, RingId, RingKey};
use live_domain::KeyedRings;

impl<L: KeyedRings> Domains<L> {
    // What a domain has that is alive.
    fn live(&self, dom: DomId) -> Option<&L>
        ensures { option_map L.LiveDomain.live (option_copied result) ≡ live_of self.now dom }
    {
        self.domains.get(dom)?.life.as_ref()
    }

    /// Whether the ring stands.
    pub fn stands(&self, id: &RingId) -> bool
        ensures { result ≡ stands self.now id.now }
    {
        match self.live(id.owner) {
            Some(live) => live.has_ring(id.key()),
            None => false,
        }
    }

    /// Whether a domain waits on the ring.
    #[inline(always)]
    pub fn is_noted(&self, id: &RingId, dom: DomId) -> bool
        ensures { result ≡ is_noted self.now id.now dom }
    {
        match self.live(id.owner) {
            Some(live) => live.is_noted(id.key(), dom),
            None => false,
        }
    }

    /// The domains that wait on the ring, each with the size that it waits for.
    pub fn noted(&self, id: &RingId) -> &[(DomId, u32)]
        ensures { result.now ≡ noted_on (ring_at self.now id.now) }
    {
        match self.live(id.owner) {
            Some(live) => live.noted(id.key()),
            None => &[],
        }
    }

    /// How many rings a domain has.
    pub fn ring_count(&self, dom: DomId) -> usize
        ensures { result ≡ length (rings_of self.now dom) }
    {
        match self.live(dom) {
            Some(live) => live.ring_count(),
            None => 0,
        }
    }

    /// The first ring of a domain, if it has one.
    pub fn first_ring(&self, dom: DomId) -> Option<RingId>
        ensures there { IfSome result (λ id. stands self.now id ≡ true) }
        ensures owner { IfSome result (λ id. id.owner ≡ dom) }
        ensures none { IfNone result (rings_of self.now dom ≡ []) }
    {
        let live = self.live(dom)?;
        let key = live.first_ring()?;
        Some(id_of(dom, &key))
    }

    /// The ring that a domain sweeps next after a serial; where it has none, one that does not stand.
    pub fn next_ring(&self, dom: DomId, serial: u64) -> RingId
        ensures { result ≡ id_in dom (next_key self.now dom serial) }
    {
        let none = RingKey {
            port: 0,
            partner: DomId::ANY,
        };
        let key = match self.live(dom) {
            Some(live) => live.next_ring(serial).unwrap_or(none),
            None => none,
        };
        id_of(dom, &key)
    }

    /// The ring that a sender meets at a port, if it meets one: the ring for this sender, else the wildcard ring.
    pub fn met(&self, to: DomId, port: u32, sender: DomId) -> RingId
        ensures { result ≡ met_id self.now to port sender }
    {
        let own = RingKey {
            port,
            partner: sender,
        };
        if self.stands(&id_of(to, &own)) {
            return id_of(to, &own);
        }
        let any = RingKey {
            port,
            partner: DomId::ANY,
        };
        id_of(to, &any)
    }

    /// Ends a ring, where it stands.
    pub fn end_ring(&mut self, id: &RingId)
        ensures { self.new ≡ ring_ended self.old id.now }
    {
        if let Some(domain) = self.domains.get_mut(id.owner) {
            domain.end_ring(id.key());
        }
    }

    /// Ends a domain's notice on a ring, where it waits on it.
    pub fn forget_notice(&mut self, id: &RingId, dom: DomId)
        ensures { self.new ≡ notice_ended self.old id.now dom }
    {
        if let Some(domain) = self.domains.get_mut(id.owner) {
            domain.forget_notice(id.key(), dom);
        }
    }
}

/// The id of a domain's ring.
pub fn id_of(owner: DomId, key: &RingKey) -> RingId
    ensures { result ≡ id_in owner key.now }
{
    RingId {
        owner,
        port: key.port,
        partner: key.partner,
    }
}

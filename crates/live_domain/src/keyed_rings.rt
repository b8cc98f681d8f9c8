//! Rings of a live domain that are found, and ended, by their keys.
ghost use Rattle.std.specs.Prelude.{◌≡◌, [], length, true, option_map, IfSome, IfNone};
ghost use Rattle.argo_model.specs.Rules.Register as rings;
ghost use Rattle.argo_model.specs.Rules.Sweep as sweeps;
ghost use Rattle.live_domain.specs.Keyed.{has_notice, noted_on, without_notice};

use crate::LiveDomain;
use argo_base::{DomId, RingKey};

/// A live domain whose rings can be found, and ended, one by one. None of it takes memory.
pub trait KeyedRings: LiveDomain {
    /// Whether a ring of the key stands.
    fn has_ring(&self, key: RingKey) -> bool
        ensures { result ≡ rings.has_ring (Self.LiveDomain.live self.now) key };

    /// How many rings stand.
    fn ring_count(&self) -> usize
        ensures { result ≡ length (Self.LiveDomain.live self.now).rings };

    /// The key of a ring, if one stands.
    fn first_ring(&self) -> Option<RingKey>
        ensures there { IfSome result
            (λ key. rings.has_ring (Self.LiveDomain.live self.now) key ≡ true) }
        ensures none { IfNone result ((Self.LiveDomain.live self.now).rings ≡ []) };

    /// The key of the ring with the least serial above `after`.
    fn next_ring(&self, after: u64) -> Option<RingKey>
        ensures { result ≡ option_map (λ e. e.0)
            (sweeps.next_ring after (Self.LiveDomain.live self.now).rings) };

    /// Whether a domain waits for room in the ring of the key.
    fn is_noted(&self, key: RingKey, dom: DomId) -> bool
        ensures { result ≡ has_notice (rings.own_ring (Self.LiveDomain.live self.now) key) dom };

    /// The domains that wait for room in the ring of the key, each with the size that it waits for.
    fn noted(&self, key: RingKey) -> &[(DomId, u32)]
        ensures { result.now ≡ noted_on (rings.own_ring (Self.LiveDomain.live self.now) key) };

    /// Ends the ring of the key, where one stands.
    fn end_ring(&mut self, key: RingKey)
        ensures { Self.LiveDomain.live self.new
            ≡ rings.without_ring (Self.LiveDomain.live self.old) key };

    /// Ends a domain's notice on the ring of the key, where it waits on one.
    fn forget_notice(&mut self, key: RingKey, dom: DomId)
        ensures { Self.LiveDomain.live self.new
            ≡ without_notice (Self.LiveDomain.live self.old) key dom };
}

//! Rings that end, and their pages, which come back.
ghost use Rattle.std.specs.Prelude.{◌≡◌, Some, slice_get, option_map};
ghost use Rattle.argo_base.specs.Notices.{withdrawn};
ghost use Rattle.argo_model.specs.Rules.Effects as effects;
ghost use Rattle.argo_model.specs.Rules.Register.{has_ring, own_ring, without_ring};
ghost use Rattle.argo_model.specs.Rules.State.{Ring as TheRing};
ghost use Rattle.live_domain.specs.Keyed.{without_notice};
ghost use Rattle.live_domain.specs.Own.{take_away};
ghost use Rattle.paged_live.specs.Ends.{forgotten};
ghost use Rattle.paged_live.specs.Parts.{StandsStill};
ghost use Rattle.ring_core.specs.Held.{Becomes};

use crate::home::clear;
use crate::live::Live;
use argo_base::{DomId, Errno, RingKey};
use argo_model::Outcome;
use ring_core::Ring;

impl Live {
    /// The least key of the rings, where one stands.
    pub(crate) fn lowest_key(&self) -> Option<RingKey>
        ensures { result ≡ option_map (λ e. e.0) (slice_get self.now.rings 0) }
    {
        let row = self.rings.first()?;
        Some(row.key)
    }

    /// Takes a ring away.
    pub(crate) fn unregister(&mut self, key: RingKey) -> Outcome
        ensures outcome { result ≡ (take_away self.old key).outcome }
        ensures left { self.new ≡ effects.after self.old (take_away self.old key) }
    {
        if self.take_ring(key) {
            Outcome::Done
        } else {
            Outcome::Refused(Errno::NoEnt)
        }
    }

    /// Ends the ring under the key: its pages come back. It tells whether there was one.
    pub(crate) fn take_ring(&mut self, key: RingKey) -> bool
        ensures stood { result ≡ has_ring self.old key }
        ensures left { self.new ≡ without_ring self.old key }
    {
        let Some(ring) = self.rings.remove(key) else {
            return false;
        };
        let (row, _) = ring.into_parts();
        row.count();
        clear(self.homes.as_mut_slice(), &row);
        self.private.give_back(row);
        true
    }

    /// Ends the notice of a domain on the ring under the key, where there is one.
    pub(crate) fn end_notice(&mut self, key: RingKey, dom: DomId)
        ensures left { self.new ≡ without_notice self.old key dom }
        ensures gone { (r : TheRing) → own_ring self.new key ≡ Some r
            → withdrawn r.notices dom ≡ r.notices }
    {
        let Some(ring) = self.rings.find_exact_mut(key) else {
            return;
        };
        forget(ring, dom);
    }
}

// Ends the notice of a domain.
fn forget(ring: &mut Ring, dom: DomId)
    ensures left { Becomes ring.old ring.new (λ p. forgotten dom p) }
    ensures gone { withdrawn ring.new.notices dom ≡ ring.new.notices }
    ensures still { StandsStill ring.old ring.new }
{
    ring.notices().as_slice();
    ring.forget(dom);
    ring.row().count();
}

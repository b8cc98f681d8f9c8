//! Rings end one by one, and domains end by their lists.
ghost use Rattle.std.specs.Prelude.{◌≡◌, ◌+◌, ◌-◌, ◌≤◌, ◌==◌, [], length, true};
ghost use Rattle.argo_model.specs.Rules.Destroy as rules;
ghost use Rattle.domain_lists.specs.Lists.{ids_of, AreNoLonger};
ghost use Rattle.domains.specs.ById.{ring_ended, rings_of};
ghost use Rattle.plain_world.specs.Ends.{AreFew};
ghost use Rattle.touch_laws.specs.Ends.{EndSame};

use crate::listed_domains::ListedDomains;
use crate::mends::take_off_noted;
use crate::visits::Visits;
use argo_base::{DomId, Errno, RingId};
use argo_model::Outcome;
use live_domain::KeyedRings;
use std::alloc::Global;

impl<L: KeyedRings> ListedDomains<L> {
    /// Ends a domain that is alive, and what others keep for it.
    pub(crate) fn destroy_by_lists(&mut self, dom: DomId) -> (Outcome, Visits)
        ensures act { rules.destroy self.old.state dom
            ≡ record { outcome = result.0; state = self.new.state } }
        ensures visits { AreFew dom self.old result.1 }
    {
        if !self.domains.is_alive(dom) {
            return (Outcome::Refused(Errno::Srch), Visits::NONE);
        }
        let visits = self.end_listed(dom);
        self.domains.end_one(dom);
        (Outcome::Done, visits)
    }

    /// Ends the rings of a domain that is alive, and what others keep for it, and clears its flag.
    pub(crate) fn reset_by_lists(&mut self, alloc: Global, dom: DomId) -> (Outcome, Visits)
        ensures act { rules.reset self.old.state dom
            ≡ record { outcome = result.0; state = self.new.state } }
        ensures visits { AreFew dom self.old result.1 }
    {
        if !self.domains.is_alive(dom) {
            return (Outcome::Refused(Errno::Srch), Visits::NONE);
        }
        let visits = self.end_listed(dom);
        self.domains.reset_one(alloc, dom);
        (Outcome::Done, visits)
    }

    // Ends the rings of a domain, those that are for it, and its notices, by its lists.
    fn end_listed(&mut self, dom: DomId) -> Visits
        ensures rings { rings_of self.new.state dom ≡ [] }
        ensures same { EndSame dom (rules.forget self.old.state dom) self.new.state }
        ensures visits { AreFew dom self.old result }
    {
        let rings = self.end_rings(dom);
        let senders = self.end_senders(dom);
        let notices = self.end_notices(dom);
        Visits {
            rings,
            senders,
            notices,
        }
    }

    // Ends the rings of a domain: how many there were.
    fn end_rings(&mut self, dom: DomId) -> usize
        ensures none { rings_of self.new.state dom ≡ [] }
        ensures same { EndSame dom
            (rules.forget self.old.state dom) (rules.forget self.new.state dom) }
        ensures count { result ≡ length (rings_of self.old.state dom) }
        ensures sends { AreNoLonger self.old.sends self.new.sends }
        ensures waits { AreNoLonger self.old.waits self.new.waits }
    {
        let count = self.domains.ring_count(dom);
        for _ in 0..count {
            self.end_first_ring(dom);
        }
        count
    }

    // Ends the first ring of a domain, if it has one.
    fn end_first_ring(&mut self, dom: DomId)
        ensures same { EndSame dom
            (rules.forget self.old.state dom) (rules.forget self.new.state dom) }
        ensures count { length (rings_of self.new.state dom)
            ≡ length (rings_of self.old.state dom) - 1 }
        ensures sends { AreNoLonger self.old.sends self.new.sends }
        ensures waits { AreNoLonger self.old.waits self.new.waits }
    {
        let Some(id) = self.domains.first_ring(dom) else {
            return;
        };
        self.end_ring(&id);
    }

    // Ends the rings that are for a domain: how many there were.
    fn end_senders(&mut self, dom: DomId) -> usize
        requires { rings_of self.old.state dom ≡ [] }
        ensures rings { rings_of self.new.state dom ≡ [] }
        ensures none { ids_of self.new.sends dom ≡ [] }
        ensures same { rules.forget self.new.state dom ≡ rules.forget self.old.state dom }
        ensures count { result ≡ length (ids_of self.old.sends dom) }
        ensures waits { AreNoLonger self.old.waits self.new.waits }
    {
        let count = self.sends.count(dom);
        for _ in 0..count {
            self.end_first_sender(dom);
        }
        count
    }

    // Ends the first ring that is for a domain, if there is one.
    fn end_first_sender(&mut self, dom: DomId)
        requires { rings_of self.old.state dom ≡ [] }
        ensures rings { rings_of self.new.state dom ≡ [] }
        ensures same { rules.forget self.new.state dom ≡ rules.forget self.old.state dom }
        ensures count { length (ids_of self.new.sends dom)
            ≡ length (ids_of self.old.sends dom) - 1 }
        ensures waits { AreNoLonger self.old.waits self.new.waits }
    {
        let Some(id) = self.sends.take_first(dom) else {
            return;
        };
        take_off_noted(&mut self.waits, self.domains.noted(&id), &id);
        self.domains.end_ring(&id);
    }

    // Ends the notices of a domain on wildcard rings: how many there were.
    fn end_notices(&mut self, dom: DomId) -> usize
        requires rings { rings_of self.old.state dom ≡ [] }
        requires sends { ids_of self.old.sends dom ≡ [] }
        ensures rings { rings_of self.new.state dom ≡ [] }
        ensures is { self.new.state ≡ rules.forget self.old.state dom }
        ensures count { result ≡ length (ids_of self.old.waits dom) }
    {
        let count = self.waits.count(dom);
        for _ in 0..count {
            self.end_first_notice(dom);
        }
        self.nothing_is_left(dom);
        count
    }

    // Where the lists of a domain name nothing, nothing is left to forget of it: how many rings they name, which is none.
    fn nothing_is_left(&self, dom: DomId) -> usize
        requires rings { rings_of self.now.state dom ≡ [] }
        requires sends { ids_of self.now.sends dom ≡ [] }
        requires waits { ids_of self.now.waits dom ≡ [] }
        ensures left { rules.forget self.now.state dom ≡ self.now.state }
        ensures none { result ≡ 0 }
    {
        self.sends.count(dom)
    }

    // Ends the first notice of a domain on a wildcard ring, if it has one.
    fn end_first_notice(&mut self, dom: DomId)
        requires { rings_of self.old.state dom ≡ [] }
        ensures rings { rings_of self.new.state dom ≡ [] }
        ensures sends { self.new.sends ≡ self.old.sends }
        ensures same { rules.forget self.new.state dom ≡ rules.forget self.old.state dom }
        ensures count { length (ids_of self.new.waits dom)
            ≡ length (ids_of self.old.waits dom) - 1 }
    {
        let Some(id) = self.waits.take_first(dom) else {
            return;
        };
        self.domains.forget_notice(&id, dom);
    }

    /// Ends a ring, and takes it off the lists.
    pub(crate) fn end_ring(&mut self, id: &RingId)
        ensures state { self.new.state ≡ ring_ended self.old.state id.now }
        ensures sends { AreNoLonger self.old.sends self.new.sends }
        ensures waits { AreNoLonger self.old.waits self.new.waits }
    {
        self.sends.remove(id.partner, *id);
        take_off_noted(&mut self.waits, self.domains.noted(id), id);
        self.domains.end_ring(id);
    }
}

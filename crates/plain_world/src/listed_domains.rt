//! The domains, and the lists by which their ends go.
ghost use Rattle.argo_model.specs.Rules.State.{State as AnyState};

use crate::mends::{keep_if, take_off};
use argo_base::{DomId, Errno, NoMemory, Piece, RingKey};
use argo_model::{Action, ClosedDomains, DomainLine, FinalDomains, Outcome, Unseen};
use domain_lists::DomainLists;
use domains::{Domains, id_of};
use live_domain::{KeyedRings, Offer, Registration};
use section_world::DomainActs;
use std::alloc::Global;
use std::marker::Model;

/// The domains, with the lists of each: the rings that are registered for it, and the wildcard rings on which it waits. An act takes
/// the place that it may need on a list first, so that it ends with exact lists whether memory runs out or not.
#[derive(Drop)]
pub struct ListedDomains<L: KeyedRings> {
    pub(crate) domains: Domains<L>,
    /// The send lists.
    pub(crate) sends: DomainLists,
    /// The wildcard lists.
    pub(crate) waits: DomainLists,
}

impl<L: KeyedRings> Model for ListedDomains<L> {
    ghost use Rattle.plain_world.specs.Levels.{Levels, AreLevel};

    ghost Value = { Levels };

    ghost view = { λ w. record { state = w.domains; sends = w.sends; waits = w.waits } };

    ghost invariant = { λ w. AreLevel (record { state = w.domains; sends = w.sends; waits = w.waits }) };
}

impl<L: KeyedRings> DomainActs for ListedDomains<L> {
    ghost state = { λ w. w.state };

    fn start(alloc: Global, lines: &[DomainLine]) -> Result<ListedDomains<L>, NoMemory> {
        Ok(ListedDomains {
            domains: Domains::new(alloc, lines)?,
            sends: DomainLists::new(alloc),
            waits: DomainLists::new(alloc),
        })
    }

    fn caller(&self, dom: DomId, generation: u32) -> Option<bool> {
        self.domains.caller(dom, generation)
    }

    fn own_act(
        &mut self,
        alloc: Global,
        dom: DomId,
        generation: u32,
        action: Action,
    ) -> Result<Outcome, NoMemory> {
        let outcome = self.domains.own_act(alloc, dom, generation, action)?;
        Ok(outcome)
    }

    fn seen(&self, dom: DomId, generation: u32, piece: Piece) -> Result<&[u8], Unseen> {
        self.domains.seen(dom, generation, piece)
    }

    fn put(
        &mut self,
        caller: (DomId, u32),
        page: u64,
        off: u32,
        bytes: &[u8],
    ) -> Result<Outcome, NoMemory> {
        let outcome = self.domains.put(caller, page, off, bytes)?;
        Ok(outcome)
    }

    fn register(
        &mut self,
        alloc: Global,
        dom: DomId,
        generation: u32,
        r: Registration,
    ) -> Result<Outcome, NoMemory> {
        let id = id_of(dom, &r.key);
        self.sends.add(alloc, id.partner, id)?;
        let change = self.domains.register(alloc, dom, generation, r);
        let stands = self.domains.stands(&id);
        keep_if(&mut self.sends, id.partner, &id, stands);
        let change = change?;
        take_off(&mut self.waits, change.signals.as_slice(), &id);
        Ok(change.outcome)
    }

    fn unregister(
        &mut self,
        alloc: Global,
        dom: DomId,
        generation: u32,
        key: RingKey,
    ) -> Result<Outcome, NoMemory> {
        let Some(on) = self.domains.caller(dom, generation) else {
            return Ok(Outcome::Gone);
        };
        if !on {
            return Ok(Outcome::Refused(Errno::NoDev));
        }
        let id = id_of(dom, &key);
        if !self.domains.stands(&id) {
            return Ok(Outcome::Refused(Errno::NoEnt));
        }
        self.end_ring(&id);
        Ok(Outcome::Done)
    }

    fn sweep(
        &mut self,
        alloc: Global,
        dom: DomId,
        generation: u32,
        after: u64,
    ) -> Result<Outcome, NoMemory> {
        let change = self.domains.sweep(alloc, dom, generation, after)?;
        let doms = change.signals.as_slice();
        if !doms.is_empty() {
            // A sweep leaves every ring its key and its serial, so the next ring after the serial is still the one that was swept.
            let id = self.domains.next_ring(dom, after);
            take_off(&mut self.waits, doms, &id);
        }
        Ok(change.outcome)
    }

    fn deliver(
        &mut self,
        alloc: Global,
        generation: u32,
        to: DomId,
        to_port: u32,
        sent: &mut Offer,
    ) -> Result<Outcome, NoMemory> {
        let dom = sent.sender;
        let id = self.domains.met(to, to_port, dom);
        if !id.partner.is_any() {
            let outcome = self.domains.deliver(generation, to, to_port, sent)?;
            return Ok(outcome);
        }
        self.waits.add(alloc, dom, id)?;
        let outcome = self.domains.deliver(generation, to, to_port, sent);
        let waits = self.domains.is_noted(&id, dom);
        keep_if(&mut self.waits, dom, &id, waits);
        outcome
    }

    fn query(
        &mut self,
        alloc: Global,
        caller: (DomId, u32),
        to: DomId,
        to_port: u32,
        need: u32,
    ) -> Result<Outcome, NoMemory> {
        let (dom, generation) = caller;
        let id = self.domains.met(to, to_port, dom);
        if !id.partner.is_any() {
            let outcome = self.domains.query(dom, generation, to, to_port, need)?;
            return Ok(outcome);
        }
        self.waits.add(alloc, dom, id)?;
        let outcome = self.domains.query(dom, generation, to, to_port, need);
        let waits = self.domains.is_noted(&id, dom);
        keep_if(&mut self.waits, dom, &id, waits);
        outcome
    }

    fn destroy(&mut self, dom: DomId) -> Outcome {
        let (outcome, _) = self.destroy_by_lists(dom);
        outcome
    }

    fn reset(&mut self, alloc: Global, dom: DomId) -> Outcome {
        let (outcome, _) = self.reset_by_lists(alloc, dom);
        outcome
    }

    fn create(&mut self, alloc: Global, dom: DomId) -> Result<Outcome, NoMemory> {
        let outcome = self.domains.create(alloc, dom)?;
        Ok(outcome)
    }

    fn closed(&self, alloc: Global) -> Result<ClosedDomains, NoMemory> {
        self.domains.closed(alloc)
    }

    fn into_finals(self, alloc: Global) -> Result<FinalDomains, NoMemory> {
        let ListedDomains { domains, .. } = self;
        domains.into_finals(alloc)
    }
}

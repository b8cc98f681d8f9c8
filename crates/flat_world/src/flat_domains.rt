//! The domains of the flat world: what another keeps for a domain that ends is found by a walk over all.

use argo_base::{DomId, Errno, NoMemory, Piece, RingKey};
use argo_model::{Action, ClosedDomains, DomainLine, FinalDomains, Outcome, Unseen};
use domains::Domains;
use flat_live::Live;
use live_domain::{Offer, Registration};
use section_world::{DomainActs, SectionWorld};
use std::alloc::Global;
use std::marker::Model;

/// The domains of the flat world. Contracts see the abstract state.
#[derive(Drop)]
pub struct FlatDomains {
    domains: Domains<Live>,
}

impl Model for FlatDomains {
    ghost use Rattle.argo_model.specs.Rules.State.{State};

    ghost Value = { State };

    ghost view = { λ x. x.domains };
}

/// The flat world of a script: a `SectionWorld` over domains with flat memories.
pub type FlatWorld = SectionWorld<FlatDomains>;

impl DomainActs for FlatDomains {
    ghost state = { λ x. x };

    fn start(alloc: Global, lines: &[DomainLine]) -> Result<FlatDomains, NoMemory> {
        Ok(FlatDomains {
            domains: Domains::new(alloc, lines)?,
        })
    }

    fn caller(&self, dom: DomId, generation: u32) -> Option<bool> {
        self.domains.caller(dom, generation)
    }

    fn own_act(
        &mut self,
        alloc: Global,
        dom: DomId,
        generation: u32,
        action: Action,
    ) -> Result<Outcome, NoMemory> {
        self.domains.own_act(alloc, dom, generation, action)
    }

    fn seen(&self, dom: DomId, generation: u32, piece: Piece) -> Result<&[u8], Unseen> {
        self.domains.seen(dom, generation, piece)
    }

    fn put(
        &mut self,
        caller: (DomId, u32),
        page: u64,
        off: u32,
        bytes: &[u8],
    ) -> Result<Outcome, NoMemory> {
        self.domains.put(caller, page, off, bytes)
    }

    fn register(
        &mut self,
        alloc: Global,
        dom: DomId,
        generation: u32,
        r: Registration,
    ) -> Result<Outcome, NoMemory> {
        let change = self.domains.register(alloc, dom, generation, r)?;
        Ok(change.outcome)
    }

    fn unregister(
        &mut self,
        alloc: Global,
        dom: DomId,
        generation: u32,
        key: RingKey,
    ) -> Result<Outcome, NoMemory> {
        let RingKey { port, partner } = key;
        let action = Action::Unregister { port, partner };
        self.domains.own_act(alloc, dom, generation, action)
    }

    fn sweep(
        &mut self,
        alloc: Global,
        dom: DomId,
        generation: u32,
        after: u64,
    ) -> Result<Outcome, NoMemory> {
        let change = self.domains.sweep(alloc, dom, generation, after)?;
        Ok(change.outcome)
    }

    fn deliver(
        &mut self,
        _alloc: Global,
        generation: u32,
        to: DomId,
        to_port: u32,
        sent: &mut Offer,
    ) -> Result<Outcome, NoMemory> {
        self.domains.deliver(generation, to, to_port, sent)
    }

    fn query(
        &mut self,
        _alloc: Global,
        caller: (DomId, u32),
        to: DomId,
        to_port: u32,
        need: u32,
    ) -> Result<Outcome, NoMemory> {
        let (dom, generation) = caller;
        self.domains.query(dom, generation, to, to_port, need)
    }

    fn destroy(&mut self, dom: DomId) -> Outcome {
        if !self.domains.is_alive(dom) {
            return Outcome::Refused(Errno::Srch);
        }
        self.domains.forget(dom);
        self.domains.end_one(dom);
        Outcome::Done
    }

    fn reset(&mut self, alloc: Global, dom: DomId) -> Outcome {
        if !self.domains.is_alive(dom) {
            return Outcome::Refused(Errno::Srch);
        }
        self.domains.forget(dom);
        self.domains.reset_one(alloc, dom);
        Outcome::Done
    }

    fn create(&mut self, alloc: Global, dom: DomId) -> Result<Outcome, NoMemory> {
        self.domains.create(alloc, dom)
    }

    fn closed(&self, alloc: Global) -> Result<ClosedDomains, NoMemory> {
        self.domains.closed(alloc)
    }

    fn into_finals(self, alloc: Global) -> Result<FinalDomains, NoMemory> {
        self.domains.into_finals(alloc)
    }
}

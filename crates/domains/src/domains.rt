//! The domains as they stand, and each act on them that sees to no list.
ghost use Rattle.std.specs.Prelude.{◌≡◌, ◌^◌, IsTrue, IfOk, OnErr};
ghost use Rattle.argo_model.specs.declared.action.Action.TheVariants.{Deliver, Query};
ghost use Rattle.argo_model.specs.declared.scripts.Actor.TheVariants.{Vcpu};
ghost use Rattle.argo_model.specs.Rules.Act.{act};
ghost use Rattle.argo_model.specs.Rules.Destroy as ends;
ghost use Rattle.argo_model.specs.Rules.Fit.{is_fit_load};
ghost use Rattle.argo_model.specs.Rules.State as state;
ghost use Rattle.domains.specs.World.{accepted_signals};
ghost use Rattle.section_world.specs.Acts.{caller_on};
ghost use Rattle.section_world.specs.Young.{IsYoung};

use crate::domain::Domain;
use crate::domain_map::DomainMap;
use argo_base::{DomId, Errno, NoMemory};
use argo_model::{DomainLine, Outcome};
use live_domain::{LiveDomain, NO_ANSWER, Offer};
use std::alloc::Global;
use std::marker::Model;

/// The domains as they stand. Contracts see the abstract state.
#[derive(Drop)]
pub struct Domains<L: LiveDomain> {
    pub(crate) domains: DomainMap<Domain<L>>,
}

impl<L: LiveDomain> Model for Domains<L> {
    ghost use Rattle.argo_model.specs.Rules.State.{State};

    ghost Value = { State };

    ghost view = { λ w. w.domains };
}

impl<L: LiveDomain> Domains<L> {
    /// Every domain of the lines, alive with generation 1 and zeros for its pages.
    pub fn new(alloc: Global, lines: &[DomainLine]) -> Result<Domains<L>, NoMemory>
        ensures { IfOk result (λ w. w ≡ state.start_state lines.now) }
    {
        let mut domains = DomainMap::new(alloc);
        for line in lines {
            domains.insert(line.id, fresh(alloc, line)?)?;
        }
        Ok(Domains { domains })
    }

    /// Whether the domain is there, and alive.
    pub fn is_alive(&self, dom: DomId) -> bool
        ensures { result ≡ state.is_alive self.now dom }
    {
        match self.domains.get(dom) {
            Some(domain) => domain.life.is_some(),
            None => false,
        }
    }

    /// Whether the domain is there, and on.
    pub fn is_on(&self, dom: DomId) -> bool
        ensures { result ≡ state.is_on self.now dom }
    {
        match self.domains.get(dom) {
            Some(domain) => domain.on,
            None => false,
        }
    }

    /// Whether a caller is on, where it lives in the generation that its section names.
    pub fn caller(&self, dom: DomId, generation: u32) -> Option<bool>
        ensures { result ≡ caller_on self.now dom generation }
    {
        let domain = self.domains.get(dom)?;
        if domain.generation == generation as u64 && domain.life.is_some() {
            Some(domain.on)
        } else {
            None
        }
    }

    /// Sets the flag of a domain, where it is alive. It takes no memory.
    pub fn signal(&mut self, dom: DomId)
        ensures { self.new ≡ state.signal self.old dom }
    {
        let Some(domain) = self.domains.get_mut(dom) else {
            return;
        };
        domain.signal();
    }

    /// Sets the flags of these domains, where they are alive. It takes no memory.
    pub fn signal_all(&mut self, doms: &[DomId])
        ensures { self.new ≡ state.signal_all self.old doms.now }
    {
        for dom in doms {
            self.signal(*dom);
        }
    }

    // Sets the flag of the receiver of a message that was accepted.
    fn signal_if_accepted(&mut self, to: DomId, outcome: &Outcome)
        ensures { self.new ≡ state.signal_all self.old (accepted_signals to outcome.now) }
    {
        if let Outcome::Accepted(_) = outcome {
            self.signal(to);
        }
    }

    /// A caller sends from a port to a port of a domain. Where memory runs out all stay.
    #[inline(always)]
    pub fn deliver(
        &mut self,
        generation: u32,
        to: DomId,
        to_port: u32,
        sent: &mut Offer,
    ) -> Result<Outcome, NoMemory>
        requires { IsTrue (is_fit_load sent.old.load) }
        ensures ok { IfOk result
            (λ o. act (Vcpu sent.old.sender generation)
            (Deliver sent.old.port to to_port sent.old.kind sent.old.load) self.old
            ≡ record { outcome = o; state = self.new }) }
        ensures err { OnErr result (self.new ≡ self.old) }
        ensures err_sent { OnErr result (sent.new ≡ sent.old) }
    {
        let Some(on) = self.caller(sent.sender, generation) else {
            return Ok(Outcome::Gone);
        };
        if !self.is_alive(to) {
            return Ok(Outcome::Refused(Errno::Srch));
        }
        if !on {
            return Ok(Outcome::Refused(Errno::NoDev));
        }
        let Some(receiver) = self.domains.get_mut(to) else {
            return Ok(Outcome::Refused(Errno::ConnRefused));
        };
        let outcome = receiver.offer(to, to_port, sent)?;
        self.signal_if_accepted(to, &outcome);
        Ok(outcome)
    }

    /// A caller asks for room in the ring that it meets at a port of a domain. Where memory runs out all stay.
    pub fn query(
        &mut self,
        dom: DomId,
        generation: u32,
        to: DomId,
        to_port: u32,
        need: u32,
    ) -> Result<Outcome, NoMemory>
        ensures ok { IfOk result
            (λ o. act (Vcpu dom generation) (Query to to_port need) self.old
            ≡ record { outcome = o; state = self.new }) }
        ensures err { OnErr result (self.new ≡ self.old) }
    {
        let Some(on) = self.caller(dom, generation) else {
            return Ok(Outcome::Gone);
        };
        if !on {
            return Ok(Outcome::Refused(Errno::NoDev));
        }
        let Some(owner) = self.domains.get_mut(to) else {
            return Ok(Outcome::Answer(NO_ANSWER));
        };
        let outcome = owner.answer(to_port, dom, need)?;
        Ok(outcome)
    }

    /// Makes a domain that has ended anew, in its next generation. Where memory runs out all stay.
    pub fn create(&mut self, alloc: Global, dom: DomId) -> Result<Outcome, NoMemory>
        requires young { IsYoung (2 ^ 62) self.old }
        ensures ok { IfOk result
            (λ o. ends.create self.old dom ≡ record { outcome = o; state = self.new }) }
        ensures err { OnErr result (self.new ≡ self.old) }
    {
        let Some(domain) = self.domains.get_mut(dom) else {
            return Ok(Outcome::Refused(Errno::Srch));
        };
        if domain.life.is_some() {
            return Ok(Outcome::Refused(Errno::Exist));
        }
        domain.begin_anew(alloc, dom)?;
        Ok(Outcome::Done)
    }
}

// A domain as it starts.
fn fresh<L: LiveDomain>(alloc: Global, line: &DomainLine) -> Result<Domain<L>, NoMemory>
    ensures { IfOk result (λ x. x ≡ state.fresh_domain line.now) }
{
    Ok(Domain {
        on: line.on,
        pages: line.pages,
        generation: 1,
        life: Some(L::fresh(alloc, line.id, line.pages)?),
    })
}

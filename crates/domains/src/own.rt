//! Acts of a domain on what it has itself, and what others are told of it.
ghost use Rattle.std.specs.Prelude.{◌≡◌, ◌^◌, ◌&&◌, not, IsTrue, IfOk, IfErr, OnErr};
ghost use Rattle.argo_model.specs.declared.action.Action.TheVariants.{Put, Sweep as Sweeps};
ghost use Rattle.argo_model.specs.declared.action.Outcome.TheVariants.{Bytes};
ghost use Rattle.argo_model.specs.declared.scripts.Actor.TheVariants.{Vcpu};
ghost use Rattle.argo_model.specs.Rules.Access.{fetch_of, outcome_unseen};
ghost use Rattle.argo_model.specs.Rules.Act.{act};
ghost use Rattle.argo_model.specs.Rules.Fit.{is_fit};
ghost use Rattle.argo_model.specs.Rules.Register.{is_single};
ghost use Rattle.argo_model.specs.Rules.State as state;
ghost use Rattle.live_domain.specs.Own.{is_own};
ghost use Rattle.section_world.specs.Acts.{registers};
ghost use Rattle.domains.specs.World.{registered, swept};
ghost use Rattle.section_world.specs.Young.{IsYoung};

use crate::domains::Domains;
use argo_base::{DomId, Errno, NoMemory, Piece};
use argo_model::{Action, Outcome, Unseen};
use live_domain::{Change, LiveDomain, Registration};
use std::alloc::Global;

impl<L: LiveDomain> Domains<L> {
    /// An act of a domain on what it has itself. Where memory runs out all stay.
    pub fn own_act(
        &mut self,
        alloc: Global,
        dom: DomId,
        generation: u32,
        action: Action,
    ) -> Result<Outcome, NoMemory>
        requires fit { IsTrue (is_fit action) }
        requires own { IsTrue (is_own action) }
        ensures ok { IfOk result
            (λ o. act (Vcpu dom generation) action self.old
            ≡ record { outcome = o; state = self.new }) }
        ensures err { OnErr result (self.new ≡ self.old) }
    {
        let Some(domain) = self.domains.get_mut(dom) else {
            return Ok(Outcome::Gone);
        };
        let outcome = domain.act(alloc, generation, action)?;
        Ok(outcome)
    }

    /// The bytes of a piece of a caller.
    pub fn seen(&self, dom: DomId, generation: u32, piece: Piece) -> Result<&[u8], Unseen>
        requires { IsTrue (is_fit (fetch_of piece)) }
        ensures bytes { IfOk result (λ bytes. act (Vcpu dom generation) (fetch_of piece) self.now
            ≡ record { outcome = Bytes bytes.now; state = self.now }) }
        ensures unseen { IfErr result (λ u. act (Vcpu dom generation) (fetch_of piece) self.now
            ≡ record { outcome = outcome_unseen u; state = self.now }) }
    {
        let Some(domain) = self.domains.get(dom) else {
            return Err(Unseen::Gone);
        };
        domain.seen(generation, piece)
    }

    /// A caller puts bytes into a page. Where memory runs out all stay.
    pub fn put(
        &mut self,
        caller: (DomId, u32),
        page: u64,
        off: u32,
        bytes: &[u8],
    ) -> Result<Outcome, NoMemory>
        requires { IsTrue (is_fit (Put page off bytes.now)) }
        ensures ok { IfOk result
            (λ o. act (Vcpu caller.0 caller.1) (Put page off bytes.now) self.old
            ≡ record { outcome = o; state = self.new }) }
        ensures err { OnErr result (self.new ≡ self.old) }
    {
        let (dom, generation) = caller;
        let Some(domain) = self.domains.get_mut(dom) else {
            return Ok(Outcome::Gone);
        };
        let outcome = domain.put(generation, page, off, bytes)?;
        Ok(outcome)
    }

    /// A caller sweeps its next ring. Where memory runs out all stay.
    pub fn sweep(
        &mut self,
        alloc: Global,
        dom: DomId,
        generation: u32,
        serial: u64,
    ) -> Result<Change, NoMemory>
        ensures ok { IfOk result
            (λ c. act (Vcpu dom generation) (Sweeps serial) self.old
            ≡ record { outcome = c.outcome; state = self.new }) }
        ensures signals { IfOk result
            (λ c. c.signals.items ≡ swept self.old dom generation serial) }
        ensures err { OnErr result (self.new ≡ self.old) }
    {
        let Some(domain) = self.domains.get_mut(dom) else {
            return Ok(Change::quiet(alloc, Outcome::Gone));
        };
        let change = domain.sweep(alloc, generation, serial)?;
        self.signal_all(change.signals.as_slice());
        Ok(change)
    }

    /// A caller registers a ring. Where memory runs out all stay.
    pub fn register(
        &mut self,
        alloc: Global,
        dom: DomId,
        generation: u32,
        r: Registration,
    ) -> Result<Change, NoMemory>
        requires fit { IsTrue (is_fit (registers r)) }
        requires young { IsYoung (2 ^ 62) self.old }
        ensures ok { IfOk result
            (λ c. act (Vcpu dom generation) (registers r) self.old
            ≡ record { outcome = c.outcome; state = self.new }) }
        ensures signals { IfOk result
            (λ c. c.signals.items ≡ registered self.old dom generation r) }
        ensures err { OnErr result (self.new ≡ self.old) }
    {
        let key = r.key;
        let Some(on) = self.caller(dom, generation) else {
            return Ok(Change::quiet(alloc, Outcome::Gone));
        };
        if self.is_missing(key.partner) {
            return Ok(Change::quiet(alloc, Outcome::Refused(Errno::Srch)));
        }
        if !on {
            return Ok(Change::quiet(alloc, Outcome::Refused(Errno::NoDev)));
        }
        if self.is_off(key.partner) {
            return Ok(Change::quiet(alloc, Outcome::Refused(Errno::ConnRefused)));
        }
        let Some(domain) = self.domains.get_mut(dom) else {
            return Ok(Change::quiet(alloc, Outcome::Gone));
        };
        let change = domain.register(alloc, r)?;
        self.signal_all(change.signals.as_slice());
        Ok(change)
    }

    // Whether a single partner is not alive. The wildcard never is missing.
    fn is_missing(&self, partner: DomId) -> bool
        ensures { result ≡ (is_single partner && not (state.is_alive self.now partner)) }
    {
        !partner.is_any() && !self.is_alive(partner)
    }

    // Whether a single partner is not on. The wildcard never is off.
    fn is_off(&self, partner: DomId) -> bool
        ensures { result ≡ (is_single partner && not (state.is_on self.now partner)) }
    {
        !partner.is_any() && !self.is_on(partner)
    }
}

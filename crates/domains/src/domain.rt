//! A domain of the world.
ghost use Rattle.std.specs.Prelude.{◌≡◌, ◌+◌, ◌<◌, ◌≤◌, ◌^◌, Some, IsTrue, IfOk, IfErr, IfSome, OnOk, OnErr, length};
ghost use Rattle.argo_base.specs.Slots.{is_legal, page_count};
ghost use Rattle.argo_model.specs.declared.action.Action.TheVariants.{Put};
ghost use Rattle.argo_model.specs.declared.action.Outcome.TheVariants.{Bytes};
ghost use Rattle.argo_model.specs.Rules.Access.{fetch_of, outcome_unseen};
ghost use Rattle.argo_model.specs.Rules.Effects.{answered};
ghost use Rattle.argo_model.specs.Rules.Deliver.{offer_to_domain};
ghost use Rattle.argo_model.specs.Rules.Destroy.{gone_domain, live_without, reset_live, next_domain};
ghost use Rattle.argo_model.specs.Rules.Fit.{is_fit, is_fit_load};
ghost use Rattle.argo_model.specs.Rules.Query.{query_domain};
ghost use Rattle.argo_model.specs.Rules.Register.{without_ring};
ghost use Rattle.argo_model.specs.Rules.State.{change_life, signalled};
ghost use Rattle.live_domain.specs.Keyed.{without_notice};
ghost use Rattle.domains.specs.Domain.{own_in, register_in, sweep_in, with_left};

use argo_base::{DomId, Errno, NoMemory, Piece, RingKey};
use argo_model::{Action, Outcome, Unseen};
use live_domain::{Change, KeyedRings, LiveDomain, NO_ANSWER, Offer, Registration};
use std::alloc::Global;
use std::marker::Model;

/// A domain. Whether it is on, and its count of pages, never change.
#[derive(Drop)]
pub(crate) struct Domain<L: LiveDomain> {
    pub(crate) on: bool,
    pub(crate) pages: u32,
    pub(crate) generation: u64,
    pub(crate) life: Option<L>,
}

impl<L: LiveDomain> Model for Domain<L> {
    ghost use Rattle.argo_model.specs.Rules.State.{Domain as TheDomain};
    ghost use Rattle.std.specs.Prelude.{option_map};

    ghost Value = { TheDomain };

    ghost view = { λ x. record {
      on = x.on;
      pages = x.pages;
      generation = x.generation;
      life = option_map L.live x.life;
    } };
}

impl<L: LiveDomain> Domain<L> {
    /// An act of the domain on what it has itself, where it lives in this generation. Where memory runs out all stays.
    pub(crate) fn act(
        &mut self,
        alloc: Global,
        generation: u32,
        action: Action,
    ) -> Result<Outcome, NoMemory>
        requires { IsTrue (is_fit action) }
        ensures outcome { IfOk result (λ o. o ≡ (own_in generation self.old action).outcome) }
        ensures left { OnOk result
            (self.new ≡ with_left self.old (own_in generation self.old action).left) }
        ensures err { OnErr result (self.new ≡ self.old) }
    {
        if self.generation != generation as u64 {
            return Ok(Outcome::Gone);
        }
        let on = self.on;
        let Some(live) = &mut self.life else {
            return Ok(Outcome::Gone);
        };
        let outcome = live.act(alloc, on, action)?;
        Ok(outcome)
    }

    /// The bytes of a piece, where the domain lives in this generation.
    pub(crate) fn seen(&self, generation: u32, piece: Piece) -> Result<&[u8], Unseen>
        requires { piece.off + piece.n ≤ 4096 }
        ensures bytes { IfOk result (λ bytes.
            own_in generation self.now (fetch_of piece) ≡ answered (Bytes bytes.now)) }
        ensures unseen { IfErr result (λ u.
            own_in generation self.now (fetch_of piece) ≡ answered (outcome_unseen u)) }
    {
        if self.generation != generation as u64 {
            return Err(Unseen::Gone);
        }
        let Some(live) = &self.life else {
            return Err(Unseen::Gone);
        };
        let Some(bytes) = live.seen(piece) else {
            return Err(Unseen::Fault);
        };
        Ok(bytes)
    }

    /// Puts bytes into a page, where the domain lives in this generation.
    pub(crate) fn put(
        &mut self,
        generation: u32,
        page: u64,
        off: u32,
        bytes: &[u8],
    ) -> Result<Outcome, NoMemory>
        requires { off + length bytes.now ≤ 4096 }
        ensures outcome { IfOk result
            (λ o. o ≡ (own_in generation self.old (Put page off bytes.now)).outcome) }
        ensures left { OnOk result (self.new
            ≡ with_left self.old (own_in generation self.old (Put page off bytes.now)).left) }
        ensures err { OnErr result (self.new ≡ self.old) }
    {
        if self.generation != generation as u64 {
            return Ok(Outcome::Gone);
        }
        let Some(live) = &mut self.life else {
            return Ok(Outcome::Gone);
        };
        let outcome = live.put(page, off, bytes)?;
        Ok(outcome)
    }

    /// Sweeps the domain's next ring, where it lives in this generation. Where memory runs out all stays.
    pub(crate) fn sweep(
        &mut self,
        alloc: Global,
        generation: u32,
        serial: u64,
    ) -> Result<Change, NoMemory>
        ensures outcome { IfOk result
            (λ c. c.outcome ≡ (sweep_in generation self.old serial).outcome) }
        ensures signals { IfOk result
            (λ c. c.signals.items ≡ (sweep_in generation self.old serial).signals) }
        ensures left { OnOk result
            (self.new ≡ with_left self.old (sweep_in generation self.old serial).left) }
        ensures err { OnErr result (self.new ≡ self.old) }
    {
        if self.generation != generation as u64 {
            return Ok(Change::quiet(alloc, Outcome::Gone));
        }
        let on = self.on;
        let Some(live) = &mut self.life else {
            return Ok(Change::quiet(alloc, Outcome::Gone));
        };
        if !on {
            return Ok(Change::quiet(alloc, Outcome::Refused(Errno::NoDev)));
        }
        let change = live.sweep(alloc, serial)?;
        Ok(change)
    }

    /// Registers a ring of the domain, where it is alive, among its own. Where memory runs out all stays.
    pub(crate) fn register(&mut self, alloc: Global, r: Registration) -> Result<Change, NoMemory>
        requires legal { IsTrue (is_legal r.len) }
        requires counted { length r.pages ≡ page_count r.len }
        requires young { IfSome self.old.life (λ live. live.next_serial < 2 ^ 63) }
        ensures outcome { IfOk result (λ c. c.outcome ≡ (register_in self.old r).outcome) }
        ensures signals { IfOk result
            (λ c. c.signals.items ≡ (register_in self.old r).signals) }
        ensures left { OnOk result
            (self.new ≡ with_left self.old (register_in self.old r).left) }
        ensures err { OnErr result (self.new ≡ self.old) }
    {
        let Some(live) = &mut self.life else {
            return Ok(Change::quiet(alloc, Outcome::Gone));
        };
        let change = live.register(alloc, r)?;
        Ok(change)
    }

    /// Takes an offer to the ring that the sender meets at a port of this domain. Where memory runs out all stays.
    pub(crate) fn offer(
        &mut self,
        to: DomId,
        to_port: u32,
        sent: &mut Offer,
    ) -> Result<Outcome, NoMemory>
        requires { IsTrue (is_fit_load sent.old.load) }
        ensures outcome { IfOk result
            (λ o. o ≡ (offer_to_domain to to_port sent.old (Some self.old)).outcome) }
        ensures left { OnOk result
            (self.new
            ≡ with_left self.old (offer_to_domain to to_port sent.old (Some self.old)).left) }
        ensures err { OnErr result (self.new ≡ self.old) }
        ensures err_sent { OnErr result (sent.new ≡ sent.old) }
    {
        if !self.on {
            return Ok(Outcome::Refused(Errno::ConnRefused));
        }
        let Some(live) = &mut self.life else {
            return Ok(Outcome::Refused(Errno::ConnRefused));
        };
        let outcome = live.offer(to, to_port, sent)?;
        Ok(outcome)
    }

    /// Answers a sender that asks for room at a port. Where memory runs out all stays.
    pub(crate) fn answer(
        &mut self,
        port: u32,
        sender: DomId,
        need: u32,
    ) -> Result<Outcome, NoMemory>
        ensures outcome { IfOk result
            (λ o. o ≡ (query_domain sender port need (Some self.old)).outcome) }
        ensures left { OnOk result
            (self.new ≡ with_left self.old (query_domain sender port need (Some self.old)).left) }
        ensures err { OnErr result (self.new ≡ self.old) }
    {
        if !self.on {
            return Ok(Outcome::Answer(NO_ANSWER));
        }
        let Some(live) = &mut self.life else {
            return Ok(Outcome::Answer(NO_ANSWER));
        };
        live.answer(port, sender, need)
    }

    /// Sets the flag, where the domain is alive. It takes no memory.
    pub(crate) fn signal(&mut self)
        ensures { self.new ≡ signalled self.old }
    {
        if let Some(live) = &mut self.life {
            live.signal();
        }
    }

    /// Ends the rings that are for another domain alone, and its notices.
    pub(crate) fn forget(&mut self, dom: DomId)
        ensures { self.new ≡ change_life (live_without dom) self.old }
    {
        if let Some(live) = &mut self.life {
            live.forget(dom);
        }
    }

    /// Ends all rings, and clears the flag.
    pub(crate) fn reset(&mut self, alloc: Global)
        ensures { self.new ≡ change_life reset_live self.old }
    {
        if let Some(live) = &mut self.life {
            live.reset(alloc);
        }
    }

    /// Ends the domain, with all that it has.
    pub(crate) fn end(&mut self)
        ensures { self.new ≡ gone_domain self.old }
    {
        self.life = None;
    }

    /// Makes the domain anew, in its next generation.
    pub(crate) fn begin_anew(&mut self, alloc: Global, dom: DomId) -> Result<(), NoMemory>
        requires young { self.old.generation < 2 ^ 63 }
        ensures ok { OnOk result (self.new ≡ next_domain self.old) }
        ensures err { OnErr result (self.new ≡ self.old) }
    {
        let live = L::fresh(alloc, dom, self.pages)?;
        self.generation += 1;
        self.life = Some(live);
        Ok(())
    }
}

impl<L: KeyedRings> Domain<L> {
    /// Ends the ring of a key, where one stands.
    pub(crate) fn end_ring(&mut self, key: RingKey)
        ensures { self.new ≡ change_life (λ live. without_ring live key) self.old }
    {
        if let Some(live) = &mut self.life {
            live.end_ring(key);
        }
    }

    /// Ends another domain's notice on the ring of a key, where it waits on one.
    pub(crate) fn forget_notice(&mut self, key: RingKey, dom: DomId)
        ensures { self.new ≡ change_life (λ live. without_notice live key dom) self.old }
    {
        if let Some(live) = &mut self.life {
            live.forget_notice(key, dom);
        }
    }
}

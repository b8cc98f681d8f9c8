//! A recv, action by action.

ghost use Rattle.std.specs.Prelude.{◌≡◌, ◌<◌, ◌↔◌, true, IsTrue, IsSome, IfOk, IfErr, IfSome, IfNone, OnOk, OnErr};
ghost use Rattle.argo_base.specs.Slots.{is_legal};
ghost use Rattle.argo_model.specs.declared.action.Outcome.TheVariants.{Bytes};
ghost use Rattle.argo_model.specs.Rules.Access.{outcome_unseen};
ghost use Rattle.argo_model.specs.Rules.Fit.{is_fit};
ghost use Rattle.guest_lib.specs.Receiving.{Starts, IsUnderWay, IsShort, IsNext, FeedsAll, CanFeed, GoesOn, action_of, left_of};

use crate::ask::Ask;
use crate::fetched::unseen_by;
use crate::own_ring::OwnRing;
use crate::received::Received;
use crate::stage::Stage;
use argo_base::NoMemory;
use argo_model::{Action, Outcome, Unseen};
use std::alloc::Global;
use std::marker::Model;
use std::mem;

/// A message that is being taken from a ring of the guest's own. Contracts see how far it is.
#[derive(Drop)]
pub struct Recv {
    alloc: Global,
    ring: OwnRing,
    stage: Stage,
    // The memory for the next outcome is there.
    ready: bool,
}

impl Model for Recv {
    ghost use Rattle.std.specs.Prelude.{IsTrue};
    ghost use Rattle.argo_base.specs.Slots.{is_legal};
    ghost use Rattle.guest_lib.specs.Receiving.{Receiving};
    ghost use Rattle.guest_lib.specs.Stage.{step_of, IsStage};

    ghost Value = { Receiving };

    ghost view = { λ r. record { page = r.ring.page; len = r.ring.len; step = step_of r.stage; ready = r.ready } };

    ghost invariant = { λ r. IsTrue (is_legal r.ring.len) × IsStage r.ring.len r.ready r.stage };
}

impl Recv {
    /// A recv from the ring of `len` slot bytes that stands on a page of the guest and those that follow it.
    pub fn start(alloc: Global, page: u32, len: u32) -> Recv
        requires { IsTrue (is_legal len) }
        ensures starts { Starts page len result }
        ensures under_way { IsUnderWay result }
        ensures left { left_of result ≡ 4104 }
    {
        Recv {
            alloc,
            ring: OwnRing { page, len },
            stage: Stage::Rx,
            ready: false,
        }
    }

    /// The next action, with all the memory that its outcome will want, and none for the action itself. After want of memory the recv
    /// is as before.
    #[inline(always)]
    pub fn ask(&mut self) -> Result<Ask, NoMemory>
        requires { 0 < left_of self.old }
        ensures does { IfOk result (λ a. IsNext self.old (action_of a)) }
        ensures fit { IfOk result (λ a. IsTrue (is_fit (action_of a))) }
        ensures feeds { IfOk result (λ a. FeedsAll (action_of a) self.new) }
        ensures ok { OnOk result (self.new ≡ record self.old { ready = true }) }
        ensures err { OnErr result (self.new ≡ self.old) }
    {
        let ask = self.stage.ask(self.ring)?;
        self.ready = true;
        Ok(ask)
    }

    /// As `ask`, with the action as the machine has it.
    #[inline(always)]
    pub fn next(&mut self) -> Result<Action, NoMemory>
        requires { 0 < left_of self.old }
        ensures does { IfOk result (λ a. IsNext self.old a) }
        ensures fit { IfOk result (λ a. IsTrue (is_fit a)) }
        ensures feeds { IfOk result (λ a. FeedsAll a self.new) }
        ensures ok { OnOk result (self.new ≡ record self.old { ready = true }) }
        ensures err { OnErr result (self.new ≡ self.old) }
    {
        let ask = self.stage.ask(self.ring)?;
        let action = ask.action(self.alloc)?;
        self.ready = true;
        Ok(action)
    }

    /// Takes the outcome of the action that `next` gave, and answers what the recv came to, where it has come to its end. It takes
    /// no memory.
    pub fn feed(&mut self, outcome: Outcome) -> Option<Received>
        requires ready { IsTrue self.old.ready }
        requires can { CanFeed self.old outcome }
        ensures goes_on { GoesOn self.old outcome result self.new }
        ensures under_way { IfNone result (IsUnderWay self.new) }
        ensures short { IfSome result IsShort }
        ensures nearer { left_of self.new < left_of self.old }
        ensures over { IsSome result ↔ (left_of self.new ≡ 0) }
    {
        self.feed_by(&outcome)
    }

    /// As `feed`, of the bytes that a fetch showed.
    #[inline(always)]
    pub fn hear(&mut self, seen: Result<&[u8], Unseen>) -> Option<Received>
        requires ready { IsTrue self.old.ready }
        requires can { IfOk seen (λ bytes. CanFeed self.old (Bytes bytes.now)) }
        requires can_not { IfErr seen (λ u. CanFeed self.old (outcome_unseen u)) }
        ensures goes_on { IfOk seen.entry
            (λ bytes. GoesOn self.old (Bytes bytes.now) result self.new) }
        ensures ends { IfErr seen.entry (λ u. GoesOn self.old (outcome_unseen u) result self.new) }
        ensures under_way { IfNone result (IsUnderWay self.new) }
        ensures short { IfSome result IsShort }
        ensures nearer { left_of self.new < left_of self.old }
        ensures over { IsSome result ↔ (left_of self.new ≡ 0) }
    {
        self.ready = false;
        match seen {
            Ok(bytes) => self.stage.hear(self.alloc, self.ring, bytes),
            Err(unseen) => {
                self.stage = Stage::Done;
                Some(unseen_by(unseen))
            }
        }
    }

    /// As `feed`, of an outcome that the caller keeps.
    #[inline(always)]
    pub fn feed_by(&mut self, outcome: &Outcome) -> Option<Received>
        requires ready { IsTrue self.old.ready }
        requires can { CanFeed self.old outcome.now }
        ensures goes_on { GoesOn self.old outcome.now result self.new }
        ensures under_way { IfNone result (IsUnderWay self.new) }
        ensures short { IfSome result IsShort }
        ensures nearer { left_of self.new < left_of self.old }
        ensures over { IsSome result ↔ (left_of self.new ≡ 0) }
    {
        if let Outcome::Bytes(bytes) = outcome {
            return self.hear(Ok(bytes.as_slice()));
        }
        let stage = mem::replace(&mut self.stage, Stage::Done);
        self.ready = false;
        Some(stage.ended_by(self.ring, outcome))
    }
}

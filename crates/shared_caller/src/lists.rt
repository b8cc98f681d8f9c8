//! The index lists of domains: which rings are for them alone, and which wildcard rings hold a notice of them. One lock at a time.
ghost use Rattle.std.specs.Prelude.{◌≡◌, IfOk};
ghost use Rattle.argo_model.specs.Programs.Program.{caller_of};
ghost use Rattle.lock_tokens.specs.Ranks.{IsAboveAll};
ghost use Rattle.shared_caller.specs.Waiting.{is_listed};

use crate::caller::Caller;
use crate::waiting::{is_noted, will_wait};
use argo_base::{DomId, NoMemory, RingId};
use argo_model::Outcome;
use pending_list::Notices;
use ring_core::Ring;
use shared_parts::Plan;
use shared_steps::{Pause, WorldPass};
use std::sync::Wait;
use std::sync::ledger::Ledger;

#[tactic(auto, using(shared_steps::proofs::Ranks::is_last, shared_steps::proofs::Ranks::restored))]
impl<'a, A: Plan, B: Ledger, C: Ledger, P: Pause> Caller<'a, A, B, C, P> {
    /// Puts a ring into the list of its single partner. A wildcard ring has none.
    pub fn list_ring<R: Wait>(
        &self,
        rt: &R,
        pass: &mut WorldPass<A, B, C>,
        id: RingId,
    ) -> Result<(), NoMemory>
        requires { IsAboveAll 4 pass.old.held }
        ensures { pass.new ≡ pass.old }
    {
        let Some(partner) = self.domains.party(id.partner) else {
            return Ok(());
        };
        let mut sends = pass.lock(rt, &partner.live.sends);
        let added = sends.value_mut().add(id);
        pass.unlock(sends);
        added
    }

    /// Takes a ring off the list of its single partner.
    pub fn unlist_ring<R: Wait>(&self, rt: &R, pass: &mut WorldPass<A, B, C>, id: RingId)
        requires { IsAboveAll 4 pass.old.held }
        ensures { pass.new ≡ pass.old }
    {
        let Some(partner) = self.domains.party(id.partner) else {
            return;
        };
        let mut sends = pass.lock(rt, &partner.live.sends);
        sends.value_mut().remove(id);
        pass.unlock(sends);
    }

    /// Takes a ring off the list of its single partner again, where it was not made.
    pub fn keep_listed<R: Wait>(
        &self,
        rt: &R,
        pass: &mut WorldPass<A, B, C>,
        id: RingId,
        outcome: &Result<Outcome, NoMemory>,
    )
        requires { IsAboveAll 4 pass.old.held }
        ensures { pass.new ≡ pass.old }
    {
        if let Ok(Outcome::Done) = outcome {
            return;
        }
        self.unlist_ring(rt, pass, id);
    }

    /// Puts a wildcard ring into the caller's list where the caller is to have a notice there, when it asks for room for so many bytes.
    /// It tells whether the list names the ring then.
    pub fn list_notice<R: Wait>(
        &self,
        rt: &R,
        pass: &mut WorldPass<A, B, C>,
        ring: &Ring,
        size: u32,
    ) -> Result<bool, NoMemory>
        requires { IsAboveAll 5 pass.old.held }
        ensures pass { pass.new ≡ pass.old }
        ensures listed { IfOk result
            (λ listed. listed ≡ is_listed ring.now (caller_of self.now) size) }
    {
        let id = ring.id();
        if !id.partner.is_any() {
            return Ok(false);
        }
        if is_noted(ring, self.party.id) {
            return Ok(true);
        }
        if !will_wait(ring, size) {
            return Ok(false);
        }
        let mut wilds = pass.lock(rt, &self.party.live.wilds);
        let added = wilds.value_mut().add(id);
        pass.unlock(wilds);
        added?;
        Ok(true)
    }

    /// Takes a wildcard ring off the caller's list, unless it holds a notice of the caller.
    pub fn unlist_notice<R: Wait>(&self, rt: &R, pass: &mut WorldPass<A, B, C>, ring: &Ring)
        requires { IsAboveAll 5 pass.old.held }
        ensures { pass.new ≡ pass.old }
    {
        if is_noted(ring, self.party.id) {
            return;
        }
        let mut wilds = pass.lock(rt, &self.party.live.wilds);
        wilds.value_mut().remove(ring.id());
        pass.unlock(wilds);
    }

    /// Takes a ring off the lists of domains whose notices there ended. Only wildcard rings are in such lists.
    pub fn unlist_ended<R: Wait>(
        &self,
        rt: &R,
        pass: &mut WorldPass<A, B, C>,
        id: RingId,
        ended: &[DomId],
    )
        requires { IsAboveAll 5 pass.old.held }
        ensures { pass.new ≡ pass.old }
    {
        if id.partner.is_any() {
            self.unlist_doms(rt, pass, &id, ended);
        }
    }

    // Takes a wildcard ring off the lists of these domains.
    fn unlist_doms<R: Wait>(
        &self,
        rt: &R,
        pass: &mut WorldPass<A, B, C>,
        id: &RingId,
        doms: &[DomId],
    )
        requires { IsAboveAll 5 pass.old.held }
        ensures { pass.new ≡ pass.old }
    {
        for dom in doms {
            self.unlist_one(rt, pass, id, *dom);
        }
    }

    // Takes a wildcard ring off the list of one domain.
    fn unlist_one<R: Wait>(&self, rt: &R, pass: &mut WorldPass<A, B, C>, id: &RingId, dom: DomId)
        requires { IsAboveAll 5 pass.old.held }
        ensures { pass.new ≡ pass.old }
    {
        let Some(party) = self.domains.party(dom) else {
            return;
        };
        let mut wilds = pass.lock(rt, &party.live.wilds);
        wilds.value_mut().remove(*id);
        pass.unlock(wilds);
    }

    /// Takes a ring that has ended off each list that names it.
    pub fn unlist_all<R: Wait>(
        &self,
        rt: &R,
        pass: &mut WorldPass<A, B, C>,
        id: RingId,
        notices: &Notices,
    )
        requires { IsAboveAll 4 pass.old.held }
        ensures { pass.new ≡ pass.old }
    {
        if id.partner.is_any() {
            self.unlist_notices(rt, pass, &id, notices);
        } else {
            self.unlist_ring(rt, pass, id);
        }
    }

    // Takes a wildcard ring off the lists of all that had notices there.
    fn unlist_notices<R: Wait>(
        &self,
        rt: &R,
        pass: &mut WorldPass<A, B, C>,
        id: &RingId,
        notices: &Notices,
    )
        requires { IsAboveAll 5 pass.old.held }
        ensures { pass.new ≡ pass.old }
    {
        for notice in notices.as_slice() {
            self.unlist_one(rt, pass, id, notice.0);
        }
    }
}

//! The domains of a world, with each act on them.
ghost use Rattle.std.specs.Prelude.{◌≡◌, ◌^◌, IsTrue, IfOk, IfErr, OnErr, map};
ghost use Rattle.argo_model.specs.declared.action.Action.TheVariants.{Deliver, Put, Query, Register, Sweep, Unregister};
ghost use Rattle.argo_model.specs.declared.action.Outcome.TheVariants.{Bytes};
ghost use Rattle.argo_model.specs.declared.scripts.Actor.TheVariants.{Vcpu};
ghost use Rattle.argo_model.specs.Rules.Access.{fetch_of, outcome_unseen};
ghost use Rattle.argo_model.specs.Rules.Act.{act};
ghost use Rattle.argo_model.specs.Rules.Destroy as ends;
ghost use Rattle.argo_model.specs.Rules.Fit.{is_fit};
ghost use Rattle.argo_model.specs.Rules.State.{State as AnyState, start_state};
ghost use Rattle.argo_model.specs.Runs.Closed.{closed_domains};
ghost use Rattle.argo_model.specs.Runs.Final.{final_domain};
ghost use Rattle.section_world.specs.Acts.{caller_on, keeps_rings, registers};
ghost use Rattle.section_world.specs.Young.{are_shown, IsYoung};

use argo_base::{DomId, NoMemory, Piece, RingKey};
use argo_model::{Action, ClosedDomains, DomainLine, FinalDomains, Outcome, Unseen};
use live_domain::{Offer, Registration};
use std::alloc::Global;

/// The domains of a world, with each act of a caller on them. Contracts see the abstract state, and each act is the rule's. Where an
/// act runs out of memory, the state stays.
pub trait DomainActs: Sized + Drop {
    ghost state: { Self → AnyState };

    /// Every domain of the lines, alive with generation 1 and zeros for its pages.
    fn start(alloc: Global, lines: &[DomainLine]) -> Result<Self, NoMemory>
        ensures { IfOk result (λ w. state w ≡ start_state lines.now) };

    /// Whether a caller is on, where it lives in the generation that its section names.
    fn caller(&self, dom: DomId, generation: u32) -> Option<bool>
        ensures { result ≡ caller_on (state self.now) dom generation };

    /// An act of a domain on what it has itself, in which no ring comes or goes.
    fn own_act(
        &mut self,
        alloc: Global,
        dom: DomId,
        generation: u32,
        action: Action,
    ) -> Result<Outcome, NoMemory>
        requires fit { IsTrue (is_fit action) }
        requires own { IsTrue (keeps_rings action) }
        ensures ok { IfOk result (λ o. act (Vcpu dom generation) action (state self.old)
            ≡ record { outcome = o; state = state self.new }) }
        ensures err { OnErr result (state self.new ≡ state self.old) };

    /// The bytes of a piece of a caller.
    fn seen(&self, dom: DomId, generation: u32, piece: Piece) -> Result<&[u8], Unseen>
        requires { IsTrue (is_fit (fetch_of piece)) }
        ensures bytes { IfOk result
            (λ bytes. act (Vcpu dom generation) (fetch_of piece) (state self.now)
            ≡ record { outcome = Bytes bytes.now; state = state self.now }) }
        ensures unseen { IfErr result
            (λ u. act (Vcpu dom generation) (fetch_of piece) (state self.now)
            ≡ record { outcome = outcome_unseen u; state = state self.now }) };

    /// A caller puts bytes into a page.
    fn put(
        &mut self,
        caller: (DomId, u32),
        page: u64,
        off: u32,
        bytes: &[u8],
    ) -> Result<Outcome, NoMemory>
        requires { IsTrue (is_fit (Put page off bytes.now)) }
        ensures ok { IfOk result
            (λ o. act (Vcpu caller.0 caller.1) (Put page off bytes.now) (state self.old)
            ≡ record { outcome = o; state = state self.new }) }
        ensures err { OnErr result (state self.new ≡ state self.old) };

    /// A caller registers a ring.
    fn register(
        &mut self,
        alloc: Global,
        dom: DomId,
        generation: u32,
        r: Registration,
    ) -> Result<Outcome, NoMemory>
        requires fit { IsTrue (is_fit (registers r)) }
        requires young { IsYoung (2 ^ 62) (state self.old) }
        ensures ok { IfOk result (λ o. act (Vcpu dom generation) (registers r) (state self.old)
            ≡ record { outcome = o; state = state self.new }) }
        ensures err { OnErr result (state self.new ≡ state self.old) };

    /// A caller takes a ring away.
    fn unregister(
        &mut self,
        alloc: Global,
        dom: DomId,
        generation: u32,
        key: RingKey,
    ) -> Result<Outcome, NoMemory>
        ensures ok { IfOk result
            (λ o. act (Vcpu dom generation) (Unregister key.port key.partner) (state self.old)
            ≡ record { outcome = o; state = state self.new }) }
        ensures err { OnErr result (state self.new ≡ state self.old) };

    /// A caller sweeps its next ring.
    fn sweep(
        &mut self,
        alloc: Global,
        dom: DomId,
        generation: u32,
        after: u64,
    ) -> Result<Outcome, NoMemory>
        ensures ok { IfOk result (λ o. act (Vcpu dom generation) (Sweep after) (state self.old)
            ≡ record { outcome = o; state = state self.new }) }
        ensures err { OnErr result (state self.new ≡ state self.old) };

    /// A caller sends from a port to a port of a domain. The load is taken.
    fn deliver(
        &mut self,
        alloc: Global,
        generation: u32,
        to: DomId,
        to_port: u32,
        sent: &mut Offer,
    ) -> Result<Outcome, NoMemory>
        requires { IsTrue (is_fit (Deliver sent.old.port to to_port sent.old.kind sent.old.load)) }
        ensures ok { IfOk result (λ o. act (Vcpu sent.old.sender generation)
            (Deliver sent.old.port to to_port sent.old.kind sent.old.load) (state self.old)
            ≡ record { outcome = o; state = state self.new }) }
        ensures err { OnErr result (state self.new ≡ state self.old) }
        ensures err_sent { OnErr result (sent.new ≡ sent.old) };

    /// A caller, of a domain and a generation, asks for room in the ring that it meets at a port of a domain.
    fn query(
        &mut self,
        alloc: Global,
        caller: (DomId, u32),
        to: DomId,
        to_port: u32,
        need: u32,
    ) -> Result<Outcome, NoMemory>
        requires { IsTrue (is_fit (Query to to_port need)) }
        ensures ok { IfOk result
            (λ o. act (Vcpu caller.0 caller.1) (Query to to_port need) (state self.old)
            ≡ record { outcome = o; state = state self.new }) }
        ensures err { OnErr result (state self.new ≡ state self.old) };

    /// Ends a domain that is alive, and what others keep for it.
    fn destroy(&mut self, dom: DomId) -> Outcome
        ensures { ends.destroy (state self.old) dom
            ≡ record { outcome = result; state = state self.new } };

    /// Ends the rings of a domain that is alive, and what others keep for it, and clears its flag.
    fn reset(&mut self, alloc: Global, dom: DomId) -> Outcome
        ensures { ends.reset (state self.old) dom
            ≡ record { outcome = result; state = state self.new } };

    /// Makes a domain that has ended anew, in its next generation.
    fn create(&mut self, alloc: Global, dom: DomId) -> Result<Outcome, NoMemory>
        requires young { IsYoung (2 ^ 62) (state self.old) }
        ensures ok { IfOk result (λ o. ends.create (state self.old) dom
            ≡ record { outcome = o; state = state self.new }) }
        ensures err { OnErr result (state self.new ≡ state self.old) };

    /// A row for each domain as it stands.
    fn closed(&self, alloc: Global) -> Result<ClosedDomains, NoMemory>
        requires { IsTrue (are_shown (state self.now)) }
        ensures { IfOk result (λ closed. closed ≡ closed_domains (state self.now)) };

    /// A row for each domain as a report shows it. Where memory runs out all is lost.
    fn into_finals(self, alloc: Global) -> Result<FinalDomains, NoMemory>
        requires { IsTrue (are_shown (state self)) }
        ensures { IfOk result (λ finals. finals ≡ map final_domain (state self)) };
}

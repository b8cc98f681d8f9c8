//! A domain that is alive, with the acts that touch nothing else.
ghost use Rattle.std.specs.Prelude.{◌≡◌, ◌+◌, ◌<◌, ◌≤◌, ◌^◌, IsTrue, IfOk, IfSome, IfNone, OnOk, OnErr, length, map};
ghost use Rattle.argo_base.specs.Match.{match_of};
ghost use Rattle.argo_base.specs.Slots.{is_legal, page_count};
ghost use Rattle.argo_model.specs.declared.action.Outcome.TheVariants.{Bytes, Fault};
ghost use Rattle.argo_model.specs.Rules.Act as acts;
ghost use Rattle.argo_model.specs.Rules.Deliver.{offer_to_live};
ghost use Rattle.argo_model.specs.Rules.Destroy.{live_without, reset_live};
ghost use Rattle.argo_model.specs.Rules.Effects as effects;
ghost use Rattle.argo_model.specs.Rules.Fit.{is_fit, is_fit_load};
ghost use Rattle.argo_model.specs.Rules.Query.{query_match};
ghost use Rattle.argo_model.specs.Rules.Register.{register_own};
ghost use Rattle.argo_model.specs.Rules.State.{Live, flagged, fresh_live};
ghost use Rattle.argo_model.specs.Rules.Sweep.{sweep_found, next_ring};
ghost use Rattle.argo_model.specs.Runs.Closed.{closed_ring};
ghost use Rattle.argo_model.specs.Runs.Final.{final_ring};
ghost use Rattle.live_domain.specs.Own.{own_change};

use crate::{Change, Offer, Registration};
use argo_base::{Bytes, DomId, NoMemory, Piece};
use argo_model::{Action, ClosedRings, FinalRings, Outcome};
use std::alloc::Global;

/// What only a domain that is alive has. Contracts see its bytes, its flag, its next serial and its rings. Where an act runs out of
/// memory, all stays.
pub trait LiveDomain: Sized + Drop {
    ghost live: { Self → Live };

    /// What domain `dom` with so many pages has as it starts.
    fn fresh(alloc: Global, dom: DomId, pages: u32) -> Result<Self, NoMemory>
        ensures { IfOk result (λ new. live new ≡ fresh_live pages) };

    /// An act of this domain, which is on or off, on what it has itself.
    fn act(&mut self, alloc: Global, on: bool, action: Action) -> Result<Outcome, NoMemory>
        requires { IsTrue (is_fit action) }
        ensures outcome { IfOk result (λ o. o ≡ (own_change on (live self.old) action).outcome) }
        ensures left { OnOk result
            (live self.new ≡ effects.after (live self.old) (own_change on (live self.old) action)) }
        ensures err { OnErr result (live self.new ≡ live self.old) };

    /// The bytes of a piece, where its page is there.
    fn seen(&self, piece: Piece) -> Option<&[u8]>
        requires { piece.off + piece.n ≤ 4096 }
        ensures some { IfSome result (λ bytes.
            acts.fetch (live self.now) piece.page piece.off piece.n ≡ Bytes bytes.now) }
        ensures none { IfNone result
            (acts.fetch (live self.now) piece.page piece.off piece.n ≡ Fault) };

    /// Puts bytes at an offset of a page.
    fn put(&mut self, page: u64, off: u32, bytes: &[u8]) -> Result<Outcome, NoMemory>
        requires { off + length bytes.now ≤ 4096 }
        ensures outcome { IfOk result
            (λ o. o ≡ (acts.put (live self.old) page off bytes.now).outcome) }
        ensures left { OnOk result (live self.new
            ≡ effects.after (live self.old) (acts.put (live self.old) page off bytes.now)) }
        ensures err { OnErr result (live self.new ≡ live self.old) };

    /// Registers a ring.
    fn register(&mut self, alloc: Global, r: Registration) -> Result<Change, NoMemory>
        requires legal { IsTrue (is_legal r.len) }
        requires counted { length r.pages ≡ page_count r.len }
        requires young { (live self.old).next_serial < 2 ^ 63 }
        ensures outcome { IfOk result (λ c. c.outcome
            ≡ (register_own (live self.old) r.key r.len r.pages r.fail_exist).outcome) }
        ensures signals { IfOk result (λ c. c.signals.items
            ≡ (register_own (live self.old) r.key r.len r.pages r.fail_exist).signals) }
        ensures left { OnOk result (live self.new ≡ effects.after (live self.old)
            (register_own (live self.old) r.key r.len r.pages r.fail_exist)) }
        ensures err { OnErr result (live self.new ≡ live self.old) };

    /// Takes an offer to the ring that the sender meets at a port of this domain. Its load is taken.
    fn offer(&mut self, to: DomId, to_port: u32, sent: &mut Offer) -> Result<Outcome, NoMemory>
        requires { IsTrue (is_fit_load sent.old.load) }
        ensures outcome { IfOk result
            (λ o. o ≡ (offer_to_live to to_port sent.old (live self.old)).outcome) }
        ensures left { OnOk result (live self.new
            ≡ effects.after (live self.old) (offer_to_live to to_port sent.old (live self.old))) }
        ensures err { OnErr result (live self.new ≡ live self.old) }
        ensures err_sent { OnErr result (sent.new ≡ sent.old) };

    /// Answers a sender that asks for room at a port.
    fn answer(&mut self, port: u32, sender: DomId, need: u32) -> Result<Outcome, NoMemory>
        ensures outcome { IfOk result (λ o. o ≡ (query_match (live self.old) sender need
            (match_of (live self.old).rings port sender)).outcome) }
        ensures left { OnOk result (live self.new ≡ effects.after (live self.old)
            (query_match (live self.old) sender need
            (match_of (live self.old).rings port sender))) }
        ensures err { OnErr result (live self.new ≡ live self.old) };

    /// Ends the notices that fit on the ring with the least serial above `after`.
    fn sweep(&mut self, alloc: Global, after: u64) -> Result<Change, NoMemory>
        ensures outcome { IfOk result (λ c. c.outcome
            ≡ (sweep_found (live self.old) (next_ring after (live self.old).rings)).outcome) }
        ensures signals { IfOk result (λ c. c.signals.items
            ≡ (sweep_found (live self.old) (next_ring after (live self.old).rings)).signals) }
        ensures left { OnOk result (live self.new ≡ effects.after
            (live self.old)
            (sweep_found (live self.old) (next_ring after (live self.old).rings))) }
        ensures err { OnErr result (live self.new ≡ live self.old) };

    /// Sets the flag.
    fn signal(&mut self)
        ensures { live self.new ≡ flagged (live self.old) };

    /// Ends the rings that are for another domain alone, and its notices.
    fn forget(&mut self, dom: DomId)
        ensures { live self.new ≡ live_without dom (live self.old) };

    /// Ends all rings, and clears the flag.
    fn reset(&mut self, alloc: Global)
        ensures { live self.new ≡ reset_live (live self.old) };

    /// Whether the flag is set.
    fn flag(&self) -> bool
        ensures { result ≡ (live self.now).flag };

    /// A copy of the memory, 4,096 bytes a page.
    fn memory(&self, alloc: Global) -> Result<Bytes, NoMemory>
        ensures { IfOk result (λ bytes. bytes ≡ (live self.now).bytes) };

    /// A row for each ring as it stands, by rising key.
    fn closed_rings(&self, alloc: Global) -> Result<ClosedRings, NoMemory>
        ensures { IfOk result (λ closed. closed ≡ map closed_ring (live self.now).rings) };

    /// A row for each ring as a report shows it, by rising key. Where memory runs out all is lost.
    fn into_final_rings(self, alloc: Global) -> Result<FinalRings, NoMemory>
        ensures { IfOk result
            (λ finals. finals ≡ map (final_ring (live self).bytes) (live self).rings) };
}

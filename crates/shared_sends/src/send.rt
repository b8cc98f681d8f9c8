//! Messages to rings of other domains.
ghost use Rattle.std.specs.Prelude.{◌≡◌, ℕ, ◌<◌, ◌||◌, [], ◌∷◌, IsTrue, IfOk, OnErr};
ghost use Rattle.argo_base.specs.declared.errno.Errno.TheVariants.{ConnRefused};
ghost use Rattle.argo_model.specs.declared.action.Action.TheVariants.{Deliver};
ghost use Rattle.argo_model.specs.Programs.Program.{caller_of};
ghost use Rattle.argo_model.specs.Rules.Deliver as deliver;
ghost use Rattle.argo_model.specs.Rules.Effects.{after};
ghost use Rattle.argo_model.specs.Rules.Fit.{is_fit_load};
ghost use Rattle.argo_model.specs.Rules.Outcomes.{is_refused};
ghost use Rattle.argo_model.specs.Rules.Possible.{is_possible};
ghost use Rattle.argo_board.specs.Board.{most_steps};
ghost use Rattle.ring_core.specs.Held.{Becomes, IsSaid};
ghost use Rattle.ring_core.specs.Offers.{outcome_of as the_outcome};
ghost use Rattle.shared_steps.specs.Passes.{noted, stepped};
ghost use Rattle.shared_sends.specs.Comes.{is_offered, signal_of};

use argo_base::{DomId, DomList, Errno, NoMemory};
use argo_board::{Board, FlagChange};
use argo_model::{Load, Outcome};
use lock_tokens::Gate;
use ring_core::{Accept, Offer, Ring};
use shared_caller::Caller;
use shared_parts::Plan;
use shared_steps::{Pause, WorldPass};
use std::sync::Wait;
use std::sync::ledger::Ledger;

/// An offer to a port of a domain.
#[derive(Drop)]
pub struct Sent {
    pub to: DomId,
    pub to_port: u32,
    pub offer: Offer,
}

/// A caller sends to a port of a domain.
pub fn deliver<A: Plan, B: Ledger, C: Ledger, P: Pause, R: Wait>(
    caller: &Caller<'_, A, B, C, P>,
    rt: &R,
    pass: &mut WorldPass<A, B, C>,
    sent: Sent,
) -> Result<Outcome, NoMemory>
    requires held { pass.old.held ≡ 1 ∷ [] }
    requires few { pass.old.tally.steps < most_steps }
    requires short { IsTrue (is_fit_load sent.offer.load) }
    requires src { sent.offer.sender ≡ caller_of caller.now }
    ensures possible { IfOk result
        (λ o. IsTrue (is_possible A.facts caller.now
        (Deliver sent.offer.port sent.to sent.to_port sent.offer.kind sent.offer.load) o)) }
    ensures pass { IfOk result (λ o. pass.new ≡ stepped pass.old o) }
    ensures err { OnErr result (pass.new ≡ pass.old) }
{
    let Some(receiver) = caller.domains.party(sent.to) else {
        return caller.steps.note(rt, pass, Outcome::Refused(Errno::Srch));
    };
    if !caller.party.on {
        return caller.steps.note(rt, pass, Outcome::Refused(Errno::NoDev));
    }
    if !receiver.on {
        return caller
            .steps
            .note(rt, pass, Outcome::Refused(Errno::ConnRefused));
    }
    let Sent {
        to: _,
        to_port,
        offer,
    } = sent;
    let rings = pass.read(rt, &receiver.live.rings);
    let met = rings.value().find(to_port, caller.party.id);
    let outcome = offer_if_met(caller, rt, pass, met, offer);
    pass.end_read(rings);
    outcome
}

// Offers a message to the ring that the caller meets, where it meets one.
fn offer_if_met<A: Plan, B: Ledger, C: Ledger, P: Pause, R: Wait>(
    caller: &Caller<'_, A, B, C, P>,
    rt: &R,
    pass: &mut WorldPass<A, B, C>,
    met: Option<&Gate<Ring, 3>>,
    offer: Offer,
) -> Result<Outcome, NoMemory>
    requires held { pass.old.held ≡ 1 ∷ 2 ∷ [] }
    requires few { pass.old.tally.steps < most_steps }
    requires short { IsTrue (is_fit_load offer.load) }
    ensures can { IfOk result
        (λ o. IsTrue (is_offered offer.load o || is_refused (ConnRefused ∷ []) o)) }
    ensures pass { IfOk result (λ o. pass.new ≡ stepped pass.old o) }
    ensures err { OnErr result (pass.new ≡ pass.old) }
{
    let Some(ring) = met else {
        return caller
            .steps
            .note(rt, pass, Outcome::Refused(Errno::ConnRefused));
    };
    let mut part = pass.lock(rt, ring);
    let outcome = offer_to(caller, rt, pass, part.value_mut(), offer);
    pass.unlock(part);
    outcome
}

// Offers a message to a ring whose lock is held.
fn offer_to<A: Plan, B: Ledger, C: Ledger, P: Pause, R: Wait>(
    caller: &Caller<'_, A, B, C, P>,
    rt: &R,
    pass: &mut WorldPass<A, B, C>,
    ring: &mut Ring,
    offer: Offer,
) -> Result<Outcome, NoMemory>
    requires held { pass.old.held ≡ 1 ∷ 2 ∷ 3 ∷ [] }
    requires few { pass.old.tally.steps < most_steps }
    requires short { IsTrue (is_fit_load offer.load) }
    ensures can { IfOk result (λ o. IsTrue (is_offered offer.load o)) }
    ensures pass { IfOk result (λ o. pass.new ≡ stepped pass.old o) }
    ensures err { OnErr result (pass.new ≡ pass.old) }
{
    ring.reserve_log()?;
    caller.steps.pause.here(ring.id());
    let listed = match size_of(&offer.load) {
        Some(size) => caller.list_notice(rt, pass, ring, size)?,
        None => false,
    };
    let mut part = pass.lock(rt, &caller.steps.board);
    let outcome = offered(part.value_mut(), pass, ring, offer);
    pass.unlock(part);
    if listed {
        caller.unlist_notice(rt, pass, ring);
    }
    outcome
}

// Offers a message to a ring, as a step: what the rules say of the ring, which is then what they leave.
fn offered<A: Ledger, B: Ledger, C: Ledger>(
    board: &mut Board<A, B, C>,
    pass: &mut WorldPass<A, B, C>,
    ring: &mut Ring,
    offer: Offer,
) -> Result<Outcome, NoMemory>
    requires few { pass.old.tally.steps < most_steps }
    requires reserved { IsTrue ring.old.has_room }
    requires short { IsTrue (is_fit_load offer.load) }
    ensures can { IfOk result (λ o. IsTrue (is_offered offer.load o)) }
    ensures pass { IfOk result (λ o. pass.new ≡ stepped pass.old o) }
    ensures said { IfOk result (λ o. (owner : ℕ) →
        IsSaid ring.old o (λ p. (deliver.offer p owner offer).outcome)) }
    ensures left { IfOk result (λ _. (owner : ℕ) →
        Becomes ring.old ring.new (λ p. after p (deliver.offer p owner offer))) }
    ensures entry { IfOk result (λ o. board.new.entries
        ≡ noted board.old.entries pass.old o (signal_of ring.old.id.owner o)) }
    ensures err { OnErr result (pass.new ≡ pass.old) }
    ensures stays { OnErr result (ring.new ≡ ring.old) }
{
    board.reserve()?;
    let outcome = outcome_of(ring.accept(offer));
    let change = change_of(&outcome, ring.id().owner);
    Ok(pass.append(board, outcome, change))
}

// The receiver of a message that was accepted is signalled.
fn change_of(outcome: &Outcome, owner: DomId) -> FlagChange
    ensures { result ≡ signal_of owner outcome.now }
{
    if let Outcome::Accepted(_) = outcome {
        let mut doms = DomList::new();
        doms.push(owner);
        return FlagChange::Raise(doms);
    }
    FlagChange::Keep
}

// What a ring's answer to an offer comes to.
fn outcome_of(accept: Accept) -> Outcome
    ensures { result ≡ the_outcome accept }
{
    match accept {
        Accept::Refused(error) => Outcome::Refused(error),
        Accept::TooBig => Outcome::Refused(Errno::MsgSize),
        Accept::Busy => Outcome::Refused(Errno::Busy),
        Accept::NoRoom => Outcome::Refused(Errno::Again),
        Accept::Faulted => Outcome::Refused(Errno::Fault),
        Accept::Accepted(n) => Outcome::Accepted(n),
    }
}

// For how many bytes a load needs room, where it comes to that.
fn size_of(load: &Load) -> Option<u32>
    requires { IsTrue (is_fit_load load.now) }
{
    match load {
        Load::Body(body) => Some(body.len() as u32),
        Load::Faulted(size) => Some(*size),
        Load::Refused(_) => None,
    }
}

//! A message that is offered to a domain.
ghost use Rattle.std.specs.Prelude.{◌≡◌, ℕ, IsTrue, IfOk, OnOk, OnErr};
ghost use Rattle.argo_base.specs.Match.{at_key, match_of};
ghost use Rattle.argo_model.specs.Rules.Deliver as deliver;
ghost use Rattle.argo_model.specs.Rules.Effects.{after};
ghost use Rattle.argo_model.specs.Rules.Fit.{is_fit_load};
ghost use Rattle.paged_live.specs.Parts.{StandsStill};
ghost use Rattle.ring_core.specs.Held.{Becomes, IsSaid};
ghost use Rattle.ring_core.specs.Offers as said;

use argo_base::{DomId, Errno, NoMemory, RingKey};
use argo_model::{Load, Outcome};
use live_domain::Offer;
use ring_core::{Accept, Offer as RingOffer, Ring};
use ring_table::Table;
use std::mem;

/// The key of the ring that a sender meets at a port; of none, where it meets none.
pub(crate) fn match_key(rings: &Table<Ring>, port: u32, sender: DomId) -> RingKey
    ensures { at_key rings.now result ≡ match_of rings.now port sender }
{
    let stands = rings
        .find_exact(RingKey {
            port,
            partner: sender,
        })
        .is_some();
    let partner = if stands { sender } else { DomId::ANY };
    RingKey { port, partner }
}

/// Takes an offer to a ring.
pub(crate) fn offer_to(ring: &mut Ring, sent: &mut Offer) -> Result<Outcome, NoMemory>
    requires { IsTrue (is_fit_load sent.old.load) }
    ensures outcome { IfOk result (λ o. (owner : ℕ) →
        IsSaid ring.old o (λ p. (deliver.offer p owner sent.old).outcome)) }
    ensures left { OnOk result ((owner : ℕ) →
        Becomes ring.old ring.new (λ p. after p (deliver.offer p owner sent.old))) }
    ensures err { OnErr result (Becomes ring.old ring.new (λ p. p)) }
    ensures err_sent { OnErr result (sent.new ≡ sent.old) }
    ensures still { StandsStill ring.old ring.new }
{
    ring.row().count();
    ring.reserve_log()?;
    let load = mem::replace(&mut sent.load, Load::Faulted(0));
    let accept = ring.accept(RingOffer {
        src: sent.sender,
        port: sent.port,
        kind: sent.kind,
        load,
    });
    ring.row().count();
    Ok(outcome_of(accept))
}

// The outcome of a send with this answer.
fn outcome_of(accept: Accept) -> Outcome
    ensures { result ≡ said.outcome_of accept }
{
    match accept {
        Accept::Refused(error) => Outcome::Refused(error),
        Accept::TooBig => Outcome::Refused(Errno::MsgSize),
        Accept::Busy => Outcome::Refused(Errno::Busy),
        Accept::NoRoom => Outcome::Refused(Errno::Again),
        Accept::Faulted => Outcome::Refused(Errno::Fault),
        Accept::Accepted(size) => Outcome::Accepted(size),
    }
}

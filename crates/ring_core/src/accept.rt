//! What is offered to a ring, and what it answers.
use argo_base::{DomId, Errno};
use argo_model::Load;
use std::marker::Model;

/// What a sender offers to a ring: its own domain, the port that it named, the type, and what was gathered. Contracts see it as
/// the offer of the rules.
#[derive(Debug, Drop)]
pub struct Offer {
    pub src: DomId,
    pub port: u32,
    pub kind: u32,
    pub load: Load,
}

impl Model for Offer {
    ghost use Rattle.argo_model.specs.Rules.Deliver.{Offer as TheOffer};

    ghost Value = { TheOffer };

    ghost view = { λ o. record { sender = o.src; port = o.port; kind = o.kind; load = o.load } };
}

/// What a ring answers to an offer.
#[derive(Clone, Copy, Debug, PartialEq, Eq)]
pub enum Accept {
    /// The buffers were refused before the gather.
    Refused(Errno),
    /// The body can never fit into a ring of this length.
    TooBig,
    /// The body does not fit now, the sender has no notice, and no place for one is left.
    Busy,
    /// The body does not fit now, and the sender waits for room.
    NoRoom,
    /// The body would fit, but its gather met a page that is not there.
    Faulted,
    /// A message with a body of so many bytes was taken in.
    Accepted(u32),
}

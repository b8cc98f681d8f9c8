//! What a sender offers to a ring, and the answer where it meets none.

use argo_base::DomId;
use argo_model::{Answer, Load};
use std::marker::Model;

/// What a sender offers to a ring: its domain, the port that it named, the type, and what was gathered.
#[derive(Debug, Drop)]
pub struct Offer {
    pub sender: DomId,
    pub port: u32,
    pub kind: u32,
    pub load: Load,
}

impl Model for Offer {
    ghost use Rattle.argo_model.specs.Rules.Deliver.{Offer as TheOffer};

    ghost Value = { TheOffer };

    ghost view = { λ o. record { sender = o.sender; port = o.port; kind = o.kind; load = o.load } };
}

/// The answer where no ring is met.
pub const NO_ANSWER: Answer = Answer {
    flags: 0,
    need: 0,
    most: 0,
};

//! A virtual CPU that acts while the domains are read.
use shared_parts::{Domains, Party, Plan};
use shared_steps::{Pause, Steps};
use std::marker::Model;
use std::sync::ledger::Ledger;

/// A virtual CPU of a domain that is alive, as it acts while its pass has the domains for reading. Contracts see which one it is.
#[derive(Drop)]
pub struct Caller<'a, A: Plan, B: Ledger, C: Ledger, P: Pause> {
    pub steps: &'a Steps<A, B, C, P>,
    pub domains: &'a Domains<A>,
    /// Its domain.
    pub party: Party<'a>,
}

impl<'a, A: Plan, B: Ledger, C: Ledger, P: Pause> Model for Caller<'a, A, B, C, P> {
    ghost use Rattle.argo_model.specs.declared.scripts.Actor.{Actor as AnyActor};
    ghost use Rattle.argo_model.specs.declared.scripts.Actor.TheVariants.{Vcpu};
    ghost use Rattle.shared_parts.specs.Domains.{IsParty};

    ghost Value = { AnyActor };

    ghost view = { λ c. Vcpu c.party.id c.party.generation };

    ghost invariant = { λ c. IsParty A.facts c.party.id c.party.on c.party.pages };
}

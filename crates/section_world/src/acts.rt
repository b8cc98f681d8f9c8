//! Each action of a section, in the state.
ghost use Rattle.std.specs.Prelude.{◌≡◌, ◌^◌, IsTrue, IfOk, OnErr};
ghost use Rattle.argo_model.specs.declared.scripts.Actor.TheVariants.{Vcpu};
ghost use Rattle.argo_model.specs.Rules.Access.{delivered_to};
ghost use Rattle.argo_model.specs.Rules.Act as rules;
ghost use Rattle.argo_model.specs.Rules.Fit.{is_fit};
ghost use Rattle.section_world.specs.Young.{IsYoung};

use crate::DomainActs;
use argo_base::{DomId, NoMemory, RingKey};
use argo_model::{Action, Actor, Address, Load, Outcome};
use live_domain::{Offer, Registration};
use std::alloc::Global;
use std::mem;

/// Performs an action of a section. Where memory runs out the state stays.
#[inline(always)]
pub fn act<D: DomainActs>(
    domains: &mut D,
    alloc: Global,
    actor: Actor,
    action: Action,
) -> Result<Outcome, NoMemory>
    requires fit { IsTrue (is_fit action) }
    requires young { IsYoung (2 ^ 62) (D.state domains.old) }
    ensures ok { IfOk result (λ o. rules.act actor action (D.state domains.old)
        ≡ record { outcome = o; state = D.state domains.new }) }
    ensures err { OnErr result (D.state domains.new ≡ D.state domains.old) }
{
    match actor {
        Actor::Vcpu(dom, generation) => vcpu_act(domains, alloc, (dom, generation), action),
        Actor::Control => control_act(domains, alloc, action),
    }
}

// Performs an action of a virtual CPU, of a domain and a generation.
#[inline(always)]
fn vcpu_act<D: DomainActs>(
    domains: &mut D,
    alloc: Global,
    caller: (DomId, u32),
    action: Action,
) -> Result<Outcome, NoMemory>
    requires fit { IsTrue (is_fit action) }
    requires young { IsYoung (2 ^ 62) (D.state domains.old) }
    ensures ok { IfOk result
        (λ o. rules.act (Vcpu caller.0 caller.1) action (D.state domains.old)
        ≡ record { outcome = o; state = D.state domains.new }) }
    ensures err { OnErr result (D.state domains.new ≡ D.state domains.old) }
{
    let (dom, generation) = caller;
    match action {
        Action::Register {
            port,
            partner,
            len,
            pages,
            fail_exist,
        } => {
            let r = Registration {
                key: RingKey { port, partner },
                len,
                pages,
                fail_exist,
            };
            domains.register(alloc, dom, generation, r)
        }
        Action::Unregister { port, partner } => {
            domains.unregister(alloc, dom, generation, RingKey { port, partner })
        }
        Action::Sweep { after } => domains.sweep(alloc, dom, generation, after),
        Action::Deliver {
            port,
            to,
            to_port,
            kind,
            mut load,
        } => {
            let at = Address {
                port,
                to,
                to_port,
                kind,
            };
            deliver(domains, alloc, caller, at, &mut load)
        }
        Action::Query { to, to_port, need } => domains.query(alloc, caller, to, to_port, need),
        Action::Destroy { .. } | Action::Reset { .. } | Action::Create { .. } => {
            if domains.caller(dom, generation).is_none() {
                return Ok(Outcome::Gone);
            }
            control_act(domains, alloc, action)
        }
        _ => domains.own_act(alloc, dom, generation, action),
    }
}

/// A caller, of a domain and a generation, delivers a load, which is taken. Where memory runs out all stay, the load too.
#[inline(always)]
pub(crate) fn deliver<D: DomainActs>(
    domains: &mut D,
    alloc: Global,
    caller: (DomId, u32),
    at: Address,
    load: &mut Load,
) -> Result<Outcome, NoMemory>
    requires { IsTrue (is_fit (delivered_to at load.old)) }
    ensures ok { IfOk result
        (λ o. rules.act (Vcpu caller.0 caller.1) (delivered_to at load.old) (D.state domains.old)
        ≡ record { outcome = o; state = D.state domains.new }) }
    ensures err { OnErr result (D.state domains.new ≡ D.state domains.old) }
    ensures err_load { OnErr result (load.new ≡ load.old) }
{
    let (dom, generation) = caller;
    let mut sent = Offer {
        sender: dom,
        port: at.port,
        kind: at.kind,
        load: mem::replace(load, Load::Faulted(0)),
    };
    match domains.deliver(alloc, generation, at.to, at.to_port, &mut sent) {
        Ok(outcome) => Ok(outcome),
        Err(e) => {
            *load = mem::replace(&mut sent.load, Load::Faulted(0));
            Err(e)
        }
    }
}

// Performs an action of the control section.
fn control_act<D: DomainActs>(
    domains: &mut D,
    alloc: Global,
    action: Action,
) -> Result<Outcome, NoMemory>
    requires young { IsYoung (2 ^ 62) (D.state domains.old) }
    ensures ok { IfOk result (λ o. rules.act_of_control (D.state domains.old) action
        ≡ record { outcome = o; state = D.state domains.new }) }
    ensures err { OnErr result (D.state domains.new ≡ D.state domains.old) }
{
    match action {
        Action::Destroy { dom } => Ok(domains.destroy(dom)),
        Action::Reset { dom } => Ok(domains.reset(alloc, dom)),
        Action::Create { dom } => domains.create(alloc, dom),
        _ => Ok(Outcome::Done),
    }
}

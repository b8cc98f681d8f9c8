//! Each action of a virtual CPU, by its kind.
ghost use Rattle.std.specs.Prelude.{◌≡◌, ◌<◌, [], ◌∷◌, IsTrue, IfOk, OnErr};
ghost use Rattle.argo_model.specs.Rules.Fit.{is_fit};
ghost use Rattle.argo_model.specs.Rules.Possible.{is_possible};
ghost use Rattle.argo_board.specs.Board.{most_steps};
ghost use Rattle.shared_steps.specs.Passes.{stepped};
ghost use Rattle.shared_acts.specs.Kinds.{is_act_of_argo};

use argo_base::{NoMemory, Piece, RingId, RingKey};
use argo_model::{Action, Outcome};
use ring_core::Offer;
use shared_caller::Caller;
use shared_memory::{Writing, fetch, put};
use shared_parts::Plan;
use shared_rings::{Registration, register, sweep, unregister};
use shared_sends::{Asked, Sent, deliver, query};
use shared_steps::{Pause, WorldPass};
use std::sync::Wait;
use std::sync::ledger::Ledger;

/// Performs an action, as one step. Where memory runs out there is no step.
pub fn act<A: Plan, B: Ledger, C: Ledger, P: Pause, R: Wait>(
    caller: &Caller<'_, A, B, C, P>,
    rt: &R,
    pass: &mut WorldPass<A, B, C>,
    a: Action,
) -> Result<Outcome, NoMemory>
    requires held { pass.old.held ≡ 1 ∷ [] }
    requires few { pass.old.tally.steps < most_steps }
    requires fit { IsTrue (is_fit a) }
    ensures possible { IfOk result (λ o. IsTrue (is_possible A.facts caller.now a o)) }
    ensures pass { IfOk result (λ o. pass.new ≡ stepped pass.old o) }
    ensures err { OnErr result (pass.new ≡ pass.old) }
{
    match a {
        Action::Fetch { page, off, n } => fetch(caller, rt, pass, Piece { page, off, n }),
        Action::Put { page, off, bytes } => {
            let writing = Writing {
                page,
                off,
                bytes: bytes.as_slice(),
            };
            put(caller, rt, pass, writing)
        }
        Action::Look => caller.steps.look(rt, pass, caller.party.id),
        a => act_of_argo(caller, rt, pass, a),
    }
}

// Performs an act of Argo, or rests.
fn act_of_argo<A: Plan, B: Ledger, C: Ledger, P: Pause, R: Wait>(
    caller: &Caller<'_, A, B, C, P>,
    rt: &R,
    pass: &mut WorldPass<A, B, C>,
    a: Action,
) -> Result<Outcome, NoMemory>
    requires held { pass.old.held ≡ 1 ∷ [] }
    requires few { pass.old.tally.steps < most_steps }
    requires other { IsTrue (is_act_of_argo a) }
    requires fit { IsTrue (is_fit a) }
    ensures possible { IfOk result (λ o. IsTrue (is_possible A.facts caller.now a o)) }
    ensures pass { IfOk result (λ o. pass.new ≡ stepped pass.old o) }
    ensures err { OnErr result (pass.new ≡ pass.old) }
{
    match a {
        Action::Register {
            port,
            partner,
            len,
            pages,
            fail_exist,
        } => {
            let r = Registration {
                id: RingId {
                    owner: caller.party.id,
                    port,
                    partner,
                },
                len,
                pages,
                fail_exist,
            };
            register(caller, rt, pass, r)
        }
        Action::Unregister { port, partner } => {
            unregister(caller, rt, pass, RingKey { port, partner })
        }
        Action::Deliver {
            port,
            to,
            to_port,
            kind,
            load,
        } => {
            let offer = Offer {
                src: caller.party.id,
                port,
                kind,
                load,
            };
            deliver(caller, rt, pass, Sent { to, to_port, offer })
        }
        Action::Sweep { after } => sweep(caller, rt, pass, after),
        Action::Query { to, to_port, need } => {
            query(caller, rt, pass, Asked { to, to_port, need })
        }
        _ => caller.steps.note(rt, pass, Outcome::Done),
    }
}

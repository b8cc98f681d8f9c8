//! Questions for room in rings of other domains.
ghost use Rattle.std.specs.Prelude.{◌≡◌, ◌<◌, [], ◌∷◌, IsTrue, IfOk, OnErr};
ghost use Rattle.argo_model.specs.declared.action.Action.TheVariants.{Query};
ghost use Rattle.argo_base.specs.Match.{key_in};
ghost use Rattle.argo_model.specs.Rules.Effects.{after};
ghost use Rattle.argo_model.specs.Rules.Possible.{is_possible};
ghost use Rattle.argo_model.specs.Rules.Query as rule;
ghost use Rattle.argo_board.specs.declared.entry.FlagChange.TheVariants.{Keep};
ghost use Rattle.argo_board.specs.Board.{most_steps};
ghost use Rattle.ring_core.specs.Held.{Becomes};
ghost use Rattle.shared_steps.specs.Passes.{noted, stepped};
ghost use Rattle.shared_sends.specs.Comes.{is_answer};

use argo_base::{DomId, Errno, NoMemory};
use argo_board::{Board, FlagChange};
use argo_model::{Answer, Outcome};
use lock_tokens::Gate;
use ring_core::Ring;
use shared_caller::Caller;
use shared_parts::Plan;
use shared_steps::{Pause, WorldPass};
use std::sync::Wait;
use std::sync::ledger::Ledger;

// The answer where no ring is met.
const NO_ANSWER: Answer = Answer {
    flags: 0,
    need: 0,
    most: 0,
};

/// A question for room at a port of a domain.
#[derive(Clone, Copy)]
pub struct Asked {
    pub to: DomId,
    pub to_port: u32,
    pub need: u32,
}

/// A caller asks for room at a port of a domain.
pub fn query<A: Plan, B: Ledger, C: Ledger, P: Pause, R: Wait>(
    caller: &Caller<'_, A, B, C, P>,
    rt: &R,
    pass: &mut WorldPass<A, B, C>,
    asked: Asked,
) -> Result<Outcome, NoMemory>
    requires held { pass.old.held ≡ 1 ∷ [] }
    requires few { pass.old.tally.steps < most_steps }
    ensures possible { IfOk result
        (λ o. IsTrue (is_possible A.facts caller.now
        (Query asked.to asked.to_port asked.need) o)) }
    ensures pass { IfOk result (λ o. pass.new ≡ stepped pass.old o) }
    ensures err { OnErr result (pass.new ≡ pass.old) }
{
    if !caller.party.on {
        return caller.steps.note(rt, pass, Outcome::Refused(Errno::NoDev));
    }
    let Some(owner) = caller.domains.party(asked.to) else {
        return caller.steps.note(rt, pass, Outcome::Answer(NO_ANSWER));
    };
    if !owner.on {
        return caller.steps.note(rt, pass, Outcome::Answer(NO_ANSWER));
    }
    let rings = pass.read(rt, &owner.live.rings);
    let met = rings.value().find(asked.to_port, caller.party.id);
    let outcome = ask(caller, rt, pass, met, asked.need);
    pass.end_read(rings);
    outcome
}

// Asks the ring that the caller meets, where it meets one.
fn ask<A: Plan, B: Ledger, C: Ledger, P: Pause, R: Wait>(
    caller: &Caller<'_, A, B, C, P>,
    rt: &R,
    pass: &mut WorldPass<A, B, C>,
    met: Option<&Gate<Ring, 3>>,
    need: u32,
) -> Result<Outcome, NoMemory>
    requires held { pass.old.held ≡ 1 ∷ 2 ∷ [] }
    requires few { pass.old.tally.steps < most_steps }
    ensures can { IfOk result (λ o. IsTrue (is_answer o)) }
    ensures pass { IfOk result (λ o. pass.new ≡ stepped pass.old o) }
    ensures err { OnErr result (pass.new ≡ pass.old) }
{
    let Some(ring) = met else {
        return caller.steps.note(rt, pass, Outcome::Answer(NO_ANSWER));
    };
    let mut part = pass.lock(rt, ring);
    let outcome = ask_of(caller, rt, pass, part.value_mut(), need);
    pass.unlock(part);
    outcome
}

// Asks a ring whose lock is held.
fn ask_of<A: Plan, B: Ledger, C: Ledger, P: Pause, R: Wait>(
    caller: &Caller<'_, A, B, C, P>,
    rt: &R,
    pass: &mut WorldPass<A, B, C>,
    ring: &mut Ring,
    need: u32,
) -> Result<Outcome, NoMemory>
    requires held { pass.old.held ≡ 1 ∷ 2 ∷ 3 ∷ [] }
    requires few { pass.old.tally.steps < most_steps }
    ensures can { IfOk result (λ o. IsTrue (is_answer o)) }
    ensures pass { IfOk result (λ o. pass.new ≡ stepped pass.old o) }
    ensures err { OnErr result (pass.new ≡ pass.old) }
{
    let listed = caller.list_notice(rt, pass, ring, need)?;
    let mut part = pass.lock(rt, &caller.steps.board);
    let outcome = asked_of(part.value_mut(), pass, ring, caller.party.id, need);
    pass.unlock(part);
    if listed {
        caller.unlist_notice(rt, pass, ring);
    }
    outcome
}

// Asks a ring, as a step: it is then what the rules leave.
fn asked_of<A: Ledger, B: Ledger, C: Ledger>(
    board: &mut Board<A, B, C>,
    pass: &mut WorldPass<A, B, C>,
    ring: &mut Ring,
    dom: DomId,
    need: u32,
) -> Result<Outcome, NoMemory>
    requires { pass.old.tally.steps < most_steps }
    ensures can { IfOk result (λ o. IsTrue (is_answer o)) }
    ensures pass { IfOk result (λ o. pass.new ≡ stepped pass.old o) }
    ensures left { IfOk result (λ _. Becomes ring.old ring.new
        (λ p. after p (rule.query_ring p (key_in ring.old.id) dom need))) }
    ensures entry { IfOk result
        (λ o. board.new.entries ≡ noted board.old.entries pass.old o Keep) }
    ensures err { OnErr result (pass.new ≡ pass.old) }
    ensures stays { OnErr result (ring.new ≡ ring.old) }
{
    board.reserve()?;
    let answer = ring.query(dom, need);
    Ok(pass.append(board, Outcome::Answer(answer), FlagChange::Keep))
}

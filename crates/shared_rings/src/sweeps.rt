//! The notices of the caller's rings are looked through.
ghost use Rattle.std.specs.Prelude.{◌≡◌, ◌<◌, [], ◌∷◌, IsTrue, IfOk, OnErr};
ghost use Rattle.argo_model.specs.declared.action.Action.TheVariants.{Sweep as Sweeps};
ghost use Rattle.argo_model.specs.declared.action.Outcome.TheVariants.{Swept};
ghost use Rattle.argo_model.specs.Rules.Effects.{after};
ghost use Rattle.argo_model.specs.Rules.Possible.{is_possible};
ghost use Rattle.argo_model.specs.Rules.Sweep as rule;
ghost use Rattle.argo_board.specs.declared.entry.FlagChange.TheVariants.{Raise};
ghost use Rattle.argo_board.specs.Board.{most_steps};
ghost use Rattle.ring_core.specs.Held.{Becomes, IsSaid};
ghost use Rattle.shared_steps.specs.Passes.{noted, stepped};

use crate::ended::copy_of;
use argo_base::{Ended, Errno, NoMemory};
use argo_board::{Board, FlagChange};
use argo_model::Outcome;
use lock_tokens::Gate;
use ring_core::Ring;
use shared_caller::Caller;
use shared_parts::Plan;
use shared_steps::{Pause, WorldPass};
use std::sync::Wait;
use std::sync::ledger::Ledger;

/// A caller sweeps its ring with the least serial above `after`.
pub fn sweep<A: Plan, B: Ledger, C: Ledger, P: Pause, R: Wait>(
    caller: &Caller<'_, A, B, C, P>,
    rt: &R,
    pass: &mut WorldPass<A, B, C>,
    after: u64,
) -> Result<Outcome, NoMemory>
    requires held { pass.old.held ≡ 1 ∷ [] }
    requires few { pass.old.tally.steps < most_steps }
    ensures possible { IfOk result
        (λ o. IsTrue (is_possible A.facts caller.now (Sweeps after) o)) }
    ensures pass { IfOk result (λ o. pass.new ≡ stepped pass.old o) }
    ensures err { OnErr result (pass.new ≡ pass.old) }
{
    if !caller.party.on {
        return caller.steps.note(rt, pass, Outcome::Refused(Errno::NoDev));
    }
    let rings = pass.read(rt, &caller.party.live.rings);
    let outcome = match rings.value().after(after) {
        Some((ring, serial)) => sweep_next(caller, rt, pass, ring, serial),
        None => caller.steps.note(rt, pass, Outcome::NoMore),
    };
    pass.end_read(rings);
    outcome
}

// Sweeps a ring, and takes it off the lists of those whose notices ended.
fn sweep_next<A: Plan, B: Ledger, C: Ledger, P: Pause, R: Wait>(
    caller: &Caller<'_, A, B, C, P>,
    rt: &R,
    pass: &mut WorldPass<A, B, C>,
    ring: &Gate<Ring, 3>,
    serial: u64,
) -> Result<Outcome, NoMemory>
    requires held { pass.old.held ≡ 1 ∷ 2 ∷ [] }
    requires few { pass.old.tally.steps < most_steps }
    ensures can { IfOk result (λ o. o ≡ Swept serial) }
    ensures pass { IfOk result (λ o. pass.new ≡ stepped pass.old o) }
    ensures err { OnErr result (pass.new ≡ pass.old) }
{
    let mut part = pass.lock(rt, ring);
    let ring = part.value_mut();
    let outcome = match sweep_ring(caller, rt, pass, ring, serial) {
        Ok(ended) => {
            caller.unlist_ended(rt, pass, ring.id(), ended.as_slice());
            Ok(Outcome::Swept(serial))
        }
        Err(refused) => Err(refused),
    };
    pass.unlock(part);
    outcome
}

// Sweeps a ring whose lock is held.
fn sweep_ring<A: Plan, B: Ledger, C: Ledger, P: Pause, R: Wait>(
    caller: &Caller<'_, A, B, C, P>,
    rt: &R,
    pass: &mut WorldPass<A, B, C>,
    ring: &mut Ring,
    serial: u64,
) -> Result<Ended, NoMemory>
    requires held { pass.old.held ≡ 1 ∷ 2 ∷ 3 ∷ [] }
    requires few { pass.old.tally.steps < most_steps }
    ensures pass { IfOk result (λ _. pass.new ≡ stepped pass.old (Swept serial)) }
    ensures err { OnErr result (pass.new ≡ pass.old) }
{
    let mut part = pass.lock(rt, &caller.steps.board);
    let ended = swept(part.value_mut(), pass, ring, serial);
    pass.unlock(part);
    ended
}

// Sweeps a ring, as a step: the domains whose notices ended are signalled.
fn swept<A: Ledger, B: Ledger, C: Ledger>(
    board: &mut Board<A, B, C>,
    pass: &mut WorldPass<A, B, C>,
    ring: &mut Ring,
    serial: u64,
) -> Result<Ended, NoMemory>
    requires few { pass.old.tally.steps < most_steps }
    ensures pass { IfOk result (λ _. pass.new ≡ stepped pass.old (Swept serial)) }
    ensures said { IfOk result (λ ended. IsSaid ring.old ended (λ p. (rule.sweep_ring p).signals)) }
    ensures left { IfOk result (λ _. Becomes ring.old ring.new (λ p. after p (rule.sweep_ring p))) }
    ensures entry { IfOk result (λ ended. board.new.entries
        ≡ noted board.old.entries pass.old (Swept serial) (Raise ended)) }
    ensures err { OnErr result (pass.new ≡ pass.old) }
    ensures stays { OnErr result (ring.new ≡ ring.old) }
{
    board.reserve()?;
    let ended = ring.sweep();
    let change = FlagChange::Raise(copy_of(&ended));
    pass.append(board, Outcome::Swept(serial), change);
    Ok(ended)
}

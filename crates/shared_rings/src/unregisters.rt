//! A domain takes a ring of its own away.
ghost use Rattle.std.specs.Prelude.{◌≡◌, ◌<◌, [], ◌∷◌, IsTrue, IfOk, IfSome, IfNone, OnErr};
ghost use Rattle.argo_model.specs.declared.action.Action.TheVariants.{Unregister};
ghost use Rattle.argo_model.specs.declared.action.Outcome.TheVariants.{Done};
ghost use Rattle.argo_model.specs.Rules.Possible.{is_possible};
ghost use Rattle.argo_board.specs.declared.entry.FlagChange.TheVariants.{Keep};
ghost use Rattle.argo_board.specs.Board.{most_steps};
ghost use Rattle.shared_steps.specs.Passes.{noted, stepped};

use argo_base::{Errno, NoMemory, RingId, RingKey};
use argo_board::{Board, FlagChange};
use argo_model::Outcome;
use guest_pages::Private;
use pending_list::Notices;
use shared_caller::Caller;
use shared_parts::{Plan, Rings};
use shared_steps::{Pause, WorldPass};
use std::sync::Wait;
use std::sync::ledger::Ledger;

/// A caller takes its ring of this key away, and with it its names in the lists of others.
pub fn unregister<A: Plan, B: Ledger, C: Ledger, P: Pause, R: Wait>(
    caller: &Caller<'_, A, B, C, P>,
    rt: &R,
    pass: &mut WorldPass<A, B, C>,
    key: RingKey,
) -> Result<Outcome, NoMemory>
    requires held { pass.old.held ≡ 1 ∷ [] }
    requires few { pass.old.tally.steps < most_steps }
    ensures possible { IfOk result
        (λ o. IsTrue (is_possible A.facts caller.now (Unregister key.port key.partner) o)) }
    ensures pass { IfOk result (λ o. pass.new ≡ stepped pass.old o) }
    ensures err { OnErr result (pass.new ≡ pass.old) }
{
    if !caller.party.on {
        return caller.steps.note(rt, pass, Outcome::Refused(Errno::NoDev));
    }
    let id = RingId {
        owner: caller.party.id,
        port: key.port,
        partner: key.partner,
    };
    let mut part = pass.write(rt, &caller.party.live.rings);
    let ended = end_ring(caller, rt, pass, part.value_mut(), key);
    let outcome = match ended {
        Ok(Some(notices)) => {
            caller.unlist_all(rt, pass, id, &notices);
            Ok(Outcome::Done)
        }
        Ok(None) => caller.steps.note(rt, pass, Outcome::Refused(Errno::NoEnt)),
        Err(refused) => Err(refused),
    };
    pass.end_write(part);
    outcome
}

// Ends a ring, whose pages become private again. Where there is none, there is no step.
fn end_ring<A: Plan, B: Ledger, C: Ledger, P: Pause, R: Wait>(
    caller: &Caller<'_, A, B, C, P>,
    rt: &R,
    pass: &mut WorldPass<A, B, C>,
    rings: &mut Rings,
    key: RingKey,
) -> Result<Option<Notices>, NoMemory>
    requires held { pass.old.held ≡ 1 ∷ 2 ∷ [] }
    requires few { pass.old.tally.steps < most_steps }
    ensures pass { IfOk result (λ x. IfSome x (λ _. pass.new ≡ stepped pass.old Done)) }
    ensures none { IfOk result (λ x. IfNone x (pass.new ≡ pass.old)) }
    ensures err { OnErr result (pass.new ≡ pass.old) }
{
    if !rings.has_ring(key) {
        return Ok(None);
    }
    let mut private = pass.lock(rt, &caller.party.live.private);
    let mut board = pass.lock(rt, &caller.steps.board);
    let notices = ended(board.value_mut(), pass, rings, private.value_mut(), key);
    pass.unlock(board);
    pass.unlock(private);
    Ok(Some(notices?))
}

// Ends a ring, as a step.
fn ended<A: Ledger, B: Ledger, C: Ledger>(
    board: &mut Board<A, B, C>,
    pass: &mut WorldPass<A, B, C>,
    rings: &mut Rings,
    private: &mut Private,
    key: RingKey,
) -> Result<Notices, NoMemory>
    requires { pass.old.tally.steps < most_steps }
    ensures pass { IfOk result (λ _. pass.new ≡ stepped pass.old Done) }
    ensures entry { IfOk result
        (λ _. board.new.entries ≡ noted board.old.entries pass.old Done Keep) }
    ensures err { OnErr result (pass.new ≡ pass.old) }
{
    board.reserve()?;
    let notices = rings.end(key, private);
    pass.append(board, Outcome::Done, FlagChange::Keep);
    Ok(notices)
}

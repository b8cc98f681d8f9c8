//! A domain registers a ring, or registers it anew.
ghost use Rattle.std.specs.Prelude.{◌≡◌, ◌<◌, [], ◌∷◌, IsTrue, IfOk, OnErr, length};
ghost use Rattle.argo_base.specs.Slots.{is_legal, page_count};
ghost use Rattle.argo_model.specs.declared.action.Action.TheVariants.{Register};
ghost use Rattle.argo_model.specs.declared.action.Outcome.TheVariants.{Done};
ghost use Rattle.argo_model.specs.Rules.Possible.{is_possible};
ghost use Rattle.argo_board.specs.declared.entry.FlagChange.TheVariants.{Keep};
ghost use Rattle.argo_board.specs.Board.{most_steps};
ghost use Rattle.shared_steps.specs.Passes.{noted, stepped};
ghost use Rattle.shared_rings.specs.Made.{is_made, is_registered, signals_of};

use crate::ended::copy_of;
use crate::registration::{Registration, Standing, found, refusal};
use argo_base::{Ended, Errno, NoMemory, RingId};
use argo_board::{Board, FlagChange};
use argo_model::Outcome;
use guest_pages::{LendFault, PageRow, Private};
use shared_caller::Caller;
use shared_parts::{Plan, Rings};
use shared_steps::{Pause, WorldPass};
use std::sync::Wait;
use std::sync::ledger::Ledger;

// A ring that is to be made, on pages that were lent for it.
#[derive(Drop)]
struct NewRing {
    id: RingId,
    len: u32,
    row: PageRow,
}

/// A caller registers a ring. A new one is put into its partner's list before it is made.
#[tactic(auto, using(crate::proofs::RegisterLaws::register_possible))]
pub fn register<A: Plan, B: Ledger, C: Ledger, P: Pause, R: Wait>(
    caller: &Caller<'_, A, B, C, P>,
    rt: &R,
    pass: &mut WorldPass<A, B, C>,
    r: Registration,
) -> Result<Outcome, NoMemory>
    requires held { pass.old.held ≡ 1 ∷ [] }
    requires few { pass.old.tally.steps < most_steps }
    requires legal { IsTrue (is_legal r.len) }
    requires counted { length r.pages ≡ page_count r.len }
    ensures possible { IfOk result
        (λ o. IsTrue (is_possible A.facts caller.now
        (Register r.id.port r.id.partner r.len r.pages r.fail_exist) o)) }
    ensures pass { IfOk result (λ o. pass.new ≡ stepped pass.old o) }
    ensures err { OnErr result (pass.new ≡ pass.old) }
{
    if let Some(error) = refusal(caller, &r) {
        return caller.steps.note(rt, pass, Outcome::Refused(error));
    }
    let mut part = pass.write(rt, &caller.party.live.rings);
    let outcome = register_in(caller, rt, pass, part.value_mut(), &r);
    pass.end_write(part);
    outcome
}

// Registers a ring in the caller's table.
#[tactic(auto, using(crate::proofs::RegisterLaws::made_registered))]
fn register_in<A: Plan, B: Ledger, C: Ledger, P: Pause, R: Wait>(
    caller: &Caller<'_, A, B, C, P>,
    rt: &R,
    pass: &mut WorldPass<A, B, C>,
    rings: &mut Rings,
    r: &Registration,
) -> Result<Outcome, NoMemory>
    requires held { pass.old.held ≡ 1 ∷ 2 ∷ [] }
    requires few { pass.old.tally.steps < most_steps }
    requires legal { IsTrue (is_legal r.now.len) }
    requires counted { length r.now.pages ≡ page_count r.now.len }
    ensures can { IfOk result (λ o. IsTrue (is_registered r.now.fail_exist o)) }
    ensures pass { IfOk result (λ o. pass.new ≡ stepped pass.old o) }
    ensures err { OnErr result (pass.new ≡ pass.old) }
{
    match found(rings, r) {
        Standing::Refused(error) => caller.steps.note(rt, pass, Outcome::Refused(error)),
        Standing::Same => caller.steps.note(rt, pass, Outcome::Done),
        Standing::Other => {
            let (outcome, ended) = register_anew(caller, rt, pass, rings, r)?;
            caller.unlist_ended(rt, pass, r.id, ended.as_slice());
            Ok(outcome)
        }
        Standing::None => {
            caller.list_ring(rt, pass, r.id)?;
            let outcome = make(caller, rt, pass, rings, r);
            caller.keep_listed(rt, pass, r.id, &outcome);
            outcome
        }
    }
}

// Makes a ring on pages of the caller that stand in no ring.
fn make<A: Plan, B: Ledger, C: Ledger, P: Pause, R: Wait>(
    caller: &Caller<'_, A, B, C, P>,
    rt: &R,
    pass: &mut WorldPass<A, B, C>,
    rings: &mut Rings,
    r: &Registration,
) -> Result<Outcome, NoMemory>
    requires held { pass.old.held ≡ 1 ∷ 2 ∷ [] }
    requires few { pass.old.tally.steps < most_steps }
    requires legal { IsTrue (is_legal r.now.len) }
    requires counted { length r.now.pages ≡ page_count r.now.len }
    ensures can { IfOk result (λ o. IsTrue (is_made o)) }
    ensures pass { IfOk result (λ o. pass.new ≡ stepped pass.old o) }
    ensures err { OnErr result (pass.new ≡ pass.old) }
{
    let mut part = pass.lock(rt, &caller.party.live.private);
    let private = part.value_mut();
    let outcome = match private.lend(r.pages.as_slice()) {
        Ok(row) => {
            let new = NewRing {
                id: r.id,
                len: r.len,
                row,
            };
            match make_on(caller, rt, pass, rings, new) {
                Ok(outcome) => Ok(outcome),
                Err(row) => {
                    private.give_back(row);
                    Err(NoMemory)
                }
            }
        }
        Err(LendFault::Pages) => caller.steps.note(rt, pass, Outcome::Refused(Errno::Inval)),
        Err(LendFault::NoMemory) => Err(NoMemory),
    };
    pass.unlock(part);
    outcome
}

// Makes a ring. Where memory runs out its pages come back.
fn make_on<A: Plan, B: Ledger, C: Ledger, P: Pause, R: Wait>(
    caller: &Caller<'_, A, B, C, P>,
    rt: &R,
    pass: &mut WorldPass<A, B, C>,
    rings: &mut Rings,
    new: NewRing,
) -> Result<Outcome, PageRow>
    requires held { pass.old.held ≡ 1 ∷ 2 ∷ 6 ∷ [] }
    requires few { pass.old.tally.steps < most_steps }
    requires legal { IsTrue (is_legal new.len) }
    requires pages { length new.row ≡ page_count new.len }
    ensures can { IfOk result (λ o. o ≡ Done) }
    ensures pass { IfOk result (λ o. pass.new ≡ stepped pass.old o) }
    ensures err { OnErr result (pass.new ≡ pass.old) }
{
    let mut part = pass.lock(rt, &caller.steps.board);
    let outcome = made(part.value_mut(), pass, rings, new);
    pass.unlock(part);
    outcome
}

// Registers a ring that stands, with another length or on other pages. The domains whose notices ended come with the outcome.
fn register_anew<A: Plan, B: Ledger, C: Ledger, P: Pause, R: Wait>(
    caller: &Caller<'_, A, B, C, P>,
    rt: &R,
    pass: &mut WorldPass<A, B, C>,
    rings: &mut Rings,
    r: &Registration,
) -> Result<(Outcome, Ended), NoMemory>
    requires held { pass.old.held ≡ 1 ∷ 2 ∷ [] }
    requires few { pass.old.tally.steps < most_steps }
    requires legal { IsTrue (is_legal r.now.len) }
    requires counted { length r.now.pages ≡ page_count r.now.len }
    ensures can { IfOk result (λ x. IsTrue (is_made x.0)) }
    ensures pass { IfOk result (λ x. pass.new ≡ stepped pass.old x.0) }
    ensures err { OnErr result (pass.new ≡ pass.old) }
{
    let mut private = pass.lock(rt, &caller.party.live.private);
    let mut board = pass.lock(rt, &caller.steps.board);
    let restarted = restarted(board.value_mut(), pass, rings, private.value_mut(), r);
    pass.unlock(board);
    pass.unlock(private);
    restarted
}

// Makes a ring, as a step. Where memory runs out its pages come back.
fn made<A: Ledger, B: Ledger, C: Ledger>(
    board: &mut Board<A, B, C>,
    pass: &mut WorldPass<A, B, C>,
    rings: &mut Rings,
    new: NewRing,
) -> Result<Outcome, PageRow>
    requires few { pass.old.tally.steps < most_steps }
    requires legal { IsTrue (is_legal new.len) }
    requires pages { length new.row ≡ page_count new.len }
    ensures can { IfOk result (λ o. o ≡ Done) }
    ensures pass { IfOk result (λ o. pass.new ≡ stepped pass.old o) }
    ensures entry { IfOk result
        (λ o. board.new.entries ≡ noted board.old.entries pass.old o Keep) }
    ensures err { OnErr result (pass.new ≡ pass.old) }
{
    let NewRing { id, len, row } = new;
    if board.reserve().is_err() {
        return Err(row);
    }
    rings.make(id, len, row)?;
    Ok(pass.append(board, Outcome::Done, FlagChange::Keep))
}

// Starts a ring anew, as a step: those whose notices ended are signalled.
fn restarted<A: Ledger, B: Ledger, C: Ledger>(
    board: &mut Board<A, B, C>,
    pass: &mut WorldPass<A, B, C>,
    rings: &mut Rings,
    private: &mut Private,
    r: &Registration,
) -> Result<(Outcome, Ended), NoMemory>
    requires few { pass.old.tally.steps < most_steps }
    requires legal { IsTrue (is_legal r.now.len) }
    requires counted { length r.now.pages ≡ page_count r.now.len }
    ensures can { IfOk result (λ x. IsTrue (is_made x.0)) }
    ensures pass { IfOk result (λ x. pass.new ≡ stepped pass.old x.0) }
    ensures entry { IfOk result (λ x. board.new.entries
        ≡ noted board.old.entries pass.old x.0 (signals_of x.0 x.1)) }
    ensures err { OnErr result (pass.new ≡ pass.old) }
{
    board.reserve()?;
    match rings.restart(r.id.key(), r.len, private, r.pages.as_slice()) {
        Ok(ended) => {
            let change = FlagChange::Raise(copy_of(&ended));
            Ok((pass.append(board, Outcome::Done, change), ended))
        }
        Err(LendFault::Pages) => {
            let outcome = Outcome::Refused(Errno::Inval);
            let outcome = pass.append(board, outcome, FlagChange::Keep);
            Ok((outcome, Ended::new()))
        }
        Err(LendFault::NoMemory) => Err(NoMemory),
    }
}

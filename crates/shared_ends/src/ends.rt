//! Acts on whole domains, under the lock of all of them: no other lock that lies in them is taken.
ghost use Rattle.std.specs.Prelude.{◌≡◌, ◌<◌, [], ◌∷◌, IsTrue, IfOk, IfErr, OnErr};
ghost use Rattle.argo_model.specs.declared.action.Outcome.TheVariants.{Done, Refused};
ghost use Rattle.argo_model.specs.Rules.Outcomes.{is_outcome_of};
ghost use Rattle.argo_board.specs.Board.{most_steps};
ghost use Rattle.shared_steps.specs.Passes.{noted, stepped};
ghost use Rattle.shared_ends.specs.Ends.{MayTurn, flag_after, may_end, the_action};

use argo_base::{DomId, Errno, NoMemory};
use argo_board::{Board, FlagChange};
use argo_model::Outcome;
use shared_parts::{Domains, Live, Plan};
use shared_steps::{Pause, Steps, WorldPass};
use std::alloc::Global;
use std::sync::Wait;
use std::sync::ledger::Ledger;

/// An act on a whole domain.
#[derive(Clone, Copy, Debug)]
pub enum End {
    Destroy(DomId),
    Reset(DomId),
    Create(DomId),
}

/// What such an act does to a domain.
#[derive(Drop)]
enum Turn {
    /// Its rings and notices end, and it is gone.
    Destroyed(DomId),
    /// Its rings and notices end.
    Reset(DomId),
    /// It is alive again, with this.
    Created(DomId, Live),
}

/// Performs an act on a whole domain, as one step, or refuses it. Where memory runs out there is no step.
pub fn end_in<A: Plan, B: Ledger, C: Ledger, P: Pause, R: Wait>(
    steps: &Steps<A, B, C, P>,
    rt: &R,
    pass: &mut WorldPass<A, B, C>,
    domains: &mut Domains<A>,
    end: End,
) -> Result<Outcome, NoMemory>
    requires held { pass.old.held ≡ 1 ∷ [] }
    requires few { pass.old.tally.steps < most_steps }
    requires ends { IsTrue (may_end A.facts (the_action end)) }
    ensures can { IfOk result (λ o. IsTrue (is_outcome_of (the_action end) o)) }
    ensures pass { IfOk result (λ o. pass.new ≡ stepped pass.old o) }
    ensures err { OnErr result (pass.new ≡ pass.old) }
{
    match turn_of(domains, steps.alloc, end)? {
        Ok(turn) => end_noted(steps, rt, pass, domains, turn),
        Err(error) => steps.note(rt, pass, Outcome::Refused(error)),
    }
}

// Turns a domain, as a step.
fn end_noted<A: Plan, B: Ledger, C: Ledger, P: Pause, R: Wait>(
    steps: &Steps<A, B, C, P>,
    rt: &R,
    pass: &mut WorldPass<A, B, C>,
    domains: &mut Domains<A>,
    turn: Turn,
) -> Result<Outcome, NoMemory>
    requires held { pass.old.held ≡ 1 ∷ [] }
    requires few { pass.old.tally.steps < most_steps }
    requires ends { MayTurn A.facts turn }
    ensures done { IfOk result (λ o. o ≡ Done) }
    ensures pass { IfOk result (λ o. pass.new ≡ stepped pass.old o) }
    ensures err { OnErr result (pass.new ≡ pass.old) }
{
    let mut part = pass.lock(rt, &steps.board);
    let outcome = ended(part.value_mut(), pass, domains, turn);
    pass.unlock(part);
    outcome
}

// What an act does to its domain, or why it is refused.
fn turn_of<A: Plan>(
    domains: &Domains<A>,
    alloc: Global,
    end: End,
) -> Result<Result<Turn, Errno>, NoMemory>
    requires { IsTrue (may_end A.facts (the_action end)) }
    ensures turns { IfOk result (λ r. IfOk r (λ turn. MayTurn A.facts turn)) }
    ensures done { IfOk result
        (λ r. IfOk r (λ _. IsTrue (is_outcome_of (the_action end) Done))) }
    ensures refused { IfOk result
        (λ r. IfErr r (λ e. IsTrue (is_outcome_of (the_action end) (Refused e)))) }
{
    match end {
        End::Destroy(dom) => {
            if domains.party(dom).is_none() {
                return Ok(Err(Errno::Srch));
            }
            Ok(Ok(Turn::Destroyed(dom)))
        }
        End::Reset(dom) => {
            if domains.party(dom).is_none() {
                return Ok(Err(Errno::Srch));
            }
            Ok(Ok(Turn::Reset(dom)))
        }
        End::Create(dom) => match domains.next_life(alloc, dom)? {
            Ok(live) => Ok(Ok(Turn::Created(dom, live))),
            Err(error) => Ok(Err(error)),
        },
    }
}

// Turns a domain, as a step.
fn ended<A: Plan, B: Ledger, C: Ledger>(
    board: &mut Board<A, B, C>,
    pass: &mut WorldPass<A, B, C>,
    domains: &mut Domains<A>,
    turn: Turn,
) -> Result<Outcome, NoMemory>
    requires few { pass.old.tally.steps < most_steps }
    requires ends { MayTurn A.facts turn }
    ensures done { IfOk result (λ o. o ≡ Done) }
    ensures pass { IfOk result (λ o. pass.new ≡ stepped pass.old o) }
    ensures entry { IfOk result (λ o.
        board.new.entries ≡ noted board.old.entries pass.old o (flag_after turn)) }
    ensures err { OnErr result (pass.new ≡ pass.old) }
{
    board.reserve()?;
    let change = match turn {
        Turn::Destroyed(dom) => {
            domains.destroy(dom);
            FlagChange::Clear(dom)
        }
        Turn::Reset(dom) => {
            domains.reset(dom);
            FlagChange::Clear(dom)
        }
        Turn::Created(dom, live) => {
            domains.begin_anew(dom, live);
            FlagChange::Keep
        }
    };
    Ok(pass.append(board, Outcome::Done, change))
}

//! What is done under the lock of the board: the place of an entry, a change, and then the entry.
ghost use Rattle.std.specs.Prelude.{◌≡◌, ◌<◌, IsTrue, IfOk, OnErr};
ghost use Rattle.argo_model.specs.Rules.Outcomes.{is_looked};
ghost use Rattle.argo_model.specs.Rules.Shorts.{short_of as the_short};
ghost use Rattle.argo_model.specs.declared.action.Outcome.TheVariants.{Flag};
ghost use Rattle.argo_board.specs.declared.entry.FlagChange.TheVariants.{Clear, Keep};
ghost use Rattle.argo_board.specs.Board.{most_steps};
ghost use Rattle.argo_board.specs.Journal.{IsOutcome, is_raised};
ghost use Rattle.lock_tokens.specs.Ranks.{IsAboveAll};
ghost use Rattle.shared_steps.specs.Passes.{noted, stepped};

use crate::{Pause, WorldPass};
use argo_base::{DomId, NoMemory};
use argo_board::{Board, FlagChange};
use argo_model::Outcome;
use lock_tokens::Gate;
use std::alloc::Global;
use std::sync::Wait;
use std::sync::ledger::Ledger;

/// What a world has beside its domains, for the steps of all of its passes.
#[derive(Drop)]
pub struct Steps<A: Ledger, B: Ledger, C: Ledger, P: Pause> {
    pub alloc: Global,
    pub pause: P,
    pub board: Gate<Board<A, B, C>, 7>,
}

#[tactic(auto, using(crate::proofs::Ranks::is_last, crate::proofs::Ranks::restored))]
impl<A: Ledger, B: Ledger, C: Ledger, P: Pause> Steps<A, B, C, P> {
    /// Notes a step with this outcome, which changes no flag. Where memory runs out there is no step.
    pub fn note<R: Wait>(
        &self,
        rt: &R,
        pass: &mut WorldPass<A, B, C>,
        outcome: Outcome,
    ) -> Result<Outcome, NoMemory>
        requires free { IsAboveAll 7 pass.old.held }
        requires few { pass.old.tally.steps < most_steps }
        requires short { IsOutcome (the_short outcome) }
        ensures outcome { IfOk result (λ o. o ≡ outcome) }
        ensures pass { IfOk result (λ o. pass.new ≡ stepped pass.old o) }
        ensures err { OnErr result (pass.new ≡ pass.old) }
    {
        let mut part = pass.lock(rt, &self.board);
        let outcome = note_on(part.value_mut(), pass, outcome);
        pass.unlock(part);
        outcome
    }

    /// Tells the flag of the caller and clears it. Where memory runs out there is no step.
    pub fn look<R: Wait>(
        &self,
        rt: &R,
        pass: &mut WorldPass<A, B, C>,
        dom: DomId,
    ) -> Result<Outcome, NoMemory>
        requires free { IsAboveAll 7 pass.old.held }
        requires few { pass.old.tally.steps < most_steps }
        ensures flag { IfOk result (λ o. IsTrue (is_looked o)) }
        ensures pass { IfOk result (λ o. pass.new ≡ stepped pass.old o) }
        ensures err { OnErr result (pass.new ≡ pass.old) }
    {
        let mut part = pass.lock(rt, &self.board);
        let outcome = look_on(part.value_mut(), pass, dom);
        pass.unlock(part);
        outcome
    }
}

// Notes a step that changes no flag.
fn note_on<A: Ledger, B: Ledger, C: Ledger>(
    board: &mut Board<A, B, C>,
    pass: &mut WorldPass<A, B, C>,
    outcome: Outcome,
) -> Result<Outcome, NoMemory>
    requires few { pass.old.tally.steps < most_steps }
    requires short { IsOutcome (the_short outcome) }
    ensures outcome { IfOk result (λ o. o ≡ outcome) }
    ensures pass { IfOk result (λ o. pass.new ≡ stepped pass.old o) }
    ensures entry { IfOk result
        (λ o. board.new.entries ≡ noted board.old.entries pass.old o Keep) }
    ensures err { OnErr result (pass.new ≡ pass.old) }
    ensures stays { OnErr result (board.new.entries ≡ board.old.entries) }
{
    board.reserve()?;
    Ok(pass.append(board, outcome, FlagChange::Keep))
}

// Tells a domain's flag and clears it.
fn look_on<A: Ledger, B: Ledger, C: Ledger>(
    board: &mut Board<A, B, C>,
    pass: &mut WorldPass<A, B, C>,
    dom: DomId,
) -> Result<Outcome, NoMemory>
    requires { pass.old.tally.steps < most_steps }
    ensures flag { IfOk result (λ o. o ≡ Flag (is_raised dom board.old.entries)) }
    ensures pass { IfOk result (λ o. pass.new ≡ stepped pass.old o) }
    ensures entry { IfOk result
        (λ o. board.new.entries ≡ noted board.old.entries pass.old o (Clear dom)) }
    ensures err { OnErr result (pass.new ≡ pass.old) }
    ensures stays { OnErr result (board.new.entries ≡ board.old.entries) }
{
    board.reserve()?;
    let set = board.look(dom);
    Ok(pass.append(board, Outcome::Flag(set), FlagChange::Clear(dom)))
}

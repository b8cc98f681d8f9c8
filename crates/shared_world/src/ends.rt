//! Acts on whole domains, for which the domains are written.
ghost use Rattle.std.specs.Prelude.{◌≡◌, ◌<◌, [], IsTrue, IfOk, OnErr};
ghost use Rattle.argo_model.specs.Rules.Possible.{is_possible, may_be_gone};
ghost use Rattle.argo_model.specs.Runs.Script.{is_known_actor};
ghost use Rattle.argo_board.specs.Board.{most_steps};
ghost use Rattle.shared_steps.specs.Passes.{stepped};
ghost use Rattle.shared_ends.specs.Ends.{may_end, the_action};

use crate::world::World;
use argo_base::NoMemory;
use argo_model::{Actor, Outcome};
use shared_ends::{End, end_in};
use shared_parts::{Domains, Plan};
use shared_steps::{Pause, WorldPass};
use std::sync::Wait;
use std::sync::ledger::Ledger;

impl<A: Plan, B: Ledger, C: Ledger, P: Pause> World<A, B, C, P> {
    /// Performs an act on a whole domain.
    pub(crate) fn end<R: Wait>(
        &self,
        rt: &R,
        pass: &mut WorldPass<A, B, C>,
        actor: Actor,
        end: End,
    ) -> Result<Outcome, NoMemory>
        requires held { pass.old.held ≡ [] }
        requires few { pass.old.tally.steps < most_steps }
        requires known { IsTrue (is_known_actor A.facts.domains actor) }
        requires ends { IsTrue (may_end A.facts (the_action end)) }
        ensures possible { IfOk result
            (λ o. IsTrue (is_possible A.facts actor (the_action end) o)) }
        ensures pass { IfOk result (λ o. pass.new ≡ stepped pass.old o) }
        ensures err { OnErr result (pass.new ≡ pass.old) }
    {
        let mut part = pass.write(rt, &self.domains);
        let domains = part.value_mut();
        let outcome = if is_gone(domains, actor) {
            self.steps.note(rt, pass, Outcome::Gone)
        } else {
            end_in(&self.steps, rt, pass, domains, end)
        };
        pass.end_write(part);
        outcome
    }
}

// Whether the caller is gone. The control section never is.
fn is_gone<A: Plan>(domains: &Domains<A>, actor: Actor) -> bool
    requires { IsTrue (is_known_actor A.facts.domains actor) }
    ensures { IsTrue result → IsTrue (may_be_gone A.facts actor) }
{
    match actor {
        Actor::Vcpu(dom, generation) => domains.caller(dom, generation).is_none(),
        Actor::Control => false,
    }
}

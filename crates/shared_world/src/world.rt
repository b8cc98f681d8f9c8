//! The world, and each action of a pass.
ghost use Rattle.std.specs.Prelude.{◌≡◌, ◌+◌, ◌<◌, ◌≤◌, [], ◌∷◌, IsTrue, IfOk, OnErr, length, map};
ghost use Rattle.argo_model.specs.Rules.Access.{is_fit_at};
ghost use Rattle.argo_model.specs.Rules.Fit.{is_fit_for};
ghost use Rattle.argo_model.specs.Rules.Possible.{facts_of, is_possible};
ghost use Rattle.argo_model.specs.Runs.Final.{totals_after};
ghost use Rattle.argo_model.specs.Runs.Script.{is_known_actor};
ghost use Rattle.argo_board.specs.Board.{AreFresh as AreFreshTallies, most_steps, most_vcpus, totals_of};
ghost use Rattle.shared_steps.specs.Passes.{AreFresh, stepped};
ghost use Rattle.shared_world.specs.Possible.{is_possible_at, may_end};

use crate::blanks::Blanks;
use argo_base::NoMemory;
use argo_board::{Board, Pass};
use argo_model::{Action, Actor, Outcome, Part, Scripts};
use lock_tokens::{Gate, RwGate};
use shared_acts::{Caller, act};
use shared_ends::End;
use shared_parts::{Domains, Plan};
use shared_steps::{Pause, Steps, WorldPass};
use std::alloc::Global;
use std::marker::Model;
use std::sync::Wait;
use std::sync::ledger::Ledger;

/// The world of a script, which many virtual CPUs share by reference, each with a pass of its own. The first of its ledgers knows what
/// never changes of the script: its domain lines, its sections, and which domains its lines destroy. Contracts see
/// the world as its `Pause`; all else that it holds is behind locks, and known there by its types.
#[derive(Drop)]
pub struct World<A: Plan, B: Ledger, C: Ledger, P: Pause> {
    pub(crate) steps: Steps<A, B, C, P>,
    pub(crate) actors: Vec<Actor>,
    pub(crate) domains: RwGate<Domains<A>, 1>,
}

impl<A: Plan, B: Ledger, C: Ledger, P: Pause> Model for World<A, B, C, P> {
    ghost use Rattle.std.specs.Prelude.{◌≡◌};
    ghost use Rattle.shared_world.specs.Plans.{IsPlan};

    ghost Value = { P };

    ghost view = { λ w. w.steps.pause };

    ghost invariant = { λ w. (w.actors.items ≡ A.actors) × IsPlan A.facts A.actors A.parts };
}

#[tactic(auto, using(crate::proofs::PlanLaws::plan_of, crate::proofs::PlanLaws::few_sections))]
impl<A: Plan, B: Ledger, C: Ledger, P: Pause> World<A, B, C, P> {
    /// The world as a run of the script starts in it, and a pass for each section, in their order.
    pub fn build(
        alloc: Global,
        scripts: &Scripts,
        pause: P,
        blanks: Blanks,
    ) -> Result<(Self, Vec<WorldPass<A, B, C>>), NoMemory>
        requires facts { A.facts ≡ facts_of scripts.now }
        requires actors { A.actors ≡ map (λ x. x.actor) scripts.now.sections }
        requires parts { A.parts ≡ length scripts.now.sections + 1 }
        requires alike { (B.parts ≡ A.parts) × (C.parts ≡ A.parts) }
        requires room { (blanks.room.name ≡ A.name) × (blanks.room.parts ≡ A.parts) }
        requires sends { (blanks.sends.name ≡ B.name) × (blanks.sends.parts ≡ B.parts) }
        requires loads { (blanks.loads.name ≡ C.name) × (blanks.loads.parts ≡ C.parts) }
        ensures count { IfOk result (λ r. length r.1.items ≡ length scripts.now.sections) }
        ensures passes { IfOk result (λ r. AreFresh r.1.items) }
    {
        let Blanks { room, sends, loads } = blanks;
        let parts = scripts.parts.as_slice();
        let (board, passes) = Board::build(alloc, parts.len() as u32, room, sends, loads)?;
        let world = World {
            steps: Steps {
                alloc,
                pause,
                board: Gate::new(board),
            },
            actors: actors_of(alloc, parts)?,
            domains: RwGate::new(Domains::new(alloc, scripts)?),
        };
        Ok((world, world_passes(alloc, passes)?))
    }

    /// What is told of places in the run.
    pub fn pause(&self) -> &P
        ensures { result.now ≡ self.now }
    {
        &self.steps.pause
    }

    /// Performs an action of a pass, as one step of the run. Other virtual CPUs may act beside it. Where memory runs out there is no step,
    /// and the world goes on as if there had been no call.
    pub fn act<R: Wait>(
        &self,
        rt: &R,
        pass: &mut WorldPass<A, B, C>,
        a: Action,
    ) -> Result<Outcome, NoMemory>
        requires free { pass.old.held ≡ [] }
        requires few { pass.old.tally.steps < most_steps }
        requires fit { IsTrue (is_fit_at A.actors pass.old.tally.vcpu a) }
        requires ends { IsTrue (may_end A.facts a) }
        ensures possible { IfOk result
            (λ o. IsTrue (is_possible_at A.facts A.actors pass.old.tally.vcpu a o)) }
        ensures counts { IfOk result
            (λ o. totals_of pass.new.tally ≡ totals_after (totals_of pass.old.tally) o) }
        ensures vcpu { pass.new.tally.vcpu ≡ pass.old.tally.vcpu }
        ensures free { pass.new.held ≡ [] }
        ensures err { OnErr result (pass.new ≡ pass.old) }
    {
        let actor = self.actors[pass.vcpu() as usize];
        match a {
            Action::Destroy { dom } => self.end(rt, pass, actor, End::Destroy(dom)),
            Action::Reset { dom } => self.end(rt, pass, actor, End::Reset(dom)),
            Action::Create { dom } => self.end(rt, pass, actor, End::Create(dom)),
            a => self.beside(rt, pass, actor, a),
        }
    }

    // Performs an action for which the domains are read.
    fn beside<R: Wait>(
        &self,
        rt: &R,
        pass: &mut WorldPass<A, B, C>,
        actor: Actor,
        a: Action,
    ) -> Result<Outcome, NoMemory>
        requires held { pass.old.held ≡ [] }
        requires few { pass.old.tally.steps < most_steps }
        requires fit { IsTrue (is_fit_for actor a) }
        requires known { IsTrue (is_known_actor A.facts.domains actor) }
        ensures possible { IfOk result (λ o. IsTrue (is_possible A.facts actor a o)) }
        ensures pass { IfOk result (λ o. pass.new ≡ stepped pass.old o) }
        ensures err { OnErr result (pass.new ≡ pass.old) }
    {
        let domains = pass.read(rt, &self.domains);
        let outcome = self.actor_act(rt, pass, domains.value(), actor, a);
        pass.end_read(domains);
        outcome
    }

    // Performs such an action of whoever acts, where it is not gone. The control section rests.
    fn actor_act<R: Wait>(
        &self,
        rt: &R,
        pass: &mut WorldPass<A, B, C>,
        domains: &Domains<A>,
        actor: Actor,
        a: Action,
    ) -> Result<Outcome, NoMemory>
        requires held { pass.old.held ≡ 1 ∷ [] }
        requires few { pass.old.tally.steps < most_steps }
        requires fit { IsTrue (is_fit_for actor a) }
        requires known { IsTrue (is_known_actor A.facts.domains actor) }
        ensures possible { IfOk result (λ o. IsTrue (is_possible A.facts actor a o)) }
        ensures pass { IfOk result (λ o. pass.new ≡ stepped pass.old o) }
        ensures err { OnErr result (pass.new ≡ pass.old) }
    {
        let Actor::Vcpu(dom, generation) = actor else {
            return self.steps.note(rt, pass, Outcome::Done);
        };
        let Some(party) = domains.caller(dom, generation) else {
            return self.steps.note(rt, pass, Outcome::Gone);
        };
        let caller = Caller {
            steps: &self.steps,
            domains,
            party,
        };
        act(&caller, rt, pass, a)
    }
}

// Who works through each section.
fn actors_of(alloc: Global, parts: &[Part]) -> Result<Vec<Actor>, NoMemory>
    ensures { IfOk result (λ actors. actors.items ≡ map (λ x. x.actor) parts.now) }
{
    let mut actors = Vec::with_capacity(alloc, parts.len())?;
    for part in parts {
        actors.push(part.actor)?;
    }
    Ok(actors)
}

// The passes of a board, each with no lock held.
#[tactic(auto, using(crate::proofs::FreshPasses::left_first, crate::proofs::FreshPasses::left_rest, crate::proofs::FreshPasses::fresh_more, crate::proofs::FreshPasses::all_left, crate::proofs::FreshPasses::all_fresh))]
fn world_passes<A: Ledger, B: Ledger, C: Ledger>(
    alloc: Global,
    passes: Vec<Pass<A, B, C>>,
) -> Result<Vec<WorldPass<A, B, C>>, NoMemory>
    requires few { length passes.items ≤ most_vcpus }
    requires fresh { AreFreshTallies passes.items }
    ensures count { IfOk result (λ r. length r.items ≡ length passes.items) }
    ensures fresh { IfOk result (λ r. AreFresh r.items) }
{
    let mut all = Vec::with_capacity(alloc, passes.len())?;
    let mut vcpu: u32 = 0;
    for pass in passes {
        all.push(WorldPass::new(vcpu, pass))?;
        vcpu = vcpu.saturating_add(1);
    }
    Ok(all)
}

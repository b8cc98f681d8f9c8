//! The world: its domains, who its sections are, and what each of them has done.

ghost use Rattle.std.specs.Prelude.{◌≡◌, ◌-◌, ◌<◌, ◌^◌, IfOk, Some, length, map, slice_get, option_map};
ghost use Rattle.argo_model.specs.Rules.Access.{steps_of};
ghost use Rattle.argo_model.specs.Rules.State.{start_state};
ghost use Rattle.argo_model.specs.Runs.Closed.{closed_domains};
ghost use Rattle.argo_model.specs.Runs.Final.{final_domain, no_steps, totals_after};
ghost use Rattle.section_world.specs.Sections.{IsSmall};

use crate::DomainActs;
use crate::acts::{act, deliver};
use argo_base::{NoMemory, Piece};
use argo_model::{
    Access, Action, Actor, Address, ClosedDomains, FinalDomains, Load, Outcome, Part, Scripts,
    SerialWorld, TotalList, Totals, Unseen,
};
use std::alloc::Global;
use std::marker::Model;

/// The world of a script over its domains. It tells its state: contracts see that, who the sections are, and what each has done.
#[derive(Drop)]
pub struct SectionWorld<D: DomainActs> {
    domains: D,
    actors: Vec<Actor>,
    totals: Vec<Totals>,
    alloc: Global,
}

impl<D: DomainActs> Model for SectionWorld<D> {
    ghost use Rattle.section_world.specs.Sections.{WorldAt, IsWorld};

    ghost Value = { WorldAt };

    ghost view = { λ w. record {
      state = D.state w.domains;
      actors = w.actors.items;
      totals = w.totals.items;
    } };

    ghost invariant = { λ w. IsWorld (record {
      state = D.state w.domains;
      actors = w.actors.items;
      totals = w.totals.items;
    }) };
}

impl<D: DomainActs> Access for SectionWorld<D> {
    ghost told = { λ w. Some w.state };

    ghost actors = { λ w. w.actors };

    ghost totals = { λ w. w.totals };

    #[inline(always)]
    fn act(&mut self, v: u32, a: Action) -> Result<Outcome, NoMemory> {
        let place = v as usize;
        let outcome = act(&mut self.domains, self.alloc, self.actors[place], a)?;
        count(&mut self.totals[place], &outcome);
        Ok(outcome)
    }

    #[inline(always)]
    fn seen(&self, v: u32, piece: Piece) -> Result<&[u8], Unseen> {
        match self.actors[v as usize] {
            Actor::Vcpu(dom, generation) => self.domains.seen(dom, generation, piece),
            Actor::Control => Err(Unseen::Gone),
        }
    }

    #[inline(always)]
    fn count(&mut self, v: u32) {
        count(&mut self.totals[v as usize], &Outcome::Done);
    }

    #[inline(always)]
    fn put(&mut self, v: u32, page: u64, off: u32, bytes: &[u8]) -> Result<Outcome, NoMemory> {
        let place = v as usize;
        let Actor::Vcpu(dom, generation) = self.actors[place] else {
            return Ok(Outcome::Gone);
        };
        let outcome = self.domains.put((dom, generation), page, off, bytes)?;
        count(&mut self.totals[place], &outcome);
        Ok(outcome)
    }

    #[inline(always)]
    fn deliver(&mut self, v: u32, at: Address, load: &mut Load) -> Result<Outcome, NoMemory> {
        let place = v as usize;
        let Actor::Vcpu(dom, generation) = self.actors[place] else {
            return Ok(Outcome::Gone);
        };
        let caller = (dom, generation);
        let outcome = deliver(&mut self.domains, self.alloc, caller, at, load)?;
        count(&mut self.totals[place], &outcome);
        Ok(outcome)
    }
}

impl<D: DomainActs> SerialWorld for SectionWorld<D> {
    fn start(alloc: Global, scripts: &Scripts) -> Result<SectionWorld<D>, NoMemory> {
        let parts = scripts.parts.as_slice();
        Ok(SectionWorld {
            domains: D::start(alloc, scripts.domains.as_slice())?,
            actors: actors_of(alloc, parts)?,
            totals: fresh_totals(alloc, parts)?,
            alloc,
        })
    }

    fn steps(&self, v: u32) -> u64 {
        self.totals[v as usize].steps
    }

    fn closed(&self) -> Result<ClosedDomains, NoMemory> {
        self.domains.closed(self.alloc)
    }

    fn into_finals(self) -> Result<(FinalDomains, TotalList), NoMemory> {
        let SectionWorld {
            domains,
            totals,
            alloc,
            ..
        } = self;
        let finals = domains.into_finals(alloc)?;
        Ok((finals, TotalList::from_vec(totals)))
    }
}

// Counts a step with this outcome.
#[inline(always)]
fn count(totals: &mut Totals, outcome: &Outcome)
    requires small { IsSmall totals.old }
    requires few { totals.old.steps < 2 ^ 32 }
    ensures is { totals.new ≡ totals_after totals.old outcome.now }
    ensures small { IsSmall totals.new }
{
    totals.steps += 1;
    if let Outcome::Accepted(n) = outcome {
        totals.accepted += 1;
        totals.bytes += u64::from(*n);
    }
}

// Who works through each section.
fn actors_of(alloc: Global, parts: &[Part]) -> Result<Vec<Actor>, NoMemory>
    ensures { IfOk result (λ actors. actors.items ≡ map (λ x. x.actor) parts.now) }
{
    let mut actors = Vec::new(alloc);
    for part in parts {
        actors.push(part.actor)?;
    }
    Ok(actors)
}

// The totals of each section before its first step.
fn fresh_totals(alloc: Global, parts: &[Part]) -> Result<Vec<Totals>, NoMemory>
    ensures { IfOk result (λ totals. totals.items ≡ map (λ x. no_steps) parts.now) }
{
    let mut totals = Vec::new(alloc);
    for _ in parts {
        totals.push(Totals {
            steps: 0,
            accepted: 0,
            bytes: 0,
        })?;
    }
    Ok(totals)
}

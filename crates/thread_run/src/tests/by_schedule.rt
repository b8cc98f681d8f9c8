//! One thread drives the shared world under the schedules of worked scripts, beside the machine over the plain world. After each step the
//! outcomes are the same, and in the end the replies and the domains are.
mod same;
mod scripts;

ghost use Rattle.std.specs.Prelude.{◌≡◌, ◌+◌, ◌<◌, IsTrue, length, map};
ghost use Rattle.argo_model.specs.Rules.Possible.{facts_of};
ghost use Rattle.argo_model.specs.Runs.Run.{is_open, run};

use crate::worker::Worker;
use crate::workers::{parted, workers_of};
use argo_base::NoMemory;
use argo_machine::Machine;
use argo_model::{Outcome, Scripts, Short};
use plain_world::PlainWorld;
use script_text::read_scripts;
use scripts::ROWS;
use shared_parts::Plan;
use shared_world::{Blanks, Closed, NoPause, Pause, World, WorldPass};
use std::alloc::Global;
use std::marker::Brand;
use std::sync::Wait;
use std::sync::ledger::{Blank, Ledger};
use std::test::Fail;
use vcpu_machine::short_of;

/// The first thing in which the two worlds differ.
#[derive(Clone, Copy, Debug, PartialEq, Eq)]
enum Differs {
    /// The outcomes of a step of this section, or one of the two has no such step.
    Step(u32),
    /// The journal is not the outcomes of the steps in their order.
    Journal,
    Replies,
    Domains,
}

/// A step of this section, and its outcome in short.
type Step = (u32, Short);

/// The machine over the plain world, and the steps that it has made.
#[derive(Drop)]
struct Plain {
    machine: Machine<PlainWorld>,
    steps: Vec<Step>,
}

impl Plain {
    /// What differs in the end.
    fn differs_from(&self, shared: &Closed) -> Result<Option<Differs>, NoMemory> {
        let (domains, heard) = self.machine.closed()?;
        if !same::journal(shared.entries.as_slice(), self.steps.as_slice()) {
            return Ok(Some(Differs::Journal));
        }
        if !same::heard(shared.heard.as_slice(), heard.as_slice()) {
            return Ok(Some(Differs::Replies));
        }
        if !same::domains(shared.domains.as_slice(), domains.as_slice()) {
            return Ok(Some(Differs::Domains));
        }
        Ok(None)
    }
}

// Runs a script by a schedule in both worlds.
fn first_difference<R: Wait>(
    rt: &R,
    alloc: Global,
    text: &[u8],
    picks: &[u32],
) -> Result<Option<Differs>, NoMemory> {
    let Ok(s) = read_scripts(alloc, text) else {
        return Err(NoMemory);
    };
    let parts = s.parts.len() as u64 + 1;
    let blanks = Blanks {
        room: Blank::new(parts),
        sends: Blank::new(parts),
        loads: Blank::new(parts),
    };
    run_both::<Brand, Brand, Brand, R>(rt, alloc, &s, picks, blanks)
}

// Makes the steps in both worlds.
fn run_both<A: Plan, B: Ledger, C: Ledger, R: Wait>(
    rt: &R,
    alloc: Global,
    s: &Scripts,
    picks: &[u32],
    blanks: Blanks,
) -> Result<Option<Differs>, NoMemory>
    requires facts { A.facts ≡ facts_of s.now }
    requires actors { A.actors ≡ map (λ x. x.actor) s.now.sections }
    requires parts { A.parts ≡ length s.now.sections + 1 }
    requires alike { (B.parts ≡ A.parts) × (C.parts ≡ A.parts) }
    requires room { (blanks.room.name ≡ A.name) × (blanks.room.parts ≡ A.parts) }
    requires sends { (blanks.sends.name ≡ B.name) × (blanks.sends.parts ≡ B.parts) }
    requires loads { (blanks.loads.name ≡ C.name) × (blanks.loads.parts ≡ C.parts) }
{
    let (world, passes): (World<A, B, C, NoPause>, Vec<WorldPass<A, B, C>>) = World::build(
        alloc, s, NoPause, blanks,
    )?;
    let mut workers = workers_of(alloc, s.parts.as_slice(), passes)?;
    let mut plain = Plain {
        machine: Machine::new(alloc, s)?,
        steps: Vec::with_capacity(alloc, picks.len())?,
    };
    let differs = steps_differ(rt, &world, &mut workers, &mut plain, picks)?;
    if differs.is_some() {
        return Ok(differs);
    }
    let (passes, heard) = parted(alloc, workers)?;
    let shared = world.close(passes, heard)?;
    plain.differs_from(&shared)
}

// The first step that differs.
#[tactic(auto, using(crate::proofs::TestLaws::same_numbers))]
fn steps_differ<A: Plan, B: Ledger, C: Ledger, P: Pause, R: Wait>(
    rt: &R,
    world: &World<A, B, C, P>,
    workers: &mut Vec<Worker<A, B, C>>,
    plain: &mut Plain,
    picks: &[u32],
) -> Result<Option<Differs>, NoMemory>
    ensures { map (λ w. w.number) workers.new.items ≡ map (λ w. w.number) workers.old.items }
{
    'steps: for v in picks {
        let place = *v as usize;
        if place >= workers.len() {
            return Ok(Some(Differs::Step(*v)));
        }
        let same = is_same_step(rt, world, &mut workers[place], plain, *v)?;
        if !same {
            return Ok(Some(Differs::Step(*v)));
        }
    }
    Ok(None)
}

// One step in both worlds.
fn is_same_step<A: Plan, B: Ledger, C: Ledger, P: Pause, R: Wait>(
    rt: &R,
    world: &World<A, B, C, P>,
    worker: &mut Worker<A, B, C>,
    plain: &mut Plain,
    v: u32,
) -> Result<bool, NoMemory>
    ensures { worker.new.number ≡ worker.old.number }
{
    if worker.finished() || plain.machine.finished(v) {
        return Ok(false);
    }
    let shared = shared_step(rt, world, worker)?;
    let outcome = plain_step(&mut plain.machine, v)?;
    plain.steps.push((v, short_of(&outcome)))?;
    Ok(same::outcomes(&shared, &outcome))
}

// One step, and once more where memory ran out: then all goes on as if the first had not been.
fn shared_step<A: Plan, B: Ledger, C: Ledger, P: Pause, R: Wait>(
    rt: &R,
    world: &World<A, B, C, P>,
    worker: &mut Worker<A, B, C>,
) -> Result<Outcome, NoMemory>
    requires unfinished { worker.old.vcpu.done < length worker.old.vcpu.part.lines }
    ensures { worker.new.number ≡ worker.old.number }
{
    match worker.step(rt, world) {
        Ok(outcome) => Ok(outcome),
        Err(error) if worker.finished() => Err(error),
        Err(_) => worker.step(rt, world),
    }
}

// As `shared_step`.
fn plain_step(machine: &mut Machine<PlainWorld>, v: u32) -> Result<Outcome, NoMemory>
    requires { IsTrue (is_open (run machine.old.script machine.old.schedule) v) }
{
    match machine.step(v) {
        Ok(outcome) => Ok(outcome),
        Err(_) => machine.step(v),
    }
}

#[test]
fn each_step_by_a_schedule_is_the_machines(rt: HostRuntime) -> Result<(), Fail> {
    for (text, picks) in ROWS {
        assert_eq!(rt; first_difference(&rt, rt.alloc(), text, picks)?, None);
    }
    Ok(())
}

//! A script is run in threads, and the world is closed.
ghost use Rattle.std.specs.Prelude.{◌≡◌, ◌+◌, IfOk, length, map};
ghost use Rattle.argo_model.specs.Rules.Possible.{facts_of};
ghost use Rattle.shared_world.specs.Whole.{IsWhole};
ghost use Rattle.thread_run.specs.Workers.{AreOfTheSame};

use crate::worker::Worker;
use crate::workers::{parted, workers_of};
use argo_base::NoMemory;
use argo_model::Scripts;
use shared_parts::Plan;
use shared_world::{Blanks, Closed, NoPause, Pause, World, WorldPass};
use std::alloc::Global;
use std::marker::Brand;
use std::sync::Wait;
use std::sync::ledger::{Blank, Ledger};
use std::thread;
use std::thread::Threads;

/// Runs a script in threads, one for each virtual CPU. The order of their steps is the system's: the entries of the closed world tell
/// it, and a second run may have another.
pub fn run_threads<R: Threads + Wait + Sync>(
    rt: &R,
    alloc: Global,
    s: &Scripts,
) -> Result<Closed, NoMemory>
    ensures { IfOk result (λ c. IsWhole s.now c) }
{
    run_threads_with(rt, alloc, s, NoPause)
}

/// As `run_threads`. The pause is told of each reply, with no lock held, and of each offer to a ring, inside its lock.
pub fn run_threads_with<R: Threads + Wait + Sync, P: Pause + Send + Sync>(
    rt: &R,
    alloc: Global,
    s: &Scripts,
    pause: P,
) -> Result<Closed, NoMemory>
    ensures { IfOk result (λ c. IsWhole s.now c) }
{
    let parts = s.parts.len() as u64 + 1;
    let blanks = Blanks {
        room: Blank::new(parts),
        sends: Blank::new(parts),
        loads: Blank::new(parts),
    };
    run_world::<Brand, Brand, Brand, P, R>(rt, alloc, s, pause, blanks)
}

// Runs it over the three ledgers.
#[tactic(auto, using(crate::proofs::WorkerLaws::same_workers, crate::proofs::WorkerLaws::in_order, crate::proofs::WorkerLaws::whole))]
fn run_world<
    A: Plan + Send + Sync,
    B: Ledger + Send + Sync,
    C: Ledger + Send + Sync,
    P: Pause + Send + Sync,
    R: Threads + Wait + Sync,
>(rt: &R, alloc: Global, s: &Scripts, pause: P, blanks: Blanks) -> Result<Closed, NoMemory>
    requires facts { A.facts ≡ facts_of s.now }
    requires actors { A.actors ≡ map (λ x. x.actor) s.now.sections }
    requires parts { A.parts ≡ length s.now.sections + 1 }
    requires alike { (B.parts ≡ A.parts) × (C.parts ≡ A.parts) }
    requires room { (blanks.room.name ≡ A.name) × (blanks.room.parts ≡ A.parts) }
    requires sends { (blanks.sends.name ≡ B.name) × (blanks.sends.parts ≡ B.parts) }
    requires loads { (blanks.loads.name ≡ C.name) × (blanks.loads.parts ≡ C.parts) }
    ensures { IfOk result (λ c. IsWhole s.now c) }
{
    let (world, passes): (World<A, B, C, P>, Vec<WorldPass<A, B, C>>) = World::build(
        alloc, s, pause, blanks,
    )?;
    let mut workers = workers_of(alloc, s.parts.as_slice(), passes)?;
    run_all(rt, &world, &mut workers);
    let (passes, heard) = parted(alloc, workers)?;
    world.close(passes, heard)
}

// Each has a thread of its own, or the caller's where none can be started.
fn run_all<
    A: Plan + Send + Sync,
    B: Ledger + Send + Sync,
    C: Ledger + Send + Sync,
    P: Pause + Send + Sync,
    R: Threads + Wait + Sync,
>(rt: &R, world: &World<A, B, C, P>, workers: &mut Vec<Worker<A, B, C>>)
    ensures count { length workers.new.items ≡ length workers.old.items }
    ensures same { AreOfTheSame workers.old.items workers.new.items }
{
    let threads = workers.len().max(1);
    thread::for_each_mut(
        rt,
        workers.as_mut_slice(),
        threads,
        &|_, worker| { worker.work(rt, world) },
    );
}

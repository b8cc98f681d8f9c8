//! The workers of all sections, before the first step and after the last.
ghost use Rattle.std.specs.Prelude.{◌≡◌, IfOk, length, map};
ghost use Rattle.argo_board.specs.Board.{totals_of};
ghost use Rattle.shared_steps.specs.Passes.{AreFresh, StandInOrder};
ghost use Rattle.shared_world.specs.Whole.{AreHeardOut};
ghost use Rattle.thread_run.specs.Workers.{AllMayWork, AreWorkersOf};

use crate::worker::Worker;
use argo_base::NoMemory;
use argo_model::{Heard, Part};
use shared_parts::Plan;
use shared_world::WorldPass;
use std::alloc::Global;
use std::sync::ledger::Ledger;

/// One for each pass, which is that of the section of its number.
pub(crate) fn workers_of<A: Plan, B: Ledger, C: Ledger>(
    alloc: Global,
    parts: &[Part],
    passes: Vec<WorldPass<A, B, C>>,
) -> Result<Vec<Worker<A, B, C>>, NoMemory>
    requires count { length passes.items ≡ length parts.now }
    requires fresh { AreFresh passes.items }
    requires may { AllMayWork A.facts A.actors parts.now }
    ensures { IfOk result (λ workers. AreWorkersOf workers.items parts.now) }
{
    let mut workers = Vec::with_capacity(alloc, passes.len())?;
    for pass in passes {
        let place = pass.vcpu() as usize;
        workers.push(Worker::new(alloc, &parts[place], pass)?)?;
    }
    Ok(workers)
}

/// The passes, and the replies of each section, where no section has a line left.
pub(crate) fn parted<A: Plan, B: Ledger, C: Ledger>(
    alloc: Global,
    workers: Vec<Worker<A, B, C>>,
) -> Result<(Vec<WorldPass<A, B, C>>, Heard), NoMemory>
    ensures numbers { IfOk result
        (λ r. map (λ p. p.tally.vcpu) r.0.items ≡ map (λ w. w.number) workers.items) }
    ensures heard { IfOk result
        (λ r. AreHeardOut (map (λ w. w.vcpu.part) workers.items)
        (map (λ p. totals_of p.tally) r.0.items) r.1) }
{
    let mut passes = Vec::with_capacity(alloc, workers.len())?;
    let mut heard = Heard::new(alloc);
    for worker in workers {
        let (pass, lines) = worker.into_heard()?;
        passes.push(pass)?;
        heard.push(lines)?;
    }
    Ok((passes, heard))
}

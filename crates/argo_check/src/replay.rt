//! A schedule is replayed on a machine, up to the first number that makes no step.

ghost use Rattle.std.specs.Prelude.{◌≡◌, MatchBool, MatchOption, IfOk, length};
ghost use Rattle.argo_model.specs.Runs.Run.{IsComplete};
ghost use Rattle.argo_model.specs.Runs.Final.{schedule_of};
ghost use Rattle.argo_check.specs.Moves.{Goes, Stops, AllFinished, Replayed};

use argo_base::NoMemory;
use argo_machine::Machine;
use argo_model::{Run, Scripts};
use flat_world::FlatWorld;
use std::alloc::Global;

/// The machine of a script after the schedule of these runs, if that is complete. A false count costs no more steps than the
/// sections have.
pub(crate) fn replay(
    alloc: Global,
    scripts: &Scripts,
    runs: &[Run],
) -> Result<Option<Machine<FlatWorld>>, NoMemory>
    ensures { IfOk result (λ r. MatchOption r (¬ IsComplete scripts.now (schedule_of runs.now))
        (λ m. Replayed scripts.now (schedule_of runs.now) m)) }
{
    let mut machine = Machine::<FlatWorld>::new(alloc, scripts)?;
    for run in runs {
        let went = replay_run(&mut machine, *run)?;
        if !went {
            return Ok(None);
        }
    }
    if all_finished(&machine, scripts.parts.len() as u32) {
        Ok(Some(machine))
    } else {
        Ok(None)
    }
}

// Makes the steps of a run, or answers that there is none for one of its numbers.
fn replay_run(machine: &mut Machine<FlatWorld>, run: Run) -> Result<bool, NoMemory>
    ensures { IfOk result (λ went. MatchBool went (Goes machine.old run machine.new)
        (Stops machine.old run)) }
{
    for _ in 0..run.count {
        if machine.finished(run.vcpu) {
            return Ok(false);
        }
        machine.step(run.vcpu)?;
    }
    Ok(true)
}

// Whether every section is finished.
fn all_finished(machine: &Machine<FlatWorld>, count: u32) -> bool
    requires { count ≡ length machine.now.script.sections }
    ensures { MatchBool result (AllFinished machine.now) (¬ AllFinished machine.now) }
{
    for v in 0..count {
        if !machine.finished(v) {
            return false;
        }
    }
    true
}

//! The audit itself.
ghost use Rattle.std.specs.Prelude.{◌≡◌, ◌+◌, All, IfOk, None, length};
ghost use Rattle.argo_model.specs.Runs.Run.{run};
ghost use Rattle.audit.specs.Audit.{IsAuditOf, threads_side};
ghost use Rattle.audit.specs.Entries.{schedule_in, entries_differ, first_open};
ghost use Rattle.audit.specs.Rows.{sides_differ, side};
ghost use Rattle.audit.specs.Steps.{HasOutcome, AllFinished};

use crate::entries::{NO_STEP, entries_differ, first_open, next_short};
use crate::sides::{Side, sides_differ};
use crate::{Audited, Split};
use argo_base::NoMemory;
use argo_machine::Machine;
use argo_model::{ClosedDomains, Heard, Scripts, TotalList};
use flat_world::FlatWorld;
use shared_world::Closed;
use std::alloc::Global;

/// Compares a run in threads with the machine's run under the schedule of its entries: each entry, the end of the schedule, and then the
/// closed world.
pub fn audit(alloc: Global, scripts: &Scripts, closed: &Closed) -> Result<Audited, NoMemory>
    requires { All HasOutcome closed.now.entries }
    ensures { IfOk result (λ a. IsAuditOf scripts.now closed.now a) }
{
    let mut machine = Machine::<FlatWorld>::new(alloc, scripts)?;
    let found = entries_differ(&mut machine, closed.entries.as_slice())?;
    match found {
        Some(split) => Ok(Audited::Split(split)),
        None => audit_end(alloc, machine, scripts, closed),
    }
}

// Goes on where the machine has made the steps of all entries.
fn audit_end(
    alloc: Global,
    machine: Machine<FlatWorld>,
    scripts: &Scripts,
    closed: &Closed,
) -> Result<Audited, NoMemory>
    requires script { machine.script ≡ scripts.now }
    requires followed { machine.schedule ≡ schedule_in closed.now.entries }
    requires same { entries_differ machine.script closed.now.entries ≡ None }
    ensures { IfOk result (λ a. IsAuditOf scripts.now closed.now a) }
{
    let mut machine = machine;
    let open = first_open(&machine, scripts.parts.len() as u32);
    match open {
        Some(v) => {
            let next = next_short(&mut machine, v)?;
            let step = end_of(closed);
            Ok(Audited::Split(Split {
                step,
                threads: NO_STEP,
                machine: next,
            }))
        }
        None => audit_closed(alloc, machine, closed),
    }
}

// Goes on where all sections are finished then.
fn audit_closed(
    alloc: Global,
    machine: Machine<FlatWorld>,
    closed: &Closed,
) -> Result<Audited, NoMemory>
    requires followed { machine.schedule ≡ schedule_in closed.now.entries }
    requires same { entries_differ machine.script closed.now.entries ≡ None }
    requires ended { first_open (run machine.script machine.schedule) ≡ None }
    requires finished { AllFinished machine }
    ensures { IfOk result (λ a. IsAuditOf machine.script closed.now a) }
{
    let (domains, heard) = machine.closed()?;
    let shown = machine.finish()?;
    let found = closed_differs(alloc, closed, &domains, &heard, &shown.totals)?;
    match found {
        Some(split) => Ok(Audited::Split(split)),
        None => Ok(Audited::Agreed(shown)),
    }
}

// The step behind the last.
fn end_of(closed: &Closed) -> u64
    ensures { result ≡ length closed.now.entries + 1 }
{
    closed.entries.as_slice().len() as u64 + 1
}

// Compares the closed world with what the machine has at the end.
fn closed_differs(
    alloc: Global,
    closed: &Closed,
    domains: &ClosedDomains,
    heard: &Heard,
    totals: &TotalList,
) -> Result<Option<Split>, NoMemory>
    ensures { IfOk result (λ r. r ≡ sides_differ (length closed.now.entries + 1)
        (threads_side closed.now) (side heard.now domains.now totals.now)) }
{
    let threads = Side {
        heard: closed.heard.as_slice(),
        domains: closed.domains.as_slice(),
        totals: closed.totals.as_slice(),
    };
    let machine = Side {
        heard: heard.as_slice(),
        domains: domains.as_slice(),
        totals: totals.as_slice(),
    };
    sides_differ(alloc, end_of(closed), &threads, &machine)
}

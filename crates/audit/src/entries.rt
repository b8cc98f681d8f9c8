//! The entries of a journal against the machine's steps.
ghost use Rattle.std.specs.Prelude.{◌≡◌, ◌+◌, ◌<◌, [], All, IfOk, None, false, length, slice_get};
ghost use Rattle.std.specs.Option.{is_some};
ghost use Rattle.argo_model.specs.Runs.Run.{run};
ghost use Rattle.audit.specs.Entries.{entries_differ, entry_at, shorts_differ, first_open};
ghost use Rattle.audit.specs.Rows.{split};
ghost use Rattle.audit.specs.Steps.{HasOutcome, Followed, FollowedAll, AllFinished, Next};

use crate::Split;
use argo_base::NoMemory;
use argo_board::Entry;
use argo_machine::Machine;
use argo_model::Short;
use flat_world::FlatWorld;
use vcpu_machine::short_of;

/// Where a schedule has no step.
pub(crate) const NO_STEP: Short = Short { tag: 10, value: 0 };

/// Makes the steps of the entries on the machine, which has made none, up to the first that comes to something else.
pub(crate) fn entries_differ(
    machine: &mut Machine<FlatWorld>,
    entries: &[Entry],
) -> Result<Option<Split>, NoMemory>
    requires begins { machine.old.schedule ≡ [] }
    requires outcomes { All HasOutcome entries.now }
    ensures first { IfOk result (λ r. r ≡ entries_differ machine.old.script entries.now) }
    ensures followed { IfOk result (λ r. r ≡ None
        → FollowedAll machine.old.script entries.now machine.new) }
{
    for at in 0..entries.len() {
        let found = entry_at(machine, entries, at)?;
        if found.is_some() {
            return Ok(found);
        }
    }
    Ok(None)
}

// Makes the step of an entry, where the steps of those before it are made.
fn entry_at(
    machine: &mut Machine<FlatWorld>,
    entries: &[Entry],
    at: usize,
) -> Result<Option<Split>, NoMemory>
    requires inside { at < length entries.now }
    requires followed { Followed machine.old.script entries.now at machine.old }
    requires outcomes { All HasOutcome entries.now }
    ensures is { IfOk result (λ r. r ≡ entry_at machine.old.script entries.now at) }
    ensures goes { IfOk result (λ r. is_some r ≡ false
        → Followed machine.old.script entries.now (at + 1) machine.new) }
{
    let entry = &entries[at];
    let next = next_short(machine, entry.vcpu)?;
    Ok(shorts_differ(at as u64 + 1, entry.short, next))
}

fn shorts_differ(step: u64, threads: Short, machine: Short) -> Option<Split>
    ensures { result ≡ shorts_differ step threads machine }
{
    if threads.tag == machine.tag && threads.value == machine.value {
        None
    } else {
        Some(Split {
            step,
            threads,
            machine,
        })
    }
}

/// Makes the next step of a section, where it has a line left, and says what it comes to.
pub(crate) fn next_short(machine: &mut Machine<FlatWorld>, v: u32) -> Result<Short, NoMemory>
    ensures { IfOk result (λ s. Next machine.old v s machine.new) }
{
    if machine.finished(v) {
        return Ok(NO_STEP);
    }
    let outcome = machine.step(v)?;
    Ok(short_of(&outcome))
}

/// The first of so many sections, which are all, that is not finished.
pub(crate) fn first_open(machine: &Machine<FlatWorld>, count: u32) -> Option<u32>
    requires { count ≡ length machine.now.script.sections }
    ensures first { result ≡ first_open (run machine.now.script machine.now.schedule) }
    ensures finished { result ≡ None → AllFinished machine.now }
{
    for v in 0..count {
        if !machine.finished(v) {
            return Some(v);
        }
    }
    None
}

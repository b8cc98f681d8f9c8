//! The texts that are due for a script.

ghost use Rattle.std.specs.Prelude.{◌≡◌, ◌≤◌, IfOk};
ghost use Rattle.std.specs.String.{string_bytes};
ghost use Rattle.argo_model.specs.Runs.Report.{report_of};
ghost use Rattle.argo_run.specs.declared.status.Status.TheVariants as s;
ghost use Rattle.argo_run.specs.Due.{fault_text};
ghost use Rattle.argo_run.specs.Outside.{writing};
ghost use Rattle.argo_run.specs.Serve.{Wrote, ToldAudit, Refused};
ghost use Rattle.argo_run.specs.Splits.{split_text};

use crate::Status;
use crate::input::Unread;
use argo_model::Final;
use argo_outside::{Sink, write_whole};
use audit::{Audited, Split};
use report_text::{WriteFault, write_report};
use script_text::ScriptFault;
use shared_world::Closed;
use std::alloc::{AllocError, Global};

/// Writes the report of a run.
pub(crate) fn report<K: Sink>(alloc: Global, out: &mut K, shown: &Final) -> Status
    ensures count { K.faults out.old ≤ K.faults out.new }
    ensures ends { Wrote s.Done (report_of shown.now)
        (writing K.faults K.written out.old out.new) result }
{
    match write_report(alloc, out, shown) {
        Ok(()) => Status::Done,
        Err(WriteFault::Sink) => Status::SinkFault,
        Err(WriteFault::NoMemory) => Status::NoMemory,
    }
}

/// Writes what an audit of this world came to: the report of the run, or the line of its split.
pub(crate) fn tell_audited<K: Sink>(
    alloc: Global,
    out: &mut K,
    audited: Audited,
    closed: Closed,
) -> Status
    ensures count { K.faults out.old ≤ K.faults out.new }
    ensures ends { ToldAudit audited closed (writing K.faults K.written out.old out.new) result }
{
    match audited {
        Audited::Agreed(shown) => report(alloc, out, &shown),
        Audited::Split(split) => tell_split(alloc, out, split, closed),
    }
}

// Writes the line of a split.
fn tell_split<K: Sink>(alloc: Global, out: &mut K, split: Split, closed: Closed) -> Status
    ensures count { K.faults out.old ≤ K.faults out.new }
    ensures ends { Wrote (s.Split split closed) (split_text split)
        (writing K.faults K.written out.old out.new) result }
{
    let Ok(text) = split_text(alloc, split) else {
        return Status::NoMemory;
    };
    match write_whole(out, text.as_bytes()) {
        Ok(()) => Status::Split(split, closed),
        Err(_) => Status::SinkFault,
    }
}

/// Ends a run that has no script, with the line of its fault where it has one.
pub(crate) fn refuse<K: Sink>(alloc: Global, out: &mut K, unread: Unread) -> Status
    ensures count { K.faults out.old ≤ K.faults out.new }
    ensures ends { Refused unread (writing K.faults K.written out.old out.new) result }
{
    match unread {
        Unread::Source => Status::SourceFault,
        Unread::Fault(fault) => tell_fault(alloc, out, fault),
        Unread::NoMemory => Status::NoMemory,
    }
}

// Writes the line of a fault.
fn tell_fault<K: Sink>(alloc: Global, out: &mut K, fault: ScriptFault) -> Status
    ensures count { K.faults out.old ≤ K.faults out.new }
    ensures ends { Wrote (s.Script fault.line fault.kind) (fault_text fault)
        (writing K.faults K.written out.old out.new) result }
{
    let Ok(text) = fault_text(alloc, fault) else {
        return Status::NoMemory;
    };
    match write_whole(out, text.as_bytes()) {
        Ok(()) => Status::Script {
            line: fault.line,
            kind: fault.kind,
        },
        Err(_) => Status::SinkFault,
    }
}

// The line of a fault.
fn fault_text(alloc: Global, fault: ScriptFault) -> Result<String, AllocError>
    ensures { IfOk result (λ text. string_bytes text ≡ fault_text fault) }
{
    let kind = fault.kind.text();
    let line = fault.line;
    let mut text = String::new(alloc);
    writeln!(text, "script line {line}: {kind}")?;
    Ok(text)
}

// The line of a split.
fn split_text(alloc: Global, split: Split) -> Result<String, AllocError>
    ensures { IfOk result (λ text. string_bytes text ≡ split_text split) }
{
    let step = split.step;
    let (threads, machine) = (split.threads, split.machine);
    let mut text = String::new(alloc);
    write!(
        text,
        "split step {step}: threads {}.{}",
        threads.tag, threads.value
    )?;
    writeln!(text, " machine {}.{}", machine.tag, machine.value)?;
    Ok(text)
}

//! The words `serial N`: a script is read and run, and its report is written.

ghost use Rattle.std.specs.Prelude.{◌≤◌};
ghost use Rattle.argo_run.specs.declared.words.Way.TheVariants as w;
ghost use Rattle.argo_run.specs.Ends.{RunsScript};
ghost use Rattle.argo_run.specs.Outside.{reading, writing};
ghost use Rattle.argo_run.specs.Serve.{RanScript};

use crate::Status;
use crate::input::read_script;
use crate::output::{refuse, report};
use argo_model::Scripts;
use argo_outside::{Sink, Source};
use serial_run::run_scripts;
use std::alloc::Global;

/// Reads a script, runs it by the picks of a seed, and writes its report, or the line of its fault.
///
/// It always returns, where the calls of its source and its sink do.
pub fn run_serial<S: Source, K: Sink>(alloc: Global, seed: u64, src: &mut S, out: &mut K) -> Status
    ensures source { S.faults src.old ≤ S.faults src.new }
    ensures sink { K.faults out.old ≤ K.faults out.new }
    ensures runs { RunsScript (w.Serial seed) (reading S.faults S.left src.old src.new)
        (writing K.faults K.written out.old out.new) result }
{
    match read_script(alloc, src) {
        Ok(scripts) => run_picked(alloc, seed, scripts, out),
        Err(unread) => refuse(alloc, out, unread),
    }
}

/// Runs a script by the picks of a seed, and writes its report.
pub(crate) fn run_picked<K: Sink>(alloc: Global, seed: u64, scripts: Scripts, out: &mut K) -> Status
    ensures count { K.faults out.old ≤ K.faults out.new }
    ensures ends { RanScript (w.Serial seed) scripts
        (writing K.faults K.written out.old out.new) result }
{
    match run_scripts(alloc, seed, scripts) {
        Ok(shown) => report(alloc, out, &shown),
        Err(_) => Status::NoMemory,
    }
}

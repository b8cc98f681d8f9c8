//! The word `threads`: a script is read and run in threads, the run is compared with the machine's, and its report is written.

ghost use Rattle.std.specs.Prelude.{◌≤◌, length};
ghost use Rattle.argo_run.specs.declared.words.Way.TheVariants as w;
ghost use Rattle.argo_run.specs.Ends.{RunsScript};
ghost use Rattle.argo_run.specs.Outside.{reading, writing};
ghost use Rattle.argo_run.specs.Serve.{RanScript};

use crate::Status;
use crate::input::read_script;
use crate::output::{refuse, tell_audited};
use crate::serial::run_picked;
use argo_model::Scripts;
use argo_outside::{Sink, Source};
use audit::audit;
use shared_world::Pause;
use std::alloc::Global;
use std::sync::Wait;
use std::thread::Threads;
use thread_run::run_threads_with;

/// Scripts of fewer sections are run as by the seed 0, since nothing runs beside another there.
const LEAST_SECTIONS: usize = 2;

/// Reads a script, runs it in threads, and writes the report of the run, or the line of its fault, or of the first place where the
/// machine does otherwise.
pub(crate) fn run_in_threads<R: Threads + Wait + Sync, S: Source, K: Sink, P: Pause + Send + Sync>(
    rt: &R,
    alloc: Global,
    src: &mut S,
    out: &mut K,
    pause: P,
) -> Status
    ensures source { S.faults src.old ≤ S.faults src.new }
    ensures sink { K.faults out.old ≤ K.faults out.new }
    ensures runs { RunsScript w.Threads (reading S.faults S.left src.old src.new)
        (writing K.faults K.written out.old out.new) result }
{
    match read_script(alloc, src) {
        Ok(scripts) => run_beside(rt, alloc, scripts, out, pause),
        Err(unread) => refuse(alloc, out, unread),
    }
}

// Runs a script, in threads where it has at least two sections.
fn run_beside<R: Threads + Wait + Sync, K: Sink, P: Pause + Send + Sync>(
    rt: &R,
    alloc: Global,
    scripts: Scripts,
    out: &mut K,
    pause: P,
) -> Status
    ensures count { K.faults out.old ≤ K.faults out.new }
    ensures ends { RanScript w.Threads scripts (writing K.faults K.written out.old out.new)
        result }
{
    if scripts.parts.len() < LEAST_SECTIONS {
        return run_picked(alloc, 0, scripts, out);
    }
    run_audited(rt, alloc, &scripts, out, pause)
}

// Runs a script in threads, and compares the run with the machine's.
#[tactic(auto, using(crate::proofs::TextLaws::outcomes))]
fn run_audited<R: Threads + Wait + Sync, K: Sink, P: Pause + Send + Sync>(
    rt: &R,
    alloc: Global,
    scripts: &Scripts,
    out: &mut K,
    pause: P,
) -> Status
    requires { 2 ≤ length scripts.now.sections }
    ensures count { K.faults out.old ≤ K.faults out.new }
    ensures ends { RanScript w.Threads scripts.now (writing K.faults K.written out.old out.new)
        result }
{
    let Ok(closed) = run_threads_with(rt, alloc, scripts, pause) else {
        return Status::NoMemory;
    };
    match audit(alloc, scripts, &closed) {
        Ok(audited) => tell_audited(alloc, out, audited, closed),
        Err(_) => Status::NoMemory,
    }
}

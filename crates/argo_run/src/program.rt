//! The program for each form of its words.

ghost use Rattle.std.specs.Prelude.{◌≡◌, ◌≤◌};
ghost use Rattle.argo_run.specs.Ends.{EndsFor, ReadsNothing, TellsUsage, form_in};
ghost use Rattle.argo_run.specs.Outside.{reading, writing};

use crate::Status;
use crate::generated::run_gen;
use crate::serial::run_serial;
use crate::threads::run_in_threads;
use crate::words::{Form, Way, form_of};
use argo_outside::{Sink, Source, write_whole};
use shared_world::{NoPause, Pause};
use std::alloc::Global;
use std::sync::Wait;
use std::thread::Threads;

/// Does all that the program does, for its words after its name.
pub fn run<R: Threads + Wait + Sync, S: Source, K: Sink>(
    rt: &R,
    alloc: Global,
    words: &Vec<String>,
    src: &mut S,
    out: &mut K,
) -> Status
    ensures source { S.faults src.old ≤ S.faults src.new }
    ensures sink { K.faults out.old ≤ K.faults out.new }
    ensures ends { EndsFor (form_in words.now) (reading S.faults S.left src.old src.new)
        (writing K.faults K.written out.old out.new) result }
    ensures unread { ReadsNothing (form_in words.now) → src.new ≡ src.old }
{
    run_with(rt, alloc, words, src, out, NoPause)
}

/// As `run`. A run in threads is told to the pause: each reply, with no lock held, and each offer to a ring, inside its lock.
pub fn run_with<R: Threads + Wait + Sync, S: Source, K: Sink, P: Pause + Send + Sync>(
    rt: &R,
    alloc: Global,
    words: &Vec<String>,
    src: &mut S,
    out: &mut K,
    pause: P,
) -> Status
    ensures source { S.faults src.old ≤ S.faults src.new }
    ensures sink { K.faults out.old ≤ K.faults out.new }
    ensures ends { EndsFor (form_in words.now) (reading S.faults S.left src.old src.new)
        (writing K.faults K.written out.old out.new) result }
    ensures unread { ReadsNothing (form_in words.now) → src.new ≡ src.old }
{
    match form_of(words) {
        Some(Form::Run(Way::Serial(seed))) => run_serial(alloc, seed, src, out),
        Some(Form::Run(Way::Threads)) => run_in_threads(rt, alloc, src, out, pause),
        Some(Form::Gen(n)) => run_gen(alloc, n, out),
        None => tell_usage(out),
    }
}

// Writes the line of usage.
fn tell_usage<K: Sink>(out: &mut K) -> Status
    ensures count { K.faults out.old ≤ K.faults out.new }
    ensures ends { TellsUsage (writing K.faults K.written out.old out.new) result }
{
    match write_whole(out, b"usage: argo_run threads | serial N | gen N\n") {
        Ok(()) => Status::Usage,
        Err(_) => Status::SinkFault,
    }
}

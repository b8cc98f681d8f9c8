//! The words `gen N`: scripts are made from a number and run, and their summary is written.

ghost use Rattle.std.specs.Prelude.{◌≤◌};
ghost use Rattle.argo_run.specs.Ends.{EndsSummed};
ghost use Rattle.argo_run.specs.Outside.{writing};

use crate::Status;
use argo_outside::Sink;
use gen_script::gen_scripts;
use report_text::{WriteFault, write_summary};
use serial_run::run_scripts;
use std::alloc::Global;

/// Makes the scripts of a number, runs them by the picks of the same number, and writes the summary of the run.
///
/// It reads nothing. It always returns, where the calls of its sink do.
pub fn run_gen<K: Sink>(alloc: Global, n: u64, out: &mut K) -> Status
    ensures sink { K.faults out.old ≤ K.faults out.new }
    ensures ends { EndsSummed n (writing K.faults K.written out.old out.new) result }
{
    let Ok(scripts) = gen_scripts(alloc, n) else {
        return Status::NoMemory;
    };
    let Ok(shown) = run_scripts(alloc, n, scripts) else {
        return Status::NoMemory;
    };
    match write_summary(alloc, out, &shown) {
        Ok(()) => Status::Done,
        Err(WriteFault::Sink) => Status::SinkFault,
        Err(WriteFault::NoMemory) => Status::NoMemory,
    }
}

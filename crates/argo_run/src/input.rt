//! The script of the input, or why there is none.

ghost use Rattle.std.specs.Prelude.{◌≤◌, IfOk, IfErr};
ghost use Rattle.argo_run.specs.Ends.{IsRead, IsReadAs};
ghost use Rattle.argo_run.specs.Outside.{reading};
ghost use Rattle.argo_run.specs.Serve.{IsCauseOf};

use argo_base::Bytes;
use argo_model::Scripts;
use argo_outside::{Source, TakeFault, read_up_to};
use script_text::{ReadFault, ScriptFault, read_scripts};
use std::alloc::Global;

/// One byte more than a script may have.
const TOO_MANY_BYTES: u64 = 4_194_305;

/// Why there is no script.
pub(crate) enum Unread {
    /// The source failed, and counted the fault.
    Source,
    /// The bytes are none.
    Fault(ScriptFault),
    NoMemory,
}

/// Reads a script.
#[tactic(auto, using(crate::proofs::EndLaws::read_as, crate::proofs::EndLaws::has_fault))]
pub(crate) fn read_script<S: Source>(alloc: Global, src: &mut S) -> Result<Scripts, Unread>
    ensures count { S.faults src.old ≤ S.faults src.new }
    ensures read { IfOk result
        (λ script. IsReadAs script (reading S.faults S.left src.old src.new)) }
    ensures fault { IfErr result
        (λ unread. IsCauseOf unread (reading S.faults S.left src.old src.new)) }
{
    let text = read_text(alloc, src)?;
    match read_scripts(alloc, text.as_slice()) {
        Ok(scripts) => Ok(scripts),
        Err(ReadFault::Script(fault)) => Err(Unread::Fault(fault)),
        Err(ReadFault::NoMemory) => Err(Unread::NoMemory),
    }
}

// Reads the bytes of a script.
fn read_text<S: Source>(alloc: Global, src: &mut S) -> Result<Bytes, Unread>
    ensures count { S.faults src.old ≤ S.faults src.new }
    ensures read { IfOk result (λ text. IsRead (S.left src.old) (S.left src.new) text) }
    ensures fault { IfErr result
        (λ unread. IsCauseOf unread (reading S.faults S.left src.old src.new)) }
{
    match read_up_to(alloc, src, TOO_MANY_BYTES) {
        Ok(taken) => Ok(taken.bytes),
        Err(TakeFault::Failed) => Err(Unread::Source),
        Err(TakeFault::NoMemory) => Err(Unread::NoMemory),
    }
}

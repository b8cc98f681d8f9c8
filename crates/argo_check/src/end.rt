//! The end of the program: its status, and what the last flush came to.

ghost use Rattle.argo_check.specs.Ends.{EndsFlushed};

use crate::CheckStatus;
use argo_outside::StdSink;
use std::io::Write;

/// Writes out what the sink holds in a buffer, and answers the status with which the program ends: the one that it has, unless
/// the sink counts a fault now.
pub fn end_of<O: Write>(status: CheckStatus, out: &mut StdSink<O>) -> CheckStatus
    ensures { EndsFlushed out.old.faults out.new.faults status result }
{
    match out.flush() {
        Ok(()) => status,
        Err(_) => CheckStatus::SinkFault,
    }
}

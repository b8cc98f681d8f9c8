ghost use Rattle.std.specs.Prelude.{◌≡◌, Some};
ghost use Rattle.report_text.specs.Messages.{write_fault_text};
ghost use Rattle.report_text.specs.declared.fault.WriteFault.TheVariants.{Sink as sink_fault, NoMemory as memory_fault};

use argo_base::NoMemory;
use argo_outside::Failed;
use std::alloc::AllocError;
use std::error::Error;
use std::fmt;

/// Why a text was not written to its end. A part of it, from its start, stands in the sink then.
#[derive(Clone, Copy, Debug, PartialEq, Eq)]
pub enum WriteFault {
    /// The sink failed, and counted the fault.
    Sink,
    NoMemory,
}

impl fmt::Display for WriteFault {
    ghost output = { λ fault. Some (write_fault_text fault) };

    fn fmt<W: fmt::Write>(&self, f: &mut fmt::Formatter<W>) -> fmt::Result {
        match self {
            WriteFault::Sink => Failed.fmt(f),
            WriteFault::NoMemory => NoMemory.fmt(f),
        }
    }
}

impl Error for WriteFault {}

impl From<Failed> for WriteFault {
    ghost from_gives = { λ _ fault. fault ≡ sink_fault };

    fn from(_error: Failed) -> WriteFault {
        WriteFault::Sink
    }
}

impl From<AllocError> for WriteFault {
    ghost from_gives = { λ _ fault. fault ≡ memory_fault };

    fn from(_error: AllocError) -> WriteFault {
        WriteFault::NoMemory
    }
}

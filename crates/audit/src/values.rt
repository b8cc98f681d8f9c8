//! Two numbers that are compared.
ghost use Rattle.std.specs.Prelude.{◌≡◌};
ghost use Rattle.audit.specs.First.{differ};

/// The number for what is missing.
pub(crate) const MISSING: u64 = u64::MAX;

/// The number of the threads and that of the machine.
#[derive(Clone, Copy, Debug, PartialEq, Eq)]
pub(crate) struct Values {
    pub(crate) threads: u64,
    pub(crate) machine: u64,
}

/// Two numbers, where they differ.
pub(crate) fn differ(threads: u64, machine: u64) -> Option<Values>
    ensures { result ≡ differ threads machine }
{
    if threads == machine {
        None
    } else {
        Some(Values { threads, machine })
    }
}

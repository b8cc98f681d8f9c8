//! Where a run in threads and the machine differ first.
use argo_model::Short;

/// A step, from 1, and what it came to in the threads and on the machine. A short with a tag of 20 to 34 is no outcome, but says what
/// differs in the closed world: then the step is the one behind the last.
#[derive(Clone, Copy, Debug, PartialEq, Eq)]
pub struct Split {
    pub step: u64,
    pub threads: Short,
    pub machine: Short,
}

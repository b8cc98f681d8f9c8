//! Places in a run where it can be held up from outside.
use argo_base::RingId;

/// Is told of two places in a run, so that a test can hold a virtual CPU up there. What it does changes no outcome.
pub trait Pause: Drop {
    /// A message is about to be offered to the ring, whose lock is held; the lock of the board is not yet.
    fn here(&self, id: RingId);

    /// Virtual CPU `v` has the reply of its line, the first of which is 1. No lock is held.
    fn replied(&self, v: u32, line: u32);
}

/// Holds nobody up.
#[derive(Clone, Copy, Debug)]
pub struct NoPause;

impl Pause for NoPause {
    fn here(&self, _id: RingId) {}

    fn replied(&self, _v: u32, _line: u32) {}
}

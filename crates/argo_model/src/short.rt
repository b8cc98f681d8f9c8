//! An outcome in short: what a schedule's journal keeps of it.

/// An outcome as two numbers: which outcome it is, 0 to 9 in the order of `Outcome`, and the number that it has: how many bytes, the
/// number of an error, a size, a serial, flags, whether a flag was set, or else 0. The tag 10 is where a schedule has no step.
#[derive(Clone, Copy, Debug, PartialEq, Eq)]
pub struct Short {
    pub tag: u8,
    pub value: u64,
}

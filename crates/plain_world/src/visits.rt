//! How many rings the end of a domain comes to.

/// How many rings the end of a domain came to: its own; those that were for it; and those on which it waited.
#[derive(Clone, Copy, Debug, PartialEq, Eq)]
pub(crate) struct Visits {
    pub(crate) rings: usize,
    pub(crate) senders: usize,
    pub(crate) notices: usize,
}

impl Visits {
    /// No ring.
    pub(crate) const NONE: Visits = Visits {
        rings: 0,
        senders: 0,
        notices: 0,
    };
}

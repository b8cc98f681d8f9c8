//! The ring that the library takes from.

/// The page on which the ring begins, and its slot bytes.
#[derive(Clone, Copy, Debug)]
pub(crate) struct OwnRing {
    pub(crate) page: u32,
    pub(crate) len: u32,
}

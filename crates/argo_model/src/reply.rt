//! What the lines come to.

use argo_base::{Bytes, DomId};

/// What a line of a script came to.
#[derive(Debug, Drop)]
pub enum Reply {
    /// A store is done.
    Stored,
    /// The bytes that a load found.
    Hex(Bytes),
    /// Of a hypercall or an act of the control section: a count, or minus an errno number.
    Number(i64),
    /// An await found the flag.
    Signal,
    /// An await did not find the flag.
    NoSignal,
    /// A recv took a message: its header, the size of its body, and the body's first 64 bytes.
    Msg {
        src: DomId,
        port: u32,
        kind: u32,
        size: u32,
        head: Bytes,
    },
    /// A recv found the two words of the ring equal.
    Empty,
    /// A recv found words or a header that make no sense.
    Bad,
    /// A store, a load or a recv met a page that is not there.
    Fault,
    /// The domain of the section is gone, or is of another generation than the section names.
    Gone,
}

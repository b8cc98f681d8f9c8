//! What sections do, one step at a time, and what comes of it.

use argo_base::{Bytes, DomId, Errno, PageList};

/// What a sender's body came to when it was gathered.
#[derive(Debug, Drop)]
pub enum Load {
    Body(Bytes),
    /// The gather of so many bytes met a page that is not there.
    Faulted(u32),
    /// The buffers were refused before the gather.
    Refused(Errno),
}

/// One step of a section: a fetch or a put inside one page, one act of a hypercall, a look at the flag, an act of the control
/// section, or a rest.
#[derive(Debug, Drop)]
pub enum Action {
    Rest,
    Fetch {
        page: u64,
        off: u32,
        n: u32,
    },
    Put {
        page: u64,
        off: u32,
        bytes: Bytes,
    },
    Register {
        port: u32,
        partner: DomId,
        len: u32,
        pages: PageList,
        fail_exist: bool,
    },
    Unregister {
        port: u32,
        partner: DomId,
    },
    Deliver {
        port: u32,
        to: DomId,
        to_port: u32,
        kind: u32,
        load: Load,
    },
    /// Ends the notices that fit on the caller's ring with the least serial above `after`.
    Sweep {
        after: u64,
    },
    Query {
        to: DomId,
        to_port: u32,
        need: u32,
    },
    Look,
    Destroy {
        dom: DomId,
    },
    Reset {
        dom: DomId,
    },
    Create {
        dom: DomId,
    },
}

/// What notify answers of one ring: `flags`, `space_required` and `max_message_size` of `struct xen_argo_ring_data_ent`.
#[derive(Clone, Copy, Debug, PartialEq, Eq)]
pub struct Answer {
    pub flags: u16,
    pub need: u32,
    pub most: u32,
}

/// Where a message goes: from a port of the caller to a port of a domain, and its type.
#[derive(Clone, Copy, Debug)]
pub struct Address {
    pub port: u32,
    pub to: DomId,
    pub to_port: u32,
    pub kind: u32,
}

/// Why a fetch shows no bytes: the page is not there, or the caller's domain is gone.
#[derive(Clone, Copy, Debug, PartialEq, Eq)]
pub enum Unseen {
    Fault,
    Gone,
}

/// What an action came to.
#[derive(Debug, Drop)]
pub enum Outcome {
    Done,
    Bytes(Bytes),
    Fault,
    Refused(Errno),
    /// A message with a body of so many bytes was accepted.
    Accepted(u32),
    /// The serial of the ring that was swept.
    Swept(u64),
    NoMore,
    Answer(Answer),
    /// The flag as it was found.
    Flag(bool),
    /// The caller's domain is gone, or is of another generation than its section names.
    Gone,
}

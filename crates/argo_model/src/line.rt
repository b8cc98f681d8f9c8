//! The lines of scripts.

use argo_base::{Bytes, DomId, Items};

/// A line of a section. Guest addresses are whole numbers: address `a` lies in page `a / 4096` of the caller.
#[derive(Debug, Drop)]
pub enum Line {
    /// Writes the bytes at the address: 1 to 64 of them.
    Store {
        at: u64,
        bytes: Bytes,
    },
    /// Reads `n` bytes at the address, 1 to 64.
    Load {
        at: u64,
        n: u32,
    },
    /// The hypercall `argo_op`: its command and four arguments.
    Op {
        c: u64,
        a1: u64,
        a2: u64,
        a3: u64,
        a4: u64,
    },
    /// Looks at the domain's flag until it is set, at most this many times.
    Await {
        turns: u32,
    },
    /// Takes one message from the ring of `len` slot bytes whose pages are `page` and those that follow it.
    Recv {
        page: u32,
        len: u32,
    },
    /// Ends a domain.
    Destroy {
        dom: DomId,
    },
    /// Ends a domain's rings and notices, and clears its flag.
    Reset {
        dom: DomId,
    },
    /// Makes a domain that was ended anew, of the next generation.
    Create {
        dom: DomId,
    },
}

/// The lines of a section, in the order of the script.
pub type Lines = Items<Line>;

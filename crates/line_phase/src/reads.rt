//! What the fetches of hypercalls are for.

use argo_base::DomId;
use argo_model::Address;

/// The buffers that one sendv takes at most.
pub(crate) const MOST_IOVS: usize = 8;

/// A ring that is to be registered.
#[derive(Clone, Copy)]
pub struct NewRing {
    pub(crate) port: u32,
    pub(crate) partner: DomId,
    pub(crate) len: u32,
    /// Whether the call fails where the caller has the ring.
    pub(crate) fail_exist: bool,
}

/// What the calls that register a ring, or take one away, read.
#[derive(Clone, Copy)]
pub enum RegisterRead {
    /// The structure of unregister_ring.
    Old,
    /// The structure of register_ring: the call's further arguments.
    Head { list: u64, count: u64, flags: u64 },
    /// The page list of a ring.
    Pages(NewRing),
}

/// What is left of a gather after the buffer that is being fetched: of `count` buffers, those from the place `next` on.
#[derive(Drop)]
pub struct Gather {
    /// The buffers as they were fetched, 16 bytes each.
    pub(crate) list: Vec<u8>,
    pub(crate) count: u32,
    pub(crate) next: u32,
    /// The bytes of those buffers.
    pub(crate) later: u32,
    /// The size of the whole body.
    pub(crate) size: u32,
    pub(crate) address: Address,
}

/// What a sendv is given besides its addresses: its caller, where the iovs are, how many they are, and the message's type.
#[derive(Clone, Copy)]
pub struct SendArgs {
    pub(crate) caller: DomId,
    pub(crate) iovs: u64,
    pub(crate) count: u32,
    pub(crate) kind: u32,
}

/// What a sendv reads.
#[derive(Drop)]
pub enum SendRead {
    /// The addresses.
    Head(SendArgs),
    Iovs { count: u32, address: Address },
    Body(Gather),
}

/// An entry of a notify: its place among those behind the 8 bytes at `base`, and how many follow it.
#[derive(Clone, Copy)]
pub struct Entry {
    pub(crate) base: u64,
    pub(crate) place: u32,
    pub(crate) later: u32,
}

/// What a notify reads.
#[derive(Clone, Copy)]
pub enum NotifyRead {
    /// The 8 bytes at `base`.
    Head { base: u64 },
    Entry(Entry),
}

//! `xen_argo_ring_data_ent`: a question of notify, and its answer.

ghost use Rattle.std.specs.Prelude.{◌≡◌};
ghost use Rattle.argo_abi.specs.Structures.{ring_data_entry_of, bytes_of_ring_data_entry};

use crate::addr::{Addr, put_addr, read_addr};
use crate::fields::{read_u16, read_u32};

/// A question of notify, and its answer, in 20 bytes: `ring` 8, `flags` 2, `pad` 2, `space_required` 4, `max_message_size` 4.
///
/// `ring` and `space_required` ask; the answer is in the 12 bytes after `ring`. Both sizes are in bytes of a body.
#[derive(Clone, Copy, Debug, PartialEq, Eq)]
pub struct RingDataEntry {
    pub ring: Addr,
    pub flags: u16,
    pub pad: u16,
    pub space_required: u32,
    pub max_message_size: u32,
}

/// The entry with these bytes.
pub fn get_ring_data_entry(b: &[u8; 20]) -> RingDataEntry
    ensures fields { result ≡ ring_data_entry_of b.now }
    ensures back { bytes_of_ring_data_entry result ≡ b.now }
{
    RingDataEntry {
        ring: read_addr(b, 0),
        flags: read_u16(b, 8),
        pad: read_u16(b, 10),
        space_required: read_u32(b, 12),
        max_message_size: read_u32(b, 16),
    }
}

/// The bytes of the entry.
pub fn put_ring_data_entry(x: &RingDataEntry) -> [u8; 20]
    ensures bytes { result ≡ bytes_of_ring_data_entry x.now }
    ensures back { ring_data_entry_of result ≡ x.now }
{
    let mut bytes = [0; 20];
    let (ring, rest) = bytes.split_at_mut(8);
    let (flags, rest) = rest.split_at_mut(2);
    let (pad, rest) = rest.split_at_mut(2);
    let (space_required, max_message_size) = rest.split_at_mut(4);
    ring.copy_from_slice(&put_addr(&x.ring));
    flags.copy_from_slice(&x.flags.to_le_bytes());
    pad.copy_from_slice(&x.pad.to_le_bytes());
    space_required.copy_from_slice(&x.space_required.to_le_bytes());
    max_message_size.copy_from_slice(&x.max_message_size.to_le_bytes());
    bytes
}

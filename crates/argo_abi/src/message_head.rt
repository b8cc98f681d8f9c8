//! `xen_argo_ring_message_header`: what stands before a body in the slots.

ghost use Rattle.std.specs.Prelude.{◌≡◌};
ghost use Rattle.argo_abi.specs.Structures.{message_head_of, bytes_of_message_head};

use crate::addr::{Addr, put_addr, read_addr};
use crate::fields::read_u32;

/// What stands before a body in the slots, in 16 bytes: `len` 4, `source` 8, `message_type` 4. `len` counts these 16 bytes too.
#[derive(Clone, Copy, Debug, PartialEq, Eq)]
pub struct MessageHead {
    pub len: u32,
    pub source: Addr,
    pub message_type: u32,
}

/// The head with these bytes.
pub fn get_message_head(b: &[u8; 16]) -> MessageHead
    ensures fields { result ≡ message_head_of b.now }
    ensures back { bytes_of_message_head result ≡ b.now }
{
    MessageHead {
        len: read_u32(b, 0),
        source: read_addr(b, 4),
        message_type: read_u32(b, 12),
    }
}

/// The bytes of the head.
pub fn put_message_head(x: &MessageHead) -> [u8; 16]
    ensures bytes { result ≡ bytes_of_message_head x.now }
    ensures back { message_head_of result ≡ x.now }
{
    let mut bytes = [0; 16];
    let (len, rest) = bytes.split_at_mut(4);
    let (source, message_type) = rest.split_at_mut(8);
    len.copy_from_slice(&x.len.to_le_bytes());
    source.copy_from_slice(&put_addr(&x.source));
    message_type.copy_from_slice(&x.message_type.to_le_bytes());
    bytes
}

//! `xen_argo_ring`: the head of a ring, before its slots.

ghost use Rattle.std.specs.Prelude.{◌≡◌};
ghost use Rattle.argo_abi.specs.Structures.{ring_head_of, bytes_of_ring_head};

use crate::fields::read_u32;

/// The head of a ring, in 64 bytes: the places `rx_ptr` 4 and `tx_ptr` 4 among its slots, and `reserved` 56.
#[derive(Clone, Copy, Debug, PartialEq, Eq)]
pub struct RingHead {
    pub rx_ptr: u32,
    pub tx_ptr: u32,
    pub reserved: [u8; 56],
}

/// The head with these bytes.
pub fn get_ring_head(b: &[u8; 64]) -> RingHead
    ensures fields { result ≡ ring_head_of b.now }
    ensures back { bytes_of_ring_head result ≡ b.now }
{
    let (_, rest) = b.split_at(8);
    let mut reserved = [0; 56];
    reserved.copy_from_slice(rest);
    RingHead {
        rx_ptr: read_u32(b, 0),
        tx_ptr: read_u32(b, 4),
        reserved,
    }
}

/// The bytes of the head.
pub fn put_ring_head(x: &RingHead) -> [u8; 64]
    ensures bytes { result ≡ bytes_of_ring_head x.now }
    ensures back { ring_head_of result ≡ x.now }
{
    let mut bytes = [0; 64];
    let (rx_ptr, rest) = bytes.split_at_mut(4);
    let (tx_ptr, reserved) = rest.split_at_mut(4);
    rx_ptr.copy_from_slice(&x.rx_ptr.to_le_bytes());
    tx_ptr.copy_from_slice(&x.tx_ptr.to_le_bytes());
    reserved.copy_from_slice(&x.reserved);
    bytes
}

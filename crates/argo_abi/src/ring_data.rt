//! `xen_argo_ring_data`: the head of what notify is asked.

ghost use Rattle.std.specs.Prelude.{◌≡◌};
ghost use Rattle.argo_abi.specs.Structures.{ring_data_of, bytes_of_ring_data};

use crate::fields::read_u32;

/// The head of what notify is asked, in 8 bytes: the number `nent` of the entries that follow 4, `pad` 4.
#[derive(Clone, Copy, Debug, PartialEq, Eq)]
pub struct RingData {
    pub nent: u32,
    pub pad: u32,
}

/// The head with these bytes.
pub fn get_ring_data(b: &[u8; 8]) -> RingData
    ensures fields { result ≡ ring_data_of b.now }
    ensures back { bytes_of_ring_data result ≡ b.now }
{
    RingData {
        nent: read_u32(b, 0),
        pad: read_u32(b, 4),
    }
}

/// The bytes of the head.
pub fn put_ring_data(x: &RingData) -> [u8; 8]
    ensures bytes { result ≡ bytes_of_ring_data x.now }
    ensures back { ring_data_of result ≡ x.now }
{
    let mut bytes = [0; 8];
    let (nent, pad) = bytes.split_at_mut(4);
    nent.copy_from_slice(&x.nent.to_le_bytes());
    pad.copy_from_slice(&x.pad.to_le_bytes());
    bytes
}

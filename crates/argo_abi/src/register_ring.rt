//! `xen_argo_register_ring`: the ring that is to be registered.

ghost use Rattle.std.specs.Prelude.{◌≡◌};
ghost use Rattle.argo_abi.specs.Structures.{register_ring_of, bytes_of_register_ring};

use crate::fields::{read_u16, read_u32};

/// The ring that is to be registered, in 12 bytes: `aport` 4, `partner_id` 2, `pad` 2, its slot bytes `len` 4.
#[derive(Clone, Copy, Debug, PartialEq, Eq)]
pub struct RegisterRing {
    pub aport: u32,
    pub partner_id: u16,
    pub pad: u16,
    pub len: u32,
}

/// The registration with these bytes.
pub fn get_register_ring(b: &[u8; 12]) -> RegisterRing
    ensures fields { result ≡ register_ring_of b.now }
    ensures back { bytes_of_register_ring result ≡ b.now }
{
    RegisterRing {
        aport: read_u32(b, 0),
        partner_id: read_u16(b, 4),
        pad: read_u16(b, 6),
        len: read_u32(b, 8),
    }
}

/// The bytes of the registration.
pub fn put_register_ring(x: &RegisterRing) -> [u8; 12]
    ensures bytes { result ≡ bytes_of_register_ring x.now }
    ensures back { register_ring_of result ≡ x.now }
{
    let mut bytes = [0; 12];
    let (aport, rest) = bytes.split_at_mut(4);
    let (partner_id, rest) = rest.split_at_mut(2);
    let (pad, len) = rest.split_at_mut(2);
    aport.copy_from_slice(&x.aport.to_le_bytes());
    partner_id.copy_from_slice(&x.partner_id.to_le_bytes());
    pad.copy_from_slice(&x.pad.to_le_bytes());
    len.copy_from_slice(&x.len.to_le_bytes());
    bytes
}

//! `xen_argo_unregister_ring`: the ring that is to be given back.

ghost use Rattle.std.specs.Prelude.{◌≡◌};
ghost use Rattle.argo_abi.specs.Structures.{unregister_ring_of, bytes_of_unregister_ring};

use crate::fields::{read_u16, read_u32};

/// The ring that is to be given back, in 8 bytes: `aport` 4, `partner_id` 2, `pad` 2.
#[derive(Clone, Copy, Debug, PartialEq, Eq)]
pub struct UnregisterRing {
    pub aport: u32,
    pub partner_id: u16,
    pub pad: u16,
}

/// The ring's name with these bytes.
pub fn get_unregister_ring(b: &[u8; 8]) -> UnregisterRing
    ensures fields { result ≡ unregister_ring_of b.now }
    ensures back { bytes_of_unregister_ring result ≡ b.now }
{
    UnregisterRing {
        aport: read_u32(b, 0),
        partner_id: read_u16(b, 4),
        pad: read_u16(b, 6),
    }
}

/// The bytes of the ring's name.
pub fn put_unregister_ring(x: &UnregisterRing) -> [u8; 8]
    ensures bytes { result ≡ bytes_of_unregister_ring x.now }
    ensures back { unregister_ring_of result ≡ x.now }
{
    let mut bytes = [0; 8];
    let (aport, rest) = bytes.split_at_mut(4);
    let (partner_id, pad) = rest.split_at_mut(2);
    aport.copy_from_slice(&x.aport.to_le_bytes());
    partner_id.copy_from_slice(&x.partner_id.to_le_bytes());
    pad.copy_from_slice(&x.pad.to_le_bytes());
    bytes
}

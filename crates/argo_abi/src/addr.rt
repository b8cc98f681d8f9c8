//! `xen_argo_addr`: a port of a domain.

ghost use Rattle.std.specs.Prelude.{◌≡◌, ◌+◌, ◌≤◌, length};
ghost use Rattle.argo_abi.specs.Structures.{addr_at, bytes_of_addr};

use crate::fields::{read_u16, read_u32};

/// A port of a domain, in 8 bytes: `aport` 4, `domain_id` 2, `pad` 2.
#[derive(Clone, Copy, Debug, PartialEq, Eq)]
pub struct Addr {
    pub aport: u32,
    pub domain_id: u16,
    pub pad: u16,
}

/// The address with these bytes.
pub fn get_addr(b: &[u8; 8]) -> Addr
    ensures fields { result ≡ addr_at b.now 0 }
    ensures back { bytes_of_addr result ≡ b.now }
{
    read_addr(b, 0)
}

/// The bytes of the address.
pub fn put_addr(x: &Addr) -> [u8; 8]
    ensures bytes { result ≡ bytes_of_addr x.now }
    ensures back { addr_at result 0 ≡ x.now }
{
    let mut bytes = [0; 8];
    let (aport, rest) = bytes.split_at_mut(4);
    let (domain_id, pad) = rest.split_at_mut(2);
    aport.copy_from_slice(&x.aport.to_le_bytes());
    domain_id.copy_from_slice(&x.domain_id.to_le_bytes());
    pad.copy_from_slice(&x.pad.to_le_bytes());
    bytes
}

// The address at an offset.
pub(crate) fn read_addr(bytes: &[u8], off: usize) -> Addr
    requires { off + 8 ≤ length bytes.now }
    ensures { result ≡ addr_at bytes.now off }
{
    Addr {
        aport: read_u32(bytes, off),
        domain_id: read_u16(bytes, off + 4),
        pad: read_u16(bytes, off + 6),
    }
}

//! `xen_argo_send_addr`: where a message comes from and where it goes.

ghost use Rattle.std.specs.Prelude.{◌≡◌};
ghost use Rattle.argo_abi.specs.Structures.{send_addr_of, bytes_of_send_addr};

use crate::addr::{Addr, put_addr, read_addr};

/// Where a message comes from and where it goes, in 16 bytes: `src` 8, `dst` 8.
#[derive(Clone, Copy, Debug, PartialEq, Eq)]
pub struct SendAddr {
    pub src: Addr,
    pub dst: Addr,
}

/// The addresses with these bytes.
pub fn get_send_addr(b: &[u8; 16]) -> SendAddr
    ensures fields { result ≡ send_addr_of b.now }
    ensures back { bytes_of_send_addr result ≡ b.now }
{
    SendAddr {
        src: read_addr(b, 0),
        dst: read_addr(b, 8),
    }
}

/// The bytes of the addresses.
pub fn put_send_addr(x: &SendAddr) -> [u8; 16]
    ensures bytes { result ≡ bytes_of_send_addr x.now }
    ensures back { send_addr_of result ≡ x.now }
{
    let mut bytes = [0; 16];
    let (src, dst) = bytes.split_at_mut(8);
    src.copy_from_slice(&put_addr(&x.src));
    dst.copy_from_slice(&put_addr(&x.dst));
    bytes
}

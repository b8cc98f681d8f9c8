//! `xen_argo_iov`: a buffer of a sender.

ghost use Rattle.std.specs.Prelude.{◌≡◌};
ghost use Rattle.argo_base.specs.Iovs.{iov_at};
ghost use Rattle.argo_abi.specs.Structures.{bytes_of_iov};

use crate::fields::{read_u32, read_u64};
use std::marker::Model;

/// A buffer of a sender, in 16 bytes: its guest address `hnd` 8, its length `len` in bytes 4, `pad` 4.
///
/// Contracts see it as the record of that name among the definitions.
#[derive(Clone, Copy, Debug, PartialEq, Eq)]
pub struct Iov {
    pub hnd: u64,
    pub len: u32,
    pub pad: u32,
}

impl Model for Iov {
    ghost use Rattle.argo_base.specs.Iovs.{Iov as IovRecord};

    ghost Value = { IovRecord };

    ghost view = { λ v. record { hnd = v.hnd; len = v.len; pad = v.pad } };

    ghost inverse = { λ v. record { hnd = v.hnd; len = v.len; pad = v.pad } };
}

/// The buffer with these bytes.
pub fn get_iov(b: &[u8; 16]) -> Iov
    ensures fields { result ≡ iov_at b.now 0 }
    ensures back { bytes_of_iov result ≡ b.now }
{
    Iov {
        hnd: read_u64(b, 0),
        len: read_u32(b, 8),
        pad: read_u32(b, 12),
    }
}

/// The bytes of the buffer.
pub fn put_iov(x: &Iov) -> [u8; 16]
    ensures bytes { result ≡ bytes_of_iov x.now }
    ensures back { iov_at result 0 ≡ x.now }
{
    let mut bytes = [0; 16];
    let (hnd, rest) = bytes.split_at_mut(8);
    let (len, pad) = rest.split_at_mut(4);
    hnd.copy_from_slice(&x.hnd.to_le_bytes());
    len.copy_from_slice(&x.len.to_le_bytes());
    pad.copy_from_slice(&x.pad.to_le_bytes());
    bytes
}

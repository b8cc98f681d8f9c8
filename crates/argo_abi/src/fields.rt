//! The little-endian fields of a structure.

ghost use Rattle.std.specs.Prelude.{◌≡◌, ◌+◌, ◌≤◌, length};
ghost use Rattle.argo_base.specs.Layout.{u16_at, u32_at, u64_at};

/// The field of 2 bytes at an offset.
pub(crate) fn read_u16(bytes: &[u8], off: usize) -> u16
    requires { off + 2 ≤ length bytes.now }
    ensures { result ≡ u16_at bytes.now off }
{
    u16::from_le_bytes([bytes[off], bytes[off + 1]])
}

/// The field of 4 bytes at an offset.
pub(crate) fn read_u32(bytes: &[u8], off: usize) -> u32
    requires { off + 4 ≤ length bytes.now }
    ensures { result ≡ u32_at bytes.now off }
{
    u32::from_le_bytes([bytes[off], bytes[off + 1], bytes[off + 2], bytes[off + 3]])
}

/// The field of 8 bytes at an offset.
pub(crate) fn read_u64(bytes: &[u8], off: usize) -> u64
    requires { off + 8 ≤ length bytes.now }
    ensures { result ≡ u64_at bytes.now off }
{
    u64::from_le_bytes([
        bytes[off],
        bytes[off + 1],
        bytes[off + 2],
        bytes[off + 3],
        bytes[off + 4],
        bytes[off + 5],
        bytes[off + 6],
        bytes[off + 7],
    ])
}

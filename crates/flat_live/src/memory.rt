//! The bytes of a ring, which stand on pages of its owner's memory.
ghost use Rattle.std.specs.Prelude.{◌≡◌, ◌+◌, ◌*◌, ◌/◌, ◌<◌, ◌≤◌, ◌^◌, IsTrue, length, take, drop, slice_index};
ghost use Rattle.argo_base.specs.Layout.{u32_at};
ghost use Rattle.argo_base.specs.Splice.{splice};
ghost use Rattle.argo_model.specs.Rules.RingBytes.{ring_bytes, write_slots, write_tx};
ghost use Rattle.flat_live.specs.Memory.{are_there, Writes};

use argo_base::Bytes;

/// The number in the four bytes at an offset.
pub(crate) fn u32_at(bytes: &[u8], off: usize) -> u32
    requires { off + 4 ≤ length bytes.now }
    ensures { result ≡ u32_at bytes.now off }
{
    let (_, rest) = bytes.split_at(off);
    u32::from_le_bytes([rest[0], rest[1], rest[2], rest[3]])
}

/// Where a page begins.
pub(crate) fn start_of(memory: &[u8], page: u64) -> usize
    requires { page < length memory.now / 4096 }
    ensures is { result ≡ 4096 * page }
    ensures inside { result + 4096 ≤ length memory.now }
{
    4096 * page as usize
}

/// The bytes of a page.
pub(crate) fn page_of(memory: &[u8], page: u64) -> &[u8]
    requires { page < length memory.now / 4096 }
    ensures is { result.now ≡ take 4096 (drop (4096 * page) memory.now) }
    ensures whole { length result.now ≡ 4096 }
{
    let (_, rest) = memory.split_at(start_of(memory, page));
    rest.split_at(4096).0
}

/// The number in four bytes of a ring, in its first page.
pub(crate) fn word(memory: &[u8], pages: &[u64], off: usize) -> u32
    requires some { 0 < length pages.now }
    requires inside { off + 4 ≤ 4096 }
    requires first { slice_index pages.now 0 < length memory.now / 4096 }
    ensures { result ≡ u32_at (ring_bytes memory.now pages.now) off }
{
    u32_at(page_of(memory, pages[0]), off)
}

/// Writes bytes from a byte of the ring on.
pub(crate) fn write_at(memory: &mut Bytes, pages: &[u64], at: usize, bytes: &[u8])
    requires within { at + length bytes.now ≤ 4096 * length pages.now }
    requires small { at + length bytes.now < 2 ^ 63 }
    requires there { IsTrue (are_there (length memory.old / 4096) pages.now) }
    ensures is { Writes pages.now (λ own. splice own at bytes.now) memory.old memory.new }
    ensures length { length memory.new ≡ length memory.old }
{
    let mut place = at;
    let mut rest = bytes;
    'pieces: while rest.len() > 0 {
        let off = place % 4096;
        let n = rest.len().min(4096 - off);
        let (part, later) = rest.split_at(n);
        let start = start_of(memory.as_slice(), pages[place / 4096]);
        memory.write(start + off, part);
        place += n;
        rest = later;
    }
}

/// Writes the tx word.
pub(crate) fn write_tx(memory: &mut Bytes, pages: &[u64], tx: u32)
    requires some { 0 < length pages.now }
    requires there { IsTrue (are_there (length memory.old / 4096) pages.now) }
    ensures is { Writes pages.now (write_tx tx) memory.old memory.new }
    ensures length { length memory.new ≡ length memory.old }
{
    write_at(memory, pages, 4, tx.to_le_bytes().as_slice());
}

/// Writes bytes into the slots from a place on, round the ring's end.
pub(crate) fn write_slots(memory: &mut Bytes, pages: &[u64], len: u32, at: u32, bytes: &[u8])
    requires place { at ≤ len }
    requires most { length bytes.now ≤ len }
    requires held { 64 + len ≤ 4096 * length pages.now }
    requires there { IsTrue (are_there (length memory.old / 4096) pages.now) }
    ensures is { Writes pages.now (write_slots len at bytes.now) memory.old memory.new }
    ensures length { length memory.new ≡ length memory.old }
{
    let (first, rest) = bytes.split_at(bytes.len().min((len - at) as usize));
    write_at(memory, pages, 64 + at as usize, first);
    write_at(memory, pages, 64, rest);
}

//! The arithmetic of a ring's slot bytes.
ghost use Rattle.std.specs.Prelude.{◌≡◌, ◌<◌, ◌≤◌, ◌^◌};
ghost use Rattle.argo_base.specs.Slots.{up, room, is_legal, page_count, is_place, place_after, sanitised, span_to, span, fits, is_too_big};

use crate::{GREATEST_RING, LEAST_RING, PAGE_BYTES};

// The least multiple of 16 that is not below `n`.
fn rounded_up(n: u64) -> u64
    requires { n ≤ 2 ^ 63 }
    ensures { result ≡ up n }
{
    (n + 15) / 16 * 16
}

/// The least multiple of 16 that is not below `n`.
pub fn up(n: u32) -> u64
    ensures { result ≡ up n }
{
    rounded_up(n as u64)
}

/// The slot bytes that a message with a body of `n` bytes takes: its header, and the body with its padding.
pub fn room(n: u64) -> u64
    requires { n ≤ 2 ^ 63 }
    ensures { result ≡ room n }
{
    16 + rounded_up(n)
}

/// Whether a ring can have so many slot bytes: 48 to 0x1000000, a multiple of 16.
pub fn is_legal(len: u32) -> bool
    ensures { result ≡ is_legal len }
{
    LEAST_RING <= len && len <= GREATEST_RING && len % 16 == 0
}

/// The pages that hold 64 bytes of header and `len` slot bytes.
pub fn page_count(len: u32) -> u32
    ensures { result ≡ page_count len }
{
    ((len as u64 + 64 + 4095) / PAGE_BYTES as u64) as u32
}

/// Whether a message can begin there: at a multiple of 16 below the length.
pub fn is_place(len: u32, at: u32) -> bool
    ensures { result ≡ is_place len at }
{
    at % 16 == 0 && at < len
}

/// The place `n` bytes after a place, round the ring's end.
pub fn place_after(len: u32, at: u32, n: u64) -> u32
    requires some { 0 < len }
    requires small { n ≤ 2 ^ 63 }
    ensures is { result ≡ place_after len at n }
    ensures below { result < len }
{
    ((at as u64 + n) % len as u64) as u32
}

/// The place after a message with a body of `n` bytes that begins at `at`: 16 and `up(n)` bytes on, round the ring's end.
pub fn advance(len: u32, at: u32, n: u32) -> u32
    requires { 0 < len }
    ensures is { result ≡ place_after len at (room n) }
    ensures below { result < len }
{
    place_after(len, at, room(n as u64))
}

/// The place that an rx word counts as: it is rounded up, and to 0 where that is not below the length.
pub fn sanitise(rx: u32, len: u32) -> u32
    ensures { result ≡ sanitised len rx }
{
    let rounded = up(rx);
    if rounded < len as u64 {
        rounded as u32
    } else {
        0
    }
}

// How many bytes there are from `tx` up to a place, round the ring's end: all of them where it is `tx` itself.
fn span_to(len: u32, tx: u32, at: u32) -> u32
    requires { 0 < len }
    ensures { result ≡ span_to len tx at }
{
    if at == tx {
        return len;
    }
    ((len as u64 + at as u64).saturating_sub(tx as u64) % len as u64) as u32
}

/// The free bytes of a ring with these two words.
pub fn span(len: u32, rx: u32, tx: u32) -> u32
    requires { 0 < len }
    ensures { result ≡ span len rx tx }
{
    span_to(len, tx, sanitise(rx, len))
}

/// Whether a body of `n` bytes fits into so many free bytes. A message never takes the last of them.
pub fn fits_into(free: u32, n: u32) -> bool
    ensures { result ≡ fits free n }
{
    room(n as u64) < free as u64
}

/// Whether a body of `n` bytes fits into a ring with these two words.
pub fn fits(len: u32, rx: u32, tx: u32, n: u32) -> bool
    requires { 0 < len }
    ensures { result ≡ fits (span len rx tx) n }
{
    fits_into(span(len, rx, tx), n)
}

/// Whether a body of `n` bytes can never fit into a ring of that length.
pub fn too_big(len: u32, n: u32) -> bool
    ensures { result ≡ is_too_big len n }
{
    len as u64 <= room(n as u64)
}

//! What a put does to the untaken messages of a clean ring.
ghost use Rattle.std.specs.Prelude.{◌≡◌, ◌+◌, ◌&&◌, ◌==◌, ◌<◌, ◌≤◌, ◌^◌, if◌then◌else◌, length, IsTrue, None, IfSome};
ghost use Rattle.argo_base.specs.Layout.{u32_at};
ghost use Rattle.argo_base.specs.Slots.{place_after};
ghost use Rattle.argo_model.specs.Rules.Messages.{room_of};
ghost use Rattle.argo_model.specs.Rules.Puts.{taken_by, touches, meets};
ghost use Rattle.ring_core.specs.Puts.{clean_when, untaken_when};

use crate::log::Log;
use argo_base::{Message, slots};
use std::collections::VecDeque;

/// What a put leaves of the untaken messages, and whether the ring is clean still.
pub(crate) fn keep(log: &mut Log, moved: Option<usize>, touched: bool) -> bool
    requires { IfSome moved (λ k. k ≤ length log.old.messages) }
    ensures clean { result ≡ clean_when moved touched }
    ensures messages { log.new.messages ≡ untaken_when moved touched log.old.messages }
    ensures room { IsTrue log.old.has_room → IsTrue log.new.has_room }
{
    if let Some(k) = moved {
        log.drop_first(k);
        return true;
    }
    if touched {
        log.clear();
        return false;
    }
    true
}

/// How many untaken messages a put from a byte of a clean ring on takes, where it is a proper move.
pub(crate) fn moves(
    len: u32,
    rx: u32,
    untaken: &VecDeque<Message>,
    at: u32,
    bytes: &[u8],
) -> Option<usize>
    requires { 0 < len }
    ensures is { result ≡ (if (at == 0) && (length bytes.now == 4)
        then taken_by len rx untaken.now.items (u32_at bytes.now 0) else None) }
    ensures few { IfSome result (λ k. k ≤ length untaken.now.items) }
{
    if at == 0 && bytes.len() == 4 {
        return taken_by(len, rx, untaken, word(bytes));
    }
    None
}

// Four bytes as a word.
fn word(bytes: &[u8]) -> u32
    requires { length bytes.now ≡ 4 }
    ensures { result ≡ u32_at bytes.now 0 }
{
    u32::from_le_bytes([bytes[0], bytes[1], bytes[2], bytes[3]])
}

// How many untaken messages a new value of the rx word takes, where it is a place after the first of them.
fn taken_by(len: u32, rx: u32, untaken: &VecDeque<Message>, value: u32) -> Option<usize>
    requires { 0 < len }
    ensures is { result ≡ taken_by len rx untaken.now.items value }
    ensures few { IfSome result (λ k. k ≤ length untaken.now.items) }
{
    let mut place = place_after(len, rx, 0);
    for k in 0..untaken.len() {
        if place == value {
            return Some(k);
        }
        place = place_after(len, place, room_of(&untaken[k]));
    }
    if place == value {
        return Some(untaken.len());
    }
    None
}

// The slot bytes that a message takes.
fn room_of(message: &Message) -> u64
    ensures room { result ≡ room_of message.now }
    ensures small { result ≤ 2 ^ 63 + 31 }
{
    slots::room(message.body.as_slice().len() as u64)
}

// The place so many bytes after another.
fn place_after(len: u32, at: u32, n: u64) -> u32
    requires some { 0 < len }
    requires small { n ≤ 2 ^ 63 + 31 }
    ensures { result ≡ place_after len at n }
{
    ((at as u64 + n) % len as u64) as u32
}

/// Whether `n` bytes from a byte of a ring on touch the rx word, the tx word or a slot byte.
pub(crate) fn touches(len: u32, at: u32, n: usize) -> bool
    ensures { result ≡ touches len at n }
{
    let start = at as u128;
    let end = start + n as u128;
    meets(start, end, 0, 8) || meets(start, end, 64, 64 + len as u128)
}

// Whether two ranges have a number in common.
fn meets(from: u128, to: u128, low: u128, high: u128) -> bool
    ensures { result ≡ meets from to low high }
{
    from.max(low) < to.min(high)
}

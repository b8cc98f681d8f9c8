//! What a put into a ring's pages does to the ring.
ghost use Rattle.std.specs.Prelude.{◌≡◌, ◌*◌, ◌/◌, ◌<◌, ◌≤◌, ◌^◌, ◌==◌, length, map, position, slice_index, IfSome};
ghost use Rattle.argo_base.specs.Slots.{place_after};
ghost use Rattle.argo_model.specs.Rules.Messages.{room_of};
ghost use Rattle.argo_model.specs.Rules.Puts.{after_put, clean_after, moves, taken_by, touches, meets};
ghost use Rattle.argo_model.specs.Rules.RingBytes.{paged};

use crate::memory::u32_at;
use crate::ring::Ring;
use argo_base::{Message, RingKey, slots};
use std::collections::BTreeMap;

/// What a put of these bytes at an offset of a page does to the rings of the page's owner, whose memory was so before.
pub(crate) fn put_into_rings(
    rings: &mut BTreeMap<RingKey, Ring>,
    memory: &[u8],
    page: u64,
    off: u32,
    bytes: &[u8],
)
    requires { page < length memory.now / 4096 }
    ensures { rings.new.entries
        ≡ map (λ e. (e.0, after_put memory.now page off bytes.now e.1)) rings.old.entries }
{
    rings.retain(|_, ring| {
        ring.after_put(memory, page, off, bytes);
        true
    });
}

impl Ring {
    /// What a put of these bytes at an offset of a page does to the ring, whose owner's memory was so before.
    pub(crate) fn after_put(&mut self, memory: &[u8], page: u64, off: u32, bytes: &[u8])
        requires { page < length memory.now / 4096 }
        ensures { self.new ≡ after_put memory.now page off bytes.now self.old }
    {
        let Some(place) = place_of(self.pages.as_slice(), page) else {
            return;
        };
        if self.clean {
            let at = 4096 * place as u128 + off as u128;
            let moved = self.moves(memory, at, bytes);
            self.clean_after(at, bytes.len(), moved);
        }
    }

    // A clean ring after a put of `n` bytes from a byte of it on, which takes so many untaken messages.
    fn clean_after(&mut self, at: u128, n: usize, moved: Option<usize>)
        requires low { at ≤ 2 ^ 127 }
        requires few { IfSome moved (λ k. k ≤ length self.old.untaken) }
        ensures { self.new ≡ clean_after self.old at n moved }
    {
        if let Some(k) = moved {
            self.untaken.drop_first(k);
        } else if touches(self.len, at, n) {
            self.clean = false;
            self.untaken.clear();
        }
    }

    // How many untaken messages a put takes: one from the first byte of the ring on is into a page of the memory.
    fn moves(&self, memory: &[u8], at: u128, bytes: &[u8]) -> Option<usize>
        requires first { at ≡ 0 → slice_index self.now.pages 0 < length memory.now / 4096 }
        ensures is { result ≡ moves (paged memory.now self.now) at bytes.now }
        ensures few { IfSome result (λ k. k ≤ length self.now.untaken) }
    {
        if self.clean && at == 0 && bytes.len() == 4 {
            let rx = self.rx_word(memory);
            taken_by(self.len, rx, self.untaken.as_slice(), u32_at(bytes, 0))
        } else {
            None
        }
    }
}

// The place of a page in a list of pages.
fn place_of(pages: &[u64], page: u64) -> Option<usize>
    ensures { result ≡ position (λ p. p == page) pages.now }
{
    pages.iter().position(|p| *p == page)
}

// How many untaken messages a new value of the rx word takes, where it is a place after the first of them.
fn taken_by(len: u32, rx: u32, untaken: &[Message], value: u32) -> Option<usize>
    requires { 0 < len }
    ensures is { result ≡ taken_by len rx untaken.now value }
    ensures few { IfSome result (λ k. k ≤ length untaken.now) }
{
    let mut taken = 0;
    for (k, message) in untaken.iter().enumerate() {
        if place_after(len, rx, taken) == value as u128 {
            return Some(k);
        }
        taken += room_of(message) as u128;
    }
    if place_after(len, rx, taken) == value as u128 {
        return Some(untaken.len());
    }
    None
}

// The slot bytes that a message takes.
fn room_of(message: &Message) -> u64
    ensures { result ≡ room_of message.now }
{
    slots::room(message.body.as_slice().len() as u64)
}

// The place so many bytes after another.
fn place_after(len: u32, at: u32, n: u128) -> u128
    requires some { 0 < len }
    requires small { n ≤ 2 ^ 127 }
    ensures { result ≡ place_after len at n }
{
    (at as u128 + n) % len as u128
}

// Whether `n` bytes from a byte of a ring on touch the rx word, the tx word or a slot byte.
fn touches(len: u32, at: u128, n: usize) -> bool
    requires { at ≤ 2 ^ 127 }
    ensures { result ≡ touches len at n }
{
    let end = at + n as u128;
    meets(at, end, 0, 8) || meets(at, end, 64, 64 + len as u128)
}

// Whether two ranges have a number in common.
fn meets(from: u128, to: u128, low: u128, high: u128) -> bool
    ensures { result ≡ meets from to low high }
{
    from.max(low) < to.min(high)
}

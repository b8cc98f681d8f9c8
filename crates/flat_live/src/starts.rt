//! How a ring starts on its pages.
ghost use Rattle.std.specs.Prelude.{◌≡◌, ◌/◌, ◌<◌, IsTrue, length, slice_index};
ghost use Rattle.argo_base.specs.Slots.{is_place};
ghost use Rattle.flat_live.specs.Starts.{start_on, memory_with_start};

use crate::memory::{start_of, word};
use argo_base::{Bytes, slots};

/// How a ring starts on its pages.
#[derive(Clone, Copy)]
pub(crate) struct Start {
    /// Its first page, where its words are.
    page: u64,
    /// Where the next message is written.
    pub(crate) tx: u32,
    pub(crate) clean: bool,
    /// Whether the tx word says so already.
    kept: bool,
}

impl Start {
    /// The start of a ring of `len` slot bytes on these pages of its owner.
    pub(crate) fn on(memory: &[u8], len: u32, pages: &[u64]) -> Start
        requires some { 0 < len }
        requires listed { 0 < length pages.now }
        requires first { slice_index pages.now 0 < length memory.now / 4096 }
        ensures is { result ≡ start_on memory.now len pages.now }
        ensures place { IsTrue (is_place len result.tx) }
    {
        let rx = word(memory, pages, 0);
        let tx = word(memory, pages, 4);
        let kept = slots::is_place(len, tx);
        let place = if kept { tx } else { slots::sanitise(rx, len) };
        Start {
            page: pages[0],
            tx: place,
            clean: slots::is_place(len, rx) && rx == place,
            kept,
        }
    }

    /// Writes the tx word where it is to be another.
    pub(crate) fn write(self, memory: &mut Bytes)
        requires { self.page < length memory.old / 4096 }
        ensures is { memory.new ≡ memory_with_start memory.old self }
        ensures length { length memory.new ≡ length memory.old }
    {
        if !self.kept {
            let at = start_of(memory.as_slice(), self.page) + 4;
            memory.write(at, self.tx.to_le_bytes().as_slice());
        }
    }
}

//! A ring of a domain.
ghost use Rattle.std.specs.Prelude.{◌≡◌, ◌/◌, ◌<◌, IsTrue, IfOk, OnOk, OnErr, length, slice_index};
ghost use Rattle.argo_base.specs.SlotBytes as slot_bytes;
ghost use Rattle.argo_model.specs.Rules.RingBytes as bytes;
ghost use Rattle.argo_model.specs.Rules.Sweep.{sweep_ring};
ghost use Rattle.argo_model.specs.Rules.Register.{stands_so};
ghost use Rattle.argo_model.specs.Rules.Effects.{after};
ghost use Rattle.flat_live.specs.Memory.{are_there};

use crate::memory::word;
use crate::notices::NoticeMap;
use argo_base::{MessageList, NoMemory, PageList, slots};
use argo_model::Outcome;
use live_domain::Change;
use std::alloc::Global;
use std::marker::Model;

/// A ring of a domain.
#[derive(Debug, Drop)]
pub(crate) struct Ring {
    /// Its number among the rings that its owner made in this generation, from 1. A reset does not begin anew.
    pub(crate) serial: u64,
    /// The slot bytes.
    pub(crate) len: u32,
    /// The owner's pages that hold the 64 header bytes and the slots, in order.
    pub(crate) pages: PageList,
    /// The place in the slots where the next message is written.
    pub(crate) tx: u32,
    pub(crate) clean: bool,
    /// The accepted messages that were not taken yet, oldest first; none where the ring is dirty.
    pub(crate) untaken: MessageList,
    pub(crate) notices: NoticeMap,
}

impl Model for Ring {
    ghost use Rattle.argo_model.specs.Rules.State.{Ring as TheRing};

    ghost Value = { TheRing };

    ghost use Rattle.flat_live.specs.Memory.{IsRing};

    ghost view = { λ r. record {
      serial = r.serial;
      len = r.len;
      pages = r.pages;
      tx = r.tx;
      clean = r.clean;
      untaken = r.untaken.messages;
      notices = r.notices;
    } };

    ghost invariant = { λ r. IsRing r.len r.tx r.pages };
}

impl Ring {
    /// The rx word in the memory of the ring's owner.
    pub(crate) fn rx_word(&self, memory: &[u8]) -> u32
        requires { slice_index self.now.pages 0 < length memory.now / 4096 }
        ensures { result ≡ slot_bytes.rx_word (bytes.ring_bytes memory.now self.now.pages) }
    {
        word(memory, self.pages.as_slice(), 0)
    }

    /// The free bytes of the ring in its owner's memory.
    pub(crate) fn free(&self, memory: &[u8]) -> u32
        requires { IsTrue (are_there (length memory.now / 4096) self.now.pages) }
        ensures { result ≡ bytes.free (bytes.paged memory.now self.now) }
    {
        let len = self.len;
        slots::span(len, self.rx_word(memory), self.tx)
    }

    /// Whether the receiver has read all, as far as its rx word says.
    pub(crate) fn is_empty(&self, memory: &[u8]) -> bool
        requires { IsTrue (are_there (length memory.now / 4096) self.now.pages) }
        ensures { result ≡ bytes.is_empty (bytes.paged memory.now self.now) }
    {
        let len = self.len;
        slots::sanitise(self.rx_word(memory), len) == self.tx
    }

    /// Whether it is clean, of this length and on exactly these pages.
    pub(crate) fn stands_so(&self, len: u32, pages: &[u64]) -> bool
        ensures { result ≡ stands_so self.now len pages.now }
    {
        self.clean && self.len == len && self.pages.as_slice() == pages
    }

    /// Ends the notices that fit. Where memory runs out all stay.
    pub(crate) fn sweep(&mut self, alloc: Global, memory: &[u8]) -> Result<Change, NoMemory>
        requires { IsTrue (are_there (length memory.now / 4096) self.old.pages) }
        ensures outcome { IfOk result
            (λ c. c.outcome ≡ (sweep_ring (bytes.paged memory.now self.old)).outcome) }
        ensures signals { IfOk result
            (λ c. c.signals.items ≡ (sweep_ring (bytes.paged memory.now self.old)).signals) }
        ensures left { OnOk result
            (self.new
            ≡ (after (bytes.paged memory.now self.old)
            (sweep_ring (bytes.paged memory.now self.old))).ring) }
        ensures err { OnErr result (self.new ≡ self.old) }
        ensures pages { self.new.pages ≡ self.old.pages }
    {
        let free = self.free(memory);
        let signals = self.notices.fitting(alloc, free)?;
        self.notices.end_fitting(free);
        Ok(Change {
            outcome: Outcome::Swept(self.serial),
            signals,
        })
    }
}

//! A ring that holds its own pages.
ghost use Rattle.std.specs.Prelude.{◌≡◌, ℕ, length, IsTrue, IsFalse, OnOk, OnErr};
ghost use Rattle.argo_base.specs.Slots.{is_legal, page_count};
ghost use Rattle.argo_model.specs.Rules.RingBytes as bytes;
ghost use Rattle.ring_core.specs.Held.{paged, IsRing};
ghost use Rattle.ring_core.specs.Restarts.{ring_on};

use crate::log::Log;
use crate::start::Start;
use argo_base::{Message, Messages, NoMemory, RingId, slots};
use guest_pages::PageRow;
use pending_list::Notices;
use ring_space::rx_word;
use std::alloc::Global;
use std::collections::VecDeque;
use std::marker::Model;

/// A ring on the pages that were moved into it. Contracts see its parts by name, and `paged` makes of them the ring of the rules
/// with its own bytes, under whatever serial its owner has it.
#[derive(Debug, Drop)]
pub struct Ring {
    pub(crate) id: RingId,
    /// The slot bytes.
    pub(crate) len: u32,
    pub(crate) row: PageRow,
    /// The place in the slots where the next message is written.
    pub(crate) tx: u32,
    pub(crate) clean: bool,
    /// The accepted messages that were not taken yet; none where the ring is dirty.
    pub(crate) untaken: Log,
    pub(crate) notices: Notices,
}

impl Model for Ring {
    ghost use Rattle.ring_core.specs.Held.{Held, IsRing};

    ghost Value = { Held };

    ghost view = { λ r. record {
      id = r.id;
      len = r.len;
      row = r.row;
      tx = r.tx;
      clean = r.clean;
      untaken = r.untaken.messages;
      notices = r.notices;
      has_room = r.untaken.has_room;
    } };

    ghost invariant = { λ r. IsRing (record {
      id = r.id;
      len = r.len;
      row = r.row;
      tx = r.tx;
      clean = r.clean;
      untaken = r.untaken.messages;
      notices = r.notices;
      has_room = r.untaken.has_room;
    }) };
}

impl Ring {
    /// A ring of `len` slot bytes on these pages, without notices. It starts, and takes no memory.
    pub fn new(alloc: Global, id: RingId, len: u32, row: PageRow) -> Ring
        requires legal { IsTrue (is_legal len) }
        requires pages { length row ≡ page_count len }
        ensures left { (serial : ℕ) → paged serial result ≡ ring_on serial len row }
        ensures id { result.id ≡ id }
    {
        let mut row = row;
        let start = Start::on(&mut row, len);
        Ring {
            id,
            len,
            row,
            tx: start.tx,
            clean: start.clean,
            untaken: Log::new(alloc),
            notices: Notices::new(),
        }
    }

    /// Makes room in the list of untaken messages, so that one `accept` may follow, which takes no memory.
    pub fn reserve_log(&mut self) -> Result<(), NoMemory>
        ensures left { self.new ≡ record self.old { has_room = self.new.has_room } }
        ensures ok { OnOk result (IsTrue self.new.has_room) }
        ensures err { OnErr result (IsFalse self.old.has_room) }
    {
        self.untaken.reserve()
    }

    /// The pages, which go back to the owner, and the notices, which end with the ring.
    pub fn into_parts(self) -> (PageRow, Notices)
        ensures row { result.0 ≡ self.row }
        ensures notices { result.1 ≡ self.notices }
    {
        let Ring { row, notices, .. } = self;
        (row, notices)
    }

    /// As `into_parts`, with the untaken messages.
    pub fn into_all_parts(self) -> (PageRow, Notices, Messages)
        ensures row { result.0 ≡ self.row }
        ensures notices { result.1 ≡ self.notices }
        ensures untaken { result.2 ≡ self.untaken }
    {
        let Ring {
            row,
            notices,
            untaken,
            ..
        } = self;
        (row, notices, untaken.into_messages())
    }

    pub fn id(&self) -> RingId
        ensures { result ≡ self.now.id }
    {
        self.id
    }

    /// The slot bytes. Whoever asks learns what always holds of a ring.
    pub fn len(&self) -> u32
        ensures value { result ≡ self.now.len }
        ensures ring { IsRing self.now }
    {
        self.len
    }

    /// The place in the slots where the next message is written.
    pub fn tx(&self) -> u32
        ensures { result ≡ self.now.tx }
    {
        self.tx
    }

    pub fn clean(&self) -> bool
        ensures { result ≡ self.now.clean }
    {
        self.clean
    }

    /// The accepted messages that were not taken yet, oldest first; none where the ring is dirty.
    pub fn untaken(&self) -> &VecDeque<Message>
        ensures { result.now.items ≡ self.now.untaken }
    {
        self.untaken.messages()
    }

    pub fn notices(&self) -> &Notices
        ensures { result.now ≡ self.now.notices }
    {
        &self.notices
    }

    pub fn row(&self) -> &PageRow
        ensures { result.now ≡ self.now.row }
    {
        &self.row
    }

    /// The free bytes.
    pub(crate) fn free(&self) -> u32
        ensures { result ≡ bytes.free (paged 0 self.now) }
    {
        slots::span(self.len, rx_word(&self.row), self.tx)
    }
}

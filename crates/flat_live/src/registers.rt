//! A domain registers a ring, or registers it anew.
ghost use Rattle.std.specs.Prelude.{◌≡◌, ◌/◌, ◌<◌, ◌^◌, IsTrue, IfOk, OnOk, OnErr, length, filter, not, nat_le, ◌&&◌};
ghost use Rattle.argo_base.specs.Notices as notes;
ghost use Rattle.argo_base.specs.Slots.{is_legal, page_count};
ghost use Rattle.argo_model.specs.declared.action.Outcome.TheVariants.{Done as IsDone};
ghost use Rattle.argo_model.specs.Rules.Effects.{after};
ghost use Rattle.argo_model.specs.Rules.Limits.{most_rings};
ghost use Rattle.argo_model.specs.Rules.Register.{all_differ, are_free_for, has_ring, own_ring, register_allowed, register_new, resized};
ghost use Rattle.argo_model.specs.Rules.RingBytes.{paged, laid};
ghost use Rattle.argo_model.specs.Rules.Starts.{started};
ghost use Rattle.flat_live.specs.Memory.{are_there};

use crate::live::Live;
use crate::notices::NoticeMap;
use crate::ring::Ring;
use crate::starts::Start;
use argo_base::{Bytes, MessageList, NoMemory, PageList, RingKey};
use argo_model::Outcome;
use live_domain::{Change, Registration};
use std::alloc::Global;

/// The rings of a domain that stand at one time.
const MOST_RINGS: usize = 128;

impl Live {
    /// Whether a ring of the key stands, and the caller asked for a refusal then.
    pub(crate) fn stands_already(&self, r: &Registration) -> bool
        ensures { result ≡ (has_ring self.now r.now.key && r.now.fail_exist) }
    {
        self.rings.contains_key(&r.key) && r.fail_exist
    }

    /// Whether no ring of a key under which none stands may be added.
    pub(crate) fn is_full(&self, key: &RingKey) -> bool
        ensures { result
            ≡ (not (has_ring self.now key.now) && nat_le most_rings (length self.now.rings)) }
    {
        !self.rings.contains_key(key) && self.rings.len() >= MOST_RINGS
    }

    /// Registers a ring that may stand on these pages. Takes memory only before it changes anything.
    pub(crate) fn register_allowed(
        &mut self,
        alloc: Global,
        key: RingKey,
        len: u32,
        pages: PageList,
    ) -> Result<Change, NoMemory>
        requires legal { IsTrue (is_legal len) }
        requires counted { length pages ≡ page_count len }
        requires free { IsTrue (are_free_for self.old key pages) }
        requires young { self.old.next_serial < 2 ^ 63 }
        ensures outcome { IfOk result
            (λ c. c.outcome
            ≡ (register_allowed self.old key len pages (own_ring self.old key)).outcome) }
        ensures signals { IfOk result
            (λ c. c.signals.items
            ≡ (register_allowed self.old key len pages (own_ring self.old key)).signals) }
        ensures left { OnOk result
            (self.new
            ≡ after self.old (register_allowed self.old key len pages (own_ring self.old key))) }
        ensures err { OnErr result (self.new ≡ self.old) }
    {
        let Some(ring) = self.rings.get_mut(&key) else {
            self.register_new(alloc, key, len, pages)?;
            return Ok(Change::quiet(alloc, Outcome::Done));
        };
        if ring.stands_so(len, pages.as_slice()) {
            return Ok(Change::quiet(alloc, Outcome::Done));
        }
        let change = ring.restart(alloc, &mut self.bytes, len, pages)?;
        Ok(change)
    }

    // Registers a ring of a key under which none stands.
    fn register_new(
        &mut self,
        alloc: Global,
        key: RingKey,
        len: u32,
        pages: PageList,
    ) -> Result<(), NoMemory>
        requires legal { IsTrue (is_legal len) }
        requires counted { length pages ≡ page_count len }
        requires differ { IsTrue (all_differ pages) }
        requires there { IsTrue (are_there (length self.old.bytes / 4096) pages) }
        requires young { self.old.next_serial < 2 ^ 63 }
        ensures left { OnOk result
            (self.new ≡ after self.old (register_new self.old key len pages)) }
        ensures err { OnErr result (self.new ≡ self.old) }
    {
        let start = Start::on(self.bytes.as_slice(), len, pages.as_slice());
        let ring = Ring {
            serial: self.next_serial,
            len,
            pages,
            tx: start.tx,
            clean: start.clean,
            untaken: MessageList::new(alloc),
            notices: NoticeMap::new(alloc),
        };
        self.rings.insert(key, ring)?;
        self.next_serial += 1;
        start.write(&mut self.bytes);
        Ok(())
    }
}

impl Ring {
    /// Starts the ring on new pages, of which the domains whose notices are too big for it are told.
    fn restart(
        &mut self,
        alloc: Global,
        memory: &mut Bytes,
        len: u32,
        pages: PageList,
    ) -> Result<Change, NoMemory>
        requires legal { IsTrue (is_legal len) }
        requires counted { length pages ≡ page_count len }
        requires differ { IsTrue (all_differ pages) }
        requires there { IsTrue (are_there (length memory.old / 4096) pages) }
        ensures outcome { IfOk result (λ c. c.outcome ≡ IsDone) }
        ensures signals { IfOk result
            (λ c. c.signals.items
            ≡ notes.doms_of (filter (notes.never_fits len) self.old.notices)) }
        ensures ring { OnOk result
            (self.new ≡ (started (paged memory.old (resized self.old len pages))).ring) }
        ensures memory { OnOk result
            (memory.new
            ≡ laid pages (started (paged memory.old (resized self.old len pages))).own memory.old) }
        ensures err_ring { OnErr result (self.new ≡ self.old) }
        ensures err_memory { OnErr result (memory.new ≡ memory.old) }
        ensures length { length memory.new ≡ length memory.old }
    {
        let signals = self.notices.too_big(alloc, len)?;
        let start = Start::on(memory.as_slice(), len, pages.as_slice());
        self.notices.keep_able(len);
        self.len = len;
        self.pages = pages;
        self.tx = start.tx;
        self.clean = start.clean;
        self.untaken.clear();
        start.write(memory);
        Ok(Change {
            outcome: Outcome::Done,
            signals,
        })
    }
}

//! The senders that wait for room in a ring.
ghost use Rattle.std.specs.Prelude.{◌≡◌, is_some};
ghost use Rattle.argo_base.specs.Match.{key_in};
ghost use Rattle.argo_base.specs.Notices.{size_of, withdrawn};
ghost use Rattle.argo_model.specs.Rules.Effects.{after};
ghost use Rattle.argo_model.specs.Rules.Query as query;
ghost use Rattle.argo_model.specs.Rules.RingBytes.{with_notices, is_empty};
ghost use Rattle.argo_model.specs.Rules.Sweep.{sweep_ring};
ghost use Rattle.ring_core.specs.Held.{paged, Becomes, IsSaid, Keeps};

use crate::ring::Ring;
use argo_base::{DomId, Ended, slots};
use argo_model::Answer;
use pending_list::Note;
use ring_space::rx_word;

const EXISTS: u16 = 1;

const SHARED: u16 = 2;

const EMPTY: u16 = 4;

const SUFFICIENT: u16 = 8;

const MSGSIZE: u16 = 16;

const BUSY: u16 = 32;

impl Ring {
    /// Ends exactly the notices that fit, and gives their domains, which are to be signalled. It takes no memory.
    pub fn sweep(&mut self) -> Ended
        ensures signals { IsSaid self.old result (λ p. (sweep_ring p).signals) }
        ensures left { Becomes self.old self.new (λ p. after p (sweep_ring p)) }
        ensures keeps { Keeps self.old self.new }
    {
        let free = self.free();
        self.notices.take_fitting(free)
    }

    /// Answers a sender that asks for room for a body of `need` bytes: its notice is withdrawn where they fit, and set or raised
    /// where it is to wait. It takes no memory.
    pub fn query(&mut self, dom: DomId, need: u32) -> Answer
        ensures answer { IsSaid self.old result
            (λ p. query.answer_of p (key_in self.old.id) dom need) }
        ensures left { Becomes self.old self.new
            (λ p. after p (query.query_ring p (key_in self.old.id) dom need)) }
        ensures keeps { Keeps self.old self.new }
    {
        let flags = self.standing();
        let most = self.len - 32;
        let flag = self.request(dom, need);
        Answer {
            flags: flags + flag,
            need,
            most,
        }
    }

    /// Takes away the notice of a domain that is gone. It tells whether there was one.
    pub fn forget(&mut self, dom: DomId) -> bool
        ensures stood { result ≡ is_some (size_of self.old.notices dom) }
        ensures left { Becomes self.old self.new
            (λ p. with_notices p (withdrawn p.ring.notices dom)) }
        ensures keeps { Keeps self.old self.new }
    {
        self.notices.forget(dom)
    }

    // The flags that say how the ring stands.
    fn standing(&self) -> u16
        ensures { result ≡ query.standing_flags (paged 0 self.now) (key_in self.now.id) }
    {
        let shared = if self.id.partner.is_any() { SHARED } else { 0 };
        let empty = if self.is_empty() { EMPTY } else { 0 };
        EXISTS + shared + empty
    }

    // Whether the receiver has read all, as far as its rx word says.
    fn is_empty(&self) -> bool
        ensures { result ≡ is_empty (paged 0 self.now) }
    {
        slots::sanitise(rx_word(&self.row), self.len) == self.tx
    }

    // Asks for room for a body of `need` bytes: the flag that tells what came of it.
    fn request(&mut self, dom: DomId, need: u32) -> u16
        ensures flag { result ≡ (query.request (paged 0 self.old) dom need).flag }
        ensures left { Becomes self.old self.new
            (λ p. with_notices p (query.request p dom need).notices) }
        ensures keeps { Keeps self.old self.new }
    {
        if slots::too_big(self.len, need) {
            return MSGSIZE;
        }
        if slots::fits_into(self.free(), need) {
            self.notices.withdraw(dom);
            return SUFFICIENT;
        }
        match self.notices.note(dom, need) {
            Note::Busy => BUSY,
            Note::Noted => 0,
        }
    }
}

//! What a domain has that is alive.

use crate::matches::{match_key, next_key};
use crate::ring::Ring;
use crate::{closed_rings, final_rings};
use argo_base::{Bytes, DomId, Errno, NoMemory, Piece, RingKey};
use argo_model::{Action, ClosedRings, FinalRings, Outcome};
use live_domain::{Change, LiveDomain, NO_ANSWER, Offer, Registration};
use std::alloc::Global;
use std::collections::BTreeMap;
use std::marker::Model;

/// What only a domain that is alive has.
#[derive(Debug, Drop)]
pub struct Live {
    /// Its memory, 4,096 bytes a page.
    pub(crate) bytes: Bytes,
    pub(crate) flag: bool,
    pub(crate) next_serial: u64,
    pub(crate) rings: BTreeMap<RingKey, Ring>,
}

impl Model for Live {
    ghost use Rattle.argo_model.specs.Rules.State.{Live as TheLive};

    ghost Value = { TheLive };

    ghost use Rattle.std.specs.Prelude.{◌/◌, length, IsTrue};
    ghost use Rattle.flat_live.specs.Memory.{stand_in};

    ghost view = { λ l. record {
      bytes = l.bytes;
      flag = l.flag;
      next_serial = l.next_serial;
      rings = l.rings.entries;
    } };

    ghost invariant = { λ l. IsTrue (stand_in (length l.bytes / 4096) l.rings.entries) };
}

impl LiveDomain for Live {
    ghost live = { λ l. l };

    fn fresh(alloc: Global, _dom: DomId, pages: u32) -> Result<Live, NoMemory> {
        let bytes = vec![in alloc; 0u8; 4096 * pages as usize]?;
        Ok(Live {
            bytes: Bytes::from_vec(bytes),
            flag: false,
            next_serial: 1,
            rings: BTreeMap::new(alloc),
        })
    }

    fn act(&mut self, alloc: Global, on: bool, action: Action) -> Result<Outcome, NoMemory> {
        match action {
            Action::Fetch { page, off, n } => self.fetch(alloc, Piece { page, off, n }),
            Action::Put { page, off, bytes } => Ok(self.put_bytes(page, off, bytes.as_slice())),
            Action::Unregister { port, partner } if on => {
                Ok(self.unregister(RingKey { port, partner }))
            }
            Action::Unregister { .. } => Ok(Outcome::Refused(Errno::NoDev)),
            Action::Look => Ok(self.look()),
            _ => Ok(Outcome::Done),
        }
    }

    fn seen(&self, piece: Piece) -> Option<&[u8]> {
        self.shown(piece)
    }

    fn put(&mut self, page: u64, off: u32, bytes: &[u8]) -> Result<Outcome, NoMemory> {
        Ok(self.put_bytes(page, off, bytes))
    }

    fn register(&mut self, alloc: Global, r: Registration) -> Result<Change, NoMemory> {
        if self.stands_already(&r) {
            return Ok(Change::quiet(alloc, Outcome::Refused(Errno::Exist)));
        }
        if self.is_full(&r.key) {
            return Ok(Change::quiet(alloc, Outcome::Refused(Errno::NoSpc)));
        }
        if !self.are_free_for(alloc, &r.key, r.pages.as_slice())? {
            return Ok(Change::quiet(alloc, Outcome::Refused(Errno::Inval)));
        }
        let change = self.register_allowed(alloc, r.key, r.len, r.pages)?;
        Ok(change)
    }

    fn offer(&mut self, to: DomId, to_port: u32, sent: &mut Offer) -> Result<Outcome, NoMemory> {
        let key = match_key(&self.rings, to_port, sent.sender);
        let Some(ring) = self.rings.get_mut(&key) else {
            return Ok(Outcome::Refused(Errno::ConnRefused));
        };
        let outcome = ring.offer(&mut self.bytes, sent)?;
        Ok(outcome)
    }

    fn answer(&mut self, port: u32, sender: DomId, need: u32) -> Result<Outcome, NoMemory> {
        let key = match_key(&self.rings, port, sender);
        let Some(ring) = self.rings.get_mut(&key) else {
            return Ok(Outcome::Answer(NO_ANSWER));
        };
        let answer = ring.answer(self.bytes.as_slice(), key, sender, need)?;
        Ok(Outcome::Answer(answer))
    }

    fn sweep(&mut self, alloc: Global, after: u64) -> Result<Change, NoMemory> {
        let Some(key) = next_key(&self.rings, after) else {
            return Ok(Change::quiet(alloc, Outcome::NoMore));
        };
        let Some(ring) = self.rings.get_mut(&key) else {
            return Ok(Change::quiet(alloc, Outcome::NoMore));
        };
        let change = ring.sweep(alloc, self.bytes.as_slice())?;
        Ok(change)
    }

    fn signal(&mut self) {
        self.flag = true;
    }

    fn forget(&mut self, dom: DomId) {
        self.rings.retain(|key, _| key.partner != dom);
        self.rings.retain(|_, ring| {
            ring.notices.withdraw(dom);
            true
        });
    }

    fn reset(&mut self, alloc: Global) {
        self.flag = false;
        self.rings = BTreeMap::new(alloc);
    }

    fn flag(&self) -> bool {
        self.flag
    }

    fn memory(&self, alloc: Global) -> Result<Bytes, NoMemory> {
        Bytes::copy_of(alloc, self.bytes.as_slice())
    }

    fn closed_rings(&self, alloc: Global) -> Result<ClosedRings, NoMemory> {
        closed_rings::rings_of(alloc, &self.rings)
    }

    fn into_final_rings(self, alloc: Global) -> Result<FinalRings, NoMemory> {
        let Live { bytes, rings, .. } = self;
        final_rings::rings_of(alloc, bytes.as_slice(), rings)
    }
}

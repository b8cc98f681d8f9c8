//! The acts of a domain that is alive.
ghost use Rattle.std.specs.Prelude.{◌≡◌};

use crate::home::no_homes;
use crate::live::Live;
use crate::offers::{match_key, offer_to};
use crate::queries::ask;
use crate::sweeps::sweep_ring;
use crate::{closed, finals};
use argo_base::{Bytes, DomId, Errno, NoMemory, Piece, RingKey};
use argo_model::{Action, ClosedRings, FinalRings, Outcome};
use guest_pages::Private;
use live_domain::{Change, KeyedRings, LiveDomain, NO_ANSWER, Offer, Registration};
use ring_table::{MOST_ROWS, Table};
use std::alloc::Global;

impl LiveDomain for Live {
    ghost live = { λ l. l };

    fn fresh(alloc: Global, dom: DomId, pages: u32) -> Result<Live, NoMemory> {
        let private = Private::new(alloc, pages)?;
        let homes = no_homes(alloc, pages)?;
        Ok(Live {
            private,
            homes,
            flag: false,
            next_serial: 1,
            rings: Table::new(alloc),
            dom,
        })
    }

    fn act(&mut self, alloc: Global, on: bool, action: Action) -> Result<Outcome, NoMemory> {
        match action {
            Action::Fetch { page, off, n } => self.fetch(alloc, Piece { page, off, n }),
            Action::Put { page, off, bytes } => self.put_bytes(page, off, bytes.as_slice()),
            Action::Unregister { port, partner } if on => {
                Ok(self.unregister(RingKey { port, partner }))
            }
            Action::Unregister { .. } => Ok(Outcome::Refused(Errno::NoDev)),
            Action::Look => Ok(self.look()),
            _ => Ok(Outcome::Done),
        }
    }

    fn seen(&self, piece: Piece) -> Option<&[u8]> {
        self.shown(piece)
    }

    fn put(&mut self, page: u64, off: u32, bytes: &[u8]) -> Result<Outcome, NoMemory> {
        self.put_bytes(page, off, bytes)
    }

    fn register(&mut self, alloc: Global, r: Registration) -> Result<Change, NoMemory> {
        let stands = self.has_ring(r.key);
        if stands && r.fail_exist {
            return Ok(Change::quiet(alloc, Outcome::Refused(Errno::Exist)));
        }
        if stands {
            return self.register_anew(alloc, &r.key, r.len, r.pages.as_slice());
        }
        if self.rings.count() >= MOST_ROWS {
            return Ok(Change::quiet(alloc, Outcome::Refused(Errno::NoSpc)));
        }
        let outcome = self.register_new(alloc, &r.key, r.len, r.pages.as_slice())?;
        Ok(Change::quiet(alloc, outcome))
    }

    fn offer(&mut self, _to: DomId, to_port: u32, sent: &mut Offer) -> Result<Outcome, NoMemory> {
        let key = match_key(&self.rings, to_port, sent.sender);
        let Some(ring) = self.rings.find_exact_mut(key) else {
            return Ok(Outcome::Refused(Errno::ConnRefused));
        };
        let outcome = offer_to(ring, sent)?;
        Ok(outcome)
    }

    fn answer(&mut self, port: u32, sender: DomId, need: u32) -> Result<Outcome, NoMemory> {
        let key = match_key(&self.rings, port, sender);
        let Some(ring) = self.rings.find_exact_mut(key) else {
            return Ok(Outcome::Answer(NO_ANSWER));
        };
        let answer = ask(ring, sender, need);
        Ok(Outcome::Answer(answer))
    }

    fn sweep(&mut self, alloc: Global, after: u64) -> Result<Change, NoMemory> {
        let Some(row) = self.rings.after(after) else {
            return Ok(Change::quiet(alloc, Outcome::NoMore));
        };
        let (key, serial) = (row.key, row.serial);
        let Some(ring) = self.rings.find_exact_mut(key) else {
            return Ok(Change::quiet(alloc, Outcome::NoMore));
        };
        let signals = sweep_ring(alloc, ring)?;
        Ok(Change {
            outcome: Outcome::Swept(serial),
            signals,
        })
    }

    fn signal(&mut self) {
        self.flag = true;
    }

    fn forget(&mut self, dom: DomId) {
        self.rings.count();
        let mut serial = 0;
        'rings: while let Some((key, next)) = self.ring_above(serial) {
            self.forget_on(key, dom);
            serial = next;
        }
    }

    fn reset(&mut self, _alloc: Global) {
        self.flag = false;
        'rings: while let Some(key) = self.lowest_key() {
            self.take_ring(key);
        }
    }

    fn flag(&self) -> bool {
        self.flag
    }

    fn memory(&self, alloc: Global) -> Result<Bytes, NoMemory> {
        let mut bytes = Bytes::new(alloc);
        for page in 0..self.private.count() {
            let part = self.page(alloc, page)?;
            bytes.append(part.as_slice())?;
        }
        Ok(bytes)
    }

    fn closed_rings(&self, alloc: Global) -> Result<ClosedRings, NoMemory> {
        closed::rings_of(alloc, &self.rings)
    }

    fn into_final_rings(self, alloc: Global) -> Result<FinalRings, NoMemory> {
        let Live { rings, .. } = self;
        finals::rings_of(alloc, rings)
    }
}

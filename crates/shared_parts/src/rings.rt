//! The rings of a domain, each behind its lock, and which page stands in which ring.
ghost use Rattle.std.specs.Prelude.{◌≡◌, ◌==◌, ◌||◌, length, slice_get, option_map, is_some, false, [], Err, IsTrue, IsFalse, IfOk, OnOk, IfSome, IfNone, IfErr, OnErr};
ghost use Rattle.argo_base.specs.Match.{key_in};
ghost use Rattle.argo_base.specs.Slots.{is_legal, page_count};
ghost use Rattle.guest_pages.specs.Rows.{numbers_of};
ghost use Rattle.shared_parts.specs.Rings as shown;

use crate::homes::{Home, clear, home_at, no_homes, settle_row};
use argo_base::{DomId, Ended, NoMemory, RingId, RingKey};
use guest_pages::{LendFault, PageRow, Private};
use lock_tokens::Gate;
use pending_list::Notices;
use ring_core::Ring;
use ring_table::{MOST_ROWS, Table};
use std::alloc::Global;
use std::marker::Model;

/// The ring table of a domain, and for each of its pages the ring in which it stands, if it stands in one.
#[derive(Drop)]
pub struct Rings {
    alloc: Global,
    /// The ring of each row is there, but while it is made.
    table: Table<Option<Gate<Ring, 3>>>,
    next_serial: u64,
    homes: Vec<Option<Home>>,
}

impl Model for Rings {
    ghost use Rattle.ring_table.specs.Listing.{serials_of};
    ghost use Rattle.shared_parts.specs.Rings.{Registry, AreTaken};

    ghost Value = { Registry };

    ghost view = { λ r. record {
      serials = serials_of r.table;
      next = r.next_serial;
      homes = r.homes.items;
    } };

    ghost invariant = { λ r. AreTaken r.table };
}

impl Rings {
    /// No rings, for a domain of so many pages.
    pub fn new(alloc: Global, pages: u32) -> Result<Rings, NoMemory>
        ensures { IfOk result (λ rings. rings ≡ shown.no_rings pages) }
    {
        Ok(Rings {
            alloc,
            table: Table::new(alloc),
            next_serial: 1,
            homes: no_homes(alloc, pages)?,
        })
    }

    /// The ring in which a page stands, if it stands in one, and the page's place there.
    pub fn home_of(&self, page: u64) -> Option<(&Gate<Ring, 3>, usize)>
        ensures { option_map (λ home. home.1) result ≡ shown.place_of self.now page }
    {
        let home = home_at(self.homes.as_slice(), page)?;
        let gate = self.gate(home.key)?;
        Some((gate, home.place))
    }

    /// How many rings there are.
    pub(crate) fn count(&self) -> u32
        ensures { result ≡ length self.now.serials }
    {
        self.table.count()
    }

    /// Whether there are as many rings as a domain may have.
    pub fn is_full(&self) -> bool
        ensures { result ≡ shown.is_full self.now }
    {
        self.table.count() == MOST_ROWS
    }

    /// The ring that a sender meets at a port.
    pub fn find(&self, port: u32, sender: DomId) -> Option<&Gate<Ring, 3>>
        ensures { is_some result ≡ shown.has_match self.now port sender }
    {
        let row = self.table.find(port, sender)?;
        row.value.as_ref()
    }

    /// The ring with the least serial above this one, and its serial.
    pub fn after(&self, serial: u64) -> Option<(&Gate<Ring, 3>, u64)>
        ensures some { IfSome result (λ r. shown.IsNext self.now serial r.1) }
        ensures none { IfNone result (shown.NoneAbove self.now serial) }
    {
        let row = self.table.after(serial)?;
        let gate = row.value.as_ref()?;
        Some((gate, row.serial))
    }

    /// The key of the first ring and its serial, by rising key.
    pub(crate) fn first(&self) -> Option<(RingKey, u64)>
        ensures { result ≡ slice_get self.now.serials 0 }
    {
        let row = self.table.first()?;
        Some((row.key, row.serial))
    }

    /// Takes a ring out as it is, with the pages that it stands on.
    pub(crate) fn take(&mut self, key: RingKey) -> Option<Ring>
        ensures found { is_some result ≡ shown.has_ring self.old key }
        ensures left { self.new ≡ shown.without_ring self.old key [] }
    {
        let Some(seat) = self.table.remove(key) else {
            return None;
        };
        let Some(gate) = seat else {
            return None;
        };
        Some(gate.into_inner())
    }

    /// Whether a ring stands under the key.
    pub fn has_ring(&self, key: RingKey) -> bool
        ensures { result ≡ shown.has_ring self.now key }
    {
        self.table.find_exact(key).is_some()
    }

    /// Whether the ring of a key is clean, with just this length and these pages, where there is such a ring. Whoever has the table for
    /// writing may ask: then nobody has the ring's lock.
    pub fn stands_so(&mut self, key: RingKey, len: u32, numbers: &[u64]) -> Option<bool>
        ensures found { is_some result ≡ shown.has_ring self.old key }
        ensures same { self.new ≡ self.old }
    {
        let Some(seat) = self.table.find_exact_mut(key) else {
            return None;
        };
        let Some(gate) = seat else {
            return None;
        };
        Some(is_same(gate.get_mut(), len, numbers))
    }

    /// Makes a ring with the next serial on these pages. Where it cannot be put into the table, the pages come back as they were: where
    /// memory runs out, or its key has a ring, or the table is full.
    pub fn make(&mut self, id: RingId, len: u32, row: PageRow) -> Result<(), PageRow>
        requires legal { IsTrue (is_legal len) }
        requires pages { length row ≡ page_count len }
        ensures ok { OnOk result
            (self.new ≡ shown.with_ring self.old (key_in id) (numbers_of row)) }
        ensures free { OnOk result
            (IsFalse (shown.has_ring self.old (key_in id) || shown.is_full self.old)) }
        ensures err { OnErr result (self.new ≡ self.old) }
        ensures back { IfErr result (λ back. back ≡ row) }
    {
        let key = id.key();
        if self.has_ring(key) {
            return Err(row);
        }
        let Ok(()) = self.table.insert(key, self.next_serial, None) else {
            return Err(row);
        };
        let Some(seat) = self.table.find_exact_mut(key) else {
            return Err(row);
        };
        settle_row(&mut self.homes, &key, &row);
        *seat = Some(Gate::new(Ring::new(self.alloc, id, len, row)));
        self.next_serial = self.next_serial.saturating_add(1);
        Ok(())
    }

    /// Registers a ring that stands anew, with another length or on other pages. The domains whose notices ended come back. Where the
    /// pages cannot be lent, all stays.
    pub fn restart(
        &mut self,
        key: RingKey,
        len: u32,
        private: &mut Private,
        numbers: &[u64],
    ) -> Result<Ended, LendFault>
        requires legal { IsTrue (is_legal len) }
        requires counted { length numbers.now ≡ page_count len }
        ensures ok { IfOk result (λ ended. shown.IsRestarted self.old self.new private.old
            private.new key len numbers.now ended) }
        ensures stood { OnOk result (IsTrue (shown.has_ring self.old key)) }
        ensures err { OnErr result (private.new ≡ private.old) }
        ensures kept { OnErr result (IsTrue (shown.has_ring self.old key)
            → shown.IsKept self.old self.new key) }
        ensures none { shown.has_ring self.old key ≡ false
            → (result ≡ Err LendFault.Pages) × (self.new ≡ self.old) }
    {
        let Some(seat) = self.table.find_exact_mut(key) else {
            return Err(LendFault::Pages);
        };
        let Some(gate) = seat else {
            return Err(LendFault::Pages);
        };
        let ring = gate.get_mut();
        clear(&mut self.homes, ring.row());
        let ended = ring.restart(len, private, numbers);
        settle_row(&mut self.homes, &key, ring.row());
        ended
    }

    /// Ends a ring: its pages become private again, and its notices come back. Where there is none, there were no notices.
    pub fn end(&mut self, key: RingKey, private: &mut Private) -> Notices
        ensures stood { IsTrue (shown.has_ring self.old key) → shown.IsEnded self.old self.new
            private.old private.new key result }
        ensures none { shown.has_ring self.old key ≡ false → result ≡ [] }
        ensures same { shown.has_ring self.old key ≡ false → self.new ≡ self.old }
        ensures private { shown.has_ring self.old key ≡ false → private.new ≡ private.old }
    {
        let Some(ring) = self.take(key) else {
            return Notices::new();
        };
        let (row, notices) = ring.into_parts();
        clear(&mut self.homes, &row);
        private.give_back(row);
        notices
    }

    /// Takes the notice of a domain away from a ring.
    pub(crate) fn forget(&mut self, key: RingKey, dom: DomId)
        ensures { self.new ≡ self.old }
    {
        let Some(seat) = self.table.find_exact_mut(key) else {
            return;
        };
        let Some(gate) = seat else {
            return;
        };
        gate.get_mut().forget(dom);
    }

    // The ring of a key.
    fn gate(&self, key: RingKey) -> Option<&Gate<Ring, 3>>
        ensures { is_some result ≡ shown.has_ring self.now key }
    {
        let row = self.table.find_exact(key)?;
        row.value.as_ref()
    }
}

// Whether a ring is clean, with just this length and these pages.
fn is_same(ring: &Ring, len: u32, numbers: &[u64]) -> bool {
    let row = ring.row();
    if !ring.clean() || ring.len() != len || row.count() != numbers.len() {
        return false;
    }
    for (place, number) in numbers.iter().enumerate() {
        if row.number(place) != *number {
            return false;
        }
    }
    true
}

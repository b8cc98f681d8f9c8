//! A domain registers a ring, or registers it anew.
ghost use Rattle.std.specs.Prelude.{◌≡◌, ◌+◌, ◌*◌, ◌<◌, ◌^◌, ℕ, IsTrue, IsFalse, None, Err, IfOk, IfErr, OnOk, OnErr, length, take, drop, filter};
ghost use Rattle.std.specs.List.{All};
ghost use Rattle.std.specs.Str.{bytes_eq};
ghost use Rattle.argo_base.specs.Limits.{page_bytes};
ghost use Rattle.argo_base.specs.Match.{key_in};
ghost use Rattle.argo_base.specs.Notices.{never_fits, doms_of};
ghost use Rattle.argo_base.specs.Slots.{is_legal, page_count};
ghost use Rattle.argo_base.specs.Splice.{splice};
ghost use Rattle.argo_model.specs.Rules.Effects.{after};
ghost use Rattle.argo_model.specs.Rules.Register as rules;
ghost use Rattle.guest_pages.specs.Pages.{can_lend, without};
ghost use Rattle.guest_pages.specs.Rows.{numbers_of, row_bytes};
ghost use Rattle.paged_live.specs.Registers.{new_if_free, anew_if_free};
ghost use Rattle.ring_core.specs.Held.{paged, Becomes};
ghost use Rattle.ring_core.specs.Restarts.{given_back, lent_bytes, restarted, ring_on};
ghost use Rattle.ring_table.specs.Edits.{with_row};
ghost use Rattle.ring_table.specs.Rows.{held_at};

use crate::home::{clear, settle, settle_row};
use crate::live::Live;
use crate::sweeps::{list, room_for};
use argo_base::{DomId, Ended, Errno, NoMemory, RingId, RingKey};
use argo_model::Outcome;
use guest_pages::{LendFault, PageRow, Private};
use live_domain::Change;
use ring_core::Ring;
use ring_table::{InsertFault, Table};
use std::alloc::Global;

impl Live {
    /// Registers a ring of a key under which none stands. Where memory runs out all stays.
    pub(crate) fn register_new(
        &mut self,
        alloc: Global,
        key: &RingKey,
        len: u32,
        pages: &[u64],
    ) -> Result<Outcome, NoMemory>
        requires legal { IsTrue (is_legal len) }
        requires counted { length pages.now ≡ page_count len }
        requires young { self.old.next_serial < 2 ^ 63 }
        requires none { rules.own_ring self.old key.now ≡ None }
        ensures outcome { IfOk result
            (λ o. o ≡ (new_if_free self.old key.now len pages.now).outcome) }
        ensures left { OnOk result
            (self.new ≡ after self.old (new_if_free self.old key.now len pages.now)) }
        ensures err { OnErr result (self.new ≡ self.old) }
    {
        let row = match self.private.lend(pages) {
            Ok(row) => row,
            Err(LendFault::Pages) => return Ok(Outcome::Refused(Errno::Inval)),
            Err(LendFault::NoMemory) => return Err(NoMemory),
        };
        let word = tx_word(&row);
        let ring = ring_on(alloc, self.dom, key, len, row);
        if let Err(ring) = insert(&mut self.rings, *key, self.next_serial, ring) {
            self.private.give_back(unstarted(ring, word));
            return Err(NoMemory);
        }
        settle(self.homes.as_mut_slice(), key, pages);
        self.next_serial += 1;
        Ok(Outcome::Done)
    }

    /// Registers a ring that stands anew. Where memory runs out all stays.
    pub(crate) fn register_anew(
        &mut self,
        alloc: Global,
        key: &RingKey,
        len: u32,
        pages: &[u64],
    ) -> Result<Change, NoMemory>
        requires legal { IsTrue (is_legal len) }
        requires counted { length pages.now ≡ page_count len }
        requires stands { IsTrue (rules.has_ring self.old key.now) }
        ensures outcome { IfOk result
            (λ c. c.outcome ≡ (anew_if_free self.old key.now len pages.now).outcome) }
        ensures signals { IfOk result
            (λ c. c.signals.items ≡ (anew_if_free self.old key.now len pages.now).signals) }
        ensures left { OnOk result
            (self.new ≡ after self.old (anew_if_free self.old key.now len pages.now)) }
        ensures err { OnErr result (self.new ≡ self.old) }
    {
        let Some(ring) = self.rings.find_exact_mut(*key) else {
            return Ok(Change::quiet(alloc, Outcome::Done));
        };
        ring.len();
        ring.row().count();
        if stands_so(ring, len, pages) {
            return Ok(Change::quiet(alloc, Outcome::Done));
        }
        let mut signals = room_for(alloc, ring)?;
        clear(self.homes.as_mut_slice(), ring.row());
        match restart(ring, len, &mut self.private, pages) {
            Ok(ended) => {
                settle(self.homes.as_mut_slice(), key, pages);
                list(&mut signals, &ended);
                Ok(Change {
                    outcome: Outcome::Done,
                    signals,
                })
            }
            Err(fault) => {
                settle_row(self.homes.as_mut_slice(), key, ring.row());
                match fault {
                    LendFault::Pages => Ok(Change::quiet(alloc, Outcome::Refused(Errno::Inval))),
                    LendFault::NoMemory => Err(NoMemory),
                }
            }
        }
    }
}

// A new ring of this owner on these pages.
fn ring_on(alloc: Global, owner: DomId, key: &RingKey, len: u32, row: PageRow) -> Ring
    requires legal { IsTrue (is_legal len) }
    requires counted { length row ≡ page_count len }
    ensures new { (serial : ℕ) → paged serial result ≡ ring_on serial len row }
    ensures key { key_in result.id ≡ key.now }
    ensures sized { length (row_bytes result.row) ≡ page_bytes * length result.row }
{
    let id = RingId {
        owner,
        port: key.port,
        partner: key.partner,
    };
    let ring = Ring::new(alloc, id, len, row);
    ring.row().count();
    ring
}

// Puts a ring in, or gives it back where memory runs out.
fn insert(rings: &mut Table<Ring>, key: RingKey, serial: u64, ring: Ring) -> Result<(), Ring>
    requires none { held_at rings.old key ≡ None }
    ensures ok { OnOk result (rings.new ≡ with_row rings.old key serial ring) }
    ensures kept { OnErr result (rings.new ≡ rings.old) }
    ensures given_back { IfErr result (λ r. r ≡ ring) }
{
    match rings.insert(key, serial, ring) {
        Ok(()) => Ok(()),
        Err(InsertFault::Full(ring)) => Err(ring),
        Err(InsertFault::NoMemory(ring)) => Err(ring),
    }
}

// Starts a ring on other pages: the domains whose notices are too big for it.
fn restart(
    ring: &mut Ring,
    len: u32,
    private: &mut Private,
    pages: &[u64],
) -> Result<Ended, LendFault>
    requires legal { IsTrue (is_legal len) }
    requires counted { length pages.now ≡ page_count len }
    ensures ended { IfOk result
        (λ doms. doms ≡ doms_of (filter (never_fits len) ring.old.notices)) }
    ensures left { OnOk result (Becomes ring.old ring.new
        (restarted len pages.now (lent_bytes (given_back private.old ring.old) pages.now))) }
    ensures lent { OnOk result
        (private.new ≡ without (given_back private.old ring.old) pages.now) }
    ensures could { OnOk result
        (IsTrue (can_lend (given_back private.old ring.old) pages.now)) }
    ensures pages { result ≡ Err LendFault.Pages
        → IsFalse (can_lend (given_back private.old ring.old) pages.now) }
    ensures err { OnErr result (ring.new ≡ ring.old) }
    ensures err_private { OnErr result (private.new ≡ private.old) }
    ensures id { ring.new.id ≡ ring.old.id }
    ensures whole { All (λ p. length p.1 ≡ page_bytes) ring.old.row }
    ensures sized { length (row_bytes ring.new.row) ≡ page_bytes * length ring.new.row }
{
    ring.row().count();
    let ended = ring.restart(len, private, pages);
    ring.row().count();
    ended
}

// The pages of a ring that was never listed, with the tx word that they had before it started.
fn unstarted(ring: Ring, word: [u8; 4]) -> PageRow
    requires { 0 < length ring.row }
    ensures numbers { numbers_of result ≡ numbers_of ring.row }
    ensures bytes { row_bytes result ≡ splice (row_bytes ring.row) 4 word }
    ensures whole { All (λ p. length p.1 ≡ page_bytes) result }
{
    let (mut row, _) = ring.into_parts();
    row.write(0, 4, word.as_slice());
    row.count();
    row
}

// The bytes of a row's tx word.
fn tx_word(row: &PageRow) -> [u8; 4]
    requires { 0 < length row.now }
    ensures { result ≡ take 4 (drop 4 (row_bytes row.now)) }
{
    let mut word = [0; 4];
    row.read(0, 4, word.as_mut_slice());
    word
}

// Whether a ring is clean, of this length and on exactly these pages.
fn stands_so(ring: &Ring, len: u32, pages: &[u64]) -> bool
    ensures { (serial : ℕ) → result ≡ rules.stands_so (paged serial ring.now).ring len pages.now }
{
    ring.clean() && ring.len() == len && stands_on(ring.row(), pages)
}

// Whether a row has exactly the pages of these numbers.
fn stands_on(row: &PageRow, pages: &[u64]) -> bool
    ensures { result ≡ bytes_eq (numbers_of row.now) pages.now }
{
    if row.count() != pages.len() {
        return false;
    }
    for place in 0..row.count() {
        if row.number(place) != pages[place] {
            return false;
        }
    }
    true
}

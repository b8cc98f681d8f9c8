//! A ring that is registered anew: with another length, on other pages of its owner.
ghost use Rattle.std.specs.Prelude.{◌≡◌, filter, length, IsTrue, IsFalse, Err, IfOk, OnOk, OnErr};
ghost use Rattle.argo_base.specs.Notices.{never_fits, doms_of};
ghost use Rattle.argo_base.specs.Slots.{is_legal, page_count};
ghost use Rattle.guest_pages.specs.Pages.{can_lend, row_of, with_row, without};
ghost use Rattle.ring_core.specs.Held.{Becomes, Keeps};
ghost use Rattle.ring_core.specs.Restarts.{given_back, lent_bytes, restarted};

use crate::ring::Ring;
use crate::start::Start;
use argo_base::Ended;
use guest_pages::{LendFault, PageRow, Private};
use std::mem::replace;

impl Ring {
    /// Gives the ring's pages back to `private`, takes those of the numbers, which may be among them, and starts with `len` slot
    /// bytes. It keeps the notices that can still fit, and gives the domains of those that end, which are to be signalled. Where
    /// the pages cannot be lent, all stays.
    pub fn restart(
        &mut self,
        len: u32,
        private: &mut Private,
        numbers: &[u64],
    ) -> Result<Ended, LendFault>
        requires legal { IsTrue (is_legal len) }
        requires counted { length numbers.now ≡ page_count len }
        ensures ended { IfOk result
            (λ doms. doms ≡ doms_of (filter (never_fits len) self.old.notices)) }
        ensures left { OnOk result (Becomes self.old self.new
            (restarted len numbers.now
            (lent_bytes (given_back private.old self.old) numbers.now))) }
        ensures lent { OnOk result
            (private.new ≡ without (given_back private.old self.old) numbers.now) }
        ensures could { OnOk result
            (IsTrue (can_lend (given_back private.old self.old) numbers.now)) }
        ensures pages { result ≡ Err LendFault.Pages
            → IsFalse (can_lend (given_back private.old self.old) numbers.now) }
        ensures err { OnErr result (self.new ≡ self.old) }
        ensures err_private { OnErr result (private.new ≡ private.old) }
        ensures keeps { Keeps self.old self.new }
    {
        exchange(&mut self.row, private, numbers)?;
        let start = Start::on(&mut self.row, len);
        self.len = len;
        self.tx = start.tx;
        self.clean = start.clean;
        self.untaken.clear();
        Ok(self.notices.take_too_big(len))
    }
}

// Gives a row back and takes the pages of the numbers. Where they cannot be lent, all stays.
fn exchange(row: &mut PageRow, private: &mut Private, numbers: &[u64]) -> Result<(), LendFault>
    ensures row { OnOk result (row.new ≡ row_of (with_row private.old row.old) numbers.now) }
    ensures lent { OnOk result (private.new ≡ without (with_row private.old row.old) numbers.now) }
    ensures could { OnOk result (IsTrue (can_lend (with_row private.old row.old) numbers.now)) }
    ensures pages { result ≡ Err LendFault.Pages
        → IsFalse (can_lend (with_row private.old row.old) numbers.now) }
    ensures err { OnErr result (row.new ≡ row.old) }
    ensures err_private { OnErr result (private.new ≡ private.old) }
{
    let none = private.lend(&[])?;
    let old = replace(row, none);
    match private.exchange(old, numbers) {
        Ok(new) => {
            *row = new;
            Ok(())
        }
        Err((old, fault)) => {
            *row = old;
            Err(fault)
        }
    }
}

//! The pages of a domain that stand in no ring.
ghost use Rattle.std.specs.Prelude.{◌≡◌, ◌+◌, ◌≤◌, length, take, drop, replicate, IsTrue, IsFalse, is_some, option_map, Some, None, Err, IfSome, IfNone, IfOk, OnOk, IfErr, OnErr};
ghost use Rattle.std.specs.List.{All};
ghost use Rattle.argo_base.specs.Limits.{page_bytes};
ghost use Rattle.guest_pages.specs.PageBytes.{zero_page, IsWhole};
ghost use Rattle.guest_pages.specs.Pages.{page_at, with_written, can_lend, row_of, without, with_row};

use crate::lazy_page::LazyPage;
use crate::swaps::{allocate, blanks, swap_back, swap_in};
use crate::zero_page::ZeroPage;
use crate::{LendFault, PageRow};
use argo_base::{Bytes, NoMemory};
use std::alloc::Global;
use std::marker::Model;

/// The pages of a domain, by number. Contracts see a list: under each number the page's bytes, or none where it is lent.
#[derive(Debug, Drop)]
pub struct Private {
    slots: Vec<Option<LazyPage>>,
    /// What pages that were never written show.
    zeros: ZeroPage,
}

impl Model for Private {
    ghost use Rattle.std.specs.Prelude.{ℕ, List, Option};
    ghost use Rattle.guest_pages.specs.Allocated.{shown};
    ghost use Rattle.guest_pages.specs.PrivateInside.{ArePages};

    ghost Value = { List (Option (List ℕ)) };

    ghost view = { λ p. shown p.slots.items };

    ghost invariant = { λ p. ArePages (shown p.slots.items) };
}

impl Private {
    /// Pages 0 to `count - 1`, all of zeros. A page takes its memory when it is written first, or lent.
    pub fn new(alloc: Global, count: u32) -> Result<Private, NoMemory>
        ensures { IfOk result (λ p. p ≡ replicate count (Some zero_page)) }
    {
        let mut slots = Vec::with_capacity(alloc, count as usize)?;
        for _ in 0..count {
            slots.push(Some(LazyPage::new()))?;
        }
        Ok(Private {
            slots,
            zeros: ZeroPage::new(alloc)?,
        })
    }

    /// The count of the domain's pages, the lent ones too.
    pub fn count(&self) -> u32
        ensures count { result ≡ length self.now }
        ensures whole { All IsWhole self.now }
    {
        self.slots.len() as u32
    }

    /// A copy of `n` bytes of a page from an offset on, or none where the page is absent or lent.
    pub fn read(&self, page: u64, off: u32, n: u32) -> Result<Option<Bytes>, NoMemory>
        requires { off + n ≤ page_bytes }
        ensures { IfOk result
            (λ r. r ≡ option_map (λ p. take n (drop off p)) (page_at self.now page)) }
    {
        let Some(Some(page)) = self.slots.get(page as usize) else {
            return Ok(None);
        };
        Ok(Some(page.copy(&self.zeros, off, n)?))
    }

    /// The bytes of a page, or none where the page is absent or lent.
    pub fn page(&self, page: u64) -> Option<&[u8]>
        ensures some { IfSome result (λ bytes. page_at self.now page ≡ Some bytes.now) }
        ensures none { IfNone result (page_at self.now page ≡ None) }
        ensures whole { IfSome result (λ bytes. length bytes.now ≡ page_bytes) }
    {
        let Some(Some(page)) = self.slots.get(page as usize) else {
            return None;
        };
        Some(page.bytes(&self.zeros))
    }

    /// Writes into a page from an offset on; false where the page is absent or lent. The first write into a page takes
    /// the page's memory.
    pub fn write(&mut self, page: u64, off: u32, bytes: &[u8]) -> Result<bool, NoMemory>
        requires { off + length bytes.now ≤ page_bytes }
        ensures found { IfOk result (λ found. found ≡ is_some (page_at self.old page)) }
        ensures written { OnOk result (self.new ≡ with_written self.old page off bytes.now) }
        ensures err { OnErr result (self.new ≡ self.old) }
    {
        if page >= self.slots.len() as u64 {
            return Ok(false);
        }
        let slot = &mut self.slots[page as usize];
        let Some(page) = slot else {
            return Ok(false);
        };
        page.write(&self.zeros, off, bytes)?;
        Ok(true)
    }

    /// Hands out the pages of these numbers, in this order.
    pub fn lend(&mut self, numbers: &[u64]) -> Result<PageRow, LendFault>
        ensures row { IfOk result (λ row. row ≡ row_of self.old numbers.now) }
        ensures left { OnOk result (self.new ≡ without self.old numbers.now) }
        ensures could { OnOk result (IsTrue (can_lend self.old numbers.now)) }
        ensures pages { result ≡ Err LendFault.Pages → IsFalse (can_lend self.old numbers.now) }
        ensures err { OnErr result (self.new ≡ self.old) }
    {
        let alloc = *self.slots.allocator();
        let mut places = blanks(alloc, numbers)?;
        swap_in(&mut self.slots, &mut places);
        let Err(fault) = allocate(&self.zeros, &mut places) else {
            return Ok(PageRow { places });
        };
        swap_back(&mut self.slots, &mut places);
        Err(fault)
    }

    /// Takes a row back and hands out the pages of these numbers, which may be among those of the row. Where the pages
    /// cannot be lent, the old row comes back.
    pub fn exchange(
        &mut self,
        old: PageRow,
        numbers: &[u64],
    ) -> Result<PageRow, (PageRow, LendFault)>
        ensures row { IfOk result (λ row. row ≡ row_of (with_row self.old old) numbers.now) }
        ensures left { OnOk result (self.new ≡ without (with_row self.old old) numbers.now) }
        ensures could { OnOk result (IsTrue (can_lend (with_row self.old old) numbers.now)) }
        ensures pages { IfErr result
            (λ e. e.1 ≡ LendFault.Pages → IsFalse (can_lend (with_row self.old old) numbers.now)) }
        ensures old_back { IfErr result (λ e. e.0 ≡ old) }
        ensures err { OnErr result (self.new ≡ self.old) }
    {
        let alloc = *self.slots.allocator();
        let mut places = match blanks(alloc, numbers) {
            Ok(places) => places,
            Err(NoMemory) => return Err((old, LendFault::NoMemory)),
        };
        let PageRow { places: mut back } = old;
        swap_in(&mut self.slots, &mut back);
        swap_in(&mut self.slots, &mut places);
        let Err(fault) = allocate(&self.zeros, &mut places) else {
            return Ok(PageRow { places });
        };
        swap_back(&mut self.slots, &mut places);
        swap_back(&mut self.slots, &mut back);
        Err((PageRow { places: back }, fault))
    }

    /// Takes a row back: each of its pages whose number is one of the domain's stands here again, in place of a page that
    /// stood there. It takes no memory.
    pub fn give_back(&mut self, row: PageRow)
        ensures { self.new ≡ with_row self.old row }
    {
        let PageRow { mut places } = row;
        swap_in(&mut self.slots, &mut places);
    }
}

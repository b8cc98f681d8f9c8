//! A page of zeros, of which others are copied.
ghost use Rattle.std.specs.Prelude.{◌≡◌, ◌+◌, ◌≤◌, take, drop, IfOk};
ghost use Rattle.argo_base.specs.Limits.{page_bytes};
ghost use Rattle.guest_pages.specs.PageBytes.{zero_page};

use crate::page::Page;
use argo_base::{Bytes, NoMemory};
use std::alloc::Global;
use std::marker::Model;

/// A page of zeros, with the memory that copies of it are made in. A copy of a page that stands there costs less than zeros that
/// are written one by one.
#[derive(Debug, Drop)]
pub(crate) struct ZeroPage {
    alloc: Global,
    page: Page,
}

impl Model for ZeroPage {
    ghost use Rattle.std.specs.Prelude.{◌≡◌, ℕ, List};
    ghost use Rattle.guest_pages.specs.PageBytes.{zero_page};

    ghost Value = { List ℕ };

    ghost view = { λ z. z.page };

    ghost invariant = { λ z. z.page ≡ zero_page };
}

impl ZeroPage {
    pub(crate) fn new(alloc: Global) -> Result<Self, NoMemory> {
        Ok(ZeroPage {
            alloc,
            page: Page::new(alloc)?,
        })
    }

    /// The memory that copies are made in.
    pub(crate) fn allocator(&self) -> Global {
        self.alloc
    }

    /// Another page of zeros.
    pub(crate) fn page(&self) -> Result<Page, NoMemory>
        ensures { IfOk result (λ p. p ≡ zero_page) }
    {
        self.page.twin(self.alloc)
    }

    /// Its bytes.
    pub(crate) fn bytes(&self) -> &[u8]
        ensures { result.now ≡ zero_page }
    {
        self.page.bytes()
    }

    /// A copy of `n` bytes of a page of zeros from an offset on.
    pub(crate) fn copy(&self, off: u32, n: u32) -> Result<Bytes, NoMemory>
        requires { off + n ≤ page_bytes }
        ensures { IfOk result (λ bytes. bytes ≡ take n (drop off zero_page)) }
    {
        self.page.copy(self.alloc, off, n)
    }
}

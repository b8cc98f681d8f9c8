//! A page that takes its memory when it is written first, and a place of a row that may hold one.
ghost use Rattle.std.specs.Prelude.{◌≡◌, ◌+◌, ◌≤◌, [], length, take, drop, IfOk, OnOk, OnErr, Some};
ghost use Rattle.std.specs.Borrow.{sem};
ghost use Rattle.argo_base.specs.Limits.{page_bytes};
ghost use Rattle.argo_base.specs.Splice.{splice};
ghost use Rattle.guest_pages.specs.Allocated.{allocated};
ghost use Rattle.guest_pages.specs.LendingPage.{LendsFrame, LendsLazy, LendsPage};
ghost use Rattle.guest_pages.specs.PageBytes.{page_of, HoldsPage};

use crate::page::Page;
use crate::zero_page::ZeroPage;
use argo_base::{Bytes, NoMemory};
use std::marker::Model;

/// The memory of a page, where it has some.
#[derive(Debug, Drop)]
struct Frame {
    page: Option<Page>,
}

impl Frame {
    fn page_mut(&mut self) -> &mut Page
        requires { HoldsPage self.old.page }
        ensures* writes_back { sem 𝓛 (LendsFrame self.entry result) }
        ensures value { self.old.page ≡ Some result.now }
    {
        match &mut self.page {
            Some(page) => page,
            None => unreachable!(),
        }
    }
}

/// A page, which takes no memory until it is written first or lent. Contracts see no bytes of one that has no memory, and
/// all of its bytes are zero.
#[derive(Debug, Drop)]
pub(crate) struct LazyPage {
    frame: Frame,
}

impl Model for LazyPage {
    ghost use Rattle.std.specs.Prelude.{ℕ, List, [], unwrap_or};

    ghost Value = { List ℕ };

    ghost view = { λ p. unwrap_or p.frame.page [] };
}

impl LazyPage {
    /// A page that was never written.
    pub(crate) fn new() -> Self
        ensures { result ≡ [] }
    {
        LazyPage {
            frame: Frame { page: None },
        }
    }

    /// Takes the page's memory, where it has none.
    pub(crate) fn allocate(&mut self, zeros: &ZeroPage) -> Result<(), NoMemory>
        ensures ok { OnOk result (self.new ≡ page_of self.old) }
        ensures err { OnErr result (self.new ≡ self.old) }
    {
        if let Some(page) = &self.frame.page {
            page.bytes();
            return Ok(());
        }
        self.frame.page = Some(zeros.page()?);
        Ok(())
    }

    /// The page, which has its memory.
    pub(crate) fn page(&self) -> &Page
        requires { length self.now ≡ page_bytes }
        ensures { result.now ≡ self.now }
    {
        match &self.frame.page {
            Some(page) => page,
            None => unreachable!(),
        }
    }

    pub(crate) fn page_mut(&mut self) -> &mut Page
        requires { length self.old ≡ page_bytes }
        ensures* writes_back { sem 𝓛 (LendsPage self.entry result) }
        ensures value { result.now ≡ self.old }
    {
        self.frame.page_mut()
    }

    /// The bytes of the page.
    pub(crate) fn bytes<'a>(&'a self, zeros: &'a ZeroPage) -> &'a [u8]
        ensures value { result.now ≡ page_of self.now }
        ensures whole { length result.now ≡ page_bytes }
    {
        match &self.frame.page {
            Some(page) => page.bytes(),
            None => zeros.bytes(),
        }
    }

    /// A copy of `n` bytes of the page from an offset on.
    pub(crate) fn copy(&self, zeros: &ZeroPage, off: u32, n: u32) -> Result<Bytes, NoMemory>
        requires { off + n ≤ page_bytes }
        ensures { IfOk result (λ bytes. bytes ≡ take n (drop off (page_of self.now))) }
    {
        let Some(page) = &self.frame.page else {
            return Ok(zeros.copy(off, n)?);
        };
        Ok(page.copy(zeros.allocator(), off, n)?)
    }

    /// Writes bytes into the page from an offset on.
    pub(crate) fn write(&mut self, zeros: &ZeroPage, off: u32, bytes: &[u8]) -> Result<(), NoMemory>
        requires { off + length bytes.now ≤ page_bytes }
        ensures ok { OnOk result (self.new ≡ splice (page_of self.old) off bytes.now) }
        ensures err { OnErr result (self.new ≡ self.old) }
    {
        if let Some(page) = &mut self.frame.page {
            page.write(off, bytes);
            return Ok(());
        }
        let mut page = zeros.page()?;
        page.write(off, bytes);
        self.frame.page = Some(page);
        Ok(())
    }
}

/// A place of a row: the number of a page, and the page where it stands there.
#[derive(Debug, Drop)]
pub(crate) struct Lent {
    pub(crate) number: u64,
    pub(crate) page: Option<LazyPage>,
}

impl Lent {
    pub(crate) fn page(&self) -> &LazyPage
        requires { HoldsPage self.now.page }
        ensures value { self.now.page ≡ Some result.now }
        ensures whole { length result.now ≡ page_bytes }
    {
        match &self.page {
            Some(page) => page,
            None => unreachable!(),
        }
    }

    pub(crate) fn page_mut(&mut self) -> &mut LazyPage
        requires { HoldsPage self.old.page }
        ensures* writes_back { sem 𝓛 (LendsLazy self.entry result) }
        ensures value { self.old.page ≡ Some result.now }
        ensures whole { length result.now ≡ page_bytes }
    {
        match &mut self.page {
            Some(page) => page,
            None => unreachable!(),
        }
    }

    /// Takes the page's memory, where a page that has none stands here.
    pub(crate) fn allocate(&mut self, zeros: &ZeroPage) -> Result<(), NoMemory>
        ensures ok { OnOk result (self.new ≡ allocated self.old) }
        ensures err { OnErr result (self.new ≡ self.old) }
    {
        if let Some(page) = &mut self.page {
            page.allocate(zeros)?;
        }
        Ok(())
    }
}

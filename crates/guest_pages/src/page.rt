//! One page that has its memory.
ghost use Rattle.std.specs.Prelude.{◌≡◌, ◌+◌, ◌≤◌, length, take, drop, IfOk};
ghost use Rattle.argo_base.specs.Limits.{page_bytes};
ghost use Rattle.argo_base.specs.Splice.{splice};
ghost use Rattle.guest_pages.specs.PageBytes.{zero_page};

use argo_base::{Bytes, NoMemory};
use std::alloc::Global;
use std::marker::Model;

/// The 4,096 bytes of a page, which stay where they are when the page is moved.
#[derive(Debug, Drop)]
pub(crate) struct Page {
    bytes: Bytes,
}

impl Model for Page {
    ghost use Rattle.std.specs.Prelude.{◌≡◌, ℕ, List, length};
    ghost use Rattle.argo_base.specs.Limits.{page_bytes};

    ghost Value = { List ℕ };

    ghost view = { λ p. p.bytes };

    ghost invariant = { λ p. length p.bytes ≡ page_bytes };
}

impl Page {
    /// A page of zeros.
    pub(crate) fn new(alloc: Global) -> Result<Self, NoMemory>
        ensures { IfOk result (λ p. p ≡ zero_page) }
    {
        Ok(Page {
            bytes: Bytes::from_vec(vec![in alloc; 0u8; 4096]?),
        })
    }

    /// Another page with the same bytes.
    pub(crate) fn twin(&self, alloc: Global) -> Result<Self, NoMemory>
        ensures { IfOk result (λ p. p ≡ self.now) }
    {
        Ok(Page {
            bytes: Bytes::copy_of(alloc, self.bytes())?,
        })
    }

    pub(crate) fn bytes(&self) -> &[u8]
        ensures value { result.now ≡ self.now }
        ensures whole { length self.now ≡ page_bytes }
    {
        self.bytes.as_slice()
    }

    /// A copy of `n` bytes of the page from an offset on.
    pub(crate) fn copy(&self, alloc: Global, off: u32, n: u32) -> Result<Bytes, NoMemory>
        requires { off + n ≤ page_bytes }
        ensures bytes { IfOk result (λ bytes. bytes ≡ take n (drop off self.now)) }
        ensures whole { length self.now ≡ page_bytes }
    {
        let (_, rest) = self.bytes().split_at(off as usize);
        let (part, _) = rest.split_at(n as usize);
        Ok(Bytes::copy_of(alloc, part)?)
    }

    /// Copies bytes of the page from an offset on, as many as the buffer takes.
    pub(crate) fn read(&self, off: u32, buf: &mut [u8])
        requires { off + length buf.old ≤ page_bytes }
        ensures { buf.new ≡ take (length buf.old) (drop off self.now) }
    {
        let (_, rest) = self.bytes().split_at(off as usize);
        let (part, _) = rest.split_at(buf.len());
        buf.copy_from_slice(part);
    }

    /// Writes bytes into the page from an offset on.
    pub(crate) fn write(&mut self, off: u32, bytes: &[u8])
        requires { off + length bytes.now ≤ page_bytes }
        ensures bytes { self.new ≡ splice self.old off bytes.now }
        ensures whole { length self.old ≡ page_bytes }
    {
        self.bytes.write(off as usize, bytes);
    }
}

//! The memory of a domain, with the pages that stand in its rings.
ghost use Rattle.std.specs.Prelude.{◌≡◌, ◌*◌, IfOk, take, drop};
ghost use Rattle.argo_base.specs.Limits.{page_bytes};

use crate::live::Live;
use argo_base::{Bytes, NoMemory, PAGE_BYTES, Piece};
use argo_model::Outcome;
use std::alloc::Global;

impl Live {
    /// A copy of a page, or nothing where the domain has no such page.
    pub(crate) fn page(&self, alloc: Global, page: u32) -> Result<Bytes, NoMemory>
        ensures { IfOk result
            (λ bytes. bytes ≡ take page_bytes (drop (page_bytes * page) self.now.bytes)) }
    {
        self.private.count();
        let piece = Piece {
            page: page as u64,
            off: 0,
            n: PAGE_BYTES,
        };
        match self.fetch(alloc, piece)? {
            Outcome::Bytes(bytes) => Ok(bytes),
            _ => Ok(Bytes::new(alloc)),
        }
    }
}

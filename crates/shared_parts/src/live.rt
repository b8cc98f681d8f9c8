//! What a domain has that is alive, behind its locks.
use crate::rings::Rings;
use argo_base::NoMemory;
use guest_pages::Private;
use lock_tokens::{Gate, RwGate};
use send_list::SendList;
use std::alloc::Global;
use wildcard_list::WildList;

/// What a domain has that is alive, each part behind a lock of its own.
#[derive(Drop)]
pub struct Live {
    /// Its rings, and which of its pages stand in them.
    pub rings: RwGate<Rings, 2>,
    /// The rings that others registered for it alone.
    pub sends: Gate<SendList, 4>,
    /// The wildcard rings that hold a notice of it.
    pub wilds: Gate<WildList, 5>,
    /// Its pages that stand in no ring.
    pub private: Gate<Private, 6>,
}

impl Live {
    /// A domain with so many pages of zeros, without rings.
    pub fn fresh(alloc: Global, pages: u32) -> Result<Live, NoMemory> {
        let rings = Rings::new(alloc, pages)?;
        let private = Private::new(alloc, pages)?;
        Ok(Live {
            rings: RwGate::new(rings),
            sends: Gate::new(SendList::new(alloc)),
            wilds: Gate::new(WildList::new(alloc)),
            private: Gate::new(private),
        })
    }
}

//! A run as it stands: its domains with all that they hold, and the replies of each section with their steps.

use crate::{NoticeLines, Reply};
use argo_base::{Bytes, DomId, Items, Messages, PageList, RingKey};

/// A ring as it stands, with its serial and its pages, which no report shows.
#[derive(Debug, Drop)]
pub struct ClosedRing {
    pub key: RingKey,
    pub serial: u64,
    pub len: u32,
    pub tx: u32,
    pub clean: bool,
    pub untaken: Messages,
    pub notices: NoticeLines,
    pub pages: PageList,
}

/// The rings of a domain by rising port, then rising partner.
pub type ClosedRings = Items<ClosedRing>;

/// A domain as it stands. One that is gone has a clear flag, no bytes and no rings.
#[derive(Debug, Drop)]
pub struct ClosedDomain {
    pub id: DomId,
    pub alive: bool,
    pub generation: u32,
    pub flag: bool,
    /// Its memory, 4,096 bytes a page.
    pub pages: Bytes,
    pub rings: ClosedRings,
}

/// The domains by rising id.
pub type ClosedDomains = Items<ClosedDomain>;

/// A reply of a section, and the number of the section's step at which it came, from 1.
#[derive(Debug, Drop)]
pub struct HeardLine {
    pub reply: Reply,
    pub step: u64,
}

/// The replies of one section, first to last.
pub type HeardLines = Items<HeardLine>;

/// The replies of every section, by the section's number.
pub type Heard = Items<HeardLines>;

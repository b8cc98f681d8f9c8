//! What a report shows of a run.

use crate::Reply;
use argo_base::{Bytes, DomId, Items, Messages, RingKey};

/// So many steps of one section, one after another.
#[derive(Clone, Copy, Debug, PartialEq, Eq)]
pub struct Run {
    pub vcpu: u32,
    pub count: u64,
}

/// A schedule, in its order. No two neighbours are of one section.
pub type Runs = Items<Run>;

/// A line that is done: its section, its place there from 1, and its reply.
#[derive(Debug, Drop)]
pub struct DoneLine {
    pub vcpu: u32,
    pub line: u32,
    pub reply: Reply,
}

/// The lines that are done, in the order in which their replies came.
pub type DoneList = Items<DoneLine>;

/// What a section did: its steps, its accepted sends, and the bytes of their bodies.
#[derive(Clone, Copy, Debug, PartialEq, Eq)]
pub struct Totals {
    pub steps: u64,
    pub accepted: u64,
    pub bytes: u64,
}

/// The totals of each section, by its number.
pub type TotalList = Items<Totals>;

/// A sender that waits for room, and the size of body that it waits for.
#[derive(Clone, Copy, Debug, PartialEq, Eq)]
pub struct NoticeLine {
    pub dom: DomId,
    pub size: u32,
}

/// The notices of a ring, by rising domain.
pub type NoticeLines = Items<NoticeLine>;

/// A ring as it stands at the end.
#[derive(Debug, Drop)]
pub struct FinalRing {
    pub key: RingKey,
    pub len: u32,
    pub tx: u32,
    pub clean: bool,
    pub untaken: Messages,
    pub notices: NoticeLines,
    pub slots: Bytes,
}

/// The rings of a domain, by rising port, then rising partner.
pub type FinalRings = Items<FinalRing>;

/// A domain as it stands at the end. One that is gone has a clear flag and no rings.
#[derive(Debug, Drop)]
pub struct FinalDomain {
    pub id: DomId,
    pub on: bool,
    pub alive: bool,
    pub generation: u32,
    pub flag: bool,
    pub rings: FinalRings,
}

/// The domains of a script, by rising id.
pub type FinalDomains = Items<FinalDomain>;

/// All that a report shows of a run: the schedule, the lines done in order of completion, the domains by rising id, and
/// the totals of each section.
#[derive(Debug, Drop)]
pub struct Final {
    /// The script format, 1 or 2.
    pub version: u32,
    pub runs: Runs,
    pub done: DoneList,
    pub domains: FinalDomains,
    pub totals: TotalList,
}

//! The domains as they stand after the last step.
ghost use Rattle.std.specs.Prelude.{◌≡◌, IfOk};
ghost use Rattle.shared_parts.specs.Closed.{AreRowsOf, Rise};

use crate::domain::Domain;
use crate::domains::Domains;
use crate::live::Live;
use crate::plan::Plan;
use crate::rings::Rings;
use argo_base::{Bytes, DomId, NoMemory, PAGE_BYTES, PageList};
use argo_model::{ClosedDomain, ClosedDomains, ClosedRing, ClosedRings, NoticeLine, NoticeLines};
use guest_pages::{PageRow, Private};
use pending_list::Notices;
use std::alloc::Global;

impl<A: Plan> Domains<A> {
    /// A row for each domain, by rising id, with a clear flag. Where memory runs out, the domains are lost.
    #[tactic(auto, using(crate::proofs::Starts::rows_more))]
    pub fn into_closed(self, alloc: Global) -> Result<ClosedDomains, NoMemory>
        ensures rows { IfOk result (λ rows. AreRowsOf A.facts.domains rows) }
        ensures rise { IfOk result (λ rows. Rise rows) }
    {
        let Domains { domains, .. } = self;
        let mut closed = ClosedDomains::from_vec(Vec::with_capacity(alloc, domains.len())?);
        for (id, domain) in domains {
            closed.push(domain_of(alloc, id, domain)?)?;
        }
        Ok(closed)
    }
}

fn domain_of(alloc: Global, id: DomId, domain: Domain) -> Result<ClosedDomain, NoMemory>
    ensures { IfOk result (λ x. x.id ≡ id) }
{
    let Domain {
        generation,
        life,
        ..
    } = domain;
    let mut closed = ClosedDomain {
        id,
        alive: false,
        generation,
        flag: false,
        pages: Bytes::new(alloc),
        rings: ClosedRings::new(alloc),
    };
    if let Some(live) = life {
        let Live { rings, private, .. } = live;
        let mut private = private.into_inner();
        closed.alive = true;
        closed.rings = rings_of(alloc, rings.into_inner(), &mut private)?;
        closed.pages = memory_of(alloc, &private)?;
    }
    Ok(closed)
}

// The rings by rising key. Their pages become private again.
fn rings_of(alloc: Global, rings: Rings, private: &mut Private) -> Result<ClosedRings, NoMemory> {
    let mut rings = rings;
    let mut closed = ClosedRings::new(alloc);
    for _ in 0..rings.count() {
        let Some(ring) = next_ring(alloc, &mut rings, private)? else {
            break;
        };
        closed.push(ring)?;
    }
    Ok(closed)
}

fn next_ring(
    alloc: Global,
    rings: &mut Rings,
    private: &mut Private,
) -> Result<Option<ClosedRing>, NoMemory> {
    let Some((key, serial)) = rings.first() else {
        return Ok(None);
    };
    let Some(ring) = rings.take(key) else {
        return Ok(None);
    };
    let (len, tx, clean) = (ring.len(), ring.tx(), ring.clean());
    let (row, notices, untaken) = ring.into_all_parts();
    let pages = numbers_of(alloc, &row)?;
    private.give_back(row);
    Ok(Some(ClosedRing {
        key,
        serial,
        len,
        tx,
        clean,
        untaken,
        notices: lines_of(alloc, &notices)?,
        pages,
    }))
}

// The numbers of the pages of a row.
fn numbers_of(alloc: Global, row: &PageRow) -> Result<PageList, NoMemory> {
    let mut numbers = PageList::new(alloc);
    for place in 0..row.count() {
        numbers.push(row.number(place))?;
    }
    Ok(numbers)
}

fn lines_of(alloc: Global, notices: &Notices) -> Result<NoticeLines, NoMemory> {
    let mut lines = NoticeLines::new(alloc);
    for (dom, size) in notices.as_slice() {
        lines.push(NoticeLine {
            dom: *dom,
            size: *size,
        })?;
    }
    Ok(lines)
}

// All pages of a domain, one after another.
fn memory_of(alloc: Global, private: &Private) -> Result<Bytes, NoMemory> {
    let mut memory = Bytes::new(alloc);
    for page in 0..private.count() {
        if let Some(bytes) = private.read(u64::from(page), 0, PAGE_BYTES)? {
            memory.append(bytes.as_slice())?;
        }
    }
    Ok(memory)
}

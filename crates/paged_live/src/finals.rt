//! What a report shows of the rings of a domain, taken out of it.
ghost use Rattle.std.specs.Prelude.{◌≡◌, [], IfOk, map, take, drop};
ghost use Rattle.argo_model.specs.Runs.Final.{notice_line_of};
ghost use Rattle.guest_pages.specs.Rows.{row_bytes};
ghost use Rattle.paged_live.specs.Finals.{final_of, shown_of, TookFirst};

use argo_base::{Bytes, DomId, NoMemory, RingKey};
use argo_model::{FinalRing, FinalRings, NoticeLine, NoticeLines};
use guest_pages::PageRow;
use ring_core::Ring;
use ring_table::Table;
use std::alloc::Global;

/// A row for each ring, by rising key. Where memory runs out all is lost.
pub(crate) fn rings_of(alloc: Global, rings: Table<Ring>) -> Result<FinalRings, NoMemory>
    ensures { IfOk result (λ finals. finals ≡ map final_of rings) }
{
    let mut rings = rings;
    let mut finals = FinalRings::new(alloc);
    while let Some((key, ring)) = take_first(&mut rings) {
        finals.push(ring_of(alloc, key, ring)?)?;
    }
    Ok(finals)
}

// Takes the ring with the least key out.
fn take_first(rings: &mut Table<Ring>) -> Option<(RingKey, Ring)>
    ensures { TookFirst rings.old rings.new result }
{
    let key = rings.first()?.key;
    rings.count();
    let ring = rings.remove(key)?;
    Some((key, ring))
}

fn ring_of(alloc: Global, key: RingKey, ring: Ring) -> Result<FinalRing, NoMemory>
    ensures { IfOk result (λ f. f ≡ shown_of key ring) }
{
    let len = ring.len();
    let tx = ring.tx();
    let clean = ring.clean();
    let (row, notices, untaken) = ring.into_all_parts();
    Ok(FinalRing {
        key,
        len,
        tx,
        clean,
        untaken,
        notices: lines_of(alloc, notices.as_slice())?,
        slots: slots_of(alloc, &row, len)?,
    })
}

/// The notices as a report shows them.
pub(crate) fn lines_of(alloc: Global, notices: &[(DomId, u32)]) -> Result<NoticeLines, NoMemory>
    ensures { IfOk result (λ lines. lines ≡ map notice_line_of notices.now) }
{
    let mut lines = NoticeLines::new(alloc);
    for (dom, size) in notices {
        lines.push(NoticeLine {
            dom: *dom,
            size: *size,
        })?;
    }
    Ok(lines)
}

// The slot bytes of a ring on these pages, each copied once.
fn slots_of(alloc: Global, row: &PageRow, len: u32) -> Result<Bytes, NoMemory>
    ensures { IfOk result (λ bytes. bytes ≡ take len (drop 64 (row_bytes row.now))) }
{
    let mut bytes = Bytes::from_vec(Vec::with_capacity(alloc, len as usize)?);
    let mut header = 64;
    for place in 0..row.count() {
        let page = row.page(place);
        bytes.append(first(after(page, header), len as usize - bytes.len()))?;
        header = 0;
    }
    Ok(bytes)
}

// The bytes after the first n.
fn after(bytes: &[u8], n: usize) -> &[u8]
    ensures { result.now ≡ drop n bytes.now }
{
    if n >= bytes.len() {
        return &[];
    }
    bytes.split_at(n).1
}

// The first n bytes, or all where there are fewer.
fn first(bytes: &[u8], n: usize) -> &[u8]
    ensures { result.now ≡ take n bytes.now }
{
    bytes.split_at(n.min(bytes.len())).0
}

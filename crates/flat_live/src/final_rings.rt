//! What a report shows of the rings of a domain.

ghost use Rattle.std.specs.Prelude.{◌≡◌, ◌*◌, IfOk, map, take, drop};
ghost use Rattle.argo_model.specs.Rules.RingBytes.{ring_bytes, slots};
ghost use Rattle.argo_model.specs.Runs.Final.{final_ring};

use crate::ring::Ring;
use argo_base::{Bytes, NoMemory, RingKey};
use argo_model::{FinalRing, FinalRings};
use std::alloc::Global;
use std::collections::BTreeMap;

/// A row for each ring of a domain with this memory, by rising key.
pub(crate) fn rings_of(
    alloc: Global,
    memory: &[u8],
    rings: BTreeMap<RingKey, Ring>,
) -> Result<FinalRings, NoMemory>
    ensures { IfOk result (λ finals. finals ≡ map (final_ring memory.now) rings.entries) }
{
    let mut rings = rings;
    let mut finals = FinalRings::new(alloc);
    while let Some((key, ring)) = rings.pop_first() {
        finals.push(ring_of(alloc, memory, key, ring)?)?;
    }
    Ok(finals)
}

fn ring_of(alloc: Global, memory: &[u8], key: RingKey, ring: Ring) -> Result<FinalRing, NoMemory>
    ensures { IfOk result (λ f. f ≡ final_ring memory.now (key, ring)) }
{
    let Ring {
        len,
        pages,
        tx,
        clean,
        untaken,
        notices,
        ..
    } = ring;
    Ok(FinalRing {
        key,
        len,
        tx,
        clean,
        untaken: untaken.into_messages(),
        notices: notices.lines(alloc)?,
        slots: slots_of(alloc, memory, pages.as_slice(), len)?,
    })
}

// The slot bytes of a ring on these pages.
fn slots_of(alloc: Global, memory: &[u8], pages: &[u64], len: u32) -> Result<Bytes, NoMemory>
    ensures { IfOk result (λ bytes. bytes ≡ slots len (ring_bytes memory.now pages.now)) }
{
    let mut bytes = Bytes::new(alloc);
    for page in pages {
        bytes.append(page_of(memory, *page))?;
    }
    Bytes::copy_of(alloc, first(after(bytes.as_slice(), 64), len as usize))
}

// The bytes of a page, as far as the memory has them.
fn page_of(memory: &[u8], page: u64) -> &[u8]
    ensures { result.now ≡ take 4096 (drop (4096 * page) memory.now) }
{
    match page.checked_mul(4096) {
        Some(start) => first(after(memory, start), 4096),
        None => &[],
    }
}

// The bytes after the first n.
fn after(bytes: &[u8], n: u64) -> &[u8]
    ensures { result.now ≡ drop n bytes.now }
{
    if n >= bytes.len() as u64 {
        return &[];
    }
    bytes.split_at(n as usize).1
}

// The first n bytes, or all where there are fewer.
fn first(bytes: &[u8], n: usize) -> &[u8]
    ensures { result.now ≡ take n bytes.now }
{
    bytes.split_at(n.min(bytes.len())).0
}

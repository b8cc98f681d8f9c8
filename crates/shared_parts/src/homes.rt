//! In which ring a page stands that is lent.
ghost use Rattle.std.specs.Prelude.{◌≡◌, None, IfOk, replicate};
ghost use Rattle.guest_pages.specs.Rows.{numbers_of};
ghost use Rattle.shared_parts.specs.Homes as places;

use argo_base::{NoMemory, RingKey};
use guest_pages::PageRow;
use std::alloc::Global;

/// Where a page stands that is lent: in which ring, and at which place of its row.
#[derive(Clone, Copy, Debug)]
pub(crate) struct Home {
    pub(crate) key: RingKey,
    pub(crate) place: usize,
}

/// No page of so many stands in a ring.
pub(crate) fn no_homes(alloc: Global, pages: u32) -> Result<Vec<Option<Home>>, NoMemory>
    ensures { IfOk result (λ homes. homes.items ≡ replicate pages None) }
{
    let mut homes = Vec::with_capacity(alloc, pages as usize)?;
    for _ in 0..pages {
        homes.push(None)?;
    }
    Ok(homes)
}

/// Where a page stands, if it stands in a ring.
pub(crate) fn home_at(homes: &[Option<Home>], page: u64) -> Option<Home>
    ensures { result ≡ places.home_at homes.now page }
{
    homes.get(page as usize).copied().unwrap_or(None)
}

/// Notes that the pages of a row stand in the ring of the key.
pub(crate) fn settle_row(homes: &mut Vec<Option<Home>>, key: &RingKey, row: &PageRow)
    ensures { homes.new.items
        ≡ places.settled key.now 0 (numbers_of row.now) homes.old.items }
{
    for place in 0..row.count() {
        note(homes, row.number(place), Some(Home { key: *key, place }));
    }
}

/// Notes that the pages of a row stand in no ring.
pub(crate) fn clear(homes: &mut Vec<Option<Home>>, row: &PageRow)
    ensures { homes.new.items ≡ places.cleared (numbers_of row.now) homes.old.items }
{
    for place in 0..row.count() {
        note(homes, row.number(place), None);
    }
}

// Notes where a page stands, if it is one of the domain's.
fn note(homes: &mut Vec<Option<Home>>, page: u64, home: Option<Home>)
    ensures { homes.new.items ≡ places.with_home page home homes.old.items }
{
    if page < homes.len() as u64 {
        homes[page as usize] = home;
    }
}

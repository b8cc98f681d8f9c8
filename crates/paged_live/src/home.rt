//! In which ring a lent page stands.
ghost use Rattle.std.specs.Prelude.{◌≡◌, ◌<◌, ◌^◌, IfOk, None, length, replicate};
ghost use Rattle.guest_pages.specs.Rows.{numbers_of};
ghost use Rattle.paged_live.specs.Homes as places;

use argo_base::{NoMemory, RingKey};
use guest_pages::PageRow;
use std::alloc::Global;

/// Where a lent page stands: the ring of this key, and the page's place among the ring's.
#[derive(Clone, Copy, Debug)]
pub(crate) struct Home {
    pub(crate) key: RingKey,
    pub(crate) place: u32,
}

/// Where the page of a number stands, where it is lent.
pub(crate) fn home_at(homes: &[Option<Home>], page: u64) -> Option<Home>
    ensures { result ≡ places.home_at homes.now page }
{
    homes.get(page as usize).copied().unwrap_or(None)
}

/// The pages of these numbers stand in the ring of the key.
pub(crate) fn settle(homes: &mut [Option<Home>], key: &RingKey, numbers: &[u64])
    requires { length numbers.now < 2 ^ 32 }
    ensures { homes.new ≡ places.settled key.now 0 numbers.now homes.old }
{
    let mut place = 0;
    for number in numbers {
        set(homes, *number, Some(Home { key: *key, place }));
        place += 1;
    }
}

/// The pages of a row stand in the ring of the key.
pub(crate) fn settle_row(homes: &mut [Option<Home>], key: &RingKey, row: &PageRow)
    requires { length row.now < 2 ^ 32 }
    ensures { homes.new ≡ places.settled key.now 0 (numbers_of row.now) homes.old }
{
    for place in 0..row.count() {
        set(
            homes,
            row.number(place),
            Some(Home {
                key: *key,
                place: place as u32,
            }),
        );
    }
}

/// The pages of a row stand in no ring.
pub(crate) fn clear(homes: &mut [Option<Home>], row: &PageRow)
    ensures { homes.new ≡ places.cleared (numbers_of row.now) homes.old }
{
    for place in 0..row.count() {
        set(homes, row.number(place), None);
    }
}

// Sets the home of a page, where the domain has the page.
fn set(homes: &mut [Option<Home>], page: u64, home: Option<Home>)
    ensures { homes.new ≡ places.with_home page home homes.old }
{
    if page < homes.len() as u64 {
        homes[page as usize] = home;
    }
}

/// No page of so many is lent.
pub(crate) fn no_homes(alloc: Global, count: u32) -> Result<Vec<Option<Home>>, NoMemory>
    ensures { IfOk result (λ homes. homes.items ≡ replicate count None) }
{
    let mut homes = Vec::with_capacity(alloc, count as usize)?;
    for _ in 0..count {
        homes.push(None)?;
    }
    Ok(homes)
}
